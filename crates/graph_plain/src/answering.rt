//! Answering a query.
ghost use Rattle.type_schema.specs.Refusals.{Gives};
ghost use Rattle.a1ql_plan.specs.Answer.{answer};
ghost use Rattle.graph_plain.specs.Draft.{now_of};

use crate::draft::Draft;
use crate::looking::graph_number;
use a1_base::Memory;
use a1ql_answer::View;
use a1ql_plan::{Types, plan};
use a1ql_reader::{Answer, Ask};
use graph_maps::VerticesOfType;
use std::alloc::Global;
use type_schema::{EdgeName, GraphFault, Record, TypeName, TypeSchema, VertexName};

impl Types for Draft {
    ghost list = { λ d. d.types.now };

    fn schema(&self, name: &TypeName) -> Option<&TypeSchema> {
        self.types.get(name)
    }
}

impl View for Draft {
    ghost graph = { now_of };

    fn vertex(&self, name: &VertexName) -> Option<&Record> {
        self.vertices.get(name)
    }

    fn edges(
        &self,
        alloc: Global,
        out: bool,
        kind: &TypeName,
        vertex: &VertexName,
    ) -> Result<Vec<(&EdgeName, &Record)>, Memory> {
        self.edges.at(alloc, out, kind, vertex)
    }

    fn of_type(
        &self,
        alloc: Global,
        kind: &TypeName,
    ) -> Result<Vec<(&VertexName, &Record)>, Memory> {
        let part = VerticesOfType::new(alloc, kind)?;
        self.vertices.part(alloc, &part)
    }

    fn ordered(&self) {
        self.vertices.ordered();
    }

    fn keyed(&self) {
        self.vertices.keyed();
    }
}

/// What the query is answered, or the first refusal: of its graph's name, of its plan, then `WorkingSet`. `Memory` comes
/// for want of memory alone.
#[tactic(auto, unfolding(a1ql_plan::specs::Answer::answer, type_schema::specs::Refusals::passing))]
pub fn answer(alloc: Global, draft: &Draft, ask: &Ask) -> Result<Answer, GraphFault>
    ensures { Gives result (answer (now_of draft.now) ask.now) }
{
    let number = graph_number(draft, &ask.graph)?;
    let plan = plan(alloc, draft, number, &ask.pattern)?;
    a1ql_answer::answer(alloc, draft, &plan)
}
