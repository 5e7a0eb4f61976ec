//! The plain graph.
ghost use Rattle.std.specs.Prelude.{◌≡◌, Decides, IfOk, OnErr};
ghost use Rattle.std.specs.Result.{result_map_both};
ghost use Rattle.type_schema.specs.Refusals.{Gives};
ghost use Rattle.type_schema.specs.Graph.{opening};
ghost use Rattle.a1ql_plan.specs.Answer.{answer};
ghost use Rattle.type_schema.specs.Rows.{rows_as_changes};
ghost use Rattle.request_reader.specs.Operations.{effect};
ghost use Rattle.graph_plain.specs.Trying.{Reaches};

use crate::answering;
use crate::comparing::same_graph;
use crate::draft::Draft;
use crate::effects::effect_of;
use crate::rows::rows_of;
use a1_base::Memory;
use a1ql_reader::{Answer, Ask};
use request_reader::Op;
use std::alloc::Global;
use std::marker::Model;
use type_schema::{GraphFault, RowChange};

/// A graph: tenants, graphs, types, vertices and edges, each in the order of their names.
#[derive(Drop)]
pub struct Plain {
    draft: Draft,
}

impl Model for Plain {
    ghost use Rattle.type_schema.specs.Graph.{Graph};
    ghost use Rattle.graph_plain.specs.Draft.{now_of};

    ghost Value = { Graph };

    ghost view = { λ p. now_of p.draft };
}

impl Plain {
    /// The graph that a database begins with: the tenant `sys` with the graph `sys/names` of number 1, whose one type,
    /// `name`, has vertices with nothing but a text as `id`. `Memory` comes for want of memory alone.
    pub fn opening(alloc: Global) -> Result<Plain, Memory>
        ensures { IfOk result (λ plain. plain ≡ opening) }
    {
        let draft = Draft::opening(alloc)?;
        Ok(Plain { draft })
    }

    /// Does the operations, one behind the other, and gives the rows that they change. After a refusal, and after
    /// `Memory`, the graph is as before. It takes time in what the operations change and a logarithm in what the graph
    /// has; a drop of a graph changes all that belongs to it.
    pub fn effect(&mut self, alloc: Global, ops: &[Op]) -> Result<Vec<RowChange>, GraphFault>
        ensures exact { Reaches (result_map_both (λ rows. rows.items) (λ f. f) result) self.new (effect self.old ops.now) }
        ensures err { OnErr result (self.new ≡ self.old) }
    {
        self.draft.keep();
        match effect_of(alloc, &mut self.draft, ops) {
            Ok(changes) => {
                self.draft.keep();
                Ok(changes)
            }
            Err(fault) => {
                self.draft.back();
                Err(fault)
            }
        }
    }

    /// What a query is answered: the number of the vertices that it finds, or a row of each, in the order of keys; or the
    /// first refusal. It takes time in the edges that it follows and a logarithm in what the graph has; where the root is
    /// not compared with a key, in the vertices of its type too.
    pub fn answer(&self, alloc: Global, ask: &Ask) -> Result<Answer, GraphFault>
        ensures { Gives result (answer self.now ask.now) }
    {
        answering::answer(alloc, &self.draft, ask)
    }

    /// Every tenant, graph, type, vertex and edge, and the next graph's number, as rows in the order of their keys.
    /// `Memory` comes for want of memory alone.
    pub fn rows(&self, alloc: Global) -> Result<Vec<RowChange>, Memory>
        ensures { IfOk result (λ rows. rows.items ≡ rows_as_changes self.now) }
    {
        rows_of(alloc, &self.draft)
    }

    /// Whether both are the same graph. It takes time in what both have, and no memory.
    pub fn equal(&self, other: &Plain) -> bool
        ensures { Decides result (self.now ≡ other.now) }
    {
        same_graph(&self.draft, &other.draft)
    }
}
