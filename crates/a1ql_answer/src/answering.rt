//! Answers of plans.
ghost use Rattle.std.specs.Prelude.{◌≡◌, [], Some, map, option_map, IfOk};
ghost use Rattle.std.specs.Map.Iter.{deref_pair};
ghost use Rattle.type_schema.specs.Graph.{vertex_at};
ghost use Rattle.type_schema.specs.Refusals.{Gives};
ghost use Rattle.a1ql_plan.specs.declared.plans.Plan.{out-Plan};
ghost use Rattle.a1ql_plan.specs.Answer.{answer_of};
ghost use Rattle.a1ql_answer.specs.Steps.{before, asks_key, key_asked, keyed};

use crate::View;
use crate::chain::{answer_from, standing};
use a1_base::Memory;
use a1_value::Value;
use a1ql_plan::{Plan, Predicate};
use a1ql_reader::{Answer, Comparison};
use std::alloc::{AllocError, Global};
use type_schema::{GraphFault, Record, VertexName};

fn asks_key(test: &Predicate) -> bool
    ensures { result ≡ asks_key test.now }
{
    matches!(test.op, Comparison::Eq) && test.place == 0
}

// What the first attribute, which is the key, is to equal.
fn key_asked(tests: &[Predicate]) -> Option<&Value>
    ensures { option_map (λ v. v.now) result ≡ key_asked tests.now }
{
    for test in tests {
        if asks_key(test) {
            return Some(&test.value);
        }
    }
    None
}

// The vertex of the plan's type with this key.
fn keyed(alloc: Global, plan: &Plan, key: &Value) -> Result<VertexName, AllocError>
    ensures { IfOk result (λ name. name ≡ keyed plan.now key.now) }
{
    let graph = plan.kind.graph;
    let kind = plan.kind.name.copy(alloc)?;
    let key = key.copy(alloc)?;
    Ok(VertexName { graph, kind, key })
}

// The vertex of this name, where it is there.
fn there<'a, V: View>(
    alloc: Global,
    view: &'a V,
    name: &'a VertexName,
) -> Result<Vec<(&'a VertexName, &'a Record)>, Memory>
    ensures { IfOk result (λ set. map deref_pair set.items
        ≡ before name.now (vertex_at (V.graph view.now) name.now) []) }
{
    let mut set = Vec::new(alloc);
    if let Some(values) = view.vertex(name) {
        set.push((name, values))?;
    }
    Ok(set)
}

// From the vertex of this key on.
fn by_key<V: View>(alloc: Global, view: &V, plan: &Plan, key: &Value) -> Result<Answer, GraphFault>
    ensures { key_asked (out-Plan plan.now).tests ≡ Some key.now
        → Gives result (answer_of (V.graph view.now) plan.now) }
{
    view.ordered();
    view.keyed();
    let name = keyed(alloc, plan, key)?;
    let there = there(alloc, view, &name)?;
    let set = standing(alloc, view, plan, &there)?;
    answer_from(alloc, view, plan, &set)
}

// From the vertices of the type on.
#[tactic(auto, using(crate::proofs::RootLemmas::from_type))]
fn by_type<V: View>(alloc: Global, view: &V, plan: &Plan) -> Result<Answer, GraphFault>
    ensures { Gives result (answer_of (V.graph view.now) plan.now) }
{
    let all = view.of_type(alloc, &plan.kind)?;
    let set = standing(alloc, view, plan, &all)?;
    answer_from(alloc, view, plan, &set)
}

/// What the plan is answered. `WorkingSet` comes where a set of the chain has over `WORKING_SET_LIMIT` vertices.
pub fn answer<V: View>(alloc: Global, view: &V, plan: &Plan) -> Result<Answer, GraphFault>
    ensures { Gives result (answer_of (V.graph view.now) plan.now) }
{
    match key_asked(plan.tests.as_slice()) {
        Some(key) => by_key(alloc, view, plan, key),
        None => by_type(alloc, view, plan),
    }
}
