//! From a pattern to its plan.
ghost use Rattle.std.specs.Prelude.{◌≡◌, map, option_map};
ghost use Rattle.type_schema.specs.Refusals.{Gives};
ghost use Rattle.a1ql_plan.specs.Plan.{all_of, next_of, expand_of, vertex_of, plan_of};

use crate::depth::is_within;
use crate::predicates::predicates;
use crate::projecting::projection;
use crate::types::{edge_schema, vertex_schema};
use crate::{Expand, Plan, Types};
use a1_base::PATH_LIMIT;
use a1ql_reader::{Hop, VertexPattern};
use sqlite_items::{Boxed, Items};
use std::alloc::Global;
use type_schema::{GraphFault, TypeName, Word, refuse};

#[cycle(resolving)]
#[tactic(auto, unfolding(crate::specs::Plan::vertex_step, type_schema::specs::Refusals::need, type_schema::specs::Refusals::passing), using(crate::proofs::PlanLemmas::at_vertex))]
fn vertex<T: Types>(
    alloc: Global,
    types: &T,
    graph: u64,
    pattern: &VertexPattern,
) -> Result<Plan, GraphFault>
    ensures { Gives result (vertex_of (T.list types.now) graph pattern.now) }
{
    let name = pattern.kind.copy(alloc)?;
    let kind = TypeName { graph, name };
    let Some(schema) = vertex_schema(types, &kind) else {
        return refuse(Word::NoType);
    };
    let tests = predicates(alloc, &schema.attrs, pattern.tests.as_slice())?;
    let matches = matches(alloc, types, graph, pattern.matches.as_slice())?;
    let hop = next(alloc, types, graph, &pattern.hop)?;
    let select = projection(alloc, &schema.attrs, &pattern.select)?;
    Ok(Plan {
        kind,
        tests,
        matches,
        hop,
        select,
    })
}

#[cycle(resolving)]
#[tactic(auto, unfolding(crate::specs::Plan::expand_step, type_schema::specs::Refusals::need, type_schema::specs::Refusals::passing), using(crate::proofs::PlanLemmas::at_expand))]
fn expand<T: Types>(alloc: Global, types: &T, graph: u64, hop: &Hop) -> Result<Expand, GraphFault>
    ensures { Gives result (expand_of (T.list types.now) graph hop.now) }
{
    let name = hop.kind.copy(alloc)?;
    let kind = TypeName { graph, name };
    let Some(schema) = edge_schema(types, &kind) else {
        return refuse(Word::NoType);
    };
    let out = hop.out;
    let tests = predicates(alloc, &schema.attrs, hop.tests.as_slice())?;
    let to = Boxed::new(alloc, vertex(alloc, types, graph, hop.to.get())?)?;
    Ok(Expand {
        out,
        kind,
        tests,
        to,
    })
}

#[cycle(resolving)]
#[tactic(auto, unfolding(type_schema::specs::Refusals::passing))]
fn next<T: Types>(
    alloc: Global,
    types: &T,
    graph: u64,
    hop: &Option<Boxed<Hop>>,
) -> Result<Option<Boxed<Expand>>, GraphFault>
    ensures { Gives result (next_of (option_map (expand_of (T.list types.now) graph) hop.now)) }
{
    match hop {
        Some(hop) => {
            let next = expand(alloc, types, graph, hop.get())?;
            Ok(Some(Boxed::new(alloc, next)?))
        }
        None => Ok(None),
    }
}

#[cycle(resolving)]
#[tactic(auto, using(crate::proofs::EachLemmas::each))]
fn matches<T: Types>(
    alloc: Global,
    types: &T,
    graph: u64,
    hops: &[Hop],
) -> Result<Items<Expand>, GraphFault>
    ensures { Gives result (all_of (map (expand_of (T.list types.now) graph) hops.now)) }
{
    let mut expands = Items::new(alloc);
    for hop in hops {
        expands.push(expand(alloc, types, graph, hop)?)?;
    }
    Ok(expands)
}

/// The plan of a pattern in the graph of this number. First `Deep` is told; then the first of these, in a walk over the
/// pattern: `NoType` of a vertex or an edge pattern; of each of its comparisons in their order `NoAttr` and then `Kind`;
/// those of its matches, in their order; of its hop; `NoAttr` of what it selects.
#[tactic(auto, unfolding(crate::specs::Plan::plan_of, type_schema::specs::Refusals::unless))]
pub fn plan<T: Types>(
    alloc: Global,
    types: &T,
    graph: u64,
    pattern: &VertexPattern,
) -> Result<Plan, GraphFault>
    ensures { Gives result (plan_of (T.list types.now) graph pattern.now) }
{
    if !is_within(pattern, PATH_LIMIT) {
        return refuse(Word::Deep);
    }
    vertex(alloc, types, graph, pattern)
}
