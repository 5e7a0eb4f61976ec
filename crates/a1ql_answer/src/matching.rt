//! Whether a vertex meets a plan.
ghost use Rattle.std.specs.Prelude.{◌≡◌, map, option_map, IfOk};
ghost use Rattle.std.specs.List.{list_all};
ghost use Rattle.a1ql_plan.specs.Answer.{says, hop_says, next_is_met};
ghost use Rattle.a1ql_answer.specs.Steps.{suits, far_vertex};

use crate::View;
use crate::comparing::all_hold;
use crate::naming::{far, is_of};
use a1_base::Memory;
use a1ql_plan::{Expand, Plan};
use sqlite_items::Boxed;
use std::alloc::Global;
use type_schema::{EdgeName, Record, VertexName};

// Whether the vertex is of the plan's type, and its comparisons hold.
fn suits(plan: &Plan, vertex: &VertexName, values: &Record) -> bool
    ensures { result ≡ suits plan.now (vertex.now, values.now) }
{
    is_of(&plan.kind, vertex) && all_hold(plan.tests.as_slice(), values)
}

// The vertex at the far end of the edge, where the edge's comparisons hold.
fn far_vertex<'a, V: View>(
    alloc: Global,
    view: &'a V,
    hop: &Expand,
    edge: &EdgeName,
    values: &Record,
) -> Result<Option<(VertexName, &'a Record)>, Memory>
    ensures { IfOk result (λ v. option_map (λ e. (e.0, e.1.now)) v
        ≡ far_vertex (V.graph view.now) hop.now (edge.now, values.now)) }
{
    if !all_hold(hop.tests.as_slice(), values) {
        return Ok(None);
    }
    let end = far(alloc, hop.out, edge)?;
    match view.vertex(&end) {
        Some(there) => Ok(Some((end, there))),
        None => Ok(None),
    }
}

/// Whether the vertex meets the plan's pattern without its hop.
#[tactic(auto, using(crate::proofs::LevelLemmas::stands_is))]
pub fn stands<V: View>(
    alloc: Global,
    view: &V,
    plan: &Plan,
    vertex: &VertexName,
    values: &Record,
) -> Result<bool, Memory>
    ensures { IfOk result (λ b. b ≡ (says plan.now).stands (V.graph view.now) (vertex.now, values.now)) }
{
    if !suits(plan, vertex, values) {
        return Ok(false);
    }
    are_met(alloc, view, plan.matches.as_slice(), vertex)
}

// Whether the vertex meets the plan's pattern, in which a hop counts as one more match.
#[cycle(matching)]
#[tactic(auto, using(crate::proofs::LevelLemmas::is_met_is))]
fn is_met<V: View>(
    alloc: Global,
    view: &V,
    plan: &Plan,
    vertex: &VertexName,
    values: &Record,
) -> Result<bool, Memory>
    ensures { IfOk result (λ b. b ≡ (says plan.now).is_met (V.graph view.now) (vertex.now, values.now)) }
{
    if !suits(plan, vertex, values) {
        return Ok(false);
    }
    if !are_met(alloc, view, plan.matches.as_slice(), vertex)? {
        return Ok(false);
    }
    is_next_met(alloc, view, &plan.hop, vertex)
}

#[cycle(matching)]
fn are_met<V: View>(
    alloc: Global,
    view: &V,
    hops: &[Expand],
    vertex: &VertexName,
) -> Result<bool, Memory>
    ensures { IfOk result (λ b. b ≡ list_all (λ h. h.is_met (V.graph view.now) vertex.now) (map hop_says hops.now)) }
{
    for hop in hops {
        if !is_hop_met(alloc, view, hop, vertex)? {
            return Ok(false);
        }
    }
    Ok(true)
}

#[cycle(matching)]
fn is_next_met<V: View>(
    alloc: Global,
    view: &V,
    hop: &Option<Boxed<Expand>>,
    vertex: &VertexName,
) -> Result<bool, Memory>
    ensures { IfOk result (λ b. b ≡ next_is_met (option_map hop_says hop.now) (V.graph view.now) vertex.now) }
{
    match hop {
        Some(hop) => is_hop_met(alloc, view, hop.get(), vertex),
        None => Ok(true),
    }
}

// Whether the vertex has such an edge, with a vertex at its other end that meets the pattern there.
#[cycle(matching)]
#[tactic(auto, using(crate::proofs::LevelLemmas::hop_is_met_is))]
fn is_hop_met<V: View>(
    alloc: Global,
    view: &V,
    hop: &Expand,
    vertex: &VertexName,
) -> Result<bool, Memory>
    ensures { IfOk result (λ b. b ≡ (hop_says hop.now).is_met (V.graph view.now) vertex.now) }
{
    let edges = view.edges(alloc, hop.out, &hop.kind, vertex)?;
    for (edge, values) in &edges {
        if let Some((end, there)) = far_vertex(alloc, view, hop, edge, values)? {
            if is_met(alloc, view, hop.to.get(), &end, there)? {
                return Ok(true);
            }
        }
    }
    Ok(false)
}
