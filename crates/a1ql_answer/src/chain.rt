//! The sets of a chain.
ghost use Rattle.std.specs.Prelude.{◌≡◌, ◌&&◌, ◌||◌, filter, map, IfOk, OnOk};
ghost use Rattle.std.specs.List.{list_any};
ghost use Rattle.std.specs.List.Sorted.{IsStrictlySortedBy};
ghost use Rattle.std.specs.Map.Iter.{deref_pair};
ghost use Rattle.type_schema.specs.declared.names.VertexName as named;
ghost use Rattle.type_schema.specs.Refusals.{Gives};
ghost use Rattle.type_schema.specs.Graph.{vertex_order};
ghost use Rattle.a1ql_plan.specs.Answer.{says, is_vertex, is_over};
ghost use Rattle.a1ql_answer.specs.Steps.{found, ends_at, is_led, is_joined, answer_from};

use crate::View;
use crate::comparing::all_hold;
use crate::matching::stands;
use crate::naming::far;
use crate::rows::answered;
use a1_base::{Memory, WORKING_SET_LIMIT};
use a1ql_plan::{Expand, Plan};
use a1ql_reader::Answer;
use std::alloc::Global;
use std::collections::BTreeSet;
use type_schema::{EdgeName, GraphFault, Record, VertexName, Word, refuse};

/// Those of the vertices that meet the plan's pattern without its hop.
pub fn standing<'a, V: View>(
    alloc: Global,
    view: &V,
    plan: &Plan,
    vertices: &[(&'a VertexName, &'a Record)],
) -> Result<Vec<(&'a VertexName, &'a Record)>, Memory>
    ensures { IfOk result (λ set. map deref_pair set.items
        ≡ filter ((says plan.now).stands (V.graph view.now)) (map deref_pair vertices.now)) }
{
    let mut set = Vec::new(alloc);
    for (vertex, values) in vertices {
        if stands(alloc, view, plan, vertex, values)? {
            set.push((*vertex, *values))?;
        }
    }
    Ok(set)
}

// The vertices of these names that are there.
fn there<'a, V: View>(
    alloc: Global,
    view: &'a V,
    names: &'a BTreeSet<VertexName>,
) -> Result<Vec<(&'a VertexName, &'a Record)>, Memory>
    ensures there { IfOk result (λ set. map deref_pair set.items ≡ found (V.graph view.now) names.now.keys) }
    ensures sorted { IfOk result (λ set. IsStrictlySortedBy vertex_order names.now.keys) }
{
    let mut set = Vec::new(alloc);
    for name in names {
        if let Some(values) = view.vertex(name) {
            set.push((name, values))?;
        }
    }
    Ok(set)
}

// Those of the vertices of these names that meet the plan's pattern without its hop.
fn arriving<'a, V: View>(
    alloc: Global,
    view: &'a V,
    plan: &Plan,
    names: &'a BTreeSet<VertexName>,
) -> Result<Vec<(&'a VertexName, &'a Record)>, Memory>
    ensures { IfOk result (λ set. map deref_pair set.items
        ≡ filter (λ w. (says plan.now).stands (V.graph view.now) w && list_any (is_vertex w.0) names.now.keys)
        (V.graph view.now).vertices) }
{
    view.ordered();
    let there = there(alloc, view, names)?;
    standing(alloc, view, plan, &there)
}

// Adds the far end of the edge, where its comparisons hold.
fn add_end(
    alloc: Global,
    hop: &Expand,
    edge: &EdgeName,
    values: &Record,
    names: &mut BTreeSet<VertexName>,
) -> Result<(), Memory>
    ensures { OnOk result ((w : named.VertexName) → list_any (is_vertex w) names.new.keys
        ≡ (list_any (is_vertex w) names.old.keys || ends_at hop.now w (edge.now, values.now))) }
{
    if all_hold(hop.tests.as_slice(), values) {
        let end = far(alloc, hop.out, edge)?;
        names.insert(end)?;
    }
    Ok(())
}

// Adds the far ends of the vertex' edges.
fn add_ends<V: View>(
    alloc: Global,
    view: &V,
    hop: &Expand,
    vertex: &VertexName,
    names: &mut BTreeSet<VertexName>,
) -> Result<(), Memory>
    ensures { OnOk result ((w : named.VertexName) → list_any (is_vertex w) names.new.keys
        ≡ (list_any (is_vertex w) names.old.keys || is_led (V.graph view.now) hop.now vertex.now w)) }
{
    let edges = view.edges(alloc, hop.out, &hop.kind, vertex)?;
    for (edge, values) in &edges {
        add_end(alloc, hop, edge, values, names)?;
    }
    Ok(())
}

// The far ends of the edges of the set's vertices.
fn ends<V: View>(
    alloc: Global,
    view: &V,
    hop: &Expand,
    set: &[(&VertexName, &Record)],
) -> Result<BTreeSet<VertexName>, Memory>
    ensures { IfOk result (λ names. (w : named.VertexName) → list_any (is_vertex w) names.keys
        ≡ is_joined (V.graph view.now) hop.now (map deref_pair set.now) w) }
{
    let mut names = BTreeSet::new(alloc);
    for (vertex, _) in set {
        add_ends(alloc, view, hop, vertex, &mut names)?;
    }
    Ok(names)
}

// Whether the set is too large.
fn is_over(set: &[(&VertexName, &Record)]) -> bool
    ensures { result ≡ is_over (map deref_pair set.now) }
{
    set.len() > WORKING_SET_LIMIT
}

/// What is answered from a set on: `WorkingSet` where it, or one behind it, has over `WORKING_SET_LIMIT` vertices. The
/// sets behind one that is too large are not looked for.
pub fn answer_from<V: View>(
    alloc: Global,
    view: &V,
    plan: &Plan,
    set: &[(&VertexName, &Record)],
) -> Result<Answer, GraphFault>
    ensures { Gives result (answer_from (V.graph view.now) (says plan.now) (map deref_pair set.now)) }
{
    if is_over(set) {
        return refuse(Word::WorkingSet);
    }
    let Some(hop) = &plan.hop else {
        return Ok(answered(alloc, &plan.select, set)?);
    };
    let hop = hop.get();
    let names = ends(alloc, view, hop, set)?;
    let next = arriving(alloc, view, hop.to.get(), &names)?;
    answer_from(alloc, view, hop.to.get(), &next)
}
