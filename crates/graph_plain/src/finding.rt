//! What belongs to a graph.
ghost use Rattle.std.specs.Prelude.{◌≡◌, filter, map, nat_eq, IfOk};
ghost use Rattle.graph_plain.specs.Draft.{now_of};

use crate::draft::Draft;
use a1_base::Memory;
use graph_maps::{EdgesOf, TypesOf, VerticesOf};
use std::alloc::Global;
use type_schema::{EdgeName, TypeName, VertexName};

/// The types of the graph of this number, in their order. `Memory` comes for want of memory alone.
pub fn types_in(alloc: Global, draft: &Draft, number: u64) -> Result<Vec<TypeName>, Memory>
    ensures { IfOk result (λ names. names.items
        ≡ map (λ e. e.0) (filter (λ e. nat_eq e.0.graph number) (now_of draft.now).types)) }
{
    let part = TypesOf::new(alloc, number)?;
    let entries = draft.types.part(alloc, &part)?;
    let mut names = Vec::new(alloc);
    for (name, _) in &entries {
        names.push(name.copy(alloc)?)?;
    }
    Ok(names)
}

/// The vertices of the graph of this number, in their order. `Memory` comes for want of memory alone.
pub fn vertices_in(alloc: Global, draft: &Draft, number: u64) -> Result<Vec<VertexName>, Memory>
    ensures { IfOk result (λ names. names.items
        ≡ map (λ e. e.0) (filter (λ e. nat_eq e.0.graph number) (now_of draft.now).vertices)) }
{
    let part = VerticesOf::new(alloc, number)?;
    let entries = draft.vertices.part(alloc, &part)?;
    let mut names = Vec::new(alloc);
    for (name, _) in &entries {
        names.push(name.copy(alloc)?)?;
    }
    Ok(names)
}

/// The edges of the graph of this number, in their order. `Memory` comes for want of memory alone.
pub fn edges_in(alloc: Global, draft: &Draft, number: u64) -> Result<Vec<EdgeName>, Memory>
    ensures { IfOk result (λ names. names.items
        ≡ map (λ e. e.0) (filter (λ e. nat_eq e.0.graph number) (now_of draft.now).edges)) }
{
    let part = EdgesOf::new(alloc, number)?;
    let entries = draft.edges.part(alloc, &part)?;
    let mut names = Vec::new(alloc);
    for (name, _) in &entries {
        names.push(name.copy(alloc)?)?;
    }
    Ok(names)
}
