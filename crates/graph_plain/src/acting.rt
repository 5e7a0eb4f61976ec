//! Doing an action.
ghost use Rattle.std.specs.Prelude.{◌≡◌, OnOk};
ghost use Rattle.type_schema.specs.Graph.{type_order, vertex_order, edge_order};
ghost use Rattle.request_reader.specs.Operations.{after, without_vertex, without_graph};
ghost use Rattle.graph_plain.specs.Draft.{now_of, was_of, IsDue};
ghost use Rattle.graph_plain.specs.Taking.{without_all};

use crate::draft::Draft;
use crate::finding::{edges_in, types_in, vertices_in};
use a1_base::Memory;
use graph_maps::{Edges, Places, Vertices};
use request_reader::Action;
use std::alloc::Global;
use type_schema::{EdgeName, GraphName, TypeName, TypeSchema, VertexName};

// Takes these types out. After `Memory` some of them are out.
fn take_types(types: &mut Places<TypeName, TypeSchema>, names: Vec<TypeName>) -> Result<(), Memory>
    ensures ok { OnOk result (types.new.now ≡ without_all type_order names.items types.old.now) }
    ensures was { types.new.was ≡ types.old.was }
{
    for name in names {
        types.take(name)?;
    }
    Ok(())
}

// Takes these vertices out. After `Memory` some of them are out.
fn take_vertices(vertices: &mut Vertices, names: Vec<VertexName>) -> Result<(), Memory>
    ensures ok { OnOk result (vertices.new.now ≡ without_all vertex_order names.items vertices.old.now) }
    ensures was { vertices.new.was ≡ vertices.old.was }
{
    for name in names {
        vertices.take(name)?;
    }
    Ok(())
}

// Takes these edges out. After `Memory` some of them are out.
fn take_edges(alloc: Global, edges: &mut Edges, names: Vec<EdgeName>) -> Result<(), Memory>
    ensures ok { OnOk result (edges.new.now ≡ without_all edge_order names.items edges.old.now) }
    ensures was { edges.new.was ≡ edges.old.was }
{
    for name in names {
        edges.take(alloc, name)?;
    }
    Ok(())
}

// Takes a vertex with its edges out.
fn drop_vertex(alloc: Global, draft: &mut Draft, name: VertexName) -> Result<(), Memory>
    ensures ok { OnOk result (now_of draft.new ≡ without_vertex (now_of draft.old) name) }
    ensures was { was_of draft.new ≡ was_of draft.old }
{
    let edges = draft.edges.at_vertex(alloc, &name)?;
    take_edges(alloc, &mut draft.edges, edges)?;
    draft.vertices.take(name)?;
    Ok(())
}

// Takes the graph of this number with all that it has out.
fn drop_graph(alloc: Global, draft: &mut Draft, name: GraphName, number: u64) -> Result<(), Memory>
    ensures ok { OnOk result (now_of draft.new ≡ without_graph (now_of draft.old) name number) }
    ensures was { was_of draft.new ≡ was_of draft.old }
{
    let types = types_in(alloc, draft, number)?;
    let vertices = vertices_in(alloc, draft, number)?;
    let edges = edges_in(alloc, draft, number)?;
    take_types(&mut draft.types, types)?;
    take_vertices(&mut draft.vertices, vertices)?;
    take_edges(alloc, &mut draft.edges, edges)?;
    draft.graphs.take(name)?;
    Ok(())
}

/// Does the action. After `Memory`, which comes for want of memory alone, the graph is some other one, and can still go
/// back.
#[tactic(auto, unfolding(request_reader::specs::Operations::after))]
pub fn act(alloc: Global, draft: &mut Draft, action: Action) -> Result<(), Memory>
    requires { IsDue action }
    ensures ok { OnOk result (now_of draft.new ≡ after (now_of draft.old) action) }
    ensures was { was_of draft.new ≡ was_of draft.old }
{
    match action {
        Action::AddTenant(name) => {
            let again = name.copy(alloc)?;
            draft.tenants.put(name, again, ())
        }
        Action::AddGraph { name, number } => {
            let again = name.copy(alloc)?;
            draft.graphs.put(name, again, number)?;
            draft.next = number + 1;
            Ok(())
        }
        Action::DropGraph { name, number } => drop_graph(alloc, draft, name, number),
        Action::AddType { name, schema } => {
            let again = name.copy(alloc)?;
            draft.types.put(name, again, schema)
        }
        Action::WriteVertex { name, values } => {
            let again = name.copy(alloc)?;
            draft.vertices.put(name, again, values)
        }
        Action::DropVertex(name) => drop_vertex(alloc, draft, name),
        Action::AddEdge { name, values } => draft.edges.put(alloc, name, values),
        Action::DropEdge(name) => draft.edges.take(alloc, name),
    }
}
