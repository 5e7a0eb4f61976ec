//! What an operation looks up in the graph, in the order in which it does.
ghost use Rattle.std.specs.Prelude.{◌≡◌, IfOk};
ghost use Rattle.std.specs.Result.{result_map_both};
ghost use Rattle.type_schema.specs.Refusals.{Gives};
ghost use Rattle.type_schema.specs.Schemas.{key_of};
ghost use Rattle.type_schema.specs.Lookups.{graph_number, vertex_schema, edge_schema};
ghost use Rattle.request_reader.specs.Operations.{vertex_named, found, between, ends_there};
ghost use Rattle.graph_plain.specs.Draft.{now_of};

use crate::draft::Draft;
use a1_base::Txt;
use a1_value::{Given, Value};
use request_reader::End;
use std::alloc::Global;
use std::marker::Model;
use type_schema::{
    EdgeName, GraphFault, GraphName, Record, Schema, TypeName, TypeSchema, VertexName, Word, key,
    refuse,
};

/// A vertex that is there, with the schema of its type and its record.
#[derive(Drop)]
pub struct Vertex<'a> {
    pub name: VertexName,
    pub schema: &'a Schema,
    pub values: &'a Record,
}

impl<'a> Model for Vertex<'a> {
    ghost use Rattle.request_reader.specs.Operations.{Found};

    ghost Value = { Found };

    ghost view = { λ v. record { name = v.name; schema = v.schema.now; values = v.values.now } };
}

/// An edge that may be there or not, with the schema of its type: the vertices at both ends are there.
#[derive(Drop)]
pub struct Edge<'a> {
    pub name: EdgeName,
    pub schema: &'a Schema,
}

impl<'a> Model for Edge<'a> {
    ghost use Rattle.request_reader.specs.Operations.{Between};

    ghost Value = { Between };

    ghost view = { λ e. record { name = e.name; schema = e.schema.now } };
}

/// The number of the graph of this name, or `NoTenant` where its tenant is not there, or `NoGraph` where it is not.
#[tactic(auto, unfolding(type_schema::specs::Lookups::graph_number, type_schema::specs::Refusals::need))]
pub fn graph_number(draft: &Draft, name: &GraphName) -> Result<u64, GraphFault>
    ensures { Gives result (graph_number (now_of draft.now) name.now) }
{
    if draft.tenants.get(&name.tenant).is_none() {
        return refuse(Word::NoTenant);
    }
    match draft.graphs.get(name) {
        Some(number) => Ok(*number),
        None => refuse(Word::NoGraph),
    }
}

/// The schema of this type of vertices. `NoType` comes where the graph has no type of this name, or one of edges.
#[tactic(auto, unfolding(type_schema::specs::Lookups::vertex_schema, type_schema::specs::Refusals::need))]
pub fn vertex_schema<'a>(
    alloc: Global,
    draft: &'a Draft,
    number: u64,
    kind: &Txt,
) -> Result<&'a Schema, GraphFault>
    ensures { Gives (result_map_both (λ s. s.now) (λ f. f) result) (vertex_schema (now_of draft.now) number kind.now) }
{
    let name = TypeName {
        graph: number,
        name: kind.copy(alloc)?,
    };
    match draft.types.get(&name) {
        Some(TypeSchema::OfVertices(schema)) => Ok(schema),
        _ => refuse(Word::NoType),
    }
}

/// The schema of this type of edges. `NoType` comes where the graph has no type of this name, or one of vertices.
#[tactic(auto, unfolding(type_schema::specs::Lookups::edge_schema, type_schema::specs::Refusals::need))]
pub fn edge_schema<'a>(
    alloc: Global,
    draft: &'a Draft,
    number: u64,
    kind: &Txt,
) -> Result<&'a Schema, GraphFault>
    ensures { Gives (result_map_both (λ s. s.now) (λ f. f) result) (edge_schema (now_of draft.now) number kind.now) }
{
    let name = TypeName {
        graph: number,
        name: kind.copy(alloc)?,
    };
    match draft.types.get(&name) {
        Some(TypeSchema::OfEdges(schema)) => Ok(schema),
        _ => refuse(Word::NoType),
    }
}

// The vertex of this name, or `NoVertex`.
#[tactic(auto, unfolding(type_schema::specs::Refusals::need))]
fn vertex_named<'a>(
    draft: &'a Draft,
    name: VertexName,
    schema: &'a Schema,
) -> Result<Vertex<'a>, GraphFault>
    ensures exact { Gives result (vertex_named (now_of draft.now) name.graph name.kind schema.now name.key) }
    ensures keyed { IfOk result (λ vertex. key_of vertex.values ≡ vertex.name.key) }
{
    draft.vertices.keyed();
    match draft.vertices.get(&name) {
        Some(values) => Ok(Vertex {
            name,
            schema,
            values,
        }),
        None => refuse(Word::NoVertex),
    }
}

/// The vertex of this graph, type and key, or the refusal of the first of these that is not there. Its record has its key
/// first.
#[tactic(auto, unfolding(request_reader::specs::Operations::found, type_schema::specs::Refusals::passing))]
pub fn found<'a>(
    alloc: Global,
    draft: &'a Draft,
    graph: &GraphName,
    kind: &Txt,
    id: &Given,
) -> Result<Vertex<'a>, GraphFault>
    ensures exact { Gives result (found (now_of draft.now) graph.now kind.now id.now) }
    ensures keyed { IfOk result (λ vertex. key_of vertex.values ≡ vertex.name.key) }
{
    let number = graph_number(draft, graph)?;
    let schema = vertex_schema(alloc, draft, number, kind)?;
    let key = key(alloc, schema, id)?;
    let name = VertexName {
        graph: number,
        kind: kind.copy(alloc)?,
        key,
    };
    vertex_named(draft, name, schema)
}

// The edge of this type between two vertices by type and key, or `NoVertex` where one of them is not there.
#[tactic(auto, unfolding(type_schema::specs::Refusals::need))]
fn ends_there<'a>(
    draft: &Draft,
    number: u64,
    kind: Txt,
    from: (Txt, Value),
    to: (Txt, Value),
    schema: &'a Schema,
) -> Result<Edge<'a>, GraphFault>
    ensures { Gives result (ends_there (now_of draft.now) (record {
      graph = number;
      kind = kind;
      from_kind = from.0;
      from = from.1;
      to_kind = to.0;
      to = to.1;
    }) schema.now) }
{
    let source = VertexName {
        graph: number,
        kind: from.0,
        key: from.1,
    };
    if draft.vertices.get(&source).is_none() {
        return refuse(Word::NoVertex);
    }
    let target = VertexName {
        graph: number,
        kind: to.0,
        key: to.1,
    };
    if draft.vertices.get(&target).is_none() {
        return refuse(Word::NoVertex);
    }
    let name = EdgeName {
        graph: number,
        kind,
        from_kind: source.kind,
        from: source.key,
        to_kind: target.kind,
        to: target.key,
    };
    Ok(Edge { name, schema })
}

/// The edge of this type between these two vertices, which may be there or not; or the first refusal: of the three
/// types, then of the two keys, then of the two vertices.
#[tactic(auto, unfolding(request_reader::specs::Operations::between, type_schema::specs::Refusals::passing))]
pub fn between<'a>(
    alloc: Global,
    draft: &'a Draft,
    graph: &GraphName,
    kind: &Txt,
    from: &End,
    to: &End,
) -> Result<Edge<'a>, GraphFault>
    ensures { Gives result (between (now_of draft.now) graph.now kind.now from.now to.now) }
{
    let number = graph_number(draft, graph)?;
    let schema = edge_schema(alloc, draft, number, kind)?;
    let one = vertex_schema(alloc, draft, number, &from.kind)?;
    let two = vertex_schema(alloc, draft, number, &to.kind)?;
    let from_key = key(alloc, one, &from.id)?;
    let to_key = key(alloc, two, &to.id)?;
    let kind = kind.copy(alloc)?;
    let from = (from.kind.copy(alloc)?, from_key);
    let to = (to.kind.copy(alloc)?, to_key);
    ends_there(draft, number, kind, from, to, schema)
}
