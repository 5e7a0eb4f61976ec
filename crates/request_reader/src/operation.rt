//! Operations on a graph.
use a1_base::Txt;
use a1_value::Given;
use sqlite_items::Items;
use type_schema::{EdgeName, GraphName, Record, TypeName, TypeSchema, VertexName};

/// An end of an edge, as a request names it.
#[derive(Drop)]
pub struct End {
    /// The vertex's type.
    pub kind: Txt,
    /// Its key.
    pub id: Given,
}

/// An operation of a request. The members `v` stand by name in byte order.
#[derive(Drop)]
pub enum Op {
    /// Makes a tenant.
    CreateTenant(Txt),
    /// Makes a graph.
    CreateGraph(GraphName),
    /// Takes a graph with all that it has out of sight.
    DropGraph(GraphName),
    /// Makes a type of vertices or of edges.
    CreateType {
        graph: GraphName,
        name: Txt,
        schema: TypeSchema,
    },
    /// Makes a vertex.
    Put {
        graph: GraphName,
        kind: Txt,
        v: Items<(Txt, Given)>,
    },
    /// Gives a vertex new values of the attributes that are named.
    Set {
        graph: GraphName,
        kind: Txt,
        id: Given,
        v: Items<(Txt, Given)>,
    },
    /// Adds a number to a value of a vertex.
    Add {
        graph: GraphName,
        kind: Txt,
        id: Given,
        attr: Txt,
        by: i64,
    },
    /// Takes a vertex with its edges away.
    Drop {
        graph: GraphName,
        kind: Txt,
        id: Given,
    },
    /// Makes an edge.
    Link {
        graph: GraphName,
        kind: Txt,
        from: End,
        to: End,
        v: Items<(Txt, Given)>,
    },
    /// Takes an edge away.
    Unlink {
        graph: GraphName,
        kind: Txt,
        from: End,
        to: End,
    },
}

/// What an operation does to a graph where nothing stands against it.
#[derive(Drop)]
pub enum Action {
    /// Makes a tenant.
    AddTenant(Txt),
    /// Makes a graph of this number, which is the next one.
    AddGraph { name: GraphName, number: u64 },
    /// Takes the graph of this number with its types, vertices and edges away.
    DropGraph { name: GraphName, number: u64 },
    /// Makes a type.
    AddType { name: TypeName, schema: TypeSchema },
    /// Makes a vertex, or gives it this record.
    WriteVertex { name: VertexName, values: Record },
    /// Takes a vertex with its edges away.
    DropVertex(VertexName),
    /// Makes an edge.
    AddEdge { name: EdgeName, values: Record },
    /// Takes an edge away.
    DropEdge(EdgeName),
}
