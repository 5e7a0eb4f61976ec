//! The rows in which a store keeps a graph, and changes of them.
use crate::{EdgeName, GraphName, Record, Schema, TypeName, VertexName};
use a1_base::{Bin, Txt};

/// The key of a row.
#[derive(Debug, Drop)]
pub enum StoreKey {
    /// The number that the next graph gets.
    Counter,
    /// A tenant, by its name.
    Tenant(Txt),
    /// A graph.
    Graph(GraphName),
    /// A type.
    TypeKey(TypeName),
    /// A vertex.
    Vertex(VertexName),
    /// An edge.
    Edge(EdgeName),
}

/// The schema of a type, and whether it is one of vertices or of edges.
#[derive(Debug, Drop)]
pub enum TypeSchema {
    /// A type of vertices.
    OfVertices(Schema),
    /// A type of edges.
    OfEdges(Schema),
}

/// The value of a row.
#[derive(Debug, Drop)]
pub enum StoreValue {
    /// That of a tenant: it has no bytes.
    Nothing,
    /// That of the counter, or of a graph: its number.
    Number(u64),
    /// That of a type.
    Schema(TypeSchema),
    /// That of a vertex or an edge.
    Record(Record),
}

/// A row afterwards: its value, or none where the row is gone.
#[derive(Debug, Drop)]
pub struct RowChange {
    pub key: StoreKey,
    pub value: Option<StoreValue>,
}

/// A row afterwards, with the bytes of its value.
#[derive(Debug, Drop)]
pub struct Change {
    pub key: StoreKey,
    pub value: Option<Bin>,
}

/// Changes, one behind the other.
#[derive(Debug, Drop)]
pub struct Changes {
    pub steps: Vec<Change>,
}

impl std::marker::Model for Changes {
    ghost use Rattle.std.specs.Prelude.{List};
    ghost use Rattle.type_schema.specs.declared.rows.Change.{Change};

    ghost Value = { List Change };

    ghost view = { λ c. c.steps.items };
}
