//! Queries and their answers.
use crate::VertexPattern;
use a1_base::Txt;
use a1_value::Value;
use sqlite_items::Items;
use type_schema::GraphName;

/// A query: what is asked for, and of which graph.
#[derive(Drop)]
pub struct Ask {
    pub graph: GraphName,
    pub pattern: VertexPattern,
}

/// A row of an answer: what is selected of one vertex, each attribute with its value.
#[derive(Drop)]
pub struct Row {
    /// In the order in which they are selected; those of a whole record in the order of the type's attributes.
    pub members: Items<(Txt, Value)>,
}

/// What a query is answered over a graph.
#[derive(Drop)]
pub enum Answer {
    /// A row per vertex, in the order of keys.
    Rows(Items<Row>),
    /// The number of vertices.
    Count(u64),
}
