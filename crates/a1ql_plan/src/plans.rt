//! Plans.
use a1_base::Txt;
use a1_value::Value;
use a1ql_reader::Comparison;
use sqlite_items::{Boxed, Items};
use type_schema::TypeName;

/// A comparison with the value at a place of a record.
#[derive(Debug, Drop)]
pub struct Predicate {
    /// The place of the attribute among those of its type, from 0.
    pub place: usize,
    /// How its value is compared.
    pub op: Comparison,
    /// What it is compared with: a value of the attribute's kind.
    pub value: Value,
}

/// An attribute that is answered.
#[derive(Debug, Drop)]
pub struct Column {
    pub name: Txt,
    /// Its place among those of its type, from 0.
    pub place: usize,
}

/// What is answered of a vertex.
#[derive(Debug, Drop)]
pub enum Projection {
    /// Nothing of it: the vertices are counted.
    Count,
    /// The values of these attributes, in this order.
    Columns(Items<Column>),
}

/// A vertex pattern whose names are resolved.
#[cycle(plans)]
#[derive(Drop)]
pub struct Plan {
    /// The type: one of vertices.
    pub kind: TypeName,
    /// The comparisons, in the order of those of the pattern.
    pub tests: Items<Predicate>,
    /// The edges that such a vertex has.
    pub matches: Items<Expand>,
    /// The next hop of the query.
    pub hop: Option<Boxed<Expand>>,
    /// What is answered, where no hop follows.
    pub select: Projection,
}

/// An edge pattern whose names are resolved, with a plan of the vertex at the edge's other end.
#[cycle(plans)]
#[derive(Drop)]
pub struct Expand {
    /// Whether the edge leads from the vertex that is at hand; else it leads to it.
    pub out: bool,
    /// The type: one of edges.
    pub kind: TypeName,
    /// The comparisons, in the order of those of the pattern.
    pub tests: Items<Predicate>,
    /// The vertex at the other end.
    pub to: Boxed<Plan>,
}
