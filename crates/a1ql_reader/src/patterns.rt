//! Patterns.
use a1_base::Txt;
use a1_value::Given;
use sqlite_items::{Boxed, Items};
use std::alloc::{AllocError, AllocFailed};

/// How a value is compared with that of an attribute.
#[derive(Clone, Copy, Debug, PartialEq, Eq)]
pub enum Comparison {
    /// The attribute's value is equal.
    Eq,
    /// It is different.
    Ne,
    /// It is less.
    Lt,
    /// It is less or equal.
    Le,
    /// It is greater.
    Gt,
    /// It is greater or equal.
    Ge,
}

/// A comparison of an attribute.
#[derive(Debug, Drop)]
pub struct Test {
    /// The attribute: any text that does not begin with `_`.
    pub attr: Txt,
    /// How it is compared.
    pub op: Comparison,
    /// What it is compared with.
    pub value: Given,
}

/// What is answered of a vertex.
#[derive(Debug, Drop)]
pub enum Select {
    /// Its whole record.
    All,
    /// Nothing of it: the vertices are counted.
    Count,
    /// The values of these attributes: 1 to `SELECT_LIMIT` different texts, which need not be names.
    Names(Items<Txt>),
}

/// A vertex pattern. A vertex meets it that is of its type and for which all its comparisons and matches hold.
#[cycle(patterns)]
#[derive(Drop)]
pub struct VertexPattern {
    /// The type: a name.
    pub kind: Txt,
    /// The comparisons, in the byte order of their attributes; of one attribute in the byte order of the operators.
    pub tests: Items<Test>,
    /// The edges that such a vertex has, each with such a vertex as the hop says at its other end.
    pub matches: Items<Hop>,
    /// The next hop of the query.
    pub hop: Option<Boxed<Hop>>,
    /// What is answered, where no hop follows.
    pub select: Select,
}

/// An edge pattern, with a pattern of the vertex at the edge's other end.
#[cycle(patterns)]
#[derive(Drop)]
pub struct Hop {
    /// Whether the edge leads from the vertex that is at hand; else it leads to it.
    pub out: bool,
    /// The type: a name.
    pub kind: Txt,
    /// The comparisons of the edge's attributes, in the order of those of a vertex.
    pub tests: Items<Test>,
    /// The pattern of the vertex at the other end.
    pub to: Boxed<VertexPattern>,
}

/// Why a tree is read as no pattern: the first of these that is true.
#[derive(Clone, Copy, Debug, PartialEq, Eq)]
pub enum PatternFault {
    /// Somewhere in the tree a member is missing, unknown, or of another form than a pattern has.
    Shape,
    /// A `_type` is no name.
    Name,
    /// Want of memory.
    Memory,
}

impl From<AllocError> for PatternFault {
    ghost use Rattle.std.specs.Prelude.{◌≡◌};
    ghost use Rattle.a1ql_reader.specs.declared.patterns.PatternFault.TheVariants.{Memory};

    ghost from_gives = { λ _ fault. fault ≡ Memory };

    fn from(_: AllocError) -> Self {
        PatternFault::Memory
    }
}

impl<T: Drop> From<AllocFailed<T>> for PatternFault {
    ghost use Rattle.std.specs.Prelude.{◌≡◌};
    ghost use Rattle.a1ql_reader.specs.declared.patterns.PatternFault.TheVariants.{Memory};

    ghost from_gives = { λ _ fault. fault ≡ Memory };

    fn from(_: AllocFailed<T>) -> Self {
        PatternFault::Memory
    }
}
