//! Refusals.
ghost use Rattle.type_schema.specs.Refusals.{refused, refused_at, Gives};

use a1_base::{Memory, Txt};
use std::alloc::{AllocError, AllocFailed, Global};

/// Why a request is refused.
#[derive(Clone, Copy, Debug, PartialEq, Eq)]
pub enum Word {
    /// The graph belongs to the tenant `sys`.
    System,
    /// The tenant is not there.
    NoTenant,
    /// The tenant is there.
    TenantTaken,
    /// The graph is not there.
    NoGraph,
    /// The graph is there.
    GraphTaken,
    /// No number is left for a graph.
    GraphsFull,
    /// The graph has no type of this name, or it is of edges in place of vertices, or of vertices in place of edges.
    NoType,
    /// The graph has a type of this name.
    TypeTaken,
    /// An attribute has no value.
    Missing,
    /// The type has no such attribute.
    Unknown,
    /// The value is not of the attribute's kind.
    Kind,
    /// The value has too many bytes.
    Long,
    /// The record has too many bytes.
    RecordLong,
    /// The vertex is not there.
    NoVertex,
    /// A vertex of this type and key is there.
    KeyTaken,
    /// The edge is not there.
    NoEdge,
    /// An edge of this type between these vertices is there.
    EdgeTaken,
    /// The type has no such attribute, or it is none that could be added to.
    NoAttr,
    /// The sum is no whole number of 64 bits.
    Overflow,
    /// The request changes too much.
    Large,
    /// The query has too many edge patterns one behind the other.
    Deep,
    /// A set of the query has too many vertices.
    WorkingSet,
}

/// The refusal of a request, which then changes nothing.
#[derive(Debug, Drop)]
pub struct Refusal {
    pub word: Word,
    /// The attribute that `Missing`, `Unknown`, `Kind` and `Long` speak of.
    pub attr: Option<Txt>,
}

/// Why a request, or a part of it, is not done.
#[derive(Debug, Drop)]
pub enum GraphFault {
    Refused(Refusal),
    /// Want of memory.
    Memory,
}

impl From<AllocError> for GraphFault {
    ghost use Rattle.std.specs.Prelude.{◌≡◌};
    ghost use Rattle.type_schema.specs.declared.refusal.GraphFault.TheVariants.{Memory};

    ghost from_gives = { λ _ fault. fault ≡ Memory };

    fn from(_: AllocError) -> Self {
        GraphFault::Memory
    }
}

impl From<Memory> for GraphFault {
    ghost use Rattle.std.specs.Prelude.{◌≡◌};
    ghost use Rattle.type_schema.specs.declared.refusal.GraphFault.TheVariants as fault;

    ghost from_gives = { λ _ f. f ≡ fault.Memory };

    fn from(_: Memory) -> Self {
        GraphFault::Memory
    }
}

impl<T: Drop> From<AllocFailed<T>> for GraphFault {
    ghost use Rattle.std.specs.Prelude.{◌≡◌};
    ghost use Rattle.type_schema.specs.declared.refusal.GraphFault.TheVariants.{Memory};

    ghost from_gives = { λ _ fault. fault ≡ Memory };

    fn from(_: AllocFailed<T>) -> Self {
        GraphFault::Memory
    }
}

/// A refusal that speaks of no attribute.
pub fn refuse<T>(word: Word) -> Result<T, GraphFault>
    ensures { Gives result (Err (refused word)) }
{
    Err(GraphFault::Refused(Refusal { word, attr: None }))
}

/// A refusal that speaks of an attribute.
pub fn refuse_at<T>(alloc: Global, word: Word, attr: &Txt) -> Result<T, GraphFault>
    ensures { Gives result (Err (refused_at word attr.now)) }
{
    let attr = Some(attr.copy(alloc)?);
    Err(GraphFault::Refused(Refusal { word, attr }))
}
