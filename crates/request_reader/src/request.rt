//! What a line asks for.
use crate::Op;
use a1ql_reader::Ask;
use sqlite_items::Items;
use std::alloc::{AllocError, AllocFailed};

/// What a line asks for.
#[derive(Drop)]
pub enum Request {
    /// `{"do":[..]}`: these operations are to be done, one behind the other, all or none.
    Do(Items<Op>),
    /// `{"ask":PATTERN,"graph":G}`: this is asked for.
    Ask(Ask),
    /// `{"after":[S,K]}`: line K of session S, counted from 1, is to be answered first.
    After { session: u32, line: u32 },
}

/// Why a line is no request: the first of these words that is true of it.
#[derive(Clone, Copy, Debug, PartialEq, Eq)]
pub enum BadWord {
    /// It is no JSON text (RFC 8259).
    NotJson,
    /// A number in it is no whole number of 64 bits.
    NotWhole,
    /// It does not have the form of a request: a member is missing, unknown, or of another JSON kind.
    Shape,
    /// A text in the place of a name, or of a graph, is none.
    Name,
    /// A list of attributes breaks its rule.
    Attrs,
}

/// Why a line is not read as a request.
#[derive(Clone, Copy, Debug, PartialEq, Eq)]
pub enum RequestFault {
    /// The line is no request, by this word.
    Bad(BadWord),
    /// Want of memory.
    Memory,
}

impl From<AllocError> for RequestFault {
    ghost use Rattle.std.specs.Prelude.{◌≡◌};
    ghost use Rattle.request_reader.specs.declared.request.RequestFault.TheVariants.{Memory};

    ghost from_gives = { λ _ fault. fault ≡ Memory };

    fn from(_: AllocError) -> Self {
        RequestFault::Memory
    }
}

impl<T: Drop> From<AllocFailed<T>> for RequestFault {
    ghost use Rattle.std.specs.Prelude.{◌≡◌};
    ghost use Rattle.request_reader.specs.declared.request.RequestFault.TheVariants.{Memory};

    ghost from_gives = { λ _ fault. fault ≡ Memory };

    fn from(_: AllocFailed<T>) -> Self {
        RequestFault::Memory
    }
}
