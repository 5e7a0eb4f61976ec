//! What every crate of the database stands on: addresses, limits, lists of bytes, texts, and the outside as traits.
//!
//! The layer knows nothing of graphs, values or requests. Contracts see `Bin` as a list of bytes, `Txt` as the bytes
//! of a text, and a source or a sink as the bytes that it has left or has taken, with a count of its faults.
#![tactic(auto)]

mod bin;
mod fronts;
mod gate;
mod in_memory;
mod limits;
mod outside;
mod place;
#[cfg(test)]
mod tests;

pub use bin::{Bin, Txt, text_of};
pub use fronts::{
    ReadFault, front_block, front_byte, front_part, front_u32, front_u64, numbers_read_back,
    push_u32, push_u64, u32_at, u64_at,
};
pub use gate::{Gate, NoGate, Point};
pub use in_memory::{MemSink, MemSource};
pub use limits::{
    ACTOR_LIMIT, ATTRIBUTE_LIMIT, CHANGE_BYTES_LIMIT, CHANGE_LIMIT, COLLECTOR_ACTOR,
    DELETION_ACTOR, GRAPH_NUMBER_LIMIT, ITEM_LIMIT, KEY_LIMIT, LAST_STAMP, LINE_LIMIT, NAME_LIMIT,
    NODE_LIMIT, OBJECT_LIMIT, OPENING_STAMP, PATH_LIMIT, READ_LIMIT, RECORD_LIMIT, REGION_LIMIT,
    REGION_WIDTH, SCRIPT_LIMIT, SESSION_LIMIT, SHORT_LIST_AGAIN, SHORT_LIST_LIMIT, STAMP_LIMIT,
    SWEEPER_ACTOR, TEXT_LIMIT, WORKING_SET_LIMIT,
};
pub use outside::{Failed, Sink, Source};
pub use place::{Addr, TxnId};

/// Want of memory: an allocation was refused.
#[derive(Clone, Copy, Debug, PartialEq, Eq)]
pub struct Memory;

impl From<std::alloc::AllocError> for Memory {
    fn from(_: std::alloc::AllocError) -> Self {
        Memory
    }
}

impl<T: Drop> From<std::alloc::AllocFailed<T>> for Memory {
    fn from(_: std::alloc::AllocFailed<T>) -> Self {
        Memory
    }
}
