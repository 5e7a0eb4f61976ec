//! Where a database keeps what must outlive it: a list of items, as a trait, and such a list in memory.
//!
//! A store is a list of items: a put adds one as the last, a get gives one by its index. What an adapter fails to do,
//! it counts as a fault, so that no failure is answered without its cause. The layer knows nothing of scripts, graphs
//! or rows: an item is bytes.
#![tactic(auto)]

mod in_memory;
mod store;

pub use in_memory::MemStore;
pub use store::{Store, StoreMiss};

#[cfg(test)]
mod tests;
