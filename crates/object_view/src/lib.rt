//! Views of a heap of objects: the trait through which every structure reads and writes, and a plain heap in memory.
//!
//! Contracts see a view by its trace (what was read through it), its overlay (what was written through it), and by
//! which heaps agree with both. The layer knows no trees, graphs or requests.
#![tactic(auto)]

mod mem_view;
mod parts;
#[cfg(test)]
mod tests;
mod view;
mod words;

pub use mem_view::MemView;
pub use parts::{PartFault, look, make, store, take};
pub use view::{Object, View, ViewFault};
pub use words::{addr_of, word_of};
