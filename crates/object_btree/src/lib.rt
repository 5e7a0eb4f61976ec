//! Trees of objects: an ordered map from bytes to numbers, in objects over a view.
//!
//! Contracts see a tree by its pairs in order and by the places of its anchor and its nodes (a B-tree; Bayer and
//! McCreight, 1972). The layer knows neither what its keys mean nor who owns a tree.
#![tactic(auto)]

mod bytes;
mod destruction;
mod insertion;
mod interval;
mod lookup;
mod nodes;
mod removal;
mod scan;
#[cfg(test)]
mod tests;
mod tree;

pub use bytes::{entry_of, with_entry};
pub use scan::place_in;
pub use tree::Tree;
