//! Ordered maps of a graph's parts, each with a way back.
//!
//! Contracts see a map as two ordered lists, its entries now and as they were when they were last kept. What belongs to
//! a graph, a type or a vertex is found by ranges of keys. The layer knows no requests, and not how a graph is made of
//! maps.
#![tactic(auto)]

mod comparing;
mod edges;
#[cfg(test)]
mod edges_tests;
mod exact;
mod half;
mod part;
mod parts;
#[cfg(test)]
mod parts_tests;
mod places;
#[cfg(test)]
mod places_tests;
mod vertices;

pub use edges::Edges;
pub use part::Part;
pub use parts::{EdgesOf, TypesOf, VerticesOf, VerticesOfType};
pub use places::{ExactEq, ExactOrd, Places};
pub use vertices::Vertices;
