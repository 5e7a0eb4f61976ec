//! Vertices over a view: a header, a record, and two lists of half-edges, each an object of its own.
//!
//! Contracts see a vertex by its graph, its record and the addresses that its header names. The layer knows neither
//! schemas nor keys, and of lists of half-edges only how an empty one is spelled.
#![tactic(auto)]

mod laws;
mod parts;
#[cfg(test)]
mod tests;
mod vertices;

pub use laws::vertices_apart;
pub use type_schema::{GraphRef, Header};
pub use vertices::{create, destroy, record_of, set};
