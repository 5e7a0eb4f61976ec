//! Plans of queries: patterns whose names are resolved in one graph.
//!
//! A pattern stands for a plan over the types that a graph has, or for the refusal of the query. The layer reads
//! neither vertices nor edges; what they answer to a plan is said in its definitions.
#![tactic(auto)]

mod depth;
mod plans;
mod predicates;
mod projecting;
mod resolving;
#[cfg(test)]
mod tests;
mod types;

pub use plans::{Column, Expand, Plan, Predicate, Projection};
pub use resolving::plan;
pub use types::Types;
