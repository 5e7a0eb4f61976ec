//! Patterns of queries, and the reading of one over its JSON tree.
//!
//! A tree stands for a pattern, or for the word by which it is turned away. The layer knows nothing of graphs: whether
//! a type or an attribute is there, and what a pattern finds, is said above it.
#![tactic(auto)]

mod ask;
mod laws;
mod naming;
mod patterns;
mod places;
mod reading;
mod saying;
mod shapes;
#[cfg(test)]
mod tests;
mod values;

pub use ask::{Answer, Ask, Row};
pub use laws::patterns_of_shapes;
pub use patterns::{Comparison, Hop, PatternFault, Select, Test, VertexPattern};
pub use reading::pattern;
pub use values::given_of;
