//! The graph as plain ordered maps.
//!
//! Contracts see `Plain` as the graph of the definitions, five ordered lists and the next number. A request is tried out
//! on the graph itself; where an operation is refused, or memory is wanting, what was changed goes back. The layer knows
//! no stamps, sessions or texts of requests.
#![tactic(auto)]

mod acting;
mod answering;
mod changing;
mod comparing;
mod deciding;
#[cfg(test)]
mod deciding_tests;
mod draft;
mod effects;
mod finding;
mod looking;
mod plain;
mod rows;
#[cfg(test)]
mod tests;

pub use plain::Plain;
