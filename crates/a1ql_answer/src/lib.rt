//! Answers of plans over a graph that is seen by look-ups.
//!
//! What a plan is answered is defined as filters of the whole graph; here it is found from the root on, hop by hop, along
//! the edges of the vertices that were found. The layer knows a graph by its look-ups alone, and nothing of how it is kept.
#![tactic(auto)]

mod answering;
mod chain;
mod comparing;
mod laws;
mod matching;
mod naming;
mod rows;
#[cfg(test)]
mod tests;
mod view;

pub use answering::answer;
pub use laws::{first_sets_by_narrowing, hops_by_arrivals, matches_by_edges, sets_one_by_one};
pub use view::View;
