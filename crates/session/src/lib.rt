//! Serving: a session's lines, one after another, become its transcript.
//!
//! The session works on a plain graph with a clock. The layer turns requests into effects, answers and stamps; it knows
//! nothing of scripts, texts or the outside.
#![tactic(auto)]

mod serving;
#[cfg(test)]
mod tests;

pub use serving::serve;
