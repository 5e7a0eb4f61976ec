//! Replies and transcripts: what a line is answered, its text, and when a transcript is a legal history of the graph.
//!
//! The code gives a reply its bytes; the definitions say what a whole transcript claims. The layer knows requests and
//! their meaning over a graph, and nothing of how they were served.
#![tactic(auto)]

mod printing;
mod reply;
mod transcript;

pub use printing::text;
pub use reply::Reply;
pub use transcript::{Line, Transcript};

#[cfg(test)]
mod tests;
