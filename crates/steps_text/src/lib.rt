//! The text of the events of the core and of their answers: a line for each.
//!
//! A text stands for its events, or for its first line that is no event's. The layer knows nothing of what an event
//! does.
#![tactic(auto)]

mod fault;
mod forms;
mod laws;
mod lines;
mod printing;
mod words;

pub use fault::TextFault;
pub use laws::{no_fault, one_reading};
pub use lines::read;
pub use printing::print;

#[cfg(test)]
mod tests;
