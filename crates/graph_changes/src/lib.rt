//! Lists of changes as bytes: what a log keeps, and, with a tag and a stamp in front of each, what a store keeps.
//!
//! A change list stands for the bytes of its changes, one behind the other. The layer knows the form of each key and
//! value; it knows nothing of what a change does to a graph.
#![tactic(auto)]

mod fault;
mod keys;
mod laws;
mod reading;
mod sizes;
#[cfg(test)]
mod tests;
mod values;
mod writing;

pub use fault::ChangeFault;
pub use laws::rows_read_back;
pub use reading::{front_change, read};
pub use sizes::room_left;
pub use values::{decode_value, encode_value};
pub use writing::{push_change, size, write};
