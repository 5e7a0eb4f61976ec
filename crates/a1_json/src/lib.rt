//! JSON values with whole numbers (RFC 8259): read from a text, looked into, and written as one.
//!
//! A text stands for a tree, or for the reason why it has none; what is JSON is what the library `serde_json` reads.
//! The layer knows nothing of requests or replies.
#![tactic(auto)]

mod fields;
mod reading;
#[cfg(test)]
mod tests;
mod tree;
mod writing;

pub use fields::{fields_in, items_in, member};
pub use reading::read;
pub use tree::{Json, JsonFault};
pub use writing::{put_member, write};
