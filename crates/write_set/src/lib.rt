//! What a transaction will write, address by address, in the order of the first writes (the write set of a transaction;
//! Shamis et al., SIGMOD 2019).
//!
//! Contracts see a set as the list of its writes, no two of which have one address. The layer knows nothing of nodes.
#![tactic(auto)]

mod set;
#[cfg(test)]
mod tests;

pub use set::{Write, WriteSet};
