//! The versions of one object (multi-version concurrency control; FaRMv2, Shamis et al., SIGMOD 2019).
//!
//! Contracts see a `Chain` as its versions, the newest first, and whether a place for one more is reserved; that their
//! stamps strictly fall is the model's invariant. The layer knows no addresses, locks or transactions.
#![tactic(auto)]

mod chain;

pub use chain::Chain;

#[cfg(test)]
mod tests;
