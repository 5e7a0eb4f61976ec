//! A clock of stamps: one word that many seats read and add to at the same time, so that each stamp is drawn once.
//!
//! Each thread has a seat, and knows by it a stamp that the clock has reached. Contracts see a seat by its watch: what
//! it knows, which stamps it has drawn, and how often it has added to the clock. What one seat knows another learns by
//! a note. The layer knows nothing of nodes, objects or transactions.
//!
//! The idea is FaRMv2's clock with its read and write timestamps (Shamis et al., "Fast General Distributed Transactions
//! with Opacity", SIGMOD 2019), here for the threads of one machine.
#![tactic(auto)]

mod ends;
mod rule;
mod seat;
mod stamps;
#[cfg(test)]
mod tests;
mod watch;

pub use seat::{Note, StampSeat, Stamps};
pub use watch::{Mark, Scan, Watch};
