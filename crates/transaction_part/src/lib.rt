//! A transaction's part at one node: what it reads, makes and will write there, and its share of a commit.
//!
//! Contracts see a part by the list of entries that its pass has seen (`farm_node`) and by the list of its writes
//! (`write_set`). What a commit does at one node takes one turn of it, or one for 64 events. The layer knows nothing of
//! other nodes, of the clock or of threads (FaRMv2's commit at one participant; Shamis et al., "Fast General Distributed
//! Transactions with Opacity", SIGMOD 2019).
#![tactic(auto)]

mod checking;
mod ending;
mod locking;
mod making;
mod opening;
mod part;
mod reading;
mod writing;

pub use part::{Part, Seen};
