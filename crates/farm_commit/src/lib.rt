//! Transactions over a farm of nodes, each behind a turnstile, and one clock.
//!
//! An actor begins a transaction, reads, makes and writes objects through it, and commits or ends it. Contracts see an
//! actor and a transaction by the lists of entries that their passes have seen, one for each node (`farm_node`). The layer
//! knows nothing of what objects mean (FaRMv2's transactions; Shamis et al., "Fast General Distributed Transactions with
//! Opacity", SIGMOD 2019).
#![tactic(auto)]

mod actor;
mod begin;
mod building;
mod closing;
mod commit;
mod committing;
mod ending;
mod farm;
mod steps;
#[cfg(test)]
mod tests;
mod viewing;

pub use actor::{Actor, Open};
pub use closing::Closed;
pub use commit::Commit;
pub use farm::Farm;
