//! The transactions of the farm as a machine of events: a clock, the lists of the nodes' entries, and how far each
//! transaction is (FaRMv2, Shamis et al., SIGMOD 2019).
//!
//! The machine's definition, the laws of all its runs, and the core that answers as the machine does stand here. The
//! layer knows nothing of what the bytes of an object mean.
#![tactic(auto)]

mod active;
mod event;
mod farm;
mod laws;
mod reads;
mod run;

pub use event::{Answer, Event};
pub use laws::{one_run, reads_whole, serial_order, snapshots_kept};
pub use run::Core;

#[cfg(test)]
mod tests;
