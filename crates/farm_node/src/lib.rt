//! One node of the farm: objects with their versions under locks, read and collected by stamps (FaRMv2, Shamis et al.,
//! SIGMOD 2019).
//!
//! Contracts see a `Node` by its plain state, which is that of the replay of a list of entries, one for each event. The
//! layer knows no clock, no other node, and nothing of what the bytes of an object mean.
#![tactic(auto)]

mod entry;
mod faults;
mod hold;
mod laws;
mod node;
mod object;
mod swept;
mod waiting;

pub use entry::{CheckFault, Collected, Entry, Found, Locked, Placed, Start};
pub use faults::{LockFault, PlaceFault, ReadFault};
pub use hold::Hold;
pub use laws::{
    lists_go_on, locks_hold, mine_decides, owned_hold, pins_hold, puts_hold, ranges_hold,
    reads_hold,
};
pub use node::Node;
