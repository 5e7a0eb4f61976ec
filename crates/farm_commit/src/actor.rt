//! Actors and their transactions.
use a1_base::TxnId;
use snapshot_stamps::StampSeat;
use transaction_part::{Part, Seen};

/// An actor: its number, how many transactions it began, its seat at the clock, and its part at each node. What it read
/// is empty between transactions, and keeps its memory for the next.
#[derive(Drop)]
pub struct Actor {
    pub(crate) number: u32,
    pub(crate) begun: u64,
    pub(crate) seat: StampSeat,
    pub(crate) parts: Vec<Part>,
    pub(crate) reads: Vec<Seen>,
}

/// An open transaction: its actor's number, its own, its read stamp, its actor's seat and parts, and what it read, in
/// order.
#[derive(Drop)]
pub struct Open {
    pub(crate) number: u32,
    pub(crate) begun: u64,
    pub(crate) read_stamp: u64,
    pub(crate) seat: StampSeat,
    pub(crate) parts: Vec<Part>,
    pub(crate) reads: Vec<Seen>,
}
