//! How a commit ends.
use a1_base::{Addr, TxnId};

/// How a commit ended.
#[derive(Clone, Copy, Debug, PartialEq, Eq)]
pub enum Commit {
    /// All that was written is installed at this stamp.
    Done { stamp: u64 },
    /// An object that was read or is written has changed: its newest stamp is `now`, above the read stamp; `seen` is the
    /// greatest at most that, 0 where there is none.
    Changed { object: Addr, seen: u64, now: u64 },
    /// Another transaction holds an object that was read or is written.
    Held { object: Addr, by: TxnId },
    /// The clock has no stamp left.
    Spent,
    /// An allocation was refused.
    Memory,
}
