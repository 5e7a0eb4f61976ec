//! The events of the core, and what each is answered.
use a1_base::{Addr, Bin, TxnId};

/// One event. Actors are 1 to 35. A region is below 1,048,576 times the number of nodes and an offset below 4,096; an
/// address lies on the node `region mod nodes`. Bytes are 1 to 65,536.
#[derive(Debug, Drop)]
pub enum Event {
    /// An object is there from the start.
    Load {
        at: Addr,
        bytes: Bin,
    },
    /// A transaction takes its snapshot.
    Begin {
        t: TxnId,
    },
    /// The transaction reads at its snapshot.
    Read {
        t: TxnId,
        at: Addr,
    },
    /// The transaction makes an object on the node, locked by it.
    Alloc {
        t: TxnId,
        node: u32,
        bytes: Bin,
    },
    /// The transaction locks the object, to install `new`; none frees it.
    Lock {
        t: TxnId,
        at: Addr,
        new: Option<Bin>,
    },
    /// The transaction draws its commit stamp.
    Draw {
        t: TxnId,
    },
    /// The transaction asks whether what it read still stands.
    Check {
        t: TxnId,
        at: Addr,
    },
    /// The transaction installs what waits under its lock.
    Put {
        t: TxnId,
        at: Addr,
    },
    /// The transaction gives its lock up.
    Unlock {
        t: TxnId,
        at: Addr,
    },
    /// The transaction ends.
    Shut {
        t: TxnId,
    },
    /// The node drops the versions that no open transaction can see.
    Collect {
        node: u32,
    },
}

/// What an event is answered. Stamps are below 2^62.
#[derive(Debug, Drop)]
pub enum Answer {
    /// The object is there, at the stamp 1.
    Loaded,
    /// The transaction reads at this stamp.
    At {
        stamp: u64,
    },
    /// The newest version at most the snapshot, with its stamp.
    Value {
        stamp: u64,
        bytes: Bin,
    },
    /// Nothing is there at the snapshot. The stamp is that of the version by which it went, and 0 where there is none.
    Absent {
        stamp: u64,
    },
    /// Another transaction holds the address. After it a read may be tried again; a lock or a check is refused, and so
    /// is its transaction.
    Held {
        by: TxnId,
    },
    /// The place of the new object. The commit stamp has to exceed `bound`.
    Placed {
        at: Addr,
        bound: u64,
    },
    /// All places of the node are taken, or all stamps are drawn. The transaction is refused.
    Spent,
    /// The lock is given. `seen` is the stamp of the version at the snapshot, 0 for an object that the transaction
    /// makes; the commit stamp has to exceed `bound`.
    Locked {
        seen: u64,
        bound: u64,
    },
    /// The newest version, at the stamp `now`, is above the snapshot; the newest one at most the snapshot is at `seen`,
    /// 0 where there is none. The transaction is refused.
    Changed {
        seen: u64,
        now: u64,
    },
    /// The commit stamp that was drawn.
    Stamp {
        stamp: u64,
    },
    /// What was read still stands, and does so at the commit stamp.
    Same,
    /// The value is installed at the commit stamp, and the lock is gone.
    Put,
    /// The lock is gone. The transaction is refused.
    Unlocked,
    /// The transaction has ended.
    Shut,
    /// The floor of the node afterwards, and how many versions and objects went. The versions of an object that went
    /// count.
    Collected {
        floor: u64,
        versions: u64,
        objects: u64,
    },
    /// The event lacks its condition. Nothing has changed.
    No,
}
