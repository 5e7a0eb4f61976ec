//! The entries of a node's list: each event with its arguments and its answer. Contracts speak of them; the program
//! makes none.
use a1_base::{Addr, Bin, TxnId};
use sqlite_items::Items;

/// What stands at a stamp: the stamp of the version and its bytes, none where the object is absent. Without a version
/// the stamp is 0.
#[derive(Debug, Drop)]
pub struct Found {
    pub stamp: u64,
    pub value: Option<Bin>,
}

/// A place that was taken for a new object, and the stamp that the commit which makes it has to exceed.
#[derive(Clone, Copy, Debug, PartialEq, Eq)]
pub struct Placed {
    pub at: Addr,
    pub bound: u64,
}

/// A lock that was given: the stamp of the version that its transaction sees, 0 for an object that the transaction
/// makes, and the stamp that the commit has to exceed.
#[derive(Clone, Copy, Debug, PartialEq, Eq)]
pub struct Locked {
    pub seen: u64,
    pub bound: u64,
}

/// What a collection came to: the floor afterwards, and how many versions and objects it removed.
#[derive(Clone, Copy, Debug, PartialEq, Eq)]
pub struct Collected {
    pub floor: u64,
    pub versions: u64,
    pub objects: u64,
}

/// Why a transaction may not rely on what it saw at an address.
#[derive(Clone, Copy, Debug, PartialEq, Eq)]
pub enum CheckFault {
    /// Another transaction holds the address.
    Held { by: TxnId },
    /// No other holds it, and its newest version, at the stamp `now`, is above the read stamp. The newest one at most
    /// the read stamp is at `seen`, 0 where there is none.
    Changed { seen: u64, now: u64 },
}

/// What a node began with: its number among `nodes`, the actors that may use it, the stamp of the loaded objects, and
/// these.
#[derive(Debug, Drop)]
pub struct Start {
    pub node: u32,
    pub nodes: u32,
    pub actors: u32,
    pub stamp: u64,
    pub heap: Items<(Addr, Bin)>,
}

/// An event of a node with its actor or transaction, its arguments and its answer.
#[derive(Debug, Drop)]
pub enum Entry {
    /// The node began so. It is the first entry of each list, and no other entry is one.
    Made {
        start: Start,
    },
    /// The actor pinned the node at `pin`, asking for `c`.
    Open {
        actor: u32,
        c: u64,
        pin: u64,
    },
    /// The actor's pin went.
    Shut {
        actor: u32,
    },
    /// The actor read at the stamp `s`, or met the transaction that holds the address.
    Read {
        actor: u32,
        at: Addr,
        s: u64,
        answer: Result<Found, TxnId>,
    },
    /// The transaction of the read stamp `r` made an object.
    Alloc {
        t: TxnId,
        r: u64,
        bytes: Bin,
        placed: Placed,
    },
    /// The transaction of the read stamp `r` asked for a lock, to install `new` under it.
    Lock {
        t: TxnId,
        at: Addr,
        r: u64,
        new: Option<Bin>,
        answer: Result<Locked, CheckFault>,
    },
    /// The transaction of the read stamp `r` and the write stamp `w` asked whether what it read still stands.
    Check {
        t: TxnId,
        at: Addr,
        r: u64,
        w: u64,
        answer: Result<(), CheckFault>,
    },
    /// The transaction installed its value at `w`.
    Put {
        t: TxnId,
        at: Addr,
        w: u64,
    },
    /// The transaction gave its lock up.
    Unlock {
        t: TxnId,
        at: Addr,
    },
    /// The actor collected with the proposal `f`.
    Collect {
        actor: u32,
        f: u64,
        removed: Collected,
    },
}
