//! Why a node refuses.
ghost use Rattle.std.specs.Prelude.{◌≡◌};

use crate::entry::CheckFault;
use a1_base::{Memory, TxnId};

/// Why a read gave nothing.
#[derive(Clone, Copy, Debug, PartialEq, Eq)]
pub enum ReadFault {
    /// `by` holds the address, and no version is above the stamp of the read.
    Held { by: TxnId },
    /// An allocation was refused.
    Memory,
}

/// Why no object was made.
#[derive(Clone, Copy, Debug, PartialEq, Eq)]
pub enum PlaceFault {
    /// All places of the node's 1,048,576 regions are taken.
    Spent,
    /// An allocation was refused.
    Memory,
}

/// Why a lock was not given.
#[derive(Clone, Copy, Debug, PartialEq, Eq)]
pub enum LockFault {
    /// Another transaction holds the address.
    Held { by: TxnId },
    /// No other holds it, and its newest version, at the stamp `now`, is above the read stamp. The newest one at most
    /// the read stamp is at `seen`.
    Changed { seen: u64, now: u64 },
    /// An allocation was refused.
    Memory,
}

impl From<CheckFault> for LockFault {
    ghost use Rattle.farm_node.specs.Answers.{fault_of_check};

    ghost from_gives = { λ fault answer. answer ≡ fault_of_check fault };

    fn from(fault: CheckFault) -> Self {
        match fault {
            CheckFault::Held { by } => LockFault::Held { by },
            CheckFault::Changed { seen, now } => LockFault::Changed { seen, now },
        }
    }
}

impl From<Memory> for LockFault {
    ghost use Rattle.farm_node.specs.declared.faults.LockFault.TheVariants as fault;

    ghost from_gives = { λ _ answer. answer ≡ fault.Memory };

    fn from(_: Memory) -> Self {
        LockFault::Memory
    }
}
