//! Why bytes are no changes.
use std::alloc::{AllocError, AllocFailed};

/// Why some bytes are no list of changes.
#[derive(Clone, Copy, Debug, PartialEq, Eq)]
pub enum ChangeFault {
    /// The first change that is none begins at this byte, counted from 0.
    Bad { at: u64 },
    /// Want of memory.
    Memory,
}

impl From<AllocError> for ChangeFault {
    ghost use Rattle.std.specs.Prelude.{◌≡◌};
    ghost use Rattle.graph_changes.specs.declared.fault.ChangeFault.TheVariants.{Memory};

    ghost from_gives = { λ _ fault. fault ≡ Memory };

    fn from(_: AllocError) -> Self {
        ChangeFault::Memory
    }
}

impl<T: Drop> From<AllocFailed<T>> for ChangeFault {
    ghost use Rattle.std.specs.Prelude.{◌≡◌};
    ghost use Rattle.graph_changes.specs.declared.fault.ChangeFault.TheVariants.{Memory};

    ghost from_gives = { λ _ fault. fault ≡ Memory };

    fn from(_: AllocFailed<T>) -> Self {
        ChangeFault::Memory
    }
}
