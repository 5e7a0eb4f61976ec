//! Why bytes are no value.
use std::alloc::AllocError;

/// Why some bytes are no value: the first fault in this order.
#[derive(Clone, Copy, Debug, PartialEq, Eq)]
pub enum ValueFault {
    /// There is no byte, or fewer than a number, a length or the bytes behind a length take.
    Short,
    /// The first byte, given here, is no kind of value.
    Kind(u8),
    /// The length of a text or of bytes is over `TEXT_LIMIT`.
    Long,
    /// The text is not UTF-8.
    Utf8,
    /// There are bytes behind the value.
    Spare,
    /// Want of memory.
    Memory,
}

impl From<AllocError> for ValueFault {
    ghost use Rattle.std.specs.Prelude.{◌≡◌};
    ghost use Rattle.a1_value.specs.declared.fault.ValueFault.TheVariants.{Memory};

    ghost from_gives = { λ _ fault. fault ≡ Memory };

    fn from(_: AllocError) -> Self {
        ValueFault::Memory
    }
}
