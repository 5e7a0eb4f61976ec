//! Addresses as words of 64 bits: the region in the upper half, the offset in the lower.
ghost use Rattle.std.specs.Prelude.{◌≡◌};
ghost use Rattle.object_view.specs.Layout.{addr_of, word_of};

use a1_base::Addr;

/// An address as a word.
pub fn word_of(at: Addr) -> u64
    ensures { result ≡ word_of at }
{
    at.region as u64 * 4294967296 + at.offset as u64
}

/// A word as an address.
pub fn addr_of(word: u64) -> Addr
    ensures { result ≡ addr_of word }
{
    Addr {
        region: (word / 4294967296) as u32,
        offset: (word % 4294967296) as u32,
    }
}
