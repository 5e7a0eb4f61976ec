//! Numbers and parts at the front of some bytes, the highest byte of a number first.
ghost use Rattle.std.specs.Prelude.{◌≡◌, ◌<◌, ◌^◌, ◌++◌, OnOk, OnErr, option_map};
ghost use Rattle.std.specs.Int.{w32, w64, to_be_bytes};
ghost use Rattle.a1_base.specs.Fronts.{byte, part, number, number_at, sized, Exact};

use crate::{Bin, Memory};

/// Why no value is read from some bytes.
#[derive(Clone, Copy, Debug, PartialEq, Eq)]
pub enum ReadFault {
    /// No value is spelled so.
    Malformed,
    /// Want of memory.
    Memory,
}

impl From<std::alloc::AllocError> for ReadFault {
    ghost use Rattle.std.specs.Prelude.{◌≡◌};
    ghost use Rattle.a1_base.specs.declared.fronts.ReadFault.TheVariants.{Memory};

    ghost from_gives = { λ _ fault. fault ≡ Memory };

    fn from(_: std::alloc::AllocError) -> Self {
        ReadFault::Memory
    }
}

impl<T: Drop> From<std::alloc::AllocFailed<T>> for ReadFault {
    ghost use Rattle.std.specs.Prelude.{◌≡◌};
    ghost use Rattle.a1_base.specs.declared.fronts.ReadFault.TheVariants.{Memory};

    ghost from_gives = { λ _ fault. fault ≡ Memory };

    fn from(_: std::alloc::AllocFailed<T>) -> Self {
        ReadFault::Memory
    }
}

/// The number of 4 bytes that stand from `at`: none exactly where fewer stand there.
pub fn u32_at(bytes: &[u8], at: usize) -> Option<u32>
    ensures { result ≡ number_at w32 at bytes.now }
{
    let (number, _) = front_u32(bytes.get(at..)?)?;
    Some(number)
}

/// The number of 8 bytes that stand from `at`: none exactly where fewer stand there.
pub fn u64_at(bytes: &[u8], at: usize) -> Option<u64>
    ensures { result ≡ number_at w64 at bytes.now }
{
    let (number, _) = front_u64(bytes.get(at..)?)?;
    Some(number)
}

/// Puts a number's 4 bytes at the end. After `Memory` the list is as it was.
pub fn push_u32(out: &mut Bin, n: u32) -> Result<(), Memory>
    ensures ok { OnOk result (out.new ≡ out.old ++ to_be_bytes w32 n) }
    ensures err { OnErr result (out.new ≡ out.old) }
{
    out.append(&n.to_be_bytes())?;
    Ok(())
}

/// Puts a number's 8 bytes at the end. After `Memory` the list is as it was.
pub fn push_u64(out: &mut Bin, n: u64) -> Result<(), Memory>
    ensures ok { OnOk result (out.new ≡ out.old ++ to_be_bytes w64 n) }
    ensures err { OnErr result (out.new ≡ out.old) }
{
    out.append(&n.to_be_bytes())?;
    Ok(())
}

/// The first byte, and the bytes behind it: none exactly where there is no byte.
pub fn front_byte(bytes: &[u8]) -> Option<(u8, &[u8])>
    ensures { byte bytes.now ≡ option_map (λ x. (x.0, x.1.now)) result }
{
    match bytes {
        [first, rest @ ..] => Some((*first, rest)),
        [] => None,
    }
}

/// So many bytes, and the bytes behind them: none exactly where there are fewer.
pub fn front_part(bytes: &[u8], size: usize) -> Option<(&[u8], &[u8])>
    ensures { part size bytes.now ≡ option_map (λ x. (x.0.now, x.1.now)) result }
{
    if bytes.len() < size {
        return None;
    }
    Some(bytes.split_at(size))
}

/// The number of the first 4 bytes, and the bytes behind them: none exactly where there are fewer.
pub fn front_u32(bytes: &[u8]) -> Option<(u32, &[u8])>
    ensures { number w32 bytes.now ≡ option_map (λ x. (x.0, x.1.now)) result }
{
    let (front, rest) = front_part(bytes, 4)?;
    let number = u32::from_be_bytes([front[0], front[1], front[2], front[3]]);
    Some((number, rest))
}

/// The number of the first 8 bytes, and the bytes behind them: none exactly where there are fewer.
pub fn front_u64(bytes: &[u8]) -> Option<(u64, &[u8])>
    ensures { number w64 bytes.now ≡ option_map (λ x. (x.0, x.1.now)) result }
{
    let (front, rest) = front_part(bytes, 8)?;
    let number = u64::from_be_bytes([
        front[0], front[1], front[2], front[3], front[4], front[5], front[6], front[7],
    ]);
    Some((number, rest))
}

/// The bytes behind a length of 4 bytes, as many as it says, and the bytes behind them: none exactly where the length
/// or some of the bytes are missing.
pub fn front_block(bytes: &[u8]) -> Option<(&[u8], &[u8])>
    ensures { sized (number w32) bytes.now ≡ option_map (λ x. (x.0.now, x.1.now)) result }
{
    let (size, rest) = front_u32(bytes)?;
    front_part(rest, size as usize)
}

/// A number that is put is read again, whatever stands behind it, and what is read as a number is put so.
#[tactic(auto, using(crate::proofs::Exact::number32_exact, crate::proofs::Exact::number64_exact))]
pub fn numbers_read_back()
    ensures u32 { Exact (number w32) (to_be_bytes w32) (λ n. n < 2 ^ 32) }
    ensures u64 { Exact (number w64) (to_be_bytes w64) (λ n. n < 2 ^ 64) }
{}
