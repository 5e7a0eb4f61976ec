//! From bytes to a value.
ghost use Rattle.std.specs.Prelude.{◌≡◌, IfOk, Ok};
ghost use Rattle.a1_value.specs.Encoding.{IsStored, value_bytes, content, value_of_kind, value_front, decoded, Decodes};

use crate::{Value, ValueFault};
use a1_base::{Bin, TEXT_LIMIT, Txt, front_byte, front_part, front_u32, front_u64, text_of};
use std::alloc::Global;

#[tactic(auto, unfolding(crate::specs::Encoding::content))]
fn content(bytes: &[u8]) -> Result<(&[u8], &[u8]), ValueFault>
    ensures { Decodes (λ x. (x.0.now, x.1.now)) result (content bytes.now) }
{
    let Some((size, rest)) = front_u32(bytes) else {
        return Err(ValueFault::Short);
    };
    let size = size as usize;
    if size > TEXT_LIMIT {
        return Err(ValueFault::Long);
    }
    match front_part(rest, size) {
        Some(parts) => Ok(parts),
        None => Err(ValueFault::Short),
    }
}

#[tactic(auto, unfolding(crate::specs::Encoding::value_of_kind))]
fn value_of_kind(alloc: Global, kind: u8, bytes: &[u8]) -> Result<(Value, &[u8]), ValueFault>
    ensures { Decodes (λ x. (x.0, x.1.now)) result (value_of_kind kind bytes.now) }
{
    match kind {
        1 => match front_u64(bytes) {
            Some((bits, rest)) => Ok((Value::Int(bits.cast_signed()), rest)),
            None => Err(ValueFault::Short),
        },
        2 => {
            let (text, rest) = content(bytes)?;
            let Some(text) = text_of(text) else {
                return Err(ValueFault::Utf8);
            };
            Ok((Value::Text(Txt::from_text(alloc, text)?), rest))
        }
        3 => {
            let (content, rest) = content(bytes)?;
            Ok((Value::Bytes(Bin::from_slice(alloc, content)?), rest))
        }
        kind => Err(ValueFault::Kind(kind)),
    }
}

/// The value that the bytes begin with, and the bytes behind it. The fault is the first in the order of `ValueFault`,
/// and never `Spare`.
#[tactic(auto, unfolding(crate::specs::Encoding::value_front))]
pub fn front_value(alloc: Global, bytes: &[u8]) -> Result<(Value, &[u8]), ValueFault>
    ensures { Decodes (λ x. (x.0, x.1.now)) result (value_front bytes.now) }
{
    let Some((kind, rest)) = front_byte(bytes) else {
        return Err(ValueFault::Short);
    };
    value_of_kind(alloc, kind, rest)
}

#[tactic(auto, unfolding(crate::specs::Encoding::decoded))]
fn decode_all(alloc: Global, bytes: &[u8]) -> Result<Value, ValueFault>
    ensures { Decodes (λ v. v) result (decoded bytes.now) }
{
    let (value, rest) = front_value(alloc, bytes)?;
    if !rest.is_empty() {
        return Err(ValueFault::Spare);
    }
    Ok(value)
}

/// The value that the bytes are the encoding of. The fault is the first in the order of `ValueFault`.
pub fn decode(alloc: Global, bytes: &[u8]) -> Result<Value, ValueFault>
    // What is read is spelled so.
    ensures found { IfOk result (λ v. IsStored v × (bytes.now ≡ value_bytes v)) }
    // What is spelled so is read, unless memory is wanting.
    ensures only { (v : Value) → IsStored v → bytes.now ≡ value_bytes v → Decodes (λ x. x) result (Ok v) }
    // Which fault it is.
    ensures exact { Decodes (λ v. v) result (decoded bytes.now) }
{
    decode_all(alloc, bytes)
}
