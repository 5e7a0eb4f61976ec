//! Values as keys, whose bytes are in the order of the values.
ghost use Rattle.std.specs.Prelude.{◌≡◌, [], ◌∷◌, ◌++◌, IfOk, OnOk, option_map};
ghost use Rattle.a1_base.specs.Fronts.{ReadsFront};
ghost use Rattle.std.specs.Int.{w64, to_be_bytes};
ghost use Rattle.a1_value.specs.Encoding.{turned_over, turned_back, escaped, key_bytes, next_escaped, unescaped};
ghost use Rattle.a1_value.specs.Encoding.{key_of_kind, key_front};

use crate::Value;
use a1_base::{Bin, KEY_LIMIT, Memory, ReadFault, Txt, front_byte, front_u64, push_u64, text_of};
use std::alloc::Global;

// The bits of a number in two's complement with the highest bit turned over.
fn turned_over(n: i64) -> u64
    ensures { result ≡ turned_over n }
{
    if n < 0 {
        (n - i64::MIN) as u64
    } else {
        n as u64 + 9_223_372_036_854_775_808
    }
}

// The number of such bits.
fn turned_back(bits: u64) -> i64
    ensures { result ≡ turned_back bits }
{
    if bits < 9_223_372_036_854_775_808 {
        bits as i64 + i64::MIN
    } else {
        (bits - 9_223_372_036_854_775_808) as i64
    }
}

// Puts a byte, escaped, at the end.
#[tactic(auto, using(crate::proofs::Escapes::escaped_other))]
fn push_byte(out: &mut Bin, byte: u8) -> Result<(), Memory>
    ensures { OnOk result (out.new ≡ out.old ++ escaped (byte ∷ [])) }
{
    if byte == 0 {
        out.append(&[0, 255])?;
    } else {
        out.append(&[byte])?;
    }
    Ok(())
}

// Puts a kind, the escaped bytes and their end at the end.
#[tactic(auto, using(crate::proofs::Escapes::escaped_more))]
fn push_escaped(out: &mut Bin, kind: u8, bytes: &[u8]) -> Result<(), Memory>
    ensures { OnOk result (out.new ≡ out.old ++ kind ∷ escaped bytes.now ++ 0 ∷ 0 ∷ []) }
{
    out.append(&[kind])?;
    for byte in bytes {
        push_byte(out, *byte)?;
    }
    out.append(&[0, 0])?;
    Ok(())
}

/// Puts the key bytes of a value at the end. After `Memory` a part of them may stand there.
pub fn push_key(out: &mut Bin, v: &Value) -> Result<(), Memory>
    ensures { OnOk result (out.new ≡ out.old ++ key_bytes v.now) }
{
    match v {
        Value::Int(n) => {
            out.append(&[1])?;
            push_u64(out, turned_over(*n))
        }
        Value::Text(text) => push_escaped(out, 2, text.as_bytes()),
        Value::Bytes(bytes) => push_escaped(out, 3, bytes.as_slice()),
    }
}

// The bytes that a key takes, without those that its 00 take more.
fn key_room(v: &Value) -> usize {
    match v {
        Value::Int(_) => 9,
        Value::Text(text) => text.as_bytes().len() + 3,
        Value::Bytes(bytes) => bytes.as_slice().len() + 3,
    }
}

/// The key bytes of a value, in byte order as the values in theirs: its kind (1, 2, 3), then a number's 8 bytes of
/// two's complement with the highest bit turned over, or the bytes with each `00` as `00 ff`, and `00 00` behind them.
pub fn key_bytes(alloc: Global, v: &Value) -> Result<Bin, Memory>
    ensures { IfOk result (λ bytes. bytes ≡ key_bytes v.now) }
{
    let mut out = Bin::with_capacity(alloc, key_room(v))?;
    push_key(&mut out, v)?;
    Ok(out)
}

// The next of escaped bytes, or none at their end, and the bytes behind it.
fn next_escaped(bytes: &[u8]) -> Option<(Option<u8>, &[u8])>
    ensures { next_escaped bytes.now ≡ option_map (λ x. (x.0, x.1.now)) result }
{
    let (first, rest) = front_byte(bytes)?;
    if first != 0 {
        return Some((Some(first), rest));
    }
    let (second, rest) = front_byte(rest)?;
    match second {
        0 => Some((None, rest)),
        255 => Some((Some(0), rest)),
        _ => None,
    }
}

// The bytes that stand escaped in front of their end, of which there are at most `KEY_LIMIT`, and the bytes behind it.
fn unescaped(alloc: Global, bytes: &[u8]) -> Result<(Bin, &[u8]), ReadFault>
    ensures { ReadsFront result (unescaped KEY_LIMIT bytes.now) }
{
    let mut content = Vec::with_capacity(alloc, bytes.len().min(KEY_LIMIT))?;
    let mut rest = bytes;
    loop {
        let (byte, after) = match next_escaped(rest) {
            Some((Some(byte), after)) => (byte, after),
            Some((None, after)) => return Ok((Bin::from_vec(content), after)),
            None => return Err(ReadFault::Malformed),
        };
        if content.len() == KEY_LIMIT {
            return Err(ReadFault::Malformed);
        }
        content.push(byte)?;
        rest = after;
    }
}

#[tactic(auto, unfolding(crate::specs::Encoding::key_of_kind))]
fn key_of_kind(alloc: Global, kind: u8, bytes: &[u8]) -> Result<(Value, &[u8]), ReadFault>
    ensures { ReadsFront result (key_of_kind kind bytes.now) }
{
    match kind {
        1 => match front_u64(bytes) {
            Some((bits, rest)) => Ok((Value::Int(turned_back(bits)), rest)),
            None => Err(ReadFault::Malformed),
        },
        2 => {
            let (text, rest) = unescaped(alloc, bytes)?;
            let Some(text) = text_of(text.as_slice()) else {
                return Err(ReadFault::Malformed);
            };
            Ok((Value::Text(Txt::from_text(alloc, text)?), rest))
        }
        3 => {
            let (bytes, rest) = unescaped(alloc, bytes)?;
            Ok((Value::Bytes(bytes), rest))
        }
        _ => Err(ReadFault::Malformed),
    }
}

/// The value whose key bytes the bytes begin with, of at most `KEY_LIMIT` bytes, and the bytes behind it. `Malformed`
/// comes exactly where they begin with no such key.
#[tactic(auto, unfolding(crate::specs::Encoding::key_front))]
pub fn front_key(alloc: Global, bytes: &[u8]) -> Result<(Value, &[u8]), ReadFault>
    ensures { ReadsFront result (key_front bytes.now) }
{
    let Some((kind, rest)) = front_byte(bytes) else {
        return Err(ReadFault::Malformed);
    };
    key_of_kind(alloc, kind, rest)
}
