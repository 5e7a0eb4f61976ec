//! From a value to its bytes.
ghost use Rattle.std.specs.Prelude.{◌≡◌, ◌∷◌, ◌++◌, ◌≤◌, length, IfOk, OnOk};
ghost use Rattle.std.specs.Int.{w32, to_be_bytes};
ghost use Rattle.a1_value.specs.Encoding.{value_size, value_bytes};

use crate::Value;
use crate::sizes::encoded_size;
use a1_base::{Bin, Memory, TEXT_LIMIT, push_u32};
use std::alloc::Global;

// Puts a kind, a length and so many bytes at the end.
fn push_content(out: &mut Bin, kind: u8, content: &[u8]) -> Result<(), Memory>
    requires { length content.now ≤ TEXT_LIMIT }
    ensures { OnOk result (out.new ≡ out.old ++ kind ∷ to_be_bytes w32 (length content.now) ++ content.now) }
{
    out.append(&[kind])?;
    push_u32(out, content.len() as u32)?;
    out.append(content)?;
    Ok(())
}

/// Puts the encoding of a value at the end. After `Memory` a part of it may stand there.
pub fn push_value(out: &mut Bin, v: &Value) -> Result<(), Memory>
    requires { value_size v.now ≤ TEXT_LIMIT }
    ensures { OnOk result (out.new ≡ out.old ++ value_bytes v.now) }
{
    match v {
        Value::Int(n) => {
            out.append(&[1])?;
            out.append(&n.to_be_bytes())?;
            Ok(())
        }
        Value::Text(text) => push_content(out, 2, text.as_bytes()),
        Value::Bytes(bytes) => push_content(out, 3, bytes.as_slice()),
    }
}

/// The encoding of a value: its kind (1, 2, 3), then a number's 8 bytes of two's complement, or a length of 4 bytes and
/// the bytes. Of a text or bytes at most `TEXT_LIMIT` bytes are taken.
pub fn encode(alloc: Global, v: &Value) -> Result<Bin, Memory>
    requires { value_size v.now ≤ TEXT_LIMIT }
    ensures { IfOk result (λ bytes. bytes ≡ value_bytes v.now) }
{
    let mut out = Bin::with_capacity(alloc, encoded_size(v))?;
    push_value(&mut out, v)?;
    Ok(out)
}
