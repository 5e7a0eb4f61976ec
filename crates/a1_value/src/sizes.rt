//! How many bytes values take.
ghost use Rattle.std.specs.Prelude.{◌≡◌, ◌+◌, ◌*◌, ◌≤◌, ◌==◌, [], ◌∷◌, ◌++◌, length, count_by};
ghost use Rattle.a1_value.specs.Encoding.{value_size, value_bytes, escaped, key_bytes};

use crate::Value;
use a1_base::{KEY_LIMIT, TEXT_LIMIT};

/// The bytes that the encoding of a value takes.
pub fn encoded_size(v: &Value) -> usize
    requires { value_size v.now ≤ TEXT_LIMIT }
    ensures { result ≡ length (value_bytes v.now) }
{
    match v {
        Value::Int(_) => 9,
        Value::Text(text) => 5 + text.as_bytes().len(),
        Value::Bytes(bytes) => 5 + bytes.as_slice().len(),
    }
}

fn zeros(bytes: &[u8]) -> usize
    ensures { result ≡ count_by (λ b. b == 0) bytes.now }
{
    bytes.iter().filter(|byte| **byte == 0).count()
}

// The bytes that a kind, escaped bytes and their end take.
#[tactic(auto, using(crate::proofs::Escapes::escaped_length, crate::proofs::Escapes::few_zeros))]
fn escaped_size(bytes: &[u8]) -> usize
    requires { length bytes.now ≤ KEY_LIMIT }
    ensures size { result ≡ length (0 ∷ escaped bytes.now ++ 0 ∷ 0 ∷ []) }
    ensures bound { result ≤ 3 + 2 * KEY_LIMIT }
{
    3 + bytes.len() + zeros(bytes)
}

/// The bytes that a key takes.
pub fn key_size(v: &Value) -> usize
    requires { value_size v.now ≤ KEY_LIMIT }
    ensures size { result ≡ length (key_bytes v.now) }
    ensures bound { result ≤ 3 + 2 * KEY_LIMIT }
{
    match v {
        Value::Int(_) => 9,
        Value::Text(text) => escaped_size(text.as_bytes()),
        Value::Bytes(bytes) => escaped_size(bytes.as_slice()),
    }
}
