//! Values.
ghost use Rattle.std.specs.Prelude.{◌≡◌, IfOk};

use a1_base::{Bin, Txt};
use std::alloc::{AllocError, Global};

/// A value of an attribute, and a key.
#[derive(Debug, Drop)]
pub enum Value {
    /// A whole number of 64 bits.
    Int(i64),
    /// A text.
    Text(Txt),
    /// A list of bytes.
    Bytes(Bin),
}

impl Value {
    /// A copy. The error is want of memory.
    pub fn copy(&self, alloc: Global) -> Result<Value, AllocError>
        ensures { IfOk result (λ v. v ≡ self.now) }
    {
        match self {
            Value::Int(n) => Ok(Value::Int(*n)),
            Value::Text(text) => Ok(Value::Text(text.copy(alloc)?)),
            Value::Bytes(bytes) => Ok(Value::Bytes(Bin::from_slice(alloc, bytes.as_slice())?)),
        }
    }
}
