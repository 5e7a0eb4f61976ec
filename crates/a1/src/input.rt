//! The text that a command serves.
ghost use Rattle.std.specs.Prelude.{◌≡◌, ◌≤◌, length, Some, IfOk, IfErr, IfSome, []};
ghost use Rattle.a1_base.specs.declared.limits.TheConstants.{SCRIPT_LIMIT};
ghost use Rattle.a1.specs.Outside.{side, IsReadWhole};
ghost use Rattle.a1.specs.Rules.{IsInputFault, IsTooLong};

use crate::streams::{Input, ReadFault, read_all};
use a1_base::{Bin, Source};
use std::alloc::Global;

/// Why there is nothing to serve.
#[derive(Clone, Copy)]
pub enum InputFault {
    /// The source failed.
    Failed,
    /// This line breaks the grammar; 0 where the text is too long.
    Line(u64),
    /// Want of memory.
    Memory,
}

/// The text that the source holds; `Line(0)` where it has more bytes than a script may have.
pub fn text_in<R: Source>(alloc: Global, source: &mut R) -> Result<Bin, InputFault>
    ensures bytes { IfOk result (λ text. IfSome (R.left source.old) (λ bytes. bytes ≡ text)) }
    ensures short { IfOk result (λ text. length text ≤ SCRIPT_LIMIT) }
    ensures end { IfOk result (λ text. IsReadWhole (side R.left R.faults source.old source.new)) }
    ensures fault { IfErr result (IsInputFault IsTooLong (side R.left R.faults source.old source.new)) }
{
    match read_all(alloc, source) {
        Err(ReadFault::Failed) => Err(InputFault::Failed),
        Err(ReadFault::Memory) => Err(InputFault::Memory),
        Ok(Input::TooLong) => Err(InputFault::Line(0)),
        Ok(Input::Whole(text)) => Ok(text),
    }
}
