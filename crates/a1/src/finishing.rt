//! The end of a command: what is written, and its status.
ghost use Rattle.std.specs.Prelude.{◌≡◌, IfOk, string_bytes};
ghost use Rattle.a1.specs.Outside.{side};
ghost use Rattle.a1.specs.Endings.{usage_text, bad_line_text, Tells, SaysFault, Finishes};
ghost use Rattle.a1.specs.declared.ending.Cause.TheVariants as cause;

use crate::ending::{Cause, Ending, Extent, Outcome};
use crate::input::InputFault;
use crate::streams::write_all;
use a1_base::{Bin, Sink};
use run_text::Run;
use std::alloc::{AllocError, Global};

/// What a command gives: the text that it writes, and its run.
#[derive(Drop)]
pub struct Served {
    pub text: Bin,
    pub run: Run,
}

// Writes the text of this cause, and answers the status.
fn tell<W: Sink>(sink: &mut W, cause: Cause, text: &[u8]) -> u8
    ensures { Tells (side W.written W.faults sink.old sink.new) cause text.now result }
{
    let extent = match write_all(sink, text) {
        Ok(()) => Extent::Whole,
        Err(_) => Extent::CutShort,
    };
    Ending { cause, extent }.status()
}

/// Says that the words are no command, and answers the status.
pub fn say_usage<W: Sink>(sink: &mut W) -> u8
    ensures { Tells (side W.written W.faults sink.old sink.new) cause.Usage usage_text result }
{
    tell(sink, Cause::Usage, b"usage\n")
}

// The text about a line that breaks the grammar.
fn line_text(alloc: Global, line: u64) -> Result<Bin, AllocError>
    ensures { IfOk result (λ text. text ≡ bad_line_text line) }
{
    let text = format!(in alloc; "script {line}\n")?;
    Bin::from_slice(alloc, text.as_bytes())
}

// What is said where nothing was served.
fn said_of(alloc: Global, fault: InputFault) -> (Cause, Bin)
    ensures { SaysFault fault result.0 result.1 }
{
    match fault {
        InputFault::Failed => (Cause::Unread, Bin::new(alloc)),
        InputFault::Memory => (Cause::Memory, Bin::new(alloc)),
        InputFault::Line(line) => match line_text(alloc, line) {
            Ok(text) => (Cause::Malformed(line), text),
            Err(_) => (Cause::Memory, Bin::new(alloc)),
        },
    }
}

/// Writes what was served, or why nothing was.
pub fn finish<W: Sink>(alloc: Global, sink: &mut W, served: Result<Served, InputFault>) -> Outcome
    ensures { Finishes served (side W.written W.faults sink.old sink.new) result.status result.run }
{
    match served {
        Ok(Served { text, run }) => Outcome {
            status: tell(sink, Cause::Done, text.as_slice()),
            run,
        },
        Err(fault) => {
            let (cause, text) = said_of(alloc, fault);
            Outcome::without_run(alloc, tell(sink, cause, text.as_slice()))
        }
    }
}
