//! The top call.
ghost use Rattle.std.specs.Prelude.{◌≡◌, ℕ, ◌⊎◌, List, [], Some, None, IfSome};
ghost use Rattle.std.specs.Io.KnownBytes.{append_known};
ghost use Rattle.a1_base.specs.Outside.{Rose};
ghost use Rattle.run_text.specs.Run.{empty_run};
ghost use Rattle.a1.specs.Outside.{side, outside};
ghost use Rattle.a1.specs.Words.{texts_of, command_of};
ghost use Rattle.a1.specs.Endings.{usage_text, bad_line_text};
ghost use Rattle.a1.specs.RunCommand.{IsLegalRun};
ghost use Rattle.a1.specs.Commands.{rules_of, EndsWith};
ghost use Rattle.a1.specs.declared.words.Command.{Command};

use crate::ending::{OUT_OF_MEMORY, Outcome};
use crate::finishing::say_usage;
use crate::run_command::run_call;
use crate::steps_command::steps_call;
use crate::words::{Command, command_of};
use a1_base::{Gate, Memory, Sink, Source};
use object_store::Store;
use std::alloc::Global;
use std::sync::Wait;

// Calls the command that the words name.
fn dispatch<T: Wait, R: Source, W: Sink, S: Store, G: Gate>(
    rt: &T,
    alloc: Global,
    words: &[String],
    source: &mut R,
    sink: &mut W,
    store: &mut S,
    gate: &G,
) -> Outcome
    ensures { EndsWith (command_of (texts_of words.now))
        (outside (side R.left R.faults source.old source.new) (side W.written W.faults sink.old sink.new)
        (side S.items S.faults store.old store.new)) result.status result.run }
{
    match command_of(alloc, words) {
        Ok(Some(Command::Run(_))) => run_call(rt, alloc, words, source, sink, store, gate),
        Ok(Some(Command::Steps(_))) => Outcome::without_run(
            alloc,
            steps_call(alloc, words, source, sink),
        ),
        Ok(None) => Outcome::without_run(alloc, say_usage(sink)),
        Err(Memory) => Outcome::without_run(alloc, OUT_OF_MEMORY),
    }
}

/// Does all that the program does. `words` are the words behind the program's name; they name a command, whose call
/// serves what the source holds. `run` (`run_call`) serves a script of requests, and leaves its run. `steps`
/// (`steps_call`) answers a text of events, and leaves no run. The store is not touched, and the gate is not passed.
///
/// The status is 0 where the whole text of the command is written; 2 where the words are no command, with `usage`
/// written; 3 where a read failed, with nothing written; 8 where a line breaks the command's grammar or the text is
/// longer than 33,554,432 bytes, with `script L` written, L the first such line from 1 or 0 for the size; 4 where any
/// of these texts was cut short, since a write failed or the sink took nothing of some bytes; 6 for want of memory.
pub fn a1<T: Wait, R: Source, W: Sink, S: Store, G: Gate>(
    rt: &T,
    alloc: Global,
    words: &[String],
    source: &mut R,
    sink: &mut W,
    store: &mut S,
    gate: &G,
) -> Outcome
    // It ends in one of the ways of the table.
    ensures ends { EndsWith (command_of (texts_of words.now))
        (outside (side R.left R.faults source.old source.new) (side W.written W.faults sink.old sink.new)
        (side S.items S.faults store.old store.new)) result.status result.run }

    // What the command serves is written whole, and its run is left; or there is no run.
    ensures served { (c : Command) → command_of (texts_of words.now) ≡ Some c → result.status ≡ 0 →
        (text : List ℕ) × (rules_of c).IsServed (side R.left R.faults source.old source.new) text result.run
        × (W.written sink.new ≡ append_known (W.written sink.old) text) }
    ensures run_or_none { ((c : Command) × (text : List ℕ) × (command_of (texts_of words.now) ≡ Some c)
        × (rules_of c).IsServed (side R.left R.faults source.old source.new) text result.run)
        ⊎ (result.run ≡ empty_run) }
    ensures no_run { ((result.status ≡ 2) ⊎ (result.status ≡ 3) ⊎ (result.status ≡ 8)) → result.run ≡ empty_run }

    // The requests answered as committed form, in the order of their stamps, one legal history.
    ensures legal_history { IsLegalRun result.run }

    // What else is written.
    ensures usage_written { result.status ≡ 2 → W.written sink.new ≡ append_known (W.written sink.old) usage_text }
    ensures nothing_written { result.status ≡ 3 → W.written sink.new ≡ W.written sink.old }
    ensures line_written { (c : Command) → command_of (texts_of words.now) ≡ Some c → result.status ≡ 8 →
        (line : ℕ) × IfSome (R.left source.old) (λ bytes. (rules_of c).IsMalformed bytes line)
        × (W.written sink.new ≡ append_known (W.written sink.old) (bad_line_text line)) }

    // Each fault has its cause.
    ensures usage { result.status ≡ 2 → command_of (texts_of words.now) ≡ None }
    ensures unread { result.status ≡ 3 → Rose (R.faults source.old) (R.faults source.new) }
    ensures unwritten { result.status ≡ 4 → Rose (W.faults sink.old) (W.faults sink.new) }

    // And each status comes where it must, unless memory was wanting.
    ensures whole { (c : Command) (bytes : List ℕ) → command_of (texts_of words.now) ≡ Some c → R.left source.old ≡ Some bytes
        → (rules_of c).IsText bytes → ¬ Rose (R.faults source.old) (R.faults source.new)
        → ¬ Rose (W.faults sink.old) (W.faults sink.new) → (result.status ≡ 0) ⊎ (result.status ≡ 6) }
    ensures malformed { (c : Command) (bytes : List ℕ) (line : ℕ) → command_of (texts_of words.now) ≡ Some c
        → R.left source.old ≡ Some bytes → (rules_of c).IsMalformed bytes line
        → ¬ Rose (R.faults source.old) (R.faults source.new) → ¬ Rose (W.faults sink.old) (W.faults sink.new)
        → (result.status ≡ 8) ⊎ (result.status ≡ 6) }
    ensures other_words { command_of (texts_of words.now) ≡ None → ¬ Rose (W.faults sink.old) (W.faults sink.new)
        → (result.status ≡ 2) ⊎ (result.status ≡ 6) }

    // The store stays as it was.
    ensures store { S.items store.new ≡ S.items store.old }
{
    dispatch(rt, alloc, words, source, sink, store, gate)
}
