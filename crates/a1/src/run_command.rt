//! The command `run`: a script of requests, and the transcript of its sessions.
ghost use Rattle.std.specs.Prelude.{◌≡◌, ◌≤◌, List, [], ◌∷◌, Ok, Some, length, IfOk, IfErr, IfSome, None};
ghost use Rattle.a1_base.specs.declared.limits.TheConstants.{SCRIPT_LIMIT};
ghost use Rattle.type_schema.specs.Graph.{opening};
ghost use Rattle.std.specs.List.{All};
ghost use Rattle.answer_text.specs.Transcript.{text_of, NamesBefore};
ghost use Rattle.answer_text.specs.Legal.{IsLegal};
ghost use Rattle.run_text.specs.Script.{script_of, request_count, asked_in};
ghost use Rattle.a1.specs.Outside.{side, outside, IsReadWhole};
ghost use Rattle.a1.specs.Words.{texts_of, command_of};
ghost use Rattle.a1.specs.declared.options.RunOptions.{RunOptions};
ghost use Rattle.a1.specs.Rules.{IsInputFault, Serves};
ghost use Rattle.a1.specs.RunCommand.{run_rules, AreServed};
ghost use Rattle.a1.specs.Commands.{EndsWith};

use crate::ending::{OUT_OF_MEMORY, Outcome};
use crate::finishing::{Served, finish, say_usage};
use crate::input::{InputFault, text_in};
use crate::words::{Command, command_of};
use a1_base::{Bin, Gate, Memory, OPENING_STAMP, Sink, Source};
use answer_text::Transcript;
use graph_plain::Plain;
use object_store::Store;
use run_text::{Run, Script, ScriptFault, transcript};
use session::serve;
use sqlite_items::Items;
use std::alloc::Global;
use std::sync::Wait;

// The script that the source holds.
#[tactic(auto, using(crate::proofs::RunLemmas::long_script))]
fn script_in<R: Source>(alloc: Global, source: &mut R) -> Result<Script, InputFault>
    ensures ok { IfOk result (λ script. IfSome (R.left source.old) (λ bytes. script_of bytes ≡ Ok script)) }
    ensures few { IfOk result (λ script. request_count script ≤ SCRIPT_LIMIT) }
    ensures alone { IfOk result (λ script. length script ≤ 1) }
    ensures named { IfOk result (λ script. All (λ t. NamesBefore t.0 t.1) script) }
    ensures end { IfOk result (λ script. IsReadWhole (side R.left R.faults source.old source.new)) }
    ensures fault { IfErr result (IsInputFault run_rules.IsMalformed (side R.left R.faults source.old source.new)) }
{
    let text = text_in(alloc, source)?;
    match run_text::read(alloc, text.as_slice()) {
        Ok(script) => Ok(script),
        Err(ScriptFault::Line(line)) => Err(InputFault::Line(line)),
        Err(ScriptFault::Memory) => Err(InputFault::Memory),
    }
}

// Serves a session from the graph that a database begins with.
fn serve_opening(alloc: Global, number: u32, requests: Vec<Bin>) -> Result<Transcript, Memory>
    requires few { length requests.items ≤ SCRIPT_LIMIT }
    requires named { NamesBefore number requests.items }
    ensures of { IfOk result (λ t. asked_in (t ∷ []) ≡ (number, requests.items) ∷ []) }
    ensures legal { IfOk result (λ t. IsLegal opening OPENING_STAMP (t ∷ []) []) }
{
    let mut plain = Plain::opening(alloc)?;
    let mut clock = OPENING_STAMP;
    serve(alloc, &mut plain, &mut clock, number, requests)
}

// Serves the only session of a script.
fn serve_script(alloc: Global, script: Script) -> Result<Items<Transcript>, Memory>
    requires few { request_count script ≤ SCRIPT_LIMIT }
    requires alone { length script ≤ 1 }
    requires named { All (λ t. NamesBefore t.0 t.1) script }
    ensures { IfOk result (AreServed script) }
{
    let mut transcripts = Items::new(alloc);
    let mut sessions = script.into_sessions();
    let Some((number, requests)) = sessions.pop() else {
        return Ok(transcripts);
    };
    transcripts.push(serve_opening(alloc, number, requests)?)?;
    Ok(transcripts)
}

// Serves the script, and makes its transcript's text.
fn run_script(alloc: Global, script: Script) -> Result<Served, Memory>
    requires few { request_count script ≤ SCRIPT_LIMIT }
    requires alone { length script ≤ 1 }
    requires named { All (λ t. NamesBefore t.0 t.1) script }
    ensures served { IfOk result (λ s. AreServed script s.run.sessions) }
    ensures text { IfOk result (λ s. s.text ≡ text_of s.run.sessions) }
    ensures base { IfOk result (λ s. s.run.base ≡ OPENING_STAMP) }
    ensures background { IfOk result (λ s. s.run.background ≡ []) }
{
    let sessions = serve_script(alloc, script)?;
    let text = transcript(alloc, sessions.as_slice())?;
    Ok(Served {
        text,
        run: Run::of_sessions(alloc, OPENING_STAMP, sessions),
    })
}

// Serves the script that the source holds.
fn serve_run<R: Source>(alloc: Global, source: &mut R) -> Result<Served, InputFault>
    ensures { Serves run_rules (side R.left R.faults source.old source.new) result }
{
    let script = script_in(alloc, source)?;
    match run_script(alloc, script) {
        Ok(served) => Ok(served),
        Err(Memory) => Err(InputFault::Memory),
    }
}

/// The command `run`. It reads the script that the source holds, serves its sessions from the graph that a database
/// begins with, and writes the transcript. Words that are not `run` alone are answered as no command. The store is not
/// touched, the gate is not passed, and nothing waits yet.
pub fn run_call<T: Wait, R: Source, W: Sink, S: Store, G: Gate>(
    _rt: &T,
    alloc: Global,
    words: &[String],
    source: &mut R,
    sink: &mut W,
    _store: &mut S,
    _gate: &G,
) -> Outcome
    ensures runs { (options : RunOptions) → command_of (texts_of words.now) ≡ Some (Command.Run options)
        → EndsWith (Some (Command.Run options))
        (outside (side R.left R.faults source.old source.new) (side W.written W.faults sink.old sink.new)
        (side S.items S.faults _store.old _store.new)) result.status result.run }
    ensures others { ((options : RunOptions) → command_of (texts_of words.now) ≡ Some (Command.Run options) → ⊥)
        → EndsWith None
        (outside (side R.left R.faults source.old source.new) (side W.written W.faults sink.old sink.new)
        (side S.items S.faults _store.old _store.new)) result.status result.run }
{
    match command_of(alloc, words) {
        Ok(Some(Command::Run(_))) => {
            let served = serve_run(alloc, source);
            finish(alloc, sink, served)
        }
        Ok(_) => Outcome::without_run(alloc, say_usage(sink)),
        Err(Memory) => Outcome::without_run(alloc, OUT_OF_MEMORY),
    }
}
