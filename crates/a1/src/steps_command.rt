//! The command `steps`: the events of a text, and the answers of a farm to them.
ghost use Rattle.std.specs.Prelude.{◌≡◌, ◌<◌, ◌≤◌, Some, None, IfOk, IfErr, IfSome};
ghost use Rattle.std.specs.List.{AllByRecursion};
ghost use Rattle.a1_base.specs.declared.limits.TheConstants.{NODE_LIMIT};
ghost use Rattle.run_text.specs.Run.{empty_run};
ghost use Rattle.steps_text.specs.EventText.{IsTextOf, IsEvent};
ghost use Rattle.a1.specs.Outside.{side, outside, no_store, IsReadWhole};
ghost use Rattle.a1.specs.Words.{texts_of, command_of};
ghost use Rattle.a1.specs.declared.options.StepsOptions.{StepsOptions};
ghost use Rattle.a1.specs.Rules.{IsInputFault, Serves};
ghost use Rattle.a1.specs.StepsCommand.{steps_rules, answers_text, AreAnswers, IsAnswered};
ghost use Rattle.a1.specs.Commands.{EndsWith};

use crate::ending::OUT_OF_MEMORY;
use crate::finishing::{Served, finish, say_usage};
use crate::input::{InputFault, text_in};
use crate::words::{Command, command_of};
use a1_base::{Bin, Memory, Sink, Source};
use farm_core::{Answer, Core, Event};
use run_text::Run;
use std::alloc::Global;
use steps_text::{TextFault, print, read};

// The events that the source holds.
fn events_in<R: Source>(alloc: Global, nodes: u32, source: &mut R) -> Result<Vec<Event>, InputFault>
    ensures of { IfOk result (λ events. IfSome (R.left source.old) (λ bytes. IsTextOf nodes bytes events.items)) }
    ensures each { IfOk result (λ events. AllByRecursion (IsEvent nodes) events.items) }
    ensures end { IfOk result (λ events. IsReadWhole (side R.left R.faults source.old source.new)) }
    ensures fault { IfErr result (IsInputFault (steps_rules nodes).IsMalformed (side R.left R.faults source.old source.new)) }
{
    let text = text_in(alloc, source)?;
    match read(alloc, nodes, text.as_slice()) {
        Ok(events) => Ok(events),
        Err(TextFault::Line(line)) => Err(InputFault::Line(line)),
        Err(TextFault::Memory) => Err(InputFault::Memory),
    }
}

// What a new farm answers to these events, one after another.
fn answers_to(alloc: Global, nodes: u32, events: &[Event]) -> Result<Vec<Answer>, Memory>
    requires each { AllByRecursion (IsEvent nodes) events.now }
    requires some { 0 < nodes }
    requires few { nodes ≤ NODE_LIMIT }
    ensures { IfOk result (λ answers. AreAnswers nodes events.now answers.items) }
{
    let mut core = Core::new(alloc, nodes)?;
    core.run(alloc, events)
}

// The lines of these answers.
fn lines_of(alloc: Global, answers: &[Answer]) -> Result<Bin, Memory>
    ensures { IfOk result (λ text. text ≡ answers_text answers.now) }
{
    let mut text = Bin::new(alloc);
    for answer in answers {
        print(alloc, &mut text, answer)?;
    }
    Ok(text)
}

// The lines of the answers to these events.
fn answer_lines(alloc: Global, nodes: u32, events: &[Event]) -> Result<Bin, Memory>
    requires each { AllByRecursion (IsEvent nodes) events.now }
    requires some { 0 < nodes }
    requires few { nodes ≤ NODE_LIMIT }
    ensures { IfOk result (IsAnswered nodes events.now) }
{
    let answers = answers_to(alloc, nodes, events)?;
    lines_of(alloc, answers.as_slice())
}

// Answers the events of the text that the source holds.
fn serve_steps<R: Source>(alloc: Global, nodes: u32, source: &mut R) -> Result<Served, InputFault>
    requires some { 0 < nodes }
    requires few { nodes ≤ NODE_LIMIT }
    ensures { Serves (steps_rules nodes) (side R.left R.faults source.old source.new) result }
{
    let events = events_in(alloc, nodes, source)?;
    match answer_lines(alloc, nodes, events.as_slice()) {
        Ok(text) => Ok(Served {
            text,
            run: Run::empty(alloc),
        }),
        Err(Memory) => Err(InputFault::Memory),
    }
}

/// The command `steps`. It answers the events of the text that the source holds, from a new farm on, and writes the
/// answers; it answers the status. Words that do not name `steps` are answered as no command.
pub fn steps_call<R: Source, W: Sink>(
    alloc: Global,
    words: &[String],
    source: &mut R,
    sink: &mut W,
) -> u8
    ensures steps { (options : StepsOptions) → command_of (texts_of words.now) ≡ Some (Command.Steps options)
        → EndsWith (Some (Command.Steps options))
        (outside (side R.left R.faults source.old source.new) (side W.written W.faults sink.old sink.new) no_store)
        result empty_run }
    ensures others { ((options : StepsOptions) → command_of (texts_of words.now) ≡ Some (Command.Steps options) → ⊥)
        → EndsWith None
        (outside (side R.left R.faults source.old source.new) (side W.written W.faults sink.old sink.new) no_store)
        result empty_run }
{
    match command_of(alloc, words) {
        Ok(Some(Command::Steps(options))) => {
            let served = serve_steps(alloc, options.nodes, source);
            finish(alloc, sink, served).status
        }
        Ok(_) => say_usage(sink),
        Err(Memory) => OUT_OF_MEMORY,
    }
}
