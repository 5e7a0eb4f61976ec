//! The lines of a text, one after another.
ghost use Rattle.std.specs.Prelude.{◌≡◌, ◌++◌, ◌∷◌, [], List, ℕ, MatchOption, IfOk, IfErr, OnOk, length};
ghost use Rattle.farm_core.specs.declared.event.Event.{Event};
ghost use Rattle.steps_text.specs.EventText.{IsEvent, IsTextOf, IsFaultOf, event_line};
ghost use Rattle.steps_text.specs.Reading.{Lacks, IsCut, FailsLine};

use crate::TextFault;
use crate::fault::LineFault;
use crate::forms::event;
use a1_base::SCRIPT_LIMIT;
use farm_core::Event;
use std::alloc::Global;

// The bytes in front of the first LF and behind it.
#[tactic(auto, using(crate::proofs::LineLemmas::lacks_more, crate::proofs::LineLemmas::cut_at))]
fn cut_line(text: &[u8]) -> Option<(&[u8], &[u8])>
    ensures { MatchOption result (Lacks 10 text.now) (λ parts. IsCut 10 text.now parts.0.now parts.1.now) }
{
    for (at, byte) in text.iter().enumerate() {
        if *byte == b'\n' {
            let (line, _) = text.split_at(at);
            let (_, rest) = text.split_at(at + 1);
            return Some((line, rest));
        }
    }
    None
}

// Adds the event of the first line, and gives what stands behind the line.
#[tactic(auto, using(crate::proofs::LineLemmas::first_line))]
fn add_line<'a>(
    alloc: Global,
    nodes: u32,
    events: &mut Vec<Event>,
    text: &'a [u8],
) -> Result<&'a [u8], LineFault>
    ensures ok { IfOk result (λ rest. (e : Event) ×
        ((events.new.items ≡ events.old.items ++ e ∷ []) × (IsEvent nodes e × (text.now ≡ event_line e ++ rest.now)))) }
    ensures fault { IfErr result (λ fault. FailsLine nodes text.now fault) }
{
    let (line, rest) = cut_line(text).ok_or(LineFault::Malformed)?;
    let event = event(alloc, nodes, line)?;
    match events.push(event) {
        Ok(()) => Ok(rest),
        Err(_) => Err(LineFault::Memory),
    }
}

/// Reads the events of a text of at most `SCRIPT_LIMIT` bytes, for a farm of this many nodes. Each line is the text of
/// an event in range and LF. `Line` names the first line that is not, the last one without LF among them, and 0 where
/// the text is too long. `Memory` comes for want of memory alone.
pub fn read(alloc: Global, nodes: u32, text: &[u8]) -> Result<Vec<Event>, TextFault>
    ensures ok { IfOk result (λ events. IsTextOf nodes text.now events.items) }
    ensures fault { IfErr result (λ fault. IsFaultOf nodes text.now fault) }
{
    if text.len() > SCRIPT_LIMIT {
        return Err(TextFault::Line(0));
    }
    let mut events = Vec::new(alloc);
    let mut rest = text;
    while !rest.is_empty() {
        let line = events.len() as u64 + 1;
        rest = match add_line(alloc, nodes, &mut events, rest) {
            Ok(behind) => behind,
            Err(LineFault::Malformed) => return Err(TextFault::Line(line)),
            Err(LineFault::Memory) => return Err(TextFault::Memory),
        };
    }
    Ok(events)
}
