//! The forms of an event's line: a function for each first word, of the words behind it.
ghost use Rattle.std.specs.Prelude.{codes};
ghost use Rattle.steps_text.specs.EventText.{txn_text, addr_text, event_text, IsEvent};
ghost use Rattle.steps_text.specs.Reading.{pair_text, Both, IsTxn, IsTextAddr, Parses, ParsesOrFails, arguments, IsForm};

use crate::fault::LineFault;
use crate::words::{addr, cut, new_content, number_below, object, txn};
use a1_base::{Addr, TxnId};
use farm_core::Event;
use std::alloc::Global;

#[tactic(auto, using(crate::proofs::FormLemmas::no_load))]
fn load(alloc: Global, nodes: u32, words: &str) -> Result<Event, LineFault>
    ensures { ParsesOrFails arguments (IsForm nodes (codes "load")) words.now result }
{
    let (at, bytes) = cut(words, ' ').ok_or(LineFault::Malformed)?;
    let at = addr(nodes, at).ok_or(LineFault::Malformed)?;
    let bytes = object(alloc, bytes)?;
    Ok(Event::Load { at, bytes })
}

fn begin(nodes: u32, words: &str) -> Option<Event>
    ensures { Parses arguments (IsForm nodes (codes "begin")) words.now result }
{
    let t = txn(words)?;
    Some(Event::Begin { t })
}

// A transaction and an address.
#[tactic(auto, using(crate::proofs::FormLemmas::no_placed))]
fn placed(nodes: u32, words: &str) -> Option<(TxnId, Addr)>
    ensures { Parses (pair_text txn_text addr_text) (Both IsTxn (IsTextAddr nodes)) words.now result }
{
    let (t, at) = cut(words, ' ')?;
    Some((txn(t)?, addr(nodes, at)?))
}

#[tactic(auto, using(crate::proofs::FormLemmas::read_refused))]
fn read(nodes: u32, words: &str) -> Option<Event>
    ensures { Parses arguments (IsForm nodes (codes "read")) words.now result }
{
    let (t, at) = placed(nodes, words)?;
    Some(Event::Read { t, at })
}

#[tactic(auto, using(crate::proofs::FormLemmas::no_alloc))]
fn alloc(alloc: Global, nodes: u32, words: &str) -> Result<Event, LineFault>
    ensures { ParsesOrFails arguments (IsForm nodes (codes "alloc")) words.now result }
{
    let (t, rest) = cut(words, ' ').ok_or(LineFault::Malformed)?;
    let t = txn(t).ok_or(LineFault::Malformed)?;
    let (node, bytes) = cut(rest, ' ').ok_or(LineFault::Malformed)?;
    let node = number_below(node, u64::from(nodes)).ok_or(LineFault::Malformed)?;
    let bytes = object(alloc, bytes)?;
    Ok(Event::Alloc { t, node, bytes })
}

#[tactic(auto, using(crate::proofs::FormLemmas::no_lock))]
fn lock(alloc: Global, nodes: u32, words: &str) -> Result<Event, LineFault>
    ensures { ParsesOrFails arguments (IsForm nodes (codes "lock")) words.now result }
{
    let (t, rest) = cut(words, ' ').ok_or(LineFault::Malformed)?;
    let t = txn(t).ok_or(LineFault::Malformed)?;
    let (at, new) = cut(rest, ' ').ok_or(LineFault::Malformed)?;
    let at = addr(nodes, at).ok_or(LineFault::Malformed)?;
    let new = new_content(alloc, new)?;
    Ok(Event::Lock { t, at, new })
}

fn draw(nodes: u32, words: &str) -> Option<Event>
    ensures { Parses arguments (IsForm nodes (codes "draw")) words.now result }
{
    let t = txn(words)?;
    Some(Event::Draw { t })
}

#[tactic(auto, using(crate::proofs::FormLemmas::check_refused))]
fn check(nodes: u32, words: &str) -> Option<Event>
    ensures { Parses arguments (IsForm nodes (codes "check")) words.now result }
{
    let (t, at) = placed(nodes, words)?;
    Some(Event::Check { t, at })
}

#[tactic(auto, using(crate::proofs::FormLemmas::put_refused))]
fn put(nodes: u32, words: &str) -> Option<Event>
    ensures { Parses arguments (IsForm nodes (codes "put")) words.now result }
{
    let (t, at) = placed(nodes, words)?;
    Some(Event::Put { t, at })
}

#[tactic(auto, using(crate::proofs::FormLemmas::unlock_refused))]
fn unlock(nodes: u32, words: &str) -> Option<Event>
    ensures { Parses arguments (IsForm nodes (codes "unlock")) words.now result }
{
    let (t, at) = placed(nodes, words)?;
    Some(Event::Unlock { t, at })
}

fn shut(nodes: u32, words: &str) -> Option<Event>
    ensures { Parses arguments (IsForm nodes (codes "shut")) words.now result }
{
    let t = txn(words)?;
    Some(Event::Shut { t })
}

fn collect(nodes: u32, words: &str) -> Option<Event>
    ensures { Parses arguments (IsForm nodes (codes "collect")) words.now result }
{
    let node = number_below(words, u64::from(nodes))?;
    Some(Event::Collect { node })
}

// The event with this first word and these further words.
#[tactic(auto, using(crate::proofs::EventLemmas::or_malformed))]
fn form(alloc: Global, nodes: u32, verb: &str, words: &str) -> Result<Event, LineFault>
    ensures { ParsesOrFails arguments (IsForm nodes verb.now) words.now result }
{
    match verb {
        "load" => load(alloc, nodes, words),
        "begin" => begin(nodes, words).ok_or(LineFault::Malformed),
        "read" => read(nodes, words).ok_or(LineFault::Malformed),
        "alloc" => self::alloc(alloc, nodes, words),
        "lock" => lock(alloc, nodes, words),
        "draw" => draw(nodes, words).ok_or(LineFault::Malformed),
        "check" => check(nodes, words).ok_or(LineFault::Malformed),
        "put" => put(nodes, words).ok_or(LineFault::Malformed),
        "unlock" => unlock(nodes, words).ok_or(LineFault::Malformed),
        "shut" => shut(nodes, words).ok_or(LineFault::Malformed),
        "collect" => collect(nodes, words).ok_or(LineFault::Malformed),
        _ => Err(LineFault::Malformed),
    }
}

// The event of a line, which is given without its LF.
#[tactic(auto, using(crate::proofs::EventLemmas::event_parts))]
pub fn event(alloc: Global, nodes: u32, line: &[u8]) -> Result<Event, LineFault>
    ensures { ParsesOrFails event_text (IsEvent nodes) line.now result }
{
    let Ok(line) = str::from_utf8(line) else {
        return Err(LineFault::Malformed);
    };
    let (verb, words) = cut(line, ' ').ok_or(LineFault::Malformed)?;
    form(alloc, nodes, verb, words)
}
