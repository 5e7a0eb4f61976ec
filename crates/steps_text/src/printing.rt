//! The text of answers.
ghost use Rattle.std.specs.Prelude.{◌≡◌, ◌++◌, ◌∷◌, [], IfOk, OnOk, OnErr, string_bytes};
ghost use Rattle.steps_text.specs.EventText.{answer_text};

use a1_base::{Addr, Bin, Memory};
use farm_core::Answer;
use std::alloc::{AllocError, Global};

fn placed(alloc: Global, at: Addr, bound: u64) -> Result<String, AllocError>
    ensures { IfOk result (λ words. string_bytes words ≡ answer_text (Answer.Placed at bound)) }
{
    format!(in alloc; "placed {}:{} {bound}", at.region, at.offset)
}

fn collected(alloc: Global, floor: u64, versions: u64, objects: u64) -> Result<String, AllocError>
    ensures { IfOk result (λ words. string_bytes words ≡ answer_text (Answer.Collected floor versions objects)) }
{
    format!(in alloc; "floor {floor} versions {versions} objects {objects}")
}

// The words of an answer.
fn words(alloc: Global, answer: &Answer) -> Result<String, AllocError>
    ensures { IfOk result (λ words. string_bytes words ≡ answer_text answer.now) }
{
    match answer {
        Answer::Loaded => String::from_str(alloc, "loaded"),
        Answer::At { stamp } => format!(in alloc; "at {stamp}"),
        Answer::Value { stamp, bytes } => {
            let bytes = hex::encode(alloc, bytes.as_slice())?;
            format!(in alloc; "value {stamp} {bytes}")
        }
        Answer::Absent { stamp } => format!(in alloc; "absent {stamp}"),
        Answer::Held { by } => format!(in alloc; "held {}.{}", by.actor, by.number),
        Answer::Placed { at, bound } => placed(alloc, *at, *bound),
        Answer::Spent => String::from_str(alloc, "spent"),
        Answer::Locked { seen, bound } => format!(in alloc; "locked {seen} {bound}"),
        Answer::Changed { seen, now } => format!(in alloc; "changed {seen} {now}"),
        Answer::Stamp { stamp } => format!(in alloc; "stamp {stamp}"),
        Answer::Same => String::from_str(alloc, "same"),
        Answer::Put => String::from_str(alloc, "put"),
        Answer::Unlocked => String::from_str(alloc, "unlocked"),
        Answer::Shut => String::from_str(alloc, "shut"),
        Answer::Collected {
            floor,
            versions,
            objects,
        } => collected(alloc, *floor, *versions, *objects),
        Answer::No => String::from_str(alloc, "no"),
    }
}

/// Puts the line of an answer at the end: its words, parted by one blank, and LF. `Memory` comes for want of memory
/// alone, and then nothing is put.
pub fn print(alloc: Global, out: &mut Bin, answer: &Answer) -> Result<(), Memory>
    ensures ok { OnOk result (out.new ≡ out.old ++ answer_text answer.now ++ 10 ∷ []) }
    ensures err { OnErr result (out.new ≡ out.old) }
{
    let mut line = words(alloc, answer)?;
    line.push('\n')?;
    out.append(line.as_bytes())?;
    Ok(())
}
