//! From bytes to changes.
ghost use Rattle.std.specs.Prelude.{◌≡◌, ◌++◌, List, IfOk, IfErr, option_map};
ghost use Rattle.a1_base.specs.Fronts.{ReadsFront};
ghost use Rattle.type_schema.specs.Layout.{changes_bytes};
ghost use Rattle.type_schema.specs.Formed.{AreChanges};
ghost use Rattle.graph_changes.specs.Reading.{part_of_tag, value_part_front, is_value_part, change_front};
ghost use Rattle.graph_changes.specs.Broken.{IsChangeFault, Gives};
ghost use Rattle.type_schema.specs.declared.rows.Change.{Change};

use crate::ChangeFault;
use crate::keys::read_store_key;
use crate::values::decode_value;
use a1_base::{Bin, Memory, ReadFault, front_block, front_byte};
use std::alloc::Global;
use type_schema::{Change, Changes, StoreKey};

fn part_of_tag(tag: u8, bytes: &[u8]) -> Option<(Option<&[u8]>, &[u8])>
    ensures { part_of_tag tag bytes.now ≡ option_map (λ x. (option_map (λ b. b.now) x.0, x.1.now)) result }
{
    match tag {
        0 => Some((None, bytes)),
        1 => {
            let (value, rest) = front_block(bytes)?;
            Some((Some(value), rest))
        }
        _ => None,
    }
}

// No value, or the bytes of one, and the bytes behind.
#[tactic(auto, unfolding(crate::specs::Reading::value_part_front))]
fn front_value_part(bytes: &[u8]) -> Option<(Option<&[u8]>, &[u8])>
    ensures { value_part_front bytes.now ≡ option_map (λ x. (option_map (λ b. b.now) x.0, x.1.now)) result }
{
    let (tag, rest) = front_byte(bytes)?;
    part_of_tag(tag, rest)
}

// Whether the bytes, where there are some, are those of a value of this key.
fn is_value_part(alloc: Global, key: &StoreKey, value: Option<&[u8]>) -> Result<bool, Memory>
    ensures { IfOk result (λ is. is ≡ is_value_part key.now (option_map (λ b. b.now) value.entry)) }
{
    let Some(bytes) = value else {
        return Ok(true);
    };
    match decode_value(alloc, key, bytes) {
        Ok(_) => Ok(true),
        Err(ReadFault::Malformed) => Ok(false),
        Err(ReadFault::Memory) => Err(Memory),
    }
}

fn copied(alloc: Global, bytes: Option<&[u8]>) -> Result<Option<Bin>, ReadFault>
    ensures copy { IfOk result (λ copy. copy ≡ option_map (λ b. b.now) bytes.entry) }
    ensures fault { IfErr result (λ fault. fault ≡ ReadFault.Memory) }
{
    match bytes {
        Some(bytes) => Ok(Some(Bin::from_slice(alloc, bytes)?)),
        None => Ok(None),
    }
}

/// The change that the bytes begin with, and the bytes behind it. `Malformed` comes exactly where they begin with none.
#[tactic(auto, unfolding(crate::specs::Reading::change_front))]
pub fn front_change(alloc: Global, bytes: &[u8]) -> Result<(Change, &[u8]), ReadFault>
    ensures { ReadsFront result (change_front bytes.now) }
{
    let Some((key, rest)) = front_block(bytes) else {
        return Err(ReadFault::Malformed);
    };
    let key = read_store_key(alloc, key)?;
    let Some((value, rest)) = front_value_part(rest) else {
        return Err(ReadFault::Malformed);
    };
    let Ok(is_value) = is_value_part(alloc, &key, value) else {
        return Err(ReadFault::Memory);
    };
    if !is_value {
        return Err(ReadFault::Malformed);
    }
    let value = copied(alloc, value)?;
    Ok((Change { key, value }, rest))
}

fn read_all(alloc: Global, bytes: &[u8]) -> Result<Changes, ChangeFault>
    ensures found { IfOk result (λ changes. AreChanges changes × (bytes.now ≡ changes_bytes changes)) }
    ensures bad { IfErr result (IsChangeFault bytes.now) }
{
    let mut steps = Vec::new(alloc);
    let mut rest = bytes;
    while !rest.is_empty() {
        match front_change(alloc, rest) {
            Ok((change, after)) => {
                steps.push(change)?;
                rest = after;
            }
            Err(ReadFault::Malformed) => {
                let at = (bytes.len() - rest.len()) as u64;
                return Err(ChangeFault::Bad { at });
            }
            Err(ReadFault::Memory) => return Err(ChangeFault::Memory),
        }
    }
    Ok(Changes { steps })
}

/// The changes that bytes are: their items as a store keeps them, without tag and stamp, one behind the other.
#[tactic(auto, using(crate::proofs::ReadLemmas::only))]
pub fn read(alloc: Global, bytes: &[u8]) -> Result<Changes, ChangeFault>
    // What is read is spelled so.
    ensures found { IfOk result (λ changes. AreChanges changes × (bytes.now ≡ changes_bytes changes)) }
    // What is spelled so is read, unless memory is wanting.
    ensures only { (changes : List Change) →
        AreChanges changes → bytes.now ≡ changes_bytes changes → Gives result changes }
    // Where the first item that is none begins.
    ensures bad { IfErr result (IsChangeFault bytes.now) }
{
    read_all(alloc, bytes)
}
