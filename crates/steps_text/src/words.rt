//! The words of a line: numbers, transactions, addresses and bytes.
ghost use Rattle.std.specs.Prelude.{◌≡◌, ◌^◌, ◌<◌, ◌≤◌, ◌+◌, MatchOption, decimal};
ghost use Rattle.std.specs.Char.{is_ascii_uppercase};
ghost use Rattle.std.specs.List.{list_any};
ghost use Rattle.hex.specs.Hex.{encode_lower};
ghost use Rattle.steps_text.specs.EventText.{txn_text, addr_text, new_text};
ghost use Rattle.steps_text.specs.Reading.{Lacks, IsCut, Parses, ParsesOrFails, IsTxn, IsTextAddr, IsContent, IsNewContent};

use crate::fault::LineFault;
use a1_base::{ACTOR_LIMIT, Addr, Bin, OBJECT_LIMIT, REGION_LIMIT, REGION_WIDTH, TxnId};
use hex::FromHexError;
use std::alloc::Global;

// The texts in front of the first mark and behind it.
pub fn cut(text: &str, mark: char) -> Option<(&str, &str)>
    requires { mark < 128 }
    ensures { MatchOption result (Lacks mark text.now) (λ parts. IsCut mark text.now parts.0.now parts.1.now) }
{
    text.split_once(mark)
}

// A number in decimal, without leading zeros.
fn number(word: &str) -> Option<u64>
    ensures { Parses decimal (λ n. n < 2 ^ 64) word.now result }
{
    if word == "0" {
        return Some(0);
    }
    if word.starts_with('+') || word.starts_with('0') {
        return None;
    }
    word.parse().ok()
}

// A number below the limit.
pub fn number_below(word: &str, limit: u64) -> Option<u32>
    ensures { Parses decimal (λ n. (n < limit) × (n < 2 ^ 32)) word.now result }
{
    let Ok(number) = u32::try_from(number(word)?) else {
        return None;
    };
    if u64::from(number) < limit {
        Some(number)
    } else {
        None
    }
}

// An actor.
#[tactic(auto, using(crate::proofs::WordLemmas::no_actor))]
fn actor(word: &str) -> Option<u32>
    ensures { Parses decimal (λ n. (0 < n) × (n ≤ ACTOR_LIMIT)) word.now result }
{
    let number = number_below(word, u64::from(ACTOR_LIMIT) + 1)?;
    if number > 0 { Some(number) } else { None }
}

// A transaction, as `actor.number`.
#[tactic(auto, using(crate::proofs::WordLemmas::no_txn))]
pub fn txn(word: &str) -> Option<TxnId>
    ensures { Parses txn_text IsTxn word.now result }
{
    let (actor_word, number_word) = cut(word, '.')?;
    let actor = actor(actor_word)?;
    let number = number(number_word)?;
    Some(TxnId { actor, number })
}

// An address, as `region:offset`.
#[tactic(auto, using(crate::proofs::WordLemmas::no_addr))]
pub fn addr(nodes: u32, word: &str) -> Option<Addr>
    ensures { Parses addr_text (IsTextAddr nodes) word.now result }
{
    let (region_word, offset_word) = cut(word, ':')?;
    let region = number_below(region_word, u64::from(REGION_LIMIT) * u64::from(nodes))?;
    let offset = number_below(offset_word, u64::from(REGION_WIDTH))?;
    Some(Addr { region, offset })
}

// Whether a letter is upper-case.
fn has_upper(word: &str) -> bool
    ensures { result ≡ list_any is_ascii_uppercase word.now }
{
    word.bytes().any(|byte| byte.is_ascii_uppercase())
}

// The bytes of an object, in lower-case hexadecimal.
#[tactic(auto, using(crate::proofs::ContentLemmas::content_bad))]
pub fn object(alloc: Global, word: &str) -> Result<Bin, LineFault>
    ensures { ParsesOrFails encode_lower IsContent word.now result }
{
    if has_upper(word) || word.is_empty() || word.len() > 2 * OBJECT_LIMIT {
        return Err(LineFault::Malformed);
    }
    match hex::decode(alloc, word) {
        Ok(bytes) => Ok(Bin::from_vec(bytes)),
        Err(FromHexError::OutOfMemory) => Err(LineFault::Memory),
        Err(_) => Err(LineFault::Malformed),
    }
}

// The bytes that a lock is to install, or `-` for none.
pub fn new_content(alloc: Global, word: &str) -> Result<Option<Bin>, LineFault>
    ensures { ParsesOrFails new_text IsNewContent word.now result }
{
    if word == "-" {
        Ok(None)
    } else {
        Ok(Some(object(alloc, word)?))
    }
}
