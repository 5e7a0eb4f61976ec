//! Where a key stands among the entries of a node.
ghost use Rattle.std.specs.Prelude.{◌≡◌, ◌<◌, ◌≤◌, ◌++◌, [], ◌∷◌, true, false, ℕ, List, length, take, drop, Some, MatchOption};
ghost use Rattle.std.specs.List.{AllByRecursion};
ghost use Rattle.object_view.specs.Layout.{Entry, IsEntry, entries};
ghost use Rattle.object_view.specs.Keys.{compare};
ghost use Rattle.object_btree.specs.Intervals.{is_less};
ghost use Rattle.object_btree.specs.Levels.{Ahead};
ghost use Rattle.object_btree.specs.Steps.{Place, Begins, Route};

use crate::bytes::{entry_of, front_of};
use std::cmp::Ordering;

/// Where a key stands among entries: those before it, those behind it, and its number.
pub fn place_in<'a>(bytes: &'a [u8], key: &[u8]) -> Option<(&'a [u8], &'a [u8], Option<u64>)>
    ensures { (es : List Entry) → AllByRecursion IsEntry es → bytes.now ≡ entries es
        → MatchOption result ⊥ (λ x. Place key.now es x.0.now x.1.now x.2) }
{
    let mut rest = bytes;
    'each: while rest.len() > 0 {
        match entry_of(rest) {
            None => return None,
            Some((other, word, after)) => match other.cmp(key) {
                Ordering::Less => rest = after,
                Ordering::Equal => return Some((front_of(bytes, rest), after, Some(word))),
                Ordering::Greater => return Some((front_of(bytes, rest), rest, None)),
            },
        }
    }
    Some((front_of(bytes, rest), rest, None))
}

/// The last entry whose key is at most this one: the entries up to it, its word, and those behind it.
pub fn route_in<'a>(bytes: &'a [u8], key: &[u8]) -> Option<(&'a [u8], u64, &'a [u8])>
    ensures { (es : List Entry) → AllByRecursion IsEntry es → bytes.now ≡ entries es → Begins key.now es
        → MatchOption result ⊥ (λ x. Route key.now es x.0.now x.1 x.2.now) }
{
    let mut rest = bytes;
    let mut found = None;
    'each: while rest.len() > 0 {
        match entry_of(rest) {
            None => return None,
            Some((other, word, after)) => match other.cmp(key) {
                Ordering::Greater => {
                    return match found {
                        None => None,
                        Some(word) => Some((front_of(bytes, rest), word, rest)),
                    };
                }
                _ => {
                    found = Some(word);
                    rest = after;
                }
            },
        }
    }
    match found {
        None => None,
        Some(word) => Some((front_of(bytes, rest), word, rest)),
    }
}

/// How many entries there are.
pub fn count_in(bytes: &[u8]) -> Option<usize>
    ensures { (es : List Entry) → AllByRecursion IsEntry es → bytes.now ≡ entries es → length es ≤ 65536
        → result ≡ Some (length es) }
{
    let mut rest = bytes;
    let mut count: usize = 0;
    'each: while rest.len() > 0 {
        match entry_of(rest) {
            None => return None,
            Some((_, _, after)) => {
                if count >= 65536 {
                    return None;
                }
                count += 1;
                rest = after;
            }
        }
    }
    Some(count)
}

/// The first so many entries, and the others.
pub fn split_in(bytes: &[u8], count: usize) -> Option<(&[u8], &[u8])>
    ensures { (es : List Entry) → AllByRecursion IsEntry es → bytes.now ≡ entries es → count ≤ length es
        → MatchOption result ⊥ (λ x. (x.0.now ≡ entries (take count es)) × (x.1.now ≡ entries (drop count es))) }
{
    let mut rest = bytes;
    let mut left = count;
    'each: while left > 0 {
        match entry_of(rest) {
            None => return None,
            Some((_, _, after)) => {
                left -= 1;
                rest = after;
            }
        }
    }
    Some((front_of(bytes, rest), rest))
}

/// The last entry: the entries before it, its key and its word.
pub fn last_of(bytes: &[u8]) -> Option<(&[u8], &[u8], u64)>
    ensures { (low : List Entry) (e : Entry) → AllByRecursion IsEntry (low ++ e ∷ [])
        → bytes.now ≡ entries (low ++ e ∷ [])
        → MatchOption result ⊥ (λ x. (x.0.now ≡ entries low) × (x.1.now ≡ e.key) × (x.2 ≡ e.word)) }
{
    let mut rest = bytes;
    'each: while rest.len() > 0 {
        match entry_of(rest) {
            None => return None,
            Some((key, word, after)) => {
                if after.len() == 0 {
                    return Some((front_of(bytes, rest), key, word));
                }
                rest = after;
            }
        }
    }
    None
}

/// Whether a key is below another.
pub fn is_below(key: &[u8], bound: &[u8]) -> bool
    ensures { result ≡ is_less (compare key.now bound.now) }
{
    match key.cmp(bound) {
        Ordering::Less => true,
        _ => false,
    }
}

/// Whether the first entry's key is at most this one.
pub fn begins_upto(body: &[u8], key: &[u8]) -> bool
    ensures begins { (es : List Entry) → AllByRecursion IsEntry es → body.now ≡ entries es → result ≡ true
        → Begins key.now es }
    ensures ahead { (es : List Entry) → AllByRecursion IsEntry es → body.now ≡ entries es → result ≡ false
        → Ahead key.now es }
{
    if body.len() == 0 {
        return false;
    }
    match entry_of(body) {
        None => false,
        Some((other, _, _)) => !is_below(key, other),
    }
}
