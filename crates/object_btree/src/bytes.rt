//! How anchors, nodes and entries are spelled.
ghost use Rattle.std.specs.Prelude.{◌≡◌, ◌<◌, ◌^◌, ◌++◌, [], ◌∷◌, ℕ, List, length, None, Some, MatchOption, IfSome, IfOk};
ghost use Rattle.std.specs.Int.{w64, to_be_bytes};
ghost use Rattle.object_view.specs.Layout.{Entry, entry, entries, entry_at, head_at, owner_at, anchor_bytes, node_bytes, object_bytes};

use std::alloc::{AllocError, Global};

/// The kind of an anchor.
pub const ANCHOR: u8 = 2;

/// The kind of a node.
pub const NODE: u8 = 3;

/// The first entry: its key, its word, and the bytes behind it.
#[tactic(auto, unfolding(object_view::specs::Layout::entry_at, object_view::specs::Layout::key_at))]
pub fn entry_of(bytes: &[u8]) -> Option<(&[u8], u64, &[u8])>
    ensures tells { MatchOption result (entry_at bytes.now ≡ None)
        (λ x. entry_at bytes.now ≡ Some (record { key = x.0.now; word = x.1 }, x.2.now)) }
    ensures shorter { IfSome result (λ x. length x.2.now < length bytes.now) }
{
    if bytes.len() < 2 {
        return None;
    }
    let (front, rest) = bytes.split_at(2);
    let len = u16::from_be_bytes([front[0], front[1]]) as usize;
    if rest.len() < len + 8 {
        return None;
    }
    let (key, rest) = rest.split_at(len);
    let (word, rest) = rest.split_at(8);
    let word = u64::from_be_bytes([
        word[0], word[1], word[2], word[3], word[4], word[5], word[6], word[7],
    ]);
    Some((key, word, rest))
}

/// The word in front, and the bytes behind it.
#[tactic(auto, unfolding(object_view::specs::Layout::owner_at))]
fn word_front(bytes: &[u8]) -> Option<(u64, &[u8])>
    ensures { MatchOption result (owner_at bytes.now ≡ None) (λ x. owner_at bytes.now ≡ Some (x.0, x.1.now)) }
{
    if bytes.len() < 8 {
        return None;
    }
    let (word, rest) = bytes.split_at(8);
    let word = u64::from_be_bytes([
        word[0], word[1], word[2], word[3], word[4], word[5], word[6], word[7],
    ]);
    Some((word, rest))
}

/// The owner of an object of a kind, and the bytes behind it.
pub fn head_of(bytes: &[u8], kind: u8) -> Option<(u64, &[u8])>
    ensures { MatchOption result (head_at kind bytes.now ≡ None) (λ x. head_at kind bytes.now ≡ Some (x.0, x.1.now)) }
{
    match bytes {
        [] => None,
        [first, rest @ ..] => {
            if *first != kind {
                return None;
            }
            word_front(rest)
        }
    }
}

/// The root and the height that an anchor names.
fn root_of(bytes: &[u8]) -> Option<(u64, u8)>
    ensures { (root height : ℕ) → root < 2 ^ 64 → bytes.now ≡ to_be_bytes w64 root ++ height ∷ []
        → result ≡ Some (root, height) }
{
    match word_front(bytes) {
        None => None,
        Some((root, rest)) => {
            if rest.len() != 1 {
                return None;
            }
            Some((root, rest[0]))
        }
    }
}

/// The owner of an anchor, the root and the height that it names.
pub fn anchor_of(bytes: &[u8]) -> Option<(u64, u64, u8)>
    ensures { (owner root height : ℕ) → owner < 2 ^ 64 → root < 2 ^ 64 → bytes.now ≡ anchor_bytes owner root height
        → result ≡ Some (owner, root, height) }
{
    match head_of(bytes, ANCHOR) {
        None => None,
        Some((owner, rest)) => match root_of(rest) {
            None => None,
            Some((root, height)) => Some((owner, root, height)),
        },
    }
}

/// The entries of a node of an owner.
pub fn node_of(bytes: &[u8], owner: u64) -> Option<&[u8]>
    ensures { (es : List Entry) → bytes.now ≡ node_bytes owner es → MatchOption result ⊥ (λ x. x.now ≡ entries es) }
{
    match head_of(bytes, NODE) {
        None => None,
        Some((word, rest)) => {
            if word != owner {
                return None;
            }
            Some(rest)
        }
    }
}

/// The bytes before the rest.
pub fn front_of<'a>(bytes: &'a [u8], rest: &[u8]) -> &'a [u8]
    ensures { (front : List ℕ) → bytes.now ≡ front ++ rest.now → result.now ≡ front }
{
    if rest.len() > bytes.len() {
        return bytes;
    }
    let (front, _) = bytes.split_at(bytes.len() - rest.len());
    front
}

/// Entries with one more between them.
pub fn with_entry(
    alloc: Global,
    front: &[u8],
    key: &[u8],
    value: u64,
    back: &[u8],
) -> Result<Vec<u8>, AllocError>
    requires { length key.now < 2 ^ 16 }
    ensures { IfOk result (λ v. v.items ≡ front.now ++ (entry (record { key = key.now; word = value }) ++ back.now)) }
{
    let mut out = Vec::new(alloc);
    out.extend_from_slice(front)?;
    out.extend_from_slice(&(key.len() as u16).to_be_bytes())?;
    out.extend_from_slice(key)?;
    out.extend_from_slice(&value.to_be_bytes())?;
    out.extend_from_slice(back)?;
    Ok(out)
}

/// A node with these entries.
pub fn spelled(alloc: Global, owner: u64, body: &[u8]) -> Result<Vec<u8>, AllocError>
    ensures { IfOk result (λ v. v.items ≡ object_bytes 3 owner body.now) }
{
    let mut out = Vec::new(alloc);
    out.push(NODE)?;
    out.extend_from_slice(&owner.to_be_bytes())?;
    out.extend_from_slice(body)?;
    Ok(out)
}

/// The bytes of both.
pub fn appended(alloc: Global, front: &[u8], back: &[u8]) -> Result<Vec<u8>, AllocError>
    ensures { IfOk result (λ v. v.items ≡ front.now ++ back.now) }
{
    let mut out = Vec::new(alloc);
    out.extend_from_slice(front)?;
    out.extend_from_slice(back)?;
    Ok(out)
}

/// An anchor's bytes.
pub fn anchored(alloc: Global, owner: u64, root: u64, height: u8) -> Result<Vec<u8>, AllocError>
    ensures { IfOk result (λ v. v.items ≡ anchor_bytes owner root height) }
{
    let mut out = Vec::new(alloc);
    out.push(ANCHOR)?;
    out.extend_from_slice(&owner.to_be_bytes())?;
    out.extend_from_slice(&root.to_be_bytes())?;
    out.push(height)?;
    Ok(out)
}

/// The entries of a root above two nodes.
pub fn root_entries(alloc: Global, root: u64, key: &[u8], word: u64) -> Result<Vec<u8>, AllocError>
    requires { length key.now < 2 ^ 16 }
    ensures { IfOk result (λ v. v.items ≡
        entries (record { key = []; word = root } ∷ record { key = key.now; word = word } ∷ [])) }
{
    let first = with_entry(alloc, &[], &[], root, &[])?;
    with_entry(alloc, first.as_slice(), key, word, &[])
}
