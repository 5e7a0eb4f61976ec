//! One half-edge less: from the one object, or from the tree, or from the tree back to one object.
ghost use Rattle.std.specs.Prelude.{◌≡◌, ◌<◌, ◌≤◌, ◌%◌, true, ℕ, List, ◌∷◌, length, map, Some, None};
ghost use Rattle.a1_base.specs.Lists.{IsAmong};
ghost use Rattle.a1_base.specs.declared.place.Addr.{Addr};
ghost use Rattle.object_view.specs.Agreement.{Heap, Agrees, stood};
ghost use Rattle.object_view.specs.Layout.{entries};
ghost use Rattle.object_view.specs.Parts.{Onward, Tells};
ghost use Rattle.object_view.specs.Trees.{IsTree};
ghost use Rattle.type_schema.specs.declared.objects.Half.{Half};
ghost use Rattle.type_schema.specs.declared.objects.Header.{Header};
ghost use Rattle.type_schema.specs.Objects.{IsAddr, half_key, half_entry};
ghost use Rattle.type_schema.specs.Structures.{Rising, IsVertex, IsShort, IsLong, IsList, ListBecomes, list_at, half_at, without_half};
ghost use Rattle.half_edge_lists.specs.Forms.{half_pair};
ghost use Rattle.half_edge_lists.specs.Steps.{Formed, ListTaken};

use crate::changing::{put_entries, rewrite};
use crate::lists::{Form, form_of, half_with, list_at};
use a1_base::{Addr, Bin, SHORT_LIST_AGAIN};
use object_btree::{Tree, place_in, with_entry};
use object_view::{PartFault, View, look};
use std::alloc::Global;
use std::sync::Wait;
use type_schema::{Half, half_key, long_bytes};

/// More objects than a tree of `SHORT_LIST_AGAIN` half-edges has.
const TREE_OBJECTS: u32 = 1_000;

/// The bytes of a half-edge's key.
const HALF_KEY: usize = 12;

/// Takes the half-edge of a kind and a far header out of a vertex's list of outgoing (`out`) or incoming half-edges,
/// and answers it. A removal that leaves 500 in a tree turns it into one object again. It may wait. `Torn` comes only
/// where no heap that agrees has the header and the list sound, `Memory` for want of memory alone; after either part may
/// be written.
pub fn remove<V: View, R: Wait>(
    rt: &R,
    alloc: Global,
    view: &mut V,
    header: Addr,
    out: bool,
    kind: u32,
    far: Addr,
) -> Result<Option<Half>, PartFault>
    requires served { V.reaches view.old (header.region % V.count view.old) ≡ true }
    ensures tells { (h : Heap) (graph : Addr) (fields : Header) (halves : List Half) (places : List Addr)
        → Agrees h (V.trace view.new) (V.overlay view.new)
        → IsVertex (V.count view.old) (stood h (V.overlay view.old)) header graph fields
        → IsList (V.count view.old) (stood h (V.overlay view.old)) (list_at out fields) header halves places
        → Tells result (λ old. (old ≡ half_at kind far halves) × ListBecomes (V.count view.old)
        (stood h (V.overlay view.old)) (stood h (V.overlay view.new)) (list_at out fields) header places
        (without_half kind far halves)) }
    ensures onward { Onward V.trace V.overlay V.reaches V.count V.kept view.old view.new }
{
    let at = list_at(rt, alloc, view, header, out)?;
    let bytes = look(rt, alloc, view, at)?;
    let key = half_key(alloc, kind, far)?;
    let word = remove_in(
        rt,
        alloc,
        view,
        header,
        at,
        bytes.as_slice(),
        key.as_slice(),
    )?;
    Ok(half_with(kind, far, word))
}

// Out of the list whose object has these bytes.
fn remove_in<V: View, R: Wait>(
    rt: &R,
    alloc: Global,
    view: &mut V,
    owner: Addr,
    at: Addr,
    bytes: &[u8],
    key: &[u8],
) -> Result<Option<u64>, PartFault>
    requires served { V.reaches view.old (at.region % V.count view.old) ≡ true }
    ensures tells { (h : Heap) (kind : ℕ) (far : Addr) (halves : List Half) (places : List Addr)
        → Agrees h (V.trace view.new) (V.overlay view.new) → stood h (V.overlay view.old) at ≡ Some bytes.now
        → IsList (V.count view.old) (stood h (V.overlay view.old)) at owner halves places
        → key.now ≡ half_key kind far
        → Tells result (ListTaken (V.count view.old) (stood h (V.overlay view.old)) (stood h (V.overlay view.new))
        at owner kind far halves places) }
    ensures onward { Onward V.trace V.overlay V.reaches V.count V.kept view.old view.new }
{
    match form_of(bytes, owner) {
        None => Err(PartFault::Torn { at }),
        Some(Form::Short(body)) => remove_short(rt, alloc, view, owner, at, body, key),
        Some(Form::Long { count, anchor }) => {
            remove_long(rt, alloc, view, owner, at, count, anchor, key)
        }
    }
}

// Out of the one object.
fn remove_short<V: View, R: Wait>(
    rt: &R,
    alloc: Global,
    view: &mut V,
    owner: Addr,
    at: Addr,
    body: &[u8],
    key: &[u8],
) -> Result<Option<u64>, PartFault>
    requires served { V.reaches view.old (at.region % V.count view.old) ≡ true }
    ensures tells { (h : Heap) (kind : ℕ) (far : Addr) (halves : List Half) (places : List Addr)
        → Agrees h (V.trace view.new) (V.overlay view.new) → Formed (V.count view.old) at owner halves
        → IsShort (stood h (V.overlay view.old)) at owner halves places
        → body.now ≡ entries (map half_entry halves) → key.now ≡ half_key kind far
        → Tells result (ListTaken (V.count view.old) (stood h (V.overlay view.old)) (stood h (V.overlay view.new))
        at owner kind far halves places) }
    ensures onward { Onward V.trace V.overlay V.reaches V.count V.kept view.old view.new }
{
    let Some((front, back, found)) = place_in(body, key) else {
        return Err(PartFault::Torn { at });
    };
    if found.is_none() {
        return Ok(None);
    }
    let mut less = Bin::with_capacity(alloc, body.len())?;
    less.append(front)?;
    less.append(back)?;
    put_entries(rt, alloc, view, owner, at, less.as_slice())?;
    Ok(found)
}

// Out of the tree.
fn remove_long<V: View, R: Wait>(
    rt: &R,
    alloc: Global,
    view: &mut V,
    owner: Addr,
    at: Addr,
    count: u64,
    anchor: Addr,
    key: &[u8],
) -> Result<Option<u64>, PartFault>
    requires served { V.reaches view.old (at.region % V.count view.old) ≡ true }
    ensures tells { (h : Heap) (kind : ℕ) (far : Addr) (halves : List Half) (places : List Addr)
        → Agrees h (V.trace view.new) (V.overlay view.new) → Formed (V.count view.old) at owner halves
        → (long : IsLong (V.count view.old) (stood h (V.overlay view.old)) at owner halves places)
        → long.anchor ≡ anchor → count ≡ length halves → key.now ≡ half_key kind far
        → Tells result (ListTaken (V.count view.old) (stood h (V.overlay view.old)) (stood h (V.overlay view.new))
        at owner kind far halves places) }
    ensures onward { Onward V.trace V.overlay V.reaches V.count V.kept view.old view.new }
{
    if !view.serves(anchor) {
        return Err(PartFault::Torn { at });
    }
    let tree = Tree { anchor };
    let found = tree.remove(rt, alloc, view, key)?;
    if found.is_none() {
        return Ok(None);
    }
    let left = count.saturating_sub(1);
    settle(rt, alloc, view, owner, at, tree, left)?;
    Ok(found)
}

// Puts the number of half-edges that a tree has now, or one object in its place where they are few enough.
fn settle<V: View, R: Wait>(
    rt: &R,
    alloc: Global,
    view: &mut V,
    owner: Addr,
    at: Addr,
    tree: Tree,
    count: u64,
) -> Result<(), PartFault>
    requires served { V.reaches view.old (at.region % V.count view.old) ≡ true }
    requires below { V.reaches view.old (tree.anchor.region % V.count view.old) ≡ true }
    ensures tells { (h : Heap) (halves : List Half) (places : List Addr)
        → Agrees h (V.trace view.new) (V.overlay view.new) → Formed (V.count view.old) at owner halves
        → (stood h (V.overlay view.old) at ≡ None → ⊥) → (IsAmong at places → ⊥)
        → IsTree (V.count view.old) (stood h (V.overlay view.old)) tree.anchor at (map half_entry halves) places
        → IsAddr tree.anchor → tree.anchor.region % V.count view.old ≡ at.region % V.count view.old
        → count ≡ length halves
        → Tells result (λ _. ListBecomes (V.count view.old) (stood h (V.overlay view.old))
        (stood h (V.overlay view.new)) at owner (at ∷ places) halves) }
    ensures onward { Onward V.trace V.overlay V.reaches V.count V.kept view.old view.new }
{
    if count <= SHORT_LIST_AGAIN as u64 {
        return turn(rt, alloc, view, owner, at, tree);
    }
    let bytes = long_bytes(alloc, owner, count, tree.anchor)?;
    rewrite(rt, alloc, view, at, bytes.as_slice())
}

// From a tree of few half-edges to one object.
fn turn<V: View, R: Wait>(
    rt: &R,
    alloc: Global,
    view: &mut V,
    owner: Addr,
    at: Addr,
    tree: Tree,
) -> Result<(), PartFault>
    requires served { V.reaches view.old (at.region % V.count view.old) ≡ true }
    requires below { V.reaches view.old (tree.anchor.region % V.count view.old) ≡ true }
    ensures tells { (h : Heap) (halves : List Half) (places : List Addr)
        → Agrees h (V.trace view.new) (V.overlay view.new) → Formed (V.count view.old) at owner halves
        → (stood h (V.overlay view.old) at ≡ None → ⊥) → (IsAmong at places → ⊥)
        → IsTree (V.count view.old) (stood h (V.overlay view.old)) tree.anchor at (map half_entry halves) places
        → length halves ≤ 500
        → Tells result (λ _. ListBecomes (V.count view.old) (stood h (V.overlay view.old))
        (stood h (V.overlay view.new)) at owner (at ∷ places) halves) }
    ensures onward { Onward V.trace V.overlay V.reaches V.count V.kept view.old view.new }
{
    let entries = entries_of(rt, alloc, view, at, tree)?;
    if !tree.destroy_some(rt, alloc, view, TREE_OBJECTS)? {
        return Err(PartFault::Torn { at });
    }
    put_entries(rt, alloc, view, owner, at, entries.as_slice())
}

// The entries of a tree of few half-edges, one behind the other.
fn entries_of<V: View, R: Wait>(
    rt: &R,
    alloc: Global,
    view: &mut V,
    at: Addr,
    tree: Tree,
) -> Result<Bin, PartFault>
    requires below { V.reaches view.old (tree.anchor.region % V.count view.old) ≡ true }
    ensures tells { (h : Heap) (owner : Addr) (halves : List Half) (places : List Addr)
        → Agrees h (V.trace view.new) (V.overlay view.new) → Rising (map half_entry halves)
        → IsTree (V.count view.old) (stood h (V.overlay view.old)) tree.anchor owner (map half_entry halves) places
        → length halves ≤ 500 → Tells result (λ bytes. bytes ≡ entries (map half_entry halves)) }
    ensures overlay { V.overlay view.new ≡ V.overlay view.old }
    ensures onward { Onward V.trace V.overlay V.reaches V.count V.kept view.old view.new }
{
    let pairs = tree.range(rt, alloc, view, &[], &[255; 13], SHORT_LIST_AGAIN as u32)?;
    spelled(alloc, at, pairs.as_slice())
}

// The pairs of half-edges as entries.
fn spelled(alloc: Global, at: Addr, pairs: &[(Bin, u64)]) -> Result<Bin, PartFault>
    ensures { (halves : List Half) → pairs.now ≡ map half_pair halves
        → Tells result (λ bytes. bytes ≡ entries (map half_entry halves)) }
{
    let mut out = Bin::new(alloc);
    for pair in pairs {
        let key = pair.0.as_slice();
        if key.len() != HALF_KEY {
            return Err(PartFault::Torn { at });
        }
        let entry = with_entry(alloc, &[], key, pair.1, &[])?;
        out.append(entry.as_slice())?;
    }
    Ok(out)
}
