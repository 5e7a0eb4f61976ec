//! One more half-edge: in the one object, or in the tree, or from the one to the other.
ghost use Rattle.std.specs.Prelude.{◌≡◌, ◌<◌, ◌≤◌, ◌%◌, true, List, [], ◌∷◌, length, map, Some, None};
ghost use Rattle.std.specs.List.{AllByRecursion};
ghost use Rattle.a1_base.specs.declared.place.Addr.{Addr};
ghost use Rattle.object_view.specs.Agreement.{Heap, Agrees, stood};
ghost use Rattle.object_view.specs.Layout.{entries, word_of};
ghost use Rattle.object_view.specs.Parts.{Onward, Tells};
ghost use Rattle.object_view.specs.Trees.{IsTree, Becomes};
ghost use Rattle.type_schema.specs.declared.objects.Half.{Half};
ghost use Rattle.type_schema.specs.declared.objects.Header.{Header};
ghost use Rattle.type_schema.specs.Objects.{IsHalf, half_entry, half_key};
ghost use Rattle.type_schema.specs.Structures.{Rising, IsVertex, IsShort, IsLong, IsList, ListBecomes, list_at};
ghost use Rattle.half_edge_lists.specs.Changes.{AddTells};
ghost use Rattle.half_edge_lists.specs.Steps.{Formed};

use crate::changing::{ENTRIES_LIMIT, put_entries, rewrite};
use crate::lists::{Form, form_of, list_at};
use a1_base::Addr;
use object_btree::{Tree, entry_of, place_in, with_entry};
use object_view::{PartFault, View, look, word_of};
use std::alloc::Global;
use std::sync::Wait;
use type_schema::{Half, half_key, long_bytes};

/// Puts a half-edge into a vertex's list of outgoing (`out`) or incoming half-edges, and answers whether it was new:
/// false exactly where one of its kind and far header is there, and then nothing changed. The 1,001st half-edge turns
/// the one object of a list into a tree. It may wait. `Torn` comes only where no heap that agrees has the header and
/// the list sound, `Tall` only where the list has 2^64 - 1 half-edges or its tree would need a 17th level, `Spent`
/// where all places of the header's node are taken, `Memory` for want of memory alone; after any of them part may be
/// written.
pub fn add<V: View, R: Wait>(
    rt: &R,
    alloc: Global,
    view: &mut V,
    header: Addr,
    out: bool,
    h: &Half,
) -> Result<bool, PartFault>
    requires served { V.reaches view.old (header.region % V.count view.old) ≡ true }
    ensures tells { (heap : Heap) (graph : Addr) (fields : Header) (halves : List Half) (places : List Addr)
        → Agrees heap (V.trace view.new) (V.overlay view.new)
        → IsVertex (V.count view.old) (stood heap (V.overlay view.old)) header graph fields
        → IsList (V.count view.old) (stood heap (V.overlay view.old)) (list_at out fields) header halves places
        → AddTells (V.count view.old) (stood heap (V.overlay view.old)) (stood heap (V.overlay view.new))
        (list_at out fields) header halves places h.now result }
    ensures onward { Onward V.trace V.overlay V.reaches V.count V.kept view.old view.new }
{
    let at = list_at(rt, alloc, view, header, out)?;
    let bytes = look(rt, alloc, view, at)?;
    let key = half_key(alloc, h.kind, h.far)?;
    add_in(
        rt,
        alloc,
        view,
        header,
        at,
        bytes.as_slice(),
        key.as_slice(),
        *h,
    )
}

// Into the list whose object has these bytes.
fn add_in<V: View, R: Wait>(
    rt: &R,
    alloc: Global,
    view: &mut V,
    owner: Addr,
    at: Addr,
    bytes: &[u8],
    key: &[u8],
    h: Half,
) -> Result<bool, PartFault>
    requires served { V.reaches view.old (at.region % V.count view.old) ≡ true }
    requires key { key.now ≡ half_key h.kind h.far }
    ensures tells { (heap : Heap) (halves : List Half) (places : List Addr)
        → Agrees heap (V.trace view.new) (V.overlay view.new) → stood heap (V.overlay view.old) at ≡ Some bytes.now
        → IsList (V.count view.old) (stood heap (V.overlay view.old)) at owner halves places
        → AddTells (V.count view.old) (stood heap (V.overlay view.old)) (stood heap (V.overlay view.new))
        at owner halves places h result }
    ensures onward { Onward V.trace V.overlay V.reaches V.count V.kept view.old view.new }
{
    match form_of(bytes, owner) {
        None => Err(PartFault::Torn { at }),
        Some(Form::Short(body)) => add_short(rt, alloc, view, owner, at, body, key, h),
        Some(Form::Long { count, anchor }) => {
            add_long(rt, alloc, view, owner, at, count, anchor, key, h)
        }
    }
}

// Into the one object, or into a tree where that has no room.
fn add_short<V: View, R: Wait>(
    rt: &R,
    alloc: Global,
    view: &mut V,
    owner: Addr,
    at: Addr,
    body: &[u8],
    key: &[u8],
    h: Half,
) -> Result<bool, PartFault>
    requires served { V.reaches view.old (at.region % V.count view.old) ≡ true }
    requires key { key.now ≡ half_key h.kind h.far }
    ensures tells { (heap : Heap) (halves : List Half) (places : List Addr)
        → Agrees heap (V.trace view.new) (V.overlay view.new)
        → Formed (V.count view.old) at owner halves → IsShort (stood heap (V.overlay view.old)) at owner halves places
        → body.now ≡ entries (map half_entry halves)
        → AddTells (V.count view.old) (stood heap (V.overlay view.old)) (stood heap (V.overlay view.new))
        at owner halves places h result }
    ensures onward { Onward V.trace V.overlay V.reaches V.count V.kept view.old view.new }
{
    let Some((front, back, found)) = place_in(body, key) else {
        return Err(PartFault::Torn { at });
    };
    if found.is_some() {
        return Ok(false);
    }
    let more = with_entry(alloc, front, key, body_word(h), back)?;
    put_short(rt, alloc, view, owner, at, more.as_slice())?;
    Ok(true)
}

// The word of a half-edge in a list.
fn body_word(h: Half) -> u64
    ensures word { result ≡ word_of h.body }
    ensures fits { IsHalf h }
{
    let Half {
        kind: _,
        far: Addr {
            region: _,
            offset: _,
        },
        body: Addr { region, offset },
    } = h;
    word_of(Addr { region, offset })
}

// Puts these entries in the place of the one object, or in a tree where they are too many.
fn put_short<V: View, R: Wait>(
    rt: &R,
    alloc: Global,
    view: &mut V,
    owner: Addr,
    at: Addr,
    body: &[u8],
) -> Result<(), PartFault>
    requires served { V.reaches view.old (at.region % V.count view.old) ≡ true }
    ensures tells { (heap : Heap) (halves : List Half)
        → Agrees heap (V.trace view.new) (V.overlay view.new)
        → Formed (V.count view.old) at owner halves → (stood heap (V.overlay view.old) at ≡ None → ⊥)
        → length halves ≤ 1001 → body.now ≡ entries (map half_entry halves)
        → Tells result (λ _. ListBecomes (V.count view.old) (stood heap (V.overlay view.old))
        (stood heap (V.overlay view.new)) at owner (at ∷ []) halves) }
    ensures onward { Onward V.trace V.overlay V.reaches V.count V.kept view.old view.new }
{
    if body.len() > ENTRIES_LIMIT {
        return grow(rt, alloc, view, owner, at, body);
    }
    put_entries(rt, alloc, view, owner, at, body)
}

// From the one object to a tree with these entries.
fn grow<V: View, R: Wait>(
    rt: &R,
    alloc: Global,
    view: &mut V,
    owner: Addr,
    at: Addr,
    body: &[u8],
) -> Result<(), PartFault>
    requires served { V.reaches view.old (at.region % V.count view.old) ≡ true }
    ensures tells { (heap : Heap) (halves : List Half)
        → Agrees heap (V.trace view.new) (V.overlay view.new)
        → Formed (V.count view.old) at owner halves → (stood heap (V.overlay view.old) at ≡ None → ⊥)
        → 500 < length halves → length halves ≤ 1001 → body.now ≡ entries (map half_entry halves)
        → Tells result (λ _. ListBecomes (V.count view.old) (stood heap (V.overlay view.old))
        (stood heap (V.overlay view.new)) at owner (at ∷ []) halves) }
    ensures onward { Onward V.trace V.overlay V.reaches V.count V.kept view.old view.new }
{
    let node = at.region % view.nodes();
    let tree = Tree::create(rt, alloc, view, node, at)?;
    let count = fill(rt, alloc, view, at, tree, body)?;
    let bytes = long_bytes(alloc, owner, count, tree.anchor)?;
    rewrite(rt, alloc, view, at, bytes.as_slice())
}

// Puts all of these entries into a tree without any, and answers how many they are.
fn fill<V: View, R: Wait>(
    rt: &R,
    alloc: Global,
    view: &mut V,
    at: Addr,
    tree: Tree,
    body: &[u8],
) -> Result<u64, PartFault>
    requires served { V.reaches view.old (tree.anchor.region % V.count view.old) ≡ true }
    ensures tells { (heap : Heap) (halves : List Half) (places : List Addr)
        → Agrees heap (V.trace view.new) (V.overlay view.new) → AllByRecursion IsHalf halves
        → Rising (map half_entry halves) → length halves ≤ 1001 → body.now ≡ entries (map half_entry halves)
        → IsTree (V.count view.old) (stood heap (V.overlay view.old)) tree.anchor at [] places
        → Tells result (λ count. (count ≡ length halves) × Becomes (V.count view.old)
        (stood heap (V.overlay view.old)) (stood heap (V.overlay view.new)) tree.anchor at places
        (map half_entry halves)) }
    ensures onward { Onward V.trace V.overlay V.reaches V.count V.kept view.old view.new }
{
    let mut rest = body;
    let mut count: u64 = 0;
    'each: while rest.len() > 0 {
        let Some((key, word, after)) = entry_of(rest) else {
            return Err(PartFault::Torn { at });
        };
        if key.len() < 1 || key.len() > 1100 {
            return Err(PartFault::Torn { at });
        }
        tree.insert(rt, alloc, view, key, word)?;
        count = count.wrapping_add(1);
        rest = after;
    }
    Ok(count)
}

// Into the tree.
fn add_long<V: View, R: Wait>(
    rt: &R,
    alloc: Global,
    view: &mut V,
    owner: Addr,
    at: Addr,
    count: u64,
    anchor: Addr,
    key: &[u8],
    h: Half,
) -> Result<bool, PartFault>
    requires served { V.reaches view.old (at.region % V.count view.old) ≡ true }
    requires key { key.now ≡ half_key h.kind h.far }
    ensures tells { (heap : Heap) (halves : List Half) (places : List Addr)
        → Agrees heap (V.trace view.new) (V.overlay view.new)
        → Formed (V.count view.old) at owner halves → (long : IsLong (V.count view.old)
        (stood heap (V.overlay view.old)) at owner halves places) → long.anchor ≡ anchor → count ≡ length halves
        → AddTells (V.count view.old) (stood heap (V.overlay view.old)) (stood heap (V.overlay view.new))
        at owner halves places h result }
    ensures onward { Onward V.trace V.overlay V.reaches V.count V.kept view.old view.new }
{
    if !view.serves(anchor) {
        return Err(PartFault::Torn { at });
    }
    let tree = Tree { anchor };
    if tree.get(rt, alloc, view, key)?.is_some() {
        return Ok(false);
    }
    let Some(count) = count.checked_add(1) else {
        return Err(PartFault::Tall);
    };
    tree.insert(rt, alloc, view, key, body_word(h))?;
    let bytes = long_bytes(alloc, owner, count, anchor)?;
    rewrite(rt, alloc, view, at, bytes.as_slice())?;
    Ok(true)
}
