//! The half-edges of a list in order.
ghost use Rattle.std.specs.Prelude.{◌≡◌, ◌%◌, ◌++◌, [], ◌∷◌, true, List, map, take, option_map, IfOk, OnOk};
ghost use Rattle.std.specs.List.{AllByRecursion};
ghost use Rattle.a1_base.specs.declared.place.Addr.{Addr};
ghost use Rattle.object_view.specs.Agreement.{Heap, Agrees, stood};
ghost use Rattle.object_view.specs.Layout.{entries, word_of};
ghost use Rattle.object_view.specs.Parts.{Onward, ReadsOnly, Tells};
ghost use Rattle.object_btree.specs.Levels.{RangeReads};
ghost use Rattle.type_schema.specs.declared.objects.Header.{Header};
ghost use Rattle.type_schema.specs.declared.objects.Half.{Half};
ghost use Rattle.type_schema.specs.Objects.{IsHalf, half_entry};
ghost use Rattle.type_schema.specs.Structures.{IsVertex, IsList, IsLong, Rising, list_at};
ghost use Rattle.half_edge_lists.specs.Changes.{from_half, least_key, last_key, WalkReads};
ghost use Rattle.half_edge_lists.specs.Forms.{half_pair};

use crate::lists::{Form, form_of, list_at};
use a1_base::{Addr, Bin, Memory};
use object_btree::{Tree, entry_of, place_in};
use object_view::{PartFault, View, look};
use std::alloc::{AllocError, Global};
use std::sync::Wait;
use type_schema::{Half, half_key, half_of};

/// Of a vertex's list of outgoing (`out`) or incoming half-edges the first `limit` behind `from`, or the first of all,
/// by the number of their type and then by far header. It may wait, and reads no more than these need. The faults are
/// those of `find`.
pub fn walk<V: View, R: Wait>(
    rt: &R,
    alloc: Global,
    view: &mut V,
    header: Addr,
    out: bool,
    from: Option<&Half>,
    limit: u32,
) -> Result<Vec<Half>, PartFault>
    requires served { V.reaches view.old (header.region % V.count view.old) ≡ true }
    ensures tells { (h : Heap) (graph : Addr) (fields : Header) (halves : List Half) (places : List Addr)
        → Agrees h (V.trace view.new) (V.overlay view.new)
        → IsVertex (V.count view.old) (stood h (V.overlay view.old)) header graph fields
        → IsList (V.count view.old) (stood h (V.overlay view.old)) (list_at out fields) header halves places
        → Tells result (λ found. found.items
        ≡ take limit (from_half (option_map (λ f. f.now) from.entry) halves)) }
    ensures reads { (h : Heap) (graph : Addr) (fields : Header) (halves : List Half) (places : List Addr)
        → Agrees h (V.trace view.new) (V.overlay view.new)
        → IsVertex (V.count view.old) (stood h (V.overlay view.old)) header graph fields
        → IsList (V.count view.old) (stood h (V.overlay view.old)) (list_at out fields) header halves places
        → ReadsOnly (WalkReads (V.count view.old) (stood h (V.overlay view.old)) header (list_at out fields) halves
        places (option_map (λ f. f.now) from.entry) limit) (V.trace view.old) (V.trace view.new) }
    ensures overlay { V.overlay view.new ≡ V.overlay view.old }
    ensures onward { Onward V.trace V.overlay V.reaches V.count V.kept view.old view.new }
{
    let at = list_at(rt, alloc, view, header, out)?;
    walk_at(rt, alloc, view, header, at, from, limit)
}

// The same of the list at an address.
fn walk_at<V: View, R: Wait>(
    rt: &R,
    alloc: Global,
    view: &mut V,
    owner: Addr,
    at: Addr,
    from: Option<&Half>,
    limit: u32,
) -> Result<Vec<Half>, PartFault>
    requires served { V.reaches view.old (owner.region % V.count view.old) ≡ true }
    ensures tells { (h : Heap) (halves : List Half) (places : List Addr)
        → Agrees h (V.trace view.new) (V.overlay view.new)
        → IsList (V.count view.old) (stood h (V.overlay view.old)) at owner halves places
        → Tells result (λ found. found.items
        ≡ take limit (from_half (option_map (λ f. f.now) from.entry) halves)) }
    ensures reads { (h : Heap) (halves : List Half) (places : List Addr)
        → Agrees h (V.trace view.new) (V.overlay view.new)
        → IsList (V.count view.old) (stood h (V.overlay view.old)) at owner halves places
        → ReadsOnly (WalkReads (V.count view.old) (stood h (V.overlay view.old)) owner at halves places
        (option_map (λ f. f.now) from.entry) limit) (V.trace view.old) (V.trace view.new) }
    ensures overlay { V.overlay view.new ≡ V.overlay view.old }
    ensures onward { Onward V.trace V.overlay V.reaches V.count V.kept view.old view.new }
{
    let bytes = look(rt, alloc, view, at)?;
    match form_of(bytes.as_slice(), owner) {
        None => Err(PartFault::Torn { at }),
        Some(Form::Short(body)) => walk_in(alloc, at, body, from, limit),
        Some(Form::Long { anchor, .. }) => walk_below(rt, alloc, view, at, anchor, from, limit),
    }
}

// The same of the one object.
fn walk_in(
    alloc: Global,
    at: Addr,
    body: &[u8],
    from: Option<&Half>,
    limit: u32,
) -> Result<Vec<Half>, PartFault>
    ensures { (halves : List Half) → AllByRecursion IsHalf halves → body.now ≡ entries (map half_entry halves)
        → Tells result (λ found. found.items
        ≡ take limit (from_half (option_map (λ f. f.now) from.entry) halves)) }
{
    let rest = behind(alloc, at, body, from)?;
    halves_in(alloc, at, rest, limit)
}

// The entries behind a half-edge, or all.
fn behind<'a>(
    alloc: Global,
    at: Addr,
    body: &'a [u8],
    from: Option<&Half>,
) -> Result<&'a [u8], PartFault>
    ensures { (halves : List Half) → AllByRecursion IsHalf halves → body.now ≡ entries (map half_entry halves)
        → Tells result (λ rest. rest.now
        ≡ entries (map half_entry (from_half (option_map (λ f. f.now) from.entry) halves))) }
{
    let Some(from) = from else {
        return Ok(body);
    };
    let key = half_key(alloc, from.kind, from.far)?;
    match place_in(body, key.as_slice()) {
        None => Err(PartFault::Torn { at }),
        Some((_, back, _)) => Ok(back),
    }
}

// The half-edges of the first entries.
fn halves_in(alloc: Global, at: Addr, body: &[u8], limit: u32) -> Result<Vec<Half>, PartFault>
    ensures { (halves : List Half) → AllByRecursion IsHalf halves → body.now ≡ entries (map half_entry halves)
        → Tells result (λ found. found.items ≡ take limit halves) }
{
    let mut out = Vec::new(alloc);
    let mut rest = body;
    let mut left = limit;
    'each: while left > 0 && rest.len() > 0 {
        let Some((key, word, after)) = entry_of(rest) else {
            return Err(PartFault::Torn { at });
        };
        let Some(half) = half_of(key, word) else {
            return Err(PartFault::Torn { at });
        };
        push_half(&mut out, half)?;
        rest = after;
        left -= 1;
    }
    Ok(out)
}

// One more half-edge.
fn push_half(out: &mut Vec<Half>, half: Half) -> Result<(), AllocError>
    ensures { OnOk result (out.new.items ≡ out.old.items ++ half ∷ []) }
{
    match out.push(half) {
        Err(_) => Err(AllocError),
        Ok(()) => Ok(()),
    }
}

// The same of the tree.
fn walk_below<V: View, R: Wait>(
    rt: &R,
    alloc: Global,
    view: &mut V,
    at: Addr,
    anchor: Addr,
    from: Option<&Half>,
    limit: u32,
) -> Result<Vec<Half>, PartFault>
    requires served { V.reaches view.old (at.region % V.count view.old) ≡ true }
    ensures tells { (h : Heap) (owner : Addr) (halves : List Half) (places : List Addr)
        → Agrees h (V.trace view.new) (V.overlay view.new)
        → AllByRecursion IsHalf halves → Rising (map half_entry halves)
        → (long : IsLong (V.count view.old) (stood h (V.overlay view.old)) at owner halves places)
        → long.anchor ≡ anchor
        → Tells result (λ found. found.items
        ≡ take limit (from_half (option_map (λ f. f.now) from.entry) halves)) }
    ensures reads { (h : Heap) (owner : Addr) (halves : List Half) (places : List Addr)
        → Agrees h (V.trace view.new) (V.overlay view.new)
        → (long : IsLong (V.count view.old) (stood h (V.overlay view.old)) at owner halves places)
        → long.anchor ≡ anchor
        → ReadsOnly (RangeReads long.anchor long.tree.height long.tree.root
        (least_key (option_map (λ f. f.now) from.entry)) last_key limit) (V.trace view.old) (V.trace view.new) }
    ensures overlay { V.overlay view.new ≡ V.overlay view.old }
    ensures onward { Onward V.trace V.overlay V.reaches V.count V.kept view.old view.new }
{
    if !view.serves(anchor) {
        return Err(PartFault::Torn { at });
    }
    let first = first_key(alloc, from)?;
    let tree = Tree { anchor };
    let pairs = tree.range(rt, alloc, view, first.as_slice(), &[255; 13], limit)?;
    halves_of(alloc, at, pairs.as_slice())
}

// The least key behind a half-edge, or behind none.
fn first_key(alloc: Global, from: Option<&Half>) -> Result<Bin, Memory>
    ensures { IfOk result (λ key. key ≡ least_key (option_map (λ f. f.now) from.entry)) }
{
    match from {
        None => Ok(Bin::new(alloc)),
        Some(from) => {
            let mut key = half_key(alloc, from.kind, from.far)?;
            key.append(&[0])?;
            Ok(key)
        }
    }
}

// The half-edges of a tree's pairs.
fn halves_of(alloc: Global, at: Addr, pairs: &[(Bin, u64)]) -> Result<Vec<Half>, PartFault>
    ensures { (halves : List Half) → AllByRecursion IsHalf halves → pairs.now ≡ map half_pair halves
        → Tells result (λ found. found.items ≡ halves) }
{
    let mut out = Vec::new(alloc);
    for pair in pairs {
        let Some(half) = half_of(pair.0.as_slice(), pair.1) else {
            return Err(PartFault::Torn { at });
        };
        push_half(&mut out, half)?;
    }
    Ok(out)
}
