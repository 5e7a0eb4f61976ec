//! A tree taken away, a few objects at a time: children before their node, the anchor last.
ghost use Rattle.std.specs.Prelude.{◌≡◌, ◌≤◌, ◌%◌, true, ℕ, List, None, Some, IfOk, MatchOption};
ghost use Rattle.std.specs.List.{AllByRecursion};
ghost use Rattle.a1_base.specs.declared.place.Addr.{Addr};
ghost use Rattle.object_view.specs.Agreement.{Heap, Agrees, stood};
ghost use Rattle.object_view.specs.Layout.{Entry, IsEntry, entries, head_at};
ghost use Rattle.object_view.specs.Parts.{Onward, with_bytes, Tells};
ghost use Rattle.object_view.specs.Trees.{Distinct, is_on};
ghost use Rattle.object_btree.specs.Remains.{LeftBelow, SeekTells, LessBy};

use crate::bytes::{NODE, entry_of, head_of};
use crate::nodes::Site;
use a1_base::{Addr, Bin};
use object_view::{PartFault, View, addr_of, look, take};
use std::alloc::Global;
use std::sync::Wait;

/// The bytes of the object at an address, where one is there. `Torn` comes where the view does not serve the address.
#[tactic(auto, using(object_view::proofs::Looking::read_rules))]
pub fn seek<V: View, R: Wait>(
    rt: &R,
    alloc: Global,
    view: &mut V,
    at: Addr,
) -> Result<Option<Bin>, PartFault>
    ensures tells { (h : Heap) → Agrees h (V.trace view.new) (V.overlay view.new)
        → V.reaches view.old (at.region % V.count view.old) ≡ true
        → SeekTells result (stood h (V.overlay view.old) at) }
    ensures overlay { V.overlay view.new ≡ V.overlay view.old }
    ensures onward { Onward V.trace V.overlay V.reaches V.count V.kept view.old view.new }
{
    if !view.serves(at) {
        return Err(PartFault::Torn { at });
    }
    match view.read(rt, alloc, at) {
        Ok(Some(object)) => Ok(Some(object.bytes)),
        Ok(None) => Ok(None),
        Err(_) => Err(PartFault::Memory),
    }
}

/// The bytes behind the owner, where these are a node of this owner.
fn owned(bytes: &[u8], owner: u64) -> Option<&[u8]>
    ensures { MatchOption result ((rest : List ℕ) → head_at 3 bytes.now ≡ Some (owner, rest) → ⊥)
        (λ x. head_at 3 bytes.now ≡ Some (owner, x.now)) }
{
    match head_of(bytes, NODE) {
        None => None,
        Some((word, rest)) => {
            if word != owner {
                return None;
            }
            Some(rest)
        }
    }
}

/// Frees the object at an address.
pub fn free_at<V: View, R: Wait>(
    rt: &R,
    alloc: Global,
    view: &mut V,
    at: Addr,
) -> Result<(), PartFault>
    ensures tells { (h : Heap) → Agrees h (V.trace view.new) (V.overlay view.new)
        → V.reaches view.old (at.region % V.count view.old) ≡ true
        → (stood h (V.overlay view.old) at ≡ None → ⊥)
        → Tells result (λ _. stood h (V.overlay view.new) ≡ with_bytes at None (stood h (V.overlay view.old))) }
    ensures onward { Onward V.trace V.overlay V.reaches V.count V.kept view.old view.new }
{
    look(rt, alloc, view, at)?;
    take(alloc, view, at)
}

/// Frees at most so many nodes below the entries of a node, below which there are so many levels, each node behind what
/// is below it, and answers how many. Where nothing stands, or an object of another owner, a node was freed before.
pub fn destroy_in<V: View, R: Wait>(
    rt: &R,
    alloc: Global,
    view: &mut V,
    site: Site,
    levels: u8,
    at: Addr,
    body: &[u8],
    limit: u32,
) -> Result<u32, PartFault>
    requires served { V.reaches view.old site.node ≡ true }
    ensures few { IfOk result (λ freed. freed ≤ limit) }
    ensures tells { (h : Heap) (es : List Entry) (ps : List Addr) → Agrees h (V.trace view.new) (V.overlay view.new)
        → AllByRecursion IsEntry es → body.now ≡ entries es
        → LeftBelow (is_on (V.count view.old) site.node) (stood h (V.overlay view.old)) site.owner levels es ps
        → Distinct ps
        → Tells result (λ freed. LessBy (is_on (V.count view.old) site.node) (stood h (V.overlay view.old))
        (stood h (V.overlay view.new)) site.owner levels es ps limit freed) }
    ensures onward { Onward V.trace V.overlay V.reaches V.count V.kept view.old view.new }
{
    if levels == 0 {
        return Ok(0);
    }
    if body.len() == 0 {
        return Ok(0);
    }
    if limit == 0 {
        return Ok(0);
    }
    let Some((_, word, rest)) = entry_of(body) else {
        return Err(PartFault::Torn { at });
    };
    let child = addr_of(word);
    let Some(bytes) = seek(rt, alloc, view, child)? else {
        return destroy_in(rt, alloc, view, site, levels, at, rest, limit);
    };
    let Some(below) = owned(bytes.as_slice(), site.owner) else {
        return destroy_in(rt, alloc, view, site, levels, at, rest, limit);
    };
    if below.len() > 65000 {
        return Err(PartFault::Torn { at: child });
    }
    let freed = destroy_in(rt, alloc, view, site, levels - 1, child, below, limit)?;
    if freed == limit {
        return Ok(freed);
    }
    free_at(rt, alloc, view, child)?;
    let more = destroy_in(rt, alloc, view, site, levels, at, rest, limit - freed - 1)?;
    Ok(freed + 1 + more)
}
