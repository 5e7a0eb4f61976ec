//! The pairs from a key to a key.
ghost use Rattle.std.specs.Prelude.{◌≡◌, ◌≤◌, ◌%◌, ◌-◌, ◌++◌, [], ◌∷◌, true, Bool, ℕ, List, length, map, take, Some, None, IfOk};
ghost use Rattle.std.specs.List.{AllByRecursion};
ghost use Rattle.a1_base.specs.declared.place.Addr.{Addr};
ghost use Rattle.object_view.specs.Agreement.{Heap, Agrees, stood};
ghost use Rattle.object_view.specs.Keys.{Bound};
ghost use Rattle.object_view.specs.Layout.{Entry, IsEntry, entries};
ghost use Rattle.object_view.specs.Parts.{Onward, ReadsOnly, Tells};
ghost use Rattle.object_view.specs.Trees.{Item, Ways, Stand, spell, contents, is_on};
ghost use Rattle.object_btree.specs.Intervals.{between, gathered};
ghost use Rattle.object_btree.specs.Levels.{Visits};

use crate::bytes::{entry_of, node_of};
use crate::nodes::Site;
use crate::scan::{begins_upto, is_below};
use a1_base::{Addr, Bin};
use object_view::{PartFault, View, addr_of, look};
use std::alloc::{AllocError, Global};
use std::sync::Wait;

/// One more pair.
fn pushed(
    alloc: Global,
    out: Vec<(Bin, u64)>,
    key: &[u8],
    word: u64,
) -> Result<Vec<(Bin, u64)>, AllocError>
    ensures { IfOk result (λ v. v.items ≡ out.items ++ (key.now, word) ∷ []) }
{
    let mut out = out;
    let key = Bin::from_slice(alloc, key)?;
    match out.push((key, word)) {
        Err(_) => Err(AllocError),
        Ok(()) => Ok(out),
    }
}

/// The pairs of a leaf from a key to a key, behind those that there are.
fn pairs_in(
    alloc: Global,
    at: Addr,
    body: &[u8],
    from: &[u8],
    to: &[u8],
    limit: usize,
    out: Vec<(Bin, u64)>,
) -> Result<Vec<(Bin, u64)>, PartFault>
    ensures { (es : List Entry) (lo hi : Bound) → AllByRecursion IsEntry es → body.now ≡ entries es
        → Ways 0 lo es hi → Tells result (λ v. v.items ≡ gathered limit out.items (between from.now to.now es)) }
{
    if body.len() == 0 {
        return Ok(out);
    }
    let Some((key, word, rest)) = entry_of(body) else {
        return Err(PartFault::Torn { at });
    };
    if out.len() >= limit {
        return Ok(out);
    }
    if !is_below(key, to) {
        return Ok(out);
    }
    if is_below(key, from) {
        return pairs_in(alloc, at, rest, from, to, limit, out);
    }
    let out = pushed(alloc, out, key, word)?;
    pairs_in(alloc, at, rest, from, to, limit, out)
}

/// The pairs below the entries of a node from a key to a key, behind those that there are. A child is read only where
/// more pairs are wanted, it begins below the end, and the next one does not begin at the first key or before it.
pub fn range_in<V: View, R: Wait>(
    rt: &R,
    alloc: Global,
    view: &mut V,
    site: Site,
    height: u8,
    at: Addr,
    body: &[u8],
    from: &[u8],
    to: &[u8],
    limit: usize,
    out: Vec<(Bin, u64)>,
) -> Result<Vec<(Bin, u64)>, PartFault>
    requires served { V.reaches view.old site.node ≡ true }
    ensures tells { (h : Heap) (xs : List (Item height)) (lo hi : Bound)
        → Agrees h (V.trace view.new) (V.overlay view.new) → Ways height lo xs hi
        → Stand (is_on (V.count view.old) site.node) (stood h (V.overlay view.old)) site.owner height xs
        → AllByRecursion IsEntry (map (spell height) xs) → body.now ≡ entries (map (spell height) xs)
        → Tells result (λ v. v.items ≡ gathered limit out.items (between from.now to.now (contents height xs))) }
    ensures reads { (h : Heap) (xs : List (Item height)) (lo hi : Bound)
        → Agrees h (V.trace view.new) (V.overlay view.new) → Ways height lo xs hi
        → Stand (is_on (V.count view.old) site.node) (stood h (V.overlay view.old)) site.owner height xs
        → AllByRecursion IsEntry (map (spell height) xs) → body.now ≡ entries (map (spell height) xs)
        → ReadsOnly (Visits height from.now to.now (limit - length out.items) xs)
        (V.trace view.old) (V.trace view.new) }
    ensures overlay { V.overlay view.new ≡ V.overlay view.old }
    ensures onward { Onward V.trace V.overlay V.reaches V.count V.kept view.old view.new }
{
    if height == 0 {
        return pairs_in(alloc, at, body, from, to, limit, out);
    }
    if body.len() == 0 {
        return Ok(out);
    }
    let Some((key, word, rest)) = entry_of(body) else {
        return Err(PartFault::Torn { at });
    };
    if out.len() >= limit {
        return Ok(out);
    }
    if !is_below(key, to) {
        return Ok(out);
    }
    if begins_upto(rest, from) {
        return range_in(
            rt, alloc, view, site, height, at, rest, from, to, limit, out,
        );
    }
    let child = addr_of(word);
    let bytes = look(rt, alloc, view, child)?;
    let Some(below) = node_of(bytes.as_slice(), site.owner) else {
        return Err(PartFault::Torn { at: child });
    };
    if below.len() > 65000 {
        return Err(PartFault::Torn { at: child });
    }
    let out = range_in(
        rt,
        alloc,
        view,
        site,
        height - 1,
        child,
        below,
        from,
        to,
        limit,
        out,
    )?;
    range_in(
        rt, alloc, view, site, height, at, rest, from, to, limit, out,
    )
}
