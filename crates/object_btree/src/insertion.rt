//! A key given a number, from the root down.
ghost use Rattle.std.specs.Prelude.{◌≡◌, ◌<◌, ◌≤◌, ◌%◌, ◌+◌, ◌++◌, ◌∷◌, true, Bool, ℕ, List, length, Some, None, OnOk};
ghost use Rattle.std.specs.List.{AllByRecursion};
ghost use Rattle.a1_base.specs.declared.place.Addr.{Addr};
ghost use Rattle.object_view.specs.Agreement.{Heap, Agrees, stood};
ghost use Rattle.object_view.specs.Calls.{StandsIn};
ghost use Rattle.object_view.specs.Keys.{Bound, UpTo, Below, lookup, inserted};
ghost use Rattle.object_view.specs.Layout.{Entry, IsEntry, entries, addr_of, word_of};
ghost use Rattle.object_view.specs.Parts.{Onward, Tells, Lasts};
ghost use Rattle.object_view.specs.Trees.{Branch, Item, Sub, is_on};
ghost use Rattle.object_btree.specs.Steps.{Packed, Inserts, NewRoot};

use crate::bytes::{anchored, node_of, root_entries, with_entry};
use crate::nodes::{Site, Split, make_node, pack};
use crate::scan::{place_in, route_in};
use a1_base::Addr;
use object_view::{PartFault, View, addr_of, look, store, word_of};
use std::alloc::Global;
use std::sync::Wait;

/// What an insertion below a node did: the old number of the key, and the node's right half where it was split.
#[derive(Debug, Drop)]
pub struct Put {
    pub old: Option<u64>,
    pub more: Option<Split>,
}

/// Puts a pair into a leaf.
fn put_leaf<V: View, R: Wait>(
    rt: &R,
    alloc: Global,
    view: &mut V,
    site: Site,
    at: Addr,
    body: &[u8],
    key: &[u8],
    value: u64,
) -> Result<Put, PartFault>
    requires node { site.node < V.count view.old }
    requires served { V.reaches view.old site.node ≡ true }
    requires reached { V.reaches view.old (at.region % V.count view.old) ≡ true }
    requires stands { StandsIn (V.trace view.old) (V.overlay view.old) at }
    requires key { length key.now ≤ 1100 }
    ensures tells { (h : Heap) (es : List Entry) → Agrees h (V.trace view.new) (V.overlay view.new)
        → AllByRecursion IsEntry es → body.now ≡ entries es → length es ≤ 32
        → Tells result (λ put. Packed (is_on (V.count view.old) site.node) (stood h (V.overlay view.old))
        (stood h (V.overlay view.new)) site.owner at (inserted key.now value es) put.more
        × (put.old ≡ lookup key.now es)) }
    ensures lasts { OnOk result (Lasts (V.trace view.new) (V.overlay view.old) (V.overlay view.new)) }
    ensures onward { Onward V.trace V.overlay V.reaches V.count V.kept view.old view.new }
{
    let Some((front, back, old)) = place_in(body, key) else {
        return Err(PartFault::Torn { at });
    };
    let body = with_entry(alloc, front, key, value, back)?;
    let more = pack(rt, alloc, view, site, at, body.as_slice())?;
    Ok(Put { old, more })
}

/// Puts the right half of a split child behind the child.
fn put_child<V: View, R: Wait>(
    rt: &R,
    alloc: Global,
    view: &mut V,
    site: Site,
    at: Addr,
    front: &[u8],
    split: &Split,
    back: &[u8],
) -> Result<Option<Split>, PartFault>
    requires node { site.node < V.count view.old }
    requires served { V.reaches view.old site.node ≡ true }
    requires reached { V.reaches view.old (at.region % V.count view.old) ≡ true }
    requires stands { StandsIn (V.trace view.old) (V.overlay view.old) at }
    ensures tells { (h : Heap) (low high : List Entry) → Agrees h (V.trace view.new) (V.overlay view.new)
        → front.now ≡ entries low → back.now ≡ entries high → AllByRecursion IsEntry low → AllByRecursion IsEntry high
        → length low + length high ≤ 33 → length split.now.key ≤ 1100
        → Tells result (λ more. Packed (is_on (V.count view.old) site.node) (stood h (V.overlay view.old))
        (stood h (V.overlay view.new)) site.owner at
        (low ++ record { key = split.now.key; word = split.now.word } ∷ high) more) }
    ensures lasts { OnOk result (Lasts (V.trace view.new) (V.overlay view.old) (V.overlay view.new)) }
    ensures onward { Onward V.trace V.overlay V.reaches V.count V.kept view.old view.new }
{
    let key = split.key.as_slice();
    if key.len() > 1100 {
        return Err(PartFault::Torn { at });
    }
    let body = with_entry(alloc, front, key, split.word, back)?;
    pack(rt, alloc, view, site, at, body.as_slice())
}

/// Puts a pair below a node.
pub fn insert_at<V: View, R: Wait>(
    rt: &R,
    alloc: Global,
    view: &mut V,
    site: Site,
    at: Addr,
    height: u8,
    key: &[u8],
    value: u64,
) -> Result<Put, PartFault>
    requires node { site.node < V.count view.old }
    requires served { V.reaches view.old site.node ≡ true }
    requires some { 1 ≤ length key.now }
    requires key { length key.now ≤ 1100 }
    ensures tells { (h : Heap) (b : Branch (Item height)) (least : ℕ) (lo hi : Bound)
        → Agrees h (V.trace view.new) (V.overlay view.new)
        → Sub (is_on (V.count view.old) site.node) (stood h (V.overlay view.old)) site.owner least height lo b hi
        → addr_of b.word ≡ at → (1 ≤ height → 1 ≤ least) → UpTo lo (Some key.now) → Below key.now hi
        → Tells result (λ put. Inserts (is_on (V.count view.old) site.node) (stood h (V.overlay view.old))
        (stood h (V.overlay view.new)) site.owner least height lo b hi key.now value put) }
    ensures lasts { OnOk result (Lasts (V.trace view.new) (V.overlay view.old) (V.overlay view.new)) }
    ensures onward { Onward V.trace V.overlay V.reaches V.count V.kept view.old view.new }
{
    let bytes = look(rt, alloc, view, at)?;
    let Some(body) = node_of(bytes.as_slice(), site.owner) else {
        return Err(PartFault::Torn { at });
    };
    if height == 0 {
        return put_leaf(rt, alloc, view, site, at, body, key, value);
    }
    let Some((front, word, back)) = route_in(body, key) else {
        return Err(PartFault::Torn { at });
    };
    let put = insert_at(rt, alloc, view, site, addr_of(word), height - 1, key, value)?;
    let Put { old, more } = put;
    match more {
        None => Ok(Put { old, more: None }),
        Some(split) => {
            let more = put_child(rt, alloc, view, site, at, front, &split, back)?;
            Ok(Put { old, more })
        }
    }
}

/// Puts a root above the two halves of the old one.
pub fn new_root<V: View, R: Wait>(
    rt: &R,
    alloc: Global,
    view: &mut V,
    site: Site,
    anchor: Addr,
    owner: u64,
    root: u64,
    height: u8,
    split: &Split,
) -> Result<(), PartFault>
    requires node { site.node < V.count view.old }
    requires served { V.reaches view.old site.node ≡ true }
    requires reached { V.reaches view.old (anchor.region % V.count view.old) ≡ true }
    requires stands { StandsIn (V.trace view.old) (V.overlay view.old) anchor }
    requires height { height < 15 }
    requires owner { site.owner ≡ word_of anchor }
    ensures tells { (h : Heap) → Agrees h (V.trace view.new) (V.overlay view.new) → length split.now.key ≤ 1100
        → Tells result (λ _. NewRoot (is_on (V.count view.old) site.node) (stood h (V.overlay view.old))
        (stood h (V.overlay view.new)) anchor owner root height split.now.key split.now.word) }
    ensures onward { Onward V.trace V.overlay V.reaches V.count V.kept view.old view.new }
{
    let key = split.key.as_slice();
    if key.len() > 1100 {
        return Err(PartFault::Torn { at: anchor });
    }
    let body = root_entries(alloc, root, key, split.word)?;
    let to = make_node(rt, alloc, view, site, body.as_slice())?;
    let bytes = anchored(alloc, owner, word_of(to), height + 1)?;
    store(alloc, view, anchor, bytes.as_slice())
}
