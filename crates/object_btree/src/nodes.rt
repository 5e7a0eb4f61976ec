//! One node of a tree: put in its place, made, or split in two.
ghost use Rattle.std.specs.Prelude.{◌≡◌, ◌<◌, ◌≤◌, ◌%◌, ◌∷◌, true, Bool, List, length, Some, None, IfOk, OnOk};
ghost use Rattle.std.specs.List.{AllByRecursion};
ghost use Rattle.a1_base.specs.declared.place.Addr.{Addr};
ghost use Rattle.object_view.specs.Agreement.{Heap, Agrees, stood};
ghost use Rattle.object_view.specs.Calls.{StandsIn, IsPlace};
ghost use Rattle.object_view.specs.Layout.{Entry, IsEntry, entries, object_bytes};
ghost use Rattle.object_view.specs.Parts.{Onward, with_bytes, Tells, Lasts};
ghost use Rattle.object_view.specs.Trees.{is_on};
ghost use Rattle.object_btree.specs.Steps.{Packed};

use crate::bytes::{entry_of, spelled};
use crate::scan::{count_in, split_in};
use a1_base::{Addr, Bin};
use object_view::{PartFault, View, make, store, word_of};
use std::alloc::Global;
use std::sync::Wait;

/// Where the nodes of a tree stand: on which node of the heap, and the tree's anchor, their owner, as a word.
#[derive(Clone, Copy, Debug, PartialEq, Eq)]
pub struct Site {
    pub node: u32,
    pub owner: u64,
}

/// The right half of a node that was split: its least key, and its place as a word.
#[derive(Debug, Drop)]
pub struct Split {
    pub key: Bin,
    pub word: u64,
}

/// Puts a node with these entries where an object stands.
pub fn put_node<V: View>(
    alloc: Global,
    view: &mut V,
    owner: u64,
    at: Addr,
    body: &[u8],
) -> Result<(), PartFault>
    requires served { V.reaches view.old (at.region % V.count view.old) ≡ true }
    requires stands { StandsIn (V.trace view.old) (V.overlay view.old) at }
    ensures tells { length body.now ≤ 65000 → Tells result (λ _. (h : Heap) → stood h (V.overlay view.new)
        ≡ with_bytes at (Some (object_bytes 3 owner body.now)) (stood h (V.overlay view.old))) }
    ensures lasts { OnOk result (Lasts (V.trace view.new) (V.overlay view.old) (V.overlay view.new)) }
    ensures onward { Onward V.trace V.overlay V.reaches V.count V.kept view.old view.new }
{
    let bytes = spelled(alloc, owner, body)?;
    if bytes.len() > 65536 {
        return Err(PartFault::Torn { at });
    }
    store(alloc, view, at, bytes.as_slice())
}

/// Makes a node with these entries.
pub fn make_node<V: View, R: Wait>(
    rt: &R,
    alloc: Global,
    view: &mut V,
    site: Site,
    body: &[u8],
) -> Result<Addr, PartFault>
    requires node { site.node < V.count view.old }
    requires served { V.reaches view.old site.node ≡ true }
    ensures tells { length body.now ≤ 65000 → Tells result (λ at. (h : Heap) → stood h (V.overlay view.new)
        ≡ with_bytes at (Some (object_bytes 3 site.owner body.now)) (stood h (V.overlay view.old))) }
    ensures fresh { IfOk result (λ at. (h : Heap) → Agrees h (V.trace view.new) (V.overlay view.new)
        → stood h (V.overlay view.old) at ≡ None) }
    ensures place { IfOk result (λ at. IsPlace (V.count view.old) site.node at) }
    ensures lasts { OnOk result (Lasts (V.trace view.new) (V.overlay view.old) (V.overlay view.new)) }
    ensures onward { Onward V.trace V.overlay V.reaches V.count V.kept view.old view.new }
{
    let bytes = spelled(alloc, site.owner, body)?;
    if bytes.len() > 65536 {
        return Err(PartFault::Tall);
    }
    make(rt, alloc, view, site.node, bytes.as_slice())
}

/// Puts these entries at a node's place, or, where they are too many, in two halves, the right one at a new place.
pub fn pack<V: View, R: Wait>(
    rt: &R,
    alloc: Global,
    view: &mut V,
    site: Site,
    at: Addr,
    body: &[u8],
) -> Result<Option<Split>, PartFault>
    requires node { site.node < V.count view.old }
    requires served { V.reaches view.old site.node ≡ true }
    requires reached { V.reaches view.old (at.region % V.count view.old) ≡ true }
    requires stands { StandsIn (V.trace view.old) (V.overlay view.old) at }
    ensures tells { (h : Heap) (es : List Entry) → Agrees h (V.trace view.new) (V.overlay view.new)
        → AllByRecursion IsEntry es → body.now ≡ entries es → length es ≤ 64
        → Tells result (λ more. Packed (is_on (V.count view.old) site.node) (stood h (V.overlay view.old))
        (stood h (V.overlay view.new)) site.owner at es more) }
    ensures lasts { OnOk result (Lasts (V.trace view.new) (V.overlay view.old) (V.overlay view.new)) }
    ensures onward { Onward V.trace V.overlay V.reaches V.count V.kept view.old view.new }
{
    let Some(count) = count_in(body) else {
        return Err(PartFault::Torn { at });
    };
    if count <= 32 {
        put_node(alloc, view, site.owner, at, body)?;
        return Ok(None);
    }
    let Some((left, right)) = split_in(body, count / 2) else {
        return Err(PartFault::Torn { at });
    };
    let Some((key, _, _)) = entry_of(right) else {
        return Err(PartFault::Torn { at });
    };
    let key = Bin::from_slice(alloc, key)?;
    let to = make_node(rt, alloc, view, site, right)?;
    put_node(alloc, view, site.owner, at, left)?;
    Ok(Some(Split {
        key,
        word: word_of(to),
    }))
}
