//! A key taken out, from the root down; a node with an entry too few is joined with a neighbour.
ghost use Rattle.std.specs.Prelude.{◌≡◌, ◌<◌, ◌≤◌, ◌%◌, ◌+◌, ◌++◌, [], ◌∷◌, true, Bool, ℕ, List, length, Some, None, OnOk};
ghost use Rattle.std.specs.List.{AllByRecursion};
ghost use Rattle.a1_base.specs.declared.place.Addr.{Addr};
ghost use Rattle.object_view.specs.Agreement.{Heap, Agrees, stood};
ghost use Rattle.object_view.specs.Calls.{StandsIn};
ghost use Rattle.object_view.specs.Keys.{Bound, UpTo, Below};
ghost use Rattle.object_view.specs.Layout.{Entry, IsEntry, entries, addr_of, word_of};
ghost use Rattle.object_view.specs.Parts.{Onward, Tells};
ghost use Rattle.object_view.specs.Trees.{Branch, Item, Sub, is_on};
ghost use Rattle.object_btree.specs.Steps.{MergedAt, SharedAt, PairAt, JoinedAt, LeafTaken, Removes, Lowered, LowerAt, RootAt};

use crate::bytes::{anchored, appended, entry_of, node_of, with_entry};
use crate::nodes::{Site, put_node};
use crate::scan::{count_in, last_of, place_in, route_in, split_in};
use a1_base::{Addr, Bin};
use object_view::{PartFault, View, addr_of, look, store, take};
use std::alloc::Global;
use std::sync::Wait;

/// What a removal below a node did: the number of the key, and whether the node may have an entry too few.
#[derive(Debug, Drop)]
pub struct Taken {
    pub old: Option<u64>,
    pub thin: bool,
}

/// Takes a pair out of a leaf.
fn remove_leaf<V: View>(
    alloc: Global,
    view: &mut V,
    site: Site,
    at: Addr,
    body: &[u8],
    key: &[u8],
) -> Result<Taken, PartFault>
    requires reached { V.reaches view.old (at.region % V.count view.old) ≡ true }
    requires stands { StandsIn (V.trace view.old) (V.overlay view.old) at }
    ensures tells { (h : Heap) (es : List Entry) → Agrees h (V.trace view.new) (V.overlay view.new)
        → AllByRecursion IsEntry es → body.now ≡ entries es → length es ≤ 32
        → Tells result (λ taken. LeafTaken (stood h (V.overlay view.old)) (stood h (V.overlay view.new)) site.owner
        at key.now es taken) }
    ensures onward { Onward V.trace V.overlay V.reaches V.count V.kept view.old view.new }
{
    let Some((front, back, old)) = place_in(body, key) else {
        return Err(PartFault::Torn { at });
    };
    let Some(number) = old else {
        return Ok(Taken {
            old: None,
            thin: false,
        });
    };
    let body = appended(alloc, front, back)?;
    let Some(count) = count_in(body.as_slice()) else {
        return Err(PartFault::Torn { at });
    };
    put_node(alloc, view, site.owner, at, body.as_slice())?;
    Ok(Taken {
        old: Some(number),
        thin: count < 16,
    })
}

/// Puts the entries of two neighbours into the left one, and takes the right one away.
fn merge<V: View>(
    alloc: Global,
    view: &mut V,
    owner: u64,
    at: Addr,
    a: Addr,
    b: Addr,
    above: &[u8],
    both: &[u8],
) -> Result<bool, PartFault>
    requires reached { V.reaches view.old (at.region % V.count view.old) ≡ true }
    requires stands { StandsIn (V.trace view.old) (V.overlay view.old) at }
    requires left_reached { V.reaches view.old (a.region % V.count view.old) ≡ true }
    requires left_stands { StandsIn (V.trace view.old) (V.overlay view.old) a }
    requires right_reached { V.reaches view.old (b.region % V.count view.old) ≡ true }
    requires right_stands { StandsIn (V.trace view.old) (V.overlay view.old) b }
    ensures tells { (h : Heap) (es xs : List Entry) → Agrees h (V.trace view.new) (V.overlay view.new)
        → AllByRecursion IsEntry es → above.now ≡ entries es → length es ≤ 32
        → AllByRecursion IsEntry xs → both.now ≡ entries xs → length xs ≤ 32
        → (a ≡ b → ⊥) → (a ≡ at → ⊥) → (b ≡ at → ⊥)
        → Tells result (λ thin. MergedAt (stood h (V.overlay view.old)) (stood h (V.overlay view.new)) owner
        at a b es xs thin) }
    ensures onward { Onward V.trace V.overlay V.reaches V.count V.kept view.old view.new }
{
    let Some(count) = count_in(above) else {
        return Err(PartFault::Torn { at });
    };
    put_node(alloc, view, owner, a, both)?;
    put_node(alloc, view, owner, at, above)?;
    take(alloc, view, b)?;
    Ok(count < 16)
}

/// Puts the entries of two neighbours anew into both, by halves.
fn share<V: View>(
    alloc: Global,
    view: &mut V,
    owner: u64,
    at: Addr,
    a: Addr,
    b: Addr,
    front: &[u8],
    word: u64,
    back: &[u8],
    both: &[u8],
    half: usize,
) -> Result<bool, PartFault>
    requires reached { V.reaches view.old (at.region % V.count view.old) ≡ true }
    requires stands { StandsIn (V.trace view.old) (V.overlay view.old) at }
    requires left_reached { V.reaches view.old (a.region % V.count view.old) ≡ true }
    requires left_stands { StandsIn (V.trace view.old) (V.overlay view.old) a }
    requires right_reached { V.reaches view.old (b.region % V.count view.old) ≡ true }
    requires right_stands { StandsIn (V.trace view.old) (V.overlay view.old) b }
    ensures tells { (h : Heap) (low high xs : List Entry) → Agrees h (V.trace view.new) (V.overlay view.new)
        → AllByRecursion IsEntry low → AllByRecursion IsEntry high → front.now ≡ entries low → back.now ≡ entries high
        → length low + length high ≤ 31 → AllByRecursion IsEntry xs → both.now ≡ entries xs → 16 ≤ half → half ≤ 32
        → half + 16 ≤ length xs → length xs ≤ half + 32 → (a ≡ b → ⊥) → (a ≡ at → ⊥) → (b ≡ at → ⊥)
        → Tells result (λ thin. SharedAt (stood h (V.overlay view.old)) (stood h (V.overlay view.new)) owner
        at a b low word high xs thin) }
    ensures onward { Onward V.trace V.overlay V.reaches V.count V.kept view.old view.new }
{
    let Some((left, right)) = split_in(both, half) else {
        return Err(PartFault::Torn { at });
    };
    let Some((key, _, _)) = entry_of(right) else {
        return Err(PartFault::Torn { at });
    };
    if key.len() > 1100 {
        return Err(PartFault::Torn { at });
    }
    let above = with_entry(alloc, front, key, word, back)?;
    let Some(count) = count_in(above.as_slice()) else {
        return Err(PartFault::Torn { at });
    };
    put_node(alloc, view, owner, a, left)?;
    put_node(alloc, view, owner, b, right)?;
    put_node(alloc, view, owner, at, above.as_slice())?;
    Ok(count < 16)
}

/// The bytes of two objects, where a third stands too.
fn look_two<V: View, R: Wait>(
    rt: &R,
    alloc: Global,
    view: &mut V,
    at: Addr,
    a: Addr,
    b: Addr,
) -> Result<(Bin, Bin), PartFault>
    ensures tells { (h : Heap) (xs ys : List ℕ) → Agrees h (V.trace view.new) (V.overlay view.new)
        → V.reaches view.old (at.region % V.count view.old) ≡ true
        → (stood h (V.overlay view.old) at ≡ None → ⊥)
        → V.reaches view.old (a.region % V.count view.old) ≡ true → stood h (V.overlay view.old) a ≡ Some xs
        → V.reaches view.old (b.region % V.count view.old) ≡ true → stood h (V.overlay view.old) b ≡ Some ys
        → Tells result (λ p. (p.0 ≡ xs) × (p.1 ≡ ys)) }
    ensures stands { OnOk result (StandsIn (V.trace view.new) (V.overlay view.new) at) }
    ensures left_stands { OnOk result (StandsIn (V.trace view.new) (V.overlay view.new) a) }
    ensures right_stands { OnOk result (StandsIn (V.trace view.new) (V.overlay view.new) b) }
    ensures reached { OnOk result ((V.reaches view.new (at.region % V.count view.new) ≡ true)
        × (V.reaches view.new (a.region % V.count view.new) ≡ true)
        × (V.reaches view.new (b.region % V.count view.new) ≡ true)) }
    ensures overlay { V.overlay view.new ≡ V.overlay view.old }
    ensures onward { Onward V.trace V.overlay V.reaches V.count V.kept view.old view.new }
{
    look(rt, alloc, view, at)?;
    let left = look(rt, alloc, view, a)?;
    let right = look(rt, alloc, view, b)?;
    Ok((left, right))
}

/// Joins the entries of two neighbours: in one node, or by halves.
fn joined<V: View>(
    alloc: Global,
    view: &mut V,
    site: Site,
    at: Addr,
    a: Addr,
    b: Addr,
    front: &[u8],
    key: &[u8],
    left: u64,
    right: u64,
    back: &[u8],
    left_body: &[u8],
    right_body: &[u8],
) -> Result<bool, PartFault>
    requires reached { V.reaches view.old (at.region % V.count view.old) ≡ true }
    requires stands { StandsIn (V.trace view.old) (V.overlay view.old) at }
    requires left_reached { V.reaches view.old (a.region % V.count view.old) ≡ true }
    requires left_stands { StandsIn (V.trace view.old) (V.overlay view.old) a }
    requires right_reached { V.reaches view.old (b.region % V.count view.old) ≡ true }
    requires right_stands { StandsIn (V.trace view.old) (V.overlay view.old) b }
    ensures tells { (h : Heap) (low high xs ys : List Entry) → Agrees h (V.trace view.new) (V.overlay view.new)
        → AllByRecursion IsEntry low → AllByRecursion IsEntry high → front.now ≡ entries low → back.now ≡ entries high
        → length key.now ≤ 1100 → length low + length high ≤ 30
        → left_body.now ≡ entries xs → right_body.now ≡ entries ys
        → PairAt (is_on (V.count view.old) site.node) (stood h (V.overlay view.old)) site.owner at a b xs ys
        → Tells result (λ thin. JoinedAt (stood h (V.overlay view.old)) (stood h (V.overlay view.new)) site.owner
        at a b low key.now left right high xs ys thin) }
    ensures onward { Onward V.trace V.overlay V.reaches V.count V.kept view.old view.new }
{
    if key.len() > 1100 {
        return Err(PartFault::Torn { at });
    }
    let both = appended(alloc, left_body, right_body)?;
    let Some(count) = count_in(both.as_slice()) else {
        return Err(PartFault::Torn { at: a });
    };
    if count <= 32 {
        let above = with_entry(alloc, front, key, left, back)?;
        merge(
            alloc,
            view,
            site.owner,
            at,
            a,
            b,
            above.as_slice(),
            both.as_slice(),
        )
    } else {
        let front = with_entry(alloc, front, key, left, &[])?;
        share(
            alloc,
            view,
            site.owner,
            at,
            a,
            b,
            front.as_slice(),
            right,
            back,
            both.as_slice(),
            count / 2,
        )
    }
}

/// Joins two neighbours, of which one may have an entry too few.
fn join<V: View, R: Wait>(
    rt: &R,
    alloc: Global,
    view: &mut V,
    site: Site,
    at: Addr,
    front: &[u8],
    key: &[u8],
    left: u64,
    right: u64,
    back: &[u8],
) -> Result<bool, PartFault>
    requires served { V.reaches view.old site.node ≡ true }
    ensures tells { (h : Heap) (low high xs ys : List Entry) → Agrees h (V.trace view.new) (V.overlay view.new)
        → AllByRecursion IsEntry low → AllByRecursion IsEntry high → front.now ≡ entries low → back.now ≡ entries high
        → length key.now ≤ 1100 → length low + length high ≤ 30
        → PairAt (is_on (V.count view.old) site.node) (stood h (V.overlay view.old)) site.owner
        at (addr_of left) (addr_of right) xs ys
        → Tells result (λ thin. JoinedAt (stood h (V.overlay view.old)) (stood h (V.overlay view.new)) site.owner
        at (addr_of left) (addr_of right) low key.now left right high xs ys thin) }
    ensures onward { Onward V.trace V.overlay V.reaches V.count V.kept view.old view.new }
{
    let a = addr_of(left);
    let b = addr_of(right);
    let (left_bytes, right_bytes) = look_two(rt, alloc, view, at, a, b)?;
    let Some(left_body) = node_of(left_bytes.as_slice(), site.owner) else {
        return Err(PartFault::Torn { at: a });
    };
    let Some(right_body) = node_of(right_bytes.as_slice(), site.owner) else {
        return Err(PartFault::Torn { at: b });
    };
    joined(
        alloc, view, site, at, a, b, front, key, left, right, back, left_body, right_body,
    )
}

/// Joins the child whose entry ends the front with the next one, or with the one before it.
fn repair<V: View, R: Wait>(
    rt: &R,
    alloc: Global,
    view: &mut V,
    site: Site,
    at: Addr,
    front: &[u8],
    back: &[u8],
) -> Result<bool, PartFault>
    requires served { V.reaches view.old site.node ≡ true }
    ensures right { (h : Heap) (low : List Entry) (e f : Entry) (high xs ys : List Entry)
        → Agrees h (V.trace view.new) (V.overlay view.new)
        → AllByRecursion IsEntry (low ++ e ∷ []) → AllByRecursion IsEntry (f ∷ high)
        → front.now ≡ entries (low ++ e ∷ []) → back.now ≡ entries (f ∷ high) → length low + length high ≤ 30
        → PairAt (is_on (V.count view.old) site.node) (stood h (V.overlay view.old)) site.owner
        at (addr_of e.word) (addr_of f.word) xs ys
        → Tells result (λ thin. JoinedAt (stood h (V.overlay view.old)) (stood h (V.overlay view.new)) site.owner
        at (addr_of e.word) (addr_of f.word) low e.key e.word f.word high xs ys thin) }
    ensures left { (h : Heap) (low : List Entry) (e f : Entry) (xs ys : List Entry)
        → Agrees h (V.trace view.new) (V.overlay view.new)
        → AllByRecursion IsEntry ((low ++ e ∷ []) ++ f ∷ []) → AllByRecursion IsEntry (low ++ e ∷ [])
        → front.now ≡ entries ((low ++ e ∷ []) ++ f ∷ []) → back.now ≡ [] → length low ≤ 30
        → PairAt (is_on (V.count view.old) site.node) (stood h (V.overlay view.old)) site.owner
        at (addr_of e.word) (addr_of f.word) xs ys
        → Tells result (λ thin. JoinedAt (stood h (V.overlay view.old)) (stood h (V.overlay view.new)) site.owner
        at (addr_of e.word) (addr_of f.word) low e.key e.word f.word [] xs ys thin) }
    ensures onward { Onward V.trace V.overlay V.reaches V.count V.kept view.old view.new }
{
    let Some((front, key, word)) = last_of(front) else {
        return Err(PartFault::Torn { at });
    };
    if back.len() > 0 {
        let Some((_, next, rest)) = entry_of(back) else {
            return Err(PartFault::Torn { at });
        };
        return join(rt, alloc, view, site, at, front, key, word, next, rest);
    }
    let Some((front, key, before)) = last_of(front) else {
        return Err(PartFault::Torn { at });
    };
    join(rt, alloc, view, site, at, front, key, before, word, back)
}

/// Takes a key out below a node.
pub fn remove_at<V: View, R: Wait>(
    rt: &R,
    alloc: Global,
    view: &mut V,
    site: Site,
    at: Addr,
    height: u8,
    key: &[u8],
) -> Result<Taken, PartFault>
    requires served { V.reaches view.old site.node ≡ true }
    ensures tells { (h : Heap) (b : Branch (Item height)) (least : ℕ) (lo hi : Bound)
        → Agrees h (V.trace view.new) (V.overlay view.new)
        → Sub (is_on (V.count view.old) site.node) (stood h (V.overlay view.old)) site.owner least height lo b hi
        → addr_of b.word ≡ at → least ≤ 16 → (1 ≤ height → 2 ≤ least) → UpTo lo (Some key.now) → Below key.now hi
        → Tells result (λ taken. Removes (is_on (V.count view.old) site.node) (stood h (V.overlay view.old))
        (stood h (V.overlay view.new)) site.owner least height lo b hi key.now taken) }
    ensures onward { Onward V.trace V.overlay V.reaches V.count V.kept view.old view.new }
{
    let bytes = look(rt, alloc, view, at)?;
    let Some(body) = node_of(bytes.as_slice(), site.owner) else {
        return Err(PartFault::Torn { at });
    };
    if height == 0 {
        return remove_leaf(alloc, view, site, at, body, key);
    }
    let Some((front, word, back)) = route_in(body, key) else {
        return Err(PartFault::Torn { at });
    };
    let taken = remove_at(rt, alloc, view, site, addr_of(word), height - 1, key)?;
    if !taken.thin {
        return Ok(taken);
    }
    let thin = repair(rt, alloc, view, site, at, front, back)?;
    Ok(Taken {
        old: taken.old,
        thin,
    })
}

/// Puts a child in the root's place, and takes the root away.
fn lower_to<V: View>(
    alloc: Global,
    view: &mut V,
    anchor: Addr,
    root: Addr,
    owner: u64,
    word: u64,
    height: u8,
) -> Result<(), PartFault>
    requires reached { V.reaches view.old (anchor.region % V.count view.old) ≡ true }
    requires stands { StandsIn (V.trace view.old) (V.overlay view.old) anchor }
    requires root_reached { V.reaches view.old (root.region % V.count view.old) ≡ true }
    requires root_stands { StandsIn (V.trace view.old) (V.overlay view.old) root }
    ensures tells { (h : Heap) → Agrees h (V.trace view.new) (V.overlay view.new) → (root ≡ anchor → ⊥)
        → Tells result (λ _. Lowered (stood h (V.overlay view.old)) (stood h (V.overlay view.new))
        anchor root owner word height) }
    ensures onward { Onward V.trace V.overlay V.reaches V.count V.kept view.old view.new }
{
    let bytes = anchored(alloc, owner, word, height)?;
    store(alloc, view, anchor, bytes.as_slice())?;
    take(alloc, view, root)
}

/// A root that is no leaf and has one child gives way to the child.
pub fn lower<V: View, R: Wait>(
    rt: &R,
    alloc: Global,
    view: &mut V,
    site: Site,
    anchor: Addr,
    root: Addr,
    owner: u64,
    height: u8,
) -> Result<(), PartFault>
    requires served { V.reaches view.old site.node ≡ true }
    requires owner { site.owner ≡ word_of anchor }
    ensures tells { (h : Heap) (es : List Entry) → Agrees h (V.trace view.new) (V.overlay view.new)
        → RootAt (is_on (V.count view.old) site.node) (stood h (V.overlay view.old)) anchor root es → 1 ≤ height
        → Tells result (λ _. LowerAt (stood h (V.overlay view.old)) (stood h (V.overlay view.new))
        anchor root owner height es) }
    ensures onward { Onward V.trace V.overlay V.reaches V.count V.kept view.old view.new }
{
    look(rt, alloc, view, anchor)?;
    let bytes = look(rt, alloc, view, root)?;
    if height == 0 {
        return Ok(());
    }
    let Some(body) = node_of(bytes.as_slice(), site.owner) else {
        return Err(PartFault::Torn { at: root });
    };
    let Some((_, word, rest)) = entry_of(body) else {
        return Err(PartFault::Torn { at: root });
    };
    if rest.len() > 0 {
        return Ok(());
    }
    lower_to(alloc, view, anchor, root, owner, word, height - 1)
}
