//! The rows of an index in order.
ghost use Rattle.std.specs.Prelude.{◌≡◌, ◌%◌, true, List, map, take, option_map, IfSome, IfOk};
ghost use Rattle.a1_base.specs.declared.place.Addr.{Addr};
ghost use Rattle.a1_value.specs.Encoding.{IsKey};
ghost use Rattle.object_view.specs.Agreement.{Heap, Agrees, stood};
ghost use Rattle.object_view.specs.Layout.{addr_of};
ghost use Rattle.object_view.specs.Parts.{Onward, ReadsOnly, Tells};
ghost use Rattle.type_schema.specs.Objects.{IndexRow};
ghost use Rattle.type_schema.specs.Structures.{IsIndex};
ghost use Rattle.secondary_index.specs.Changes.{within, rows_behind, told, ScanReads};
ghost use Rattle.secondary_index.specs.Changes.{greater, low_key, next_key, end_key};

use a1_base::{Addr, Bin, Memory};
use a1_value::{Value, push_key};
use object_btree::Tree;
use object_view::{PartFault, View, addr_of};
use std::alloc::{AllocError, Global};
use std::cmp::Ordering;
use std::sync::Wait;

/// Of the rows whose value is neither below `low` nor above `high` the first `limit` behind a key of the index, or the
/// first of all, by value and then by key: of each its key in the index and the header. Bounds have at most 256 bytes.
/// It may wait, and reads no more than these rows need. `Torn` and `Memory` come as for `enter`.
pub fn scan<V: View, R: Wait>(
    rt: &R,
    alloc: Global,
    view: &mut V,
    tree: &Tree,
    low: Option<&Value>,
    high: Option<&Value>,
    after: Option<&[u8]>,
    limit: u32,
) -> Result<Vec<(Bin, Addr)>, PartFault>
    requires served { V.reaches view.old (tree.now.anchor.region % V.count view.old) ≡ true }
    requires low { IfSome low (λ v. IsKey v.now) }
    requires high { IfSome high (λ v. IsKey v.now) }
    ensures tells { (h : Heap) (owner : Addr) (rows : List IndexRow) (places : List Addr)
        → Agrees h (V.trace view.new) (V.overlay view.new)
        → IsIndex (V.count view.old) (stood h (V.overlay view.old)) tree.now.anchor owner rows places
        → Tells result (λ found. found.items ≡ map told (take limit (rows_behind (option_map (λ a. a.now) after.entry)
        (within (option_map (λ v. v.now) low.entry) (option_map (λ v. v.now) high.entry) rows)))) }
    ensures reads { (h : Heap) (owner : Addr) (rows : List IndexRow) (places : List Addr)
        → Agrees h (V.trace view.new) (V.overlay view.new)
        → (index : IsIndex (V.count view.old) (stood h (V.overlay view.old)) tree.now.anchor owner rows places)
        → ReadsOnly (ScanReads (V.count view.old) (stood h (V.overlay view.old)) tree.now.anchor owner rows places index
        (option_map (λ v. v.now) low.entry) (option_map (λ v. v.now) high.entry)
        (option_map (λ a. a.now) after.entry) limit) (V.trace view.old) (V.trace view.new) }
    ensures overlay { V.overlay view.new ≡ V.overlay view.old }
    ensures onward { Onward V.trace V.overlay V.reaches V.count V.kept view.old view.new }
{
    let first = first_key(alloc, low, after)?;
    let end = end_key(alloc, high)?;
    let pairs = tree.range(rt, alloc, view, first.as_slice(), end.as_slice(), limit)?;
    Ok(addressed(alloc, pairs)?)
}

// The pairs with the addresses that their words are.
fn addressed(alloc: Global, pairs: Vec<(Bin, u64)>) -> Result<Vec<(Bin, Addr)>, AllocError>
    ensures { IfOk result (λ found. found.items ≡ map (λ p. (p.0, addr_of p.1)) pairs.items) }
{
    let mut found = Vec::new(alloc);
    for (key, word) in pairs {
        found.push((key, addr_of(word)))?;
    }
    Ok(found)
}

// The least key of a row from a value on.
fn low_key(alloc: Global, low: Option<&Value>) -> Result<Bin, Memory>
    ensures { IfOk result (λ key. key ≡ low_key (option_map (λ v. v.now) low.entry)) }
{
    let mut key = Bin::new(alloc);
    if let Some(low) = low {
        push_key(&mut key, low)?;
    }
    Ok(key)
}

// The least key behind a key.
fn next_key(alloc: Global, after: Option<&[u8]>) -> Result<Bin, Memory>
    ensures { IfOk result (λ key. key ≡ next_key (option_map (λ a. a.now) after.entry)) }
{
    let mut key = Bin::new(alloc);
    if let Some(after) = after {
        key.append(after)?;
        key.append(&[0])?;
    }
    Ok(key)
}

// The least key of a row from a value on and behind a key of the index.
fn first_key(alloc: Global, low: Option<&Value>, after: Option<&[u8]>) -> Result<Bin, Memory>
    ensures { IfOk result (λ key. key ≡ greater (low_key (option_map (λ v. v.now) low.entry))
        (next_key (option_map (λ a. a.now) after.entry))) }
{
    let low = low_key(alloc, low)?;
    let next = next_key(alloc, after)?;
    match low.as_slice().cmp(next.as_slice()) {
        Ordering::Less => Ok(next),
        _ => Ok(low),
    }
}

// Above the keys of all rows up to a value: a key begins with 1, 2 or 3.
fn end_key(alloc: Global, high: Option<&Value>) -> Result<Bin, Memory>
    ensures { IfOk result (λ key. key ≡ end_key (option_map (λ v. v.now) high.entry)) }
{
    let mut key = Bin::new(alloc);
    if let Some(high) = high {
        push_key(&mut key, high)?;
    }
    key.append(&[4])?;
    Ok(key)
}
