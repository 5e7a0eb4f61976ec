//! Whether two maps have the same entries.
ghost use Rattle.std.specs.Prelude.{◌≡◌, Decides};
ghost use Rattle.std.specs.Map.Iter.{TakesFirst, deref_pair};
ghost use Rattle.graph_maps.specs.Places.{kept};

use crate::places::{ExactEq, ExactOrd};
use std::collections::btree_map::Iter;
use type_schema::{Attr, Record, TypeSchema};

// ---- values

impl ExactEq for () {
    fn same(&self, _other: &()) -> bool {
        true
    }
}

impl ExactEq for u64 {
    fn same(&self, other: &u64) -> bool {
        *self == *other
    }
}

impl ExactEq for Record {
    fn same(&self, other: &Record) -> bool {
        self.values.as_slice() == other.values.as_slice()
    }
}

fn same_attr(ours: &Attr, theirs: &Attr) -> bool
    ensures { Decides result (ours.now ≡ theirs.now) }
{
    ours.name.as_bytes() == theirs.name.as_bytes()
        && ours.kind == theirs.kind
        && ours.index == theirs.index
}

fn same_attrs(ours: &[Attr], theirs: &[Attr]) -> bool
    ensures { Decides result (ours.now ≡ theirs.now) }
{
    ours.len() == theirs.len() && ours.iter().zip(theirs).all(|(a, b)| same_attr(a, b))
}

impl ExactEq for TypeSchema {
    fn same(&self, other: &TypeSchema) -> bool {
        match (self, other) {
            (TypeSchema::OfVertices(ours), TypeSchema::OfVertices(theirs)) => {
                same_attrs(&ours.attrs, &theirs.attrs)
            }
            (TypeSchema::OfEdges(ours), TypeSchema::OfEdges(theirs)) => {
                same_attrs(&ours.attrs, &theirs.attrs)
            }
            _ => false,
        }
    }
}

// ---- places

// Passes the places up to the first that is not empty, and gives its entry.
fn next_entry<'a, K, V>(places: &mut Iter<'a, K, Option<V>>) -> Option<(&'a K, &'a V)>
    ensures { TakesFirst deref_pair (kept places.old) result (kept places.new) }
{
    while let Some((key, place)) = places.next() {
        if let Some(value) = place {
            return Some((key, value));
        }
    }
    None
}

fn same_entry<K: ExactOrd, V: ExactEq>(ours: (&K, &V), theirs: (&K, &V)) -> bool
    ensures { Decides result (deref_pair ours.entry ≡ deref_pair theirs.entry) }
{
    ours.0.cmp(theirs.0).is_eq() && ours.1.same(theirs.1)
}

/// Whether the places have the same entries.
pub fn same_entries<K: ExactOrd, V: ExactEq>(
    ours: Iter<'_, K, Option<V>>,
    theirs: Iter<'_, K, Option<V>>,
) -> bool
    ensures { Decides result (kept ours.entry ≡ kept theirs.entry) }
{
    let mut ours = ours;
    let mut theirs = theirs;
    while let Some(entry) = next_entry(&mut ours) {
        let Some(other) = next_entry(&mut theirs) else {
            return false;
        };
        if !same_entry(entry, other) {
            return false;
        }
    }
    next_entry(&mut theirs).is_none()
}
