//! An ordered map that can go back to how it was, and needs no memory for that.
ghost use Rattle.std.specs.Prelude.{◌≡◌, [], IfOk, OnOk, OnErr, Decides, option_map, filter, map};
ghost use Rattle.std.specs.List.{AllByRecursion, take_while};
ghost use Rattle.std.specs.Map.{keys_of};
ghost use Rattle.std.specs.declared.cmp.Ordering.TheVariants.{Equal};
ghost use Rattle.a1_base.specs.Maps.{at, with_entry, without, IsOrdered};
ghost use Rattle.graph_maps.specs.Places.{kept, set_at};

use crate::comparing::same_entries;
use crate::part::Part;
use a1_base::Memory;
use std::alloc::Global;
use std::collections::BTreeMap;
use std::collections::btree_map::Range;
use std::marker::Model;

/// An order whose ties are one and the same key.
pub trait ExactOrd: Ord {
    // What is true of each key that code has.
    ghost IsSound: { Self → Type 0 };

    /// What is true of each key is true of this one.
    fn sound(&self)
        ensures { IsSound self.now };

    ghost exact: { (a b : Self) → Self.cmp a b ≡ Equal → a ≡ b };
}

/// Values of which any two can be told apart.
pub trait ExactEq {
    /// Whether both are the same value.
    fn same(&self, other: &Self) -> bool
        ensures { Decides result (self.now ≡ other.now) };
}

/// A map in the order of its keys, with the entries as they stand and as they stood when they were last kept.
#[derive(Drop)]
pub struct Places<K: ExactOrd, V> {
    // A key with `None` is an empty place: seen as absent.
    map: BTreeMap<K, Option<V>>,
    // For each change since the last `keep`, oldest first: the key, and what stood there before.
    trail: Vec<(K, Option<V>)>,
}

impl<K: ExactOrd, V> Model for Places<K, V> {
    ghost use Rattle.graph_maps.specs.Places.{Kept, kept, led_back, AreSound};

    ghost Value = { Kept K V };

    ghost view = { λ p. record { now = kept p.map.entries; was = kept (led_back K.cmp p.trail.items p.map.entries) } };

    ghost invariant = { λ p. AreSound K.cmp K.IsSound p.trail.items p.map.entries };
}

// Takes an empty place out.
fn clear_at<K: ExactOrd + Drop, V: Drop>(map: &mut BTreeMap<K, Option<V>>, key: &K)
    requires { IsOrdered K.cmp map.old.entries }
    ensures same { kept map.new.entries ≡ kept map.old.entries }
    ensures ordered { IsOrdered K.cmp map.new.entries }
    ensures sound { AllByRecursion K.IsSound (keys_of map.old.entries)
        → AllByRecursion K.IsSound (keys_of map.new.entries) }
{
    if let Some(None) = map.get(key) {
        map.remove(key);
    }
}

// Gives a place back what stood there before this change.
fn undo<K: ExactOrd, V: Drop>(map: &mut BTreeMap<K, Option<V>>, change: &mut (K, Option<V>))
    ensures entries { map.new.entries ≡ set_at K.cmp change.old.0 change.old.1 map.old.entries }
    ensures key { change.new.0 ≡ change.old.0 }
{
    if let Some(place) = map.get_mut(&change.0) {
        *place = change.1.take();
    }
}

// The entries at the front, up to the first place that is not in the part.
fn leading<'a, K: ExactOrd, V, P: Part<K>>(
    alloc: Global,
    places: Range<'a, K, Option<V>>,
    part: &P,
) -> Result<Vec<(&'a K, &'a V)>, Memory>
    ensures { IfOk result (λ rows. map (λ e. (e.0.now, e.1.now)) rows.items
        ≡ kept (take_while (λ e. P.has part.now e.0) places.entry)) }
{
    let mut places = places;
    let mut rows = Vec::new(alloc);
    while let Some((key, place)) = places.next() {
        if !part.has(key) {
            return Ok(rows);
        }
        if let Some(value) = place {
            rows.reserve(1)?;
            rows.push_reserved((key, value));
        }
    }
    Ok(rows)
}

impl<K: ExactOrd + Drop, V: Drop> Places<K, V> {
    /// No entries.
    pub fn new(alloc: Global) -> Places<K, V>
        ensures now { result.now ≡ [] }
        ensures was { result.was ≡ [] }
    {
        Places {
            map: BTreeMap::new(alloc),
            trail: Vec::new(alloc),
        }
    }

    /// The value at the key.
    pub fn get(&self, key: &K) -> Option<&V>
        ensures { option_map (λ v. v.now) result ≡ at K.cmp key.now self.now.now }
    {
        match self.map.get(key) {
            Some(place) => place.as_ref(),
            None => None,
        }
    }

    /// Puts the value at the key, which is given twice. After `Memory`, which comes for want of memory alone, the
    /// entries are as before.
    pub fn put(&mut self, key: K, again: K, value: V) -> Result<(), Memory>
        requires { again ≡ key }
        ensures ok { OnOk result (self.new.now ≡ with_entry K.cmp key value self.old.now) }
        ensures err { OnErr result (self.new.now ≡ self.old.now) }
        ensures was { self.new.was ≡ self.old.was }
    {
        self.trail.reserve(1)?;
        key.sound();
        match self.map.insert(key, Some(value)) {
            Ok(old) => {
                self.trail.push_reserved((again, old.flatten()));
                Ok(())
            }
            Err(_) => Err(Memory),
        }
    }

    /// Takes the entry at the key out, if there is one. After `Memory`, which comes for want of memory alone, the
    /// entries are as before.
    pub fn take(&mut self, key: K) -> Result<(), Memory>
        ensures ok { OnOk result (self.new.now ≡ without K.cmp key self.old.now) }
        ensures err { OnErr result (self.new.now ≡ self.old.now) }
        ensures was { self.new.was ≡ self.old.was }
    {
        self.trail.reserve(1)?;
        let Some(place) = self.map.get_mut(&key) else {
            return Ok(());
        };
        let old = place.take();
        self.trail.push_reserved((key, old));
        Ok(())
    }

    /// Keeps the entries as they stand: there is no way back from here. It needs no memory.
    pub fn keep(&mut self)
        ensures now { self.new.now ≡ self.old.now }
        ensures was { self.new.was ≡ self.old.now }
    {
        while let Some((key, _)) = self.trail.pop() {
            clear_at(&mut self.map, &key);
        }
    }

    /// Goes back to the entries as they were last kept. It needs no memory.
    pub fn back(&mut self)
        ensures now { self.new.now ≡ self.old.was }
        ensures was { self.new.was ≡ self.old.was }
    {
        for at in (0..self.trail.len()).rev() {
            undo(&mut self.map, &mut self.trail[at]);
        }
        self.keep();
    }

    /// The entries, in the order of their keys.
    pub fn entries(&self, alloc: Global) -> Result<Vec<(&K, &V)>, Memory>
        ensures { IfOk result (λ rows. map (λ e. (e.0.now, e.1.now)) rows.items ≡ self.now.now) }
    {
        let mut rows = Vec::new(alloc);
        for (key, place) in &self.map {
            if let Some(value) = place {
                rows.reserve(1)?;
                rows.push_reserved((key, value));
            }
        }
        Ok(rows)
    }

    /// The entries of a part of the map, in the order of their keys. It takes time in how many they are, and a
    /// logarithm in how many the map has. `Memory` comes for want of memory alone.
    pub fn part<P: Part<K>>(&self, alloc: Global, part: &P) -> Result<Vec<(&K, &V)>, Memory>
        ensures { IfOk result (λ rows. map (λ e. (e.0.now, e.1.now)) rows.items
            ≡ filter (λ e. P.has part.now e.0) self.now.now) }
    {
        leading(alloc, self.map.range(part.start()..), part)
    }

    /// The entries are in the order of their keys, and no key stands twice.
    pub fn ordered(&self)
        ensures { IsOrdered K.cmp self.now.now }
    {
        let _map = &self.map;
    }
}

impl<K: ExactOrd, V: ExactEq> Places<K, V> {
    /// Whether both have the same entries.
    pub fn equal(&self, other: &Places<K, V>) -> bool
        ensures { Decides result (self.now.now ≡ other.now.now) }
    {
        same_entries(self.map.iter(), other.map.iter())
    }
}
