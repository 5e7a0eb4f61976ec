//! The writes of a transaction.
ghost use Rattle.std.specs.Prelude.{◌≡◌, ◌<◌, ◌^◌, ◌++◌, ◌∷◌, [], ℕ, true, IfNone, IfSome, OnErr, OnOk, Some, length, slice_get};
ghost use Rattle.object_view.specs.Layout.{word_of};
ghost use Rattle.write_set.specs.Keys.{IsKeyed};

use a1_base::{Addr, Bin, Memory};
use indexmap::IndexMap;
use object_view::word_of;
use std::alloc::Global;

/// What a transaction will install at an address, none for an object that goes, and whether the transaction made it.
#[derive(Debug, Drop)]
pub struct Write {
    pub at: Addr,
    pub value: Option<Bin>,
    pub made: bool,
}

/// The writes of a transaction, by the words of their addresses, in the order of the first writes.
#[derive(Drop)]
pub struct WriteSet {
    map: IndexMap<u64, Write>,
    ghost keyed: { IsKeyed map.entries },
}

// The word of an address, whose offset fits its half of it.
fn key_of(at: Addr) -> u64
    ensures word { result ≡ word_of at }
    ensures small { at.offset < 2 ^ 32 }
{
    let Addr { region, offset } = at;
    word_of(Addr { region, offset })
}

impl WriteSet {
    ghost use Rattle.write_set.specs.Writes.{writes, has_room, Lacks, StandsAt, Overwrites, TakesValue};

    /// No write. It takes no memory.
    pub fn new(alloc: Global) -> WriteSet
        ensures { writes result ≡ [] }
    {
        WriteSet {
            map: IndexMap::new(alloc),
        }
    }

    /// How many addresses are written.
    pub fn len(&self) -> usize
        ensures { result ≡ length (writes self.now) }
    {
        self.map.len()
    }

    /// The place of an address's write among the writes.
    pub fn index_of(&self, at: Addr) -> Option<usize>
        ensures some { IfSome result (λ index. StandsAt (writes self.now) index at) }
        ensures none { IfNone result (Lacks (writes self.now) at) }
    {
        self.map.get_index_of(&key_of(at))
    }

    /// The write at that place.
    pub fn get(&self, index: usize) -> &Write
        requires { index < length (writes self.now) }
        ensures { slice_get (writes self.now) index ≡ Some result.now }
    {
        &self.map[index]
    }

    /// Writes an address anew: the write that stands there takes the value, or there is one write more, of an object
    /// that the transaction did not make. `Memory` comes for want of memory alone, and leaves the set as it was.
    pub fn put(&mut self, at: Addr, value: Option<Bin>) -> Result<(), Memory>
        ensures ok { OnOk result (Overwrites at value (writes self.old) (writes self.new)) }
        ensures err { OnErr result (writes self.new ≡ writes self.old) }
    {
        match self.index_of(at) {
            Some(index) => {
                self.map[index].value = value;
                Ok(())
            }
            None => self.add(at, value, false),
        }
    }

    /// Takes memory for one write more. `Memory` comes for want of memory alone.
    pub fn reserve(&mut self) -> Result<(), Memory>
        ensures same { writes self.new ≡ writes self.old }
        ensures room { OnOk result (has_room self.new ≡ true) }
    {
        match self.map.reserve(1) {
            Ok(()) => Ok(()),
            Err(_) => Err(Memory),
        }
    }

    /// Adds the write of an address that has none. `Memory` comes for want of memory alone, and leaves the set as it
    /// was; where memory was taken before by `reserve`, it does not come.
    pub fn add(&mut self, at: Addr, value: Option<Bin>, made: bool) -> Result<(), Memory>
        requires lacks { Lacks (writes self.old) at }
        ensures ok { OnOk result (writes self.new
            ≡ writes self.old ++ record { at = at; value = value; made = made } ∷ []) }
        ensures err { OnErr result (writes self.new ≡ writes self.old) }
        ensures room { has_room self.old ≡ true → OnErr result ⊥ }
    {
        match self.map.insert(key_of(at), Write { at, value, made }) {
            Ok(_) => Ok(()),
            Err(_) => Err(Memory),
        }
    }

    /// Takes the value of the write at that place out, and leaves none in its stead.
    pub fn take_value(&mut self, index: usize) -> Option<Bin>
        requires { index < length (writes self.old) }
        ensures { TakesValue index result (writes self.old) (writes self.new) }
    {
        self.map[index].value.take()
    }

    /// Forgets all writes, and keeps the memory.
    pub fn clear(&mut self)
        ensures { writes self.new ≡ [] }
    {
        self.map.clear()
    }
}
