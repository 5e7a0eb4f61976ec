//! Items in memory, as a store that fails where it is told to.
ghost use Rattle.std.specs.Prelude.{◌≡◌, Some, OnErr};
ghost use Rattle.a1_base.specs.InMemory.{next_number, fails_at};
ghost use Rattle.object_store.specs.Stored.{PutAdds, GetGives, PutsWithCause, GetsWithCause};

use crate::{Store, StoreMiss};
use a1_base::Bin;

/// Items in memory. The calls whose numbers, from 1, are in `fails` answer `Failed`, and put nothing.
#[derive(Drop)]
pub struct MemStore {
    items: Vec<Bin>,
    calls: u64,
    fails: Vec<u64>,
    faults: u64,
}

impl MemStore {
    ghost use Rattle.object_store.specs.MemStore.{items_of, calls_made, failing_calls, store_faults};

    pub fn new(items: Vec<Bin>, fails: Vec<u64>) -> MemStore
        ensures items { items_of result ≡ items.items }
        ensures calls { calls_made result ≡ 0 }
        ensures fails { failing_calls result ≡ fails.items }
        ensures faults { store_faults result ≡ 0 }
    {
        MemStore {
            items,
            calls: 0,
            fails,
            faults: 0,
        }
    }

    /// The items.
    pub fn items(&self) -> &[Bin]
        ensures { result.now ≡ items_of self.now }
    {
        &self.items
    }
}

impl Store for MemStore {
    ghost use Rattle.object_store.specs.MemStore.{items_of, calls_made, failing_calls, store_faults, IsMiss};

    ghost items = { λ s. Some (items_of s) };

    ghost faults = { λ s. store_faults s };

    fn put(&mut self, item: &[u8]) -> Result<(), StoreMiss>
        ensures items { PutAdds (Some (items_of self.old)) (Some (items_of self.new)) item.now result }
        ensures cause { PutsWithCause (store_faults self.old) (store_faults self.new) result }

        // It fails exactly where it was told to, and then puts nothing.
        ensures fails { IsMiss result (fails_at (failing_calls self.old) (next_number (calls_made self.old))) }
        ensures err { OnErr result (items_of self.new ≡ items_of self.old) }
        ensures calls { calls_made self.new ≡ next_number (calls_made self.old) }
        ensures told { failing_calls self.new ≡ failing_calls self.old }
    {
        self.calls = self.calls.saturating_add(1);
        if self.fails.contains(&self.calls) {
            self.faults = self.faults.saturating_add(1);
            return Err(StoreMiss::Failed);
        }
        let Ok(item) = Bin::from_slice(*self.items.allocator(), item) else {
            return Err(StoreMiss::Memory);
        };
        match self.items.push(item) {
            Ok(()) => Ok(()),
            Err(_) => Err(StoreMiss::Memory),
        }
    }

    fn get(&mut self, index: u64) -> Result<Option<Bin>, StoreMiss>
        ensures item { GetGives (Some (items_of self.old)) index result }
        ensures same { Some (items_of self.new) ≡ Some (items_of self.old) }
        ensures cause { GetsWithCause (store_faults self.old) (store_faults self.new) result }

        // It fails exactly where it was told to.
        ensures fails { IsMiss result (fails_at (failing_calls self.old) (next_number (calls_made self.old))) }
        ensures calls { calls_made self.new ≡ next_number (calls_made self.old) }
        ensures told { failing_calls self.new ≡ failing_calls self.old }
    {
        self.calls = self.calls.saturating_add(1);
        if self.fails.contains(&self.calls) {
            self.faults = self.faults.saturating_add(1);
            return Err(StoreMiss::Failed);
        }
        let Some(item) = self.items.get(index as usize) else {
            return Ok(None);
        };
        match Bin::from_slice(*self.items.allocator(), item.as_slice()) {
            Ok(copy) => Ok(Some(copy)),
            Err(_) => Err(StoreMiss::Memory),
        }
    }
}
