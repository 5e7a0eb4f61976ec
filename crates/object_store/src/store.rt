//! Where items are kept.
ghost use Rattle.std.specs.Prelude.{◌≡◌, ℕ, List, Option};
ghost use Rattle.object_store.specs.Stored.{PutAdds, GetGives, PutsWithCause, GetsWithCause};

use a1_base::Bin;

/// Why a call of a store did not do its work.
#[derive(Clone, Copy, Debug, PartialEq, Eq)]
pub enum StoreMiss {
    /// The store failed, and has counted it.
    Failed,
    /// Want of memory.
    Memory,
}

/// A durable list of items.
pub trait Store {
    /// The items, where it tells them.
    ghost items: { Self → Option (List (List ℕ)) };

    /// How often it has failed.
    ghost faults: { Self → ℕ };

    /// Puts an item at the end. After `Failed` the list is as before or has the item as its last.
    fn put(&mut self, item: &[u8]) -> Result<(), StoreMiss>
        ensures items { PutAdds (items self.old) (items self.new) item.now result }
        ensures cause { PutsWithCause (faults self.old) (faults self.new) result };

    /// The item at this index, from 0; none exactly at or past the end.
    fn get(&mut self, index: u64) -> Result<Option<Bin>, StoreMiss>
        ensures item { GetGives (items self.old) index result }
        ensures same { items self.new ≡ items self.old }
        ensures cause { GetsWithCause (faults self.old) (faults self.new) result };
}
