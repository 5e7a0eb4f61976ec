//! What collections will remove: addresses, each with the floor from which on something of it goes.
ghost use Rattle.std.specs.Prelude.{◌≡◌, ◌+◌, ◌-◌, ◌<◌, ◌≤◌, ◌&&◌, ◌||◌, ℕ, false, [], OnOk, OnErr, OnSome, IfSome, IfNone};
ghost use Rattle.a1_base.specs.declared.place.Addr.{Addr};
ghost use Rattle.farm_node.specs.Waiting.{is_mark, marked};

use a1_base::{Addr, Memory};
use std::alloc::Global;
use std::cmp::Reverse;
use std::collections::BinaryHeap;
use std::marker::Model;

/// The addresses that wait for the floor to reach a stamp, and the places that are reserved for more of them.
#[derive(Drop)]
pub struct Waiting {
    // The least stamp first.
    due: BinaryHeap<Reverse<(u64, Addr)>>,
    reserved: usize,
}

impl Model for Waiting {
    ghost use Rattle.std.specs.BinaryHeap.{IsHeap, heap_items, heap_len, heap_capacity};
    ghost use Rattle.std.specs.Prelude.{◌+◌, ◌≤◌};
    ghost use Rattle.farm_node.specs.Waiting.{Waits, mark_order};

    ghost Value = { Waits };

    ghost view = { λ w. record { marks = heap_items w.due; count = heap_len w.due; reserved = w.reserved } };

    ghost invariant = { λ w. IsHeap mark_order (heap_items w.due)
        × (heap_len w.due + w.reserved ≤ heap_capacity w.due) };
}

impl Waiting {
    /// Nothing waits, and no place is reserved.
    pub fn new(alloc: Global) -> Waiting
        ensures { result ≡ record { marks = []; count = 0; reserved = 0 } }
    {
        Waiting {
            due: BinaryHeap::new(alloc),
            reserved: 0,
        }
    }

    /// How many addresses wait; one that waits for several stamps counts for each.
    pub fn len(&self) -> usize
        ensures { result ≡ self.now.count }
    {
        self.due.len()
    }

    /// Reserves a place for one more. `Memory` comes for want of memory alone, and leaves all as it was.
    pub fn reserve(&mut self) -> Result<(), Memory>
        ensures ok { OnOk result (self.new ≡ record self.old { reserved = self.old.reserved + 1 }) }
        ensures err { OnErr result (self.new ≡ self.old) }
    {
        let Some(reserved) = self.reserved.checked_add(1) else {
            return Err(Memory);
        };
        self.due.reserve(reserved)?;
        self.reserved = reserved;
        Ok(())
    }

    /// Gives a reserved place up.
    pub fn give_up(&mut self)
        requires { 0 < self.old.reserved }
        ensures { self.new ≡ record self.old { reserved = self.old.reserved - 1 } }
    {
        self.reserved -= 1;
    }

    /// Gives a reserved place up, with `at` in it to wait for the floor to reach `stamp`, where it `waits`.
    pub fn settle(&mut self, stamp: u64, at: Addr, waits: bool)
        requires { 0 < self.old.reserved }
        ensures listed { marked self.new ≡ (λ n b. (waits && is_mark stamp at n b) || marked self.old n b) }
        ensures reserved { self.new.reserved ≡ self.old.reserved - 1 }
    {
        self.reserved -= 1;
        if waits {
            let Ok(()) = self.due.push(Reverse((stamp, at))) else {
                unreachable!()
            };
        }
    }

    /// Takes an address that waits for a stamp at most `floor`, where there is one.
    pub fn take_due(&mut self, floor: u64) -> Option<Addr>
        ensures some { IfSome result (λ at. (s : ℕ) × (s ≤ floor)
            × (marked self.old ≡ (λ n b. is_mark s at n b || marked self.new n b))) }
        ensures count { OnSome result (self.new.count + 1 ≡ self.old.count) }
        ensures reserved { self.new.reserved ≡ self.old.reserved }
        ensures none { IfNone result ((self.new ≡ self.old)
            × ((s : ℕ) (a : Addr) → s ≤ floor → marked self.old s a ≡ false)) }
    {
        let Reverse((stamp, _)) = self.due.peek()?;
        if floor < *stamp {
            return None;
        }
        let Reverse((_, at)) = self.due.pop()?;
        Some(at)
    }
}
