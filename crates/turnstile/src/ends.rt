//! How a turnstile is made, and how it ends.
ghost use Rattle.std.specs.Prelude.{◌≡◌, ◌<◌, [], ◌∷◌, IfOk, IfErr};
ghost use Rattle.turnstile.specs.Entries.{HasAll, up_to};
ghost use Rattle.turnstile.specs.Turns.{ClosesWith};
ghost use Rattle.turnstile.specs.Passes.{IsPassOf, first_value, numbers, pass_count, seen};

use crate::keeps::Keeps;
use crate::lock::{Pass, Turnstile};
use crate::view::Key;
use a1_base::Memory;
use atomic_table::{Refused, Table};
use std::alloc::{AllocFailed, Global};
use std::snapshot::Snapshot;

// No ticket is drawn or served, and the list has its first entry.
const OPENING: [u64; 3] = [0, 0, 1];

impl<T: Keeps> Turnstile<T> {
    /// A lock round the value, and the pass that holds the numbers 1 to `passes`, at least one. `Memory` comes, with
    /// the value as it was, for want of memory alone.
    pub fn new(alloc: Global, value: T, passes: u32) -> Result<(Turnstile<T>, Pass<T>), (T, Memory)>
        requires passes { 0 < passes }
        requires stands { T.stands value (T.first value ∷ []) }
        ensures lock { IfOk result (λ made. (pass_count made.0 ≡ passes) × (first_value made.0 ≡ value)) }
        ensures pass { IfOk result (λ made. IsPassOf made.0 made.1 × (numbers made.1 ≡ up_to passes)
            × (seen made.1 ≡ T.first value ∷ [])) }
        ensures err { IfErr result (λ refused. refused.0 ≡ value) }
    {
        let key = Key {
            passes,
            value: Snapshot::of(&value),
        };
        let mut slots = Vec::new(alloc);
        if let Err(failed) = slots.push(Some(value)) {
            let AllocFailed { value } = failed;
            slots.destroy_empty();
            let Some(value) = value else { unreachable!() };
            return Err((value, Memory));
        }
        match Table::new(alloc, &OPENING, slots, &key) {
            Ok((table, seat)) => Ok((Turnstile { table }, Pass { seat })),
            Err(Refused { mut slots }) => {
                let Some(Some(value)) = slots.pop() else {
                    unreachable!()
                };
                slots.destroy_empty();
                Err((value, Memory))
            }
        }
    }

    /// Takes the lock away, once all numbers have come back, and gives the value. It stands for the list that the pass
    /// has seen, in which number 0 has the first entry alone.
    pub fn close(self, pass: Pass<T>) -> T
        requires pass { IsPassOf self pass }
        requires all { HasAll (pass_count self) (numbers pass) }
        ensures { ClosesWith T.stands T.number (T.first (first_value self)) result (seen pass) }
    {
        let Turnstile { table } = self;
        let Pass { seat } = pass;
        let mut closed = table.close_with(seat);
        let slot = closed.take(0);
        closed.free();
        let Some(value) = slot else { unreachable!() };
        value
    }
}
