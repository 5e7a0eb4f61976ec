//! The places of one region.
ghost use Rattle.std.specs.Prelude.{◌≡◌, ◌<◌, ◌==◌, ◌&&◌, ◌||◌, ℕ, not, true, false, vec_len, IfOk, IfNone, IfSome};
ghost use Rattle.object_region.specs.Occupancy.{width};
ghost use Rattle.object_region.specs.Flags.{is_taken, IsFull, IsFirstFree};

use a1_base::{Memory, REGION_WIDTH};
use std::alloc::Global;
use std::marker::Model;

/// The places of a region, which contracts see as a flag for each place: whether it is taken.
#[derive(Drop)]
pub(crate) struct Region {
    taken: Vec<bool>,
    // Each place below this one is taken.
    low: u32,
}

impl Model for Region {
    ghost use Rattle.std.specs.Prelude.{◌≡◌, ◌<◌, ◌≤◌, ℕ, List, Bool, true, vec_len};
    ghost use Rattle.object_region.specs.Occupancy.{width};
    ghost use Rattle.object_region.specs.Flags.{is_taken};

    ghost Value = { List Bool };

    ghost view = { λ region. region.taken.items };

    ghost invariant = { λ region. (vec_len region.taken ≡ width)
        × ((k : ℕ) → k < region.low → is_taken region.taken.items k ≡ true) };
}

impl Region {
    /// A region whose places are all free. The error is want of memory.
    #[tactic(auto, unfolding(crate::specs::Occupancy::width))]
    pub fn new(alloc: Global) -> Result<Region, Memory>
        ensures { IfOk result (λ region. (k : ℕ) → is_taken region k ≡ false) }
    {
        Ok(Region {
            taken: free_places(alloc, REGION_WIDTH as usize)?,
            low: 0,
        })
    }

    /// The first free place, from which the next search begins.
    #[tactic(auto, unfolding(crate::specs::Occupancy::width))]
    pub fn first_free(&mut self) -> Option<u32>
        ensures same { self.new ≡ self.old }
        ensures free { IfSome result (λ offset. IsFirstFree self.old offset) }
        ensures full { IfNone result (IsFull self.old) }
    {
        while self.low < REGION_WIDTH {
            if !self.taken[self.low as usize] {
                return Some(self.low);
            }
            self.low += 1;
        }
        None
    }

    /// Takes a place.
    pub fn take(&mut self, offset: u32)
        requires { offset < width }
        ensures { (k : ℕ) → is_taken self.new k ≡ (offset == k || is_taken self.old k) }
    {
        self.taken[offset as usize] = true;
    }

    /// Gives a taken place back.
    pub fn give(&mut self, offset: u32)
        requires { is_taken self.old offset ≡ true }
        ensures { (k : ℕ) → is_taken self.new k ≡ (not (offset == k) && is_taken self.old k) }
    {
        self.taken[offset as usize] = false;
        self.low = self.low.min(offset);
    }
}

fn free_places(alloc: Global, count: usize) -> Result<Vec<bool>, Memory>
    ensures count { IfOk result (λ flags. vec_len flags ≡ count) }
    ensures free { IfOk result (λ flags. (k : ℕ) → is_taken flags.items k ≡ false) }
{
    Ok(vec![in alloc; false; count]?)
}
