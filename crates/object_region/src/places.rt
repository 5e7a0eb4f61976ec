//! Which places of a node are taken.
ghost use Rattle.std.specs.Prelude.{◌≡◌, ◌+◌, ◌*◌, ◌≤◌, ◌<◌, ◌↔◌, ℕ, true, length, IsSome, IfSome, IfNone, IfOk, OnOk, OnErr, Err};
ghost use Rattle.a1_base.specs.declared.limits.TheConstants.{NODE_LIMIT};
ghost use Rattle.object_region.specs.Occupancy.{width, region_count, vacant, IsPlace, IsFree, LeastFree, IsSpent, IsOccupancy, with_place, without_place};
ghost use Rattle.object_region.specs.Flags.{IsFirstFree};
ghost use Rattle.object_region.specs.Regions.{occupancy_of, with_region, made_at, listed_count, IsRegion, IsFullAt, IsLowestListed, IsLowestUnmade};

use crate::region::Region;
use a1_base::{Addr, Memory, REGION_LIMIT};
use std::alloc::Global;
use std::cmp::Reverse;
use std::collections::{BTreeMap, BinaryHeap};
use std::marker::Model;

/// Why no place was taken.
#[derive(Clone, Copy, Debug, PartialEq, Eq)]
pub enum TakeFault {
    /// An allocation was refused.
    Memory,
    /// All places of the node's 1,048,576 regions are taken.
    Spent,
}

impl From<Memory> for TakeFault {
    ghost use Rattle.object_region.specs.declared.places.TakeFault.TheVariants as fault;

    ghost from_gives = { λ _ f. f ≡ fault.Memory };

    fn from(_: Memory) -> Self {
        TakeFault::Memory
    }
}

/// A made region, and whether it is listed as open.
#[derive(Drop)]
struct Made {
    region: Region,
    listed: bool,
}

/// The places of a node.
#[derive(Drop)]
pub struct Places {
    alloc: Global,
    node: u32,
    nodes: u32,
    regions: BTreeMap<u32, Made>,
    // The numbers of the listed regions, each once. Each region with a free place is listed, and there is room for all.
    open_regions: BinaryHeap<Reverse<u32>>,
    // The regions node + k * nodes for k below this are made.
    next: u32,
}

impl Model for Places {
    ghost use Rattle.std.specs.BinaryHeap.{heap_items, heap_capacity};
    ghost use Rattle.object_region.specs.Regions.{Regions, IsKept};

    ghost Value = { Regions };

    ghost view = { λ places. record { node = places.node; nodes = places.nodes; made = places.regions.entries } };

    ghost invariant = { λ places. IsKept places.node places.nodes places.next places.regions.entries
        (heap_items places.open_regions) (heap_capacity places.open_regions) };
}

impl Places {
    /// The places of the node number `node` of `nodes`, of which there are at most 16; none is taken.
    pub fn new(alloc: Global, node: u32, nodes: u32) -> Places
        requires nodes { nodes ≤ NODE_LIMIT }
        requires node { node < nodes }
        ensures { occupancy_of result ≡ vacant node nodes }
    {
        Places {
            alloc,
            node,
            nodes,
            regions: BTreeMap::new(alloc),
            open_regions: BinaryHeap::new(alloc),
            next: 0,
        }
    }

    /// Takes the least free place of the lowest made region that has one, else the first place of the lowest region
    /// that is not made. `Spent` comes exactly where all places of all regions are taken, `Memory` for want of memory
    /// alone; after either the places are as before.
    pub fn take(&mut self) -> Result<Addr, TakeFault>
        ensures least { IfOk result (λ place. LeastFree (occupancy_of self.old) place) }
        ensures ok { IfOk result (λ place. occupancy_of self.new ≡ with_place place (occupancy_of self.old)) }
        ensures err { OnErr result (occupancy_of self.new ≡ occupancy_of self.old) }
        ensures spent { (result ≡ Err TakeFault.Spent) ↔ IsSpent (occupancy_of self.old) }
    {
        let Some(place) = self.least_free() else {
            return Err(TakeFault::Spent);
        };
        self.claim(place)?;
        Ok(place)
    }

    /// Takes this free place of the node. After `Memory`, which comes for want of memory alone, the places are as
    /// before.
    pub fn claim(&mut self, place: Addr) -> Result<(), Memory>
        requires place { IsPlace (occupancy_of self.old) place }
        requires free { IsFree (occupancy_of self.old) place }
        ensures ok { OnOk result (occupancy_of self.new ≡ with_place place (occupancy_of self.old)) }
        ensures err { OnErr result (occupancy_of self.new ≡ occupancy_of self.old) }
    {
        if !self.regions.contains_key(&place.region) {
            self.make(place.region)?;
        }
        self.mark(place);
        Ok(())
    }

    /// Gives this taken place back; its region stays made. It takes no memory.
    pub fn give(&mut self, place: Addr)
        requires taken { (occupancy_of self.old).taken place ≡ true }
        ensures { occupancy_of self.new ≡ without_place place (occupancy_of self.old) }
    {
        let made = self.regions.get_mut(&place.region).unwrap();
        made.region.give(place.offset);
        let listed = made.listed;
        made.listed = true;
        if !listed {
            self.open_regions.push(Reverse(place.region)).unwrap();
        }
    }

    /// How many regions are made: those in which a place was ever taken.
    pub fn regions(&self) -> u32
        ensures count { result ≡ length (occupancy_of self.now).regions }
        ensures sound { IsOccupancy (occupancy_of self.now) }
    {
        self.regions.len() as u32
    }

    /// The place that comes next: the least free place of the lowest made region that has one, else the first place of
    /// the lowest region that is not made; none where all places of all regions are taken. The places stay as they are.
    pub fn least_free(&mut self) -> Option<Addr>
        ensures same { occupancy_of self.new ≡ occupancy_of self.old }
        ensures least { IfSome result (λ place. LeastFree (occupancy_of self.old) place) }
        ensures spent { IfNone result (IsSpent (occupancy_of self.old)) }
    {
        while let Some(region) = self.lowest_listed() {
            if let Some(offset) = self.first_free(region) {
                return Some(Addr { region, offset });
            }
            self.unlist_lowest(region);
        }
        let region = self.lowest_unmade()?;
        Some(Addr { region, offset: 0 })
    }

    /// The lowest listed region. Where there is none, no made region has a free place.
    fn lowest_listed(&self) -> Option<u32>
        ensures lowest { IfSome result (λ region. IsLowestListed self.now region) }
        ensures full { IfNone result ((q : ℕ) → IsFullAt self.now.made q) }
    {
        let lowest = self.open_regions.peek()?;
        Some(lowest.0)
    }

    /// The first free place of a made region.
    fn first_free(&mut self, region: u32) -> Option<u32>
        requires made { IsSome (made_at self.old.made region) }
        ensures same { self.new ≡ self.old }
        ensures free { IfSome result (λ offset. IfSome (made_at self.old.made region)
            (λ made. IsFirstFree made.region offset)) }
        ensures full { IfNone result (IsFullAt self.old.made region) }
    {
        self.regions.get_mut(&region).unwrap().region.first_free()
    }

    /// Strikes the lowest listed region off the list.
    fn unlist_lowest(&mut self, region: u32)
        requires lowest { IsLowestListed self.old region }
        requires full { IsFullAt self.old.made region }
        ensures same { occupancy_of self.new ≡ occupancy_of self.old }
        ensures fewer { listed_count self.new.made < listed_count self.old.made }
    {
        self.open_regions.pop();
        let made = self.regions.get_mut(&region).unwrap();
        made.listed = false;
    }

    /// The lowest region that is not made, if one is left.
    #[tactic(auto, unfolding(crate::specs::Occupancy::region_count))]
    fn lowest_unmade(&mut self) -> Option<u32>
        ensures same { self.new ≡ self.old }
        ensures unmade { IfSome result (λ region. IsLowestUnmade self.old region) }
        ensures all_made { IfNone result ((k : ℕ) → k < region_count
            → IsSome (made_at self.old.made (self.old.node + k * self.old.nodes))) }
    {
        while self.next < REGION_LIMIT {
            let region = self.node + self.next * self.nodes;
            if !self.regions.contains_key(&region) {
                return Some(region);
            }
            self.next += 1;
        }
        None
    }

    /// Makes a region of the node, whose places are free. After `Memory` the places are as before.
    fn make(&mut self, region: u32) -> Result<(), Memory>
        requires of_node { IsRegion self.old.node self.old.nodes region }
        requires unmade { made_at self.old.made region ≡ None }
        ensures ok { OnOk result (occupancy_of self.new ≡ with_region region (occupancy_of self.old)) }
        ensures made { OnOk result (IsSome (made_at self.new.made region)) }
        ensures err { OnErr result (occupancy_of self.new ≡ occupancy_of self.old) }
    {
        let made = Made {
            region: Region::new(self.alloc)?,
            listed: true,
        };
        let unlisted = self.regions.len() - self.open_regions.len();
        self.open_regions.reserve(unlisted + 1)?;
        match self.regions.insert(region, made) {
            Ok(_) => {
                self.open_regions.push(Reverse(region)).unwrap();
                Ok(())
            }
            Err(_) => Err(Memory),
        }
    }

    /// Takes a place of a made region.
    fn mark(&mut self, place: Addr)
        requires within { place.offset < width }
        requires made { IsSome (made_at self.old.made place.region) }
        ensures { occupancy_of self.new ≡ with_place place (occupancy_of self.old) }
    {
        let made = self.regions.get_mut(&place.region).unwrap();
        made.region.take(place.offset);
    }
}
