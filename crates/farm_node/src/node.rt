//! A node and its events.
ghost use Rattle.std.specs.Prelude.{◌≡◌, ◌+◌, ◌-◌, ◌<◌, ◌∷◌, [], if◌then◌else◌, ℕ, true, false, Some, None, is_some, is_ok, length, IfOk, IfSome, OnSome, OnOk, OnErr, slice_index_or, vec_len};
ghost use Rattle.a1_base.specs.declared.limits.TheConstants.{NODE_LIMIT};
ghost use Rattle.object_region.specs.Occupancy.{IsPlace, IsFree, with_place, without_place};
ghost use Rattle.object_region.specs.Regions.{occupancy_of};
ghost use Rattle.farm_node.specs.Cell.{collected};
ghost use Rattle.farm_node.specs.NodeState.{set_cell, lesser, least_pin};
ghost use Rattle.farm_node.specs.State.{cells_of, AgreesWith, SweepsCell, goes_there, past_with};
ghost use Rattle.farm_node.specs.Waiting.{IsTracked, marked, held_in, held_there, lock_count};

use crate::entry::{CheckFault, Collected, Found, Locked, Placed};
use crate::faults::{LockFault, PlaceFault, ReadFault};
use crate::object::Object;
use crate::swept::Swept;
use crate::waiting::Waiting;
use a1_base::{Addr, Bin, Memory, TxnId};
use object_region::Places;
use std::alloc::Global;
use std::collections::BTreeMap;

#[cfg(test)]
mod tests;

/// A node: its objects, and what bars puts where no object is.
#[derive(Drop)]
pub struct Node {
    objects: BTreeMap<Addr, Object>,
    places: Places,
    // The pin of each actor, by its number.
    pins: Vec<Option<u64>>,
    // What collections will remove, and a place for each lock.
    waiting: Waiting,
    past: u64,
    floor: u64,
    actors: u32,
    ghost agrees: { AgreesWith (cells_of objects) (occupancy_of places) },
    ghost tracked: { IsTracked (cells_of objects) (marked waiting) },
    ghost reserved: { waiting.reserved ≡ lock_count objects },
    ghost numbered: { vec_len pins ≡ actors + 1 },
}

impl Node {
    ghost use Rattle.std.specs.Prelude.{◌≤◌, ◌↔◌, Ok, Err, take, IsOk};
    ghost use Rattle.object_region.specs.Occupancy.{IsSpent};
    ghost use Rattle.farm_node.specs.declared.entry.Start.{Start};
    ghost use Rattle.farm_node.specs.declared.entry.Entry.TheVariants.{Made, Open, Shut, Check, Put, Unlock, Collect};
    ghost use Rattle.farm_node.specs.Cell.{made_by, loaded_cell, lock_answer, is_newest_absent};
    ghost use Rattle.farm_node.specs.NodeState.{PinnedBy, HeldBy, MayLock, MayPut, Adds, occupancy, counted, object_count, version_count, after_collect};
    ghost use Rattle.a1_base.specs.Stamps.{IsStamp};
    ghost use Rattle.farm_node.specs.Answers.{read_entry, alloc_entry, lock_entry, AddsIfMade};
    ghost use Rattle.farm_node.specs.State.{is_new, given_back, versions_there, holds_there, may_lock, with_cell, with_lock, with_objects, CanLoad, SweepsNext};
    ghost use Rattle.farm_node.specs.Node.{plain_of, StandsFor};
    ghost use Rattle.farm_node.specs.Standing.{with_heap};

    /// The node number `node` of `nodes`, without objects, for actors from 1 to `actors`. Its stamps begin at `stamp`.
    /// `Memory` comes for want of memory alone.
    pub fn new(
        alloc: Global,
        node: u32,
        nodes: u32,
        actors: u32,
        stamp: u64,
    ) -> Result<Node, Memory>
        requires nodes { nodes ≤ NODE_LIMIT }
        requires node { node < nodes }
        requires stamp { (0 < stamp) × IsStamp stamp }
        ensures { IfOk result (λ n.
            StandsFor n
            (Made (record { node = node; nodes = nodes; actors = actors; stamp = stamp; heap = [] }) ∷ [])) }
    {
        let pins = no_pins(alloc, actors as usize + 1)?;
        Ok(Node {
            objects: BTreeMap::new(alloc),
            places: Places::new(alloc, node, nodes),
            pins,
            waiting: Waiting::new(alloc),
            past: stamp,
            floor: stamp,
            actors,
        })
    }

    /// Pins the node for an actor at the greater of `clock` and the floor, and answers that pin.
    pub fn open(&mut self, actor: u32, clock: u64) -> u64
        requires actor { (0 < actor) × (actor ≤ (plain_of self.old).actors) }
        requires free { (plain_of self.old).pins actor ≡ None }
        requires stamp { IsStamp clock }
        ensures { Adds (plain_of self.old) (Open actor clock result) (plain_of self.new) }
    {
        let pin = clock.max(self.floor);
        self.pins[actor as usize] = Some(pin);
        pin
    }

    /// Takes an actor's pin away.
    pub fn shut(&mut self, actor: u32)
        requires pinned { (x : ℕ) × ((plain_of self.old).pins actor ≡ Some x) }
        ensures { Adds (plain_of self.old) (Shut actor) (plain_of self.new) }
    {
        self.pins[actor as usize] = None;
    }

    /// Reads an address at `stamp`: the newest version at most `stamp`, absent with the stamp 0 where there is none. It
    /// bars later puts up to `stamp`. `Held` comes exactly where a transaction holds the address and no version is
    /// above `stamp`, `Memory` for want of memory alone; after either the node is as before.
    pub fn read(
        &mut self,
        alloc: Global,
        actor: u32,
        at: Addr,
        stamp: u64,
    ) -> Result<Found, ReadFault>
        requires pinned { PinnedBy (plain_of self.old) actor stamp }
        requires stamp { IsStamp stamp }
        ensures { AddsIfMade (plain_of self.old) (read_entry actor at stamp result) (plain_of self.new) }
    {
        match self.objects.get_mut(&at) {
            Some(object) => object.read(alloc, stamp),
            None => {
                self.past = self.past.max(stamp);
                Ok(Found {
                    stamp: 0,
                    value: None,
                })
            }
        }
    }

    /// Makes an object for a transaction, which then holds its lock, at the least free place of the lowest made region
    /// that has one, else at the first place of the lowest region not made. The answer tells the place and the bound:
    /// the greater of `read_stamp` and the stamp up to which puts at addresses without an object are barred. `Spent`
    /// comes exactly where all places of the node are taken, `Memory` for want of memory alone; after either the node
    /// is as before.
    pub fn alloc(
        &mut self,
        alloc: Global,
        transaction: TxnId,
        read_stamp: u64,
        bytes: Bin,
    ) -> Result<Placed, PlaceFault>
        requires pinned { PinnedBy (plain_of self.old) transaction.actor read_stamp }
        requires stamp { IsStamp read_stamp }
        ensures made { AddsIfMade (plain_of self.old) (alloc_entry transaction read_stamp bytes result)
            (plain_of self.new) }
        ensures spent { (result ≡ Err PlaceFault.Spent) ↔ IsSpent (occupancy (plain_of self.old)) }
    {
        let Some(at) = self.places.least_free() else {
            return Err(PlaceFault::Spent);
        };
        let bound = self.past.max(read_stamp);
        match self.make(alloc, at, transaction, bytes, bound) {
            Ok(()) => Ok(Placed { at, bound }),
            Err(_) => Err(PlaceFault::Memory),
        }
    }

    // Makes an object at a free place, locked by the transaction.
    fn make(
        &mut self,
        alloc: Global,
        at: Addr,
        transaction: TxnId,
        bytes: Bin,
        bound: u64,
    ) -> Result<(), Memory>
        requires place { IsPlace (occupancy (plain_of self.old)) at }
        requires free { (plain_of self.old).cells at ≡ None }
        ensures ok { OnOk result
            (plain_of self.new ≡ with_cell at (made_by transaction bytes bound) (plain_of self.old)) }
        ensures err { OnErr result (plain_of self.new ≡ plain_of self.old) }
    {
        let object = Object::made(alloc, transaction, bytes, bound)?;
        self.waiting.reserve()?;
        match insert_at(&mut self.objects, &mut self.places, at, object) {
            Ok(()) => Ok(()),
            Err(memory) => {
                self.waiting.give_up();
                Err(memory)
            }
        }
    }

    /// Loads objects before any event, each with one version at the stamp of the start. `Memory` comes for want of
    /// memory alone; then a front of them is loaded.
    pub fn load(&mut self, alloc: Global, objects: Vec<(Addr, Bin)>) -> Result<(), Memory>
        requires places { CanLoad (plain_of self.old) objects.items }
        requires stamp { 0 < (plain_of self.old).floor }
        ensures ok { OnOk result (plain_of self.new ≡ with_objects (plain_of self.old) objects.items) }
        ensures err { OnErr result
            ((k : ℕ) × (plain_of self.new ≡ with_objects (plain_of self.old) (take k objects.items))) }
        ensures begins { (m : Start) → StandsFor self.old (Made m ∷ [])
            → OnOk result (StandsFor self.new (Made (with_heap m objects.items) ∷ [])) }
    {
        for (at, bytes) in objects {
            self.load_one(alloc, at, bytes)?;
        }
        Ok(())
    }

    /// Loads one object before any event, with one version at the stamp of the start. `Memory` comes for want of memory
    /// alone, and leaves the node as it was.
    pub fn load_one(&mut self, alloc: Global, at: Addr, bytes: Bin) -> Result<(), Memory>
        requires place { IsPlace (occupancy (plain_of self.old)) at }
        requires free { (plain_of self.old).cells at ≡ None }
        requires stamp { 0 < (plain_of self.old).floor }
        ensures ok { OnOk result
            (plain_of self.new ≡ with_cell at (loaded_cell (plain_of self.old).floor bytes) (plain_of self.old)) }
        ensures err { OnErr result (plain_of self.new ≡ plain_of self.old) }
    {
        let object = Object::loaded(alloc, self.floor, bytes)?;
        insert_at(&mut self.objects, &mut self.places, at, object)
    }

    /// Whether an object is at an address.
    pub fn has_object(&self, at: Addr) -> bool
        ensures { result ≡ is_some ((plain_of self.now).cells at) }
    {
        self.objects.contains_key(&at)
    }

    /// Whether the transaction has the lock of an address.
    pub fn holds(&self, transaction: TxnId, at: Addr) -> bool
        ensures { result ≡ holds_there transaction ((plain_of self.now).cells at) }
    {
        match self.objects.get(&at) {
            Some(object) => object.is_held_by(transaction),
            None => false,
        }
    }

    /// Whether the transaction may ask for the lock of an address: there is a value at `read_stamp` and it does not
    /// hold the address, or it holds it from its own `alloc`.
    pub fn may_lock(&self, transaction: TxnId, at: Addr, read_stamp: u64) -> bool
        ensures { result ≡ may_lock transaction read_stamp ((plain_of self.now).cells at) }
    {
        match self.objects.get(&at) {
            Some(object) => object.may_lock(transaction, read_stamp),
            None => false,
        }
    }

    /// Asks for the lock of an address, to install `new` under it, none for an object that goes. A transaction may lock
    /// again what it holds from its own `alloc`. `Held` comes exactly where another transaction holds the address,
    /// `Changed` exactly where no other does and its newest stamp is above `read_stamp`, `Memory` behind both and for
    /// want of memory alone; after each the node is as before.
    pub fn lock(
        &mut self,
        transaction: TxnId,
        at: Addr,
        read_stamp: u64,
        new: Option<Bin>,
    ) -> Result<Locked, LockFault>
        requires pinned { PinnedBy (plain_of self.old) transaction.actor read_stamp }
        requires stamp { IsStamp read_stamp }
        requires may { MayLock (plain_of self.old) transaction at read_stamp }
        ensures made { AddsIfMade (plain_of self.old) (lock_entry transaction at read_stamp new result)
            (plain_of self.new) }
        ensures order { result ≡ Err LockFault.Memory
            → IsOk (lock_answer transaction read_stamp ((plain_of self.old).cells at)) }
    {
        let locked = self.ask_lock(transaction, at, read_stamp)?;
        self.hold(transaction, at, new)?;
        Ok(locked)
    }

    // Whether the transaction may have the lock.
    fn ask_lock(&self, transaction: TxnId, at: Addr, read_stamp: u64) -> Result<Locked, CheckFault>
        ensures { result ≡ lock_answer transaction read_stamp (cells_of self.now.objects at) }
    {
        match self.objects.get(&at) {
            Some(object) => object.lockable(transaction, read_stamp),
            None => Ok(Locked { seen: 0, bound: 0 }),
        }
    }

    // Locks an object that has a value, or none yet.
    fn hold(&mut self, transaction: TxnId, at: Addr, new: Option<Bin>) -> Result<(), Memory>
        requires valued { is_newest_absent (versions_there ((plain_of self.old).cells at)) ≡ false }
        ensures ok { OnOk result (plain_of self.new ≡ with_lock at transaction new (plain_of self.old)) }
        ensures err { OnErr result (plain_of self.new ≡ plain_of self.old) }
    {
        match self.objects.get_mut(&at) {
            Some(object) => object.hold(&mut self.waiting, transaction, new),
            None => Ok(()),
        }
    }

    /// Whether what the transaction read at `read_stamp` still stands, on its way to commit at `write_stamp`: then puts
    /// up to `write_stamp` are barred. `Held` comes exactly where another holds the address, `Changed` exactly where no
    /// other does and its newest stamp is above `read_stamp`; after either the node is as before.
    pub fn check(
        &mut self,
        transaction: TxnId,
        at: Addr,
        read_stamp: u64,
        write_stamp: u64,
    ) -> Result<(), CheckFault>
        requires pinned { PinnedBy (plain_of self.old) transaction.actor read_stamp }
        requires stamps { IsStamp read_stamp × IsStamp write_stamp }
        requires not_own { HeldBy (plain_of self.old) transaction at → ⊥ }
        ensures { Adds (plain_of self.old) (Check transaction at read_stamp write_stamp result) (plain_of self.new) }
    {
        match self.objects.get_mut(&at) {
            Some(object) => object.check(read_stamp, write_stamp),
            None => {
                self.past = self.past.max(write_stamp);
                Ok(())
            }
        }
    }

    /// Installs at `write_stamp`, above the bound, the value that waits, and unlocks the address.
    pub fn put(&mut self, transaction: TxnId, at: Addr, write_stamp: u64)
        requires may { MayPut (plain_of self.old) transaction at write_stamp }
        requires stamp { IsStamp write_stamp }
        ensures { Adds (plain_of self.old) (Put transaction at write_stamp) (plain_of self.new) }
    {
        if let Some(object) = self.objects.get_mut(&at) {
            let waits = object.install(write_stamp);
            self.waiting.settle(write_stamp, at, waits);
        }
    }

    /// Gives the lock of an address up. An object that its transaction made goes with it, and its place is free again.
    pub fn unlock(&mut self, transaction: TxnId, at: Addr)
        requires held { HeldBy (plain_of self.old) transaction at }
        ensures { Adds (plain_of self.old) (Unlock transaction at) (plain_of self.new) }
    {
        if self.is_new(at) {
            self.give_back(at);
        } else if let Some(object) = self.objects.get_mut(&at) {
            object.release();
            self.waiting.give_up();
        }
    }

    // Whether an object is there that has no version yet.
    fn is_new(&self, at: Addr) -> bool
        ensures { result ≡ is_new (cells_of self.now.objects at) }
    {
        match self.objects.get(&at) {
            Some(object) => object.is_new(),
            None => false,
        }
    }

    // Gives the place of a locked object back.
    fn give_back(&mut self, at: Addr)
        requires { held_there ((plain_of self.old).cells at) ≡ 1 }
        ensures { plain_of self.new ≡ given_back at (plain_of self.old) }
    {
        match take_object(&mut self.objects, at) {
            Some(object) => {
                self.past = self.past.max(object.bound());
                self.places.give(at);
                self.waiting.give_up();
            }
            None => {}
        }
    }

    /// Collects: the floor rises to the least of `proposal` and the pins, and never falls. The versions older than the
    /// newest one at most the floor go, and so do the objects without a lock whose newest version is absent and at most
    /// the floor; their places are free again. It takes time by the actors and by the versions that go: what has to wait
    /// for the floor to rise is not visited.
    pub fn collect(&mut self, proposal: u64) -> Collected
        requires stamp { IsStamp proposal }
        ensures { (k : ℕ) → 0 < k → Adds (plain_of self.old) (Collect k proposal result) (plain_of self.new) }
    {
        let floor = self.floor.max(least_pin(self.pins.as_slice(), proposal));
        let (versions, objects) = self.sweep(floor);
        self.floor = floor;
        Collected {
            floor,
            versions,
            objects,
        }
    }

    // Removes what a collection at this floor removes, and says how many versions and objects.
    fn sweep(&mut self, floor: u64) -> (u64, u64)
        ensures swept { after_collect floor (plain_of self.old) ≡ record (plain_of self.new) { floor = floor } }
        ensures versions { result.0 ≡ counted (version_count (plain_of self.old) - version_count (plain_of self.new)) }
        ensures objects { result.1 ≡ object_count (plain_of self.old) - object_count (plain_of self.new) }
    {
        let mut versions: u64 = 0;
        let mut objects: u64 = 0;
        // For the proof alone: what `regions` ensures says that every object lies in a made region, and `len` that no
        // count of objects gets too large.
        prove!(self.places.regions() <= u32::MAX);
        prove!(self.waiting.len() <= usize::MAX);
        while let Some(swept) = self.sweep_next(floor) {
            versions = versions.saturating_add(swept.versions);
            objects += u64::from(swept.gone.is_some());
        }
        (versions, objects)
    }

    // Removes what a collection at this floor removes at the next address that waits for it, where one does.
    fn sweep_next(&mut self, floor: u64) -> Option<Swept>
        ensures swept { SweepsNext floor (plain_of self.old) result (plain_of self.new) }
        ensures fewer { OnSome result (self.new.waiting.count + 1 ≡ self.old.waiting.count) }
    {
        let at = self.waiting.take_due(floor)?;
        let swept = sweep_at(&mut self.objects, at, floor);
        give_place(&mut self.places, &mut self.past, at, swept.gone);
        Some(swept)
    }

    /// How many objects and versions there are; a count stands still at 2^64 - 1. It goes over all objects.
    pub fn counts(&self) -> (u64, u64)
        ensures objects { result.0 ≡ counted (object_count (plain_of self.now)) }
        ensures versions { result.1 ≡ counted (version_count (plain_of self.now)) }
    {
        let mut versions: u64 = 0;
        // For the proof alone, as in `sweep`.
        prove!(self.places.regions() <= u32::MAX);
        for object in self.objects.values() {
            versions = versions.saturating_add(object.len());
        }
        (self.objects.len() as u64, versions)
    }

    /// How many regions are made.
    pub fn regions(&self) -> u32
        ensures { result ≡ length (plain_of self.now).regions }
    {
        self.places.regions()
    }
}

// Puts an object at a free place.
fn insert_at(
    objects: &mut BTreeMap<Addr, Object>,
    places: &mut Places,
    at: Addr,
    object: Object,
) -> Result<(), Memory>
    requires none { cells_of objects.old at ≡ None }
    requires place { IsPlace (occupancy_of places.old) at }
    requires free { IsFree (occupancy_of places.old) at }
    ensures ok { OnOk result ((cells_of objects.new ≡ set_cell at (Some object) (cells_of objects.old))
        × (occupancy_of places.new ≡ with_place at (occupancy_of places.old))) }
    ensures err { OnErr result ((cells_of objects.new ≡ cells_of objects.old)
        × (occupancy_of places.new ≡ occupancy_of places.old)) }
    ensures locks { lock_count objects.new
        ≡ lock_count objects.old + (if is_ok result then held_in object else 0) }
{
    put_object(objects, at, object)?;
    match places.claim(at) {
        Ok(()) => Ok(()),
        Err(memory) => {
            take_object(objects, at);
            Err(memory)
        }
    }
}

// Puts an object at an address that has none.
fn put_object(objects: &mut BTreeMap<Addr, Object>, at: Addr, object: Object) -> Result<(), Memory>
    requires { cells_of objects.old at ≡ None }
    ensures ok { OnOk result (cells_of objects.new ≡ set_cell at (Some object) (cells_of objects.old)) }
    ensures err { OnErr result (cells_of objects.new ≡ cells_of objects.old) }
    ensures locks { lock_count objects.new
        ≡ lock_count objects.old + (if is_ok result then held_in object else 0) }
{
    match objects.insert(at, object) {
        Ok(_) => Ok(()),
        Err(_) => Err(Memory),
    }
}

// Takes the object of an address, if it has one.
fn take_object(objects: &mut BTreeMap<Addr, Object>, at: Addr) -> Option<Object>
    ensures object { result ≡ cells_of objects.old at }
    ensures cells { cells_of objects.new ≡ set_cell at None (cells_of objects.old) }
    ensures locks { lock_count objects.new + held_there result ≡ lock_count objects.old }
{
    objects.remove(&at)
}

// Removes what a collection at this floor removes at an address.
fn sweep_at(objects: &mut BTreeMap<Addr, Object>, at: Addr, floor: u64) -> Swept
    ensures cells { cells_of objects.new
        ≡ set_cell at (collected floor (cells_of objects.old at)) (cells_of objects.old) }
    ensures swept { SweepsCell floor (cells_of objects.old at) result }
    ensures locks { lock_count objects.new ≡ lock_count objects.old }
{
    match gone_at(objects, at, floor) {
        Some(swept) => {
            take_object(objects, at);
            swept
        }
        None => cut_at(objects, at, floor),
    }
}

// What is removed of an object that a collection at this floor takes whole.
fn gone_at(objects: &BTreeMap<Addr, Object>, at: Addr, floor: u64) -> Option<Swept>
    ensures goes { is_some result ≡ goes_there floor (cells_of objects.now at) }
    ensures swept { IfSome result (SweepsCell floor (cells_of objects.now at)) }
{
    let object = objects.get(&at)?;
    if object.goes(floor) {
        Some(Swept {
            versions: object.len(),
            gone: Some(object.bound()),
        })
    } else {
        None
    }
}

// Removes the old versions of an object that stays.
fn cut_at(objects: &mut BTreeMap<Addr, Object>, at: Addr, floor: u64) -> Swept
    requires { goes_there floor (cells_of objects.old at) ≡ false }
    ensures cells { cells_of objects.new
        ≡ set_cell at (collected floor (cells_of objects.old at)) (cells_of objects.old) }
    ensures swept { SweepsCell floor (cells_of objects.old at) result }
    ensures locks { lock_count objects.new ≡ lock_count objects.old }
{
    let versions = match objects.get_mut(&at) {
        Some(object) => object.cut(floor),
        None => 0,
    };
    Swept {
        versions,
        gone: None,
    }
}

// Gives the place of an object of this bound back, where one went.
fn give_place(places: &mut Places, past: &mut u64, at: Addr, gone: Option<u64>)
    requires { is_some gone ≡ true → (occupancy_of places.old).taken at ≡ true }
    ensures places { occupancy_of places.new
        ≡ (if is_some gone then without_place at (occupancy_of places.old) else occupancy_of places.old) }
    ensures past { past.new ≡ past_with gone past.old }
{
    if let Some(bound) = gone {
        *past = bound.max(*past);
        places.give(at);
    }
}

// The least of a proposal and the pins of the actors from 1 on.
fn least_pin(pins: &[Option<u64>], proposal: u64) -> u64
    requires { 0 < length pins.now }
    ensures { result ≡ least_pin proposal (λ k. slice_index_or pins.now k None) (length pins.now - 1) }
{
    let mut least = proposal;
    for k in 0..pins.len() - 1 {
        least = lesser(pins[k + 1], least);
    }
    least
}

// The lesser of a pin, where there is one, and a stamp.
fn lesser(pin: Option<u64>, least: u64) -> u64
    ensures { result ≡ lesser pin least }
{
    match pin {
        Some(pin) => pin.min(least),
        None => least,
    }
}

// No pin for each of `count` actors.
fn no_pins(alloc: Global, count: usize) -> Result<Vec<Option<u64>>, Memory>
    ensures count { IfOk result (λ pins. vec_len pins ≡ count) }
    ensures none { IfOk result (λ pins. (k : ℕ) → slice_index_or pins.items k None ≡ None) }
{
    let mut pins = Vec::with_capacity(alloc, count)?;
    for _ in 0..count {
        if pins.push(None).is_err() {
            return Err(Memory);
        }
    }
    Ok(pins)
}
