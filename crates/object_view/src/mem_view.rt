//! A view over a plain heap in memory.
ghost use Rattle.std.specs.Prelude.{◌≡◌, ◌<◌, ◌≤◌, ℕ, List, true, Some, None, get_or, cond, MatchResult, IfOk, OnOk};
ghost use Rattle.std.specs.BTreeMap.{get, IsFromIterResult};
ghost use Rattle.std.specs.Map.{keys_of};
ghost use Rattle.std.specs.List.Sorted.{IsStrictlySortedBy};
ghost use Rattle.a1_base.specs.declared.place.Addr.{Addr};
ghost use Rattle.a1_base.specs.declared.limits.TheConstants.{NODE_LIMIT, OPENING_STAMP};
ghost use Rattle.object_view.specs.declared.mem_view.TheConstants.{PLACE_COUNT};
ghost use Rattle.object_view.specs.Agreement.{addr_order, same_addr, stood, is_made, object_of};
ghost use Rattle.object_view.specs.Slots.{overlay_of, heap_in, bytes_written, place_at, IsStored, IsTakenBelow};

use crate::view::{Object, View, ViewFault};
use a1_base::{Addr, Bin, Memory, OPENING_STAMP, REGION_LIMIT, REGION_WIDTH};
use std::alloc::{AllocError, Global};
use std::collections::BTreeMap;
use std::sync::Wait;

// The places of a node.
const PLACE_COUNT: u64 = REGION_LIMIT as u64 * REGION_WIDTH as u64;

/// What was written at an address: bytes, or none where the object was freed.
#[derive(Drop)]
struct Slot {
    made: bool,
    bytes: Option<Bin>,
}

/// A plain heap in memory, for one reader and writer. It reaches every node, and its calls never wait. Its objects have
/// the stamp 1.
#[derive(Drop)]
pub struct MemView {
    heap: BTreeMap<Addr, Bin>,
    over: BTreeMap<Addr, Slot>,
    // Where the heap was read. The heap stays as it is, so the trace needs no copy of the bytes.
    reads: Vec<Addr>,
    nodes: u32,
    // On each node the places below this number are taken.
    next: [u64; 16],
    ghost nodes_fit: { (1 ≤ nodes) × (nodes ≤ NODE_LIMIT) },
    ghost stored: { (a : Addr) (bytes : List ℕ) → get addr_order heap a ≡ Some bytes → IsStored nodes a bytes },
    ghost written: { (a : Addr) (bytes : List ℕ) → bytes_written (overlay_of over a) ≡ Some bytes
        → IsStored nodes a bytes },
    ghost taken: { (node : ℕ) → IsTakenBelow over heap nodes node (get_or next node 0) },
    ghost room: { (a : Addr) → is_made (overlay_of over a) ≡ true → heap_in heap a ≡ None },
}

fn copied(alloc: Global, bytes: &Bin) -> Result<Bin, ViewFault>
    ensures { MatchResult result (λ b. b ≡ bytes.now) (λ e. e ≡ ViewFault.Memory) }
{
    match Bin::from_slice(alloc, bytes.as_slice()) {
        Ok(copy) => Ok(copy),
        Err(_) => Err(ViewFault::Memory),
    }
}

// Puts bytes at an address, or takes those there away.
fn settle(heap: &mut BTreeMap<Addr, Bin>, at: Addr, bytes: Option<Bin>) -> Result<(), Memory>
    ensures { OnOk result ((a : Addr) →
        get addr_order heap.new a ≡ cond (same_addr at a) bytes (get addr_order heap.old a)) }
{
    match bytes {
        None => {
            heap.remove(&at);
        }
        Some(bytes) => {
            if heap.insert(at, bytes).is_err() {
                return Err(Memory);
            }
        }
    }
    Ok(())
}

// The heap with the overlay upon it.
fn settled(
    mut heap: BTreeMap<Addr, Bin>,
    mut over: BTreeMap<Addr, Slot>,
) -> Result<BTreeMap<Addr, Bin>, Memory>
    ensures { IfOk result (λ all. (a : Addr) → get addr_order all a ≡ stood (heap_in heap) (overlay_of over) a) }
{
    'each: while let Some((at, slot)) = over.pop_first() {
        settle(&mut heap, at, slot.bytes)?;
    }
    Ok(heap)
}

// The objects by their addresses.
fn mapped(alloc: Global, objects: Vec<(Addr, Bin)>) -> Result<BTreeMap<Addr, Bin>, AllocError>
    ensures { IfOk result (IsFromIterResult addr_order objects.items) }
{
    objects.into_iter().collect(alloc)
}

// The objects by rising address.
fn listed(alloc: Global, heap: BTreeMap<Addr, Bin>) -> Result<Vec<(Addr, Bin)>, AllocError>
    ensures items { IfOk result (λ objects. objects.items ≡ heap.entries) }
    ensures order { IsStrictlySortedBy addr_order (keys_of heap.entries) }
{
    heap.into_iter().collect(alloc)
}

// An own write, seen as an object.
fn own_object(alloc: Global, bytes: &Option<Bin>) -> Result<Option<Object>, ViewFault>
    ensures { MatchResult result (λ o. o ≡ object_of 0 bytes.now) (λ e. e ≡ ViewFault.Memory) }
{
    match bytes {
        None => Ok(None),
        Some(bytes) => Ok(Some(Object {
            stamp: 0,
            bytes: copied(alloc, bytes)?,
        })),
    }
}

// The place of a node that has this number.
fn place(nodes: u32, node: u32, number: u64) -> Addr
    requires nodes { nodes ≤ NODE_LIMIT }
    requires node { node < nodes }
    requires number { number < PLACE_COUNT }
    ensures { result ≡ place_at nodes node number }
{
    Addr {
        region: node + nodes * (number / u64::from(REGION_WIDTH)) as u32,
        offset: (number % u64::from(REGION_WIDTH)) as u32,
    }
}

impl View for MemView {
    ghost use Rattle.object_view.specs.Agreement.{Heap};
    ghost use Rattle.object_view.specs.Held.{overlay_in, trace_of, heap_of, AllocGives};

    ghost trace = { trace_of };

    ghost overlay = { overlay_in };

    ghost reaches = { λ view node. true };

    ghost count = { λ view. view.nodes };

    ghost Kept = { Heap };

    ghost kept = { heap_of };

    ghost alloc_gives = { AllocGives };

    fn nodes(&self) -> u32 {
        self.nodes
    }

    fn serves(&self, _at: Addr) -> bool {
        true
    }

    fn read<R: Wait>(
        &mut self,
        _rt: &R,
        alloc: Global,
        at: Addr,
    ) -> Result<Option<Object>, ViewFault> {
        match self.over.get(&at) {
            Some(slot) => own_object(alloc, &slot.bytes),
            None => {
                let found = match self.heap.get(&at) {
                    None => None,
                    Some(bytes) => Some(Object {
                        stamp: OPENING_STAMP,
                        bytes: copied(alloc, bytes)?,
                    }),
                };
                match self.reads.push(at) {
                    Ok(()) => Ok(found),
                    Err(_) => Err(ViewFault::Memory),
                }
            }
        }
    }

    fn write(&mut self, alloc: Global, at: Addr, bytes: &[u8]) -> Result<(), ViewFault> {
        self.change(at, Some(Bin::from_slice(alloc, bytes)?))
    }

    #[tactic(auto, using(crate::proofs::Places::place_of, crate::proofs::Places::not_full))]
    fn alloc<R: Wait>(
        &mut self,
        _rt: &R,
        alloc: Global,
        node: u32,
        bytes: &[u8],
    ) -> Result<Addr, ViewFault> {
        let Some(number) = self.first_vacant(node) else {
            return Err(ViewFault::Spent { node });
        };
        self.pass(node, number);
        let at = place(self.nodes, node, number);
        let Ok(bytes) = Bin::from_slice(alloc, bytes) else {
            return Err(ViewFault::Memory);
        };
        match self.put(at, true, Some(bytes)) {
            Ok(()) => Ok(at),
            Err(_) => Err(ViewFault::Memory),
        }
    }

    fn free(&mut self, _alloc: Global, at: Addr) -> Result<(), ViewFault> {
        self.change(at, None)
    }
}

impl MemView {
    ghost use Rattle.std.specs.Prelude.{[], IsOkAnd};
    ghost use Rattle.object_view.specs.Agreement.{Agrees};
    ghost use Rattle.object_view.specs.Slots.{found_at, IsObjectList};
    ghost use Rattle.object_view.specs.Held.{overlay_in, trace_of, heap_of};

    /// A view of a heap without objects, of 1 to 16 nodes. It takes no memory, so that `Memory` never comes.
    pub fn new(alloc: Global, nodes: u32) -> Result<MemView, Memory>
        requires some { 1 ≤ nodes }
        requires few { nodes ≤ NODE_LIMIT }
        ensures heap { IsOkAnd result (λ view. heap_of view ≡ (λ a. None)) }
        ensures overlay { IsOkAnd result (λ view. overlay_in view ≡ (λ a. None)) }
        ensures trace { IsOkAnd result (λ view. trace_of view ≡ []) }
        ensures nodes { IsOkAnd result (λ view. view.nodes ≡ nodes) }
    {
        Ok(MemView::over(alloc, BTreeMap::new(alloc), nodes))
    }

    /// A view of a heap of 1 to 16 nodes with these objects of 1 to 65,536 bytes, at distinct addresses: the region is
    /// below 1,048,576 times `nodes`, the offset below 4,096. `Memory` comes for want of memory alone.
    pub fn of(alloc: Global, heap: Vec<(Addr, Bin)>, nodes: u32) -> Result<MemView, Memory>
        requires some { 1 ≤ nodes }
        requires few { nodes ≤ NODE_LIMIT }
        requires objects { IsObjectList nodes heap.items }
        ensures heap { IfOk result (λ view. (a : Addr) →
            heap_of view a ≡ object_of OPENING_STAMP (found_at heap.items a)) }
        ensures overlay { IfOk result (λ view. overlay_in view ≡ (λ a. None)) }
        ensures trace { IfOk result (λ view. trace_of view ≡ []) }
        ensures nodes { IfOk result (λ view. view.nodes ≡ nodes) }
    {
        Ok(MemView::over(alloc, mapped(alloc, heap)?, nodes))
    }

    // A view of these objects, with nothing read or written.
    fn over(alloc: Global, heap: BTreeMap<Addr, Bin>, nodes: u32) -> MemView
        requires some { 1 ≤ nodes }
        requires few { nodes ≤ NODE_LIMIT }
        requires stored { (a : Addr) (bytes : List ℕ) → get addr_order heap a ≡ Some bytes → IsStored nodes a bytes }
        ensures heap { result.heap ≡ heap }
        ensures overlay { overlay_in result ≡ (λ a. None) }
        ensures trace { trace_of result ≡ [] }
        ensures nodes { result.nodes ≡ nodes }
    {
        MemView {
            heap,
            over: BTreeMap::new(alloc),
            reads: Vec::new(alloc),
            nodes,
            next: [0; 16],
        }
    }

    /// The heap with the overlay upon it: its objects by rising address. `Memory` comes for want of memory alone, and
    /// then the view is gone.
    pub fn into_heap(self, alloc: Global) -> Result<Vec<(Addr, Bin)>, Memory>
        ensures heap { IfOk result (λ objects. (a : Addr) →
            found_at objects.items a ≡ stood (heap_of self) (overlay_in self) a) }
        ensures order { IfOk result (λ objects. IsStrictlySortedBy addr_order (keys_of objects.items)) }
        ensures objects { IfOk result (λ objects. IsObjectList self.nodes objects.items) }
    {
        let MemView { heap, over, .. } = self;
        let objects = listed(alloc, settled(heap, over)?)?;
        Ok(objects)
    }

    /// The heap under the view agrees with its trace and its overlay, at all times.
    #[tactic(auto, using(crate::proofs::Agreed::own_agrees))]
    pub fn own_heap_agrees(&self)
        ensures { Agrees (heap_of self.now) (trace_of self.now) (overlay_in self.now) }
    {}
}

impl MemView {
    ghost use Rattle.std.specs.Prelude.{IfSome, IfNone, IfErr, OnOk, OnErr, Some};
    ghost use Rattle.object_view.specs.Calls.{written_at, StandsIn, IsObject, OnlyMemory};
    ghost use Rattle.object_view.specs.Slots.{IsVacant};
    ghost use Rattle.object_view.specs.Held.{overlay_in, trace_of, heap_of, IsFull};

    // The number of the first place of a node that has no object and had none that was freed.
    fn first_vacant(&self, node: u32) -> Option<u64>
        requires { node < self.now.nodes }
        ensures within { IfSome result (λ number. number < PLACE_COUNT) }
        ensures vacant { IfSome result (λ number.
            IsVacant self.now.over self.now.heap (place_at self.now.nodes node number)) }
        ensures first { IfSome result (λ number.
            IsTakenBelow self.now.over self.now.heap self.now.nodes node number) }
        ensures full { IfNone result (IsFull self.now node) }
    {
        let mut number = self.next[node as usize];
        while number < PLACE_COUNT {
            if self.is_vacant(place(self.nodes, node, number)) {
                return Some(number);
            }
            number += 1;
        }
        None
    }

    // Whether no object is there and none was freed there.
    fn is_vacant(&self, at: Addr) -> bool
        ensures yes { result ≡ true → IsVacant self.now.over self.now.heap at }
        ensures no { IsVacant self.now.over self.now.heap at → result ≡ true }
    {
        !self.over.contains_key(&at) && !self.heap.contains_key(&at)
    }

    // Remembers that the places of a node below this number are taken.
    fn pass(&mut self, node: u32, number: u64)
        requires node { node < self.old.nodes }
        requires taken { IsTakenBelow self.old.over self.old.heap self.old.nodes node number }
        ensures over { self.new.over ≡ self.old.over }
        ensures heap { self.new.heap ≡ self.old.heap }
        ensures reads { self.new.reads ≡ self.old.reads }
        ensures nodes { self.new.nodes ≡ self.old.nodes }
    {
        self.next[node as usize] = number;
    }

    // Writes at an address; who made the object stays.
    #[tactic(auto, using(crate::proofs::Agreed::stands_stored))]
    fn change(&mut self, at: Addr, bytes: Option<Bin>) -> Result<(), ViewFault>
        requires stands { StandsIn (trace_of self.old) (overlay_in self.old) at }
        requires size { (b : List ℕ) → bytes ≡ Some b → IsObject b }
        ensures ok { OnOk result
            (overlay_in self.new ≡ written_at at (is_made (overlay_in self.old at)) bytes (overlay_in self.old)) }
        ensures err { OnErr result (overlay_in self.new ≡ overlay_in self.old) }
        ensures fault { IfErr result OnlyMemory }
        ensures trace { trace_of self.new ≡ trace_of self.old }
        ensures heap { self.new.heap ≡ self.old.heap }
        ensures nodes { self.new.nodes ≡ self.old.nodes }
    {
        let made = match self.over.get(&at) {
            None => false,
            Some(slot) => slot.made,
        };
        self.put(at, made, bytes)
    }

    // Writes at an address.
    #[tactic(auto, using(crate::proofs::Held::overlay_put))]
    fn put(&mut self, at: Addr, made: bool, bytes: Option<Bin>) -> Result<(), ViewFault>
        requires made { made ≡ true → heap_of self.old at ≡ None }
        requires stored { (b : List ℕ) → bytes ≡ Some b → IsStored self.old.nodes at b }
        ensures ok { OnOk result (overlay_in self.new ≡ written_at at made bytes (overlay_in self.old)) }
        ensures err { OnErr result (overlay_in self.new ≡ overlay_in self.old) }
        ensures fault { IfErr result OnlyMemory }
        ensures trace { trace_of self.new ≡ trace_of self.old }
        ensures heap { self.new.heap ≡ self.old.heap }
        ensures nodes { self.new.nodes ≡ self.old.nodes }
    {
        match self.over.insert(at, Slot { made, bytes }) {
            Ok(_) => Ok(()),
            Err(_) => Err(ViewFault::Memory),
        }
    }
}
