//! How a structure looks at the objects of a view, and changes them.
ghost use Rattle.std.specs.Prelude.{◌≡◌, ◌⊎◌, ◌<◌, ◌%◌, true, Some, None, IfOk, IfErr, OnOk, OnErr};
ghost use Rattle.a1_base.specs.declared.place.Addr.{Addr};
ghost use Rattle.object_view.specs.Agreement.{Heap, Agrees, stood};
ghost use Rattle.object_view.specs.Calls.{StandsIn, IsPlace, IsObject};
ghost use Rattle.object_view.specs.Parts.{Onward, ReadsOnly, LookTells, with_bytes};
ghost use Rattle.object_view.specs.declared.parts.PartFault.TheVariants as fault;

use crate::view::{View, ViewFault};
use a1_base::{Addr, Bin, Memory};
use std::alloc::{AllocError, Global};
use std::sync::Wait;

/// Why a structure gave no answer.
#[derive(Clone, Copy, Debug, PartialEq, Eq)]
pub enum PartFault {
    /// An allocation was refused.
    Memory,
    /// All places of the node's 1,048,576 regions are taken.
    Spent { node: u32 },
    /// The address lies where the view can't reach, or what stands there is no part of the structure.
    Torn { at: Addr },
    /// A tree would need a 17th level.
    Tall,
}

impl From<ViewFault> for PartFault {
    ghost use Rattle.object_view.specs.Faults.{part_fault};

    ghost from_gives = { λ fault part. part ≡ part_fault fault };

    fn from(fault: ViewFault) -> Self {
        match fault {
            ViewFault::Memory => PartFault::Memory,
            ViewFault::Spent { node } => PartFault::Spent { node },
        }
    }
}

impl From<Memory> for PartFault {
    ghost from_gives = { λ _ part. part ≡ fault.Memory };

    fn from(_: Memory) -> Self {
        PartFault::Memory
    }
}

impl From<AllocError> for PartFault {
    ghost from_gives = { λ _ part. part ≡ fault.Memory };

    fn from(_: AllocError) -> Self {
        PartFault::Memory
    }
}

/// The bytes of the object at an address. `Torn` comes where the view does not serve the address, or has no object
/// there; `Memory` for want of memory alone.
#[tactic(auto, using(crate::proofs::Looking::read_rules))]
pub fn look<V: View, R: Wait>(
    rt: &R,
    alloc: Global,
    view: &mut V,
    at: Addr,
) -> Result<Bin, PartFault>
    ensures tells { (h : Heap) → Agrees h (V.trace view.new) (V.overlay view.new) → LookTells at
        (V.reaches view.old (at.region % V.count view.old)) (stood h (V.overlay view.old) at) result }
    ensures stands { OnOk result (StandsIn (V.trace view.new) (V.overlay view.new) at) }
    ensures served { OnOk result (V.reaches view.new (at.region % V.count view.new) ≡ true) }
    ensures reads { ReadsOnly (λ b. b ≡ at) (V.trace view.old) (V.trace view.new) }
    ensures overlay { V.overlay view.new ≡ V.overlay view.old }
    ensures onward { Onward V.trace V.overlay V.reaches V.count V.kept view.old view.new }
{
    if !view.serves(at) {
        return Err(PartFault::Torn { at });
    }
    match view.read(rt, alloc, at) {
        Ok(Some(object)) => Ok(object.bytes),
        Ok(None) => Err(PartFault::Torn { at }),
        Err(_) => Err(PartFault::Memory),
    }
}

/// Puts bytes in the place of an object, as `View::write` does. `Memory` comes for want of memory alone; after it the
/// overlay is as before.
#[tactic(auto, using(crate::proofs::Writing::write_rules))]
pub fn store<V: View>(alloc: Global, view: &mut V, at: Addr, bytes: &[u8]) -> Result<(), PartFault>
    requires served { V.reaches view.old (at.region % V.count view.old) ≡ true }
    requires stands { StandsIn (V.trace view.old) (V.overlay view.old) at }
    requires size { IsObject bytes.now }
    ensures ok { OnOk result ((h : Heap) →
        stood h (V.overlay view.new) ≡ with_bytes at (Some bytes.now) (stood h (V.overlay view.old))) }
    ensures err { OnErr result (V.overlay view.new ≡ V.overlay view.old) }
    ensures fault { IfErr result (λ f. f ≡ fault.Memory) }
    ensures onward { Onward V.trace V.overlay V.reaches V.count V.kept view.old view.new }
{
    match view.write(alloc, at, bytes) {
        Ok(()) => Ok(()),
        Err(_) => Err(PartFault::Memory),
    }
}

/// Makes an object on a node, as `View::alloc` does, and answers its address. `Spent` comes where all places of the
/// node are taken, `Memory` for want of memory alone; after either the overlay is as before.
#[tactic(auto, using(crate::proofs::Writing::make_rules))]
pub fn make<V: View, R: Wait>(
    rt: &R,
    alloc: Global,
    view: &mut V,
    node: u32,
    bytes: &[u8],
) -> Result<Addr, PartFault>
    requires node { node < V.count view.old }
    requires served { V.reaches view.old node ≡ true }
    requires size { IsObject bytes.now }
    ensures place { IfOk result (λ at. IsPlace (V.count view.old) node at) }
    ensures fresh { IfOk result (λ at. (h : Heap) → Agrees h (V.trace view.new) (V.overlay view.new)
        → stood h (V.overlay view.old) at ≡ None) }
    ensures ok { IfOk result (λ at. (h : Heap) →
        stood h (V.overlay view.new) ≡ with_bytes at (Some bytes.now) (stood h (V.overlay view.old))) }
    ensures err { OnErr result (V.overlay view.new ≡ V.overlay view.old) }
    ensures fault { IfErr result (λ f. (f ≡ fault.Memory) ⊎ (f ≡ fault.Spent node)) }
    ensures onward { Onward V.trace V.overlay V.reaches V.count V.kept view.old view.new }
{
    match view.alloc(rt, alloc, node, bytes) {
        Ok(at) => Ok(at),
        Err(ViewFault::Memory) => Err(PartFault::Memory),
        Err(ViewFault::Spent { node }) => Err(PartFault::Spent { node }),
    }
}

/// Takes an object away, as `View::free` does. `Memory` comes for want of memory alone; after it the overlay is as
/// before.
#[tactic(auto, using(crate::proofs::Writing::write_rules))]
pub fn take<V: View>(alloc: Global, view: &mut V, at: Addr) -> Result<(), PartFault>
    requires served { V.reaches view.old (at.region % V.count view.old) ≡ true }
    requires stands { StandsIn (V.trace view.old) (V.overlay view.old) at }
    ensures ok { OnOk result ((h : Heap) →
        stood h (V.overlay view.new) ≡ with_bytes at None (stood h (V.overlay view.old))) }
    ensures err { OnErr result (V.overlay view.new ≡ V.overlay view.old) }
    ensures fault { IfErr result (λ f. f ≡ fault.Memory) }
    ensures onward { Onward V.trace V.overlay V.reaches V.count V.kept view.old view.new }
{
    match view.free(alloc, at) {
        Ok(()) => Ok(()),
        Err(_) => Err(PartFault::Memory),
    }
}
