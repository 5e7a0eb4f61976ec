//! The trait through which every structure reads and writes objects.
ghost use Rattle.std.specs.Prelude.{◌≡◌, ◌⊎◌, ◌<◌, ◌≤◌, ◌%◌, ℕ, Bool, true, List, Option, None, Some, Result, IfErr, IfOk, OnErr, OnOk};
ghost use Rattle.a1_base.specs.declared.place.Addr.{Addr};
ghost use Rattle.a1_base.specs.declared.limits.TheConstants.{NODE_LIMIT};

use a1_base::{Addr, Bin};
use std::alloc::{AllocError, Global};
use std::sync::Wait;

/// The bytes of an object, and the stamp of the commit that wrote them.
#[derive(Debug, Drop)]
pub struct Object {
    pub stamp: u64,
    pub bytes: Bin,
}

/// Why a view did nothing.
#[derive(Clone, Copy, Debug, PartialEq, Eq)]
pub enum ViewFault {
    /// An allocation was refused.
    Memory,
    /// All places of the node's 1,048,576 regions are taken.
    Spent { node: u32 },
}

impl From<AllocError> for ViewFault {
    ghost use Rattle.object_view.specs.declared.view.ViewFault.TheVariants as fault;

    ghost from_gives = { λ _ f. f ≡ fault.Memory };

    fn from(_: AllocError) -> Self {
        ViewFault::Memory
    }
}

/// A heap of objects as one reader and writer sees it. What is written stays in the view's overlay, over the heap
/// (the read and write sets of a transaction; Shamis et al., SIGMOD 2019).
pub trait View {
    ghost use Rattle.object_view.specs.Agreement.{Seen, Overlay, is_made};
    ghost use Rattle.object_view.specs.Calls.{ReadTells, written_at, StandsIn, IsPlace, IsObject, OnlyMemory, IsSteady};
    ghost use Rattle.object_view.specs.declared.view.ViewFault.{ViewFault};

    // What was read, in order, without reads of own writes.
    ghost trace: { Self → List Seen };

    // What was written, and which addresses `alloc` made.
    ghost overlay: { Self → Overlay };

    // Which nodes it can reach.
    ghost reaches: { Self → ℕ → Bool };

    // How many nodes the heap has.
    ghost count: { Self → ℕ };

    // What no call changes besides, as the heap under a plain view.
    ghost Kept: { Type 0 };

    ghost kept: { Self → Self.Kept };

    // What an answer of `alloc` tells besides: from a view, for a node, to the view afterwards.
    ghost alloc_gives: { Self → ℕ → Result Addr ViewFault → Self → Type 0 };

    /// The number of nodes of the heap under the view, from 1 to 16.
    fn nodes(&self) -> u32
        ensures count { result ≡ count self.now }
        ensures some { 1 ≤ result }
        ensures few { result ≤ NODE_LIMIT };

    /// Whether the view can reach the address, which is the same for all addresses of one node.
    fn serves(&self, at: Addr) -> bool
        ensures { result ≡ reaches self.now (at.region % count self.now) };

    /// The object at an address that the view serves, if one is there. An own write comes first, with the stamp 0, and
    /// is not noted; any other answer is noted in the trace. It may wait. The one fault is `Memory`, for want of memory
    /// alone; after it nothing was noted.
    fn read<R: Wait>(
        &mut self,
        rt: &R,
        alloc: Global,
        at: Addr,
    ) -> Result<Option<Object>, ViewFault>
        requires served { reaches self.old (at.region % count self.old) ≡ true }
        ensures tells { IfOk result (λ found.
            ReadTells (overlay self.old at) at (trace self.old) (trace self.new) found) }
        ensures err { OnErr result (trace self.new ≡ trace self.old) }
        ensures unspent { IfErr result OnlyMemory }
        ensures overlay { overlay self.new ≡ overlay self.old }
        ensures steady { IsSteady reaches count kept self.old self.new };

    /// Puts 1 to 65,536 bytes in the place of an object that stands at an address that the view serves: this view read
    /// an object there or made it, and has not freed it since. The one fault is `Memory`, for want of memory alone;
    /// after it the overlay is as before.
    fn write(&mut self, alloc: Global, at: Addr, bytes: &[u8]) -> Result<(), ViewFault>
        requires served { reaches self.old (at.region % count self.old) ≡ true }
        requires stands { StandsIn (trace self.old) (overlay self.old) at }
        requires size { IsObject bytes.now }
        ensures ok { OnOk result
            (overlay self.new ≡ written_at at (is_made (overlay self.old at)) (Some bytes.now) (overlay self.old)) }
        ensures err { OnErr result (overlay self.new ≡ overlay self.old) }
        ensures unspent { IfErr result OnlyMemory }
        ensures trace { trace self.new ≡ trace self.old }
        ensures steady { IsSteady reaches count kept self.old self.new };

    /// Makes an object of 1 to 65,536 bytes on a node below `nodes()` that the view serves, and answers its address:
    /// a place of the node at which the overlay had nothing, not even a freed object, and at which no heap that agrees
    /// has one. It may wait. `Spent` names the node, and comes exactly where all places of its 1,048,576 regions are
    /// taken; `Memory` comes for want of memory alone. After either the overlay is as before.
    fn alloc<R: Wait>(
        &mut self,
        rt: &R,
        alloc: Global,
        node: u32,
        bytes: &[u8],
    ) -> Result<Addr, ViewFault>
        requires node { node < count self.old }
        requires served { reaches self.old node ≡ true }
        requires size { IsObject bytes.now }
        ensures place { IfOk result (λ at. IsPlace (count self.old) node at) }
        ensures fresh { IfOk result (λ at. overlay self.old at ≡ None) }
        ensures ok { IfOk result (λ at.
            overlay self.new ≡ written_at at true (Some bytes.now) (overlay self.old)) }
        ensures err { OnErr result (overlay self.new ≡ overlay self.old) }
        ensures fault { IfErr result (λ f. OnlyMemory f ⊎ (f ≡ ViewFault.Spent node)) }
        ensures gives { alloc_gives self.old node result self.new }
        ensures trace { trace self.new ≡ trace self.old }
        ensures steady { IsSteady reaches count kept self.old self.new };

    /// Takes the object away that stands at an address that the view serves, as for `write`. The one fault is `Memory`,
    /// for want of memory alone; after it the overlay is as before.
    fn free(&mut self, alloc: Global, at: Addr) -> Result<(), ViewFault>
        requires served { reaches self.old (at.region % count self.old) ≡ true }
        requires stands { StandsIn (trace self.old) (overlay self.old) at }
        ensures ok { OnOk result
            (overlay self.new ≡ written_at at (is_made (overlay self.old at)) None (overlay self.old)) }
        ensures err { OnErr result (overlay self.new ≡ overlay self.old) }
        ensures unspent { IfErr result OnlyMemory }
        ensures trace { trace self.new ≡ trace self.old }
        ensures steady { IsSteady reaches count kept self.old self.new };
}
