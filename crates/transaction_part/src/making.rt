//! Making objects at a node.
ghost use Rattle.std.specs.Prelude.{◌≡◌, ◌<◌, ◌≤◌, ◌++◌, ◌∷◌, [], true, Some, Err, IfOk, OnErr};
ghost use Rattle.a1_base.specs.Lists.{BeginsWith};
ghost use Rattle.a1_base.specs.Stamps.{IsStamp};
ghost use Rattle.farm_node.specs.NodeState.{occupancy, replay};
ghost use Rattle.object_region.specs.Occupancy.{IsPlace, IsSpent};
ghost use Rattle.write_set.specs.declared.set.Write.{Write};
ghost use Rattle.write_set.specs.Writes.{Lacks};
ghost use Rattle.transaction_part.specs.Part.{IsRunning, log, written};
ghost use Rattle.transaction_part.specs.Stories.{SamePuts};

use crate::part::{Part, take_pass};
use a1_base::{Addr, Bin, TxnId};
use farm_node::{PlaceFault, Placed};
use node_turns::{Standing, alloc_there, begin_turn, end_turn};
use std::alloc::Global;
use std::sync::Wait;
use turnstile::Turnstile;

impl Part {
    /// Makes an object of the node for the transaction, with these bytes, and answers its address, which the
    /// transaction did not write before. It waits for its turn. `Spent` comes exactly where all places of the node are
    /// taken, `Memory` for want of memory alone; after either nothing more is written.
    pub fn alloc<R: Wait>(
        &mut self,
        rt: &R,
        alloc: Global,
        lock: &Turnstile<Standing>,
        t: TxnId,
        r: u64,
        bytes: Bin,
    ) -> Result<Addr, PlaceFault>
        requires running { IsRunning lock.now t r self.old }
        requires stamp { IsStamp r }
        ensures running { IsRunning lock.now t r self.new }
        ensures place { IfOk result (λ at. IsPlace (occupancy (replay (log self.new))) at) }
        ensures fresh { IfOk result (Lacks (written self.old)) }
        ensures ok { IfOk result (λ at. written self.new
            ≡ written self.old ++ record { at = at; value = Some bytes; made = true } ∷ []) }
        ensures err { OnErr result (written self.new ≡ written self.old) }
        ensures spent { result ≡ Err PlaceFault.Spent → IsSpent (occupancy (replay (log self.new))) }
        ensures grown { BeginsWith (log self.new) (log self.old) }
        ensures puts { SamePuts t.actor (log self.old) (log self.new) }
    {
        if self.writes.reserve().is_err() {
            return Err(PlaceFault::Memory);
        }
        match self.place(rt, alloc, lock, t, r) {
            Ok(placed) => {
                if self.writes.add(placed.at, Some(bytes), true).is_err() {
                    unreachable!()
                }
                Ok(placed.at)
            }
            Err(fault) => Err(fault),
        }
    }

    // Takes a place in one turn. The node gets no bytes yet: they come with the lock of the commit.
    fn place<R: Wait>(
        &mut self,
        rt: &R,
        alloc: Global,
        lock: &Turnstile<Standing>,
        t: TxnId,
        r: u64,
    ) -> Result<Placed, PlaceFault>
        requires running { IsRunning lock.now t r self.old }
        requires stamp { IsStamp r }
        ensures made { IfOk result (λ placed. (part : Part) (w : Write) → part.pass ≡ self.new.pass → w.at ≡ placed.at
            → w.made ≡ true → written part ≡ written self.old ++ w ∷ [] → IsRunning lock.now t r part) }
        ensures running { OnErr result (IsRunning lock.now t r self.new) }
        ensures place { IfOk result (λ placed. IsPlace (occupancy (replay (log self.new))) placed.at) }
        ensures fresh { IfOk result (λ placed. Lacks (written self.old) placed.at) }
        ensures spent { result ≡ Err PlaceFault.Spent → IsSpent (occupancy (replay (log self.new))) }
        ensures writes { self.new.writes ≡ self.old.writes }
        ensures grown { BeginsWith (log self.new) (log self.old) }
        ensures puts { SamePuts t.actor (log self.old) (log self.new) }
    {
        let none = Bin::new(alloc);
        let pass = take_pass(&mut self.pass, lock, t.actor);
        let turn = begin_turn(rt, lock, pass, t.actor);
        let (turn, answer) = alloc_there(lock, alloc, turn, t, r, none);
        self.pass = Some(end_turn(lock, turn, t.actor));
        answer
    }
}
