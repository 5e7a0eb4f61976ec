//! One step of a transaction at all nodes, one node after another.
ghost use Rattle.std.specs.Prelude.{◌≡◌, ◌<◌, ◌≤◌, ℕ, IfErr, IfOk, OnOk};
ghost use Rattle.a1_base.specs.Stamps.{IsStamp};
ghost use Rattle.transaction_part.specs.Part.{IsEnding, IsLocked, IsResting, IsRunning};
ghost use Rattle.farm_commit.specs.Commits.{IsCaused};
ghost use Rattle.farm_commit.specs.Parts.{EachPart, EachStep};
ghost use Rattle.farm_commit.specs.Steps.{ChecksThere, IsRefused, LocksThere, OpensThere, PutsAll, RestsThere, StopsThere};

use crate::farm::Farm;
use a1_base::{Addr, TxnId};
use farm_node::{CheckFault, LockFault};
use std::sync::Wait;
use transaction_part::{Part, Seen};

impl Farm {
    // Pins every node for an actor, at the greater of the stamp `clock` and its floor, and answers the greatest pin.
    pub(crate) fn open_each<R: Wait>(
        &self,
        rt: &R,
        parts: &mut Vec<Part>,
        actor: u32,
        clock: u64,
    ) -> u64
        requires parts { EachPart self.now.locks.items (λ _ l p. IsResting l actor p) parts.old.items }
        requires actor { (0 < actor) × (actor ≤ self.now.actors) }
        requires stamp { IsStamp clock }
        ensures opened { EachStep self.now.locks.items (OpensThere actor clock result) parts.old.items parts.new.items }
        ensures top { (clock ≤ result) × IsStamp result }
    {
        let mut top = clock;
        for node in 0..self.nodes as usize {
            let pin = parts[node].open(rt, &self.locks[node], actor, clock);
            top = pin.max(top);
        }
        top
    }

    // Locks all that a transaction writes, and answers the greatest bound.
    pub(crate) fn lock_each<R: Wait>(
        &self,
        rt: &R,
        parts: &mut Vec<Part>,
        t: TxnId,
        r: u64,
    ) -> Result<u64, (Addr, LockFault)>
        requires parts { EachPart self.now.locks.items (λ _ l p. IsRunning l t r p) parts.old.items }
        requires stamp { IsStamp r }
        ensures top { IfOk result IsStamp }
        ensures locked { IfOk result (λ top.
            EachStep self.now.locks.items (LocksThere t r top) parts.old.items parts.new.items) }
        ensures stopped { IfErr result (λ e.
            EachStep self.now.locks.items (StopsThere t r) parts.old.items parts.new.items
            × IsRefused t r e.0 e.1 parts.new.items) }
    {
        let mut top = 0;
        for node in 0..self.nodes as usize {
            match parts[node].lock_all(rt, &self.locks[node], t, r) {
                Ok(bound) => top = bound.max(top),
                Err(refusal) => return Err(refusal),
            }
        }
        Ok(top)
    }

    // Checks all that a transaction read and does not write.
    pub(crate) fn check_each<R: Wait>(
        &self,
        rt: &R,
        parts: &mut Vec<Part>,
        reads: &[Seen],
        t: TxnId,
        r: u64,
        w: u64,
    ) -> Result<(), (Addr, CheckFault)>
        requires parts { EachPart self.now.locks.items (λ _ l p. IsLocked l t r w p) parts.old.items }
        requires stamps { IsStamp r × IsStamp w }
        ensures checked { OnOk result (EachStep self.now.locks.items (ChecksThere t r w self.now.nodes reads.now)
            parts.old.items parts.new.items) }
        ensures stopped { IfErr result (λ e.
            EachStep self.now.locks.items (StopsThere t r) parts.old.items parts.new.items
            × IsCaused t r e.0 e.1 parts.new.items) }
    {
        for node in 0..self.nodes {
            let index = node as usize;
            match parts[index].check_all(rt, &self.locks[index], reads, node, self.nodes, t, r, w) {
                Ok(()) => {}
                Err(refusal) => return Err(refusal),
            }
        }
        Ok(())
    }

    // Installs all that a transaction writes, and takes its pins away.
    pub(crate) fn install_each<R: Wait>(
        &self,
        rt: &R,
        parts: &mut Vec<Part>,
        t: TxnId,
        r: u64,
        w: u64,
    )
        requires parts { EachPart self.now.locks.items (λ _ l p. IsLocked l t r w p) parts.old.items }
        requires stamp { IsStamp w }
        ensures { EachStep self.now.locks.items (PutsAll t w) parts.old.items parts.new.items }
    {
        for node in 0..self.nodes as usize {
            parts[node].install(rt, &self.locks[node], t, r, w);
        }
    }

    // Gives all locks of a transaction up, and takes its pins away.
    pub(crate) fn give_up_each<R: Wait>(&self, rt: &R, parts: &mut Vec<Part>, t: TxnId, r: u64)
        requires parts { EachPart self.now.locks.items (λ _ l p. IsEnding l t r p) parts.old.items }
        ensures { EachStep self.now.locks.items (RestsThere t.actor) parts.old.items parts.new.items }
    {
        for node in 0..self.nodes as usize {
            parts[node].give_up(rt, &self.locks[node], t, r);
        }
    }
}
