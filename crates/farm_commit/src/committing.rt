//! Commits.
ghost use Rattle.std.specs.Prelude.{◌≡◌, ◌<◌, ◌≤◌, ℕ};
ghost use Rattle.a1_base.specs.Stamps.{IsStamp};
ghost use Rattle.snapshot_stamps.specs.Seats.{IsSeatOf, watch};
ghost use Rattle.transaction_part.specs.Part.{IsLocked, IsResting, IsRunning};
ghost use Rattle.farm_commit.specs.Commits.{CommitTells, Decides, check_refusal, lock_refusal};
ghost use Rattle.farm_commit.specs.Farms.{IsActorOf, IsOpenOf, id_of};
ghost use Rattle.farm_commit.specs.Parts.{EachPart};

use crate::actor::{Actor, Open};
use crate::commit::Commit;
use crate::farm::Farm;
use a1_base::{Addr, TxnId};
use farm_node::{CheckFault, LockFault};
use snapshot_stamps::StampSeat;
use std::sync::Wait;
use transaction_part::{Part, Seen};

fn lock_refused(at: Addr, fault: LockFault) -> Commit
    ensures { result ≡ lock_refusal at fault }
{
    match fault {
        LockFault::Held { by } => Commit::Held { object: at, by },
        LockFault::Changed { seen, now } => Commit::Changed {
            object: at,
            seen,
            now,
        },
        LockFault::Memory => Commit::Memory,
    }
}

fn check_refused(at: Addr, fault: CheckFault) -> Commit
    ensures { result ≡ check_refusal at fault }
{
    match fault {
        CheckFault::Held { by } => Commit::Held { object: at, by },
        CheckFault::Changed { seen, now } => Commit::Changed {
            object: at,
            seen,
            now,
        },
    }
}

impl Farm {
    /// Commits a transaction: locks all that it writes, draws a stamp above all bounds, checks all that it read and does
    /// not write, and installs; or it gives its locks up. It waits for its turns, and takes no memory from the draw on.
    ///
    /// `Changed` and `Held` come exactly from a lock or a check that answered so, `Spent` exactly where the clock has no
    /// stamp left, `Memory` for want of memory alone, before the draw. After any answer but `Done` no object has
    /// changed and no lock stays.
    pub fn commit<R: Wait>(&self, rt: &R, txn: Open) -> (Actor, Commit)
        requires txn { IsOpenOf self.now txn }
        ensures actor { IsActorOf self.now result.0 }
        ensures same { (result.0.number ≡ txn.number) × (result.0.begun ≡ txn.begun) }
        ensures tells { CommitTells self.now.locks.items self.now.nodes (id_of txn) txn.read_stamp txn.reads.items
            result.1 txn.parts.items result.0.parts.items txn.seat result.0.seat }
        ensures known { (watch txn.seat).known ≤ (watch result.0.seat).known }
        ensures lanes { (watch result.0.seat).lanes ≡ (watch txn.seat).lanes }
    {
        let Open {
            number,
            begun,
            read_stamp,
            mut seat,
            mut parts,
            mut reads,
        } = txn;
        let t = TxnId {
            actor: number,
            number: begun,
        };
        let answer = self.commit_parts(rt, &mut parts, &mut seat, reads.as_slice(), t, read_stamp);
        reads.clear();
        let actor = Actor {
            number,
            begun,
            seat,
            parts,
            reads,
        };
        (actor, answer)
    }

    // The commit of a transaction's parts.
    fn commit_parts<R: Wait>(
        &self,
        rt: &R,
        parts: &mut Vec<Part>,
        seat: &mut StampSeat,
        reads: &[Seen],
        t: TxnId,
        r: u64,
    ) -> Commit
        requires parts { EachPart self.now.locks.items (λ _ l p. IsRunning l t r p) parts.old.items }
        requires seat { IsSeatOf self.now.stamps seat.old }
        requires stamp { IsStamp r }
        requires known { r ≤ (watch seat.old).known }
        ensures rests { EachPart self.now.locks.items (λ _ l p. IsResting l t.actor p) parts.new.items }
        ensures seat { IsSeatOf self.now.stamps seat.new }
        ensures tells { CommitTells self.now.locks.items self.now.nodes t r reads.now result parts.old.items
            parts.new.items seat.old seat.new }
        ensures knows { (watch seat.old).known ≤ (watch seat.new).known }
        ensures lanes { (watch seat.new).lanes ≡ (watch seat.old).lanes }
    {
        match self.lock_each(rt, parts, t, r) {
            Ok(top) => self.decide(rt, parts, seat, reads, t, r, top),
            Err((at, fault)) => {
                self.give_up_each(rt, parts, t, r);
                lock_refused(at, fault)
            }
        }
    }

    // Draws, checks and installs, once all locks are held.
    fn decide<R: Wait>(
        &self,
        rt: &R,
        parts: &mut Vec<Part>,
        seat: &mut StampSeat,
        reads: &[Seen],
        t: TxnId,
        r: u64,
        top: u64,
    ) -> Commit
        requires locked { (w : ℕ) → top < w
            → EachPart self.now.locks.items (λ _ l p. IsLocked l t r w p) parts.old.items }
        requires seat { IsSeatOf self.now.stamps seat.old }
        requires stamps { IsStamp r × IsStamp top }
        requires known { r ≤ (watch seat.old).known }
        ensures rests { EachPart self.now.locks.items (λ _ l p. IsResting l t.actor p) parts.new.items }
        ensures seat { IsSeatOf self.now.stamps seat.new }
        ensures decides { Decides self.now.locks.items self.now.nodes t r reads.now result parts.old.items
            parts.new.items seat.old seat.new }
        ensures knows { (watch seat.old).known ≤ (watch seat.new).known }
        ensures lanes { (watch seat.new).lanes ≡ (watch seat.old).lanes }
    {
        self.stamps.reach(rt, seat, top);
        let Some(w) = self.stamps.draw(seat) else {
            self.give_up_each(rt, parts, t, r);
            return Commit::Spent;
        };
        match self.check_each(rt, parts, reads, t, r, w) {
            Ok(()) => {
                self.install_each(rt, parts, t, r, w);
                Commit::Done { stamp: w }
            }
            Err((at, fault)) => {
                self.give_up_each(rt, parts, t, r);
                check_refused(at, fault)
            }
        }
    }
}
