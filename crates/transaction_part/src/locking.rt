//! The first step of a commit at a node: its locks.
ghost use Rattle.std.specs.Prelude.{◌≡◌, ◌<◌, ◌≤◌, ℕ, IfErr, IfOk, OnOk};
ghost use Rattle.a1_base.specs.Lists.{BeginsWith};
ghost use Rattle.a1_base.specs.Stamps.{IsStamp};
ghost use Rattle.turnstile.specs.Passes.{entered};
ghost use Rattle.node_turns.specs.Turned.{IsInside};
ghost use Rattle.write_set.specs.Writes.{writes};
ghost use Rattle.transaction_part.specs.Locking.{CanLock, Locks};
ghost use Rattle.transaction_part.specs.Part.{IsEnding, IsLocked, IsRunning, addresses, log, written};
ghost use Rattle.transaction_part.specs.Running.{LockRefused};
ghost use Rattle.transaction_part.specs.Stories.{GaveAll, SamePuts};

use crate::part::{Part, paced, take_pass};
use a1_base::{Addr, TxnId};
use farm_node::LockFault;
use node_turns::{Standing, begin_turn, end_turn, lock_there};
use std::sync::Wait;
use turnstile::{Turn, Turnstile};
use write_set::WriteSet;

impl Part {
    /// Locks all that the transaction writes at the node, to install what it gave, and answers the greatest bound of
    /// these locks: any greater stamp may be that of the commit. It waits for its turns. The first lock that is not
    /// given is answered with its address; some may be held then.
    pub fn lock_all<R: Wait>(
        &mut self,
        rt: &R,
        lock: &Turnstile<Standing>,
        t: TxnId,
        r: u64,
    ) -> Result<u64, (Addr, LockFault)>
        requires running { IsRunning lock.now t r self.old }
        requires stamp { IsStamp r }
        ensures ending { IsEnding lock.now t r self.new }
        ensures top { IfOk result IsStamp }
        ensures locked { IfOk result (λ top. (w : ℕ) → top < w → IsLocked lock.now t r w self.new) }
        ensures gave { OnOk result (GaveAll t r (written self.old) (log self.new)) }
        ensures fault { IfErr result (λ e. LockRefused t e.0 r e.1 (log self.new)) }
        ensures addresses { addresses (written self.new) ≡ addresses (written self.old) }
        ensures grown { BeginsWith (log self.new) (log self.old) }
        ensures puts { SamePuts t.actor (log self.old) (log self.new) }
    {
        if self.writes.len() == 0 {
            return Ok(0);
        }
        let pass = take_pass(&mut self.pass, lock, t.actor);
        let turn = begin_turn(rt, lock, pass, t.actor);
        let (turn, answer) = lock_each(rt, lock, turn, &mut self.writes, t, r);
        self.pass = Some(end_turn(lock, turn, t.actor));
        answer
    }
}

// Locks one write after another.
fn lock_each<R: Wait>(
    rt: &R,
    lock: &Turnstile<Standing>,
    mut turn: Turn<Standing>,
    set: &mut WriteSet,
    t: TxnId,
    r: u64,
) -> (Turn<Standing>, Result<u64, (Addr, LockFault)>)
    requires inside { IsInside lock.now t.actor turn }
    requires stamp { IsStamp r }
    requires can { CanLock t r (writes set.old) (entered turn) }
    ensures inside { IsInside lock.now t.actor result.0 }
    ensures locks { Locks t r (writes set.old) (writes set.new) (entered turn) (entered result.0) result.1 }
{
    let mut top = 0;
    for index in 0..set.len() {
        turn = paced(rt, lock, turn, t.actor, index);
        let at = set.get(index).at;
        let value = set.take_value(index);
        let (left, answer) = lock_there(lock, turn, t, at, r, value);
        turn = left;
        match answer {
            Ok(locked) => top = locked.bound.max(top),
            Err(fault) => return (turn, Err((at, fault))),
        }
    }
    (turn, Ok(top))
}
