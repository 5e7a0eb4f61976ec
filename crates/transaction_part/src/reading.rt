//! Reading at a node.
ghost use Rattle.std.specs.Prelude.{◌≡◌, ◌<◌, ◌≤◌, IfOk, OnOk};
ghost use Rattle.a1_base.specs.Lists.{BeginsWith};
ghost use Rattle.a1_base.specs.Stamps.{IsStamp};
ghost use Rattle.farm_node.specs.Owned.{WasRead};
ghost use Rattle.write_set.specs.Writes.{Lacks};
ghost use Rattle.transaction_part.specs.Part.{IsRunning, log, written};
ghost use Rattle.transaction_part.specs.Stories.{SameStory};

use crate::part::{Part, take_pass};
use a1_base::{Addr, Memory, TxnId};
use crossbeam_utils::Backoff;
use farm_node::{Found, ReadFault};
use node_turns::{Standing, begin_turn, end_turn, read_there};
use std::alloc::Global;
use std::sync::Wait;
use turnstile::Turnstile;

impl Part {
    /// Reads an address that the transaction does not write, at its read stamp: the newest version at most that stamp,
    /// absent with the stamp 0 where there is none. It waits for its turn, and while another transaction holds the
    /// address. `Memory` comes for want of memory alone.
    pub fn read<R: Wait>(
        &mut self,
        rt: &R,
        alloc: Global,
        lock: &Turnstile<Standing>,
        t: TxnId,
        r: u64,
        at: Addr,
    ) -> Result<Found, Memory>
        requires running { IsRunning lock.now t r self.old }
        requires stamp { IsStamp r }
        requires away { Lacks (written self.old) at }
        ensures running { IsRunning lock.now t r self.new }
        ensures read { IfOk result (λ found. WasRead t.actor at r found (log self.new)) }
        ensures writes { self.new.writes ≡ self.old.writes }
        ensures grown { BeginsWith (log self.new) (log self.old) }
        ensures quiet { SameStory t.actor (log self.old) (log self.new) }
    {
        let backoff = Backoff::new();
        for _ in rt.forever() {
            match self.read_once(rt, alloc, lock, t, r, at) {
                Ok(found) => return Ok(found),
                Err(ReadFault::Memory) => return Err(Memory),
                Err(ReadFault::Held { .. }) => {}
            }
            backoff.snooze();
        }
        unreachable!()
    }

    // Reads in one turn.
    fn read_once<R: Wait>(
        &mut self,
        rt: &R,
        alloc: Global,
        lock: &Turnstile<Standing>,
        t: TxnId,
        r: u64,
        at: Addr,
    ) -> Result<Found, ReadFault>
        requires running { IsRunning lock.now t r self.old }
        requires stamp { IsStamp r }
        requires away { Lacks (written self.old) at }
        ensures running { IsRunning lock.now t r self.new }
        ensures read { IfOk result (λ found. WasRead t.actor at r found (log self.new)) }
        ensures writes { self.new.writes ≡ self.old.writes }
        ensures grown { BeginsWith (log self.new) (log self.old) }
        ensures quiet { SameStory t.actor (log self.old) (log self.new) }
    {
        let pass = take_pass(&mut self.pass, lock, t.actor);
        let turn = begin_turn(rt, lock, pass, t.actor);
        let (turn, answer) = read_there(lock, alloc, turn, t.actor, at, r);
        self.pass = Some(end_turn(lock, turn, t.actor));
        answer
    }
}
