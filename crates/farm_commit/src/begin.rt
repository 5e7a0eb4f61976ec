//! How a transaction begins.
ghost use Rattle.farm_commit.specs.Begins.{Begins};
ghost use Rattle.farm_commit.specs.Farms.{IsActorOf, IsOpenOf};

use crate::actor::{Actor, Open};
use crate::farm::Farm;
use std::sync::Wait;

impl Farm {
    /// Begins a transaction of an actor. It reads the clock, pins every node at what it read or at the node's floor, waits
    /// until the clock is at least each pin, and reads the clock again: that is the stamp at which it reads.
    pub fn begin<R: Wait>(&self, rt: &R, actor: Actor) -> Open
        requires actor { IsActorOf self.now actor }
        ensures txn { IsOpenOf self.now result }
        ensures begins { Begins self.now actor result }
    {
        let Actor {
            number,
            begun,
            mut seat,
            mut parts,
            reads,
        } = actor;
        let clock = self.stamps.now(&mut seat);
        let top = self.open_each(rt, &mut parts, number, clock);
        self.stamps.reach(rt, &mut seat, top);
        let read_stamp = self.stamps.now(&mut seat);
        Open {
            number,
            begun: begun.saturating_add(1),
            read_stamp,
            seat,
            parts,
            reads,
        }
    }
}
