//! How a transaction ends without a commit.
ghost use Rattle.std.specs.Prelude.{◌≡◌};
ghost use Rattle.farm_commit.specs.Commits.{PutsNone};
ghost use Rattle.farm_commit.specs.Farms.{IsActorOf, IsOpenOf};
ghost use Rattle.farm_commit.specs.Parts.{EachStep};

use crate::actor::{Actor, Open};
use crate::farm::Farm;
use a1_base::TxnId;
use std::sync::Wait;

impl Farm {
    /// Ends a transaction: nothing is installed, and its locks, the places of the objects that it made and its pins are
    /// given back. It waits for its turns, and takes no memory.
    pub fn end<R: Wait>(&self, rt: &R, txn: Open) -> Actor
        requires txn { IsOpenOf self.now txn }
        ensures actor { IsActorOf self.now result }
        ensures same { (result.number ≡ txn.number) × (result.begun ≡ txn.begun) × (result.seat ≡ txn.seat) }
        ensures ended { EachStep self.now.locks.items (PutsNone txn.number) txn.parts.items result.parts.items }
    {
        let Open {
            number,
            begun,
            read_stamp,
            seat,
            mut parts,
            mut reads,
        } = txn;
        let t = TxnId {
            actor: number,
            number: begun,
        };
        self.give_up_each(rt, &mut parts, t, read_stamp);
        reads.clear();
        Actor {
            number,
            begun,
            seat,
            parts,
            reads,
        }
    }
}
