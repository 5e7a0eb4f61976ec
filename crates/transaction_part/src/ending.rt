//! The end of a transaction at a node: it installs or gives its locks up, and its pin goes.
ghost use Rattle.std.specs.Prelude.{◌≡◌, ◌++◌, ◌∷◌, [], if◌then◌else◌};
ghost use Rattle.a1_base.specs.Lists.{BeginsWith, IsAmong};
ghost use Rattle.a1_base.specs.Stamps.{IsStamp};
ghost use Rattle.farm_node.specs.declared.entry.Entry.TheVariants.{Unlock};
ghost use Rattle.farm_node.specs.NodeState.{replay};
ghost use Rattle.farm_node.specs.State.{holds_there};
ghost use Rattle.turnstile.specs.Passes.{entered};
ghost use Rattle.node_turns.specs.Turned.{IsInside};
ghost use Rattle.write_set.specs.declared.set.Write.{Write};
ghost use Rattle.write_set.specs.Writes.{writes};
ghost use Rattle.transaction_part.specs.Part.{IsEnding, IsLocked, IsResting, IsWritten, log, written};
ghost use Rattle.transaction_part.specs.Running.{HoldsBelow, Runs};
ghost use Rattle.transaction_part.specs.Stories.{PutsJust, SameStory};

use crate::part::{Part, paced, take_pass};
use a1_base::{Addr, TxnId};
use node_turns::{Standing, begin_turn, end_turn, is_held, put_there, shut_there, unlock_there};
use std::sync::Wait;
use turnstile::{Turn, Turnstile};
use write_set::WriteSet;

impl Part {
    /// Installs at the stamp `w` of the commit all that the transaction writes at the node, and takes its pin away. It
    /// waits for its turns.
    pub fn install<R: Wait>(
        &mut self,
        rt: &R,
        lock: &Turnstile<Standing>,
        t: TxnId,
        _r: u64,
        w: u64,
    )
        requires locked { IsLocked lock.now t _r w self.old }
        requires stamp { IsStamp w }
        ensures resting { IsResting lock.now t.actor self.new }
        ensures puts { PutsJust t w (written self.old) (log self.old) (log self.new) }
        ensures grown { BeginsWith (log self.new) (log self.old) }
    {
        let pass = take_pass(&mut self.pass, lock, t.actor);
        let turn = begin_turn(rt, lock, pass, t.actor);
        let turn = put_each(rt, lock, turn, &self.writes, t, _r, w);
        let turn = shut_there(lock, turn, t.actor);
        self.pass = Some(end_turn(lock, turn, t.actor));
        self.writes.clear();
    }

    /// Gives up all locks that the transaction has at the node, with the places of the objects that it made, and takes
    /// its pin away. It waits for its turns.
    pub fn give_up<R: Wait>(&mut self, rt: &R, lock: &Turnstile<Standing>, t: TxnId, _r: u64)
        requires ending { IsEnding lock.now t _r self.old }
        ensures resting { IsResting lock.now t.actor self.new }
        ensures quiet { SameStory t.actor (log self.old) (log self.new) }
        ensures grown { BeginsWith (log self.new) (log self.old) }
    {
        let pass = take_pass(&mut self.pass, lock, t.actor);
        let turn = begin_turn(rt, lock, pass, t.actor);
        let turn = unlock_each(rt, lock, turn, &self.writes, t, _r);
        let turn = shut_there(lock, turn, t.actor);
        self.pass = Some(end_turn(lock, turn, t.actor));
        self.writes.clear();
    }
}

// Installs one write after another.
fn put_each<R: Wait>(
    rt: &R,
    lock: &Turnstile<Standing>,
    mut turn: Turn<Standing>,
    set: &WriteSet,
    t: TxnId,
    _r: u64,
    w: u64,
) -> Turn<Standing>
    requires inside { IsInside lock.now t.actor turn }
    requires runs { Runs t _r (IsWritten (writes set.now)) (entered turn) }
    requires holds { (x : Write) → IsAmong x (writes set.now) → HoldsBelow t x.at w (replay (entered turn)) }
    requires stamp { IsStamp w }
    ensures inside { IsInside lock.now t.actor result }
    ensures runs { Runs t _r (λ a. ⊥) (entered result) }
    ensures puts { PutsJust t w (writes set.now) (entered turn) (entered result) }
    ensures grown { BeginsWith (entered result) (entered turn) }
{
    for index in 0..set.len() {
        turn = paced(rt, lock, turn, t.actor, index);
        turn = put_there(lock, turn, t, set.get(index).at, w);
    }
    turn
}

// Gives one lock up after another.
fn unlock_each<R: Wait>(
    rt: &R,
    lock: &Turnstile<Standing>,
    mut turn: Turn<Standing>,
    set: &WriteSet,
    t: TxnId,
    _r: u64,
) -> Turn<Standing>
    requires inside { IsInside lock.now t.actor turn }
    requires runs { Runs t _r (IsWritten (writes set.now)) (entered turn) }
    ensures inside { IsInside lock.now t.actor result }
    ensures runs { Runs t _r (λ a. ⊥) (entered result) }
    ensures quiet { SameStory t.actor (entered turn) (entered result) }
    ensures grown { BeginsWith (entered result) (entered turn) }
{
    for index in 0..set.len() {
        turn = paced(rt, lock, turn, t.actor, index);
        turn = unlock_one(lock, turn, t, set.get(index).at);
    }
    turn
}

// Gives the lock of an address up, where the transaction has it.
fn unlock_one(
    lock: &Turnstile<Standing>,
    turn: Turn<Standing>,
    t: TxnId,
    at: Addr,
) -> Turn<Standing>
    requires inside { IsInside lock.now t.actor turn }
    ensures inside { IsInside lock.now t.actor result }
    ensures entry { entered result
        ≡ (if holds_there t ((replay (entered turn)).cells at) then entered turn ++ Unlock t at ∷ []
        else entered turn) }
{
    if is_held(&turn, t, at, lock) {
        unlock_there(lock, turn, t, at)
    } else {
        turn
    }
}
