//! The second step of a commit at a node: its checks.
ghost use Rattle.std.specs.Prelude.{◌≡◌, ◌<◌, ◌%◌, ◌↔◌, false, IfErr, IsTrue, OnOk};
ghost use Rattle.a1_base.specs.Lists.{BeginsWith, IsAmong};
ghost use Rattle.a1_base.specs.Stamps.{IsStamp};
ghost use Rattle.farm_node.specs.NodeState.{replay};
ghost use Rattle.turnstile.specs.Passes.{entered};
ghost use Rattle.node_turns.specs.Turned.{IsInside};
ghost use Rattle.write_set.specs.declared.set.Write.{Write};
ghost use Rattle.write_set.specs.Writes.{writes, Lacks};
ghost use Rattle.transaction_part.specs.declared.part.Seen.{Seen};
ghost use Rattle.transaction_part.specs.Part.{AreChecked, IsLocked, IsWritten, log};
ghost use Rattle.transaction_part.specs.Running.{HoldsBelow, Runs, WasChecked, WasRefused};
ghost use Rattle.transaction_part.specs.Stories.{SameStory};

use crate::part::{Part, Seen, paced, take_pass};
use a1_base::{Addr, TxnId};
use farm_node::CheckFault;
use node_turns::{Standing, begin_turn, check_there, end_turn};
use std::sync::Wait;
use turnstile::{Turn, Turnstile};
use write_set::WriteSet;

impl Part {
    /// Checks at the stamp `w` of the commit all that the transaction read at this node, the one of the number `node`
    /// among `nodes`, and does not write. It waits for its turns. The first that no longer stands is answered with its
    /// address.
    pub fn check_all<R: Wait>(
        &mut self,
        rt: &R,
        lock: &Turnstile<Standing>,
        reads: &[Seen],
        node: u32,
        nodes: u32,
        t: TxnId,
        r: u64,
        w: u64,
    ) -> Result<(), (Addr, CheckFault)>
        requires locked { IsLocked lock.now t r w self.old }
        requires nodes { 0 < nodes }
        requires stamps { IsStamp r × IsStamp w }
        ensures locked { IsLocked lock.now t r w self.new }
        ensures checked { OnOk result (AreChecked t r w node nodes reads.now self.new) }
        ensures fault { IfErr result (λ e. WasRefused t e.0 r e.1 (log self.new)) }
        ensures writes { self.new.writes ≡ self.old.writes }
        ensures grown { BeginsWith (log self.new) (log self.old) }
        ensures quiet { SameStory t.actor (log self.old) (log self.new) }
    {
        if !needs_check(reads, &self.writes, node, nodes) {
            return Ok(());
        }
        let pass = take_pass(&mut self.pass, lock, t.actor);
        let turn = begin_turn(rt, lock, pass, t.actor);
        let (turn, answer) = check_each(rt, lock, turn, reads, &self.writes, node, nodes, t, r, w);
        self.pass = Some(end_turn(lock, turn, t.actor));
        answer
    }
}

// Whether something was read at the node and is not written.
fn needs_check(reads: &[Seen], set: &WriteSet, node: u32, nodes: u32) -> bool
    requires { 0 < nodes }
    ensures { result ≡ false → (s : Seen) → IsAmong s reads.now → s.at.region % nodes ≡ node
        → Lacks (writes set.now) s.at → ⊥ }
{
    for seen in reads {
        if is_read(seen.at, set, node, nodes) {
            return true;
        }
    }
    false
}

// Whether an address is one of the node and is not written.
fn is_read(at: Addr, set: &WriteSet, node: u32, nodes: u32) -> bool
    requires { 0 < nodes }
    ensures { IsTrue result ↔ ((at.region % nodes ≡ node) × Lacks (writes set.now) at) }
{
    at.region % nodes == node && set.index_of(at).is_none()
}

// Checks one read after another.
fn check_each<R: Wait>(
    rt: &R,
    lock: &Turnstile<Standing>,
    mut turn: Turn<Standing>,
    reads: &[Seen],
    set: &WriteSet,
    node: u32,
    nodes: u32,
    t: TxnId,
    r: u64,
    w: u64,
) -> (Turn<Standing>, Result<(), (Addr, CheckFault)>)
    requires inside { IsInside lock.now t.actor turn }
    requires nodes { 0 < nodes }
    requires stamps { IsStamp r × IsStamp w }
    requires runs { Runs t r (IsWritten (writes set.now)) (entered turn) }
    requires holds { (x : Write) → IsAmong x (writes set.now) → HoldsBelow t x.at w (replay (entered turn)) }
    ensures inside { IsInside lock.now t.actor result.0 }
    ensures runs { Runs t r (IsWritten (writes set.now)) (entered result.0) }
    ensures holds { (x : Write) → IsAmong x (writes set.now) → HoldsBelow t x.at w (replay (entered result.0)) }
    ensures checked { OnOk result.1 ((s : Seen) → IsAmong s reads.now → s.at.region % nodes ≡ node
        → Lacks (writes set.now) s.at → WasChecked t s.at r w (entered result.0)) }
    ensures fault { IfErr result.1 (λ e. WasRefused t e.0 r e.1 (entered result.0)) }
    ensures grown { BeginsWith (entered result.0) (entered turn) }
    ensures quiet { SameStory t.actor (entered turn) (entered result.0) }
{
    for index in 0..reads.len() {
        let at = reads[index].at;
        if is_read(at, set, node, nodes) {
            turn = paced(rt, lock, turn, t.actor, index);
            let (left, answer) = check_there(lock, turn, t, at, r, w);
            turn = left;
            if let Err(fault) = answer {
                return (turn, Err((at, fault)));
            }
        }
    }
    (turn, Ok(()))
}
