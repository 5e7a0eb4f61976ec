//! How a transaction begins at a node.
ghost use Rattle.std.specs.Prelude.{◌≡◌, ◌<◌, ◌≤◌, ◌∷◌, [], ℕ};
ghost use Rattle.a1_base.specs.declared.place.TxnId.{TxnId};
ghost use Rattle.a1_base.specs.Stamps.{IsStamp};
ghost use Rattle.farm_node.specs.declared.entry.Entry.TheVariants.{Open};
ghost use Rattle.farm_node.specs.NodeState.{replay};
ghost use Rattle.transaction_part.specs.Part.{IsResting, IsRunning, log, written};
ghost use Rattle.transaction_part.specs.Stories.{Went};

use crate::part::{Part, take_pass};
use node_turns::{Standing, begin_turn, end_turn, open_there};
use std::sync::Wait;
use turnstile::Turnstile;

impl Part {
    /// Pins the node for the actor at the greater of the stamp `clock` and the floor, and answers that pin. From then
    /// on a transaction of the actor may run there whose read stamp is at least the pin. It waits for its turn.
    pub fn open<R: Wait>(
        &mut self,
        rt: &R,
        lock: &Turnstile<Standing>,
        actor: u32,
        clock: u64,
    ) -> u64
        requires resting { IsResting lock.now actor self.old }
        requires actor { (0 < actor) × (actor ≤ (replay (log self.old)).actors) }
        requires stamp { IsStamp clock }
        ensures running { (t : TxnId) (r : ℕ) → t.actor ≡ actor → result ≤ r → IsRunning lock.now t r self.new }
        ensures went { Went actor (log self.old) (Open actor clock result ∷ []) (log self.new) }
        ensures none { written self.new ≡ [] }
        ensures pin { (clock ≤ result) × IsStamp result }
    {
        let pass = take_pass(&mut self.pass, lock, actor);
        let turn = begin_turn(rt, lock, pass, actor);
        let (turn, pin) = open_there(lock, turn, actor, clock);
        self.pass = Some(end_turn(lock, turn, actor));
        pin
    }
}
