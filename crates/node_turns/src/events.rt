//! The events of a node inside a turn. Each adds its entry to the list, or nothing where memory was wanting or no place
//! was left.
ghost use Rattle.std.specs.Prelude.{◌≡◌, ◌<◌, ◌≤◌, ◌↔◌, ◌++◌, ◌∷◌, [], ℕ, None, Some, Err, IsOk};
ghost use Rattle.std.specs.Option.{option_to_list};
ghost use Rattle.a1_base.specs.Stamps.{IsStamp};
ghost use Rattle.object_region.specs.Occupancy.{IsSpent};
ghost use Rattle.farm_node.specs.declared.entry.Entry.TheVariants.{Open, Shut, Check, Put, Unlock, Collect};
ghost use Rattle.farm_node.specs.Cell.{lock_answer};
ghost use Rattle.farm_node.specs.NodeState.{PinnedBy, HeldBy, MayLock, MayPut, occupancy, replay};
ghost use Rattle.farm_node.specs.State.{holds_there};
ghost use Rattle.farm_node.specs.Answers.{read_entry, alloc_entry, lock_entry};
ghost use Rattle.turnstile.specs.Passes.{entered};
ghost use Rattle.node_turns.specs.Turned.{IsInside};

use crate::standing::Standing;
use crate::told::{
    AllocTold, CheckTold, CollectTold, LockTold, OpenTold, PutTold, ReadTold, ShutTold, UnlockTold,
};
use a1_base::{Addr, Bin, TxnId};
use farm_node::{CheckFault, Collected, Found, LockFault, Locked, PlaceFault, Placed, ReadFault};
use std::alloc::Global;
use std::snapshot::Snapshot;
use turnstile::{Turn, Turnstile};

/// Pins the node for the actor at the greater of `clock` and the floor, and answers that pin.
pub fn open_there(
    lock: &Turnstile<Standing>,
    mut turn: Turn<Standing>,
    actor: u32,
    clock: u64,
) -> (Turn<Standing>, u64)
    requires inside { IsInside lock.now actor turn }
    requires actor { (0 < actor) × (actor ≤ (replay (entered turn)).actors) }
    requires free { (replay (entered turn)).pins actor ≡ None }
    requires stamp { IsStamp clock }
    ensures inside { IsInside lock.now actor result.0 }
    ensures entry { entered result.0 ≡ entered turn ++ Open actor clock result.1 ∷ [] }
{
    let pin = turn.value().inner.node.open(actor, clock);
    (lock.note(turn, &OpenTold { actor, clock, pin }), pin)
}

/// Takes the actor's pin away.
pub fn shut_there(
    lock: &Turnstile<Standing>,
    mut turn: Turn<Standing>,
    actor: u32,
) -> Turn<Standing>
    requires inside { IsInside lock.now actor turn }
    requires pinned { (x : ℕ) × ((replay (entered turn)).pins actor ≡ Some x) }
    ensures inside { IsInside lock.now actor result }
    ensures entry { entered result ≡ entered turn ++ Shut actor ∷ [] }
{
    turn.value().inner.node.shut(actor);
    lock.note(turn, &ShutTold { actor })
}

/// Reads an address at the stamp `s`: the newest version at most `s`, absent with the stamp 0 where there is none.
/// `Held` comes exactly where a transaction holds the address and no version is above `s`, `Memory` for want of memory
/// alone.
pub fn read_there(
    lock: &Turnstile<Standing>,
    alloc: Global,
    mut turn: Turn<Standing>,
    actor: u32,
    at: Addr,
    s: u64,
) -> (Turn<Standing>, Result<Found, ReadFault>)
    requires inside { IsInside lock.now actor turn }
    requires pinned { PinnedBy (replay (entered turn)) actor s }
    requires stamp { IsStamp s }
    ensures inside { IsInside lock.now actor result.0 }
    ensures entry { entered result.0 ≡ entered turn ++ option_to_list (read_entry actor at s result.1) }
{
    let answer = turn.value().inner.node.read(alloc, actor, at, s);
    let told = ReadTold {
        actor,
        at,
        s,
        answer: &answer,
    };
    (lock.note(turn, &told), answer)
}

/// Makes an object for a transaction of the read stamp `r`, which then holds its lock. `Spent` comes exactly where all
/// places of the node are taken, `Memory` for want of memory alone.
pub fn alloc_there(
    lock: &Turnstile<Standing>,
    alloc: Global,
    mut turn: Turn<Standing>,
    t: TxnId,
    r: u64,
    bytes: Bin,
) -> (Turn<Standing>, Result<Placed, PlaceFault>)
    requires inside { IsInside lock.now t.actor turn }
    requires pinned { PinnedBy (replay (entered turn)) t.actor r }
    requires stamp { IsStamp r }
    ensures inside { IsInside lock.now t.actor result.0 }
    ensures entry { entered result.0 ≡ entered turn ++ option_to_list (alloc_entry t r bytes result.1) }
    ensures spent { (result.1 ≡ Err PlaceFault.Spent) ↔ IsSpent (occupancy (replay (entered turn))) }
{
    let told = Snapshot::of(&bytes);
    let answer = turn.value().inner.node.alloc(alloc, t, r, bytes);
    let told = AllocTold {
        t,
        r,
        bytes: told,
        answer: &answer,
    };
    (lock.note(turn, &told), answer)
}

/// Asks for the lock of an address for a transaction of the read stamp `r`, to install `new` under it. `Held` comes
/// exactly where another transaction holds the address, `Changed` exactly where no other does and its newest stamp is
/// above `r`, `Memory` behind both and for want of memory alone.
pub fn lock_there(
    lock: &Turnstile<Standing>,
    mut turn: Turn<Standing>,
    t: TxnId,
    at: Addr,
    r: u64,
    new: Option<Bin>,
) -> (Turn<Standing>, Result<Locked, LockFault>)
    requires inside { IsInside lock.now t.actor turn }
    requires pinned { PinnedBy (replay (entered turn)) t.actor r }
    requires stamp { IsStamp r }
    requires may { MayLock (replay (entered turn)) t at r }
    ensures inside { IsInside lock.now t.actor result.0 }
    ensures entry { entered result.0 ≡ entered turn ++ option_to_list (lock_entry t at r new result.1) }
    ensures order { result.1 ≡ Err LockFault.Memory → IsOk (lock_answer t r ((replay (entered turn)).cells at)) }
{
    let told = Snapshot::of(&new);
    let answer = turn.value().inner.node.lock(t, at, r, new);
    let told = LockTold {
        t,
        at,
        r,
        new: told,
        answer: &answer,
    };
    (lock.note(turn, &told), answer)
}

/// Whether what the transaction read at `r` still stands, on its way to commit at `w`. `Held` comes exactly where
/// another holds the address, `Changed` exactly where no other does and its newest stamp is above `r`.
pub fn check_there(
    lock: &Turnstile<Standing>,
    mut turn: Turn<Standing>,
    t: TxnId,
    at: Addr,
    r: u64,
    w: u64,
) -> (Turn<Standing>, Result<(), CheckFault>)
    requires inside { IsInside lock.now t.actor turn }
    requires pinned { PinnedBy (replay (entered turn)) t.actor r }
    requires stamps { IsStamp r × IsStamp w }
    requires not_own { HeldBy (replay (entered turn)) t at → ⊥ }
    ensures inside { IsInside lock.now t.actor result.0 }
    ensures entry { entered result.0 ≡ entered turn ++ Check t at r w result.1 ∷ [] }
{
    let answer = turn.value().inner.node.check(t, at, r, w);
    let told = CheckTold {
        t,
        at,
        r,
        w,
        answer: &answer,
    };
    (lock.note(turn, &told), answer)
}

/// Installs at `w`, above the bound, the value that waits, and unlocks the address.
pub fn put_there(
    lock: &Turnstile<Standing>,
    mut turn: Turn<Standing>,
    t: TxnId,
    at: Addr,
    w: u64,
) -> Turn<Standing>
    requires inside { IsInside lock.now t.actor turn }
    requires may { MayPut (replay (entered turn)) t at w }
    requires stamp { IsStamp w }
    ensures inside { IsInside lock.now t.actor result }
    ensures entry { entered result ≡ entered turn ++ Put t at w ∷ [] }
{
    turn.value().inner.node.put(t, at, w);
    lock.note(turn, &PutTold { t, at, w })
}

/// Gives the lock of an address up. An object that its transaction made goes with it.
pub fn unlock_there(
    lock: &Turnstile<Standing>,
    mut turn: Turn<Standing>,
    t: TxnId,
    at: Addr,
) -> Turn<Standing>
    requires inside { IsInside lock.now t.actor turn }
    requires held { HeldBy (replay (entered turn)) t at }
    ensures inside { IsInside lock.now t.actor result }
    ensures entry { entered result ≡ entered turn ++ Unlock t at ∷ [] }
{
    turn.value().inner.node.unlock(t, at);
    lock.note(turn, &UnlockTold { t, at })
}

/// Collects with the proposal `f`.
pub fn collect_there(
    lock: &Turnstile<Standing>,
    mut turn: Turn<Standing>,
    actor: u32,
    f: u64,
) -> (Turn<Standing>, Collected)
    requires inside { IsInside lock.now actor turn }
    requires actor { 0 < actor }
    requires stamp { IsStamp f }
    ensures inside { IsInside lock.now actor result.0 }
    ensures entry { entered result.0 ≡ entered turn ++ Collect actor f result.1 ∷ [] }
{
    let removed = turn.value().inner.node.collect(f);
    (lock.note(turn, &CollectTold { actor, f, removed }), removed)
}

/// Whether the transaction has the lock of an address.
pub fn is_held(turn: &Turn<Standing>, t: TxnId, at: Addr, _lock: &Turnstile<Standing>) -> bool
    requires inside { IsInside _lock.now t.actor turn.now }
    ensures { result ≡ holds_there t ((replay (entered turn.now)).cells at) }
{
    turn.get().inner.node.holds(t, at)
}
