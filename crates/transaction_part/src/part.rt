//! A transaction's part at one node.
ghost use Rattle.std.specs.Prelude.{◌≡◌, [], Some, None};
ghost use Rattle.turnstile.specs.Passes.{entered};
ghost use Rattle.node_turns.specs.Turned.{GoesOn, IsInside, Sits};
ghost use Rattle.transaction_part.specs.Part.{SitsIn};

use a1_base::Addr;
use farm_node::Found;
use node_turns::{Standing, begin_turn, end_turn, next_turn};
use std::alloc::Global;
use std::snapshot::Snapshot;
use std::sync::Wait;
use turnstile::{Pass, Turn, Turnstile};
use write_set::WriteSet;

/// After so many events a turn lets others have theirs.
const TURN_EVENTS: usize = 64;

/// What was read at an address. The bytes went to who asked, and only contracts speak of them here.
#[derive(Drop)]
pub struct Seen {
    pub at: Addr,
    pub found: Snapshot<Found>,
}

/// A transaction's part at a node: the actor's pass, none while it is lent, and what the transaction will write there.
#[derive(Drop)]
pub struct Part {
    pub pass: Option<Pass<Standing>>,
    pub writes: WriteSet,
}

impl Part {
    ghost use Rattle.transaction_part.specs.Part.{written};

    /// The part of an actor without a transaction.
    pub fn new(alloc: Global, pass: Pass<Standing>) -> Part
        ensures pass { result.pass ≡ Some pass }
        ensures none { written result ≡ [] }
    {
        Part {
            pass: Some(pass),
            writes: WriteSet::new(alloc),
        }
    }
}

// The pass, taken from its place.
pub(crate) fn take_pass(
    place: &mut Option<Pass<Standing>>,
    _lock: &Turnstile<Standing>,
    _actor: u32,
) -> Pass<Standing>
    requires sits { SitsIn _lock.now _actor place.old }
    ensures was { place.old ≡ Some result }
    ensures sits { Sits _lock.now _actor result }
    ensures gone { place.new ≡ None }
{
    let Some(pass) = place.take() else {
        unreachable!()
    };
    pass
}

// Lets others have their turns in between, where so many events were made.
pub(crate) fn paced<R: Wait>(
    rt: &R,
    lock: &Turnstile<Standing>,
    turn: Turn<Standing>,
    actor: u32,
    event: usize,
) -> Turn<Standing>
    requires inside { IsInside lock.now actor turn }
    ensures inside { IsInside lock.now actor result }
    ensures goes_on { GoesOn actor (entered turn) (entered result) }
{
    if event % TURN_EVENTS == TURN_EVENTS - 1 {
        next_turn(rt, lock, turn, actor)
    } else {
        turn
    }
}
