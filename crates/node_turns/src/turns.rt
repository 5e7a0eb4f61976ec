//! Entering a node and leaving it.
ghost use Rattle.std.specs.Prelude.{◌≡◌};
ghost use Rattle.turnstile.specs.Passes.{seen, entered};
ghost use Rattle.node_turns.specs.Turned.{Sits, IsInside, GoesOn};

use crate::standing::Standing;
use std::sync::Wait;
use turnstile::{Pass, Turn, Turnstile};

/// Waits for its turn at a node. Since the pass was there, the list went on by entries of others alone.
pub fn begin_turn<R: Wait>(
    rt: &R,
    lock: &Turnstile<Standing>,
    pass: Pass<Standing>,
    _actor: u32,
) -> Turn<Standing>
    requires sits { Sits lock.now _actor pass }
    ensures inside { IsInside lock.now _actor result }
    ensures goes_on { GoesOn _actor (seen pass) (entered result) }
{
    lock.enter(rt, pass)
}

/// Ends a turn at a node.
pub fn end_turn(lock: &Turnstile<Standing>, turn: Turn<Standing>, _actor: u32) -> Pass<Standing>
    requires inside { IsInside lock.now _actor turn }
    ensures sits { Sits lock.now _actor result }
    ensures seen { seen result ≡ entered turn }
{
    lock.leave(turn)
}

/// Lets others have their turns in between.
pub fn next_turn<R: Wait>(
    rt: &R,
    lock: &Turnstile<Standing>,
    turn: Turn<Standing>,
    actor: u32,
) -> Turn<Standing>
    requires inside { IsInside lock.now actor turn }
    ensures inside { IsInside lock.now actor result }
    ensures goes_on { GoesOn actor (entered turn) (entered result) }
{
    let pass = end_turn(lock, turn, actor);
    begin_turn(rt, lock, pass, actor)
}
