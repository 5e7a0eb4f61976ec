//! How a farm ends.
ghost use Rattle.std.specs.Prelude.{◌≡◌, ◌<◌, ◌≤◌, ◌∷◌, [], length, vec_capacity, vec_len};
ghost use Rattle.a1_base.specs.Lists.{IsAmong, entries_of};
ghost use Rattle.farm_node.specs.Node.{StandsFor};
ghost use Rattle.farm_node.specs.Story.{number_of};
ghost use Rattle.turnstile.specs.Entries.{HasAll};
ghost use Rattle.turnstile.specs.Passes.{first_value, numbers, pass_count};
ghost use Rattle.node_turns.specs.Standing.{begins_with};
ghost use Rattle.snapshot_stamps.specs.Seats.{ClockCloses, IsSeatOf, watch};
ghost use Rattle.snapshot_stamps.proofs.Closing.{Gathered};
ghost use Rattle.transaction_part.specs.Part.{SitsAt, log_in};
ghost use Rattle.farm_commit.specs.declared.actor.Actor.{Actor};
ghost use Rattle.farm_commit.specs.Closing.{AreAll, ClosesNodes, seats_of};
ghost use Rattle.farm_commit.specs.Ending.{EndsAll, IsAt, IsThere, IsWhole, Joins, JoinsAll, Knows};
ghost use Rattle.farm_commit.specs.Parts.{EachPart};

use crate::actor::Actor;
use crate::farm::Farm;
use farm_node::Node;
use node_turns::Standing;
use snapshot_stamps::{StampSeat, Stamps};
use transaction_part::Part;
use turnstile::{Pass, Turnstile};

/// The nodes of a farm that has ended, in the order of their numbers, and where its clock stands, at most 2^62 - 1.
#[derive(Drop)]
pub struct Closed {
    pub nodes: Vec<Node>,
    pub clock: u64,
}

// The pass that is at hand.
fn take_there(place: &mut Option<Pass<Standing>>, _lock: &Turnstile<Standing>) -> Pass<Standing>
    requires { IsThere _lock.now place.old }
    ensures { IsAt _lock.now result place.old }
{
    let Some(pass) = place.take() else {
        unreachable!()
    };
    pass
}

// Joins a pass to another.
fn join_pass(
    lock: &Turnstile<Standing>,
    into: &mut Option<Pass<Standing>>,
    from: &mut Option<Pass<Standing>>,
)
    requires { IsThere lock.now into.old × IsThere lock.now from.old }
    ensures { Joins lock.now into.old from.old into.new }
{
    let first = take_there(into, lock);
    let second = take_there(from, lock);
    *into = Some(lock.join(first, second));
}

// Joins the passes of an actor to those of others, node by node.
fn join_parts(locks: &[Turnstile<Standing>], into: &mut Vec<Part>, mut row: Vec<Part>)
    requires into { EachPart locks.now (λ _ l p. IsThere l p.pass) into.old.items }
    requires row { EachPart locks.now (λ _ l p. IsThere l p.pass) row.items }
    ensures { JoinsAll locks.now row.items into.old.items into.new.items }
{
    for node in 0..locks.len() {
        join_pass(&locks[node], &mut into[node].pass, &mut row[node].pass);
    }
}

// All actors in one: a seat with all lanes, and a part at each node with all passes.
fn all_in_one(
    stamps: &Stamps,
    locks: &[Turnstile<Standing>],
    mut actors: Vec<Actor>,
) -> (StampSeat, Vec<Part>)
    requires some { 0 < length actors.items }
    requires seats { (a : Actor) → IsAmong a actors.items → IsSeatOf stamps.now a.seat }
    requires parts { (a : Actor) → IsAmong a actors.items
        → EachPart locks.now (λ _ l p. SitsAt l a.number p) a.parts.items }
    ensures seat { IsSeatOf stamps.now result.0 }
    ensures gathered { Gathered (seats_of actors.items) [] (watch result.0) }
    ensures knows { EachPart locks.now (Knows actors.items) result.1.items }
{
    let Some(first) = actors.pop() else {
        unreachable!()
    };
    let Actor {
        number: _,
        begun: _,
        mut seat,
        mut parts,
        reads: _,
    } = first;
    while let Some(actor) = actors.pop() {
        let Actor {
            number: _,
            begun: _,
            seat: other,
            parts: row,
            reads: _,
        } = actor;
        seat = stamps.unite(seat, other);
        join_parts(locks, &mut parts, row);
    }
    (seat, parts)
}

// Takes the node out of each turnstile, in order.
fn close_nodes(
    locks: Vec<Turnstile<Standing>>,
    mut parts: Vec<Part>,
    mut room: Vec<Node>,
) -> Vec<Node>
    requires whole { EachPart locks.items (λ _ l p. IsWhole l p) parts.items }
    requires room { (vec_len room ≡ 0) × (length locks.items ≤ vec_capacity room) }
    ensures { EndsAll locks.items parts.items result.items }
{
    for lock in locks {
        let node = close_node(lock, &mut parts[room.len()].pass);
        room.push_reserved(node);
    }
    room
}

// Takes the node out of a turnstile.
fn close_node(lock: Turnstile<Standing>, place: &mut Option<Pass<Standing>>) -> Node
    requires { (t : IsThere lock place.old) × HasAll (pass_count lock) (numbers t.0) }
    ensures stands { StandsFor result (log_in place.old) }
    ensures first { entries_of number_of 0 (log_in place.old) ≡ begins_with (first_value lock) ∷ [] }
{
    let pass = take_there(place, &lock);
    lock.close(pass).into_node()
}

impl Farm {
    /// Ends the farm with all its actors, none of which has a transaction, and gives its nodes and its clock. It waits
    /// for nothing, and takes no memory.
    pub fn close(self, actors: Vec<Actor>) -> Closed
        requires all { AreAll self actors.items }
        ensures nodes { ClosesNodes self.locks.items actors.items result.nodes.items }
        ensures clock { ClockCloses self.stamps (seats_of actors.items) result.clock }
    {
        let Farm {
            stamps,
            locks,
            nodes: _,
            actors: _,
            room,
        } = self;
        let (seat, parts) = all_in_one(&stamps, locks.as_slice(), actors);
        Closed {
            clock: stamps.close_with(seat),
            nodes: close_nodes(locks, parts, room),
        }
    }
}
