//! How a farm is made.
ghost use Rattle.std.specs.Prelude.{◌≡◌, ℕ, ◌-◌, ◌<◌, ◌≤◌, [], ◌∷◌, ◌++◌, IfOk, length};
ghost use Rattle.a1_base.specs.declared.limits.TheConstants.{NODE_LIMIT};
ghost use Rattle.a1_base.specs.Stamps.{IsStamp};
ghost use Rattle.turnstile.specs.Entries.{up_to};
ghost use Rattle.turnstile.specs.Passes.{first_value};
ghost use Rattle.snapshot_stamps.specs.Seats.{HaveAllLanes};
ghost use Rattle.node_turns.specs.Standing.{Stands, begins_with};
ghost use Rattle.farm_commit.specs.Nodes.{HavePasses, Lock};
ghost use Rattle.farm_commit.specs.Building.{AreApart, AreLoaded, AreNew, ArePlaces, part_of};
ghost use Rattle.farm_commit.specs.Making.{AreFresh, AreMade, IsFresh, others_of};

use crate::actor::Actor;
use crate::farm::Farm;
use a1_base::{Addr, Bin, Memory};
use node_turns::Standing;
use snapshot_stamps::{StampSeat, Stamps};
use std::alloc::Global;
use transaction_part::Part;
use turnstile::Turnstile;

// Takes the objects of one node from the others.
fn split_heap(
    alloc: Global,
    heap: Vec<(Addr, Bin)>,
    node: u32,
    nodes: u32,
) -> Result<(Vec<(Addr, Bin)>, Vec<(Addr, Bin)>), Memory>
    requires nodes { 0 < nodes }
    ensures part { IfOk result (λ r. r.0.items ≡ part_of nodes node heap.items) }
    ensures others { IfOk result (λ r. r.1.items ≡ others_of nodes node heap.items) }
{
    let mut part = Vec::new(alloc);
    let mut others = Vec::new(alloc);
    for object in heap {
        sort_in(object, &mut part, &mut others, node, nodes)?;
    }
    Ok((part, others))
}

fn sort_in(
    object: (Addr, Bin),
    part: &mut Vec<(Addr, Bin)>,
    others: &mut Vec<(Addr, Bin)>,
    node: u32,
    nodes: u32,
) -> Result<(), Memory>
    requires nodes { 0 < nodes }
    ensures part { IfOk result (λ _. part.new.items ≡ part.old.items ++ part_of nodes node (object ∷ [])) }
    ensures others { IfOk result (λ _. others.new.items ≡ others.old.items ++ others_of nodes node (object ∷ [])) }
{
    if object.0.region % nodes == node {
        part.push(object)?;
        return Ok(());
    }
    others.push(object)?;
    Ok(())
}

// One turnstile more, and the part of all actors there.
fn push_lock(
    alloc: Global,
    locks: &mut Vec<Turnstile<Standing>>,
    parts: &mut Vec<Part>,
    standing: Standing,
    actors: u32,
) -> Result<(), Memory>
    requires actors { 0 < actors }
    requires stands { Stands standing (begins_with standing ∷ []) }
    requires parts { AreFresh locks.old.items (up_to actors) parts.old.items }
    ensures lock { IfOk result (λ _. (l : Lock) × (locks.new.items ≡ locks.old.items ++ l ∷ [])
        × (first_value l ≡ standing)) }
    ensures parts { IfOk result (λ _. AreFresh locks.new.items (up_to actors) parts.new.items) }
    ensures passes { IfOk result (λ _. HavePasses locks.old.items actors → HavePasses locks.new.items actors) }
{
    match Turnstile::new(alloc, standing, actors) {
        Ok((lock, pass)) => {
            locks.push(lock)?;
            parts.push(Part::new(alloc, pass))?;
            Ok(())
        }
        Err(_) => Err(Memory),
    }
}

// The nodes behind their turnstiles, and for each the part of all actors.
fn locks_of(
    alloc: Global,
    heap: Vec<(Addr, Bin)>,
    stamp: u64,
    nodes: u32,
    actors: u32,
) -> Result<(Vec<Turnstile<Standing>>, Vec<Part>), Memory>
    requires nodes { (0 < nodes) × (nodes ≤ NODE_LIMIT) }
    requires actors { 0 < actors }
    requires stamp { (0 < stamp) × IsStamp stamp }
    requires places { ArePlaces nodes heap.items }
    requires apart { AreApart heap.items }
    ensures count { IfOk result (λ r. length r.0.items ≡ nodes) }
    ensures loaded { IfOk result (λ r. AreLoaded r.0.items nodes actors stamp heap.items) }
    ensures passes { IfOk result (λ r. HavePasses r.0.items actors) }
    ensures parts { IfOk result (λ r. AreFresh r.0.items (up_to actors) r.1.items) }
{
    let mut rest = heap;
    let mut locks = Vec::new(alloc);
    let mut parts = Vec::new(alloc);
    for node in 0..nodes {
        let (objects, others) = split_heap(alloc, rest, node, nodes)?;
        rest = others;
        let standing = Standing::new(alloc, objects, node, nodes, actors, stamp)?;
        push_lock(alloc, &mut locks, &mut parts, standing, actors)?;
    }
    Ok((locks, parts))
}

// The part of the actor of the greatest number, cut from that of all up to it.
fn cut_part(alloc: Global, lock: &Turnstile<Standing>, rest: &mut Part, number: u32) -> Part
    requires some { 0 < number }
    requires rest { IsFresh lock.now (up_to number) rest.old }
    ensures own { IsFresh lock.now (number ∷ []) result }
    ensures rest { 1 < number → IsFresh lock.now (up_to (number - 1)) rest.new }
{
    let Some(pass) = rest.pass.take() else {
        unreachable!()
    };
    if number == 1 {
        return Part::new(alloc, pass);
    }
    let (own, others) = lock.split(pass, number);
    rest.pass = Some(others);
    Part::new(alloc, own)
}

// Its parts at all nodes.
fn cut_parts(
    alloc: Global,
    locks: &[Turnstile<Standing>],
    rest: &mut [Part],
    number: u32,
) -> Result<Vec<Part>, Memory>
    requires some { 0 < number }
    requires rest { AreFresh locks.now (up_to number) rest.old }
    ensures own { IfOk result (λ own. AreFresh locks.now (number ∷ []) own.items) }
    ensures rest { IfOk result (λ _. 1 < number → AreFresh locks.now (up_to (number - 1)) rest.new) }
{
    let mut own = Vec::new(alloc);
    for node in 0..locks.len() {
        own.push(cut_part(alloc, &locks[node], &mut rest[node], number))?;
    }
    Ok(own)
}

// The actors, the one of the greatest number first.
fn actors_of(
    alloc: Global,
    locks: &[Turnstile<Standing>],
    _stamps: &Stamps,
    mut rest: Vec<Part>,
    mut seats: Vec<StampSeat>,
    actors: u32,
) -> Result<Vec<Actor>, Memory>
    requires rest { AreFresh locks.now (up_to actors) rest.items }
    requires count { length seats.items ≡ actors }
    requires lanes { HaveAllLanes _stamps.now seats.items }
    ensures { IfOk result (λ all. AreMade locks.now _stamps.now actors [] all.items) }
{
    let mut all = Vec::new(alloc);
    while let Some(seat) = seats.pop() {
        let number = seats.len() as u32 + 1;
        let parts = cut_parts(alloc, locks, &mut rest, number)?;
        let actor = Actor {
            number,
            begun: 0,
            seat,
            parts,
            reads: Vec::new(alloc),
        };
        all.push(actor)?;
    }
    Ok(all)
}

impl Farm {
    /// A farm of so many nodes, from 1 to 16, with these objects, each at the stamp `stamp`, where the clock begins,
    /// and its actors, the one of the greatest number first. `Memory` comes for want of memory alone.
    pub fn new(
        alloc: Global,
        heap: Vec<(Addr, Bin)>,
        stamp: u64,
        nodes: u32,
        actors: u32,
    ) -> Result<(Farm, Vec<Actor>), Memory>
        requires nodes { (0 < nodes) × (nodes ≤ NODE_LIMIT) }
        requires actors { 0 < actors }
        requires stamp { (0 < stamp) × IsStamp stamp }
        requires places { ArePlaces nodes heap.items }
        requires apart { AreApart heap.items }
        ensures farm { IfOk result (λ r. (r.0.nodes ≡ nodes) × (r.0.actors ≡ actors)) }
        ensures loaded { IfOk result (λ r. AreLoaded r.0.locks.items nodes actors stamp heap.items) }
        ensures actors { IfOk result (λ r. AreNew r.0 r.1.items) }
    {
        let room = Vec::with_capacity(alloc, nodes as usize)?;
        let (locks, rest) = locks_of(alloc, heap, stamp, nodes, actors)?;
        let (stamps, seats) = Stamps::new(alloc, actors, stamp)?;
        let all = actors_of(alloc, &locks, &stamps, rest, seats, actors)?;
        let farm = Farm {
            stamps,
            locks,
            nodes,
            actors,
            room,
        };
        Ok((farm, all))
    }
}
