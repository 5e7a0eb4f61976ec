//! Lists of events with the answers that the rules of a node give by hand.
ghost use Rattle.std.specs.Prelude.{◌≡◌, [], ◌∷◌, IfOk};
ghost use Rattle.farm_node.specs.Cell.{Bytes};

mod by_chance;
mod kind;
mod playing;
mod random;
mod replay;

use super::Node;
use a1_base::{Addr, Bin, Memory, TxnId};
use playing::Event::{Alloc, Check, Collect, Lock, Open, Put, Read, Shut, Unlock};
use playing::play_all;
use std::alloc::{AllocError, Global};
use std::test::Fail;

const A: Addr = Addr {
    region: 0,
    offset: 0,
};

const B: Addr = Addr {
    region: 1,
    offset: 0,
};

const C: Addr = Addr {
    region: 0,
    offset: 1,
};

const D: Addr = Addr {
    region: 0,
    offset: 2,
};

fn txn(actor: u32, number: u64) -> TxnId {
    TxnId { actor, number }
}

fn two_objects(alloc: Global) -> Result<Vec<(Addr, Bin)>, AllocError>
    ensures { IfOk result (λ v. (x : Bytes) × (y : Bytes) × (v.items ≡ (A, x) ∷ (B, y) ∷ [])) }
{
    let mut objects = Vec::new(alloc);
    objects.push((A, Bin::from_slice(alloc, b"aa")?))?;
    objects.push((B, Bin::from_slice(alloc, b"bb")?))?;
    Ok(objects)
}

// The node number 0 of 1 for five actors, which has an object at A and one at B.
fn node_of_two(alloc: Global) -> Result<Node, Memory> {
    let mut node = Node::new(alloc, 0, 1, 5, 1)?;
    node.load(alloc, two_objects(alloc)?)?;
    Ok(node)
}

#[test]
fn begins_with_what_is_loaded(rt: HostRuntime) -> Result<(), Fail> {
    let empty = Node::new(rt.alloc(), 1, 2, 5, 1)?;
    assert_eq!(rt; (empty.counts(), empty.regions()), ((0, 0), 0));
    let node = node_of_two(rt.alloc())?;
    assert_eq!(rt; (node.counts(), node.regions()), ((2, 2), 2));
    Ok(())
}

// Each of two transactions reads what the other writes.
#[test]
fn refuses_write_skew(rt: HostRuntime) -> Result<(), Fail> {
    let mut node = node_of_two(rt.alloc())?;
    let (t, u) = (txn(1, 1), txn(2, 1));
    play_all(
        &rt,
        rt.alloc(),
        &mut node,
        &[
            (Open(1, 1), "at 1"),
            (Open(2, 1), "at 1"),
            (Read(1, A, 1), "value 1 aa"),
            (Read(1, B, 1), "value 1 bb"),
            (Read(2, A, 1), "value 1 aa"),
            (Read(2, B, 1), "value 1 bb"),
            (Lock(t, A, 1, Some("a1")), "locked 1 1"),
            (Check(t, B, 1, 2), "same"),
            (Put(t, A, 2), "put"),
            (Lock(u, B, 1, Some("b2")), "locked 1 2"),
            (Check(u, A, 1, 3), "changed 1 2"),
            (Unlock(u, B), "unlocked"),
            (Shut(2), "shut"),
            (Shut(1), "shut"),
        ],
    )?;
    Ok(())
}

#[test]
fn reads_below_a_later_version_under_a_lock(rt: HostRuntime) -> Result<(), Fail> {
    let mut node = node_of_two(rt.alloc())?;
    let (t, u) = (txn(1, 1), txn(3, 1));
    play_all(
        &rt,
        rt.alloc(),
        &mut node,
        &[
            (Open(1, 1), "at 1"),
            (Open(2, 1), "at 1"),
            (Lock(t, A, 1, Some("ab")), "locked 1 1"),
            (Read(2, A, 1), "held 1.1"),
            (Put(t, A, 2), "put"),
            (Shut(1), "shut"),
            (Open(3, 2), "at 2"),
            (Lock(u, A, 2, Some("ac")), "locked 2 2"),
            (Read(2, A, 1), "value 1 aa"),
        ],
    )?;
    Ok(())
}

#[test]
fn makes_a_freed_place_anew(rt: HostRuntime) -> Result<(), Fail> {
    let mut node = node_of_two(rt.alloc())?;
    let (t, u) = (txn(1, 1), txn(4, 1));
    play_all(
        &rt,
        rt.alloc(),
        &mut node,
        &[
            (Open(1, 1), "at 1"),
            (Lock(t, A, 1, None), "locked 1 1"),
            (Put(t, A, 2), "put"),
            (Shut(1), "shut"),
            (Open(2, 2), "at 2"),
            (Shut(2), "shut"),
            (Open(3, 3), "at 3"),
            (Read(3, A, 3), "absent 2"),
            (Shut(3), "shut"),
            (Collect(3), "floor 3 versions 2 objects 1"),
            (Open(4, 3), "at 3"),
            (Alloc(u, 3, "dd"), "placed 0:0 3"),
            (Open(5, 4), "at 4"),
            (Read(5, A, 4), "held 4.1"),
            (Put(u, A, 4), "put"),
            (Read(5, A, 4), "value 4 dd"),
        ],
    )?;
    Ok(())
}

#[test]
fn makes_its_first_object(rt: HostRuntime) -> Result<(), Fail> {
    let mut node = Node::new(rt.alloc(), 1, 2, 5, 1)?;
    let t = txn(2, 1);
    play_all(
        &rt,
        rt.alloc(),
        &mut node,
        &[
            (Open(2, 2), "at 2"),
            (Alloc(t, 2, "cc"), "placed 1:0 2"),
            (Put(t, B, 3), "put"),
            (Shut(2), "shut"),
            (Collect(3), "floor 3 versions 0 objects 0"),
        ],
    )?;
    assert_eq!(rt; (node.counts(), node.regions()), ((1, 1), 1));
    Ok(())
}

#[test]
fn keeps_what_a_pinned_actor_may_read(rt: HostRuntime) -> Result<(), Fail> {
    let mut node = node_of_two(rt.alloc())?;
    let t = txn(2, 1);
    play_all(
        &rt,
        rt.alloc(),
        &mut node,
        &[
            (Open(1, 1), "at 1"),
            (Open(2, 1), "at 1"),
            (Lock(t, A, 1, Some("ab")), "locked 1 1"),
            (Put(t, A, 2), "put"),
            (Shut(2), "shut"),
            (Collect(2), "floor 1 versions 0 objects 0"),
            (Read(1, A, 1), "value 1 aa"),
            (Shut(1), "shut"),
            (Collect(2), "floor 2 versions 1 objects 0"),
        ],
    )?;
    Ok(())
}

// The life of an object, from its lock to the place's next object.
#[test]
fn answers_at_an_object(rt: HostRuntime) -> Result<(), Fail> {
    let mut node = node_of_two(rt.alloc())?;
    let (t, u, v, w) = (txn(1, 1), txn(1, 2), txn(2, 1), txn(3, 1));
    play_all(
        &rt,
        rt.alloc(),
        &mut node,
        &[
            (Open(1, 1), "at 1"),
            (Open(2, 1), "at 1"),
            (Lock(t, A, 1, Some("a2")), "locked 1 1"),
            (Check(v, A, 1, 2), "held 1.1"),
            (Put(t, A, 3), "put"),
            (Lock(u, A, 3, None), "locked 3 3"),
            (Read(2, A, 1), "value 1 aa"),
            (Read(2, A, 3), "held 1.2"),
            (Lock(v, A, 1, Some("a4")), "held 1.2"),
            (Put(u, A, 4), "put"),
            (Lock(v, A, 1, Some("a4")), "changed 1 4"),
            (Check(v, A, 1, 5), "changed 1 4"),
            (Read(2, A, 5), "absent 4"),
            (Shut(1), "shut"),
            (Collect(5), "floor 1 versions 0 objects 0"),
            (Shut(2), "shut"),
            (Collect(4), "floor 4 versions 3 objects 1"),
            (Open(3, 2), "at 4"),
            (Alloc(w, 4, "a6"), "placed 0:0 5"),
            (Read(3, A, 9), "held 3.1"),
        ],
    )?;
    Ok(())
}

// What is read, checked or given back where no object is, bars the puts of the next one.
#[test]
fn answers_where_no_object_is(rt: HostRuntime) -> Result<(), Fail> {
    let mut node = node_of_two(rt.alloc())?;
    let (t, u, v) = (txn(1, 1), txn(2, 1), txn(1, 2));
    play_all(
        &rt,
        rt.alloc(),
        &mut node,
        &[
            (Open(1, 1), "at 1"),
            (Open(2, 1), "at 1"),
            (Alloc(t, 6, "cc"), "placed 0:1 6"),
            (Lock(t, C, 6, None), "locked 0 6"),
            (Check(t, B, 6, 7), "same"),
            (Lock(u, B, 1, Some("b8")), "locked 1 7"),
            (Unlock(u, B), "unlocked"),
            (Read(2, B, 1), "value 1 bb"),
            (Unlock(t, C), "unlocked"),
            (Alloc(u, 1, "ce"), "placed 0:1 6"),
            (Unlock(u, C), "unlocked"),
            (Read(2, C, 8), "absent 0"),
            (Alloc(u, 1, "cf"), "placed 0:1 8"),
            (Put(u, C, 9), "put"),
            (Read(1, C, 9), "value 9 cf"),
            (Read(1, C, 8), "absent 0"),
            (Check(v, D, 1, 11), "same"),
            (Alloc(v, 1, "dd"), "placed 0:2 11"),
            (Collect(20), "floor 1 versions 0 objects 0"),
        ],
    )?;
    Ok(())
}
