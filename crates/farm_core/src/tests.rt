//! Scripts of events over two nodes, and what each event is answered.
ghost use Rattle.std.specs.Prelude.{◌≡◌, ◌≤◌, All, IfOk, IsTrue};
ghost use Rattle.farm_core.specs.Machine.{InRange, IsActor, IsAddr, IsObject, IsNew};
ghost use Rattle.farm_core.specs.Cores.{node_count};

use crate::{Answer, Core, Event};
use a1_base::{Addr, Bin, Memory, TxnId};
use std::alloc::{AllocError, Global};
use std::test::Fail;

fn is_actor(t: TxnId) -> bool
    ensures { IsTrue result → IsActor t }
{
    t.actor > 0 && t.actor <= 35
}

#[tactic(auto, unfolding(object_region::specs::Occupancy::region_count, object_region::specs::Occupancy::width))]
fn is_addr(at: Addr) -> bool
    ensures { IsTrue result → IsAddr 2 at }
{
    at.region < 2_097_152 && at.offset < 4_096
}

fn is_object(bytes: &Bin) -> bool
    ensures { IsTrue result → IsObject bytes.now }
{
    let len = bytes.as_slice().len();
    len > 0 && len <= 65_536
}

fn is_new(new: &Option<Bin>) -> bool
    ensures { IsTrue result → IsNew new.now }
{
    match new {
        Some(bytes) => is_object(bytes),
        None => true,
    }
}

fn is_in_range(event: &Event) -> bool
    ensures { IsTrue result → InRange 2 event.now }
{
    match event {
        Event::Load { at, bytes } => is_addr(*at) && is_object(bytes),
        Event::Begin { t } => is_actor(*t),
        Event::Read { t, at } => is_actor(*t) && is_addr(*at),
        Event::Alloc { t, node, bytes } => is_actor(*t) && *node < 2 && is_object(bytes),
        Event::Lock { t, at, new } => is_actor(*t) && is_addr(*at) && is_new(new),
        Event::Draw { t } => is_actor(*t),
        Event::Check { t, at } => is_actor(*t) && is_addr(*at),
        Event::Put { t, at } => is_actor(*t) && is_addr(*at),
        Event::Unlock { t, at } => is_actor(*t) && is_addr(*at),
        Event::Shut { t } => is_actor(*t),
        Event::Collect { node } => *node < 2,
    }
}

fn all_in_range(events: &[Event]) -> bool
    ensures { IsTrue result → All (InRange 2) events.now }
{
    events.iter().all(is_in_range)
}

fn txn(actor: u32) -> TxnId {
    TxnId { actor, number: 1 }
}

fn at(region: u32) -> Addr {
    Addr { region, offset: 0 }
}

// What one event after another is answered, over two nodes; none if an event is out of range.
fn answered(alloc: Global, events: &[Event]) -> Result<Option<Vec<Answer>>, Memory> {
    let mut core = Core::new(alloc, 2)?;
    if !all_in_range(events) {
        return Ok(None);
    }
    Ok(Some(core.run(alloc, events)?))
}

// One of two transactions that read both objects may not commit behind the other.
fn two_writers(alloc: Global) -> Result<Vec<Event>, AllocError> {
    Ok(vec![in alloc;
        Event::Load {
            at: at(0),
            bytes: Bin::from_slice(alloc, b"a")?
        },
        Event::Load {
            at: at(1),
            bytes: Bin::from_slice(alloc, b"b")?
        },
        Event::Begin { t: txn(1) },
        Event::Begin { t: txn(2) },
        Event::Read {
            t: txn(1),
            at: at(1)
        },
        Event::Read {
            t: txn(2),
            at: at(0)
        },
        Event::Lock {
            t: txn(1),
            at: at(0),
            new: Some(Bin::from_slice(alloc, b"c")?)
        },
        Event::Draw { t: txn(1) },
        Event::Put {
            t: txn(1),
            at: at(0)
        },
        Event::Check {
            t: txn(1),
            at: at(1)
        },
        Event::Put {
            t: txn(1),
            at: at(0)
        },
        Event::Lock {
            t: txn(2),
            at: at(1),
            new: None
        },
        Event::Draw { t: txn(2) },
        Event::Check {
            t: txn(2),
            at: at(0)
        },
        Event::Put {
            t: txn(2),
            at: at(1)
        },
        Event::Unlock {
            t: txn(2),
            at: at(1)
        },
        Event::Shut { t: txn(2) },
        Event::Shut { t: txn(1) },
    ]?)
}

// A place is free again once its object is collected.
fn a_place_again(alloc: Global) -> Result<Vec<Event>, AllocError> {
    Ok(vec![in alloc;
        Event::Load {
            at: at(0),
            bytes: Bin::from_slice(alloc, b"a")?
        },
        Event::Begin { t: txn(1) },
        Event::Lock {
            t: txn(1),
            at: at(0),
            new: None
        },
        Event::Draw { t: txn(1) },
        Event::Put {
            t: txn(1),
            at: at(0)
        },
        Event::Shut { t: txn(1) },
        Event::Collect { node: 0 },
        Event::Begin { t: txn(2) },
        Event::Read {
            t: txn(2),
            at: at(0)
        },
        Event::Alloc {
            t: txn(2),
            node: 0,
            bytes: Bin::from_slice(alloc, b"d")?
        },
        Event::Load {
            at: at(1),
            bytes: Bin::from_slice(alloc, b"b")?
        },
    ]?)
}

#[test]
fn events_are_answered_as_the_table_says(rt: HostRuntime) -> Result<(), Fail> {
    let alloc = rt.alloc();
    let first = answered(alloc, two_writers(alloc)?.as_slice());
    assert_eq!(rt;
        format!(in alloc; "{first:?}")?.as_str(),
        "Ok(Some([Loaded, Loaded, At { stamp: 1 }, At { stamp: 1 }, Value { stamp: 1, bytes: Bin { bytes: [98] } }, \
        Value { stamp: 1, bytes: Bin { bytes: [97] } }, Locked { seen: 1, bound: 1 }, Stamp { stamp: 2 }, No, Same, \
        Put, Locked { seen: 1, bound: 2 }, Stamp { stamp: 3 }, Changed { seen: 1, now: 2 }, No, Unlocked, Shut, Shut]))"
    );
    let second = answered(alloc, a_place_again(alloc)?.as_slice());
    assert_eq!(rt;
        format!(in alloc; "{second:?}")?.as_str(),
        "Ok(Some([Loaded, At { stamp: 1 }, Locked { seen: 1, bound: 1 }, Stamp { stamp: 2 }, Put, Shut, \
        Collected { floor: 2, versions: 2, objects: 1 }, At { stamp: 2 }, Absent { stamp: 0 }, \
        Placed { at: Addr { region: 0, offset: 0 }, bound: 2 }, No]))"
    );
    Ok(())
}
