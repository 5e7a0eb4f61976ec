//! Events as data, which a node is made to answer. What each call requires is asserted.
ghost use Rattle.std.specs.Prelude.{◌≡◌, ◌≤◌, ◌<◌, ◌↔◌, None, IsTrue};
ghost use Rattle.farm_node.specs.NodeState.{PinnedBy, HeldBy, MayLock, MayPut};
ghost use Rattle.farm_node.specs.Node.{plain_of};

use crate::entry::{CheckFault, Collected, Found, Locked, Placed};
use crate::faults::{LockFault, PlaceFault, ReadFault};
use crate::node::Node;
use a1_base::{Addr, Bin, STAMP_LIMIT, TxnId};
use std::alloc::{AllocError, Global};
use std::process::Abort;

/// An event with its arguments.
#[derive(Clone, Copy, Debug)]
pub enum Event {
    Open(u32, u64),
    Shut(u32),
    Read(u32, Addr, u64),
    Alloc(TxnId, u64, &'static str),
    Lock(TxnId, Addr, u64, Option<&'static str>),
    Check(TxnId, Addr, u64, u64),
    Put(TxnId, Addr, u64),
    Unlock(TxnId, Addr),
    Collect(u64),
}

use Event::{Alloc, Check, Collect, Lock, Open, Put, Read, Shut, Unlock};

fn is_unpinned(node: &Node, actor: u32) -> bool
    ensures { IsTrue result
        → (0 < actor) × (actor ≤ (plain_of node.now).actors) × ((plain_of node.now).pins actor ≡ None) }
{
    match node.pins.get(actor as usize) {
        Some(pin) => actor > 0 && pin.is_none(),
        None => false,
    }
}

fn is_pinned(node: &Node, actor: u32, s: u64) -> bool
    ensures { IsTrue result → PinnedBy (plain_of node.now) actor s }
{
    match node.pins.get(actor as usize) {
        Some(Some(pin)) => *pin <= s,
        _ => false,
    }
}

#[tactic(auto, using(crate::proofs::Holders::holds_iff))]
fn holds(node: &Node, t: TxnId, at: Addr) -> bool
    ensures { IsTrue result ↔ HeldBy (plain_of node.now) t at }
{
    node.holds(t, at)
}

#[tactic(auto, using(crate::proofs::Holders::may_iff))]
fn may_lock(node: &Node, t: TxnId, at: Addr, r: u64) -> bool
    ensures { IsTrue result ↔ MayLock (plain_of node.now) t at r }
{
    node.may_lock(t, at, r)
}

fn may_put(node: &Node, t: TxnId, at: Addr, w: u64) -> bool
    ensures { IsTrue result → MayPut (plain_of node.now) t at w }
{
    match node.objects.get(&at) {
        Some(object) => object.is_held_by(t) && object.bound() < w,
        None => false,
    }
}

fn held(alloc: Global, by: TxnId) -> Result<String, AllocError> {
    format!(in alloc; "held {}.{}", by.actor, by.number)
}

fn changed(alloc: Global, seen: u64, now: u64) -> Result<String, AllocError> {
    format!(in alloc; "changed {seen} {now}")
}

fn open(rt: &impl Abort, node: &mut Node, actor: u32, c: u64) -> u64 {
    assert!(rt; is_unpinned(node, actor));
    assert!(rt; c < STAMP_LIMIT);
    node.open(actor, c)
}

fn read(
    rt: &impl Abort,
    alloc: Global,
    node: &mut Node,
    actor: u32,
    at: Addr,
    s: u64,
) -> Result<String, AllocError> {
    assert!(rt; is_pinned(node, actor, s));
    assert!(rt; s < STAMP_LIMIT);
    match node.read(alloc, actor, at, s) {
        Ok(Found { stamp, value: None }) => format!(in alloc; "absent {stamp}"),
        Ok(
            Found {
                stamp,
                value: Some(bytes),
            },
        ) => {
            let text = String::from_utf8_lossy(alloc, bytes.as_slice())?;
            format!(in alloc; "value {stamp} {text}")
        }
        Err(ReadFault::Held { by }) => held(alloc, by),
        Err(ReadFault::Memory) => Err(AllocError),
    }
}

fn make(
    rt: &impl Abort,
    alloc: Global,
    node: &mut Node,
    t: TxnId,
    r: u64,
    text: &str,
) -> Result<String, AllocError> {
    assert!(rt; is_pinned(node, t.actor, r));
    assert!(rt; r < STAMP_LIMIT);
    let bytes = Bin::from_slice(alloc, text.as_bytes())?;
    match node.alloc(alloc, t, r, bytes) {
        Ok(Placed { at, bound }) => format!(in alloc; "placed {}:{} {bound}", at.region, at.offset),
        Err(PlaceFault::Spent) => format!(in alloc; "spent"),
        Err(PlaceFault::Memory) => Err(AllocError),
    }
}

fn lock(
    rt: &impl Abort,
    alloc: Global,
    node: &mut Node,
    t: TxnId,
    at: Addr,
    r: u64,
    text: Option<&str>,
) -> Result<String, AllocError> {
    assert!(rt; may_lock(node, t, at, r));
    assert!(rt; is_pinned(node, t.actor, r));
    assert!(rt; r < STAMP_LIMIT);
    let new = match text {
        Some(text) => Some(Bin::from_slice(alloc, text.as_bytes())?),
        None => None,
    };
    match node.lock(t, at, r, new) {
        Ok(Locked { seen, bound }) => format!(in alloc; "locked {seen} {bound}"),
        Err(LockFault::Held { by }) => held(alloc, by),
        Err(LockFault::Changed { seen, now }) => changed(alloc, seen, now),
        Err(LockFault::Memory) => Err(AllocError),
    }
}

fn check(
    rt: &impl Abort,
    alloc: Global,
    node: &mut Node,
    t: TxnId,
    at: Addr,
    r: u64,
    w: u64,
) -> Result<String, AllocError> {
    assert!(rt; is_pinned(node, t.actor, r));
    assert!(rt; !holds(node, t, at));
    assert!(rt; r < STAMP_LIMIT);
    assert!(rt; w < STAMP_LIMIT);
    match node.check(t, at, r, w) {
        Ok(()) => format!(in alloc; "same"),
        Err(CheckFault::Held { by }) => held(alloc, by),
        Err(CheckFault::Changed { seen, now }) => changed(alloc, seen, now),
    }
}

fn put(rt: &impl Abort, node: &mut Node, t: TxnId, at: Addr, w: u64) {
    assert!(rt; may_put(node, t, at, w));
    assert!(rt; w < STAMP_LIMIT);
    node.put(t, at, w);
}

fn collect(rt: &impl Abort, alloc: Global, node: &mut Node, f: u64) -> Result<String, AllocError> {
    assert!(rt; f < STAMP_LIMIT);
    let Collected {
        floor,
        versions,
        objects,
    } = node.collect(f);
    format!(in alloc; "floor {floor} versions {versions} objects {objects}")
}

/// What the node answers to an event, as a text.
pub fn play(
    rt: &impl Abort,
    alloc: Global,
    node: &mut Node,
    event: Event,
) -> Result<String, AllocError> {
    match event {
        Open(actor, c) => format!(in alloc; "at {}", open(rt, node, actor, c)),
        Shut(actor) => {
            assert!(rt; is_pinned(node, actor, u64::MAX));
            node.shut(actor);
            format!(in alloc; "shut")
        }
        Read(actor, at, s) => read(rt, alloc, node, actor, at, s),
        Alloc(t, r, text) => make(rt, alloc, node, t, r, text),
        Lock(t, at, r, text) => lock(rt, alloc, node, t, at, r, text),
        Check(t, at, r, w) => check(rt, alloc, node, t, at, r, w),
        Put(t, at, w) => {
            put(rt, node, t, at, w);
            format!(in alloc; "put")
        }
        Unlock(t, at) => {
            assert!(rt; holds(node, t, at));
            node.unlock(t, at);
            format!(in alloc; "unlocked")
        }
        Collect(f) => collect(rt, alloc, node, f),
    }
}

/// Plays events in turn, and asserts that each has its answer.
pub fn play_all(
    rt: &impl Abort,
    alloc: Global,
    node: &mut Node,
    events: &[(Event, &str)],
) -> Result<(), AllocError> {
    for (event, want) in events {
        let answer = play(rt, alloc, node, *event)?;
        assert_eq!(rt; answer.as_str(), *want, "at {event:?}");
    }
    Ok(())
}
