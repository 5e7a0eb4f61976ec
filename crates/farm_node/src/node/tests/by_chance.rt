//! A node beside its history, under events by chance.
use super::kind::Kind;
use super::playing::{Event, play};
use super::random::Chance;
use super::replay::History;
use super::{A, B, C, D, node_of_two};
use crate::node::Node;
use Event::{Lock, Read};
use a1_base::Addr;
use std::alloc::{AllocError, Global};
use std::process::Abort;
use std::test::Fail;

// Asserts that a node and its history agree in what can be asked before a lock.
fn ask_both(rt: &impl Abort, node: &Node, history: &History, event: Event) {
    let Lock(t, at, r, _) = event else {
        return;
    };
    assert_eq!(rt; node.has_object(at), history.has_object(at), "at {event:?}");
    assert_eq!(rt; node.holds(t, at), history.holds(t, at), "at {event:?}");
    if history.is_pinned(t.actor, r) {
        assert_eq!(rt;
            node.may_lock(t, at, r),
            history.may_lock(t, at, r),
            "at {event:?}"
        );
    }
}

// Asserts that a node and its history answer an event alike, and tells the kind of the answer. An event whose condition
// is not met is left out.
fn play_both(
    rt: &impl Abort,
    alloc: Global,
    node: &mut Node,
    history: &mut History,
    event: Event,
) -> Result<Option<Kind>, AllocError> {
    if !history.allows(event) {
        return Ok(None);
    }
    let answer = history.play(event)?;
    let want = answer.text(alloc)?;
    let got = play(rt, alloc, node, event)?;
    assert_eq!(rt; got.as_str(), want.as_str(), "at {event:?}");
    let is_locked = match event {
        Read(_, at, _) => history.holder(at).is_some(),
        _ => false,
    };
    Ok(Some(Kind::of(event, answer, is_locked)))
}

// Asserts that a node and its history agree through a run of events, and puts the kinds of the answers into a list.
fn run_both(
    rt: &impl Abort,
    alloc: Global,
    node: &mut Node,
    history: &mut History,
    mut chance: Chance,
    kinds: &mut Vec<Kind>,
) -> Result<(), AllocError> {
    for _ in 0..500 {
        let event = chance.event(history);
        ask_both(rt, node, history, event);
        if let Some(kind) = play_both(rt, alloc, node, history, event)? {
            kinds.push(kind)?;
        }
    }
    assert_eq!(rt; node.counts(), history.counts());
    assert_eq!(rt; node.regions(), history.regions());
    Ok(())
}

fn assert_all_came(rt: &impl Abort, kinds: &[Kind]) {
    for kind in Kind::ALL {
        assert!(rt; kinds.contains(&kind), "no answer is {kind:?}");
    }
}

#[test]
fn agrees_with_its_history(rt: HostRuntime) -> Result<(), Fail> {
    let mut kinds = Vec::new(rt.alloc());
    for seed in 1..5 {
        let mut node = node_of_two(rt.alloc())?;
        let mut history = History::new(rt.alloc(), 0, 5, 1);
        history.load(A, "aa")?;
        history.load(B, "bb")?;
        let chance = Chance::new(seed, [A, B, C, D]);
        run_both(&rt, rt.alloc(), &mut node, &mut history, chance, &mut kinds)?;
    }
    assert_all_came(&rt, kinds.as_slice());
    Ok(())
}

#[test]
fn agrees_from_nothing(rt: HostRuntime) -> Result<(), Fail> {
    let places = [0, 1, 2, 3].map(|offset| Addr { region: 1, offset });
    let mut kinds = Vec::new(rt.alloc());
    for seed in 5..9 {
        let mut node = Node::new(rt.alloc(), 1, 3, 5, 7)?;
        let mut history = History::new(rt.alloc(), 1, 5, 7);
        let chance = Chance::new(seed, places);
        run_both(&rt, rt.alloc(), &mut node, &mut history, chance, &mut kinds)?;
    }
    assert_all_came(&rt, kinds.as_slice());
    Ok(())
}
