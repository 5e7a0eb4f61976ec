//! A list of half-edges that grows into a tree and shrinks back to one object.
use crate::{Half, add, find, remove, walk};
use a1_base::{Addr, Bin};
use object_view::{MemView, PartFault, View, look, make};
use std::alloc::Global;
use std::sync::Wait;
use std::test::Fail;
use type_schema::{Header, header_bytes, short_bytes};

pub const GRAPH: Addr = Addr {
    region: 0,
    offset: 9,
};

// The first places of the second of two nodes.
pub const HEADER: Addr = Addr {
    region: 1,
    offset: 0,
};

const OUT: Addr = Addr {
    region: 1,
    offset: 1,
};

const INTO: Addr = Addr {
    region: 1,
    offset: 2,
};

const COUNT: u32 = 1_001;

pub fn half(n: u32) -> Half {
    Half {
        kind: 7,
        far: Addr {
            region: n,
            offset: 1,
        },
        body: Addr {
            region: n,
            offset: 2,
        },
    }
}

// The nth of the numbers below 1,001, each once, scattered.
fn nth(n: u32, factor: u32) -> u32 {
    (u64::from(n).wrapping_mul(u64::from(factor)) % 1_001) as u32
}

fn put<R: Wait>(rt: &R, alloc: Global, view: &mut MemView, bytes: &Bin) -> Result<Addr, PartFault> {
    let bytes = bytes.as_slice();
    if bytes.len() == 0 || bytes.len() > 65_536 || view.nodes() < 2 {
        return Err(PartFault::Tall);
    }
    make(rt, alloc, view, 1, bytes)
}

// A vertex without half-edges on the second of two nodes, and whether its objects lie where they are wanted.
pub fn begin<R: Wait>(rt: &R, alloc: Global, view: &mut MemView) -> Result<bool, PartFault> {
    let fields = Header {
        kind: 4,
        body: GRAPH,
        out: OUT,
        into: INTO,
    };
    let header = put(rt, alloc, view, &header_bytes(alloc, GRAPH, &fields)?)?;
    let out = put(rt, alloc, view, &short_bytes(alloc, HEADER, &[])?)?;
    let into = put(rt, alloc, view, &short_bytes(alloc, HEADER, &[])?)?;
    Ok(header == HEADER && out == OUT && into == INTO)
}

// Whether each of these, scattered, was new.
fn add_some<R: Wait>(
    rt: &R,
    alloc: Global,
    view: &mut MemView,
    from: u32,
    to: u32,
) -> Result<bool, PartFault> {
    let mut all = true;
    for n in from..to {
        if !add(rt, alloc, view, HEADER, true, &half(nth(n, 617)))? {
            all = false;
        }
    }
    Ok(all)
}

// Whether each of these, in another order, was there and is what comes back.
fn remove_some<R: Wait>(
    rt: &R,
    alloc: Global,
    view: &mut MemView,
    from: u32,
    to: u32,
) -> Result<bool, PartFault> {
    let mut all = true;
    for n in from..to {
        let half = half(nth(n, 409));
        if remove(rt, alloc, view, HEADER, true, half.kind, half.far)? != Some(half) {
            all = false;
        }
    }
    Ok(all)
}

// Whether just those are found that are left when so many have gone.
fn finds_left<R: Wait>(
    rt: &R,
    alloc: Global,
    view: &mut MemView,
    gone: u32,
) -> Result<bool, PartFault> {
    let mut all = true;
    for n in 0u32..COUNT {
        let half = half(nth(n, 409));
        let wanted = if n < gone { None } else { Some(half) };
        if find(rt, alloc, view, HEADER, true, half.kind, half.far)? != wanted {
            all = false;
        }
    }
    Ok(all)
}

// The list by walks of so many half-edges each.
fn walked<R: Wait>(
    rt: &R,
    alloc: Global,
    view: &mut MemView,
    out: bool,
    step: u32,
) -> Result<Vec<Half>, PartFault> {
    let mut all: Vec<Half> = Vec::new(alloc);
    for _ in 0u32..COUNT {
        let last = all.as_slice().last().copied();
        let part = walk(rt, alloc, view, HEADER, out, last.as_ref(), step)?;
        if part.len() == 0 {
            return Ok(all);
        }
        for half in &part {
            if all.push(*half).is_err() {
                return Err(PartFault::Memory);
            }
        }
    }
    Ok(all)
}

// Whether these are the half-edges of the numbers below a count, by rising far header.
fn are_all(found: &[Half], count: u32) -> bool {
    found.len() == count as usize && found.iter().zip(0u32..count).all(|(f, n)| *f == half(n))
}

// 0 where the list is one object, 1 where it is over a tree.
fn form<R: Wait>(rt: &R, alloc: Global, view: &mut MemView) -> Result<Option<u8>, PartFault> {
    let bytes = look(rt, alloc, view, OUT)?;
    Ok(bytes.as_slice().get(9).copied())
}

#[test]
fn the_next_after_a_thousand_turns_a_list_into_a_tree(rt: HostRuntime) -> Result<(), Fail> {
    let alloc = rt.alloc();
    let mut view = MemView::new(alloc, 2)?;
    assert_eq!(rt; begin(&rt, alloc, &mut view), Ok(true));
    assert_eq!(rt; add_some(&rt, alloc, &mut view, 0, 1_000), Ok(true));
    assert_eq!(rt; form(&rt, alloc, &mut view), Ok(Some(0)));
    assert_eq!(rt; add_some(&rt, alloc, &mut view, 1_000, COUNT), Ok(true));
    assert_eq!(rt; form(&rt, alloc, &mut view), Ok(Some(1)));
    let again = add(&rt, alloc, &mut view, HEADER, true, &half(1_000));
    assert_eq!(rt; again, Ok(false));
    assert_eq!(rt; finds_left(&rt, alloc, &mut view, 0), Ok(true));
    for step in [10u32, 2_000] {
        let found = walked(&rt, alloc, &mut view, true, step)?;
        assert!(rt; are_all(found.as_slice(), COUNT));
    }
    let others = walked(&rt, alloc, &mut view, false, 10)?;
    assert_eq!(rt; others.len(), 0);
    Ok(())
}

#[test]
fn a_removal_that_leaves_500_turns_it_back(rt: HostRuntime) -> Result<(), Fail> {
    let alloc = rt.alloc();
    let mut view = MemView::new(alloc, 2)?;
    assert_eq!(rt; begin(&rt, alloc, &mut view), Ok(true));
    assert_eq!(rt; add_some(&rt, alloc, &mut view, 0, COUNT), Ok(true));
    assert_eq!(rt; remove_some(&rt, alloc, &mut view, 0, 500), Ok(true));
    assert_eq!(rt; form(&rt, alloc, &mut view), Ok(Some(1)));
    assert_eq!(rt; finds_left(&rt, alloc, &mut view, 500), Ok(true));
    assert_eq!(rt; remove_some(&rt, alloc, &mut view, 500, 501), Ok(true));
    assert_eq!(rt; form(&rt, alloc, &mut view), Ok(Some(0)));
    assert_eq!(rt; finds_left(&rt, alloc, &mut view, 501), Ok(true));
    let gone = half(nth(7, 409));
    let again = remove(&rt, alloc, &mut view, HEADER, true, gone.kind, gone.far);
    assert_eq!(rt; again, Ok(None));
    Ok(())
}

#[test]
fn a_lists_objects_lie_on_its_headers_node(rt: HostRuntime) -> Result<(), Fail> {
    let alloc = rt.alloc();
    let mut view = MemView::new(alloc, 2)?;
    assert_eq!(rt; begin(&rt, alloc, &mut view), Ok(true));
    assert_eq!(rt; add_some(&rt, alloc, &mut view, 0, COUNT), Ok(true));
    let tall = view.into_heap(alloc)?;
    assert!(rt; tall.len() > 30);
    assert!(rt; tall.iter().all(|object| object.0.region % 2 == 1));
    Ok(())
}

#[test]
fn a_list_that_turned_back_leaves_nothing_of_its_tree(rt: HostRuntime) -> Result<(), Fail> {
    let alloc = rt.alloc();
    let mut view = MemView::new(alloc, 2)?;
    assert_eq!(rt; begin(&rt, alloc, &mut view), Ok(true));
    assert_eq!(rt; add_some(&rt, alloc, &mut view, 0, COUNT), Ok(true));
    assert_eq!(rt; remove_some(&rt, alloc, &mut view, 0, 501), Ok(true));
    let heap = view.into_heap(alloc)?;
    assert_eq!(rt; heap.len(), 3);
    Ok(())
}

#[test]
fn half_edges_go_by_type_and_then_by_far_header(rt: HostRuntime) -> Result<(), Fail> {
    let alloc = rt.alloc();
    let mut view = MemView::new(alloc, 2)?;
    assert_eq!(rt; begin(&rt, alloc, &mut view), Ok(true));
    let first = half(900);
    let second = Half {
        kind: 8,
        far: first.far,
        body: GRAPH,
    };
    let third = Half {
        kind: 8,
        far: GRAPH,
        body: OUT,
    };
    for new in [&second, &first, &third] {
        assert_eq!(rt; add(&rt, alloc, &mut view, HEADER, false, new), Ok(true));
    }
    let found = walked(&rt, alloc, &mut view, false, 1)?;
    assert!(rt; found.as_slice() == [first, third, second].as_slice());
    for half in [first, second, third] {
        let there = find(&rt, alloc, &mut view, HEADER, false, half.kind, half.far);
        assert_eq!(rt; there, Ok(Some(half)));
    }
    let other = find(&rt, alloc, &mut view, HEADER, false, 7, GRAPH);
    assert_eq!(rt; other, Ok(None));
    let out = find(&rt, alloc, &mut view, HEADER, true, 7, first.far);
    assert_eq!(rt; out, Ok(None));
    Ok(())
}
