use crate::Tree;
use crate::bytes::{anchor_of, entry_of, node_of};
use crate::scan::count_in;
use a1_base::Addr;
use object_view::{MemView, PartFault, addr_of, look, word_of};
use std::alloc::Global;
use std::sync::Wait;
use std::test::Fail;

const KEYS: u32 = 100_000;

#[derive(Clone, Copy, Debug, PartialEq, Eq)]
enum Order {
    Rising,
    Falling,
    Scattered,
}

// The nth of the keys from 0 on, each once.
fn nth(order: Order, n: u32) -> u32 {
    match order {
        Order::Rising => n,
        Order::Falling => KEYS.wrapping_sub(n.wrapping_add(1)),
        Order::Scattered => (u64::from(n).wrapping_mul(61_803) % u64::from(KEYS)) as u32,
    }
}

// The places below a node, or its pairs counted; none where its entries are too few or too many.
fn below<R: Wait>(
    rt: &R,
    alloc: Global,
    view: &mut MemView,
    owner: u64,
    at: Addr,
    least: usize,
    out: &mut Vec<Addr>,
) -> Result<Option<usize>, PartFault> {
    let bytes = look(rt, alloc, view, at)?;
    let Some(body) = node_of(bytes.as_slice(), owner) else {
        return Ok(None);
    };
    let Some(count) = count_in(body) else {
        return Ok(None);
    };
    if count < least || count > 32 {
        return Ok(None);
    }
    let mut rest = body;
    for _ in 0..count {
        let Some((_, word, after)) = entry_of(rest) else {
            return Ok(None);
        };
        if out.push(addr_of(word)).is_err() {
            return Err(PartFault::Memory);
        }
        rest = after;
    }
    Ok(Some(count))
}

// How many levels a tree has and how many pairs; none where a node has not its fill.
fn walk<R: Wait>(
    rt: &R,
    alloc: Global,
    view: &mut MemView,
    tree: &Tree,
) -> Result<Option<(u8, usize)>, PartFault> {
    let bytes = look(rt, alloc, view, tree.anchor)?;
    let Some((_, root, height)) = anchor_of(bytes.as_slice()) else {
        return Ok(None);
    };
    let owner = word_of(tree.anchor);
    let mut level = Vec::new(alloc);
    if level.push(addr_of(root)).is_err() {
        return Err(PartFault::Memory);
    }
    let mut least = if height == 0 { 0 } else { 2 };
    for _ in 0..height {
        let mut next = Vec::new(alloc);
        for at in level.as_slice() {
            if below(rt, alloc, view, owner, *at, least, &mut next)?.is_none() {
                return Ok(None);
            }
        }
        level = next;
        least = 16;
    }
    let mut pairs: usize = 0;
    let mut rest = Vec::new(alloc);
    for at in level.as_slice() {
        let Some(count) = below(rt, alloc, view, owner, *at, least, &mut rest)? else {
            return Ok(None);
        };
        pairs = pairs.wrapping_add(count);
    }
    Ok(Some((height, pairs)))
}

// Inserts the keys of an order, each with its own number; whether each was new.
fn insert_all<R: Wait>(
    rt: &R,
    alloc: Global,
    view: &mut MemView,
    tree: &Tree,
    order: Order,
) -> Result<bool, PartFault> {
    for n in 0..KEYS {
        let key = nth(order, n);
        if tree
            .insert(rt, alloc, view, &key.to_be_bytes(), u64::from(key))?
            .is_some()
        {
            return Ok(false);
        }
    }
    Ok(true)
}

// Whether each key of an order has its own number.
fn has_all<R: Wait>(
    rt: &R,
    alloc: Global,
    view: &mut MemView,
    tree: &Tree,
    order: Order,
) -> Result<bool, PartFault> {
    for n in 0..KEYS {
        let key = nth(order, n);
        if tree.get(rt, alloc, view, &key.to_be_bytes())? != Some(u64::from(key)) {
            return Ok(false);
        }
    }
    Ok(true)
}

// Takes some keys of an order out; whether each had its own number.
fn remove_some<R: Wait>(
    rt: &R,
    alloc: Global,
    view: &mut MemView,
    tree: &Tree,
    order: Order,
    from: u32,
    to: u32,
) -> Result<bool, PartFault> {
    for n in from..to {
        let key = nth(order, n);
        if tree.remove(rt, alloc, view, &key.to_be_bytes())? != Some(u64::from(key)) {
            return Ok(false);
        }
    }
    Ok(true)
}

// Whether the keys of an order can be put in, and taken out in another order. A tree of these many pairs has four levels
// by the fill of its nodes alone, and so has one of half of them.
fn comes_and_goes<R: Wait>(
    rt: &R,
    alloc: Global,
    view: &mut MemView,
    tree: &Tree,
    order: Order,
    other: Order,
) -> Result<bool, PartFault> {
    let came = insert_all(rt, alloc, view, tree, order)?
        && walk(rt, alloc, view, tree)? == Some((3, KEYS as usize))
        && has_all(rt, alloc, view, tree, other)?;
    let half = came
        && remove_some(rt, alloc, view, tree, other, 0, KEYS / 2)?
        && walk(rt, alloc, view, tree)? == Some((3, KEYS as usize / 2));
    Ok(
        half && remove_some(rt, alloc, view, tree, other, KEYS / 2, KEYS)?
            && walk(rt, alloc, view, tree)? == Some((0, 0)),
    )
}

const OWNER: Addr = Addr {
    region: 1,
    offset: 7,
};

#[test]
fn rising_keys_come_and_go(rt: HostRuntime) -> Result<(), Fail> {
    let alloc = rt.alloc();
    let mut view = MemView::new(alloc, 2)?;
    let tree = Tree::create(&rt, alloc, &mut view, 1, OWNER)?;
    assert_eq!(rt;
        comes_and_goes(
            &rt,
            alloc,
            &mut view,
            &tree,
            Order::Rising,
            Order::Scattered
        ),
        Ok(true)
    );
    Ok(())
}

#[test]
fn falling_keys_come_and_go(rt: HostRuntime) -> Result<(), Fail> {
    let alloc = rt.alloc();
    let mut view = MemView::new(alloc, 2)?;
    let tree = Tree::create(&rt, alloc, &mut view, 1, OWNER)?;
    assert_eq!(rt;
        comes_and_goes(&rt, alloc, &mut view, &tree, Order::Falling, Order::Rising),
        Ok(true)
    );
    Ok(())
}

#[test]
fn scattered_keys_come_and_go(rt: HostRuntime) -> Result<(), Fail> {
    let alloc = rt.alloc();
    let mut view = MemView::new(alloc, 2)?;
    let tree = Tree::create(&rt, alloc, &mut view, 1, OWNER)?;
    assert_eq!(rt;
        comes_and_goes(
            &rt,
            alloc,
            &mut view,
            &tree,
            Order::Scattered,
            Order::Falling
        ),
        Ok(true)
    );
    Ok(())
}

// Puts the keys k00 to k32 in, each with its own number.
fn put_small<R: Wait>(
    rt: &R,
    alloc: Global,
    view: &mut MemView,
    tree: &Tree,
) -> Result<(), PartFault> {
    for n in 0u8..33 {
        let key = [b'k', b'0' + n / 10, b'0' + n % 10];
        tree.insert(rt, alloc, view, &key, u64::from(n))?;
    }
    Ok(())
}

#[test]
fn a_small_tree_answers(rt: HostRuntime) -> Result<(), Fail> {
    let alloc = rt.alloc();
    let mut view = MemView::new(alloc, 1)?;
    let tree = Tree::create(&rt, alloc, &mut view, 0, OWNER)?;
    put_small(&rt, alloc, &mut view, &tree)?;
    assert_eq!(rt; tree.get(&rt, alloc, &mut view, b"k32"), Ok(Some(32)));
    assert_eq!(rt; tree.get(&rt, alloc, &mut view, b"k33"), Ok(None));
    assert_eq!(rt;
        tree.insert(&rt, alloc, &mut view, b"k01", 100),
        Ok(Some(1))
    );
    assert_eq!(rt; tree.remove(&rt, alloc, &mut view, b"k32"), Ok(Some(32)));
    assert_eq!(rt; tree.remove(&rt, alloc, &mut view, b"k32"), Ok(None));
    Ok(())
}

#[test]
fn intervals_end_before_their_end(rt: HostRuntime) -> Result<(), Fail> {
    let alloc = rt.alloc();
    let mut view = MemView::new(alloc, 1)?;
    let tree = Tree::create(&rt, alloc, &mut view, 0, OWNER)?;
    put_small(&rt, alloc, &mut view, &tree)?;
    let found = tree.range(&rt, alloc, &mut view, b"k00", b"k02", 9)?;
    assert_eq!(rt; found.len(), 2);
    assert_eq!(rt;
        found
            .get(0)
            .map(|pair| (pair.0.as_slice() == b"k00".as_slice(), pair.1)),
        Some((true, 0))
    );
    assert_eq!(rt;
        found
            .get(1)
            .map(|pair| (pair.0.as_slice() == b"k01".as_slice(), pair.1)),
        Some((true, 1))
    );
    assert_eq!(rt;
        tree.range(&rt, alloc, &mut view, b"k0", b"k2", 7)?.len(),
        7
    );
    Ok(())
}

#[test]
fn a_tree_is_destroyed_by_steps(rt: HostRuntime) -> Result<(), Fail> {
    let alloc = rt.alloc();
    let mut view = MemView::new(alloc, 1)?;
    let tree = Tree::create(&rt, alloc, &mut view, 0, OWNER)?;
    put_small(&rt, alloc, &mut view, &tree)?;
    assert_eq!(rt; tree.destroy_some(&rt, alloc, &mut view, 0), Ok(false));
    assert_eq!(rt; tree.destroy_some(&rt, alloc, &mut view, 2), Ok(false));
    assert_eq!(rt; tree.destroy_some(&rt, alloc, &mut view, 100), Ok(true));
    assert_eq!(rt; tree.destroy_some(&rt, alloc, &mut view, 1), Ok(true));
    assert_eq!(rt; view.into_heap(alloc)?.len(), 0);
    Ok(())
}
