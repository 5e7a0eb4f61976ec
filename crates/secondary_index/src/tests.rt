ghost use Rattle.std.specs.Prelude.{IfOk, IfSome};
ghost use Rattle.a1_value.specs.Encoding.{IsKey};

use crate::{enter, leave, scan};
use a1_base::{Addr, Bin, KEY_LIMIT, Txt};
use a1_value::Value;
use object_btree::Tree;
use object_view::{MemView, PartFault};
use std::alloc::Global;
use std::sync::Wait;
use std::test::Fail;

// What a value is made of.
#[derive(Clone, Copy, Debug, PartialEq, Eq)]
enum Plain {
    Int(i64),
    Text(&'static str),
    Bytes(&'static [u8]),
}

// A text; a fault where it may be no key.
fn text_of(alloc: Global, text: &str) -> Result<Value, PartFault>
    ensures { IfOk result IsKey }
{
    if text.len() > KEY_LIMIT {
        return Err(PartFault::Tall);
    }
    Ok(Value::Text(Txt::from_text(alloc, text)?))
}

// A list of bytes; a fault where it may be no key.
fn bytes_of(alloc: Global, bytes: &[u8]) -> Result<Value, PartFault>
    ensures { IfOk result IsKey }
{
    if bytes.len() > KEY_LIMIT {
        return Err(PartFault::Tall);
    }
    Ok(Value::Bytes(Bin::from_slice(alloc, bytes)?))
}

fn value_of(alloc: Global, plain: Plain) -> Result<Value, PartFault>
    ensures { IfOk result IsKey }
{
    match plain {
        Plain::Int(n) => Ok(Value::Int(n)),
        Plain::Text(text) => text_of(alloc, text),
        Plain::Bytes(bytes) => bytes_of(alloc, bytes),
    }
}

// The rows in their order.
const ROWS: [(Plain, Plain); 9] = [
    (Plain::Int(-5), Plain::Text("b")),
    (Plain::Int(-1), Plain::Text("a")),
    (Plain::Int(7), Plain::Int(-2)),
    (Plain::Int(7), Plain::Int(3)),
    (Plain::Text("a"), Plain::Text("x")),
    (Plain::Text("ab"), Plain::Text("a")),
    (Plain::Bytes(b"\x00"), Plain::Bytes(b"")),
    (Plain::Bytes(b"\x00\x00"), Plain::Int(0)),
    (Plain::Bytes(b"\x01"), Plain::Int(0)),
];

const OWNER: Addr = Addr {
    region: 1,
    offset: 7,
};

fn put<R: Wait>(
    rt: &R,
    alloc: Global,
    view: &mut MemView,
    tree: &Tree,
    row: (Plain, Plain),
    n: u32,
) -> Result<(), PartFault> {
    let header = Addr {
        region: n,
        offset: 3,
    };
    let value = value_of(alloc, row.0)?;
    let key = value_of(alloc, row.1)?;
    enter(rt, alloc, view, tree, &value, &key, header)
}

fn take<R: Wait>(
    rt: &R,
    alloc: Global,
    view: &mut MemView,
    tree: &Tree,
    row: (Plain, Plain),
) -> Result<bool, PartFault> {
    let value = value_of(alloc, row.0)?;
    let key = value_of(alloc, row.1)?;
    leave(rt, alloc, view, tree, &value, &key)
}

// An index of the rows, each with its place from 1 on as its header, entered in another order.
fn index_of<R: Wait>(rt: &R, alloc: Global, view: &mut MemView) -> Result<Tree, PartFault> {
    let tree = Tree::create(rt, alloc, view, 0, OWNER)?;
    for n in 0usize..9 {
        let place = n * 5 % 9;
        put(rt, alloc, view, &tree, ROWS[place], place as u32 + 1)?;
    }
    Ok(tree)
}

fn bound(alloc: Global, plain: Option<Plain>) -> Result<Option<Value>, PartFault>
    ensures { IfOk result (λ v. IfSome v IsKey) }
{
    match plain {
        None => Ok(None),
        Some(plain) => Ok(Some(value_of(alloc, plain)?)),
    }
}

// Whether the first rows between two bounds are these, by their places, and each header is whole.
fn finds<R: Wait>(
    rt: &R,
    alloc: Global,
    view: &mut MemView,
    tree: &Tree,
    low: Option<Plain>,
    high: Option<Plain>,
    wanted: &[u32],
) -> Result<bool, PartFault> {
    let low = bound(alloc, low)?;
    let high = bound(alloc, high)?;
    let found = scan(
        rt,
        alloc,
        view,
        tree,
        low.as_ref(),
        high.as_ref(),
        None,
        100,
    )?;
    Ok(are(&found, wanted))
}

fn are(found: &Vec<(Bin, Addr)>, wanted: &[u32]) -> bool {
    found.len() == wanted.len()
        && found
            .iter()
            .zip(wanted)
            .all(|(row, n)| row.1.region == *n && row.1.offset == 3)
}

#[test]
fn rows_stand_by_value_and_key(rt: HostRuntime) -> Result<(), Fail> {
    let alloc = rt.alloc();
    let mut view = MemView::new(alloc, 1)?;
    let tree = index_of(&rt, alloc, &mut view)?;
    let whole = scan(&rt, alloc, &mut view, &tree, None, None, None, 100)?;
    assert!(rt; are(&whole, &[1, 2, 3, 4, 5, 6, 7, 8, 9]));
    assert_eq!(rt;
        whole.get(0).map(|row| {
            row.0.as_slice() == b"\x01\x7f\xff\xff\xff\xff\xff\xff\xfb\x02b\x00\x00".as_slice()
        }),
        Some(true)
    );
    Ok(())
}

#[test]
fn bounds_count_with_their_ends(rt: HostRuntime) -> Result<(), Fail> {
    let alloc = rt.alloc();
    let mut view = MemView::new(alloc, 1)?;
    let tree = index_of(&rt, alloc, &mut view)?;
    let table: [(Option<Plain>, Option<Plain>, &[u32]); 8] = [
        (Some(Plain::Int(-1)), Some(Plain::Int(7)), &[2, 3, 4]),
        (None, Some(Plain::Int(-2)), &[1]),
        (None, Some(Plain::Int(-5)), &[1]),
        (Some(Plain::Text("a")), Some(Plain::Text("a")), &[5]),
        (Some(Plain::Text("ab")), None, &[6, 7, 8, 9]),
        (
            Some(Plain::Bytes(b"\x00")),
            Some(Plain::Bytes(b"\x00\x00")),
            &[7, 8],
        ),
        (Some(Plain::Int(8)), Some(Plain::Text("")), &[]),
        (Some(Plain::Int(9)), Some(Plain::Int(0)), &[]),
    ];
    for (low, high, wanted) in table {
        assert_eq!(rt;
            finds(&rt, alloc, &mut view, &tree, low, high, wanted),
            Ok(true)
        );
    }
    Ok(())
}

#[test]
fn a_scan_goes_on_behind_its_last_row(rt: HostRuntime) -> Result<(), Fail> {
    let alloc = rt.alloc();
    let mut view = MemView::new(alloc, 1)?;
    let tree = index_of(&rt, alloc, &mut view)?;
    let low = Value::Int(-4);
    let mut last = Bin::new(alloc);
    let steps: [&[u32]; 4] = [&[2, 3, 4], &[5, 6, 7], &[8, 9], &[]];
    for wanted in steps {
        let found = scan(
            &rt,
            alloc,
            &mut view,
            &tree,
            Some(&low),
            None,
            Some(last.as_slice()),
            3,
        )?;
        assert!(rt; are(&found, wanted));
        if let Some((key, _)) = found.into_iter().last() {
            last = key;
        }
    }
    Ok(())
}

#[test]
fn rows_come_and_go(rt: HostRuntime) -> Result<(), Fail> {
    let alloc = rt.alloc();
    let mut view = MemView::new(alloc, 1)?;
    let tree = index_of(&rt, alloc, &mut view)?;
    put(&rt, alloc, &mut view, &tree, ROWS[3], 40)?;
    let texts = (Plain::Text("a"), Plain::Text("x"));
    assert_eq!(rt; take(&rt, alloc, &mut view, &tree, texts), Ok(true));
    assert_eq!(rt; take(&rt, alloc, &mut view, &tree, texts), Ok(false));
    let turned = (Plain::Text("x"), Plain::Text("a"));
    assert_eq!(rt; take(&rt, alloc, &mut view, &tree, turned), Ok(false));
    assert_eq!(rt;
        finds(
            &rt,
            alloc,
            &mut view,
            &tree,
            None,
            None,
            &[1, 2, 3, 40, 6, 7, 8, 9]
        ),
        Ok(true)
    );
    Ok(())
}

// The nth of 2,000 rows: 50 values from -25 on, and 40 keys of each.
fn nth(n: u32) -> (Plain, Plain) {
    (
        Plain::Int(i64::from(n % 50).wrapping_sub(25)),
        Plain::Int(i64::from(n)),
    )
}

#[test]
fn two_thousand_rows_come_and_go(rt: HostRuntime) -> Result<(), Fail> {
    let alloc = rt.alloc();
    let mut view = MemView::new(alloc, 1)?;
    let tree = Tree::create(&rt, alloc, &mut view, 0, OWNER)?;
    for n in 0u32..2000 {
        put(&rt, alloc, &mut view, &tree, nth(n), n)?;
    }
    let low = Value::Int(-1);
    let high = Value::Int(1);
    let some = scan(
        &rt,
        alloc,
        &mut view,
        &tree,
        Some(&low),
        Some(&high),
        None,
        5000,
    )?;
    assert_eq!(rt; some.len(), 120);
    assert_eq!(rt; some.get(0).map(|row| row.1.region), Some(24));
    assert_eq!(rt; some.get(119).map(|row| row.1.region), Some(1976));
    for n in 0u32..2000 {
        assert_eq!(rt; take(&rt, alloc, &mut view, &tree, nth(n)), Ok(true));
    }
    assert_eq!(rt;
        finds(&rt, alloc, &mut view, &tree, None, None, &[]),
        Ok(true)
    );
    Ok(())
}
