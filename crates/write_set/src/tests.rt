ghost use Rattle.std.specs.Prelude.{◌≡◌};

use crate::WriteSet;
use a1_base::{Addr, Bin, Memory};
use std::alloc::{AllocError, Global};
use std::test::Fail;

fn at(region: u32, offset: u32) -> Addr
    ensures region { result.region ≡ region }
    ensures offset { result.offset ≡ offset }
{
    Addr { region, offset }
}

fn value(alloc: Global, text: &str) -> Result<Option<Bin>, AllocError> {
    Ok(Some(Bin::from_slice(alloc, text.as_bytes())?))
}

// What is written at a place: the address, the bytes and whether the transaction made the object.
fn shown(set: &WriteSet, index: usize) -> Option<(Addr, Option<&[u8]>, bool)> {
    if index < set.len() {
        let write = set.get(index);
        Some((
            write.at,
            write.value.as_ref().map(|value| value.as_slice()),
            write.made,
        ))
    } else {
        None
    }
}

// Adds the write of a made object where the address has none.
fn make(set: &mut WriteSet, at: Addr, value: Option<Bin>) -> Result<(), Memory> {
    match set.index_of(at) {
        Some(_) => Ok(()),
        None => set.add(at, value, true),
    }
}

// Takes the value at a place, if there is the place.
fn taken(set: &mut WriteSet, index: usize) -> Option<Bin> {
    if index < set.len() {
        set.take_value(index)
    } else {
        None
    }
}

#[test]
fn first_writes_keep_their_order(rt: HostRuntime) -> Result<(), Fail> {
    let alloc = rt.alloc();
    let mut set = WriteSet::new(alloc);
    set.put(at(7, 1), value(alloc, "a")?)?;
    set.put(at(1, 7), value(alloc, "b")?)?;
    make(&mut set, at(4, 0), value(alloc, "c")?)?;
    assert_eq!(rt; set.len(), 3);
    set.put(at(4, 0), value(alloc, "d")?)?;
    set.put(at(7, 1), None)?;
    assert_eq!(rt; set.len(), 3, "an address is written once");
    assert_eq!(rt; shown(&set, 0), Some((at(7, 1), None, false)));
    assert_eq!(rt;
        shown(&set, 1),
        Some((at(1, 7), Some(b"b".as_slice()), false))
    );
    assert_eq!(rt;
        shown(&set, 2),
        Some((at(4, 0), Some(b"d".as_slice()), true))
    );
    assert_eq!(rt; set.index_of(at(1, 7)), Some(1));
    assert_eq!(rt; set.index_of(at(4, 0)), Some(2));
    assert_eq!(rt; set.index_of(at(7, 7)), None);
    assert_eq!(rt; set.index_of(at(0, 4)), None);
    Ok(())
}

#[test]
fn a_taken_value_leaves_none(rt: HostRuntime) -> Result<(), Fail> {
    let alloc = rt.alloc();
    let mut set = WriteSet::new(alloc);
    make(&mut set, at(2, 3), value(alloc, "a")?)?;
    let first = taken(&mut set, 0);
    assert_eq!(rt;
        first.as_ref().map(|value| value.as_slice()),
        Some(b"a".as_slice())
    );
    assert!(rt; taken(&mut set, 0).is_none());
    assert_eq!(rt; shown(&set, 0), Some((at(2, 3), None, true)));
    set.clear();
    assert_eq!(rt; set.len(), 0);
    assert_eq!(rt; set.index_of(at(2, 3)), None);
    Ok(())
}

#[test]
fn room_that_was_reserved_serves_an_address(rt: HostRuntime) -> Result<(), Fail> {
    let alloc = rt.alloc();
    let mut set = WriteSet::new(alloc);
    set.reserve()?;
    assert_eq!(rt; set.len(), 0);
    set.add(at(5, 6), None, true)?;
    assert_eq!(rt; shown(&set, 0), Some((at(5, 6), None, true)));
    Ok(())
}

#[test]
fn a_thousand_addresses_are_found(rt: HostRuntime) -> Result<(), Fail> {
    let alloc = rt.alloc();
    let mut set = WriteSet::new(alloc);
    for number in 0..1_000 {
        set.put(at(number % 10, number), None)?;
    }
    assert_eq!(rt; set.len(), 1_000);
    for number in 0..1_000 {
        let index = set.index_of(at(number % 10, number));
        assert_eq!(rt; index, Some(number as usize), "at {number}");
        assert_eq!(rt;
            set.index_of(at(number % 10 + 1, number)),
            None,
            "at {number}"
        );
    }
    Ok(())
}
