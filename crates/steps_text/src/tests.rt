//! Texts of events, in and out of the grammar, and the line of each answer.
use crate::{TextFault, print, read};
use a1_base::{Addr, Bin, TxnId};
use farm_core::Answer;
use std::test::Fail;

const WRITE_SKEW: &str =
    "load 0:0 aa\nload 1:0 bb\nbegin 1.1\nbegin 2.1\nread 1.1 0:0\nread 1.1 1:0\nread 2.1 0:0\nread 2.1 1:0\n\
    lock 1.1 0:0 a1\ndraw 1.1\ncheck 1.1 1:0\nput 1.1 0:0\nlock 2.1 1:0 b2\ndraw 2.1\ncheck 2.1 0:0\nput 2.1 1:0\n\
    unlock 2.1 1:0\nshut 2.1\nshut 1.1\n";

const OLD_READ: &str =
    "load 0:0 aa\nbegin 1.1\nbegin 2.1\nlock 1.1 0:0 ab\nread 2.1 0:0\ndraw 1.1\nput 1.1 0:0\nshut 1.1\nbegin 3.1\n\
    lock 3.1 0:0 ac\nread 2.1 0:0\n";

const FREED_PLACE: &str =
    "load 0:0 aa\nbegin 1.1\nlock 1.1 0:0 -\ndraw 1.1\nput 1.1 0:0\nshut 1.1\nbegin 2.1\nalloc 2.1 1 cc\ndraw 2.1\n\
    put 2.1 1:0\nshut 2.1\nbegin 3.1\nread 3.1 0:0\nshut 3.1\ncollect 0\nbegin 4.1\nalloc 4.1 0 dd\ndraw 4.1\n\
    begin 5.1\nread 5.1 0:0\nput 4.1 0:0\nread 5.1 0:0\n";

const PINNED: &str =
    "load 0:0 aa\nbegin 1.1\nbegin 2.1\nlock 2.1 0:0 ab\ndraw 2.1\nput 2.1 0:0\nshut 2.1\ncollect 0\nread 1.1 0:0\n\
    shut 1.1\ncollect 0\n";

#[test]
fn texts_are_read_or_named_by_line(rt: HostRuntime) -> Result<(), Fail> {
    let alloc = rt.alloc();
    for (text, wanted) in [
        ("", Ok(0)),
        (WRITE_SKEW, Ok(19)),
        (OLD_READ, Ok(11)),
        (FREED_PLACE, Ok(22)),
        (PINNED, Ok(11)),
        ("begin 35.18446744073709551615\nbegin 1.0\n", Ok(2)),
        ("read 1.1 2097151:4095\ncollect 1\n", Ok(2)),
        ("\n", Err(TextFault::Line(1))),
        ("shut 1.1\n\n", Err(TextFault::Line(2))),
        ("shut 1.1\nshut 1.1", Err(TextFault::Line(2))),
        ("shut 1.1\r\nshut 1.1\n", Err(TextFault::Line(1))),
        ("shut 1.1 \n", Err(TextFault::Line(1))),
        ("shut  1.1\n", Err(TextFault::Line(1))),
        (" shut 1.1\n", Err(TextFault::Line(1))),
        ("Shut 1.1\n", Err(TextFault::Line(1))),
        ("shut\n", Err(TextFault::Line(1))),
        ("shut 0.1\n", Err(TextFault::Line(1))),
        ("shut 36.1\n", Err(TextFault::Line(1))),
        ("shut 01.1\n", Err(TextFault::Line(1))),
        ("shut 1.01\n", Err(TextFault::Line(1))),
        ("shut +1.1\n", Err(TextFault::Line(1))),
        ("shut 1.\n", Err(TextFault::Line(1))),
        ("shut 1\n", Err(TextFault::Line(1))),
        ("shut 1.18446744073709551616\n", Err(TextFault::Line(1))),
        ("read 1.1 2097152:0\n", Err(TextFault::Line(1))),
        ("read 1.1 0:4096\n", Err(TextFault::Line(1))),
        ("alloc 1.1 2 aa\n", Err(TextFault::Line(1))),
        ("collect 2\n", Err(TextFault::Line(1))),
        ("load 0:0 AA\n", Err(TextFault::Line(1))),
        ("load 0:0 aaa\n", Err(TextFault::Line(1))),
        ("load 0:0 ag\n", Err(TextFault::Line(1))),
        ("load 0:0 \n", Err(TextFault::Line(1))),
        ("load 0:0 -\n", Err(TextFault::Line(1))),
        ("lock 1.1 0:0\n", Err(TextFault::Line(1))),
        ("lock 1.1 0:0 --\n", Err(TextFault::Line(1))),
        ("lock 1.1 0:0 \u{e9}\n", Err(TextFault::Line(1))),
    ] {
        let counted = read(alloc, 2, text.as_bytes()).map(|events| events.len());
        assert_eq!(rt; counted, wanted, "{text}");
    }
    Ok(())
}

#[test]
fn an_object_has_at_most_65_536_bytes(rt: HostRuntime) -> Result<(), Fail> {
    let alloc = rt.alloc();
    for (bytes, wanted) in [(65_536, Ok(1)), (65_537, Err(TextFault::Line(1)))] {
        let mut text = Bin::from_slice(alloc, b"load 0:0 ")?;
        for _ in 0..bytes {
            text.append(b"5a")?;
        }
        text.append(b"\n")?;
        let counted = read(alloc, 1, text.as_slice()).map(|events| events.len());
        assert_eq!(rt; counted, wanted, "{bytes}");
    }
    Ok(())
}

#[test]
fn a_lock_is_read_with_its_bytes(rt: HostRuntime) -> Result<(), Fail> {
    let alloc = rt.alloc();
    let events = read(alloc, 4, b"lock 7.21 13:40 00ff\n").expect(&rt, "ample memory");
    let wanted: &str =
        "[Lock { t: TxnId { actor: 7, number: 21 }, at: Addr { region: 13, offset: 40 }, \
        new: Some(Bin { bytes: [0, 255] }) }]";
    assert_eq!(rt; format!(in alloc; "{events:?}")?.as_str(), wanted);
    Ok(())
}

#[test]
fn answers_are_printed_in_words(rt: HostRuntime) -> Result<(), Fail> {
    let alloc = rt.alloc();
    let by = TxnId {
        actor: 4,
        number: 1,
    };
    let at = Addr {
        region: 1,
        offset: 20,
    };
    let bytes = Bin::from_slice(alloc, b"\xdd\x0a")?;
    let mut out = Bin::new(alloc);
    for answer in [
        Answer::Loaded,
        Answer::At { stamp: 1 },
        Answer::Value { stamp: 4, bytes },
        Answer::Absent { stamp: 0 },
        Answer::Held { by },
        Answer::Placed { at, bound: 3 },
        Answer::Spent,
        Answer::Locked { seen: 1, bound: 2 },
        Answer::Changed { seen: 1, now: 2 },
        Answer::Stamp {
            stamp: 4_611_686_018_427_387_903,
        },
        Answer::Same,
        Answer::Put,
        Answer::Unlocked,
        Answer::Shut,
        Answer::Collected {
            floor: 3,
            versions: 2,
            objects: 1,
        },
        Answer::No,
    ] {
        print(alloc, &mut out, &answer).expect(&rt, "ample memory");
    }
    let wanted: &str =
        "loaded\nat 1\nvalue 4 dd0a\nabsent 0\nheld 4.1\nplaced 1:20 3\nspent\nlocked 1 2\nchanged 1 2\n\
        stamp 4611686018427387903\nsame\nput\nunlocked\nshut\nfloor 3 versions 2 objects 1\nno\n";
    assert!(rt; out.as_slice() == wanted.as_bytes());
    Ok(())
}
