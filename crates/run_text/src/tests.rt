//! A script and a transcript, with ample memory.
use crate::{ScriptFault, read, transcript};
use a1_base::Bin;
use answer_text::{Line, Reply, Transcript};
use sqlite_items::Items;
use std::alloc::{AllocError, Global};
use std::test::Fail;

#[test]
fn reads_the_requests_of_a_script(rt: HostRuntime) -> Result<(), Fail> {
    let sessions = read(rt.alloc(), b"1 x\n\n1 \n1 y z")?.into_sessions();
    assert_eq!(rt; sessions.len(), 1);
    let (number, requests) = &sessions[0];
    assert_eq!(rt; *number, 1);
    assert_eq!(rt; requests.len(), 3);
    assert_eq!(rt; requests[0].as_slice(), b"x".as_slice());
    assert_eq!(rt; requests[1].as_slice(), b"".as_slice());
    assert_eq!(rt; requests[2].as_slice(), b"y z".as_slice());
    Ok(())
}

// Scripts, and the first line of each that breaks the grammar, where there is one.
const NAMED: &[(&str, Option<u64>)] = &[
    ("1 {\"after\":[1,1]}", Some(1)),
    ("1 x\n1 {\"after\":[1,1]}", None),
    ("1 x\n1 {\"after\":[1,2]}", Some(2)),
    ("1 x\n\n\n1 {\"after\":[1,2]}", Some(4)),
    ("1 x\n\n1 \n\n1 {\"after\":[1,2]}", None),
    ("1 x\n1 {\"after\":[1,4294967295]}\n2 x", Some(2)),
    ("1 x\n1 { \"after\" : 0, \"after\" : [1, 2] }", Some(2)),
    ("1 x\n1 {\"after\":[2,1]}", Some(2)),
    ("1 {\"after\":[0,1]}\n1 {\"after\":[33,1]}", None),
    ("1 {\"after\":[1,0]}\n1 {\"after\":[1,4294967296]}", None),
    ("1 {\"after\":[1,9],\"x\":1}", None),
];

#[test]
fn names_lines_that_stand_before(rt: HostRuntime) {
    for (script, want) in NAMED {
        let line = match read(rt.alloc(), script.as_bytes()) {
            Ok(_) => None,
            Err(ScriptFault::Line(line)) => Some(line),
            Err(ScriptFault::Memory) => Some(0),
        };
        assert_eq!(rt; line, *want, "at {script}");
    }
}

// The transcript of a session that was answered twice.
fn session(
    alloc: Global,
    session: u32,
    first: Reply,
    second: Reply,
) -> Result<Transcript, AllocError> {
    let mut lines = Items::new(alloc);
    for reply in [first, second] {
        let request = Bin::from_slice(alloc, b"hello")?;
        lines.push(Line { request, reply })?;
    }
    Ok(Transcript { session, lines })
}

#[test]
fn prints_session_by_session(rt: HostRuntime) -> Result<(), Fail> {
    let alloc = rt.alloc();
    let rows = Reply::Rows {
        at: 2,
        rows: Items::new(alloc),
    };
    let sessions = [
        session(alloc, 1, Reply::Ok { stamp: 2 }, Reply::Memory)?,
        session(alloc, 4_294_967_295, rows, Reply::Ok { stamp: 3 })?,
    ];
    let text = transcript(alloc, &sessions)?;
    let want: &str =
        "1 {\"ok\":2}\n1 {\"memory\":true}\n4294967295 {\"at\":2,\"rows\":[]}\n4294967295 {\"ok\":3}\n";
    assert_eq!(rt; text.as_slice(), want.as_bytes());
    Ok(())
}
