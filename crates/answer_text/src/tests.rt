//! The text of each reply.
use crate::{Reply, text};
use a1_base::{Addr, Bin, Memory, TxnId, Txt};
use a1_value::Value;
use a1ql_reader::Row;
use request_reader::BadWord;
use sqlite_items::Items;
use std::alloc::Global;
use std::test::Fail;
use type_schema::{Refusal, Word};

#[test]
fn a_row_is_printed_by_name(rt: HostRuntime) -> Result<(), Fail> {
    let alloc = rt.alloc();
    let mut members = Items::new(alloc);
    members.push((Txt::from_text(alloc, "n")?, Value::Int(-7)))?;
    members.push((
        Txt::from_text(alloc, "id")?,
        Value::Text(Txt::from_text(alloc, "a\"b")?),
    ))?;
    members.push((
        Txt::from_text(alloc, "key")?,
        Value::Bytes(Bin::from_slice(alloc, b"\x00\xff")?),
    ))?;
    let mut rows = Items::new(alloc);
    rows.push(Row { members })?;
    let reply = Reply::Rows {
        at: 18_446_744_073_709_551_615,
        rows,
    };
    let wanted: &str =
        "{\"at\":18446744073709551615,\"rows\":[{\"id\":\"a\\\"b\",\"key\":\"00ff\",\"n\":-7}]}";
    let printed = text(alloc, &reply).expect(&rt, "ample memory");
    assert!(rt; printed.as_slice() == wanted.as_bytes());
    Ok(())
}

// The text of a refusal at the stamp 3.
fn refused(alloc: Global, word: Word, attr: Option<Txt>) -> Result<Bin, Memory> {
    let refusal = Refusal { word, attr };
    text(alloc, &Reply::Refused { at: 3, refusal })
}

#[test]
fn a_refusal_names_its_attribute(rt: HostRuntime) -> Result<(), Fail> {
    let alloc = rt.alloc();
    let plain = refused(alloc, Word::NoVertex, None)?;
    let wanted: &str = "{\"at\":3,\"refused\":\"no_vertex\"}";
    assert!(rt; plain.as_slice() == wanted.as_bytes());
    let deep = refused(alloc, Word::Deep, None)?;
    let wanted: &str = "{\"at\":3,\"refused\":\"deep\"}";
    assert!(rt; deep.as_slice() == wanted.as_bytes());
    let over = refused(alloc, Word::WorkingSet, None)?;
    let wanted: &str = "{\"at\":3,\"refused\":\"working_set\"}";
    assert!(rt; over.as_slice() == wanted.as_bytes());
    let named = refused(alloc, Word::Long, Some(Txt::from_text(alloc, "id")?))?;
    let wanted: &str = "{\"at\":3,\"attr\":\"id\",\"refused\":\"long\"}";
    assert!(rt; named.as_slice() == wanted.as_bytes());
    Ok(())
}

fn is_printed(alloc: Global, reply: &Reply, wanted: &str) -> Result<bool, Memory> {
    Ok(text(alloc, reply)?.as_slice() == wanted.as_bytes())
}

#[test]
fn an_answered_line_is_printed(rt: HostRuntime) -> Result<(), Fail> {
    let alloc = rt.alloc();
    let replies = [
        (
            Reply::Ok { stamp: u64::MAX },
            "{\"ok\":18446744073709551615}",
        ),
        (
            Reply::Count {
                at: 4_611_686_018_427_387_903,
                count: u64::MAX,
            },
            "{\"at\":4611686018427387903,\"count\":18446744073709551615}",
        ),
        (Reply::Told { line: u32::MAX }, "{\"told\":4294967295}"),
        (
            Reply::Bad {
                word: BadWord::NotWhole,
            },
            "{\"bad\":\"not_whole\"}",
        ),
    ];
    for (reply, wanted) in &replies {
        assert!(rt; is_printed(alloc, reply, wanted)?);
    }
    Ok(())
}

#[test]
fn a_line_that_changed_nothing_is_printed(rt: HostRuntime) -> Result<(), Fail> {
    let alloc = rt.alloc();
    let object = Addr {
        region: 12,
        offset: u32::MAX,
    };
    let changed = Reply::Changed {
        object,
        seen: 9,
        now: 18_446_744_073_709_551_614,
    };
    let by = TxnId {
        actor: 3,
        number: u64::MAX,
    };
    let replies = [
        (
            changed,
            "{\"conflict\":\"changed\",\"now\":18446744073709551614,\"object\":\"12:4294967295\",\"seen\":9}",
        ),
        (
            Reply::Held { object, by },
            "{\"by\":[3,18446744073709551615],\"conflict\":\"held\",\"object\":\"12:4294967295\"}",
        ),
        (Reply::SpentNode, "{\"spent\":\"node\"}"),
        (Reply::SpentStamps, "{\"spent\":\"stamps\"}"),
        (Reply::Memory, "{\"memory\":true}"),
    ];
    for (reply, wanted) in &replies {
        assert!(rt; is_printed(alloc, reply, wanted)?);
    }
    Ok(())
}
