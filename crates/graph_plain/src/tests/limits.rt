//! The most that a request may change.
use super::{begun, operations};
use crate::Plain;
use std::alloc::{AllocError, Global};
use std::test::Fail;
use type_schema::{GraphFault, Word};

// How many rows the request changes: none where it is too large.
fn changed(alloc: Global, plain: &mut Plain, line: &str) -> Result<Option<usize>, Fail> {
    match plain.effect(alloc, operations(alloc, line)?.as_slice()) {
        Ok(rows) => Ok(Some(rows.len())),
        Err(GraphFault::Refused(refusal)) if refusal.word == Word::Large => Ok(None),
        Err(fault) => Err(Fail::from(fault)),
    }
}

// A request of operations that are given each with a comma behind it, and of a last one.
fn request(alloc: Global, front: &str, last: &str) -> Result<String, AllocError> {
    format!(in alloc; "{{\"do\":[{front}{last}]}}")
}

// ---- rows

fn puts(alloc: Global) -> Result<String, AllocError> {
    let mut text = String::new(alloc);
    for id in 1..1_024 {
        let put = format!(in alloc;
            r#"{{"put":{{"graph":"t/g","type":"n","v":{{"id":{id},"age":0}}}}}},"#
        )?;
        text.push_str(put.as_str())?;
    }
    Ok(text)
}

fn links(alloc: Global) -> Result<String, AllocError> {
    let mut text = String::new(alloc);
    for id in 1..1_023 {
        let link = format!(in alloc;
            r#"{{"link":{{"graph":"t/g","type":"e","from":{{"type":"n","id":0}},"to":{{"type":"n","id":{id}}}}}}},"#
        )?;
        text.push_str(link.as_str())?;
    }
    Ok(text)
}

const PUT: &str = r#"{"put":{"graph":"t/g","type":"n","v":{"id":0,"age":0}}}"#;

const LINK: &str =
    r#"{"link":{"graph":"t/g","type":"e","from":{"type":"n","id":0},"to":{"type":"n","id":1023}}}"#;

const LOOP: &str =
    r#"{"do":[{"link":{"graph":"t/g","type":"e","from":{"type":"n","id":0},"to":{"type":"n","id":0}}}]}"#;

const DROP: &str = r#"{"do":[{"drop":{"graph":"t/g","type":"n","id":0}}]}"#;

// The vertex 0 with an edge to each of 1,023 others.
fn wheel(alloc: Global) -> Result<Plain, Fail> {
    let mut plain = begun(alloc)?;
    changed(
        alloc,
        &mut plain,
        request(alloc, puts(alloc)?.as_str(), PUT)?.as_str(),
    )?;
    changed(
        alloc,
        &mut plain,
        request(alloc, links(alloc)?.as_str(), LINK)?.as_str(),
    )?;
    Ok(plain)
}

#[test]
fn a_drop_takes_1023_edges_along_and_no_more(rt: HostRuntime) -> Result<(), Fail> {
    let alloc = rt.alloc();
    let mut plain = wheel(alloc)?;
    assert_eq!(rt; changed(alloc, &mut plain, DROP)?, Some(1_024));
    let mut plain = wheel(alloc)?;
    assert_eq!(rt; changed(alloc, &mut plain, LOOP)?, Some(1));
    assert_eq!(rt; changed(alloc, &mut plain, DROP)?, None);
    Ok(())
}

// ---- bytes

const WIDE: &str =
    r#"{"do":[{"create_vertex_type":{"graph":"t/g","type":"w","attrs":[{"name":"id","kind":"int"},
{"name":"a","kind":"text"},{"name":"b","kind":"text"},{"name":"c","kind":"text"},{"name":"d","kind":"text"}]}}]}"#;

fn letters(alloc: Global, size: usize) -> Result<String, AllocError> {
    let mut text = String::new(alloc);
    for _ in 0..size {
        text.push('x')?;
    }
    Ok(text)
}

// A vertex whose row takes 38 bytes beside its record of 10, 3 times 4,084, and 5 more than the size of `d`: 16,384 bytes,
// where that is 4,079.
fn wide(alloc: Global, id: u32, abc: &str, d: &str) -> Result<String, AllocError> {
    format!(in alloc;
        r#"{{"put":{{"graph":"t/g","type":"w","v":{{"id":{id},"a":"{abc}","b":"{abc}","c":"{abc}","d":"{d}"}}}}}}"#
    )
}

// 64 vertices: 63 whose rows take 16,384 bytes, and one whose `d` has this size.
fn wide_ones(alloc: Global, size: usize) -> Result<String, AllocError> {
    let full = letters(alloc, 4_079)?;
    let mut text = String::new(alloc);
    for id in 1..64 {
        text.push_str(wide(alloc, id, full.as_str(), full.as_str())?.as_str())?;
        text.push(',')?;
    }
    let last = letters(alloc, size)?;
    let last = wide(alloc, 64, full.as_str(), last.as_str())?;
    request(alloc, text.as_str(), last.as_str())
}

#[test]
fn changed_rows_take_1048576_bytes(rt: HostRuntime) -> Result<(), Fail> {
    let alloc = rt.alloc();
    let mut plain = begun(alloc)?;
    changed(alloc, &mut plain, WIDE)?;
    assert_eq!(rt;
        changed(alloc, &mut plain, wide_ones(alloc, 4_080)?.as_str())?,
        None
    );
    assert_eq!(rt;
        changed(alloc, &mut plain, wide_ones(alloc, 4_079)?.as_str())?,
        Some(64)
    );
    Ok(())
}
