//! The rows that requests change, and the most that they may.
mod limits;
mod showing;
mod story;

use crate::Plain;
use request_reader::{Op, Request, read};
use sqlite_items::Items;
use std::alloc::Global;
use std::test::Fail;

// The operations of a line.
fn operations(alloc: Global, line: &str) -> Result<Items<Op>, Fail> {
    match read(alloc, line.as_bytes()) {
        Ok(Request::Do(ops)) => Ok(ops),
        _ => Err(Fail::from("no operations")),
    }
}

// The graph `t/g` of number 2, with vertices of the type `n` and edges of the types `e` and `aa`.
const BEGIN: &str = r#"{"do":[{"create_tenant":"t"},{"create_graph":"t/g"},
{"create_vertex_type":{"graph":"t/g","type":"n","attrs":[{"name":"id","kind":"int"},{"name":"age","kind":"int"}]}},
{"create_edge_type":{"graph":"t/g","type":"e","attrs":[]}},{"create_edge_type":{"graph":"t/g","type":"aa","attrs":[]}}]}"#;

fn begun(alloc: Global) -> Result<Plain, Fail> {
    let mut plain = Plain::opening(alloc)?;
    plain.effect(alloc, operations(alloc, BEGIN)?.as_slice())?;
    Ok(plain)
}
