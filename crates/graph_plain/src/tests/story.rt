//! Requests one after another, each with the rows that it changes.
use super::showing::{all_shown, answer};
use super::{begun, operations};
use crate::Plain;
use std::alloc::Global;
use std::test::Fail;

// In the order of whole keys, the edge type `e` comes before `aa`.
const STORY: &[(&str, &str)] = &[
    (
        r#"{"do":[{"create_tenant":"u"},{"create_graph":"u/h"}]}"#,
        "tenant u; graph u/h=3; counter=4; ",
    ),
    (
        r#"{"do":[{"create_vertex_type":{"graph":"u/h","type":"m","attrs":[{"name":"id","kind":"text"}]}}]}"#,
        "type 3 m of a schema; ",
    ),
    (
        r#"{"do":[{"put":{"graph":"u/h","type":"m","v":{"id":"x"}}}]}"#,
        "vertex 3 m x: x; ",
    ),
    (
        r#"{"do":[{"put":{"graph":"t/g","type":"n","v":{"id":-1,"age":30}}}]}"#,
        "vertex 2 n -1: -1 30; ",
    ),
    (
        r#"{"do":[{"set":{"graph":"t/g","type":"n","id":-1,"v":{"age":40}}}]}"#,
        "vertex 2 n -1: -1 40; ",
    ),
    (
        r#"{"do":[{"add":{"graph":"t/g","type":"n","id":-1,"attr":"age","by":-50}}]}"#,
        "vertex 2 n -1: -1 -10; ",
    ),
    (
        r#"{"do":[{"put":{"graph":"t/g","type":"n","v":{"id":7,"age":1}}},
{"link":{"graph":"t/g","type":"aa","from":{"type":"n","id":-1},"to":{"type":"n","id":7}}},
{"link":{"graph":"t/g","type":"e","from":{"type":"n","id":7},"to":{"type":"n","id":-1}}},
{"link":{"graph":"t/g","type":"e","from":{"type":"n","id":-1},"to":{"type":"n","id":-1}}}]}"#,
        "vertex 2 n 7: 7 1; edge 2 aa -1-7:; edge 2 e 7--1:; edge 2 e -1--1:; ",
    ),
    (
        r#"{"do":[{"unlink":{"graph":"t/g","type":"aa","from":{"type":"n","id":-1},"to":{"type":"n","id":7}}},
{"link":{"graph":"t/g","type":"aa","from":{"type":"n","id":-1},"to":{"type":"n","id":7}}}]}"#,
        "edge 2 aa -1-7 gone; edge 2 aa -1-7:; ",
    ),
    (
        r#"{"do":[{"drop":{"graph":"t/g","type":"n","id":-1}},{"put":{"graph":"t/g","type":"n","v":{"id":7,"age":1}}}]}"#,
        "KeyTaken",
    ),
    (
        r#"{"do":[{"drop_graph":"u/h"},{"create_graph":"u/i"},{"put":{"graph":"t/g","type":"n","v":{"id":8}}}]}"#,
        "Missing age",
    ),
    (
        r#"{"do":[{"drop":{"graph":"t/g","type":"n","id":-1}}]}"#,
        "edge 2 e -1--1 gone; edge 2 e 7--1 gone; edge 2 aa -1-7 gone; vertex 2 n -1 gone; ",
    ),
    (
        r#"{"do":[{"drop_graph":"u/h"},{"create_graph":"u/h"}]}"#,
        "graph u/h gone; graph u/h=4; counter=5; ",
    ),
];

const LEFT: &str =
    "counter=5; tenant sys; tenant t; tenant u; graph sys/names=1; graph t/g=2; graph u/h=4; \
    type 1 name of a schema; type 2 e of a schema; type 2 n of a schema; type 2 aa of a schema; vertex 2 n 7: 7 1; ";

#[test]
fn requests_change_their_rows(rt: HostRuntime) -> Result<(), Fail> {
    let alloc = rt.alloc();
    let mut plain = begun(alloc)?;
    for (line, rows) in STORY {
        let told = answer(alloc, &mut plain, line)?;
        assert_eq!(rt; told.as_str(), *rows, "at {line}");
    }
    let left = all_shown(alloc, &plain)?;
    assert_eq!(rt; left.as_str(), LEFT);
    Ok(())
}

fn dropped(alloc: Global, plain: &mut Plain, line: &str) -> Result<bool, Fail> {
    Ok(
        plain
            .effect(alloc, operations(alloc, line)?.as_slice())
            .is_ok(),
    )
}

#[test]
fn a_refused_graph_is_the_same(rt: HostRuntime) -> Result<(), Fail> {
    let alloc = rt.alloc();
    let mut plain = begun(alloc)?;
    let kept = begun(alloc)?;
    assert!(rt;
        !dropped(
            alloc,
            &mut plain,
            r#"{"do":[{"drop_graph":"t/g"},{"drop_graph":"t/g"}]}"#
        )?
    );
    assert!(rt; plain.equal(&kept));
    assert!(rt; dropped(alloc, &mut plain, r#"{"do":[{"drop_graph":"t/g"}]}"#)?);
    assert!(rt; !plain.equal(&kept));
    Ok(())
}
