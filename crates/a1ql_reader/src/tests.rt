use crate::{Comparison, PatternFault, Select, Test, VertexPattern, pattern};
use a1_value::Given;
use std::alloc::Global;
use std::test::Fail;

fn read(alloc: Global, text: &str) -> Result<VertexPattern, PatternFault> {
    match a1_json::read(alloc, text.as_bytes()) {
        Ok(json) => pattern(alloc, &json),
        Err(_) => Err(PatternFault::Memory),
    }
}

#[test]
fn takes_patterns(rt: HostRuntime) {
    for text in [
        r#"{"_type":"film"}"#,
        r#"{"_type":"film","year":1999}"#,
        r#"{"_type":"film","":1}"#,
        r#"{"_type":"film","Year_":{"_ge":1,"_lt":"x"}}"#,
        r#"{"_type":"film","_select":["a","_b",""]}"#,
        r#"{"_type":"film","_select":["_count(*)"]}"#,
        r#"{"_type":"film","_match":[{"_in_edge":{"_type":"acts","_vertex":{"_type":"actor"}}}],"_select":["a"]}"#,
        r#"{"_type":"a","_match":[{"_out_edge":{"_type":"e","_vertex":{"_type":"b","_match":[{"_in_edge":{"_type":"e","_vertex":{"_type":"a"}}}],"_in_edge":{"_type":"e","_vertex":{"_type":"a"}}}}}]}"#,
    ] {
        assert_eq!(rt; read(rt.alloc(), text).err(), None, "at {text}");
    }
}

#[test]
fn refuses_shapes(rt: HostRuntime) {
    for text in [
        r#"[]"#,
        r#"{}"#,
        r#"{"year":1}"#,
        r#"{"_type":1}"#,
        r#"{"_type":["film"]}"#,
        r#"{"_type":"film","year":true}"#,
        r#"{"_type":"film","year":null}"#,
        r#"{"_type":"film","year":[1]}"#,
        r#"{"_type":"film","year":{}}"#,
        r#"{"_type":"film","year":{"_eq":1,"_like":1}}"#,
        r#"{"_type":"film","year":{"_eq":null}}"#,
        r#"{"_type":"film","year":{"_eq":{"_eq":1}}}"#,
        r#"{"_type":"film","_match":{}}"#,
        r#"{"_type":"film","_match":[]}"#,
        r#"{"_type":"film","_match":[{}]}"#,
        r#"{"_type":"film","_match":[{"_edge":{"_type":"e","_vertex":{"_type":"a"}}}]}"#,
        r#"{"_type":"film","_match":[{"_in_edge":{"_type":"e","_vertex":{"_type":"a"}},"_out_edge":{"_type":"e","_vertex":{"_type":"a"}}}]}"#,
        r#"{"_type":"film","_match":[{"_in_edge":{"_type":"e","_vertex":{"_type":"a"}}},1]}"#,
        r#"{"_type":"film","_in_edge":{"_type":"e","_vertex":{"_type":"a"}},"_out_edge":{"_type":"e","_vertex":{"_type":"a"}}}"#,
        r#"{"_type":"film","_in_edge":"e"}"#,
        r#"{"_type":"film","_in_edge":{"_vertex":{"_type":"a"}}}"#,
        r#"{"_type":"film","_in_edge":{"_type":"e"}}"#,
        r#"{"_type":"film","_in_edge":{"_type":"e","_vertex":{"_type":"a"},"_match":[{"_in_edge":{"_type":"e","_vertex":{"_type":"a"}}}]}}"#,
        r#"{"_type":"film","_in_edge":{"_type":"e","_vertex":{"_type":"a"},"_select":["a"]}}"#,
        r#"{"_type":"film","_in_edge":{"_type":"e","_vertex":{"_type":"a"},"_out_edge":{"_type":"e","_vertex":{"_type":"a"}}}}"#,
        r#"{"_type":"film","_in_edge":{"_type":"e","_vertex":{"_type":"a","_x":1}}}"#,
        r#"{"_type":"film","_in_edge":{"_type":"e","_vertex":{"_type":"a"}},"_select":["a"]}"#,
        r#"{"_type":"film","_match":[{"_in_edge":{"_type":"e","_vertex":{"_type":"a","_select":["a"]}}}]}"#,
        r#"{"_type":"film","_select":"a"}"#,
        r#"{"_type":"film","_select":[]}"#,
        r#"{"_type":"film","_select":["a","b","a"]}"#,
        r#"{"_type":"film","_select":["a",1]}"#,
        r#"{"_type":"film","_vertex":{"_type":"a"}}"#,
        r#"{"_type":"film","_eq":1}"#,
        r#"{"_type":"A","_x":1}"#,
    ] {
        assert_eq!(rt;
            read(rt.alloc(), text).err(),
            Some(PatternFault::Shape),
            "at {text}"
        );
    }
}

#[test]
fn selects_at_most_32(rt: HostRuntime) -> Result<(), Fail> {
    for (count, want) in [(32, None), (33, Some(PatternFault::Shape))] {
        let text = selecting(rt.alloc(), count)?;
        assert_eq!(rt; read(rt.alloc(), &text).err(), want);
    }
    Ok(())
}

fn selecting(alloc: Global, count: usize) -> Result<String, Fail> {
    let mut text = String::from_str(alloc, r#"{"_type":"film","_select":["a0""#)?;
    for at in 1..count {
        text.push_str(&format!(in alloc; r#","a{at}""#)?)?;
    }
    text.push_str("]}")?;
    Ok(text)
}

#[test]
fn refuses_names(rt: HostRuntime) {
    for text in [
        r#"{"_type":"Film"}"#,
        r#"{"_type":""}"#,
        r#"{"_type":"film","_in_edge":{"_type":"_e","_vertex":{"_type":"a"}}}"#,
        r#"{"_type":"film","_in_edge":{"_type":"e","_vertex":{"_type":"1"}}}"#,
        r#"{"_type":"film","_match":[{"_in_edge":{"_type":"e","_vertex":{"_type":"a b"}}}]}"#,
    ] {
        assert_eq!(rt;
            read(rt.alloc(), text).err(),
            Some(PatternFault::Name),
            "at {text}"
        );
    }
}

fn is_test(test: Option<&Test>, attr: &str, op: Comparison, number: i64) -> bool {
    match test {
        Some(test) => {
            test.attr.as_text() == attr
                && test.op == op
                && matches!(&test.value, Given::Int(n) if *n == number)
        }
        None => false,
    }
}

#[test]
fn says_what_stands_there(rt: HostRuntime) -> Result<(), Fail> {
    let text = r#"{"b":2,"_type":"film","a":{"_lt":9,"_ge":3},"_select":["x","_count(*)"],"_match":[
        {"_out_edge":{"_type":"e","role":7,"_vertex":{"_type":"v","_in_edge":{"_type":"f","_vertex":{"_type":"w"}}}}}]}"#;
    let root = read(rt.alloc(), text)?;
    assert_eq!(rt; root.kind.as_text(), "film");
    assert_eq!(rt; root.tests.len(), 3);
    assert!(rt; is_test(root.tests.get(0), "a", Comparison::Ge, 3));
    assert!(rt; is_test(root.tests.get(1), "a", Comparison::Lt, 9));
    assert!(rt; is_test(root.tests.get(2), "b", Comparison::Eq, 2));
    assert!(rt; matches!(&root.select, Select::Names(names) if names.len() == 2));
    assert!(rt; root.hop.is_none());
    let entry = root.matches.get(0).ok_or("no match")?;
    assert!(rt; entry.out);
    assert_eq!(rt; entry.kind.as_text(), "e");
    assert!(rt; is_test(entry.tests.get(0), "role", Comparison::Eq, 7));
    let inner = entry.to.get();
    assert_eq!(rt; inner.kind.as_text(), "v");
    let hop = inner.hop.as_ref().ok_or("no hop")?.get();
    assert!(rt; !hop.out);
    assert_eq!(rt; hop.to.get().kind.as_text(), "w");
    Ok(())
}

// The vertex pattern behind the next hop, where that hop has this direction and is of this type.
fn behind<'a>(pattern: &'a VertexPattern, out: bool, kind: &str) -> Option<&'a VertexPattern> {
    let hop = pattern.hop.as_ref()?.get();
    if hop.out == out && hop.kind.as_text() == kind {
        Some(hop.to.get())
    } else {
        None
    }
}

fn is_text(test: Option<&Test>, attr: &str, text: &str) -> bool {
    match test {
        Some(test) => {
            test.attr.as_text() == attr
                && test.op == Comparison::Eq
                && matches!(&test.value, Given::Text(t) if t.as_text() == text)
        }
        None => false,
    }
}

// Actors in the films of `a`, counted.
#[test]
fn reads_two_hops(rt: HostRuntime) -> Result<(), Fail> {
    let root = read(
        rt.alloc(),
        r#"{"_type":"actor","id":"a","_out_edge":{"_type":"acts","_vertex":{"_type":"film","_in_edge":{"_type":"acts","_vertex":{"_type":"actor","_select":["_count(*)"]}}}}}"#,
    )?;
    assert!(rt; is_text(root.tests.get(0), "id", "a"));
    let films = behind(&root, true, "acts").ok_or("no films")?;
    assert_eq!(rt; films.kind.as_text(), "film");
    assert!(rt; films.tests.is_empty());
    let actors = behind(films, false, "acts").ok_or("no actors")?;
    assert_eq!(rt; actors.kind.as_text(), "actor");
    assert!(rt; matches!(actors.select, Select::Count));
    Ok(())
}

// Actors of the film `f1`.
#[test]
fn reads_one_hop(rt: HostRuntime) -> Result<(), Fail> {
    let root = read(
        rt.alloc(),
        r#"{"_type":"film","id":"f1","_in_edge":{"_type":"acts","_vertex":{"_type":"actor"}}}"#,
    )?;
    assert!(rt; is_text(root.tests.get(0), "id", "f1"));
    let actors = behind(&root, false, "acts").ok_or("no actors")?;
    assert!(rt; actors.hop.is_none());
    assert!(rt; matches!(actors.select, Select::All));
    Ok(())
}

// Films from 2000 on.
#[test]
fn reads_a_comparison(rt: HostRuntime) -> Result<(), Fail> {
    let root = read(rt.alloc(), r#"{"_type":"film","year":{"_ge":2000}}"#)?;
    assert_eq!(rt; root.tests.len(), 1);
    assert!(rt; is_test(root.tests.get(0), "year", Comparison::Ge, 2000));
    assert!(rt; root.matches.is_empty());
    Ok(())
}

// Actors who played a hero.
#[test]
fn reads_a_match(rt: HostRuntime) -> Result<(), Fail> {
    let root = read(
        rt.alloc(),
        r#"{"_type":"actor","_match":[{"_out_edge":{"_type":"acts","role":"hero","_vertex":{"_type":"film"}}}]}"#,
    )?;
    assert!(rt; root.tests.is_empty() && root.hop.is_none());
    assert_eq!(rt; root.matches.len(), 1);
    let entry = root.matches.get(0).ok_or("no match")?;
    assert!(rt; entry.out);
    assert!(rt; is_text(entry.tests.get(0), "role", "hero"));
    assert_eq!(rt; entry.to.get().kind.as_text(), "film");
    Ok(())
}

#[test]
fn tells_what_is_selected(rt: HostRuntime) -> Result<(), Fail> {
    assert!(rt; matches!(read(rt.alloc(), r#"{"_type":"a"}"#)?.select, Select::All));
    assert!(rt;
        matches!(
            read(rt.alloc(), r#"{"_type":"a","_select":["_count(*)"]}"#)?.select,
            Select::Count
        )
    );
    Ok(())
}
