use crate::{Plan, Projection, Types, plan};
use a1_base::Txt;
use a1_value::Value;
use a1ql_reader::{Comparison, VertexPattern, pattern};
use std::alloc::{AllocError, Global};
use std::collections::BTreeMap;
use std::test::Fail;
use type_schema::{Attr, GraphFault, Kind, Refusal, Schema, TypeName, TypeSchema, Word};

// ---- the types of the film graph, which has the number 2

#[derive(Drop)]
struct Films {
    types: BTreeMap<TypeName, TypeSchema>,
}

impl Types for Films {
    ghost list = { λ f. f.types.entries };

    fn schema(&self, name: &TypeName) -> Option<&TypeSchema> {
        self.types.get(name)
    }
}

fn schema(alloc: Global, attrs: &[(&str, Kind)]) -> Result<Schema, AllocError> {
    let mut all = Vec::new(alloc);
    for (name, kind) in attrs {
        let name = Txt::from_text(alloc, name)?;
        let (kind, index) = (*kind, false);
        all.push(Attr { name, kind, index })?;
    }
    Ok(Schema { attrs: all })
}

fn name(alloc: Global, graph: u64, name: &str) -> Result<TypeName, AllocError> {
    let name = Txt::from_text(alloc, name)?;
    Ok(TypeName { graph, name })
}

fn film_types(alloc: Global) -> Result<Films, Fail> {
    let mut types = BTreeMap::new(alloc);
    let film = schema(
        alloc,
        &[
            ("id", Kind::Text),
            ("year", Kind::Int),
            ("poster", Kind::Bytes),
        ],
    )?;
    let actor = schema(alloc, &[("id", Kind::Text)])?;
    let acts = schema(alloc, &[("role", Kind::Text), ("fee", Kind::Int)])?;
    types.insert(name(alloc, 2, "film")?, TypeSchema::OfVertices(film))?;
    types.insert(name(alloc, 2, "actor")?, TypeSchema::OfVertices(actor))?;
    types.insert(name(alloc, 2, "acts")?, TypeSchema::OfEdges(acts))?;
    types.insert(
        name(alloc, 3, "city")?,
        TypeSchema::OfVertices(schema(alloc, &[])?),
    )?;
    Ok(Films { types })
}

fn read(alloc: Global, text: &str) -> Result<VertexPattern, Fail> {
    let json = a1_json::read(alloc, text.as_bytes())?;
    Ok(pattern(alloc, &json)?)
}

fn planned(alloc: Global, text: &str) -> Result<Result<Plan, GraphFault>, Fail> {
    let films = film_types(alloc)?;
    let root = read(alloc, text)?;
    Ok(plan(alloc, &films, 2, &root))
}

// ---- refusals

// The word of the refusal, and for `kind` the attribute.
fn word(alloc: Global, refusal: &Refusal) -> Result<String, AllocError> {
    match (refusal.word, &refusal.attr) {
        (Word::Deep, None) => String::from_str(alloc, "deep"),
        (Word::NoType, None) => String::from_str(alloc, "no_type"),
        (Word::NoAttr, None) => String::from_str(alloc, "no_attr"),
        (Word::Kind, Some(attr)) => format!(in alloc; "kind of {}", attr.as_text()),
        _ => String::from_str(alloc, "another"),
    }
}

fn said(alloc: Global, text: &str) -> Result<String, Fail> {
    match planned(alloc, text)? {
        Ok(_plan) => Ok(String::from_str(alloc, "planned")?),
        Err(fault) => match fault {
            GraphFault::Refused(refusal) => Ok(word(alloc, &refusal)?),
            GraphFault::Memory => Ok(String::from_str(alloc, "memory")?),
        },
    }
}

#[test]
fn refuses_in_order(rt: HostRuntime) -> Result<(), Fail> {
    for (text, word) in [
        (r#"{"_type":"film"}"#, "planned"),
        (
            r#"{"_type":"film","year":{"_ge":2000},"poster":"0aFF","_select":["year","id"]}"#,
            "planned",
        ),
        // types
        (r#"{"_type":"city"}"#, "no_type"),
        (r#"{"_type":"acts"}"#, "no_type"),
        (r#"{"_type":"films","x":1}"#, "no_type"),
        (
            r#"{"_type":"actor","_out_edge":{"_type":"film","_vertex":{"_type":"film"}}}"#,
            "no_type",
        ),
        // comparisons
        (r#"{"_type":"film","x":1}"#, "no_attr"),
        (r#"{"_type":"film","a":1,"year":"x"}"#, "no_attr"),
        (r#"{"_type":"film","id":1,"x":1}"#, "kind of id"),
        (r#"{"_type":"film","year":"x"}"#, "kind of year"),
        (
            r#"{"_type":"film","year":{"_eq":1,"_ne":"x"}}"#,
            "kind of year",
        ),
        (r#"{"_type":"film","poster":1}"#, "kind of poster"),
        (r#"{"_type":"film","poster":"0af"}"#, "kind of poster"),
        // the comparisons before the matches, these in order, and before the hop
        (
            r#"{"_type":"film","x":1,"_match":[{"_in_edge":{"_type":"e","_vertex":{"_type":"actor"}}}]}"#,
            "no_attr",
        ),
        (
            r#"{"_type":"film","_match":[{"_in_edge":{"_type":"acts","fee":"x","_vertex":{"_type":"actor"}}},{"_in_edge":{"_type":"e","_vertex":{"_type":"actor"}}}]}"#,
            "kind of fee",
        ),
        (
            r#"{"_type":"film","_match":[{"_in_edge":{"_type":"acts","_vertex":{"_type":"actor","x":1}}}],"_in_edge":{"_type":"e","_vertex":{"_type":"actor"}}}"#,
            "no_attr",
        ),
        // of an edge its type, its comparisons, and then its vertex
        (
            r#"{"_type":"film","_in_edge":{"_type":"acts","role":1,"_vertex":{"_type":"v"}}}"#,
            "kind of role",
        ),
        (
            r#"{"_type":"film","_in_edge":{"_type":"acts","_vertex":{"_type":"v","x":1}}}"#,
            "no_type",
        ),
        // what is selected, last
        (r#"{"_type":"film","_select":["id","x"]}"#, "no_attr"),
        (
            r#"{"_type":"film","year":"x","_select":["x"]}"#,
            "kind of year",
        ),
        (
            r#"{"_type":"film","_match":[{"_in_edge":{"_type":"e","_vertex":{"_type":"actor"}}}],"_select":["x"]}"#,
            "no_type",
        ),
        (
            r#"{"_type":"film","_in_edge":{"_type":"acts","_vertex":{"_type":"actor","_select":["year"]}}}"#,
            "no_attr",
        ),
    ] {
        assert_eq!(rt; said(rt.alloc(), text)?.as_str(), word, "at {text}");
    }
    Ok(())
}

// A path of so many edge patterns behind this root: the first is a match, the others are hops.
fn path(alloc: Global, root: &str, edges: usize) -> Result<String, Fail> {
    let mut text = String::from_str(alloc, r#"{"_type":"actor"}"#)?;
    for _ in 1..edges {
        text = format!(in alloc;
            r#"{{"_type":"actor","_out_edge":{{"_type":"acts","_vertex":{text}}}}}"#
        )?;
    }
    Ok(format!(in alloc;
        r#"{{"_type":"{root}","_match":[{{"_in_edge":{{"_type":"acts","_vertex":{text}}}}}]}}"#
    )?)
}

#[test]
fn follows_8_edges(rt: HostRuntime) -> Result<(), Fail> {
    for (root, edges, word) in [
        ("actor", 8, "planned"),
        ("actor", 9, "deep"),
        ("none", 8, "no_type"),
        ("none", 9, "deep"),
    ] {
        let text = path(rt.alloc(), root, edges)?;
        assert_eq!(rt; said(rt.alloc(), &text)?.as_str(), word, "at {text}");
    }
    Ok(())
}

#[test]
fn counts_edges_of_one_path(rt: HostRuntime) -> Result<(), Fail> {
    let edge = r#"{"_in_edge":{"_type":"acts","_vertex":{"_type":"actor"}}}"#;
    let three = format!(in rt.alloc(); "{edge},{edge},{edge}")?;
    let text = format!(in rt.alloc(); r#"{{"_type":"actor","_match":[{three},{three},{three}]}}"#)?;
    assert_eq!(rt; said(rt.alloc(), &text)?.as_str(), "planned");
    Ok(())
}

// ---- plans

// The names and places of what is selected.
fn columns(alloc: Global, select: &Projection) -> Result<String, AllocError> {
    match select {
        Projection::Count => String::from_str(alloc, "count"),
        Projection::Columns(columns) => {
            let mut text = String::new(alloc);
            for column in columns.as_slice() {
                let (name, place) = (column.name.as_text(), column.place);
                text = format!(in alloc; "{text} {name} {place}")?;
            }
            Ok(text)
        }
    }
}

#[test]
fn finds_places(rt: HostRuntime) -> Result<(), Fail> {
    let text =
        r#"{"_type":"actor","_out_edge":{"_type":"acts","fee":{"_lt":9},"_vertex":{"_type":"film"}}}"#;
    let root = planned(rt.alloc(), text)??;
    assert_eq!(rt; root.kind.graph, 2);
    assert_eq!(rt; root.kind.name.as_text(), "actor");
    let hop = root.hop.as_ref().ok_or("no hop")?.get();
    assert!(rt; hop.out);
    let test = hop.tests.get(0).ok_or("no test")?;
    assert_eq!(rt; test.place, 1);
    assert!(rt; test.op == Comparison::Lt && matches!(test.value, Value::Int(9)));
    Ok(())
}

#[test]
fn selects_columns(rt: HostRuntime) -> Result<(), Fail> {
    for (text, selected) in [
        (r#"{"_type":"film"}"#, " id 0 year 1 poster 2"),
        (
            r#"{"_type":"film","_select":["year","id"]}"#,
            " year 1 id 0",
        ),
        (r#"{"_type":"film","_select":["_count(*)"]}"#, "count"),
    ] {
        let root = planned(rt.alloc(), text)??;
        let selected_by = columns(rt.alloc(), &root.select)?;
        assert_eq!(rt; selected_by.as_str(), selected, "at {text}");
    }
    Ok(())
}
