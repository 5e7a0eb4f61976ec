ghost use Rattle.std.specs.Prelude.{◌≡◌, IfOk};
ghost use Rattle.type_schema.specs.Schemas.{key_of};

use crate::{Edges, Vertices};
use a1_base::Txt;
use a1_value::Value;
use std::alloc::Global;
use std::test::Fail;
use type_schema::{EdgeName, Record, TypeName, VertexName};

fn vertex(alloc: Global, key: i64) -> Result<VertexName, Fail> {
    Ok(VertexName {
        graph: 1,
        kind: Txt::from_text(alloc, "v")?,
        key: Value::Int(key),
    })
}

fn edge(alloc: Global, kind: &str, from: i64, to: i64) -> Result<EdgeName, Fail> {
    Ok(EdgeName {
        graph: 1,
        kind: Txt::from_text(alloc, kind)?,
        from_kind: Txt::from_text(alloc, "v")?,
        from: Value::Int(from),
        to_kind: Txt::from_text(alloc, "v")?,
        to: Value::Int(to),
    })
}

fn record(alloc: Global, value: i64) -> Result<Record, Fail> {
    Ok(Record {
        values: vec![in alloc; Value::Int(value)]?,
    })
}

// A record with this vertex' key first.
fn keyed(alloc: Global, name: &VertexName) -> Result<Record, Fail>
    ensures { IfOk result (λ values. key_of values ≡ name.now.key) }
{
    let key = name.key.copy(alloc)?;
    let mut values = Vec::new(alloc);
    values.push(key)?;
    Ok(Record { values })
}

fn shown(alloc: Global, names: &[EdgeName]) -> Result<String, Fail> {
    let mut text = String::new(alloc);
    for name in names {
        if let (Value::Int(from), Value::Int(to)) = (&name.from, &name.to) {
            text.push_str(format!(in alloc; "{}:{}>{} ", name.kind.as_text(), from, to)?.as_str())?;
        }
    }
    Ok(text)
}

fn at(alloc: Global, edges: &Edges, out: bool, kind: &str, key: i64) -> Result<usize, Fail> {
    let of = TypeName {
        graph: 1,
        name: Txt::from_text(alloc, kind)?,
    };
    Ok(edges.at(alloc, out, &of, &vertex(alloc, key)?)?.len())
}

fn around(alloc: Global, edges: &Edges, key: i64) -> Result<String, Fail> {
    let vertex = vertex(alloc, key)?;
    let names = edges.at_vertex(alloc, &vertex)?;
    shown(alloc, &names)
}

fn put(alloc: Global, edges: &mut Edges, kind: &str, from: i64, to: i64) -> Result<(), Fail> {
    let name = edge(alloc, kind, from, to)?;
    let values = record(alloc, from)?;
    edges.put(alloc, name, values)?;
    Ok(())
}

// How many edges of type `b` lead from vertex 2, how many lead to it, and how many without a type.
fn counts(alloc: Global, edges: &Edges) -> Result<String, Fail> {
    let from = at(alloc, edges, true, "b", 2)?;
    let to = at(alloc, edges, false, "b", 2)?;
    let of_no_type = at(alloc, edges, false, "", 2)?;
    Ok(format!(in alloc; "{} {} {}", from, to, of_no_type)?)
}

// Edges around vertex 2, with a loop and an empty type.
fn some_edges(alloc: Global) -> Result<Edges, Fail> {
    let mut edges = Edges::new(alloc);
    for (kind, from, to) in [
        ("b", 2, 3),
        ("a", 2, 2),
        ("", 1, 2),
        ("a", 1, 3),
        ("b", 2, 1),
    ] {
        put(alloc, &mut edges, kind, from, to)?;
    }
    Ok(edges)
}

fn take(alloc: Global, edges: &mut Edges, kind: &str, from: i64, to: i64) -> Result<(), Fail> {
    let name = edge(alloc, kind, from, to)?;
    edges.take(alloc, name)?;
    Ok(())
}

#[test]
fn edges_are_found_from_both_ends(rt: HostRuntime) -> Result<(), Fail> {
    let alloc = rt.alloc();
    let edges = some_edges(alloc)?;
    assert_eq!(rt;
        around(alloc, &edges, 2)?.as_str(),
        ":1>2 a:2>2 b:2>1 b:2>3 "
    );
    assert_eq!(rt; counts(alloc, &edges)?.as_str(), "2 0 1");
    Ok(())
}

// Takes two edges out, one of them the loop, and puts one in.
fn change(alloc: Global, edges: &mut Edges) -> Result<(), Fail> {
    take(alloc, edges, "b", 2, 3)?;
    take(alloc, edges, "a", 2, 2)?;
    put(alloc, edges, "b", 3, 2)
}

#[test]
fn edges_go_back(rt: HostRuntime) -> Result<(), Fail> {
    let alloc = rt.alloc();
    let mut edges = some_edges(alloc)?;
    edges.keep();
    change(alloc, &mut edges)?;
    assert_eq!(rt; around(alloc, &edges, 2)?.as_str(), ":1>2 b:2>1 b:3>2 ");
    assert_eq!(rt; counts(alloc, &edges)?.as_str(), "1 1 1");
    edges.back();
    assert_eq!(rt;
        around(alloc, &edges, 2)?.as_str(),
        ":1>2 a:2>2 b:2>1 b:2>3 "
    );
    assert_eq!(rt; counts(alloc, &edges)?.as_str(), "2 0 1");
    Ok(())
}

#[test]
fn vertices_go_back(rt: HostRuntime) -> Result<(), Fail> {
    let alloc = rt.alloc();
    let mut vertices = Vertices::new(alloc);
    let name = vertex(alloc, 1)?;
    let again = name.copy(alloc)?;
    let values = keyed(alloc, &name)?;
    vertices.put(name, again, values)?;
    vertices.keep();
    let taken = vertex(alloc, 1)?;
    vertices.take(taken)?;
    assert!(rt; vertices.get(&vertex(alloc, 1)?).is_none());
    vertices.back();
    let found = vertex(alloc, 1)?;
    assert!(rt; vertices.get(&found).is_some());
    Ok(())
}
