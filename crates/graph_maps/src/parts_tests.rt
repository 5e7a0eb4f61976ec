use crate::{EdgesOf, Places, TypesOf, VerticesOf, VerticesOfType};
use a1_base::Txt;
use a1_value::Value;
use std::alloc::Global;
use std::test::Fail;
use type_schema::{EdgeName, TypeName, VertexName};

fn type_name(alloc: Global, graph: u64, name: &str) -> Result<TypeName, Fail> {
    Ok(TypeName {
        graph,
        name: Txt::from_text(alloc, name)?,
    })
}

fn vertex_name(alloc: Global, graph: u64, kind: &str, key: i64) -> Result<VertexName, Fail> {
    Ok(VertexName {
        graph,
        kind: Txt::from_text(alloc, kind)?,
        key: Value::Int(key),
    })
}

fn edge_name(alloc: Global, graph: u64, kind: &str, from: i64) -> Result<EdgeName, Fail> {
    Ok(EdgeName {
        graph,
        kind: Txt::from_text(alloc, kind)?,
        from_kind: Txt::from_text(alloc, "")?,
        from: Value::Int(from),
        to_kind: Txt::from_text(alloc, "")?,
        to: Value::Int(i64::MIN),
    })
}

// The values of rows, in their order.
fn shown<K>(alloc: Global, rows: &[(&K, &u64)]) -> Result<String, Fail> {
    let mut text = String::new(alloc);
    for row in rows {
        text.push_str(format!(in alloc; "{} ", row.1)?.as_str())?;
    }
    Ok(text)
}

fn put_type(
    alloc: Global,
    types: &mut Places<TypeName, u64>,
    graph: u64,
    name: &str,
    value: u64,
) -> Result<(), Fail> {
    let key = type_name(alloc, graph, name)?;
    let again = key.copy(alloc)?;
    types.put(key, again, value)?;
    Ok(())
}

// Types around graph 2, of which one is taken out again.
fn some_types(alloc: Global) -> Result<Places<TypeName, u64>, Fail> {
    let mut types = Places::new(alloc);
    for (graph, name, value) in [
        (1, "z", 0),
        (2, "", 1),
        (2, "b", 2),
        (2, "a", 3),
        (3, "", 4),
    ] {
        put_type(alloc, &mut types, graph, name, value)?;
    }
    types.take(type_name(alloc, 2, "b")?)?;
    Ok(types)
}

fn types_of(alloc: Global, types: &Places<TypeName, u64>, graph: u64) -> Result<String, Fail> {
    let part = TypesOf::new(alloc, graph)?;
    shown(alloc, &types.part(alloc, &part)?)
}

#[test]
fn types_of_a_graph(rt: HostRuntime) -> Result<(), Fail> {
    let alloc = rt.alloc();
    let types = some_types(alloc)?;
    assert_eq!(rt; types_of(alloc, &types, 2)?.as_str(), "1 3 ");
    assert_eq!(rt; types_of(alloc, &types, 4)?.as_str(), "");
    Ok(())
}

fn put_vertex(
    alloc: Global,
    vertices: &mut Places<VertexName, u64>,
    name: VertexName,
    value: u64,
) -> Result<(), Fail> {
    let again = name.copy(alloc)?;
    vertices.put(name, again, value)?;
    Ok(())
}

// Vertices around graph 2 and around its type `b`.
fn some_vertices(alloc: Global) -> Result<Places<VertexName, u64>, Fail> {
    let mut vertices = Places::new(alloc);
    for (graph, kind, id, value) in [
        (1, "b", i64::MAX, 0),
        (2, "", 7, 1),
        (2, "a", i64::MAX, 2),
        (2, "b", i64::MIN, 3),
        (2, "b", i64::MAX, 4),
        (2, "ba", i64::MIN, 5),
        (3, "", i64::MIN, 6),
    ] {
        let name = vertex_name(alloc, graph, kind, id)?;
        put_vertex(alloc, &mut vertices, name, value)?;
    }
    Ok(vertices)
}

fn vertices_of(alloc: Global, vertices: &Places<VertexName, u64>) -> Result<String, Fail> {
    let part = VerticesOf::new(alloc, 2)?;
    shown(alloc, &vertices.part(alloc, &part)?)
}

fn vertices_of_b(alloc: Global, vertices: &Places<VertexName, u64>) -> Result<String, Fail> {
    let part = VerticesOfType::new(alloc, &type_name(alloc, 2, "b")?)?;
    shown(alloc, &vertices.part(alloc, &part)?)
}

#[test]
fn vertices_of_a_graph_and_of_a_type(rt: HostRuntime) -> Result<(), Fail> {
    let alloc = rt.alloc();
    let vertices = some_vertices(alloc)?;
    assert_eq!(rt; vertices_of(alloc, &vertices)?.as_str(), "1 2 3 4 5 ");
    assert_eq!(rt; vertices_of_b(alloc, &vertices)?.as_str(), "3 4 ");
    Ok(())
}

fn put_edge(
    alloc: Global,
    edges: &mut Places<EdgeName, u64>,
    name: EdgeName,
    value: u64,
) -> Result<(), Fail> {
    let again = name.copy(alloc)?;
    edges.put(name, again, value)?;
    Ok(())
}

// Edges around graph 2.
fn some_edges(alloc: Global) -> Result<Places<EdgeName, u64>, Fail> {
    let mut edges = Places::new(alloc);
    for (graph, kind, from, value) in [
        (1, "z", i64::MAX, 0),
        (2, "", i64::MIN, 1),
        (2, "z", i64::MAX, 2),
        (3, "", i64::MIN, 3),
    ] {
        let name = edge_name(alloc, graph, kind, from)?;
        put_edge(alloc, &mut edges, name, value)?;
    }
    Ok(edges)
}

#[test]
fn edges_of_a_graph(rt: HostRuntime) -> Result<(), Fail> {
    let alloc = rt.alloc();
    let edges = some_edges(alloc)?;
    let part = EdgesOf::new(alloc, 2)?;
    assert_eq!(rt; shown(alloc, &edges.part(alloc, &part)?)?.as_str(), "1 2 ");
    Ok(())
}
