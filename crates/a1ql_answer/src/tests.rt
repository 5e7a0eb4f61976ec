ghost use Rattle.std.specs.Prelude.{◌≡◌, [], Some, ◌&&◌, filter, map, IfOk};
ghost use Rattle.std.specs.Map.Iter.{deref_pair};
ghost use Rattle.a1_base.specs.Maps.{at};
ghost use Rattle.a1_value.specs.declared.value.Value.TheVariants.{Text};
ghost use Rattle.type_schema.specs.declared.names.VertexName as vertex;
ghost use Rattle.type_schema.specs.Schemas as schemas;
ghost use Rattle.type_schema.specs.Schemas.{key_of};
ghost use Rattle.type_schema.specs.Graph.{vertex_order, near};
ghost use Rattle.a1ql_plan.specs.Answer.{is_vertex, is_type};

use crate::naming::{far, is_of};
use crate::{View, answer};
use a1_base::{Memory, Txt};
use a1_value::Value;
use a1ql_plan::{Plan, Types, plan};
use a1ql_reader::{Answer, Row, pattern};
use std::alloc::{AllocError, Global};
use std::collections::BTreeMap;
use std::test::Fail;
use type_schema::{Attr, EdgeName, Kind, Record, Schema, TypeName, TypeSchema, VertexName};

// ---- a graph of films, which has the number 2

#[derive(Drop)]
struct Films {
    types: BTreeMap<TypeName, TypeSchema>,
    vertices: BTreeMap<VertexName, Record>,
    edges: BTreeMap<EdgeName, Record>,
    ghost keyed: { (v : vertex.VertexName) (x : schemas.Record)
        → at vertex_order v vertices.entries ≡ Some x → key_of x ≡ v.key },
}

impl Types for Films {
    ghost list = { λ f. f.types.entries };

    fn schema(&self, name: &TypeName) -> Option<&TypeSchema> {
        self.types.get(name)
    }
}

// Whether the edge is of this type and at this vertex.
fn is_at(
    alloc: Global,
    out: bool,
    kind: &TypeName,
    vertex: &VertexName,
    edge: &EdgeName,
) -> Result<bool, Memory>
    ensures { IfOk result (λ b. b
        ≡ (is_vertex vertex.now (near out edge.now) && is_type kind.now edge.now.graph edge.now.kind)) }
{
    let end = far(alloc, !out, edge)?;
    let is_kind = kind
        .graph
        .cmp(&edge.graph)
        .then(kind.name.cmp(&edge.kind))
        .is_eq();
    Ok(vertex.cmp(&end).is_eq() && is_kind)
}

// The edges of this type at this vertex.
fn edges_at<'a>(
    alloc: Global,
    edges: &'a BTreeMap<EdgeName, Record>,
    out: bool,
    kind: &TypeName,
    vertex: &VertexName,
) -> Result<Vec<(&'a EdgeName, &'a Record)>, Memory>
    ensures { IfOk result (λ rows. map deref_pair rows.items
        ≡ filter (λ e. is_vertex vertex.now (near out e.0) && is_type kind.now e.0.graph e.0.kind) edges.now.entries) }
{
    let mut rows = Vec::new(alloc);
    for (edge, values) in edges {
        if is_at(alloc, out, kind, vertex, edge)? {
            rows.push((edge, values))?;
        }
    }
    Ok(rows)
}

impl View for Films {
    ghost graph = { λ f. record {
      tenants = [];
      graphs = [];
      types = [];
      vertices = f.vertices.entries;
      edges = f.edges.entries;
      next = 0;
    } };

    fn vertex(&self, name: &VertexName) -> Option<&Record> {
        self.vertices.get(name)
    }

    fn edges(
        &self,
        alloc: Global,
        out: bool,
        kind: &TypeName,
        vertex: &VertexName,
    ) -> Result<Vec<(&EdgeName, &Record)>, Memory> {
        let rows = edges_at(alloc, &self.edges, out, kind, vertex)?;
        Ok(rows)
    }

    fn of_type(
        &self,
        alloc: Global,
        kind: &TypeName,
    ) -> Result<Vec<(&VertexName, &Record)>, Memory> {
        let mut rows = Vec::new(alloc);
        for (vertex, values) in &self.vertices {
            if is_of(kind, vertex) {
                rows.push((vertex, values))?;
            }
        }
        Ok(rows)
    }

    fn ordered(&self) {
        let _vertices = self.vertices.iter();
    }

    fn keyed(&self) {}
}

fn txt(alloc: Global, text: &str) -> Result<Value, AllocError>
    ensures { IfOk result (λ v. v ≡ Text text.now) }
{
    Ok(Value::Text(Txt::from_text(alloc, text)?))
}

fn name(alloc: Global, name: &str) -> Result<TypeName, AllocError> {
    let name = Txt::from_text(alloc, name)?;
    Ok(TypeName { graph: 2, name })
}

fn schema(alloc: Global, attrs: &[(&str, Kind)]) -> Result<Schema, AllocError> {
    let mut all = Vec::new(alloc);
    for (name, kind) in attrs {
        let name = Txt::from_text(alloc, name)?;
        let (kind, index) = (*kind, false);
        all.push(Attr { name, kind, index })?;
    }
    Ok(Schema { attrs: all })
}

fn film_types(alloc: Global) -> Result<BTreeMap<TypeName, TypeSchema>, AllocError> {
    let mut types = BTreeMap::new(alloc);
    let film = schema(alloc, &[("id", Kind::Text), ("year", Kind::Int)])?;
    let actor = schema(alloc, &[("id", Kind::Text)])?;
    let acts = schema(alloc, &[("role", Kind::Text)])?;
    let knows = schema(alloc, &[])?;
    types.insert(name(alloc, "film")?, TypeSchema::OfVertices(film))?;
    types.insert(name(alloc, "actor")?, TypeSchema::OfVertices(actor))?;
    types.insert(name(alloc, "acts")?, TypeSchema::OfEdges(acts))?;
    types.insert(name(alloc, "knows")?, TypeSchema::OfEdges(knows))?;
    Ok(types)
}

// A record of this key, and of this year where there is one.
fn values_of(alloc: Global, key: Value, year: Option<i64>) -> Result<Record, AllocError>
    ensures { IfOk result (λ values. key_of values ≡ key) }
{
    match year {
        Some(n) => Ok(Record {
            values: vec![in alloc; key, Value::Int(n)]?,
        }),
        None => Ok(Record {
            values: vec![in alloc; key]?,
        }),
    }
}

fn put(
    alloc: Global,
    films: &mut Films,
    kind: &str,
    id: &str,
    year: Option<i64>,
) -> Result<(), AllocError> {
    let first = txt(alloc, id)?;
    let values = values_of(alloc, first, year)?;
    let kind = Txt::from_text(alloc, kind)?;
    let key = txt(alloc, id)?;
    let vertex = VertexName {
        graph: 2,
        kind,
        key,
    };
    films.vertices.insert(vertex, values)?;
    Ok(())
}

fn link(
    alloc: Global,
    films: &mut Films,
    kind: &str,
    ends: [(&str, &str); 2],
    role: Option<&str>,
) -> Result<(), AllocError> {
    let [(from_kind, from), (to_kind, to)] = ends;
    let mut values = Vec::new(alloc);
    if let Some(role) = role {
        values.push(txt(alloc, role)?)?;
    }
    let edge = EdgeName {
        graph: 2,
        kind: Txt::from_text(alloc, kind)?,
        from_kind: Txt::from_text(alloc, from_kind)?,
        from: txt(alloc, from)?,
        to_kind: Txt::from_text(alloc, to_kind)?,
        to: txt(alloc, to)?,
    };
    films.edges.insert(edge, Record { values })?;
    Ok(())
}

fn film_graph(alloc: Global) -> Result<Films, AllocError> {
    let types = film_types(alloc)?;
    let vertices = BTreeMap::new(alloc);
    let edges = BTreeMap::new(alloc);
    let mut films = Films {
        types,
        vertices,
        edges,
    };
    for (id, year) in [("f3", 2010), ("f1", 1999), ("f2", 2003)] {
        put(alloc, &mut films, "film", id, Some(year))?;
    }
    for id in ["c", "a", "b"] {
        put(alloc, &mut films, "actor", id, None)?;
    }
    for (from, to, role) in [
        ("b", "f1", "foe"),
        ("a", "f1", "hero"),
        ("a", "f2", "foe"),
        ("c", "f2", "hero"),
        ("c", "f3", "foe"),
    ] {
        let ends = [("actor", from), ("film", to)];
        link(alloc, &mut films, "acts", ends, Some(role))?;
    }
    for (from, to) in [("a", "a"), ("a", "b")] {
        let ends = [("actor", from), ("actor", to)];
        link(alloc, &mut films, "knows", ends, None)?;
    }
    Ok(films)
}

// ---- answers

// The members of a row.
fn shown(alloc: Global, row: &Row) -> Result<String, AllocError> {
    let mut text = String::new(alloc);
    for (name, value) in row.members.as_slice() {
        let name = name.as_text();
        text = match value {
            Value::Int(n) => format!(in alloc; "{text} {name}={n}")?,
            Value::Text(id) => format!(in alloc; "{text} {name}={}", id.as_text())?,
            Value::Bytes(_) => text,
        };
    }
    Ok(text)
}

fn answered(alloc: Global, films: &Films, text: &str) -> Result<String, Fail> {
    let json = a1_json::read(alloc, text.as_bytes())?;
    let pattern = pattern(alloc, &json)?;
    let plan: Plan = plan(alloc, films, 2, &pattern)?;
    match answer(alloc, films, &plan)? {
        Answer::Count(n) => Ok(format!(in alloc; "count {n}")?),
        Answer::Rows(rows) => {
            let mut all = String::from_str(alloc, "rows")?;
            for row in rows.as_slice() {
                let row = shown(alloc, row)?;
                all = format!(in alloc; "{all};{row}")?;
            }
            Ok(all)
        }
    }
}

#[test]
fn answers_queries(rt: HostRuntime) -> Result<(), Fail> {
    let films = film_graph(rt.alloc())?;
    for (text, wanted) in [
        // the order of keys, and not that in which they were put
        (r#"{"_type":"actor"}"#, "rows; id=a; id=b; id=c"),
        (
            r#"{"_type":"film","year":{"_ge":2000},"_select":["year","id"]}"#,
            "rows; year=2003 id=f2; year=2010 id=f3",
        ),
        // a key that is there, one that is not, and one whose vertex does not stand
        (r#"{"_type":"film","id":"f1"}"#, "rows; id=f1 year=1999"),
        (r#"{"_type":"film","id":"f9"}"#, "rows"),
        (r#"{"_type":"film","id":"f1","year":2000}"#, "rows"),
        (r#"{"_type":"film","id":{"_eq":"f1","_ne":"f1"}}"#, "rows"),
        // a hop out, and one in
        (
            r#"{"_type":"actor","id":"a","_out_edge":{"_type":"acts","_vertex":{"_type":"film","_select":["id"]}}}"#,
            "rows; id=f1; id=f2",
        ),
        (
            r#"{"_type":"film","id":"f1","_in_edge":{"_type":"acts","_vertex":{"_type":"actor"}}}"#,
            "rows; id=a; id=b",
        ),
        (
            r#"{"_type":"film","id":"f1","_out_edge":{"_type":"acts","_vertex":{"_type":"actor"}}}"#,
            "rows",
        ),
        (
            r#"{"_type":"film","id":"f1","_in_edge":{"_type":"acts","role":"hero","_vertex":{"_type":"actor"}}}"#,
            "rows; id=a",
        ),
        // each vertex once, however many edges lead to it
        (
            r#"{"_type":"actor","_out_edge":{"_type":"acts","_vertex":{"_type":"film","_select":["_count(*)"]}}}"#,
            "count 3",
        ),
        (
            r#"{"_type":"actor","id":"a","_out_edge":{"_type":"acts","_vertex":{"_type":"film","_in_edge":{"_type":"acts","_vertex":{"_type":"actor","_select":["_count(*)"]}}}}}"#,
            "count 3",
        ),
        (
            r#"{"_type":"actor","id":"a","_out_edge":{"_type":"acts","_vertex":{"_type":"film","_in_edge":{"_type":"acts","_vertex":{"_type":"actor"}}}}}"#,
            "rows; id=a; id=b; id=c",
        ),
        // an edge from a vertex to itself, in both directions
        (
            r#"{"_type":"actor","id":"a","_out_edge":{"_type":"knows","_vertex":{"_type":"actor"}}}"#,
            "rows; id=a; id=b",
        ),
        (
            r#"{"_type":"actor","id":"a","_in_edge":{"_type":"knows","_vertex":{"_type":"actor"}}}"#,
            "rows; id=a",
        ),
        // matches: both are to hold, and inside one a hop counts as one more
        (
            r#"{"_type":"actor","_match":[{"_out_edge":{"_type":"acts","role":"hero","_vertex":{"_type":"film"}}}]}"#,
            "rows; id=a; id=c",
        ),
        (
            r#"{"_type":"actor","_match":[{"_out_edge":{"_type":"acts","role":"hero","_vertex":{"_type":"film"}}},{"_in_edge":{"_type":"knows","_vertex":{"_type":"actor"}}}]}"#,
            "rows; id=a",
        ),
        (
            r#"{"_type":"actor","_match":[{"_out_edge":{"_type":"acts","_vertex":{"_type":"film","_in_edge":{"_type":"acts","role":"hero","_vertex":{"_type":"actor","id":"c"}}}}}],"_select":["_count(*)"]}"#,
            "count 2",
        ),
    ] {
        assert_eq!(rt;
            answered(rt.alloc(), &films, text)?.as_str(),
            wanted,
            "at {text}"
        );
    }
    Ok(())
}
