//! What lines ask for, and the words by which others are turned away.
use crate::{BadWord, End, Op, Request, RequestFault, read};
use a1_base::Txt;
use a1_value::Given;
use a1ql_reader::Select;
use std::alloc::{AllocError, Global};
use std::test::Fail;
use type_schema::{Attr, GraphName, TypeSchema};

// ---- words

// The word of each line. It has faults of later words, too.
const BAD: &[(&str, BadWord)] = &[
    (r#"hello"#, BadWord::NotJson),
    (r#"{"ask":1.5,"graph":"t/g"#, BadWord::NotJson),
    (r#"{"after":[1,1.5]}"#, BadWord::NotWhole),
    ("7", BadWord::Shape),
    ("{}", BadWord::Shape),
    (r#"{"do":[]}"#, BadWord::Shape),
    (r#"{"do":{"create_tenant":"t"}}"#, BadWord::Shape),
    (r#"{"do":[{"create_tenant":"t"}],"x":1}"#, BadWord::Shape),
    (
        r#"{"do":[{"create_tenant":"t","create_graph":"t/g"}]}"#,
        BadWord::Shape,
    ),
    (
        r#"{"do":[{"create_tenant":"T"},{"create_tenant":7}]}"#,
        BadWord::Shape,
    ),
    (r#"{"do":[{"create_tenants":"t"}]}"#, BadWord::Shape),
    (
        r#"{"do":[{"put":{"graph":"T","type":"n"}}]}"#,
        BadWord::Shape,
    ),
    (
        r#"{"do":[{"put":{"graph":"T","type":"n","v":{},"x":1}}]}"#,
        BadWord::Shape,
    ),
    (
        r#"{"do":[{"put":{"graph":"T","type":"n","v":{"id":null}}}]}"#,
        BadWord::Shape,
    ),
    (
        r#"{"do":[{"drop":{"graph":"T","type":"n","id":true}}]}"#,
        BadWord::Shape,
    ),
    (
        r#"{"do":[{"add":{"graph":"T","type":"n","id":1,"attr":"a","by":"1"}}]}"#,
        BadWord::Shape,
    ),
    (
        r#"{"do":[{"unlink":{"graph":"T","type":"n","from":{"type":"n"},"to":{"type":"n","id":1}}}]}"#,
        BadWord::Shape,
    ),
    (
        r#"{"do":[{"create_edge_type":{"graph":"T","type":"e","attrs":[{"name":"a","kind":"int","index":1}]}}]}"#,
        BadWord::Shape,
    ),
    (
        r#"{"do":[{"create_edge_type":{"graph":"T","type":"e","attrs":[{"name":"a"}]}}]}"#,
        BadWord::Shape,
    ),
    (r#"{"ask":{"_type":"N"}}"#, BadWord::Shape),
    (r#"{"graph":"t"}"#, BadWord::Shape),
    (r#"{"ask":{"_type":"N"},"graph":7}"#, BadWord::Shape),
    (r#"{"ask":{"_type":"N"},"graphs":"t"}"#, BadWord::Shape),
    (r#"{"ask":{"_type":"N"},"graph":"t","x":1}"#, BadWord::Shape),
    (
        r#"{"ask":{"_type":"N","_next":{}},"graph":"t"}"#,
        BadWord::Shape,
    ),
    (r#"{"ask":{"id":1},"graph":"t"}"#, BadWord::Shape),
    (r#"{"ask":[],"graph":"t"}"#, BadWord::Shape),
    (
        r#"{"do":[{"create_tenant":"T"}],"ask":{"_type":"N"}}"#,
        BadWord::Shape,
    ),
    (
        r#"{"do":[{"create_tenant":"T"}],"after":[1,1]}"#,
        BadWord::Shape,
    ),
    (
        r#"{"ask":{"_type":"N"},"graph":"t","after":[1,1]}"#,
        BadWord::Shape,
    ),
    (r#"{"after":1}"#, BadWord::Shape),
    (r#"{"after":"1,1"}"#, BadWord::Shape),
    (r#"{"after":{"line":1,"session":1}}"#, BadWord::Shape),
    (r#"{"after":[]}"#, BadWord::Shape),
    (r#"{"after":[1]}"#, BadWord::Shape),
    (r#"{"after":[1,1,1]}"#, BadWord::Shape),
    (r#"{"after":[1,1],"x":1}"#, BadWord::Shape),
    (r#"{"after":["1",1]}"#, BadWord::Shape),
    (r#"{"after":[1,"1"]}"#, BadWord::Shape),
    (r#"{"after":[0,1]}"#, BadWord::Shape),
    (r#"{"after":[-1,1]}"#, BadWord::Shape),
    (r#"{"after":[33,1]}"#, BadWord::Shape),
    (r#"{"after":[1,0]}"#, BadWord::Shape),
    (r#"{"after":[1,-1]}"#, BadWord::Shape),
    (r#"{"after":[1,4294967296]}"#, BadWord::Shape),
    (r#"{"ask":{"_type":"n"},"graph":"t"}"#, BadWord::Name),
    (r#"{"ask":{"_type":"n"},"graph":"t/G"}"#, BadWord::Name),
    (r#"{"ask":{"_type":"N"},"graph":"t/g"}"#, BadWord::Name),
    (
        r#"{"ask":{"_type":"n","_match":[{"_in_edge":{"_type":"e","_vertex":{"_type":""}}}]},"graph":"t/g"}"#,
        BadWord::Name,
    ),
    (r#"{"do":[{"create_tenant":"T"}]}"#, BadWord::Name),
    (r#"{"do":[{"create_graph":"t"}]}"#, BadWord::Name),
    (r#"{"do":[{"drop_graph":"t/"}]}"#, BadWord::Name),
    (r#"{"do":[{"drop_graph":"t/g/h"}]}"#, BadWord::Name),
    (
        r#"{"do":[{"add":{"graph":"t/g","type":"n","id":1,"attr":"","by":1}}]}"#,
        BadWord::Name,
    ),
    (
        r#"{"do":[{"unlink":{"graph":"t/g","type":"n","from":{"type":"7","id":1},"to":{"type":"n","id":1}}}]}"#,
        BadWord::Name,
    ),
    (
        r#"{"do":[{"create_edge_type":{"graph":"t/g","type":"e","attrs":[{"name":"id","kind":"int"}]}},{"create_tenant":"T"}]}"#,
        BadWord::Name,
    ),
    (
        r#"{"do":[{"create_edge_type":{"graph":"t/g","type":"e","attrs":[{"name":"A","kind":"float"}]}}]}"#,
        BadWord::Name,
    ),
    (
        r#"{"do":[{"create_edge_type":{"graph":"t/g","type":"e","attrs":[{"name":"a","kind":"float"}]}}]}"#,
        BadWord::Attrs,
    ),
    (
        r#"{"do":[{"create_edge_type":{"graph":"t/g","type":"e","attrs":[{"name":"id","kind":"int"}]}}]}"#,
        BadWord::Attrs,
    ),
    (
        r#"{"do":[{"create_vertex_type":{"graph":"t/g","type":"n","attrs":[]}}]}"#,
        BadWord::Attrs,
    ),
    (
        r#"{"do":[{"create_vertex_type":{"graph":"t/g","type":"n","attrs":[{"name":"id","kind":"int","index":true}]}}]}"#,
        BadWord::Attrs,
    ),
];

#[test]
fn turns_a_line_away_by_its_first_word(rt: HostRuntime) {
    for (line, want) in BAD {
        let word = match read(rt.alloc(), line.as_bytes()) {
            Err(RequestFault::Bad(word)) => Some(word),
            _ => None,
        };
        assert_eq!(rt; word, Some(*want), "at {line}");
    }
}

// ---- operations

fn given(alloc: Global, given: &Given) -> Result<String, AllocError> {
    match given {
        Given::Int(number) => format!(in alloc; "{number}"),
        Given::Text(text) => format!(in alloc; "'{}'", text.as_text()),
    }
}

fn values(alloc: Global, v: &[(Txt, Given)]) -> Result<String, AllocError> {
    let mut text = String::new(alloc);
    for member in v {
        let value = given(alloc, &member.1)?;
        let part = format!(in alloc; " {}={value}", member.0.as_text())?;
        text.push_str(part.as_str())?;
    }
    Ok(text)
}

fn end(alloc: Global, end: &End) -> Result<String, AllocError> {
    let id = given(alloc, &end.id)?;
    format!(in alloc; "{}:{id}", end.kind.as_text())
}

fn kind(alloc: Global, graph: &GraphName, kind: &Txt) -> Result<String, AllocError> {
    format!(in alloc;
        "{}/{} {}",
        graph.tenant.as_text(),
        graph.name.as_text(),
        kind.as_text()
    )
}

fn attrs(alloc: Global, attrs: &[Attr]) -> Result<String, AllocError> {
    let mut text = String::new(alloc);
    for attr in attrs {
        let part = format!(in alloc; " {}:{:?}:{}", attr.name.as_text(), attr.kind, attr.index)?;
        text.push_str(part.as_str())?;
    }
    Ok(text)
}

fn schema(alloc: Global, schema: &TypeSchema) -> Result<String, AllocError> {
    match schema {
        TypeSchema::OfVertices(schema) => {
            let attrs = attrs(alloc, &schema.attrs)?;
            format!(in alloc; "vertices{attrs}")
        }
        TypeSchema::OfEdges(schema) => {
            let attrs = attrs(alloc, &schema.attrs)?;
            format!(in alloc; "edges{attrs}")
        }
    }
}

// What an operation says, in words of these tests.
fn told(alloc: Global, op: &Op) -> Result<String, AllocError> {
    match op {
        Op::CreateTenant(name) => format!(in alloc; "tenant {}", name.as_text()),
        Op::CreateGraph(name) => {
            format!(in alloc; "graph {} {}", name.tenant.as_text(), name.name.as_text())
        }
        Op::DropGraph(name) => {
            format!(in alloc;
                "drop graph {} {}",
                name.tenant.as_text(),
                name.name.as_text()
            )
        }
        Op::CreateType {
            graph,
            name,
            schema: made,
        } => {
            let (of, made) = (kind(alloc, graph, name)?, schema(alloc, made)?);
            format!(in alloc; "type {of} of {made}")
        }
        Op::Put { graph, kind: of, v } => {
            let (of, v) = (kind(alloc, graph, of)?, values(alloc, v.as_slice())?);
            format!(in alloc; "put {of}{v}")
        }
        Op::Set {
            graph,
            kind: of,
            id,
            v,
        } => {
            let (of, id) = (kind(alloc, graph, of)?, given(alloc, id)?);
            let v = values(alloc, v.as_slice())?;
            format!(in alloc; "set {of} {id}{v}")
        }
        Op::Add {
            graph,
            kind: of,
            id,
            attr,
            by,
        } => {
            let (of, id) = (kind(alloc, graph, of)?, given(alloc, id)?);
            format!(in alloc; "add {of} {id} {} {by}", attr.as_text())
        }
        Op::Drop {
            graph,
            kind: of,
            id,
        } => {
            let (of, id) = (kind(alloc, graph, of)?, given(alloc, id)?);
            format!(in alloc; "drop {of} {id}")
        }
        Op::Link {
            graph,
            kind: of,
            from,
            to,
            v,
        } => {
            let of = kind(alloc, graph, of)?;
            let (from, to) = (end(alloc, from)?, end(alloc, to)?);
            let v = values(alloc, v.as_slice())?;
            format!(in alloc; "link {of} {from} {to}{v}")
        }
        Op::Unlink {
            graph,
            kind: of,
            from,
            to,
        } => {
            let of = kind(alloc, graph, of)?;
            let (from, to) = (end(alloc, from)?, end(alloc, to)?);
            format!(in alloc; "unlink {of} {from} {to}")
        }
    }
}

// A line's request: what it asks for, or its operations, a line for each.
fn asked(alloc: Global, line: &str) -> Result<String, Fail> {
    match read(alloc, line.as_bytes())? {
        Request::Ask(ask) => {
            let of = kind(alloc, &ask.graph, &ask.pattern.kind)?;
            let select = &ask.pattern.select;
            Ok(format!(in alloc; "ask {of} {}", matches!(select, Select::Count))?)
        }
        Request::After { session, line } => Ok(format!(in alloc; "after {session} {line}")?),
        Request::Do(ops) => {
            let mut text = String::new(alloc);
            for op in ops.as_slice() {
                let part = told(alloc, op)?;
                text.push_str(part.as_str())?;
                text.push('\n')?;
            }
            Ok(text)
        }
    }
}

const READ: &[(&str, &str)] = &[
    (
        r#" {"graph":"sys/names", "ask":{"id":"ann","_type":"name"}} "#,
        "ask sys/names name false",
    ),
    (
        r#"{"ask":{"_type":"n","_select":["_count(*)"]},"graph":"t/g"}"#,
        "ask t/g n true",
    ),
    (r#"{"after":[1,4294967295]}"#, "after 1 4294967295"),
    (r#"{"after":7, "\u0061fter": [32, 1]}"#, "after 32 1"),
    (
        r#"{"do":[{"create_tenant":"t"},{"create_graph":"t/g"},{"drop_graph":"t/g"}]}"#,
        "tenant t\ngraph t g\ndrop graph t g\n",
    ),
    (
        r#"{"do":[{"create_vertex_type":{"graph":"t/g","type":"n","attrs":[{"name":"id","kind":"text"},{"name":"a","kind":"int","index":true},{"name":"b","kind":"bytes","index":false}]}}]}"#,
        "type t/g n of vertices id:Text:false a:Int:true b:Bytes:false\n",
    ),
    (
        r#"{"do":[{"create_edge_type":{"graph":"t/g","type":"e","attrs":[{"name":"a","kind":"int"}]}}]}"#,
        "type t/g e of edges a:Int:false\n",
    ),
    (
        r#"{"do":[{"put":{"type":"n","graph":"t/g","v":{"id":"x","a":-7,"A b":"0"}}}]}"#,
        "put t/g n A b='0' a=-7 id='x'\n",
    ),
    (
        r#"{"do":[{"set":{"graph":"t/g","type":"n","id":1,"v":{}}}]}"#,
        "set t/g n 1\n",
    ),
    (
        r#"{"do":[{"add":{"graph":"t/g","type":"n","id":"x","attr":"a","by":-9223372036854775808}}]}"#,
        "add t/g n 'x' a -9223372036854775808\n",
    ),
    (
        r#"{"do":[{"drop":{"graph":"t/g","type":"n","id":"\u0078"}}]}"#,
        "drop t/g n 'x'\n",
    ),
    (
        r#"{"do":[{"link":{"graph":"t/g","type":"e","from":{"type":"n","id":1},"to":{"type":"m","id":"x"},"v":{"a":1}}}]}"#,
        "link t/g e n:1 m:'x' a=1\n",
    ),
    (
        r#"{"do":[{"link":{"graph":"t/g","type":"e","from":{"type":"n","id":1},"to":{"type":"m","id":"x"}}}]}"#,
        "link t/g e n:1 m:'x'\n",
    ),
    (
        r#"{"do":[{"unlink":{"graph":"t/g","type":"e","from":{"type":"n","id":1},"to":{"type":"m","id":"x"}}}]}"#,
        "unlink t/g e n:1 m:'x'\n",
    ),
    (
        r#"{"do":[],"do":[{"put":{"graph":7,"graph":"t/g","type":"n","v":{"id":1,"id":2}}}]}"#,
        "put t/g n id=2\n",
    ),
];

#[test]
fn reads_what_a_line_asks_for(rt: HostRuntime) -> Result<(), Fail> {
    for (line, want) in READ {
        let told = asked(rt.alloc(), line)?;
        assert_eq!(rt; told.as_str(), *want, "at {line}");
    }
    Ok(())
}
