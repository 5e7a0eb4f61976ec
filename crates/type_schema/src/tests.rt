//! Members that make a record, and the refusal of those that make none; keys in their order.
use crate::{
    Attr, EdgeName, GraphFault, GraphName, Kind, Record, Schema, StoreKey, TypeName, VertexName,
    Word, add, check, key, key_of, merge,
};
use a1_base::Txt;
use a1_value::{Given, Value};
use std::alloc::{AllocError, Global};
use std::test::Fail;

mod objects;

// A schema of attributes by name, kind and index.
fn schema(alloc: Global, listed: &[(&str, Kind, bool)]) -> Result<Schema, AllocError> {
    let mut attrs = Vec::new(alloc);
    for (name, kind, index) in listed {
        attrs.push(Attr {
            name: Txt::from_text(alloc, name)?,
            kind: *kind,
            index: *index,
        })?;
    }
    Ok(Schema { attrs })
}

fn person(alloc: Global) -> Result<Schema, AllocError> {
    schema(
        alloc,
        &[
            ("id", Kind::Text, false),
            ("age", Kind::Int, false),
            ("name", Kind::Text, true),
            ("photo", Kind::Bytes, false),
        ],
    )
}

fn filled(alloc: Global, size: usize) -> Result<Given, AllocError> {
    let mut text = String::new(alloc);
    for _ in 0..size {
        text.push('x')?;
    }
    Ok(Given::Text(Txt::from_string(text)))
}

// Members by name, each with a text, which has 257 bytes for `long`, or else with the number 7.
fn members(
    alloc: Global,
    listed: &[(&str, Option<&str>)],
) -> Result<Vec<(Txt, Given)>, AllocError> {
    let mut members = Vec::new(alloc);
    for (name, text) in listed {
        let given = match text {
            Some("long") => filled(alloc, 257)?,
            Some(text) => Given::Text(Txt::from_text(alloc, text)?),
            None => Given::Int(7),
        };
        members.push((Txt::from_text(alloc, name)?, given))?;
    }
    Ok(members)
}

// The word of a refusal, and the attribute that it names.
fn told(answer: &Result<Record, GraphFault>) -> (Option<Word>, &str) {
    match answer {
        Ok(_) | Err(GraphFault::Memory) => (None, ""),
        Err(GraphFault::Refused(refusal)) => match &refusal.attr {
            Some(attr) => (Some(refusal.word), attr.as_text()),
            None => (Some(refusal.word), ""),
        },
    }
}

#[test]
fn a_put_tells_its_first_fault(rt: HostRuntime) -> Result<(), Fail> {
    let alloc = rt.alloc();
    let schema = person(alloc)?;
    let (a, long) = (Some("a"), Some("long"));
    for (listed, wanted) in [
        (
            [("age", a), ("id", a), ("zoo", a), ("zoo2", a)].as_slice(),
            (Some(Word::Missing), "name"),
        ),
        (
            [("age", a), ("id", a), ("name", a), ("photo", a), ("zoo", a)].as_slice(),
            (Some(Word::Unknown), "zoo"),
        ),
        (
            [("age", a), ("id", long), ("name", a), ("photo", a)].as_slice(),
            (Some(Word::Kind), "age"),
        ),
        (
            [("age", None), ("id", long), ("name", a), ("photo", None)].as_slice(),
            (Some(Word::Kind), "photo"),
        ),
        (
            [
                ("age", None),
                ("id", a),
                ("name", long),
                ("photo", Some("abc")),
            ]
            .as_slice(),
            (Some(Word::Kind), "photo"),
        ),
        (
            [
                ("age", None),
                ("id", a),
                ("name", long),
                ("photo", Some("0g")),
            ]
            .as_slice(),
            (Some(Word::Kind), "photo"),
        ),
        (
            [("age", None), ("id", None), ("name", long), ("photo", a)].as_slice(),
            (Some(Word::Kind), "id"),
        ),
        (
            [
                ("age", None),
                ("id", long),
                ("name", long),
                ("photo", Some("")),
            ]
            .as_slice(),
            (Some(Word::Long), "id"),
        ),
    ] {
        let answer = check(alloc, &schema, &members(alloc, listed)?);
        assert_eq!(rt; told(&answer), wanted);
    }
    Ok(())
}

#[test]
fn values_have_their_limits(rt: HostRuntime) -> Result<(), Fail> {
    let alloc = rt.alloc();
    let schema = schema(
        alloc,
        &[
            ("id", Kind::Text, false),
            ("a", Kind::Text, true),
            ("b", Kind::Text, false),
            ("c", Kind::Text, false),
            ("d", Kind::Text, false),
            ("e", Kind::Text, false),
        ],
    )?;
    for (id, a, b, e, wanted) in [
        (256, 256, 4_096, 3_553, (None, "")),
        (256, 256, 4_096, 3_554, (Some(Word::RecordLong), "")),
        (257, 257, 4_096, 4_096, (Some(Word::Long), "id")),
        (256, 257, 4_096, 4_096, (Some(Word::Long), "a")),
        (256, 256, 4_097, 4_096, (Some(Word::Long), "b")),
    ] {
        let mut members = Vec::new(alloc);
        for (name, size) in [
            ("a", a),
            ("b", b),
            ("c", 4_096),
            ("d", 4_096),
            ("e", e),
            ("id", id),
        ] {
            members.push((Txt::from_text(alloc, name)?, filled(alloc, size)?))?;
        }
        let answer = check(alloc, &schema, &members);
        assert_eq!(rt; told(&answer), wanted);
    }
    Ok(())
}

#[test]
fn a_set_keeps_what_no_member_names(rt: HostRuntime) -> Result<(), Fail> {
    let alloc = rt.alloc();
    let schema = person(alloc)?;
    let listed = [
        ("age", None),
        ("id", Some("a")),
        ("name", Some("b")),
        ("photo", Some("00fF")),
    ];
    let old = check(alloc, &schema, &members(alloc, &listed)?).expect(&rt, "ample memory");
    let was: &str =
        "Record { values: [Text(Txt { text: \"a\" }), Int(7), Text(Txt { text: \"b\" }), Bytes(Bin { bytes: [0, 255] })] }";
    assert_eq!(rt; format!(in alloc; "{old:?}")?.as_str(), was);
    let same = merge(alloc, &schema, &old, &[]).expect(&rt, "ample memory");
    assert_eq!(rt; format!(in alloc; "{same:?}")?.as_str(), was);
    let named = members(alloc, &[("age", None), ("name", Some("c"))])?;
    let named = merge(alloc, &schema, &old, &named).expect(&rt, "ample memory");
    let wanted: &str =
        "Record { values: [Text(Txt { text: \"a\" }), Int(7), Text(Txt { text: \"c\" }), Bytes(Bin { bytes: [0, 255] })] }";
    assert_eq!(rt; format!(in alloc; "{named:?}")?.as_str(), wanted);
    for (listed, wanted) in [
        (
            [("age", Some("7")), ("id", Some("a"))].as_slice(),
            (Some(Word::Unknown), "id"),
        ),
        (
            [("name", Some("long")), ("photo", Some("0"))].as_slice(),
            (Some(Word::Kind), "photo"),
        ),
        (
            [("name", Some("long"))].as_slice(),
            (Some(Word::Long), "name"),
        ),
    ] {
        let answer = merge(alloc, &schema, &old, &members(alloc, listed)?);
        assert_eq!(rt; told(&answer), wanted);
    }
    Ok(())
}

#[test]
fn an_add_is_to_a_number(rt: HostRuntime) -> Result<(), Fail> {
    let alloc = rt.alloc();
    let schema = schema(
        alloc,
        &[
            ("id", Kind::Int, false),
            ("name", Kind::Text, false),
            ("n", Kind::Int, true),
        ],
    )?;
    let listed = [("id", None), ("n", None), ("name", Some("7"))];
    let old = check(alloc, &schema, &members(alloc, &listed)?).expect(&rt, "ample memory");
    for (by, wanted) in [(-8, -1), (0, 7), (i64::MIN, i64::MIN + 7)] {
        let n = Txt::from_text(alloc, "n")?;
        let sum = add(alloc, &schema, &old, &n, by).expect(&rt, "ample memory");
        let wanted = format!(in alloc;
            "Record {{ values: [Int(7), Text(Txt {{ text: \"7\" }}), Int({wanted})] }}"
        )?;
        assert_eq!(rt; format!(in alloc; "{sum:?}")?, wanted);
    }
    for (name, by, wanted) in [
        ("n", i64::MAX, (Some(Word::Overflow), "")),
        ("n", i64::MAX - 7, (None, "")),
        ("name", 1, (Some(Word::Kind), "name")),
        ("id", 1, (Some(Word::NoAttr), "")),
        ("m", 1, (Some(Word::NoAttr), "")),
    ] {
        let name = Txt::from_text(alloc, name)?;
        let answer = add(alloc, &schema, &old, &name, by);
        assert_eq!(rt; told(&answer), wanted);
    }
    Ok(())
}

#[test]
fn a_key_is_of_the_first_kind(rt: HostRuntime) -> Result<(), Fail> {
    let alloc = rt.alloc();
    let schema = person(alloc)?;
    let found = key(alloc, &schema, &filled(alloc, 256)?);
    assert!(rt; found.is_ok());
    for (given, wanted) in [
        (filled(alloc, 257)?, Word::Long),
        (Given::Int(7), Word::Kind),
    ] {
        let answer = match key(alloc, &schema, &given) {
            Ok(value) => Ok(Record {
                values: vec![in alloc; value]?,
            }),
            Err(fault) => Err(fault),
        };
        assert_eq!(rt; told(&answer), (Some(wanted), "id"));
    }
    let listed = [
        ("age", None),
        ("id", Some("a")),
        ("name", Some("b")),
        ("photo", Some("")),
    ];
    let record = check(alloc, &schema, &members(alloc, &listed)?).expect(&rt, "ample memory");
    let a = Value::Text(Txt::from_text(alloc, "a")?);
    assert!(rt; key_of(alloc, &record.copy(alloc)?)? == a);
    Ok(())
}

fn graph(alloc: Global, tenant: &str, name: &str) -> Result<StoreKey, AllocError> {
    Ok(StoreKey::Graph(GraphName {
        tenant: Txt::from_text(alloc, tenant)?,
        name: Txt::from_text(alloc, name)?,
    }))
}

fn vertex(alloc: Global, graph: u64, kind: &str, key: Value) -> Result<StoreKey, AllocError> {
    let kind = Txt::from_text(alloc, kind)?;
    Ok(StoreKey::Vertex(VertexName { graph, kind, key }))
}

fn edge(alloc: Global, kind: &str, from_kind: &str, to: i64) -> Result<StoreKey, AllocError> {
    Ok(StoreKey::Edge(EdgeName {
        graph: 1,
        kind: Txt::from_text(alloc, kind)?,
        from_kind: Txt::from_text(alloc, from_kind)?,
        from: Value::Int(0),
        to_kind: Txt::from_text(alloc, "a")?,
        to: Value::Int(to),
    }))
}

// Keys in their order.
fn ordered(alloc: Global) -> Result<Vec<StoreKey>, AllocError> {
    let mut keys = Vec::new(alloc);
    keys.push(StoreKey::Counter)?;
    keys.push(StoreKey::Tenant(Txt::from_text(alloc, "z")?))?;
    for (tenant, name) in [("a.b", "a"), ("a", "b"), ("a", "ba"), ("a0", "a")] {
        keys.push(graph(alloc, tenant, name)?)?;
    }
    let name = Txt::from_text(alloc, "a")?;
    keys.push(StoreKey::TypeKey(TypeName { graph: 9, name }))?;
    for (graph, kind, key) in [(2, "b", -1), (2, "b", 1), (2, "aa", 0), (10, "a", 0)] {
        keys.push(vertex(alloc, graph, kind, Value::Int(key))?)?;
    }
    for (kind, from_kind, to) in [("b", "b", 1), ("b", "b", 2), ("b", "aa", 1), ("aa", "a", 1)] {
        keys.push(edge(alloc, kind, from_kind, to)?)?;
    }
    Ok(keys)
}

#[test]
fn keys_stand_as_their_bytes_do(rt: HostRuntime) -> Result<(), Fail> {
    let alloc = rt.alloc();
    let keys = ordered(alloc)?;
    for (i, one) in keys.iter().enumerate() {
        assert!(rt; one.copy(alloc)? == *one);
        for other in &keys[i + 1..] {
            assert!(rt; one < other && other > one);
        }
    }
    Ok(())
}
