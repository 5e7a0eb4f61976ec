//! Items written by hand, and the places at which others break.
use crate::{ChangeFault, decode_value, encode_value, front_change, read, room_left, size, write};
use a1_base::{Bin, ReadFault, Txt};
use a1_value::{Value, compare};
use std::alloc::{AllocError, Global};
use std::cmp::Ordering;
use std::test::Fail;
use type_schema::{Change, RowChange, StoreKey, StoreValue, TypeSchema};

// The vertex `ann` of type `name` in graph 1, up to its record.
const ANN: &[u8] = b"\0\0\0\x14\x04\0\0\0\0\0\0\0\x01\x04name\x02ann\0\0\x01";

// The bytes that a value of this key is, read and written.
#[tactic(auto, using(crate::proofs::RowLemmas::value_exact_whole))]
fn value_again(alloc: Global, key: &StoreKey, bytes: &[u8]) -> Result<Bin, ReadFault> {
    let value = decode_value(alloc, key, bytes)?;
    encode_value(alloc, key, &value).map_err(|_| ReadFault::Memory)
}

#[test]
fn an_item_is_a_vertex_with_its_record(rt: HostRuntime) -> Result<(), Fail> {
    let alloc = rt.alloc();
    let ann = Value::Text(Txt::from_text(alloc, "ann")?);
    let record = b"\x01\x02\0\0\0\x03ann".as_slice();
    let mut item = Bin::from_slice(alloc, ANN)?;
    item.append(b"\0\0\0\x09\x01\x02\0\0\0\x03ann")?;
    let changes = read(alloc, item.as_slice())?;
    let written = write(alloc, &changes)?;
    assert_eq!(rt; written.as_slice(), item.as_slice());
    let [change] = changes.steps.as_slice() else {
        return Err(Fail::from("one change"));
    };
    assert_eq!(rt; size(change), 38);
    let StoreKey::Vertex(vertex) = &change.key else {
        return Err(Fail::from("a vertex"));
    };
    assert_eq!(rt; (vertex.graph, vertex.kind.as_text()), (1, "name"));
    assert_eq!(rt; compare(&vertex.key, &ann), Ordering::Equal);
    let kept = change.value.as_ref().ok_or("a value")?;
    assert_eq!(rt; kept.as_slice(), record);
    let StoreValue::Record(found) = decode_value(alloc, &change.key, record)? else {
        return Err(Fail::from("a record"));
    };
    let [value] = found.values.as_slice() else {
        return Err(Fail::from("one value"));
    };
    assert_eq!(rt; compare(value, &ann), Ordering::Equal);
    Ok(())
}

// An item of each kind of key, with a value or without.
const COUNTER: &[u8] = b"\0\0\0\x01\0\x01\0\0\0\x08\0\0\0\0\0\0\0\x02";

const LAST_COUNTER: &[u8] = b"\0\0\0\x01\0\x01\0\0\0\x08\x3f\xff\xff\xff\xff\xff\xff\xff";

const TENANT: &[u8] = b"\0\0\0\x04\x01ann\x01\0\0\0\0";

const NO_TENANT: &[u8] = b"\0\0\0\x04\x01ann\0";

const GRAPH: &[u8] = b"\0\0\0\x09\x02ann/a_.0\x01\0\0\0\x08\x3f\xff\xff\xff\xff\xff\xff\xfe";

const VERTICES: &[u8] =
    b"\0\0\0\x0e\x03\0\0\0\0\0\0\0\x01\x04name\x01\0\0\0\x0d\x01\x02\x02id\x02\0\x03age\x01\x01";

const EDGES: &[u8] = b"\0\0\0\x0f\x03\0\0\0\0\0\0\0\x01\x05knows\x01\0\0\0\x02\x02\0";

const NO_VERTEX: &[u8] =
    b"\0\0\0\x17\x04\0\0\0\0\0\0\x01\0\x04name\x01\x7f\xff\xff\xff\xff\xff\xff\xff\0";

const EDGE: &[u8] =
    b"\0\0\0\x1f\x05\0\0\0\0\0\0\0\x01\x05knows\x04name\x02a\0\0\x02it\x03\xff\0\0\x01\0\0\0\x01\0";

const ITEMS: [&[u8]; 9] = [
    COUNTER,
    LAST_COUNTER,
    TENANT,
    NO_TENANT,
    GRAPH,
    VERTICES,
    EDGES,
    NO_VERTEX,
    EDGE,
];

// What is read of bytes, written.
fn again(alloc: Global, bytes: &[u8]) -> Result<Bin, ChangeFault> {
    let changes = read(alloc, bytes)?;
    write(alloc, &changes).map_err(|_| ChangeFault::Memory)
}

#[test]
fn items_are_written_as_they_were_read(rt: HostRuntime) -> Result<(), Fail> {
    let alloc = rt.alloc();
    let mut all = Bin::new(alloc);
    for item in ITEMS {
        all.append(item)?;
        let written = again(alloc, item)?;
        assert_eq!(rt; written.as_slice(), item);
    }
    let written = again(alloc, all.as_slice())?;
    assert_eq!(rt; written.as_slice(), all.as_slice());
    Ok(())
}

// The kind of a key, the graph's number, and the last name.
fn told(key: &StoreKey) -> (&str, u64, &str) {
    match key {
        StoreKey::Counter => ("counter", 0, ""),
        StoreKey::Tenant(name) => ("tenant", 0, name.as_text()),
        StoreKey::Graph(graph) => ("graph", 0, graph.name.as_text()),
        StoreKey::TypeKey(t) => ("type", t.graph, t.name.as_text()),
        StoreKey::Vertex(v) => ("vertex", v.graph, v.kind.as_text()),
        StoreKey::Edge(e) => ("edge", e.graph, e.to_kind.as_text()),
    }
}

#[test]
fn items_have_their_keys(rt: HostRuntime) -> Result<(), Fail> {
    for (item, key) in [
        (COUNTER, ("counter", 0, "")),
        (TENANT, ("tenant", 0, "ann")),
        (GRAPH, ("graph", 0, "a_.0")),
        (EDGES, ("type", 1, "knows")),
        (NO_VERTEX, ("vertex", 256, "name")),
        (EDGE, ("edge", 1, "it")),
    ] {
        let changes = read(rt.alloc(), item)?;
        let change = changes.steps.first().ok_or("a change")?;
        assert_eq!(rt; told(&change.key), key);
    }
    Ok(())
}

// What a value is, and its number, or how many attributes or values it has.
fn told_value(value: &StoreValue) -> (&str, u64) {
    match value {
        StoreValue::Nothing => ("nothing", 0),
        StoreValue::Number(n) => ("number", *n),
        StoreValue::Schema(TypeSchema::OfVertices(s)) => ("vertices", s.attrs.len() as u64),
        StoreValue::Schema(TypeSchema::OfEdges(s)) => ("edges", s.attrs.len() as u64),
        StoreValue::Record(r) => ("record", r.values.len() as u64),
    }
}

#[test]
fn items_have_their_values(rt: HostRuntime) -> Result<(), Fail> {
    let alloc = rt.alloc();
    for (item, want) in [
        (LAST_COUNTER, ("number", 4_611_686_018_427_387_903)),
        (TENANT, ("nothing", 0)),
        (GRAPH, ("number", 4_611_686_018_427_387_902)),
        (VERTICES, ("vertices", 2)),
        (EDGES, ("edges", 0)),
        (EDGE, ("record", 0)),
    ] {
        let changes = read(alloc, item)?;
        let change = changes.steps.first().ok_or("a change")?;
        let bytes = change.value.as_ref().ok_or("a value")?;
        let value = decode_value(alloc, &change.key, bytes.as_slice())?;
        assert_eq!(rt; told_value(&value), want);
        let written = value_again(alloc, &change.key, bytes.as_slice())?;
        assert_eq!(rt; written.as_slice(), bytes.as_slice());
    }
    Ok(())
}

// The change that an item is, with its value.
fn row_change(alloc: Global, item: &[u8]) -> Result<RowChange, ReadFault> {
    let Change { key, value } = front_change(alloc, item)?.0;
    let value = match &value {
        Some(bytes) => Some(decode_value(alloc, &key, bytes.as_slice())?),
        None => None,
    };
    Ok(RowChange { key, value })
}

// A vertex whose key has a 00, with a value of each kind.
const ZERO: &[u8] =
    b"\0\0\0\x12\x04\0\0\0\0\0\0\0\x01\x01a\x02a\0\xffb\0\0\x01\0\0\0\x16\x03\x02\0\0\0\x01\0\x01\0\0\0\0\0\0\0\x2a\x03\0\0\0\x01\xff";

#[test]
fn an_item_takes_nine_bytes_more_than_its_change(rt: HostRuntime) -> Result<(), Fail> {
    let alloc = rt.alloc();
    for item in ITEMS.into_iter().chain([ZERO]) {
        let change = row_change(alloc, item)?;
        let size = item.len().saturating_add(9);
        assert_eq!(rt; room_left(size, &change), Some(0), "with {item:?}");
        assert_eq!(rt; room_left(size - 1, &change), None, "with {item:?}");
        assert_eq!(rt; room_left(usize::MAX, &change), Some(usize::MAX - size));
    }
    Ok(())
}

// What stands behind an item of 6 bytes, and is no change.
const BAD: [&[u8]; 15] = [
    // cut short
    b"\0\0\0\x01\0",
    // a value part that is neither 00 nor 01
    b"\0\0\0\x01\0\x02",
    // a key with a byte behind it
    b"\0\0\0\x02\0\0\0",
    b"\0\0\0\x15\x04\0\0\0\0\0\0\0\x01\x04name\x02ann\0\0\0\0",
    // no name, and no slash
    b"\0\0\0\x04\x01Ann\0",
    b"\0\0\0\x04\x02ann\0",
    // a tenant with a value of one byte
    b"\0\0\0\x04\x01ann\x01\0\0\0\x01\0",
    // the graphs 0 and 2^62 - 1
    b"\0\0\0\x0e\x03\0\0\0\0\0\0\0\0\x04name\0",
    b"\0\0\0\x0e\x03\x3f\xff\xff\xff\xff\xff\xff\xff\x04name\0",
    b"\0\0\0\x06\x02ann/a\x01\0\0\0\x08\0\0\0\0\0\0\0\0",
    // the counters 1 and 2^62
    b"\0\0\0\x01\0\x01\0\0\0\x08\0\0\0\0\0\0\0\x01",
    b"\0\0\0\x01\0\x01\0\0\0\x08\x40\0\0\0\0\0\0\0",
    // an edge type with `id`, and a vertex type whose first is another
    b"\0\0\0\x0b\x03\0\0\0\0\0\0\0\x01\x01a\x01\0\0\0\x07\x02\x01\x02id\x02\0",
    b"\0\0\0\x0b\x03\0\0\0\0\0\0\0\x01\x01a\x01\0\0\0\x07\x01\x01\x02is\x02\0",
    // a text that is no UTF-8
    b"\0\0\0\x0f\x04\0\0\0\0\0\0\0\x01\x01a\x02b\0\0\x01\0\0\0\x07\x01\x02\0\0\0\x01\xff",
];

#[test]
fn a_fault_is_at_the_first_byte_of_its_item(rt: HostRuntime) -> Result<(), Fail> {
    let alloc = rt.alloc();
    assert_eq!(rt; read(alloc, b"").err(), None);
    for bad in BAD {
        let mut bytes = Bin::from_slice(alloc, b"\0\0\0\x01\0\0")?;
        bytes.append(bad)?;
        let fault = read(alloc, bytes.as_slice()).err();
        assert_eq!(rt; fault, Some(ChangeFault::Bad { at: 6 }), "with {bad:?}");
    }
    Ok(())
}

// So many letters between two parts.
fn filled(alloc: Global, front: &[u8], size: usize, end: &[u8]) -> Result<Bin, AllocError> {
    let mut bytes = Bin::from_slice(alloc, front)?;
    for _ in 0..size {
        bytes.append(b"x")?;
    }
    bytes.append(end)?;
    Ok(bytes)
}

// An edge type with an attribute for each letter.
fn edge_type(alloc: Global, front: &[u8], letters: &[u8]) -> Result<Bin, AllocError> {
    let mut bytes = Bin::from_slice(alloc, b"\0\0\0\x0b\x03\0\0\0\0\0\0\0\x01\x01a\x01")?;
    bytes.append(front)?;
    for letter in letters {
        bytes.append(&[2, b'a', *letter, 1, 0])?;
    }
    Ok(bytes)
}

// The vertex `ann` with a record of four texts, of which the last has so many letters.
fn record(alloc: Global, front: &[u8], last: &[u8], size: usize) -> Result<Bin, AllocError> {
    let mut bytes = Bin::from_slice(alloc, ANN)?;
    bytes.append(front)?;
    for _ in 0..3 {
        let text = filled(alloc, b"\x02\0\0\x10\0", 4_096, b"")?;
        bytes.append(text.as_slice())?;
    }
    let text = filled(alloc, last, size, b"")?;
    bytes.append(text.as_slice())?;
    Ok(bytes)
}

#[test]
fn sizes_have_their_limits(rt: HostRuntime) -> Result<(), Fail> {
    let alloc = rt.alloc();
    let letters = b"abcdefghijklmnopqrstuvwxyz0123456";
    for (most, more) in [
        (
            filled(alloc, b"\0\0\0\x41\x01", 64, b"\0")?,
            filled(alloc, b"\0\0\0\x42\x01", 65, b"\0")?,
        ),
        (
            edge_type(alloc, b"\0\0\0\xa2\x02\x20", &letters[..32])?,
            edge_type(alloc, b"\0\0\0\xa7\x02\x21", letters)?,
        ),
        (
            record(alloc, b"\0\0\x40\0\x04", b"\x02\0\0\x0f\xeb", 4_075)?,
            record(alloc, b"\0\0\x40\x01\x04", b"\x02\0\0\x0f\xec", 4_076)?,
        ),
    ] {
        let written = again(alloc, most.as_slice())?;
        assert!(rt; written.as_slice() == most.as_slice());
        let fault = read(alloc, more.as_slice()).err();
        assert_eq!(rt; fault, Some(ChangeFault::Bad { at: 0 }));
    }
    Ok(())
}
