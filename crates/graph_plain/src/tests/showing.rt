//! Rows and refusals as texts of these tests.
use super::operations;
use crate::Plain;
use a1_value::Value;
use std::alloc::{AllocError, Global};
use std::test::Fail;
use type_schema::{EdgeName, GraphFault, Record, Refusal, RowChange, StoreKey, StoreValue};

fn shown_value(alloc: Global, value: &Value) -> Result<String, AllocError> {
    match value {
        Value::Int(n) => format!(in alloc; "{n}"),
        Value::Text(text) => format!(in alloc; "{}", text.as_text()),
        Value::Bytes(bytes) => format!(in alloc; "{} bytes", bytes.as_slice().len()),
    }
}

fn shown_edge(alloc: Global, edge: &EdgeName) -> Result<String, AllocError> {
    let from = shown_value(alloc, &edge.from)?;
    let to = shown_value(alloc, &edge.to)?;
    format!(in alloc; "edge {} {} {from}-{to}", edge.graph, edge.kind.as_text())
}

fn shown_key(alloc: Global, key: &StoreKey) -> Result<String, AllocError> {
    match key {
        StoreKey::Counter => format!(in alloc; "counter"),
        StoreKey::Tenant(name) => format!(in alloc; "tenant {}", name.as_text()),
        StoreKey::Graph(graph) => {
            format!(in alloc; "graph {}/{}", graph.tenant.as_text(), graph.name.as_text())
        }
        StoreKey::TypeKey(t) => format!(in alloc; "type {} {}", t.graph, t.name.as_text()),
        StoreKey::Vertex(v) => {
            let key = shown_value(alloc, &v.key)?;
            format!(in alloc; "vertex {} {} {key}", v.graph, v.kind.as_text())
        }
        StoreKey::Edge(edge) => shown_edge(alloc, edge),
    }
}

fn shown_record(alloc: Global, record: &Record) -> Result<String, AllocError> {
    let mut text = String::new(alloc);
    for value in &record.values {
        text.push(' ')?;
        text.push_str(shown_value(alloc, value)?.as_str())?;
    }
    Ok(text)
}

fn shown_stored(alloc: Global, value: &Option<StoreValue>) -> Result<String, AllocError> {
    match value {
        None => format!(in alloc; " gone"),
        Some(StoreValue::Nothing) => Ok(String::new(alloc)),
        Some(StoreValue::Number(n)) => format!(in alloc; "={n}"),
        Some(StoreValue::Schema(_)) => format!(in alloc; " of a schema"),
        Some(StoreValue::Record(record)) => {
            let values = shown_record(alloc, record)?;
            format!(in alloc; ":{values}")
        }
    }
}

/// Each row, with `; ` behind it.
pub fn shown(alloc: Global, rows: &[RowChange]) -> Result<String, AllocError> {
    let mut text = String::new(alloc);
    for row in rows {
        text.push_str(shown_key(alloc, &row.key)?.as_str())?;
        text.push_str(shown_stored(alloc, &row.value)?.as_str())?;
        text.push_str("; ")?;
    }
    Ok(text)
}

fn shown_refusal(alloc: Global, refusal: &Refusal) -> Result<String, AllocError> {
    match &refusal.attr {
        Some(attr) => format!(in alloc; "{:?} {}", refusal.word, attr.as_text()),
        None => format!(in alloc; "{:?}", refusal.word),
    }
}

/// The rows that the request changes, or its refusal.
pub fn answer(alloc: Global, plain: &mut Plain, line: &str) -> Result<String, Fail> {
    match plain.effect(alloc, operations(alloc, line)?.as_slice()) {
        Ok(rows) => Ok(shown(alloc, &rows)?),
        Err(GraphFault::Refused(refusal)) => Ok(shown_refusal(alloc, &refusal)?),
        Err(GraphFault::Memory) => Err(Fail::from("memory is wanting")),
    }
}

/// All rows of the graph.
pub fn all_shown(alloc: Global, plain: &Plain) -> Result<String, Fail> {
    let rows = plain.rows(alloc)?;
    Ok(shown(alloc, &rows)?)
}
