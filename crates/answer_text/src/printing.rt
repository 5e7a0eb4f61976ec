//! The text of a reply.
ghost use Rattle.std.specs.Prelude.{◌≡◌, IfOk, string_bytes};
ghost use Rattle.serde_json.specs.Data.{array, object};
ghost use Rattle.serde_json.specs.View.{view, members_view};
ghost use Rattle.answer_text.specs.Reply.{word_text, bad_text, value_data, row_members, row_data, rows_data, answer_data, refused_data, object_text, changed_data, held_data, reply_data, reply_text};

use crate::Reply;
use a1_base::{Addr, Bin, Memory, TxnId, Txt};
use a1_json::put_member;
use a1_value::Value;
use a1ql_reader::Row;
use request_reader::BadWord;
use serde_json::{Map, Value as Json, json};
use std::alloc::{AllocError, Global};
use type_schema::{Refusal, Word};

fn word_text(word: Word) -> &'static str
    ensures { result.now ≡ word_text word }
{
    match word {
        Word::System => "system",
        Word::NoTenant => "no_tenant",
        Word::TenantTaken => "tenant_taken",
        Word::NoGraph => "no_graph",
        Word::GraphTaken => "graph_taken",
        Word::GraphsFull => "graphs_full",
        Word::NoType => "no_type",
        Word::TypeTaken => "type_taken",
        Word::Missing => "missing",
        Word::Unknown => "unknown",
        Word::Kind => "kind",
        Word::Long => "long",
        Word::RecordLong => "record_long",
        Word::NoVertex => "no_vertex",
        Word::KeyTaken => "key_taken",
        Word::NoEdge => "no_edge",
        Word::EdgeTaken => "edge_taken",
        Word::NoAttr => "no_attr",
        Word::Overflow => "overflow",
        Word::Large => "large",
        Word::Deep => "deep",
        Word::WorkingSet => "working_set",
    }
}

fn bad_text(word: BadWord) -> &'static str
    ensures { result.now ≡ bad_text word }
{
    match word {
        BadWord::NotJson => "not_json",
        BadWord::NotWhole => "not_whole",
        BadWord::Shape => "shape",
        BadWord::Name => "name",
        BadWord::Attrs => "attrs",
    }
}

// A value: a number, or a text, with bytes in lower-case hexadecimal.
fn value_json(alloc: Global, value: &Value) -> Result<Json, AllocError>
    ensures { IfOk result (λ v. view v ≡ value_data value.now) }
{
    match value {
        Value::Int(n) => Ok(Json::from(*n)),
        Value::Text(text) => Json::try_from_str(alloc, text.as_text()),
        Value::Bytes(bytes) => Ok(Json::String(hex::encode(alloc, bytes.as_slice())?)),
    }
}

fn members_json(alloc: Global, members: &[(Txt, Value)]) -> Result<Map<String, Json>, AllocError>
    ensures { IfOk result (λ map. members_view map.entries ≡ row_members members.now) }
{
    let mut map = Map::new(alloc);
    for member in members {
        put_member(alloc, &mut map, &member.0, value_json(alloc, &member.1)?)?;
    }
    Ok(map)
}

fn row_json(alloc: Global, row: &Row) -> Result<Json, AllocError>
    ensures { IfOk result (λ v. view v ≡ row_data row.now) }
{
    Ok(Json::Object(members_json(alloc, row.members.as_slice())?))
}

fn rows_json(alloc: Global, rows: &[Row]) -> Result<Json, AllocError>
    ensures { IfOk result (λ v. view v ≡ array (rows_data rows.now)) }
{
    let mut list = Vec::with_capacity(alloc, rows.len())?;
    for row in rows {
        list.push(row_json(alloc, row)?)?;
    }
    Ok(Json::Array(list))
}

// Rows at a stamp, as JSON; `json!` would copy them.
fn answer_json(alloc: Global, at: u64, rows: &[Row]) -> Result<Json, AllocError>
    ensures { IfOk result (λ v. view v ≡ answer_data at rows.now) }
{
    let mut members = Map::new(alloc);
    members.insert(String::from_str(alloc, "at")?, Json::from(at))?;
    members.insert(String::from_str(alloc, "rows")?, rows_json(alloc, rows)?)?;
    Ok(Json::Object(members))
}

// A refusal at a stamp, as JSON.
fn refused_json(alloc: Global, at: u64, refusal: &Refusal) -> Result<Json, AllocError>
    ensures { IfOk result (λ v. view v ≡ refused_data at refusal.now) }
{
    let word = word_text(refusal.word);
    match &refusal.attr {
        None => json!(in alloc; {"at": at, "refused": word}),
        Some(attr) => {
            let attr = attr.as_text();
            json!(in alloc; {"at": at, "attr": attr, "refused": word})
        }
    }
}

// An object by its region and its offset.
fn object_text(alloc: Global, object: Addr) -> Result<String, AllocError>
    ensures { IfOk result (λ text. string_bytes text ≡ object_text object) }
{
    format!(in alloc; "{}:{}", object.region, object.offset)
}

// A changed object, as JSON.
fn changed_json(alloc: Global, object: Addr, seen: u64, now: u64) -> Result<Json, AllocError>
    ensures { IfOk result (λ v. view v ≡ changed_data object seen now) }
{
    let object = object_text(alloc, object)?;
    json!(in alloc; {"conflict": "changed", "now": now, "object": object.as_str(), "seen": seen})
}

// A held object, as JSON.
fn held_json(alloc: Global, object: Addr, by: TxnId) -> Result<Json, AllocError>
    ensures { IfOk result (λ v. view v ≡ held_data object by) }
{
    let object = object_text(alloc, object)?;
    json!(in alloc; {"by": [by.actor, by.number], "conflict": "held", "object": object.as_str()})
}

// A reply, as JSON.
fn reply_json(alloc: Global, reply: &Reply) -> Result<Json, AllocError>
    ensures { IfOk result (λ v. view v ≡ reply_data reply.now) }
{
    match reply {
        Reply::Ok { stamp } => json!(in alloc; {"ok": *stamp}),
        Reply::Rows { at, rows } => answer_json(alloc, *at, rows.as_slice()),
        Reply::Count { at, count } => json!(in alloc; {"at": *at, "count": *count}),
        Reply::Refused { at, refusal } => refused_json(alloc, *at, refusal),
        Reply::Changed { object, seen, now } => changed_json(alloc, *object, *seen, *now),
        Reply::Held { object, by } => held_json(alloc, *object, *by),
        Reply::Told { line } => json!(in alloc; {"told": *line}),
        Reply::Bad { word } => {
            let word = bad_text(*word);
            json!(in alloc; {"bad": word})
        }
        Reply::SpentNode => json!(in alloc; {"spent": "node"}),
        Reply::SpentStamps => json!(in alloc; {"spent": "stamps"}),
        Reply::Memory => json!(in alloc; {"memory": true}),
    }
}

/// The text of a reply: compact JSON (RFC 8259) with the names of each object in byte order. `Memory` comes for want
/// of memory alone.
#[tactic(auto, using(crate::proofs::ReplyLemmas::reply_plain), unfolding(crate::specs::Reply::reply_text))]
pub fn text(alloc: Global, reply: &Reply) -> Result<Bin, Memory>
    ensures { IfOk result (λ text. text ≡ reply_text reply.now) }
{
    let text = reply_json(alloc, reply)?.to_string(alloc)?;
    Ok(Bin::from_vec(text.into_bytes()))
}
