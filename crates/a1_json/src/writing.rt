//! From a tree to its text.
ghost use Rattle.std.specs.Prelude.{◌≡◌, IfOk, OnOk, OnErr, map};
ghost use Rattle.serde_json.specs.Data.{no_members, put};
ghost use Rattle.serde_json.specs.Written.{compact_text};
ghost use Rattle.serde_json.specs.View.{view, members_view};
ghost use Rattle.a1_json.specs.Written.{data_of, put_all};

use crate::Json;
use a1_base::{Bin, Memory, Txt};
use serde_json::{Map, Value};
use std::alloc::{AllocError, Global};

/// Writes a tree as compact text.
#[tactic(auto, using(crate::proofs::WholeLemmas::whole))]
pub fn write(alloc: Global, json: &Json) -> Result<Bin, Memory>
    ensures { IfOk result (λ text. text ≡ compact_text (data_of json.now)) }
{
    let text = value_of(alloc, json)?.to_string(alloc)?;
    Ok(Bin::from_vec(text.into_bytes()))
}

// The value of a tree.
#[cycle(build)]
fn value_of(alloc: Global, json: &Json) -> Result<Value, AllocError>
    ensures { IfOk result (λ value. view value ≡ data_of json.now) }
{
    match json {
        Json::Null => Ok(Value::Null),
        Json::Bool(flag) => Ok(Value::Bool(*flag)),
        Json::Int(whole) => Ok(Value::from(*whole)),
        Json::Text(text) => Value::try_from_str(alloc, text.as_text()),
        Json::List(items) => Ok(Value::Array(values_of(alloc, items.as_slice())?)),
        Json::Members(members) => Ok(Value::Object(map_of(alloc, members.as_slice())?)),
    }
}

// The values of trees.
#[cycle(build)]
fn values_of(alloc: Global, items: &[Json]) -> Result<Vec<Value>, AllocError>
    ensures { IfOk result (λ values. map view values.items ≡ map data_of items.now) }
{
    let mut values = Vec::new(alloc);
    for item in items {
        values.push(value_of(alloc, item)?)?;
    }
    Ok(values)
}

// The object of some members.
#[cycle(build)]
fn map_of(alloc: Global, members: &[(Txt, Json)]) -> Result<Map<String, Value>, AllocError>
    ensures { IfOk result
        (λ object. members_view object.entries ≡ put_all no_members (map (λ m. (m.0, data_of m.1)) members.now)) }
{
    let mut object = Map::new(alloc);
    for member in members {
        put_member(alloc, &mut object, &member.0, value_of(alloc, &member.1)?)?;
    }
    Ok(object)
}

/// Puts a member into an object, in the place of one of its name where there is one. The error is want of memory, and
/// leaves the object as it was.
pub fn put_member(
    alloc: Global,
    object: &mut Map<String, Value>,
    name: &Txt,
    value: Value,
) -> Result<(), AllocError>
    ensures ok { OnOk result
        (members_view object.new.entries ≡ put name.now (view value) (members_view object.old.entries)) }
    ensures err { OnErr result (object.new.entries ≡ object.old.entries) }
{
    object.insert(String::from_str(alloc, name.as_text())?, value)?;
    Ok(())
}
