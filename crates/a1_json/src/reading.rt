//! From a text to its tree.
ghost use Rattle.std.specs.Prelude.{◌≡◌, Some, IfOk, IfErr, IsTrue};
ghost use Rattle.std.specs.List.{list_all};
ghost use Rattle.serde_json.specs.View.{view, items_view, members_view};
ghost use Rattle.a1_json.specs.Tree.{json_of, tree_of, items_of, members_of, has_ordered_names, members_ordered, GivesUnlessMemory, IsTreeFault};

use crate::{Json, JsonFault};
use a1_base::Txt;
use serde_json::{Map, Value};
use sqlite_items::Items;
use std::alloc::Global;

/// Reads a JSON text. Of members of one name the last stays, and the members then stand by name.
pub fn read(alloc: Global, bytes: &[u8]) -> Result<Json, JsonFault>
    ensures read { GivesUnlessMemory result (json_of bytes.now) }
    ensures order { IfOk result (λ json. IsTrue (has_ordered_names json)) }
{
    match Value::from_slice(alloc, bytes) {
        Ok(value) => convert(alloc, value),
        Err(error) => {
            if error.is_memory() {
                Err(JsonFault::Memory)
            } else {
                Err(JsonFault::NotJson)
            }
        }
    }
}

// The tree of a value, whose texts move into it.
#[cycle(convert)]
fn convert(alloc: Global, value: Value) -> Result<Json, JsonFault>
    ensures ok { IfOk result (λ json. tree_of (view value) ≡ Some json) }
    ensures fault { IfErr result (λ fault. IsTreeFault fault (tree_of (view value))) }
    ensures order { IfOk result (λ json. IsTrue (has_ordered_names json)) }
{
    match value {
        Value::Null => Ok(Json::Null),
        Value::Bool(flag) => Ok(Json::Bool(flag)),
        Value::Number(number) => match number.as_i64() {
            Some(whole) => Ok(Json::Int(whole)),
            None => Err(JsonFault::NotWhole),
        },
        Value::String(text) => Ok(Json::Text(Txt::from_string(text))),
        Value::Array(values) => Ok(Json::List(convert_items(alloc, values)?)),
        Value::Object(map) => Ok(Json::Members(convert_members(alloc, map)?)),
    }
}

// The trees of the values of a list.
#[tactic(auto, using(crate::proofs::TreeLemmas::none_behind, crate::proofs::TreeLemmas::one_behind))]
#[cycle(convert)]
fn convert_items(alloc: Global, values: Vec<Value>) -> Result<Items<Json>, JsonFault>
    ensures ok { IfOk result (λ items. items_of (items_view values.items) ≡ Some items) }
    ensures fault { IfErr result (λ fault. IsTreeFault fault (items_of (items_view values.items))) }
    ensures order { IfOk result (λ items. IsTrue (list_all has_ordered_names items)) }
{
    let mut items = Items::from_vec(Vec::with_capacity(alloc, values.len())?);
    for value in values {
        items.push(convert(alloc, value)?)?;
    }
    Ok(items)
}

// The trees of the members of an object.
#[cycle(convert)]
fn convert_members(alloc: Global, map: Map<String, Value>) -> Result<Items<(Txt, Json)>, JsonFault>
    ensures ok { IfOk result (λ members. members_of (members_view map.entries) ≡ Some members) }
    ensures fault { IfErr result (λ fault. IsTreeFault fault (members_of (members_view map.entries))) }
    ensures order { IfOk result (λ members. IsTrue (members_ordered members)) }
{
    let mut members = Items::from_vec(Vec::with_capacity(alloc, map.len())?);
    for (name, value) in map {
        let value = convert(alloc, value)?;
        members.push((Txt::from_string(name), value))?;
    }
    Ok(members)
}
