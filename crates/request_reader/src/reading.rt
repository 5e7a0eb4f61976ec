//! Reading a line as a request, over its JSON tree.
ghost use Rattle.std.specs.Prelude.{◌≡◌, option_map};
ghost use Rattle.std.specs.List.{list_all};
ghost use Rattle.request_reader.specs.Request.{listed, operation, operation_fits, operation_named, said_by, all_said, do_of, request_of, Reads};

use crate::Op;
use crate::asking::{ask_of, asked, line_in};
use crate::forms::Verb;
use crate::naming::body_named;
use crate::request::{BadWord, Request, RequestFault};
use crate::saying::said;
use crate::shapes::{body_fits, verb_of};
use a1_json::{Json, JsonFault, fields_in, items_in};
use sqlite_items::Items;
use std::alloc::Global;

// ---- members

// The items of an object whose one member is a list of this name, or none.
#[tactic(auto, unfolding(crate::specs::Request::listed))]
fn listed<'a>(name: &str, json: &'a Json) -> &'a [Json]
    ensures { result.now ≡ listed name.now json.now }
{
    match fields_in(json) {
        [only] => {
            if only.0.as_text() == name {
                items_in(&only.1)
            } else {
                &[]
            }
        }
        _ => &[],
    }
}

// ---- operations

// The operation that an object of one member names, with its own object.
#[tactic(auto, unfolding(crate::specs::Request::operation))]
fn operation(json: &Json) -> Option<(Verb, &Json)>
    ensures { option_map (λ o. (o.0, o.1.now)) result ≡ operation json.now }
{
    match fields_in(json) {
        [only] => Some((verb_of(only.0.as_text())?, &only.1)),
        _ => None,
    }
}

fn operation_fits(json: &Json) -> bool
    ensures { result ≡ operation_fits (operation json.now) }
{
    match operation(json) {
        Some((verb, body)) => body_fits(verb, body),
        None => false,
    }
}

fn operation_named(json: &Json) -> bool
    ensures { result ≡ operation_named (operation json.now) }
{
    match operation(json) {
        Some((verb, body)) => body_named(verb, body),
        None => false,
    }
}

fn all_fit(items: &[Json]) -> bool
    ensures { result ≡ list_all (λ j. operation_fits (operation j)) items.now }
{
    items.iter().all(|item| operation_fits(item))
}

fn all_named(items: &[Json]) -> bool
    ensures { result ≡ list_all (λ j. operation_named (operation j)) items.now }
{
    items.iter().all(|item| operation_named(item))
}

fn said_by(alloc: Global, json: &Json) -> Result<Op, RequestFault>
    ensures { Reads result (said_by (operation json.now)) }
{
    match operation(json) {
        Some((verb, body)) => said(alloc, verb, body),
        None => Err(RequestFault::Bad(BadWord::Attrs)),
    }
}

#[tactic(auto, using(crate::proofs::EachLemmas::each))]
fn all_said(alloc: Global, items: &[Json]) -> Result<Items<Op>, RequestFault>
    ensures { Reads result (all_said items.now) }
{
    let mut ops = Items::new(alloc);
    for item in items {
        ops.push(said_by(alloc, item)?)?;
    }
    Ok(ops)
}

// ---- requests

// Over all operations first their form, then their names, then their lists of attributes.
#[tactic(auto, unfolding(crate::specs::Request::do_of, type_schema::specs::Refusals::unless, type_schema::specs::Refusals::passing))]
fn do_of(alloc: Global, json: &Json) -> Result<Request, RequestFault>
    ensures { Reads result (do_of json.now) }
{
    let items = listed("do", json);
    if items.is_empty() || !all_fit(items) {
        return Err(RequestFault::Bad(BadWord::Shape));
    }
    if !all_named(items) {
        return Err(RequestFault::Bad(BadWord::Name));
    }
    Ok(Request::Do(all_said(alloc, items)?))
}

/// Reads a line as a request: the JSON value decides, so blanks, escapes, the order of members and members that an
/// equal name replaces do not matter (RFC 8259). `Bad` comes with the first word of `BadWord` that is true of the line.
#[tactic(auto, unfolding(crate::specs::Request::request_of))]
pub fn read(alloc: Global, line: &[u8]) -> Result<Request, RequestFault>
    ensures { Reads result (request_of line.now) }
{
    let json = match a1_json::read(alloc, line) {
        Ok(json) => json,
        Err(JsonFault::NotJson) => return Err(RequestFault::Bad(BadWord::NotJson)),
        Err(JsonFault::NotWhole) => return Err(RequestFault::Bad(BadWord::NotWhole)),
        Err(JsonFault::Memory) => return Err(RequestFault::Memory),
    };
    if let Some((session, line)) = line_in(listed("after", &json)) {
        return Ok(Request::After { session, line });
    }
    match asked(fields_in(&json)) {
        Some((pattern, graph)) => ask_of(alloc, pattern, graph),
        None => do_of(alloc, &json),
    }
}
