//! What a pattern says, out of its tree.
ghost use Rattle.std.specs.Prelude.{◌≡◌, codes, map, option_map, option_and_then, Ok};
ghost use Rattle.a1_json.specs.Fields.{as_text};
ghost use Rattle.a1ql_reader.specs.Pattern.{kind_in, matches_in, hop_in, end_in, vertex_of, edge_of, entry_of, hops_of, says, Reads};

use crate::places::direction;
use crate::values::{select_in, tests_in};
use crate::{Hop, PatternFault, VertexPattern};
use a1_base::Txt;
use a1_json::{Json, member};
use sqlite_items::{Boxed, Items};
use std::alloc::Global;

fn text_of(json: Option<&Json>) -> Option<&str>
    ensures { option_map (λ t. t.now) result ≡ option_and_then as_text (option_map (λ j. j.now) json.entry) }
{
    json?.as_text()
}

#[tactic(auto, unfolding(type_schema::specs::Refusals::need))]
fn kind_in(alloc: Global, members: &[(Txt, Json)]) -> Result<Txt, PatternFault>
    ensures { Reads result (kind_in members.now) }
{
    match text_of(member(members, "_type")) {
        Some(text) => Ok(Txt::from_text(alloc, text)?),
        None => Err(PatternFault::Shape),
    }
}

// ---- a value, by its kind

/// What a value says in the place of a vertex pattern. That each part is there was looked at before: else it is
/// `Shape`.
#[cycle(saying)]
pub fn vertex(alloc: Global, json: &Json) -> Result<VertexPattern, PatternFault>
    ensures { Reads result (says json.now).vertex }
{
    match json {
        Json::Members(members) => vertex_of(alloc, members.as_slice()),
        _ => Err(PatternFault::Shape),
    }
}

#[cycle(saying)]
fn edge(alloc: Global, json: &Json, out: bool) -> Result<Hop, PatternFault>
    ensures { Reads result ((says json.now).edge out) }
{
    match json {
        Json::Members(members) => edge_of(alloc, members.as_slice(), out),
        _ => Err(PatternFault::Shape),
    }
}

#[cycle(saying)]
fn entry(alloc: Global, json: &Json) -> Result<Hop, PatternFault>
    ensures { Reads result (says json.now).entry }
{
    match json {
        Json::Members(members) => entry_of(alloc, members.as_slice()),
        _ => Err(PatternFault::Shape),
    }
}

#[cycle(saying)]
fn matches(alloc: Global, json: &Json) -> Result<Items<Hop>, PatternFault>
    ensures { Reads result (says json.now).matches }
{
    match json {
        Json::List(items) => hops_of(alloc, items.as_slice()),
        _ => Err(PatternFault::Shape),
    }
}

// ---- members

#[cycle(saying)]
#[tactic(auto, unfolding(crate::specs::Pattern::vertex_of, type_schema::specs::Refusals::passing))]
fn vertex_of(alloc: Global, members: &[(Txt, Json)]) -> Result<VertexPattern, PatternFault>
    ensures { Reads result (vertex_of members.now (map (λ m. (m.0, says m.1)) members.now)) }
{
    let kind = kind_in(alloc, members)?;
    let tests = tests_in(alloc, members)?;
    let matches = matches_in(alloc, members)?;
    let hop = hop_in(alloc, members)?;
    let select = select_in(alloc, member(members, "_select"))?;
    Ok(VertexPattern {
        kind,
        tests,
        matches,
        hop,
        select,
    })
}

#[cycle(saying)]
#[tactic(auto, unfolding(crate::specs::Pattern::edge_of, type_schema::specs::Refusals::passing))]
fn edge_of(alloc: Global, members: &[(Txt, Json)], out: bool) -> Result<Hop, PatternFault>
    ensures { Reads result (edge_of out members.now (map (λ m. (m.0, says m.1)) members.now)) }
{
    let kind = kind_in(alloc, members)?;
    let tests = tests_in(alloc, members)?;
    let to = Boxed::new(alloc, end_in(alloc, members)?)?;
    Ok(Hop {
        out,
        kind,
        tests,
        to,
    })
}

#[cycle(saying)]
#[tactic(auto, unfolding(crate::specs::Pattern::entry_of, type_schema::specs::Refusals::passing, type_schema::specs::Refusals::need))]
fn entry_of(alloc: Global, members: &[(Txt, Json)]) -> Result<Hop, PatternFault>
    ensures { Reads result (entry_of (map (λ m. (m.0, says m.1)) members.now)) }
{
    match hop_in(alloc, members)? {
        Some(hop) => Ok(hop.into_inner()),
        None => Err(PatternFault::Shape),
    }
}

#[cycle(saying)]
fn matches_in(alloc: Global, members: &[(Txt, Json)]) -> Result<Items<Hop>, PatternFault>
    ensures { Reads result (matches_in (map (λ m. (m.0, says m.1)) members.now)) }
{
    for member in members {
        if member.0.as_text() == "_match" {
            return matches(alloc, &member.1);
        }
    }
    Ok(Items::new(alloc))
}

#[cycle(saying)]
#[tactic(auto, unfolding(type_schema::specs::Refusals::passing))]
fn hop_in(alloc: Global, members: &[(Txt, Json)]) -> Result<Option<Boxed<Hop>>, PatternFault>
    ensures { Reads result (hop_in (map (λ m. (m.0, says m.1)) members.now)) }
{
    for member in members {
        if let Some(out) = direction(member.0.as_text()) {
            let hop = edge(alloc, &member.1, out)?;
            return Ok(Some(Boxed::new(alloc, hop)?));
        }
    }
    Ok(None)
}

#[cycle(saying)]
fn end_in(alloc: Global, members: &[(Txt, Json)]) -> Result<VertexPattern, PatternFault>
    ensures { Reads result (end_in (map (λ m. (m.0, says m.1)) members.now)) }
{
    for member in members {
        if member.0.as_text() == "_vertex" {
            return vertex(alloc, &member.1);
        }
    }
    Err(PatternFault::Shape)
}

#[cycle(saying)]
#[tactic(auto, using(crate::proofs::EachLemmas::each))]
fn hops_of(alloc: Global, items: &[Json]) -> Result<Items<Hop>, PatternFault>
    ensures { Reads result (hops_of (map says items.now)) }
{
    let mut hops = Items::new(alloc);
    for item in items {
        hops.push(entry(alloc, item)?)?;
    }
    Ok(hops)
}
