//! Queries, and lines that wait for another line.
ghost use Rattle.std.specs.Prelude.{◌≡◌, option_map};
ghost use Rattle.a1ql_reader.specs.Pattern.{pattern_of};
ghost use Rattle.request_reader.specs.Request.{worded, ask_of, asked, counted, counted_in, line_in, Reads};

use crate::request::{BadWord, Request, RequestFault};
use crate::saying::graph_from;
use a1_base::{SESSION_LIMIT, Txt};
use a1_json::Json;
use a1ql_reader::{Ask, PatternFault, VertexPattern, pattern};
use std::alloc::Global;

// ---- queries

fn pattern_in(alloc: Global, json: &Json) -> Result<VertexPattern, RequestFault>
    ensures { Reads result (worded (pattern_of json.now)) }
{
    match pattern(alloc, json) {
        Ok(pattern) => Ok(pattern),
        Err(PatternFault::Shape) => Err(RequestFault::Bad(BadWord::Shape)),
        Err(PatternFault::Name) => Err(RequestFault::Bad(BadWord::Name)),
        Err(PatternFault::Memory) => Err(RequestFault::Memory),
    }
}

/// The query of this pattern and this graph: over both first the shape, then the names.
#[tactic(auto, unfolding(crate::specs::Request::ask_of, type_schema::specs::Refusals::need, type_schema::specs::Refusals::passing))]
pub fn ask_of(alloc: Global, pattern: &Json, graph: &Json) -> Result<Request, RequestFault>
    ensures { Reads result (ask_of pattern.now graph.now) }
{
    let Some(text) = graph.as_text() else {
        return Err(RequestFault::Bad(BadWord::Shape));
    };
    let pattern = pattern_in(alloc, pattern)?;
    let graph = graph_from(alloc, BadWord::Name, Some(text))?;
    Ok(Request::Ask(Ask { graph, pattern }))
}

/// What stands at `ask` and at `graph`, where these are all members.
pub fn asked(members: &[(Txt, Json)]) -> Option<(&Json, &Json)>
    ensures { option_map (λ a. (a.0.now, a.1.now)) result ≡ asked members.now }
{
    match members {
        [a, b] => {
            if a.0.as_text() == "ask" && b.0.as_text() == "graph" {
                Some((&a.1, &b.1))
            } else {
                None
            }
        }
        _ => None,
    }
}

// ---- lines that wait

// The number, where it is one from 1 to the limit.
fn counted(limit: u32, number: i64) -> Option<u32>
    ensures { result ≡ counted limit number }
{
    let number = u32::try_from(number).ok()?;
    if 1 <= number && number <= limit {
        Some(number)
    } else {
        None
    }
}

fn counted_in(limit: u32, json: &Json) -> Option<u32>
    ensures { result ≡ counted_in limit json.now }
{
    counted(limit, json.as_int()?)
}

/// A session and a line.
pub fn line_in(items: &[Json]) -> Option<(u32, u32)>
    ensures { result ≡ line_in items.now }
{
    match items {
        [session, line] => {
            let session = counted_in(SESSION_LIMIT, session)?;
            let line = counted_in(u32::MAX, line)?;
            Some((session, line))
        }
        _ => None,
    }
}
