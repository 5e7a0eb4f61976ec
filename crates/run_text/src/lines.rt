//! The lines of a script, one after another.
ghost use Rattle.std.specs.Prelude.{◌≡◌, ◌<◌, ◌≤◌, ◌+◌, [], ◌∷◌, Ok, List, ℕ, length, take, drop, map, IfOk, OnOk, IfErr, option_map, option_and_then};
ghost use Rattle.a1_base.specs.declared.limits.TheConstants.{SCRIPT_LIMIT};
ghost use Rattle.request_reader.specs.Request.{names_line};
ghost use Rattle.run_text.specs.Script.{lines_in, numbered, of_session, entry_in, requests_of, stands_in, entries_from};
ghost use Rattle.run_text.specs.Reading.{in_first, IsEntriesFault};

use crate::ScriptFault;
use a1_base::{Bin, LINE_LIMIT};
use request_reader::names_line;
use std::alloc::{AllocError, Global};

// How long the first line is.
#[tactic(auto, using(crate::proofs::ScriptLemmas::onto_onto))]
fn line_len(bytes: &[u8]) -> usize
    requires { 0 < length bytes.now }
    ensures within { result ≤ length bytes.now }
    ensures lines { lines_in bytes.now ≡ take result bytes.now ∷ lines_in (drop (result + 1) bytes.now) }
{
    for (at, byte) in bytes.iter().enumerate() {
        if *byte == b'\n' {
            return at;
        }
    }
    bytes.len()
}

// What stands behind the number of session 1, the only one that is served, and a blank.
fn behind_number(line: &[u8]) -> Option<&[u8]>
    ensures { option_map (λ r. in_first r.now) result ≡ option_and_then of_session (numbered line.now) }
{
    let (first, rest) = line.split_first()?;
    let (second, request) = rest.split_first()?;
    if *first == b'1' && *second == b' ' {
        Some(request)
    } else {
        None
    }
}

// The request of a line that has a byte.
fn request_in(line: &[u8]) -> Option<&[u8]>
    ensures { option_map (λ r. in_first r.now) result ≡ entry_in line.now }
{
    if line.len() <= LINE_LIMIT {
        behind_number(line)
    } else {
        None
    }
}

// How many lines of a session there are, where these are the requests of session 1.
#[tactic(auto, using(crate::proofs::NamingLemmas::counted))]
fn line_count(requests: &[Bin], session: u32) -> usize
    ensures { result ≡ length (requests_of (map in_first requests.now) session) }
{
    if session == 1 { requests.len() } else { 0 }
}

// Whether the line that a request names, if it names one, is one of these of session 1.
fn is_told(alloc: Global, requests: &[Bin], request: &[u8]) -> Result<bool, AllocError>
    ensures { IfOk result (λ told. told ≡ stands_in (map in_first requests.now) (names_line request.now)) }
{
    match names_line(alloc, request) {
        Ok(Some((session, line))) => Ok(line as usize <= line_count(requests, session)),
        Ok(None) => Ok(true),
        Err(_) => Err(AllocError),
    }
}

// Adds the request of a line.
fn add_line(
    alloc: Global,
    requests: &mut Vec<Bin>,
    number: u64,
    line: &[u8],
) -> Result<(), ScriptFault>
    ensures ok { OnOk result ((lines : List (List ℕ)) →
        entries_from number (map in_first requests.old.items) (line.now ∷ lines)
        ≡ entries_from (number + 1) (map in_first requests.new.items) lines) }
    ensures one { length requests.new.items ≤ length requests.old.items + 1 }
    ensures fault { IfErr result (λ e. (lines : List (List ℕ)) →
        IsEntriesFault e (entries_from number (map in_first requests.old.items) (line.now ∷ lines))) }
{
    if line.is_empty() {
        return Ok(());
    }
    let Some(request) = request_in(line) else {
        return Err(ScriptFault::Line(number));
    };
    if !is_told(alloc, requests, request)? {
        return Err(ScriptFault::Line(number));
    }
    let request = Bin::from_slice(alloc, request)?;
    match requests.push(request) {
        Ok(()) => Ok(()),
        Err(_) => Err(ScriptFault::Memory),
    }
}

// The requests of the lines of a script.
pub fn read_requests(alloc: Global, bytes: &[u8]) -> Result<Vec<Bin>, ScriptFault>
    requires { length bytes.now ≤ SCRIPT_LIMIT }
    ensures ok { IfOk result (λ requests. entries_from 1 [] (lines_in bytes.now) ≡ Ok (map in_first requests.items)) }
    ensures few { IfOk result (λ requests. length requests.items ≤ length bytes.now) }
    ensures fault { IfErr result (λ e. IsEntriesFault e (entries_from 1 [] (lines_in bytes.now))) }
{
    let mut requests = Vec::new(alloc);
    let mut at = 0;
    let mut number = 1;
    while at < bytes.len() {
        let (_, rest) = bytes.split_at(at);
        let len = line_len(rest);
        let (line, _) = rest.split_at(len);
        add_line(alloc, &mut requests, number, line)?;
        at += len + 1;
        number += 1;
    }
    Ok(requests)
}
