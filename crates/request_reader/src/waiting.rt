//! Lines that wait for another line.
ghost use Rattle.std.specs.Prelude.{◌≡◌, ◌++◌, None, length, drop, IfOk, IsTrue};
ghost use Rattle.request_reader.specs.Request.{names_line};

use crate::reading::read;
use crate::request::{Request, RequestFault};
use a1_base::Memory;
use std::alloc::Global;

// Whether the line begins with this.
fn begins_with(line: &[u8], front: &[u8]) -> bool
    ensures { IsTrue result → line.now ≡ front.now ++ drop (length front.now) line.now }
{
    line.len() >= front.len() && line.split_at(front.len()).0 == front
}

// Whether the line begins with the key of a `do` or of an ask as both are mostly written. Such a line is no `after`.
#[tactic(auto, using(crate::proofs::PlainLemmas::do_line, crate::proofs::PlainLemmas::ask_line))]
fn is_plain(line: &[u8]) -> bool
    ensures { IsTrue result → names_line line.now ≡ None }
{
    begins_with(line, b"{\"do\"") || begins_with(line, b"{\"ask\"")
}

/// The session and the line that a line names, where it reads as an `after`. `Memory` comes for want of memory alone.
#[tactic(auto, unfolding(crate::specs::Request::names_line))]
pub fn names_line(alloc: Global, line: &[u8]) -> Result<Option<(u32, u32)>, Memory>
    ensures { IfOk result (λ named. named ≡ names_line line.now) }
{
    if is_plain(line) {
        return Ok(None);
    }
    match read(alloc, line) {
        Ok(Request::After { session, line }) => Ok(Some((session, line))),
        Ok(Request::Do(_) | Request::Ask(_)) => Ok(None),
        Err(RequestFault::Bad(_)) => Ok(None),
        Err(RequestFault::Memory) => Err(Memory),
    }
}
