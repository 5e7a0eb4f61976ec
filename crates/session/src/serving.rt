//! Serving the lines of a session.
ghost use Rattle.std.specs.Prelude.{◌≡◌, ◌+◌, ◌<◌, ◌^◌, [], ◌∷◌, Ok, length, map, IfOk};
ghost use Rattle.a1_base.specs.declared.limits.TheConstants.{STAMP_LIMIT};
ghost use Rattle.request_reader.specs.Request.{request_of};
ghost use Rattle.answer_text.specs.Transcript.{NamesBefore};
ghost use Rattle.answer_text.specs.Legal.{IsLegal};
ghost use Rattle.session.specs.Serving.{Step, Stands};

use a1_base::{Bin, Memory};
use a1ql_reader::{Answer, Ask};
use answer_text::{Line, Reply, Transcript};
use graph_plain::Plain;
use request_reader::{Op, Request, RequestFault, read};
use sqlite_items::Items;
use std::alloc::Global;
use type_schema::GraphFault;

// Does operations at the next stamp, or refuses them at the clock.
fn serve_do(alloc: Global, plain: &mut Plain, clock: &mut u64, ops: &[Op]) -> Reply
    requires { clock.old < STAMP_LIMIT }
    ensures { Step plain.old clock.old (Ok (Request.Do ops.now)) result plain.new clock.new }
{
    match plain.effect(alloc, ops) {
        Err(GraphFault::Memory) => Reply::Memory,
        Err(GraphFault::Refused(refusal)) => Reply::Refused {
            at: *clock,
            refusal,
        },
        Ok(_) => {
            *clock += 1;
            Reply::Ok { stamp: *clock }
        }
    }
}

// Answers a query over the graph at the clock.
fn serve_ask(alloc: Global, plain: &Plain, clock: u64, ask: &Ask) -> Reply
    ensures { Step plain.now clock (Ok (Request.Ask ask.now)) result plain.now clock }
{
    match plain.answer(alloc, ask) {
        Err(GraphFault::Memory) => Reply::Memory,
        Err(GraphFault::Refused(refusal)) => Reply::Refused { at: clock, refusal },
        Ok(Answer::Rows(rows)) => Reply::Rows { at: clock, rows },
        Ok(Answer::Count(count)) => Reply::Count { at: clock, count },
    }
}

// Serves one request at the clock.
fn serve_request(alloc: Global, plain: &mut Plain, clock: &mut u64, request: Request) -> Reply
    requires { clock.old < STAMP_LIMIT }
    ensures { Step plain.old clock.old (Ok request) result plain.new clock.new }
{
    match request {
        Request::Do(ops) => serve_do(alloc, plain, clock, ops.as_slice()),
        Request::Ask(ask) => serve_ask(alloc, plain, *clock, &ask),
        Request::After { line, .. } => Reply::Told { line },
    }
}

// Serves one line at the clock.
fn serve_line(alloc: Global, plain: &mut Plain, clock: &mut u64, line: &[u8]) -> Reply
    requires { clock.old < STAMP_LIMIT }
    ensures { Step plain.old clock.old (request_of line.now) result plain.new clock.new }
{
    match read(alloc, line) {
        Ok(request) => serve_request(alloc, plain, clock, request),
        Err(RequestFault::Bad(word)) => Reply::Bad { word },
        Err(RequestFault::Memory) => Reply::Memory,
    }
}

/// Serves the lines of the only session, one after another, from this graph at this clock on. Each commit takes the
/// next stamp; the line that an `after` names was answered before. `Memory` comes for want of memory for the
/// transcript; want of memory inside one line is that line's reply.
pub fn serve(
    alloc: Global,
    plain: &mut Plain,
    clock: &mut u64,
    number: u32,
    requests: Vec<Bin>,
) -> Result<Transcript, Memory>
    requires room { clock.old + length requests.items < STAMP_LIMIT }
    requires names { NamesBefore number requests.items }
    ensures session { IfOk result (λ transcript. transcript.session ≡ number) }
    ensures requests { IfOk result (λ transcript. map (λ line. line.request) transcript.lines ≡ requests.items) }
    ensures legal { IfOk result (λ transcript. IsLegal plain.old clock.old (transcript ∷ []) []) }
    ensures stands { IfOk result (λ transcript. Stands plain.old clock.old transcript.lines plain.new clock.new) }
{
    let mut lines = Items::from_vec(Vec::with_capacity(alloc, requests.len())?);
    for request in requests {
        let reply = serve_line(alloc, plain, clock, request.as_slice());
        lines.push(Line { request, reply })?;
    }
    Ok(Transcript {
        session: number,
        lines,
    })
}
