//! A session that has each form of reply but want of memory.
ghost use Rattle.std.specs.Prelude.{◌≡◌, ◌≤◌, ℕ, true, Ok};
ghost use Rattle.request_reader.specs.Request.{request_of};
ghost use Rattle.request_reader.specs.declared.request.Request.TheVariants.{After};
ghost use Rattle.answer_text.specs.Transcript.{NamesBefore};

use crate::serve;
use a1_base::Bin;
use answer_text::text;
use graph_plain::Plain;
use request_reader::{Request, RequestFault, read};
use std::alloc::{AllocError, Global};
use std::test::Fail;

const PUT_ANN: &str = r#"{"do":[{"put":{"graph":"sys/names","type":"name","v":{"id":"ann"}}}]}"#;

const ASK_ANN: &str = r#"{"ask":{"_type":"name","id":"ann"},"graph":"sys/names"}"#;

const ASK_BOB: &str = r#"{"ask":{"_type":"name","id":"bob"},"graph":"sys/names"}"#;

const COUNT: &str = r#"{"ask":{"_select":["_count(*)"],"_type":"name"},"graph":"sys/names"}"#;

const ASK_AWAY: &str = r#"{"ask":{"_type":"name"},"graph":"sys/away"}"#;

// Requests of session 3 from the stamp 7 on, each with the text of its reply.
const LINES: [(&str, &str); 8] = [
    (PUT_ANN, r#"{"ok":8}"#),
    (ASK_ANN, r#"{"at":8,"rows":[{"id":"ann"}]}"#),
    (PUT_ANN, r#"{"at":8,"refused":"key_taken"}"#),
    (ASK_BOB, r#"{"at":8,"rows":[]}"#),
    (COUNT, r#"{"at":8,"count":1}"#),
    (ASK_AWAY, r#"{"at":8,"refused":"no_graph"}"#),
    (r#"{"after":[3,2]}"#, r#"{"told":2}"#),
    ("hello", r#"{"bad":"not_json"}"#),
];

fn requests(alloc: Global) -> Result<Vec<Bin>, AllocError> {
    let mut requests = Vec::new(alloc);
    for line in &LINES {
        requests.push(Bin::from_slice(alloc, line.0.as_bytes())?)?;
    }
    Ok(requests)
}

// Whether the line, which has so many before it, names one of these where it is an `after` of this session.
fn is_named(alloc: Global, session: u32, before: usize, line: &[u8]) -> bool
    ensures { result ≡ true → (q n : ℕ) → request_of line.now ≡ Ok (After q n) → q ≡ session → n ≤ before }
{
    match read(alloc, line) {
        Ok(
            Request::After {
                session: named,
                line,
            },
        ) => named != session || line as usize <= before,
        Ok(_) | Err(RequestFault::Bad(_)) => true,
        Err(RequestFault::Memory) => false,
    }
}

fn are_named(alloc: Global, session: u32, requests: &[Bin]) -> bool
    ensures { result ≡ true → NamesBefore session requests.now }
{
    let mut before = 0;
    for request in requests {
        if !is_named(alloc, session, before, request.as_slice()) {
            return false;
        }
        before += 1;
    }
    true
}

#[test]
fn serves_each_line(rt: HostRuntime) -> Result<(), Fail> {
    let alloc = rt.alloc();
    let requests = requests(alloc)?;
    assert_eq!(rt; requests.len(), 8);
    assert!(rt; are_named(alloc, 3, &requests));
    let mut plain = Plain::opening(alloc)?;
    let mut clock = 7;
    let transcript = serve(alloc, &mut plain, &mut clock, 3, requests)?;

    assert_eq!(rt; clock, 8);
    assert_eq!(rt; transcript.session, 3);
    let lines = transcript.lines.as_slice();
    assert_eq!(rt; lines.len(), 8);
    for (line, wanted) in lines.iter().zip(&LINES) {
        assert_eq!(rt; line.request.as_slice(), wanted.0.as_bytes());
        assert_eq!(rt; text(alloc, &line.reply)?.as_slice(), wanted.1.as_bytes());
    }
    Ok(())
}
