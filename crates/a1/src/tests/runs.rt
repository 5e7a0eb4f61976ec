//! What a run holds.
use super::{Case, assert_outcome, outcome_of};
use answer_text::{Line, Reply, Transcript};
use request_reader::BadWord;
use run_text::Run;
use std::alloc::{AllocError, Global};
use std::process::Abort;
use std::sync::Wait;
use std::test::Fail;
use type_schema::Word;

const PUT_REQUEST: &str =
    "{\"do\":[{\"put\":{\"graph\":\"sys/names\",\"type\":\"name\",\"v\":{\"id\":\"ann\"}}}]}";

const THREE: Case = Case {
    words: &["run"],
    script: &["1 ", PUT_REQUEST, "\n1 ", PUT_REQUEST, "\n1 hello"],
    failing_read: 0,
    failing_write: 0,
    status: 0,
    text: "1 {\"ok\":2}\n1 {\"at\":2,\"refused\":\"key_taken\"}\n1 {\"bad\":\"not_json\"}\n",
};

// The run of a script of three requests.
fn run_of_three<T: Wait + Abort>(rt: &T, alloc: Global) -> Result<Run, AllocError> {
    let (outcome, text) = outcome_of(rt, alloc, &THREE)?;
    assert_outcome(rt, outcome.status, text.as_slice(), &THREE);
    Ok(outcome.run)
}

// The first session, and no other.
fn only_session(run: &Run) -> Option<&Transcript> {
    match run.sessions.as_slice() {
        [transcript] => Some(transcript),
        _ => None,
    }
}

#[test]
fn a_run_has_its_session(rt: HostRuntime) -> Result<(), Fail> {
    let run = run_of_three(&rt, rt.alloc())?;
    assert_eq!(rt; run.base, 1);
    let transcript = only_session(&run).ok_or("a session")?;
    assert_eq!(rt; transcript.session, 1);
    Ok(())
}

fn asks(line: &Line, request: &str) -> bool {
    line.request.as_slice() == request.as_bytes()
}

fn is_key_taken(reply: &Reply, stamp: u64) -> bool {
    matches!(reply, Reply::Refused { at, refusal }
        if *at == stamp && refusal.word == Word::KeyTaken && refusal.attr.is_none())
}

fn is_not_json(reply: &Reply) -> bool {
    matches!(reply, Reply::Bad { word } if *word == BadWord::NotJson)
}

#[test]
fn a_session_has_its_lines(rt: HostRuntime) -> Result<(), Fail> {
    let run = run_of_three(&rt, rt.alloc())?;
    let transcript = only_session(&run).ok_or("a session")?;
    let lines = transcript.lines.as_slice();
    assert_eq!(rt; lines.len(), 3);
    assert!(rt; asks(&lines[0], PUT_REQUEST));
    assert!(rt; matches!(lines[0].reply, Reply::Ok { stamp: 2 }));
    assert!(rt; asks(&lines[1], PUT_REQUEST));
    assert!(rt; is_key_taken(&lines[1].reply, 2));
    assert!(rt; asks(&lines[2], "hello"));
    assert!(rt; is_not_json(&lines[2].reply));
    Ok(())
}

#[test]
fn a_run_has_nothing_else(rt: HostRuntime) -> Result<(), Fail> {
    let run = run_of_three(&rt, rt.alloc())?;
    assert!(rt; run.background.is_empty());
    assert!(rt; run.clock == 0 && run.own == 0);
    assert!(rt; run.objects == 0 && run.versions == 0);
    assert!(rt; run.pending == 0);
    assert!(rt; run.regions.is_empty());
    Ok(())
}
