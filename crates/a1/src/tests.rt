//! The worked examples, over a source, a sink and a store in memory.
mod ample;
mod runs;
mod slow;
mod steps;
mod words;

use crate::ending::Outcome;
use crate::top::a1;
use a1_base::{Bin, MemSink, MemSource, NoGate, Sink, Source};
use object_store::MemStore;
use std::alloc::{AllocError, Global};
use std::process::Abort;
use std::sync::Wait;
use std::test::Fail;

const PUT_ANN: &str =
    "1 {\"do\":[{\"put\":{\"graph\":\"sys/names\",\"type\":\"name\",\"v\":{\"id\":\"ann\"}}}]}\n";

const PUT_BOB: &str =
    "1 {\"do\":[{\"put\":{\"graph\":\"sys/names\",\"type\":\"name\",\"v\":{\"id\":\"bob\"}}}]}\n";

const AFTER_FIRST: &str = "1 {\"after\":[1,1]}\n";

const COUNT: &str =
    "1 {\"ask\":{\"_type\":\"name\",\"_select\":[\"_count(*)\"]},\"graph\":\"sys/names\"}\n";

const ASK_ANN: &str = "1 {\"ask\":{\"_type\":\"name\",\"id\":\"ann\"},\"graph\":\"sys/names\"}\n";

// A call of the program, and what it must answer. It has the pieces of the script, and which read and which write fail,
// 0 for none.
#[derive(Clone, Copy)]
struct Case<'a> {
    words: &'a [&'a str],
    script: &'a [&'a str],
    failing_read: u64,
    failing_write: u64,
    status: u8,
    text: &'a str,
}

// The pieces of a script, and the text that is written for it.
type Scripts<'a> = &'a [(&'a [&'a str], &'a str)];

const SERVED: Scripts = &[
    (&[], ""),
    (
        &[PUT_ANN, ASK_ANN],
        "1 {\"ok\":2}\n1 {\"at\":2,\"rows\":[{\"id\":\"ann\"}]}\n",
    ),
    (
        &[PUT_ANN, ASK_ANN, PUT_ANN, PUT_BOB],
        "1 {\"ok\":2}\n1 {\"at\":2,\"rows\":[{\"id\":\"ann\"}]}\n1 {\"at\":2,\"refused\":\"key_taken\"}\n\
        1 {\"ok\":3}\n",
    ),
    (&[ASK_ANN], "1 {\"at\":1,\"rows\":[]}\n"),
    (&["1 hello\n"], "1 {\"bad\":\"not_json\"}\n"),
    (
        &[PUT_ANN, AFTER_FIRST, COUNT],
        "1 {\"ok\":2}\n1 {\"told\":1}\n1 {\"at\":2,\"count\":1}\n",
    ),
    (
        &["\n1 \n\n1 {}"],
        "1 {\"bad\":\"not_json\"}\n1 {\"bad\":\"shape\"}\n",
    ),
];

const MALFORMED: Scripts = &[
    (&["2 {}\n"], "script 1\n"),
    (&[AFTER_FIRST], "script 1\n"),
    (&["\n", PUT_ANN, "1 {\"after\":[1,2]}\n"], "script 3\n"),
    (&[PUT_ANN, "1 {\"after\":[2,1]}\n"], "script 2\n"),
    (&["33 {}\n"], "script 1\n"),
    (&["\n", PUT_ANN, "\n1\n"], "script 4\n"),
    (&["01 {}\n"], "script 1\n"),
    (&["\r\n"], "script 1\n"),
];

const UNREAD: Case = Case {
    words: &["run"],
    script: &[PUT_ANN],
    failing_read: 2,
    failing_write: 0,
    status: 3,
    text: "",
};

const UNWRITTEN: Case = Case {
    failing_read: 0,
    failing_write: 1,
    status: 4,
    ..UNREAD
};

const FAILING: &[Case] = &[
    UNREAD,
    UNWRITTEN,
    Case {
        words: &[],
        script: &[],
        ..UNWRITTEN
    },
    Case {
        words: &["run", "x"],
        failing_write: 0,
        status: 2,
        text: "usage\n",
        ..UNWRITTEN
    },
];

fn strings(alloc: Global, words: &[&str]) -> Result<Vec<String>, AllocError> {
    let mut strings = Vec::new(alloc);
    for word in words {
        strings.push(String::from_str(alloc, word)?)?;
    }
    Ok(strings)
}

fn joined(alloc: Global, pieces: &[&str]) -> Result<Bin, AllocError> {
    let mut bytes = Bin::new(alloc);
    for piece in pieces {
        bytes.append(piece.as_bytes())?;
    }
    Ok(bytes)
}

fn numbers(alloc: Global, number: u64) -> Result<Vec<u64>, AllocError> {
    if number == 0 {
        Ok(Vec::new(alloc))
    } else {
        Ok(vec![in alloc; number]?)
    }
}

// What the program answers to these words over this outside.
fn called<T: Wait, R: Source, W: Sink>(
    rt: &T,
    alloc: Global,
    words: &[&str],
    source: &mut R,
    sink: &mut W,
    store: &mut MemStore,
) -> Result<Outcome, AllocError> {
    let words = strings(alloc, words)?;
    Ok(a1(rt, alloc, &words, source, sink, store, &NoGate))
}

// The same over a store that holds nothing.
fn called_alone<T: Wait, R: Source, W: Sink>(
    rt: &T,
    alloc: Global,
    words: &[&str],
    source: &mut R,
    sink: &mut W,
) -> Result<Outcome, AllocError> {
    let mut store = MemStore::new(Vec::new(alloc), Vec::new(alloc));
    called(rt, alloc, words, source, sink, &mut store)
}

// What the case's call answers, and what it writes.
fn outcome_of<T: Wait>(
    rt: &T,
    alloc: Global,
    case: &Case,
) -> Result<(Outcome, Vec<u8>), AllocError> {
    let script = joined(alloc, case.script)?;
    let mut source = MemSource::new(script, numbers(alloc, case.failing_read)?);
    let mut sink = MemSink::new(alloc, numbers(alloc, case.failing_write)?);
    let outcome = called_alone(rt, alloc, case.words, &mut source, &mut sink)?;
    Ok((outcome, sink.bytes().to_vec(alloc)?))
}

fn assert_outcome(rt: &impl Abort, status: u8, text: &[u8], case: &Case) {
    assert_eq!(rt; status, case.status, "{:?} {:?}", case.words, case.script);
    assert!(rt;
        text == case.text.as_bytes(),
        "{:?} {:?}",
        case.words,
        case.script
    );
}

fn assert_case<T: Wait + Abort>(rt: &T, alloc: Global, case: &Case) -> Result<(), AllocError> {
    let (outcome, text) = outcome_of(rt, alloc, case)?;
    assert_outcome(rt, outcome.status, text.as_slice(), case);
    Ok(())
}

// Each script has this status and its text, where nothing outside fails.
fn assert_scripts<'a, T: Wait + Abort>(
    rt: &T,
    alloc: Global,
    words: &'a [&'a str],
    status: u8,
    scripts: Scripts<'a>,
) -> Result<(), AllocError> {
    for (script, text) in scripts {
        let case = Case {
            words,
            script,
            failing_read: 0,
            failing_write: 0,
            status,
            text,
        };
        assert_case(rt, alloc, &case)?;
    }
    Ok(())
}

#[test]
fn worked_examples(rt: HostRuntime) -> Result<(), Fail> {
    assert_scripts(&rt, rt.alloc(), &["run"], 0, SERVED)?;
    Ok(())
}

#[test]
fn scripts_out_of_form(rt: HostRuntime) -> Result<(), Fail> {
    assert_scripts(&rt, rt.alloc(), &["run"], 8, MALFORMED)?;
    Ok(())
}

#[test]
fn calls_that_fail(rt: HostRuntime) -> Result<(), Fail> {
    for case in FAILING {
        assert_case(&rt, rt.alloc(), case)?;
    }
    Ok(())
}

// A store that holds one item, and whose first call fails.
fn store_of_one(alloc: Global) -> Result<MemStore, AllocError> {
    let mut items = Vec::new(alloc);
    items.push(Bin::from_slice(alloc, b"C")?)?;
    Ok(MemStore::new(items, numbers(alloc, 1)?))
}

// It holds just that item.
fn is_store_of_one(store: &MemStore) -> bool {
    match store.items() {
        [item] => item.as_slice() == b"C".as_slice(),
        _ => false,
    }
}

// The status of a put over this store.
fn put_over<T: Wait>(rt: &T, alloc: Global, store: &mut MemStore) -> Result<u8, AllocError> {
    let mut source = MemSource::new(joined(alloc, &[PUT_ANN])?, Vec::new(alloc));
    let mut sink = MemSink::new(alloc, Vec::new(alloc));
    let outcome = called(rt, alloc, &["run"], &mut source, &mut sink, store)?;
    Ok(outcome.status)
}

#[test]
fn the_store_is_not_touched(rt: HostRuntime) -> Result<(), Fail> {
    let mut store = store_of_one(rt.alloc())?;
    let status = put_over(&rt, rt.alloc(), &mut store)?;
    assert_eq!(rt; status, 0);
    assert!(rt; is_store_of_one(&store));
    Ok(())
}
