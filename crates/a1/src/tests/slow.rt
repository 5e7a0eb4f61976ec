//! Calls over a source and a sink that go byte by byte, and fail where they are told to. They tell no contents.
ghost use Rattle.std.specs.Prelude.{None};

use super::{PUT_ANN, called_alone};
use a1_base::{Failed, Sink, Source};
use std::alloc::{AllocError, Global};
use std::process::Abort;
use std::sync::Wait;
use std::test::Fail;

// Gives one byte a read. The read of the number `failing`, from 1, fails.
#[derive(Drop)]
struct SlowSource {
    bytes: Vec<u8>,
    at: usize,
    calls: u64,
    failing: u64,
    faults: u64,
}

impl Source for SlowSource {
    ghost left = { λ _. None };

    ghost faults = { λ s. s.faults };

    fn read(&mut self, buf: &mut [u8]) -> Result<usize, Failed> {
        self.calls = self.calls.saturating_add(1);
        if self.calls == self.failing {
            self.faults = self.faults.saturating_add(1);
            return Err(Failed);
        }
        if buf.is_empty() || self.at >= self.bytes.len() {
            return Ok(0);
        }
        buf[0] = self.bytes[self.at];
        self.at += 1;
        Ok(1)
    }
}

// Takes one byte a write. The write of the number `failing`, from 1, fails, and that of the number `idle` takes
// nothing.
#[derive(Drop)]
struct SlowSink {
    taken: Vec<u8>,
    calls: u64,
    failing: u64,
    idle: u64,
    faults: u64,
}

impl Sink for SlowSink {
    ghost written = { λ _. None };

    ghost faults = { λ s. s.faults };

    fn write(&mut self, piece: &[u8]) -> Result<usize, Failed> {
        self.calls = self.calls.saturating_add(1);
        if self.calls == self.failing {
            self.faults = self.faults.saturating_add(1);
            return Err(Failed);
        }
        if self.calls == self.idle {
            self.faults = self.faults.saturating_add(1);
            return Ok(0);
        }
        let Some(first) = piece.first() else {
            return Ok(0);
        };
        if self.taken.push(*first).is_err() {
            self.faults = self.faults.saturating_add(1);
            return Err(Failed);
        }
        Ok(1)
    }
}

// A call that goes byte by byte: which read fails, which write fails, which write takes nothing, and what it answers.
#[derive(Clone, Copy)]
struct ByteCase<'a> {
    words: &'a [&'a str],
    script: &'a str,
    failing_read: u64,
    failing_write: u64,
    idle_write: u64,
    status: u8,
    text: &'a str,
}

const WHOLE: ByteCase = ByteCase {
    words: &["run"],
    script: PUT_ANN,
    failing_read: 0,
    failing_write: 0,
    idle_write: 0,
    status: 0,
    text: "1 {\"ok\":2}\n",
};

const CASES: &[ByteCase] = &[
    WHOLE,
    ByteCase {
        failing_read: 9,
        status: 3,
        text: "",
        ..WHOLE
    },
    ByteCase {
        failing_write: 4,
        status: 4,
        text: "1 {",
        ..WHOLE
    },
    ByteCase {
        idle_write: 1,
        status: 4,
        text: "",
        ..WHOLE
    },
    ByteCase {
        idle_write: 6,
        status: 4,
        text: "1 {\"o",
        ..WHOLE
    },
    ByteCase {
        words: &["steps"],
        script: "load 0:0 aa\nbegin 1.1\n",
        failing_write: 10,
        status: 4,
        text: "loaded\nat",
        ..WHOLE
    },
];

fn slow_source(alloc: Global, case: &ByteCase) -> Result<SlowSource, AllocError> {
    Ok(SlowSource {
        bytes: Vec::from_slice(alloc, case.script.as_bytes())?,
        at: 0,
        calls: 0,
        failing: case.failing_read,
        faults: 0,
    })
}

fn slow_sink(alloc: Global, case: &ByteCase) -> SlowSink {
    SlowSink {
        taken: Vec::new(alloc),
        calls: 0,
        failing: case.failing_write,
        idle: case.idle_write,
        faults: 0,
    }
}

fn assert_byte_case<T: Wait + Abort>(
    rt: &T,
    alloc: Global,
    case: &ByteCase,
) -> Result<(), AllocError> {
    let mut source = slow_source(alloc, case)?;
    let mut sink = slow_sink(alloc, case);
    let outcome = called_alone(rt, alloc, case.words, &mut source, &mut sink)?;
    assert_eq!(rt; outcome.status, case.status, "{:?}", case.text);
    assert!(rt;
        sink.taken.as_slice() == case.text.as_bytes(),
        "{:?}",
        case.text
    );
    Ok(())
}

#[test]
fn byte_by_byte(rt: HostRuntime) -> Result<(), Fail> {
    for case in CASES {
        assert_byte_case(&rt, rt.alloc(), case)?;
    }
    Ok(())
}
