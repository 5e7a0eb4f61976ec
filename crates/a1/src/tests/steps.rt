//! The command `steps` over its worked examples, and over texts and calls that fail.
use super::{Case, Scripts, assert_case, assert_scripts};
use std::alloc::{AllocError, Global};
use std::process::Abort;
use std::sync::Wait;
use std::test::Fail;

// Each event with its answer.
type Rows<'a> = &'a [(&'a str, &'a str)];

// Two transactions read what the other writes, and one of them is refused.
const WRITE_SKEW: Rows = &[
    ("load 0:0 aa", "loaded"),
    ("load 1:0 bb", "loaded"),
    ("begin 1.1", "at 1"),
    ("begin 2.1", "at 1"),
    ("read 1.1 0:0", "value 1 aa"),
    ("read 1.1 1:0", "value 1 bb"),
    ("read 2.1 0:0", "value 1 aa"),
    ("read 2.1 1:0", "value 1 bb"),
    ("lock 1.1 0:0 a1", "locked 1 1"),
    ("draw 1.1", "stamp 2"),
    ("check 1.1 1:0", "same"),
    ("put 1.1 0:0", "put"),
    ("lock 2.1 1:0 b2", "locked 1 2"),
    ("draw 2.1", "stamp 3"),
    ("check 2.1 0:0", "changed 1 2"),
    ("put 2.1 1:0", "no"),
    ("unlock 2.1 1:0", "unlocked"),
    ("shut 2.1", "shut"),
    ("shut 1.1", "shut"),
];

// A snapshot is read beside later commits.
const OLD_SNAPSHOT: Rows = &[
    ("load 0:0 aa", "loaded"),
    ("begin 1.1", "at 1"),
    ("begin 2.1", "at 1"),
    ("lock 1.1 0:0 ab", "locked 1 1"),
    ("read 2.1 0:0", "held 1.1"),
    ("draw 1.1", "stamp 2"),
    ("put 1.1 0:0", "put"),
    ("shut 1.1", "shut"),
    ("begin 3.1", "at 2"),
    ("lock 3.1 0:0 ac", "locked 2 2"),
    ("read 2.1 0:0", "value 1 aa"),
];

// A place is freed, collected and taken again.
const PLACE_AGAIN: Rows = &[
    ("load 0:0 aa", "loaded"),
    ("begin 1.1", "at 1"),
    ("lock 1.1 0:0 -", "locked 1 1"),
    ("draw 1.1", "stamp 2"),
    ("put 1.1 0:0", "put"),
    ("shut 1.1", "shut"),
    ("begin 2.1", "at 2"),
    ("alloc 2.1 1 cc", "placed 1:0 2"),
    ("draw 2.1", "stamp 3"),
    ("put 2.1 1:0", "put"),
    ("shut 2.1", "shut"),
    ("begin 3.1", "at 3"),
    ("read 3.1 0:0", "absent 2"),
    ("shut 3.1", "shut"),
    ("collect 0", "floor 3 versions 2 objects 1"),
    ("begin 4.1", "at 3"),
    ("alloc 4.1 0 dd", "placed 0:0 3"),
    ("draw 4.1", "stamp 4"),
    ("begin 5.1", "at 4"),
    ("read 5.1 0:0", "held 4.1"),
    ("put 4.1 0:0", "put"),
    ("read 5.1 0:0", "value 4 dd"),
];

// What an open transaction can see is not collected.
const PINNED: Rows = &[
    ("load 0:0 aa", "loaded"),
    ("begin 1.1", "at 1"),
    ("begin 2.1", "at 1"),
    ("lock 2.1 0:0 ab", "locked 1 1"),
    ("draw 2.1", "stamp 2"),
    ("put 2.1 0:0", "put"),
    ("shut 2.1", "shut"),
    ("collect 0", "floor 1 versions 0 objects 0"),
    ("read 1.1 0:0", "value 1 aa"),
    ("shut 1.1", "shut"),
    ("collect 0", "floor 2 versions 1 objects 0"),
];

const RANGES: Rows = &[
    ("load 3145727:4095 00ff", "loaded"),
    ("begin 35.1", "at 1"),
    ("begin 1.2", "no"),
    ("read 35.1 3145727:4095", "value 1 00ff"),
    ("read 35.2 0:0", "no"),
    ("collect 2", "floor 1 versions 0 objects 0"),
];

const MALFORMED: Scripts = &[
    (&["\n"], "script 1\n"),
    (&["load 0:0 aa\n\nbegin 1.1\n"], "script 2\n"),
    (&["load 0:0 aa\nbegin 1.1"], "script 2\n"),
    (&["begin 1.1\r\n"], "script 1\n"),
    (&["begin  1.1\n"], "script 1\n"),
    (&["begin 01.1\n"], "script 1\n"),
    (&["begin 0.1\n"], "script 1\n"),
    (&["begin 36.1\n"], "script 1\n"),
    (&["begin 1.18446744073709551616\n"], "script 1\n"),
    (&["load 0:0 AA\n"], "script 1\n"),
    (&["load 0:0 a\n"], "script 1\n"),
    (&["load 0:0 \n"], "script 1\n"),
    (&["load 0:0 -\n"], "script 1\n"),
    (&["load 3145728:0 aa\n"], "script 1\n"),
    (&["load 0:4096 aa\n"], "script 1\n"),
    (&["begin 1.1\n", "alloc 1.1 3 aa\n"], "script 2\n"),
    (&["collect 2\n", "collect 3\n"], "script 2\n"),
];

const UNREAD: Case = Case {
    words: &["steps"],
    script: &["load 0:0 aa\n"],
    failing_read: 1,
    failing_write: 0,
    status: 3,
    text: "",
};

const UNWRITTEN: Case = Case {
    failing_read: 0,
    failing_write: 1,
    status: 4,
    ..UNREAD
};

const FAILING: &[Case] = &[
    UNREAD,
    UNWRITTEN,
    Case {
        script: &["\n"],
        ..UNWRITTEN
    },
    Case {
        words: &["steps", "x"],
        failing_write: 0,
        status: 2,
        text: "usage\n",
        ..UNWRITTEN
    },
];

fn push_line(text: &mut String, line: &str) -> Result<(), AllocError> {
    text.push_str(line)?;
    text.push('\n')
}

// The text of the events, and that of their answers.
fn texts(alloc: Global, rows: &[(&str, &str)]) -> Result<(String, String), AllocError> {
    let mut events = String::new(alloc);
    let mut answers = String::new(alloc);
    for (event, answer) in rows {
        push_line(&mut events, event)?;
        push_line(&mut answers, answer)?;
    }
    Ok((events, answers))
}

fn assert_rows<T: Wait + Abort>(rt: &T, alloc: Global, rows: Rows) -> Result<(), AllocError> {
    let (events, answers) = texts(alloc, rows)?;
    assert_scripts(
        rt,
        alloc,
        &["steps"],
        0,
        &[(&[events.as_str()], answers.as_str())],
    )
}

#[test]
fn worked_examples(rt: HostRuntime) -> Result<(), Fail> {
    let none: Rows = &[];
    for rows in [none, WRITE_SKEW, OLD_SNAPSHOT, PLACE_AGAIN, PINNED] {
        assert_rows(&rt, rt.alloc(), rows)?;
    }
    Ok(())
}

#[test]
fn at_the_ranges(rt: HostRuntime) -> Result<(), Fail> {
    assert_rows(&rt, rt.alloc(), RANGES)?;
    Ok(())
}

#[test]
fn texts_out_of_form(rt: HostRuntime) -> Result<(), Fail> {
    assert_scripts(&rt, rt.alloc(), &["steps"], 8, MALFORMED)?;
    Ok(())
}

#[test]
fn calls_that_fail(rt: HostRuntime) -> Result<(), Fail> {
    for case in FAILING {
        assert_case(&rt, rt.alloc(), case)?;
    }
    Ok(())
}
