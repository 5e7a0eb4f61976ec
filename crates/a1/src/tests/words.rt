//! Words: which are a command with its options, and which are not.
use super::{Case, assert_case};
use std::test::Fail;

// The words, the text that is read, the status, and the text that is written.
type Row<'a> = (&'a [&'a str], &'a str, u8, &'a str);

// A node of five that is none of three.
const FOURTH: &str = "collect 4\n";

const FOURTH_ANSWER: &str = "floor 1 versions 0 objects 0\n";

const TABLE: &[Row] = &[
    // Without options, and with all of them, in either form and in any order.
    (&["run"], "", 0, ""),
    (&["steps"], "", 0, ""),
    (&["run", "--nodes", "3"], "", 0, ""),
    (&["run", "--nodes=3"], "", 0, ""),
    (
        &["run", "--retries", "0", "--beside", "no", "--nodes", "1"],
        "",
        0,
        "",
    ),
    (
        &["run", "--beside=yes", "--nodes", "16", "--retries=1000000"],
        "",
        0,
        "",
    ),
    // The number of nodes tells which there are.
    (&["steps"], FOURTH, 8, "script 1\n"),
    (&["steps", "--nodes", "3"], FOURTH, 8, "script 1\n"),
    (&["steps", "--nodes", "5"], FOURTH, 0, FOURTH_ANSWER),
    (&["steps", "--nodes=5"], FOURTH, 0, FOURTH_ANSWER),
    (&["steps", "--nodes=4"], FOURTH, 8, "script 1\n"),
    // Leading zeros.
    (
        &["steps", "--nodes", "000000000000000000000005"],
        FOURTH,
        0,
        FOURTH_ANSWER,
    ),
    (&["run", "--retries", "00"], "", 0, ""),
    // Numbers out of range, and words that are no number.
    (&["run", "--nodes", "0"], "", 2, "usage\n"),
    (&["run", "--nodes", "17"], "", 2, "usage\n"),
    (&["steps", "--nodes=0"], "", 2, "usage\n"),
    (&["steps", "--nodes=17"], "", 2, "usage\n"),
    (&["run", "--retries", "1000001"], "", 2, "usage\n"),
    (&["run", "--retries", "4294967296"], "", 2, "usage\n"),
    (&["run", "--nodes", "+3"], "", 2, "usage\n"),
    (&["run", "--nodes=+3"], "", 2, "usage\n"),
    (&["run", "--nodes", "-3"], "", 2, "usage\n"),
    (&["run", "--nodes=-3"], "", 2, "usage\n"),
    (&["run", "--retries=-0"], "", 2, "usage\n"),
    (&["run", "--nodes", "3x"], "", 2, "usage\n"),
    (&["run", "--nodes", " 3"], "", 2, "usage\n"),
    (&["run", "--nodes", ""], "", 2, "usage\n"),
    (&["run", "--nodes="], "", 2, "usage\n"),
    (&["run", "--nodes==3"], "", 2, "usage\n"),
    (&["run", "--beside", "maybe"], "", 2, "usage\n"),
    (&["run", "--beside=Yes"], "", 2, "usage\n"),
    // An option twice, none, half of one, and one of the other command.
    (&["run", "--nodes", "3", "--nodes", "3"], "", 2, "usage\n"),
    (&["run", "--beside=no", "--beside", "no"], "", 2, "usage\n"),
    (&["steps", "--nodes=3", "--nodes=3"], "", 2, "usage\n"),
    (&["run", "--nodes"], "", 2, "usage\n"),
    (&["run", "--nodes", "--retries", "3"], "", 2, "usage\n"),
    (&["run", "--stages", "3"], "", 2, "usage\n"),
    (&["run", "--node", "3"], "", 2, "usage\n"),
    (&["steps", "--retries", "3"], "", 2, "usage\n"),
    (&["steps", "--beside=no"], "", 2, "usage\n"),
    // Other words.
    (&["run", "--help"], "", 2, "usage\n"),
    (&["run", "-h"], "", 2, "usage\n"),
    (&["steps", "--help"], "", 2, "usage\n"),
    (&["steps", "-h"], "", 2, "usage\n"),
    (&["run", "--"], "", 2, "usage\n"),
    (&["run", "--", "--nodes=3"], "", 2, "usage\n"),
    (&["run", "--nodes", "--"], "", 2, "usage\n"),
    (&["run", "3"], "", 2, "usage\n"),
    (&["run", "--nodes=3", "3"], "", 2, "usage\n"),
    (&["steps", "--nodes", "3", "steps"], "", 2, "usage\n"),
    (&["run", ""], "", 2, "usage\n"),
    // No command.
    (&[], "", 2, "usage\n"),
    (&[""], "", 2, "usage\n"),
    (&["runs"], "", 2, "usage\n"),
    (&["--nodes=3", "run"], "", 2, "usage\n"),
    (&["--help"], "", 2, "usage\n"),
];

#[test]
fn words_and_their_endings(rt: HostRuntime) -> Result<(), Fail> {
    for (words, script, status, text) in TABLE {
        let case = Case {
            words,
            script: &[*script],
            failing_read: 0,
            failing_write: 0,
            status: *status,
            text,
        };
        assert_case(&rt, rt.alloc(), &case)?;
    }
    Ok(())
}
