//! Threads that add to one value, turn by turn.
mod book;

use book::{written_by, written_in_one_thread};
use std::process::Abort;
use std::test::Fail;

// The marks of each writer stand in its order, none twice and none left out.
fn assert_each_is_whole(rt: &impl Abort, marks: &[(u32, u64)], writers: u32, times: u64) {
    assert_eq!(rt; marks.len() as u64, u64::from(writers).wrapping_mul(times));
    for writer in 1..=writers {
        let own = marks
            .iter()
            .filter(|mark| mark.0 == writer)
            .map(|mark| mark.1);
        assert!(rt; own.eq(0..times));
    }
}

#[test]
fn one_thread_takes_turns(rt: HostRuntime) -> Result<(), Fail> {
    let marks = written_in_one_thread(&rt, rt.alloc())?;
    assert_eq!(rt; marks.as_slice(), [(2, 0), (1, 0), (2, 1)].as_slice());
    Ok(())
}

#[test]
fn two_threads_write_in_turns(rt: HostRuntime) -> Result<(), Fail> {
    let Some(marks) = written_by(&rt, rt.alloc(), 2, 10_000)? else {
        panic!(&rt; "there is room for all")
    };
    assert_each_is_whole(&rt, marks.as_slice(), 2, 10_000);
    Ok(())
}

#[test]
fn eight_threads_write_in_turns(rt: HostRuntime) -> Result<(), Fail> {
    let Some(marks) = written_by(&rt, rt.alloc(), 8, 2_000)? else {
        panic!(&rt; "there is room for all")
    };
    assert_each_is_whole(&rt, marks.as_slice(), 8, 2_000);
    Ok(())
}
