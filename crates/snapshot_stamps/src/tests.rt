ghost use Rattle.snapshot_stamps.specs.Seats.{IsSeatOf};

use crate::{StampSeat, Stamps};
use std::alloc::{AllocError, Global};
use std::test::Fail;
use std::thread::{join, map_vec};

const LAST: u64 = 4_611_686_018_427_387_903;

#[test]
fn draws_the_next_stamp(rt: HostRuntime) -> Result<(), Fail> {
    let (stamps, mut seats) = Stamps::new(rt.alloc(), 2, 1)?;
    let mut seat = seats.pop().ok_or("a seat for the second lane")?;
    assert_eq!(rt; stamps.now(&mut seat), 1);
    assert_eq!(rt; stamps.draw(&mut seat), Some(2));
    stamps.reach(&rt, &mut seat, 2);
    assert_eq!(rt; stamps.now(&mut seat), 2);
    assert_eq!(rt; stamps.draws(&seat), 1);
    seats.push(seat)?;
    assert_eq!(rt; stamps.close(seats), 2);
    Ok(())
}

#[test]
fn draws_the_last_stamp_once(rt: HostRuntime) -> Result<(), Fail> {
    let (stamps, mut seats) = Stamps::new(rt.alloc(), 1, LAST - 1)?;
    let mut seat = seats.pop().ok_or("a seat for the lane")?;
    assert_eq!(rt; stamps.draw(&mut seat), Some(LAST));
    assert_eq!(rt; stamps.draw(&mut seat), None);
    assert_eq!(rt; stamps.now(&mut seat), LAST);
    assert_eq!(rt; stamps.draws(&seat), 1);
    seats.push(seat)?;
    assert_eq!(rt; stamps.close(seats), LAST);
    Ok(())
}

#[test]
fn a_note_takes_a_stamp_to_another_seat(rt: HostRuntime) -> Result<(), Fail> {
    let (stamps, mut seats) = Stamps::new(rt.alloc(), 2, 1)?;
    let mut second = seats.pop().ok_or("a seat for the second lane")?;
    let mut first = seats.pop().ok_or("a seat for the first lane")?;
    assert_eq!(rt; stamps.draw(&mut first), Some(2));
    let mut note = stamps.note(&mut first);
    let copy = stamps.again(&mut note);
    stamps.meet(&mut second, copy);
    assert_eq!(rt; stamps.now(&mut second), 2);
    stamps.meet(&mut first, note);
    assert_eq!(rt; stamps.now(&mut first), 2);
    let whole = stamps.unite(second, first);
    assert_eq!(rt; stamps.close_with(whole), 2);
    Ok(())
}

fn drawn(
    alloc: Global,
    stamps: &Stamps,
    seat: &mut StampSeat,
    count: usize,
) -> Result<Vec<u64>, AllocError>
    requires { IsSeatOf stamps.now seat.old }
{
    let mut drawn = Vec::with_capacity(alloc, count)?;
    for _ in 0..count {
        if let Some(stamp) = stamps.draw(seat) {
            drawn.push(stamp)?;
        }
    }
    Ok(drawn)
}

#[test]
fn four_threads_draw_each_stamp_once(rt: HostRuntime) -> Result<(), Fail> {
    let (stamps, mut seats) = Stamps::new(rt.alloc(), 5, 1)?;
    let mut last = seats.pop().ok_or("a seat to look at the end")?;
    let parts = map_vec(
        &rt,
        seats,
        &|mut seat: StampSeat| -> Result<Vec<u64>, AllocError>
            requires { IsSeatOf stamps seat }
        { drawn(rt.alloc(), &stamps, &mut seat, 25_000) },
    )?;
    let mut all = Vec::new(rt.alloc());
    for part in parts {
        for stamp in part? {
            all.push(stamp)?;
        }
    }
    all.sort_unstable();
    assert_eq!(rt; all.len(), 100_000);
    for (stamp, place) in all.iter().zip(2..) {
        assert_eq!(rt; *stamp, place);
    }
    assert_eq!(rt; stamps.now(&mut last), 100_001);
    Ok(())
}

#[test]
fn a_seat_waits_for_a_stamp_of_another(rt: HostRuntime) -> Result<(), Fail> {
    let (stamps, mut seats) = Stamps::new(rt.alloc(), 2, 1)?;
    let mut waits = seats.pop().ok_or("a seat that waits")?;
    let mut draws = seats.pop().ok_or("a seat that draws")?;
    let (reached, stamps_drawn) = join(
        &rt,
        || -> u64
            requires { IsSeatOf stamps waits }
        {
            stamps.reach(&rt, &mut waits, 101);
            stamps.now(&mut waits)
        },
        || -> Result<Vec<u64>, AllocError>
            requires { IsSeatOf stamps draws }
        { drawn(rt.alloc(), &stamps, &mut draws, 100) },
    );
    assert_eq!(rt; reached, 101);
    assert_eq!(rt; stamps_drawn?.len(), 100);
    Ok(())
}
