//! How a clock is made, and how it ends.
ghost use Rattle.std.specs.Prelude.{◌≡◌, ◌<◌, ◌≤◌, [], ◌∷◌, length, IfOk};
ghost use Rattle.snapshot_stamps.specs.Watched.{lanes_from, newcomer, first_lane, other_lanes, joined, Learned};
ghost use Rattle.snapshot_stamps.specs.Seats.{lane_count, began_at, watch, IsSeatOf, AreSeatsOf, HaveAllLanes, ClockCloses};

use crate::rule::{LaneCut, Opened, SeatsJoined};
use crate::seat::{StampSeat, Stamps};
use crate::stamps::CLOCK;
use crate::watch::Watch;
use a1_base::{LAST_STAMP, Memory};
use atomic_table::{Seat, Table};
use std::alloc::Global;

impl Stamps {
    /// A clock that stands at the stamp `from`, and a seat for each of its lanes, which knows that stamp.
    ///
    /// There is at least one lane, and `from` goes from 1 to 2^62 - 1. `Memory` where an allocation is refused; no
    /// other call takes memory.
    pub fn new(alloc: Global, lanes: u32, from: u64) -> Result<(Stamps, Vec<StampSeat>), Memory>
        requires lanes { 0 < lanes }
        requires from { (0 < from) × (from ≤ LAST_STAMP) }
        ensures clock { IfOk result (λ made. (lane_count made.0 ≡ lanes) × (began_at made.0 ≡ from)) }
        ensures seats { IfOk result (λ made. AreSeatsOf made.0 made.1.items) }
        ensures lanes { IfOk result (λ made. HaveAllLanes made.0 made.1.items) }
    {
        let (table, rest) = Table::of_words(alloc, &[from], &Opened { lanes, from })?;
        let stamps = Stamps { table };
        let seats = stamps.seats(alloc, rest, lanes)?;
        Ok((stamps, seats))
    }

    fn seats(
        &self,
        alloc: Global,
        mut rest: Seat<(), Watch>,
        lanes: u32,
    ) -> Result<Vec<StampSeat>, Memory>
        requires lanes { lanes ≡ lane_count self.now }
        requires table { rest.table_id ≡ self.now.table.shared.table_id }
        requires rest { rest.me ≡ (newcomer (began_at self.now) (lanes_from 1 lanes), []) }
        ensures { IfOk result (λ seats. AreSeatsOf self.now seats.items × HaveAllLanes self.now seats.items) }
    {
        let mut seats = Vec::new(alloc);
        for _taken in 0..lanes {
            let (seat, others) = self.first_seat(rest);
            rest = others;
            if seats.push(seat).is_err() {
                return Err(Memory);
            }
        }
        Ok(seats)
    }

    fn first_seat(&self, mut rest: Seat<(), Watch>) -> (StampSeat, Seat<(), Watch>)
        requires table { rest.table_id ≡ self.now.table.shared.table_id }
        requires rest { rest.me ≡ (newcomer (began_at self.now) rest.me.0.lanes, []) }
        requires some_lane { 0 < length rest.me.0.lanes }
        ensures first { IsSeatOf self.now result.0 × (watch result.0 ≡ first_lane rest.me.0) }
        ensures others { (result.1.table_id ≡ self.now.table.shared.table_id)
            × (result.1.me ≡ (other_lanes rest.me.0, [])) }
    {
        let others = self.table.shared.split_seat::<LaneCut>(&mut rest);
        let first = StampSeat {
            seat: rest,
            draws: 0,
        };
        (first, others)
    }

    /// One seat in place of two: it has the lanes of both, knows what either knew, and has drawn what they drew. For
    /// the end of a clock. It waits for nothing, and takes no memory.
    pub fn unite(&self, first: StampSeat, second: StampSeat) -> StampSeat
        requires seats { IsSeatOf self.now first × IsSeatOf self.now second }
        ensures seat { IsSeatOf self.now result }
        ensures learned { Learned (joined (watch first) (watch second)) (watch result) }
    {
        let StampSeat { mut seat, draws } = first;
        let StampSeat {
            seat: other,
            draws: others,
        } = second;
        self.table.shared.join_seat::<SeatsJoined>(&mut seat, other);
        self.load(&mut seat);
        StampSeat {
            seat,
            draws: draws + others,
        }
    }

    /// Ends the clock with the seats of all its lanes, and answers where it stands: at most 2^62 - 1, and at least each
    /// stamp that a seat knew. It waits for nothing, and takes no memory.
    pub fn close(self, mut seats: Vec<StampSeat>) -> u64
        requires { HaveAllLanes self seats.items }
        ensures { ClockCloses self seats.items result }
    {
        let Some(mut whole) = seats.pop() else {
            unreachable!()
        };
        while let Some(seat) = seats.pop() {
            whole = self.unite(whole, seat);
        }
        self.close_with(whole)
    }

    /// Ends the clock with the one seat of all its lanes, as `close` does.
    pub fn close_with(self, seat: StampSeat) -> u64
        requires { HaveAllLanes self (seat ∷ []) }
        ensures { ClockCloses self (seat ∷ []) result }
    {
        let Stamps { table } = self;
        let StampSeat { seat, draws: _ } = seat;
        let closed = table.close_with(seat);
        let clock = closed.word(CLOCK);
        closed.free();
        clock.min(LAST_STAMP)
    }
}
