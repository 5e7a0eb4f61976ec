//! What a seat does at the clock.
ghost use Rattle.std.specs.Prelude.{◌≡◌, ℕ, ◌<◌, ◌≤◌, ◌++◌, IfSome, IfNone, length};
ghost use Rattle.std.specs.Option.{option_to_list};
ghost use Rattle.snapshot_stamps.specs.Watched.{noted, meeting, having_looked, having_drawn, Learned, Sees, DrawsStamp};
ghost use Rattle.snapshot_stamps.specs.Plays.{LoadsClock, Raises};
ghost use Rattle.snapshot_stamps.specs.Seats.{watch, noted_watch, IsSeatOf, IsNoteOf};

use crate::rule::{ClockRaised, ClockRead, NoteCut, SeatsJoined};
use crate::seat::{Note, StampSeat, Stamps};
use crate::watch::Watch;
use a1_base::LAST_STAMP;
use atomic_table::Seat;
use crossbeam_utils::Backoff;
use std::sync::Wait;

pub(crate) const CLOCK: usize = 0;

impl Stamps {
    pub(crate) fn load(&self, seat: &mut Seat<(), Watch>) -> u64
        requires { seat.old.table_id ≡ self.now.table.shared.table_id }
        ensures same { (seat.new.table_id ≡ seat.old.table_id) × (seat.new.me.1 ≡ seat.old.me.1) }
        ensures reads { LoadsClock result seat.old.me.0 seat.new.me.0 }
    {
        self.table.shared.load::<ClockRead>(seat, CLOCK)
    }

    fn add(&self, seat: &mut Seat<(), Watch>) -> u64
        requires table { seat.old.table_id ≡ self.now.table.shared.table_id }
        requires lane { 0 < length seat.old.me.0.lanes }
        requires stamp { seat.old.me.0.known < LAST_STAMP }
        ensures same { (seat.new.table_id ≡ seat.old.table_id) × (seat.new.me.1 ≡ seat.old.me.1) }
        ensures raises { Raises result seat.old.me.0 seat.new.me.0 }
    {
        self.table.shared.fetch_add::<ClockRaised>(seat, CLOCK, 1)
    }

    fn raise(&self, seat: &mut StampSeat) -> u64
        requires seat { IsSeatOf self.now seat.old }
        requires stamp { (watch seat.old).known < LAST_STAMP }
        ensures seat { IsSeatOf self.now seat.new }
        ensures raises { Raises result (watch seat.old) (watch seat.new) }
    {
        let found = self.add(&mut seat.seat);
        seat.draws += 1;
        found
    }

    /// The clock's stamp, which the seat knows from then on: the clock as it stood at one moment during this call, or
    /// the last stamp, 2^62 - 1, where it stood above that. It is at least each stamp that the seat knew.
    ///
    /// It waits for nothing, and takes no memory.
    pub fn now(&self, seat: &mut StampSeat) -> u64
        requires { IsSeatOf self.now seat.old }
        ensures seat { IsSeatOf self.now seat.new }
        ensures clock { (clock : ℕ) × Sees clock (watch seat.old) (watch seat.new) × (result ≡ (watch seat.new).known) }
        ensures learned { Learned (watch seat.old) (watch seat.new) }
        ensures known { ((watch seat.old).known ≤ result) × (result ≤ LAST_STAMP) }
    {
        self.load(&mut seat.seat).min(LAST_STAMP)
    }

    /// Waits until the clock is at least the stamp `mark`, at most 2^62 - 1, and the seat knows it.
    ///
    /// This call alone may wait: for other seats to draw, for ever if none does. It takes no memory.
    pub fn reach<R: Wait>(&self, rt: &R, seat: &mut StampSeat, mark: u64)
        requires seat { IsSeatOf self.now seat.old }
        requires stamp { mark ≤ LAST_STAMP }
        ensures seat { IsSeatOf self.now seat.new }
        ensures learned { Learned (watch seat.old) (watch seat.new) }
        ensures looked { (watch seat.old).looks < (watch seat.new).looks }
        ensures reached { mark ≤ (watch seat.new).known }
    {
        let backoff = Backoff::new();
        for _ in rt.forever() {
            if self.now(seat) >= mark {
                return;
            }
            backoff.snooze();
        }
        unreachable!()
    }

    /// Draws the next stamp, at most 2^62 - 1: above all that the seat knew, and drawn by no other seat (FaRMv2's write
    /// timestamp; Shamis et al., SIGMOD 2019). It reads the clock, and then adds one to it.
    ///
    /// `None` where there is no stamp left, that is exactly where the clock that was read is 2^62 - 1 or more, and then
    /// nothing is added, or where the new one is 2^62 or more. It waits for nothing, and takes no memory.
    pub fn draw(&self, seat: &mut StampSeat) -> Option<u64>
        requires { IsSeatOf self.now seat.old }
        ensures seat { IsSeatOf self.now seat.new }
        ensures some { IfSome result (λ stamp. ((watch seat.old).known < stamp) × (stamp ≤ LAST_STAMP)
            × (watch seat.new ≡ having_drawn stamp (having_looked (watch seat.old)))) }
        ensures none { IfNone result ((watch seat.new).known ≡ LAST_STAMP) }
        ensures known { (watch seat.old).known ≤ (watch seat.new).known }
        ensures drawn { (watch seat.new).drawn ≡ (watch seat.old).drawn ++ option_to_list result }
        ensures lanes { (watch seat.new).lanes ≡ (watch seat.old).lanes }
        ensures steps { DrawsStamp (watch seat.old) result (watch seat.new) }
    {
        if self.now(seat) >= LAST_STAMP {
            return None;
        }
        let found = self.raise(seat);
        if found < LAST_STAMP {
            Some(found + 1)
        } else {
            None
        }
    }

    /// How often this seat has added to the clock, the additions that drew nothing included. It takes no memory.
    pub fn draws(&self, seat: &StampSeat) -> u64
        requires { IsSeatOf self.now seat.now }
        ensures { result ≡ (watch seat.now).additions }
    {
        seat.draws
    }

    /// A note of what the seat knows, for another seat to meet. It waits for nothing, and takes no memory.
    pub fn note(&self, seat: &mut StampSeat) -> Note
        requires { IsSeatOf self.now seat.old }
        ensures seat { IsSeatOf self.now seat.new }
        ensures same { watch seat.new ≡ watch seat.old }
        ensures note { IsNoteOf self.now result × (noted_watch result ≡ noted (watch seat.old)) }
    {
        let seat = self.table.shared.split_seat::<NoteCut>(&mut seat.seat);
        Note { seat }
    }

    /// A second note of the same. It waits for nothing, and takes no memory.
    pub fn again(&self, note: &mut Note) -> Note
        requires { IsNoteOf self.now note.old }
        ensures note { IsNoteOf self.now note.new × (noted_watch note.new ≡ noted_watch note.old) }
        ensures copy { IsNoteOf self.now result × (noted_watch result ≡ noted_watch note.old) }
    {
        let seat = self.table.shared.split_seat::<NoteCut>(&mut note.seat);
        Note { seat }
    }

    /// From then on the seat knows what the note knew too. It waits for nothing, and takes no memory.
    pub fn meet(&self, seat: &mut StampSeat, note: Note)
        requires seat { IsSeatOf self.now seat.old }
        requires note { IsNoteOf self.now note }
        ensures seat { IsSeatOf self.now seat.new }
        ensures met { watch seat.new ≡ meeting (watch seat.old) (noted_watch note) }
        ensures known { ((watch seat.old).known ≤ (watch seat.new).known)
            × ((noted_watch note).known ≤ (watch seat.new).known) }
    {
        let Note { seat: noted } = note;
        self.table
            .shared
            .join_seat::<SeatsJoined>(&mut seat.seat, noted);
    }
}
