//! The clock, its seats and their notes.
ghost use Rattle.std.specs.Prelude.{◌≡◌, ◌<◌, [], length};
ghost use Rattle.snapshot_stamps.specs.Watched.{noted};

use crate::rule::{ClockRule, Opened};
use crate::watch::Watch;
use atomic_table::{Seat, Table};
use std::alloc::Global;

/// A clock that many threads read and add to at the same time. Its stamps go from 1 to 2^62 - 1.
#[derive(Drop)]
pub struct Stamps {
    pub(crate) table: Table<(), Watch, Opened, ClockRule, Global>,
    ghost one_word: { table.shared.table_id.words ≡ 1 },
    ghost no_slot: { table.shared.table_id.slots ≡ 0 },
    ghost some_lane: { 0 < table.shared.key.lanes },
}

/// A seat at a clock: one thread's way to read it and to draw stamps. It has at least one lane of the clock.
#[derive(Drop)]
pub struct StampSeat {
    pub(crate) seat: Seat<(), Watch>,
    pub(crate) draws: u64,
    ghost no_slot: { seat.me.1 ≡ [] },
    ghost some_lane: { 0 < length seat.me.0.lanes },
    ghost counted: { seat.me.0.additions ≡ draws },
}

/// What a seat knew when it was noted. It may be taken to any other seat of the clock.
#[derive(Drop)]
pub struct Note {
    pub(crate) seat: Seat<(), Watch>,
    ghost no_slot: { seat.me.1 ≡ [] },
    ghost bare: { noted seat.me.0 ≡ seat.me.0 },
}
