//! The rule of the clock, what each step on it tells, and how seats are cut and joined.
use crate::watch::Watch;
use atomic_table::{Join, Play, Split, TableRule};

/// How many lanes a clock has, and where it began.
#[derive(Drop)]
pub(crate) struct Opened {
    pub(crate) lanes: u32,
    pub(crate) from: u64,
}

/// What holds of the clock and all its seats between any two steps.
pub(crate) struct ClockRule;

impl TableRule<(), Watch, Opened> for ClockRule {
    ghost use Rattle.snapshot_stamps.specs.Clock.{Clock};
    ghost use Rattle.snapshot_stamps.specs.Watched.{newcomer, lanes_from};

    ghost holds = { λ k. Clock k.lanes k.from };

    ghost first = { λ k. newcomer k.from (lanes_from 1 k.lanes) };
}

/// The clock was read.
pub(crate) struct ClockRead;

impl Play<(), Watch> for ClockRead {
    ghost use Rattle.snapshot_stamps.specs.Plays.{reads_clock};

    ghost then = { reads_clock };
}

/// One was added to the clock.
pub(crate) struct ClockRaised;

impl Play<(), Watch> for ClockRaised {
    ghost use Rattle.snapshot_stamps.specs.Plays.{raises_clock};

    ghost then = { raises_clock };
}

/// A note is cut off.
pub(crate) struct NoteCut;

impl Split<Watch> for NoteCut {
    ghost use Rattle.snapshot_stamps.specs.Watched.{noted};

    ghost left = { λ v. v };

    ghost right = { noted };
}

/// The first lane is kept, and the others are cut off.
pub(crate) struct LaneCut;

impl Split<Watch> for LaneCut {
    ghost use Rattle.snapshot_stamps.specs.Watched.{first_lane, other_lanes};

    ghost left = { first_lane };

    ghost right = { other_lanes };
}

/// Two seats become one.
pub(crate) struct SeatsJoined;

impl Join<Watch> for SeatsJoined {
    ghost use Rattle.snapshot_stamps.specs.Watched.{joined, spent};

    ghost both = { joined };

    ghost spent = { spent };
}
