//! Kinds of answers, so that a test by chance can say which it met.
use super::playing::Event;
use super::replay::Answer;
use Event::{Alloc, Lock, Read};

/// What kind of answer to what kind of event.
#[derive(Clone, Copy, Debug, PartialEq, Eq)]
pub enum Kind {
    Pinned,
    Shut,
    ReadValue,
    ReadBelowLock,
    ReadAbsent,
    ReadNothing,
    ReadHeld,
    Placed,
    PlacedAboveRead,
    Locked,
    LockedAgain,
    LockHeld,
    LockChanged,
    CheckSame,
    CheckHeld,
    CheckChanged,
    PutValue,
    PutNothing,
    Unlocked,
    CollectedNothing,
    CollectedVersions,
    CollectedObjects,
}

impl Kind {
    // Spent is not among them: it comes only where 2^32 places are taken.
    pub const ALL: [Kind; 22] = [
        Kind::Pinned,
        Kind::Shut,
        Kind::ReadValue,
        Kind::ReadBelowLock,
        Kind::ReadAbsent,
        Kind::ReadNothing,
        Kind::ReadHeld,
        Kind::Placed,
        Kind::PlacedAboveRead,
        Kind::Locked,
        Kind::LockedAgain,
        Kind::LockHeld,
        Kind::LockChanged,
        Kind::CheckSame,
        Kind::CheckHeld,
        Kind::CheckChanged,
        Kind::PutValue,
        Kind::PutNothing,
        Kind::Unlocked,
        Kind::CollectedNothing,
        Kind::CollectedVersions,
        Kind::CollectedObjects,
    ];

    /// The kind of an answer to an event, at a place that is locked or not.
    pub fn of(event: Event, answer: Answer, is_locked: bool) -> Kind {
        match (event, answer) {
            (_, Answer::Pinned(_)) => Kind::Pinned,
            (_, Answer::Shut) => Kind::Shut,
            (_, Answer::Value(..)) if is_locked => Kind::ReadBelowLock,
            (_, Answer::Value(..)) => Kind::ReadValue,
            (_, Answer::Absent(0)) => Kind::ReadNothing,
            (_, Answer::Absent(_)) => Kind::ReadAbsent,
            (Read(..), Answer::Held(_)) => Kind::ReadHeld,
            (Lock(..), Answer::Held(_)) => Kind::LockHeld,
            (_, Answer::Held(_)) => Kind::CheckHeld,
            (Alloc(_, r, _), Answer::Placed(_, bound)) if r < bound => Kind::PlacedAboveRead,
            (_, Answer::Placed(..)) => Kind::Placed,
            (_, Answer::Locked(0, _)) => Kind::LockedAgain,
            (_, Answer::Locked(..)) => Kind::Locked,
            (Lock(..), Answer::Changed(..)) => Kind::LockChanged,
            (_, Answer::Changed(..)) => Kind::CheckChanged,
            (_, Answer::Same) => Kind::CheckSame,
            (_, Answer::Installed(Some(_))) => Kind::PutValue,
            (_, Answer::Installed(None)) => Kind::PutNothing,
            (_, Answer::Unlocked) => Kind::Unlocked,
            (_, Answer::Collected(_, 0, _)) => Kind::CollectedNothing,
            (_, Answer::Collected(_, _, 0)) => Kind::CollectedVersions,
            (_, Answer::Collected(..)) => Kind::CollectedObjects,
        }
    }
}
