//! What a seat knows of the clock. No value of these types is made: they are what contracts speak of.
use std::collections::LinkedList;

/// What stands in a seat's lane.
pub enum Mark {
    Empty,
    /// A pin is being set: until its stamp is stored, every stamp counts as pinned.
    All,
    /// The stamp that is pinned.
    Pinned(u64),
}

/// A look over the lanes.
pub struct Scan {
    /// The stamp that is proposed for the floor.
    pub proposal: u64,
    /// How many lanes were passed.
    pub passed: u64,
    /// The least of the proposal and the stamps that were met.
    pub least: u64,
    /// The lane that was found marked `All`.
    pub met: Option<u64>,
}

/// What a seat knows of pins and of the floor. All of it is at rest so far: no call pins or looks over the lanes yet.
pub struct Pins {
    /// What stands in its lane.
    pub mark: Mark,
    /// A stamp that was loaded for a pin, and is not stored yet.
    pub loaded: Option<u64>,
    /// A floor that is known.
    pub floor: u64,
    /// The last look over the lanes.
    pub scan: Option<Scan>,
}

/// What a seat knows.
pub struct Watch {
    /// A stamp that the clock has reached.
    pub known: u64,
    /// The stamps that were drawn by the seat, in order.
    pub drawn: LinkedList<u64>,
    /// How often the seat has added to the clock.
    pub additions: u64,
    /// The numbers of the seat's lanes, from 1 on. Contracts see a list.
    pub lanes: [u64; 0],
    /// How many of the additions were made where the clock stood at the last stamp or above.
    pub over: u64,
    /// How often the seat has looked at the clock. The reading within an addition is no look.
    pub looks: u64,
    pub pins: Pins,
}
