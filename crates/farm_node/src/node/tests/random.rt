//! Events by chance.
ghost use Rattle.std.specs.Prelude.{◌<◌};

use super::playing::Event;
use super::replay::History;
use Event::{Alloc, Check, Collect, Lock, Open, Put, Read, Shut, Unlock};
use a1_base::{Addr, TxnId};

const WORDS: [&str; 6] = ["ab", "cd", "ef", "gh", "ij", "kl"];

/// A source of events. Its clock rises now and then, and the stamps of the events are near it.
#[derive(Drop)]
pub struct Chance {
    state: u64,
    clock: u64,
    places: [Addr; 4],
}

impl Chance {
    /// A source that begins so, of events at these places.
    pub fn new(seed: u64, places: [Addr; 4]) -> Chance {
        Chance {
            state: seed,
            clock: 1,
            places,
        }
    }

    // The high bits of a linear congruential generator (Knuth's MMIX).
    fn below(&mut self, end: u64) -> u64
        requires { 0 < end }
        ensures { result < end }
    {
        self.state = self
            .state
            .wrapping_mul(6364136223846793005)
            .wrapping_add(1442695040888963407);
        (self.state >> 33) % end
    }

    // A stamp up to two before the clock.
    fn recent(&mut self) -> u64 {
        self.clock.saturating_sub(self.below(3))
    }

    fn transaction(&mut self) -> TxnId {
        TxnId {
            actor: self.below(4) as u32 + 1,
            number: self.below(2) + 1,
        }
    }

    fn place(&mut self) -> Addr {
        self.places[self.below(4) as usize]
    }

    fn word(&mut self) -> &'static str {
        WORDS[self.below(6) as usize]
    }

    // Something to install, or nothing.
    fn value(&mut self) -> Option<&'static str> {
        if self.below(3) == 0 {
            None
        } else {
            Some(self.word())
        }
    }

    /// The next event. Its condition may lack.
    pub fn event(&mut self, history: &History) -> Event {
        if self.below(8) == 0 {
            self.clock = self.clock.saturating_add(1);
        }
        let at = self.place();
        let other = self.transaction();
        let holder = history.holder(at).unwrap_or(other);
        let t = if self.below(4) == 0 { holder } else { other };
        let r = history
            .pin(t.actor)
            .unwrap_or(0)
            .saturating_add(self.below(3));
        match self.below(24) {
            0..=3 => Open(t.actor, self.recent()),
            4..=5 => Shut(t.actor),
            6..=8 if self.places.contains(&history.next_place()) => Alloc(t, r, self.word()),
            9..=12 => Lock(t, at, r, self.value()),
            13..=14 => Check(t, at, r, self.clock),
            15..=17 => Put(holder, at, self.clock.saturating_add(1)),
            18 => Unlock(holder, at),
            19 => Collect(self.recent()),
            _ => Read(t.actor, at, r),
        }
    }
}
