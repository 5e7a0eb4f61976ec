//! A node told from the whole list of its events: each question goes over the list from its beginning.
use super::playing::Event;
use Entry::{Answered, Loaded};
use Event::{Alloc, Check, Collect, Lock, Open, Put, Read, Shut, Unlock};
use a1_base::{Addr, TxnId};
use std::alloc::{AllocError, Global};

/// What a node answered.
#[derive(Clone, Copy, Debug)]
pub enum Answer {
    Pinned(u64),
    Shut,
    Value(u64, &'static str),
    Absent(u64),
    Placed(Addr, u64),
    Locked(u64, u64),
    Same,
    Held(TxnId),
    Changed(u64, u64),
    // With what was installed, which the node does not say.
    Installed(Option<&'static str>),
    Unlocked,
    Collected(u64, u64, u64),
}

impl Answer {
    /// The answer as a text.
    pub fn text(self, alloc: Global) -> Result<String, AllocError> {
        match self {
            Answer::Pinned(pin) => format!(in alloc; "at {pin}"),
            Answer::Shut => format!(in alloc; "shut"),
            Answer::Value(stamp, text) => format!(in alloc; "value {stamp} {text}"),
            Answer::Absent(stamp) => format!(in alloc; "absent {stamp}"),
            Answer::Placed(at, bound) => {
                format!(in alloc; "placed {}:{} {bound}", at.region, at.offset)
            }
            Answer::Locked(seen, bound) => format!(in alloc; "locked {seen} {bound}"),
            Answer::Same => format!(in alloc; "same"),
            Answer::Held(by) => format!(in alloc; "held {}.{}", by.actor, by.number),
            Answer::Changed(seen, now) => format!(in alloc; "changed {seen} {now}"),
            Answer::Installed(_) => format!(in alloc; "put"),
            Answer::Unlocked => format!(in alloc; "unlocked"),
            Answer::Collected(floor, versions, objects) => {
                format!(in alloc; "floor {floor} versions {versions} objects {objects}")
            }
        }
    }
}

/// What stands from a stamp on.
#[derive(Clone, Copy)]
struct Version {
    stamp: u64,
    value: Option<&'static str>,
}

/// A lock: who holds it, and the value that waits.
#[derive(Clone, Copy)]
struct Given {
    by: TxnId,
    value: Option<&'static str>,
}

/// An object that was there at the beginning, with its stamp, or an event with its answer.
#[derive(Clone, Copy)]
enum Entry {
    Loaded(Addr, u64, &'static str),
    Answered(Event, Answer),
}

impl Entry {
    // Where it made an object.
    fn made(self) -> Option<Addr> {
        match self {
            Loaded(at, ..) => Some(at),
            Answered(_, Answer::Placed(at, _)) => Some(at),
            _ => None,
        }
    }

    // Whether it made an object in this region.
    fn is_made_in(self, region: u32) -> bool {
        match self.made() {
            Some(at) => at.region == region,
            None => false,
        }
    }

    // The version that it installed at an address.
    fn version(self, at: Addr) -> Option<Version> {
        match self {
            Loaded(place, stamp, text) if place == at => Some(Version {
                stamp,
                value: Some(text),
            }),
            Answered(Put(_, place, stamp), Answer::Installed(value)) if place == at => {
                Some(Version { stamp, value })
            }
            _ => None,
        }
    }

    // Where it installed a version.
    fn installed(self) -> Option<Addr> {
        match self {
            Loaded(at, ..) => Some(at),
            Answered(Put(_, at, _), _) => Some(at),
            _ => None,
        }
    }

    // The lock of an address that it gave.
    fn given(self, at: Addr) -> Option<Given> {
        match self {
            Answered(Alloc(by, _, text), Answer::Placed(place, _)) if place == at => Some(Given {
                by,
                value: Some(text),
            }),
            Answered(Lock(by, place, _, value), Answer::Locked(..)) if place == at => {
                Some(Given { by, value })
            }
            _ => None,
        }
    }

    // Whether it ended the lock of an address.
    fn ended(self, at: Addr) -> bool {
        match self {
            Answered(Put(_, place, _) | Unlock(_, place), _) => place == at,
            _ => false,
        }
    }

    // Where it barred puts, and up to which stamp.
    fn barred(self) -> Option<(Addr, u64)> {
        match self {
            Loaded(at, stamp, _) => Some((at, stamp)),
            Answered(Read(_, at, s), Answer::Value(..) | Answer::Absent(_)) => Some((at, s)),
            Answered(Alloc(..), Answer::Placed(at, bound)) => Some((at, bound)),
            Answered(Check(_, at, _, w), Answer::Same) => Some((at, w)),
            Answered(Put(_, at, w), _) => Some((at, w)),
            _ => None,
        }
    }
}

// The lock of an address: the last that was given, unless it ended since.
fn lock_of(entries: &[Entry], at: Addr) -> Option<Given> {
    let mut lock = None;
    for entry in entries {
        if entry.ended(at) {
            lock = None;
        } else if let Some(given) = entry.given(at) {
            lock = Some(given);
        }
    }
    lock
}

// The newest version at most `s` of the object that was made last at an address.
fn version_at(entries: &[Entry], at: Addr, s: u64) -> Option<Version> {
    let mut found = None;
    for entry in entries {
        if entry.made() == Some(at) {
            found = None;
        }
        match entry.version(at) {
            Some(version) if version.stamp <= s => found = Some(version),
            _ => {}
        }
    }
    found
}

// Whether a newest version says that nothing is there from the stamp `s` on.
fn is_absent(newest: Option<Version>, s: u64) -> bool {
    match newest {
        Some(Version { stamp, value: None }) => stamp <= s,
        _ => false,
    }
}

// Whether the object that the first of these entries made at an address has gone: it was unlocked before it had a
// version, or it was collected while nobody held it, at a floor from which on it is absent.
fn has_gone(life: &[Entry], at: Addr) -> bool {
    let mut newest = None;
    let mut locked = false;
    for entry in life {
        let goes = match *entry {
            Answered(Unlock(_, place), _) => place == at && newest.is_none(),
            Answered(_, Answer::Collected(floor, ..)) => !locked && is_absent(newest, floor),
            _ => false,
        };
        if goes {
            return true;
        }
        newest = entry.version(at).or(newest);
        locked = entry.given(at).is_some() || locked && !entry.ended(at);
    }
    false
}

// The number of the last entry that made an object at an address.
fn last_made(entries: &[Entry], at: Addr) -> Option<usize> {
    let mut last = None;
    for (k, entry) in entries.iter().enumerate() {
        if entry.made() == Some(at) {
            last = Some(k);
        }
    }
    last
}

// The number of the entry that made the object which stands at an address, if one does.
fn birth(entries: &[Entry], at: Addr) -> Option<usize> {
    let first = last_made(entries, at)?;
    if has_gone(entries.get(first..)?, at) {
        None
    } else {
        Some(first)
    }
}

// Whether the entry of this number is about the object which stands at an address, and not about an earlier one.
fn is_present(entries: &[Entry], at: Addr, k: usize) -> bool {
    match birth(entries, at) {
        Some(first) => first <= k,
        None => false,
    }
}

// Whether a version of a present object is still there, of which these are the later entries: it goes by the first
// collection behind the next version whose floor is at least that one's stamp.
fn stays(later: &[Entry], at: Addr) -> bool {
    let mut next = None;
    for entry in later {
        match (next, entry) {
            (None, _) => next = entry.version(at),
            (Some(version), Answered(_, Answer::Collected(floor, ..))) => {
                if version.stamp <= *floor {
                    return false;
                }
            }
            _ => {}
        }
    }
    true
}

// How many objects there are.
fn object_count(entries: &[Entry]) -> u64 {
    let mut count: u64 = 0;
    for (k, entry) in entries.iter().enumerate() {
        if let Some(at) = entry.made() {
            if is_present(entries, at, k) {
                count = count.saturating_add(1);
            }
        }
    }
    count
}

// How many versions there are.
fn version_count(entries: &[Entry]) -> u64 {
    let mut count: u64 = 0;
    for (k, entry) in entries.iter().enumerate() {
        if let Some(at) = entry.installed() {
            let (_, later) = entries.split_at(k + 1);
            if is_present(entries, at, k) && stays(later, at) {
                count = count.saturating_add(1);
            }
        }
    }
    count
}

/// What came to pass at a node.
#[derive(Drop)]
pub struct History {
    node: u32,
    actors: u32,
    stamp: u64,
    entries: Vec<Entry>,
}

impl History {
    /// The history of a new node for actors from 1 to `actors`. Its stamps begin at `stamp`.
    pub fn new(alloc: Global, node: u32, actors: u32, stamp: u64) -> History {
        History {
            node,
            actors,
            stamp,
            entries: Vec::new(alloc),
        }
    }

    /// An object is there from the beginning.
    pub fn load(&mut self, at: Addr, text: &'static str) -> Result<(), AllocError> {
        self.entries.push(Loaded(at, self.stamp, text))?;
        Ok(())
    }

    /// The pin of an actor: that of its last open, unless it shut since.
    pub fn pin(&self, actor: u32) -> Option<u64> {
        let mut pin = None;
        for entry in &self.entries {
            match entry {
                Answered(Open(k, _), Answer::Pinned(x)) if *k == actor => pin = Some(*x),
                Answered(Shut(k), _) if *k == actor => pin = None,
                _ => {}
            }
        }
        pin
    }

    /// Whether an actor has a pin that is at most `s`.
    pub fn is_pinned(&self, actor: u32, s: u64) -> bool {
        match self.pin(actor) {
            Some(pin) => pin <= s,
            None => false,
        }
    }

    /// Whether an object is at an address.
    pub fn has_object(&self, at: Addr) -> bool {
        birth(&self.entries, at).is_some()
    }

    /// Who holds an address.
    pub fn holder(&self, at: Addr) -> Option<TxnId> {
        match lock_of(&self.entries, at) {
            Some(lock) => Some(lock.by),
            None => None,
        }
    }

    /// Whether the transaction has the lock of an address.
    pub fn holds(&self, t: TxnId, at: Addr) -> bool {
        self.holder(at) == Some(t)
    }

    // What stands at an address at the stamp `s`.
    fn version_at(&self, at: Addr, s: u64) -> Option<Version> {
        if self.has_object(at) {
            version_at(&self.entries, at, s)
        } else {
            None
        }
    }

    // The stamp of the version that stands at an address at the stamp `s`, 0 where there is none.
    fn stamp_at(&self, at: Addr, s: u64) -> u64 {
        match self.version_at(at, s) {
            Some(version) => version.stamp,
            None => 0,
        }
    }

    /// Whether the transaction, of the read stamp `r`, may ask for the lock of an address.
    pub fn may_lock(&self, t: TxnId, at: Addr, r: u64) -> bool {
        if self.holds(t, at) {
            self.version_at(at, u64::MAX).is_none()
        } else {
            match self.version_at(at, r) {
                Some(version) => version.value.is_some(),
                None => false,
            }
        }
    }

    // The stamp that a put at an address with an object has to exceed: the greatest that bars puts of this object.
    fn bound(&self, at: Addr) -> u64 {
        let mut bound = 0;
        for (k, entry) in self.entries.iter().enumerate() {
            if let Some((place, stamp)) = entry.barred() {
                if place == at && bound < stamp && is_present(&self.entries, at, k) {
                    bound = stamp;
                }
            }
        }
        bound
    }

    // The stamp that a put of the next object has to exceed: the greatest that bars puts of no present object.
    fn past(&self) -> u64 {
        let mut past = self.stamp;
        for (k, entry) in self.entries.iter().enumerate() {
            if let Some((at, stamp)) = entry.barred() {
                if past < stamp && !is_present(&self.entries, at, k) {
                    past = stamp;
                }
            }
        }
        past
    }

    // The floor of the last collection.
    fn floor(&self) -> u64 {
        let mut last = self.stamp;
        for entry in &self.entries {
            if let Answered(_, Answer::Collected(floor, ..)) = entry {
                last = *floor;
            }
        }
        last
    }

    // The lowest region in which an object was made, else the node's lowest.
    fn lowest_region(&self) -> u32 {
        let mut lowest = None;
        for entry in &self.entries {
            if let Some(Addr { region, .. }) = entry.made() {
                lowest = match lowest {
                    Some(other) => Some(region.min(other)),
                    None => Some(region),
                };
            }
        }
        lowest.unwrap_or(self.node)
    }

    /// The place of the next object: no region is ever filled here, so it is in the lowest one.
    pub fn next_place(&self) -> Addr {
        let region = self.lowest_region();
        for offset in 0..4096 {
            let at = Addr { region, offset };
            if !self.has_object(at) {
                return at;
            }
        }
        Addr { region, offset: 0 }
    }

    /// How many objects and versions there are.
    pub fn counts(&self) -> (u64, u64) {
        (object_count(&self.entries), version_count(&self.entries))
    }

    /// In how many regions an object was ever made.
    pub fn regions(&self) -> u32 {
        let mut count: u32 = 0;
        for (k, entry) in self.entries.iter().enumerate() {
            if let Some(at) = entry.made() {
                let (before, _) = self.entries.as_slice().split_at(k);
                if !before.iter().any(|other| other.is_made_in(at.region)) {
                    count = count.saturating_add(1);
                }
            }
        }
        count
    }

    /// Whether the condition of an event is met.
    pub fn allows(&self, event: Event) -> bool {
        match event {
            Open(actor, _) => 0 < actor && actor <= self.actors && self.pin(actor).is_none(),
            Shut(actor) => self.pin(actor).is_some(),
            Read(actor, _, s) => self.is_pinned(actor, s),
            Alloc(t, r, _) => self.is_pinned(t.actor, r),
            Lock(t, at, r, _) => self.is_pinned(t.actor, r) && self.may_lock(t, at, r),
            Check(t, at, r, _) => self.is_pinned(t.actor, r) && !self.holds(t, at),
            Put(t, at, w) => self.holds(t, at) && self.bound(at) < w,
            Unlock(t, at) => self.holds(t, at),
            Collect(_) => true,
        }
    }

    fn read(&self, at: Addr, s: u64) -> Answer {
        if let Some(by) = self.holder(at) {
            if self.stamp_at(at, u64::MAX) <= s {
                return Answer::Held(by);
            }
        }
        match self.version_at(at, s) {
            Some(
                Version {
                    stamp,
                    value: Some(text),
                },
            ) => Answer::Value(stamp, text),
            Some(Version { stamp, value: None }) => Answer::Absent(stamp),
            None => Answer::Absent(0),
        }
    }

    // What a lock or a check of what is not held by its transaction itself is answered, if it is refused.
    fn refusal(&self, at: Addr, r: u64) -> Option<Answer> {
        if let Some(by) = self.holder(at) {
            return Some(Answer::Held(by));
        }
        let now = self.stamp_at(at, u64::MAX);
        if r < now {
            Some(Answer::Changed(self.stamp_at(at, r), now))
        } else {
            None
        }
    }

    fn lock(&self, t: TxnId, at: Addr, r: u64) -> Answer {
        let given = Answer::Locked(self.stamp_at(at, u64::MAX), self.bound(at));
        if self.holds(t, at) {
            given
        } else {
            self.refusal(at, r).unwrap_or(given)
        }
    }

    // What waits under the lock of an address.
    fn waiting(&self, at: Addr) -> Option<&'static str> {
        match lock_of(&self.entries, at) {
            Some(lock) => lock.value,
            None => None,
        }
    }

    // The least of a proposal and the pins, and no less than the old floor.
    fn next_floor(&self, f: u64) -> u64 {
        let mut least = f;
        for actor in 0..self.actors {
            if let Some(pin) = self.pin(actor + 1) {
                least = pin.min(least);
            }
        }
        least.max(self.floor())
    }

    // What was removed is what was there before and is not after.
    fn collect(&mut self, f: u64) -> Result<Answer, AllocError> {
        let (objects, versions) = self.counts();
        let floor = self.next_floor(f);
        self.entries
            .push(Answered(Collect(f), Answer::Collected(floor, 0, 0)))?;
        let (objects_left, versions_left) = self.counts();
        self.entries.pop();
        Ok(Answer::Collected(
            floor,
            versions.saturating_sub(versions_left),
            objects.saturating_sub(objects_left),
        ))
    }

    /// What an event is answered, whose condition is met.
    pub fn play(&mut self, event: Event) -> Result<Answer, AllocError> {
        let answer = match event {
            Open(_, c) => Answer::Pinned(c.max(self.floor())),
            Shut(_) => Answer::Shut,
            Read(_, at, s) => self.read(at, s),
            Alloc(_, r, _) => Answer::Placed(self.next_place(), self.past().max(r)),
            Lock(t, at, r, _) => self.lock(t, at, r),
            Check(_, at, r, _) => self.refusal(at, r).unwrap_or(Answer::Same),
            Put(_, at, _) => Answer::Installed(self.waiting(at)),
            Unlock(..) => Answer::Unlocked,
            Collect(f) => self.collect(f)?,
        };
        self.entries.push(Answered(event, answer))?;
        Ok(answer)
    }
}
