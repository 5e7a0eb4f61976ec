//! A chain of versions.
ghost use Rattle.std.specs.Prelude.{◌≡◌, ◌+◌, ◌<◌, ◌↔◌, [], ◌∷◌, true, false, length, reverse, drop, if◌then◌else◌, option_map, OnOk, OnErr, IsOk, IsTrue, ℕ, ◌≤◌};
ghost use Rattle.std.specs.Bool.{OnTrue};
ghost use Rattle.version_chain.specs.Versions.{Versions, Falls, version_at, newest, cut, shown};

use a1_base::{Bin, Memory};
use std::alloc::Global;
use std::collections::VecDeque;
use std::marker::Model;

/// The versions of one object: each a stamp, and the bytes that stand there from that stamp on, or none where the
/// object is absent.
#[derive(Drop)]
pub struct Chain {
    // The oldest first.
    versions: VecDeque<(u64, Option<Bin>)>,
    reserved: bool,
}

impl Model for Chain {
    ghost use Rattle.std.specs.Prelude.{◌≡◌, ◌<◌, true, reverse};
    ghost use Rattle.std.specs.VecDeque.{deque_len, deque_capacity};
    ghost use Rattle.version_chain.specs.Versions.{Versions, Falls};

    ghost Value = { Versions };

    ghost view = { λ chain. record { versions = reverse chain.versions.items; reserved = chain.reserved } };

    ghost invariant = { λ chain. Falls (reverse chain.versions.items)
        × (chain.reserved ≡ true → deque_len chain.versions < deque_capacity chain.versions) };
}

impl Chain {
    /// A chain without a version.
    pub fn new(alloc: Global) -> Chain
        ensures { result ≡ record { versions = []; reserved = false } }
    {
        Chain {
            versions: VecDeque::new(alloc),
            reserved: false,
        }
    }

    /// The newest version at most `stamp`; none where there is none. It takes a logarithm in the versions.
    pub fn at(&self, stamp: u64) -> Option<(u64, Option<&[u8]>)>
        ensures { option_map shown result ≡ version_at stamp self.now.versions }
    {
        let (written, value) = newest_at(&self.versions, stamp)?;
        Some((*written, value.as_ref().map(Bin::as_slice)))
    }

    /// The stamp of the newest version, and 0 where there is none.
    pub fn newest(&self) -> u64
        ensures { result ≡ newest self.now.versions }
    {
        match self.versions.back() {
            Some((stamp, _)) => *stamp,
            None => 0,
        }
    }

    /// How many versions there are.
    pub fn len(&self) -> usize
        ensures { result ≡ length self.now.versions }
    {
        self.versions.len()
    }

    /// Whether there is no version.
    pub fn is_empty(&self) -> bool
        ensures { IsTrue result ↔ (self.now.versions ≡ []) }
    {
        self.versions.is_empty()
    }

    /// Reserves a place for one more version. After `Memory`, which comes for want of memory alone, the chain is as
    /// before.
    pub fn reserve(&mut self) -> Result<(), Memory>
        ensures ok { OnOk result (self.new ≡ record self.old { reserved = true }) }
        ensures err { OnErr result (self.new ≡ self.old) }
        ensures already { self.old.reserved ≡ true → IsOk result }
    {
        self.versions.reserve(1)?;
        self.reserved = true;
        Ok(())
    }

    /// Puts a version at `write_stamp`, above all others, into the reserved place.
    pub fn push(&mut self, write_stamp: u64, value: Option<Bin>)
        requires reserved { self.old.reserved ≡ true }
        requires above { newest self.old.versions < write_stamp }
        ensures { self.new ≡ record { versions = (write_stamp, value) ∷ self.old.versions; reserved = false } }
    {
        self.versions.push_back_reserved((write_stamp, value));
        self.reserved = false;
    }

    /// Removes the versions older than the newest one at most `floor`, and says how many. What stands at a stamp from
    /// `floor` on stays, and so does a reservation.
    #[tactic(auto, using(crate::proofs::ChainLemmas::falls_without_oldest, crate::proofs::ChainLemmas::version_at_cut))]
    pub fn cut(&mut self, floor: u64) -> u64
        ensures cut { self.new ≡ record self.old { versions = cut floor self.old.versions } }
        ensures kept { (stamp : ℕ) → floor ≤ stamp
            → version_at stamp self.new.versions ≡ version_at stamp self.old.versions }
        ensures removed { result + length self.new.versions ≡ length self.old.versions }
    {
        let mut removed = 0;
        while is_oldest_obsolete(&self.versions, floor) {
            self.versions.pop_front();
            removed += 1;
        }
        removed
    }
}

// Whether the oldest version is obsolete: the next one is at most `floor` too.
#[tactic(auto, using(crate::proofs::ChainLemmas::cut_by_next, crate::proofs::ChainLemmas::cut_short))]
fn is_oldest_obsolete(versions: &VecDeque<(u64, Option<Bin>)>, floor: u64) -> bool
    requires { Falls (reverse versions.now.items) }
    ensures there { OnTrue result (0 < length versions.now.items) }
    ensures cut { cut floor (reverse versions.now.items)
        ≡ (if result then cut floor (reverse (drop 1 versions.now.items)) else reverse versions.now.items) }
{
    match versions.get(1) {
        Some((next, _)) => *next <= floor,
        None => false,
    }
}

// The newest version at most `stamp`. The newest of all is tried first, since most calls ask for it.
fn newest_at(versions: &VecDeque<(u64, Option<Bin>)>, stamp: u64) -> Option<&(u64, Option<Bin>)>
    requires { Falls (reverse versions.now.items) }
    ensures { option_map (λ version. version.now) result ≡ version_at stamp (reverse versions.now.items) }
{
    let newest = versions.back()?;
    if newest.0 <= stamp {
        return Some(newest);
    }
    let count = versions.partition_point(|version| version.0 <= stamp);
    if count == 0 {
        None
    } else {
        Some(&versions[count - 1])
    }
}
