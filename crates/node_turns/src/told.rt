//! What a turn tells of its event: the entry that it added, or none.
ghost use Rattle.std.specs.Prelude.{◌∷◌, [], option_to_list};
ghost use Rattle.farm_node.specs.declared.entry.Entry.TheVariants.{Open, Shut, Check, Put, Unlock, Collect};
ghost use Rattle.farm_node.specs.Answers.{read_entry, alloc_entry, lock_entry};

use a1_base::{Addr, Bin, TxnId};
use farm_node::{
    CheckFault, Collected, Entry, Found, LockFault, Locked, PlaceFault, Placed, ReadFault,
};
use std::snapshot::Snapshot;
use turnstile::Tells;

#[derive(Drop)]
pub(crate) struct OpenTold {
    pub(crate) actor: u32,
    pub(crate) clock: u64,
    pub(crate) pin: u64,
}

impl Tells<Entry> for OpenTold {
    ghost entries = { λ t. Open t.actor t.clock t.pin ∷ [] };

    fn count(&self) -> u64 {
        1
    }
}

#[derive(Drop)]
pub(crate) struct ShutTold {
    pub(crate) actor: u32,
}

impl Tells<Entry> for ShutTold {
    ghost entries = { λ t. Shut t.actor ∷ [] };

    fn count(&self) -> u64 {
        1
    }
}

#[derive(Drop)]
pub(crate) struct ReadTold<'a> {
    pub(crate) actor: u32,
    pub(crate) at: Addr,
    pub(crate) s: u64,
    pub(crate) answer: &'a Result<Found, ReadFault>,
}

impl Tells<Entry> for ReadTold<'_> {
    ghost entries = { λ t. option_to_list (read_entry t.actor t.at t.s t.answer.now) };

    fn count(&self) -> u64 {
        match self.answer {
            Ok(_) | Err(ReadFault::Held { .. }) => 1,
            Err(ReadFault::Memory) => 0,
        }
    }
}

#[derive(Drop)]
pub(crate) struct AllocTold<'a> {
    pub(crate) t: TxnId,
    pub(crate) r: u64,
    pub(crate) bytes: Snapshot<Bin>,
    pub(crate) answer: &'a Result<Placed, PlaceFault>,
}

impl Tells<Entry> for AllocTold<'_> {
    ghost entries = { λ x. option_to_list (alloc_entry x.t x.r x.bytes.value x.answer.now) };

    fn count(&self) -> u64 {
        match self.answer {
            Ok(_) => 1,
            Err(_) => 0,
        }
    }
}

#[derive(Drop)]
pub(crate) struct LockTold<'a> {
    pub(crate) t: TxnId,
    pub(crate) at: Addr,
    pub(crate) r: u64,
    pub(crate) new: Snapshot<Option<Bin>>,
    pub(crate) answer: &'a Result<Locked, LockFault>,
}

impl Tells<Entry> for LockTold<'_> {
    ghost entries = { λ x. option_to_list (lock_entry x.t x.at x.r x.new.value x.answer.now) };

    fn count(&self) -> u64 {
        match self.answer {
            Ok(_) | Err(LockFault::Held { .. }) | Err(LockFault::Changed { .. }) => 1,
            Err(LockFault::Memory) => 0,
        }
    }
}

#[derive(Drop)]
pub(crate) struct CheckTold<'a> {
    pub(crate) t: TxnId,
    pub(crate) at: Addr,
    pub(crate) r: u64,
    pub(crate) w: u64,
    pub(crate) answer: &'a Result<(), CheckFault>,
}

impl Tells<Entry> for CheckTold<'_> {
    ghost entries = { λ x. Check x.t x.at x.r x.w x.answer.now ∷ [] };

    fn count(&self) -> u64 {
        1
    }
}

#[derive(Drop)]
pub(crate) struct PutTold {
    pub(crate) t: TxnId,
    pub(crate) at: Addr,
    pub(crate) w: u64,
}

impl Tells<Entry> for PutTold {
    ghost entries = { λ x. Put x.t x.at x.w ∷ [] };

    fn count(&self) -> u64 {
        1
    }
}

#[derive(Drop)]
pub(crate) struct UnlockTold {
    pub(crate) t: TxnId,
    pub(crate) at: Addr,
}

impl Tells<Entry> for UnlockTold {
    ghost entries = { λ x. Unlock x.t x.at ∷ [] };

    fn count(&self) -> u64 {
        1
    }
}

#[derive(Drop)]
pub(crate) struct CollectTold {
    pub(crate) actor: u32,
    pub(crate) f: u64,
    pub(crate) removed: Collected,
}

impl Tells<Entry> for CollectTold {
    ghost entries = { λ x. Collect x.actor x.f x.removed ∷ [] };

    fn count(&self) -> u64 {
        1
    }
}
