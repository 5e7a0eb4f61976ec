//! What is at one address.
ghost use Rattle.std.specs.Prelude.{◌≡◌, ◌<◌, ◌↔◌, max, [], true, false, Some, None, Ok, Err, IsTrue, IfOk, OnOk, OnErr, ◌+◌, ◌-◌, length, option_map};
ghost use Rattle.version_chain.specs.Versions.{cut};
ghost use Rattle.farm_node.specs.Cell.{Cell, found_at, made_by, loaded_cell, unless_changed, lock_answer, check_answer, locked_by, installed, is_open, is_newest_absent, is_gone, goes};
ghost use Rattle.farm_node.specs.Answers.{ReadsCell};
ghost use Rattle.farm_node.specs.State.{has_lock, has_value, may_lock, leaves_old};
ghost use Rattle.farm_node.specs.Waiting.{held_in};

use crate::entry::{CheckFault, Found, Locked};
use crate::faults::ReadFault;
use crate::hold::Hold;
use crate::waiting::Waiting;
use a1_base::{Bin, Memory, TxnId};
use std::alloc::Global;
use std::marker::Model;
use version_chain::Chain;

/// What is at one address: the versions of its object, the stamp that the next put has to exceed, and the lock.
#[derive(Drop)]
pub struct Object {
    chain: Chain,
    bound: u64,
    lock: Option<Hold>,
}

impl Model for Object {
    ghost use Rattle.farm_node.specs.Cell.{Cell, IsCell};

    ghost Value = { Cell };

    ghost view = { λ o. record { versions = o.chain.versions; bound = o.bound; lock = o.lock } };

    ghost invariant = { λ o. IsCell o.chain o.bound o.lock };
}

impl Object {
    /// A new object, locked by the transaction that makes it. `Memory` comes for want of memory alone.
    pub fn made(alloc: Global, transaction: TxnId, bytes: Bin, bound: u64) -> Result<Object, Memory>
        ensures { IfOk result (λ o. o ≡ made_by transaction bytes bound) }
    {
        let mut chain = Chain::new(alloc);
        chain.reserve()?;
        Ok(Object {
            chain,
            bound,
            lock: Some(Hold {
                by: transaction,
                pending: Some(bytes),
            }),
        })
    }

    /// An object that is loaded: one version, at this stamp. `Memory` comes for want of memory alone.
    pub fn loaded(alloc: Global, stamp: u64, bytes: Bin) -> Result<Object, Memory>
        requires { 0 < stamp }
        ensures { IfOk result (λ o. o ≡ loaded_cell stamp bytes) }
    {
        let mut chain = Chain::new(alloc);
        chain.reserve()?;
        chain.push(stamp, Some(bytes));
        Ok(Object {
            chain,
            bound: stamp,
            lock: None,
        })
    }

    /// Who holds it.
    pub fn holder(&self) -> Option<TxnId>
        ensures { result ≡ option_map (λ h. h.by) self.now.lock }
    {
        match &self.lock {
            Some(hold) => Some(hold.by),
            None => None,
        }
    }

    /// Whether the transaction has its lock.
    pub fn is_held_by(&self, transaction: TxnId) -> bool
        ensures { result ≡ has_lock transaction self.now.lock }
    {
        match self.holder() {
            Some(by) => by == transaction,
            None => false,
        }
    }

    // Whether there is a value at `stamp`.
    fn has_value(&self, stamp: u64) -> bool
        ensures { result ≡ has_value stamp self.now }
    {
        match self.chain.at(stamp) {
            Some((_, value)) => value.is_some(),
            None => false,
        }
    }

    /// Whether the transaction may ask for its lock: by a value at `read_stamp`, or as the maker of a new object.
    pub fn may_lock(&self, transaction: TxnId, read_stamp: u64) -> bool
        ensures { result ≡ may_lock transaction read_stamp (Some self.now) }
    {
        if self.is_held_by(transaction) {
            self.is_new()
        } else {
            self.has_value(read_stamp)
        }
    }

    /// What stands at `stamp`. `Memory` comes for want of memory alone.
    pub fn found(&self, alloc: Global, stamp: u64) -> Result<Found, Memory>
        ensures { IfOk result (λ found. found ≡ found_at stamp self.now.versions) }
    {
        match self.chain.at(stamp) {
            None => Ok(Found {
                stamp: 0,
                value: None,
            }),
            Some((stamp, None)) => Ok(Found { stamp, value: None }),
            Some((stamp, Some(bytes))) => Ok(Found {
                stamp,
                value: Some(Bin::from_slice(alloc, bytes)?),
            }),
        }
    }

    /// Reads at `stamp`, which bars later puts up to it. `Memory` comes for want of memory alone, and leaves the object
    /// as it was.
    pub fn read(&mut self, alloc: Global, stamp: u64) -> Result<Found, ReadFault>
        ensures { ReadsCell stamp self.old result self.new }
    {
        if let Some(by) = self.holder() {
            if self.chain.newest() <= stamp {
                return Err(ReadFault::Held { by });
            }
        }
        let Ok(found) = self.found(alloc, stamp) else {
            return Err(ReadFault::Memory);
        };
        self.bound = self.bound.max(stamp);
        Ok(found)
    }

    // Whether no version is above `read_stamp`.
    fn unchanged(&self, read_stamp: u64) -> Result<(), CheckFault>
        ensures { result ≡ unless_changed read_stamp self.now tt }
    {
        let now = self.chain.newest();
        if now <= read_stamp {
            return Ok(());
        }
        let seen = match self.chain.at(read_stamp) {
            Some((stamp, _)) => stamp,
            None => 0,
        };
        Err(CheckFault::Changed { seen, now })
    }

    /// Whether the transaction may lock it: no other holds it, and no version is above `read_stamp`.
    pub fn lockable(&self, transaction: TxnId, read_stamp: u64) -> Result<Locked, CheckFault>
        ensures { result ≡ lock_answer transaction read_stamp (Some self.now) }
    {
        let Some(by) = self.holder() else {
            self.unchanged(read_stamp)?;
            return Ok(Locked {
                seen: self.chain.newest(),
                bound: self.bound,
            });
        };
        if by == transaction {
            Ok(Locked {
                seen: 0,
                bound: self.bound,
            })
        } else {
            Err(CheckFault::Held { by })
        }
    }

    /// Locks it, to install `new`, with a place among what waits for a collection, which it has already where the
    /// transaction locks anew. `Memory` comes for want of memory alone, and leaves all as it was.
    pub fn hold(
        &mut self,
        waiting: &mut Waiting,
        transaction: TxnId,
        new: Option<Bin>,
    ) -> Result<(), Memory>
        requires valued { is_newest_absent self.old.versions ≡ false }
        ensures ok { OnOk result ((Some self.new ≡ locked_by transaction new (Some self.old))
            × (waiting.new ≡ record waiting.old { reserved = waiting.old.reserved + (1 - held_in self.old) })) }
        ensures err { OnErr result ((self.new ≡ self.old) × (waiting.new ≡ waiting.old)) }
    {
        self.chain.reserve()?;
        if self.lock.is_none() {
            waiting.reserve()?;
        }
        self.lock = Some(Hold {
            by: transaction,
            pending: new,
        });
        Ok(())
    }

    /// Whether what was read at `read_stamp` still stands, which bars later puts up to `write_stamp`.
    pub fn check(&mut self, read_stamp: u64, write_stamp: u64) -> Result<(), CheckFault>
        ensures answer { result ≡ check_answer read_stamp (Some self.old) }
        ensures ok { OnOk result (self.new ≡ record self.old { bound = max self.old.bound write_stamp }) }
        ensures err { OnErr result (self.new ≡ self.old) }
    {
        if let Some(by) = self.holder() {
            return Err(CheckFault::Held { by });
        }
        self.unchanged(read_stamp)?;
        self.bound = self.bound.max(write_stamp);
        Ok(())
    }

    /// Installs the value that waits at `write_stamp`, and unlocks it. It says whether that leaves something to collect
    /// once the floor has reached `write_stamp`.
    pub fn install(&mut self, write_stamp: u64) -> bool
        requires locked { is_open self.old.lock ≡ false }
        requires above { self.old.bound < write_stamp }
        ensures object { Some self.new ≡ installed write_stamp (Some self.old) }
        ensures waits { result ≡ leaves_old self.old }
    {
        let Some(hold) = self.lock.take() else {
            unreachable!()
        };
        let Hold { pending, .. } = hold;
        let leaves_old = !self.chain.is_empty() || pending.is_none();
        self.chain.push(write_stamp, pending);
        self.bound = write_stamp;
        leaves_old
    }

    /// Unlocks it.
    pub fn release(&mut self)
        ensures { self.new ≡ record self.old { lock = None } }
    {
        self.lock = None;
    }

    /// Whether no version was installed yet.
    pub fn is_new(&self) -> bool
        ensures { IsTrue result ↔ (self.now.versions ≡ []) }
    {
        self.chain.is_empty()
    }

    /// The stamp that the next put has to exceed.
    pub fn bound(&self) -> u64
        ensures { result ≡ self.now.bound }
    {
        self.bound
    }

    // Whether there is a newest version, and it is absent.
    fn is_newest_absent(&self) -> bool
        ensures { result ≡ is_newest_absent self.now.versions }
    {
        match self.chain.at(self.chain.newest()) {
            Some((_, value)) => value.is_none(),
            None => false,
        }
    }

    /// Whether a collection at `floor` takes the whole object.
    pub fn goes(&self, floor: u64) -> bool
        ensures { result ≡ goes floor self.now }
    {
        self.lock.is_none() && self.chain.newest() <= floor && self.is_newest_absent()
    }

    /// How many versions it has.
    pub fn len(&self) -> u64
        ensures { result ≡ length self.now.versions }
    {
        self.chain.len() as u64
    }

    /// Removes the versions older than the newest one at most `floor`, and says how many. Its newest version is absent
    /// and at most `floor` exactly where the whole object goes.
    pub fn cut(&mut self, floor: u64) -> u64
        ensures cut { self.new ≡ record self.old { versions = cut floor self.old.versions } }
        ensures removed { result + length self.new.versions ≡ length self.old.versions }
        ensures whole { is_gone floor self.old.versions ≡ goes floor self.old }
    {
        self.chain.cut(floor)
    }
}
