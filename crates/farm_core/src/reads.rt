//! What a transaction has read.
ghost use Rattle.std.specs.Prelude.{◌≡◌, if◌then◌else◌, false, not, IfOk, OnOk, OnErr};
ghost use Rattle.farm_core.specs.Machine.{with_addr};
ghost use Rattle.farm_core.specs.ReadSet.{marks, without_addr, nothing_read, reading, unread, checked};

use a1_base::{Addr, Memory};
use std::alloc::Global;
use std::collections::BTreeSet;

/// The addresses that a transaction has read, and which of them it at no time locked nor found the same.
#[derive(Drop)]
pub struct ReadMarks {
    read: BTreeSet<Addr>,
    unchecked: BTreeSet<Addr>,
}

impl ReadMarks {
    ghost use Rattle.farm_core.specs.ReadSets.{read_set, all_checked};

    /// No address.
    pub fn new(alloc: Global) -> ReadMarks
        ensures { read_set result ≡ nothing_read }
    {
        ReadMarks {
            read: BTreeSet::new(alloc),
            unchecked: BTreeSet::new(alloc),
        }
    }

    /// Whether an address was read.
    pub fn contains(&self, at: Addr) -> bool
        ensures { result ≡ (read_set self.now).read at }
    {
        self.read.contains(&at)
    }

    /// Whether each address that was read was locked or found the same.
    #[tactic(auto, using(crate::proofs::Sets::empty_iff))]
    pub fn all_checked(&self) -> bool
        ensures { result ≡ all_checked self.now }
    {
        self.unchecked.is_empty()
    }

    /// Puts an address in, and says whether it is new. `Memory` comes for want of memory alone, and leaves the sets as
    /// they were.
    pub fn insert(&mut self, at: Addr) -> Result<bool, Memory>
        requires { (read_set self.old).read at ≡ (read_set self.old).unchecked at }
        ensures new { IfOk result (λ new. new ≡ not ((read_set self.old).read at)) }
        ensures ok { OnOk result (read_set self.new ≡ reading at (read_set self.old)) }
        ensures err { OnErr result (read_set self.new ≡ read_set self.old) }
    {
        let new = insert(&mut self.read, at)?;
        if let Err(memory) = insert(&mut self.unchecked, at) {
            remove(&mut self.read, at);
            return Err(memory);
        }
        Ok(new)
    }

    /// Takes an address out again, where it was new.
    pub fn undo_insert(&mut self, at: Addr, new: bool)
        ensures { read_set self.new ≡ (if new then unread at (read_set self.old) else read_set self.old) }
    {
        if new {
            remove(&mut self.read, at);
            remove(&mut self.unchecked, at);
        }
    }

    /// The address was locked, or found the same.
    pub fn check(&mut self, at: Addr)
        ensures { read_set self.new ≡ checked at (read_set self.old) }
    {
        remove(&mut self.unchecked, at);
    }
}

// Puts an address in, and says whether it is new.
fn insert(set: &mut BTreeSet<Addr>, at: Addr) -> Result<bool, Memory>
    ensures new { IfOk result (λ new. new ≡ not (marks set.old at)) }
    ensures ok { OnOk result (marks set.new ≡ with_addr at (marks set.old)) }
    ensures err { OnErr result (marks set.new ≡ marks set.old) }
    ensures absent { OnErr result (marks set.old at ≡ false) }
{
    match set.insert(at) {
        Ok(new) => Ok(new),
        Err(_) => Err(Memory),
    }
}

// Takes an address out.
fn remove(set: &mut BTreeSet<Addr>, at: Addr)
    ensures { marks set.new ≡ without_addr at (marks set.old) }
{
    set.remove(&at);
}
