//! Open transactions.
ghost use Rattle.std.specs.Prelude.{◌≡◌, ◌<◌, ◌%◌, ◌++◌, ◌∷◌, [], List, ◌↔◌, IsTrue, true, false, Ok, IfOk, length, vec_len, vec_capacity};
ghost use Rattle.a1_base.specs.declared.place.TxnId.{TxnId};
ghost use Rattle.farm_node.specs.declared.node.Node.{Node};
ghost use Rattle.farm_core.specs.declared.event.Event.TheVariants as event;
ghost use Rattle.farm_core.specs.Machine.{State, Meets, InRange, HoldsLock, begun_at, found_answer, fault_answer};
ghost use Rattle.farm_core.specs.ReadSet.{checked};
ghost use Rattle.farm_core.specs.ReadSets.{read_set};
ghost use Rattle.farm_core.specs.Standing.{Reached, StandsOpen, At, in_list, AtClock, Acted, Stepped, CanAct, CanActAt, ActsOn, IsOf, read_fault, lock_fault, is_reading, is_drawn, is_installing, holds_at, may_lock_at, meets_in};

use crate::event::{Answer, Event};
use crate::reads::ReadMarks;
use a1_base::{Addr, Bin, LAST_STAMP, Memory, TxnId};
use farm_node::{CheckFault, Found, LockFault, Node, PlaceFault, ReadFault};
use std::alloc::Global;

/// How far an open transaction is.
#[derive(Clone, Copy)]
pub enum Phase {
    Reading,
    Drawn,
    Installing,
    Refused,
}

impl Phase {
    fn is_reading(self) -> bool
        ensures { result ≡ is_reading self }
    {
        matches!(self, Phase::Reading)
    }

    fn is_drawn(self) -> bool
        ensures { result ≡ is_drawn self }
    {
        matches!(self, Phase::Drawn)
    }

    fn is_installing(self) -> bool
        ensures { result ≡ is_installing self }
    {
        matches!(self, Phase::Installing)
    }
}

/// An open transaction.
#[derive(Drop)]
pub struct Active {
    phase: Phase,
    read_stamp: u64,
    write_stamp: u64,
    reads: ReadMarks,
    // Each address that it holds, and maybe more that it had locked.
    locked: Vec<Addr>,
}

impl Active {
    /// A transaction that begins at this stamp.
    pub fn begun(alloc: Global, stamp: u64) -> Active
        ensures { StandsOpen result (begun_at stamp) }
    {
        Active {
            phase: Phase::Reading,
            read_stamp: stamp,
            write_stamp: 0,
            reads: ReadMarks::new(alloc),
            locked: Vec::new(alloc),
        }
    }

    // Whether an event of the transaction, but its end, has its condition.
    fn meets(&self, nodes: &[Node], transaction: TxnId, event: &Event) -> bool
        requires { 0 < length nodes.now }
        ensures { result ≡ meets_in self.now nodes.now transaction event.now }
    {
        match event {
            Event::Read { at, .. } => self.phase.is_reading() && !holds(nodes, transaction, *at),
            Event::Alloc { .. } => self.phase.is_reading(),
            Event::Lock { at, .. } => self.phase.is_reading()
                && may_lock(nodes, transaction, *at, self.read_stamp),
            Event::Draw { .. } => self.phase.is_reading() && !self.locked.is_empty(),
            Event::Check { at, .. } => self.phase.is_drawn()
                && self.reads.contains(*at)
                && !holds(nodes, transaction, *at),
            Event::Put { at, .. } => {
                (self.phase.is_drawn() || self.phase.is_installing())
                    && self.reads.all_checked()
                    && holds(nodes, transaction, *at)
            }
            Event::Unlock { at, .. } => !self.phase.is_installing()
                && holds(nodes, transaction, *at),
            _ => false,
        }
    }

    /// Answers an event of the transaction, but its end. `Memory` comes for want of memory alone, and then nothing has
    /// come to pass.
    pub fn advance(
        &mut self,
        nodes: &mut [Node],
        clock: &mut u64,
        alloc: Global,
        transaction: TxnId,
        event: &Event,
    ) -> Result<Answer, Memory>
        requires { (s : State) × Reached s × AtClock self.old nodes.old clock.old transaction s
            × IsOf transaction event.now
            × InRange s.nodes event.now }
        ensures { (s : State) → Reached s → AtClock self.old nodes.old clock.old transaction s
            → IsOf transaction event.now
            → Stepped transaction s event.now result (AtClock self.new nodes.new clock.new transaction) }
    {
        if self.meets(nodes, transaction, event) {
            self.act(nodes, clock, alloc, event)
        } else {
            Ok(Answer::No)
        }
    }

    /// Whether the transaction holds a lock. It takes a logarithm for each lock that went since it was last asked.
    pub fn holds_lock(&mut self, nodes: &[Node], transaction: TxnId) -> bool
        requires { 0 < length nodes.now }
        ensures { (s : State) → Reached s → At self.old nodes.now transaction s
            → (IsTrue result ↔ HoldsLock s transaction)
            × At self.new nodes.now transaction s }
    {
        any_held(&mut self.locked, nodes, transaction)
    }

    // Answers an event that has its condition.
    fn act(
        &mut self,
        nodes: &mut [Node],
        clock: &mut u64,
        alloc: Global,
        event: &Event,
    ) -> Result<Answer, Memory>
        requires { CanActAt self.old nodes.old clock.old event.now }
        ensures { (t : TxnId) (s : State) → IsOf t event.now → Reached s → AtClock self.old nodes.old clock.old t s
            → Meets s event.now → Acted t s event.now result (AtClock self.new nodes.new clock.new t) }
    {
        match event {
            Event::Read { t, at } => self.read(nodes, alloc, *t, *at),
            Event::Alloc { t, node, bytes } => self.alloc(nodes, alloc, *t, *node, bytes),
            Event::Lock { t, at, new } => self.lock(nodes, alloc, *t, *at, new),
            Event::Draw { t } => Ok(self.draw(clock, *t)),
            Event::Check { t, at } => Ok(self.check(nodes, *t, *at)),
            Event::Put { t, at } => Ok(self.put(nodes, *t, *at)),
            Event::Unlock { t, at } => Ok(self.unlock(nodes, *t, *at)),
            _ => Ok(Answer::No),
        }
    }

    // Reads.
    fn read(
        &mut self,
        nodes: &mut [Node],
        alloc: Global,
        transaction: TxnId,
        at: Addr,
    ) -> Result<Answer, Memory>
        requires { CanAct self.old nodes.old transaction (event.Read transaction at) }
        ensures { ActsOn self.old nodes.old transaction (event.Read transaction at) result self.new nodes.new }
    {
        let new = self.reads.insert(at)?;
        let node = home(at, nodes.len());
        match nodes[node].read(alloc, transaction.actor, at, self.read_stamp) {
            Ok(found) => Ok(found_answer(found)),
            Err(fault) => {
                self.reads.undo_insert(at, new);
                match read_fault(fault) {
                    Ok(by) => Ok(Answer::Held { by }),
                    Err(memory) => Err(memory),
                }
            }
        }
    }

    // Makes an object.
    fn alloc(
        &mut self,
        nodes: &mut [Node],
        alloc: Global,
        transaction: TxnId,
        node: u32,
        bytes: &Bin,
    ) -> Result<Answer, Memory>
        requires can { CanAct self.old nodes.old transaction (event.Alloc transaction node bytes.now) }
        requires node { node < length nodes.old }
        ensures { ActsOn self.old nodes.old transaction
            (event.Alloc transaction node bytes.now) result self.new nodes.new }
    {
        let bytes = Bin::from_slice(alloc, bytes.as_slice())?;
        self.locked.reserve(1)?;
        match nodes[node as usize].alloc(alloc, transaction, self.read_stamp, bytes) {
            Ok(placed) => {
                self.take(placed.at);
                Ok(Answer::Placed {
                    at: placed.at,
                    bound: placed.bound,
                })
            }
            Err(PlaceFault::Spent) => {
                self.phase = Phase::Refused;
                Ok(Answer::Spent)
            }
            Err(PlaceFault::Memory) => Err(Memory),
        }
    }

    // Locks.
    fn lock(
        &mut self,
        nodes: &mut [Node],
        alloc: Global,
        transaction: TxnId,
        at: Addr,
        new: &Option<Bin>,
    ) -> Result<Answer, Memory>
        requires { CanAct self.old nodes.old transaction (event.Lock transaction at new.now) }
        ensures { ActsOn self.old nodes.old transaction (event.Lock transaction at new.now) result self.new nodes.new }
    {
        let new = copied(alloc, new)?;
        self.locked.reserve(1)?;
        let node = home(at, nodes.len());
        match nodes[node].lock(transaction, at, self.read_stamp, new) {
            Ok(locked) => {
                self.take(at);
                Ok(Answer::Locked {
                    seen: locked.seen,
                    bound: locked.bound,
                })
            }
            Err(fault) => match lock_fault(fault) {
                Ok(fault) => {
                    self.phase = Phase::Refused;
                    Ok(fault_answer(fault))
                }
                Err(memory) => Err(memory),
            },
        }
    }

    // It has the lock of an address.
    fn take(&mut self, at: Addr)
        requires { vec_len self.old.locked < vec_capacity self.old.locked }
        ensures same { (self.new.phase ≡ self.old.phase) × (self.new.read_stamp ≡ self.old.read_stamp)
            × (self.new.write_stamp ≡ self.old.write_stamp) }
        ensures reads { read_set self.new.reads ≡ checked at (read_set self.old.reads) }
        ensures locked { self.new.locked.items ≡ self.old.locked.items ++ at ∷ [] }
    {
        self.reads.check(at);
        self.locked.push_reserved(at);
    }

    // Draws its write stamp.
    #[tactic(auto, using(crate::proofs::Acting::draws))]
    fn draw(&mut self, clock: &mut u64, transaction: TxnId) -> Answer
        requires { (nodes : List Node) × (s : State) × Reached s × AtClock self.old nodes clock.old transaction s
            × Meets s (event.Draw transaction) }
        ensures { (nodes : List Node) (s : State) → Reached s → AtClock self.old nodes clock.old transaction s
            → Meets s (event.Draw transaction)
            → Acted transaction s (event.Draw transaction) (Ok result)
            (AtClock self.new nodes clock.new transaction) }
    {
        if *clock == LAST_STAMP {
            self.phase = Phase::Refused;
            return Answer::Spent;
        }
        *clock += 1;
        self.phase = Phase::Drawn;
        self.write_stamp = *clock;
        Answer::Stamp { stamp: *clock }
    }

    // Asks whether what it read still stands.
    fn check(&mut self, nodes: &mut [Node], transaction: TxnId, at: Addr) -> Answer
        requires { CanAct self.old nodes.old transaction (event.Check transaction at) }
        ensures { ActsOn self.old nodes.old transaction (event.Check transaction at) (Ok result) self.new nodes.new }
    {
        let node = home(at, nodes.len());
        match nodes[node].check(transaction, at, self.read_stamp, self.write_stamp) {
            Ok(()) => {
                self.reads.check(at);
                Answer::Same
            }
            Err(fault) => {
                self.phase = Phase::Refused;
                fault_answer(fault)
            }
        }
    }

    // Installs what waits under its lock.
    fn put(&mut self, nodes: &mut [Node], transaction: TxnId, at: Addr) -> Answer
        requires { CanAct self.old nodes.old transaction (event.Put transaction at) }
        ensures { ActsOn self.old nodes.old transaction (event.Put transaction at) (Ok result) self.new nodes.new }
    {
        let node = home(at, nodes.len());
        nodes[node].put(transaction, at, self.write_stamp);
        self.phase = Phase::Installing;
        Answer::Put
    }

    // Gives its lock up.
    fn unlock(&mut self, nodes: &mut [Node], transaction: TxnId, at: Addr) -> Answer
        requires { CanAct self.old nodes.old transaction (event.Unlock transaction at) }
        ensures { ActsOn self.old nodes.old transaction (event.Unlock transaction at) (Ok result) self.new nodes.new }
    {
        let node = home(at, nodes.len());
        nodes[node].unlock(transaction, at);
        self.phase = Phase::Refused;
        Answer::Unlocked
    }
}

// A copy of the bytes, where there are some.
fn copied(alloc: Global, bytes: &Option<Bin>) -> Result<Option<Bin>, Memory>
    ensures { IfOk result (λ copy. copy ≡ bytes.now) }
{
    match bytes {
        Some(bytes) => Ok(Some(Bin::from_slice(alloc, bytes.as_slice())?)),
        None => Ok(None),
    }
}

// The answer to a read that found this.
fn found_answer(found: Found) -> Answer
    ensures { result ≡ found_answer found }
{
    let Found { stamp, value } = found;
    match value {
        Some(bytes) => Answer::Value { stamp, bytes },
        None => Answer::Absent { stamp },
    }
}

// Who holds what was to be read.
fn read_fault(fault: ReadFault) -> Result<TxnId, Memory>
    ensures { result ≡ read_fault fault }
{
    match fault {
        ReadFault::Held { by } => Ok(by),
        ReadFault::Memory => Err(Memory),
    }
}

// Why a lock was not given.
fn lock_fault(fault: LockFault) -> Result<CheckFault, Memory>
    ensures { result ≡ lock_fault fault }
{
    match fault {
        LockFault::Held { by } => Ok(CheckFault::Held { by }),
        LockFault::Changed { seen, now } => Ok(CheckFault::Changed { seen, now }),
        LockFault::Memory => Err(Memory),
    }
}

// The answer to a lock or a check that is refused.
fn fault_answer(fault: CheckFault) -> Answer
    ensures { result ≡ fault_answer fault }
{
    match fault {
        CheckFault::Held { by } => Answer::Held { by },
        CheckFault::Changed { seen, now } => Answer::Changed { seen, now },
    }
}

/// The node of an address.
pub fn home(at: Addr, nodes: usize) -> usize
    requires { 0 < nodes }
    ensures is { result ≡ at.region % nodes }
    ensures low { result < nodes }
{
    at.region as usize % nodes
}

// Whether the transaction has the lock of an address.
#[tactic(auto, using(crate::proofs::NodeLists::fetched))]
fn holds(nodes: &[Node], transaction: TxnId, at: Addr) -> bool
    requires { 0 < length nodes.now }
    ensures { result ≡ holds_at nodes.now transaction at }
{
    nodes[home(at, nodes.len())].holds(transaction, at)
}

// Whether the transaction holds one of the addresses. Those at the end that it does not hold go.
fn any_held(locked: &mut Vec<Addr>, nodes: &[Node], transaction: TxnId) -> bool
    requires { 0 < length nodes.now }
    ensures fewer { (a : Addr) → in_list a locked.new.items ≡ true → in_list a locked.old.items ≡ true }
    ensures held { (a : Addr) → holds_at nodes.now transaction a ≡ true → in_list a locked.old.items ≡ true
        → in_list a locked.new.items ≡ true }
    ensures some { IsTrue result → (a : Addr) × (holds_at nodes.now transaction a ≡ true) }
    ensures none { result ≡ false → locked.new.items ≡ [] }
{
    while let Some(at) = locked.last() {
        if holds(nodes, transaction, *at) {
            return true;
        }
        locked.pop();
    }
    false
}

// Whether the transaction, of this read stamp, may ask for the lock of an address.
#[tactic(auto, using(crate::proofs::NodeLists::fetched))]
fn may_lock(nodes: &[Node], transaction: TxnId, at: Addr, read_stamp: u64) -> bool
    requires { 0 < length nodes.now }
    ensures { result ≡ may_lock_at nodes.now transaction at read_stamp }
{
    nodes[home(at, nodes.len())].may_lock(transaction, at, read_stamp)
}
