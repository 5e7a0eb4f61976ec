//! The farm: its nodes, its clock and its transactions.
ghost use Rattle.std.specs.Prelude.{◌≡◌, ◌+◌, ◌<◌, ◌≤◌, ℕ, [], max, take, None, Ok, IfOk, OnOk, All, length, vec_capacity};
ghost use Rattle.a1_base.specs.declared.limits.TheConstants.{NODE_LIMIT};
ghost use Rattle.farm_node.specs.declared.entry.Entry.TheVariants as entry;
ghost use Rattle.a1_base.specs.Stamps.{IsStamp};
ghost use Rattle.farm_core.specs.declared.event.Event.TheVariants as event;
ghost use Rattle.farm_core.specs.Machine.{State, InRange, Meets, IsActor, IsAddr, IsObject, fresh};
ghost use Rattle.farm_core.specs.Standing.{Reached, NodesStand, IsOf, Stepped, plains};
ghost use Rattle.farm_core.specs.Farms.{SlotAt, Stands, StepsTo, RunsTo, AreNew, AddsEach, Shuts, may_begin};

use crate::active::{Active, home};
use crate::event::{Answer, Event};
use a1_base::{ACTOR_LIMIT, Addr, Bin, Memory, OPENING_STAMP, TxnId};
use farm_node::Node;
use std::alloc::Global;

/// What the farm knows of one actor: how often it began, and its open transaction.
#[derive(Drop)]
pub struct Slot {
    begins: u64,
    open: Option<Active>,
}

/// The farm.
#[derive(Drop)]
pub struct Farm {
    nodes: Vec<Node>,
    clock: u64,
    loading: bool,
    // By the number of the actor.
    slots: Vec<Slot>,
}

impl Slot {
    // Answers an event of a transaction, but its end. `Memory` comes for want of memory alone, and then nothing has
    // come to pass.
    fn advance(
        &mut self,
        nodes: &mut [Node],
        clock: &mut u64,
        alloc: Global,
        transaction: TxnId,
        event: &Event,
    ) -> Result<Answer, Memory>
        requires { (s : State) × Reached s × SlotAt self.old nodes.old clock.old transaction s
            × IsOf transaction event.now
            × InRange s.nodes event.now }
        ensures { (s : State) → Reached s → SlotAt self.old nodes.old clock.old transaction s
            → IsOf transaction event.now
            → Stepped transaction s event.now result (SlotAt self.new nodes.new clock.new transaction) }
    {
        if self.begins != transaction.number {
            return Ok(Answer::No);
        }
        match &mut self.open {
            Some(active) => active.advance(nodes, clock, alloc, transaction, event),
            None => Ok(Answer::No),
        }
    }

    // Whether the actor may begin a transaction of this number.
    fn may_begin(&self, number: u64) -> bool
        ensures { result ≡ may_begin self.now number }
    {
        self.open.is_none() && number > self.begins && number - self.begins == 1
    }

    // Ends the transaction, if it is open and holds no lock, and says whether.
    #[tactic(auto, using(crate::proofs::Ending::shuts))]
    fn shut(&mut self, nodes: &[Node], transaction: TxnId) -> bool
        requires { 0 < length nodes.now }
        ensures { Shuts self.old nodes.now transaction result self.new }
    {
        if self.begins != transaction.number {
            return false;
        }
        let Some(active) = &mut self.open else {
            return false;
        };
        if active.holds_lock(nodes, transaction) {
            return false;
        }
        self.open = None;
        true
    }
}

impl Farm {
    /// The farm of this many nodes, before any event. `Memory` comes for want of memory alone.
    pub fn new(alloc: Global, nodes: u32) -> Result<Farm, Memory>
        requires some { 0 < nodes }
        requires few { nodes ≤ NODE_LIMIT }
        ensures { IfOk result (λ farm. Stands farm (fresh nodes)) }
    {
        Ok(Farm {
            nodes: new_nodes(alloc, nodes)?,
            clock: 1,
            loading: true,
            slots: new_slots(alloc)?,
        })
    }

    /// Answers one event after another, behind no answer yet, until memory is wanting. `Memory` comes for want of
    /// memory alone; then the event behind the last answer has not come to pass.
    pub fn run(
        &mut self,
        alloc: Global,
        events: &[Event],
        answers: &mut Vec<Answer>,
    ) -> Result<(), Memory>
        requires known { (s : State) × Stands self.old s }
        requires range { All (InRange (length self.old.nodes.items)) events.now }
        requires empty { answers.old.items ≡ [] }
        requires room { length events.now ≤ vec_capacity answers.old }
        ensures ran { (s : State) → Stands self.old s
            → RunsTo s (take (length answers.new.items) events.now) answers.new.items (Stands self.new) }
        ensures all { OnOk result (length answers.new.items ≡ length events.now) }
        ensures some { length answers.new.items ≤ length events.now }
        ensures nodes { length self.new.nodes.items ≡ length self.old.nodes.items }
    {
        for event in events {
            let answer = self.step(alloc, event)?;
            answers.push_reserved(answer);
        }
        Ok(())
    }

    // Answers an event. `Memory` comes for want of memory alone, and then nothing has come to pass.
    fn step(&mut self, alloc: Global, event: &Event) -> Result<Answer, Memory>
        requires known { (s : State) × Stands self.old s }
        requires range { InRange (length self.old.nodes.items) event.now }
        ensures steps { (s : State) → Stands self.old s → StepsTo s event.now result (Stands self.new) }
        ensures nodes { length self.new.nodes.items ≡ length self.old.nodes.items }
    {
        match event {
            Event::Load { at, bytes } => self.load(alloc, *at, bytes),
            Event::Begin { t } => Ok(self.begin(alloc, *t)),
            Event::Read { t, .. } => self.advance(alloc, *t, event),
            Event::Alloc { t, .. } => self.advance(alloc, *t, event),
            Event::Lock { t, .. } => self.advance(alloc, *t, event),
            Event::Draw { t } => self.advance(alloc, *t, event),
            Event::Check { t, .. } => self.advance(alloc, *t, event),
            Event::Put { t, .. } => self.advance(alloc, *t, event),
            Event::Unlock { t, .. } => self.advance(alloc, *t, event),
            Event::Shut { t } => Ok(self.shut(*t)),
            Event::Collect { node } => Ok(self.collect(*node)),
        }
    }

    // Answers an event of an open transaction, but its end.
    fn advance(
        &mut self,
        alloc: Global,
        transaction: TxnId,
        event: &Event,
    ) -> Result<Answer, Memory>
        requires known { (s : State) × Stands self.old s × IsOf transaction event.now }
        requires range { InRange (length self.old.nodes.items) event.now }
        ensures steps { (s : State) → Stands self.old s → StepsTo s event.now result (Stands self.new) }
        ensures nodes { length self.new.nodes.items ≡ length self.old.nodes.items }
    {
        self.slots[transaction.actor as usize].advance(
            &mut self.nodes,
            &mut self.clock,
            alloc,
            transaction,
            event,
        )
    }

    // A transaction takes its snapshot.
    fn begin(&mut self, alloc: Global, transaction: TxnId) -> Answer
        requires actor { IsActor transaction }
        requires known { (s : State) × Stands self.old s }
        ensures steps { (s : State) → Stands self.old s
            → StepsTo s (event.Begin transaction) (Ok result) (Stands self.new) }
        ensures nodes { length self.new.nodes.items ≡ length self.old.nodes.items }
    {
        let actor = transaction.actor as usize;
        if !self.slots[actor].may_begin(transaction.number) {
            return Answer::No;
        }
        let active = Active::begun(alloc, self.clock);
        self.slots[actor] = Slot {
            begins: transaction.number,
            open: Some(active),
        };
        open_all(&mut self.nodes, transaction.actor, self.clock);
        self.loading = false;
        Answer::At { stamp: self.clock }
    }

    // A transaction ends.
    fn shut(&mut self, transaction: TxnId) -> Answer
        requires actor { IsActor transaction }
        requires known { (s : State) × Stands self.old s }
        ensures steps { (s : State) → Stands self.old s
            → StepsTo s (event.Shut transaction) (Ok result) (Stands self.new) }
        ensures nodes { length self.new.nodes.items ≡ length self.old.nodes.items }
    {
        let actor = transaction.actor as usize;
        if !self.slots[actor].shut(&self.nodes, transaction) {
            return Answer::No;
        }
        shut_all(&mut self.nodes, transaction.actor);
        Answer::Shut
    }

    // A node is collected, with the clock as the proposal.
    fn collect(&mut self, node: u32) -> Answer
        requires node { node < length self.old.nodes.items }
        requires known { (s : State) × Stands self.old s }
        ensures steps { (s : State) → Stands self.old s → StepsTo s (event.Collect node) (Ok result) (Stands self.new) }
        ensures nodes { length self.new.nodes.items ≡ length self.old.nodes.items }
    {
        let removed = self.nodes[node as usize].collect(self.clock);
        self.loading = false;
        Answer::Collected {
            floor: removed.floor,
            versions: removed.versions,
            objects: removed.objects,
        }
    }

    // An object is there from the start.
    fn load(&mut self, alloc: Global, at: Addr, bytes: &Bin) -> Result<Answer, Memory>
        requires addr { IsAddr (length self.old.nodes.items) at }
        requires known { (s : State) × Stands self.old s }
        ensures steps { (s : State) → Stands self.old s → IsObject bytes.now
            → StepsTo s (event.Load at bytes.now) result (Stands self.new) }
        ensures nodes { length self.new.nodes.items ≡ length self.old.nodes.items }
    {
        if !self.loading {
            return Ok(Answer::No);
        }
        let node = home(at, self.nodes.len());
        if self.nodes[node].has_object(at) {
            return Ok(Answer::No);
        }
        let bytes = Bin::from_slice(alloc, bytes.as_slice())?;
        match self.nodes[node].load_one(alloc, at, bytes) {
            Ok(()) => Ok(Answer::Loaded),
            Err(memory) => Err(memory),
        }
    }
}

// The nodes, without objects.
fn new_nodes(alloc: Global, count: u32) -> Result<Vec<Node>, Memory>
    requires { count ≤ NODE_LIMIT }
    ensures { IfOk result (λ nodes. NodesStand nodes.items count (fresh count).logs) }
{
    let mut nodes = Vec::with_capacity(alloc, count as usize)?;
    for number in 0..count {
        let node = Node::new(alloc, number, count, ACTOR_LIMIT, OPENING_STAMP)?;
        nodes.push_reserved(node);
    }
    Ok(nodes)
}

// A slot for each actor, before its first begin.
fn new_slots(alloc: Global) -> Result<Vec<Slot>, Memory>
    ensures { IfOk result (λ slots. AreNew slots.items) }
{
    let mut slots = Vec::with_capacity(alloc, ACTOR_LIMIT as usize + 1)?;
    for _ in 0..ACTOR_LIMIT + 1 {
        slots.push_reserved(Slot {
            begins: 0,
            open: None,
        });
    }
    Ok(slots)
}

// Pins each node for an actor at the stamp, which is at least each floor.
fn open_all(nodes: &mut [Node], actor: u32, stamp: u64)
    requires actor { (0 < actor) × IsStamp stamp }
    requires free { (n : ℕ) → n < length nodes.old → (actor ≤ (plains nodes.old n).actors)
        × ((plains nodes.old n).pins actor ≡ None) }
    ensures { AddsEach (λ p. entry.Open actor stamp (max stamp p.floor)) nodes.old nodes.new }
{
    for node in nodes.iter_mut() {
        node.open(actor, stamp);
    }
}

// Takes an actor's pin away from each node.
fn shut_all(nodes: &mut [Node], actor: u32)
    requires { (n : ℕ) → n < length nodes.old → (x : ℕ) × ((plains nodes.old n).pins actor ≡ Some x) }
    ensures { AddsEach (λ p. entry.Shut actor) nodes.old nodes.new }
{
    for node in nodes.iter_mut() {
        node.shut(actor);
    }
}
