//! The core: the machine of events, as it runs.
ghost use Rattle.std.specs.Prelude.{◌≡◌, ◌<◌, ◌≤◌, ℕ, IfOk, OnErr, OnOk, All, length};
ghost use Rattle.a1_base.specs.declared.limits.TheConstants.{NODE_LIMIT};
ghost use Rattle.farm_core.specs.Machine.{State, InRange, Runs, fresh};
ghost use Rattle.farm_core.specs.Cores.{CoreStands, RanFront, node_count, counted_on};

use crate::event::{Answer, Event};
use crate::farm::Farm;
use a1_base::Memory;
use std::alloc::Global;
use std::marker::Model;

/// The core of the farm: its nodes, its clock and its transactions, driven by events.
#[derive(Drop)]
pub struct Core {
    farm: Farm,
    done: u64,
}

impl Model for Core {
    ghost use Rattle.farm_core.specs.Machine.{State};
    ghost use Rattle.farm_core.specs.Farms.{Stands};
    ghost use Rattle.std.specs.Coded.{codes};
    ghost use Rattle.farm_core.specs.contracts.farm.Farm.{the_row};
    ghost use Rattle.farm_core.specs.Cores.{Shown};

    ghost Value = { Shown };

    ghost coded = { Prim.hlevel (codes, the_row.coded) };

    ghost view = { λ core. record { farm = core.farm; done = core.done } };

    ghost invariant = { λ core. (s : State) × Stands core.farm s };
}

impl Core {
    /// The core of 1 to 16 nodes, before any event. `Memory` comes for want of memory alone.
    pub fn new(alloc: Global, nodes: u32) -> Result<Core, Memory>
        requires some { 0 < nodes }
        requires few { nodes ≤ NODE_LIMIT }
        ensures stands { IfOk result (λ core. CoreStands core (fresh nodes)) }
        ensures nodes { IfOk result (λ core. node_count core ≡ nodes) }
        ensures done { IfOk result (λ core. core.done ≡ 0) }
    {
        let farm = Farm::new(alloc, nodes)?;
        Ok(Core { farm, done: 0 })
    }

    /// Answers events, one after another. `Memory` comes for want of memory alone; then `done` says how many of the
    /// events, from the first, were answered, and nothing more has come to pass.
    pub fn run(&mut self, alloc: Global, events: &[Event]) -> Result<Vec<Answer>, Memory>
        requires { All (InRange (node_count self.old)) events.now }
        ensures ok { (s : State) → CoreStands self.old s → IfOk result (λ answers.
            (later : State) × Runs s events.now answers.items later × CoreStands self.new later) }
        ensures done { OnOk result (self.new.done ≡ counted_on self.old.done (length events.now)) }
        ensures err { (s : State) → CoreStands self.old s → OnErr result (RanFront s events.now self.old self.new) }
        ensures nodes { node_count self.new ≡ node_count self.old }
    {
        let done = self.done;
        let mut answers = Vec::with_capacity(alloc, events.len())?;
        let ended = self.farm.run(alloc, events, &mut answers);
        self.done = done.saturating_add(answers.len() as u64);
        ended?;
        Ok(answers)
    }

    /// How many events it has answered; the count stands still at 2^64 - 1.
    pub fn done(&self) -> u64
        ensures { result ≡ self.now.done }
    {
        self.done
    }
}
