//! What an open transaction reads, makes and writes.
ghost use Rattle.std.specs.Prelude.{◌≡◌, ◌<◌, ◌++◌, ◌∷◌, [], true, Some, None, Err, IfOk, IsSome, OnErr, OnOk, slice_get};
ghost use Rattle.farm_node.specs.NodeState.{occupancy, replay};
ghost use Rattle.object_region.specs.Occupancy.{IsSpent};
ghost use Rattle.write_set.specs.Writes.{Overwrites};
ghost use Rattle.transaction_part.specs.declared.part.Part.{Part};
ghost use Rattle.transaction_part.specs.Part.{MayWrite, log};
ghost use Rattle.farm_commit.specs.Commits.{PutsNone};
ghost use Rattle.farm_commit.specs.Farms.{IsOpenOf, id_of};
ghost use Rattle.farm_commit.specs.Nodes.{home};
ghost use Rattle.farm_commit.specs.Parts.{EachStep};
ghost use Rattle.farm_commit.specs.Views.{MayWriteAt, ReadTells, Rewrites, SameTxn, overlay, rows};

use crate::actor::Open;
use crate::farm::Farm;
use a1_base::{Addr, Bin, Memory, TxnId};
use farm_node::{Found, PlaceFault};
use std::alloc::Global;
use std::snapshot::Snapshot;
use std::sync::Wait;
use transaction_part::Seen;

// The node of an address.
fn home_of(at: Addr, nodes: u32) -> usize
    requires { 0 < nodes }
    ensures { result ≡ home nodes at }
{
    (at.region % nodes) as usize
}

// A copy of what will be written, with the stamp 0.
fn own_value(alloc: Global, value: &Option<Bin>) -> Result<Found, Memory>
    ensures { IfOk result (λ found. (found.stamp ≡ 0) × (found.value ≡ value.now)) }
{
    match value {
        None => Ok(Found {
            stamp: 0,
            value: None,
        }),
        Some(bytes) => {
            let copy = Bin::from_slice(alloc, bytes.as_slice())?;
            Ok(Found {
                stamp: 0,
                value: Some(copy),
            })
        }
    }
}

impl Farm {
    /// Reads an address: what the transaction will write there, with the stamp 0, and then nothing is noted; else what
    /// stands at its read stamp, absent with the stamp 0 where nothing does. It waits for its turn, and while another
    /// transaction holds the address. `Memory` comes for want of memory alone.
    pub fn read<R: Wait>(
        &self,
        rt: &R,
        alloc: Global,
        txn: &mut Open,
        at: Addr,
    ) -> Result<Found, Memory>
        requires txn { IsOpenOf self.now txn.old }
        ensures txn { IsOpenOf self.now txn.new }
        ensures tells { IfOk result (ReadTells (overlay self.now.nodes (rows txn.old.parts.items) at) at
            txn.old.reads.items txn.new.reads.items) }
        ensures err { OnErr result (txn.new.reads.items ≡ txn.old.reads.items) }
        ensures may { IfOk result (λ found. IsSome found.value → MayWriteAt self.now txn.new at) }
        ensures writes { rows txn.new.parts.items ≡ rows txn.old.parts.items }
        ensures same { SameTxn txn.old txn.new }
        ensures puts { EachStep self.now.locks.items (PutsNone txn.old.number) txn.old.parts.items txn.new.parts.items }
    {
        let node = home_of(at, self.nodes);
        match txn.parts[node].writes.index_of(at) {
            Some(index) => own_value(alloc, &txn.parts[node].writes.get(index).value),
            None => self.read_fresh(rt, alloc, txn, node, at),
        }
    }

    // Reads an address that the transaction does not write.
    fn read_fresh<R: Wait>(
        &self,
        rt: &R,
        alloc: Global,
        txn: &mut Open,
        node: usize,
        at: Addr,
    ) -> Result<Found, Memory>
        requires txn { IsOpenOf self.now txn.old }
        requires node { node ≡ home self.now.nodes at }
        requires away { overlay self.now.nodes (rows txn.old.parts.items) at ≡ None }
        ensures txn { IsOpenOf self.now txn.new }
        ensures tells { IfOk result (ReadTells None at txn.old.reads.items txn.new.reads.items) }
        ensures err { OnErr result (txn.new.reads.items ≡ txn.old.reads.items) }
        ensures may { IfOk result (λ found. IsSome found.value → MayWriteAt self.now txn.new at) }
        ensures writes { rows txn.new.parts.items ≡ rows txn.old.parts.items }
        ensures same { SameTxn txn.old txn.new }
        ensures puts { EachStep self.now.locks.items (PutsNone txn.old.number) txn.old.parts.items txn.new.parts.items }
    {
        if txn.reads.reserve(1).is_err() {
            return Err(Memory);
        }
        let t = TxnId {
            actor: txn.number,
            number: txn.begun,
        };
        match txn.parts[node].read(rt, alloc, &self.locks[node], t, txn.read_stamp, at) {
            Ok(found) => {
                let told = Snapshot::of(&found);
                txn.reads.push_reserved(Seen { at, found: told });
                Ok(found)
            }
            Err(memory) => Err(memory),
        }
    }

    /// Makes an object of a node below `nodes()` for the transaction, with these bytes, and answers its address, which
    /// the transaction did not write before. It waits for its turn. `Spent` comes exactly where all places of the node
    /// are taken, `Memory` for want of memory alone; after either nothing more is written.
    pub fn alloc<R: Wait>(
        &self,
        rt: &R,
        alloc: Global,
        txn: &mut Open,
        node: u32,
        bytes: Bin,
    ) -> Result<Addr, PlaceFault>
        requires txn { IsOpenOf self.now txn.old }
        requires node { node < self.now.nodes }
        ensures txn { IsOpenOf self.now txn.new }
        ensures fresh { IfOk result (λ at. (home self.now.nodes at ≡ node)
            × (overlay self.now.nodes (rows txn.old.parts.items) at ≡ None)) }
        ensures ok { IfOk result (λ at. Rewrites node
            (λ old new. new ≡ old ++ record { at = at; value = Some bytes; made = true } ∷ [])
            (rows txn.old.parts.items) (rows txn.new.parts.items)) }
        ensures err { OnErr result (rows txn.new.parts.items ≡ rows txn.old.parts.items) }
        ensures spent { result ≡ Err PlaceFault.Spent → (p : Part) → slice_get txn.new.parts.items node ≡ Some p
            → IsSpent (occupancy (replay (log p))) }
        ensures reads { txn.new.reads ≡ txn.old.reads }
        ensures same { SameTxn txn.old txn.new }
        ensures puts { EachStep self.now.locks.items (PutsNone txn.old.number) txn.old.parts.items txn.new.parts.items }
    {
        let t = TxnId {
            actor: txn.number,
            number: txn.begun,
        };
        let index = node as usize;
        txn.parts[index].alloc(rt, alloc, &self.locks[index], t, txn.read_stamp, bytes)
    }

    /// Writes an object anew, none for an object that goes: the transaction wrote it before, or read bytes there.
    /// `Memory` comes for want of memory alone, and leaves the writes as they were.
    pub fn write(&self, txn: &mut Open, at: Addr, value: Option<Bin>) -> Result<(), Memory>
        requires txn { IsOpenOf self.now txn.old }
        requires may { MayWriteAt self.now txn.old at }
        ensures txn { IsOpenOf self.now txn.new }
        ensures ok { OnOk result (Rewrites (home self.now.nodes at) (Overwrites at value)
            (rows txn.old.parts.items) (rows txn.new.parts.items)) }
        ensures err { OnErr result (rows txn.new.parts.items ≡ rows txn.old.parts.items) }
        ensures reads { txn.new.reads ≡ txn.old.reads }
        ensures same { SameTxn txn.old txn.new }
        ensures puts { EachStep self.now.locks.items (PutsNone txn.old.number) txn.old.parts.items txn.new.parts.items }
    {
        let node = home_of(at, self.nodes);
        let t = TxnId {
            actor: txn.number,
            number: txn.begun,
        };
        txn.parts[node].write(&self.locks[node], t, txn.read_stamp, at, value)
    }
}
