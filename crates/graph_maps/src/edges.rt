//! The edges, which are also found from the vertices at their ends.
ghost use Rattle.std.specs.Prelude.{◌≡◌, [], Bool, true, false, ◌&&◌, IfOk, OnOk, OnErr, Decides, option_map, filter, map};
ghost use Rattle.std.specs.List.{list_any};
ghost use Rattle.std.specs.List.Sorted.{IsStrictlySortedBy};
ghost use Rattle.std.specs.Ordering.{is_eq};
ghost use Rattle.a1_base.specs.Maps.{at, has, with_entry, without, IsOrdered};
ghost use Rattle.type_schema.specs.Graph.{type_order, vertex_order, edge_order, near};
ghost use Rattle.type_schema.specs.declared.names.EdgeName.{EdgeName as Name};
ghost use Rattle.type_schema.specs.Schemas.{Record as Values};
ghost use Rattle.graph_maps.specs.declared.half.Half.{Half as Seen};
ghost use Rattle.graph_maps.specs.Halves.{half_order, seen_edges, touches};

use crate::half::Half;
use crate::part::Part;
use crate::parts::{HalvesAt, HalvesOfType};
use crate::places::Places;
use a1_base::Memory;
use std::alloc::Global;
use std::collections::BTreeSet;
use std::marker::Model;
use type_schema::{EdgeName, Record, TypeName, VertexName};

/// The edges with their records, as they stand and as they stood when they were last kept.
#[derive(Drop)]
pub struct Edges {
    named: Places<EdgeName, Record>,
    // Each edge as both its ends see it. Here may be edges that are gone.
    halves: Places<Half, ()>,
}

impl Model for Edges {
    ghost use Rattle.type_schema.specs.declared.names.EdgeName.{EdgeName};
    ghost use Rattle.type_schema.specs.Schemas.{Record};
    ghost use Rattle.graph_maps.specs.Places.{Kept};
    ghost use Rattle.graph_maps.specs.Halves.{AreSeen};

    ghost Value = { Kept EdgeName Record };

    ghost view = { λ e. e.named };

    ghost invariant = { λ e. AreSeen e.named.now e.halves.now × AreSeen e.named.was e.halves.was };
}

// The edges of a part that are there.
fn standing<'a, P: Part<Half>>(
    alloc: Global,
    named: &'a Places<EdgeName, Record>,
    halves: &'a Places<Half, ()>,
    part: &P,
) -> Result<Vec<(&'a EdgeName, &'a Record)>, Memory>
    ensures rows { IfOk result (λ rows. map (λ e. (e.0.now, e.1.now)) rows.items
        ≡ seen_edges named.now.now (filter (λ h. P.has part.now h.0) halves.now.now)) }
    ensures ordered { IsOrdered edge_order named.now.now × IsOrdered half_order halves.now.now }
{
    named.ordered();
    halves.ordered();
    let seen = halves.part(alloc, part)?;
    let mut rows = Vec::new(alloc);
    for (half, _) in &seen {
        if let Some(values) = named.get(&half.edge) {
            rows.reserve(1)?;
            rows.push_reserved((&half.edge, values));
        }
    }
    Ok(rows)
}

// The names of these edges, each once.
fn names_of(alloc: Global, rows: &[(&EdgeName, &Record)]) -> Result<BTreeSet<EdgeName>, Memory>
    ensures { IfOk result (λ names. (e : Name) → list_any (λ k. is_eq (edge_order e k)) names.keys
        ≡ list_any (λ (x : Name × Values). is_eq (edge_order e x.0)) (map (λ x. (x.0.now, x.1.now)) rows.now)) }
{
    let mut names = BTreeSet::new(alloc);
    for (name, _) in rows {
        names.insert(name.copy(alloc)?)?;
    }
    Ok(names)
}

// The names in their order.
fn listed(alloc: Global, names: BTreeSet<EdgeName>) -> Result<Vec<EdgeName>, Memory>
    ensures same { IfOk result (λ list. list.items ≡ names.keys) }
    ensures ordered { IsStrictlySortedBy edge_order names.keys }
{
    Ok(names.into_iter().collect(alloc)?)
}

// The edge as the vertex sees it that it leads from (`out`), or to.
fn half_of(alloc: Global, out: bool, name: &EdgeName) -> Result<Half, Memory>
    ensures { IfOk result (λ half. half ≡ (record { out = out; edge = name.now })) }
{
    Ok(Half {
        out,
        edge: name.copy(alloc)?,
    })
}

// Shows the edge to the vertex that it leads from (`out`), or to.
fn put_half(
    alloc: Global,
    halves: &mut Places<Half, ()>,
    out: bool,
    name: &EdgeName,
) -> Result<(), Memory>
    ensures this { OnOk result (has half_order (record { out = out; edge = name.now }) halves.new.now ≡ true) }
    ensures others { (h : Seen) → has half_order h halves.old.now ≡ true → has half_order h halves.new.now ≡ true }
    ensures was { halves.new.was ≡ halves.old.was }
{
    let half = half_of(alloc, out, name)?;
    let again = half_of(alloc, out, name)?;
    halves.put(half, again, ())?;
    Ok(())
}

// Shows the edge to both its vertices.
fn put_halves(alloc: Global, halves: &mut Places<Half, ()>, name: &EdgeName) -> Result<(), Memory>
    ensures both { OnOk result ((out : Bool)
        → has half_order (record { out = out; edge = name.now }) halves.new.now ≡ true) }
    ensures others { (h : Seen) → has half_order h halves.old.now ≡ true → has half_order h halves.new.now ≡ true }
    ensures was { halves.new.was ≡ halves.old.was }
{
    put_half(alloc, halves, true, name)?;
    put_half(alloc, halves, false, name)?;
    Ok(())
}

// Hides the edge from one of its vertices.
fn take_half(
    alloc: Global,
    halves: &mut Places<Half, ()>,
    out: bool,
    name: &EdgeName,
) -> Result<(), Memory>
    ensures others { (h : Seen) → is_eq (edge_order h.edge name.now) ≡ false
        → has half_order h halves.old.now ≡ true → has half_order h halves.new.now ≡ true }
    ensures was { halves.new.was ≡ halves.old.was }
{
    halves.take(half_of(alloc, out, name)?)?;
    Ok(())
}

impl Edges {
    /// No edges.
    pub fn new(alloc: Global) -> Edges
        ensures now { result.now ≡ [] }
        ensures was { result.was ≡ [] }
    {
        Edges {
            named: Places::new(alloc),
            halves: Places::new(alloc),
        }
    }

    /// The record of the edge.
    pub fn get(&self, name: &EdgeName) -> Option<&Record>
        ensures { option_map (λ x. x.now) result ≡ at edge_order name.now self.now.now }
    {
        self.named.get(name)
    }

    /// Puts the edge with this record. After `Memory`, which comes for want of memory alone, the edges are as before.
    pub fn put(&mut self, alloc: Global, name: EdgeName, values: Record) -> Result<(), Memory>
        ensures ok { OnOk result (self.new.now ≡ with_entry edge_order name values self.old.now) }
        ensures err { OnErr result (self.new.now ≡ self.old.now) }
        ensures was { self.new.was ≡ self.old.was }
    {
        put_halves(alloc, &mut self.halves, &name)?;
        let again = name.copy(alloc)?;
        self.named.put(name, again, values)?;
        Ok(())
    }

    /// Takes the edge out, if it is there. After `Memory`, which comes for want of memory alone, the edges are as
    /// before.
    pub fn take(&mut self, alloc: Global, name: EdgeName) -> Result<(), Memory>
        ensures ok { OnOk result (self.new.now ≡ without edge_order name self.old.now) }
        ensures err { OnErr result (self.new.now ≡ self.old.now) }
        ensures was { self.new.was ≡ self.old.was }
    {
        let again = name.copy(alloc)?;
        self.named.take(name)?;
        // A half that stays for want of memory is passed over.
        let _ = take_half(alloc, &mut self.halves, true, &again);
        let _ = take_half(alloc, &mut self.halves, false, &again);
        Ok(())
    }

    /// Keeps the edges as they stand: there is no way back from here. It needs no memory.
    pub fn keep(&mut self)
        ensures now { self.new.now ≡ self.old.now }
        ensures was { self.new.was ≡ self.old.now }
    {
        self.named.keep();
        self.halves.keep();
    }

    /// Goes back to the edges as they were last kept. It needs no memory.
    pub fn back(&mut self)
        ensures now { self.new.now ≡ self.old.was }
        ensures was { self.new.was ≡ self.old.was }
    {
        self.named.back();
        self.halves.back();
    }

    /// The edges, in the order of their names. `Memory` comes for want of memory alone.
    pub fn entries(&self, alloc: Global) -> Result<Vec<(&EdgeName, &Record)>, Memory>
        ensures { IfOk result (λ rows. map (λ e. (e.0.now, e.1.now)) rows.items ≡ self.now.now) }
    {
        self.named.entries(alloc)
    }

    /// The edges of a part, in the order of their names. `Memory` comes for want of memory alone.
    pub fn part<P: Part<EdgeName>>(
        &self,
        alloc: Global,
        part: &P,
    ) -> Result<Vec<(&EdgeName, &Record)>, Memory>
        ensures { IfOk result (λ rows. map (λ e. (e.0.now, e.1.now)) rows.items
            ≡ filter (λ e. P.has part.now e.0) self.now.now) }
    {
        self.named.part(alloc, part)
    }

    /// The edges are in the order of their names, and no name stands twice.
    pub fn ordered(&self)
        ensures { IsOrdered edge_order self.now.now }
    {
        self.named.ordered();
    }

    /// Whether both have the same edges.
    pub fn equal(&self, other: &Edges) -> bool
        ensures { Decides result (self.now.now ≡ other.now.now) }
    {
        self.named.equal(&other.named)
    }

    /// The edges that begin or end at the vertex, in the order of their names. It takes time in how many they are,
    /// times a logarithm in how many there are in all. `Memory` comes for want of memory alone.
    pub fn at_vertex(&self, alloc: Global, vertex: &VertexName) -> Result<Vec<EdgeName>, Memory>
        ensures { IfOk result (λ names. names.items
            ≡ map (λ e. e.0) (filter (λ e. touches vertex.now e.0) self.now.now)) }
    {
        let part = HalvesAt::new(alloc, vertex)?;
        let rows = standing(alloc, &self.named, &self.halves, &part)?;
        let names = names_of(alloc, &rows)?;
        let list = listed(alloc, names)?;
        Ok(list)
    }

    /// The edges of this type that begin at the vertex (`out`), or end there, in any order. It takes time in how many
    /// they are, times a logarithm in how many there are in all. `Memory` comes for want of memory alone.
    pub fn at(
        &self,
        alloc: Global,
        out: bool,
        kind: &TypeName,
        vertex: &VertexName,
    ) -> Result<Vec<(&EdgeName, &Record)>, Memory>
        ensures { IfOk result (λ rows. (test : Name × Values → Bool)
            → list_any test (map (λ e. (e.0.now, e.1.now)) rows.items)
            ≡ list_any (λ e. is_eq (vertex_order vertex.now (near out e.0))
            && (is_eq (type_order kind.now (record { graph = e.0.graph; name = e.0.kind })) && test e)) self.now.now) }
    {
        if kind.graph != vertex.graph {
            return Ok(Vec::new(alloc));
        }
        let part = HalvesOfType::new(alloc, out, &kind.name, vertex)?;
        let rows = standing(alloc, &self.named, &self.halves, &part)?;
        Ok(rows)
    }
}
