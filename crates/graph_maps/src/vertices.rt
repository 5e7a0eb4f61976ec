//! The vertices, whose keys are the first values of their records.
ghost use Rattle.std.specs.Prelude.{◌≡◌, [], IfOk, OnOk, OnErr, Decides, option_map, filter, map};
ghost use Rattle.a1_base.specs.Maps.{at, with_entry, without, IsOrdered};
ghost use Rattle.type_schema.specs.Graph.{vertex_order};
ghost use Rattle.type_schema.specs.Schemas.{key_of};
ghost use Rattle.graph_maps.specs.Vertices.{AreKeyed};

use crate::part::Part;
use crate::places::Places;
use a1_base::Memory;
use std::alloc::Global;
use std::marker::Model;
use type_schema::{Record, VertexName};

/// The vertices with their records, as they stand and as they stood when they were last kept.
#[derive(Drop)]
pub struct Vertices {
    named: Places<VertexName, Record>,
}

impl Model for Vertices {
    ghost use Rattle.type_schema.specs.declared.names.VertexName.{VertexName};
    ghost use Rattle.type_schema.specs.Schemas.{Record};
    ghost use Rattle.graph_maps.specs.Places.{Kept};
    ghost use Rattle.graph_maps.specs.Vertices.{AreKeyed};

    ghost Value = { Kept VertexName Record };

    ghost view = { λ v. v.named };

    ghost invariant = { λ v. AreKeyed v.named.now × AreKeyed v.named.was };
}

impl Vertices {
    /// No vertices.
    pub fn new(alloc: Global) -> Vertices
        ensures now { result.now ≡ [] }
        ensures was { result.was ≡ [] }
    {
        Vertices {
            named: Places::new(alloc),
        }
    }

    /// The record of the vertex.
    pub fn get(&self, name: &VertexName) -> Option<&Record>
        ensures { option_map (λ x. x.now) result ≡ at vertex_order name.now self.now.now }
    {
        self.named.get(name)
    }

    /// Puts the vertex with this record, which has its key first; the name is given twice. After `Memory`, which comes
    /// for want of memory alone, the vertices are as before.
    pub fn put(&mut self, name: VertexName, again: VertexName, values: Record) -> Result<(), Memory>
        requires same { again ≡ name }
        requires keyed { key_of values ≡ name.key }
        ensures ok { OnOk result (self.new.now ≡ with_entry vertex_order name values self.old.now) }
        ensures err { OnErr result (self.new.now ≡ self.old.now) }
        ensures was { self.new.was ≡ self.old.was }
    {
        self.named.put(name, again, values)?;
        Ok(())
    }

    /// Takes the vertex out, if it is there. After `Memory`, which comes for want of memory alone, the vertices are as
    /// before.
    pub fn take(&mut self, name: VertexName) -> Result<(), Memory>
        ensures ok { OnOk result (self.new.now ≡ without vertex_order name self.old.now) }
        ensures err { OnErr result (self.new.now ≡ self.old.now) }
        ensures was { self.new.was ≡ self.old.was }
    {
        self.named.take(name)?;
        Ok(())
    }

    /// Keeps the vertices as they stand: there is no way back from here. It needs no memory.
    pub fn keep(&mut self)
        ensures now { self.new.now ≡ self.old.now }
        ensures was { self.new.was ≡ self.old.now }
    {
        self.named.keep();
    }

    /// Goes back to the vertices as they were last kept. It needs no memory.
    pub fn back(&mut self)
        ensures now { self.new.now ≡ self.old.was }
        ensures was { self.new.was ≡ self.old.was }
    {
        self.named.back();
    }

    /// The vertices, in the order of their names. `Memory` comes for want of memory alone.
    pub fn entries(&self, alloc: Global) -> Result<Vec<(&VertexName, &Record)>, Memory>
        ensures { IfOk result (λ rows. map (λ e. (e.0.now, e.1.now)) rows.items ≡ self.now.now) }
    {
        self.named.entries(alloc)
    }

    /// The vertices of a part, in the order of their names. `Memory` comes for want of memory alone.
    pub fn part<P: Part<VertexName>>(
        &self,
        alloc: Global,
        part: &P,
    ) -> Result<Vec<(&VertexName, &Record)>, Memory>
        ensures { IfOk result (λ rows. map (λ e. (e.0.now, e.1.now)) rows.items
            ≡ filter (λ e. P.has part.now e.0) self.now.now) }
    {
        self.named.part(alloc, part)
    }

    /// The vertices are in the order of their names, and no name stands twice.
    pub fn ordered(&self)
        ensures { IsOrdered vertex_order self.now.now }
    {
        self.named.ordered();
    }

    /// Each vertex's record has its key first.
    pub fn keyed(&self)
        ensures { AreKeyed self.now.now }
    {
        let _named = &self.named;
    }

    /// Whether both have the same vertices.
    pub fn equal(&self, other: &Vertices) -> bool
        ensures { Decides result (self.now.now ≡ other.now.now) }
    {
        self.named.equal(&other.named)
    }
}
