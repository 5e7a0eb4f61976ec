//! The parts of a graph's maps: what belongs to a graph, a type or a vertex.
ghost use Rattle.std.specs.Prelude.{◌≡◌, Bool, nat_eq, IfOk};
ghost use Rattle.std.specs.Ordering.{is_eq};
ghost use Rattle.type_schema.specs.Graph.{type_order, vertex_order};
ghost use Rattle.graph_maps.specs.Halves.{near_end, front_order};
ghost use Rattle.graph_maps.specs.Parts.{first_type, first_vertex, first_edge, first_half};
ghost use Rattle.graph_maps.specs.PartLaws.{types_first, types_hang, vertices_first, vertices_hang, of_type_first, of_type_hang, edges_first, edges_hang, at_first, at_hangs, toward_first, toward_hangs};

use crate::half::{Half, compare_fronts, compare_near};
use crate::part::Part;
use a1_base::{Memory, Txt};
use a1_value::Value;
use std::alloc::Global;
use std::marker::Model;
use type_schema::{EdgeName, TypeName, VertexName};

// ---- the least keys

// The least key of a type.
fn first_vertex(alloc: Global, of: &TypeName) -> Result<VertexName, Memory>
    ensures { IfOk result (λ v. v ≡ first_vertex of.now) }
{
    Ok(VertexName {
        graph: of.graph,
        kind: of.name.copy(alloc)?,
        key: Value::Int(i64::MIN),
    })
}

fn first_type(alloc: Global, graph: u64) -> Result<TypeName, Memory>
    ensures { IfOk result (λ t. t ≡ first_type graph) }
{
    Ok(TypeName {
        graph,
        name: Txt::from_text(alloc, "")?,
    })
}

fn first_edge(alloc: Global, graph: u64) -> Result<EdgeName, Memory>
    ensures { IfOk result (λ e. e ≡ first_edge graph) }
{
    Ok(EdgeName {
        graph,
        kind: Txt::from_text(alloc, "")?,
        from_kind: Txt::from_text(alloc, "")?,
        from: Value::Int(i64::MIN),
        to_kind: Txt::from_text(alloc, "")?,
        to: Value::Int(i64::MIN),
    })
}

// The first edge of a type that leads from the vertex (`out`), or to it.
fn first_half(alloc: Global, out: bool, kind: Txt, vertex: &VertexName) -> Result<Half, Memory>
    ensures { IfOk result (λ h. h ≡ first_half out kind vertex.now) }
{
    let graph = vertex.graph;
    let near_kind = vertex.kind.copy(alloc)?;
    let near = vertex.key.copy(alloc)?;
    let far_kind = Txt::from_text(alloc, "")?;
    let far = Value::Int(i64::MIN);
    let edge = if out {
        EdgeName {
            graph,
            kind,
            from_kind: near_kind,
            from: near,
            to_kind: far_kind,
            to: far,
        }
    } else {
        EdgeName {
            graph,
            kind,
            from_kind: far_kind,
            from: far,
            to_kind: near_kind,
            to: near,
        }
    };
    Ok(Half { out, edge })
}

// ---- of a graph

/// The types of the graph of a number.
#[derive(Drop)]
pub struct TypesOf {
    first: TypeName,
}

impl Model for TypesOf {
    ghost use Rattle.std.specs.Prelude.{◌≡◌, ℕ};
    ghost use Rattle.graph_maps.specs.Parts.{first_type};

    ghost Value = { ℕ };

    ghost view = { λ p. p.first.graph };

    ghost invariant = { λ p. p.first ≡ first_type p.first.graph };
}

impl TypesOf {
    /// The types of this graph. `Memory` comes for want of memory alone.
    pub fn new(alloc: Global, graph: u64) -> Result<TypesOf, Memory>
        ensures { IfOk result (λ part. part ≡ graph) }
    {
        Ok(TypesOf {
            first: first_type(alloc, graph)?,
        })
    }
}

impl Part<TypeName> for TypesOf {
    ghost start = { first_type };

    ghost has = { λ graph t. nat_eq t.graph graph };

    fn start(&self) -> &TypeName {
        &self.first
    }

    fn has(&self, key: &TypeName) -> bool {
        key.graph == self.first.graph
    }

    ghost first = { λ graph t _. types_first graph t };

    ghost hangs_together = { types_hang };
}

/// The vertices of the graph of a number.
#[derive(Drop)]
pub struct VerticesOf {
    first: VertexName,
}

impl Model for VerticesOf {
    ghost use Rattle.std.specs.Prelude.{◌≡◌, ℕ};
    ghost use Rattle.graph_maps.specs.Parts.{first_type, first_vertex};

    ghost Value = { ℕ };

    ghost view = { λ p. p.first.graph };

    ghost invariant = { λ p. p.first ≡ first_vertex (first_type p.first.graph) };
}

impl VerticesOf {
    /// The vertices of this graph. `Memory` comes for want of memory alone.
    pub fn new(alloc: Global, graph: u64) -> Result<VerticesOf, Memory>
        ensures { IfOk result (λ part. part ≡ graph) }
    {
        let of = first_type(alloc, graph)?;
        Ok(VerticesOf {
            first: first_vertex(alloc, &of)?,
        })
    }
}

impl Part<VertexName> for VerticesOf {
    ghost start = { λ graph. first_vertex (first_type graph) };

    ghost has = { λ graph v. nat_eq v.graph graph };

    fn start(&self) -> &VertexName {
        &self.first
    }

    fn has(&self, key: &VertexName) -> bool {
        key.graph == self.first.graph
    }

    ghost first = { vertices_first };

    ghost hangs_together = { vertices_hang };
}

/// The edges of the graph of a number.
#[derive(Drop)]
pub struct EdgesOf {
    first: EdgeName,
}

impl Model for EdgesOf {
    ghost use Rattle.std.specs.Prelude.{◌≡◌, ℕ};
    ghost use Rattle.graph_maps.specs.Parts.{first_edge};

    ghost Value = { ℕ };

    ghost view = { λ p. p.first.graph };

    ghost invariant = { λ p. p.first ≡ first_edge p.first.graph };
}

impl EdgesOf {
    /// The edges of this graph. `Memory` comes for want of memory alone.
    pub fn new(alloc: Global, graph: u64) -> Result<EdgesOf, Memory>
        ensures { IfOk result (λ part. part ≡ graph) }
    {
        Ok(EdgesOf {
            first: first_edge(alloc, graph)?,
        })
    }
}

impl Part<EdgeName> for EdgesOf {
    ghost start = { first_edge };

    ghost has = { λ graph e. nat_eq e.graph graph };

    fn start(&self) -> &EdgeName {
        &self.first
    }

    fn has(&self, key: &EdgeName) -> bool {
        key.graph == self.first.graph
    }

    ghost first = { edges_first };

    ghost hangs_together = { edges_hang };
}

// ---- of a type

/// The vertices of a type.
#[derive(Drop)]
pub struct VerticesOfType {
    first: VertexName,
}

impl Model for VerticesOfType {
    ghost use Rattle.std.specs.Prelude.{◌≡◌};
    ghost use Rattle.type_schema.specs.declared.names.TypeName.{TypeName};
    ghost use Rattle.graph_maps.specs.Parts.{first_vertex};

    ghost Value = { TypeName };

    ghost view = { λ p. record { graph = p.first.graph; name = p.first.kind } };

    ghost invariant = { λ p. p.first ≡ first_vertex (record { graph = p.first.graph; name = p.first.kind }) };
}

impl VerticesOfType {
    /// The vertices of this type. `Memory` comes for want of memory alone.
    pub fn new(alloc: Global, of: &TypeName) -> Result<VerticesOfType, Memory>
        ensures { IfOk result (λ part. part ≡ of.now) }
    {
        Ok(VerticesOfType {
            first: first_vertex(alloc, of)?,
        })
    }
}

impl Part<VertexName> for VerticesOfType {
    ghost start = { first_vertex };

    ghost has = { λ of v. is_eq (type_order of (record { graph = v.graph; name = v.kind })) };

    fn start(&self) -> &VertexName {
        &self.first
    }

    fn has(&self, key: &VertexName) -> bool {
        self.first
            .graph
            .cmp(&key.graph)
            .then(self.first.kind.cmp(&key.kind))
            .is_eq()
    }

    ghost first = { of_type_first };

    ghost hangs_together = { of_type_hang };
}

// ---- of a vertex

/// The edges that a vertex sees.
#[derive(Drop)]
pub struct HalvesAt {
    first: Half,
}

impl Model for HalvesAt {
    ghost use Rattle.std.specs.Prelude.{◌≡◌, false, []};
    ghost use Rattle.type_schema.specs.declared.names.VertexName.{VertexName};
    ghost use Rattle.graph_maps.specs.Halves.{near_end};
    ghost use Rattle.graph_maps.specs.Parts.{first_half};

    ghost Value = { VertexName };

    ghost view = { λ p. near_end p.first };

    ghost invariant = { λ p. p.first ≡ first_half false [] (near_end p.first) };
}

impl HalvesAt {
    /// The edges at this vertex. `Memory` comes for want of memory alone.
    pub fn new(alloc: Global, vertex: &VertexName) -> Result<HalvesAt, Memory>
        ensures { IfOk result (λ part. part ≡ vertex.now) }
    {
        let kind = Txt::from_text(alloc, "")?;
        Ok(HalvesAt {
            first: first_half(alloc, false, kind, vertex)?,
        })
    }
}

impl Part<Half> for HalvesAt {
    ghost use Rattle.std.specs.Prelude.{false, []};

    ghost start = { first_half false [] };

    ghost has = { λ v h. is_eq (vertex_order v (near_end h)) };

    fn start(&self) -> &Half {
        &self.first
    }

    fn has(&self, key: &Half) -> bool {
        compare_near(&self.first, key).is_eq()
    }

    ghost first = { at_first };

    ghost hangs_together = { at_hangs };
}

/// The edges of a type that lead from a vertex, or to it.
#[derive(Drop)]
pub struct HalvesOfType {
    first: Half,
}

impl Model for HalvesOfType {
    ghost use Rattle.std.specs.Prelude.{◌≡◌, ℕ, List, Bool};
    ghost use Rattle.type_schema.specs.declared.names.VertexName.{VertexName};
    ghost use Rattle.graph_maps.specs.Halves.{near_end};
    ghost use Rattle.graph_maps.specs.Parts.{first_half};

    ghost Value = { Bool × List ℕ × VertexName };

    ghost view = { λ p. (p.first.out, p.first.edge.kind, near_end p.first) };

    ghost invariant = { λ p. p.first ≡ first_half p.first.out p.first.edge.kind (near_end p.first) };
}

impl HalvesOfType {
    /// The edges of this type that lead from this vertex (`out`), or to it. `Memory` comes for want of memory alone.
    pub fn new(
        alloc: Global,
        out: bool,
        kind: &Txt,
        vertex: &VertexName,
    ) -> Result<HalvesOfType, Memory>
        ensures { IfOk result (λ part. part ≡ (out, kind.now, vertex.now)) }
    {
        let kind = kind.copy(alloc)?;
        Ok(HalvesOfType {
            first: first_half(alloc, out, kind, vertex)?,
        })
    }
}

impl Part<Half> for HalvesOfType {
    ghost start = { λ p. first_half p.0 p.1 p.2 };

    ghost has = { λ p h. is_eq (front_order (first_half p.0 p.1 p.2) h) };

    fn start(&self) -> &Half {
        &self.first
    }

    fn has(&self, key: &Half) -> bool {
        compare_fronts(&self.first, key).is_eq()
    }

    ghost first = { λ p. toward_first p.0 p.1 p.2 };

    ghost hangs_together = { λ p. toward_hangs (first_half p.0 p.1 p.2) };
}
