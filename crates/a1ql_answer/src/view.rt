//! Graphs, seen by look-ups.
ghost use Rattle.std.specs.Prelude.{◌≡◌, Some, Bool, ◌&&◌, filter, map, option_map, IfOk};
ghost use Rattle.std.specs.List.{list_any};
ghost use Rattle.a1_base.specs.Maps.{IsOrdered};
ghost use Rattle.type_schema.specs.declared.names.VertexName as vertex;
ghost use Rattle.type_schema.specs.declared.names.EdgeName as edge;
ghost use Rattle.type_schema.specs.Schemas as schemas;
ghost use Rattle.type_schema.specs.Schemas.{key_of};
ghost use Rattle.type_schema.specs.Graph.{Graph, vertex_order, vertex_at, near};
ghost use Rattle.a1ql_plan.specs.Answer.{is_vertex, is_type};

use a1_base::Memory;
use std::alloc::Global;
use type_schema::{EdgeName, Record, TypeName, VertexName};

/// Look-ups in a graph.
pub trait View {
    /// The graph.
    ghost graph: { Self → Graph };

    /// The record of the vertex, where it is there.
    fn vertex(&self, name: &VertexName) -> Option<&Record>
        ensures { option_map (λ r. r.now) result ≡ vertex_at (graph self.now) name.now };

    /// The edges of this type that lead from (`out`) or to the vertex, in any order and as often as they come.
    fn edges(
        &self,
        alloc: Global,
        out: bool,
        kind: &TypeName,
        vertex: &VertexName,
    ) -> Result<Vec<(&EdgeName, &Record)>, Memory>
        ensures { IfOk result (λ rows. (test : edge.EdgeName × schemas.Record → Bool)
            → list_any test (map (λ e. (e.0.now, e.1.now)) rows.items)
            ≡ list_any
            (λ e. is_vertex vertex.now (near out e.0) && (is_type kind.now e.0.graph e.0.kind && test e))
            (graph self.now).edges) };

    /// The vertices of a type, in the order of keys.
    fn of_type(&self, alloc: Global, kind: &TypeName) -> Result<Vec<(&VertexName, &Record)>, Memory>
        ensures { IfOk result (λ rows. map (λ e. (e.0.now, e.1.now)) rows.items
            ≡ filter (λ v. is_type kind.now v.0.graph v.0.kind) (graph self.now).vertices) };

    /// The vertices are in the order of their names, and none stands twice.
    fn ordered(&self)
        ensures { IsOrdered vertex_order (graph self.now).vertices };

    /// Each vertex's record has its key first.
    fn keyed(&self)
        ensures { (v : vertex.VertexName) (x : schemas.Record)
            → vertex_at (graph self.now) v ≡ Some x → key_of x ≡ v.key };
}
