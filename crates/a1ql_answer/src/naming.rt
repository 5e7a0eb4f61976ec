//! Names of types and of the ends of edges.
ghost use Rattle.std.specs.Prelude.{◌≡◌, IfOk};
ghost use Rattle.type_schema.specs.Graph.{far};
ghost use Rattle.a1ql_plan.specs.Answer.{is_type};

use std::alloc::{AllocError, Global};
use type_schema::{EdgeName, TypeName, VertexName};

/// Whether the vertex is of this type.
pub fn is_of(kind: &TypeName, vertex: &VertexName) -> bool
    ensures { result ≡ is_type kind.now vertex.now.graph vertex.now.kind }
{
    kind.graph
        .cmp(&vertex.graph)
        .then(kind.name.cmp(&vertex.kind))
        .is_eq()
}

/// The vertex that the edge leads to (`out`) or from.
pub fn far(alloc: Global, out: bool, edge: &EdgeName) -> Result<VertexName, AllocError>
    ensures { IfOk result (λ v. v ≡ far out edge.now) }
{
    let (kind, key) = if out {
        (&edge.to_kind, &edge.to)
    } else {
        (&edge.from_kind, &edge.from)
    };
    let graph = edge.graph;
    let kind = kind.copy(alloc)?;
    let key = key.copy(alloc)?;
    Ok(VertexName { graph, kind, key })
}
