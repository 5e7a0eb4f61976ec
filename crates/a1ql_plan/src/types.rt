//! The types that a plan is made over.
ghost use Rattle.std.specs.Prelude.{◌≡◌, List, option_map};
ghost use Rattle.a1_base.specs.Maps.{at};
ghost use Rattle.type_schema.specs.declared.names.TypeName as names;
ghost use Rattle.type_schema.specs.declared.rows.TypeSchema as rows;
ghost use Rattle.type_schema.specs.Graph.{type_order};
ghost use Rattle.type_schema.specs.Lookups.{of_vertices, of_edges};

use type_schema::{Schema, TypeName, TypeSchema};

/// Types by their names.
pub trait Types {
    /// The types with their schemas.
    ghost list: { Self → List (names.TypeName × rows.TypeSchema) };

    /// The schema of the type of this name, where there is one.
    fn schema(&self, name: &TypeName) -> Option<&TypeSchema>
        ensures { option_map (λ s. s.now) result ≡ at type_order name.now (list self.now) };
}

/// The schema of the type of vertices of this name.
pub fn vertex_schema<'a, T: Types>(types: &'a T, name: &TypeName) -> Option<&'a Schema>
    ensures { option_map (λ s. s.now) result ≡ of_vertices (at type_order name.now (T.list types.now)) }
{
    match types.schema(name) {
        Some(TypeSchema::OfVertices(schema)) => Some(schema),
        _ => None,
    }
}

/// The schema of the type of edges of this name.
pub fn edge_schema<'a, T: Types>(types: &'a T, name: &TypeName) -> Option<&'a Schema>
    ensures { option_map (λ s. s.now) result ≡ of_edges (at type_order name.now (T.list types.now)) }
{
    match types.schema(name) {
        Some(TypeSchema::OfEdges(schema)) => Some(schema),
        _ => None,
    }
}
