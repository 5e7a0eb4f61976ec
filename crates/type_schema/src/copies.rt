//! Copies. The only error of each is want of memory.
ghost use Rattle.std.specs.Prelude.{◌≡◌, IfOk};

use crate::{
    Attr, EdgeName, GraphName, Record, Schema, StoreKey, StoreValue, TypeName, TypeSchema,
    VertexName,
};
use std::alloc::{AllocError, Global};

impl GraphName {
    /// A copy.
    pub fn copy(&self, alloc: Global) -> Result<GraphName, AllocError>
        ensures { IfOk result (λ x. x ≡ self.now) }
    {
        Ok(GraphName {
            tenant: self.tenant.copy(alloc)?,
            name: self.name.copy(alloc)?,
        })
    }
}

impl TypeName {
    /// A copy.
    pub fn copy(&self, alloc: Global) -> Result<TypeName, AllocError>
        ensures { IfOk result (λ x. x ≡ self.now) }
    {
        Ok(TypeName {
            graph: self.graph,
            name: self.name.copy(alloc)?,
        })
    }
}

impl VertexName {
    /// A copy.
    pub fn copy(&self, alloc: Global) -> Result<VertexName, AllocError>
        ensures { IfOk result (λ x. x ≡ self.now) }
    {
        Ok(VertexName {
            graph: self.graph,
            kind: self.kind.copy(alloc)?,
            key: self.key.copy(alloc)?,
        })
    }
}

impl EdgeName {
    /// A copy.
    pub fn copy(&self, alloc: Global) -> Result<EdgeName, AllocError>
        ensures { IfOk result (λ x. x ≡ self.now) }
    {
        Ok(EdgeName {
            graph: self.graph,
            kind: self.kind.copy(alloc)?,
            from_kind: self.from_kind.copy(alloc)?,
            from: self.from.copy(alloc)?,
            to_kind: self.to_kind.copy(alloc)?,
            to: self.to.copy(alloc)?,
        })
    }
}

impl Attr {
    /// A copy.
    pub fn copy(&self, alloc: Global) -> Result<Attr, AllocError>
        ensures { IfOk result (λ x. x ≡ self.now) }
    {
        Ok(Attr {
            name: self.name.copy(alloc)?,
            kind: self.kind,
            index: self.index,
        })
    }
}

impl Schema {
    /// A copy.
    pub fn copy(&self, alloc: Global) -> Result<Schema, AllocError>
        ensures { IfOk result (λ x. x ≡ self.now) }
    {
        let mut attrs = Vec::new(alloc);
        for attr in &self.attrs {
            attrs.push(attr.copy(alloc)?)?;
        }
        Ok(Schema { attrs })
    }
}

impl Record {
    /// A copy.
    pub fn copy(&self, alloc: Global) -> Result<Record, AllocError>
        ensures { IfOk result (λ x. x ≡ self.now) }
    {
        let mut values = Vec::new(alloc);
        for value in &self.values {
            values.push(value.copy(alloc)?)?;
        }
        Ok(Record { values })
    }
}

impl TypeSchema {
    /// A copy.
    pub fn copy(&self, alloc: Global) -> Result<TypeSchema, AllocError>
        ensures { IfOk result (λ x. x ≡ self.now) }
    {
        match self {
            TypeSchema::OfVertices(schema) => Ok(TypeSchema::OfVertices(schema.copy(alloc)?)),
            TypeSchema::OfEdges(schema) => Ok(TypeSchema::OfEdges(schema.copy(alloc)?)),
        }
    }
}

impl StoreKey {
    /// A copy.
    pub fn copy(&self, alloc: Global) -> Result<StoreKey, AllocError>
        ensures { IfOk result (λ x. x ≡ self.now) }
    {
        match self {
            StoreKey::Counter => Ok(StoreKey::Counter),
            StoreKey::Tenant(tenant) => Ok(StoreKey::Tenant(tenant.copy(alloc)?)),
            StoreKey::Graph(graph) => Ok(StoreKey::Graph(graph.copy(alloc)?)),
            StoreKey::TypeKey(name) => Ok(StoreKey::TypeKey(name.copy(alloc)?)),
            StoreKey::Vertex(vertex) => Ok(StoreKey::Vertex(vertex.copy(alloc)?)),
            StoreKey::Edge(edge) => Ok(StoreKey::Edge(edge.copy(alloc)?)),
        }
    }
}

impl StoreValue {
    /// A copy.
    pub fn copy(&self, alloc: Global) -> Result<StoreValue, AllocError>
        ensures { IfOk result (λ x. x ≡ self.now) }
    {
        match self {
            StoreValue::Nothing => Ok(StoreValue::Nothing),
            StoreValue::Number(number) => Ok(StoreValue::Number(*number)),
            StoreValue::Schema(schema) => Ok(StoreValue::Schema(schema.copy(alloc)?)),
            StoreValue::Record(record) => Ok(StoreValue::Record(record.copy(alloc)?)),
        }
    }
}
