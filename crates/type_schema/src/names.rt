//! The names of graphs, and of what stands in them. They are compared field by field, from left to right.
ghost use Rattle.std.specs.Prelude.{◌≡◌, option_map};
ghost use Rattle.a1_base.specs.Fronts.{ReadsWhole};
ghost use Rattle.type_schema.specs.Names.{cut, graph_whole};

use crate::name_of;
use a1_base::{ReadFault, Txt};
use a1_value::Value;
use std::alloc::Global;

/// A graph, by its tenant and its own name.
#[derive(Debug, PartialEq, Eq, PartialOrd, Ord, Drop)]
pub struct GraphName {
    /// The tenant's name.
    pub tenant: Txt,
    /// The name within the tenant.
    pub name: Txt,
}

/// A type of a graph.
#[derive(Debug, PartialEq, Eq, PartialOrd, Ord, Drop)]
pub struct TypeName {
    /// The graph's number.
    pub graph: u64,
    /// The type's name.
    pub name: Txt,
}

/// A vertex, by its type and key.
#[derive(Debug, PartialEq, Eq, PartialOrd, Ord, Drop)]
pub struct VertexName {
    /// The graph's number.
    pub graph: u64,
    /// The type's name.
    pub kind: Txt,
    /// The key: the value of `id`.
    pub key: Value,
}

/// An edge, by its type and both ends.
#[derive(Debug, PartialEq, Eq, PartialOrd, Ord, Drop)]
pub struct EdgeName {
    /// The graph's number.
    pub graph: u64,
    /// The edge type's name.
    pub kind: Txt,
    /// The source's type.
    pub from_kind: Txt,
    /// The source's key.
    pub from: Value,
    /// The destination's type.
    pub to_kind: Txt,
    /// The destination's key.
    pub to: Value,
}

// The bytes in front of the first slash, and behind it.
fn cut(bytes: &[u8]) -> Option<(&[u8], &[u8])>
    ensures { cut 47 bytes.now ≡ option_map (λ x. (x.0.now, x.1.now)) result }
{
    for (at, byte) in bytes.iter().enumerate() {
        if *byte == b'/' {
            let (front, rest) = bytes.split_at(at);
            return Some((front, rest.split_at(1).1));
        }
    }
    None
}

/// The graph that bytes name: a tenant's name, `/` and its own. `Malformed` comes exactly where they name none.
#[tactic(auto, unfolding(crate::specs::Names::graph_whole))]
pub fn whole_graph(alloc: Global, bytes: &[u8]) -> Result<GraphName, ReadFault>
    ensures { ReadsWhole result (graph_whole bytes.now) }
{
    let Some((tenant, name)) = cut(bytes) else {
        return Err(ReadFault::Malformed);
    };
    let Some(tenant) = name_of(tenant) else {
        return Err(ReadFault::Malformed);
    };
    let Some(name) = name_of(name) else {
        return Err(ReadFault::Malformed);
    };
    let tenant = Txt::from_text(alloc, tenant)?;
    let name = Txt::from_text(alloc, name)?;
    Ok(GraphName { tenant, name })
}
