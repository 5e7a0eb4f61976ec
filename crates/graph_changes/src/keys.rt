//! Store keys as bytes.
ghost use Rattle.std.specs.Prelude.{◌≡◌, ◌++◌, option_map, OnOk};
ghost use Rattle.a1_base.specs.Fronts.{whole, ReadsFront, ReadsWhole};
ghost use Rattle.type_schema.specs.Layout.{row_key};
ghost use Rattle.type_schema.specs.Formed.{IsStoreKey};
ghost use Rattle.graph_changes.specs.Reading.{name_whole, graph_number_front, type_front, vertex_front, edge_front, key_of_tag, key_whole};

use a1_base::{Bin, GRAPH_NUMBER_LIMIT, Memory, ReadFault, Txt, front_byte, front_u64, push_u64};
use a1_value::{front_key, push_key};
use std::alloc::Global;
use type_schema::{
    EdgeName, GraphName, StoreKey, TypeName, VertexName, front_name, name_of, push_name,
    whole_graph,
};

// ---- writing

fn push_graph(out: &mut Bin, graph: &GraphName) -> Result<(), Memory>
    ensures { OnOk result (out.new ≡ out.old ++ row_key (StoreKey.Graph graph.now)) }
{
    out.append(&[2])?;
    out.append(graph.tenant.as_bytes())?;
    out.append(b"/")?;
    out.append(graph.name.as_bytes())?;
    Ok(())
}

#[tactic(auto, using(type_schema::proofs::SchemaLemmas::short))]
fn push_type(out: &mut Bin, t: &TypeName) -> Result<(), Memory>
    requires { IsStoreKey (StoreKey.TypeKey t.now) }
    ensures { OnOk result (out.new ≡ out.old ++ row_key (StoreKey.TypeKey t.now)) }
{
    out.append(&[3])?;
    push_u64(out, t.graph)?;
    push_name(out, &t.name)
}

#[tactic(auto, using(type_schema::proofs::SchemaLemmas::short))]
fn push_vertex(out: &mut Bin, v: &VertexName) -> Result<(), Memory>
    requires { IsStoreKey (StoreKey.Vertex v.now) }
    ensures { OnOk result (out.new ≡ out.old ++ row_key (StoreKey.Vertex v.now)) }
{
    out.append(&[4])?;
    push_u64(out, v.graph)?;
    push_name(out, &v.kind)?;
    push_key(out, &v.key)
}

#[tactic(auto, using(type_schema::proofs::SchemaLemmas::short))]
fn push_edge(out: &mut Bin, e: &EdgeName) -> Result<(), Memory>
    requires { IsStoreKey (StoreKey.Edge e.now) }
    ensures { OnOk result (out.new ≡ out.old ++ row_key (StoreKey.Edge e.now)) }
{
    out.append(&[5])?;
    push_u64(out, e.graph)?;
    push_name(out, &e.kind)?;
    push_name(out, &e.from_kind)?;
    push_key(out, &e.from)?;
    push_name(out, &e.to_kind)?;
    push_key(out, &e.to)
}

/// Puts the bytes of a key at the end. After `Memory` a part of them may stand there.
pub fn push_store_key(out: &mut Bin, key: &StoreKey) -> Result<(), Memory>
    requires { IsStoreKey key.now }
    ensures { OnOk result (out.new ≡ out.old ++ row_key key.now) }
{
    match key {
        StoreKey::Counter => {
            out.append(&[0])?;
            Ok(())
        }
        StoreKey::Tenant(name) => {
            out.append(&[1])?;
            out.append(name.as_bytes())?;
            Ok(())
        }
        StoreKey::Graph(graph) => push_graph(out, graph),
        StoreKey::TypeKey(t) => push_type(out, t),
        StoreKey::Vertex(v) => push_vertex(out, v),
        StoreKey::Edge(e) => push_edge(out, e),
    }
}

// ---- reading

fn whole_name(alloc: Global, bytes: &[u8]) -> Result<Txt, ReadFault>
    ensures { ReadsWhole result (name_whole bytes.now) }
{
    let Some(name) = name_of(bytes) else {
        return Err(ReadFault::Malformed);
    };
    Ok(Txt::from_text(alloc, name)?)
}

/// The number of a graph in front, and the bytes behind it.
#[tactic(auto, unfolding(crate::specs::Reading::graph_number_front))]
pub fn front_graph_number(bytes: &[u8]) -> Option<(u64, &[u8])>
    ensures { graph_number_front bytes.now ≡ option_map (λ x. (x.0, x.1.now)) result }
{
    let (number, rest) = front_u64(bytes)?;
    if number >= 1 && number < GRAPH_NUMBER_LIMIT {
        Some((number, rest))
    } else {
        None
    }
}

#[tactic(auto, unfolding(crate::specs::Reading::type_front))]
fn front_type(alloc: Global, bytes: &[u8]) -> Result<(TypeName, &[u8]), ReadFault>
    ensures { ReadsFront result (type_front bytes.now) }
{
    let Some((graph, rest)) = front_graph_number(bytes) else {
        return Err(ReadFault::Malformed);
    };
    let (name, rest) = front_name(alloc, rest)?;
    Ok((TypeName { graph, name }, rest))
}

#[tactic(auto, unfolding(crate::specs::Reading::vertex_front))]
fn front_vertex(alloc: Global, bytes: &[u8]) -> Result<(VertexName, &[u8]), ReadFault>
    ensures { ReadsFront result (vertex_front bytes.now) }
{
    let Some((graph, rest)) = front_graph_number(bytes) else {
        return Err(ReadFault::Malformed);
    };
    let (kind, rest) = front_name(alloc, rest)?;
    let (key, rest) = front_key(alloc, rest)?;
    Ok((VertexName { graph, kind, key }, rest))
}

#[tactic(auto, unfolding(crate::specs::Reading::edge_front))]
fn front_edge(alloc: Global, bytes: &[u8]) -> Result<(EdgeName, &[u8]), ReadFault>
    ensures { ReadsFront result (edge_front bytes.now) }
{
    let Some((graph, rest)) = front_graph_number(bytes) else {
        return Err(ReadFault::Malformed);
    };
    let (kind, rest) = front_name(alloc, rest)?;
    let (from_kind, rest) = front_name(alloc, rest)?;
    let (from, rest) = front_key(alloc, rest)?;
    let (to_kind, rest) = front_name(alloc, rest)?;
    let (to, rest) = front_key(alloc, rest)?;
    let edge = EdgeName {
        graph,
        kind,
        from_kind,
        from,
        to_kind,
        to,
    };
    Ok((edge, rest))
}

fn whole_type(alloc: Global, bytes: &[u8]) -> Result<TypeName, ReadFault>
    ensures { ReadsWhole result (whole type_front bytes.now) }
{
    let (name, rest) = front_type(alloc, bytes)?;
    if !rest.is_empty() {
        return Err(ReadFault::Malformed);
    }
    Ok(name)
}

fn whole_vertex(alloc: Global, bytes: &[u8]) -> Result<VertexName, ReadFault>
    ensures { ReadsWhole result (whole vertex_front bytes.now) }
{
    let (name, rest) = front_vertex(alloc, bytes)?;
    if !rest.is_empty() {
        return Err(ReadFault::Malformed);
    }
    Ok(name)
}

fn whole_edge(alloc: Global, bytes: &[u8]) -> Result<EdgeName, ReadFault>
    ensures { ReadsWhole result (whole edge_front bytes.now) }
{
    let (name, rest) = front_edge(alloc, bytes)?;
    if !rest.is_empty() {
        return Err(ReadFault::Malformed);
    }
    Ok(name)
}

#[tactic(auto, unfolding(crate::specs::Reading::key_of_tag))]
fn key_of_tag(alloc: Global, tag: u8, bytes: &[u8]) -> Result<StoreKey, ReadFault>
    ensures { ReadsWhole result (key_of_tag tag bytes.now) }
{
    match tag {
        0 => {
            if bytes.is_empty() {
                Ok(StoreKey::Counter)
            } else {
                Err(ReadFault::Malformed)
            }
        }
        1 => Ok(StoreKey::Tenant(whole_name(alloc, bytes)?)),
        2 => Ok(StoreKey::Graph(whole_graph(alloc, bytes)?)),
        3 => Ok(StoreKey::TypeKey(whole_type(alloc, bytes)?)),
        4 => Ok(StoreKey::Vertex(whole_vertex(alloc, bytes)?)),
        5 => Ok(StoreKey::Edge(whole_edge(alloc, bytes)?)),
        _ => Err(ReadFault::Malformed),
    }
}

/// The key that bytes are. `Malformed` comes exactly where they are none.
#[tactic(auto, unfolding(crate::specs::Reading::key_whole))]
pub fn read_store_key(alloc: Global, bytes: &[u8]) -> Result<StoreKey, ReadFault>
    ensures { ReadsWhole result (key_whole bytes.now) }
{
    let Some((tag, rest)) = front_byte(bytes) else {
        return Err(ReadFault::Malformed);
    };
    key_of_tag(alloc, tag, rest)
}
