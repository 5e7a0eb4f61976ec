//! The objects of vertices, edges and lists of half-edges as bytes.
ghost use Rattle.std.specs.Prelude.{◌≡◌, ◌∷◌, ◌++◌, length, option_map, IfOk, OnOk};
ghost use Rattle.a1_base.specs.Fronts.{Reads};
ghost use Rattle.a1_value.specs.Encoding.{value_size};
ghost use Rattle.object_view.specs.Layout.{addr_of, word_of, object_bytes};
ghost use Rattle.type_schema.specs.Formed.{IsRecord};
ghost use Rattle.type_schema.specs.Objects.{addr_bytes, addr_front, owner_front, fields_front, header_bytes, header_of, body_bytes, body_of, half_key, half_key_of, long_bytes, list_front, long_of, index_key};
ghost use Rattle.type_schema.specs.Structures.{half_of};

use crate::{Record, front_record, push_record};
use a1_base::{Addr, Bin, Memory, ReadFault, front_byte, front_u32, front_u64, push_u32, push_u64};
use a1_value::{Value, push_key};
use object_view::{addr_of, word_of};
use std::alloc::Global;

/// The kind of a vertex's header.
pub const HEADER: u8 = 7;

/// The kind of a vertex's record.
pub const VERTEX_BODY: u8 = 8;

/// The kind of a list of half-edges.
pub const HALF_LIST: u8 = 9;

/// The kind of an edge's record.
pub const EDGE_BODY: u8 = 10;

/// A graph, by the address of its object and its number.
#[derive(Clone, Copy, Debug, PartialEq, Eq)]
pub struct GraphRef {
    pub at: Addr,
    pub number: u64,
}

/// What a vertex's header names.
#[derive(Clone, Copy, Debug, PartialEq, Eq)]
pub struct Header {
    /// The number of its type.
    pub kind: u32,
    /// The object of its record.
    pub body: Addr,
    /// Its list of outgoing half-edges.
    pub out: Addr,
    /// Its list of incoming half-edges.
    pub into: Addr,
}

/// One end of an edge, as the vertex at that end knows it.
#[derive(Clone, Copy, Debug, PartialEq, Eq)]
pub struct Half {
    /// The number of the edge's type.
    pub kind: u32,
    /// The header of the vertex at the other end.
    pub far: Addr,
    /// The object of the edge's record.
    pub body: Addr,
}

// ---- addresses

fn push_addr(out: &mut Bin, at: Addr) -> Result<(), Memory>
    ensures { OnOk result (out.new ≡ out.old ++ addr_bytes at) }
{
    push_u64(out, word_of(at))
}

fn front_addr(bytes: &[u8]) -> Option<(Addr, &[u8])>
    ensures { addr_front bytes.now ≡ option_map (λ x. (x.0, x.1.now)) result }
{
    let (word, rest) = front_u64(bytes)?;
    Some((addr_of(word), rest))
}

fn push_owner(out: &mut Bin, kind: u8, owner: Addr) -> Result<(), Memory>
    ensures { OnOk result (out.new ≡ out.old ++ kind ∷ addr_bytes owner) }
{
    out.append(&[kind])?;
    push_addr(out, owner)
}

fn front_owner(bytes: &[u8], kind: u8) -> Option<(Addr, &[u8])>
    ensures { owner_front kind bytes.now ≡ option_map (λ x. (x.0, x.1.now)) result }
{
    let (code, rest) = front_byte(bytes)?;
    if code != kind {
        return None;
    }
    front_addr(rest)
}

// ---- vertices

/// The header of a vertex of a graph, as an object.
pub fn header_bytes(alloc: Global, graph: Addr, fields: &Header) -> Result<Bin, Memory>
    ensures { IfOk result (λ bytes. bytes ≡ header_bytes graph fields.now) }
{
    let mut out = Bin::with_capacity(alloc, 37)?;
    push_owner(&mut out, HEADER, graph)?;
    push_u32(&mut out, fields.kind)?;
    push_addr(&mut out, fields.body)?;
    push_addr(&mut out, fields.out)?;
    push_addr(&mut out, fields.into)?;
    Ok(out)
}

#[tactic(auto, unfolding(crate::specs::Objects::fields_front))]
fn front_fields(bytes: &[u8]) -> Option<(Header, &[u8])>
    ensures { fields_front bytes.now ≡ option_map (λ x. (x.0, x.1.now)) result }
{
    let (kind, rest) = front_u32(bytes)?;
    let (body, rest) = front_addr(rest)?;
    let (out, rest) = front_addr(rest)?;
    let (into, rest) = front_addr(rest)?;
    Some((
        Header {
            kind,
            body,
            out,
            into,
        },
        rest,
    ))
}

/// The graph and the fields of a header: none exactly where the bytes are no header.
#[tactic(auto, unfolding(crate::specs::Objects::header_of))]
pub fn header_of(bytes: &[u8]) -> Option<(Addr, Header)>
    ensures { result ≡ header_of bytes.now }
{
    let (graph, rest) = front_owner(bytes, HEADER)?;
    let (fields, rest) = front_fields(rest)?;
    if rest.len() != 0 {
        return None;
    }
    Some((graph, fields))
}

/// A record of at most `RECORD_LIMIT` bytes, as an object of a kind and an owner.
pub fn body_bytes(alloc: Global, kind: u8, owner: Addr, values: &Record) -> Result<Bin, Memory>
    requires { IsRecord values.now }
    ensures { IfOk result (λ bytes. bytes ≡ body_bytes kind owner values.now) }
{
    let mut out = Bin::new(alloc);
    push_owner(&mut out, kind, owner)?;
    push_record(&mut out, values)?;
    Ok(out)
}

/// The owner and the record of an object of a kind. `Malformed` comes exactly where the bytes are none.
#[tactic(auto, unfolding(crate::specs::Objects::body_of))]
pub fn body_of(alloc: Global, kind: u8, bytes: &[u8]) -> Result<(Addr, Record), ReadFault>
    ensures { Reads (λ x. (x.0, x.1)) result (body_of kind bytes.now) }
{
    let Some((owner, rest)) = front_owner(bytes, kind) else {
        return Err(ReadFault::Malformed);
    };
    let (values, rest) = front_record(alloc, rest)?;
    if rest.len() != 0 {
        return Err(ReadFault::Malformed);
    }
    Ok((owner, values))
}

// ---- half-edges

/// The key of a half-edge: by the number of its type, then by the far header.
pub fn half_key(alloc: Global, kind: u32, far: Addr) -> Result<Bin, Memory>
    ensures { IfOk result (λ key. key ≡ half_key kind far) }
{
    let mut key = Bin::with_capacity(alloc, 12)?;
    push_u32(&mut key, kind)?;
    push_addr(&mut key, far)?;
    Ok(key)
}

/// The half-edge of a key and a word: none exactly where the bytes are no key.
#[tactic(auto, unfolding(crate::specs::Objects::half_key_of))]
pub fn half_of(key: &[u8], word: u64) -> Option<Half>
    ensures { result ≡ option_map (λ x. half_of x.0 x.1 word) (half_key_of key.now) }
{
    let (kind, rest) = front_u32(key)?;
    let (far, rest) = front_addr(rest)?;
    if rest.len() != 0 {
        return None;
    }
    Some(Half {
        kind,
        far,
        body: addr_of(word),
    })
}

/// A list whose half-edges are these entries, as an object.
pub fn short_bytes(alloc: Global, owner: Addr, entries: &[u8]) -> Result<Bin, Memory>
    ensures { IfOk result (λ bytes. bytes ≡ object_bytes 9 (word_of owner) (0 ∷ entries.now)) }
{
    let mut out = Bin::with_capacity(alloc, 10 + entries.len())?;
    push_owner(&mut out, HALF_LIST, owner)?;
    out.append(&[0])?;
    out.append(entries)?;
    Ok(out)
}

/// A list of so many half-edges that are in a tree, as an object.
pub fn long_bytes(alloc: Global, owner: Addr, count: u64, anchor: Addr) -> Result<Bin, Memory>
    ensures { IfOk result (λ bytes. bytes ≡ long_bytes owner count anchor) }
{
    let mut out = Bin::with_capacity(alloc, 26)?;
    push_owner(&mut out, HALF_LIST, owner)?;
    out.append(&[1])?;
    push_u64(&mut out, count)?;
    push_addr(&mut out, anchor)?;
    Ok(out)
}

/// The owner of a list, 1 where its half-edges are in a tree and 0 where they are not, and the bytes behind that: none
/// exactly where the bytes are no list.
#[tactic(auto, unfolding(crate::specs::Objects::list_front))]
pub fn list_of(bytes: &[u8]) -> Option<(Addr, u8, &[u8])>
    ensures { list_front bytes.now ≡ option_map (λ x. ((x.0, x.1), x.2.now)) result }
{
    let (owner, rest) = front_owner(bytes, HALF_LIST)?;
    let (form, rest) = front_byte(rest)?;
    if form >= 2 {
        return None;
    }
    Some((owner, form, rest))
}

/// The number of half-edges and the anchor of the tree that has them: none exactly where the bytes are not these.
#[tactic(auto, unfolding(crate::specs::Objects::long_of))]
pub fn long_of(bytes: &[u8]) -> Option<(u64, Addr)>
    ensures { result ≡ long_of bytes.now }
{
    let (count, rest) = front_u64(bytes)?;
    let (anchor, rest) = front_addr(rest)?;
    if rest.len() != 0 {
        return None;
    }
    Some((count, anchor))
}

// ---- indexes

/// The key of a vertex in an index: by its value there, then by its key.
pub fn index_key(alloc: Global, value: &Value, key: &Value) -> Result<Bin, Memory>
    ensures { IfOk result (λ bytes. bytes ≡ index_key value.now key.now) }
{
    let mut out = Bin::new(alloc);
    push_key(&mut out, value)?;
    push_key(&mut out, key)?;
    Ok(out)
}
