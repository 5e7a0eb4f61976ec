//! From changes to bytes.
ghost use Rattle.std.specs.Prelude.{◌≡◌, ◌++◌, ◌<◌, length, OnOk, IfOk};
ghost use Rattle.type_schema.specs.Layout.{row_key, change_bytes, changes_bytes};
ghost use Rattle.type_schema.specs.Formed.{IsStoreKey, HasForm, AreChanges};

use crate::keys::push_store_key;
use a1_base::{Bin, Memory, push_u32};
use a1_value::key_size;
use std::alloc::Global;
use type_schema::{Change, Changes, StoreKey};

// The bytes that a key takes.
#[tactic(auto, using(type_schema::proofs::SchemaLemmas::short))]
fn store_key_size(key: &StoreKey) -> usize
    requires { IsStoreKey key.now }
    ensures size { result ≡ length (row_key key.now) }
    ensures bound { result < 2048 }
{
    match key {
        StoreKey::Counter => 1,
        StoreKey::Tenant(name) => 1 + name.as_bytes().len(),
        StoreKey::Graph(graph) => 2 + graph.tenant.as_bytes().len() + graph.name.as_bytes().len(),
        StoreKey::TypeKey(t) => 10 + t.name.as_bytes().len(),
        StoreKey::Vertex(v) => 10 + v.kind.as_bytes().len() + key_size(&v.key),
        StoreKey::Edge(e) => {
            let ends = e.from_kind.as_bytes().len()
                + key_size(&e.from)
                + e.to_kind.as_bytes().len()
                + key_size(&e.to);
            12 + e.kind.as_bytes().len() + ends
        }
    }
}

/// The bytes that a change takes, without the tag and the stamp that a store puts in front.
#[tactic(auto, using(crate::proofs::SizeLemmas::value_short))]
pub fn size(change: &Change) -> usize
    requires { HasForm change.now }
    ensures { result ≡ length (change_bytes change.now) }
{
    let key = 5 + store_key_size(&change.key);
    match &change.value {
        Some(value) => key + 4 + value.as_slice().len(),
        None => key,
    }
}

/// Puts the bytes of a change at the end. After `Memory` a part of them may stand there.
pub fn push_change(out: &mut Bin, change: &Change) -> Result<(), Memory>
    requires { HasForm change.now }
    ensures { OnOk result (out.new ≡ out.old ++ change_bytes change.now) }
{
    push_u32(out, store_key_size(&change.key) as u32)?;
    push_store_key(out, &change.key)?;
    match &change.value {
        Some(value) => {
            out.append(&[1])?;
            push_u32(out, value.as_slice().len() as u32)?;
            out.append(value.as_slice())?;
        }
        None => out.append(&[0])?,
    }
    Ok(())
}

// The bytes that changes take, at most the largest `usize`.
fn room(changes: &[Change]) -> usize
    requires { AreChanges changes.now }
{
    let mut room: usize = 0;
    for change in changes {
        room = room.saturating_add(size(change));
    }
    room
}

/// The bytes of changes, one behind the other.
pub fn write(alloc: Global, changes: &Changes) -> Result<Bin, Memory>
    requires { AreChanges changes.now }
    ensures { IfOk result (λ bytes. bytes ≡ changes_bytes changes.now) }
{
    let mut out = Bin::with_capacity(alloc, room(&changes.steps))?;
    for change in &changes.steps {
        push_change(&mut out, change)?;
    }
    Ok(out)
}
