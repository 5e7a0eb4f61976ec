//! How much room a change takes among the items of a store.
ghost use Rattle.std.specs.Prelude.{◌≡◌, ◌-◌, ◌≤◌, ◌==◌, [], ◌∷◌, ◌++◌, nat_le, length, count_by, SomeIff, if◌then◌else◌, Some, None};
ghost use Rattle.a1_value.specs.Encoding.{escaped, key_bytes};
ghost use Rattle.type_schema.specs.Layout.{row_key, row_value, type_bytes};
ghost use Rattle.type_schema.specs.Rows.{item_size};

use a1_value::Value;
use type_schema::{
    EdgeName, RowChange, StoreKey, StoreValue, TypeSchema, VertexName, room_behind_name,
    room_behind_record, room_behind_schema,
};

// ---- keys

fn zeros(bytes: &[u8]) -> usize
    ensures { result ≡ count_by (λ b. b == 0) bytes.now }
{
    bytes.iter().filter(|byte| **byte == 0).count()
}

// The room left behind a kind, escaped bytes and their end.
#[tactic(auto, using(a1_value::proofs::Escapes::escaped_length))]
fn room_behind_escaped(room: usize, bytes: &[u8]) -> Option<usize>
    ensures { SomeIff result
        (length (0 ∷ escaped bytes.now ++ 0 ∷ 0 ∷ []) ≤ room)
        (room - length (0 ∷ escaped bytes.now ++ 0 ∷ 0 ∷ [])) }
{
    let left = room.checked_sub(3)?.checked_sub(bytes.len())?;
    left.checked_sub(zeros(bytes))
}

// The room left behind a value in a key.
fn room_behind_key(room: usize, key: &Value) -> Option<usize>
    ensures { SomeIff result (length (key_bytes key.now) ≤ room) (room - length (key_bytes key.now)) }
{
    match key {
        Value::Int(_) => room.checked_sub(9),
        Value::Text(text) => room_behind_escaped(room, text.as_bytes()),
        Value::Bytes(bytes) => room_behind_escaped(room, bytes.as_slice()),
    }
}

fn room_behind_vertex(room: usize, v: &VertexName) -> Option<usize>
    ensures { SomeIff result
        (length (row_key (StoreKey.Vertex v.now)) ≤ room)
        (room - length (row_key (StoreKey.Vertex v.now))) }
{
    let left = room_behind_name(room.checked_sub(9)?, &v.kind)?;
    room_behind_key(left, &v.key)
}

fn room_behind_edge(room: usize, e: &EdgeName) -> Option<usize>
    ensures { SomeIff result
        (length (row_key (StoreKey.Edge e.now)) ≤ room)
        (room - length (row_key (StoreKey.Edge e.now))) }
{
    let left = room_behind_name(room.checked_sub(9)?, &e.kind)?;
    let left = room_behind_key(room_behind_name(left, &e.from_kind)?, &e.from)?;
    room_behind_key(room_behind_name(left, &e.to_kind)?, &e.to)
}

// The room left behind a key of a store.
fn room_behind_store_key(room: usize, key: &StoreKey) -> Option<usize>
    ensures { SomeIff result (length (row_key key.now) ≤ room) (room - length (row_key key.now)) }
{
    match key {
        StoreKey::Counter => room.checked_sub(1),
        StoreKey::Tenant(name) => room.checked_sub(1)?.checked_sub(name.as_bytes().len()),
        StoreKey::Graph(graph) => {
            let left = room
                .checked_sub(2)?
                .checked_sub(graph.tenant.as_bytes().len())?;
            left.checked_sub(graph.name.as_bytes().len())
        }
        StoreKey::TypeKey(t) => room_behind_name(room.checked_sub(9)?, &t.name),
        StoreKey::Vertex(v) => room_behind_vertex(room, v),
        StoreKey::Edge(e) => room_behind_edge(room, e),
    }
}

// ---- values

fn room_behind_type(room: usize, schema: &TypeSchema) -> Option<usize>
    ensures { SomeIff result (length (type_bytes schema.now) ≤ room) (room - length (type_bytes schema.now)) }
{
    match schema {
        TypeSchema::OfVertices(schema) | TypeSchema::OfEdges(schema) => {
            room_behind_schema(room.checked_sub(1)?, &schema.attrs)
        }
    }
}

// The room left behind a value of a store.
fn room_behind_store_value(room: usize, value: &StoreValue) -> Option<usize>
    ensures { SomeIff result (length (row_value value.now) ≤ room) (room - length (row_value value.now)) }
{
    match value {
        StoreValue::Nothing => Some(room),
        StoreValue::Number(_) => room.checked_sub(8),
        StoreValue::Schema(schema) => room_behind_type(room, schema),
        StoreValue::Record(record) => room_behind_record(room, &record.values),
    }
}

// ---- changes

/// The room that is left behind the item of a change: its tag, its stamp and the bytes of the change. None where the
/// room is too small.
pub fn room_left(room: usize, change: &RowChange) -> Option<usize>
    ensures { result ≡
        (if nat_le (item_size change.now) room then Some (room - item_size change.now) else None) }
{
    // The tag, the stamp and the length of the key take 13 bytes.
    let left = room_behind_store_key(room.checked_sub(13)?, &change.key)?;
    match &change.value {
        Some(value) => room_behind_store_value(left.checked_sub(5)?, value),
        None => left.checked_sub(1),
    }
}
