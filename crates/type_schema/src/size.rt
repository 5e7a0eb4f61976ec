//! How much room names, schemas and records take.
ghost use Rattle.std.specs.Prelude.{◌≡◌, ◌-◌, ◌≤◌, length, SomeIff};
ghost use Rattle.a1_value.specs.Encoding.{value_bytes};
ghost use Rattle.type_schema.specs.Layout.{name_bytes, attr_bytes, schema_bytes, record_bytes};
ghost use Rattle.type_schema.specs.Reading.{is_short};

use crate::Attr;
use a1_base::{RECORD_LIMIT, Txt};
use a1_value::Value;

/// The room that is left behind a name and the byte for its length. None where the room is too small.
pub fn room_behind_name(room: usize, name: &Txt) -> Option<usize>
    ensures { SomeIff result (length (name_bytes name.now) ≤ room) (room - length (name_bytes name.now)) }
{
    room.checked_sub(1)?.checked_sub(name.as_bytes().len())
}

fn room_behind_attr(room: usize, attr: &Attr) -> Option<usize>
    ensures { SomeIff result (length (attr_bytes attr.now) ≤ room) (room - length (attr_bytes attr.now)) }
{
    room_behind_name(room, &attr.name)?.checked_sub(2)
}

/// The room that is left behind a schema of these attributes. None where the room is too small.
pub fn room_behind_schema(room: usize, attrs: &[Attr]) -> Option<usize>
    ensures { SomeIff result (length (schema_bytes attrs.now) ≤ room) (room - length (schema_bytes attrs.now)) }
{
    let mut left = room.checked_sub(1)?;
    for attr in attrs {
        left = room_behind_attr(left, attr)?;
    }
    Some(left)
}

fn room_behind_value(room: usize, value: &Value) -> Option<usize>
    ensures { SomeIff result (length (value_bytes value.now) ≤ room) (room - length (value_bytes value.now)) }
{
    match value {
        Value::Int(_) => room.checked_sub(9),
        Value::Text(text) => room.checked_sub(5)?.checked_sub(text.as_bytes().len()),
        Value::Bytes(bytes) => room.checked_sub(5)?.checked_sub(bytes.as_slice().len()),
    }
}

/// The room that is left behind a record of these values. None where the room is too small.
pub fn room_behind_record(room: usize, values: &[Value]) -> Option<usize>
    ensures { SomeIff result (length (record_bytes values.now) ≤ room) (room - length (record_bytes values.now)) }
{
    let mut left = room.checked_sub(1)?;
    for value in values {
        left = room_behind_value(left, value)?;
    }
    Some(left)
}

/// Whether a record of these values takes at most `RECORD_LIMIT` bytes.
pub fn is_short(values: &[Value]) -> bool
    ensures { result ≡ is_short values.now }
{
    room_behind_record(RECORD_LIMIT, values).is_some()
}
