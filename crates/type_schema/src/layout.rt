//! Names, schemas and records as bytes.
ghost use Rattle.std.specs.Prelude.{◌≡◌, ◌∷◌, ◌++◌, ◌<◌, length, option_map, OnOk, IsTrue};
ghost use Rattle.a1_base.specs.Fronts.{several, Reads, ReadsFront};
ghost use Rattle.a1_value.specs.Encoding.{stored_front};
ghost use Rattle.type_schema.specs.Layout.{name_bytes, kind_code, attr_bytes, schema_bytes, record_bytes};
ghost use Rattle.type_schema.specs.Formed.{is_list, IsRecord};
ghost use Rattle.type_schema.specs.Reading.{name_front, kind_front, flag_front, attr_front, schema_front, record_front};

use crate::form::{is_list, name_of};
use crate::size::is_short;
use crate::{Attr, Kind, Record, Schema};
use a1_base::{Bin, Memory, ReadFault, Txt, front_byte, front_part};
use a1_value::{Value, ValueFault, front_value, push_value};
use std::alloc::Global;

// ---- names

/// Puts a name at the end: a byte for its length, and its bytes. After `Memory` a part of it may stand there.
pub fn push_name(out: &mut Bin, name: &Txt) -> Result<(), Memory>
    requires { length name.now < 256 }
    ensures { OnOk result (out.new ≡ out.old ++ name_bytes name.now) }
{
    let bytes = name.as_bytes();
    out.append(&[bytes.len() as u8])?;
    out.append(bytes)?;
    Ok(())
}

/// The name that the bytes begin with, and the bytes behind it. `Malformed` comes exactly where they begin with none.
#[tactic(auto, unfolding(crate::specs::Reading::name_front))]
pub fn front_name(alloc: Global, bytes: &[u8]) -> Result<(Txt, &[u8]), ReadFault>
    ensures { ReadsFront result (name_front bytes.now) }
{
    let Some((size, rest)) = front_byte(bytes) else {
        return Err(ReadFault::Malformed);
    };
    let Some((name, rest)) = front_part(rest, size as usize) else {
        return Err(ReadFault::Malformed);
    };
    let Some(name) = name_of(name) else {
        return Err(ReadFault::Malformed);
    };
    Ok((Txt::from_text(alloc, name)?, rest))
}

// ---- schemas

fn kind_code(kind: Kind) -> u8
    ensures { result ≡ kind_code kind }
{
    match kind {
        Kind::Int => 1,
        Kind::Text => 2,
        Kind::Bytes => 3,
    }
}

fn push_attr(out: &mut Bin, attr: &Attr) -> Result<(), Memory>
    requires { length attr.now.name < 256 }
    ensures { OnOk result (out.new ≡ out.old ++ attr_bytes attr.now) }
{
    push_name(out, &attr.name)?;
    out.append(&[kind_code(attr.kind), u8::from(attr.index)])?;
    Ok(())
}

/// Puts a schema at the end: a byte for the number of attributes, and of each its name, its kind (1, 2, 3) and whether
/// it is indexed (0, 1). After `Memory` a part of it may stand there.
#[tactic(auto, using(crate::proofs::SchemaLemmas::few_attributes, crate::proofs::SchemaLemmas::short_name))]
pub fn push_schema(out: &mut Bin, schema: &Schema) -> Result<(), Memory>
    requires { IsTrue (is_list schema.now) }
    ensures { OnOk result (out.new ≡ out.old ++ schema_bytes schema.now) }
{
    out.append(&[schema.attrs.len() as u8])?;
    for attr in &schema.attrs {
        push_attr(out, attr)?;
    }
    Ok(())
}

#[tactic(auto, unfolding(crate::specs::Reading::kind_front))]
fn front_kind(bytes: &[u8]) -> Option<(Kind, &[u8])>
    ensures { kind_front bytes.now ≡ option_map (λ x. (x.0, x.1.now)) result }
{
    let (code, rest) = front_byte(bytes)?;
    match code {
        1 => Some((Kind::Int, rest)),
        2 => Some((Kind::Text, rest)),
        3 => Some((Kind::Bytes, rest)),
        _ => None,
    }
}

#[tactic(auto, unfolding(crate::specs::Reading::flag_front))]
fn front_flag(bytes: &[u8]) -> Option<(bool, &[u8])>
    ensures { flag_front bytes.now ≡ option_map (λ x. (x.0, x.1.now)) result }
{
    let (code, rest) = front_byte(bytes)?;
    match code {
        0 => Some((false, rest)),
        1 => Some((true, rest)),
        _ => None,
    }
}

#[tactic(auto, unfolding(crate::specs::Reading::attr_front))]
fn front_attr(alloc: Global, bytes: &[u8]) -> Result<(Attr, &[u8]), ReadFault>
    ensures { ReadsFront result (attr_front bytes.now) }
{
    let (name, rest) = front_name(alloc, bytes)?;
    let Some((kind, rest)) = front_kind(rest) else {
        return Err(ReadFault::Malformed);
    };
    let Some((index, rest)) = front_flag(rest) else {
        return Err(ReadFault::Malformed);
    };
    Ok((Attr { name, kind, index }, rest))
}

fn front_attrs(alloc: Global, count: u8, bytes: &[u8]) -> Result<(Vec<Attr>, &[u8]), ReadFault>
    ensures { Reads (λ x. (x.0.items, x.1.now)) result (several count attr_front bytes.now) }
{
    let mut attrs = Vec::new(alloc);
    let mut rest = bytes;
    for _ in 0..count {
        let (attr, after) = front_attr(alloc, rest)?;
        attrs.push(attr)?;
        rest = after;
    }
    Ok((attrs, rest))
}

/// The schema that the bytes begin with, and the bytes behind it. `Malformed` comes exactly where they begin with none:
/// one has at most `ATTRIBUTE_LIMIT` attributes, whose names differ.
#[tactic(auto, unfolding(crate::specs::Reading::schema_front))]
pub fn front_schema(alloc: Global, bytes: &[u8]) -> Result<(Schema, &[u8]), ReadFault>
    ensures { ReadsFront result (schema_front bytes.now) }
{
    let Some((count, rest)) = front_byte(bytes) else {
        return Err(ReadFault::Malformed);
    };
    let (attrs, rest) = front_attrs(alloc, count, rest)?;
    if !is_list(&attrs) {
        return Err(ReadFault::Malformed);
    }
    Ok((Schema { attrs }, rest))
}

// ---- records

/// Puts a record at the end: a byte for the number of values, and the encoding of each. After `Memory` a part of it may
/// stand there.
pub fn push_record(out: &mut Bin, values: &Record) -> Result<(), Memory>
    requires { IsRecord values.now }
    ensures { OnOk result (out.new ≡ out.old ++ record_bytes values.now) }
{
    out.append(&[values.values.len() as u8])?;
    for value in &values.values {
        push_value(out, value)?;
    }
    Ok(())
}

fn front_stored(alloc: Global, bytes: &[u8]) -> Result<(Value, &[u8]), ReadFault>
    ensures { ReadsFront result (stored_front bytes.now) }
{
    match front_value(alloc, bytes) {
        Ok(found) => Ok(found),
        Err(ValueFault::Memory) => Err(ReadFault::Memory),
        Err(_) => Err(ReadFault::Malformed),
    }
}

fn front_values(alloc: Global, count: u8, bytes: &[u8]) -> Result<(Vec<Value>, &[u8]), ReadFault>
    ensures { Reads (λ x. (x.0.items, x.1.now)) result (several count stored_front bytes.now) }
{
    let mut values = Vec::new(alloc);
    let mut rest = bytes;
    for _ in 0..count {
        let (value, after) = front_stored(alloc, rest)?;
        values.push(value)?;
        rest = after;
    }
    Ok((values, rest))
}

/// The record that the bytes begin with, and the bytes behind it. `Malformed` comes exactly where they begin with none:
/// one has at most `RECORD_LIMIT` bytes.
#[tactic(auto, unfolding(crate::specs::Reading::record_front))]
pub fn front_record(alloc: Global, bytes: &[u8]) -> Result<(Record, &[u8]), ReadFault>
    ensures { ReadsFront result (record_front bytes.now) }
{
    let Some((count, rest)) = front_byte(bytes) else {
        return Err(ReadFault::Malformed);
    };
    let (values, rest) = front_values(alloc, count, rest)?;
    if !is_short(&values) {
        return Err(ReadFault::Malformed);
    }
    Ok((Record { values }, rest))
}
