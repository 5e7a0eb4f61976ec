//! Store values as bytes.
ghost use Rattle.std.specs.Prelude.{◌≡◌, ◌++◌, IfOk, OnOk, IsTrue, option_map};
ghost use Rattle.a1_base.specs.Fronts.{whole, ReadsFront, ReadsWhole};
ghost use Rattle.type_schema.specs.Layout.{row_value, type_bytes};
ghost use Rattle.type_schema.specs.Formed.{is_type, FitsKey};
ghost use Rattle.type_schema.specs.Reading.{record_front};
ghost use Rattle.graph_changes.specs.Reading.{counter_front, graph_number_front, schema_of, type_schema_front, value_whole};

use crate::keys::front_graph_number;
use a1_base::{Bin, GRAPH_NUMBER_LIMIT, Memory, ReadFault, front_byte, front_u64, push_u64};
use std::alloc::Global;
use type_schema::{
    Record, Schema, StoreKey, StoreValue, TypeSchema, front_record, front_schema, is_type,
    push_record, push_schema,
};

// ---- writing

#[tactic(auto, using(type_schema::proofs::SchemaLemmas::lists))]
fn push_type_schema(out: &mut Bin, schema: &TypeSchema) -> Result<(), Memory>
    requires { IsTrue (is_type schema.now) }
    ensures { OnOk result (out.new ≡ out.old ++ type_bytes schema.now) }
{
    match schema {
        TypeSchema::OfVertices(schema) => {
            out.append(&[1])?;
            push_schema(out, schema)
        }
        TypeSchema::OfEdges(schema) => {
            out.append(&[2])?;
            push_schema(out, schema)
        }
    }
}

/// The bytes of a value, which has the form of this key.
pub fn encode_value(alloc: Global, key: &StoreKey, value: &StoreValue) -> Result<Bin, Memory>
    requires { FitsKey key.now value.now }
    ensures { IfOk result (λ bytes. bytes ≡ row_value value.now) }
{
    let mut out = Bin::new(alloc);
    match value {
        StoreValue::Nothing => {}
        StoreValue::Number(n) => push_u64(&mut out, *n)?,
        StoreValue::Schema(schema) => push_type_schema(&mut out, schema)?,
        StoreValue::Record(values) => push_record(&mut out, values)?,
    }
    Ok(out)
}

// ---- reading

#[tactic(auto, unfolding(crate::specs::Reading::counter_front))]
fn front_counter(bytes: &[u8]) -> Option<(u64, &[u8])>
    ensures { counter_front bytes.now ≡ option_map (λ x. (x.0, x.1.now)) result }
{
    let (number, rest) = front_u64(bytes)?;
    if number >= 2 && number <= GRAPH_NUMBER_LIMIT {
        Some((number, rest))
    } else {
        None
    }
}

fn whole_counter(bytes: &[u8]) -> Option<u64>
    ensures { result ≡ whole counter_front bytes.now }
{
    let (number, rest) = front_counter(bytes)?;
    if rest.is_empty() { Some(number) } else { None }
}

fn whole_graph_number(bytes: &[u8]) -> Option<u64>
    ensures { result ≡ whole graph_number_front bytes.now }
{
    let (number, rest) = front_graph_number(bytes)?;
    if rest.is_empty() { Some(number) } else { None }
}

#[tactic(auto, unfolding(crate::specs::Reading::type_schema_front))]
fn front_type_schema(alloc: Global, bytes: &[u8]) -> Result<(TypeSchema, &[u8]), ReadFault>
    ensures { ReadsFront result (type_schema_front bytes.now) }
{
    let Some((tag, rest)) = front_byte(bytes) else {
        return Err(ReadFault::Malformed);
    };
    if tag < 1 || tag > 2 {
        return Err(ReadFault::Malformed);
    }
    let (schema, rest) = front_schema(alloc, rest)?;
    let schema = schema_of(tag, schema);
    if !is_type(&schema) {
        return Err(ReadFault::Malformed);
    }
    Ok((schema, rest))
}

fn schema_of(tag: u8, schema: Schema) -> TypeSchema
    ensures { result ≡ schema_of tag schema }
{
    if tag == 1 {
        TypeSchema::OfVertices(schema)
    } else {
        TypeSchema::OfEdges(schema)
    }
}

fn whole_type_schema(alloc: Global, bytes: &[u8]) -> Result<TypeSchema, ReadFault>
    ensures { ReadsWhole result (whole type_schema_front bytes.now) }
{
    let (schema, rest) = front_type_schema(alloc, bytes)?;
    if !rest.is_empty() {
        return Err(ReadFault::Malformed);
    }
    Ok(schema)
}

fn whole_record(alloc: Global, bytes: &[u8]) -> Result<Record, ReadFault>
    ensures { ReadsWhole result (whole record_front bytes.now) }
{
    let (values, rest) = front_record(alloc, bytes)?;
    if !rest.is_empty() {
        return Err(ReadFault::Malformed);
    }
    Ok(values)
}

// A number, where there is one.
fn number_value(number: Option<u64>) -> Result<StoreValue, ReadFault>
    ensures { ReadsWhole result (option_map StoreValue.Number number) }
{
    match number {
        Some(number) => Ok(StoreValue::Number(number)),
        None => Err(ReadFault::Malformed),
    }
}

/// The value of this key that bytes are. `Malformed` comes exactly where they are none.
#[tactic(auto, unfolding(crate::specs::Reading::value_whole))]
pub fn decode_value(alloc: Global, key: &StoreKey, bytes: &[u8]) -> Result<StoreValue, ReadFault>
    ensures { ReadsWhole result (value_whole key.now bytes.now) }
{
    match key {
        StoreKey::Counter => number_value(whole_counter(bytes)),
        StoreKey::Tenant(_) => {
            if bytes.is_empty() {
                Ok(StoreValue::Nothing)
            } else {
                Err(ReadFault::Malformed)
            }
        }
        StoreKey::Graph(_) => number_value(whole_graph_number(bytes)),
        StoreKey::TypeKey(_) => Ok(StoreValue::Schema(whole_type_schema(alloc, bytes)?)),
        StoreKey::Vertex(_) | StoreKey::Edge(_) => Ok(StoreValue::Record(whole_record(
            alloc, bytes,
        )?)),
    }
}
