//! From a request's members to a record.
ghost use Rattle.std.specs.Prelude.{◌≡◌, Ok, IfOk, IsTrue, option_map, option_and_then};
ghost use Rattle.a1_value.specs.Encoding.{value_size};
ghost use Rattle.type_schema.specs.declared.refusal.Word.TheVariants as word;
ghost use Rattle.type_schema.specs.Refusals.{refused_at, need, Gives};
ghost use Rattle.type_schema.specs.Schemas.{fits, most, member, missing, unknown, value_in, made, too_long, if_short, checked, kind_of_key, key_in, key_of};

use crate::form::is_attr;
use crate::size::is_short;
use crate::{Attr, GraphFault, Kind, Record, Schema, Word, refuse, refuse_at};
use a1_base::{Bin, KEY_LIMIT, TEXT_LIMIT, Txt};
use a1_value::{Given, Value};
use hex::FromHexError;
use std::alloc::{AllocError, Global};

// ---- members and attributes

/// What the member of this name gives.
pub fn member<'a>(members: &'a [(Txt, Given)], name: &Txt) -> Option<&'a Given>
    ensures { option_map (λ g. g.now) result ≡ member name.now members.now }
{
    for member in members {
        if member.0.as_bytes() == name.as_bytes() {
            return Some(&member.1);
        }
    }
    None
}

// The first attribute that the members lack.
fn missing<'a>(attrs: &'a [Attr], members: &[(Txt, Given)]) -> Option<&'a Txt>
    ensures { option_map (λ n. n.now) result ≡ missing attrs.now members.now }
{
    for attr in attrs {
        if member(members, &attr.name).is_none() {
            return Some(&attr.name);
        }
    }
    None
}

/// The first member that the attributes lack.
pub fn unknown<'a>(attrs: &[Attr], members: &'a [(Txt, Given)]) -> Option<&'a Txt>
    ensures { option_map (λ n. n.now) result ≡ unknown attrs.now members.now }
{
    for member in members {
        if !is_attr(attrs, member.0.as_text()) {
            return Some(&member.0);
        }
    }
    None
}

// ---- values

// The value that hexadecimal digits spell.
fn bytes_in(alloc: Global, text: &Txt) -> Result<Option<Value>, AllocError>
    ensures { IfOk result (λ v. v ≡ value_in Kind.Bytes (Given.Text text.now)) }
{
    match hex::decode(alloc, text.as_text()) {
        Ok(bytes) => Ok(Some(Value::Bytes(Bin::from_vec(bytes)))),
        Err(FromHexError::OutOfMemory) => Err(AllocError),
        Err(_) => Ok(None),
    }
}

/// The value of this kind that is given, where what is given is of the kind. `AllocError` comes for want of memory.
pub fn value_in(alloc: Global, kind: Kind, given: &Given) -> Result<Option<Value>, AllocError>
    ensures { IfOk result (λ v. v ≡ value_in kind given.now) }
{
    match (kind, given) {
        (Kind::Int, Given::Int(n)) => Ok(Some(Value::Int(*n))),
        (Kind::Text, Given::Text(text)) => Ok(Some(Value::Text(text.copy(alloc)?))),
        (Kind::Bytes, Given::Text(text)) => bytes_in(alloc, text),
        _ => Ok(None),
    }
}

/// The value of an attribute that is given.
#[tactic(auto, unfolding(crate::specs::Refusals::need))]
pub fn value_given(alloc: Global, attr: &Attr, given: &Given) -> Result<Value, GraphFault>
    ensures { Gives result
        (need (value_in attr.now.kind given.now) (refused_at word.Kind attr.now.name) Ok) }
{
    match value_in(alloc, attr.kind, given)? {
        Some(value) => Ok(value),
        None => refuse_at(alloc, Word::Kind, &attr.name),
    }
}

// The value of an attribute that the members give.
#[tactic(auto, unfolding(crate::specs::Refusals::need))]
fn value_at(alloc: Global, attr: &Attr, members: &[(Txt, Given)]) -> Result<Value, GraphFault>
    ensures { Gives result
        (need (option_and_then (value_in attr.now.kind) (member attr.now.name members.now))
        (refused_at word.Kind attr.now.name) Ok) }
{
    match member(members, &attr.name) {
        Some(given) => value_given(alloc, attr, given),
        None => refuse_at(alloc, Word::Kind, &attr.name),
    }
}

// The members' values.
#[tactic(auto, using(crate::proofs::CheckLemmas::making))]
fn made(alloc: Global, attrs: &[Attr], members: &[(Txt, Given)]) -> Result<Record, GraphFault>
    ensures { Gives result (made attrs.now members.now) }
{
    let mut values = Vec::new(alloc);
    for attr in attrs {
        values.push(value_at(alloc, attr, members)?)?;
    }
    Ok(Record { values })
}

// ---- lengths

// The most bytes of an attribute's value.
fn most(attr: &Attr) -> usize
    ensures { result ≡ most attr.now }
{
    if attr.name.as_text() == "id" || attr.index {
        KEY_LIMIT
    } else {
        TEXT_LIMIT
    }
}

// The bytes of a text or a list of bytes.
fn value_size(value: &Value) -> usize
    ensures { result ≡ value_size value.now }
{
    match value {
        Value::Int(_) => 0,
        Value::Text(text) => text.as_bytes().len(),
        Value::Bytes(bytes) => bytes.as_slice().len(),
    }
}

// The first attribute whose value is too long.
fn too_long<'a>(attrs: &'a [Attr], values: &[Value]) -> Option<&'a Txt>
    ensures { option_map (λ n. n.now) result ≡ too_long attrs.now values.now }
{
    let mut rest = values;
    for attr in attrs {
        let [value, after @ ..] = rest else {
            return None;
        };
        if most(attr) < value_size(value) {
            return Some(&attr.name);
        }
        rest = after;
    }
    None
}

/// The values, where none is too long and they are not too long together.
#[tactic(auto, unfolding(crate::specs::Refusals::unless, crate::specs::Refusals::unless_at), using(crate::proofs::CheckLemmas::over))]
pub fn if_short(alloc: Global, attrs: &[Attr], values: Record) -> Result<Record, GraphFault>
    ensures { Gives result (if_short attrs.now values) }
{
    if let Some(name) = too_long(attrs, &values.values) {
        return refuse_at(alloc, Word::Long, name);
    }
    if !is_short(&values.values) {
        return refuse(Word::RecordLong);
    }
    Ok(values)
}

// ---- records

#[tactic(auto, unfolding(crate::specs::Schemas::checked, crate::specs::Refusals::unless_at, crate::specs::Refusals::passing))]
fn checked(alloc: Global, attrs: &[Attr], members: &[(Txt, Given)]) -> Result<Record, GraphFault>
    ensures { Gives result (checked attrs.now members.now) }
{
    if let Some(name) = missing(attrs, members) {
        return refuse_at(alloc, Word::Missing, name);
    }
    if let Some(name) = unknown(attrs, members) {
        return refuse_at(alloc, Word::Unknown, name);
    }
    let values = made(alloc, attrs, members)?;
    if_short(alloc, attrs, values)
}

/// The record that a put or a link of these members makes, which stand by name in byte order. The first fault is told, in
/// this order: an attribute is `Missing`; a member is `Unknown`; a value is not of its `Kind`; one is too `Long`; the
/// record is (`RecordLong`). Each but the last names the first attribute, or member, that has it.
#[tactic(auto, using(crate::proofs::CheckLemmas::check_fits))]
pub fn check(alloc: Global, s: &Schema, members: &[(Txt, Given)]) -> Result<Record, GraphFault>
    ensures exact { Gives result (checked s.now members.now) }
    ensures fits { IfOk result (λ values. IsTrue (fits s.now values)) }
{
    checked(alloc, &s.attrs, members)
}

// ---- keys

fn kind_of_key(attrs: &[Attr]) -> Kind
    ensures { result ≡ kind_of_key attrs.now }
{
    match attrs {
        [first, ..] => first.kind,
        [] => Kind::Int,
    }
}

/// The key that a request names. It is refused where it is not of the first attribute's `Kind`, or has more than
/// `KEY_LIMIT` bytes (`Long`); both speak of `id`.
#[tactic(auto, unfolding(crate::specs::Schemas::key_in, crate::specs::Refusals::need, crate::specs::Refusals::unless))]
pub fn key(alloc: Global, s: &Schema, given: &Given) -> Result<Value, GraphFault>
    ensures { Gives result (key_in s.now given.now) }
{
    let Some(value) = value_in(alloc, kind_of_key(&s.attrs), given)? else {
        return refuse_at(alloc, Word::Kind, &Txt::from_text(alloc, "id")?);
    };
    if KEY_LIMIT < value_size(&value) {
        return refuse_at(alloc, Word::Long, &Txt::from_text(alloc, "id")?);
    }
    Ok(value)
}

/// A copy of a record's first value, which is the key of a vertex. The error is want of memory.
pub fn key_of(alloc: Global, values: &Record) -> Result<Value, AllocError>
    ensures { IfOk result (λ k. k ≡ key_of values.now) }
{
    match values.values.as_slice() {
        [first, ..] => first.copy(alloc),
        [] => Ok(Value::Int(0)),
    }
}
