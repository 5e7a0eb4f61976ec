//! Records that a set or an add leaves.
ghost use Rattle.std.specs.Prelude.{◌≡◌, ◌∷◌, ◌++◌, [], Ok, OnOk, IfOk, MatchOption, IsTrue};
ghost use Rattle.type_schema.specs.declared.refusal.Word.TheVariants as word;
ghost use Rattle.type_schema.specs.Refusals.{refused_at, need, unless_at, passing, Gives};
ghost use Rattle.type_schema.specs.Schemas.{fits, behind, member, unknown, value_over, made_over, if_short, merged, sum_in, added_to, added};

use crate::checking::{if_short, member, unknown, value_given};
use crate::{Attr, GraphFault, Record, Schema, Word, refuse, refuse_at};
use a1_base::Txt;
use a1_value::{Given, Value};
use std::alloc::{AllocError, Global};

// The first of a list, and those behind it.
fn first<T>(list: &[T]) -> Option<(&T, &[T])>
    ensures { MatchOption result (list.now ≡ []) (λ x. list.now ≡ x.0.now ∷ x.1.now) }
{
    match list {
        [first, rest @ ..] => Some((first, rest)),
        [] => None,
    }
}

// Puts copies of values at the end.
fn push_values(alloc: Global, values: &mut Vec<Value>, more: &[Value]) -> Result<(), AllocError>
    ensures { OnOk result (values.new.items ≡ values.old.items ++ more.now) }
{
    for value in more {
        values.push(value.copy(alloc)?)?;
    }
    Ok(())
}

// ---- a set

// The value of an attribute that the members give, or else the old one.
#[tactic(auto, unfolding(crate::specs::Refusals::need))]
fn value_over(
    alloc: Global,
    attr: &Attr,
    old: &Value,
    members: &[(Txt, Given)],
) -> Result<Value, GraphFault>
    ensures { Gives result
        (need (value_over attr.now.kind old.now (member attr.now.name members.now))
        (refused_at word.Kind attr.now.name) Ok) }
{
    match member(members, &attr.name) {
        Some(given) => value_given(alloc, attr, given),
        None => Ok(old.copy(alloc)?),
    }
}

// The key, and the old values with those of the members in their place.
#[tactic(auto, using(crate::proofs::CheckLemmas::making_over))]
fn made_over(
    alloc: Global,
    key: &Value,
    attrs: &[Attr],
    old: &[Value],
    members: &[(Txt, Given)],
) -> Result<Record, GraphFault>
    ensures { Gives result (behind key.now (made_over attrs.now old.now members.now)) }
{
    let mut values = Vec::new(alloc);
    values.push(key.copy(alloc)?)?;
    let mut rest = old;
    for attr in attrs {
        let Some((value, after)) = first(rest) else {
            return Ok(Record { values });
        };
        values.push(value_over(alloc, attr, value, members)?)?;
        rest = after;
    }
    push_values(alloc, &mut values, rest)?;
    Ok(Record { values })
}

// The set of these members where a type has no attributes.
#[tactic(auto, unfolding(crate::specs::Schemas::merged, crate::specs::Refusals::unless_at))]
fn merged_none(
    alloc: Global,
    attrs: &[Attr],
    old: &Record,
    members: &[(Txt, Given)],
) -> Result<Record, GraphFault>
    requires { attrs.now ≡ [] }
    ensures { Gives result (merged attrs.now old.now members.now) }
{
    if let Some(name) = unknown(attrs, members) {
        return refuse_at(alloc, Word::Unknown, name);
    }
    if_short(alloc, attrs, old.copy(alloc)?)
}

// The set of these members behind the key.
#[tactic(auto, unfolding(crate::specs::Refusals::unless_at, crate::specs::Refusals::passing))]
fn merged_behind(
    alloc: Global,
    attrs: &[Attr],
    settable: &[Attr],
    key: &Value,
    old: &[Value],
    members: &[(Txt, Given)],
) -> Result<Record, GraphFault>
    ensures { Gives result (unless_at (unknown settable.now members.now) (refused_at word.Unknown)
        (passing (behind key.now (made_over settable.now old.now members.now)) (if_short attrs.now))) }
{
    if let Some(name) = unknown(settable, members) {
        return refuse_at(alloc, Word::Unknown, name);
    }
    let values = made_over(alloc, key, settable, old, members)?;
    if_short(alloc, attrs, values)
}

#[tactic(auto, unfolding(crate::specs::Schemas::merged))]
fn merged(
    alloc: Global,
    attrs: &[Attr],
    old: &Record,
    members: &[(Txt, Given)],
) -> Result<Record, GraphFault>
    ensures { Gives result (merged attrs.now old.now members.now) }
{
    let Some((id, settable)) = first(attrs) else {
        return merged_none(alloc, attrs, old, members);
    };
    let Some((key, values)) = first(&old.values) else {
        return refuse_at(alloc, Word::Missing, &id.name);
    };
    merged_behind(alloc, attrs, settable, key, values, members)
}

/// The record that a set of these members leaves, which stand by name in byte order; or the first fault. The first
/// attribute is the key: a member of its name is `Unknown`, and its value stays. So does each that no member names:
/// nothing is `Missing` but the key of a record without values.
#[tactic(auto, using(crate::proofs::CheckLemmas::merge_fits))]
pub fn merge(
    alloc: Global,
    s: &Schema,
    old: &Record,
    members: &[(Txt, Given)],
) -> Result<Record, GraphFault>
    ensures exact { Gives result (merged s.now old.now members.now) }
    ensures fits { IsTrue (fits s.now old.now) → IfOk result (λ values. IsTrue (fits s.now values)) }
{
    merged(alloc, &s.attrs, old, members)
}

// ---- an add

// The sum of a value and a number.
#[tactic(auto, unfolding(crate::specs::Refusals::unless, crate::specs::Refusals::passing))]
fn sum_in(alloc: Global, attr: &Attr, value: &Value, by: i64) -> Result<Value, GraphFault>
    ensures { Gives result (passing (sum_in attr.now value.now by) (λ n. Ok (Value.Int n))) }
{
    let Value::Int(n) = value else {
        return refuse_at(alloc, Word::Kind, &attr.name);
    };
    match n.checked_add(by) {
        Some(sum) => Ok(Value::Int(sum)),
        None => refuse(Word::Overflow),
    }
}

// The key, and the old values with a number added to one.
#[tactic(auto, using(crate::proofs::AddLemmas::adding))]
fn added_to(
    alloc: Global,
    key: &Value,
    attrs: &[Attr],
    old: &[Value],
    name: &Txt,
    by: i64,
) -> Result<Record, GraphFault>
    ensures { Gives result (behind key.now (added_to attrs.now old.now name.now by)) }
{
    let mut values = Vec::new(alloc);
    values.push(key.copy(alloc)?)?;
    let mut rest = old;
    for attr in attrs {
        let Some((value, after)) = first(rest) else {
            return refuse(Word::NoAttr);
        };
        if attr.name.as_bytes() == name.as_bytes() {
            values.push(sum_in(alloc, attr, value, by)?)?;
            push_values(alloc, &mut values, after)?;
            return Ok(Record { values });
        }
        values.push(value.copy(alloc)?)?;
        rest = after;
    }
    refuse(Word::NoAttr)
}

#[tactic(auto, unfolding(crate::specs::Schemas::added))]
fn added(
    alloc: Global,
    attrs: &[Attr],
    old: &Record,
    name: &Txt,
    by: i64,
) -> Result<Record, GraphFault>
    ensures { Gives result (added attrs.now old.now name.now by) }
{
    let Some((_, addable)) = first(attrs) else {
        return refuse(Word::NoAttr);
    };
    let Some((key, values)) = first(&old.values) else {
        return refuse(Word::NoAttr);
    };
    added_to(alloc, key, addable, values, name, by)
}

/// The record with a number added to the value of one attribute. It is refused where the attribute is the key or none
/// (`NoAttr`), where its value is no number (`Kind`), and where the sum is no number of 64 bits (`Overflow`).
#[tactic(auto, using(crate::proofs::AddLemmas::add_fits))]
pub fn add(
    alloc: Global,
    s: &Schema,
    old: &Record,
    attr: &Txt,
    by: i64,
) -> Result<Record, GraphFault>
    ensures exact { Gives result (added s.now old.now attr.now by) }
    ensures fits { IsTrue (fits s.now old.now) → IfOk result (λ values. IsTrue (fits s.now values)) }
{
    added(alloc, &s.attrs, old, attr, by)
}
