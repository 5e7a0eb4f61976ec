//! What the values in a pattern say, apart from the patterns inside it.
ghost use Rattle.std.specs.Prelude.{◌≡◌, [], ◌∷◌, option_map, IfOk};
ghost use Rattle.a1ql_reader.specs.declared.patterns.Comparison.TheVariants.{Eq};
ghost use Rattle.a1_json.specs.Fields.{fields_in, items_in, as_text};
ghost use Rattle.a1ql_reader.specs.Values.{given_of, compared, tests_at, tests_in, texts_of, is_count_text, is_count, selected, select_in};

use crate::places::{comparison_named, is_reserved};
use crate::{Comparison, Select, Test};
use a1_base::Txt;
use a1_json::{Json, fields_in, items_in};
use a1_value::Given;
use sqlite_items::Items;
use std::alloc::{AllocError, Global};

// ---- comparisons

/// A number or a text, as it is given; none where it is neither. `AllocError` comes for want of memory.
pub fn given_of(alloc: Global, json: &Json) -> Result<Option<Given>, AllocError>
    ensures { IfOk result (λ given. given ≡ given_of json.now) }
{
    if let Some(number) = json.as_int() {
        return Ok(Some(Given::Int(number)));
    }
    match json.as_text() {
        Some(text) => Ok(Some(Given::Text(Txt::from_text(alloc, text)?))),
        None => Ok(None),
    }
}

// The comparisons of an attribute with the members of an object.
fn compared(alloc: Global, attr: &Txt, members: &[(Txt, Json)]) -> Result<Items<Test>, AllocError>
    ensures { IfOk result (λ tests. tests ≡ compared attr.now members.now) }
{
    let mut tests = Items::new(alloc);
    for member in members {
        let value = given_of(alloc, &member.1)?;
        if let (Some(op), Some(value)) = (comparison_named(member.0.as_text()), value) {
            let attr = attr.copy(alloc)?;
            tests.push(Test { attr, op, value })?;
        }
    }
    Ok(tests)
}

fn equal_to(alloc: Global, attr: &Txt, value: Given) -> Result<Items<Test>, AllocError>
    ensures { IfOk result (λ tests. tests ≡ record { attr = attr.now; op = Eq; value = value } ∷ []) }
{
    let attr = attr.copy(alloc)?;
    let op = Comparison::Eq;
    let mut tests = Items::new(alloc);
    tests.push(Test { attr, op, value })?;
    Ok(tests)
}

fn tests_at(alloc: Global, attr: &Txt, json: &Json) -> Result<Items<Test>, AllocError>
    ensures { IfOk result (λ tests. tests ≡ tests_at attr.now json.now) }
{
    match given_of(alloc, json)? {
        Some(value) => equal_to(alloc, attr, value),
        None => compared(alloc, attr, fields_in(json)),
    }
}

/// The comparisons of a pattern's members.
pub fn tests_in(alloc: Global, members: &[(Txt, Json)]) -> Result<Items<Test>, AllocError>
    ensures { IfOk result (λ tests. tests ≡ tests_in members.now) }
{
    let mut tests = Items::new(alloc);
    for member in members {
        if !is_reserved(member.0.as_text()) {
            tests.append(tests_at(alloc, &member.0, &member.1)?)?;
        }
    }
    Ok(tests)
}

// ---- what is selected

fn texts_of(alloc: Global, items: &[Json]) -> Result<Items<Txt>, AllocError>
    ensures { IfOk result (λ texts. texts ≡ texts_of items.now) }
{
    let mut texts = Items::new(alloc);
    for item in items {
        if let Some(text) = item.as_text() {
            texts.push(Txt::from_text(alloc, text)?)?;
        }
    }
    Ok(texts)
}

fn is_count_text(text: Option<&str>) -> bool
    ensures { result ≡ is_count_text (option_map (λ t. t.now) text.entry) }
{
    match text {
        Some(text) => text == "_count(*)",
        None => false,
    }
}

// Whether it is `["_count(*)"]`.
fn is_count(items: &[Json]) -> bool
    ensures { result ≡ is_count items.now }
{
    match items {
        [only] => is_count_text(only.as_text()),
        _ => false,
    }
}

fn selected(alloc: Global, items: &[Json]) -> Result<Select, AllocError>
    ensures { IfOk result (λ select. select ≡ selected items.now) }
{
    if is_count(items) {
        Ok(Select::Count)
    } else {
        Ok(Select::Names(texts_of(alloc, items)?))
    }
}

/// What is selected by this value of `_select`, where it is there.
pub fn select_in(alloc: Global, json: Option<&Json>) -> Result<Select, AllocError>
    ensures { IfOk result (λ select. select ≡ select_in (option_map (λ j. j.now) json.entry)) }
{
    match json {
        Some(json) => selected(alloc, items_in(json)),
        None => Ok(Select::All),
    }
}
