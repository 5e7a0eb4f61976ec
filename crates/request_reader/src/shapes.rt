//! The shape of a request's objects.
ghost use Rattle.std.specs.Prelude.{◌≡◌, map, option_map};
ghost use Rattle.std.specs.List.{list_all};
ghost use Rattle.request_reader.specs.Forms.{form_in, verb_in, verb_of, form_of, attribute_form, is_given, fits, member_fits, members_fit, is_known, has_form, part_fits, parts_fit, body_fits};

use crate::forms::{
    ADD, ATTRIBUTE, DROP, END, LINK, Member, PUT, Place, SET, TYPE, UNLINK, VERBS, Verb,
};
use a1_base::Txt;
use a1_json::{Json, fields_in, items_in, member};

// ---- the tables

fn verb_in(verbs: &[(&str, Verb)], name: &str) -> Option<Verb>
    ensures { result ≡ verb_in (map (λ v. (v.0.now, v.1)) verbs.now) name.now }
{
    for verb in verbs {
        if verb.0 == name {
            return Some(verb.1);
        }
    }
    None
}

/// The operation of this name.
#[tactic(auto, unfolding(crate::specs::Forms::verb_of))]
pub fn verb_of(name: &str) -> Option<Verb>
    ensures { result ≡ verb_of name.now }
{
    verb_in(VERBS, name)
}

/// The form of an operation's object; the first three have none.
pub fn form_of(verb: Verb) -> &'static [Member]
    ensures { form_in result.now ≡ form_of verb }
{
    match verb {
        Verb::CreateTenant | Verb::CreateGraph | Verb::DropGraph => &[],
        Verb::CreateVertexType | Verb::CreateEdgeType => TYPE,
        Verb::Put => PUT,
        Verb::Set => SET,
        Verb::Add => ADD,
        Verb::Drop => DROP,
        Verb::Link => LINK,
        Verb::Unlink => UNLINK,
    }
}

// ---- members

fn is_given(json: &Json) -> bool
    ensures { result ≡ is_given json.now }
{
    json.as_int().is_some() || json.as_text().is_some()
}

fn are_given(members: &[(Txt, Json)]) -> bool
    ensures { result ≡ list_all (λ m. is_given m.1) members.now }
{
    members.iter().all(|member| is_given(&member.1))
}

// Whether it is of the place's JSON kind.
fn fits(place: Place, json: &Json) -> bool
    ensures { result ≡ fits place json.now }
{
    match place {
        Place::Name | Place::Graph | Place::Text => json.as_text().is_some(),
        Place::Key => is_given(json),
        Place::Number => json.as_int().is_some(),
        Place::Flag => json.as_flag().is_some(),
        Place::Values => json.as_members().is_some() && are_given(fields_in(json)),
        Place::End => json.as_members().is_some(),
        Place::Attributes => json.as_list().is_some(),
    }
}

fn member_fits(place: Place, must: bool, json: Option<&Json>) -> bool
    ensures { result ≡ member_fits place must (option_map (λ j. j.now) json.entry) }
{
    match json {
        Some(json) => fits(place, json),
        None => !must,
    }
}

fn members_fit(form: &[Member], members: &[(Txt, Json)]) -> bool
    ensures { result ≡ members_fit (form_in form.now) members.now }
{
    for m in form {
        if !member_fits(m.1, m.2, member(members, m.0)) {
            return false;
        }
    }
    true
}

fn is_known(form: &[Member], name: &str) -> bool
    ensures { result ≡ is_known (form_in form.now) name.now }
{
    for m in form {
        if m.0 == name {
            return true;
        }
    }
    false
}

fn are_known(form: &[Member], members: &[(Txt, Json)]) -> bool
    ensures { result ≡ list_all (λ m. is_known (form_in form.now) m.0) members.now }
{
    members.iter().all(|m| is_known(form, m.0.as_text()))
}

// Whether it is an object of the form's members, and no others.
#[tactic(auto, unfolding(crate::specs::Forms::has_form))]
fn has_form(form: &[Member], json: &Json) -> bool
    ensures { result ≡ has_form (form_in form.now) json.now }
{
    match json.as_members() {
        Some(members) => members_fit(form, members) && are_known(form, members),
        None => false,
    }
}

// ---- operations

fn are_attributes(items: &[Json]) -> bool
    ensures { result ≡ list_all (has_form attribute_form) items.now }
{
    items.iter().all(|item| has_form(ATTRIBUTE, item))
}

fn part_fits(place: Place, json: Option<&Json>) -> bool
    ensures { result ≡ part_fits place (option_map (λ j. j.now) json.entry) }
{
    match (place, json) {
        (Place::End, Some(json)) => has_form(END, json),
        (Place::Attributes, Some(json)) => are_attributes(items_in(json)),
        _ => true,
    }
}

fn parts_fit(form: &[Member], members: &[(Txt, Json)]) -> bool
    ensures { result ≡ parts_fit (form_in form.now) members.now }
{
    for m in form {
        if !part_fits(m.1, member(members, m.0)) {
            return false;
        }
    }
    true
}

/// Whether what stands at an operation's name has its form.
#[tactic(auto, unfolding(crate::specs::Forms::body_fits))]
pub fn body_fits(verb: Verb, json: &Json) -> bool
    ensures { result ≡ body_fits verb json.now }
{
    match verb {
        Verb::CreateTenant => fits(Place::Name, json),
        Verb::CreateGraph | Verb::DropGraph => fits(Place::Graph, json),
        Verb::CreateVertexType
        | Verb::CreateEdgeType
        | Verb::Put
        | Verb::Set
        | Verb::Add
        | Verb::Drop
        | Verb::Link
        | Verb::Unlink => {
            has_form(form_of(verb), json) && parts_fit(form_of(verb), fields_in(json))
        }
    }
}
