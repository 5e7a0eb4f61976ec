//! The names in a request's objects.
ghost use Rattle.std.specs.Prelude.{◌≡◌, ◌&&◌, is_some, option_map, option_and_then};
ghost use Rattle.std.specs.List.{list_all};
ghost use Rattle.a1_json.specs.Fields.{as_text};
ghost use Rattle.type_schema.specs.Names.{is_name, graph_whole};
ghost use Rattle.request_reader.specs.Forms.{form_in, text_is_name, text_is_graph, is_named, members_named, all_named, attribute_form, part_named, parts_named, body_named};

use crate::forms::{ATTRIBUTE, END, Member, Place, Verb};
use crate::shapes::form_of;
use a1_base::Txt;
use a1_json::{Json, fields_in, items_in, member};
use type_schema::name_of;

// ---- texts

fn is_name(bytes: &[u8]) -> bool
    ensures { result ≡ is_name bytes.now }
{
    name_of(bytes).is_some()
}

fn are_names(one: &[u8], two: &[u8]) -> bool
    ensures { result ≡ (is_name one.now && is_name two.now) }
{
    is_name(one) && is_name(two)
}

// Whether bytes are a tenant's name, `/` and a name within it.
fn is_graph(bytes: &[u8]) -> bool
    ensures { result ≡ is_some (graph_whole bytes.now) }
{
    for (at, byte) in bytes.iter().enumerate() {
        if *byte == b'/' {
            let (tenant, rest) = bytes.split_at(at);
            return are_names(tenant, rest.split_at(1).1);
        }
    }
    false
}

/// The text, where one is there.
pub fn text_of(json: Option<&Json>) -> Option<&str>
    ensures { option_map (λ t. t.now) result ≡ option_and_then as_text (option_map (λ j. j.now) json.entry) }
{
    json?.as_text()
}

fn text_is_name(text: Option<&str>) -> bool
    ensures { result ≡ text_is_name (option_map (λ t. t.now) text.entry) }
{
    match text {
        Some(text) => is_name(text.as_bytes()),
        None => false,
    }
}

fn text_is_graph(text: Option<&str>) -> bool
    ensures { result ≡ text_is_graph (option_map (λ t. t.now) text.entry) }
{
    match text {
        Some(text) => is_graph(text.as_bytes()),
        None => false,
    }
}

// ---- members

// Whether a name or a graph stands where one is to stand.
fn is_named(place: Place, json: Option<&Json>) -> bool
    ensures { result ≡ is_named place (option_map (λ j. j.now) json.entry) }
{
    match place {
        Place::Name => text_is_name(text_of(json)),
        Place::Graph => text_is_graph(text_of(json)),
        _ => true,
    }
}

fn members_named(form: &[Member], members: &[(Txt, Json)]) -> bool
    ensures { result ≡ members_named (form_in form.now) members.now }
{
    for m in form {
        if !is_named(m.1, member(members, m.0)) {
            return false;
        }
    }
    true
}

#[tactic(auto, unfolding(crate::specs::Forms::all_named))]
fn all_named(form: &[Member], json: &Json) -> bool
    ensures { result ≡ all_named (form_in form.now) json.now }
{
    members_named(form, fields_in(json))
}

// ---- operations

fn are_attributes(items: &[Json]) -> bool
    ensures { result ≡ list_all (all_named attribute_form) items.now }
{
    items.iter().all(|item| all_named(ATTRIBUTE, item))
}

fn part_named(place: Place, json: Option<&Json>) -> bool
    ensures { result ≡ part_named place (option_map (λ j. j.now) json.entry) }
{
    match (place, json) {
        (Place::End, Some(json)) => all_named(END, json),
        (Place::Attributes, Some(json)) => are_attributes(items_in(json)),
        _ => true,
    }
}

fn parts_named(form: &[Member], members: &[(Txt, Json)]) -> bool
    ensures { result ≡ parts_named (form_in form.now) members.now }
{
    for m in form {
        if !part_named(m.1, member(members, m.0)) {
            return false;
        }
    }
    true
}

/// Whether in each place of a name or of a graph in what stands at an operation's name there is one.
#[tactic(auto, unfolding(crate::specs::Forms::body_named))]
pub fn body_named(verb: Verb, json: &Json) -> bool
    ensures { result ≡ body_named verb json.now }
{
    match verb {
        Verb::CreateTenant => is_named(Place::Name, Some(json)),
        Verb::CreateGraph | Verb::DropGraph => is_named(Place::Graph, Some(json)),
        Verb::CreateVertexType
        | Verb::CreateEdgeType
        | Verb::Put
        | Verb::Set
        | Verb::Add
        | Verb::Drop
        | Verb::Link
        | Verb::Unlink => {
            all_named(form_of(verb), json) && parts_named(form_of(verb), fields_in(json))
        }
    }
}
