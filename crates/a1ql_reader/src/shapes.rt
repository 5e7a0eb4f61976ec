//! The shape of a pattern.
ghost use Rattle.std.specs.Prelude.{◌≡◌, map, option_map, is_some, codes};
ghost use Rattle.std.specs.List.{list_all, list_any};
ghost use Rattle.a1_json.specs.Fields.{as_text};
ghost use Rattle.a1ql_reader.specs.declared.places.Place.TheVariants.{Entry};
ghost use Rattle.a1ql_reader.specs.Places.{place_of};
ghost use Rattle.a1ql_reader.specs.Shapes.{same_text, differ, are_selected, has, is_vertex, is_edge, is_complete, is_operand, is_text_place, fits, list_fits, member_fits, members_fit, object_fits, has_shape};

use crate::places::{Place, SELECT_LIMIT, place_of};
use a1_base::Txt;
use a1_json::Json;

// ---- a list of different texts

fn same_text(one: Option<&str>, two: Option<&str>) -> bool
    ensures { result ≡ same_text (option_map (λ t. t.now) one.entry) (option_map (λ t. t.now) two.entry) }
{
    match (one, two) {
        (Some(one), Some(two)) => one == two,
        _ => false,
    }
}

fn is_among(items: &[Json], text: &Json) -> bool
    ensures { result ≡ list_any (λ k. same_text (as_text k) (as_text text.now)) items.now }
{
    items
        .iter()
        .any(|item| same_text(item.as_text(), text.as_text()))
}

fn differ(items: &[Json]) -> bool
    ensures { result ≡ differ items.now }
{
    let mut rest = items;
    while let [first, later @ ..] = rest {
        if is_among(later, first) {
            return false;
        }
        rest = later;
    }
    true
}

fn are_texts(items: &[Json]) -> bool
    ensures { result ≡ list_all (λ j. is_some (as_text j)) items.now }
{
    items.iter().all(|item| item.as_text().is_some())
}

fn are_selected(items: &[Json]) -> bool
    ensures { result ≡ are_selected items.now }
{
    !items.is_empty() && items.len() <= SELECT_LIMIT && are_texts(items) && differ(items)
}

// ---- which members are there

fn has(name: &str, members: &[(Txt, Json)]) -> bool
    ensures { result ≡ has name.now members.now }
{
    members.iter().any(|member| member.0.as_text() == name)
}

// A type; of two hops and what is selected at most one.
fn is_vertex(members: &[(Txt, Json)]) -> bool
    ensures { result ≡ is_vertex members.now }
{
    let out = has("_out_edge", members);
    let back = has("_in_edge", members);
    has("_type", members) && !(out && back) && !(has("_select", members) && (out || back))
}

fn is_edge(members: &[(Txt, Json)]) -> bool
    ensures { result ≡ is_edge members.now }
{
    has("_type", members) && has("_vertex", members)
}

// Whether what an object at this place must have is there, and nothing beside that excludes it.
fn is_complete(place: Place, members: &[(Txt, Json)]) -> bool
    ensures { result ≡ is_complete place members.now }
{
    match place {
        Place::Vertex(_) => is_vertex(members),
        Place::Edge(_) => is_edge(members),
        Place::Entry => members.len() == 1,
        Place::Compared => !members.is_empty(),
        Place::Matches | Place::Kind | Place::Operand | Place::Selected => false,
    }
}

// ---- the whole tree

fn is_operand(place: Place) -> bool
    ensures { result ≡ is_operand place }
{
    matches!(place, Place::Compared | Place::Operand)
}

fn is_text_place(place: Place) -> bool
    ensures { result ≡ is_text_place place }
{
    matches!(place, Place::Kind | Place::Compared | Place::Operand)
}

// Whether the value fits the place.
#[cycle(fitting)]
fn fits(json: &Json, place: Place) -> bool
    ensures { result ≡ fits json.now place }
{
    match json {
        Json::Null => false,
        Json::Bool(_) => false,
        Json::Int(_) => is_operand(place),
        Json::Text(_) => is_text_place(place),
        Json::List(items) => list_fits(items.as_slice(), place),
        Json::Members(members) => object_fits(members.as_slice(), place),
    }
}

#[cycle(fitting)]
fn list_fits(items: &[Json], place: Place) -> bool
    ensures { result ≡ list_fits place items.now (map fits items.now) }
{
    match place {
        Place::Matches => !items.is_empty() && are_entries(items),
        Place::Selected => are_selected(items),
        _ => false,
    }
}

#[cycle(fitting)]
fn are_entries(items: &[Json]) -> bool
    ensures { result ≡ list_all (λ f. f Entry) (map fits items.now) }
{
    for item in items {
        if !fits(item, Place::Entry) {
            return false;
        }
    }
    true
}

#[cycle(fitting)]
fn object_fits(members: &[(Txt, Json)], place: Place) -> bool
    ensures { result ≡ object_fits place members.now (map (λ m. (m.0, fits m.1)) members.now) }
{
    is_complete(place, members) && members_fit(members, place)
}

#[cycle(fitting)]
fn members_fit(members: &[(Txt, Json)], place: Place) -> bool
    ensures { result ≡ members_fit place (map (λ m. (m.0, fits m.1)) members.now) }
{
    for member in members {
        if !member_fits(&member.1, place_of(place, member.0.as_text())) {
            return false;
        }
    }
    true
}

#[cycle(fitting)]
fn member_fits(json: &Json, place: Option<Place>) -> bool
    ensures { result ≡ member_fits place (fits json.now) }
{
    match place {
        Some(place) => fits(json, place),
        None => false,
    }
}

/// Whether the tree has the shape of a pattern.
pub fn has_shape(json: &Json) -> bool
    ensures { result ≡ has_shape json.now }
{
    fits(json, Place::Vertex(false))
}
