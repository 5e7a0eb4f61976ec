//! The names in a pattern.
ghost use Rattle.std.specs.Prelude.{◌≡◌, map};
ghost use Rattle.std.specs.List.{list_all};
ghost use Rattle.a1ql_reader.specs.declared.places.Place.TheVariants.{Entry};
ghost use Rattle.type_schema.specs.Names.{is_name};
ghost use Rattle.a1ql_reader.specs.Places.{place_of};
ghost use Rattle.a1ql_reader.specs.Names.{text_named, named, list_named, member_named, object_named, has_names};

use crate::places::{Place, place_of};
use a1_base::Txt;
use a1_json::Json;
use type_schema::name_of;

fn is_name(bytes: &[u8]) -> bool
    ensures { result ≡ is_name bytes.now }
{
    name_of(bytes).is_some()
}

fn text_named(text: &Txt, place: Place) -> bool
    ensures { result ≡ text_named text.now place }
{
    match place {
        Place::Kind => is_name(text.as_bytes()),
        _ => true,
    }
}

// Whether a value at the place has a name wherever a name is to stand.
#[cycle(naming)]
fn named(json: &Json, place: Place) -> bool
    ensures { result ≡ named json.now place }
{
    match json {
        Json::Null => true,
        Json::Bool(_) => true,
        Json::Int(_) => true,
        Json::Text(text) => text_named(text, place),
        Json::List(items) => list_named(items.as_slice(), place),
        Json::Members(members) => object_named(members.as_slice(), place),
    }
}

#[cycle(naming)]
fn list_named(items: &[Json], place: Place) -> bool
    ensures { result ≡ list_named place (map named items.now) }
{
    match place {
        Place::Matches => entries_named(items),
        _ => true,
    }
}

#[cycle(naming)]
fn entries_named(items: &[Json]) -> bool
    ensures { result ≡ list_all (λ f. f Entry) (map named items.now) }
{
    for item in items {
        if !named(item, Place::Entry) {
            return false;
        }
    }
    true
}

#[cycle(naming)]
fn object_named(members: &[(Txt, Json)], place: Place) -> bool
    ensures { result ≡ object_named place (map (λ m. (m.0, named m.1)) members.now) }
{
    for member in members {
        if !member_named(&member.1, place_of(place, member.0.as_text())) {
            return false;
        }
    }
    true
}

#[cycle(naming)]
fn member_named(json: &Json, place: Option<Place>) -> bool
    ensures { result ≡ member_named place (named json.now) }
{
    match place {
        Some(place) => named(json, place),
        None => true,
    }
}

/// Whether each `_type` in the pattern is a name.
pub fn has_names(json: &Json) -> bool
    ensures { result ≡ has_names json.now }
{
    named(json, Place::Vertex(false))
}
