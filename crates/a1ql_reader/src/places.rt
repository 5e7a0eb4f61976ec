//! What stands where in a pattern.
ghost use Rattle.std.specs.Prelude.{◌≡◌, codes};
ghost use Rattle.a1ql_reader.specs.Places.{comparison_named, direction, is_reserved, attribute_place, vertex_place, edge_place, entry_place, operand_place, place_of};

use crate::Comparison;

/// The most attributes that are selected.
pub const SELECT_LIMIT: usize = 32;

/// What stands at a place of a pattern.
#[derive(Clone, Copy, Debug, PartialEq, Eq)]
pub enum Place {
    /// A vertex pattern; with true inside a `_match`.
    Vertex(bool),
    /// An edge pattern; with true inside a `_match`.
    Edge(bool),
    /// A list of objects of the form `Entry`.
    Matches,
    /// An object of one hop.
    Entry,
    /// The name of a type.
    Kind,
    /// A number, a text or an object of comparisons.
    Compared,
    /// A number or a text.
    Operand,
    /// A list of different texts.
    Selected,
}

/// The comparison of this name.
pub fn comparison_named(name: &str) -> Option<Comparison>
    ensures { result ≡ comparison_named name.now }
{
    match name {
        "_eq" => Some(Comparison::Eq),
        "_ne" => Some(Comparison::Ne),
        "_lt" => Some(Comparison::Lt),
        "_le" => Some(Comparison::Le),
        "_gt" => Some(Comparison::Gt),
        "_ge" => Some(Comparison::Ge),
        _ => None,
    }
}

/// Whether a hop of this name leads out or in.
pub fn direction(name: &str) -> Option<bool>
    ensures { result ≡ direction name.now }
{
    match name {
        "_out_edge" => Some(true),
        "_in_edge" => Some(false),
        _ => None,
    }
}

/// Whether the name begins with `_`.
pub fn is_reserved(name: &str) -> bool
    ensures { result ≡ is_reserved name.now }
{
    match name.as_bytes() {
        [first, ..] => *first == b'_',
        [] => false,
    }
}

fn attribute_place(name: &str) -> Option<Place>
    ensures { result ≡ attribute_place name.now }
{
    if is_reserved(name) {
        None
    } else {
        Some(Place::Compared)
    }
}

fn vertex_place(inside: bool, name: &str) -> Option<Place>
    ensures { result ≡ vertex_place inside name.now }
{
    match name {
        "_type" => Some(Place::Kind),
        "_match" => Some(Place::Matches),
        "_out_edge" | "_in_edge" => Some(Place::Edge(inside)),
        "_select" => { if inside { None } else { Some(Place::Selected) } }
        _ => attribute_place(name),
    }
}

fn edge_place(inside: bool, name: &str) -> Option<Place>
    ensures { result ≡ edge_place inside name.now }
{
    match name {
        "_type" => Some(Place::Kind),
        "_vertex" => Some(Place::Vertex(inside)),
        _ => attribute_place(name),
    }
}

fn entry_place(name: &str) -> Option<Place>
    ensures { result ≡ entry_place name.now }
{
    if direction(name).is_some() {
        Some(Place::Edge(true))
    } else {
        None
    }
}

fn operand_place(name: &str) -> Option<Place>
    ensures { result ≡ operand_place name.now }
{
    if comparison_named(name).is_some() {
        Some(Place::Operand)
    } else {
        None
    }
}

/// What stands at the member of this name of an object at this place; none where it has no such member.
pub fn place_of(place: Place, name: &str) -> Option<Place>
    ensures { result ≡ place_of place name.now }
{
    match place {
        Place::Vertex(inside) => vertex_place(inside, name),
        Place::Edge(inside) => edge_place(inside, name),
        Place::Entry => entry_place(name),
        Place::Compared => operand_place(name),
        Place::Matches | Place::Kind | Place::Operand | Place::Selected => None,
    }
}
