//! The form of names and schemas.
ghost use Rattle.std.specs.Prelude.{◌≡◌, not, Some, None, option_map, if◌then◌else◌};
ghost use Rattle.std.specs.List.{list_all};
ghost use Rattle.type_schema.specs.Names.{is_name_byte, is_name};
ghost use Rattle.type_schema.specs.Schemas.{is_attr};
ghost use Rattle.type_schema.specs.Formed.{differ, is_list, is_vertex_list, is_edge_list, is_type};

use crate::{Attr, TypeSchema};
use a1_base::{ATTRIBUTE_LIMIT, NAME_LIMIT, text_of};

fn is_name_byte(byte: u8) -> bool
    ensures { result ≡ is_name_byte byte }
{
    matches!(byte, b'a'..=b'z' | b'0'..=b'9' | b'_' | b'.')
}

fn are_name_bytes(bytes: &[u8]) -> bool
    ensures { result ≡ list_all is_name_byte bytes.now }
{
    bytes.iter().all(|byte| is_name_byte(*byte))
}

// Whether bytes are a name: 1 to `NAME_LIMIT` of `a` to `z`, `0` to `9`, `_` and `.`, of which the first is a letter.
#[tactic(auto, unfolding(crate::specs::Names::is_name))]
pub fn is_name(bytes: &[u8]) -> bool
    ensures { result ≡ is_name bytes.now }
{
    match bytes {
        [first, rest @ ..] => {
            matches!(*first, b'a'..=b'z') && are_name_bytes(rest) && bytes.len() <= NAME_LIMIT
        }
        [] => false,
    }
}

/// The name that bytes are: none exactly where they are no name.
#[tactic(auto, using(crate::proofs::SchemaLemmas::name_is_text))]
pub fn name_of(bytes: &[u8]) -> Option<&str>
    ensures { option_map (λ name. name.now) result ≡ (if is_name bytes.now then Some bytes.now else None) }
{
    if is_name(bytes) { text_of(bytes) } else { None }
}

pub fn is_attr(attrs: &[Attr], name: &str) -> bool
    ensures { result ≡ is_attr attrs.now name.now }
{
    attrs
        .iter()
        .any(|attr| attr.name.as_bytes() == name.as_bytes())
}

fn differ(attrs: &[Attr]) -> bool
    ensures { result ≡ differ attrs.now }
{
    match attrs {
        [first, rest @ ..] => !is_attr(rest, first.name.as_text()) && differ(rest),
        [] => true,
    }
}

fn are_names(attrs: &[Attr]) -> bool
    ensures { result ≡ list_all (λ a. is_name a.name) attrs.now }
{
    attrs.iter().all(|attr| is_name(attr.name.as_bytes()))
}

#[tactic(auto, unfolding(crate::specs::Formed::is_list))]
pub fn is_list(attrs: &[Attr]) -> bool
    ensures { result ≡ is_list attrs.now }
{
    attrs.len() <= ATTRIBUTE_LIMIT && are_names(attrs) && differ(attrs)
}

fn is_vertex_list(attrs: &[Attr]) -> bool
    ensures { result ≡ is_vertex_list attrs.now }
{
    match attrs {
        [first, ..] => first.name.as_text() == "id" && !first.index,
        [] => false,
    }
}

fn none_indexed(attrs: &[Attr]) -> bool
    ensures { result ≡ list_all (λ a. not a.index) attrs.now }
{
    attrs.iter().all(|attr| !attr.index)
}

fn is_edge_list(attrs: &[Attr]) -> bool
    ensures { result ≡ is_edge_list attrs.now }
{
    !is_attr(attrs, "id") && none_indexed(attrs)
}

/// Whether a type's attributes keep the rule: at most `ATTRIBUTE_LIMIT`, whose names differ; of vertices the first is
/// `id`, which has no index; of edges none is `id` or indexed.
#[tactic(auto, unfolding(crate::specs::Formed::is_type))]
pub fn is_type(schema: &TypeSchema) -> bool
    ensures { result ≡ is_type schema.now }
{
    match schema {
        TypeSchema::OfVertices(schema) => is_vertex_list(&schema.attrs) && is_list(&schema.attrs),
        TypeSchema::OfEdges(schema) => is_edge_list(&schema.attrs) && is_list(&schema.attrs),
    }
}
