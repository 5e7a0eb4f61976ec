//! Looking into a tree.
ghost use Rattle.std.specs.Prelude.{◌≡◌, option_map};
ghost use Rattle.a1_json.specs.Fields.{member_of, as_members, as_list, fields_in, items_in, as_text, as_int, as_flag};

use crate::Json;
use a1_base::Txt;

/// The value of the first member of this name.
pub fn member<'a>(members: &'a [(Txt, Json)], name: &str) -> Option<&'a Json>
    ensures { option_map (λ j. j.now) result ≡ member_of name.now members.now }
{
    for member in members {
        if member.0.as_text() == name {
            return Some(&member.1);
        }
    }
    None
}

/// The members, or none where it is no object.
pub fn fields_in(json: &Json) -> &[(Txt, Json)]
    ensures { result.now ≡ fields_in json.now }
{
    match json.as_members() {
        Some(members) => members,
        None => &[],
    }
}

/// The items, or none where it is no list.
pub fn items_in(json: &Json) -> &[Json]
    ensures { result.now ≡ items_in json.now }
{
    match json.as_list() {
        Some(items) => items,
        None => &[],
    }
}

impl Json {
    /// The members, where it is an object.
    pub fn as_members(&self) -> Option<&[(Txt, Json)]>
        ensures { option_map (λ ms. ms.now) result ≡ as_members self.now }
    {
        match self {
            Json::Members(members) => Some(members.as_slice()),
            _ => None,
        }
    }

    /// The items, where it is a list.
    pub fn as_list(&self) -> Option<&[Json]>
        ensures { option_map (λ js. js.now) result ≡ as_list self.now }
    {
        match self {
            Json::List(items) => Some(items.as_slice()),
            _ => None,
        }
    }

    /// The text, where it is one.
    pub fn as_text(&self) -> Option<&str>
        ensures { option_map (λ t. t.now) result ≡ as_text self.now }
    {
        match self {
            Json::Text(text) => Some(text.as_text()),
            _ => None,
        }
    }

    /// The number, where it is one.
    pub fn as_int(&self) -> Option<i64>
        ensures { result ≡ as_int self.now }
    {
        match self {
            Json::Int(n) => Some(*n),
            _ => None,
        }
    }

    /// The truth value, where it is one.
    pub fn as_flag(&self) -> Option<bool>
        ensures { result ≡ as_flag self.now }
    {
        match self {
            Json::Bool(flag) => Some(*flag),
            _ => None,
        }
    }
}
