//! Schemas and records.
use a1_base::Txt;
use a1_value::Value;
use std::marker::Model;

/// What an attribute's values are.
#[derive(Clone, Copy, Debug, PartialEq, Eq)]
pub enum Kind {
    /// Whole numbers of 64 bits.
    Int,
    /// Texts.
    Text,
    /// Lists of bytes.
    Bytes,
}

/// An attribute of a type.
#[derive(Debug, Drop)]
pub struct Attr {
    /// Its name.
    pub name: Txt,
    /// What its values are.
    pub kind: Kind,
    /// Whether vertices are found by it.
    pub index: bool,
}

/// The attributes of a type, in their order.
#[derive(Debug, Drop)]
pub struct Schema {
    pub attrs: Vec<Attr>,
}

impl Model for Schema {
    ghost use Rattle.std.specs.Prelude.{List};
    ghost use Rattle.type_schema.specs.declared.schema.Attr.{Attr};

    ghost Value = { List Attr };

    ghost view = { λ s. s.attrs.items };
}

/// The values of a vertex or an edge, in the order of its type's attributes.
#[derive(Debug, Drop)]
pub struct Record {
    pub values: Vec<Value>,
}

impl Model for Record {
    ghost use Rattle.std.specs.Prelude.{List};
    ghost use Rattle.a1_value.specs.declared.value.Value as value;

    ghost Value = { List value.Value };

    ghost view = { λ r. r.values.items };
}
