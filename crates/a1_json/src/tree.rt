//! The tree of a JSON value, and why a text has none.
use a1_base::Txt;
use sqlite_items::Items;
use std::alloc::AllocError;

/// A JSON value. Of one that was read, the members stand by name, in the order of their bytes.
#[derive(Drop)]
pub enum Json {
    /// `null`.
    Null,
    /// `true` or `false`.
    Bool(bool),
    /// A whole number of 64 bits.
    Int(i64),
    /// A text.
    Text(Txt),
    /// A list of values.
    List(Items<Json>),
    /// An object: names, each with its value.
    Members(Items<(Txt, Json)>),
}

/// Why there is no tree.
#[derive(Clone, Copy, Debug, PartialEq, Eq)]
pub enum JsonFault {
    /// The bytes are not a JSON text of RFC 8259 as `serde_json` reads it.
    NotJson,
    /// A number in the text is no whole number of 64 bits.
    NotWhole,
    /// Want of memory.
    Memory,
}

impl From<AllocError> for JsonFault {
    ghost use Rattle.std.specs.Prelude.{◌≡◌};
    ghost use Rattle.a1_json.specs.declared.tree.JsonFault.TheVariants.{Memory};

    ghost from_gives = { λ _ fault. fault ≡ Memory };

    fn from(_: AllocError) -> Self {
        JsonFault::Memory
    }
}
