//! Values as a request gives them.
use a1_base::Txt;

/// A value as a request gives it: which value of an attribute it is depends on the attribute's kind.
#[derive(Debug, Drop)]
pub enum Given {
    /// A whole number of 64 bits.
    Int(i64),
    /// A text.
    Text(Txt),
}
