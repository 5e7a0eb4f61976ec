//! Values of attributes: their order, their encoding, and the keys that stand in their order.
//!
//! A value is a number, a text or a list of bytes. The layer knows neither schemas nor JSON; everything that is kept
//! in key order rests on its order.
#![tactic(auto)]

mod decoding;
mod encoding;
mod fault;
mod given;
mod keys;
mod laws;
mod order;
mod sizes;
#[cfg(test)]
mod tests;
mod value;

pub use decoding::{decode, front_value};
pub use encoding::{encode, push_value};
pub use fault::ValueFault;
pub use given::Given;
pub use keys::{front_key, key_bytes, push_key};
pub use laws::{fronts_read_back, keys_in_order};
pub use order::compare;
pub use sizes::key_size;
pub use value::Value;
