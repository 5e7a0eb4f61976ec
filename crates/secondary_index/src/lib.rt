//! Indexes over a view: which vertices have a value, by value and then by key.
//!
//! Contracts see an index by its rows in order. The layer knows neither schemas nor what a header has.
#![tactic(auto)]

mod index;
mod laws;
mod scanning;
#[cfg(test)]
mod tests;

pub use index::{enter, leave};
pub use laws::indexes_stand;
pub use scanning::scan;
