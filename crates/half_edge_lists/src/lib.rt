//! The lists of half-edges of a vertex over a view: one object, or a tree where they are many.
//!
//! Contracts see a list by its half-edges in order and by the places of its objects. The layer knows neither types nor
//! records.
#![tactic(auto)]

mod changing;
mod finding;
mod growing;
mod lists;
mod shrinking;
#[cfg(test)]
mod tests;
#[cfg(test)]
mod together;
mod walking;

pub use finding::find;
pub use growing::add;
pub use shrinking::remove;
pub use type_schema::Half;
pub use walking::walk;
