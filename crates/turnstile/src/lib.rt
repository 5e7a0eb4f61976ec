//! A lock round one value, first come, first served, whose value stands for the list of all that was done to it.
//!
//! A pass is the right to enter. Contracts see a pass by the list that it has seen and by the numbers that it holds:
//! each entry of the list bears a number, and of a number that a pass holds it knows all entries. The layer knows
//! nothing of what the value or its entries are.
#![tactic(auto)]

mod ends;
mod keeps;
mod lends;
mod lock;
mod numbers;
mod rule;
#[cfg(test)]
mod tests;
mod turns;
mod view;

pub use keeps::{Keeps, Tells};
pub use lock::{Pass, Turn, Turnstile};
