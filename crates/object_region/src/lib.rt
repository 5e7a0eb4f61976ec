//! The places of a node, in regions of 4,096 (FaRM's regions and offsets; Dragojević et al., NSDI 2014).
//!
//! Contracts see a `Places` by its occupancy: which regions are made, and which places are taken. The layer knows no
//! objects, versions or transactions.
#![tactic(auto)]

mod places;
mod region;
#[cfg(test)]
mod tests;

pub use places::{Places, TakeFault};
