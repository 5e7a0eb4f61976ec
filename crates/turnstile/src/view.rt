//! What a seat at the table knows.
use std::collections::LinkedList;
use std::snapshot::Snapshot;

/// Where a seat stands: outside, in the row with a ticket, or inside with it.
pub enum Stage {
    Idle,
    Waits(u64),
    Inside(u64),
}

/// What a seat knows. No value of it is made.
pub struct View<E> {
    pub stage: Stage,
    /// The numbers that it holds. A clause reads an array as a list, of any length.
    pub numbers: [u64; 0],
    pub seen: LinkedList<E>,
    /// What a seat that was taken in had seen, or this seat before, until it has learned that `seen` begins with it.
    pub heard: LinkedList<E>,
    pub heard_numbers: [u64; 0],
}

/// What the table is told when it is made.
#[derive(Drop)]
pub struct Key<T> {
    pub passes: u32,
    pub value: Snapshot<T>,
}
