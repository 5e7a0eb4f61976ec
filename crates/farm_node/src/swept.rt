//! What a collection removed at one address.

/// What was removed: how many versions, and the bound of the object where it went whole.
#[derive(Clone, Copy)]
pub struct Swept {
    pub versions: u64,
    pub gone: Option<u64>,
}
