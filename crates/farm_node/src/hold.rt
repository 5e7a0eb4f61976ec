//! Locks.
use a1_base::{Bin, TxnId};

/// A lock: the transaction that holds it, and the value that its put will install, none for an object that goes.
#[derive(Debug, Drop)]
pub struct Hold {
    pub by: TxnId,
    pub pending: Option<Bin>,
}
