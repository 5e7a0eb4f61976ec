//! Names of objects and of transactions.

/// The address of an object: a region, which lies on the node `region mod nodes`, and a place in it
/// (FaRM's region and offset; Dragojević et al., NSDI 2014). Addresses go by region, then by offset.
#[derive(Clone, Copy, Debug, PartialEq, Eq, PartialOrd, Ord)]
pub struct Addr {
    pub region: u32,
    pub offset: u32,
}

/// A transaction: the actor that began it, from 1, and which of that actor's transactions it is, from 1.
#[derive(Clone, Copy, Debug, PartialEq, Eq)]
pub struct TxnId {
    pub actor: u32,
    pub number: u64,
}
