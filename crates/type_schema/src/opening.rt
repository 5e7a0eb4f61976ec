//! What the graph of a new database has.

/// The tenant whose graphs no request makes or drops.
pub const SYSTEM_TENANT: &str = "sys";

/// The name of its graph, in which names are kept.
pub const NAMES: &str = "names";

/// The number of that graph.
pub const NAMES_NUMBER: u64 = 1;

/// The one type of that graph: vertices with nothing but a text as `id`.
pub const NAME_TYPE: &str = "name";

/// The number that the next graph gets.
pub const FIRST_NUMBER: u64 = 2;
