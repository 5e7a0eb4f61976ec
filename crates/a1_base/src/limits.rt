//! The sizes that the database keeps to.

/// The most nodes of a database.
pub const NODE_LIMIT: u32 = 16;

/// The most sessions of a script. The actors 1 to this are sessions.
pub const SESSION_LIMIT: u32 = 32;

/// The actor behind the sessions that deletes what a dropped graph held.
pub const DELETION_ACTOR: u32 = 33;

/// The actor behind the sessions that collects old versions.
pub const COLLECTOR_ACTOR: u32 = 34;

/// The actor behind the sessions that sweeps logs into the store.
pub const SWEEPER_ACTOR: u32 = 35;

/// The actors of a database, from 1 to this.
pub const ACTOR_LIMIT: u32 = 35;

/// The most bytes of a script.
pub const SCRIPT_LIMIT: usize = 33_554_432;

/// The most bytes of a line of a script, without its end.
pub const LINE_LIMIT: usize = 1_048_576;

/// The most bytes that one read of a source asks for.
pub const READ_LIMIT: usize = 65_536;

/// The most bytes of a name.
pub const NAME_LIMIT: usize = 64;

/// The most attributes of a type.
pub const ATTRIBUTE_LIMIT: usize = 32;

/// The most bytes of a text or of a value of bytes.
pub const TEXT_LIMIT: usize = 4_096;

/// The most bytes of a key and of an indexed value.
pub const KEY_LIMIT: usize = 256;

/// The most bytes of an encoded record.
pub const RECORD_LIMIT: usize = 16_384;

/// The most bytes of an object.
pub const OBJECT_LIMIT: usize = 65_536;

/// The most changes of one request.
pub const CHANGE_LIMIT: usize = 1_024;

/// The most bytes that the changes of one request take when they are stored.
pub const CHANGE_BYTES_LIMIT: usize = 1_048_576;

/// The most edge patterns on one path of a query.
pub const PATH_LIMIT: usize = 8;

/// The most vertices in a working set of a query.
pub const WORKING_SET_LIMIT: usize = 100_000;

/// The most half-edges of a list that is one object.
pub const SHORT_LIST_LIMIT: usize = 1_000;

/// A list whose half-edges are in a tree is one object again when so many are left.
pub const SHORT_LIST_AGAIN: usize = 500;

/// The most regions of a node.
pub const REGION_LIMIT: u32 = 1_048_576;

/// The places of a region.
pub const REGION_WIDTH: u32 = 4_096;

/// Every stamp is below this, 2^62.
pub const STAMP_LIMIT: u64 = 4_611_686_018_427_387_904;

/// The last stamp.
pub const LAST_STAMP: u64 = STAMP_LIMIT - 1;

/// The stamp of the graph, or of the heap, that a database begins with.
pub const OPENING_STAMP: u64 = 1;

/// A store has no item at this index, 2^62, or above.
pub const ITEM_LIMIT: u64 = 4_611_686_018_427_387_904;

/// Every graph number is below this.
pub const GRAPH_NUMBER_LIMIT: u64 = 4_611_686_018_427_387_903;
