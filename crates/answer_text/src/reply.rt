//! Replies.
use a1_base::{Addr, TxnId};
use a1ql_reader::Row;
use request_reader::BadWord;
use sqlite_items::Items;
use type_schema::Refusal;

/// What a line is answered.
#[derive(Drop)]
pub enum Reply {
    /// The request was committed at this stamp.
    Ok { stamp: u64 },
    /// The rows of an ask over the graph at the stamp `at`.
    Rows { at: u64, rows: Items<Row> },
    /// How many vertices an ask finds in the graph at the stamp `at`.
    Count { at: u64, count: u64 },
    /// The request is refused over the graph at the stamp `at`, and changed nothing.
    Refused { at: u64, refusal: Refusal },
    /// Nothing was changed: the object, which was read at the stamp `seen`, was changed at the stamp `now`.
    Changed { object: Addr, seen: u64, now: u64 },
    /// Nothing was changed: this transaction holds the object.
    Held { object: Addr, by: TxnId },
    /// The line that an `after` line names, counted from 1 in its session: it was answered before.
    Told { line: u32 },
    /// The line is no request.
    Bad { word: BadWord },
    /// Nothing was changed: a node has no place left.
    SpentNode,
    /// Nothing was changed: no stamp is left.
    SpentStamps,
    /// Want of memory: nothing was changed.
    Memory,
}
