//! Transcripts.
use crate::Reply;
use a1_base::Bin;
use sqlite_items::Items;

/// A line of a session, with its reply.
#[derive(Drop)]
pub struct Line {
    pub request: Bin,
    pub reply: Reply,
}

/// What a session asked and was answered, line by line. Sessions are numbered from 1.
#[derive(Drop)]
pub struct Transcript {
    pub session: u32,
    pub lines: Items<Line>,
}
