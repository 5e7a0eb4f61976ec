//! Why a text is not read.
/// Why some bytes are no text of events.
#[derive(Clone, Copy, Debug, PartialEq, Eq)]
pub enum TextFault {
    /// This line, counted from 1, is the first that is no event's; 0 where the text is too long.
    Line(u64),
    /// Want of memory.
    Memory,
}

// Why a line is not read.
#[derive(Clone, Copy, Debug, PartialEq, Eq)]
pub enum LineFault {
    // It is no event's.
    Malformed,
    // Want of memory.
    Memory,
}
