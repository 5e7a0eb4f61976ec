//! How a command ends.
ghost use Rattle.std.specs.Prelude.{◌≡◌};
ghost use Rattle.a1.specs.Endings.{cause_status, status_of};

use run_text::Run;
use std::alloc::Global;

/// The status of want of memory.
pub const OUT_OF_MEMORY: u8 = 6;

/// What a command leaves: its status, and its run where it began one.
#[derive(Drop)]
pub struct Outcome {
    pub status: u8,
    pub run: Run,
}

/// Why a command ends.
#[derive(Clone, Copy)]
pub enum Cause {
    /// It did its work.
    Done,
    /// The words are no command.
    Usage,
    /// The source failed.
    Unread,
    /// This line breaks the grammar; 0 where the text is too long.
    Malformed(u64),
    /// Want of memory.
    Memory,
}

/// How much was written of the text of an ending.
#[derive(Clone, Copy)]
pub enum Extent {
    /// All of it.
    Whole,
    /// A front of it, since the sink failed or took nothing of some bytes.
    CutShort,
}

/// How a command ends. What each ending says of the outside stands in the definition `Ends`.
#[derive(Clone, Copy)]
pub struct Ending {
    pub cause: Cause,
    pub extent: Extent,
}

impl Cause {
    // The status where the whole text is written.
    fn status(self) -> u8
        ensures { result ≡ cause_status self }
    {
        match self {
            Cause::Done => 0,
            Cause::Usage => 2,
            Cause::Unread => 3,
            Cause::Memory => OUT_OF_MEMORY,
            Cause::Malformed(_) => 8,
        }
    }
}

impl Ending {
    /// The program's status.
    pub fn status(self) -> u8
        ensures { result ≡ status_of self }
    {
        match self.extent {
            Extent::Whole => self.cause.status(),
            Extent::CutShort => 4,
        }
    }
}

impl Outcome {
    ghost use Rattle.run_text.specs.Run.{empty_run};

    /// What a command leaves that has no run.
    pub fn without_run(alloc: Global, status: u8) -> Outcome
        ensures { result ≡ record { status = status; run = empty_run } }
    {
        Outcome {
            status,
            run: Run::empty(alloc),
        }
    }
}
