//! What a run leaves behind.
ghost use Rattle.std.specs.Prelude.{◌≡◌};
ghost use Rattle.run_text.specs.Run.{empty_run};

use answer_text::Transcript;
use sqlite_items::Items;
use std::alloc::Global;

/// A commit of an actor that is no session.
#[derive(Drop)]
pub struct Commit2 {
    pub actor: u32,
    pub stamp: u64,
}

/// A run: its transcript, and counts that are taken at its end.
#[derive(Drop)]
pub struct Run {
    /// The stamp of the graph at the start.
    pub base: u64,
    /// Each session that has lines, by rising number.
    pub sessions: Items<Transcript>,
    /// The commits of actors that are no session, by rising stamp.
    pub background: Items<Commit2>,
    /// The clock at the close; 0 where no clock is shared.
    pub clock: u64,
    /// How many stamps the background drew.
    pub own: u64,
    /// How many objects there are over all nodes.
    pub objects: u64,
    /// How many versions there are over all nodes.
    pub versions: u64,
    /// How many deletion tasks are left.
    pub pending: u64,
    /// How many regions each node keeps.
    pub regions: Items<u32>,
}

impl Run {
    /// The run of these sessions from the graph at this stamp on, with no background and no counts.
    pub fn of_sessions(alloc: Global, base: u64, sessions: Items<Transcript>) -> Run
        ensures { result ≡ record empty_run { base = base; sessions = sessions } }
    {
        Run {
            base,
            sessions,
            background: Items::new(alloc),
            clock: 0,
            own: 0,
            objects: 0,
            versions: 0,
            pending: 0,
            regions: Items::new(alloc),
        }
    }

    /// The run of a command that began none.
    pub fn empty(alloc: Global) -> Run
        ensures { result ≡ empty_run }
    {
        Run::of_sessions(alloc, 0, Items::new(alloc))
    }
}
