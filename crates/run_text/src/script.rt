//! Scripts.
ghost use Rattle.std.specs.Prelude.{◌≡◌, ◌≤◌, All, length, IfOk, map};
ghost use Rattle.answer_text.specs.Transcript.{NamesBefore};
ghost use Rattle.run_text.specs.Script.{script_of, session_numbers, request_count, ReadsAsScript};

use crate::lines::read_requests;
use a1_base::{Bin, SCRIPT_LIMIT};
use std::alloc::{AllocError, Global};
use std::marker::Model;

/// The sessions of a script, by rising number, with their requests.
#[derive(Drop)]
pub struct Script {
    sessions: Vec<(u32, Vec<Bin>)>,
}

impl Model for Script {
    ghost use Rattle.std.specs.Prelude.{List, ℕ, map};

    ghost Value = { List (ℕ × List (List ℕ)) };

    ghost view = { λ s. map (λ t. (t.0, t.1.items)) s.sessions.items };
}

impl Script {
    /// The sessions that have lines, by rising number, each with its requests in order.
    pub fn into_sessions(self) -> Vec<(u32, Vec<Bin>)>
        ensures { map (λ t. (t.0, t.1.items)) result.items ≡ self }
    {
        let Script { sessions } = self;
        sessions
    }
}

/// Why some bytes are no script.
#[derive(Clone, Copy, Debug, PartialEq, Eq)]
pub enum ScriptFault {
    /// This line, counted from 1, is the first that breaks the grammar; 0 where the script is too long.
    Line(u64),
    /// Want of memory.
    Memory,
}

impl From<AllocError> for ScriptFault {
    ghost use Rattle.run_text.specs.declared.script.ScriptFault.TheVariants.{Memory};

    ghost from_gives = { λ _ e. e ≡ Memory };

    fn from(_: AllocError) -> Self {
        ScriptFault::Memory
    }
}

/// Reads a script of at most `SCRIPT_LIMIT` bytes: lines that end with LF, each a session number in decimal, a blank
/// and a request; lines of no bytes are skipped and counted. A request that reads as `after` names a line that stands
/// before it.
#[tactic(auto, using(crate::proofs::ScriptLemmas::first_alone, crate::proofs::NamingLemmas::named_first), unfolding(crate::specs::Script::script_of))]
pub fn read(alloc: Global, bytes: &[u8]) -> Result<Script, ScriptFault>
    ensures script { ReadsAsScript result (script_of bytes.now) }
    ensures few { IfOk result (λ script. request_count script ≤ length bytes.now) }
    ensures sessions { IfOk result (λ script. length script ≤ length session_numbers) }
    ensures named { IfOk result (λ script. All (λ t. NamesBefore t.0 t.1) script) }
{
    if bytes.len() > SCRIPT_LIMIT {
        return Err(ScriptFault::Line(0));
    }
    let requests = read_requests(alloc, bytes)?;
    let mut sessions = Vec::new(alloc);
    if !requests.is_empty() {
        sessions
            .push((1, requests))
            .map_err(|_| ScriptFault::Memory)?;
    }
    Ok(Script { sessions })
}
