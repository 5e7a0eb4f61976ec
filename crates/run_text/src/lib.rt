//! Scripts, runs and their text: from the bytes of a script to its sessions, and from a transcript to its bytes.
//!
//! A script stands for its sessions with their requests, or for its first line that breaks the grammar. Of a request the
//! layer knows only whether it names a line before it; it knows nothing of how requests are served.
#![tactic(auto)]

mod lines;
mod printing;
mod run;
mod script;
#[cfg(test)]
mod tests;

pub use printing::transcript;
pub use run::{Commit2, Run};
pub use script::{Script, ScriptFault, read};
