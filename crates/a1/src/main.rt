//! The program: the top call over a source, a sink and a store, and `main`, which hands it the real ones.
//!
//! `a1` does all that the program does, and its contract is what the program promises. It calls the command that the
//! words name, each in a file of its own. The layer turns words and bytes into a run or into events, and back; what a
//! request means, how a session is served, and what an event is answered, stands in the libraries.
#![tactic(auto)]

mod edge;
mod ending;
mod finishing;
mod input;
mod options;
mod run_command;
mod steps_command;
mod streams;
#[cfg(test)]
mod tests;
mod top;
mod words;

use a1_base::NoGate;
use edge::{StdinSource, StdoutSink};
use ending::OUT_OF_MEMORY;
use object_store::MemStore;
use std::io::ErrorKind;
use std::process::ExitCode;
use std::rt::Env;
use std::{env, io};
use top::a1;

// The words behind the program's name.
fn words_of(rt: &(impl Env + AllocGlobal)) -> io::Result<Vec<String>> {
    let mut words = Vec::new(rt.alloc());
    for word in env::args(rt)?.skip(1) {
        words.push(word)?;
    }
    Ok(words)
}

fn main(rt: HostRuntime) -> ExitCode {
    let words = match words_of(&rt) {
        Ok(words) => words,
        Err(error) => {
            if error.kind() == ErrorKind::OutOfMemory {
                return ExitCode::from(OUT_OF_MEMORY);
            }
            // Words that are no text are none of the grammar.
            Vec::new(rt.alloc())
        }
    };
    let mut source = StdinSource::new(rt.reader());
    let mut sink = StdoutSink::new(io::writer(&rt));
    let mut store = MemStore::new(Vec::new(rt.alloc()), Vec::new(rt.alloc()));
    let outcome = a1(
        &rt,
        rt.alloc(),
        &words,
        &mut source,
        &mut sink,
        &mut store,
        &NoGate,
    );
    ExitCode::from(outcome.status)
}
