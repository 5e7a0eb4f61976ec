//! The words behind the program's name.
ghost use Rattle.std.specs.Prelude.{◌≡◌, IfOk, option_map};
ghost use Rattle.a1.specs.declared.words.Command.TheVariants as command;
ghost use Rattle.a1.specs.Words.{texts_of, command_of};

use crate::options::{RunOptions, StepsOptions, run_of, steps_of};
use a1_base::Memory;
use std::alloc::Global;

/// A command of the program.
#[derive(Clone, Copy, Debug, PartialEq, Eq)]
pub enum Command {
    /// Serves a script of requests.
    Run(RunOptions),
    /// Answers a text of events of transactions.
    Steps(StepsOptions),
}

fn run_command(options: Option<RunOptions>) -> Option<Command>
    ensures { result ≡ option_map command.Run options }
{
    Some(Command::Run(options?))
}

fn steps_command(options: Option<StepsOptions>) -> Option<Command>
    ensures { result ≡ option_map command.Steps options }
{
    Some(Command::Steps(options?))
}

/// The command that the words name, with the options that they give it; none where the first word names no command, or
/// the others give an option that it does not have, or one twice, or a value that is none of its.
pub fn command_of(alloc: Global, words: &[String]) -> Result<Option<Command>, Memory>
    ensures { IfOk result (λ command. command ≡ command_of (texts_of words.now)) }
{
    let Some((word, words)) = words.split_first() else {
        return Ok(None);
    };
    match word.as_str() {
        "run" => Ok(run_command(run_of(alloc, words)?)),
        "steps" => Ok(steps_command(steps_of(alloc, words)?)),
        _ => Ok(None),
    }
}
