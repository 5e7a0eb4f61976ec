//! The options behind a command's name. `clap` finds them, and their values are read here.
ghost use Rattle.std.specs.List.{list_any};
ghost use Rattle.std.specs.Prelude.{◌≡◌, IfOk, List, ℕ, true, option_map, codes, []};
ghost use Rattle.clap.specs.Words.{app_of, is_simple_and_free, with_rule};
ghost use Rattle.a1.specs.Words.{
  Use,
  texts_of,
  is_stray,
  nodes_of,
  retries_of,
  beside_of,
  number_in,
  yes_or_no,
  read_or,
  run_names,
  run_options,
  run_of,
  steps_names,
  steps_options,
  steps_of,
};
ghost use Rattle.a1.specs.Found.{option_rule, line_of, IsFound, HasUses};

use a1_base::{Memory, NODE_LIMIT};
use clap::error::ErrorKind;
use clap::{Arg, ArgMatches, Command as Line};
use std::alloc::Global;

/// How many nodes a farm has, where no word says.
const DEFAULT_NODES: u32 = 3;

/// How many times a transaction is tried again, where no word says.
const DEFAULT_RETRIES: u32 = 8;

/// The most times that one is.
const RETRIES_LIMIT: u32 = 1_000_000;

/// The options of `run`.
#[derive(Clone, Copy, Debug, PartialEq, Eq)]
pub struct RunOptions {
    /// How many nodes the farm has, 1 to 16.
    pub nodes: u32,
    /// How many times a transaction is tried again, up to 1,000,000.
    pub retries: u32,
    /// Whether other actors run beside the sessions.
    pub beside: bool,
}

/// The options of `steps`.
#[derive(Clone, Copy, Debug, PartialEq, Eq)]
pub struct StepsOptions {
    /// How many nodes the farm has, 1 to 16.
    pub nodes: u32,
}

// ---- which options are given

// Whether the word begins with a hyphen, and is neither `--name` nor `--name=value`.
fn is_stray(word: &str) -> bool
    ensures { result ≡ is_stray word.now }
{
    match word.as_bytes() {
        [b'-', b'-', _, ..] => false,
        [b'-', ..] => true,
        _ => false,
    }
}

fn has_stray(words: &[String]) -> bool
    ensures { result ≡ list_any is_stray (texts_of words.now) }
{
    let mut stray = false;
    for word in words {
        stray = stray || is_stray(word.as_str());
    }
    stray
}

// What the words give of the options of the line; none where they are no words of it.
fn found_in<'a>(line: Line<'a>, words: &'a [String]) -> Result<Option<ArgMatches<'a>>, Memory>
    requires { is_simple_and_free (app_of line) ≡ true }
    ensures { (label : List ℕ) (names : List (List ℕ)) → app_of line.entry ≡ line_of label names
        → IfOk result (IsFound names (texts_of words.now)) }
{
    if has_stray(words) {
        return Ok(None);
    }
    match line.try_get_matches_from(words) {
        Ok(found) => Ok(Some(found)),
        Err(error) => match error.kind() {
            ErrorKind::OutOfMemory => Err(Memory),
            _ => Ok(None),
        },
    }
}

// ---- values

// The number that the word writes in decimal digits, from `low` to `high`.
fn number_in(low: u32, high: u32, word: &str) -> Option<u32>
    ensures { result ≡ number_in low high word.now }
{
    if word.starts_with('+') {
        return None;
    }
    let number: u32 = word.parse().ok()?;
    if low <= number && number <= high {
        Some(number)
    } else {
        None
    }
}

// The number of a value, or what stands without one.
fn number_or(default: u32, low: u32, high: u32, value: Option<&str>) -> Option<u32>
    ensures { result ≡ read_or default (number_in low high) (option_map (λ word. word.now) value.entry) }
{
    match value {
        Some(word) => number_in(low, high, word),
        None => Some(default),
    }
}

fn yes_or_no(word: &str) -> Option<bool>
    ensures { result ≡ yes_or_no word.now }
{
    match word {
        "yes" => Some(true),
        "no" => Some(false),
        _ => None,
    }
}

// Yes or no, and yes without a value.
fn yes_or(value: Option<&str>) -> Option<bool>
    ensures { result ≡ read_or true yes_or_no (option_map (λ word. word.now) value.entry) }
{
    match value {
        Some(word) => yes_or_no(word),
        None => Some(true),
    }
}

fn nodes_of(found: &ArgMatches) -> Option<u32>
    ensures { (given : List Use) → HasUses given found.now → result ≡ nodes_of given }
{
    number_or(DEFAULT_NODES, 1, NODE_LIMIT, found.get_str("nodes"))
}

fn retries_of(found: &ArgMatches) -> Option<u32>
    ensures { (given : List Use) → HasUses given found.now → result ≡ retries_of given }
{
    number_or(DEFAULT_RETRIES, 0, RETRIES_LIMIT, found.get_str("retries"))
}

fn beside_of(found: &ArgMatches) -> Option<bool>
    ensures { (given : List Use) → HasUses given found.now → result ≡ beside_of given }
{
    yes_or(found.get_str("beside"))
}

// ---- commands

// A line of no option.
fn bare_line<'a>(alloc: Global, label: &'a str) -> Line<'a>
    ensures { app_of result ≡ line_of label.entry.now [] }
{
    Line::new(alloc, label)
        .no_binary_name(true)
        .disable_help_flag(true)
}

// The line with one option more.
fn with_option<'a>(alloc: Global, line: Line<'a>, name: &'a str) -> Result<Line<'a>, Memory>
    ensures { IfOk result (λ more. app_of more ≡ with_rule (app_of line.entry) (option_rule name.entry.now)) }
{
    Ok(line.arg(Arg::new(alloc, name).long(name))?)
}

fn run_line<'a>(alloc: Global) -> Result<Line<'a>, Memory>
    ensures { IfOk result (λ line. app_of line ≡ line_of (codes "run") run_names) }
{
    let line = with_option(alloc, bare_line(alloc, "run"), "nodes")?;
    let line = with_option(alloc, line, "retries")?;
    with_option(alloc, line, "beside")
}

fn steps_line<'a>(alloc: Global) -> Result<Line<'a>, Memory>
    ensures { IfOk result (λ line. app_of line ≡ line_of (codes "steps") steps_names) }
{
    with_option(alloc, bare_line(alloc, "steps"), "nodes")
}

fn run_options(found: &ArgMatches) -> Option<RunOptions>
    ensures { (given : List Use) → HasUses given found.now → result ≡ run_options given }
{
    Some(RunOptions {
        nodes: nodes_of(found)?,
        retries: retries_of(found)?,
        beside: beside_of(found)?,
    })
}

fn steps_options(found: &ArgMatches) -> Option<StepsOptions>
    ensures { (given : List Use) → HasUses given found.now → result ≡ steps_options given }
{
    Some(StepsOptions {
        nodes: nodes_of(found)?,
    })
}

/// The options of `run` that the words give; none where they are no words of it.
pub fn run_of(alloc: Global, words: &[String]) -> Result<Option<RunOptions>, Memory>
    ensures { IfOk result (λ options. options ≡ run_of (texts_of words.now)) }
{
    match found_in(run_line(alloc)?, words)? {
        Some(found) => Ok(run_options(&found)),
        None => Ok(None),
    }
}

/// The options of `steps` that the words give; none where they are no words of it.
pub fn steps_of(alloc: Global, words: &[String]) -> Result<Option<StepsOptions>, Memory>
    ensures { IfOk result (λ options. options ≡ steps_of (texts_of words.now)) }
{
    match found_in(steps_line(alloc)?, words)? {
        Some(found) => Ok(steps_options(&found)),
        None => Ok(None),
    }
}
