//! The job that the words name.
ghost use Rattle.std.specs.Prelude.{◌≡◌, IfOk, MatchResult, None, Some, codes, map};
ghost use Rattle.std.specs.Prelude.{option_and_then};
ghost use Rattle.clap.specs.Words.{first_of, found_of, rows_of};
ghost use Rattle.command_words.specs.CommandLine.{HasIn, HasNumbers, IsJob, command_of, job_among};
ghost use Rattle.command_words.specs.CommandLine.{job_of, job_with as job_by, number_at};

use crate::job::{Command, Job, WordsFault};
use crate::line::{DEFAULT_SLOTS, DEFAULT_WINDOW, DEFAULT_WORKERS, parse};
use clap::ArgMatches;
use std::alloc::Global;

/// The job that the words name, of which the first is the program's name.
/// `Words` comes exactly where they are refused, and `Memory` for want of memory alone.
#[tactic(auto, unfolding(crate::specs::CommandLine::job_of))]
pub fn read_words(alloc: Global, words: &[&str]) -> Result<Job, WordsFault>
    ensures exact { MatchResult result
        (λ job. job_of (map (λ w. w.now) words.now) ≡ Some job)
        (λ e. e ≡ WordsFault.Words → job_of (map (λ w. w.now) words.now) ≡ None) }
    ensures limits { IfOk result IsJob }
{
    let matches = parse(alloc, words)?;
    match job_among_matches(&matches) {
        Some(job) => Ok(job),
        None => Err(WordsFault::Words),
    }
}

// The command of this name.
#[tactic(auto, unfolding(crate::specs::CommandLine::command_of))]
fn command_of(word: &str) -> Option<Command>
    ensures { result ≡ command_of word.now }
{
    match word {
        "check" => Some(Command::Check),
        "mesh" => Some(Command::Mesh),
        "rounds" => Some(Command::Rounds),
        "run" => Some(Command::Run),
        "drill" => Some(Command::Drill),
        "upgrade" => Some(Command::Upgrade),
        _ => None,
    }
}

// The number under this name, of those that fit 32 bits.
fn small_number(matches: &ArgMatches<'_>, id: &str) -> Option<u32>
    requires { HasIn 0 999_999 id.now (found_of matches.now) }
    ensures { result ≡ number_at id.now (rows_of (found_of matches.now)) }
{
    matches.get_one::<u32>(id)
}

// The number under this name, of those that fit 64 bits.
fn wide_number(matches: &ArgMatches<'_>, id: &str) -> Option<u64>
    requires { HasIn 0 999_999 id.now (found_of matches.now) }
    ensures { result ≡ number_at id.now (rows_of (found_of matches.now)) }
{
    matches.get_one::<u64>(id)
}

// The job of a command, which has a number exactly where it is a drill.
#[tactic(auto, unfolding(crate::specs::CommandLine::job_with))]
fn job_with(
    command: Command,
    number: Option<u32>,
    workers: u32,
    slots: u64,
    window: u64,
) -> Option<Job>
    ensures { result ≡ job_by command number workers slots window }
{
    if matches!(command, Command::Drill) != number.is_some() {
        return None;
    }
    let number = number.unwrap_or(0);
    Some(Job {
        command,
        number,
        workers,
        slots,
        window,
    })
}

// The command among the values that were found.
fn command_among(matches: &ArgMatches<'_>) -> Option<Command>
    ensures { let rows = rows_of (found_of matches.now) in
        result ≡ option_and_then command_of (first_of (codes "command") rows) }
{
    match matches.get_str("command") {
        Some(word) => command_of(word),
        None => None,
    }
}

// The job among the values that were found.
#[tactic(auto, unfolding(crate::specs::CommandLine::job_among))]
fn job_among_matches(matches: &ArgMatches<'_>) -> Option<Job>
    requires { HasNumbers (found_of matches.now) }
    ensures { result ≡ job_among (rows_of (found_of matches.now)) }
{
    let command = command_among(matches)?;
    let number = small_number(matches, "number");
    let workers = small_number(matches, "workers").unwrap_or(DEFAULT_WORKERS);
    let slots = wide_number(matches, "slots").unwrap_or(DEFAULT_SLOTS);
    let window = wide_number(matches, "window").unwrap_or(DEFAULT_WINDOW);
    job_with(command, number, workers, slots, window)
}
