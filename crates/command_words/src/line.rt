//! The command line as `clap` is told it, and the parse of words by it.
ghost use Rattle.std.specs.Prelude.{◌≡◌, IfErr, IfOk, [], false, map};
ghost use Rattle.clap.specs.Words.{app_of, found_of, rows_of, rule_of};
ghost use Rattle.command_words.specs.CommandLine.{HasNumbers, command_rule, faults, found, line};
ghost use Rattle.command_words.specs.CommandLine.{number_rule, slots_rule, window_rule};
ghost use Rattle.command_words.specs.CommandLine.{workers_rule};

use crate::job::WordsFault;
use clap::error::{Error, ErrorKind};
use clap::{Arg, ArgMatches, Command, value_parser};
use std::alloc::{AllocError, Global};

// The most workers, the most slots of a history and the most steps of a window that words may name.
const MOST_WORKERS: i64 = 64;

const MOST_SLOTS: i64 = 8;

const WIDEST_WINDOW: i64 = 256;

/// How many workers a job has where its words don't say.
pub(crate) const DEFAULT_WORKERS: u32 = 4;
/// How many slots a history has where the words don't say.
pub(crate) const DEFAULT_SLOTS: u64 = 4;
/// The greatest window wished for where the words don't say.
pub(crate) const DEFAULT_WINDOW: u64 = 64;

// What is to be done.
fn command_arg<'a>(alloc: Global) -> Arg<'a>
    ensures rule { rule_of result ≡ command_rule }
    ensures local { result.global ≡ false }
{
    Arg::new(alloc, "command").required(true)
}

// The number of a drill.
fn number_arg<'a>(alloc: Global) -> Arg<'a>
    ensures rule { rule_of result ≡ number_rule }
    ensures local { result.global ≡ false }
{
    Arg::new(alloc, "number").value_parser(value_parser!(u32).range(0..=999_999))
}

// How many workers.
fn workers_arg<'a>(alloc: Global) -> Arg<'a>
    ensures rule { rule_of result ≡ workers_rule }
    ensures local { result.global ≡ false }
{
    Arg::new(alloc, "workers")
        .long("workers")
        .value_parser(value_parser!(u32).range(1..=MOST_WORKERS))
}

// How many slots a history has.
fn slots_arg<'a>(alloc: Global) -> Arg<'a>
    ensures rule { rule_of result ≡ slots_rule }
    ensures local { result.global ≡ false }
{
    Arg::new(alloc, "slots")
        .long("slots")
        .value_parser(value_parser!(u64).range(1..=MOST_SLOTS))
}

// The greatest window that is wished for.
fn window_arg<'a>(alloc: Global) -> Arg<'a>
    ensures rule { rule_of result ≡ window_rule }
    ensures local { result.global ≡ false }
{
    Arg::new(alloc, "window")
        .long("window")
        .value_parser(value_parser!(u64).range(1..=WIDEST_WINDOW))
}

// The whole command line.
fn command_line<'a>(alloc: Global) -> Result<Command<'a>, AllocError>
    ensures { IfOk result (λ c. app_of c ≡ line) }
{
    Command::new(alloc, "surge")
        .arg(command_arg(alloc))?
        .arg(number_arg(alloc))?
        .arg(workers_arg(alloc))?
        .arg(slots_arg(alloc))?
        .arg(window_arg(alloc))
}

// Want of memory, or else words that are refused.
fn fault(error: Error) -> WordsFault
    ensures { result ≡ WordsFault.Words → error.kind ≡ ErrorKind.OutOfMemory → ⊥ }
{
    if error.kind() == ErrorKind::OutOfMemory {
        WordsFault::Memory
    } else {
        WordsFault::Words
    }
}

/// What the words have, each value under its name: `Words` where the command line finds a fault.
pub(crate) fn parse<'a>(alloc: Global, words: &'a [&'a str]) -> Result<ArgMatches<'a>, WordsFault>
    ensures rows { let texts = map (λ w. w.now) words.entry.now in
        IfOk result (λ m. rows_of (found_of m) ≡ found texts) }
    ensures taken { IfOk result (λ m. faults (map (λ w. w.now) words.entry.now) ≡ []) }
    ensures numbers { IfOk result (λ m. HasNumbers (found_of m)) }
    ensures refused { let texts = map (λ w. w.now) words.entry.now in
        IfErr result (λ e. e ≡ WordsFault.Words → faults texts ≡ [] → ⊥) }
{
    let mut command = match command_line(alloc) {
        Ok(command) => command,
        Err(AllocError) => return Err(WordsFault::Memory),
    };
    match command.try_get_matches_from_mut(words) {
        Ok(matches) => Ok(matches),
        Err(error) => Err(fault(error)),
    }
}
