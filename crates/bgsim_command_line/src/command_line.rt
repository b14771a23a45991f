//! Reads the words of the command line.
ghost use Rattle.std.specs.Prelude.{◌≡◌, ◌≢◌, ◌≤◌, [], IfErr, IfOk, IsOkAnd, None, codes, false, map, option_map};
ghost use Rattle.clap.specs.Kinds.{FailsBy};
ghost use Rattle.clap.specs.Values.{kind_of};
ghost use Rattle.clap.specs.declared.error.kind.ErrorKind.TheVariants.{OutOfMemory};
ghost use Rattle.clap.specs.declared.builder.command.Command.TheViews.{out-Command};
ghost use Rattle.clap.specs.Words.{app_of, fault_of, first_value, found_of, subcommand_of, subcommand_rows_of, with_subcommand};
ghost use Rattle.bgsim_command_line.specs.CommandLine.{bgsim_app, file_among, file_app, mode_among, plain_app, run_app, word_of, words_fault, workers_among, IsAsked, IsPlainly, IsWorkers};
ghost use Rattle.bgsim_command_line.specs.declared.words.Mode.{Mode as ModeData};
ghost use Rattle.bgsim_command_line.specs.declared.words.Mode.TheVariants as ModeVariants;

use crate::words::{DEFAULT_WORKERS, Line, Mode, workers_in};
use clap::{Arg, ArgMatches, Command, Error, value_parser};
use std::alloc::{AllocError, Global};
use std::convert::AsStr;

/// The subcommand of this word, which takes a file.
fn file_command<'a>(
    alloc: Global,
    word: &'a str,
    about: &'a str,
    usage: &'a str,
    file: &'a str,
) -> Result<Command<'a>, AllocError>
    ensures app { IfOk result (λ command. app_of command ≡ file_app word.entry.now) }
    ensures local { IfOk result (λ command. (out-Command command).has_globals ≡ false) }
{
    let file = Arg::new(alloc, "FILE").help(file);
    Command::new(alloc, word)
        .about(about)
        .override_usage(usage)
        .arg(file)
}

/// The subcommand `run`, which takes a file and a number of workers.
fn run_command<'a>(alloc: Global) -> Result<Command<'a>, AllocError>
    ensures app { IfOk result (λ command. app_of command ≡ run_app) }
    ensures local { IfOk result (λ command. (out-Command command).has_globals ≡ false) }
{
    let run = file_command(
        alloc,
        "run",
        "Runs the rooms of a file on threads, and reports each",
        "bgsim run [--workers W] [FILE]",
        "The rooms; without it, standard input is read",
    )?;
    let workers = Arg::new(alloc, "workers")
        .long("workers")
        .value_name("W")
        .value_parser(value_parser!(u8).range(1..=16))
        .help("How many threads run the rooms, 1 to 16; without it, 2");
    run.arg(workers)
}

/// The subcommand `check`.
fn check_command<'a>(alloc: Global) -> Result<Command<'a>, AllocError>
    ensures app { IfOk result (λ command. app_of command ≡ file_app (word_of ModeVariants.Check)) }
    ensures local { IfOk result (λ command. (out-Command command).has_globals ≡ false) }
{
    file_command(
        alloc,
        "check",
        "Says of each room in a transcript whether its events are a run",
        "bgsim check [FILE]",
        "The transcript; without it, standard input is read",
    )
}

/// The subcommand `play`.
fn play_command<'a>(alloc: Global) -> Result<Command<'a>, AllocError>
    ensures app { IfOk result (λ command. app_of command ≡ file_app (word_of ModeVariants.Play)) }
    ensures local { IfOk result (λ command. (out-Command command).has_globals ≡ false) }
{
    file_command(
        alloc,
        "play",
        "Does what a script asks of its rooms, and replies",
        "bgsim play [FILE]",
        "The script; without it, standard input is read",
    )
}

/// The program's command without its subcommands.
fn plain_command<'a>(alloc: Global) -> Command<'a>
    ensures { app_of result ≡ plain_app }
{
    Command::new(alloc, "bgsim")
        .version("0.2.0 (proved with rattle-kit-13f logic dac8208d650f15bf)")
        .about(
            "Simulates rooms of protocols on write-snapshot memory, and judges their transcripts",
        )
        .after_help(
            "Without arguments, bgsim does what `bgsim check` does.\n\nBegin with `bgview lint FILE`: it says in words what is wrong with a file of your own. The other modes of bgview explain what bgsim answers (`bgview --help`).\n\nExit status: 0 if nothing was refused, broken or malformed; 1 if something was refused or broken; 2 for a usage error, a malformed input or an I/O error; 3 if memory ran out.",
        )
        .override_usage(
            "bgsim [COMMAND]\n       bgview COMMAND, for why, trace, draw, page, transcript, fault, sample, sum, outcomes, lint, grade and live",
        )
        .no_binary_name(true)
        .disable_help_subcommand(true)
        .subcommand_required(true)
}

/// The command with one more subcommand, if there is one.
fn with_subcommand<'a>(
    command: Command<'a>,
    subcommand: Result<Command<'a>, AllocError>,
) -> Result<Command<'a>, AllocError>
    ensures { IfOk result (λ whole. IsOkAnd subcommand.entry (λ part.
        (out-Command part).has_globals ≡ false → app_of whole ≡ with_subcommand (app_of command.entry) (app_of part).top)) }
{
    command.subcommand(subcommand?)
}

fn command<'a>(alloc: Global) -> Result<Command<'a>, AllocError>
    ensures { IfOk result (λ command. app_of command ≡ bgsim_app) }
{
    let with_check = with_subcommand(plain_command(alloc), check_command(alloc))?;
    let with_play = with_subcommand(with_check, play_command(alloc))?;
    with_subcommand(with_play, run_command(alloc))
}

/// What `clap` finds in the words.
fn read_words<'a, S: AsStr>(alloc: Global, words: &'a [S]) -> Result<ArgMatches<'a>, Error>
    ensures sound { IfOk result (λ matches. subcommand_rows_of matches ≡ subcommand_of bgsim_app (map S.text words.entry.now)) }
    ensures kinds { FailsBy (fault_of bgsim_app (map S.text words.entry.now)) result }
{
    command(alloc)?.try_get_matches_from(words)
}

/// What the subcommand and the words after it ask for.
fn line_in<'a>(matches: &ArgMatches<'a>) -> Line<'a>
    ensures command { result.command ≡ mode_among (subcommand_rows_of matches.now) }
    ensures file { option_map (λ file. file.now) result.file ≡ file_among (subcommand_rows_of matches.now) }
    ensures workers { result.command ≡ ModeVariants.Run → IsWorkers (workers_among (subcommand_rows_of matches.now)) result.workers }
    ensures default { result.command ≢ ModeVariants.Run → result.workers ≡ 2 }
    ensures range { (1 ≤ result.workers) × (result.workers ≤ 16) }
{
    match matches.subcommand() {
        Some((word, inner)) => {
            let mode = Mode::of(word);
            Line::of(mode, inner.get_str("FILE")).with_workers(workers_for(mode, inner))
        }
        None => Line::of(Mode::Check, None),
    }
}

/// How many workers the words after a mode's ask for.
fn workers_for(mode: Mode, matches: &ArgMatches<'_>) -> u8
    ensures run { mode ≡ ModeVariants.Run → IsWorkers (first_value (found_of matches.now) (codes "workers")) result }
    ensures default { mode ≢ ModeVariants.Run → result ≡ 2 }
    ensures range { (1 ≤ result) × (result ≤ 16) }
{
    if mode != Mode::Run {
        return DEFAULT_WORKERS;
    }
    match matches.get_str("workers") {
        Some(text) => workers_in(text),
        None => DEFAULT_WORKERS,
    }
}

/// Reads the words after the program's name.
///
/// # Errors
///
/// A usage error, a request for help or the version, and an allocation that failed, each of `clap`'s own kind.
pub fn line<'a, S: AsStr>(alloc: Global, words: &'a [S]) -> Result<Line<'a>, Error>
    ensures workers { IfOk result (λ line. (1 ≤ line.workers) × (line.workers ≤ 16)) }
    ensures nothing { map S.text words.entry.now ≡ [] → IsOkAnd result (λ line. (line.command ≡ ModeVariants.Check) × (line.file ≡ None)) }
    // `run` alone takes a number of workers, of those that `clap` lets through.
    ensures default { IfOk result (λ line. line.command ≢ ModeVariants.Run → line.workers ≡ 2) }
    ensures number { IfOk result (λ line. line.command ≡ ModeVariants.Run →
        IsWorkers (workers_among (subcommand_of bgsim_app (map S.text words.entry.now))) line.workers) }
    // The first word is the mode's, and those after it name the file; or there are no words.
    ensures asked { IfOk result (λ line. IsAsked (map S.text words.entry.now) line.command (option_map (λ file. file.now) line.file)) }
    // Words that are plainly a mode and a file are refused only if an allocation fails.
    ensures plain { (mode : ModeData) → IsPlainly (map S.text words.entry.now) mode → IfErr result (λ error. kind_of error ≡ OutOfMemory) }
    ensures kinds { FailsBy (words_fault (map S.text words.entry.now)) result }
{
    if words.is_empty() {
        return Ok(Line::of(Mode::Check, None));
    }
    let matches = read_words(alloc, words)?;
    Ok(line_in(&matches))
}
