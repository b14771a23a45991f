//! What is found in the words of the command line.
ghost use Rattle.std.specs.Prelude.{◌≡◌, [], Some, option_map, unwrap_or};
ghost use Rattle.clap.specs.Words.{subcommand_rows_of};
ghost use Rattle.bgview_command_line.specs.CommandLine.{IsNumber, IsNumberIfAny, file_among, is_given, mode_among, other_among, value_among};

use crate::words::{Line, Mode};
use clap::ArgMatches;

/// What the words ask for.
pub fn line_in<'a>(matches: &ArgMatches<'a>) -> Line<'a>
    ensures command { result.command ≡ mode_among (subcommand_rows_of matches.now) }
    ensures file { option_map (λ file. file.now) result.file ≡ file_among (subcommand_rows_of matches.now) }
    ensures other { option_map (λ file. file.now) result.other ≡ other_among (subcommand_rows_of matches.now) }
{
    Line {
        command: mode_in(matches),
        file: value_among(matches, "FILE"),
        other: value_among(matches, "OTHER"),
    }
}

/// The mode of the subcommand.
fn mode_in(matches: &ArgMatches<'_>) -> Mode
    ensures { result ≡ mode_among (subcommand_rows_of matches.now) }
{
    match matches.subcommand() {
        Some((word, _)) => Mode::of(word),
        None => Mode::Why,
    }
}

/// The value of this name among those of the subcommand.
fn value_among<'a>(matches: &ArgMatches<'a>, name: &str) -> Option<&'a str>
    ensures { option_map (λ text. text.now) result ≡ value_among name.now (subcommand_rows_of matches.now) }
{
    match matches.subcommand() {
        Some((_, inner)) => inner.get_str(name),
        None => None,
    }
}

/// The text after an option, if the option is there.
pub fn text_if_any<'a>(matches: &ArgMatches<'a>, name: &str) -> Option<&'a str>
    ensures { option_map (λ text. text.now) result ≡ value_among name.now (subcommand_rows_of matches.now) }
{
    value_among(matches, name)
}

/// The text after an option, which is empty if the option isn't there.
pub fn text_among<'a>(matches: &ArgMatches<'a>, name: &str) -> &'a str
    ensures { result.now ≡ unwrap_or (value_among name.now (subcommand_rows_of matches.now)) [] }
{
    match value_among(matches, name) {
        Some(text) => text,
        None => "",
    }
}

/// The number after an option, or this one if the option isn't there.
pub fn number_among(matches: &ArgMatches<'_>, name: &str, default: u32) -> u32
    ensures { IsNumber (value_among name.now (subcommand_rows_of matches.now)) default result }
{
    match value_among(matches, name) {
        Some(text) => number_in(text, default),
        None => default,
    }
}

/// The number after an option, if the option is there.
pub fn number_if_any(matches: &ArgMatches<'_>, name: &str) -> Option<u32>
    ensures { IsNumberIfAny (value_among name.now (subcommand_rows_of matches.now)) result }
{
    match value_among(matches, name) {
        Some(text) => Some(number_in(text, 0)),
        None => None,
    }
}

/// Whether a flag is given.
pub fn is_given(matches: &ArgMatches<'_>, name: &str) -> bool
    ensures { result ≡ is_given (value_among name.now (subcommand_rows_of matches.now)) }
{
    match value_among(matches, name) {
        Some(text) => text == "true",
        None => false,
    }
}

/// The number that a text gives, which may have a sign. `clap` takes no text that is no number.
fn number_in(text: &str, default: u32) -> u32
    ensures { IsNumber (Some text.now) default result }
{
    match text.parse::<i64>() {
        Ok(number) => u32::try_from(number).unwrap_or(default),
        Err(_) => default,
    }
}
