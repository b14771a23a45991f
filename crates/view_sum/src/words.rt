//! What is said of a file that isn't added up.
ghost use Rattle.std.specs.Prelude.{◌≡◌, ◌∷◌, ◌++◌, [], OnOk, codes, decimal, map, slice_index_or};
ghost use Rattle.view_sum.specs.Words.{fault_words, hint_words, plan_words, refusal_text, subject_words};

use crate::fault::{BadPart, Member, Reason};
use io_text::Text;
use std::alloc::AllocError;

/// Writes which file of these names can't be added up with the others, at which line, why, and what helps.
///
/// # Errors
///
/// An allocation that fails.
pub fn write_refusal(output: &mut Text, names: &[&str], bad: &BadPart) -> Result<(), AllocError>
    ensures { OnOk result (output.new ≡ output.old ++ refusal_text (map (λ name. name.now) names.now) bad.now) }
{
    write_place(output, name_of(names, bad.file), bad.line)?;
    write_fault(output, name_of(names, bad.other), bad.reason)?;
    write_hint(output, bad.reason)
}

/// The name of a file by its number.
fn name_of<'a>(names: &[&'a str], file: usize) -> &'a str
    ensures { result.now ≡ slice_index_or (map (λ name. name.now) names.now) file [] }
{
    match names.get(file) {
        Some(name) => name,
        None => "",
    }
}

fn write_place(output: &mut Text, name: &str, line: u64) -> Result<(), AllocError>
    ensures { OnOk result (output.new ≡ output.old ++ ((codes "    " ++ name.now) ++ (codes ", line" ++ ((32 ∷ decimal line) ++ codes ": ")))) }
{
    output.put_two(b"    ", name.as_bytes())?;
    output.put(b", line")?;
    output.put_spaced_number(line)?;
    output.put(b": ")
}

fn write_fault(output: &mut Text, other: &str, reason: Reason) -> Result<(), AllocError>
    ensures { OnOk result (output.new ≡ output.old ++ (fault_words reason ++ (subject_words other.now reason ++ codes "\n"))) }
{
    output.put(fault_words(reason))?;
    write_subject(output, other, reason)?;
    output.put(b"\n")
}

fn write_subject(output: &mut Text, other: &str, reason: Reason) -> Result<(), AllocError>
    ensures { OnOk result (output.new ≡ output.old ++ subject_words other.now reason) }
{
    match reason {
        Reason::OtherCount { listed } => output.put_spaced_number(listed),
        Reason::Overlap { expected } | Reason::Gap { expected } => output.put_spaced_number(
            expected,
        ),
        Reason::OtherRooms | Reason::OtherPlan(_) => output.put_two(b" ", other.as_bytes()),
        _ => Ok(()),
    }
}

fn write_hint(output: &mut Text, reason: Reason) -> Result<(), AllocError>
    ensures { OnOk result (output.new ≡ output.old ++ (codes "    " ++ (hint_words reason ++ codes "\n"))) }
{
    output.put(b"    ")?;
    output.put_two(hint_words(reason), b"\n")
}

/// What is wrong, up to a number or the other file's name.
fn fault_words(reason: Reason) -> &'static [u8]
    ensures { result.now ≡ fault_words reason }
{
    match reason {
        Reason::Malformed => b"not JSON",
        Reason::NotOfSample => b"not as `bgview sample --json` writes an outcome or a room",
        Reason::OtherRoom => b"another room than the outcomes before it",
        Reason::OtherCount { .. } =>
            b"the room has another number of outcomes than come before it:",
        Reason::Unended => b"the file ends before the line of its last room",
        Reason::TooMany => b"more schedules than a number of 32 bits counts",
        Reason::OtherRooms => b"other rooms than",
        Reason::Overlap { .. } => b"schedules of a file before it: the next one has the number",
        Reason::Gap { .. } => b"schedules are missing: the next one has the number",
        Reason::OtherPlan(member) => plan_words(member),
    }
}

/// In which way the files were sampled differently.
fn plan_words(member: Member) -> &'static [u8]
    ensures { result.now ≡ plan_words member }
{
    match member {
        Member::Crashes => b"another `--crashes` than",
        Member::Seed => b"another `--seed` than",
        Member::Grouped => b"`--group` in one of two: this file and",
        Member::Schedule => b"`--brief` in one of two: this file and",
        Member::Task => b"a task in one of two: this file and",
    }
}

/// What helps.
fn hint_words(reason: Reason) -> &'static [u8]
    ensures { result.now ≡ hint_words reason }
{
    match reason {
        Reason::Malformed => b"each file is what `bgview sample --json` wrote",
        Reason::NotOfSample =>
            b"each file is what `bgview sample --json` wrote, without `--top`, `--outcome` and `--keeps`",
        Reason::OtherRoom => b"the outcomes of a room come right before its own line",
        Reason::OtherCount { .. } =>
            b"sample the parts without `--top`, and show fewer outcomes by `bgview sum --top`",
        Reason::Unended => b"perhaps the sample was not written to its end",
        Reason::TooMany => b"the schedules of a seed have the numbers 0 to 4294967295",
        Reason::OtherRooms => b"each file has a part of the schedules of the same rooms",
        Reason::OtherPlan(_) => b"the parts of a sample differ only in `--from` and `--schedules`",
        Reason::Overlap { .. } =>
            b"give each schedule to one file: `bgview sample --from K` begins with the number K",
        Reason::Gap { .. } =>
            b"`bgview sample --from K` begins with the number K, and a file for those is not here",
    }
}
