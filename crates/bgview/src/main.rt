//! The program `bgview`: reads the input that the command line names, has the crate of the mode answer it, and writes the answer. What is said of an
//! input's faults goes to standard error.
#![tactic(auto)]

ghost use Rattle.std.specs.Prelude.{◌≡◌, ◌≤◌, ◌∷◌, All, IfErr, IfOk, IfSome, List, [], ℕ, false, length, map, option_and_then};
ghost use Rattle.std.specs.Io.KnownBytes.{Appends};
ghost use Rattle.clap.specs.Words.{subcommand_rows_of};
ghost use Rattle.bgview_command_line.specs.CommandLine.{codes_among, files_among, keeps_file_among, other_among};
ghost use Rattle.io_text.specs.Reading.{most_bytes};
ghost use Rattle.bgview.specs.Endings.{IsAnswered, IsAskedDone, IsEnding, IsInputDone, IsReadBy, IsStatusFor, IsSumDone, IsUnreadOf, is_page_of_one, named_by};
ghost use Rattle.bgview.specs.Faults.{AreFaultsSaid};
ghost use Rattle.bgview.specs.OwnTasks.{task_text};
ghost use Rattle.bgview.specs.Sums.{IfAllKnown, IsNotRead, input_of, inputs_of};

mod ended;
mod engine;
mod fault;
mod own_task;
mod progress;
mod request;
mod said;
mod showing;
mod system;
mod unread;

use bgview_command_line::{line_in, read_words, text_if_any};
use clap::ArgMatches;
use ended::Ended;
use engine::{Given, NamedReader, answer_io, fault_io, live_io, pages_io, sum_io};
use fault::{OptionFault, ViewFault};
use io_text::{Device, Text, read_input};
use own_task::{judged_by, task_text};
use program_io::{Inputs, unread_status, words, words_status};
use progress::{Counter, Parts, has_terminal};
use request::{OfInput, Request, Requested, requested_in};
use room_files::Outcome;
use run_search::Progress;
use said::say_end;
use std::alloc::{AllocError, Global};
use std::convert::AsStr;
use std::io::{Read, Write};
use std::process::ExitCode;
use std::thread::Threads;
use system::{Aside, System};
use view_sum::SumForm;

fn main(rt: HostRuntime) -> ExitCode {
    let mut errors = Device::new(rt.stderr());
    let system = System {
        threads: &rt,
        inputs: &rt,
        alloc: rt.alloc(),
    };
    let status = match words(&rt) {
        Ok(words) => status(
            &rt,
            &system,
            &mut Device::new(rt.stdout()),
            &mut errors,
            words.as_slice(),
        ),
        Err(error) => unread_status(&mut errors, "bgview", &error),
    };
    ExitCode::from(status)
}

/// The exit status for these words, after what they ask for is done, and what there is to say of it is said on standard error.
fn status<H: Threads + Sync, I: Inputs, W: Write, E: Write, S: AsStr>(
    rt: &HostRuntime,
    system: &System<'_, H, I>,
    writer: &mut Device<W>,
    errors: &mut Device<E>,
    words: &[S],
) -> u8
    requires writer { writer.old.failed ≡ false }
    requires errors { errors.old.failed ≡ false }
    ensures value { IsStatusFor (I.standard_bytes system.now.inputs.now) (I.file_bytes system.now.inputs.now) (map S.text words.entry.now)
        (record { before = W.contents writer.old.inner; after = W.contents writer.new.inner })
        (record { before = E.contents errors.old.inner; after = E.contents errors.new.inner; failed = errors.new.failed }) result }
    ensures small { result ≤ 3 }
{
    match read_words(rt.alloc(), words) {
        Ok(matches) => {
            let terminal = has_terminal(rt).then(|| rt.stderr());
            let mut aside = Aside {
                notes: Text::new(rt.alloc()),
                progress: Counter::new(terminal, Parts::of(&requested_in(&matches))),
            };
            let ended = end(system, writer, &matches, &mut aside);
            aside.progress.clear();
            let mode = line_in(&matches).command;
            say_end(errors, mode, &ended, aside.notes.as_bytes());
            ended.status()
        }
        Err(error) => words_status(rt, errors, "bgview", &error),
    }
}

/// How the program ends that does what the words ask for. What is said of the faults of its inputs becomes the notes of `aside`.
fn end<'a, H: Threads + Sync, I: Inputs, W: Write, P: Progress>(
    system: &System<'_, H, I>,
    writer: &mut Device<W>,
    matches: &ArgMatches<'a>,
    aside: &mut Aside<P>,
) -> Ended<'a>
    requires writer { writer.old.failed ≡ false }
    requires notes { aside.old.notes ≡ [] }
    ensures { IsEnding (subcommand_rows_of matches.now)
        (named_by (I.standard_bytes system.now.inputs.now) (I.file_bytes system.now.inputs.now) (subcommand_rows_of matches.now)) result aside.new.notes
        (record { before = W.contents writer.old.inner; after = W.contents writer.new.inner }) }
{
    match requested_in(matches) {
        Requested::Faults => Ended {
            result: say_faults(system.alloc, matches, writer),
            unread: None,
        },
        Requested::Sum(form) => sum_files(system, writer, matches, &form, aside),
        Requested::Input(asked) => with_task(system, writer, matches, &asked, aside),
    }
}

/// How the answer ends to what is asked of the input that the words name, judged by the task of one's own in the file that they name, if they name one.
/// What is said of its faults becomes the notes of `aside`.
fn with_task<'a, H: Threads + Sync, I: Inputs, W: Write, P: Progress>(
    system: &System<'_, H, I>,
    writer: &mut Device<W>,
    matches: &ArgMatches<'a>,
    asked: &OfInput<'_>,
    aside: &mut Aside<P>,
) -> Ended<'a>
    requires writer { writer.old.failed ≡ false }
    requires notes { aside.old.notes ≡ [] }
    ensures { IsAskedDone (subcommand_rows_of matches.now)
        (named_by (I.standard_bytes system.now.inputs.now) (I.file_bytes system.now.inputs.now) (subcommand_rows_of matches.now)) asked.now result aside.new.notes
        (record { before = W.contents writer.old.inner; after = W.contents writer.new.inner }) }
{
    let Some(path) = text_if_any(matches, "keeps-file") else {
        return with_file(system, writer, matches, asked, aside);
    };
    if text_if_any(matches, "keeps").is_some() {
        return Ended::refused(OptionFault::TwoTasks);
    }
    let task = match read_task(system, path) {
        Ok(task) => task,
        Err(ended) => return ended,
    };
    let judged = judged_by(*asked, task.as_slice());
    with_file(system, writer, matches, &judged, aside)
}

/// The task of one's own in the file of this path, as text; or how the program ends, if it is not read.
fn read_task<'a, H, I: Inputs>(
    system: &System<'_, H, I>,
    path: &'a str,
) -> Result<Vec<u8>, Ended<'a>>
    ensures read { IfOk result (λ task. IfSome (I.file_bytes system.now.inputs.now path.now) (λ file. task.items ≡ task_text file)) }
    ensures err { IfErr result (IsNotRead (path.now ∷ [])) }
{
    let file = match read_file(system, path) {
        Ok(file) => file,
        Err(ended) => return Err(ended),
    };
    match task_text(system.alloc, file.as_slice()) {
        Ok(task) => Ok(task),
        Err(_) => Err(Ended::out_of_memory()),
    }
}

/// How the answer ends to what is asked of the input that the words name, which is written. What is said of its faults becomes the notes of `aside`.
fn with_file<'a, H: Threads + Sync, I: Inputs, W: Write, P: Progress>(
    system: &System<'_, H, I>,
    writer: &mut Device<W>,
    matches: &ArgMatches<'a>,
    asked: &OfInput<'_>,
    aside: &mut Aside<P>,
) -> Ended<'a>
    requires writer { writer.old.failed ≡ false }
    requires notes { aside.old.notes ≡ [] }
    ensures { IsInputDone (subcommand_rows_of matches.now)
        (named_by (I.standard_bytes system.now.inputs.now) (I.file_bytes system.now.inputs.now) (subcommand_rows_of matches.now)) asked.now result aside.new.notes
        (record { before = W.contents writer.old.inner; after = W.contents writer.new.inner }) }
{
    match line_in(matches).file {
        None => {
            let input = system.inputs.standard();
            with_other(system, input, writer, matches, asked, aside)
        }
        Some(path) => match system.inputs.open(path) {
            Ok(input) => with_other(system, input, writer, matches, asked, aside),
            Err(error) => Ended::not_opened(path, &error),
        },
    }
}

/// How the answer ends to what is asked of an input, and of a second file if the words name one, which is written. What is said of their
/// faults becomes the notes of `aside`.
fn with_other<'a, H: Threads + Sync, I: Inputs, R: Read + Drop, W: Write, P: Progress>(
    system: &System<'_, H, I>,
    input: R,
    writer: &mut Device<W>,
    matches: &ArgMatches<'a>,
    asked: &OfInput<'_>,
    aside: &mut Aside<P>,
) -> Ended<'a>
    requires writer { writer.old.failed ≡ false }
    requires notes { aside.old.notes ≡ [] }
    ensures read { IsReadBy (subcommand_rows_of matches.now)
        (record {
          first = R.remaining input;
          second = option_and_then (I.file_bytes system.now.inputs.now) (other_among (subcommand_rows_of matches.now));
          all = inputs_of (I.standard_bytes system.now.inputs.now) (I.file_bytes system.now.inputs.now) (files_among (subcommand_rows_of matches.now));
          task = option_and_then (I.file_bytes system.now.inputs.now) (keeps_file_among (subcommand_rows_of matches.now));
        }) asked.now result.result aside.new.notes
        (record { before = W.contents writer.old.inner; after = W.contents writer.new.inner }) }
    ensures unread { IsUnreadOf (subcommand_rows_of matches.now) result }
{
    let line = line_in(matches);
    let Some(path) = line.other else {
        let result = answered(system, input, writer, asked, aside);
        return Ended::of(system.inputs, result, line.file);
    };
    if is_page_of_one(asked) {
        let refused = Err(ViewFault::BadOption(OptionFault::Second));
        return Ended::of(system.inputs, refused, line.file);
    }
    match system.inputs.open(path) {
        Ok(next) => {
            let mut first = NamedReader {
                name: line.file.unwrap_or("-"),
                reader: Device::new(input),
            };
            let mut second = NamedReader {
                name: path,
                reader: Device::new(next),
            };
            let notes = &mut aside.notes;
            let result = pages_io(system.alloc, &mut first, &mut second, writer, notes);
            let unread = if first.reader.has_failed() {
                line.file
            } else {
                Some(path)
            };
            Ended::of(system.inputs, result, unread)
        }
        Err(error) => Ended::not_opened(path, &error),
    }
}

/// Whether a page is asked for that says more of its file than the answer to it.
fn is_page_of_one(asked: &OfInput<'_>) -> bool
    ensures { result ≡ is_page_of_one asked.now }
{
    match asked {
        OfInput::Whole(Request::Page(paging)) => paging.keeps.is_some() || paging.search.is_some(),
        _ => false,
    }
}

/// Adds up the samples that the words name. What is said of one that can't be added up becomes the notes of `aside`.
fn sum_files<'a, H: Threads + Sync, I: Inputs, W: Write, P: Progress>(
    system: &System<'_, H, I>,
    writer: &mut Device<W>,
    matches: &ArgMatches<'a>,
    form: &SumForm,
    aside: &mut Aside<P>,
) -> Ended<'a>
    requires writer { writer.old.failed ≡ false }
    requires notes { aside.old.notes ≡ [] }
    ensures { IsSumDone form.now (files_among (subcommand_rows_of matches.now))
        (inputs_of (I.standard_bytes system.now.inputs.now) (I.file_bytes system.now.inputs.now) (files_among (subcommand_rows_of matches.now))) result aside.new.notes
        (record { before = W.contents writer.old.inner; after = W.contents writer.new.inner }) }
{
    let Some((_, inner)) = matches.subcommand() else {
        return sum_named(system, writer, &[], form, aside);
    };
    let Some(names) = inner.get_strs("FILE") else {
        return sum_named(system, writer, &[], form, aside);
    };
    sum_named(system, writer, names, form, aside)
}

/// Adds up the samples of these names.
fn sum_named<'a, H: Threads + Sync, I: Inputs, W: Write, P: Progress>(
    system: &System<'_, H, I>,
    writer: &mut Device<W>,
    names: &[&'a str],
    form: &SumForm,
    aside: &mut Aside<P>,
) -> Ended<'a>
    requires writer { writer.old.failed ≡ false }
    requires notes { aside.old.notes ≡ [] }
    ensures { IsSumDone form.now (map (λ name. name.now) names.now)
        (inputs_of (I.standard_bytes system.now.inputs.now) (I.file_bytes system.now.inputs.now) (map (λ name. name.now) names.now)) result aside.new.notes
        (record { before = W.contents writer.old.inner; after = W.contents writer.new.inner }) }
{
    let read = match read_named(system, names) {
        Ok(read) => read,
        Err(ended) => return ended,
    };
    let texts = match lent(system.alloc, read.as_slice()) {
        Ok(texts) => texts,
        Err(_) => return Ended::out_of_memory(),
    };
    let given = Given {
        names,
        texts: texts.as_slice(),
    };
    let result = sum_io(system.alloc, &given, form, writer, &mut aside.notes);
    Ended {
        result,
        unread: None,
    }
}

/// The samples of these names; or how the program ends, if one is not read.
fn read_named<'a, H, I: Inputs>(
    system: &System<'_, H, I>,
    names: &[&'a str],
) -> Result<Vec<Vec<u8>>, Ended<'a>>
    ensures read { IfOk result (λ read. IfAllKnown (inputs_of (I.standard_bytes system.now.inputs.now) (I.file_bytes system.now.inputs.now) (map (λ name. name.now) names.now))
        (λ texts. map (λ text. text.items) read.items ≡ texts)) }
    ensures fits { IfOk result (λ read. All (λ text. length text.items ≤ most_bytes) read.items) }
    ensures err { IfErr result (IsNotRead (map (λ name. name.now) names.now)) }
{
    let mut read = Vec::new(system.alloc);
    for name in names {
        let text = match read_one(system, *name) {
            Ok(text) => text,
            Err(ended) => return Err(ended),
        };
        if read.push(text).is_err() {
            return Err(Ended::out_of_memory());
        }
    }
    Ok(read)
}

/// The bytes of these texts.
fn lent<'a>(alloc: Global, texts: &'a [Vec<u8>]) -> Result<Vec<&'a [u8]>, AllocError>
    ensures { IfOk result (λ lent. map (λ text. text.now) lent.items ≡ map (λ text. text.items) texts.now) }
{
    let mut lent = Vec::new(alloc);
    for text in texts {
        lent.push(text.as_slice())?;
    }
    Ok(lent)
}

/// The sample of this name, which is standard input if it is `-`; or how the program ends, if it is not read.
fn read_one<'a, H, I: Inputs>(
    system: &System<'_, H, I>,
    name: &'a str,
) -> Result<Vec<u8>, Ended<'a>>
    ensures read { IfOk result (λ text. IfSome (input_of (I.standard_bytes system.now.inputs.now) (I.file_bytes system.now.inputs.now) name.now) (λ bytes. text.items ≡ bytes)) }
    ensures fits { IfOk result (λ text. length text.items ≤ most_bytes) }
    ensures err { IfErr result (IsNotRead (name.now ∷ [])) }
{
    if name == "-" {
        let read = read_input(system.alloc, &mut Device::new(system.inputs.standard()));
        return read.map_err(|fault| Ended::of(system.inputs, Err(fault.into()), None));
    }
    read_file(system, name)
}

/// The bytes of the file of this path; or how the program ends, if it is not read.
fn read_file<'a, H, I: Inputs>(
    system: &System<'_, H, I>,
    path: &'a str,
) -> Result<Vec<u8>, Ended<'a>>
    ensures read { IfOk result (λ file. IfSome (I.file_bytes system.now.inputs.now path.now) (λ bytes. file.items ≡ bytes)) }
    ensures fits { IfOk result (λ file. length file.items ≤ most_bytes) }
    ensures err { IfErr result (IsNotRead (path.now ∷ [])) }
{
    match system.inputs.open(path) {
        Ok(input) => {
            let read = read_input(system.alloc, &mut Device::new(input));
            read.map_err(|fault| Ended::of(system.inputs, Err(fault.into()), Some(path)))
        }
        Err(error) => Err(Ended::not_opened(path, &error)),
    }
}

/// Says in words the faults whose numbers come after the word `fault`.
fn say_faults<W: Write>(
    alloc: Global,
    matches: &ArgMatches<'_>,
    writer: &mut Device<W>,
) -> Result<Outcome, ViewFault>
    requires { writer.old.failed ≡ false }
    ensures { (output : List ℕ) × AreFaultsSaid (codes_among (subcommand_rows_of matches.now)) result output
        × Appends (W.contents writer.old.inner) (W.contents writer.new.inner) output }
{
    let Some((_, inner)) = matches.subcommand() else {
        return fault_io(alloc, writer, &[]);
    };
    let Some(codes) = inner.get_strs("CODE") else {
        return fault_io(alloc, writer, &[]);
    };
    fault_io(alloc, writer, codes)
}

/// The answer to what is asked of an input, which is written. What is said of the input's faults becomes the notes of `aside`.
fn answered<H: Threads + Sync, I, R: Read + Drop, W: Write, P: Progress>(
    system: &System<'_, H, I>,
    input: R,
    writer: &mut Device<W>,
    asked: &OfInput<'_>,
    aside: &mut Aside<P>,
) -> Result<Outcome, ViewFault>
    requires { writer.old.failed ≡ false }
    ensures { IfSome (R.remaining input) (λ bytes. IsAnswered asked.now bytes result aside.old.notes aside.new.notes
        (record { before = W.contents writer.old.inner; after = W.contents writer.new.inner })) }
{
    let mut reader = Device::new(input);
    match asked {
        OfInput::Live => live_io(system.alloc, &mut reader, writer),
        OfInput::Whole(request) => answer_io(system, &mut reader, writer, request, aside),
    }
}
