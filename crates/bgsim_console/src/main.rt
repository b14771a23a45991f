//! Simulates rooms of protocols on write-snapshot memory, and judges their transcripts.
#![tactic(auto)]

ghost use Rattle.std.specs.Prelude.{◌≡◌, ◌≤◌, IfSome, false, map, option_map};
ghost use Rattle.program_io.specs.Named.{input_named};
ghost use Rattle.bgsim_console.specs.Endings.{IsAnswered, IsReadOrNot, IsStatusFor};
ghost use Rattle.bgsim_console.specs.Ends.{ending_status};

mod engine;
mod fault;
mod run;
mod said;

use bgsim_command_line::{Line, Mode, line};
use fault::IoFault;
use io_text::Device;
use program_io::{Inputs, unread_status, words, words_status};
use room_files::Outcome;
use said::say_end;
use scheduler::FreeGate;
use std::alloc::Global;
use std::convert::AsStr;
use std::io::{Read, Write};
use std::process::ExitCode;
use std::sync::Wait;
use std::thread::Threads;

fn main(rt: HostRuntime) -> ExitCode {
    let mut errors = Device::new(rt.stderr());
    let status = match words(&rt) {
        Ok(words) => status(
            &rt,
            &rt,
            &rt,
            &mut Device::new(rt.stdout()),
            &mut errors,
            words.as_slice(),
        ),
        Err(error) => unread_status(&mut errors, "bgsim", &error),
    };
    ExitCode::from(status)
}

/// The exit status for these words, after what they ask for is done, and a fault is said on standard error. `threads` is the runtime too, as
/// it starts threads.
fn status<H: Threads + Wait + Sync, I: Inputs, W: Write, E: Write, S: AsStr>(
    rt: &HostRuntime,
    threads: &H,
    inputs: &I,
    writer: &mut Device<W>,
    errors: &mut Device<E>,
    words: &[S],
) -> u8
    requires writer { writer.old.failed ≡ false }
    requires errors { errors.old.failed ≡ false }
    ensures value { IsStatusFor (I.standard_bytes inputs.now) (I.file_bytes inputs.now) (map S.text words.entry.now)
        (record { before = W.contents writer.old.inner; after = W.contents writer.new.inner })
        (record { before = E.contents errors.old.inner; after = E.contents errors.new.inner; failed = errors.new.failed }) result }
    ensures small { result ≤ 3 }
{
    match line(rt.alloc(), words) {
        Ok(line) => {
            let ending = ending(threads, rt.alloc(), inputs, writer, &line);
            say_end(errors, ending);
            status_of(ending)
        }
        Err(error) => words_status(rt, errors, "bgsim", &error),
    }
}

/// How the engine ends that the words ask for, on the file or on standard input.
fn ending<H: Threads + Wait + Sync, I: Inputs, W: Write>(
    threads: &H,
    alloc: Global,
    inputs: &I,
    writer: &mut Device<W>,
    line: &Line<'_>,
) -> Result<Outcome, IoFault>
    requires { writer.old.failed ≡ false }
    ensures { IsReadOrNot line.now.command line.now.workers (option_map (λ file. file.now) line.now.file)
        (input_named (I.standard_bytes inputs.now) (I.file_bytes inputs.now) (option_map (λ file. file.now) line.now.file)) result
        (record { before = W.contents writer.old.inner; after = W.contents writer.new.inner }) }
{
    match line.file {
        None => answer(threads, alloc, inputs.standard(), writer, line),
        Some(path) => match inputs.open(path) {
            Ok(input) => answer(threads, alloc, input, writer, line),
            Err(_) => Err(IoFault::Read),
        },
    }
}

/// The answer that the line asks for to an input, which is written.
fn answer<H: Threads + Wait + Sync, R: Read + Drop, W: Write>(
    threads: &H,
    alloc: Global,
    input: R,
    writer: &mut Device<W>,
    line: &Line<'_>,
) -> Result<Outcome, IoFault>
    requires { writer.old.failed ≡ false }
    ensures { IfSome (R.remaining input) (λ bytes. IsAnswered line.now.command line.now.workers bytes result
        (record { before = W.contents writer.old.inner; after = W.contents writer.new.inner })) }
{
    let mut reader = Device::new(input);
    match line.command {
        Mode::Check => engine::check_io(alloc, &mut reader, writer),
        Mode::Play => engine::play_io(alloc, &mut reader, writer),
        Mode::Run => engine::run_io(threads, alloc, &mut reader, writer, line.workers, &FreeGate),
    }
}

/// The program's exit status after an engine.
fn status_of(ending: Result<Outcome, IoFault>) -> u8
    ensures { result ≡ ending_status ending }
{
    match ending {
        Ok(outcome) => outcome.status(),
        Err(fault) => fault.status(),
    }
}
