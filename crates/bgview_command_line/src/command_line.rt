//! The words of the command line, as `clap` takes them.
ghost use Rattle.std.specs.Prelude.{◌≡◌, IfOk, IsOkAnd, codes, false, map};
ghost use Rattle.clap.specs.Kinds.{FailsBy};
ghost use Rattle.clap.specs.declared.builder.command.Command.TheViews.{out-Command};
ghost use Rattle.clap.specs.Words.{app_of, fault_of, new_app, subcommand_of, subcommand_rows_of, with_rule, with_subcommand};
ghost use Rattle.clap.specs.Walk.{rule_of};
ghost use Rattle.bgview_command_line.specs.CommandLine.{bgview_app, brief_rule, choosing_app, commands_rule, crashes_rule, draw_app, drawing_app, fault_app, file_app, from_rule, goal_rule, grade_app, grading_app, group_rule, inputs_rule, json_rule, keeps_file_rule, keeps_rule, listing_app, outcome_rule, many_rule, outcomes_app, open_rule, page_app, paged_app, picking_app, plain_app, sample_app, sampling_app, scale_rule, schedules_rule, searching_app, rooms_rule, seed_rule, nodes_rule, stopped_rule, sum_app, task_rule, telling_app, top_rule, turns_rule, why_app, workers_rule};

use clap::{Arg, ArgAction, ArgMatches, Command, Error, value_parser};
use std::alloc::{AllocError, Global};
use std::convert::AsStr;

/// The subcommand of this word, which takes a file.
fn file_command<'a>(
    alloc: Global,
    word: &'a str,
    about: &'a str,
    usage: &'a str,
    file: &'a str,
) -> Result<Command<'a>, AllocError>
    ensures app { IfOk result (λ command. app_of command ≡ file_app word.entry.now) }
    ensures local { IfOk result (λ command. (out-Command command).has_globals ≡ false) }
{
    let file = Arg::new(alloc, "FILE").help(file);
    Command::new(alloc, word)
        .about(about)
        .override_usage(usage)
        .arg(file)
}

/// The subcommand of this word, which takes a file, and a flag that asks for JSON.
fn telling_command<'a>(
    alloc: Global,
    word: &'a str,
    about: &'a str,
    usage: &'a str,
    file: &'a str,
) -> Result<Command<'a>, AllocError>
    ensures app { IfOk result (λ command. app_of command ≡ telling_app word.entry.now) }
    ensures local { IfOk result (λ command. (out-Command command).has_globals ≡ false) }
{
    let command = file_command(alloc, word, about, usage, file)?;
    command.arg(json_option(alloc))
}

/// The subcommand `why`, which takes a file, a flag and two texts.
fn why_command<'a>(alloc: Global) -> Result<Command<'a>, AllocError>
    ensures app { IfOk result (λ command. app_of command ≡ why_app) }
    ensures local { IfOk result (λ command. (out-Command command).has_globals ≡ false) }
{
    let why = telling_command(
        alloc,
        "why",
        "Says of each room in a transcript whether its events are a run, and if not, why",
        "bgview why [--json] [--keeps TASK | --keeps-file TASKFILE] [FILE]",
        "The transcript; without it, standard input is read",
    )?;
    let with_task = why.arg(keeps_option(
        alloc,
        "Judges whether one of these lines holds for each process that has decided, after each decision of each run, as in 'mine == min; mine == max': conditions as of `bgview outcomes --keeps`",
    ))?;
    with_task.arg(keeps_file_option(alloc))
}

/// The subcommand `trace`.
fn trace_command<'a>(alloc: Global) -> Result<Command<'a>, AllocError>
    ensures app { IfOk result (λ command. app_of command ≡ telling_app (codes "trace")) }
    ensures local { IfOk result (λ command. (out-Command command).has_globals ≡ false) }
{
    telling_command(
        alloc,
        "trace",
        "Plays a script, and says under each reply what each atomic step did",
        "bgview trace [--json] [FILE]",
        "The script; without it, standard input is read",
    )
}

/// The subcommand `draw`, which takes a file, a number and a flag.
fn draw_command<'a>(alloc: Global) -> Result<Command<'a>, AllocError>
    ensures app { IfOk result (λ command. app_of command ≡ draw_app) }
    ensures local { IfOk result (λ command. (out-Command command).has_globals ≡ false) }
{
    let draw = file_command(
        alloc,
        "draw",
        "Plays a script, and draws each of its rooms, as SVG",
        "bgview draw [--scale PERCENT] [--turns] [FILE]",
        "The script; without it, standard input is read",
    )?;
    let with_scale = draw.arg(scale_option(alloc))?;
    with_scale.arg(turns_option(alloc))
}

/// The option `--scale PERCENT`.
fn scale_option<'a>(alloc: Global) -> Arg<'a>
    ensures rule { rule_of result ≡ scale_rule }
    ensures local { result.global ≡ false }
{
    Arg::new(alloc, "scale")
        .long("scale")
        .value_name("PERCENT")
        .value_parser(value_parser!(u32).range(10..=1000))
        .help(
            "How large the picture is, in percent, 10 to 1000; without it, 100, for a window of 1280 pixels",
        )
}

/// The option `--turns`.
fn turns_option<'a>(alloc: Global) -> Arg<'a>
    ensures rule { rule_of result ≡ turns_rule }
    ensures local { result.global ≡ false }
{
    Arg::new(alloc, "turns")
        .long("turns")
        .action(ArgAction::SetTrue)
        .help("Draws a box for each stretch of a turn, not for each step")
}

/// The subcommand `page`, which takes one file or two, texts, a flag and numbers.
fn page_command<'a>(alloc: Global) -> Result<Command<'a>, AllocError>
    ensures app { IfOk result (λ command. app_of command ≡ page_app) }
    ensures local { IfOk result (λ command. (out-Command command).has_globals ≡ false) }
{
    let page = paged_command(alloc)?;
    let with_open = page.arg(open_option(
        alloc,
        "Reads the file as a script, and shows which outcomes its rooms' simulators can still reach after each command; can't be given together with --keeps or a second file",
    ))?;
    let with_crashes = with_open.arg(stopped_option(
        alloc,
        "With --open, how many simulators crash at most, 0 to 16; without it, all but one",
    ))?;
    with_crashes.arg(nodes_option(alloc))
}

/// The option `--open`.
fn open_option<'a>(alloc: Global, help: &'a str) -> Arg<'a>
    ensures rule { rule_of result ≡ open_rule }
    ensures local { result.global ≡ false }
{
    Arg::new(alloc, "open")
        .long("open")
        .action(ArgAction::SetTrue)
        .help(help)
}

/// The subcommand `page` as far as it says of what a page is made.
fn paged_command<'a>(alloc: Global) -> Result<Command<'a>, AllocError>
    ensures app { IfOk result (λ command. app_of command ≡ paged_app) }
    ensures local { IfOk result (λ command. (out-Command command).has_globals ≡ false) }
{
    let page = file_command(
        alloc,
        "page",
        "Makes a page that steps through a script or a transcript in a browser, or through two next to each other, as HTML",
        "bgview page [--keeps TASK | --keeps-file TASKFILE] [--open] [--crashes F] [--nodes N] [FILE [OTHER]]",
        "The script or transcript; without it, standard input is read",
    )?;
    let other = Arg::new(alloc, "OTHER").help("A second one, which is shown next to the first");
    let with_other = page.arg(other)?;
    let with_task = with_other.arg(keeps_option(
        alloc,
        "Reads the file as a transcript, and shows in addition what `bgview why --keeps` says of it; can't be given together with a second file",
    ))?;
    with_task.arg(keeps_file_option(alloc))
}

/// The subcommand `transcript`.
fn transcript_command<'a>(alloc: Global) -> Result<Command<'a>, AllocError>
    ensures app { IfOk result (λ command. app_of command ≡ file_app (codes "transcript")) }
    ensures local { IfOk result (λ command. (out-Command command).has_globals ≡ false) }
{
    file_command(
        alloc,
        "transcript",
        "Plays a script, and writes its rooms as a transcript, with events in the order in which they took effect",
        "bgview transcript [FILE]",
        "The script; without it, standard input is read",
    )
}

/// The subcommand `sample`, which takes a file, numbers, flags and texts.
fn sample_command<'a>(alloc: Global) -> Result<Command<'a>, AllocError>
    ensures app { IfOk result (λ command. app_of command ≡ sample_app) }
    ensures local { IfOk result (λ command. (out-Command command).has_globals ≡ false) }
{
    let sample = sampling_command(alloc)?;
    let with_inputs = sample.arg(inputs_option(alloc))?;
    let with_task = with_inputs.arg(keeps_option(
        alloc,
        "Says by how many schedules one of these lines doesn't hold for each process that has decided, after each decision of the room's history, as in 'mine == min; mine == max': conditions as of `bgview outcomes --keeps`; lists no outcome",
    ))?;
    with_task.arg(keeps_file_option(alloc))
}

/// The subcommand `sample` with the options that say which schedules are drawn, which outcomes are shown, and how.
fn sampling_command<'a>(alloc: Global) -> Result<Command<'a>, AllocError>
    ensures app { IfOk result (λ command. app_of command ≡ sampling_app) }
    ensures local { IfOk result (λ command. (out-Command command).has_globals ≡ false) }
{
    let sample = choosing_command(alloc)?;
    let with_workers = sample.arg(workers_option(alloc))?;
    let with_json = with_workers.arg(json_option(alloc))?;
    with_json.arg(brief_option(alloc, "Leaves out the scripts"))
}

/// The subcommand `sample` with the options that say which schedules are drawn and which outcomes are shown.
fn choosing_command<'a>(alloc: Global) -> Result<Command<'a>, AllocError>
    ensures app { IfOk result (λ command. app_of command ≡ choosing_app) }
    ensures local { IfOk result (λ command. (out-Command command).has_globals ≡ false) }
{
    let sample = drawing_command(alloc)?;
    let with_group = sample.arg(group_option(alloc))?;
    let with_top = with_group.arg(top_option(
        alloc,
        "Shows only the K most frequent outcomes of each room, and makes only their scripts; without it, all",
    ))?;
    with_top.arg(outcome_option(
        alloc,
        "Writes nothing but the script of the K-th most frequent outcome of each room",
    ))
}

/// The subcommand `sample` with the options that say which schedules are drawn.
fn drawing_command<'a>(alloc: Global) -> Result<Command<'a>, AllocError>
    ensures app { IfOk result (λ command. app_of command ≡ drawing_app) }
    ensures local { IfOk result (λ command. (out-Command command).has_globals ≡ false) }
{
    let sample = file_command(
        alloc,
        "sample",
        "Runs each room of a file by random schedules, and counts the outcomes",
        "bgview sample [--schedules N] [--crashes F] [--seed S] [--from K] [--workers W] [--group] [--top K] [--outcome K] [--json] [--brief] [--inputs A,B,..] [--keeps TASK | --keeps-file TASKFILE] [FILE]",
        "The rooms; without it, standard input is read",
    )?;
    let with_schedules = sample.arg(schedules_option(alloc))?;
    let with_crashes = with_schedules.arg(crashes_option(alloc))?;
    let with_seed = with_crashes.arg(seed_option(alloc))?;
    with_seed.arg(from_option(alloc))
}

/// The option `--workers W`.
fn workers_option<'a>(alloc: Global) -> Arg<'a>
    ensures rule { rule_of result ≡ workers_rule }
    ensures local { result.global ≡ false }
{
    Arg::new(alloc, "workers")
        .long("workers")
        .value_name("W")
        .value_parser(value_parser!(u32).range(1..=16))
        .help("How many threads run schedules, 1 to 16; without it, 1. The outcomes are the same")
}

/// The option `--json`.
fn json_option<'a>(alloc: Global) -> Arg<'a>
    ensures rule { rule_of result ≡ json_rule }
    ensures local { result.global ≡ false }
{
    Arg::new(alloc, "json")
        .long("json")
        .action(ArgAction::SetTrue)
        .help("Writes an object of JSON a line")
}

/// The option `--schedules N`.
fn schedules_option<'a>(alloc: Global) -> Arg<'a>
    ensures rule { rule_of result ≡ schedules_rule }
    ensures local { result.global ≡ false }
{
    Arg::new(alloc, "schedules")
        .long("schedules")
        .value_name("N")
        .value_parser(value_parser!(u32).range(1..=1000000))
        .help("By how many schedules each room is run, 1 to 1000000; without it, 1000")
}

/// The option `--crashes F`.
fn crashes_option<'a>(alloc: Global) -> Arg<'a>
    ensures rule { rule_of result ≡ crashes_rule }
    ensures local { result.global ≡ false }
{
    Arg::new(alloc, "crashes")
        .long("crashes")
        .value_name("F")
        .value_parser(value_parser!(u8).range(0..=8))
        .help("How many simulators crash in a schedule at most, 0 to 8; without it, 1")
}

/// The option `--seed S`.
fn seed_option<'a>(alloc: Global) -> Arg<'a>
    ensures rule { rule_of result ≡ seed_rule }
    ensures local { result.global ≡ false }
{
    Arg::new(alloc, "seed")
        .long("seed")
        .value_name("S")
        .value_parser(value_parser!(u32).range(0..=4294967295))
        .help("What the schedules are drawn from, 0 to 4294967295; without it, 1")
}

/// The option `--from K`.
fn from_option<'a>(alloc: Global) -> Arg<'a>
    ensures rule { rule_of result ≡ from_rule }
    ensures local { result.global ≡ false }
{
    Arg::new(alloc, "from")
        .long("from")
        .value_name("K")
        .value_parser(value_parser!(u32).range(0..=4294967295))
        .help("The number of the first schedule, 0 to 4294967295; without it, 0")
}

/// The option `--group`.
fn group_option<'a>(alloc: Global) -> Arg<'a>
    ensures rule { rule_of result ≡ group_rule }
    ensures local { result.global ≡ false }
{
    Arg::new(alloc, "group")
        .long("group")
        .action(ArgAction::SetTrue)
        .help("Counts outcomes as one that differ only in which simulators hold processes")
}

/// The option `--top K`.
fn top_option<'a>(alloc: Global, help: &'a str) -> Arg<'a>
    ensures rule { rule_of result ≡ top_rule }
    ensures local { result.global ≡ false }
{
    Arg::new(alloc, "top")
        .long("top")
        .value_name("K")
        .value_parser(value_parser!(u32).range(1..=1000000))
        .help(help)
}

/// The option `--outcome K`.
fn outcome_option<'a>(alloc: Global, help: &'a str) -> Arg<'a>
    ensures rule { rule_of result ≡ outcome_rule }
    ensures local { result.global ≡ false }
{
    Arg::new(alloc, "outcome")
        .long("outcome")
        .value_name("K")
        .value_parser(value_parser!(u32).range(1..=1000000))
        .help(help)
}

/// The subcommand `outcomes`, which takes a file, numbers, flags and texts.
fn outcomes_command<'a>(alloc: Global) -> Result<Command<'a>, AllocError>
    ensures app { IfOk result (λ command. app_of command ≡ outcomes_app) }
    ensures local { IfOk result (λ command. (out-Command command).has_globals ≡ false) }
{
    let outcomes = listing_command(alloc)?;
    let with_flag = outcomes.arg(task_option(alloc))?;
    let with_inputs = with_flag.arg(inputs_option(alloc))?;
    let with_task = with_inputs.arg(keeps_option(
        alloc,
        "Judges whether one of these lines holds for each process that has decided, at each moment of each run, as in 'mine == min; mine == max': conditions of the protocol language over the decisions, with `given` for how many processes have `mine` as their input",
    ))?;
    with_task.arg(keeps_file_option(alloc))
}

/// The subcommand `outcomes` with the options that say which runs are searched, which outcomes are shown, and how.
fn listing_command<'a>(alloc: Global) -> Result<Command<'a>, AllocError>
    ensures app { IfOk result (λ command. app_of command ≡ listing_app) }
    ensures local { IfOk result (λ command. (out-Command command).has_globals ≡ false) }
{
    let outcomes = picking_command(alloc)?;
    let with_json = outcomes.arg(json_option(alloc))?;
    with_json.arg(brief_option(
        alloc,
        "Leaves out the transcripts, and in JSON the events of runs",
    ))
}

/// The subcommand `outcomes` with the options that say which runs are searched, and which outcomes are shown.
fn picking_command<'a>(alloc: Global) -> Result<Command<'a>, AllocError>
    ensures app { IfOk result (λ command. app_of command ≡ picking_app) }
    ensures local { IfOk result (λ command. (out-Command command).has_globals ≡ false) }
{
    let outcomes = searching_command(alloc)?;
    let with_top = outcomes.arg(top_option(
        alloc,
        "Shows only the first K outcomes of the list of each room; without it, all",
    ))?;
    with_top.arg(outcome_option(
        alloc,
        "Writes nothing but the transcript of the K-th outcome of the list of each room",
    ))
}

/// The subcommand `outcomes` with the options that say which runs are searched.
fn searching_command<'a>(alloc: Global) -> Result<Command<'a>, AllocError>
    ensures app { IfOk result (λ command. app_of command ≡ searching_app) }
    ensures local { IfOk result (λ command. (out-Command command).has_globals ≡ false) }
{
    let outcomes = file_command(
        alloc,
        "outcomes",
        "Searches all runs of each room's protocol, or all schedules of its simulators, and lists all outcomes",
        "bgview outcomes [--rooms] [--open] [--crashes F] [--nodes N] [--top K] [--outcome K] [--json] [--brief] [--task] [--inputs A,B,..] [--keeps TASK | --keeps-file TASKFILE] [FILE]",
        "The rooms, or with --open the script; without it, standard input is read",
    )?;
    let with_rooms = outcomes.arg(rooms_option(alloc))?;
    let with_open = with_rooms.arg(open_option(
        alloc,
        "Plays a script, and says after each command which outcomes the simulators of its room can still reach, and which they no longer can",
    ))?;
    let with_crashes = with_open.arg(stopped_option(
        alloc,
        "How many processes stop in a run at most, 0 to 16, or with --rooms or --open how many simulators crash; without it, all but one",
    ))?;
    with_crashes.arg(nodes_option(alloc))
}

/// The option `--rooms`.
fn rooms_option<'a>(alloc: Global) -> Arg<'a>
    ensures rule { rule_of result ≡ rooms_rule }
    ensures local { result.global ≡ false }
{
    Arg::new(alloc, "rooms")
        .long("rooms")
        .action(ArgAction::SetTrue)
        .help(
            "Searches all schedules of each room's simulators, and not the runs of its protocol: each outcome has a script for `bgsim play`",
        )
}

/// The option `--crashes F` of `outcomes` and `page`.
fn stopped_option<'a>(alloc: Global, help: &'a str) -> Arg<'a>
    ensures rule { rule_of result ≡ stopped_rule }
    ensures local { result.global ≡ false }
{
    Arg::new(alloc, "crashes")
        .long("crashes")
        .value_name("F")
        .value_parser(value_parser!(u8).range(0..=16))
        .help(help)
}

/// The option `--nodes N`.
fn nodes_option<'a>(alloc: Global) -> Arg<'a>
    ensures rule { rule_of result ≡ nodes_rule }
    ensures local { result.global ≡ false }
{
    Arg::new(alloc, "nodes")
        .long("nodes")
        .value_name("N")
        .value_parser(value_parser!(u32).range(1..=100000000))
        .help("How many nodes of a room are searched at most, 1 to 100000000; without it, 1000000")
}

/// The option `--brief`.
fn brief_option<'a>(alloc: Global, help: &'a str) -> Arg<'a>
    ensures rule { rule_of result ≡ brief_rule }
    ensures local { result.global ≡ false }
{
    Arg::new(alloc, "brief")
        .long("brief")
        .action(ArgAction::SetTrue)
        .help(help)
}

/// The option `--task`.
fn task_option<'a>(alloc: Global) -> Arg<'a>
    ensures rule { rule_of result ≡ task_rule }
    ensures local { result.global ≡ false }
{
    Arg::new(alloc, "task")
        .long("task")
        .action(ArgAction::SetTrue)
        .help(
            "Judges only the rooms' tasks: lists no outcome, and stops at the first run that breaks the task",
        )
}

/// The option `--inputs A,B,..`.
fn inputs_option<'a>(alloc: Global) -> Arg<'a>
    ensures rule { rule_of result ≡ inputs_rule }
    ensures local { result.global ≡ false }
{
    Arg::new(alloc, "inputs")
        .long("inputs")
        .value_name("VALUES")
        .help(
            "Judges the rooms' tasks with all inputs of these values, as in 0,1: 1 to 16 numbers of 0 to 4294967295, each once; at most 65536 vectors of inputs for a room",
        )
}

/// The option `--keeps TASK`.
fn keeps_option<'a>(alloc: Global, help: &'a str) -> Arg<'a>
    ensures rule { rule_of result ≡ keeps_rule }
    ensures local { result.global ≡ false }
{
    Arg::new(alloc, "keeps")
        .long("keeps")
        .value_name("TASK")
        .help(help)
}

/// The option `--keeps-file TASKFILE`.
fn keeps_file_option<'a>(alloc: Global) -> Arg<'a>
    ensures rule { rule_of result ≡ keeps_file_rule }
    ensures local { result.global ≡ false }
{
    Arg::new(alloc, "keeps-file")
        .long("keeps-file")
        .value_name("TASKFILE")
        .help("As --keeps, with the lines of this file; can't be given together with --keeps")
}

/// The subcommand `lint`.
fn lint_command<'a>(alloc: Global) -> Result<Command<'a>, AllocError>
    ensures app { IfOk result (λ command. app_of command ≡ telling_app (codes "lint")) }
    ensures local { IfOk result (λ command. (out-Command command).has_globals ≡ false) }
{
    telling_command(
        alloc,
        "lint",
        "Explains all faults of a file of rooms, a script or a transcript",
        "bgview lint [--json] [FILE]",
        "The file; without it, standard input is read",
    )
}

/// The subcommand `grade` as far as it says by which goal a script is graded: a file, a goal, a number and a flag.
fn grading_command<'a>(alloc: Global) -> Result<Command<'a>, AllocError>
    ensures app { IfOk result (λ command. app_of command ≡ grading_app) }
    ensures local { IfOk result (λ command. (out-Command command).has_globals ≡ false) }
{
    let grade = file_command(
        alloc,
        "grade",
        "Plays a script, and says whether its last report satisfies a goal",
        "bgview grade --goal GOAL [--commands N] [--json] [--keeps TASK | --keeps-file TASKFILE] [FILE]",
        "The script; without it, standard input is read",
    )?;
    let with_goal = grade.arg(goal_option(alloc))?;
    let with_commands = with_goal.arg(commands_option(alloc))?;
    with_commands.arg(json_option(alloc))
}

/// The subcommand `grade`, which takes two texts besides.
fn grade_command<'a>(alloc: Global) -> Result<Command<'a>, AllocError>
    ensures app { IfOk result (λ command. app_of command ≡ grade_app) }
    ensures local { IfOk result (λ command. (out-Command command).has_globals ≡ false) }
{
    let grading = grading_command(alloc)?;
    let with_task = grading.arg(keeps_option(
        alloc,
        "Judges whether one of these lines holds for each process that has decided, after each decision of a room's history, whenever a command was done, as in 'mine == min; mine == max': conditions as of `bgview outcomes --keeps`",
    ))?;
    with_task.arg(keeps_file_option(alloc))
}

/// The option `--goal GOAL`.
fn goal_option<'a>(alloc: Global) -> Arg<'a>
    ensures rule { rule_of result ≡ goal_rule }
    ensures local { result.global ≡ false }
{
    Arg::new(alloc, "goal")
        .long("goal")
        .value_name("GOAL")
        .required(true)
        .help("What the report is to show, for example 'held 0 and not decided 1 3'")
}

/// The option `--commands N`.
fn commands_option<'a>(alloc: Global) -> Arg<'a>
    ensures rule { rule_of result ≡ commands_rule }
    ensures local { result.global ≡ false }
{
    Arg::new(alloc, "commands")
        .long("commands")
        .value_name("N")
        .value_parser(value_parser!(u32).range(0..=1000000))
        .help(
            "How many commands `step` and `crash` the script may have, 0 to 1000000; without it, any number",
        )
}

/// The subcommand `live`.
fn live_command<'a>(alloc: Global) -> Result<Command<'a>, AllocError>
    ensures app { IfOk result (λ command. app_of command ≡ file_app (codes "live")) }
    ensures local { IfOk result (λ command. (out-Command command).has_globals ≡ false) }
{
    file_command(
        alloc,
        "live",
        "Plays a script as it is written, and answers each line before it reads the next",
        "bgview live [FILE]",
        "The script, for example a named pipe; without it, standard input is read",
    )
}

/// The subcommand `fault`.
fn fault_command<'a>(alloc: Global) -> Result<Command<'a>, AllocError>
    ensures app { IfOk result (λ command. app_of command ≡ fault_app) }
    ensures local { IfOk result (λ command. (out-Command command).has_globals ≡ false) }
{
    Command::new(alloc, "fault")
        .about("Says in words what the numbers mean by which reports name faults")
        .override_usage("bgview fault CODE..")
        .arg(many_values(alloc, "CODE", "The number of a fault"))
}

/// One value of this name at least.
fn many_values<'a>(alloc: Global, name: &'a str, help: &'a str) -> Arg<'a>
    ensures rule { rule_of result ≡ many_rule name.entry.now }
    ensures local { result.global ≡ false }
{
    Arg::new(alloc, name)
        .help(help)
        .required(true)
        .num_args(1..)
}

/// The subcommand `sum`, which takes files, a number and two flags.
fn sum_command<'a>(alloc: Global) -> Result<Command<'a>, AllocError>
    ensures app { IfOk result (λ command. app_of command ≡ sum_app) }
    ensures local { IfOk result (λ command. (out-Command command).has_globals ≡ false) }
{
    let sum = summing_command(alloc)?;
    let with_top = sum.arg(top_option(
        alloc,
        "Shows only the K most frequent outcomes of each room; without it, all",
    ))?;
    let with_json = with_top.arg(json_option(alloc))?;
    with_json.arg(brief_option(alloc, "Leaves out the schedules in JSON"))
}

/// The subcommand `sum` with its files alone.
fn summing_command<'a>(alloc: Global) -> Result<Command<'a>, AllocError>
    ensures app { IfOk result (λ command. app_of command ≡ with_rule (new_app (codes "sum")) (many_rule (codes "FILE"))) }
    ensures local { IfOk result (λ command. (out-Command command).has_globals ≡ false) }
{
    let files = many_values(
        alloc,
        "FILE",
        "What `bgview sample --json` wrote of one part of the schedules; - is standard input",
    );
    Command::new(alloc, "sum")
        .about(
            "Adds up samples of the same rooms by schedules that follow each other, as `bgview sample --json --from K` wrote them",
        )
        .override_usage("bgview sum [--top K] [--json] [--brief] FILE..")
        .arg(files)
}

/// The program's command without its subcommands.
fn plain_command<'a>(alloc: Global) -> Command<'a>
    ensures { app_of result ≡ plain_app }
{
    Command::new(alloc, "bgview")
        .version("0.2.0 (proved with rattle-kit-13f logic dac8208d650f15bf)")
        .about("Explains what bgsim answers")
        .after_help(
            "Exit status: 0 if all is well; 1 if something was refused, broken, not found or not reached; 2 for a usage error, a malformed input or an I/O error; 3 if memory ran out.",
        )
        .override_usage("bgview COMMAND\n       bgsim COMMAND, for check, play and run")
        .no_binary_name(true)
        .disable_help_subcommand(true)
        .subcommand_required(true)
}

/// The command with one more subcommand, if there is one.
fn with_subcommand<'a>(
    command: Command<'a>,
    subcommand: Result<Command<'a>, AllocError>,
) -> Result<Command<'a>, AllocError>
    ensures { IfOk result (λ whole. IsOkAnd subcommand.entry (λ part.
        (out-Command part).has_globals ≡ false → app_of whole ≡ with_subcommand (app_of command.entry) (app_of part).top)) }
{
    command.subcommand(subcommand?)
}

fn command<'a>(alloc: Global) -> Result<Command<'a>, AllocError>
    ensures { IfOk result (λ command. app_of command ≡ bgview_app) }
{
    let with_why = with_subcommand(plain_command(alloc), why_command(alloc))?;
    let with_trace = with_subcommand(with_why, trace_command(alloc))?;
    let with_draw = with_subcommand(with_trace, draw_command(alloc))?;
    let with_page = with_subcommand(with_draw, page_command(alloc))?;
    let with_transcript = with_subcommand(with_page, transcript_command(alloc))?;
    let with_fault = with_subcommand(with_transcript, fault_command(alloc))?;
    let with_sample = with_subcommand(with_fault, sample_command(alloc))?;
    let with_sum = with_subcommand(with_sample, sum_command(alloc))?;
    let with_outcomes = with_subcommand(with_sum, outcomes_command(alloc))?;
    let with_lint = with_subcommand(with_outcomes, lint_command(alloc))?;
    let with_grade = with_subcommand(with_lint, grade_command(alloc))?;
    with_subcommand(with_grade, live_command(alloc))
}

/// What `clap` finds in the words after the program's name.
///
/// # Errors
///
/// A usage error, a request for help or the version, and an allocation that failed, each of `clap`'s own kind.
pub fn read_words<'a, S: AsStr>(alloc: Global, words: &'a [S]) -> Result<ArgMatches<'a>, Error>
    ensures sound { IfOk result (λ matches. subcommand_rows_of matches ≡ subcommand_of bgview_app (map S.text words.entry.now)) }
    ensures kinds { FailsBy (fault_of bgview_app (map S.text words.entry.now)) result }
{
    command(alloc)?.try_get_matches_from(words)
}
