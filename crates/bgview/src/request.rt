//! What the words of the command line request.
ghost use Rattle.std.specs.Prelude.{◌≡◌, codes, option_map};
ghost use Rattle.clap.specs.Words.{subcommand_rows_of};
ghost use Rattle.bgview_command_line.specs.CommandLine.{is_given, keeps_among, mode_among, value_among};
ghost use Rattle.bgview_command_line.specs.declared.words.Mode.TheVariants.{Outcomes};
ghost use Rattle.bgview.specs.Requests.{IsExplainingAmong, IsGradingAmong, IsOpenPlanAmong, IsOpenPlanIf, IsPagingAmong, IsPlanAmong, IsRequestBy, IsRequestedBy, IsSamplingAmong, IsSearchAmong, IsStyleAmong, IsSumFormAmong};

use bgview_command_line::{
    Mode, is_given, line_in, number_among, number_if_any, text_among, text_if_any,
};
use clap::ArgMatches;
use room_sample::Plan;
use run_picture::Style;
use view_open::OpenPlan;
use view_outcomes::Form;
use view_sum::SumForm;

/// How a transcript is explained.
#[derive(Clone, Copy)]
pub struct Explaining<'a> {
    /// Whether it is as JSON.
    pub json: bool,
    /// A task of one's own, as text, if runs are judged by it.
    pub keeps: Option<&'a [u8]>,
}

/// What a script is graded by, and how what is said of it is written.
#[derive(Clone, Copy)]
pub struct Grading<'a> {
    /// Whether it is as JSON.
    pub json: bool,
    /// The goal, as text.
    pub goal: &'a str,
    /// How many commands `step` and `crash` the script may have.
    pub most: Option<u32>,
    /// A task of one's own, as text, if the histories of the script's rooms are judged by it.
    pub keeps: Option<&'a [u8]>,
}

/// How rooms are sampled.
#[derive(Clone, Copy)]
pub struct Sampling<'a> {
    pub plan: Plan,
    /// The values of which inputs are made, as text, if the rooms' tasks are judged with all of them.
    pub values: Option<&'a str>,
    /// A task of one's own, as text, if the rooms' histories are judged by it.
    pub keeps: Option<&'a [u8]>,
}

/// How rooms are searched, and what is asked of each, as far as the words say it.
#[derive(Clone, Copy)]
pub struct Searching<'a> {
    /// Whether all schedules of the rooms' simulators are searched, and not the runs of their protocols.
    pub rooms: bool,
    /// At most this number of processes stop, or simulators crash; if it is not said, all but one.
    pub crashes: Option<u32>,
    /// How many nodes of a room are searched at most.
    pub nodes: u32,
    /// Whether transcripts are left out, in JSON the events of runs.
    pub brief: bool,
    pub form: Form,
    /// How many outcomes of a room are shown at most, if not all are.
    pub top: Option<u32>,
    /// The number of the only outcome of each room that is shown, if one is asked for.
    pub outcome: Option<u32>,
    /// Whether only the rooms' tasks are judged.
    pub task: bool,
    /// The values of which inputs are made, as text, if the rooms' tasks are judged with all of them.
    pub values: Option<&'a str>,
    /// A task of one's own, as text, if runs are judged by it.
    pub keeps: Option<&'a [u8]>,
}

/// What a page shows of its file besides the answer to it.
#[derive(Clone, Copy)]
pub struct Paging<'a> {
    /// A task of one's own, as text, if the runs of a transcript are judged by it.
    pub keeps: Option<&'a [u8]>,
    /// How rooms are searched for the outcomes that are open after each command of a script, if these are shown.
    pub search: Option<OpenPlan>,
}

/// What is requested of an input that is read whole before it is answered.
#[derive(Clone, Copy)]
pub enum Request<'a> {
    /// Which rooms of a transcript are runs, and why the others are none.
    Why(Explaining<'a>),
    /// What each step of a script did; as JSON or as text.
    Trace { json: bool },
    /// A picture of a script's rooms.
    Draw(Style),
    /// A page that steps through a script or a transcript.
    Page(Paging<'a>),
    /// The rooms of a script as a transcript.
    Transcript,
    /// Whether a script reaches a goal.
    Grade(Grading<'a>),
    /// The outcomes of rooms by random schedules, or whether their histories keep a task.
    Sample(Sampling<'a>),
    /// The outcomes of all runs of rooms, or whether these keep a task; or the outcomes of all schedules of their simulators.
    Outcomes(Searching<'a>),
    /// The outcomes that are still open after each command of a script.
    Open(Searching<'a>),
    /// All faults of a file; as JSON or as text.
    Lint { json: bool },
}

/// What is requested of an input.
#[derive(Clone, Copy)]
pub enum OfInput<'a> {
    /// To be played as it is written.
    Live,
    /// To be answered once it is read.
    Whole(Request<'a>),
}

/// What is requested.
#[derive(Clone, Copy)]
pub enum Requested<'a> {
    /// Faults in words, by their numbers.
    Faults,
    /// The sum of samples, in this form.
    Sum(SumForm),
    /// Something of an input.
    Input(OfInput<'a>),
}

/// What the words request.
pub fn requested_in<'a>(matches: &ArgMatches<'a>) -> Requested<'a>
    ensures { IsRequestedBy (mode_among (subcommand_rows_of matches.now)) (subcommand_rows_of matches.now) result }
{
    let json = is_given(matches, "json");
    let request = match line_in(matches).command {
        Mode::Fault => return Requested::Faults,
        Mode::Sum => return Requested::Sum(sum_form_in(matches)),
        Mode::Live => return Requested::Input(OfInput::Live),
        Mode::Why => Request::Why(explaining_in(matches)),
        Mode::Trace => Request::Trace { json },
        Mode::Draw => Request::Draw(style_in(matches)),
        Mode::Page => Request::Page(paging_in(matches)),
        Mode::Transcript => Request::Transcript,
        Mode::Grade => Request::Grade(grading_in(matches)),
        Mode::Sample => Request::Sample(sampling_in(matches)),
        Mode::Outcomes => outcomes_in(matches),
        Mode::Lint => Request::Lint { json },
    };
    Requested::Input(OfInput::Whole(request))
}

/// The task of one's own that the words say, as text, if they say one.
fn task_if_any<'a>(matches: &ArgMatches<'a>) -> Option<&'a [u8]>
    ensures { option_map (λ text. text.now) result ≡ keeps_among (subcommand_rows_of matches.now) }
{
    match text_if_any(matches, "keeps") {
        Some(text) => Some(text.as_bytes()),
        None => None,
    }
}

/// How a sum is written, as the words say.
fn sum_form_in(matches: &ArgMatches<'_>) -> SumForm
    ensures { IsSumFormAmong (subcommand_rows_of matches.now) result }
{
    SumForm {
        top: number_if_any(matches, "top"),
        json: is_given(matches, "json"),
        brief: is_given(matches, "brief"),
    }
}

/// How a transcript is explained, as the words say.
fn explaining_in<'a>(matches: &ArgMatches<'a>) -> Explaining<'a>
    ensures { IsExplainingAmong (subcommand_rows_of matches.now) result }
{
    Explaining {
        json: is_given(matches, "json"),
        keeps: task_if_any(matches),
    }
}

/// What a page shows, as the words say.
fn paging_in<'a>(matches: &ArgMatches<'a>) -> Paging<'a>
    ensures { IsPagingAmong (subcommand_rows_of matches.now) result }
{
    Paging {
        keeps: task_if_any(matches),
        search: open_if_any(matches),
    }
}

/// How rooms are searched for the outcomes that are open, if the words ask for these.
fn open_if_any(matches: &ArgMatches<'_>) -> Option<OpenPlan>
    ensures { IsOpenPlanIf (is_given (value_among (codes "open") (subcommand_rows_of matches.now))) (subcommand_rows_of matches.now) result }
{
    if is_given(matches, "open") {
        Some(open_plan_in(matches))
    } else {
        None
    }
}

fn open_plan_in(matches: &ArgMatches<'_>) -> OpenPlan
    ensures { IsOpenPlanAmong (subcommand_rows_of matches.now) result }
{
    OpenPlan {
        crashes: number_if_any(matches, "crashes"),
        nodes: number_among(matches, "nodes", 1000000),
        json: is_given(matches, "json"),
    }
}

/// How rooms are drawn by what the words ask for.
fn style_in(matches: &ArgMatches<'_>) -> Style
    ensures { IsStyleAmong (subcommand_rows_of matches.now) result }
{
    Style {
        percent: number_among(matches, "scale", 100),
        by_turns: is_given(matches, "turns"),
    }
}

/// What a script is graded by, as the words say.
fn grading_in<'a>(matches: &ArgMatches<'a>) -> Grading<'a>
    ensures { IsGradingAmong (subcommand_rows_of matches.now) result }
{
    Grading {
        json: is_given(matches, "json"),
        goal: text_among(matches, "goal"),
        most: number_if_any(matches, "commands"),
        keeps: task_if_any(matches),
    }
}

/// How rooms are sampled, and with which inputs and by which task they are judged, as the words say.
fn sampling_in<'a>(matches: &ArgMatches<'a>) -> Sampling<'a>
    ensures { IsSamplingAmong (subcommand_rows_of matches.now) result }
{
    let values = text_if_any(matches, "inputs");
    Sampling {
        plan: plan_in(matches),
        values,
        keeps: task_if_any(matches),
    }
}

/// How rooms are sampled by what the words ask for.
fn plan_in(matches: &ArgMatches<'_>) -> Plan
    ensures { IsPlanAmong (subcommand_rows_of matches.now) result }
{
    Plan {
        schedules: number_among(matches, "schedules", 1000),
        crashes: number_among(matches, "crashes", 1),
        seed: number_among(matches, "seed", 1),
        from: number_among(matches, "from", 0),
        workers: number_among(matches, "workers", 1),
        group: is_given(matches, "group"),
        brief: is_given(matches, "brief"),
        top: number_if_any(matches, "top"),
        json: is_given(matches, "json"),
        outcome: number_if_any(matches, "outcome"),
    }
}

/// Whether the outcomes of rooms are requested, or those that are open in the rooms of a script.
fn outcomes_in<'a>(matches: &ArgMatches<'a>) -> Request<'a>
    ensures { IsRequestBy Outcomes (subcommand_rows_of matches.now) result }
{
    let searching = search_in(matches);
    if is_given(matches, "open") {
        Request::Open(searching)
    } else {
        Request::Outcomes(searching)
    }
}

/// How outcomes are searched by what the words ask for.
fn search_in<'a>(matches: &ArgMatches<'a>) -> Searching<'a>
    ensures { IsSearchAmong (subcommand_rows_of matches.now) result }
{
    Searching {
        rooms: is_given(matches, "rooms"),
        crashes: number_if_any(matches, "crashes"),
        nodes: number_among(matches, "nodes", 1000000),
        brief: is_given(matches, "brief"),
        form: Form::of(is_given(matches, "json")),
        top: number_if_any(matches, "top"),
        outcome: number_if_any(matches, "outcome"),
        task: is_given(matches, "task"),
        values: text_if_any(matches, "inputs"),
        keeps: task_if_any(matches),
    }
}
