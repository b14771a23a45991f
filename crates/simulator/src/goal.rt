//! What is left to do for a simulated process.
ghost use Rattle.std.specs.Prelude.{[], ◌≡◌, ◌+◌, ◌<◌, ◌≤◌, Option, length, map, replicate, slice_index, nat_lt, position, drop, take};
ghost use Rattle.std.specs.List.{filter, range_with_len};
ghost use Rattle.std.specs.Option.{option_map};
ghost use Rattle.room_spec.specs.Rooms.{processes};
ghost use Rattle.simulator.specs.Minds.{first_goal, first_goals, first_write, goal_at, has_input, is_unfinished, next_process, opening_goals, opening_inputs, or_else, round_of, unfinished_in};
ghost use Rattle.simulator.specs.declared.goal.Goal.TheVariants as variants;

use arrayvec::ArrayVec;
use protocol_lang::first;
use room_spec::{MAX_PROCESSES, Spec};

/// How far a simulator knows a process to be, and what it does for it next. Rounds are counted
/// from 1; in a reduction the agreement on the process's input, numbered 0, comes before them.
#[derive(Clone, Copy, PartialEq, Eq, Hash, Default)]
pub enum Goal {
    /// Store the process's write of this round, and agree on the snapshot after it.
    Write { round: u8, value: u32 },
    /// Ask what the snapshot of this round was agreed to be.
    Ask { round: u8 },
    /// Propose its own input for the process, and agree on the process's input.
    Propose { value: u32 },
    /// Ask which input of the process was agreed on.
    AskInput,
    /// The process has decided.
    #[default]
    Done,
    /// The process asked for one more write than it has rounds.
    Spent,
}

impl Goal {
    /// Whether something is left to do.
    pub(crate) fn is_unfinished(self) -> bool
        ensures { result ≡ is_unfinished self }
    {
        match self {
            Goal::Write { .. } | Goal::Ask { .. } | Goal::Propose { .. } | Goal::AskInput => true,
            Goal::Done | Goal::Spent => false,
        }
    }

    /// Whether the process has its input: no agreement on that is left.
    pub(crate) fn has_input(self) -> bool
        ensures { result ≡ has_input self }
    {
        !matches!(self, Goal::Propose { .. } | Goal::AskInput)
    }

    /// The round of the next write or of the snapshot that is asked for; 0 while there is no input yet, and if nothing is left.
    pub fn round(self) -> u8
        ensures { result ≡ round_of self }
    {
        match self {
            Goal::Write { round, .. } | Goal::Ask { round } => round,
            Goal::Propose { .. } | Goal::AskInput | Goal::Done | Goal::Spent => 0,
        }
    }
}

/// What is left to do for each process before the first step of simulator `i`.
pub(crate) fn opening_goals(spec: &Spec, i: usize) -> ArrayVec<Goal, MAX_PROCESSES>
    ensures { result.items ≡ opening_goals spec.now i }
{
    let mut goals = ArrayVec::new();
    if spec.is_reduction() {
        add_proposals(&mut goals, spec.n(), own_input(spec, i));
    } else {
        add_first_goals(&mut goals, spec);
    }
    goals
}

/// Every process has its first write to make.
#[inline(always)]
#[tactic(auto, using(crate::proofs::Processes::first_more))]
fn add_first_goals(goals: &mut ArrayVec<Goal, MAX_PROCESSES>, spec: &Spec)
    requires { goals.old.items ≡ [] }
    ensures { goals.new.items ≡ first_goals spec.now }
{
    for process in 0..spec.n() {
        goals.push(first_goal(spec, process));
    }
}

fn first_goal(spec: &Spec, process: usize) -> Goal
    requires { process < processes spec.now }
    ensures { result ≡ first_goal spec.now process }
{
    first_write(spec, spec.input(process), process)
}

/// The first write of a process with this input.
#[inline(always)]
pub(crate) fn first_write(spec: &Spec, input: u32, process: usize) -> Goal
    requires { process < processes spec.now }
    ensures { result ≡ first_write spec.now input process }
{
    let n = spec.n() as u32;
    Goal::Write {
        round: 1,
        value: first(spec.protocol(), input, process as u32, n),
    }
}

/// The input of simulator `i` of its own, in a reduction.
fn own_input(spec: &Spec, i: usize) -> u32
    ensures { result ≡ slice_index spec.now.own i }
{
    match spec.own(i) {
        Some(input) => input,
        None => 0,
    }
}

/// Adds the same proposal for each of these processes. Only a reduction calls this, so it is out of line.
#[cold]
#[inline(never)]
fn add_proposals(goals: &mut ArrayVec<Goal, MAX_PROCESSES>, processes: usize, value: u32)
    requires none { goals.old.items ≡ [] }
    requires few { processes ≤ MAX_PROCESSES }
    ensures { goals.new.items ≡ replicate processes (variants.Propose value) }
{
    for _ in 0..processes {
        goals.push(Goal::Propose { value });
    }
}

/// The inputs of the processes that a simulator knows before its first step.
pub(crate) fn opening_inputs(spec: &Spec) -> ArrayVec<u32, MAX_PROCESSES>
    ensures { result.items ≡ opening_inputs spec.now }
{
    let mut inputs = ArrayVec::new();
    if spec.is_reduction() {
        add_inputs(&mut inputs, spec);
    }
    inputs
}

/// Adds the inputs of the room.
#[cold]
#[inline(never)]
fn add_inputs(inputs: &mut ArrayVec<u32, MAX_PROCESSES>, spec: &Spec)
    requires { inputs.old.items ≡ [] }
    ensures { inputs.new.items ≡ spec.now.inputs }
{
    for process in 0..spec.n() {
        inputs.push(spec.input(process));
    }
}

/// What is left to do for a process; nothing, for one that the room hasn't.
#[inline(always)]
pub(crate) fn goal_in(goals: &[Goal], process: usize) -> Goal
    ensures { result ≡ goal_at goals.now process }
{
    match goals.get(process) {
        Some(goal) => *goal,
        None => Goal::Done,
    }
}

/// How many processes are neither done nor spent.
pub(crate) fn unfinished_in(goals: &[Goal]) -> usize
    ensures { result ≡ unfinished_in goals.now }
{
    goals.iter().filter(|goal| goal.is_unfinished()).count()
}

/// Whether more than `count` processes are neither done nor spent.
pub(crate) fn more_unfinished(goals: &[Goal], count: u8) -> bool
    ensures { result ≡ nat_lt count (unfinished_in goals.now) }
{
    let mut left = count;
    for goal in goals {
        if goal.is_unfinished() {
            if left == 0 {
                return true;
            }
            left -= 1;
        }
    }
    false
}

/// The first unfinished process at or after the sweep's place, going round.
pub(crate) fn next_process(goals: &[Goal], sweep: usize) -> Option<usize>
    requires { sweep ≤ length goals.now }
    ensures { result ≡ next_process goals.now sweep }
{
    match first_unfinished(&goals[sweep..]) {
        Some(at) => Some(sweep + at),
        None => first_unfinished(&goals[..sweep]),
    }
}

fn first_unfinished(goals: &[Goal]) -> Option<usize>
    ensures { result ≡ position is_unfinished goals.now }
{
    goals.iter().position(|goal| goal.is_unfinished())
}
