//! What the JSON of a line may say. The line is then written anew, and compared.
ghost use Rattle.std.specs.Prelude.{◌≡◌, ◌^◌, IfOk, Some, is_some, length, map, option_map, string_bytes, codes};
ghost use Rattle.serde_json.specs.Find.{get};
ghost use Rattle.serde_json.specs.View.{items_of, view};
ghost use Rattle.view_sum.specs.Fields.{below, each_in, flag_at, is_null_at, items_at, number_at, outcome_at, outcome_by, room_at, room_of, schedule_at, state_at, state_of_word, states_among, states_at, stretch_at, text_at};
ghost use Rattle.view_sum.specs.Reading.{outcome_said, room_said};

use room_sample::{Example, States, Stretch};
use room_spec::MAX_PROCESSES;
use serde_json::Value;
use std::alloc::{AllocError, Global};
use ws_history::ProcessState;

/// What a line may say of an outcome.
#[derive(Drop)]
pub(crate) struct OutcomeRead {
    /// The room.
    pub(crate) name: String,
    /// Whether the schedule is left out.
    pub(crate) brief: bool,
    pub(crate) one: Example,
}

/// What a line may say of a room that doesn't follow from its outcomes, and how many these are.
#[derive(Drop)]
pub(crate) struct RoomRead {
    pub(crate) name: String,
    pub(crate) crashes: u32,
    pub(crate) seed: u32,
    pub(crate) from: u32,
    pub(crate) grouped: bool,
    pub(crate) decided: u32,
    pub(crate) held: u32,
    pub(crate) broken: Option<u32>,
    /// How many outcomes it has.
    pub(crate) count: u32,
}

/// Whether the JSON may be that of an outcome, and not of a room.
pub(crate) fn may_be_outcome(value: &Value) -> bool
    ensures { result ≡ is_some (get (codes "times") (view value.now)) }
{
    value.get("times").is_some()
}

/// What the JSON may say of an outcome.
pub(crate) fn outcome_in(alloc: Global, value: &Value) -> Result<Option<OutcomeRead>, AllocError>
    ensures { IfOk result (λ read. option_map outcome_said read ≡ outcome_at (view value.now)) }
{
    let Some(schedule) = schedule_in(alloc, value)? else {
        return Ok(None);
    };
    let (Some(name), Some(states)) = (text_in(value, "room"), states_in(value)) else {
        return Ok(None);
    };
    let (Some(times), Some(first)) = (number_in(value, "times"), number_in(value, "first")) else {
        return Ok(None);
    };
    Ok(Some(OutcomeRead {
        name: String::from_str(alloc, name)?,
        brief: is_null(value, "schedule"),
        one: Example {
            states,
            times,
            first,
            schedule,
        },
    }))
}

/// What the JSON may say of a room.
pub(crate) fn room_in(alloc: Global, value: &Value) -> Result<Option<RoomRead>, AllocError>
    ensures { IfOk result (λ read. option_map room_said read ≡ room_at (view value.now)) }
{
    let Some(name) = text_in(value, "room") else {
        return Ok(None);
    };
    let name = String::from_str(alloc, name)?;
    Ok(numbers_in(name, value))
}

fn numbers_in(name: String, value: &Value) -> Option<RoomRead>
    ensures { option_map room_said result ≡ room_of (string_bytes name) (view value.now) }
{
    Some(RoomRead {
        name,
        crashes: number_in(value, "crashes")?,
        seed: number_in(value, "seed")?,
        from: number_in(value, "from")?,
        grouped: flag_in(value, "grouped")?,
        decided: number_in(value, "decided_at_most")?,
        held: number_in(value, "held_at_most")?,
        broken: number_in(value, "task_broken"),
        count: number_in(value, "outcomes")?,
    })
}

fn text_in<'a>(value: &'a Value, key: &str) -> Option<&'a str>
    ensures { option_map (λ text. text.now) result ≡ text_at key.now (view value.now) }
{
    value.get(key)?.as_str()
}

fn number_in(value: &Value, key: &str) -> Option<u32>
    ensures { result ≡ number_at key.now (view value.now) }
{
    small_number(value.get(key)?.as_u64()?)
}

fn small_number(number: u64) -> Option<u32>
    ensures { result ≡ below (2 ^ 32) (Some number) }
{
    u32::try_from(number).ok()
}

fn flag_in(value: &Value, key: &str) -> Option<bool>
    ensures { result ≡ flag_at key.now (view value.now) }
{
    value.get(key)?.as_bool()
}

fn is_null(value: &Value, key: &str) -> bool
    ensures { result ≡ is_null_at key.now (view value.now) }
{
    match value.get(key) {
        Some(one) => one.is_null(),
        None => false,
    }
}

fn items_in<'a>(value: &'a Value, key: &str) -> Option<&'a [Value]>
    ensures { option_map (λ items. items_of (map view items.now)) result ≡ items_at key.now (view value.now) }
{
    Some(value.get(key)?.as_array()?.as_slice())
}

/// The states of the processes.
fn states_in(value: &Value) -> Option<States>
    ensures { option_map (λ states. states.items) result ≡ states_at (view value.now) }
{
    states_of(items_in(value, "processes")?)
}

/// The states of 16 processes at most.
fn states_of(values: &[Value]) -> Option<States>
    ensures { option_map (λ states. states.items) result ≡ states_among (items_of (map view values.now)) }
{
    if values.len() > MAX_PROCESSES {
        return None;
    }
    let mut states = States::new();
    for one in values {
        states.push(state_in(one)?);
    }
    Some(states)
}

fn state_in(value: &Value) -> Option<ProcessState>
    ensures { result ≡ state_at (view value.now) }
{
    state_of_word(text_in(value, "state")?, value)
}

/// The state of a process that this word says.
fn state_of_word(word: &str, value: &Value) -> Option<ProcessState>
    ensures { result ≡ state_of_word word.now (view value.now) }
{
    if word == "decided" {
        Some(ProcessState::Decided(number_in(value, "value")?))
    } else if word == "held" {
        Some(ProcessState::Held(small_in(value, "by")?))
    } else if word == "spent" {
        Some(ProcessState::Spent)
    } else if word == "going" {
        Some(ProcessState::Going)
    } else {
        None
    }
}

fn small_in(value: &Value, key: &str) -> Option<u8>
    ensures { result ≡ below (2 ^ 8) (number_at key.now (view value.now)) }
{
    u8::try_from(number_in(value, key)?).ok()
}

fn count_in(value: &Value, key: &str) -> Option<u16>
    ensures { result ≡ below (2 ^ 16) (number_at key.now (view value.now)) }
{
    u16::try_from(number_in(value, key)?).ok()
}

/// The schedule, which is empty if it is left out.
fn schedule_in(alloc: Global, value: &Value) -> Result<Option<Vec<Stretch>>, AllocError>
    ensures { IfOk result (λ read. option_map (λ schedule. schedule.items) read ≡ schedule_at (view value.now)) }
{
    match items_in(value, "schedule") {
        Some(values) => stretches_of(alloc, values),
        None => Ok(Some(Vec::new(alloc))),
    }
}

fn stretches_of(alloc: Global, values: &[Value]) -> Result<Option<Vec<Stretch>>, AllocError>
    ensures { IfOk result (λ read. option_map (λ schedule. schedule.items) read ≡ each_in stretch_at (items_of (map view values.now))) }
{
    let mut schedule = Vec::new(alloc);
    for one in values {
        let Some(stretch) = stretch_in(one) else {
            return Ok(None);
        };
        schedule.push(stretch)?;
    }
    Ok(Some(schedule))
}

fn stretch_in(value: &Value) -> Option<Stretch>
    ensures { result ≡ stretch_at (view value.now) }
{
    let simulator = small_in(value, "simulator")?;
    if value.get("crash").is_some() {
        return Some(Stretch::Crash { simulator });
    }
    let count = count_in(value, "steps")?;
    Some(Stretch::Steps { simulator, count })
}
