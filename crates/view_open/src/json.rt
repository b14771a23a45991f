//! What is written after a command, as JSON: an object a line.
ghost use Rattle.std.specs.Prelude.{◌≡◌, ◌==◌, ◌++◌, IfOk, OnOk, map};
ghost use Rattle.serde_json.specs.View.{view};
ghost use Rattle.json_lines.specs.Lines.{json_line};
ghost use Rattle.room_spec.specs.Rooms.{RoomSpec};
ghost use Rattle.view_open.specs.Json.{closed_data, closed_item, closed_items, end_data, ends_data, found_data, open_data, outcomes_data, reply_data, unfinished_data, words_data};

use crate::searching::Found;
use crate::text::is_closed;
use io_text::Text;
use json_lines::{text_value, write_line};
use room_files::split_line;
use run_search::{Ended, Ends};
use serde_json::{Value, json};
use std::alloc::{AllocError, Global};

/// What is said of a command: its reply, the room's name, and how the room is searched.
#[derive(Clone, Copy)]
pub(crate) struct Said<'a> {
    pub(crate) alloc: Global,
    /// What `play` writes of it.
    pub(crate) words: &'a [u8],
    pub(crate) name: &'a str,
    pub(crate) crashes: u32,
    pub(crate) limit: u32,
}

/// Writes the first line that `play` writes of something that changes no room.
pub(crate) fn write_reply_object(
    alloc: Global,
    output: &mut Text,
    words: &[u8],
) -> Result<(), AllocError>
    ensures { OnOk result (output.new ≡ output.old ++ json_line (reply_data words.now)) }
{
    let value = reply_value(alloc, words)?;
    write_line(alloc, output, &value)
}

fn reply_value(alloc: Global, words: &[u8]) -> Result<Value, AllocError>
    ensures { IfOk result (λ value. view value ≡ reply_data words.now) }
{
    let reply = words_value(alloc, words)?;
    json!(in alloc; {"reply": reply})
}

/// The first line of a text.
fn words_value(alloc: Global, words: &[u8]) -> Result<Value, AllocError>
    ensures { IfOk result (λ value. view value ≡ words_data words.now) }
{
    let (line, _) = split_line(words);
    text_value(alloc, line)
}

/// Writes which outcomes are open, of which these were known to be open before; or that there are more nodes than the limit.
pub(crate) fn write_open_object(
    said: &Said<'_>,
    output: &mut Text,
    known: &[Ends],
    found: &Option<Found>,
) -> Result<(), AllocError>
    ensures { OnOk result (output.new ≡ output.old ++ json_line (open_data said.now.words.now said.now.name.now said.now.crashes said.now.limit known.now found.now)) }
{
    let value = open_value(said, known, found)?;
    write_line(said.alloc, output, &value)
}

fn open_value(said: &Said<'_>, known: &[Ends], found: &Option<Found>) -> Result<Value, AllocError>
    ensures { IfOk result (λ value. view value ≡ open_data said.now.words.now said.now.name.now said.now.crashes said.now.limit known.now found.now) }
{
    match found {
        None => unfinished_value(said),
        Some(found) => found_value(said, known, found),
    }
}

fn unfinished_value(said: &Said<'_>) -> Result<Value, AllocError>
    ensures { IfOk result (λ value. view value ≡ unfinished_data said.now.words.now said.now.name.now said.now.crashes said.now.limit) }
{
    let alloc = said.alloc;
    let (name, crashes, limit) = (said.name, said.crashes, said.limit);
    let reply = words_value(alloc, said.words)?;
    json!(in alloc; {
        "closed": null,
        "complete": false,
        "crashes": crashes,
        "limit": limit,
        "missed": null,
        "nodes": null,
        "open": null,
        "reply": reply,
        "room": name
    })
}

fn found_value(said: &Said<'_>, known: &[Ends], found: &Found) -> Result<Value, AllocError>
    ensures { IfOk result (λ value. view value ≡ found_data said.now.words.now said.now.name.now said.now.crashes said.now.limit known.now found.now) }
{
    let alloc = said.alloc;
    let (name, crashes, limit) = (said.name, said.crashes, said.limit);
    let (nodes, missed) = (found.nodes, found.missed);
    let complete = missed == 0;
    let reply = words_value(alloc, said.words)?;
    let still = outcomes_value(alloc, found.ends.as_slice())?;
    let closed = closed_value(alloc, known, found)?;
    json!(in alloc; {
        "closed": closed,
        "complete": complete,
        "crashes": crashes,
        "limit": limit,
        "missed": missed,
        "nodes": nodes,
        "open": still,
        "reply": reply,
        "room": name
    })
}

/// These outcomes, in order.
fn outcomes_value(alloc: Global, outcomes: &[Ends]) -> Result<Value, AllocError>
    ensures { IfOk result (λ value. view value ≡ outcomes_data outcomes.now) }
{
    let mut values = Vec::new(alloc);
    for one in outcomes {
        values.push(ends_value(alloc, one.as_slice())?)?;
    }
    Ok(Value::Array(values))
}

/// Those of the known outcomes that are open no more; `null` if nodes were missed.
fn closed_value(alloc: Global, known: &[Ends], found: &Found) -> Result<Value, AllocError>
    ensures { IfOk result (λ value. view value ≡ closed_data found.now.missed known.now found.now.ends.items) }
{
    if found.missed != 0 {
        return Ok(Value::Null);
    }
    let mut values = Vec::new(alloc);
    for one in known {
        push_if_closed(alloc, &mut values, one, found.ends.as_slice())?;
    }
    Ok(Value::Array(values))
}

fn push_if_closed(
    alloc: Global,
    values: &mut Vec<Value>,
    one: &Ends,
    still: &[Ends],
) -> Result<(), AllocError>
    ensures { OnOk result (map view values.new.items ≡ map view values.old.items ++ closed_item still.now one.now) }
{
    if is_closed(one, still) {
        values.push(ends_value(alloc, one.as_slice())?)?;
    }
    Ok(())
}

/// How each process ends, in order.
fn ends_value(alloc: Global, ends: &[Ended]) -> Result<Value, AllocError>
    ensures { IfOk result (λ value. view value ≡ ends_data ends.now) }
{
    let mut values = Vec::new(alloc);
    for ended in ends {
        values.push(end_value(alloc, *ended)?)?;
    }
    Ok(Value::Array(values))
}

/// How a process ends: `{"state":"decided","value":V}`, `{"state":"spent"}` or `{"state":"stopped"}`.
fn end_value(alloc: Global, ended: Ended) -> Result<Value, AllocError>
    ensures { IfOk result (λ value. view value ≡ end_data ended) }
{
    match ended {
        Ended::Decided(v) => json!(in alloc; {"state": "decided", "value": v}),
        Ended::Spent => json!(in alloc; {"state": "spent"}),
        Ended::Stopped => json!(in alloc; {"state": "stopped"}),
    }
}
