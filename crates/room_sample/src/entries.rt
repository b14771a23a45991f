//! The entries of a tally, and how outcomes are added to them.
ghost use Rattle.std.specs.Prelude.{◌≡◌, ◌+◌, ◌<◌, ◌≤◌, IsOk, OnErr, OnOk};
ghost use Rattle.indexmap.specs.IndexMap.{index_map_len, spare};
ghost use Rattle.room_sample.specs.Parts.{added, added_all, more_at};
ghost use Rattle.room_sample.specs.Samples.{counted_of, outcomes_in};

use crate::tally::{Outcome, States};
use indexmap::IndexMap;
use std::alloc::AllocError;

/// Outcomes by the states of the processes, in the order in which each came first.
pub(crate) type Entries = IndexMap<States, Outcome>;

/// Adds the outcomes of later schedules. An `Err` leaves the entries as they were.
pub(crate) fn add_all(entries: &mut Entries, later: Entries) -> Result<(), AllocError>
    ensures all { OnOk result (outcomes_in entries.new.entries ≡ added_all (outcomes_in entries.old.entries) (outcomes_in later.entries)) }
    ensures err { OnErr result (entries.new.entries ≡ entries.old.entries) }
{
    entries.reserve(later.len())?;
    for (states, outcome) in later {
        add(entries, states, outcome)?; // there is room for each
    }
    Ok(())
}

/// Adds an outcome, as often as it came. If it has come before, it keeps the number of its first schedule. It succeeds if there is room.
pub(crate) fn add(entries: &mut Entries, states: States, outcome: Outcome) -> Result<(), AllocError>
    ensures added { OnOk result (outcomes_in entries.new.entries ≡ added (counted_of (states, outcome)) (outcomes_in entries.old.entries)) }
    ensures succeeds { 0 < spare entries.old → IsOk result }
    ensures spare { spare entries.old ≤ spare entries.new + 1 }
{
    let Some(index) = entries.get_index_of(&states) else {
        entries.insert(states, outcome)?;
        return Ok(());
    };
    come_again(entries, index, outcome.times);
    Ok(())
}

/// Counts an outcome this many times more.
pub(crate) fn come_again(entries: &mut Entries, index: usize, times: u32)
    requires { index < index_map_len entries.old }
    ensures more { outcomes_in entries.new.entries ≡ more_at (outcomes_in entries.old.entries) index times }
    ensures room { spare entries.new ≡ spare entries.old }
{
    let Some(known) = entries.get_index_mut(index) else {
        unreachable!() // there is an outcome of each index below their number
    };
    known.times = known.times.saturating_add(times);
}
