//! A script, judged and done from its first line to its last.
ghost use Rattle.std.specs.Prelude.{◌≡◌, ◌≤◌, ◌+◌, ℕ, IsOk, IfOk, IfErr, length};
ghost use Rattle.room_files.specs.Blocks.{IsFaultOr};
ghost use Rattle.room_files.specs.declared.fault.InputFault.TheVariants.{BadInput};
ghost use Rattle.room_files.specs.declared.fault.TextFault.TheVariants.{NoCommand};
ghost use Rattle.script_play.specs.Script.{is_asking, script_from, script_says};
ghost use Rattle.io_text.specs.Reading.{most_bytes};
ghost use Rattle.script_play.specs.Following.{IsPlay};

use crate::entries::{Entry, next_entry, read_command};
use crate::following::Follows;
use crate::player::Player;
use room_files::{InputFault, Kinds, Outcome, TextFault};
use service_core::Service;
use std::alloc::{AllocError, Global};

/// What has become of a script: the rooms that are open, the one that followed it, and how it ended.
#[derive(Drop)]
pub struct Played<F: Follows> {
    pub service: Service,
    pub follower: F,
    /// Whether something was refused. An `Err` says that an allocation failed for something.
    pub ending: Result<Outcome, AllocError>,
}

/// Judges a script, whose blocks may be of these kinds, and does what it asks for if it has no fault. This one follows it.
///
/// # Errors
///
/// The script's first malformed line; or an allocation that failed for what is kept of it.
pub fn play_script<F: Follows>(
    alloc: Global,
    kinds: Kinds,
    follower: F,
    script: &[u8],
) -> Result<Played<F>, InputFault>
    requires { length script.now ≤ most_bytes }
    ensures played { IfOk result (λ played. IsPlay F.follows kinds script.now follower played.service played.follower played.ending) }
    // An allocation that fails hides no malformed line.
    ensures err { IfErr result (IsFaultOr (IsOk (script_says script.now)) (script_says script.now)) }
{
    let mut player = Player::new(alloc, follower);
    let mut rest = script;
    let mut number = 1;
    while let Some((entry, later)) = next_entry(rest) {
        let Ok(good) = player.take(alloc, kinds, number, &entry) else {
            return Err(judge_unplayed(rest, number));
        };
        if !good {
            return Err(bad_command(number));
        }
        number += entry.lines();
        rest = later;
    }
    Ok(Played {
        service: player.service,
        follower: player.follower,
        ending: player.ending,
    })
}

/// How a script ends for whose last lines, of which the first has this number, there was no memory: with
/// the first malformed one among these, or else with the allocation that failed.
fn judge_unplayed(text: &[u8], first: u64) -> InputFault
    requires { first + length text.now ≤ most_bytes + 1 }
    ensures { (most : ℕ) → length text.now ≤ most → IsFaultOr (IsOk (script_from most first text.now)) (script_from most first text.now) result }
{
    let mut rest = text;
    let mut number = first;
    while let Some((entry, later)) = next_entry(rest) {
        if !is_good(&entry) {
            return bad_command(number);
        }
        number += entry.lines();
        rest = later;
    }
    InputFault::Memory
}

/// Whether it asks for something.
fn is_good(entry: &Entry<'_>) -> bool
    ensures { result ≡ is_asking entry.now }
{
    match entry {
        Entry::Block(_) => true,
        Entry::Line(line) => read_command(line).is_some(),
    }
}

/// The fault of a script whose line of this number asks for nothing.
fn bad_command(line: u64) -> InputFault
    ensures { result ≡ BadInput line NoCommand }
{
    InputFault::BadInput {
        line,
        fault: TextFault::NoCommand,
    }
}
