//! What the agreements of a room show.
ghost use Rattle.std.specs.Prelude.{◌≡◌, ℕ, ◌+◌, ◌<◌, ◌≤◌, ◌==◌, drop, length, slice_index};
ghost use Rattle.std.specs.List.{list_any, range_with_len};
ghost use Rattle.room_spec.specs.Rooms.{IsWithinLimits, processes};
ghost use Rattle.room_spec.specs.Sizes.{memory_words, sizes_in};
ghost use Rattle.view_table.specs.Places.{IsAgreementRound, IsRound, words_of};
ghost use Rattle.sim_memory.specs.Steps.{row_of, step_in};
ghost use Rattle.room_core.specs.Agreements.{asks, first_with, greatest_step, has_looked_blind, has_out, is_resolved, is_fixed, is_passed, row_at, shown, shown_by, shown_of, written};
ghost use Rattle.ws_history.specs.Readings.{read_of, view_start};

use crate::inputs::input_at;
use crate::points::has_looked_blind;
use crate::reading::{
    least_with, levels_word, process_count, round_count, row_of, shape_of, simulator_count, step,
    value,
};
use protocol_lang::{Action, View, next};
use room_core::RoomCore;
use view_table::{MAX_WORDS, Place, index};

#[tactic(auto, unfolding(crate::specs::Readings::read_of), using(view_table::proofs::CallerLemmas::agreement_round))]
pub(crate) fn is_resolved(room: &RoomCore, j: usize, k: usize) -> bool
    requires process { j < processes room.now.spec }
    requires round { IsRound (sizes_in room.now.spec) k }
    ensures { result ≡ is_resolved room.now.spec (read_of room.now) j k }
{
    safe_agreement::is_resolved(levels_word(room, j, k), simulator_count(room))
}

/// How far a process is: how many writes of it have been made, and whether a decision of it is stored.
#[derive(Clone, Copy)]
pub(crate) struct Progress {
    pub(crate) process: usize,
    pub(crate) greatest: usize,
    pub(crate) out: bool,
}

/// Whether a simulator has gone on from the agreement of this process and round, or may go on now.
pub(crate) fn is_passed(room: &RoomCore, progress: &Progress, k: usize) -> bool
    requires process { progress.now.process < processes room.now.spec }
    requires round { IsRound (sizes_in room.now.spec) k }
    requires greatest { progress.now.greatest ≡ greatest_step room.now.spec (read_of room.now) progress.now.process }
    requires out { progress.now.out ≡ has_out room.now.spec (read_of room.now) progress.now.process }
    ensures { result ≡ is_passed room.now.spec (read_of room.now) progress.now.process k }
{
    let Progress {
        process,
        greatest,
        out,
    } = *progress;
    k < greatest || (out && greatest == k) || is_resolved(room, process, k)
}

/// Whether this agreement is fixed: some simulator is at level 2 in it, and no other can come there any more.
#[tactic(auto, unfolding(crate::specs::Readings::read_of))]
pub(crate) fn is_fixed(room: &RoomCore, j: usize, k: usize) -> bool
    requires process { j < processes room.now.spec }
    requires round { IsAgreementRound (sizes_in room.now.spec) k }
    ensures { result ≡ is_fixed room.now.spec (read_of room.now) j k }
{
    safe_agreement::has_level(levels_word(room, j, k), simulator_count(room), 2)
        && !is_any_blind(room, j, k)
}

/// Whether some simulator is about to bring its proposal to level 2.
fn is_any_blind(room: &RoomCore, j: usize, k: usize) -> bool
    ensures { result ≡ list_any (λ i. has_looked_blind (read_of room.now) i j k) (range_with_len 0 room.now.spec.simulators) }
{
    for i in 0..simulator_count(room) {
        if has_looked_blind(room, i, j, k) {
            return true;
        }
    }
    false
}

/// The least simulator at level 2 in this agreement, or 0.
pub(crate) fn shown_of(room: &RoomCore, j: usize, k: usize) -> usize
    requires process { j < processes room.now.spec }
    requires round { IsAgreementRound (sizes_in room.now.spec) k }
    ensures value { result ≡ shown_of room.now.spec (read_of room.now) j k }
    ensures below { result < room.now.spec.simulators }
{
    let m = simulator_count(room);
    prove!(m > 0);
    match least_with(room, j, k, 2) {
        Some(simulator) => simulator,
        None => 0,
    }
}

/// Where among the room's words the view begins that this agreement shows.
#[tactic(auto, using(view_table::proofs::CallerLemmas::agreement_round))]
fn view_start(room: &RoomCore, j: usize, k: usize) -> usize
    requires process { j < processes room.now.spec }
    requires round { IsRound (sizes_in room.now.spec) k }
    ensures value { result ≡ view_start room.now j k }
    ensures fits { result + memory_words (sizes_in room.now.spec) ≤ words_of (sizes_in room.now.spec) }
    ensures few { result ≤ MAX_WORDS }
    ensures limits { IsWithinLimits room.now.spec }
{
    let _shape = shape_of(room); // for the proof: the room is within its limits
    let view = Place::View {
        simulator: shown_of(room, j, k),
        process: j,
        round: k,
        word: 0,
    };
    index(&room.spec().shape(), view)
}

/// The room's words from the first of the view on that this agreement shows.
#[tactic(auto, unfolding(crate::specs::Readings::read_of))]
pub(crate) fn view_at(room: &RoomCore, j: usize, k: usize) -> &[u64]
    requires process { j < processes room.now.spec }
    requires round { IsRound (sizes_in room.now.spec) k }
    ensures words { result.now ≡ drop (view_start room.now j k) room.now.words }
    ensures count { memory_words (sizes_in room.now.spec) ≤ length result.now }
    ensures row { row_of room.now.spec.simulators (processes room.now.spec) (step_in (sizes_in room.now.spec) result.now) ≡
        row_at room.now.spec (read_of room.now) j k }
{
    &room.words()[view_start(room, j, k)..]
}

/// The least simulator that has counted write `r` of process `p`, or 0.
fn first_with(room: &RoomCore, p: usize, r: usize) -> usize
    requires { p < processes room.now.spec }
    ensures value { result ≡ first_with room.now.spec (read_of room.now) p r }
    ensures below { result < room.now.spec.simulators }
{
    for i in 0..simulator_count(room) {
        if r <= step(room, i, p) {
            return i;
        }
    }
    0
}

/// The value of write `r` of process `p`.
pub(crate) fn written(room: &RoomCore, p: usize, r: usize) -> u32
    requires process { p < processes room.now.spec }
    requires round { IsRound (sizes_in room.now.spec) r }
    ensures { result ≡ written room.now.spec (read_of room.now) p r }
{
    value(room, first_with(room, p, r), p, r)
}

/// The last value of process `p` after `r` writes of it.
pub(crate) fn shown_at(room: &RoomCore, p: usize, r: u8) -> Option<u32>
    requires process { p < processes room.now.spec }
    requires round { r ≤ room.now.spec.rounds }
    ensures { result ≡ shown room.now.spec (read_of room.now) p r }
{
    if r == 0 {
        None
    } else {
        Some(written(room, p, usize::from(r)))
    }
}

/// What a row shows of each process.
pub(crate) fn shown_by(room: &RoomCore, row: &[u8]) -> View
    requires length { length row.now ≡ processes room.now.spec }
    requires range { (p : ℕ) → slice_index row.now p ≤ room.now.spec.rounds }
    ensures value { result.items ≡ shown_by room.now.spec (read_of room.now) row.now }
    ensures length { length result.items ≡ processes room.now.spec }
{
    let mut view = View::new();
    for p in 0..process_count(room) {
        view.push(shown_at(room, p, row[p]));
    }
    view
}

/// What the protocol asks for after the snapshot of process `j` in round `k`.
pub(crate) fn asks(room: &RoomCore, j: usize, k: usize) -> Action
    requires process { j < processes room.now.spec }
    requires round { IsRound (sizes_in room.now.spec) k }
    ensures { result ≡ asks room.now.spec (read_of room.now) j k }
{
    let spec = room.spec();
    let row = row_of(spec, view_at(room, j, k));
    let view = shown_by(room, row.as_slice());
    let rounds = round_count(room);
    prove!(k <= rounds);
    next(
        spec.protocol(),
        input_at(room, j),
        j as u32,
        k as u32,
        &view,
    )
}
