//! How the processes of a room end, by its words.
ghost use Rattle.std.specs.Prelude.{◌≡◌, ◌+◌, ◌<◌, ◌≤◌, ◌==◌, ℕ, length, min, slice_index};
ghost use Rattle.protocol_lang.specs.Numbers.{greatest};
ghost use Rattle.room_spec.specs.Rooms.{processes};
ghost use Rattle.room_spec.specs.Sizes.{memory_words, sizes_in};
ghost use Rattle.level_cells.specs.Fields.{level_of};
ghost use Rattle.view_table.specs.Places.{IsAgreementRound, IsPlace, IsRound, index_of, words_of};
ghost use Rattle.view_table.specs.Words.{word_at};
ghost use Rattle.view_table.specs.declared.place.Place.TheVariants.{Levels, View as ViewPlace};
ghost use Rattle.sim_memory.specs.Steps.{row_of, step_in};
ghost use Rattle.room_core.specs.Agreements.{asks, decided_in, first_with, input_at, row_at, shown, shown_by, shown_of, written};
ghost use Rattle.ws_history.specs.Reports.{is_spent};
ghost use Rattle.room_search.specs.Ends.{end_by, ends_by, fields_by};
ghost use Rattle.room_search.specs.Steps.{AreWords};

use crate::subject::Subject;
use arrayvec::ArrayVec;
use level_cells::field;
use protocol_lang::{Action, View, next};
use room_spec::MAX_PROCESSES;
use run_search::{Ended, Ends};
use safe_agreement::{is_resolved, least_at};
use sim_memory::{last_writes, step_of};
use view_table::{Place, index};

/// How many writes of each process something shows.
type Row = ArrayVec<u8, MAX_PROCESSES>;

/// The greatest decision plus one.
const MOST: u64 = 4294967296;

/// How the processes end: one that is held or still going counts as stopped.
pub fn ends_by(subject: &Subject<'_>, words: &[u64]) -> Ends
    requires { AreWords subject.now.spec.now words.now }
    ensures { result.items ≡ ends_by subject.now.spec.now words.now }
{
    let mut ends = Ends::new();
    for j in 0..subject.spec.n() {
        ends.push(end_by(subject, words, j));
    }
    ends
}

fn end_by(subject: &Subject<'_>, words: &[u64], j: usize) -> Ended
    requires process { j < processes subject.now.spec.now }
    requires words { AreWords subject.now.spec.now words.now }
    ensures { result ≡ end_by subject.now.spec.now words.now j }
{
    if let Some(value) = decided_in(subject, words, j) {
        return Ended::Decided(value);
    }
    if is_spent(subject, words, j) {
        return Ended::Spent;
    }
    Ended::Stopped
}

/// The word at this place.
fn word_at(subject: &Subject<'_>, words: &[u64], place: Place) -> u64
    requires place { IsPlace (sizes_in subject.now.spec.now) place }
    requires words { AreWords subject.now.spec.now words.now }
    ensures { result ≡ word_at (sizes_in subject.now.spec.now) words.now place }
{
    words[index(&subject.spec.shape(), place)]
}

/// The decision of process `j` that the least simulator has stored which has stored one.
fn decided_in(subject: &Subject<'_>, words: &[u64], j: usize) -> Option<u32>
    requires process { j < processes subject.now.spec.now }
    requires words { AreWords subject.now.spec.now words.now }
    ensures { result ≡ decided_in subject.now.spec.now (fields_by subject.now.spec.now words.now) j }
{
    for i in 0..subject.spec.m() {
        let out = out(subject, words, i, j);
        if out != 0 {
            return Some((out - 1) as u32);
        }
    }
    None
}

/// The decision of process `j` plus one, as simulator `i` has it, or 0.
fn out(subject: &Subject<'_>, words: &[u64], i: usize, j: usize) -> u64
    requires process { j < processes subject.now.spec.now }
    requires simulator { i < subject.now.spec.now.simulators }
    requires words { AreWords subject.now.spec.now words.now }
    ensures value { result ≡ (fields_by subject.now.spec.now words.now).out i j }
    ensures range { result ≤ 4294967296 }
{
    let place = Place::Out {
        simulator: i,
        process: j,
    };
    word_at(subject, words, place).min(MOST)
}

/// Whether the last snapshot of process `j` was agreed on and asks for a write.
#[tactic(auto, using(view_table::proofs::CallerLemmas::agreement_round))]
fn is_spent(subject: &Subject<'_>, words: &[u64], j: usize) -> bool
    requires process { j < processes subject.now.spec.now }
    requires words { AreWords subject.now.spec.now words.now }
    ensures { result ≡ is_spent subject.now.spec.now (fields_by subject.now.spec.now words.now) j }
{
    let last = subject.spec.rounds();
    is_resolved(levels_word(subject, words, j, last), subject.spec.m())
        && matches!(asks(subject, words, j, last), Action::Write(_))
}

/// The word of levels of the agreement on process `j` and round `k`.
fn levels_word(subject: &Subject<'_>, words: &[u64], j: usize, k: usize) -> u64
    requires process { j < processes subject.now.spec.now }
    requires round { IsAgreementRound (sizes_in subject.now.spec.now) k }
    requires words { AreWords subject.now.spec.now words.now }
    ensures { result ≡ word_at (sizes_in subject.now.spec.now) words.now (Levels j k) }
{
    let levels = Place::Levels {
        process: j,
        round: k,
    };
    word_at(subject, words, levels)
}

/// What the protocol asks for after the snapshot of process `j` in round `k`.
fn asks(subject: &Subject<'_>, words: &[u64], j: usize, k: usize) -> Action
    requires process { j < processes subject.now.spec.now }
    requires round { IsRound (sizes_in subject.now.spec.now) k }
    requires words { AreWords subject.now.spec.now words.now }
    ensures { result ≡ asks subject.now.spec.now (fields_by subject.now.spec.now words.now) j k }
{
    let spec = subject.spec;
    let row = row_at(subject, words, j, k);
    let view = shown_by(subject, words, row.as_slice());
    let rounds = spec.rounds();
    prove!(k <= rounds);
    let input = input_by(subject, words, j);
    next(spec.protocol(), input, j as u32, k as u32, &view)
}

/// The input of process `j`: in a reduction that which the agreement on it shows.
#[tactic(auto, using(view_table::proofs::CallerLemmas::zero_agreed))]
fn input_by(subject: &Subject<'_>, words: &[u64], j: usize) -> u32
    requires process { j < processes subject.now.spec.now }
    requires words { AreWords subject.now.spec.now words.now }
    ensures { result ≡ input_at subject.now.spec.now (fields_by subject.now.spec.now words.now) j }
{
    if !subject.spec.is_reduction() {
        return subject.spec.input(j);
    }
    let proposal = Place::Value {
        simulator: shown_of(subject, words, j, 0),
        process: j,
        round: 0,
    };
    small(word_at(subject, words, proposal))
}

/// How many writes of each process the view shows on which this agreement agreed.
fn row_at(subject: &Subject<'_>, words: &[u64], j: usize, k: usize) -> Row
    requires process { j < processes subject.now.spec.now }
    requires round { IsRound (sizes_in subject.now.spec.now) k }
    requires words { AreWords subject.now.spec.now words.now }
    ensures value { result.items ≡ row_at subject.now.spec.now (fields_by subject.now.spec.now words.now) j k }
    ensures count { length result.items ≡ processes subject.now.spec.now }
    ensures range { (p : ℕ) → slice_index result.items p ≤ subject.now.spec.now.rounds }
{
    let _shape = subject.spec.shape(); // for the proof: the room is within its limits
    row_of(subject, &words[view_start(subject, words, j, k)..])
}

/// Where among the words the view begins.
#[tactic(auto, using(view_table::proofs::CallerLemmas::agreement_round))]
fn view_start(subject: &Subject<'_>, words: &[u64], j: usize, k: usize) -> usize
    requires process { j < processes subject.now.spec.now }
    requires round { IsRound (sizes_in subject.now.spec.now) k }
    requires words { AreWords subject.now.spec.now words.now }
    ensures value { result ≡ index_of (sizes_in subject.now.spec.now) (ViewPlace (shown_of subject.now.spec.now (fields_by subject.now.spec.now words.now) j k) j k 0) }
    ensures fits { result + memory_words (sizes_in subject.now.spec.now) ≤ words_of (sizes_in subject.now.spec.now) }
{
    let view = Place::View {
        simulator: shown_of(subject, words, j, k),
        process: j,
        round: k,
        word: 0,
    };
    index(&subject.spec.shape(), view)
}

/// The least simulator at level 2 in this agreement, or 0.
fn shown_of(subject: &Subject<'_>, words: &[u64], j: usize, k: usize) -> usize
    requires process { j < processes subject.now.spec.now }
    requires round { IsAgreementRound (sizes_in subject.now.spec.now) k }
    requires words { AreWords subject.now.spec.now words.now }
    ensures value { result ≡ shown_of subject.now.spec.now (fields_by subject.now.spec.now words.now) j k }
    ensures below { result < subject.now.spec.now.simulators }
{
    let m = subject.spec.m();
    prove!(m > 0);
    match least_at(levels_word(subject, words, j, k), m, 2) {
        Some(simulator) => simulator,
        None => 0,
    }
}

/// How many writes of each process memory words show.
fn row_of(subject: &Subject<'_>, words: &[u64]) -> Row
    requires { memory_words (sizes_in subject.now.spec.now) ≤ length words.now }
    ensures value { result.items ≡ row_of subject.now.spec.now.simulators (processes subject.now.spec.now) (step_in (sizes_in subject.now.spec.now) words.now) }
    ensures count { length result.items ≡ processes subject.now.spec.now }
    ensures range { (p : ℕ) → slice_index result.items p ≤ subject.now.spec.now.rounds }
{
    let last = last_writes(&subject.spec.shape(), words);
    let mut row = Row::from(last.rounds);
    row.truncate(subject.spec.n());
    row
}

/// What a row shows of each process.
fn shown_by(subject: &Subject<'_>, words: &[u64], row: &[u8]) -> View
    requires words { AreWords subject.now.spec.now words.now }
    requires length { length row.now ≡ processes subject.now.spec.now }
    requires range { (p : ℕ) → slice_index row.now p ≤ subject.now.spec.now.rounds }
    ensures value { result.items ≡ shown_by subject.now.spec.now (fields_by subject.now.spec.now words.now) row.now }
    ensures length { length result.items ≡ processes subject.now.spec.now }
{
    let mut view = View::new();
    for p in 0..subject.spec.n() {
        view.push(shown_at(subject, words, p, row[p]));
    }
    view
}

/// The last value of process `p` after `r` writes of it.
fn shown_at(subject: &Subject<'_>, words: &[u64], p: usize, r: u8) -> Option<u32>
    requires process { p < processes subject.now.spec.now }
    requires round { r ≤ subject.now.spec.now.rounds }
    requires words { AreWords subject.now.spec.now words.now }
    ensures { result ≡ shown subject.now.spec.now (fields_by subject.now.spec.now words.now) p r }
{
    if r == 0 {
        None
    } else {
        Some(written(subject, words, p, usize::from(r)))
    }
}

/// The value of write `r` of process `p`.
#[tactic(auto, using(view_table::proofs::CallerLemmas::agreement_round))]
fn written(subject: &Subject<'_>, words: &[u64], p: usize, r: usize) -> u32
    requires process { p < processes subject.now.spec.now }
    requires round { IsRound (sizes_in subject.now.spec.now) r }
    requires words { AreWords subject.now.spec.now words.now }
    ensures { result ≡ written subject.now.spec.now (fields_by subject.now.spec.now words.now) p r }
{
    let value = Place::Value {
        simulator: first_with(subject, words, p, r),
        process: p,
        round: r,
    };
    small(word_at(subject, words, value))
}

/// The number, or the greatest value if it is above that.
fn small(word: u64) -> u32
    ensures { result ≡ min word greatest }
{
    word.min(u64::from(u32::MAX)) as u32
}

/// The least simulator that has counted write `r` of process `p`, or 0.
fn first_with(subject: &Subject<'_>, words: &[u64], p: usize, r: usize) -> usize
    requires process { p < processes subject.now.spec.now }
    requires words { AreWords subject.now.spec.now words.now }
    ensures value { result ≡ first_with subject.now.spec.now (fields_by subject.now.spec.now words.now) p r }
    ensures below { result < subject.now.spec.now.simulators }
{
    for i in 0..subject.spec.m() {
        if r <= step(subject, words, i, p) {
            return i;
        }
    }
    0
}

/// How many writes of process `p` simulator `i` has counted.
pub fn step(subject: &Subject<'_>, words: &[u64], i: usize, p: usize) -> usize
    requires simulator { i < subject.now.spec.now.simulators }
    requires process { p < processes subject.now.spec.now }
    requires words { AreWords subject.now.spec.now words.now }
    ensures { result ≡ (fields_by subject.now.spec.now words.now).step i p }
{
    step_of(&subject.spec.shape(), words, i, p)
}

/// Whether this simulator is at level 2 of the agreement on that process and round.
pub fn is_at_two(
    subject: &Subject<'_>,
    words: &[u64],
    simulator: usize,
    process: usize,
    round: usize,
) -> bool
    requires simulator { simulator < subject.now.spec.now.simulators }
    requires process { process < processes subject.now.spec.now }
    requires round { IsAgreementRound (sizes_in subject.now.spec.now) round }
    requires words { AreWords subject.now.spec.now words.now }
    ensures { result ≡ (level_of (word_at (sizes_in subject.now.spec.now) words.now (Levels process round)) simulator == 2) }
{
    let m = subject.spec.m();
    prove!(simulator < m);
    field(
        levels_word(subject, words, process, round),
        2 * simulator,
        2,
    ) == 2
}
