//! Simulators that can go no further.
ghost use Rattle.std.specs.Prelude.{◌≡◌, ◌<◌, ◌≤◌, ℕ, List, false, is_some, length, not, slice_index};
ghost use Rattle.room_spec.specs.Rooms.{processes};
ghost use Rattle.room_spec.specs.Sizes.{sizes_in};
ghost use Rattle.view_table.specs.Places.{IsAgreementRound};
ghost use Rattle.view_table.specs.declared.place.Place.TheVariants.{Levels};
ghost use Rattle.simulator.specs.Knowing.{mind_of};
ghost use Rattle.simulator.specs.Moves.{chosen_in, index_in};
ghost use Rattle.simulator.specs.Ranges.{IsGoal};
ghost use Rattle.room_search.specs.Resting.{Rests, is_unresolved, waits};
ghost use Rattle.room_search.specs.Saying.{DoSay};
ghost use Rattle.room_search.specs.Steps.{AreWords, IsKnowledge};

use crate::subject::Subject;
use safe_agreement::resolved_in;
use simulator::{Goal, Knowledge};
use view_table::{Place, index};

/// Whether a simulator that knows this can go no further in some room of which this is said.
pub fn may_rest(subject: &Subject<'_>, said: &[u64], known: &Knowledge) -> bool
    requires known { IsKnowledge subject.now.spec.now known.now }
    requires said { AreWords subject.now.spec.now said.now }
    ensures { result ≡ false → (words : List ℕ) → DoSay said.now words → Rests subject.now.spec.now words (mind_of known.now).goals → ⊥ }
{
    for j in 0..subject.spec.n() {
        if !may_wait(subject, said, j, known.goal(j)) {
            return false;
        }
    }
    true
}

/// Whether nothing may be left to do for process `j` in a mind with this goal.
#[tactic(auto, using(view_table::proofs::CallerLemmas::agreement_round, view_table::proofs::CallerLemmas::zero_agreed))]
fn may_wait(subject: &Subject<'_>, said: &[u64], j: usize, goal: Goal) -> bool
    requires process { j < processes subject.now.spec.now }
    requires goal { IsGoal (sizes_in subject.now.spec.now) goal }
    requires said { AreWords subject.now.spec.now said.now }
    ensures { result ≡ false → (words : List ℕ) → DoSay said.now words → waits subject.now.spec.now words j goal ≡ false }
{
    match goal {
        Goal::Write { .. } | Goal::Propose { .. } => false,
        Goal::Ask { round } => may_be_unresolved(subject, said, j, round),
        Goal::AskInput => may_be_unresolved(subject, said, j, 0),
        Goal::Done | Goal::Spent => true,
    }
}

/// Whether the agreement on the snapshot of process `j` in this round, or in the round 0 on its input, may not be resolved.
fn may_be_unresolved(subject: &Subject<'_>, said: &[u64], j: usize, round: u8) -> bool
    requires process { j < processes subject.now.spec.now }
    requires round { IsAgreementRound (sizes_in subject.now.spec.now) round }
    requires said { AreWords subject.now.spec.now said.now }
    ensures { result ≡ false → (words : List ℕ) → DoSay said.now words → is_unresolved subject.now.spec.now words j round ≡ false }
{
    let number = levels_number(subject, said, j, round);
    if number == 0 {
        return true;
    }
    is_choice_open(subject, number - 1)
}

/// What is said of the word of levels of that agreement.
fn levels_number(subject: &Subject<'_>, said: &[u64], j: usize, round: u8) -> u64
    requires process { j < processes subject.now.spec.now }
    requires round { IsAgreementRound (sizes_in subject.now.spec.now) round }
    requires said { AreWords subject.now.spec.now said.now }
    ensures value { result ≡ slice_index said.now (index_in subject.now.spec.now (Levels j round)) }
    ensures within { index_in subject.now.spec.now (Levels j round) < length said.now }
{
    let levels = Place::Levels {
        process: j,
        round: usize::from(round),
    };
    said[index(&subject.spec.shape(), levels)]
}

/// Whether a word of levels says that no proposal is chosen.
fn is_choice_open(subject: &Subject<'_>, levels: u64) -> bool
    ensures { result ≡ not (is_some (chosen_in subject.now.spec.now levels)) }
{
    resolved_in(levels, subject.spec.m()).is_none()
}
