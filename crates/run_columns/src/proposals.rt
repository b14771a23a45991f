//! What simulators propose in an agreement, and which proposal is chosen.
ghost use Rattle.std.specs.Prelude.{◌≡◌, ◌<◌, IfSome, length, position};
ghost use Rattle.std.specs.List.{list_any};
ghost use Rattle.run_columns.specs.Sought.{is_sought};
ghost use Rattle.run_columns.specs.declared.mark.StepKind.TheVariants.{Enter as EnterOf, Look as LookOf};
ghost use Rattle.run_columns.specs.Proposals.{before_one_stands, by_one, choice_of, fate_of, has_left, has_done, has_proposed, is_done_by_one, is_input_open, is_input_resolved, is_open, is_readable, is_resolved, is_snapshot_of, is_still_open, is_that, next_agreement, on_snapshot, proposal, proposed_input, proposes_input, proposing, snapshots_of, stays_after, stored_in, word_number, word_stored, words_of};

use crate::effects::{by_any, chosen};
use crate::mark::{Mark, Step, StepKind};
use crate::sought::Sought;
use room_spec::MAX_MEMORY_WORDS;
use transcript::Event;

/// The agreement on a snapshot of a process, or in a reduction on its input.
#[derive(Clone, Copy)]
pub struct Agreement {
    pub process: u8,
    /// Which of the process's snapshots it is, counted from 1; 0 if it is on the input.
    pub round: u8,
}

/// What becomes of a proposal.
#[derive(Clone, Copy)]
pub enum Fate {
    /// The agreement isn't resolved, and may still choose it.
    Open,
    Chosen,
    /// It was withdrawn, or another one was chosen.
    Dropped,
}

impl Agreement {
    /// The agreement that a process needs next: on its input, if one is proposed and the agreement isn't resolved, or else on the first snapshot that isn't among these events.
    pub fn next(process: u8, marks: &[Mark], events: &[Event]) -> Agreement
        ensures { result ≡ next_agreement process marks.now events.now }
    {
        let input = Agreement { process, round: 0 };
        if input.is_input_open(marks) {
            input
        } else {
            Agreement::on_snapshot(process, events)
        }
    }

    fn on_snapshot(process: u8, events: &[Event]) -> Agreement
        ensures { result ≡ on_snapshot process events.now }
    {
        let round = snapshots_of(process, events).saturating_add(1).min(255);
        Agreement {
            process,
            round: round as u8,
        }
    }

    fn by_one(self, kind: StepKind, simulator: u8) -> Sought
        ensures { result ≡ by_one self kind simulator }
    {
        Sought {
            kind,
            process: self.process,
            round: self.round,
            simulator: Some(simulator),
            word: None,
        }
    }

    /// Whether a simulator takes a step in the agreement that does this.
    pub fn has_done(self, kind: StepKind, simulator: u8, marks: &[Mark]) -> bool
        ensures { result ≡ has_done self kind simulator marks.now }
    {
        let sought = self.by_one(kind, simulator);
        marks.iter().any(|mark| sought.is_at(*mark))
    }

    /// Whether a simulator has stored a proposal in the agreement, or a part of one.
    fn has_proposed(self, simulator: u8, marks: &[Mark]) -> bool
        ensures { result ≡ has_proposed self simulator marks.now }
    {
        self.has_done(proposing(self.round), simulator, marks)
    }

    /// The words that a simulator proposes, of step numbers or of an input; 0 for each that it doesn't store.
    pub fn proposal(self, simulator: u8, marks: &[Mark]) -> [u64; MAX_MEMORY_WORDS]
        ensures value { result ≡ proposal self simulator marks.now }
        ensures count { length result ≡ MAX_MEMORY_WORDS }
    {
        let proposes = self.by_one(proposing(self.round), simulator);
        let mut words = [0; MAX_MEMORY_WORDS];
        for mark in marks {
            if let Some((at, stored)) = stored_in(proposes, *mark) {
                words[at] = stored;
            }
        }
        words
    }

    /// The input that a simulator proposes in an agreement on an input; 0 if it doesn't propose one.
    pub fn proposed_input(self, simulator: u8, marks: &[Mark]) -> u64
        ensures { result ≡ proposed_input self simulator marks.now }
    {
        let words = self.proposal(simulator, marks);
        words[0]
    }

    /// Whether the agreement is resolved, if these are the events of the room's history.
    pub fn is_resolved(self, marks: &[Mark], events: &[Event]) -> bool
        ensures { result ≡ is_resolved self marks.now events.now }
    {
        if self.round == 0 {
            self.is_input_resolved(marks)
        } else {
            usize::from(self.round) <= snapshots_of(self.process, events)
        }
    }

    /// Whether an input is proposed in the agreement, which isn't resolved.
    fn is_input_open(self, marks: &[Mark]) -> bool
        ensures { result ≡ is_input_open self marks.now }
    {
        self.is_done_by_one(StepKind::StoreWrite, marks) && !self.is_input_resolved(marks)
    }

    /// Whether a simulator has loaded the chosen input, or can load it now.
    fn is_input_resolved(self, marks: &[Mark]) -> bool
        ensures { result ≡ is_input_resolved self marks.now }
    {
        self.is_done_by_one(StepKind::LoadValue, marks) || self.is_readable(marks)
    }

    /// Whether the choice can be read: a proposal was kept, and no simulator is inside.
    fn is_readable(self, marks: &[Mark]) -> bool
        ensures { result ≡ is_readable self marks.now }
    {
        self.is_done_by_one(StepKind::Stand, marks) && !self.is_one_inside(marks)
    }

    /// Whether some simulator takes a step in the agreement that does this.
    fn is_done_by_one(self, kind: StepKind, marks: &[Mark]) -> bool
        ensures { result ≡ is_done_by_one self kind marks.now }
    {
        let sought = by_any(kind, self.process, self.round);
        marks.iter().any(|mark| sought.is_at(*mark))
    }

    /// Whether some simulator has entered the agreement and hasn't left it.
    fn is_one_inside(self, marks: &[Mark]) -> bool
        ensures { result ≡ list_any (stays_after self EnterOf marks.now) marks.now }
    {
        marks
            .iter()
            .any(|mark| self.stays_after(StepKind::Enter, marks, *mark))
    }

    /// What becomes of a simulator's proposal, if these are the events of the room's history.
    pub fn fate(self, simulator: u8, marks: &[Mark], events: &[Event]) -> Fate
        ensures { result ≡ fate_of self simulator marks.now events.now }
    {
        if self.is_resolved(marks, events) {
            if is_that(chosen(self.process, self.round, marks), simulator) {
                Fate::Chosen
            } else {
                Fate::Dropped
            }
        } else if self.has_done(StepKind::Withdraw, simulator, marks) {
            Fate::Dropped
        } else {
            Fate::Open
        }
    }

    /// Whether a simulator has a proposal in the agreement that may still be chosen, if these are the events of the room's history.
    pub fn is_open(self, simulator: u8, marks: &[Mark], events: &[Event]) -> bool
        ensures { result ≡ is_open self simulator marks.now events.now }
    {
        self.has_proposed(simulator, marks) && self.fate(simulator, marks, events).is_still_open()
    }

    /// The simulator whose proposal is chosen for good, if one is: it can't be read while another simulator is inside.
    pub fn choice(self, marks: &[Mark]) -> Option<u8>
        ensures { result ≡ choice_of self marks.now }
    {
        if self.is_one_undecided(marks, self.before_one_stands(marks)) {
            return None;
        }
        chosen(self.process, self.round, marks)
    }

    /// Whether by one of the earlier marks a simulator looked into the agreement that hasn't left it.
    fn is_one_undecided(self, marks: &[Mark], earlier: &[Mark]) -> bool
        ensures { result ≡ list_any (stays_after self LookOf marks.now) earlier.now }
    {
        earlier
            .iter()
            .any(|mark| self.stays_after(StepKind::Look, marks, *mark))
    }

    /// What happened before a simulator left the agreement with its proposal kept.
    fn before_one_stands(self, marks: &[Mark]) -> &[Mark]
        ensures { result.now ≡ before_one_stands self marks.now }
    {
        let kept = by_any(StepKind::Stand, self.process, self.round);
        match first_at(kept, marks) {
            None => marks,
            Some(place) => &marks[..place],
        }
    }

    /// Whether by this mark a simulator did this in the agreement, and hasn't left it.
    fn stays_after(self, kind: StepKind, marks: &[Mark], mark: Mark) -> bool
        ensures { result ≡ stays_after self kind marks.now mark }
    {
        by_any(kind, self.process, self.round).is_at(mark)
            && !self.has_left(mark.simulator(), marks)
    }

    fn has_left(self, simulator: u8, marks: &[Mark]) -> bool
        ensures { result ≡ has_left self simulator marks.now }
    {
        self.has_done(StepKind::Stand, simulator, marks)
            || self.has_done(StepKind::Withdraw, simulator, marks)
    }
}

impl Fate {
    fn is_still_open(self) -> bool
        ensures { result ≡ is_still_open self }
    {
        matches!(self, Fate::Open)
    }
}

impl Step {
    /// Whether it proposes an input.
    pub fn proposes_input(self) -> bool
        ensures { result ≡ proposes_input self }
    {
        self.round == 0 && self.kind.is_same(StepKind::StoreWrite)
    }

    /// The memory words of its room, which have what it stores and are 0 else.
    pub fn words(self) -> [u64; MAX_MEMORY_WORDS]
        ensures value { result ≡ words_of self }
        ensures count { length result ≡ MAX_MEMORY_WORDS }
    {
        let mut words = [0; MAX_MEMORY_WORDS];
        let Some((at, stored)) = self.word_stored() else {
            return words;
        };
        words[at] = stored;
        words
    }

    /// The number of a word, and what it stores in it.
    fn word_stored(self) -> Option<(usize, u64)>
        ensures value { result ≡ word_stored self }
        ensures within { IfSome result (λ stored. stored.0 < MAX_MEMORY_WORDS) }
    {
        let at = word_number(self.word);
        if at >= MAX_MEMORY_WORDS {
            return None;
        }
        Some((at, self.stored))
    }
}

/// What a simulator does to propose in this round: in round 0 it stores an input, and in a later one a snapshot.
fn proposing(round: u8) -> StepKind
    ensures { result ≡ proposing round }
{
    if round == 0 {
        StepKind::StoreWrite
    } else {
        StepKind::Propose
    }
}

/// The place of the first step that does what is asked for.
fn first_at(sought: Sought, marks: &[Mark]) -> Option<usize>
    ensures place { result ≡ position (is_sought sought) marks.now }
    ensures within { IfSome result (λ place. place < length marks.now) }
{
    marks.iter().position(|mark| sought.is_at(*mark))
}

/// The number of a word, and what a step stores in it that does what is asked for.
fn stored_in(sought: Sought, mark: Mark) -> Option<(usize, u64)>
    ensures value { result ≡ stored_in sought mark }
    ensures within { IfSome result (λ stored. stored.0 < MAX_MEMORY_WORDS) }
{
    match mark {
        Mark::Step(step) => {
            if sought.is_step(step) {
                step.word_stored()
            } else {
                None
            }
        }
        Mark::Crash { .. } => None,
    }
}

fn word_number(word: Option<u8>) -> usize
    ensures { result ≡ word_number word }
{
    match word {
        None => 0,
        Some(word) => usize::from(word),
    }
}

/// Whether this is the simulator that was chosen.
fn is_that(chosen: Option<u8>, simulator: u8) -> bool
    ensures { result ≡ is_that chosen simulator }
{
    match chosen {
        None => false,
        Some(other) => other == simulator,
    }
}

/// How many snapshots of a process are among these events.
pub fn snapshots_of(process: u8, events: &[Event]) -> usize
    ensures { result ≡ snapshots_of process events.now }
{
    events
        .iter()
        .filter(|event| is_snapshot_of(process, event))
        .count()
}

fn is_snapshot_of(process: u8, event: &Event) -> bool
    ensures { result ≡ is_snapshot_of process event.now }
{
    match event {
        Event::Snap { p, .. } => *p == process,
        Event::Write { .. } | Event::Decide { .. } => false,
    }
}
