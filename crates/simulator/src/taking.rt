//! The lines of a turn: what the answer of each makes of the mind.
ghost use Rattle.std.specs.Prelude.{List, ℕ, ◌≡◌, ◌+◌, ◌-◌, ◌<◌, ◌≤◌, [], ◌∷◌, ◌++◌, Some, length, min, nat_lt, slice_set};
ghost use Rattle.protocol_lang.specs.Numbers.{greatest};
ghost use Rattle.protocol_lang.specs.declared.meaning.TheConstants.{MAX_PROCESSES};
ghost use Rattle.room_spec.specs.Rooms.{RoomSpec, processes};
ghost use Rattle.room_spec.specs.Shapes.{sizes_of};
ghost use Rattle.room_spec.specs.Sizes.{sizes_in};
ghost use Rattle.room_spec.specs.declared.spec.TheConstants.{MAX_MEMORY_WORDS};
ghost use Rattle.simulator.specs.Minds.{current_input, current_round};
ghost use Rattle.simulator.specs.Moves.{entry_in, is_again, loaded};
ghost use Rattle.simulator.specs.Notes.{AreLastWrites};
ghost use Rattle.simulator.specs.Turns.{acted, after_write, asked, begun, collected, counted, counted_by, decided, ended, gathered, gathered_all, goes_on, got_input, got_value, got_view, most_collects, padded, scanned, showed, snapped, stayed, with_value, words_in};

use crate::goal::{Goal, first_write};
use crate::line::Line;
use crate::mind::Mind;
use crate::turn::Turn;
use crate::words::chosen_in;
use protocol_lang::{Action, View, next};
use room_spec::{Shape, Spec};
use sim_memory::LastWrites;

impl Mind {
    pub(crate) fn count_step(&mut self)
        requires steps { self.old.steps < u32.MAX }
        requires turn_steps { self.old.turn_steps < u16.MAX }
        ensures { self.new ≡ counted self.old }
    {
        self.steps += 1;
        self.turn_steps += 1;
    }

    /// Counts the steps of a line that are taken in a row.
    #[inline(always)]
    pub(crate) fn count_steps(&mut self, count: u64)
        requires steps { self.old.steps + count ≤ u32.MAX }
        requires turn_steps { self.old.turn_steps + count ≤ u16.MAX }
        ensures { self.new ≡ counted_by count self.old }
    {
        self.steps += count as u32;
        self.turn_steps += count as u16;
    }

    /// A turn begins, on this process.
    pub(crate) fn begin_on(&mut self, process: usize)
        requires process { process < MAX_PROCESSES }
        requires turns { self.old.turns < u16.MAX }
        ensures { self.new ≡ begun process self.old }
    {
        self.process = process as u8;
        self.turns += 1;
    }

    pub(crate) fn go_on(&mut self, line: Line) -> Turn
        ensures mind { self.new ≡ (goes_on line self.old).mind }
        ensures turn { result ≡ (goes_on line self.old).turn }
    {
        self.line = line;
        Turn::Still
    }

    /// Ends the turn, with this goal for its process.
    pub(crate) fn end(&mut self, turn: Turn, goal: Goal) -> Turn
        requires { self.old.process < length self.old.goals }
        ensures mind { self.new ≡ (ended turn goal self.old).mind }
        ensures turn { result ≡ turn }
    {
        let process = self.process();
        self.goals[process] = goal;
        self.process = if process + 1 < self.goals.len() {
            self.process + 1
        } else {
            0
        };
        self.turn_steps = 0;
        self.collects = 0;
        self.line = Line::Rest;
        turn
    }

    /// Ends the turn after the store of this decision of its process. The first that it stores is its own too.
    pub(crate) fn decide(&mut self, decision: u32) -> Turn
        requires { self.old.process < length self.old.goals }
        ensures mind { self.new ≡ (decided decision self.old).mind }
        ensures turn { result ≡ (decided decision self.old).turn }
    {
        if self.decision.is_none() {
            self.decision = Some(decision);
        }
        self.end(Turn::Useful, Goal::Done)
    }

    /// Puts a memory word that was loaded into its snapshot.
    #[inline(always)]
    pub(crate) fn put_word(&mut self, at: usize, word: u64)
        requires { at < MAX_MEMORY_WORDS }
        ensures { self.new ≡ record self.old { snapshot = slice_set self.old.snapshot at word } }
    {
        self.snapshot.put(at, word);
    }

    /// Takes in a word of a collect.
    pub(crate) fn snap(&mut self, spec: &Spec, word: u64) -> Turn
        requires word { self.old.word < MAX_MEMORY_WORDS }
        requires collects { self.old.collects < u16.MAX }
        ensures mind { self.new ≡ (snapped spec.now (is_again (loaded word self.old)) (loaded word self.old)).mind }
        ensures turn { result ≡ (snapped spec.now (is_again (loaded word self.old)) (loaded word self.old)).turn }
    {
        let at = self.word();
        self.put_word(at, word);
        if self.has_next_word(spec) {
            self.next_word();
            return self.go_on(Line::Snap);
        }
        self.word = 0;
        self.scan(spec)
    }

    /// Ends the scan with the collect that is whole, or makes another.
    pub(crate) fn scan(&mut self, spec: &Spec) -> Turn
        requires { self.old.collects < u16.MAX }
        ensures mind { self.new ≡ (scanned spec.now (is_again self.old) self.old).mind }
        ensures turn { result ≡ (scanned spec.now (is_again self.old) self.old).turn }
    {
        if spec.shape().memory_words() == 1 {
            return self.go_on(Line::Show);
        }
        self.collects += 1;
        self.collect(spec)
    }

    /// The same, after it was counted.
    #[inline(never)]
    fn collect(&mut self, spec: &Spec) -> Turn
        ensures mind { self.new ≡ (collected spec.now (is_again self.old) self.old).mind }
        ensures turn { result ≡ (collected spec.now (is_again self.old) self.old).turn }
    {
        if self.is_again() && self.collects > 1 || self.collects() == most_collects(spec) {
            return self.go_on(Line::Show);
        }
        self.before = self.snapshot.words();
        self.go_on(Line::Snap)
    }

    /// Whether the collect is the one before.
    fn is_again(&self) -> bool
        ensures { result ≡ is_again self.now }
    {
        let words = self.snapshot.words();
        words[0] == self.before[0]
            && words[1] == self.before[1]
            && words[2] == self.before[2]
            && words[3] == self.before[3]
    }

    /// Goes on after the store of a word of its proposal.
    pub(crate) fn show(&mut self, spec: &Spec) -> Turn
        requires { self.old.word < MAX_MEMORY_WORDS }
        ensures mind { self.new ≡ (showed spec.now self.old).mind }
        ensures turn { result ≡ (showed spec.now self.old).turn }
    {
        if self.has_next_word(spec) {
            self.next_word();
            return self.go_on(Line::Show);
        }
        self.word = 0;
        self.go_on(Line::Enter)
    }

    /// Whether the memory has a word after that of its line.
    fn has_next_word(&self, spec: &Spec) -> bool
        requires { self.now.word < MAX_MEMORY_WORDS }
        ensures { result ≡ nat_lt (self.now.word + 1) (words_in spec.now) }
    {
        self.word() + 1 < spec.shape().memory_words()
    }

    #[inline(never)]
    fn next_word(&mut self)
        requires { self.old.word < MAX_MEMORY_WORDS }
        ensures { self.new ≡ record self.old { word = self.old.word + 1 } }
    {
        self.word += 1;
    }

    /// Learns which proposal was chosen in the agreement of its turn, of whatever round.
    pub(crate) fn ask(&mut self, chosen: Option<u16>) -> Turn
        requires { self.old.process < length self.old.goals }
        ensures mind { self.new ≡ (asked chosen self.old).mind }
        ensures turn { result ≡ (asked chosen self.old).turn }
    {
        if self.round() == 0 {
            self.ask_input(chosen)
        } else {
            self.ask_view(chosen)
        }
    }

    /// Goes on to the chosen proposal of a snapshot, or ends the turn if none is chosen yet.
    pub(crate) fn ask_view(&mut self, chosen: Option<u16>) -> Turn
        requires process { self.old.process < length self.old.goals }
        requires round { 1 ≤ current_round self.old }
        ensures mind { self.new ≡ (asked chosen self.old).mind }
        ensures turn { result ≡ (asked chosen self.old).turn }
    {
        match chosen {
            Some(chosen) => self.go_on(Line::GetView { chosen }),
            None => {
                let round = self.round();
                self.end(Turn::Quiet, Goal::Ask { round })
            }
        }
    }

    /// Goes on to the chosen input, or ends the turn if none is chosen yet.
    #[cold]
    #[inline(never)]
    pub(crate) fn ask_input(&mut self, chosen: Option<u16>) -> Turn
        requires process { self.old.process < length self.old.goals }
        requires round { current_round self.old ≡ 0 }
        ensures mind { self.new ≡ (asked chosen self.old).mind }
        ensures turn { result ≡ (asked chosen self.old).turn }
    {
        match chosen {
            Some(chosen) => self.go_on(Line::GetInput { chosen }),
            None => self.end(Turn::Quiet, Goal::AskInput),
        }
    }

    /// Takes in the chosen input of its process, whose first write it makes in its next turn.
    #[cold]
    #[inline(never)]
    pub(crate) fn get_input(&mut self, spec: &Spec, value: u64) -> Turn
        requires process { self.old.process < length self.old.goals }
        requires goals { length self.old.goals ≡ processes spec.now }
        requires inputs { length self.old.inputs ≡ processes spec.now }
        ensures mind { self.new ≡ (got_input spec.now value self.old).mind }
        ensures turn { result ≡ (got_input spec.now value self.old).turn }
    {
        let process = self.process();
        let input = value.min(u64::from(u32::MAX)) as u32;
        self.inputs[process] = input;
        self.stay(Turn::Useful, first_write(spec, input, process))
    }

    /// Ends the turn, with this goal for its process, at which the sweep stays.
    fn stay(&mut self, turn: Turn, goal: Goal) -> Turn
        requires { self.old.process < length self.old.goals }
        ensures mind { self.new ≡ (stayed turn goal self.old).mind }
        ensures turn { result ≡ turn }
    {
        let process = self.process();
        self.goals[process] = goal;
        self.turn_steps = 0;
        self.collects = 0;
        self.line = Line::Rest;
        turn
    }

    /// The input of its process, as far as it knows.
    fn current_input(&self, spec: &Spec) -> u32
        requires { self.now.process < processes spec.now }
        ensures { result ≡ current_input spec.now self.now }
    {
        match self.inputs.as_slice().get(self.process()) {
            Some(input) => *input,
            None => spec.input(self.process()),
        }
    }

    /// Takes in a word of the chosen proposal.
    pub(crate) fn get_view(&mut self, spec: &Spec, chosen: u16, word: u64) -> Turn
        requires word { self.old.word < MAX_MEMORY_WORDS }
        requires process { self.old.process < length self.old.goals }
        requires goals { length self.old.goals ≡ processes spec.now }
        ensures mind { self.new ≡ (got_view (entry_in spec.now (loaded word self.old).snapshot) spec.now chosen (loaded word self.old)).mind }
        ensures turn { result ≡ (got_view (entry_in spec.now (loaded word self.old).snapshot) spec.now chosen (loaded word self.old)).turn }
    {
        let at = self.word();
        self.put_word(at, word);
        if self.has_next_word(spec) {
            self.next_word();
            return self.go_on(Line::GetView { chosen });
        }
        self.word = 0;
        self.open_view(spec)
    }

    /// Opens the chosen proposal, which is whole: begins to gather the values of the writes that it shows.
    #[inline(always)]
    pub(crate) fn open_view(&mut self, spec: &Spec) -> Turn
        requires process { self.old.process < length self.old.goals }
        requires goals { length self.old.goals ≡ processes spec.now }
        ensures mind { self.new ≡ (gathered (entry_in spec.now self.old.snapshot) spec.now [] self.old).mind }
        ensures turn { result ≡ (gathered (entry_in spec.now self.old.snapshot) spec.now [] self.old).turn }
    {
        self.snapshot.note(spec);
        self.clear_entries(spec);
        self.gather(spec)
    }

    /// Begins its entries anew, with nothing for each of the first silent processes.
    #[inline(always)]
    fn clear_entries(&mut self, spec: &Spec)
        ensures { self.new ≡ record self.old { entries = padded (entry_in spec.now self.old.snapshot) (processes spec.now) [] } }
    {
        self.entries = View::new(); // Clearing it would write to each entry.
        let last = self.snapshot.last_writes(spec);
        pad(&mut self.entries, &last, &spec.shape());
    }

    /// Takes in the value of the next process.
    #[inline(always)]
    pub(crate) fn get_value(&mut self, spec: &Spec, last: &LastWrites, value: u64) -> Turn
        requires process { self.old.process < length self.old.goals }
        requires goals { length self.old.goals ≡ processes spec.now }
        requires entries { length self.old.entries < processes spec.now }
        requires few { processes spec.now ≤ MAX_PROCESSES }
        requires last { AreLastWrites spec.now self.old.snapshot last.now.holders last.now.rounds }
        ensures mind { self.new ≡ (got_value (entry_in spec.now self.old.snapshot) spec.now value self.old).mind }
        ensures turn { result ≡ (got_value (entry_in spec.now self.old.snapshot) spec.now value self.old).turn }
    {
        self.add_value(&spec.shape(), last, value);
        self.gather(spec)
    }

    /// Adds the value of the next process to the entries, and nothing for each of the silent ones that follow it. The room is
    /// of this shape, and these are the last writes that its snapshot shows.
    #[inline(always)]
    pub(crate) fn add_value(&mut self, shape: &Shape, last: &LastWrites, value: u64)
        requires entries { length self.old.entries < shape.now.n }
        ensures { (spec : RoomSpec) → sizes_of shape.now ≡ sizes_in spec →
            AreLastWrites spec self.old.snapshot last.now.holders last.now.rounds →
            self.new ≡ with_value (entry_in spec self.old.snapshot) spec value self.old }
    {
        let value = value.min(u64::from(u32::MAX)) as u32;
        self.entries.push(Some(value));
        pad(&mut self.entries, last, shape);
    }

    /// Goes on to the next value that the snapshot shows, or after the last to what the process does.
    #[inline(always)]
    fn gather(&mut self, spec: &Spec) -> Turn
        requires process { self.old.process < length self.old.goals }
        requires goals { length self.old.goals ≡ processes spec.now }
        ensures mind { self.new ≡ (gathered_all spec.now self.old).mind }
        ensures turn { result ≡ (gathered_all spec.now self.old).turn }
    {
        if self.entries.len() < spec.n() {
            return self.go_on(Line::Values);
        }
        self.conclude(spec)
    }

    /// Goes on to what the process does after its snapshot, which is whole.
    #[inline(never)]
    pub(crate) fn conclude(&mut self, spec: &Spec) -> Turn
        requires process { self.old.process < length self.old.goals }
        requires goals { length self.old.goals ≡ processes spec.now }
        requires whole { processes spec.now ≤ length self.old.entries }
        requires few { processes spec.now ≤ MAX_PROCESSES }
        ensures mind { self.new ≡ (gathered_all spec.now self.old).mind }
        ensures turn { result ≡ (gathered_all spec.now self.old).turn }
    {
        let action = next(
            spec.protocol(),
            self.current_input(spec),
            u32::from(self.process),
            u32::from(self.round()),
            &self.entries,
        );
        self.act(spec, action)
    }

    /// What follows from what the process does after its snapshot.
    fn act(&mut self, spec: &Spec, action: Action) -> Turn
        requires { self.old.process < length self.old.goals }
        ensures mind { self.new ≡ (acted spec.now action self.old).mind }
        ensures turn { result ≡ (acted spec.now action self.old).turn }
    {
        match action {
            Action::Write(value) => {
                let goal = after_write(spec, self.round(), value);
                self.end(Turn::Useful, goal)
            }
            Action::Decide(decision) => self.go_on(Line::Out { decision }),
        }
    }
}

fn after_write(spec: &Spec, round: u8, value: u32) -> Goal
    ensures { result ≡ after_write spec.now.rounds round value }
{
    if usize::from(round) < spec.rounds() {
        Goal::Write {
            round: round + 1,
            value,
        }
    } else {
        Goal::Spent
    }
}

/// Adds nothing for each next process of which no write is shown, in a room of this shape.
#[inline(always)]
fn pad(entries: &mut View, last: &LastWrites, shape: &Shape)
    requires few { length entries.old.items ≤ shape.now.n }
    ensures { (spec : RoomSpec) (words : List ℕ) → sizes_of shape.now ≡ sizes_in spec →
        AreLastWrites spec words last.now.holders last.now.rounds →
        entries.new.items ≡ padded (entry_in spec words) (processes spec) entries.old.items }
{
    while entries.len() < shape.n && last.rounds[entries.len()] == 0 {
        entries.push(None);
    }
}

/// A scan makes no more collects: as many as there are writes in the room, and two.
fn most_collects(spec: &Spec) -> u32
    ensures { result ≡ most_collects spec.now }
{
    (spec.m() * spec.n() * spec.rounds() + 2) as u32
}
