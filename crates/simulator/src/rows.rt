//! The lines of a turn that follow each other in most turns, taken in a row. The operation of a line is that of `part` or
//! `next`, and what its answer makes of the mind is in `taking`. Here the numbers that several lines share are looked up
//! once for all of them, no line is stored between two steps, and a row of steps is counted once: after an operation on
//! words that threads share, the compiler would load each of these anew.
ghost use Rattle.std.specs.Prelude.{ℕ, Some, ◌≡◌, ◌≢◌, ◌⊎◌, ◌+◌, ◌<◌, ◌≤◌, true, false};
ghost use Rattle.room_spec.specs.Shapes.{sizes_of};
ghost use Rattle.room_spec.specs.Sizes.{sizes_in};
ghost use Rattle.simulator.specs.declared.goal.Goal.TheVariants as goals;
ghost use Rattle.simulator.specs.declared.line.Line.TheVariants.{Enter, GetView, Out, Rest, Show, Snap, Values};
ghost use Rattle.simulator.specs.declared.turn.Turn.TheVariants.{Still};
ghost use Rattle.simulator.specs.Minds.{goal_at, next_process};
ghost use Rattle.simulator.specs.Parts.{IsPartOf};
ghost use Rattle.simulator.specs.Ranges.{at_line};
ghost use Rattle.simulator.specs.Runs.{Continues, Wants};
ghost use Rattle.simulator.specs.Turns.{words_in};

use crate::goal::Goal;
use crate::line::Line;
use crate::memory::{Memory, Room};
use crate::mind::Mind;
use crate::part::Part;
use crate::turn::Turn;
use crate::words::chosen_in;
use safe_agreement::has_level;

/// The atomic steps of a run so far: how many, what has become of the turn, and the line that comes then.
#[derive(Drop)]
pub(crate) struct Run {
    pub(crate) count: u64,
    pub(crate) turn: Turn,
    pub(crate) line: Line,
}

impl Run {
    /// Whether it takes another step, of at most this many.
    #[inline(always)]
    pub(crate) fn goes_on(&self, most: u64) -> bool
        ensures on { result ≡ true → (self.now.count < most) × (self.now.turn ≡ Still) }
        ensures off { result ≡ false → (most ≤ self.now.count) ⊎ (self.now.turn ≢ Still) }
    {
        self.count < most && matches!(self.turn, Turn::Still)
    }

    /// Whether it is at this line, and takes at least `few` steps more, of at most `most` in all.
    #[inline(always)]
    fn is_at(&self, line: Line, few: u64, most: u64) -> bool
        ensures { result ≡ true → (self.now.count + few ≤ most) × (self.now.turn ≡ Still) × (self.now.line ≡ line) }
    {
        self.goes_on(most) && most - self.count >= few && self.line == line
    }

    /// With the steps of a row.
    #[inline(always)]
    fn add(&mut self, row: &Run)
        requires { self.old.count + row.now.count ≤ u64.MAX }
        ensures count { self.new.count ≡ self.old.count + row.now.count }
        ensures turn { self.new.turn ≡ row.now.turn }
        ensures line { self.new.line ≡ row.now.line }
    {
        self.count += row.count;
        self.turn = row.turn;
        self.line = row.line;
    }
}

impl Mind {
    /// Takes the steps of the lines that follow each other in most turns. Each row names its line, so the compiler goes from
    /// one to the next without a look-up; any other line is looked up in `take_step`.
    #[inline(always)]
    pub(crate) fn in_a_row<C, M: Memory<C>>(
        &mut self,
        room: &Room<'_, C>,
        most: u64,
        run: &mut Run,
        memory: &mut M,
    )
        requires wants { Wants M.serves room.now.context.now room.now.spec.now memory.old (at_line run.old.line self.old) run.old.turn }
        ensures wants { Wants M.serves room.now.context.now room.now.spec.now memory.new (at_line run.new.line self.new) run.new.turn }
        ensures continues { Continues M.does room.now.spec.now run.old.count memory.old (at_line run.old.line self.old) run.old.turn run.new.count memory.new (at_line run.new.line self.new) run.new.turn }
        ensures more { run.old.count ≤ run.new.count }
        ensures most { run.old.count ≤ most → run.new.count ≤ most }
    {
        self.along_write(room, most, run, memory);
        self.along_proposal(room, most, run, memory);
        self.along_view(room, most, run, memory);
        self.along_values(room, most, run, memory);
        self.along_out(room, most, run, memory);
    }

    /// Takes the first steps of a turn that begins with a write, if eight are left: all eight of its proposal if the memory
    /// is one word, and else the two before its scan.
    #[inline(always)]
    fn along_write<C, M: Memory<C>>(
        &mut self,
        room: &Room<'_, C>,
        most: u64,
        run: &mut Run,
        memory: &mut M,
    )
        requires wants { Wants M.serves room.now.context.now room.now.spec.now memory.old (at_line run.old.line self.old) run.old.turn }
        ensures wants { Wants M.serves room.now.context.now room.now.spec.now memory.new (at_line run.new.line self.new) run.new.turn }
        ensures continues { Continues M.does room.now.spec.now run.old.count memory.old (at_line run.old.line self.old) run.old.turn run.new.count memory.new (at_line run.new.line self.new) run.new.turn }
        ensures more { run.old.count ≤ run.new.count }
        ensures most { run.old.count ≤ most → run.new.count ≤ most }
    {
        if !run.is_at(Line::Rest, 8, most) {
            return;
        }
        let Some(process) = self.next_process() else {
            return;
        };
        let Goal::Write { round, value } = self.goal(process) else {
            return;
        };
        let part = Part {
            shape: room.spec.shape(),
            simulator: self.number(),
            process,
            round: usize::from(round),
        };
        if part.shape.memory_words() == 1 {
            self.take_opening(room, &part, value, memory);
            run.count += 4;
            let row = self.take_agreement(room, &part, memory);
            run.add(&row);
        } else {
            self.take_write(room, &part, value, memory);
            run.count += 2;
            run.line = Line::Snap;
        }
    }

    /// Takes the first two steps of a turn that begins with a write: stores it, and counts it.
    #[inline(always)]
    fn take_write<C, M: Memory<C>>(
        &mut self,
        room: &Room<'_, C>,
        part: &Part,
        value: u32,
        memory: &mut M,
    )
        requires wants { Wants M.serves room.now.context.now room.now.spec.now memory.old (at_line Rest self.old) Still }
        requires process { next_process self.old.goals self.old.process ≡ Some part.now.process }
        requires goal { goal_at self.old.goals part.now.process ≡ goals.Write part.now.round value }
        requires simulator { part.now.simulator ≡ self.old.number }
        requires sizes { sizes_of part.now.shape ≡ sizes_in room.now.spec.now }
        ensures wants { Wants M.serves room.now.context.now room.now.spec.now memory.new (at_line Snap self.new) Still }
        ensures continues { (count : ℕ) → Continues M.does room.now.spec.now count memory.old (at_line Rest self.old) Still (count + 2) memory.new (at_line Snap self.new) Still }
    {
        memory.operate(room.context, part.write(value));
        memory.operate(room.context, part.raise());
        self.begin_on(part.process);
        self.count_steps(2);
    }

    /// Takes the first four steps of a turn that begins with a write, if the memory is one word: stores the write, counts it,
    /// and proposes a snapshot.
    #[inline(always)]
    fn take_opening<C, M: Memory<C>>(
        &mut self,
        room: &Room<'_, C>,
        part: &Part,
        value: u32,
        memory: &mut M,
    )
        requires wants { Wants M.serves room.now.context.now room.now.spec.now memory.old (at_line Rest self.old) Still }
        requires one { words_in room.now.spec.now ≡ 1 }
        requires process { next_process self.old.goals self.old.process ≡ Some part.now.process }
        requires goal { goal_at self.old.goals part.now.process ≡ goals.Write part.now.round value }
        requires simulator { part.now.simulator ≡ self.old.number }
        requires sizes { sizes_of part.now.shape ≡ sizes_in room.now.spec.now }
        ensures wants { Wants M.serves room.now.context.now room.now.spec.now memory.new (at_line Enter self.new) Still }
        ensures continues { (count : ℕ) → Continues M.does room.now.spec.now count memory.old (at_line Rest self.old) Still (count + 4) memory.new (at_line Enter self.new) Still }
        ensures part { IsPartOf room.now.spec.now self.new part.now }
    {
        memory.operate(room.context, part.write(value));
        memory.operate(room.context, part.raise());
        let word = memory.operate(room.context, part.snap(0));
        memory.operate(room.context, part.show(0, word));
        self.put_word(0, word);
        self.begin_on(part.process);
        self.count_steps(4);
    }

    /// Takes the four steps of an agreement on a snapshot: enters it, looks at its levels, leaves it, and asks which proposal
    /// was chosen.
    #[inline(always)]
    fn take_agreement<C, M: Memory<C>>(
        &mut self,
        room: &Room<'_, C>,
        part: &Part,
        memory: &mut M,
    ) -> Run
        requires wants { Wants M.serves room.now.context.now room.now.spec.now memory.old (at_line Enter self.old) Still }
        requires part { IsPartOf room.now.spec.now self.old part.now }
        ensures wants { Wants M.serves room.now.context.now room.now.spec.now memory.new (at_line result.line self.new) result.turn }
        ensures continues { (count : ℕ) → Continues M.does room.now.spec.now count memory.old (at_line Enter self.old) Still (count + 4) memory.new (at_line result.line self.new) result.turn }
        ensures count { result.count ≡ 4 }
    {
        memory.operate(room.context, part.enter());
        let levels = memory.operate(room.context, part.look());
        let saw_two = has_level(levels, room.spec.m(), 2);
        memory.operate(room.context, part.leave(saw_two));
        let answer = memory.operate(room.context, part.look());
        self.count_steps(4);
        let turn = self.ask_view(chosen_in(room.spec, answer));
        Run {
            count: 4,
            turn,
            line: self.current_line(),
        }
    }

    /// Takes the steps from the scan up to the end of the agreement, if it is at the beginning of one of their lines.
    #[inline(always)]
    fn along_proposal<C, M: Memory<C>>(
        &mut self,
        room: &Room<'_, C>,
        most: u64,
        run: &mut Run,
        memory: &mut M,
    )
        requires wants { Wants M.serves room.now.context.now room.now.spec.now memory.old (at_line run.old.line self.old) run.old.turn }
        ensures wants { Wants M.serves room.now.context.now room.now.spec.now memory.new (at_line run.new.line self.new) run.new.turn }
        ensures continues { Continues M.does room.now.spec.now run.old.count memory.old (at_line run.old.line self.old) run.old.turn run.new.count memory.new (at_line run.new.line self.new) run.new.turn }
        ensures more { run.old.count ≤ run.new.count }
        ensures most { run.old.count ≤ most → run.new.count ≤ most }
    {
        if !matches!(run.line, Line::Snap | Line::Show | Line::Enter) {
            return;
        }
        self.along_collects(room, most, run, memory);
        self.along_shows(room, most, run, memory);
        self.along_agreement(room, most, run, memory);
    }

    /// Takes whole collects, as long as a step is left for each memory word, until the scan ends.
    #[inline(always)]
    fn along_collects<C, M: Memory<C>>(
        &mut self,
        room: &Room<'_, C>,
        most: u64,
        run: &mut Run,
        memory: &mut M,
    )
        requires wants { Wants M.serves room.now.context.now room.now.spec.now memory.old (at_line run.old.line self.old) run.old.turn }
        ensures wants { Wants M.serves room.now.context.now room.now.spec.now memory.new (at_line run.new.line self.new) run.new.turn }
        ensures continues { Continues M.does room.now.spec.now run.old.count memory.old (at_line run.old.line self.old) run.old.turn run.new.count memory.new (at_line run.new.line self.new) run.new.turn }
        ensures more { run.old.count ≤ run.new.count }
        ensures most { run.old.count ≤ most → run.new.count ≤ most }
    {
        let words = room.spec.shape().memory_words() as u64;
        while run.is_at(Line::Snap, words, most) && self.word() == 0 {
            let row = self.take_collect(room, memory);
            run.add(&row);
        }
    }

    /// Takes the steps of one collect, which loads each memory word.
    #[inline(always)]
    fn take_collect<C, M: Memory<C>>(&mut self, room: &Room<'_, C>, memory: &mut M) -> Run
        requires wants { Wants M.serves room.now.context.now room.now.spec.now memory.old (at_line Snap self.old) Still }
        requires word { self.old.word ≡ 0 }
        ensures wants { Wants M.serves room.now.context.now room.now.spec.now memory.new (at_line result.line self.new) result.turn }
        ensures continues { (count : ℕ) → Continues M.does room.now.spec.now count memory.old (at_line Snap self.old) Still (count + result.count) memory.new (at_line result.line self.new) result.turn }
        ensures count { result.count ≡ words_in room.now.spec.now }
    {
        let part = self.part(room.spec);
        let words = part.shape.memory_words();
        let mut word = 0;
        loop {
            let content = memory.operate(room.context, part.snap(word));
            self.put_word(word, content);
            word += 1;
            if word == words {
                break;
            }
        }
        self.count_steps(words as u64);
        let turn = self.scan(room.spec);
        Run {
            count: words as u64,
            turn,
            line: self.current_line(),
        }
    }

    /// Stores its whole proposal, if as many steps are left.
    #[inline(always)]
    fn along_shows<C, M: Memory<C>>(
        &mut self,
        room: &Room<'_, C>,
        most: u64,
        run: &mut Run,
        memory: &mut M,
    )
        requires wants { Wants M.serves room.now.context.now room.now.spec.now memory.old (at_line run.old.line self.old) run.old.turn }
        ensures wants { Wants M.serves room.now.context.now room.now.spec.now memory.new (at_line run.new.line self.new) run.new.turn }
        ensures continues { Continues M.does room.now.spec.now run.old.count memory.old (at_line run.old.line self.old) run.old.turn run.new.count memory.new (at_line run.new.line self.new) run.new.turn }
        ensures more { run.old.count ≤ run.new.count }
        ensures most { run.old.count ≤ most → run.new.count ≤ most }
    {
        let words = room.spec.shape().memory_words() as u64;
        if run.is_at(Line::Show, words, most) && self.word() == 0 {
            let row = self.take_shows(room, memory);
            run.add(&row);
        }
    }

    /// Takes the steps that store its proposal, one for each of its words.
    #[inline(always)]
    fn take_shows<C, M: Memory<C>>(&mut self, room: &Room<'_, C>, memory: &mut M) -> Run
        requires wants { Wants M.serves room.now.context.now room.now.spec.now memory.old (at_line Show self.old) Still }
        requires word { self.old.word ≡ 0 }
        ensures wants { Wants M.serves room.now.context.now room.now.spec.now memory.new (at_line result.line self.new) result.turn }
        ensures continues { (count : ℕ) → Continues M.does room.now.spec.now count memory.old (at_line Show self.old) Still (count + result.count) memory.new (at_line result.line self.new) result.turn }
        ensures count { result.count ≡ words_in room.now.spec.now }
    {
        let part = self.part(room.spec);
        let words = part.shape.memory_words();
        let mut word = 0;
        loop {
            memory.operate(room.context, part.show(word, self.snapshot.word(word)));
            word += 1;
            if word == words {
                break;
            }
        }
        self.count_steps(words as u64);
        Run {
            count: words as u64,
            turn: Turn::Still,
            line: Line::Enter,
        }
    }

    /// Loads the whole chosen proposal, if as many steps are left.
    #[inline(always)]
    fn along_view<C, M: Memory<C>>(
        &mut self,
        room: &Room<'_, C>,
        most: u64,
        run: &mut Run,
        memory: &mut M,
    )
        requires wants { Wants M.serves room.now.context.now room.now.spec.now memory.old (at_line run.old.line self.old) run.old.turn }
        ensures wants { Wants M.serves room.now.context.now room.now.spec.now memory.new (at_line run.new.line self.new) run.new.turn }
        ensures continues { Continues M.does room.now.spec.now run.old.count memory.old (at_line run.old.line self.old) run.old.turn run.new.count memory.new (at_line run.new.line self.new) run.new.turn }
        ensures more { run.old.count ≤ run.new.count }
        ensures most { run.old.count ≤ most → run.new.count ≤ most }
    {
        let words = room.spec.shape().memory_words() as u64;
        let Line::GetView { chosen } = run.line else {
            return;
        };
        if run.is_at(Line::GetView { chosen }, words, most) && self.word() == 0 {
            let row = self.take_view(room, chosen, memory);
            run.add(&row);
        }
    }

    /// Takes the steps that load the chosen proposal, one for each of its words.
    #[inline(always)]
    fn take_view<C, M: Memory<C>>(&mut self, room: &Room<'_, C>, chosen: u16, memory: &mut M) -> Run
        requires wants { Wants M.serves room.now.context.now room.now.spec.now memory.old (at_line (GetView chosen) self.old) Still }
        requires word { self.old.word ≡ 0 }
        ensures wants { Wants M.serves room.now.context.now room.now.spec.now memory.new (at_line result.line self.new) result.turn }
        ensures continues { (count : ℕ) → Continues M.does room.now.spec.now count memory.old (at_line (GetView chosen) self.old) Still (count + result.count) memory.new (at_line result.line self.new) result.turn }
        ensures count { result.count ≡ words_in room.now.spec.now }
    {
        let part = self.part(room.spec);
        let words = part.shape.memory_words();
        let mut word = 0;
        loop {
            let content = memory.operate(room.context, part.get_view(usize::from(chosen), word));
            self.put_word(word, content);
            word += 1;
            if word == words {
                break;
            }
        }
        self.count_steps(words as u64);
        let turn = self.open_view(room.spec);
        Run {
            count: words as u64,
            turn,
            line: self.current_line(),
        }
    }

    /// Takes the four steps of an agreement on a snapshot, if as many are left.
    #[inline(always)]
    fn along_agreement<C, M: Memory<C>>(
        &mut self,
        room: &Room<'_, C>,
        most: u64,
        run: &mut Run,
        memory: &mut M,
    )
        requires wants { Wants M.serves room.now.context.now room.now.spec.now memory.old (at_line run.old.line self.old) run.old.turn }
        ensures wants { Wants M.serves room.now.context.now room.now.spec.now memory.new (at_line run.new.line self.new) run.new.turn }
        ensures continues { Continues M.does room.now.spec.now run.old.count memory.old (at_line run.old.line self.old) run.old.turn run.new.count memory.new (at_line run.new.line self.new) run.new.turn }
        ensures more { run.old.count ≤ run.new.count }
        ensures most { run.old.count ≤ most → run.new.count ≤ most }
    {
        if !run.is_at(Line::Enter, 4, most) || self.round() == 0 {
            return;
        }
        let part = self.part(room.spec);
        let row = self.take_agreement(room, &part, memory);
        run.add(&row);
    }

    /// Takes steps as long as the run is at the line of values.
    #[inline(always)]
    fn along_values<C, M: Memory<C>>(
        &mut self,
        room: &Room<'_, C>,
        most: u64,
        run: &mut Run,
        memory: &mut M,
    )
        requires wants { Wants M.serves room.now.context.now room.now.spec.now memory.old (at_line run.old.line self.old) run.old.turn }
        ensures wants { Wants M.serves room.now.context.now room.now.spec.now memory.new (at_line run.new.line self.new) run.new.turn }
        ensures continues { Continues M.does room.now.spec.now run.old.count memory.old (at_line run.old.line self.old) run.old.turn run.new.count memory.new (at_line run.new.line self.new) run.new.turn }
        ensures more { run.old.count ≤ run.new.count }
        ensures most { run.old.count ≤ most → run.new.count ≤ most }
    {
        if !run.is_at(Line::Values, 1, most) {
            return;
        }
        let row = self.take_values(room, most - run.count, memory);
        run.add(&row);
    }

    /// Takes up to `most` steps at the line of values, one at least. What they all ask of the room and of the snapshot
    /// is looked up once, and they are counted once.
    #[inline(always)]
    fn take_values<C, M: Memory<C>>(&mut self, room: &Room<'_, C>, most: u64, memory: &mut M) -> Run
        requires wants { Wants M.serves room.now.context.now room.now.spec.now memory.old (at_line Values self.old) Still }
        requires most { 0 < most }
        ensures wants { Wants M.serves room.now.context.now room.now.spec.now memory.new (at_line result.line self.new) result.turn }
        ensures continues { (count : ℕ) → Continues M.does room.now.spec.now count memory.old (at_line Values self.old) Still (count + result.count) memory.new (at_line result.line self.new) result.turn }
        ensures count { result.count ≤ most }
    {
        let shape = room.spec.shape();
        let last = self.snapshot.last_writes(room.spec);
        let mut count = 0;
        while count < most {
            let load = self.value_move_by(room.spec, &shape, &last);
            let value = memory.operate(room.context, load);
            self.add_value(&shape, &last, value);
            count += 1;
            if self.entries.len() >= shape.n {
                self.count_steps(count);
                let turn = self.conclude(room.spec);
                return Run {
                    count,
                    turn,
                    line: self.current_line(),
                };
            }
        }
        self.count_steps(count);
        Run {
            count,
            turn: Turn::Still,
            line: Line::Values,
        }
    }

    /// Ends the turn with the store of a decision, if that comes next.
    #[inline(always)]
    fn along_out<C, M: Memory<C>>(
        &mut self,
        room: &Room<'_, C>,
        most: u64,
        run: &mut Run,
        memory: &mut M,
    )
        requires wants { Wants M.serves room.now.context.now room.now.spec.now memory.old (at_line run.old.line self.old) run.old.turn }
        ensures wants { Wants M.serves room.now.context.now room.now.spec.now memory.new (at_line run.new.line self.new) run.new.turn }
        ensures continues { Continues M.does room.now.spec.now run.old.count memory.old (at_line run.old.line self.old) run.old.turn run.new.count memory.new (at_line run.new.line self.new) run.new.turn }
        ensures more { run.old.count ≤ run.new.count }
        ensures most { run.old.count ≤ most → run.new.count ≤ most }
    {
        let Line::Out { decision } = run.line else {
            return;
        };
        if !run.is_at(Line::Out { decision }, 1, most) {
            return;
        }
        let row = self.take_out(room, decision, memory);
        run.add(&row);
    }

    /// Takes the last step of a turn whose process has decided.
    #[inline(always)]
    fn take_out<C, M: Memory<C>>(
        &mut self,
        room: &Room<'_, C>,
        decision: u32,
        memory: &mut M,
    ) -> Run
        requires wants { Wants M.serves room.now.context.now room.now.spec.now memory.old (at_line (Out decision) self.old) Still }
        ensures wants { Wants M.serves room.now.context.now room.now.spec.now memory.new (at_line result.line self.new) result.turn }
        ensures continues { (count : ℕ) → Continues M.does room.now.spec.now count memory.old (at_line (Out decision) self.old) Still (count + 1) memory.new (at_line result.line self.new) result.turn }
        ensures count { result.count ≡ 1 }
    {
        let store = self.out_move(room.spec, decision);
        memory.operate(room.context, store);
        self.count_step();
        let turn = self.decide(decision);
        Run {
            count: 1,
            turn,
            line: self.current_line(),
        }
    }
}
