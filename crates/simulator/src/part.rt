//! The operations of a turn on the words of one agreement.
ghost use Rattle.std.specs.Prelude.{◌≡◌, ◌^◌, ◌*◌, ◌<◌, true};
ghost use Rattle.room_spec.specs.Shapes.{sizes_of};
ghost use Rattle.room_spec.specs.Sizes.{memory_words};
ghost use Rattle.room_spec.specs.declared.spec.TheConstants.{MAX_SIMULATORS};
ghost use Rattle.sim_memory.specs.Steps.{place_of, word_of};
ghost use Rattle.view_table.specs.Places.{IsProcess, IsRound, IsSimulator, index_of};
ghost use Rattle.view_table.specs.declared.place.Place.TheVariants as places;
ghost use Rattle.simulator.specs.declared.operation.Move.TheVariants as moves;
ghost use Rattle.simulator.specs.Moves.{leave_by};

use crate::operation::Move;
use level_cells::one_at;
use room_spec::Shape;
use sim_memory::place;
use view_table::{Place, index, later_levels, later_value};

/// The part that a simulator has in the agreement on a process's snapshot of a round. These numbers are the same for all
/// lines of a turn. The round is never 0, that of the agreement on the process's input: so no operation tests for it, and an
/// ordinary room pays nothing for reductions.
#[derive(Clone, Copy)]
pub(crate) struct Part {
    pub(crate) shape: Shape,
    pub(crate) simulator: usize,
    pub(crate) process: usize,
    pub(crate) round: usize,
    pub(crate) ghost within: { IsSimulator (sizes_of shape) simulator × IsProcess (sizes_of shape) process × IsRound (sizes_of shape) round },
}

impl Part {
    /// Stores the process's write of this round.
    #[inline(always)]
    pub(crate) fn write(&self, value: u32) -> Move
        ensures { result ≡ moves.Store (index_of (sizes_of self.now.shape) (places.Value self.now.simulator self.now.process self.now.round)) value }
    {
        let index = later_value(&self.shape, self.simulator, self.process, self.round);
        Move::Store(index, u64::from(value))
    }

    /// Adds one to its own step number of the process.
    #[inline(always)]
    pub(crate) fn raise(&self) -> Move
        ensures { result ≡ moves.Add (index_of (sizes_of self.now.shape) (places.Memory (word_of (sizes_of self.now.shape) self.now.simulator self.now.process)))
            (2 ^ place_of (sizes_of self.now.shape) self.now.simulator self.now.process) }
    {
        let (word, at) = place(&self.shape, self.simulator, self.process);
        Move::Add(index(&self.shape, Place::Memory { word }), one_at(at))
    }

    /// Loads a word of the step numbers.
    #[inline(always)]
    pub(crate) fn snap(&self, word: usize) -> Move
        requires { word < memory_words (sizes_of self.now.shape) }
        ensures { result ≡ moves.Load (index_of (sizes_of self.now.shape) (places.Memory word)) }
    {
        Move::Load(index(&self.shape, Place::Memory { word }))
    }

    /// Stores a word of its proposal.
    #[inline(always)]
    pub(crate) fn show(&self, word: usize, content: u64) -> Move
        requires { word < memory_words (sizes_of self.now.shape) }
        ensures { result ≡ moves.Store (index_of (sizes_of self.now.shape) (places.View self.now.simulator self.now.process self.now.round word)) content }
    {
        Move::Store(self.view(self.simulator, word), content)
    }

    /// Enters the agreement.
    #[inline(always)]
    pub(crate) fn enter(&self) -> Move
        ensures { result ≡ moves.Add (index_of (sizes_of self.now.shape) (places.Levels self.now.process self.now.round)) (2 ^ (2 * self.now.simulator)) }
    {
        enter_at(self.levels(), self.simulator)
    }

    /// Loads the levels of the agreement.
    #[inline(always)]
    pub(crate) fn look(&self) -> Move
        ensures { result ≡ moves.Load (index_of (sizes_of self.now.shape) (places.Levels self.now.process self.now.round)) }
    {
        Move::Load(self.levels())
    }

    /// Leaves the agreement: to level 0 if it saw a level 2, and else to level 2.
    #[inline(always)]
    pub(crate) fn leave(&self, saw_two: bool) -> Move
        ensures { result ≡ leave_by saw_two (index_of (sizes_of self.now.shape) (places.Levels self.now.process self.now.round)) (2 ^ (2 * self.now.simulator)) }
    {
        leave_at(self.levels(), self.simulator, saw_two)
    }

    /// Loads a word of the proposal of a simulator.
    #[inline(always)]
    pub(crate) fn get_view(&self, simulator: usize, word: usize) -> Move
        requires simulator { simulator < self.now.shape.m }
        requires word { word < memory_words (sizes_of self.now.shape) }
        ensures { result ≡ moves.Load (index_of (sizes_of self.now.shape) (places.View simulator self.now.process self.now.round word)) }
    {
        Move::Load(self.view(simulator, word))
    }

    #[inline(always)]
    fn levels(&self) -> usize
        ensures { result ≡ index_of (sizes_of self.now.shape) (places.Levels self.now.process self.now.round) }
    {
        later_levels(&self.shape, self.process, self.round)
    }

    #[inline(always)]
    fn view(&self, simulator: usize, word: usize) -> usize
        requires simulator { simulator < self.now.shape.m }
        requires word { word < memory_words (sizes_of self.now.shape) }
        ensures { result ≡ index_of (sizes_of self.now.shape) (places.View simulator self.now.process self.now.round word) }
    {
        let view = Place::View {
            simulator,
            process: self.process,
            round: self.round,
            word,
        };
        index(&self.shape, view)
    }
}

/// A simulator enters the agreement whose levels have this index.
#[inline(always)]
pub(crate) fn enter_at(levels: usize, simulator: usize) -> Move
    requires { simulator < MAX_SIMULATORS }
    ensures { result ≡ moves.Add levels (2 ^ (2 * simulator)) }
{
    Move::Add(levels, unit(simulator))
}

/// It leaves that agreement: to level 0 if it saw a level 2, and else to level 2.
#[inline(always)]
pub(crate) fn leave_at(levels: usize, simulator: usize, saw_two: bool) -> Move
    requires { simulator < MAX_SIMULATORS }
    ensures { result ≡ leave_by saw_two levels (2 ^ (2 * simulator)) }
{
    if saw_two {
        Move::Sub(levels, unit(simulator))
    } else {
        Move::Add(levels, unit(simulator))
    }
}

/// One at the lowest bit of a simulator's level.
#[inline(always)]
fn unit(simulator: usize) -> u64
    requires { simulator < MAX_SIMULATORS }
    ensures { result ≡ 2 ^ (2 * simulator) }
{
    one_at(2 * simulator)
}
