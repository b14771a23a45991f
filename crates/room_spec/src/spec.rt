//! What a room is given when it is made.
ghost use Rattle.std.specs.Prelude.{◌≡◌, ◌==◌, ◌*◌, ◌<◌, ◌≤◌, Bool, IfOk, IfSome, true, length, slice_index, slice_get};
ghost use Rattle.std.specs.List.{list_all, list_any};
ghost use Rattle.room_spec.specs.Rooms.{IsShape, IsWithinLimits, bits_of, fuse_of, is_reduction, is_value, processes, with_inputs};
ghost use Rattle.room_spec.specs.Sizes.{memory_words};

use crate::name::Name;
use crate::version::Version;
use arrayvec::ArrayVec;
pub use protocol_lang::MAX_PROCESSES;
use protocol_lang::Protocol;
use std::alloc::{AllocError, Global};
use std::marker::Model;
use std::sync::Arc;

/// The most simulators of a room.
pub const MAX_SIMULATORS: usize = 8;

/// The most rounds of a room.
pub const MAX_ROUNDS: u16 = 15;

/// The most memory words of a room.
pub const MAX_MEMORY_WORDS: usize = 4;

/// The most turns of a simulator.
pub const MAX_TURNS: u16 = 65535;

/// The most different values that a task lets the processes decide.
pub const MAX_AGREED: usize = 16;

/// The numbers that a room's memory depends on: `m` simulators run `n` processes, which write at
/// most `rounds` times each, and a step number has `bits` binary digits. `n` is 1 to 16, `m` 1 to
/// 8, `rounds` 1 to 15, and `m * n * bits` at most 256.
#[derive(Clone, Copy, Debug, PartialEq, Eq)]
pub struct Shape {
    pub n: usize,
    pub m: usize,
    pub bits: usize,
    pub rounds: usize,
    /// How many memory words there are, found once for each room.
    words: usize,
    /// Whether the simulators agree on the inputs first.
    reduction: bool,
    pub ghost limits: { IsShape n m bits rounds },
    pub ghost counted: { words ≡ memory_words (record { n = n; m = m; bits = bits; rounds = rounds; reduction = reduction }) },
}

impl Shape {
    ghost use Rattle.room_spec.specs.Sizes.{fields_in_word};
    ghost use Rattle.room_spec.specs.Shapes.{sizes_of};

    /// How many step numbers a memory word holds: 64, 32, 21 or 16. None lies across two words.
    pub fn fields_in_word(&self) -> usize
        ensures value { result ≡ fields_in_word (sizes_of self.now) }
        ensures range { (16 ≤ result) × (result ≤ 64) }
    {
        match self.bits {
            1 => 64,
            2 => 32,
            3 => 21,
            _ => 16,
        }
    }

    /// How many memory words hold the step numbers of all simulators, 1 to 4.
    pub fn memory_words(&self) -> usize
        ensures value { result ≡ memory_words (sizes_of self.now) }
        ensures range { (1 ≤ result) × (result ≤ MAX_MEMORY_WORDS) }
    {
        self.words
    }

    /// Whether the simulators agree on the inputs of the processes first, in a round numbered 0.
    pub fn is_reduction(&self) -> bool
        ensures { result ≡ (sizes_of self.now).reduction }
    {
        self.reduction
    }
}

/// A room's name, inputs, numbers, task, fuses and protocol, within the limits of every room. In a reduction the simulators have
/// inputs of their own, and agree on those of the processes.
#[derive(Drop)]
pub struct Spec {
    // Fields lie in this order in memory. The small ones are side by side, since a spec is passed on by value.
    pub(crate) version: Version,
    pub(crate) simulators: u8,
    pub(crate) rounds: u8,
    /// How many memory words there are.
    pub(crate) words: u8,
    pub(crate) turns: u16,
    pub(crate) task: Option<u8>,
    pub(crate) name: Name,
    pub(crate) inputs: ArrayVec<u32, MAX_PROCESSES>,
    /// Empty in an ordinary room.
    pub(crate) own: ArrayVec<u32, MAX_SIMULATORS>,
    pub(crate) fuses: ArrayVec<(u8, u32), MAX_SIMULATORS>,
    pub(crate) protocol: Arc<Protocol, Global>,
}

impl Model for Spec {
    ghost use Rattle.std.specs.Prelude.{◌≡◌, length};
    ghost use Rattle.std.specs.Arc.{arc_value};
    ghost use Rattle.std.specs.Coded.{codes};
    ghost use Rattle.protocol_lang.specs.Codes.{expression_code};
    ghost use Rattle.room_spec.specs.Rooms.{RoomSpec, IsWithinLimits, bits_of, has_own};
    ghost use Rattle.room_spec.specs.Sizes.{memory_words};

    ghost Value = { RoomSpec };

    ghost coded = { Prim.hlevel (codes, expression_code) };

    ghost view = { λ s. record {
      version = s.version;
      name = s.name;
      inputs = s.inputs.items;
      own = s.own.items;
      simulators = s.simulators;
      rounds = s.rounds;
      turns = s.turns;
      task = s.task;
      fuses = s.fuses.items;
      protocol = arc_value s.protocol;
    } };

    ghost invariant = { λ s. IsWithinLimits
        (record {
          version = s.version;
          name = s.name;
          inputs = s.inputs.items;
          own = s.own.items;
          simulators = s.simulators;
          rounds = s.rounds;
          turns = s.turns;
          task = s.task;
          fuses = s.fuses.items;
          protocol = arc_value s.protocol;
        }) ×
        (s.words ≡ memory_words (record { n = length s.inputs.items; m = s.simulators; bits = bits_of s.rounds; rounds = s.rounds; reduction = has_own s.own.items })) };
}

/// Both share the protocol.
impl Clone for Spec {
    ghost is_clone = { λ spec copy. copy ≡ spec };

    fn clone(&self) -> Result<Spec, AllocError> {
        Ok(Spec {
            version: self.version,
            name: self.name.clone()?,
            inputs: self.inputs.clone()?,
            own: self.own.clone()?,
            simulators: self.simulators,
            rounds: self.rounds,
            turns: self.turns,
            task: self.task,
            fuses: self.fuses.clone()?,
            words: self.words,
            protocol: self.share_protocol()?,
        })
    }
}

impl Spec {
    ghost use Rattle.std.specs.Arc.{arc_value};
    ghost use Rattle.room_spec.specs.Sizes.{sizes_in};
    ghost use Rattle.room_spec.specs.Shapes.{sizes_of};

    /// The version of the room's block.
    pub fn version(&self) -> Version
        ensures { result ≡ self.now.version }
    {
        self.version
    }

    /// The room's name.
    pub fn name(&self) -> &Name
        ensures { result.now ≡ self.now.name }
    {
        &self.name
    }

    /// The number of processes, 1 to 16.
    pub fn n(&self) -> usize
        ensures value { result ≡ processes self.now }
        ensures range { (1 ≤ result) × (result ≤ MAX_PROCESSES) }
    {
        self.inputs.len()
    }

    /// The number of simulators, 1 to 8.
    pub fn m(&self) -> usize
        ensures value { result ≡ self.now.simulators }
        ensures range { (1 ≤ result) × (result ≤ MAX_SIMULATORS) }
    {
        usize::from(self.simulators)
    }

    /// How often a process may write, 1 to 15.
    pub fn rounds(&self) -> usize
        ensures value { result ≡ self.now.rounds }
        ensures range { (1 ≤ result) × (result ≤ MAX_ROUNDS) }
    {
        usize::from(self.rounds)
    }

    /// How many turns each simulator has, 1 to 65535.
    pub fn turns(&self) -> u64
        ensures value { result ≡ self.now.turns }
        ensures range { (1 ≤ result) × (result ≤ MAX_TURNS) }
    {
        u64::from(self.turns)
    }

    /// The input of process `j`.
    pub fn input(&self, j: usize) -> u32
        requires { j < processes self.now }
        ensures { result ≡ slice_index self.now.inputs j }
    {
        self.inputs[j]
    }

    /// Whether the simulators have inputs of their own, and agree on those of the processes.
    pub fn is_reduction(&self) -> bool
        ensures { result ≡ is_reduction self.now }
    {
        !self.own.is_empty()
    }

    /// The input of simulator `i` of its own, or `None` in an ordinary room.
    pub fn own(&self, i: usize) -> Option<u32>
        ensures { result ≡ slice_get self.now.own i }
    {
        self.own.as_slice().get(i).copied()
    }

    /// The ordinary room whose processes have these inputs, and which is otherwise the same. Of a reduction it is the room of the
    /// run in which these are agreed on. Both share the protocol.
    ///
    /// # Errors
    ///
    /// If more owners share the protocol than can be counted.
    pub fn with_inputs(&self, inputs: &[u32]) -> Result<Spec, AllocError>
        requires { length inputs.now ≡ processes self.now }
        ensures { IfOk result (λ spec. spec ≡ with_inputs self.now inputs.now) }
    {
        let room = self.clone()?;
        Ok(Spec {
            inputs: inputs_in(inputs),
            own: ArrayVec::new(),
            ..room
        })
    }

    /// Whether some process has this input.
    pub fn has_input(&self, value: u32) -> bool
        ensures { result ≡ list_any (λ input. input == value) self.now.inputs }
    {
        self.inputs.contains(&value)
    }

    /// How many different values the room's task lets the processes decide, 1 to 16, or `None` if it has no task.
    pub fn task(&self) -> Option<u8>
        ensures value { result ≡ self.now.task }
        ensures range { IfSome result (λ most. (1 ≤ most) × (most ≤ MAX_AGREED)) }
    {
        self.task
    }

    /// After how many steps simulator `i` crashes, up to 4294967295, or `None` if it has no fuse.
    pub fn fuse(&self, i: usize) -> Option<u32>
        requires { i < self.now.simulators }
        ensures { result ≡ fuse_of self.now.fuses i }
    {
        let fuse = self.fuses.iter().find(|fuse| usize::from(fuse.0) == i)?;
        Some(fuse.1)
    }

    /// The protocol that the processes run.
    pub fn protocol(&self) -> &Protocol
        ensures { result.now ≡ self.now.protocol }
    {
        &self.protocol
    }

    /// The protocol that the processes run, which the room and the caller share from now on.
    ///
    /// # Errors
    ///
    /// If more owners share it than can be counted.
    pub fn share_protocol(&self) -> Result<Arc<Protocol, Global>, AllocError>
        ensures { IfOk result (λ protocol. arc_value protocol ≡ self.now.protocol) }
    {
        match Arc::try_clone(&self.protocol) {
            Ok(protocol) => Ok(protocol),
            Err(_) => Err(AllocError),
        }
    }

    /// The numbers that the room's memory depends on.
    pub fn shape(&self) -> Shape
        ensures n { result.n ≡ processes self.now }
        ensures m { result.m ≡ self.now.simulators }
        ensures bits { result.bits ≡ bits_of self.now.rounds }
        ensures rounds { result.rounds ≡ self.now.rounds }
        ensures sizes { sizes_of result ≡ sizes_in self.now }
        ensures limits { IsWithinLimits self.now }
    {
        let rounds = usize::from(self.rounds);
        Shape {
            n: self.inputs.len(),
            m: usize::from(self.simulators),
            bits: bits(rounds),
            rounds,
            words: usize::from(self.words),
            reduction: self.is_reduction(),
        }
    }
}

/// The same inputs, which are at most as many as processes.
fn inputs_in(values: &[u32]) -> ArrayVec<u32, MAX_PROCESSES>
    requires { length values.now ≤ MAX_PROCESSES }
    ensures value { result.items ≡ values.now }
    ensures small { list_all is_value values.now ≡ true }
{
    let mut inputs = ArrayVec::new();
    for i in 0..values.len() {
        inputs.push(values[i]);
    }
    inputs
}

/// The binary digits of a step number, by the room's number of rounds.
pub(crate) fn bits(rounds: usize) -> usize
    ensures { result ≡ bits_of rounds }
{
    match rounds {
        0..2 => 1,
        2..4 => 2,
        4..8 => 3,
        _ => 4,
    }
}

/// How many memory words a room of `m` simulators, `n` processes and these rounds has, 1 to 4.
#[tactic(auto, unfolding(crate::specs::Sizes::memory_words))]
pub(crate) fn memory_words(m: usize, n: usize, rounds: usize) -> u8
    requires { IsShape n m (bits_of rounds) rounds }
    ensures { (reduction : Bool) → result ≡ memory_words (record { n = n; m = m; bits = bits_of rounds; rounds = rounds; reduction = reduction }) }
{
    let fields = 64 / bits(rounds);
    ((m * n + (fields - 1)) / fields) as u8
}
