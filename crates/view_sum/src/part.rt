//! The sample of a room.
ghost use Rattle.std.specs.Prelude.{◌≡◌};
ghost use Rattle.std.specs.List.{sum_by};

use room_sample::Example;

/// How a room was sampled.
#[derive(Clone, Copy)]
pub struct How {
    /// In each schedule at most this many simulators crashed.
    pub crashes: u32,
    /// What the schedules were drawn from.
    pub seed: u32,
    /// The number of the first schedule.
    pub from: u32,
    /// Whether outcomes that differ only in which simulators hold processes are one.
    pub grouped: bool,
    /// Whether schedules are left out.
    pub brief: bool,
}

/// The sample of a room by schedules that follow each other.
#[derive(Drop)]
pub struct Part {
    /// The room.
    pub name: String,
    pub how: How,
    /// By how many schedules the room was run.
    pub schedules: u32,
    /// The most different values that any outcome has.
    pub decided: u32,
    /// The most held processes.
    pub held: u32,
    /// In how many schedules the room's task was broken, if it has one.
    pub broken: Option<u32>,
    /// The outcomes, in the order in which they are listed.
    pub outcomes: Vec<Example>,
    /// The number of the room's own line in its file.
    pub line: u64,
    /// Each schedule led to one of them.
    ghost total: { sum_by (λ one. one.times) outcomes.items ≡ schedules },
}
