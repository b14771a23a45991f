//! Why samples are not added up.
ghost use Rattle.std.specs.Prelude.{◌≡◌};
ghost use Rattle.view_sum.specs.declared.fault.SumFault.TheVariants as faults;
ghost use Rattle.view_sum.specs.declared.fault.Stop.TheVariants as stops;

use std::alloc::AllocError;

/// What is wrong with a line, or with what a file says by there.
#[derive(Clone, Copy, Debug)]
pub enum Reason {
    /// The line is no JSON.
    Malformed,
    /// The line isn't what `sample --json` writes of an outcome or of a room.
    NotOfSample,
    /// The line is of another room than the outcomes before it.
    OtherRoom,
    /// It says that there are more outcomes, or fewer, than are listed: this many are.
    OtherCount { listed: u64 },
    /// The file ends within a line, or after outcomes of a room, before the room's own line.
    Unended,
    /// A room was sampled by more schedules than there are numbers.
    TooMany,
    /// The other file has another room at this place, or none.
    OtherRooms,
    /// It was sampled in another way than in the other file.
    OtherPlan(Member),
    /// A schedule is also in the other file: that of this number comes after those.
    Overlap { expected: u64 },
    /// Schedules are in no file: that of this number comes after those of the other file.
    Gap { expected: u64 },
}

/// What says in which way a room was sampled.
#[derive(Clone, Copy, Debug)]
pub enum Member {
    Crashes,
    Seed,
    Grouped,
    Schedule,
    Task,
}

/// A line of a file that can't be added up with the others.
#[derive(Clone, Copy, Debug)]
pub struct BadPart {
    /// The file's index, from 0.
    pub file: usize,
    /// The line, from 1.
    pub line: u64,
    /// The index of the file with which it is compared.
    pub other: usize,
    pub reason: Reason,
}

/// Why samples are not added up.
#[derive(Clone, Copy, Debug)]
pub enum SumFault {
    /// An allocation failed.
    Memory,
    /// A file can't be added up with the others.
    Bad(BadPart),
}

impl From<AllocError> for SumFault {
    ghost from_gives = { λ _ fault. fault ≡ faults.Memory };

    fn from(_refused: AllocError) -> SumFault {
        SumFault::Memory
    }
}

/// Why a line isn't read.
#[derive(Clone, Copy, Debug)]
pub(crate) enum Stop {
    /// An allocation failed.
    Memory,
    /// The line has this fault.
    Fault(Reason),
}

impl From<AllocError> for Stop {
    ghost from_gives = { λ _ stop. stop ≡ stops.Memory };

    fn from(_refused: AllocError) -> Stop {
        Stop::Memory
    }
}
