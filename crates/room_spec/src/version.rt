//! The versions of room blocks.

/// The version of a room block, as its first line says it.
#[derive(Clone, Copy, Debug, PartialEq, Eq)]
pub enum Version {
    /// `bgsim 1`: all step numbers of the room fit in 64 bits, one word.
    One,
    /// `bgsim 2`: they fit in 256 bits, up to four words, and the block may have a task.
    Two,
}

impl Version {
    ghost use Rattle.std.specs.Prelude.{◌≡◌};
    ghost use Rattle.room_spec.specs.Rooms.{most_bits};

    /// The most bits of the step numbers of all simulators.
    pub(crate) fn most_bits(self) -> usize
        ensures { result ≡ most_bits self }
    {
        match self {
            Version::One => 64,
            Version::Two => 256,
        }
    }
}
