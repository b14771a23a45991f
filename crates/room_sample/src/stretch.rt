//! The parts of schedules.

/// A part of a schedule.
#[derive(Clone, Copy)]
pub enum Stretch {
    /// This simulator takes this many atomic steps.
    Steps { simulator: u8, count: u16 },
    /// This simulator crashes.
    Crash { simulator: u8 },
}
