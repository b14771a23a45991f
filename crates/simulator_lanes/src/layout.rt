//! Where the columns and the lanes of a room are.
ghost use Rattle.std.specs.Prelude.{◌≡◌, ◌+◌, ◌*◌, ◌≤◌, ◌<◌, ◌^◌};
ghost use Rattle.simulator_lanes.specs.Layout.{across, cell, column_x, columns_in, dashes_for, in_row, lane_y, process_y, right_of, row_height, row_of, row_right, row_y, rows};

use picture_shapes::{Dashes, Point};
use run_columns::Scale;

/// How far to the left all words begin.
pub const MARGIN: u64 = 16;

/// Where the first column of a row begins.
pub const LEFT: u64 = 120;

/// Where the first row begins.
pub(crate) const TOP: u64 = 32;

/// How high the lane of a simulator is.
pub(crate) const LANE: u64 = 58;

/// How high the lane of a process is.
pub(crate) const PROCESS: u64 = 36;

/// The columns of a room in rows, one below the other. In each row each simulator and each process has a lane.
#[derive(Clone, Copy)]
pub struct Grid {
    pub scale: Scale,
    /// How many columns a row has at most.
    pub wrap: u16,
    /// How many columns there are.
    pub count: u16,
    pub simulators: u8,
    pub processes: u8,
}

/// How wide a number of columns is.
pub(crate) fn across(scale: Scale, columns: u64) -> u64
    requires { columns ≤ 65535 }
    ensures value { result ≡ across scale columns }
    ensures range { result ≤ 40 * 65535 }
{
    match scale {
        Scale::Steps => 16 * columns,
        Scale::Turns | Scale::Simulators => 40 * columns,
    }
}

impl Grid {
    fn in_row(self) -> u64
        ensures value { result ≡ in_row self }
        ensures range { (1 ≤ result) × (result ≤ 65535) }
    {
        u64::from(self.wrap).max(1)
    }

    /// The row of the column at a place.
    #[tactic(auto, unfolding(crate::specs::Layout::row_of))]
    pub fn row(self, place: u64) -> u64
        ensures value { result ≡ row_of self place }
        ensures range { result ≤ place }
    {
        place / self.in_row()
    }

    /// How many rows there are.
    #[tactic(auto, unfolding(crate::specs::Layout::rows))]
    pub fn rows(self) -> u64
        ensures value { result ≡ rows self }
        ensures range { result ≤ 2 * 65535 }
    {
        let last = u64::from(self.count) + self.in_row() - 1;
        self.row(last).max(1)
    }

    #[tactic(auto, unfolding(crate::specs::Layout::columns_in))]
    fn columns_in(self, row: u64) -> u64
        ensures value { result ≡ columns_in self row }
        ensures range { result ≤ 65535 }
    {
        let count = u64::from(self.count);
        let whole = self.row(count);
        if row < whole {
            self.in_row()
        } else if row == whole {
            count % self.in_row()
        } else {
            0
        }
    }

    #[tactic(auto, unfolding(crate::specs::Layout::row_height))]
    fn row_height(self) -> u64
        ensures value { result ≡ row_height self }
        ensures range { result ≤ 25000 }
    {
        LANE * u64::from(self.simulators) + (PROCESS * u64::from(self.processes) + 50)
    }

    /// The upper end of a row.
    #[tactic(auto, unfolding(crate::specs::Layout::row_y))]
    pub fn row_y(self, row: u64) -> u64
        requires { row ≤ 2 * 65535 }
        ensures value { result ≡ row_y self row }
        ensures range { result ≤ 32 + 2 * 65535 * 25000 }
    {
        TOP + row * self.row_height()
    }

    /// The right end of a row's columns.
    #[tactic(auto, unfolding(crate::specs::Layout::row_right))]
    pub fn row_right(self, row: u64) -> u64
        ensures value { result ≡ row_right self row }
        ensures range { result ≤ 120 + 40 * 65535 }
    {
        LEFT + across(self.scale, self.columns_in(row))
    }

    /// The right end of all columns.
    #[tactic(auto, unfolding(crate::specs::Layout::right_of))]
    pub fn right(self) -> u64
        ensures value { result ≡ right_of self }
        ensures range { result ≤ 120 + 40 * 65535 }
    {
        LEFT + across(self.scale, u64::from(self.count).min(self.in_row()))
    }

    /// The left end of the column at a place.
    #[tactic(auto, unfolding(crate::specs::Layout::column_x))]
    pub fn column_x(self, place: u64) -> u64
        ensures value { result ≡ column_x self place }
        ensures range { result ≤ 120 + 40 * 65535 }
    {
        LEFT + across(self.scale, place % self.in_row())
    }

    /// The upper end of a simulator's lane in a row.
    #[tactic(auto, unfolding(crate::specs::Layout::lane_y))]
    pub fn lane_y(self, row: u64, simulator: u8) -> u64
        requires { row ≤ 2 * 65535 }
        ensures { result ≡ lane_y self row simulator }
    {
        self.row_y(row) + LANE * u64::from(simulator)
    }

    /// The upper end of a process's lane in a row.
    #[tactic(auto, unfolding(crate::specs::Layout::process_y))]
    pub fn process_y(self, row: u64, process: u8) -> u64
        requires { row ≤ 2 * 65535 }
        ensures { result ≡ process_y self row process }
    {
        self.row_y(row) + (LANE * u64::from(self.simulators) + (PROCESS * u64::from(process) + 26))
    }

    /// The left and upper end of a column in a simulator's lane.
    #[tactic(auto, unfolding(crate::specs::Layout::cell))]
    pub fn cell(self, simulator: u8, place: u16) -> Point
        ensures { result ≡ cell self simulator place }
    {
        let place = u64::from(place);
        Point {
            x: self.column_x(place),
            y: self.lane_y(self.row(place), simulator),
        }
    }
}

/// How the outlines of a process's squares and events are drawn: two processes with the same hue differ in it.
pub fn dashes_for(process: u8) -> Dashes
    ensures { result ≡ dashes_for process }
{
    if process >= 8 {
        Dashes::Short
    } else {
        Dashes::Solid
    }
}
