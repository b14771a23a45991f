//! Laws of the layout.
ghost use Rattle.std.specs.Prelude.{◌≡◌, ◌<◌, ◌≤◌, ◌⊎◌, ◌++◌, ◌∷◌, [], false, ℕ, List, length};
ghost use Rattle.std.specs.List.{list_any};
ghost use Rattle.run_columns.specs.Columns.{columns_of};
ghost use Rattle.run_columns.specs.declared.mark.StepKind.TheVariants.{Enter as EnterStepKind};
ghost use Rattle.run_columns.specs.declared.mark.Mark.{Mark as MarkData};
ghost use Rattle.run_columns.specs.declared.mark.Mark.TheVariants.{Step as StepOf};
ghost use Rattle.run_columns.specs.declared.mark.Step.{Step as StepData};
ghost use Rattle.simulator_lanes.specs.Lanes.{lane_insides};
ghost use Rattle.simulator_lanes.specs.Unsafe.{IsHatchedAt, hatch, passes};
ghost use Rattle.simulator_lanes.specs.Layout.{AreApart, IsWithin, across, cell, right_of, row_y, rows};
ghost use Rattle.simulator_lanes.specs.declared.layout.Grid.{Grid as GridData};

/// No two squares overlap: two columns, or two lanes, are apart by at least the sizes of a column in a lane.
pub fn squares_are_apart()
    ensures { (grid : GridData) (i j place other : ℕ) → i < grid.simulators → j < grid.simulators → (i ≡ j → place ≡ other → ⊥) →
        AreApart (cell grid i place) (cell grid j other) (across grid.scale 1) 58 }
{}

/// No square is outside the lanes of its room: each column in a lane ends before the right end of all columns and before the lower end of all rows, which the sizes of the
/// room's picture are made from.
pub fn squares_are_inside()
    ensures { (grid : GridData) (i place : ℕ) → i < grid.simulators → place < grid.count →
        IsWithin (cell grid i place) (across grid.scale 1) 58 (right_of grid) (row_y grid (rows grid)) }
{}

/// A lane is hatched in the column of a step or crash exactly if its simulator is in the unsafe section of an agreement before or after that; it is paler after the
/// simulator's crash there.
pub fn hatched_in_the_unsafe_section()
    ensures none { (grid : GridData) (simulator : ℕ) → lane_insides grid (columns_of []).columns simulator ≡ [] }
    ensures one_more { (grid : GridData) (simulator : ℕ) (before : List MarkData) (mark : MarkData) → length before < 400 →
        lane_insides grid (columns_of (before ++ mark ∷ [])).columns simulator ≡ lane_insides grid (columns_of before).columns simulator ++ hatch grid simulator before mark }
{}

/// If a simulator enters an agreement, and neither leaves it nor enters another, its lane is hatched from the column of that step on to the last column.
pub fn hatched_to_the_end()
    ensures { (grid : GridData) (simulator : ℕ) (before since : List MarkData) (entry : StepData) →
        entry.kind ≡ EnterStepKind → entry.simulator ≡ simulator → list_any (passes simulator) since ≡ false → length (before ++ StepOf entry ∷ since) ≤ 400 →
        (place : ℕ) → length before ≤ place → place < length (before ++ StepOf entry ∷ since) → IsHatchedAt grid (before ++ StepOf entry ∷ since) simulator place }
{}
