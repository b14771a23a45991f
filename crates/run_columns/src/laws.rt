//! Laws of columns, and of proposals.
ghost use Rattle.std.specs.Prelude.{◌≡◌, ◌≤◌, ◌<◌, ◌^◌, ℕ, true, List, length, map};
ghost use Rattle.std.specs.List.{sum_by};
ghost use Rattle.run_columns.specs.Columns.{AreNumbered, columns_by, columns_of, steps_in};
ghost use Rattle.run_columns.specs.declared.column.Scale.{Scale as ScaleData};
ghost use Rattle.run_columns.specs.Proposals.{fate_of, is_resolved};
ghost use Rattle.run_columns.specs.declared.mark.Mark.{Mark as MarkData};
ghost use Rattle.run_columns.specs.declared.proposals.Agreement.{Agreement as AgreementData};
ghost use Rattle.run_columns.specs.declared.proposals.Fate.TheVariants.{Chosen as ChosenOf};
ghost use Rattle.transcript.specs.declared.event.Event.{Event as EventData};

/// If there are at most 400 steps and crashes, each of them has a column of its own, in their order.
pub fn each_mark_has_a_column()
    ensures { (marks : List MarkData) → length marks ≤ 400 → map (λ column. column.first) (columns_of marks).columns ≡ marks }
{}

/// At each scale the numbers of steps in the columns add up to the number of all steps, and each column knows how many steps are before it.
pub fn each_step_is_counted()
    ensures numbered { (scale : ScaleData) (marks : List MarkData) → length marks < 2 ^ 63 → AreNumbered 0 (columns_by scale marks) }
    ensures counted { (scale : ScaleData) (marks : List MarkData) → length marks < 2 ^ 63 →
        sum_by (λ column. column.count) (columns_by scale marks) ≡ sum_by steps_in marks }
{}

/// Of the proposals in an agreement at most one is chosen, and none unless the agreement is resolved.
pub fn one_is_chosen()
    ensures one { (agreement : AgreementData) (i j : ℕ) (marks : List MarkData) (events : List EventData) →
        fate_of agreement i marks events ≡ ChosenOf → fate_of agreement j marks events ≡ ChosenOf → i ≡ j }
    ensures resolved { (agreement : AgreementData) (i : ℕ) (marks : List MarkData) (events : List EventData) →
        fate_of agreement i marks events ≡ ChosenOf → is_resolved agreement marks events ≡ true }
{}
