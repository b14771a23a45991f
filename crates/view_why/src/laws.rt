//! Laws of what is read. Each is what its function ensures.
ghost use Rattle.std.specs.Prelude.{◌≡◌, ℕ, List, Ok};
ghost use Rattle.history_checker.specs.Verdicts.{FedEvent};
ghost use Rattle.room_files.specs.Blocks.{Setup};
ghost use Rattle.room_files.specs.Inputs.{input_says};
ghost use Rattle.room_files.specs.declared.kinds.Kinds.TheVariants.{Ordinary};
ghost use Rattle.view_why.specs.Why.{AreOrdinary};

/// No room that `check` reads is a reduction.
pub fn read_by_check()
    ensures { (input : List ℕ) (setup : Setup) (fed : List FedEvent) → input_says Ordinary input ≡ Ok (setup, fed) → AreOrdinary setup.rooms }
{}
