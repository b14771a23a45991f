//! Laws of what an input says. Each is what its function ensures.
ghost use Rattle.std.specs.Prelude.{ℕ, List};
ghost use Rattle.room_files.specs.Inputs.{input_says};
ghost use Rattle.room_files.specs.LineNumbers.{IsNumbered};
ghost use Rattle.room_files.specs.declared.kinds.Kinds.{Kinds};

/// The lines of an input are numbered from 1 on, over the whole input.
pub fn lines_are_numbered()
    // Each event and each refused block has the number of its line, and so has the first fault.
    ensures { (kinds : Kinds) (input : List ℕ) → IsNumbered kinds input (input_says kinds input) }
{}
