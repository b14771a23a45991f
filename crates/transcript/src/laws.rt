//! Laws of runs, for a crate that makes one. Each is what its function ensures.
ghost use Rattle.std.specs.Prelude.{◌↔◌, [], ◌∷◌, ◌++◌, ◌+◌, ◌≤◌, ℕ, List, length};
ghost use Rattle.std.specs.List.{Contains};
ghost use Rattle.room_spec.specs.Rooms.{IsCertified, RoomSpec};
ghost use Rattle.transcript.specs.Reductions.{IsRunByProcess, IsRunOf};
ghost use Rattle.transcript.specs.Runs.{IsEnabled, IsRun};
ghost use Rattle.transcript.specs.Tasks.{KeepsTask, decided_in, different};
ghost use Rattle.transcript.specs.declared.event.Event.{Event};

/// A run with one more event that may follow it is a run, and no event at all is one.
pub fn runs_grow()
    ensures begin { (spec : RoomSpec) → IsRun spec [] }
    ensures grow { (spec : RoomSpec) (events : List Event) (event : Event) →
        IsRun spec events → IsEnabled spec events event →
        IsRun spec (events ++ event ∷ []) }
{}

/// Chaudhuri's bound (1993): where each process waits until it sees all but f processes, and then decides the least value that it
/// sees, no run decides more than f + 1 different values, and each is an input. So a run keeps each task that allows as many.
pub fn few_are_decided()
    ensures inputs { (spec : RoomSpec) (f : ℕ) (events : List Event) →
        IsCertified spec f → IsRun spec events → (v : ℕ) → Contains (decided_in events) v →
        Contains spec.inputs v }
    ensures few { (spec : RoomSpec) (f : ℕ) (events : List Event) → IsCertified spec f → IsRun spec events → length (different (decided_in events)) ≤ f + 1 }
    ensures task { (spec : RoomSpec) (f most : ℕ) (events : List Event) → IsCertified spec f → IsRun spec events → f + 1 ≤ most → KeepsTask spec most events }
{}

/// Whether events are a run of a reduction is a question about each process by itself: whether it may have the own input of some
/// simulator. What a process does depends on no other's input, so no vector of inputs has to be found.
pub fn processes_are_judged_singly()
    ensures { (spec : RoomSpec) (events : List Event) → IsRunOf spec events ↔ IsRunByProcess spec events }
{}

/// In a run of a reduction by such a protocol no more than f + 1 different values are decided too, and each is a simulator's own input.
pub fn few_are_decided_of_own()
    ensures own { (spec : RoomSpec) (f : ℕ) (events : List Event) →
        IsCertified spec f → IsRunOf spec events → (v : ℕ) → Contains (decided_in events) v →
        Contains spec.own v }
    ensures few { (spec : RoomSpec) (f : ℕ) (events : List Event) → IsCertified spec f → IsRunOf spec events → length (different (decided_in events)) ≤ f + 1 }
{}
