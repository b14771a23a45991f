//! Laws of what a sample says: of its scripts, and of tasks.
ghost use Rattle.std.specs.Prelude.{◌≡◌, ◌↔◌, ℕ, ◌<◌, ◌^◌, List, Ok, true, false, length};
ghost use Rattle.std.specs.List.{sum_by};
ghost use Rattle.room_files.specs.Kinds.{block_of};
ghost use Rattle.room_files.specs.declared.kinds.Kinds.TheVariants.{All};
ghost use Rattle.room_spec.specs.Rooms.{IsWithinLimits, RoomSpec, is_reduction};
ghost use Rattle.transcript.specs.Tasks.{KeepsOwnTask};
ghost use Rattle.room_core.specs.Calls.{RoomState};
ghost use Rattle.room_core.specs.Fields.{Fields};
ghost use Rattle.room_core.specs.Reading.{AreFieldsOf};
ghost use Rattle.ws_history.specs.Reports.{states_of};
ghost use Rattle.ws_history.specs.Sources.{history_of};
ghost use Rattle.ws_history.specs.declared.states.ProcessState.{ProcessState};
ghost use Rattle.room_sample.specs.Groups.{are_alike, grouped};
ghost use Rattle.room_sample.specs.Samples.{Counted};
ghost use Rattle.room_sample.specs.Schedules.{IsOutcome};
ghost use Rattle.room_sample.specs.declared.stretch.Stretch.{Stretch};
ghost use Rattle.view_sample.specs.Leads.{LeadsTo};
ghost use Rattle.view_sample.specs.Counts.{held_in, values_in};
ghost use Rattle.view_sample.specs.Tasks.{judged_room, keeps_task, times_broken};
ghost use Rattle.view_sample.specs.Texts.{script_text};

/// The script of an outcome leads to it: `play` replies that the room takes each step and crash of the schedule, and then reports these
/// states.
pub fn leading_scripts()
    ensures { (spec : RoomSpec) (crashes : ℕ) (block : List ℕ) (schedule : List Stretch) (states : List ProcessState) →
        IsWithinLimits spec → block_of All block ≡ Ok (spec, length block) → IsOutcome spec crashes schedule states →
        LeadsTo block spec.name schedule states (script_text spec.name block schedule) }
{}

/// The states of a room's processes keep its task exactly if its history does; a reduction's task is judged by its simulators' inputs. So a sample says of a schedule that it broke the task exactly if
/// its history breaks it; `bgsim check` says the same of the history of an ordinary room.
pub fn kept_tasks()
    ensures judged { (room : RoomState) (fields : Fields) → IsWithinLimits room.spec → AreFieldsOf room fields →
        (keeps_task room.spec (states_of room.spec fields) ≡ true) ↔ KeepsOwnTask (judged_room room.spec) (history_of room.spec fields) }
    ensures ordinary { (room : RoomState) (fields : Fields) → IsWithinLimits room.spec → AreFieldsOf room fields → is_reduction room.spec ≡ false →
        (keeps_task room.spec (states_of room.spec fields) ≡ true) ↔ KeepsOwnTask room.spec (history_of room.spec fields) }
{}

/// Outcomes of one group decide as many different values, hold as many processes, and keep or break a task alike. So in groups, as many schedules
/// broke a room's task as without them.
pub fn grouped_tasks()
    ensures alike { (spec : RoomSpec) (one other : Counted) → are_alike one other ≡ true →
        (values_in one.states ≡ values_in other.states) × (held_in one.states ≡ held_in other.states) × (keeps_task spec one.states ≡ keeps_task spec other.states) }
    ensures broken { (spec : RoomSpec) (outcomes : List Counted) → sum_by (λ one. one.times) outcomes < 2 ^ 32 →
        times_broken spec (grouped outcomes) ≡ times_broken spec outcomes }
{}
