//! Laws of rooms that commands lead on.
ghost use Rattle.std.specs.Prelude.{List, ◌≡◌, ◌++◌, Some};
ghost use Rattle.room_core.specs.Calls.{RoomState, configuration_of};
ghost use Rattle.room_core.specs.Rooms.{ScheduleEvent};
ghost use Rattle.room_core.specs.Observing.{AreSeen};
ghost use Rattle.ws_history.specs.Notes.{AreNotesOf, IsNoted, Notes};
ghost use Rattle.service_core.specs.declared.command.Command.{Command as CommandData};
ghost use Rattle.service_core.specs.Rooms.{events_by, room_left, steps_of};

/// Notes that a [`Points`](ws_history::Points) takes of a room stay notes of its schedule by each command that leaves the room open, and whose steps it saw.
pub fn notes_go_on()
    ensures { (room after : RoomState) (command : CommandData) (schedule : List ScheduleEvent) (old new : Notes) →
        AreNotesOf (configuration_of room) schedule old → AreSeen IsNoted old (steps_of (Some room) command) new →
        room_left room command ≡ Some after →
        AreNotesOf (configuration_of after) (schedule ++ events_by room command) new }
{}
