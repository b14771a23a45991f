//! What the faults of a file say of the modes that read such files. Each law is what its function ensures.
ghost use Rattle.std.specs.Prelude.{◌≡◌, ◌↔◌, List, [], ℕ, Option, Ok, IsOk, false, true, is_some, option_map};
ghost use Rattle.std.specs.Str.{bytes_eq};
ghost use Rattle.room_spec.specs.Rooms.{RoomSpec};
ghost use Rattle.room_files.specs.Inputs.{all_blocks, input_says};
ghost use Rattle.room_files.specs.declared.outcome.Outcome.{Outcome as Ending};
ghost use Rattle.room_files.specs.declared.outcome.Outcome.TheVariants.{AllWell};
ghost use Rattle.script_play.specs.Play.{IsPlayFor, OpensNone, refusal_in};
ghost use Rattle.script_play.specs.Script.{script_says};
ghost use Rattle.service_core.specs.Replies.{OpenRoom, name_in, reply_to, room_after};
ghost use Rattle.service_core.specs.declared.command.Command.{Command};
ghost use Rattle.service_core.specs.declared.command.Command.TheVariants.{Begin};
ghost use Rattle.room_files.specs.declared.fault.TextFault.{TextFault};
ghost use Rattle.room_files.specs.declared.kinds.Kinds.TheVariants.{All};
ghost use Rattle.fault_text.specs.Refusals.{noted_refusal};
ghost use Rattle.fault_text.specs.Spots.{refusal_spot};
ghost use Rattle.fault_text.specs.UnknownNames.{MetNames};
ghost use Rattle.fault_text.specs.declared.refusals.RefusedBlock.{RefusedBlock};
ghost use Rattle.file_faults.specs.Events.{OpenedParts, event_said, event_spot};
ghost use Rattle.file_faults.specs.Files.{AreRoomFaults, AreTranscriptFaults, IsWhole, unread_said, unread_spot};
ghost use Rattle.file_faults.specs.Json.{IsHeaded};
ghost use Rattle.file_faults.specs.Scripts.{KnownRooms, entry_said, entry_spot, is_block_refused, script_faults};
ghost use Rattle.file_faults.specs.OpenRooms.{RoomsByName, refusal_of, rooms_after, rooms_begun, simulators_in, simulators_of};

/// If the rooms that are known from a script's lines are those of a service, a command of a line is refused exactly if the service refuses it, for the
/// same reason; and what is then known of the room of its name is so again.
pub fn refused_commands_are_found()
    ensures refusal { (rooms : RoomsByName) (room : Option OpenRoom) (command : Command) → OpensNone command →
        simulators_of (name_in command) rooms ≡ simulators_in room → refusal_of rooms command ≡ refusal_in (reply_to room command) }
    ensures after { (rooms : RoomsByName) (room : Option OpenRoom) (command : Command) → OpensNone command →
        simulators_of (name_in command) rooms ≡ simulators_in room → simulators_of (name_in command) (rooms_after rooms command) ≡ simulators_in (room_after room command) }
    ensures others { (rooms : RoomsByName) (command : Command) (name : List ℕ) → bytes_eq name (name_in command) ≡ false →
        simulators_of name (rooms_after rooms command) ≡ simulators_of name rooms }
{}

/// The same of a block: it opens no room exactly if the service refuses to, since a room of its name is open.
pub fn taken_names_are_found()
    ensures refusal { (rooms : RoomsByName) (room : Option OpenRoom) (spec : RoomSpec) →
        simulators_of spec.name rooms ≡ simulators_in room → is_some (simulators_of spec.name rooms) ≡ is_some (refusal_in (reply_to room (Begin spec))) }
    ensures after { (rooms : RoomsByName) (room : Option OpenRoom) (spec : RoomSpec) →
        simulators_of spec.name rooms ≡ simulators_in room → simulators_of spec.name (rooms_begun rooms spec) ≡ simulators_in (room_after room (Begin spec)) }
    ensures others { (rooms : RoomsByName) (spec : RoomSpec) (name : List ℕ) → bytes_eq name spec.name ≡ false →
        simulators_of name (rooms_begun rooms spec) ≡ simulators_of name rooms }
{}

/// Nothing is said of a script exactly if, whenever it is played with the memory that it needs, all is well: each of its lines is a command or belongs to
/// a block, no block is refused, and no command.
pub fn scripts_without_faults()
    ensures played { (script output : List ℕ) (outcome : Ending) → IsPlayFor All script (Ok outcome) output → (outcome ≡ AllWell) ↔ (script_faults script ≡ []) }
    ensures read { (script : List ℕ) → script_faults script ≡ [] → IsOk (script_says script) }
{}

/// Nothing is said of a file of rooms exactly if none of its blocks is refused.
pub fn rooms_without_faults()
    ensures { (input said : List ℕ) → AreRoomFaults input said → (said ≡ []) ↔ ((all_blocks All input).refused ≡ []) }
{}

/// Nothing is said of a transcript exactly if `bgsim check` can read it and refuses none of its blocks: it has a line `events`, and each line after that is an
/// event of one of its rooms.
pub fn transcripts_without_faults()
    ensures { (input said : List ℕ) → AreTranscriptFaults input said → (said ≡ []) ↔ IsWhole (input_says All input) }
{}

/// The line, the place and the sentence of an object are those of the text, which begins with them: after the line that a block is refused, if one is, with the
/// sentence after the number of the line, and with a caret below the place.
pub fn objects_say_what_the_text_says()
    ensures entries { (script : List ℕ) (known : KnownRooms) (number : ℕ) (text : List ℕ) → IsHeaded (is_block_refused text) (entry_spot known number text) (entry_said script known number text) }
    ensures events { (opened : OpenedParts) (unknown_names : MetNames) (number : ℕ) (text : List ℕ) → IsHeaded false (event_spot number text) (event_said opened unknown_names number text) }
    ensures refusals { (text : List ℕ) (refusal : RefusedBlock) → IsHeaded true (refusal_spot refusal.line text refusal.fault) (noted_refusal text refusal) }
    ensures unread { (line : ℕ) (fault : TextFault) → IsHeaded false (unread_spot line fault) (unread_said line fault) }
{}
