//! What a report says.
ghost use Rattle.std.specs.Prelude.{◌≡◌};

use arrayvec::ArrayVec;
use room_spec::{MAX_PROCESSES, MAX_SIMULATORS};
use std::marker::Model;
use transcript::Event;

/// The state of a process.
#[derive(Clone, Copy, Debug, PartialEq, Eq, Hash)]
pub enum ProcessState {
    /// It has decided this value.
    Decided(u32),
    /// It is out of rounds: its last snapshot asks for a write more than the room gives it.
    Spent,
    /// It is blocked: this simulator, the least such, has crashed in the unsafe section of an agreement on one of its snapshots.
    Held(u8),
    /// It is none of these.
    Going,
}

impl Default for ProcessState {
    ghost use Rattle.ws_history.specs.declared.states.ProcessState.TheVariants.{Going};

    ghost is_default = { λ state. state ≡ Going };

    fn default() -> ProcessState {
        ProcessState::Going
    }
}

/// What the processes of a room have done, in order.
#[derive(Drop)]
pub struct History {
    events: Vec<Event>,
}

impl Model for History {
    ghost use Rattle.std.specs.Prelude.{List};
    ghost use Rattle.transcript.specs.declared.event.Event.{Event};

    ghost Value = { List Event };

    ghost view = { λ h. h.events.items };
}

impl History {
    /// The history of these events.
    pub fn new(events: Vec<Event>) -> History
        ensures { result ≡ events.items }
    {
        History { events }
    }

    /// Its events, in order.
    pub fn events(&self) -> &[Event]
        ensures { result.now ≡ self.now }
    {
        self.events.as_slice()
    }
}

/// The state of each process of a room, in order of their numbers; which simulators have crashed,
/// rising; and what the processes have done.
#[derive(Drop)]
pub struct Report {
    pub states: ArrayVec<ProcessState, MAX_PROCESSES>,
    pub crashed: ArrayVec<u8, MAX_SIMULATORS>,
    pub history: History,
}

/// What the report of a room says besides its history: the state of each process, in order of their
/// numbers; and which simulators have crashed, rising.
#[derive(Drop)]
pub struct Standing {
    pub states: ArrayVec<ProcessState, MAX_PROCESSES>,
    pub crashed: ArrayVec<u8, MAX_SIMULATORS>,
}
