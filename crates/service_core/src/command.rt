//! What a service is asked for.
ghost use Rattle.std.specs.Prelude.{◌≡◌};
ghost use Rattle.service_core.specs.Replies.{name_in};

use room_spec::{Name, Spec};

/// A command to the room of one name. A [`Begin`](Command::Begin) names the room of its spec.
#[derive(Drop)]
pub enum Command {
    /// Opens a room, in which no simulator has taken a step.
    Begin(Spec),
    /// Lets simulator `sim` take atomic steps, until it has taken `count` or one is not taken.
    Step { name: Name, sim: u8, count: u16 },
    /// Crashes simulator `sim`.
    Crash { name: Name, sim: u8 },
    /// Lets each open turn end, and then each simulator run alone until it is idle or out of turns.
    Settle(Name),
    /// Asks for the room's report.
    Report(Name),
    /// Closes the room. From then on its name is free.
    Close(Name),
}

impl Command {
    /// The name of the room that it is for.
    pub fn name(&self) -> &Name
        ensures { result.now ≡ name_in self.now }
    {
        match self {
            Command::Begin(spec) => spec.name(),
            Command::Step { name, .. } => name,
            Command::Crash { name, .. } => name,
            Command::Settle(name) => name,
            Command::Report(name) => name,
            Command::Close(name) => name,
        }
    }
}
