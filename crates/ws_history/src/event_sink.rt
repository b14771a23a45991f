//! Where the events of a history go.
ghost use Rattle.std.specs.Prelude.{◌≡◌};

use protocol_lang::View;
use room_spec::MAX_PROCESSES;
use std::alloc::AllocError;
use transcript::Event;

/// Takes the events of a history, one after the other. After an `Err`, which is an allocation that failed, nothing is promised of what it has
/// taken.
pub trait EventSink {
    ghost use Rattle.std.specs.Prelude.{◌<◌, ◌≤◌, [], ◌∷◌, OnOk, length};
    ghost use Rattle.protocol_lang.specs.declared.meaning.TheConstants.{MAX_PROCESSES};
    ghost use Rattle.transcript.specs.declared.event.Event.TheVariants.{Decide, Snap, Write};
    ghost use Rattle.ws_history.specs.Taking.{Keeps, TakesMore};

    // Under this name these are all events that it has taken, in order. The name stays as it is.
    ghost has_taken: { Self → Keeps };

    /// Takes a write of this value by process `p`.
    fn write(&mut self, p: u8, v: u32) -> Result<(), AllocError>
        requires { p < MAX_PROCESSES }
        ensures { OnOk result (TakesMore (has_taken self.old) (Write p v ∷ []) (has_taken self.new)) };

    /// Takes a snapshot of process `p` that shows this row.
    fn snap(&mut self, p: u8, row: &[Option<u32>]) -> Result<(), AllocError>
        requires { length row.now ≤ MAX_PROCESSES }
        ensures { OnOk result (TakesMore (has_taken self.old) (Snap p (record { items = row.now }) ∷ []) (has_taken self.new)) };

    /// Takes the decision of process `p` for this value.
    fn decide(&mut self, p: u8, v: u32) -> Result<(), AllocError>
        ensures { OnOk result (TakesMore (has_taken self.old) (Decide p v ∷ []) (has_taken self.new)) };
}

impl EventSink for Vec<Event> {
    ghost use Rattle.std.specs.Prelude.{◌≡◌};

    ghost has_taken = { λ events name taken. events.items ≡ taken };

    fn write(&mut self, p: u8, v: u32) -> Result<(), AllocError> {
        self.push(Event::Write { p, v })?;
        Ok(())
    }

    fn snap(&mut self, p: u8, row: &[Option<u32>]) -> Result<(), AllocError> {
        let Ok(row) = View::try_from(row) else {
            unreachable!() // a row isn't longer than `MAX_PROCESSES`
        };
        self.push(Event::Snap { p, row })?;
        Ok(())
    }

    fn decide(&mut self, p: u8, v: u32) -> Result<(), AllocError> {
        self.push(Event::Decide { p, v })?;
        Ok(())
    }
}
