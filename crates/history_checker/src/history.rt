//! The verdict on a whole history.
ghost use Rattle.std.specs.Prelude.{◌≡◌, ◌↔◌, ℕ, [], length, IsOk, Err, MatchResult};
ghost use Rattle.room_spec.specs.Rooms.{processes as process_count};
ghost use Rattle.transcript.specs.Runs.{IsRun, IsFirstBreak};
ghost use Rattle.history_checker.specs.Misfits.{IsMisfit};
ghost use Rattle.history_checker.specs.Processes.{Tracks};
ghost use Rattle.history_checker.specs.Reasons.{IsBreak};

use crate::process::{Process, Rule, follow};
use crate::reason::{Break, reason_of};
use room_spec::{MAX_PROCESSES, Spec};
use transcript::Event;

/// Whether the events are a run of the room's protocol on write-snapshot memory (update and scan
/// of Afek, Attiya, Dolev, Gafni, Merritt and Shavit 1993), and else the index, from 0, of the
/// first event that may not follow those before it. An event of a process that the room doesn't
/// have, and a snapshot without exactly one entry for each process, may follow nothing.
pub fn check(spec: &Spec, events: &[Event]) -> Result<(), usize>
    ensures run { IsOk result ↔ IsRun spec.now events.now }
    ensures first { (t : ℕ) → (result ≡ Err t) ↔ IsFirstBreak spec.now events.now t }
{
    let mut all = [Process::BLANK; MAX_PROCESSES];
    let processes = &mut all[..spec.n()];
    open(spec, processes);
    match follow_all(processes, spec, events) {
        Ok(()) => Ok(()),
        Err(misfit) => Err(misfit.at),
    }
}

/// The same as `check`, and why the event may not follow those before it. It takes no memory.
pub fn why(spec: &Spec, events: &[Event]) -> Result<(), Break>
    ensures run { IsOk result ↔ IsRun spec.now events.now }
    ensures first { (broken : Break) → (result ≡ Err broken) ↔ IsBreak spec.now events.now broken }
{
    let mut all = [Process::BLANK; MAX_PROCESSES];
    let processes = &mut all[..spec.n()];
    open(spec, processes);
    match follow_all(processes, spec, events) {
        Ok(()) => Ok(()),
        Err(misfit) => Err(misfit.explained(spec, processes, events)),
    }
}

/// Makes the processes those of the room before its first event.
pub fn open(spec: &Spec, processes: &mut [Process])
    requires { length processes.old ≡ process_count spec.now }
    ensures { Tracks spec.now processes.new [] }
{
    for (p, process) in processes.iter_mut().enumerate() {
        *process = Process::opening(spec, p);
    }
}

/// The first event that may not follow those before it: its index, from 0, and the rule that it breaks.
#[derive(Clone, Copy)]
struct Misfit {
    at: usize,
    rule: Rule,
}

/// Has the processes of the room, which have followed nothing yet, follow the events as far as they are a run.
fn follow_all(processes: &mut [Process], spec: &Spec, events: &[Event]) -> Result<(), Misfit>
    requires { Tracks spec.now processes.old [] }
    ensures { MatchResult result (λ done. IsRun spec.now events.now) (IsMisfit spec.now events.now processes.new) }
{
    let rounds = spec.rounds() as u8;
    for (at, event) in events.iter().enumerate() {
        if let Err(rule) = follow(processes, rounds, spec.protocol(), event) {
            return Err(Misfit { at, rule });
        }
    }
    Ok(())
}

impl Misfit {
    /// The break that it is, where the processes have followed the events before it.
    fn explained(self, spec: &Spec, processes: &[Process], events: &[Event]) -> Break
        requires { IsMisfit spec.now events.now processes.now self }
        ensures { IsBreak spec.now events.now result }
    {
        let before = &events[..self.at];
        let event = &events[self.at];
        Break {
            at: self.at,
            reason: reason_of(self.rule, spec, processes, before, event),
        }
    }
}
