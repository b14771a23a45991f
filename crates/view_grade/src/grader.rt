//! Keeps the last report of a script, with what simulators had decided and which inputs processes had.
ghost use Rattle.std.specs.Prelude.{◌≡◌, None, if◌then◌else◌};
ghost use Rattle.service_core.specs.Rooms.{room_at};
ghost use Rattle.view_grade.specs.Grades.{is_move_for, one_more, reported_in};

use crate::inputs::inputs_at;
use crate::reported::Reported;
use room_core::Unobserved;
use room_spec::{Spec, SpecFault};
use script_play::{Asked, Follows, Order, decisions_at};
use service_core::{Reply, Service};
use std::alloc::{AllocError, Global};

/// The last report of a script so far, and how many commands `step` and `crash` there were.
#[derive(Drop)]
pub(crate) struct Grader {
    pub(crate) last: Option<Reported>,
    pub(crate) moves: u64,
}

impl Grader {
    pub(crate) fn new() -> Grader
        ensures last { result.last ≡ None }
        ensures moves { result.moves ≡ 0 }
    {
        Grader {
            last: None,
            moves: 0,
        }
    }

    /// Counts a command, and keeps the reply to it if it is a report, with what the simulators of its room have decided and which inputs its processes have.
    pub(crate) fn note(&mut self, asked: &Asked<'_>, reply: Reply, rooms: &Service)
        ensures last { self.new.last ≡ reported_in (room_at rooms.now asked.now.name.now) self.old.last reply }
        ensures moves { self.new.moves ≡ if is_move_for asked.now.order then one_more self.old.moves else self.old.moves }
    {
        self.moves = moves_by(self.moves, asked.order);
        self.keep(reply, rooms, asked.name);
    }

    /// Keeps a reply to the room of this name if it is a report, with what the room's simulators have decided and which inputs its processes have.
    fn keep(&mut self, reply: Reply, rooms: &Service, name: &[u8])
        ensures last { self.new.last ≡ reported_in (room_at rooms.now name.now) self.old.last reply }
        ensures moves { self.new.moves ≡ self.old.moves }
    {
        match reply {
            Reply::Report(report) => {
                self.last = Some(Reported {
                    report,
                    decisions: decisions_at(rooms, name),
                    inputs: inputs_at(rooms, name),
                });
            }
            Reply::Begun
            | Reply::Steps { .. }
            | Reply::Crash(_)
            | Reply::Settled
            | Reply::Closed
            | Reply::Refused(_) => {}
        }
    }
}

impl Follows for Grader {
    ghost use Rattle.std.specs.Prelude.{◌≡◌};
    ghost use Rattle.view_grade.specs.Grades.{IsGradedBy};

    type Watch = Unobserved;

    ghost follows = { λ old rooms done left new. IsGradedBy (record { last = old.last; moves = old.moves }) rooms done left (record { last = new.last; moves = new.moves }) };

    ghost readies = { λ old rooms command new watch. (new.last ≡ old.last) × (new.moves ≡ old.moves) };

    fn opens(
        &mut self,
        _alloc: Global,
        _block: &[u8],
        _spec: &Spec,
    ) -> Result<Option<Unobserved>, AllocError> {
        Ok(None)
    }

    fn before(
        &mut self,
        _alloc: Global,
        _asked: &Asked<'_>,
        _rooms: &Service,
    ) -> Result<Option<Unobserved>, AllocError> {
        Ok(None)
    }

    fn after(
        &mut self,
        asked: &Asked<'_>,
        reply: Reply,
        _watch: &mut Option<Unobserved>,
        rooms: &Service,
    ) -> Result<(), AllocError> {
        self.note(asked, reply, rooms);
        Ok(())
    }

    fn refuse(&mut self, _line: u64, _fault: SpecFault) -> Result<(), AllocError> {
        Ok(())
    }

    fn out_of_memory(&mut self, _line: u64) -> Result<(), AllocError> {
        Ok(())
    }
}

/// How many commands `step` and `crash` there were with this one.
fn moves_by(moves: u64, order: Order) -> u64
    ensures { result ≡ if is_move_for order then one_more moves else moves }
{
    match order {
        Order::Step { .. } | Order::Crash(_) => moves.saturating_add(1),
        Order::Open | Order::Settle | Order::Report | Order::Close => moves,
    }
}
