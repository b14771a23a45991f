//! What is kept of a room's spec.
ghost use Rattle.std.specs.Prelude.{◌≡◌, IfOk, true};
ghost use Rattle.room_spec.specs.Names.{is_name};

use protocol_lang::Protocol;
use room_spec::Spec;
use std::alloc::{AllocError, Global};
use std::marker::Model;
use std::snapshot::Snapshot;
use std::sync::Arc;

/// All that events are judged by: how often a process may write, and the protocol. In clauses it is the whole spec, which takes
/// no bytes.
#[derive(Drop)]
pub(crate) struct KeptSpec {
    rounds: u8,
    protocol: Arc<Protocol, Global>,
    whole: Snapshot<Spec>,
}

impl Model for KeptSpec {
    ghost use Rattle.std.specs.Prelude.{◌≡◌, true};
    ghost use Rattle.std.specs.Arc.{arc_value};
    ghost use Rattle.std.specs.Coded.{codes};
    ghost use Rattle.protocol_lang.specs.Codes.{expression_code};
    ghost use Rattle.room_spec.specs.Names.{is_name};
    ghost use Rattle.room_spec.specs.Rooms.{RoomSpec};

    ghost Value = { RoomSpec };

    ghost coded = { Prim.hlevel (codes, expression_code) };

    ghost view = { λ kept. kept.whole.value };

    ghost invariant = { λ kept. (is_name kept.whole.value.name ≡ true) ×
        (kept.rounds ≡ kept.whole.value.rounds) ×
        (arc_value kept.protocol ≡ kept.whole.value.protocol) };
}

impl KeptSpec {
    /// What is kept of a spec. Both share the protocol.
    pub(crate) fn of(spec: &Spec) -> Result<KeptSpec, AllocError>
        ensures { IfOk result (λ kept. kept ≡ spec.now) }
    {
        let _ = spec.name().as_str(); // for the proof: a room's name is a name
        Ok(KeptSpec {
            rounds: spec.rounds() as u8,
            protocol: spec.share_protocol()?,
            whole: Snapshot::of(spec),
        })
    }

    /// How often a process may write.
    pub(crate) fn rounds(&self) -> u8
        ensures value { result ≡ self.now.rounds }
        ensures named { is_name self.now.name ≡ true }
    {
        self.rounds
    }

    /// The protocol that the processes run.
    pub(crate) fn protocol(&self) -> &Protocol
        ensures { result.now ≡ self.now.protocol }
    {
        &self.protocol
    }
}
