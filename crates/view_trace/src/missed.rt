//! Rooms that don't exist: blocks of a script that were refused, and names of commands that no room has.
ghost use Rattle.std.specs.Prelude.{◌≡◌, ◌++◌, [], IfOk, OnOk};
ghost use Rattle.fault_text.specs.UnknownNames.{is_met, met};
ghost use Rattle.script_play.specs.Play.{Faulty};
ghost use Rattle.view_trace.specs.Trace.{end_notes, missed_after, missed_refused, unknown_name_notes};

use fault_text::{Refusals, RefusedBlock, UnknownNames, write_indented};
use io_text::Text;
use room_files::BlockFault;
use room_spec::SpecFault;
use service_core::Refusal;
use std::alloc::{AllocError, Global};
use std::marker::Model;

/// What is said at the end of further commands with a name that no room has.
const MORE_COMMANDS: &[u8] = b" more commands have such a name";

/// The blocks that were refused so far, and the names of commands that no room has.
#[derive(Drop)]
pub(crate) struct Missed {
    refused: Refusals,
    unknown_names: UnknownNames,
}

impl Model for Missed {
    ghost use Rattle.view_trace.specs.Trace.{MissedRooms};

    ghost Value = { MissedRooms };

    ghost view = { λ missed. record { refused = missed.refused; unknown_names = missed.unknown_names } };
}

impl Missed {
    pub(crate) fn new(alloc: Global) -> Missed
        ensures { result ≡ record { refused = []; unknown_names = record { names = []; more = 0 } } }
    {
        Missed {
            refused: Refusals::new(alloc),
            unknown_names: UnknownNames::new(alloc),
        }
    }

    /// Keeps that the block with this first line was refused.
    pub(crate) fn refuse(&mut self, line: u64, fault: SpecFault) -> Result<(), AllocError>
        ensures { OnOk result (self.new ≡ missed_after self.old (Faulty line fault)) }
    {
        self.refused.add(RefusedBlock {
            line,
            fault: BlockFault::Spec(fault),
        })
    }

    /// Keeps that a command with this name was refused.
    pub(crate) fn keep(
        &mut self,
        alloc: Global,
        name: &[u8],
        refusal: Refusal,
    ) -> Result<(), AllocError>
        ensures { OnOk result (self.new ≡ missed_refused self.old name.now refusal) }
    {
        match refusal {
            Refusal::NoRoom => {
                self.meet(alloc, name)?;
                Ok(())
            }
            Refusal::NameTaken | Refusal::NoSimulator | Refusal::OutOfMemory => Ok(()),
        }
    }

    /// Writes under a command with a name that no room has, unless an earlier command has the same name, that there is none.
    pub(crate) fn write_unknown_name(
        &mut self,
        alloc: Global,
        output: &mut Text,
        name: &[u8],
    ) -> Result<(), AllocError>
        ensures text { OnOk result (output.new ≡ output.old ++ unknown_name_notes self.old name.now) }
        ensures met { OnOk result (self.new ≡ record self.old { unknown_names = met name.now self.old.unknown_names }) }
    {
        if self.meet(alloc, name)? {
            return Ok(());
        }
        write_indented(output, Refusal::NoRoom.sentence().as_bytes())
    }

    fn meet(&mut self, alloc: Global, name: &[u8]) -> Result<bool, AllocError>
        ensures before { IfOk result (λ before. before ≡ is_met name.now self.old.unknown_names) }
        ensures met { OnOk result (self.new ≡ record self.old { unknown_names = met name.now self.old.unknown_names }) }
    {
        self.unknown_names.meet(alloc, name)
    }

    /// Writes at the end of a script which of its blocks of such names were refused, and how many further commands have one of them.
    pub(crate) fn write_end(&self, output: &mut Text, script: &[u8]) -> Result<(), AllocError>
        ensures { OnOk result (output.new ≡ output.old ++ end_notes script.now self.now) }
    {
        self.unknown_names
            .write_refused(output, script, &self.refused)?;
        self.unknown_names.write_more(output, MORE_COMMANDS)
    }
}
