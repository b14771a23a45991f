//! Where the results of rooms go.
ghost use Rattle.std.specs.Prelude.{◌≡◌};

use crate::rooms::RoomResult;
use room_core::RoomCore;
use std::alloc::{AllocError, Global};
use ws_history::report;

/// Gathers the results of rooms that were run to their end and settled, in their order. After an `Err`, which is an allocation that failed,
/// nothing is promised of what it has gathered.
pub trait Gathers: Drop {
    ghost use Rattle.std.specs.Prelude.{List, [], ◌∷◌, OnOk};
    ghost use Rattle.ws_history.specs.Reports.{IsReportIn};
    ghost use Rattle.ws_history.specs.declared.states.Report.{Report as ReportData};
    ghost use Rattle.scheduler.specs.Results.{Gathered, GathersMore};
    ghost use Rattle.scheduler.specs.declared.rooms.RoomResult.{RoomResult as ResultData};

    // These are all results that it has gathered, in order.
    ghost has_gathered: { Self → Gathered };

    /// One that has gathered nothing.
    fn none(alloc: Global) -> Self
        ensures { has_gathered result [] };

    /// Adds the result of a room: the room itself, and its report.
    fn add(&mut self, alloc: Global, core: RoomCore) -> Result<(), AllocError>
        ensures { OnOk result ((report : ReportData) × IsReportIn core report ×
            GathersMore (has_gathered self.old) (record { core = core; report = report } ∷ []) (has_gathered self.new)) };

    /// Adds the results that another one has gathered.
    fn add_all(&mut self, more: Self) -> Result<(), AllocError>
        ensures { OnOk result ((results : List ResultData) → has_gathered more results →
            GathersMore (has_gathered self.old) results (has_gathered self.new)) };
}

impl Gathers for Vec<RoomResult> {
    ghost use Rattle.std.specs.Prelude.{◌≡◌};

    ghost has_gathered = { λ all results. all.items ≡ results };

    fn none(alloc: Global) -> Vec<RoomResult> {
        Vec::new(alloc)
    }

    fn add(&mut self, alloc: Global, core: RoomCore) -> Result<(), AllocError> {
        let report = report(alloc, &core)?;
        self.push(RoomResult { core, report })?;
        Ok(())
    }

    fn add_all(&mut self, more: Vec<RoomResult>) -> Result<(), AllocError> {
        let mut more = more;
        self.append(&mut more)?;
        Ok(())
    }
}
