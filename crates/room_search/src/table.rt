//! The table of local states: each once, by numbers.
ghost use Rattle.std.specs.Prelude.{IfOk, OnOk};
ghost use Rattle.room_spec.specs.Rooms.{RoomSpec};
ghost use Rattle.room_search.specs.Nodes.{AreLocals, Grows, IsNumberOf};
ghost use Rattle.room_search.specs.Steps.{IsLocal};

use crate::local::Local;
use indexmap::IndexSet;
use run_search::SearchFault;

/// Local states. The number of a local state is its place.
pub type Table = IndexSet<Local>;

/// The number of a local state, which is added to the table if it isn't there.
///
/// # Errors
///
/// `TooManyNodes` if there are more than 2 ^ 32; `OutOfMemory` if an allocation fails.
pub fn numbered(table: &mut Table, local: Local) -> Result<u32, SearchFault>
    ensures there { IfOk result (IsNumberOf table.new.keys local) }
    ensures grown { OnOk result (Grows table.old.keys table.new.keys) }
    ensures known { OnOk result ((spec : RoomSpec) → IsLocal spec local → AreLocals spec table.old.keys → AreLocals spec table.new.keys) }
{
    let (index, _) = table.insert_full(local)?;
    match u32::try_from(index) {
        Ok(number) => Ok(number),
        Err(_) => Err(SearchFault::TooManyNodes),
    }
}

/// The number of a local state, if it is in the table.
pub fn number_of(table: &Table, local: &Local) -> Option<u32> {
    match table.get_index_of(local) {
        None => None,
        Some(index) => u32::try_from(index).ok(),
    }
}
