//! The outcomes of a room, in the order in which they are written.
ghost use Rattle.std.specs.Prelude.{◌≡◌, ◌≤◌, IfOk, IsPermutation, OnOk};
ghost use Rattle.room_search.specs.Reaching.{AreAllReached};
ghost use Rattle.view_rooms.specs.Listing.{AreInOrder, AreMostFirst, most_values};

use crate::plan::SearchedRoom;
use room_search::{Reach, Reached, search_room};
use run_search::{Progress, SearchFault};
use std::alloc::AllocError;
use std::cmp::Reverse;
use view_sample::values_in;

/// Finds all outcomes that the room's simulators can reach if at most `crashes` of them crash, those with most decided values first.
///
/// # Errors
///
/// `TooManyNodes` if there are more nodes than are searched at most; `OutOfMemory` if an allocation fails.
pub(crate) fn find_all<P: Progress>(
    room: &SearchedRoom<'_>,
    crashes: u32,
    progress: &mut P,
) -> Result<Reach, SearchFault>
    ensures { IfOk result (λ all. AreInOrder room.now.spec.now crashes room.now.plan.now.nodes all) }
{
    let found = search_room(room.alloc, room.spec, crashes, room.plan.nodes, progress)?;
    let Reach {
        mut outcomes,
        nodes,
        missed,
    } = found;
    sort_by_values(&mut outcomes)?;
    Ok(Reach {
        outcomes,
        nodes,
        missed,
    })
}

/// Puts those first that have most decided values, and leaves those that have as many in their order.
fn sort_by_values(all: &mut Vec<Reached>) -> Result<(), AllocError>
    ensures sorted { OnOk result (AreMostFirst all.new.items) }
    ensures same { IsPermutation all.old.items all.new.items }
{
    all.sort_by_key(|one| Reverse(values_in(one.states.as_slice())))
}

/// The most different values that any outcome has.
pub(crate) fn most_values(all: &[Reached]) -> usize
    ensures { result ≡ most_values all.now }
{
    let mut most = 0;
    for one in all {
        most = values_in(one.states.as_slice()).max(most);
    }
    most
}
