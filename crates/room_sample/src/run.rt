//! One run of a room, by a random schedule.
ghost use Rattle.std.specs.Prelude.{◌≡◌, ◌<◌, ◌≤◌, ℕ, IfOk, OnOk, length};
ghost use Rattle.rand_core.specs.Stream.{Stream};
ghost use Rattle.room_spec.specs.Rooms.{RoomSpec};
ghost use Rattle.room_core.specs.Calls.{room_after_settle};
ghost use Rattle.room_core.specs.Fields.{Fields};
ghost use Rattle.room_core.specs.Reading.{AreFieldsOf};
ghost use Rattle.ws_history.specs.Reports.{report_of};
ghost use Rattle.room_sample.specs.Chances.{random_in};
ghost use Rattle.room_sample.specs.Drawn.{Acts, Crashes, Draws, EntersBy, IsLed, IsScheduled, IsThrough, Walks, WalksInto, fuse_after, has_entered, is_look, opening_way, style_from};
ghost use Rattle.room_sample.specs.Samples.{IsRunFrom, IsSettledFrom};
ghost use Rattle.room_sample.specs.Schedules.{IsOutcome, IsSettledAfter, longest};
ghost use Rattle.room_sample.specs.Ways.{way_of};

use crate::active::{
    Active, AllActive, Fuse, Style, all_active, put, random_length, random_pick, random_rank,
    random_style,
};
use crate::chances::Chances;
use crate::stretch::Stretch;
use arrayvec::ArrayVec;
use room_core::{CrashReply, RoomCore};
use room_spec::{MAX_PROCESSES, Spec};
use simulator::Line;
use std::alloc::{AllocError, Global};
use ws_history::{ProcessState, process_states};

/// The most stretches before the room settles.
const MOST_STRETCHES: u32 = 65536;

/// The outcome of a room under a schedule.
#[derive(Drop)]
pub(crate) struct Run {
    pub(crate) states: ArrayVec<ProcessState, MAX_PROCESSES>,
    pub(crate) schedule: Vec<Stretch>,
}

/// A room that has settled after a schedule.
#[derive(Drop)]
pub struct Settled {
    pub room: RoomCore,
    pub schedule: Vec<Stretch>,
}

/// A room on its way, and the schedule that has led to it.
#[derive(Drop)]
struct Scheduled {
    room: RoomCore,
    schedule: Vec<Stretch>,
    /// How many simulators may crash still.
    crashes_left: u32,
}

impl Scheduled {
    /// A room in which no simulator has taken a step.
    fn fresh(alloc: Global, spec: Spec, crashes: u32) -> Result<Scheduled, AllocError>
        ensures { IfOk result (λ fresh. way_of fresh ≡ opening_way spec crashes) }
    {
        Ok(Scheduled {
            room: RoomCore::fresh(alloc, spec)?,
            schedule: Vec::new(alloc),
            crashes_left: crashes,
        })
    }

    /// Lets a simulator take steps, up to `most` of them. Gives how many it took.
    fn steps(&mut self, simulator: u8, most: u16) -> Result<u16, AllocError>
        ensures walks { IfOk result (λ taken. Walks simulator most taken (way_of self.old) (way_of self.new)) }
        ensures few { IfOk result (λ taken. taken ≤ most) }
        ensures short { IfOk result (λ taken. taken ≤ longest) }
    {
        let count = self.room.steps(usize::from(simulator), u64::from(most)) as u16;
        if count > 0 {
            self.schedule.push(Stretch::Steps { simulator, count })?;
        }
        Ok(count)
    }

    /// Lets a simulator take steps until it has entered an agreement, up to `most` of them. Gives how many it took, and whether it has
    /// entered one.
    fn steps_into(&mut self, simulator: u8, most: u16) -> Result<(u16, bool), AllocError>
        ensures { IfOk result (λ walk. WalksInto simulator most walk.0 (way_of self.old) (way_of self.new) walk.1) }
    {
        let (count, entered) = steps_into(&mut self.room, usize::from(simulator), most);
        if count > 0 {
            let stretch = Stretch::Steps { simulator, count };
            self.schedule.push(stretch)?;
        }
        Ok((count, entered))
    }

    /// Crashes a simulator, if one may crash still and this one hasn't yet. Gives whether it has crashed now.
    fn crash(&mut self, simulator: u8) -> Result<bool, AllocError>
        ensures { IfOk result (λ crashed. Crashes simulator (way_of self.old) crashed (way_of self.new)) }
    {
        if self.crashes_left == 0 {
            return Ok(false);
        }
        let CrashReply::Crashed = self.room.crash(usize::from(simulator)) else {
            return Ok(false);
        };
        self.crashes_left -= 1;
        self.schedule.push(Stretch::Crash { simulator })?;
        Ok(true)
    }

    /// Follows a stretch as far as it may come.
    fn follow(&mut self, stretch: Stretch) -> Result<(), AllocError>
        ensures { OnOk result ((spec : RoomSpec) (crashes : ℕ) → IsScheduled spec crashes (way_of self.old) → IsScheduled spec crashes (way_of self.new)) }
    {
        match stretch {
            Stretch::Steps { simulator, count } => {
                self.steps(simulator, count)?;
                Ok(())
            }
            Stretch::Crash { simulator } => {
                self.crash(simulator)?;
                Ok(())
            }
        }
    }

    /// Settles the room.
    fn settle(mut self) -> Settled
        ensures schedule { result.schedule.items ≡ self.schedule.items }
        ensures room { result.room ≡ room_after_settle self.room }
    {
        self.room.settle();
        Settled {
            room: self.room,
            schedule: self.schedule,
        }
    }

    /// Settles the room, and says the states of its processes.
    fn settled(self) -> Run
        ensures schedule { result.schedule.items ≡ self.schedule.items }
        ensures states { (fields : Fields) → AreFieldsOf (room_after_settle self.room) fields →
            result.states.items ≡ (report_of (room_after_settle self.room).spec fields).states.items }
    {
        self.settle().run()
    }
}

impl Settled {
    /// The states of its processes, and the schedule.
    fn run(self) -> Run
        ensures schedule { result.schedule.items ≡ self.schedule.items }
        ensures states { (fields : Fields) → AreFieldsOf self.room fields → result.states.items ≡ (report_of self.room.spec fields).states.items }
    {
        Run {
            states: process_states(&self.room),
            schedule: self.schedule,
        }
    }
}

/// Lets simulator `i` of a room take steps until it has entered an agreement, up to `most` of them. Gives how many it took, and whether it
/// has entered one.
fn steps_into(room: &mut RoomCore, i: usize, most: u16) -> (u16, bool)
    ensures { EntersBy i most result.0 room.old room.new result.1 }
{
    for taken in 0..most {
        if room.steps(i, 1) == 0 {
            return (taken, false);
        }
        if has_entered(room, i) {
            return (taken + 1, true);
        }
    }
    (most, false)
}

/// Whether simulator `i` has entered an agreement just now.
fn has_entered(room: &RoomCore, i: usize) -> bool
    ensures { result ≡ has_entered room.now i }
{
    i < room.spec().m() && is_look(room.mind(i).line())
}

fn is_look(line: Line) -> bool
    ensures { result ≡ is_look line }
{
    matches!(line, Line::Look)
}

/// Lets a simulator take up to this many steps, or crash if its fuse has burnt down. Gives whether it may take more.
fn go_on(scheduled: &mut Scheduled, active: &mut Active, most: u16) -> Result<bool, AllocError>
    ensures acts { IfOk result (λ stays.
        Acts active.old.simulator most (way_of scheduled.old) active.old.fuse active.new.fuse (way_of scheduled.new) stays) }
    ensures same { OnOk result (active.new.simulator ≡ active.old.simulator) }
    ensures rank { OnOk result (active.new.rank ≡ active.old.rank) }
{
    match active.fuse {
        Fuse::Never => Ok(scheduled.steps(active.simulator, most)? == most),
        Fuse::After { steps: 0 } => {
            active.fuse = Fuse::Never;
            Ok(!scheduled.crash(active.simulator)?)
        }
        Fuse::After { steps } => {
            let most = u32::from(most).min(steps) as u16;
            let taken = scheduled.steps(active.simulator, most)?;
            active.fuse = Fuse::After {
                steps: steps - u32::from(taken),
            };
            Ok(taken == most)
        }
        Fuse::Inside { others } => {
            let (taken, entered) = scheduled.steps_into(active.simulator, most)?;
            active.fuse = fuse_after(others, entered);
            Ok(entered | (taken == most))
        }
    }
}

/// An aimed fuse after some steps: a simulator that has entered an agreement crashes there, or in a later one.
fn fuse_after(others: u32, entered: bool) -> Fuse
    ensures { result ≡ fuse_after others entered }
{
    match (entered, others) {
        (false, _) => Fuse::Inside { others },
        (true, 0) => Fuse::After { steps: 0 },
        (true, _) => Fuse::Inside { others: others - 1 },
    }
}

/// Picks one of those who may act, and for how many steps it does. One that may not act again is struck off.
fn act_next(
    scheduled: &mut Scheduled,
    style: Style,
    active: &mut AllActive,
    chances: &mut Chances,
) -> Result<(), AllocError>
    requires { 0 < length active.old.items }
    ensures { OnOk result (Draws style (way_of scheduled.old) active.old.items (random_in chances.old)
        (way_of scheduled.new) active.new.items (random_in chances.new)) }
{
    let at = random_pick(style, active, chances);
    let most = random_length(chances);
    let Some(next) = active.get(at) else {
        unreachable!() // it is below their number
    };
    let mut one = *next;
    let stays = go_on(scheduled, &mut one, most)?;
    one.rank = random_rank(one.rank, chances);
    put(active, at, one);
    if stays {
        return Ok(());
    }
    active.swap_remove(at);
    Ok(())
}

/// Lets those who may act do so, each as it is picked, until none may or as many draws were made as may be.
fn act_by_chance(
    scheduled: &mut Scheduled,
    style: Style,
    active: &mut AllActive,
    chances: &mut Chances,
) -> Result<(), AllocError>
    ensures { OnOk result ((spec : RoomSpec) (crashes : ℕ) (random : Stream) → style ≡ (style_from random).0 →
        IsLed spec crashes random 0 (way_of scheduled.old) active.old.items (random_in chances.old) →
        IsThrough spec crashes random (way_of scheduled.new)) }
{
    for _ in 0..MOST_STRETCHES {
        if active.is_empty() {
            return Ok(());
        }
        act_next(scheduled, style, active, chances)?;
    }
    Ok(())
}

/// Runs a room of this spec by a schedule, as far as each of its stretches may come, and settles it. At most this many simulators crash.
///
/// # Errors
///
/// An allocation that fails.
pub fn settled_after(
    alloc: Global,
    spec: Spec,
    crashes: u32,
    schedule: &[Stretch],
) -> Result<Settled, AllocError>
    ensures { IfOk result (λ settled. IsSettledAfter spec crashes settled.schedule.items settled.room) }
{
    let mut scheduled = Scheduled::fresh(alloc, spec, crashes)?;
    for stretch in schedule {
        scheduled.follow(*stretch)?;
    }
    Ok(scheduled.settle())
}

/// Runs a room of this spec by a schedule, as far as each of its stretches may come, and settles it. At most this many simulators crash.
pub(crate) fn run_by(
    alloc: Global,
    spec: Spec,
    crashes: u32,
    schedule: &[Stretch],
) -> Result<Run, AllocError>
    ensures { IfOk result (λ run. IsOutcome spec crashes run.schedule.items run.states.items) }
{
    let settled = settled_after(alloc, spec, crashes, schedule)?;
    Ok(settled.run())
}

/// Runs a room of this spec by a random schedule, in which at most this many simulators crash.
fn scheduled_by_chance(
    alloc: Global,
    spec: Spec,
    chances: &mut Chances,
    crashes: u32,
) -> Result<Scheduled, AllocError>
    ensures { IfOk result (λ scheduled. IsThrough spec crashes (random_in chances.old) (way_of scheduled)) }
{
    let style = random_style(chances);
    let mut active = all_active(&spec, style, chances);
    let mut scheduled = Scheduled::fresh(alloc, spec, crashes)?;
    act_by_chance(&mut scheduled, style, &mut active, chances)?;
    Ok(scheduled)
}

/// Runs a room of this spec by a random schedule, in which at most this many simulators crash, and settles it.
pub(crate) fn run_by_chance(
    alloc: Global,
    spec: Spec,
    chances: &mut Chances,
    crashes: u32,
) -> Result<Run, AllocError>
    ensures { IfOk result (λ run. IsRunFrom spec crashes (random_in chances.old) run.schedule.items run.states.items) }
{
    let scheduled = scheduled_by_chance(alloc, spec, chances, crashes)?;
    Ok(scheduled.settled())
}

/// The same. Gives the room itself.
pub(crate) fn settled_by_chance(
    alloc: Global,
    spec: Spec,
    chances: &mut Chances,
    crashes: u32,
) -> Result<Settled, AllocError>
    ensures { IfOk result (λ settled. IsSettledFrom spec crashes (random_in chances.old) settled.schedule.items settled.room) }
{
    let scheduled = scheduled_by_chance(alloc, spec, chances, crashes)?;
    Ok(scheduled.settle())
}

/// Opens the room of a spec, and runs it by one random schedule.
pub(crate) fn run_anew(
    alloc: Global,
    spec: &Spec,
    chances: &mut Chances,
    crashes: u32,
) -> Result<Run, AllocError>
    ensures { IfOk result (λ run. IsRunFrom spec.now crashes (random_in chances.old) run.schedule.items run.states.items) }
{
    run_by_chance(alloc, spec.clone()?, chances, crashes)
}
