//! Schedules that lead to a node. Whether one leads there is seen when it is run: nothing is promised here.
ghost use Rattle.std.specs.Prelude.{◌<◌};
ghost use Rattle.room_search.specs.Searches.{IsSearched};
ghost use Rattle.room_search.specs.Steps.{AreWords, IsLocal};

use crate::explored::Explored;
use crate::local::Local;
use crate::node::Node;
use crate::stepping::{Next, after_step, local_of};
use crate::subject::{Subject, has_crashed};
use crate::table::number_of;
use arrayvec::ArrayVec;
use room_sample::Stretch;
use room_spec::MAX_SIMULATORS;
use std::alloc::AllocError;

/// The most steps that are looked for between two nodes.
const MOST_STEPS: u16 = 65535;

/// The local state of each simulator, by its number in the table.
pub type Numbers = ArrayVec<u32, MAX_SIMULATORS>;

/// A place on the way back from a node to the first one: the local states of the simulators there, and the stretches from there on, the last one first.
#[derive(Drop)]
struct Way {
    index: usize,
    numbers: Numbers,
    stretches: Vec<Stretch>,
}

/// A simulator, and the node in which it takes steps.
#[derive(Clone, Copy)]
struct Mover<'a> {
    subject: &'a Subject<'a>,
    node: &'a Node,
    simulator: usize,
}

/// A schedule from the start to the node of this index, after which the simulators are in the local states of these numbers, as far as one is found.
///
/// # Errors
///
/// An allocation that fails.
pub fn schedule_to(
    subject: &Subject<'_>,
    explored: &Explored,
    index: usize,
    numbers: Numbers,
) -> Result<Vec<Stretch>, AllocError>
    requires { IsSearched subject.now.spec.now explored.now }
{
    let mut way = Way {
        index,
        numbers,
        stretches: Vec::new(subject.alloc),
    };
    for _ in 0..explored.nodes.len() {
        let is_first = way.index == 0;
        if !explored.go_back(subject, &mut way)? || is_first {
            break;
        }
    }
    let mut schedule = way.stretches;
    schedule.reverse();
    Ok(schedule)
}

impl Mover<'_> {
    /// What comes of its next step in the node, from this local state.
    fn step_from(&self, local: &Local) -> Result<Next, AllocError>
        requires said { AreWords self.now.subject.now.spec.now self.now.node.now.said }
        requires simulator { self.now.simulator < self.now.subject.now.spec.now.simulators }
        requires local { IsLocal self.now.subject.now.spec.now local.now }
    {
        after_step(self.subject, self.node.said(), self.simulator, local)
    }
}

impl Explored {
    /// Goes back to the node from which the way's node was reached first. Gives whether a way was found.
    fn go_back(&self, subject: &Subject<'_>, way: &mut Way) -> Result<bool, AllocError>
        requires { IsSearched subject.now.spec.now self.now }
    {
        let Some(node) = self.nodes.get(way.index) else {
            return Ok(false);
        };
        for i in 0..subject.spec.m() {
            let mover = Mover {
                subject,
                node,
                simulator: i,
            };
            if !has_crashed(subject, i) && !self.go_back_alone(mover, way)? {
                return Ok(false);
            }
        }
        if way.index > 0 {
            let origin = node.origin();
            put(
                &mut way.numbers,
                usize::from(origin.simulator),
                origin.number,
            );
            push_steps(&mut way.stretches, origin.simulator, 1)?;
            way.index = origin.from as usize;
        }
        Ok(true)
    }

    /// Goes back over the steps by which the simulator came to its local state on the way, in its node: the fewest. Gives whether some were found.
    fn go_back_alone(&self, mover: Mover<'_>, way: &mut Way) -> Result<bool, AllocError>
        requires searched { IsSearched mover.subject.now.spec.now self.now }
        requires said { AreWords mover.subject.now.spec.now mover.node.now.said }
        requires simulator { mover.simulator < mover.subject.now.spec.now.simulators }
    {
        let _m = mover.subject.spec.m(); // for the proof: it is at most 8
        let i = mover.simulator;
        let Some(to) = number_at(&way.numbers, i) else {
            return Ok(false);
        };
        let starts = self.starts(mover, way.index)?;
        let Some(start) = self.nearest(mover, starts.as_slice(), to)? else {
            return Ok(false);
        };
        put(&mut way.numbers, i, start.number);
        push_steps(&mut way.stretches, i as u8, start.steps)?;
        Ok(true)
    }

    /// The start from which the fewest steps of the simulator in the node lead to the local state of this number.
    fn nearest(
        &self,
        mover: Mover<'_>,
        starts: &[u32],
        to: u32,
    ) -> Result<Option<Start>, AllocError>
        requires searched { IsSearched mover.subject.now.spec.now self.now }
        requires said { AreWords mover.subject.now.spec.now mover.node.now.said }
        requires simulator { mover.simulator < mover.subject.now.spec.now.simulators }
    {
        let mut best: Option<Start> = None;
        for number in starts {
            if let Some(steps) = self.steps_between(mover, *number, to)? {
                best = nearer(
                    best,
                    Start {
                        number: *number,
                        steps,
                    },
                );
            }
        }
        Ok(best)
    }

    /// The numbers of the local states in which the simulator may have been when its node, which has this index, was reached first.
    fn starts(&self, mover: Mover<'_>, index: usize) -> Result<Vec<u32>, AllocError>
        requires searched { IsSearched mover.subject.now.spec.now self.now }
        requires simulator { mover.simulator < mover.subject.now.spec.now.simulators }
    {
        let Mover {
            subject,
            node,
            simulator: i,
        } = mover;
        let mut starts = Vec::new(subject.alloc);
        let origin = node.origin();
        let Some(before) = self.nodes.get(origin.from as usize) else {
            return Ok(starts);
        };
        if index == 0 {
            push_first(node, i, &mut starts)?;
        } else if i == usize::from(origin.simulator) {
            let mover = Mover {
                node: before,
                ..mover
            };
            self.push_after(mover, origin.number, &mut starts)?;
        } else if i < before.width() {
            starts.extend_from_slice(before.set(i))?;
        }
        Ok(starts)
    }

    /// Adds the number of the local state of the simulator after its next step in the node, from that of this number.
    fn push_after(
        &self,
        mover: Mover<'_>,
        number: u32,
        starts: &mut Vec<u32>,
    ) -> Result<(), AllocError>
        requires searched { IsSearched mover.subject.now.spec.now self.now }
        requires said { AreWords mover.subject.now.spec.now mover.node.now.said }
        requires simulator { mover.simulator < mover.subject.now.spec.now.simulators }
    {
        let Some(local) = self.moves.table.get_index(number as usize) else {
            return Ok(());
        };
        let Next::To(after) = mover.step_from(local)? else {
            return Ok(());
        };
        if let Some(number) = number_of(&self.moves.table, &local_of(after)) {
            starts.push(number)?;
        }
        Ok(())
    }

    /// How many steps of the simulator in the node lead from the local state of one number to that of another, if some do and none of them changes what is said.
    fn steps_between(&self, mover: Mover<'_>, from: u32, to: u32) -> Result<Option<u16>, AllocError>
        requires searched { IsSearched mover.subject.now.spec.now self.now }
        requires said { AreWords mover.subject.now.spec.now mover.node.now.said }
        requires simulator { mover.simulator < mover.subject.now.spec.now.simulators }
    {
        let most = count_in(mover.node, mover.simulator);
        let mut number = from;
        for count in 0..MOST_STEPS {
            if number == to {
                return Ok(Some(count));
            }
            if usize::from(count) >= most {
                return Ok(None); // one of the local states has come again
            }
            let Some(next) = self.alone(mover, number)? else {
                return Ok(None);
            };
            number = next;
        }
        Ok(None)
    }

    /// The number of the local state of the simulator after its next step in the node, if the step leaves what is said as it is.
    fn alone(&self, mover: Mover<'_>, number: u32) -> Result<Option<u32>, AllocError>
        requires searched { IsSearched mover.subject.now.spec.now self.now }
        requires said { AreWords mover.subject.now.spec.now mover.node.now.said }
        requires simulator { mover.simulator < mover.subject.now.spec.now.simulators }
    {
        let Some(local) = self.moves.table.get_index(number as usize) else {
            return Ok(None);
        };
        let Next::To(after) = mover.step_from(local)? else {
            return Ok(None);
        };
        if after.said.shown.as_slice() != mover.node.said().as_slice() {
            return Ok(None);
        }
        Ok(number_of(&self.moves.table, &local_of(after)))
    }
}

/// How many local states simulator `i` may have in a node.
fn count_in(node: &Node, i: usize) -> usize {
    if i < node.width() {
        node.set(i).len()
    } else {
        0
    }
}

/// Adds the number of the local state of simulator `i` at the start, which is the first of the first node.
fn push_first(node: &Node, i: usize, starts: &mut Vec<u32>) -> Result<(), AllocError> {
    if i < node.width() {
        if let Some(number) = node.set(i).first() {
            starts.push(*number)?;
        }
    }
    Ok(())
}

/// A local state from which some steps lead on.
#[derive(Clone, Copy)]
struct Start {
    number: u32,
    steps: u16,
}

/// The one from which fewer steps lead on.
fn nearer(best: Option<Start>, start: Start) -> Option<Start> {
    match best {
        Some(other) if other.steps <= start.steps => Some(other),
        _ => Some(start),
    }
}

fn number_at(numbers: &Numbers, i: usize) -> Option<u32> {
    match numbers.as_slice().get(i) {
        Some(number) => Some(*number),
        None => None,
    }
}

/// Puts a number in the place of simulator `i`, if there is one.
fn put(numbers: &mut Numbers, i: usize, number: u32) {
    if let Some(place) = numbers.as_mut_slice().get_mut(i) {
        *place = number;
    }
}

/// Adds steps of a simulator, unless there are none. They are joined to the last stretch, if that is of the same simulator.
fn push_steps(stretches: &mut Vec<Stretch>, simulator: u8, count: u16) -> Result<(), AllocError> {
    if count == 0 {
        return Ok(());
    }
    if let Some(last) = stretches.pop() {
        match joined(last, simulator, count) {
            Some(stretch) => {
                stretches.push(stretch)?;
                return Ok(());
            }
            None => stretches.push(last)?,
        }
    }
    stretches.push(Stretch::Steps { simulator, count })?;
    Ok(())
}

/// The stretch with more steps, if it is of the same simulator and not too long then.
fn joined(stretch: Stretch, simulator: u8, more: u16) -> Option<Stretch> {
    match stretch {
        Stretch::Steps {
            simulator: same,
            count,
        } if same == simulator && count <= MOST_STEPS - more => Some(Stretch::Steps {
            simulator,
            count: count + more,
        }),
        _ => None,
    }
}
