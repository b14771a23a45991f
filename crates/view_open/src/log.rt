//! What was done to the rooms of a script.
ghost use Rattle.std.specs.Prelude.{◌≡◌, [], OnOk, Some};
ghost use Rattle.view_open.specs.Logs.{acts_after, known_before, known_if, what_in};
ghost use Rattle.view_open.specs.Pasts.{KeepOthers, acts_kept, known_kept, past_at};

use indexmap::IndexMap;
use room_search::Act;
use run_search::Ends;
use script_play::Order;
use service_core::Reply;
use std::alloc::{AllocError, Global};

/// What was done to a room.
#[derive(Clone, Copy)]
pub(crate) enum What {
    Opened,
    Did(Act),
}

/// What a command did to the room of its name, by its reply. `None` if it changed none.
pub(crate) fn what_in(order: Order, reply: &Reply) -> Option<What>
    ensures { result ≡ what_in order reply.now }
{
    match order {
        Order::Open => match reply {
            Reply::Begun => Some(What::Opened),
            _ => None,
        },
        Order::Step { sim, count } => match reply {
            Reply::Steps { .. } => Some(What::Did(Act::Steps {
                simulator: sim,
                count,
            })),
            _ => None,
        },
        Order::Crash(sim) => match reply {
            Reply::Crash(_) => Some(What::Did(Act::Crash { simulator: sim })),
            _ => None,
        },
        Order::Settle => match reply {
            Reply::Settled => Some(What::Did(Act::Settle)),
            _ => None,
        },
        Order::Report | Order::Close => None,
    }
}

/// All that was done to a room since it was opened, and the outcomes that were open in it when all were known last.
#[derive(Drop)]
pub(crate) struct Past {
    pub(crate) acts: Vec<Act>,
    pub(crate) known: Vec<Ends>,
}

impl Past {
    /// Nothing was done, and nothing is known.
    fn new(alloc: Global) -> Past
        ensures acts { result.acts.items ≡ [] }
        ensures known { result.known.items ≡ [] }
    {
        Past {
            acts: Vec::new(alloc),
            known: Vec::new(alloc),
        }
    }

    /// Adds what was done. To open the room is to begin anew: nothing was done before, and nothing is known.
    pub(crate) fn add(&mut self, what: What) -> Result<(), AllocError>
        ensures acts { OnOk result (self.new.acts.items ≡ acts_after self.old.acts.items what) }
        ensures known { OnOk result (self.new.known.items ≡ known_before self.old.known.items what) }
    {
        match what {
            What::Opened => {
                self.acts.clear();
                self.known.clear();
                Ok(())
            }
            What::Did(act) => {
                self.acts.push(act)?;
                Ok(())
            }
        }
    }

    /// Keeps the outcomes that are open, if all are known.
    pub(crate) fn learn(&mut self, known: Option<Vec<Ends>>)
        ensures acts { self.new.acts.items ≡ self.old.acts.items }
        ensures known { self.new.known.items ≡ known_if self.old.known.items known }
    {
        if let Some(all) = known {
            self.known = all;
        }
    }
}

/// What was done to the rooms of a script, by their names.
#[derive(Drop)]
pub(crate) struct Pasts {
    rooms: IndexMap<Vec<u8>, Past>,
}

impl Pasts {
    /// Nothing was done to any room.
    pub(crate) fn new(alloc: Global) -> Pasts
        ensures { result.rooms.entries ≡ [] }
    {
        Pasts {
            rooms: IndexMap::new(alloc),
        }
    }

    /// Takes out what was done to the room of this name.
    pub(crate) fn take(&mut self, alloc: Global, name: &[u8]) -> Past
        ensures acts { result.acts.items ≡ acts_kept (past_at self.old.rooms.entries name.now) }
        ensures known { result.known.items ≡ known_kept (past_at self.old.rooms.entries name.now) }
        ensures others { KeepOthers self.old.rooms.entries name.now self.new.rooms.entries }
    {
        match self.rooms.swap_remove(name) {
            Some(past) => past,
            None => Past::new(alloc),
        }
    }

    /// Keeps what was done to the room of this name.
    pub(crate) fn put(&mut self, alloc: Global, name: &[u8], past: Past) -> Result<(), AllocError>
        ensures own { OnOk result (past_at self.new.rooms.entries name.now ≡ Some past) }
        ensures others { OnOk result (KeepOthers self.old.rooms.entries name.now self.new.rooms.entries) }
    {
        let mut copy = Vec::with_capacity(alloc, name.len())?;
        copy.extend_from_slice(name)?;
        self.rooms.insert(copy, past)?;
        Ok(())
    }
}
