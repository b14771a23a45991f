//! Sets of local states that nodes share.
ghost use Rattle.std.specs.Prelude.{◌≡◌, IfOk};

use crate::local_state::LocalState;
use indexmap::IndexSet;
use std::alloc::{AllocError, Global};
use std::rc::Rc;

/// Local states of one process, each once. Nodes in which a process has the same ones share them.
pub type LocalSet = Rc<Vec<LocalState>>;

/// The sets that nodes have, each once.
#[derive(Drop)]
pub struct Sets {
    pub alloc: Global,
    all: IndexSet<LocalSet>,
}

impl Sets {
    /// No sets.
    pub fn new(alloc: Global) -> Sets {
        let all = IndexSet::new(alloc);
        Sets { alloc, all }
    }

    /// A set of these local states: the one that is there, or else a new one.
    ///
    /// # Errors
    ///
    /// An allocation that fails.
    pub fn shared(&mut self, locals: Vec<LocalState>) -> Result<LocalSet, AllocError>
        ensures { IfOk result (λ set. set.value.items ≡ locals.items) }
    {
        let set = Rc::new(self.alloc, locals)?;
        let (index, _) = self.all.insert_full(set)?;
        let Some(there) = self.all.get_index(index) else {
            unreachable!() // it was put there just now
        };
        let set = there.clone()?;
        Ok(set)
    }
}
