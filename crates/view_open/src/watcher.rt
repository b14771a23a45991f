//! What is said of a script as it goes on.
ghost use Rattle.std.specs.Prelude.{◌≡◌, ◌&&◌, [], true, IfOk, IfSome, OnOk};
ghost use Rattle.service_core.specs.Rooms.{room_at};
ghost use Rattle.view_open.specs.Open.{IsFoundOpen, is_complete};
ghost use Rattle.view_open.specs.Watched.{Does, IsNoted, IsSearched, Writes, open_shown, plain_shown};

use crate::json::{Said, write_open_object, write_reply_object};
use crate::log::{Past, Pasts, What, what_in};
use crate::plan::OpenPlan;
use crate::searching::{Found, crashes_for, find_open, is_complete, known_in};
use crate::text::write_open;
use io_text::Text;
use room_core::Unobserved;
use room_files::{write_refused, write_refused_code};
use room_search::Beginning;
use room_spec::{Spec, SpecFault};
use run_search::{Ends, Progress};
use script_play::{Asked, Follows, write_reply};
use service_core::{Refusal, Reply, Service};
use std::alloc::{AllocError, Global};

/// What is said of what was done so far, and what was done to each room.
#[derive(Drop)]
pub(crate) struct Watcher {
    alloc: Global,
    plan: OpenPlan,
    pasts: Pasts,
    pub(crate) output: Text,
    /// Whether each search has found all outcomes that are open.
    pub(crate) well: bool,
}

/// What `play` writes of a command, and the name of the command's room.
#[derive(Clone, Copy)]
struct Written<'a> {
    name: &'a [u8],
    words: &'a [u8],
}

impl Watcher {
    pub(crate) fn new(alloc: Global, plan: &OpenPlan) -> Watcher
        ensures plan { result.plan ≡ plan.now }
        ensures pasts { result.pasts.rooms.entries ≡ [] }
        ensures output { result.output ≡ [] }
        ensures well { result.well ≡ true }
    {
        Watcher {
            alloc,
            plan: *plan,
            pasts: Pasts::new(alloc),
            output: Text::new(alloc),
            well: true,
        }
    }

    /// Follows a command, which did this, if it changed its room.
    fn follow<P: Progress>(
        &mut self,
        written: &Written<'_>,
        what: Option<What>,
        rooms: &Service,
        progress: &mut P,
    ) -> Result<(), AllocError>
        ensures { OnOk result (Does (λ so_far next. IsNoted so_far written.now.name.now written.now.words.now what (room_at rooms.now written.now.name.now) next) self.old self.new) }
    {
        let Some(what) = what else {
            return self.show_plainly(written.words);
        };
        let Some(room) = rooms.room(written.name) else {
            return self.show_plainly(written.words);
        };
        self.search(written, what, room.spec(), progress)
    }

    /// Writes what `play` writes, and no more; in JSON its first line.
    fn show_plainly(&mut self, words: &[u8]) -> Result<(), AllocError>
        ensures { OnOk result (Writes self.old (plain_shown self.old.plan.json words.now) self.new) }
    {
        if self.plan.json {
            return write_reply_object(self.alloc, &mut self.output, words);
        }
        self.output.put(words)
    }

    /// Finds the outcomes that are open after a command did this to its room, and writes them.
    fn search<P: Progress>(
        &mut self,
        written: &Written<'_>,
        what: What,
        spec: &Spec,
        progress: &mut P,
    ) -> Result<(), AllocError>
        ensures { OnOk result (Does (λ so_far next. IsSearched so_far written.now.name.now written.now.words.now what spec.now next) self.old self.new) }
    {
        let mut past = self.pasts.take(self.alloc, written.name);
        past.add(what)?;
        let found = self.find(&past, spec, progress)?;
        self.show(written.words, spec, past.known.as_slice(), &found)?;
        self.judge(&found);
        past.learn(known_in(found));
        self.pasts.put(self.alloc, written.name, past)
    }

    /// Finds the outcomes that are open in the room to which all this was done.
    fn find<P: Progress>(
        &self,
        past: &Past,
        spec: &Spec,
        progress: &mut P,
    ) -> Result<Option<Found>, AllocError>
        ensures { IfOk result (λ found. IfSome found (IsFoundOpen self.now.plan spec.now past.now.acts.items)) }
    {
        let from = Beginning {
            spec,
            acts: past.acts.as_slice(),
        };
        find_open(self.alloc, &self.plan, &from, progress)
    }

    /// Writes what was found, as text or as JSON, if these outcomes were known to be open before.
    fn show(
        &mut self,
        words: &[u8],
        spec: &Spec,
        known: &[Ends],
        found: &Option<Found>,
    ) -> Result<(), AllocError>
        ensures { OnOk result (Writes self.old (open_shown self.old.plan spec.now words.now known.now found.now) self.new) }
    {
        if self.plan.json {
            let said = Said {
                alloc: self.alloc,
                words,
                name: spec.name().as_str(),
                crashes: crashes_for(spec, self.plan.crashes),
                limit: self.plan.nodes,
            };
            return write_open_object(&said, &mut self.output, known, found);
        }
        self.output.put(words)?;
        write_open(&mut self.output, self.plan.nodes, known, found)
    }

    /// Not all is well if some outcomes that are open may not be found.
    fn judge(&mut self, found: &Option<Found>)
        ensures well { self.new.well ≡ (self.old.well && is_complete found.now) }
        ensures plan { self.new.plan ≡ self.old.plan }
        ensures pasts { self.new.pasts ≡ self.old.pasts }
        ensures output { self.new.output ≡ self.old.output }
    {
        self.well = self.well && is_complete(found);
    }
}

/// One who says what is open after each command of a script, and shows how far each search is.
#[derive(Drop)]
pub(crate) struct Follower<'p, P> {
    pub(crate) watcher: Watcher,
    pub(crate) progress: &'p mut P,
}

impl<P: Progress> Follows for Follower<'_, P> {
    ghost use Rattle.std.specs.Prelude.{◌≡◌};
    ghost use Rattle.view_open.specs.Watched.{Does, IsFollowed};

    type Watch = Unobserved;

    ghost follows = { λ old rooms done after new. Does (λ so_far next. IsFollowed so_far rooms done after next) old.watcher new.watcher };

    ghost readies = { λ old rooms command new watch. new.watcher ≡ old.watcher };

    fn opens(
        &mut self,
        _alloc: Global,
        _block: &[u8],
        _spec: &Spec,
    ) -> Result<Option<Unobserved>, AllocError> {
        Ok(None)
    }

    fn before(
        &mut self,
        _alloc: Global,
        _asked: &Asked<'_>,
        _rooms: &Service,
    ) -> Result<Option<Unobserved>, AllocError> {
        Ok(None)
    }

    fn after(
        &mut self,
        asked: &Asked<'_>,
        reply: Reply,
        _watch: &mut Option<Unobserved>,
        rooms: &Service,
    ) -> Result<(), AllocError> {
        let mut words = Text::new(self.watcher.alloc);
        write_reply(&mut words, asked.name, asked.order.sim(), &reply)?;
        let what = what_in(asked.order, &reply);
        let words = words.as_bytes();
        let written = Written {
            name: asked.name,
            words,
        };
        self.watcher.follow(&written, what, rooms, self.progress)
    }

    fn refuse(&mut self, line: u64, fault: SpecFault) -> Result<(), AllocError> {
        let mut words = Text::new(self.watcher.alloc);
        write_refused(&mut words, line, fault)?;
        self.watcher.show_plainly(words.as_bytes())
    }

    fn out_of_memory(&mut self, line: u64) -> Result<(), AllocError> {
        let mut words = Text::new(self.watcher.alloc);
        write_refused_code(&mut words, line, Refusal::OutOfMemory.code())?;
        self.watcher.show_plainly(words.as_bytes())
    }
}
