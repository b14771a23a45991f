//! The panels of a script's rooms.
ghost use Rattle.std.specs.Prelude.{◌≡◌, ◌<◌, ◌++◌, ◌∷◌, [], IfSome, OnErr, OnOk, length};
ghost use Rattle.view_draw.specs.Drawn.{IsPlace, finished, fresh, is_of, noted};

use indexmap::IndexMap;
use room_spec::{Name, Spelled};
use run_columns::Mark;
use simulator_lanes::{Head, Panel};
use std::alloc::{AllocError, Global};
use std::marker::Model;
use ws_history::Report;

/// A panel for each room that a script opened, in order of opening.
#[derive(Drop)]
pub(crate) struct Panels {
    panels: Vec<Panel>,
    /// The place of the panel of the room that is open under a name.
    places: IndexMap<Name, usize>,
}

impl Model for Panels {
    ghost use Rattle.std.specs.Coded.{codes};
    ghost use Rattle.std.specs.Prelude.{List};
    ghost use Rattle.protocol_lang.specs.Codes.{expression_code};
    ghost use Rattle.simulator_lanes.specs.Panels.{Panel as PanelData};
    ghost use Rattle.view_draw.specs.Drawn.{AreIndexed};

    ghost Value = { List PanelData };

    ghost coded = { Prim.hlevel (codes, expression_code) };

    ghost view = { λ p. p.panels.items };

    ghost invariant = { λ p. AreIndexed p.places.entries p.panels.items };
}

impl Panels {
    /// No panels.
    pub(crate) fn new(alloc: Global) -> Panels
        ensures { result ≡ [] }
    {
        Panels {
            panels: Vec::new(alloc),
            places: IndexMap::new(alloc),
        }
    }

    /// Adds the panel of a room that was opened just now.
    ///
    /// # Errors
    ///
    /// If an allocation fails, or a room is open under this name, which no service allows. Nothing is added then.
    pub(crate) fn open(&mut self, alloc: Global, head: Head) -> Result<(), AllocError>
        ensures added { OnOk result (self.new ≡ self.old ++ fresh head ∷ []) }
        ensures err { OnErr result (self.new ≡ self.old) }
    {
        let name = head.spec.name().clone()?;
        if self.places.contains_key(&name) {
            return Err(AllocError);
        }
        let place = self.panels.as_slice().len();
        self.panels.push(Panel::new(alloc, head))?;
        match self.places.insert(name, place) {
            Ok(_) => Ok(()),
            Err(_) => {
                self.panels.pop();
                Err(AllocError)
            }
        }
    }

    /// Notes what happened next in the room that is open under this name.
    pub(crate) fn note(&mut self, name: &[u8], marks: &[Mark]) -> Result<(), AllocError>
        ensures noted { OnOk result (self.new ≡ noted name.now marks.now self.old) }
    {
        match self.place_of(name) {
            Some(place) => self.panels[place].note(marks),
            None => Ok(()),
        }
    }

    /// Notes the report of the room that was open under this name.
    pub(crate) fn finish(&mut self, name: &[u8], report: Report)
        ensures { self.new ≡ finished name.now report self.old }
    {
        match self.place_of(name) {
            Some(place) => {
                self.places.swap_remove(Spelled { bytes: name });
                self.panels[place].finish(report);
            }
            None => {}
        }
    }

    /// The place of the panel of the room that is open under this name.
    fn place_of(&self, name: &[u8]) -> Option<usize>
        ensures place { IsPlace result (is_of name.now) self.now }
        ensures within { IfSome result (λ place. place < length self.now) }
    {
        self.places.get(Spelled { bytes: name }).copied()
    }

    /// All panels.
    pub(crate) fn into_vec(self) -> Vec<Panel>
        ensures { result.items ≡ self }
    {
        self.panels
    }
}
