//! What the blocks of an input say, one after the other.
ghost use Rattle.std.specs.Prelude.{◌≡◌, ◌+◌, ◌<◌, ◌^◌, ◌≤◌, [], IsOk, OnOk, length};
ghost use Rattle.room_spec.specs.Blocks.{block_len};
ghost use Rattle.room_files.specs.Kinds.{block_of};
ghost use Rattle.room_files.specs.Lines.{text_lines};
ghost use Rattle.room_files.specs.Blocks.{no_blocks, refuse, open_room, after_block, pass_lines, why_text, IsWhy};

use crate::fault::BlockFault;
use crate::kinds::{Kinds, read_lines};
use crate::lines::count_lines;
use crate::report::{write_refused, write_refused_code};
use history_checker::{AddFault, Rooms};
use io_text::Text;
use room_spec::{Block, Name, Protocols, Spec, SpecFault};
use std::alloc::{AllocError, Global};
use std::marker::Model;

/// Rooms that are opened one by one.
pub trait Opens: Drop {
    ghost use Rattle.std.specs.Prelude.{◌≡◌, ◌∷◌, ◌++◌, [], List, IsFalse, Ok, OnOk, OnErr, length};
    ghost use Rattle.room_spec.specs.Rooms.{RoomSpec};
    ghost use Rattle.history_checker.specs.Verdicts.{has_room};
    ghost use Rattle.room_files.specs.Kinds.{block_of};
    ghost use Rattle.room_files.specs.declared.kinds.Kinds.TheVariants.{All};

    // The specs of those that are open, in order.
    ghost specs: { Self → List RoomSpec };

    // None of them has an event.
    ghost is_unfed: { Self → Type 0 };

    /// Whether one of them has this name.
    fn has(&self, name: &Name) -> bool
        ensures { result ≡ has_room name.now (specs self.now) };

    /// Opens one more, whose name none has, and which a block of these bytes says. An `Err` drops the spec and changes nothing.
    fn push(&mut self, alloc: Global, spec: Spec, block: &[u8]) -> Result<(), AllocError>
        requires free { IsFalse (has_room spec.name (specs self.old)) }
        requires block { block_of All block.now ≡ Ok (spec, length block.now) }
        ensures opened { OnOk result (specs self.new ≡ specs self.old ++ spec ∷ []) }
        ensures unfed { OnOk result (is_unfed self.old → is_unfed self.new) }
        ensures err { OnErr result (self.new ≡ self.old) };
}

impl Opens for Rooms {
    ghost use Rattle.std.specs.Prelude.{[]};
    ghost use Rattle.history_checker.specs.Verdicts.{HasProcessed, specs_of};

    ghost specs = { specs_of };

    ghost is_unfed = { λ rooms. HasProcessed rooms [] };

    fn has(&self, name: &Name) -> bool {
        Rooms::has(self, name)
    }

    fn push(&mut self, alloc: Global, spec: Spec, _block: &[u8]) -> Result<(), AllocError> {
        Rooms::push(self, alloc, spec)
    }
}

/// What becomes of the blocks that open no room.
pub trait Refuses: Drop {
    ghost use Rattle.std.specs.Prelude.{◌≡◌, ◌++◌, ℕ, List, OnOk};
    ghost use Rattle.room_files.specs.Blocks.{refused_line, why_text, IsWhy};
    ghost use Rattle.room_files.specs.declared.kinds.Kinds.{Kinds};

    // The lines that say those so far.
    ghost lines: { Self → List ℕ };

    /// Refuses a block of these bytes, whose first line has this number.
    fn refuse(&mut self, line: u64, fault: BlockFault, block: &[u8]) -> Result<(), AllocError>
        requires { (kinds : Kinds) × IsWhy kinds block.now fault }
        ensures { OnOk result (lines self.new ≡ lines self.old ++ refused_line line (why_text fault)) };
}

/// A text takes only the lines.
impl Refuses for Text {
    ghost lines = { λ text. text };

    fn refuse(&mut self, line: u64, fault: BlockFault, _block: &[u8]) -> Result<(), AllocError> {
        match fault {
            BlockFault::Spec(fault) => write_refused(self, line, fault),
            BlockFault::NameTaken => write_refused_code(self, line, AddFault::NameTaken.code()),
        }
    }
}

/// What the blocks so far say.
#[derive(Drop)]
pub struct Setup<R: Opens, T: Refuses> {
    /// The rooms that they open, which have no events yet.
    pub rooms: R,
    /// What became of the others.
    pub refused: T,
    /// The number of the next line.
    pub line: u64,
}

impl<R: Opens, T: Refuses> Model for Setup<R, T> {
    ghost use Rattle.std.specs.Coded.{codes};
    ghost use Rattle.protocol_lang.specs.Codes.{expression_code};
    ghost use Rattle.room_files.specs.Blocks.{Setup as SetupSpec};

    ghost Value = { SetupSpec };

    ghost coded = { Prim.hlevel (codes, expression_code) };

    ghost view = { λ setup. record { rooms = R.specs setup.rooms; refused = T.lines setup.refused; line = setup.line } };

    ghost invariant = { λ setup. R.is_unfed setup.rooms };
}

impl<R: Opens, T: Refuses> Setup<R, T> {
    /// Before the first block no room is open, and none was refused.
    pub fn new(rooms: R, refused: T) -> Setup<R, T>
        requires none { R.specs rooms ≡ [] }
        requires unfed { R.is_unfed rooms }
        requires unrefused { T.lines refused ≡ [] }
        ensures { result ≡ no_blocks }
    {
        Setup {
            rooms,
            refused,
            line: 1,
        }
    }

    /// Takes the next block, of these kinds. `Err` is an allocation that failed.
    pub(crate) fn take<'a>(
        &mut self,
        alloc: Global,
        kinds: Kinds,
        block: &Block<'a>,
        protocols: &mut Protocols<'a>,
    ) -> Result<(), AllocError>
        requires { self.old.line + length block.now < 2 ^ 64 }
        ensures block { OnOk result (self.new ≡ after_block kinds self.old block.now) }
        ensures line { OnOk result (self.new.line ≤ self.old.line + length block.now) }
    {
        match read_lines(alloc, kinds, block, protocols)? {
            Ok(spec) => self.open_room(alloc, kinds, spec, block.text())?,
            Err(fault) => self.refuse(kinds, BlockFault::Spec(fault), block.text())?,
        }
        self.pass_lines(lines_of(block));
        Ok(())
    }

    /// Refuses what is left of an input, which has no line `end`. `Err` is an allocation that failed.
    pub(crate) fn refuse_rest(&mut self, kinds: Kinds, rest: &[u8]) -> Result<(), AllocError>
        requires fits { self.old.line + length rest.now < 2 ^ 64 }
        requires ends { block_len rest.now ≡ None }
        ensures { OnOk result (self.new ≡ after_block kinds self.old rest.now) }
    {
        self.refuse(kinds, BlockFault::Spec(SpecFault::Truncated), rest)?;
        self.pass_lines(count_lines(rest));
        Ok(())
    }

    /// Opens the room that a block of these bytes says, unless its name is taken.
    fn open_room(
        &mut self,
        alloc: Global,
        kinds: Kinds,
        spec: Spec,
        block: &[u8],
    ) -> Result<(), AllocError>
        requires { block_of kinds block.now ≡ Ok (spec, length block.now) }
        ensures room { OnOk result (self.new ≡ open_room self.old spec) }
        ensures line { OnOk result (self.new.line ≡ self.old.line) }
    {
        if self.rooms.has(spec.name()) {
            return self.refuse(kinds, BlockFault::NameTaken, block);
        }
        self.rooms.push(alloc, spec, block)
    }

    /// Refuses a block of these bytes, which is read as one of these kinds.
    fn refuse(&mut self, kinds: Kinds, fault: BlockFault, block: &[u8]) -> Result<(), AllocError>
        requires { IsWhy kinds block.now fault }
        ensures refused { OnOk result (self.new ≡ refuse self.old (why_text fault)) }
        ensures line { OnOk result (self.new.line ≡ self.old.line) }
    {
        self.refused.refuse(self.line, fault, block)
    }

    /// Passes `count` lines that are no block's.
    pub(crate) fn pass_lines(&mut self, count: u64)
        requires { self.old.line + count < 2 ^ 64 }
        ensures { self.new ≡ pass_lines count self.old }
    {
        self.line += count;
    }
}

/// How many lines a block has.
#[inline]
fn lines_of(block: &Block<'_>) -> u64
    ensures value { result ≡ length (text_lines block.now) }
    ensures within { result ≤ length block.now }
{
    block.lines() as u64
}
