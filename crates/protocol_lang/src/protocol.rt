//! A protocol that was read.
ghost use Rattle.std.specs.Prelude.{◌≡◌, IfOk, IfErr};
ghost use Rattle.protocol_lang.specs.Reading.{IsReading, IsReadAs};
ghost use Rattle.protocol_lang.specs.Trees.{Tree as ProtocolTree};
ghost use Rattle.protocol_lang.specs.Grammar.{IsText};
ghost use Rattle.protocol_lang.specs.FirstFaults.{IsLocal, IsFirstFault};

use crate::fault::ParseFault;
use crate::parser;
use crate::rules::Tree;
use std::alloc::Global;
use std::marker::Model;

/// The bytes of a text above which its expressions are taken to be long.
const LONG_TEXT: usize = 256;

/// A protocol. It is made by [`parse`] and [`parse_bytes`] alone.
#[derive(Drop)]
pub struct Protocol {
    pub(crate) tree: Tree,
    /// Whether the text is so long that expressions of more than [`FEW_WAITING`](crate::formula::FEW_WAITING) steps are to be expected. Nothing but speed rests on it.
    pub(crate) is_long: bool,
}

impl Model for Protocol {
    ghost use Rattle.std.specs.Coded.{codes};
    ghost use Rattle.protocol_lang.specs.Codes.{expression_code};
    ghost use Rattle.std.specs.Prelude.{ℕ, List};
    ghost use Rattle.protocol_lang.specs.Trees.{Tree};
    ghost use Rattle.protocol_lang.specs.Grammar.{IsText};

    ghost Value = { Tree };

    ghost coded = { Prim.hlevel (codes, expression_code) };

    ghost view = { λ protocol. protocol.tree };

    // It was read from a text.
    ghost invariant = { λ protocol. (text : List ℕ) × IsText text protocol.tree };
}

/// Reads a protocol's text.
pub fn parse(alloc: Global, text: &str) -> Result<Protocol, ParseFault>
    // What is accepted is a text of the grammar.
    ensures sound { IfOk result (IsText text.now) }
    // What is a text of the grammar is accepted, with its tree.
    ensures complete { (tree : ProtocolTree) → IsText text.now tree → IsReadAs tree result }
    ensures exact { IsReading text.now result }
    // A fault rests on the bytes up to its token's end alone.
    ensures local { IfErr result (IsLocal text.now) }
    // Before a fault's place is the beginning of a text; what is there can't follow it, or is no token.
    ensures first { IfErr result (IsFirstFault text.now) }
{
    parse_bytes(alloc, text.as_bytes())
}

/// Reads a protocol's text that need not be UTF-8: a byte outside ASCII begins no token.
pub fn parse_bytes(alloc: Global, text: &[u8]) -> Result<Protocol, ParseFault>
    // What is accepted is a text of the grammar.
    ensures sound { IfOk result (IsText text.now) }
    // What is a text of the grammar is accepted, with its tree.
    ensures complete { (tree : ProtocolTree) → IsText text.now tree → IsReadAs tree result }
    ensures exact { IsReading text.now result }
    // A fault rests on the bytes up to its token's end alone.
    ensures local { IfErr result (IsLocal text.now) }
    // Before a fault's place is the beginning of a text; what is there can't follow it, or is no token.
    ensures first { IfErr result (IsFirstFault text.now) }
{
    let tree = parser::read(alloc, text)?;
    Ok(Protocol {
        tree,
        is_long: text.len() > LONG_TEXT,
    })
}
