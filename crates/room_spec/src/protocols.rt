//! Protocols that several blocks share.
ghost use Rattle.std.specs.Prelude.{◌≡◌, IfSome, IfOk, Ok};
ghost use Rattle.std.specs.Arc.{arc_value};
ghost use Rattle.protocol_lang.specs.Reading.{MayLackMemory, reading};
ghost use Rattle.room_spec.specs.Blocks.{GivesOrMemory, protocol_of};

use crate::fault::SpecFault;
use protocol_lang::{ParseFault, Protocol, parse_bytes};
use std::alloc::Global;
use std::marker::Model;
use std::sync::Arc;

/// How many protocols are remembered.
const MOST: usize = 8;

/// A protocol and the text that it was read from.
#[derive(Drop)]
struct Known<'a> {
    text: &'a [u8],
    protocol: Arc<Protocol, Global>,
}

impl<'a> Model for Known<'a> {
    ghost use Rattle.std.specs.Coded.{codes};
    ghost use Rattle.std.specs.Prelude.{◌≡◌, ℕ, List, Ok};
    ghost use Rattle.std.specs.Arc.{arc_value};
    ghost use Rattle.protocol_lang.specs.Codes.{expression_code};
    ghost use Rattle.protocol_lang.specs.Trees.{Tree};
    ghost use Rattle.protocol_lang.specs.Reading.{reading};

    ghost Value = { List ℕ × Tree };

    ghost coded = { Prim.hlevel (codes, expression_code) };

    ghost view = { λ known. (known.text.now, arc_value known.protocol) };

    ghost invariant = { λ known. reading known.text.now ≡ Ok (arc_value known.protocol) };
}

impl<'a> Known<'a> {
    /// The protocol, if this is its text.
    fn protocol_of(&self, text: &[u8]) -> Option<Arc<Protocol, Global>>
        ensures { IfSome result (λ protocol. reading text.now ≡ Ok (arc_value protocol)) }
    {
        if self.text == text {
            Arc::try_clone(&self.protocol).ok()
        } else {
            None
        }
    }
}

/// The last few protocols that were read, by their texts. A text that comes again isn't read again:
/// its blocks share one protocol.
#[derive(Drop)]
pub struct Protocols<'a> {
    known: Vec<Known<'a>>,
}

impl<'a> Protocols<'a> {
    /// None yet. This takes no memory.
    pub fn new(alloc: Global) -> Protocols<'a> {
        Protocols {
            known: Vec::new(alloc),
        }
    }

    /// The protocol that the text says.
    pub(crate) fn read(
        &mut self,
        alloc: Global,
        text: &'a [u8],
    ) -> Result<Arc<Protocol, Global>, SpecFault>
        ensures { GivesOrMemory (MayLackMemory text.now) arc_value result (protocol_of (reading text.now)) }
    {
        if let Some(protocol) = self.find(text) {
            return Ok(protocol);
        }
        let protocol = parse_shared(alloc, text)?;
        self.remember(text, &protocol);
        Ok(protocol)
    }

    fn find(&self, text: &[u8]) -> Option<Arc<Protocol, Global>>
        ensures { IfSome result (λ protocol. reading text.now ≡ Ok (arc_value protocol)) }
    {
        for known in self.known.iter() {
            if let Some(protocol) = known.protocol_of(text) {
                return Some(protocol);
            }
        }
        None
    }

    /// Remembers a protocol and its text, in place of the oldest if there are many, unless memory
    /// is refused.
    fn remember(&mut self, text: &'a [u8], protocol: &Arc<Protocol, Global>)
        requires { reading text.now ≡ Ok (arc_value protocol.now) }
    {
        let Ok(protocol) = Arc::try_clone(protocol) else {
            return;
        };
        if self.known.len() >= MOST {
            self.known.remove(0);
        }
        let _ = self.known.push(Known { text, protocol });
    }
}

fn parse_shared(alloc: Global, text: &[u8]) -> Result<Arc<Protocol, Global>, SpecFault>
    ensures { GivesOrMemory (MayLackMemory text.now) arc_value result (protocol_of (reading text.now)) }
{
    let protocol = match parse_bytes(alloc, text) {
        Ok(protocol) => protocol,
        Err(fault) => return Err(SpecFault::BadProtocol(fault)),
    };
    match Arc::new(alloc, protocol) {
        Ok(protocol) => Ok(protocol),
        Err(_) => Err(SpecFault::BadProtocol(ParseFault::OutOfMemory)),
    }
}
