//! Names as their bytes.
//!
//! `Equivalent` is `indexmap`'s own public trait here, by which a map is searched for parts that are borrowed. Std's trait of this name, which
//! code has no bound or impl of, is another.
ghost use Rattle.std.proofs.Common.{ap, rules};
ghost use Rattle.std.specs.Cmp.Lexicographic.{bytes_decides, nat_list_eq_equiv};
ghost use Rattle.std.specs.Cmp.Rules.{hashing};
ghost use Rattle.std.specs.Hash as fed;
ghost use Rattle.std.specs.Str.{bytes_eq};

use crate::name::Name;
use indexmap::Equivalent;
use std::hash::{Hash, Hasher};

/// Bytes that may spell a name, by which it is looked up.
#[derive(Clone, Copy, PartialEq, Eq)]
pub struct Spelled<'a> {
    pub bytes: &'a [u8],
}

impl Hash for Spelled<'_> {
    ghost hash_input = { λ spelled. fed.str spelled.bytes.now };

    ghost respects_eq = { Prim.search (hashing, rules) };

    fn hash<H: Hasher>(&self, state: &mut H) {
        state.write(self.bytes);
        state.write_u8(0xff);
    }
}

impl Equivalent<Name> for Spelled<'_> {
    ghost equivalent = { λ spelled name. bytes_eq spelled.bytes.now name };

    ghost respects_hash = { λ spelled name same. ap fed.str ((bytes_decides spelled.bytes.now name).0 same) };

    ghost respects_eq = { λ spelled one other. nat_list_eq_equiv.congr spelled.bytes.now one other };

    fn equivalent(&self, key: &Name) -> bool {
        self.bytes == key.as_str().as_bytes()
    }
}
