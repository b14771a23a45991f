//! Names of rooms.
ghost use Rattle.std.specs.Prelude.{⊤, ◌≡◌, ◌≤◌, ℕ, true, Some, None, length, if◌then◌else◌, nat_eq};
ghost use Rattle.std.specs.List.{list_all};
ghost use Rattle.std.specs.Str.{bytes_eq};
ghost use Rattle.std.specs.Cmp.{on_equiv, on_per, partial_equiv_from_equiv};
ghost use Rattle.std.specs.Cmp.Lexicographic.{nat_list_eq_equiv};
ghost use Rattle.std.specs.Cmp.Rules.{hashing};
ghost use Rattle.std.specs.Hash as fed;
ghost use Rattle.std.proofs.Common.{rules};
ghost use Rattle.room_spec.specs.Names.{is_name, is_name_byte};

use arrayvec::ArrayString;
use std::alloc::AllocError;
use std::hash::{Hash, Hasher};
use std::marker::Model;
use std::{fmt, str};

/// The longest name, in bytes.
pub const MAX_NAME: usize = 32;

/// The name of a room: 1 to 32 letters from `a` to `z`, digits, `_` and `-`.
#[derive(Drop)]
pub struct Name {
    text: ArrayString<MAX_NAME>,
}

impl Model for Name {
    ghost use Rattle.std.specs.Prelude.{◌≡◌, ℕ, List, true};
    ghost use Rattle.room_spec.specs.Names.{is_name};

    ghost Value = { List ℕ };

    ghost view = { λ name. name.text.bytes };

    ghost invariant = { λ name. is_name name.text.bytes ≡ true };
}

impl Name {
    /// The name that these bytes are, or `None` if they are none.
    pub fn read(bytes: &[u8]) -> Option<Name>
        ensures { result ≡ (if is_name bytes.now then Some bytes.now else None) }
    {
        if !is_name(bytes) {
            return None;
        }
        Some(Name {
            text: text_of(bytes),
        })
    }

    /// The name as text.
    pub fn as_str(&self) -> &str
        ensures text { result.now ≡ self.now }
        ensures rule { is_name self.now ≡ true }
    {
        self.text.as_str()
    }
}

fn is_name(bytes: &[u8]) -> bool
    ensures { result ≡ is_name bytes.now }
{
    matches!(bytes.len(), 1..=MAX_NAME) && all_name_bytes(bytes)
}

fn all_name_bytes(bytes: &[u8]) -> bool
    ensures { result ≡ list_all is_name_byte bytes.now }
{
    bytes.iter().all(|byte| is_name_byte(*byte))
}

fn text_of(bytes: &[u8]) -> ArrayString<MAX_NAME>
    requires { is_name bytes.now ≡ true }
    ensures { result.bytes ≡ bytes.now }
{
    let Ok(text) = str::from_utf8(bytes) else {
        unreachable!() // each byte of a name is ASCII
    };
    let Ok(text) = ArrayString::from(text) else {
        unreachable!() // a name isn't longer than `MAX_NAME`
    };
    text
}

fn is_name_byte(byte: u8) -> bool
    ensures { result ≡ is_name_byte byte }
{
    matches!(byte, b'a'..=b'z' | b'0'..=b'9' | b'_' | b'-')
}

impl Clone for Name {
    ghost is_clone = { λ name copy. copy ≡ name };

    ghost is_infallible = { λ _. ⊤ };

    fn clone(&self) -> Result<Name, AllocError> {
        Ok(Name { text: self.text })
    }
}

impl PartialEq for Name {
    ghost eq = { bytes_eq };

    ghost laws = { partial_equiv_from_equiv nat_list_eq_equiv };

    fn eq(&self, other: &Name) -> bool {
        self.text == other.text
    }
}

impl Eq for Name {
    ghost laws = { nat_list_eq_equiv };
}

impl Hash for Name {
    ghost hash_input = { fed.str };

    ghost respects_eq = { Prim.search (hashing, rules) };

    fn hash<H: Hasher>(&self, state: &mut H) {
        self.text.hash(state);
    }
}

impl fmt::Display for Name {
    ghost output = { λ name. Some name };

    fn fmt<W: fmt::Write>(&self, f: &mut fmt::Formatter<W>) -> fmt::Result {
        f.pad(self.as_str())
    }
}
