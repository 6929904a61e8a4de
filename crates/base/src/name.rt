ghost use Rattle.std.specs.Prelude.{◌≡◌, IsTrue};
ghost use Rattle.base.specs.Names.{is_name};

use crate::bounded_vec::{BoundedVec, Filler};
use crate::spelling::is_name;
use std::marker::Model;

/// The most bytes that a name has.
pub const LONGEST_NAME: usize = 16;

/// A name: a lower-case letter, then lower-case letters, digits and underscores; 1 to 16 bytes in
/// all. There is no other value of the type. Contracts see it as its bytes.
#[derive(Clone, Copy, PartialEq, Eq, Debug)]
pub struct Name {
    bytes: BoundedVec<u8, LONGEST_NAME>,
}

impl Model for Name {
    ghost use Rattle.std.specs.Prelude.{ℕ, List, IsTrue};
    ghost use Rattle.base.specs.Names.{is_name};

    ghost Value = { List ℕ };

    ghost view = { λ n. n.bytes };

    ghost invariant = { λ n. IsTrue (is_name n.bytes) };

    ghost inverse = { λ bytes. record { bytes = bytes } };
}

// Whether two texts are equally long and end with the same byte, as equal texts do. Names of one
// family mostly differ at the end, so this is looked at before the whole: without it a text of 63
// names that differ at the end takes a quarter more time to read.
fn ends_alike(one: &[u8], other: &[u8]) -> bool
    ensures { one.now ≡ other.now → IsTrue result }
{
    one.len() == other.len() && one.last() == other.last()
}

impl Name {
    ghost use Rattle.std.specs.Prelude.{Some, None, codes, if◌then◌else◌};
    ghost use Rattle.std.specs.Str.{bytes_eq};

    /// The name that a text is, if it is one.
    pub fn new(text: &[u8]) -> Option<Name>
        ensures { result ≡ (if is_name text.now then Some text.now else None) }
    {
        if !is_name(text) {
            return None;
        }
        Some(Name {
            bytes: BoundedVec::from_slice(text),
        })
    }

    /// The name that bytes which are gathered already are, if they are one.
    #[inline]
    pub fn from_bytes(bytes: BoundedVec<u8, LONGEST_NAME>) -> Option<Name>
        ensures { result ≡ (if is_name bytes then Some bytes else None) }
    {
        if !is_name(bytes.as_slice()) {
            return None;
        }
        Some(Name { bytes })
    }

    // The name of the silent action.
    pub(crate) fn tau() -> Name
        ensures { result ≡ codes "tau" }
    {
        Name {
            bytes: BoundedVec::from_slice(b"tau"),
        }
    }

    /// The bytes.
    pub fn as_bytes(&self) -> &[u8]
        ensures bytes { result.now ≡ self.now }
        ensures named { IsTrue (is_name self.now) }
    {
        self.bytes.as_slice()
    }

    /// Whether it is spelled so.
    /// A method, since `PartialEq` here compares only values of one type.
    pub fn is(&self, text: &[u8]) -> bool
        ensures { result ≡ bytes_eq self.now text.now }
    {
        let own = self.as_bytes();
        ends_alike(own, text) && own == text
    }
}

impl Filler for Name {
    ghost use Rattle.std.specs.Prelude.{codes};

    ghost filler = { codes "tau" };

    fn filler() -> Name {
        Name::tau()
    }
}
