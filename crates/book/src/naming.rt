//! Making names, and reading them.
ghost use Rattle.std.specs.Prelude.{◌≡◌, true, false, Some, MatchOption};
ghost use Rattle.book.specs.Names.{name_char, well_named};
ghost use Rattle.book.specs.Places.{name_of};

use crate::name::{MOST_CHARS, Name};
use std::fmt;

/// Whether a name may have this character: A to Z, 0 to 9 or a hyphen.
pub fn is_name_char(c: char) -> bool
    ensures { result ≡ name_char c }
{
    match c {
        'A'..='Z' | '0'..='9' | '-' => true,
        _ => false,
    }
}

impl Name {
    /// The name that these bytes are: 1 to 11 characters, each one that a name may have.
    pub fn from_bytes(v: &[u8]) -> Option<Name>
        ensures { MatchOption result (well_named v.now ≡ false) (λ n. (well_named v.now ≡ true) × (name_of n ≡ v.now)) }
    {
        if v.is_empty() || v.len() > MOST_CHARS {
            return None;
        }
        if !v.iter().all(|b| is_name_char(char::from(*b))) {
            return None;
        }
        let mut bytes = [0; MOST_CHARS];
        bytes[..v.len()].copy_from_slice(v);
        Some(Name {
            bytes,
            len: v.len() as u8,
        })
    }

    /// The characters of the name, as bytes.
    pub fn as_bytes(&self) -> &[u8]
        ensures { result.now ≡ name_of self.now }
    {
        &self.bytes[..self.len as usize]
    }

    /// The characters of the name, as text.
    pub fn as_str(&self) -> &str
        ensures { result.now ≡ name_of self.now }
    {
        std::str::from_utf8(self.as_bytes()).unwrap()
    }
}

impl fmt::Display for Name {
    ghost output = { λ name. Some (name_of name) };

    fn fmt<W: fmt::Write>(&self, f: &mut fmt::Formatter<W>) -> fmt::Result {
        f.write_str(self.as_str())
    }
}
