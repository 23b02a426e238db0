//! The text format of books and errands: its faults, and the theorem that reading accepts exactly the texts of books and errands.
#![tactic(auto)]

ghost use Rattle.std.specs.Prelude.{◌≡◌};
ghost use Rattle.format.specs.Exactness.{Exact, OneText, ExactErrands};
ghost use Rattle.format.specs.Reading.{fault_number, most_bytes};

/// What can be wrong with a text, each with its number.
#[derive(Clone, Copy, PartialEq, Eq, Debug)]
pub enum Fault {
    /// A line is absent, has no line feed, has another key than the one due, or follows the last line.
    Line = 1,
    /// The value of `book`, `latches`, `moves`, `to` or `start` is not one allowed.
    Value = 2,
    /// A latch's name is malformed or taken.
    Name = 3,
    /// A move or an item names no latch.
    Latch = 4,
    /// An item does not end in `:0` or `:1` after at least one byte, or is not above the item before it.
    Item = 5,
    /// The text is too long.
    Length = 6,
}

impl Fault {
    /// The fault's number.
    pub fn number(self) -> u8
        ensures { result ≡ fault_number self }
    {
        self as u8
    }

    /// The refusal for this fault at a line.
    pub fn at(self, line: u32) -> TextRefusal
        ensures { result ≡ record { fault = self; line = line } }
    {
        TextRefusal { fault: self, line }
    }
}

/// Why a text is refused: the first thing wrong with it, and the line where that is, counted from 1.
#[derive(Clone, Copy, PartialEq, Eq, Debug)]
pub struct TextRefusal {
    pub fault: Fault,
    pub line: u32,
}

/// The most bytes that a text may have.
const MOST_BYTES: usize = 65_536;

/// The most bytes that a text may have. Reading accepts exactly the texts of books with a latch and of their errands, none of which is
/// longer, and such a book has exactly one text.
pub fn most_bytes() -> usize
    ensures bytes { result ≡ most_bytes }
    ensures exact { Exact }
    ensures one { OneText }
    ensures errands { ExactErrands }
{
    MOST_BYTES
}
