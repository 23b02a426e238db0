//! The lines of books and errands, one at a time.
ghost use Rattle.std.specs.Prelude.{◌≡◌, ◌≤◌, [], length, IfOk, codes};
ghost use Rattle.words.specs.Sets.{Below, most_latches};
ghost use Rattle.book.specs.Places.{name_of};
ghost use Rattle.format.specs.Reader.{got, entry as line_entry};
ghost use Rattle.format.specs.Said.{items_of, positions_of, Told};
ghost use Rattle.format.specs.Values.{only, number as numbered, position as positioned, new_name, latch as latched, item_list, positions as all_positions};

use crate::lines::LineReader;
use crate::names::Names;
use crate::value::{number, position, positions, version};
use book::{Name, PartialSetting};
use format::{Fault, TextRefusal};
use words::LatchSet;

impl LineReader<'_> {
    /// The line `book=1`.
    pub(crate) fn book_line(&mut self) -> Result<(), TextRefusal>
        ensures { Told result (line_entry (codes "book=") (only (codes "1")) self.old) (λ _. got tt self.new) }
    {
        self.entry(b"book=", version)
    }

    /// A line whose value is a number from `low` to `high`.
    pub(crate) fn number_line(&mut self, key: &[u8], low: u8, high: u8) -> Result<u8, TextRefusal>
        ensures { Told result (line_entry key.now (numbered low high) self.old) (λ n. got n self.new) }
    {
        self.entry(key, |v| number(v, low, high))
    }

    /// The line of one more latch, behind those of these names.
    pub(crate) fn latch_line(&mut self, names: &Names) -> Result<Name, TextRefusal>
        ensures { Told result (line_entry (codes "latch=") (new_name names.now) self.old) (λ name. got (name_of name) self.new) }
    {
        self.entry(b"latch=", |v| names.new_name(v))
    }

    /// The line that names the latch which a move throws.
    pub(crate) fn thrown_line(&mut self, names: &Names) -> Result<u8, TextRefusal>
        ensures { Told result (line_entry (codes "move=") (latched names.now) self.old) (λ latch. got latch self.new) }
    {
        self.entry(b"move=", |v| names.latch(v))
    }

    /// The line that says to where a move throws its latch.
    pub(crate) fn target_line(&mut self) -> Result<bool, TextRefusal>
        ensures { Told result (line_entry (codes "to=") positioned self.old) (λ to. got to self.new) }
    {
        self.entry(b"to=", |v| position(v).ok_or(Fault::Value))
    }

    /// A line whose value is a list of items.
    pub(crate) fn items_line(
        &mut self,
        key: &[u8],
        names: &Names,
    ) -> Result<PartialSetting, TextRefusal>
        ensures told { Told result (line_entry key.now (item_list names.now) self.old) (λ p. got (items_of p) self.new) }
        ensures below { IfOk result (λ p. Below (length names.now) p.named) }
    {
        self.entry(key, |v| names.items(v))
    }

    /// The line that says how `n` latches stand at the start.
    pub(crate) fn start_line(&mut self, n: u8) -> Result<LatchSet, TextRefusal>
        requires { n ≤ most_latches }
        ensures told { Told result (line_entry (codes "start=") (all_positions n []) self.old) (λ s. got (positions_of n s) self.new) }
        ensures below { IfOk result (Below n) }
    {
        self.entry(b"start=", |v| positions(v, n))
    }
}
