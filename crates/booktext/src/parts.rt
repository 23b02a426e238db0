//! The latches and the moves of a book.
ghost use Rattle.std.specs.Prelude.{◌≡◌, ◌≤◌, [], map, length, take, IfOk};
ghost use Rattle.words.specs.Sets.{most_latches};
ghost use Rattle.book.specs.Limits.{most_moves};
ghost use Rattle.format.specs.Reader.{got};
ghost use Rattle.format.specs.Reading.{latches as latches_read, rule as rule_read, rules as rules_read};
ghost use Rattle.format.specs.Said.{rule_of, Told};
ghost use Rattle.booktext.specs.Kept.{SpeaksOf, MovedUntil};

use crate::lines::LineReader;
use crate::names::Names;
use book::{Book, MOST_MOVES, Move};
use format::TextRefusal;

impl LineReader<'_> {
    /// The lines of `n` latches.
    pub(crate) fn latch_lines(&mut self, n: u8) -> Result<Names, TextRefusal>
        requires { n ≤ most_latches }
        ensures { Told result (latches_read n [] self.old) (λ names. got names self.new) }
    {
        let mut names = Names::none();
        for _i in 0..n {
            let name = self.latch_line(&names)?;
            names.push(name);
        }
        Ok(names)
    }

    /// The three lines of a move.
    pub(crate) fn move_lines(&mut self, names: &Names) -> Result<Move, TextRefusal>
        ensures told { Told result (rule_read names.now self.old) (λ m. got (rule_of m) self.new) }
        ensures own { IfOk result (SpeaksOf (length names.now)) }
    {
        let latch = self.thrown_line(names)?;
        let to = self.target_line()?;
        let when = self.items_line(b"when=", names)?;
        Ok(Move { latch, to, when })
    }

    /// The lines of `count` moves.
    pub(crate) fn all_moves(
        &mut self,
        names: &Names,
        count: u8,
    ) -> Result<[Move; MOST_MOVES], TextRefusal>
        requires { count ≤ most_moves }
        ensures told { Told result (rules_read count names.now [] self.old) (λ moves. got (map rule_of (take count moves)) self.new) }
        ensures table { IfOk result (MovedUntil (length names.now) count) }
    {
        let mut moves = Book::blank().moves;
        for place in moves[..count as usize].iter_mut() {
            *place = self.move_lines(names)?;
        }
        Ok(moves)
    }
}
