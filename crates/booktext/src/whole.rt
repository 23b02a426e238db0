//! Whole books, errands and texts.
ghost use Rattle.std.specs.Prelude.{◌≡◌, ◌≤◌, true, IfOk, Ok, map, take, nat_lt};
ghost use Rattle.std.specs.Fn.{FnOnceReturnsAtMut};
ghost use Rattle.book.specs.declared.book.Book.{Book as AnyBook};
ghost use Rattle.book.specs.declared.errand.Errand.{Errand as AnyErrand};
ghost use Rattle.format.specs.Reader.{got};
ghost use Rattle.format.specs.Reading.{book as book_read, errand as errand_read, read_book, read_errand};
ghost use Rattle.format.specs.Said.{contents_of, errand_contents_of, reading_of, rule_of, Told};
ghost use Rattle.format.specs.Texts.{text_of, errand_text_of, HasOneText};
ghost use Rattle.booktext.specs.Kept.{Kept};
ghost use Rattle.booktext.specs.Read.{WholeRead};

use crate::lines::LineReader;
use crate::names::Names;
use book::{Book, Errand, MOST_LATCHES, MOST_MOVES, Move};
use format::TextRefusal;

impl LineReader<'_> {
    /// The lines of a book.
    fn book(&mut self) -> Result<Book, TextRefusal>
        ensures { Told result (book_read self.old) (λ b. got (contents_of b) self.new) }
    {
        self.book_line()?;
        let latches = self.number_line(b"latches=", 1, MOST_LATCHES as u8)?;
        let names = self.latch_lines(latches)?;
        let count = self.number_line(b"moves=", 0, MOST_MOVES as u8)?;
        let moves = self.all_moves(&names, count)?;
        Ok(bound(names, count, moves))
    }

    /// The lines of an errand.
    fn errand(&mut self) -> Result<Errand, TextRefusal>
        ensures { Told result (errand_read self.old) (λ e. got (errand_contents_of e) self.new) }
    {
        let book = self.book()?;
        let start = self.start_line(book.latches)?;
        let table = book.names;
        let count = book.latches;
        let names = Names { table, count };
        let want = self.items_line(b"want=", &names)?;
        Ok(Errand { book, start, want })
    }
}

/// The book of these names and moves.
fn bound(names: Names, count: u8, moves: [Move; MOST_MOVES]) -> Book
    requires { Kept names count moves }
    ensures { contents_of result ≡ record { names = names; rules = map rule_of (take count moves) } }
{
    let Names {
        table: names,
        count: latches,
    } = names;
    Book {
        latches,
        names,
        count,
        moves,
    }
}

/// What the lines of a whole text are read as.
fn whole<'a, T: Drop, F: FnOnce(&mut LineReader<'a>) -> Result<T, TextRefusal>>(
    text: &'a [u8],
    read: F,
) -> Result<T, TextRefusal>
    requires { F.IsAlwaysCallable read }
    ensures { WholeRead (FnOnceReturnsAtMut F.FnOnce read) text.now result }
{
    let mut lines = LineReader::new(text)?;
    let said = read(&mut lines)?;
    lines.end()?;
    Ok(said)
}

/// The book that a text says, or why the text is refused. Exactly the texts of books with a latch are accepted, and each gives the book
/// whose text it is.
pub fn read_book(text: &[u8]) -> Result<Book, TextRefusal>
    ensures reads { reading_of contents_of result ≡ read_book text.now }
    ensures says { IfOk result (λ b. (1 ≤ b.latches) × (text.now ≡ text_of b)) }
    ensures finds { (b : AnyBook) → 1 ≤ b.latches → text.now ≡ text_of b → result ≡ Ok b }
{
    whole(text, LineReader::book)
}

/// The errand that a text says, or why the text is refused. Exactly the texts of errands of books with a latch are accepted, and each gives
/// the errand whose text it is.
pub fn read_errand(text: &[u8]) -> Result<Errand, TextRefusal>
    ensures reads { reading_of errand_contents_of result ≡ read_errand text.now }
    ensures says { IfOk result (λ e. (1 ≤ e.book.latches) × (text.now ≡ errand_text_of e)) }
    ensures finds { (e : AnyErrand) → 1 ≤ e.book.latches → text.now ≡ errand_text_of e → result ≡ Ok e }
{
    whole(text, LineReader::errand)
}

/// Whether the book has a latch.
fn has_latch(book: &Book) -> bool
    ensures { result ≡ nat_lt 0 book.now.latches }
{
    book.latches > 0
}

/// Whether a book has a text: it does if it has a latch. It then has exactly one, which is within the limit, and no other book with a latch
/// has the same.
pub fn has_text(book: &Book) -> bool
    ensures when { result ≡ nat_lt 0 book.now.latches }
    ensures text { result ≡ true → HasOneText book.now }
{
    has_latch(book)
}
