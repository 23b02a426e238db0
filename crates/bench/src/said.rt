//! What a book says of its latches, as text.
use book::{Book, PartialSetting};
use std::fmt;

/// The name of a latch of the book; a latch that the book lacks has none.
pub(crate) fn name(book: &Book, latch: u8) -> &str {
    book.names
        .get(usize::from(latch))
        .map_or("", |name| name.as_str())
}

/// The items that a partial setting stands for, `NAME:0` or `NAME:1`, with a space between two.
#[derive(Clone, Copy)]
pub(crate) struct Items<'a> {
    pub(crate) book: &'a Book,
    pub(crate) asked: PartialSetting,
}

impl fmt::Display for Items<'_> {
    fn fmt<W: fmt::Write>(&self, f: &mut fmt::Formatter<W>) -> fmt::Result {
        let named = (0..self.book.latches).filter(|latch| self.asked.named.contains(*latch));
        for (i, latch) in named.enumerate() {
            let space = if i > 0 { " " } else { "" };
            let name = name(self.book, latch);
            let at = u8::from(self.asked.ones.contains(latch));
            write!(f, "{space}{name}:{at}")?;
        }
        Ok(())
    }
}
