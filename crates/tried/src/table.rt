//! Texts, with what reading each of them comes to.
use format::{Fault, TextRefusal};

/// A text, and why it is refused; nothing where it is accepted.
pub(crate) struct Row {
    pub(crate) name: &'static str,
    pub(crate) text: &'static [u8],
    pub(crate) refusal: Option<TextRefusal>,
}

/// Texts read as books.
pub(crate) const BOOKS: [Row; 77] = [
    Row {
        name: "one latch, no move",
        text: b"book=1\nlatches=1\nlatch=A\nmoves=0\n",
        refusal: None,
    },
    Row {
        name: "a move with no condition",
        text: b"book=1\nlatches=2\nlatch=A\nlatch=B\nmoves=1\nmove=A\nto=1\nwhen=\n",
        refusal: None,
    },
    Row {
        name: "a move with two conditions",
        text: b"book=1\nlatches=2\nlatch=A\nlatch=B\nmoves=1\nmove=B\nto=0\nwhen=A:0 B:1\n",
        refusal: None,
    },
    Row {
        name: "eleven characters",
        text: b"book=1\nlatches=1\nlatch=ABCDEFGHI-9\nmoves=0\n",
        refusal: None,
    },
    Row {
        name: "hyphens and digits alone",
        text: b"book=1\nlatches=3\nlatch=-\nlatch=0\nlatch=0-0\nmoves=1\nmove=0\nto=1\nwhen=-:1 0-0:0\n",
        refusal: None,
    },
    Row {
        name: "the same move twice",
        text: b"book=1\nlatches=1\nlatch=A\nmoves=2\nmove=A\nto=1\nwhen=\nmove=A\nto=1\nwhen=\n",
        refusal: None,
    },
    Row {
        name: "empty text",
        text: b"",
        refusal: Some(TextRefusal {
            fault: Fault::Line,
            line: 1,
        }),
    },
    Row {
        name: "no line feed at the end of line 1",
        text: b"book=1",
        refusal: Some(TextRefusal {
            fault: Fault::Line,
            line: 1,
        }),
    },
    Row {
        name: "a colon for the equals sign",
        text: b"book:1\n",
        refusal: Some(TextRefusal {
            fault: Fault::Line,
            line: 1,
        }),
    },
    Row {
        name: "an empty line first",
        text: b"\n",
        refusal: Some(TextRefusal {
            fault: Fault::Line,
            line: 1,
        }),
    },
    Row {
        name: "a space before the key",
        text: b" book=1\n",
        refusal: Some(TextRefusal {
            fault: Fault::Line,
            line: 1,
        }),
    },
    Row {
        name: "a key in capitals",
        text: b"BOOK=1\n",
        refusal: Some(TextRefusal {
            fault: Fault::Line,
            line: 1,
        }),
    },
    Row {
        name: "line 2 absent",
        text: b"book=1\n",
        refusal: Some(TextRefusal {
            fault: Fault::Line,
            line: 2,
        }),
    },
    Row {
        name: "latch= where latches= is due",
        text: b"book=1\nlatch=1\n",
        refusal: Some(TextRefusal {
            fault: Fault::Line,
            line: 2,
        }),
    },
    Row {
        name: "line 3 absent",
        text: b"book=1\nlatches=1\n",
        refusal: Some(TextRefusal {
            fault: Fault::Line,
            line: 3,
        }),
    },
    Row {
        name: "moves= where a second latch is due",
        text: b"book=1\nlatches=2\nlatch=A\nmoves=0\n",
        refusal: Some(TextRefusal {
            fault: Fault::Line,
            line: 4,
        }),
    },
    Row {
        name: "a third latch line",
        text: b"book=1\nlatches=2\nlatch=A\nlatch=B\nlatch=C\nmoves=0\n",
        refusal: Some(TextRefusal {
            fault: Fault::Line,
            line: 5,
        }),
    },
    Row {
        name: "no line feed at the end of moves=0",
        text: b"book=1\nlatches=1\nlatch=A\nmoves=0",
        refusal: Some(TextRefusal {
            fault: Fault::Line,
            line: 4,
        }),
    },
    Row {
        name: "an empty line behind the last",
        text: b"book=1\nlatches=1\nlatch=A\nmoves=0\n\n",
        refusal: Some(TextRefusal {
            fault: Fault::Line,
            line: 5,
        }),
    },
    Row {
        name: "bytes behind the last line",
        text: b"book=1\nlatches=1\nlatch=A\nmoves=0\nx",
        refusal: Some(TextRefusal {
            fault: Fault::Line,
            line: 5,
        }),
    },
    Row {
        name: "a move too many",
        text: b"book=1\nlatches=1\nlatch=A\nmoves=0\nmove=A\nto=1\nwhen=\n",
        refusal: Some(TextRefusal {
            fault: Fault::Line,
            line: 5,
        }),
    },
    Row {
        name: "the when line absent",
        text: b"book=1\nlatches=1\nlatch=A\nmoves=1\nmove=A\nto=1\n",
        refusal: Some(TextRefusal {
            fault: Fault::Line,
            line: 7,
        }),
    },
    Row {
        name: "to and when exchanged",
        text: b"book=1\nlatches=1\nlatch=A\nmoves=1\nmove=A\nwhen=\nto=1\n",
        refusal: Some(TextRefusal {
            fault: Fault::Line,
            line: 6,
        }),
    },
    Row {
        name: "a book's text with start behind it",
        text: b"book=1\nlatches=1\nlatch=A\nmoves=0\nstart=0\nwant=\n",
        refusal: Some(TextRefusal {
            fault: Fault::Line,
            line: 5,
        }),
    },
    Row {
        name: "book=2",
        text: b"book=2\n",
        refusal: Some(TextRefusal {
            fault: Fault::Value,
            line: 1,
        }),
    },
    Row {
        name: "book with no value",
        text: b"book=\n",
        refusal: Some(TextRefusal {
            fault: Fault::Value,
            line: 1,
        }),
    },
    Row {
        name: "book=1 with a carriage return",
        text: b"book=1\r\n",
        refusal: Some(TextRefusal {
            fault: Fault::Value,
            line: 1,
        }),
    },
    Row {
        name: "an equals sign inside the value of book",
        text: b"book=1=1\n",
        refusal: Some(TextRefusal {
            fault: Fault::Value,
            line: 1,
        }),
    },
    Row {
        name: "latches=0",
        text: b"book=1\nlatches=0\n",
        refusal: Some(TextRefusal {
            fault: Fault::Value,
            line: 2,
        }),
    },
    Row {
        name: "latches=33",
        text: b"book=1\nlatches=33\n",
        refusal: Some(TextRefusal {
            fault: Fault::Value,
            line: 2,
        }),
    },
    Row {
        name: "a leading zero",
        text: b"book=1\nlatches=01\n",
        refusal: Some(TextRefusal {
            fault: Fault::Value,
            line: 2,
        }),
    },
    Row {
        name: "a space behind the number",
        text: b"book=1\nlatches=1 \n",
        refusal: Some(TextRefusal {
            fault: Fault::Value,
            line: 2,
        }),
    },
    Row {
        name: "no number",
        text: b"book=1\nlatches=\n",
        refusal: Some(TextRefusal {
            fault: Fault::Value,
            line: 2,
        }),
    },
    Row {
        name: "a sign",
        text: b"book=1\nlatches=+1\n",
        refusal: Some(TextRefusal {
            fault: Fault::Value,
            line: 2,
        }),
    },
    Row {
        name: "a number beyond 64 bits",
        text: b"book=1\nlatches=18446744073709551617\n",
        refusal: Some(TextRefusal {
            fault: Fault::Value,
            line: 2,
        }),
    },
    Row {
        name: "moves=129",
        text: b"book=1\nlatches=1\nlatch=A\nmoves=129\n",
        refusal: Some(TextRefusal {
            fault: Fault::Value,
            line: 4,
        }),
    },
    Row {
        name: "moves=00",
        text: b"book=1\nlatches=1\nlatch=A\nmoves=00\n",
        refusal: Some(TextRefusal {
            fault: Fault::Value,
            line: 4,
        }),
    },
    Row {
        name: "to=2",
        text: b"book=1\nlatches=1\nlatch=A\nmoves=1\nmove=A\nto=2\n",
        refusal: Some(TextRefusal {
            fault: Fault::Value,
            line: 6,
        }),
    },
    Row {
        name: "to with no value",
        text: b"book=1\nlatches=1\nlatch=A\nmoves=1\nmove=A\nto=\n",
        refusal: Some(TextRefusal {
            fault: Fault::Value,
            line: 6,
        }),
    },
    Row {
        name: "to=01",
        text: b"book=1\nlatches=1\nlatch=A\nmoves=1\nmove=A\nto=01\n",
        refusal: Some(TextRefusal {
            fault: Fault::Value,
            line: 6,
        }),
    },
    Row {
        name: "an empty name",
        text: b"book=1\nlatches=1\nlatch=\n",
        refusal: Some(TextRefusal {
            fault: Fault::Name,
            line: 3,
        }),
    },
    Row {
        name: "a small letter",
        text: b"book=1\nlatches=1\nlatch=a\n",
        refusal: Some(TextRefusal {
            fault: Fault::Name,
            line: 3,
        }),
    },
    Row {
        name: "twelve characters",
        text: b"book=1\nlatches=1\nlatch=ABCDEFGHIJKL\n",
        refusal: Some(TextRefusal {
            fault: Fault::Name,
            line: 3,
        }),
    },
    Row {
        name: "a space in a name",
        text: b"book=1\nlatches=1\nlatch=A B\n",
        refusal: Some(TextRefusal {
            fault: Fault::Name,
            line: 3,
        }),
    },
    Row {
        name: "an equals sign in a name",
        text: b"book=1\nlatches=1\nlatch=A=B\n",
        refusal: Some(TextRefusal {
            fault: Fault::Name,
            line: 3,
        }),
    },
    Row {
        name: "a byte above 127 in a name",
        text: b"book=1\nlatches=1\nlatch=A\xc3\x84\n",
        refusal: Some(TextRefusal {
            fault: Fault::Name,
            line: 3,
        }),
    },
    Row {
        name: "a carriage return behind a name",
        text: b"book=1\nlatches=1\nlatch=A\r\n",
        refusal: Some(TextRefusal {
            fault: Fault::Name,
            line: 3,
        }),
    },
    Row {
        name: "a name taken",
        text: b"book=1\nlatches=2\nlatch=A\nlatch=A\n",
        refusal: Some(TextRefusal {
            fault: Fault::Name,
            line: 4,
        }),
    },
    Row {
        name: "a name taken by latch 1",
        text: b"book=1\nlatches=3\nlatch=A\nlatch=B\nlatch=B\n",
        refusal: Some(TextRefusal {
            fault: Fault::Name,
            line: 5,
        }),
    },
    Row {
        name: "a move of no latch",
        text: b"book=1\nlatches=1\nlatch=A\nmoves=1\nmove=B\n",
        refusal: Some(TextRefusal {
            fault: Fault::Latch,
            line: 5,
        }),
    },
    Row {
        name: "a move with no name",
        text: b"book=1\nlatches=1\nlatch=A\nmoves=1\nmove=\n",
        refusal: Some(TextRefusal {
            fault: Fault::Latch,
            line: 5,
        }),
    },
    Row {
        name: "a move of a name in small letters",
        text: b"book=1\nlatches=1\nlatch=A\nmoves=1\nmove=a\n",
        refusal: Some(TextRefusal {
            fault: Fault::Latch,
            line: 5,
        }),
    },
    Row {
        name: "an item of no latch",
        text: b"book=1\nlatches=1\nlatch=A\nmoves=1\nmove=A\nto=0\nwhen=B:1\n",
        refusal: Some(TextRefusal {
            fault: Fault::Latch,
            line: 7,
        }),
    },
    Row {
        name: "an item with two endings",
        text: b"book=1\nlatches=1\nlatch=A\nmoves=1\nmove=A\nto=0\nwhen=A:0:1\n",
        refusal: Some(TextRefusal {
            fault: Fault::Latch,
            line: 7,
        }),
    },
    Row {
        name: "an equals sign in an item",
        text: b"book=1\nlatches=1\nlatch=A\nmoves=1\nmove=A\nto=0\nwhen=A=:1\n",
        refusal: Some(TextRefusal {
            fault: Fault::Latch,
            line: 7,
        }),
    },
    Row {
        name: "a tab between items",
        text: b"book=1\nlatches=2\nlatch=A\nlatch=B\nmoves=1\nmove=A\nto=0\nwhen=A:0\tB:0\n",
        refusal: Some(TextRefusal {
            fault: Fault::Latch,
            line: 8,
        }),
    },
    Row {
        name: "an item with no ending",
        text: b"book=1\nlatches=1\nlatch=A\nmoves=1\nmove=A\nto=0\nwhen=A\n",
        refusal: Some(TextRefusal {
            fault: Fault::Item,
            line: 7,
        }),
    },
    Row {
        name: "an item with no name",
        text: b"book=1\nlatches=1\nlatch=A\nmoves=1\nmove=A\nto=0\nwhen=:1\n",
        refusal: Some(TextRefusal {
            fault: Fault::Item,
            line: 7,
        }),
    },
    Row {
        name: "an item that asks 2",
        text: b"book=1\nlatches=1\nlatch=A\nmoves=1\nmove=A\nto=0\nwhen=A:2\n",
        refusal: Some(TextRefusal {
            fault: Fault::Item,
            line: 7,
        }),
    },
    Row {
        name: "a space alone",
        text: b"book=1\nlatches=1\nlatch=A\nmoves=1\nmove=A\nto=0\nwhen= \n",
        refusal: Some(TextRefusal {
            fault: Fault::Item,
            line: 7,
        }),
    },
    Row {
        name: "a space behind the last item",
        text: b"book=1\nlatches=1\nlatch=A\nmoves=1\nmove=A\nto=0\nwhen=A:0 \n",
        refusal: Some(TextRefusal {
            fault: Fault::Item,
            line: 7,
        }),
    },
    Row {
        name: "a space before the first item",
        text: b"book=1\nlatches=1\nlatch=A\nmoves=1\nmove=A\nto=0\nwhen= A:0\n",
        refusal: Some(TextRefusal {
            fault: Fault::Item,
            line: 7,
        }),
    },
    Row {
        name: "the same latch twice",
        text: b"book=1\nlatches=1\nlatch=A\nmoves=1\nmove=A\nto=0\nwhen=A:0 A:0\n",
        refusal: Some(TextRefusal {
            fault: Fault::Item,
            line: 7,
        }),
    },
    Row {
        name: "falling items",
        text: b"book=1\nlatches=2\nlatch=A\nlatch=B\nmoves=1\nmove=A\nto=0\nwhen=B:0 A:0\n",
        refusal: Some(TextRefusal {
            fault: Fault::Item,
            line: 8,
        }),
    },
    Row {
        name: "two spaces in a row",
        text: b"book=1\nlatches=2\nlatch=A\nlatch=B\nmoves=1\nmove=A\nto=0\nwhen=A:0  B:0\n",
        refusal: Some(TextRefusal {
            fault: Fault::Item,
            line: 8,
        }),
    },
    Row {
        name: "a carriage return behind an item",
        text: b"book=1\nlatches=1\nlatch=A\nmoves=1\nmove=A\nto=0\nwhen=A:0\r\n",
        refusal: Some(TextRefusal {
            fault: Fault::Item,
            line: 7,
        }),
    },
    Row {
        name: "a wrong key before a wrong value",
        text: b"book=1\nlatch=33\n",
        refusal: Some(TextRefusal {
            fault: Fault::Line,
            line: 2,
        }),
    },
    Row {
        name: "a wrong value without a line feed",
        text: b"book=1\nlatches=33",
        refusal: Some(TextRefusal {
            fault: Fault::Line,
            line: 2,
        }),
    },
    Row {
        name: "a malformed name under a wrong key",
        text: b"book=1\nlatches=1\nlatches=a\n",
        refusal: Some(TextRefusal {
            fault: Fault::Line,
            line: 3,
        }),
    },
    Row {
        name: "an unknown latch without a line feed",
        text: b"book=1\nlatches=1\nlatch=A\nmoves=1\nmove=B",
        refusal: Some(TextRefusal {
            fault: Fault::Line,
            line: 5,
        }),
    },
    Row {
        name: "a bad item without a line feed",
        text: b"book=1\nlatches=1\nlatch=A\nmoves=1\nmove=A\nto=0\nwhen=A",
        refusal: Some(TextRefusal {
            fault: Fault::Line,
            line: 7,
        }),
    },
    Row {
        name: "a malformed name in line 3 before bytes behind",
        text: b"book=1\nlatches=1\nlatch=a\nmoves=0\n\n",
        refusal: Some(TextRefusal {
            fault: Fault::Name,
            line: 3,
        }),
    },
    Row {
        name: "a bad ending of an unknown latch",
        text: b"book=1\nlatches=1\nlatch=A\nmoves=1\nmove=A\nto=0\nwhen=B:2\n",
        refusal: Some(TextRefusal {
            fault: Fault::Item,
            line: 7,
        }),
    },
    Row {
        name: "an unknown latch below the item before",
        text: b"book=1\nlatches=2\nlatch=A\nlatch=B\nmoves=1\nmove=A\nto=0\nwhen=B:0 C:0\n",
        refusal: Some(TextRefusal {
            fault: Fault::Latch,
            line: 8,
        }),
    },
    Row {
        name: "an ending before the rise",
        text: b"book=1\nlatches=2\nlatch=A\nlatch=B\nmoves=1\nmove=A\nto=0\nwhen=B:0 A:2\n",
        refusal: Some(TextRefusal {
            fault: Fault::Item,
            line: 8,
        }),
    },
    Row {
        name: "a good item behind a bad one",
        text: b"book=1\nlatches=2\nlatch=A\nlatch=B\nmoves=1\nmove=A\nto=0\nwhen=C:0 A\n",
        refusal: Some(TextRefusal {
            fault: Fault::Latch,
            line: 8,
        }),
    },
    Row {
        name: "a bad ending behind an unknown latch",
        text: b"book=1\nlatches=2\nlatch=A\nlatch=B\nmoves=1\nmove=A\nto=0\nwhen=A C:0\n",
        refusal: Some(TextRefusal {
            fault: Fault::Item,
            line: 8,
        }),
    },
];

/// Texts read as errands.
pub(crate) const ERRANDS: [Row; 17] = [
    Row {
        name: "nothing wanted",
        text: b"book=1\nlatches=1\nlatch=A\nmoves=0\nstart=0\nwant=\n",
        refusal: None,
    },
    Row {
        name: "two wanted",
        text: b"book=1\nlatches=2\nlatch=A\nlatch=B\nmoves=0\nstart=01\nwant=A:1 B:0\n",
        refusal: None,
    },
    Row {
        name: "start absent",
        text: b"book=1\nlatches=1\nlatch=A\nmoves=0\n",
        refusal: Some(TextRefusal {
            fault: Fault::Line,
            line: 5,
        }),
    },
    Row {
        name: "want absent",
        text: b"book=1\nlatches=1\nlatch=A\nmoves=0\nstart=0\n",
        refusal: Some(TextRefusal {
            fault: Fault::Line,
            line: 6,
        }),
    },
    Row {
        name: "want before start",
        text: b"book=1\nlatches=1\nlatch=A\nmoves=0\nwant=\nstart=0\n",
        refusal: Some(TextRefusal {
            fault: Fault::Line,
            line: 5,
        }),
    },
    Row {
        name: "when= for want=",
        text: b"book=1\nlatches=1\nlatch=A\nmoves=0\nstart=1\nwhen=\n",
        refusal: Some(TextRefusal {
            fault: Fault::Line,
            line: 6,
        }),
    },
    Row {
        name: "a line behind want",
        text: b"book=1\nlatches=1\nlatch=A\nmoves=0\nstart=1\nwant=A:1\n\n",
        refusal: Some(TextRefusal {
            fault: Fault::Line,
            line: 7,
        }),
    },
    Row {
        name: "no line feed behind want",
        text: b"book=1\nlatches=1\nlatch=A\nmoves=0\nstart=1\nwant=A:1",
        refusal: Some(TextRefusal {
            fault: Fault::Line,
            line: 6,
        }),
    },
    Row {
        name: "a digit too many",
        text: b"book=1\nlatches=1\nlatch=A\nmoves=0\nstart=00\nwant=\n",
        refusal: Some(TextRefusal {
            fault: Fault::Value,
            line: 5,
        }),
    },
    Row {
        name: "a digit too few",
        text: b"book=1\nlatches=2\nlatch=A\nlatch=B\nmoves=0\nstart=0\nwant=\n",
        refusal: Some(TextRefusal {
            fault: Fault::Value,
            line: 6,
        }),
    },
    Row {
        name: "no digit",
        text: b"book=1\nlatches=1\nlatch=A\nmoves=0\nstart=\nwant=\n",
        refusal: Some(TextRefusal {
            fault: Fault::Value,
            line: 5,
        }),
    },
    Row {
        name: "start=2",
        text: b"book=1\nlatches=1\nlatch=A\nmoves=0\nstart=2\nwant=\n",
        refusal: Some(TextRefusal {
            fault: Fault::Value,
            line: 5,
        }),
    },
    Row {
        name: "a good start of the wrong key",
        text: b"book=1\nlatches=1\nlatch=A\nmoves=0\nstarts=0\nwant=\n",
        refusal: Some(TextRefusal {
            fault: Fault::Line,
            line: 5,
        }),
    },
    Row {
        name: "a want of no latch",
        text: b"book=1\nlatches=1\nlatch=A\nmoves=0\nstart=1\nwant=B:0\n",
        refusal: Some(TextRefusal {
            fault: Fault::Latch,
            line: 6,
        }),
    },
    Row {
        name: "a want with no ending",
        text: b"book=1\nlatches=1\nlatch=A\nmoves=0\nstart=1\nwant=A\n",
        refusal: Some(TextRefusal {
            fault: Fault::Item,
            line: 6,
        }),
    },
    Row {
        name: "a falling want",
        text: b"book=1\nlatches=2\nlatch=A\nlatch=B\nmoves=0\nstart=11\nwant=B:0 A:0\n",
        refusal: Some(TextRefusal {
            fault: Fault::Item,
            line: 7,
        }),
    },
    Row {
        name: "a fault in the book before one in the errand",
        text: b"book=1\nlatches=1\nlatch=A\nmoves=x\nstart=2\nwant=\n",
        refusal: Some(TextRefusal {
            fault: Fault::Value,
            line: 4,
        }),
    },
];
