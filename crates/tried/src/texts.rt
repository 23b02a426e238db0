//! Reading texts: a table of rows, what is read, and the longest texts.
use crate::table::{BOOKS, ERRANDS, Row};
use booktext::{has_text, read_book, read_errand};
use format::{Fault, TextRefusal};
use std::alloc::{AllocError, Global};
use std::process::Abort;
use std::test::Fail;

/// The refusal of a text for this fault at this line.
fn refused(fault: Fault, line: u32) -> Option<TextRefusal> {
    Some(TextRefusal { fault, line })
}

/// Reads the text of each row, and compares what it comes to.
fn read_rows<T: Drop, F: Fn(&[u8]) -> Result<T, TextRefusal>>(
    rt: &impl Abort,
    rows: &[Row],
    read: F,
)
    requires { F.IsAlwaysCallable read }
{
    for row in rows {
        assert_eq!(rt; read(row.text).err(), row.refusal, "{}", row.name);
    }
}

#[test]
fn books(rt: HostRuntime) {
    read_rows(&rt, &BOOKS, |text| read_book(text));
}

#[test]
fn errands(rt: HostRuntime) {
    read_rows(&rt, &ERRANDS, |text| read_errand(text));
}

#[test]
fn fault_numbers(rt: HostRuntime) {
    assert_eq!(rt; Fault::Line.number(), 1);
    assert_eq!(rt; Fault::Value.number(), 2);
    assert_eq!(rt; Fault::Name.number(), 3);
    assert_eq!(rt; Fault::Latch.number(), 4);
    assert_eq!(rt; Fault::Item.number(), 5);
    assert_eq!(rt; Fault::Length.number(), 6);
}

#[test]
fn contents(rt: HostRuntime) -> Result<(), Fail> {
    let errand = read_errand(
        b"book=1\nlatches=2\nlatch=AB\nlatch=C\nmoves=1\nmove=C\nto=1\nwhen=AB:0 C:1\nstart=01\nwant=AB:1\n",
    )?;
    let book = errand.book;
    assert_eq!(rt; book.latches, 2);
    assert_eq!(rt; book.count, 1);
    assert!(rt; book.names[0].as_bytes() == b"AB".as_slice());
    assert!(rt; book.names[1].as_bytes() == b"C".as_slice());
    assert!(rt; book.names[2].as_bytes().is_empty());
    assert_eq!(rt; book.moves[0].latch, 1);
    assert!(rt; book.moves[0].to);
    assert_eq!(rt; u32::from(book.moves[0].when.named), 3);
    assert_eq!(rt; u32::from(book.moves[0].when.ones), 2);
    assert_eq!(rt; u32::from(errand.start), 2);
    assert_eq!(rt; u32::from(errand.want.named), 1);
    assert_eq!(rt; u32::from(errand.want.ones), 1);
    assert!(rt; has_text(&book));
    Ok(())
}

/// The largest book: 32 latches with names of 11 characters, and 128 moves that ask something of each latch.
fn largest(heap: Global) -> Result<String, AllocError> {
    let mut text = String::from_str(heap, "book=1\nlatches=32\n")?;
    let mut list = String::new(heap);
    for i in 0..32u8 {
        let name = format!(in heap; "LATCH-{i:05}")?;
        let space = if i > 0 { " " } else { "" };
        writeln!(text, "latch={name}")?;
        write!(list, "{space}{name}:1")?;
    }
    writeln!(text, "moves=128")?;
    for _ in 0..128u8 {
        writeln!(text, "move=LATCH-00031\nto=0\nwhen={list}")?;
    }
    Ok(text)
}

#[test]
fn largest_book(rt: HostRuntime) -> Result<(), Fail> {
    let text = largest(rt.alloc())?;
    assert_eq!(rt; text.len(), 61_404);
    let book = read_book(text.as_bytes())?;
    assert_eq!(rt; book.latches, 32);
    assert_eq!(rt; book.count, 128);
    assert_eq!(rt; u32::from(book.moves[127].when.ones), u32::MAX);
    Ok(())
}

#[test]
fn long_texts(rt: HostRuntime) {
    assert_eq!(rt;
        read_book(&[98; 65_537]).err(),
        refused(Fault::Length, 1),
        "65,537 bytes"
    );
    assert_eq!(rt;
        read_book(&[98; 65_536]).err(),
        refused(Fault::Line, 1),
        "65,536 bytes of one line without a line feed"
    );
    assert_eq!(rt;
        read_errand(&[98; 65_537]).err(),
        refused(Fault::Length, 1),
        "65,537 bytes as an errand"
    );
}

/// A text with 65,000 bytes of a name or a value between these.
fn long_line(heap: Global, before: &str, after: &str) -> Result<String, AllocError> {
    let long = "A".repeat(heap, 65_000)?;
    format!(in heap; "{before}{long}{after}")
}

#[test]
fn long_lines(rt: HostRuntime) -> Result<(), Fail> {
    let heap = rt.alloc();
    let name = long_line(heap, "book=1\nlatches=1\nlatch=", "\nmoves=0\n")?;
    assert_eq!(rt;
        read_book(name.as_bytes()).err(),
        refused(Fault::Name, 3),
        "a name of 65,000 bytes"
    );
    let number = long_line(heap, "book=1\nlatches=", "\n")?;
    assert_eq!(rt;
        read_book(number.as_bytes()).err(),
        refused(Fault::Value, 2),
        "a number of 65,000 bytes"
    );
    let item = long_line(
        heap,
        "book=1\nlatches=1\nlatch=A\nmoves=0\nstart=0\nwant=",
        ":1\n",
    )?;
    assert_eq!(rt;
        read_errand(item.as_bytes()).err(),
        refused(Fault::Latch, 6),
        "an item of 65,000 bytes"
    );
    Ok(())
}
