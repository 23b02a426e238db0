//! Reads the texts of books and errands, and says at which line the first thing is wrong.
#![tactic(auto)]

mod entries;
mod items;
mod lines;
mod names;
mod parts;
mod value;
mod whole;

pub use whole::{has_text, read_book, read_errand};
