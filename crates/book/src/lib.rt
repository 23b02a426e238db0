//! Books of moves as values: names of latches, partial settings, moves, books and errands.
#![tactic(auto)]

mod asking;
mod blank;
mod book;
mod errand;
mod moves;
mod name;
mod naming;
mod partial;

pub use book::{Book, MOST_LATCHES, MOST_MOVES};
pub use errand::Errand;
pub use moves::Move;
pub use name::Name;
pub use naming::is_name_char;
pub use partial::PartialSetting;
