//! Tasks in normal form: a book, a start and an errand as the planner keeps them, and their class.
#![tactic(auto)]

mod class;
mod edges;
mod kinds;
mod normal;
mod task;

pub use edges::is_asked;
pub use task::{NormalMove, NormalTask};
