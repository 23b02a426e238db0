//! The planner: what is said of an errand, and from a book, a start and an errand to a route, its length, and the move at each of its places.
#![tactic(auto)]

mod judged;
mod lookup;
mod order;
mod planning;
mod recipes;
mod route;

pub use judged::judge;
pub use planning::plan;
pub use route::Route;
