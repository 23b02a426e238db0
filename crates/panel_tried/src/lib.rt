//! Trials of the panels, and of a kind of panel that is not among them.
#![tactic(auto)]

pub mod board;
#[cfg(test)]
mod tests;
