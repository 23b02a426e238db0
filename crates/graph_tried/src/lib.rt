//! Trials of the search, in a graph that is a table.
#![tactic(auto)]

pub mod table;
#[cfg(test)]
mod tests;
