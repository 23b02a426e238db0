//! Tests by example of what the other crates do.
#![tactic(auto)]

#[cfg(test)]
mod judgements;
#[cfg(test)]
mod table;
#[cfg(test)]
mod texts;
