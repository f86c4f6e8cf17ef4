//! Pairs the delimiter runs, the quotes and the last hard break of a chain of inline items in place: the characters of
//! an opener become nodes around what lies between it and its closer.
#![tactic(auto)]

mod bounds;
pub mod chain;
mod close;
mod extensions;
pub mod laws;
mod layers;
mod nodes;
pub mod open_runs;
mod pair;
mod quotes;
mod read;
pub mod run;
