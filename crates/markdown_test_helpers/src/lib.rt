//! Helpers of the tests' crates that need no more than the base types: rows of tables, iterators
//! over lists, events, and trees with their parts.
#![tactic(auto)]

pub mod documents;
pub mod events;
pub mod lists;
pub mod notes;
pub mod parts;
pub mod rows;
pub mod trees;
