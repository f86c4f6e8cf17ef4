//! The block pass: from a text to the tree of its blocks, with open inline items.
#![tactic(auto)]

mod beginnings;
mod block_pass;
mod containers;
mod leaves;
mod looseness;
mod paragraph;
mod pass;
mod placing;
mod stretches;
mod table_state;
mod tables;

pub use block_pass::blocks;
