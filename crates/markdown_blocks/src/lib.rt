//! Block results: the check of one that is passed in, and the one of a text.
#![tactic(auto)]

mod blocks;
mod chain;
mod markup;
mod named;
mod reach;
mod rules;
mod runs;
mod seen;

pub use blocks::Blocks;
pub use markdown_base::block_parts::BlockParts;
pub use markdown_base::fault::Fault;
