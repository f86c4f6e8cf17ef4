//! A builder of block results: whatever its calls make of a text is well formed and covers the text.
#![tactic(auto)]

pub mod builder;
pub mod open_block;
mod run_bytes;
mod tight;
mod tree_steps;

pub use run_bytes::run_end;
