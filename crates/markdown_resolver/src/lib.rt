//! Resolving chains: what a chain of inline items is resolved to, and the resolver that resolves it in place.
#![tactic(auto)]

pub mod blocks_above;
mod bracket_kind;
mod brackets;
pub mod continuation;
mod found;
pub mod laws;
pub mod links;
mod literal_text;
mod markup;
pub mod resolver;
mod spans;
