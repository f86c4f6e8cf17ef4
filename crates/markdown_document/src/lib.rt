//! The definitions that the rules of chains use: how the items of a document read, what resolving its chains depends
//! on, and counts of the work that this takes.
#![tactic(auto)]

pub mod chain_place;
pub mod work;
