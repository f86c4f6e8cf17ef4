//! CommonMark's sentences about blocks as laws of their definition, and its examples. There is no code that runs.
#![tactic(auto)]

pub mod examples;
pub mod laws;
