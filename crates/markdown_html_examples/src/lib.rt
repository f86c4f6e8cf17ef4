//! What the HTML of CommonMark's examples is, by the definition.
#![tactic(auto)]

pub mod examples;
