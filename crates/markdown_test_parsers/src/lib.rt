//! Helpers of the tests' crates that read texts: parsers, their callbacks, and the HTML of events.
#![tactic(auto)]

pub mod callbacks;
pub mod faults;
pub mod html;
pub mod made;
pub mod outlines;
pub mod parsers;
pub mod sound;
