//! Ids of headings: each heading without an id gets the anchor of its text, with a number where that is taken.
#![tactic(auto)]

mod adapter;
mod anchor;
mod category;
pub mod id_laws;
pub mod laws;
mod of_blocks;
pub mod prefix_laws;
mod prefixed;
mod taken;

pub use adapter::HeadingIds;
pub use anchor::heading_anchor;
pub use prefixed::Prefixed;
pub use taken::Taken;
