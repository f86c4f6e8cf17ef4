//! Outlines: tables of the headings of a document, of its events or of its block result, each heading with its level,
//! its text, its range and its id.
#![tactic(auto)]

mod entries;
mod entry;
mod headings;
pub mod laws;
mod of_blocks;
mod of_text;
mod read;

pub use entry::Entry;
pub use headings::{ends_heading, text_added};
pub use of_blocks::outline_of;
pub use of_text::outline_source;
pub use read::outline;
