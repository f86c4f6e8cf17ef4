//! The links and images of a document, of its events or of its text, each with where it leads, its text and its range.
#![tactic(auto)]

mod events;
mod found;
mod link;
mod list;
mod of_text;
mod read;
mod so_far;

pub use link::Link;
pub use list::LinkList;
pub use of_text::links_source;
pub use read::links;
