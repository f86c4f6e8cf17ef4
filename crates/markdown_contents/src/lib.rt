//! A table of contents of headings: a nested list of links to them, as Markdown and as HTML.
#![tactic(auto)]

pub mod contents;
pub mod html_list;

pub use contents::{list_in, list_of};
pub use html_list::html_list_of;
