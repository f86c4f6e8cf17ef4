//! The page that HTML stands in, and where its title comes from.
#![tactic(auto)]

pub mod laws;
mod line;
pub mod page;
mod quoted;
pub mod style;
pub mod title;
mod value;

pub use page::{Page, Style, page_html};
pub use title::{file_title, heading_title, metadata_title};
