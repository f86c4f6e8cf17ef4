//! Safe HTML of texts that strangers wrote: an iterator that makes events safe, and the HTML of a text's safe events.
#![tactic(auto)]

pub mod adapter;
pub mod events;
pub mod laws;
mod nesting;
mod page_part;
mod raw;
pub mod rendering;
pub mod rules;
mod shown;
mod url;

pub use adapter::{Safe, SafeWithOffset};
pub use events::safe_event;
pub use page_part::is_page_part;
pub use rendering::{safe_html, safe_html_extended, safe_html_source, safe_html_with};
pub use rules::{Images, SafeRules};
