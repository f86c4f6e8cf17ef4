//! The HTML of events, which `push_html` writes, and the merge of neighbouring texts.
#![tactic(auto)]

mod escape;
pub mod html;
pub mod laws;
pub mod merge;

pub use html::{HtmlRules, push_html, push_html_by};
pub use merge::{TextMergeStream, TextMergeWithOffset};
