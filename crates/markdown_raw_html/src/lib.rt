//! Raw HTML, by CommonMark: tags, and the four kinds that end at their first closing bytes.
#![tactic(auto)]

mod byte_kind;
mod closing;
pub mod html_tag;
pub mod laws;
pub mod raw_html;
mod tag_grammar;
mod tag_parts;
mod tag_text;
