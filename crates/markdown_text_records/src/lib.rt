//! The records of a text: its events, the questions between them and its link reference definitions.
#![tactic(auto)]

mod answering;
mod definitions;
mod fold;
mod html;
pub mod laws;
mod questions;
mod reading;

pub use fold::fold_label;
pub use html::{html_of_records, safe_html_of_records};
pub use reading::records_source;
