//! Texts as JSON: a line for each event, with its range, or for each heading; the entries of an outline as JSON; and
//! the program that prints events, over any reader and two writers.
#![tactic(auto)]

pub mod outline;
pub mod outline_lines;
pub mod run;
pub mod text;

pub use outline::{outline_json, outline_json_extended, outline_json_source};
pub use outline_lines::{push_outline, push_outline_with_ids};
pub use text::{text_json, text_json_extended, text_json_source};
