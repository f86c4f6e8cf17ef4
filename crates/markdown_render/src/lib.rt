//! Rendering: the HTML of a text or of what is left of a parser, with neighbouring texts merged or not; and the program
//! over any reader and two writers.
#![tactic(auto)]

pub mod command;
pub mod laws;
pub mod merged;
pub mod pushed;
pub mod rendering;
pub mod run;
pub mod words;

pub use merged::merged_html;
pub use rendering::{render, render_extended, render_source};
