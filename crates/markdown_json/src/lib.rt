//! Events as JSON, a line for each with its range: what `serde` writes for the types of `pulldown_cmark`.
#![tactic(auto)]

mod array;
mod escape;
mod events;
mod heading;
pub mod laws;
mod link;
pub mod pieces;
pub mod push;
mod tag_ends;
mod tags;
mod value;
mod words;

pub use pieces::{Piece, push_pieces};
pub use push::{push_json, push_line_start};
pub use words::link_type_text;
