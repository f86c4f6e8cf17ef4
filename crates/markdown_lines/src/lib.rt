//! What a line contains: where it ends, its columns, and which block its content begins; and what the lines of a
//! paragraph contain: link reference definitions and breaks. The block pass uses it.
#![tactic(auto)]

pub mod alert;
pub mod atx_heading;
pub mod block_start;
pub mod braces;
pub mod bytes;
pub mod definition;
pub mod fence;
pub mod heading_attributes;
pub mod held_line;
pub mod html_kind;
pub mod line;
pub mod line_break;
mod line_place;
pub mod line_reader;
pub mod lines_ahead;
pub mod list_marker;
pub mod metadata_block;
pub mod position;
pub mod space;
pub mod table_row;
pub mod task_marker;
pub mod thematic_break;
