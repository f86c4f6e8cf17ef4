//! Scanners of what begins at a byte of a text, by CommonMark: a module for each family of scanners except raw HTML.
#![tactic(auto)]

pub mod ascii_kinds;
pub mod autolink;
mod backslash;
pub mod container_parts;
pub mod destination;
pub mod email;
pub mod entity;
pub mod label;
mod label_end;
mod label_text;
pub mod laws;
pub mod line_end;
pub mod line_prefix;
pub mod line_rule;
pub mod line_start;
pub mod unescape;
pub mod wikilink_pipe;
