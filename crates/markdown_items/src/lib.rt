//! The inline items of one line's content, which a block pass appends to the leaf block that contains the line.
#![tactic(auto)]

mod around;
mod dashes;
mod delimiter_run;
mod extensions;
mod flanking;
mod found;
mod line_items;
mod marks;
mod special;

pub use line_items::items;
