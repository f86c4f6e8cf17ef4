//! What is written of the events of a text with what is added to them: links of bare addresses, ids of headings, and a prefix
//! of all ids.
#![tactic(auto)]

mod additions;
mod events;
mod headings;
mod links;
mod placed;
mod unplaced;
mod written;

pub use additions::{Additions, Ids};
pub use headings::headings_source;
pub use links::links_source;
pub use placed::placed_lines_source;
pub use unplaced::Unplaced;
pub use written::{Form, written_source};
