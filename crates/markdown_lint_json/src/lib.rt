//! What linters and link checkers read, a line of JSON for each: the links and images of a text; and the lines of links and
//! of headings with lines and columns.
#![tactic(auto)]

mod asked;
pub mod broken;
pub mod events;
pub mod links;
pub mod outline;
mod place;

pub use broken::{broken_source, push_broken, push_broken_with_places};
pub use events::push_json_with_places;
pub use links::{links_json_source, push_links, push_links_with_places};
pub use outline::push_outline_with_places;
pub use place::Place;
