//! Lines and columns of byte offsets of a text.
#![tactic(auto)]

mod position;
mod positions;

pub use position::Position;
pub use positions::Positions;
