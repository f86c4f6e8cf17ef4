//! Look-ups of what a block result defines; the parts that its items refer to by number; and callbacks for references
//! with an undefined link label.
#![tactic(auto)]

mod allocations;
mod callback;
mod definitions;
mod folding;
mod footnotes;
pub mod laws;

pub use allocations::Allocations;
pub use callback::{
    BoxedCallback, BrokenLink, BrokenLinkCallback, Closure, DefaultBrokenLinkCallback,
};
pub use definitions::{RefDefs, RefDefsIter};
pub use footnotes::{Absence, FootnoteDef, FootnoteDefs};
pub use markdown_base::block_parts::{HeadingAttributes, LinkDef};
