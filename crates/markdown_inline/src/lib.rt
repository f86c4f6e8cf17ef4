//! The walk over a well-formed block result: a parser whose events are the reading of its tree. A chain of inline items
//! is resolved when the walk reaches it.
#![tactic(auto)]

mod bodies;
mod heading;
pub mod laws;
pub mod runs;
mod step;
pub mod walk;

pub use bitflags::Flags;
pub use markdown_base::cow_str::CowStr;
pub use markdown_base::event::Event;
pub use markdown_base::fault::Fault;
pub use markdown_base::inline_str::InlineStr;
pub use markdown_base::options::Options;
pub use markdown_base::syntax::Syntax;
pub use markdown_base::tag::{
    Alignment, BlockQuoteKind, CodeBlockKind, HeadingLevel, LinkType, MetadataBlockKind, Tag,
    TagEnd,
};
pub use markdown_blocks::Blocks;
pub use markdown_defs::{
    BoxedCallback, BrokenLink, BrokenLinkCallback, Closure, DefaultBrokenLinkCallback, RefDefs,
};
pub use walk::{OffsetIter, Parser};
