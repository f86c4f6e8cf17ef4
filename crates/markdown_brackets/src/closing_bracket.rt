//! What a closing bracket becomes.
use crate::look_up::Target;
use crate::openers::Opener;
use crate::wikilink_nodes::ShownNodes;
use markdown_base::cow_str::CowStr;

/// What a `]` becomes.
#[derive(Debug, Drop)]
pub enum ClosedBracket<'a> {
    /// A Text.
    Text,
    /// A link or an image, from its opener to the byte offset `end`; the chain continues at the byte offset `next`.
    Link {
        opener: Opener,
        target: Target<'a>,
        end: usize,
        next: usize,
    },
    /// A footnote reference with this name, from its opener to the end of the `]`.
    Footnote {
        opener: Opener,
        name: CowStr<'a>,
    },
    /// A wikilink, as a link or as an image, from its opener to the byte offset `end`.
    Wikilinked {
        opener: Opener,
        name: &'a str,
        has_pothole: bool,
        shown: ShownNodes,
        end: usize,
    },
}
