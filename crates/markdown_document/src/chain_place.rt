//! The place of a chain: what its rules read of the text, what is read of it, and the blocks that are open above it.
use markdown_base::item::Item;
use markdown_base::syntax::Syntax;

/// The place of a chain in a text.
#[derive(Clone, Copy, Drop)]
pub struct ChainPlace<'a, 'p> {
    /// The whole text.
    pub text: &'a str,
    /// The byte offset past which nothing is scanned: the end of the innermost block.
    pub block_end: usize,
    /// Whether that block is a cell of a table.
    pub in_table: bool,
    /// The containers that the chain is in, the outermost first: of the blocks above it those that have a part in the
    /// beginning of each line.
    pub containers: &'p [Item],
    /// What is read of the text.
    pub syntax: Syntax,
}
