//! How the parts of links are read in a block.
use crate::footnote::FootnoteStyle;
use markdown_scan::entity::EntityNames;
use std::alloc::Global;

/// How the parts of links are read in a block.
#[derive(Drop)]
pub struct BlockRules<'r, R> {
    pub alloc: Global,
    /// The rule for the beginnings of lines.
    pub rule: &'r R,
    /// Whether the block is a cell of a table.
    pub in_table: bool,
    /// The names by which entities are read.
    pub names: EntityNames,
    /// How the labels of footnotes are read.
    pub style: FootnoteStyle,
}

/// What is replaced in a destination and a title: escapes, as in a table or not, and entities by these names.
#[derive(Clone, Copy)]
pub struct Replacing {
    pub in_table: bool,
    pub names: EntityNames,
}
