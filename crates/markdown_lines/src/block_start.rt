//! What a line begins (CommonMark, chapter 4, 5.1 and 5.2).

use crate::atx_heading::AtxHeading;
use crate::fence::OpeningFence;
use crate::html_kind::HtmlKind;
use crate::list_marker::ListMarker;
use crate::position::Position;
use markdown_base::cow_str::CowStr;
use markdown_base::tag::{BlockQuoteKind, HeadingLevel, MetadataBlockKind};

/// The paragraph that a line may go on with.
#[derive(Clone, Copy, Drop)]
pub enum Before {
    /// none is open
    NoParagraph,
    /// one in containers whose prefix the line lacks, so that it may be a lazy continuation line
    Lazy,
    /// one that the line reaches
    Reached,
}

/// A list item that begins: its marker, the columns of its indentation, and the place where its content begins.
#[derive(Clone, Copy, Drop)]
pub struct ItemStart {
    pub marker: ListMarker,
    pub indent: usize,
    pub inside: Position,
}

/// What the rest of a line begins.
#[derive(Drop)]
pub enum BlockStart<'a> {
    /// nothing: it is blank
    Nothing,
    /// text: a paragraph, or more of the open one
    Text,
    /// indented code, from a place on
    IndentedCode(Position),
    /// a block quote, with the place after its marker
    Quote(Position),
    /// an alert of a kind, a block quote of which the whole line is the marker
    Alert(BlockQuoteKind),
    /// an ATX heading
    Heading(AtxHeading),
    /// fenced code
    Fence(OpeningFence),
    /// an HTML block
    Html(HtmlKind),
    /// a footnote definition, with its label and the place after its marker
    Footnote(CowStr<'a>, Position),
    /// nothing, but it makes the open paragraph a setext heading of this level
    Underline(HeadingLevel),
    /// a thematic break
    ThematicBreak,
    /// a list item
    Item(ItemStart),
    /// metadata of a kind, with the line that opens it
    Metadata(MetadataBlockKind),
}

/// What the rest of a line begins, and the byte offset of the first byte of it that is neither a space nor a tab, or of
/// the end of the line's content.
#[derive(Drop)]
pub struct Begun<'a> {
    pub at: usize,
    pub start: BlockStart<'a>,
}
