//! The items that the block pass makes of a text, each with its source range.
use crate::index::{AlignmentIndex, CowIndex, HeadingIndex, LinkIndex};
use crate::tag::{BlockQuoteKind, HeadingLevel, MetadataBlockKind};

/// The kind of an item. The eight bodies from `MaybeEmphasis` to `MaybeImage` are open: whether they are markup is
/// decided when their chain is resolved.
#[derive(Clone, Copy, Debug, PartialEq, Eq, Drop)]
pub enum ItemBody {
    /// A character of a delimiter run: the number of characters from this one to the run's end, whether the run can
    /// open, whether it can close.
    MaybeEmphasis(u32, bool, bool),
    /// A `$`: whether it can open, whether it can close, its brace context.
    MaybeMath(bool, bool, u8),
    /// A quotation mark: its byte, whether it can open, whether it can close.
    MaybeSmartQuote(u8, bool, bool),
    /// A run of backticks: its length, whether a backslash precedes it.
    MaybeCode(u32, bool),
    /// A `<`.
    MaybeHtml,
    /// A `[`.
    MaybeLinkOpen,
    /// A `]`: whether the brackets that it closes could be a reference.
    MaybeLinkClose(bool),
    /// A `![`.
    MaybeImage,
    Emphasis,
    Strong,
    Strikethrough,
    Superscript,
    Subscript,
    /// Math: its text, whether it is display math.
    Math(CowIndex, bool),
    /// A code span: its text.
    Code(CowIndex),
    Link(LinkIndex),
    Image(LinkIndex),
    /// A footnote reference: the footnote's name.
    FootnoteReference(CowIndex),
    /// The marker of a task list item: whether the task is done.
    TaskListMarker(bool),
    /// Raw HTML that is the bytes of the range.
    InlineHtml,
    /// Raw HTML whose range contains line prefixes: its text without them.
    OwnedInlineHtml(CowIndex),
    /// Text that replaces the bytes of the range.
    SynthesizeText(CowIndex),
    /// A character that replaces the bytes of the range.
    SynthesizeChar(char),
    /// A line of an HTML block.
    Html,
    /// Text that is the bytes of the range: whether a backslash escapes the first of them.
    Text { backslash_escaped: bool },
    SoftBreak,
    /// A hard line break: whether it is written with a backslash.
    HardBreak(bool),
    /// The tree's root.
    Root,
    Paragraph,
    /// A paragraph of a tight list, which has no events of its own.
    TightParagraph,
    /// A thematic break.
    Rule,
    /// A heading: its level, the attributes in braces after it, if any.
    Heading(HeadingLevel, Option<HeadingIndex>),
    /// A fenced code block: its info string.
    FencedCodeBlock(CowIndex),
    IndentCodeBlock,
    HtmlBlock,
    /// A block quote: its kind, if it is one of GitHub's.
    BlockQuote(Option<BlockQuoteKind>),
    /// A list: whether it is tight, its marker's character, its first number.
    List(bool, u8, u64),
    /// A list item: the indentation of its content in columns.
    ListItem(usize),
    /// A footnote definition: its name.
    FootnoteDefinition(CowIndex),
    MetadataBlock(MetadataBlockKind),
    /// A definition list: whether it is tight.
    DefinitionList(bool),
    /// A block whose kind the block pass has not decided.
    MaybeDefinitionListTitle,
    DefinitionListTitle,
    /// A definition: the indentation of its content in columns.
    DefinitionListDefinition(usize),
    /// A table: its alignments.
    Table(AlignmentIndex),
    TableHead,
    TableRow,
    TableCell,
}

/// A body with its source range: the bytes from `start` up to, but not including, `end`.
#[derive(Clone, Copy, Debug, PartialEq, Eq, Drop)]
pub struct Item {
    pub start: usize,
    pub end: usize,
    pub body: ItemBody,
}

// Where a match below ends in a rest, `Item.antt` has each body, and the clause fails for one that does not belong there.
impl ItemBody {
    ghost use Rattle.std.specs.Prelude.{◌≡◌};
    ghost use Rattle.std.specs.Option.{option_map};
    ghost use Rattle.markdown_base.specs.Item.{is_open, is_inline, is_childless, is_resolved, is_block, is_table_cell};
    ghost use Rattle.markdown_base.specs.Item.{is_tight_paragraph, is_unplaced, text_named, alignments_named, attributes_named};

    /// Returns whether the body is open: one of the eight bodies from `MaybeEmphasis` to `MaybeImage`, whose meaning is
    /// decided when their chain is resolved.
    pub fn is_open(self) -> bool
        ensures { result ≡ is_open self }
    {
        match self {
            ItemBody::MaybeEmphasis(_, _, _)
            | ItemBody::MaybeMath(_, _, _)
            | ItemBody::MaybeSmartQuote(_, _, _)
            | ItemBody::MaybeCode(_, _)
            | ItemBody::MaybeHtml
            | ItemBody::MaybeLinkOpen
            | ItemBody::MaybeLinkClose(_)
            | ItemBody::MaybeImage => true,
            _ => false,
        }
    }

    /// Returns whether the body is inline: open, or settled by the block pass.
    pub fn is_inline(self) -> bool
        ensures { result ≡ is_inline self }
    {
        match self {
            ItemBody::TaskListMarker(_)
            | ItemBody::InlineHtml
            | ItemBody::OwnedInlineHtml(_)
            | ItemBody::Html
            | ItemBody::SynthesizeText(_)
            | ItemBody::SynthesizeChar(_)
            | ItemBody::Text { .. }
            | ItemBody::SoftBreak
            | ItemBody::HardBreak(_) => true,
            other => other.is_open(),
        }
    }

    /// Returns whether the body can have no children: it is inline, or a thematic break.
    pub fn is_childless(self) -> bool
        ensures { result ≡ is_childless self }
    {
        match self {
            ItemBody::Rule => true,
            other => other.is_inline(),
        }
    }

    /// Returns whether the body is one that open items are resolved to.
    pub fn is_resolved(self) -> bool
        ensures { result ≡ is_resolved self }
    {
        match self {
            ItemBody::Emphasis
            | ItemBody::Strong
            | ItemBody::Strikethrough
            | ItemBody::Superscript
            | ItemBody::Subscript
            | ItemBody::Math(_, _)
            | ItemBody::Code(_)
            | ItemBody::Link(_)
            | ItemBody::Image(_)
            | ItemBody::FootnoteReference(_) => true,
            _ => false,
        }
    }

    /// Returns whether the body is a block: neither inline nor resolved.
    pub fn is_block(self) -> bool
        ensures { result ≡ is_block self }
    {
        !(self.is_inline() || self.is_resolved())
    }

    /// Returns whether the body is a table's cell.
    pub fn is_table_cell(self) -> bool
        ensures { result ≡ is_table_cell self }
    {
        matches!(self, ItemBody::TableCell)
    }

    /// Returns whether the body is a paragraph of a tight list.
    pub fn is_tight_paragraph(self) -> bool
        ensures { result ≡ is_tight_paragraph self }
    {
        match self {
            ItemBody::TightParagraph => true,
            _ => false,
        }
    }

    /// Returns whether the body is the root, or a block whose kind is not decided.
    pub fn is_unplaced(self) -> bool
        ensures { result ≡ is_unplaced self }
    {
        match self {
            ItemBody::Root | ItemBody::MaybeDefinitionListTitle => true,
            _ => false,
        }
    }

    /// Returns the number of the heading attributes that the body refers to.
    pub fn attributes_named(self) -> Option<HeadingIndex>
        ensures { option_map (λ ix. ix.0) result ≡ attributes_named self }
    {
        match self {
            ItemBody::Heading(_, named) => named,
            _ => None,
        }
    }

    /// Returns the number of the text that the body refers to.
    pub fn text_named(self) -> Option<CowIndex>
        ensures { option_map (λ ix. ix.0) result ≡ text_named self }
    {
        match self {
            ItemBody::Math(ix, _)
            | ItemBody::Code(ix)
            | ItemBody::FootnoteReference(ix)
            | ItemBody::OwnedInlineHtml(ix)
            | ItemBody::SynthesizeText(ix)
            | ItemBody::FencedCodeBlock(ix)
            | ItemBody::FootnoteDefinition(ix) => Some(ix),
            _ => None,
        }
    }

    /// Returns the number of the alignments that the body refers to.
    pub fn alignments_named(self) -> Option<AlignmentIndex>
        ensures { option_map (λ ix. ix.0) result ≡ alignments_named self }
    {
        match self {
            ItemBody::Table(ix) => Some(ix),
            _ => None,
        }
    }
}
