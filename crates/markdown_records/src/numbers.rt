//! The numbers of kinds, levels and types in records.
ghost use Rattle.std.specs.Prelude.{◌≡◌, ◌∷◌, []};
ghost use Rattle.markdown_records.specs.Numbers.{alignment_letter, bool_number, closed_kind};
ghost use Rattle.markdown_records.specs.Numbers.{end_detail, level_number, link_type_number};
ghost use Rattle.markdown_records.specs.Numbers.{metadata_number, quote_number};

use markdown_base::tag::{
    Alignment, BlockQuoteKind, HeadingLevel, LinkType, MetadataBlockKind, TagEnd,
};

pub(crate) const HEADING: u8 = 0x02;

pub(crate) const CODE_BLOCK: u8 = 0x04;

pub(crate) const LIST: u8 = 0x06;

pub(crate) const FOOTNOTE_DEFINITION: u8 = 0x08;

pub(crate) const TABLE: u8 = 0x0c;

pub(crate) const LINK: u8 = 0x15;

pub(crate) const IMAGE: u8 = 0x16;

pub(crate) const TEXT: u8 = 0x20;

pub(crate) const CODE: u8 = 0x21;

pub(crate) const INLINE_MATH: u8 = 0x22;

pub(crate) const DISPLAY_MATH: u8 = 0x23;

pub(crate) const HTML: u8 = 0x24;

pub(crate) const INLINE_HTML: u8 = 0x25;

pub(crate) const FOOTNOTE_REFERENCE: u8 = 0x26;

pub(crate) const SOFT_BREAK: u8 = 0x27;

pub(crate) const HARD_BREAK: u8 = 0x28;

pub(crate) const RULE: u8 = 0x29;

pub(crate) const TASK_LIST_MARKER: u8 = 0x2a;
/// The kind of an End is this more than the kind of its Start.
pub(crate) const END: u8 = 0x40;

pub(crate) const QUESTION: u8 = 0x60;

pub(crate) const ANSWER: u8 = 0x61;

pub(crate) const DEFINITION: u8 = 0x62;
/// Kinds from this one on are those of parts.
pub(crate) const FIRST_PART: u8 = 0x80;

pub(crate) const TITLE: u8 = 0x81;

pub(crate) const LABEL: u8 = 0x82;

pub(crate) const CLASS: u8 = 0x83;

pub(crate) const NAME: u8 = 0x84;

pub(crate) const VALUE: u8 = 0x85;

pub(crate) const DESTINATION: u8 = 0x86;

pub(crate) fn level_number(level: HeadingLevel) -> u8
    ensures { result ≡ level_number level }
{
    match level {
        HeadingLevel::H1 => 1,
        HeadingLevel::H2 => 2,
        HeadingLevel::H3 => 3,
        HeadingLevel::H4 => 4,
        HeadingLevel::H5 => 5,
        HeadingLevel::H6 => 6,
    }
}

fn quote_number(kind: Option<BlockQuoteKind>) -> u8
    ensures { result ≡ quote_number kind }
{
    match kind {
        None => 0,
        Some(BlockQuoteKind::Note) => 1,
        Some(BlockQuoteKind::Tip) => 2,
        Some(BlockQuoteKind::Important) => 3,
        Some(BlockQuoteKind::Warning) => 4,
        Some(BlockQuoteKind::Caution) => 5,
    }
}

fn metadata_number(kind: MetadataBlockKind) -> u8
    ensures { result ≡ metadata_number kind }
{
    match kind {
        MetadataBlockKind::YamlStyle => 0,
        MetadataBlockKind::PlusesStyle => 1,
    }
}

pub(crate) fn bool_number(value: bool) -> u8
    ensures { result ≡ bool_number value }
{
    if value { 1 } else { 0 }
}

pub(crate) fn link_type_number(kind: LinkType) -> u8
    ensures { result ≡ link_type_number kind }
{
    match kind {
        LinkType::Inline => 0,
        LinkType::Reference => 1,
        LinkType::ReferenceUnknown => 2,
        LinkType::Collapsed => 3,
        LinkType::CollapsedUnknown => 4,
        LinkType::Shortcut => 5,
        LinkType::ShortcutUnknown => 6,
        LinkType::Autolink => 7,
        LinkType::Email => 8,
        LinkType::WikiLink { has_pothole: false } => 9,
        LinkType::WikiLink { has_pothole: true } => 10,
    }
}

/// Returns the letter of a column's alignment.
pub(crate) fn alignment_letter(alignment: Alignment) -> &'static str
    ensures { result.now ≡ alignment_letter alignment ∷ [] }
{
    match alignment {
        Alignment::None => "n",
        Alignment::Left => "l",
        Alignment::Center => "c",
        Alignment::Right => "r",
    }
}

/// Returns the kind of the Start that an End closes.
pub(crate) fn closed_kind(tag: TagEnd) -> u8
    ensures { result ≡ closed_kind tag }
{
    match tag {
        TagEnd::Paragraph => 0x01,
        TagEnd::Heading(_) => HEADING,
        TagEnd::BlockQuote(_) => 0x03,
        TagEnd::CodeBlock => CODE_BLOCK,
        TagEnd::HtmlBlock => 0x05,
        TagEnd::List(_) => LIST,
        TagEnd::Item => 0x07,
        TagEnd::FootnoteDefinition => FOOTNOTE_DEFINITION,
        TagEnd::DefinitionList => 0x09,
        TagEnd::DefinitionListTitle => 0x0a,
        TagEnd::DefinitionListDefinition => 0x0b,
        TagEnd::Table => TABLE,
        TagEnd::TableHead => 0x0d,
        TagEnd::TableRow => 0x0e,
        TagEnd::TableCell => 0x0f,
        TagEnd::Emphasis => 0x10,
        TagEnd::Strong => 0x11,
        TagEnd::Strikethrough => 0x12,
        TagEnd::Superscript => 0x13,
        TagEnd::Subscript => 0x14,
        TagEnd::Link => LINK,
        TagEnd::Image => IMAGE,
        TagEnd::MetadataBlock(_) => 0x17,
    }
}

/// Returns the detail of an End.
pub(crate) fn end_detail(tag: TagEnd) -> u8
    ensures { result ≡ end_detail tag }
{
    match tag {
        TagEnd::Heading(level) => level_number(level),
        TagEnd::BlockQuote(kind) => quote_number(kind),
        TagEnd::List(ordered) => bool_number(ordered),
        TagEnd::MetadataBlock(kind) => metadata_number(kind),
        TagEnd::Paragraph
        | TagEnd::CodeBlock
        | TagEnd::HtmlBlock
        | TagEnd::Item
        | TagEnd::FootnoteDefinition
        | TagEnd::DefinitionList
        | TagEnd::DefinitionListTitle
        | TagEnd::DefinitionListDefinition
        | TagEnd::Table
        | TagEnd::TableHead
        | TagEnd::TableRow
        | TagEnd::TableCell
        | TagEnd::Emphasis
        | TagEnd::Strong
        | TagEnd::Strikethrough
        | TagEnd::Superscript
        | TagEnd::Subscript
        | TagEnd::Link
        | TagEnd::Image => 0,
    }
}
