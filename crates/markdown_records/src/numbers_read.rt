//! Kinds, levels and types by their numbers in records.
ghost use Rattle.std.specs.Prelude.{◌≡◌};
ghost use Rattle.markdown_records.specs.NumbersRead.{alignment_of, bare_end_of, bool_of, end_numbered};
ghost use Rattle.markdown_records.specs.NumbersRead.{level_numbered, link_type_of};
ghost use Rattle.markdown_records.specs.NumbersRead.{metadata_of, quote_numbered};

use markdown_base::tag::{
    Alignment, BlockQuoteKind, HeadingLevel, LinkType, MetadataBlockKind, TagEnd,
};

pub(crate) fn level_numbered(number: u8) -> Option<HeadingLevel>
    ensures { result ≡ level_numbered number }
{
    match number {
        1 => Some(HeadingLevel::H1),
        2 => Some(HeadingLevel::H2),
        3 => Some(HeadingLevel::H3),
        4 => Some(HeadingLevel::H4),
        5 => Some(HeadingLevel::H5),
        6 => Some(HeadingLevel::H6),
        _ => None,
    }
}

fn quote_numbered(number: u8) -> Option<Option<BlockQuoteKind>>
    ensures { result ≡ quote_numbered number }
{
    match number {
        0 => Some(None),
        1 => Some(Some(BlockQuoteKind::Note)),
        2 => Some(Some(BlockQuoteKind::Tip)),
        3 => Some(Some(BlockQuoteKind::Important)),
        4 => Some(Some(BlockQuoteKind::Warning)),
        5 => Some(Some(BlockQuoteKind::Caution)),
        _ => None,
    }
}

fn metadata_of(number: u8) -> Option<MetadataBlockKind>
    ensures { result ≡ metadata_of number }
{
    match number {
        0 => Some(MetadataBlockKind::YamlStyle),
        1 => Some(MetadataBlockKind::PlusesStyle),
        _ => None,
    }
}

pub(crate) fn bool_of(number: u8) -> Option<bool>
    ensures { result ≡ bool_of number }
{
    match number {
        0 => Some(false),
        1 => Some(true),
        _ => None,
    }
}

pub(crate) fn link_type_of(number: u8) -> Option<LinkType>
    ensures { result ≡ link_type_of number }
{
    match number {
        0 => Some(LinkType::Inline),
        1 => Some(LinkType::Reference),
        2 => Some(LinkType::ReferenceUnknown),
        3 => Some(LinkType::Collapsed),
        4 => Some(LinkType::CollapsedUnknown),
        5 => Some(LinkType::Shortcut),
        6 => Some(LinkType::ShortcutUnknown),
        7 => Some(LinkType::Autolink),
        8 => Some(LinkType::Email),
        9 => Some(LinkType::WikiLink { has_pothole: false }),
        10 => Some(LinkType::WikiLink { has_pothole: true }),
        _ => None,
    }
}

pub(crate) fn alignment_of(letter: u8) -> Option<Alignment>
    ensures { result ≡ alignment_of letter }
{
    match letter {
        b'n' => Some(Alignment::None),
        b'l' => Some(Alignment::Left),
        b'c' => Some(Alignment::Center),
        b'r' => Some(Alignment::Right),
        _ => None,
    }
}

/// Returns the End without a detail that closes a Start of this kind.
fn bare_end_of(kind: u8) -> Option<TagEnd>
    ensures { result ≡ bare_end_of kind }
{
    match kind {
        0x01 => Some(TagEnd::Paragraph),
        0x04 => Some(TagEnd::CodeBlock),
        0x05 => Some(TagEnd::HtmlBlock),
        0x07 => Some(TagEnd::Item),
        0x08 => Some(TagEnd::FootnoteDefinition),
        0x09 => Some(TagEnd::DefinitionList),
        0x0a => Some(TagEnd::DefinitionListTitle),
        0x0b => Some(TagEnd::DefinitionListDefinition),
        0x0c => Some(TagEnd::Table),
        0x0d => Some(TagEnd::TableHead),
        0x0e => Some(TagEnd::TableRow),
        0x0f => Some(TagEnd::TableCell),
        0x10 => Some(TagEnd::Emphasis),
        0x11 => Some(TagEnd::Strong),
        0x12 => Some(TagEnd::Strikethrough),
        0x13 => Some(TagEnd::Superscript),
        0x14 => Some(TagEnd::Subscript),
        0x15 => Some(TagEnd::Link),
        0x16 => Some(TagEnd::Image),
        _ => None,
    }
}

/// Returns the End that closes a Start of this kind, with this detail.
pub(crate) fn end_numbered(kind: u8, detail: u8) -> Option<TagEnd>
    ensures { result ≡ end_numbered kind detail }
{
    match kind {
        0x02 => Some(TagEnd::Heading(level_numbered(detail)?)),
        0x03 => Some(TagEnd::BlockQuote(quote_numbered(detail)?)),
        0x06 => Some(TagEnd::List(bool_of(detail)?)),
        0x17 => Some(TagEnd::MetadataBlock(metadata_of(detail)?)),
        _ if detail == 0 => bare_end_of(kind),
        _ => None,
    }
}
