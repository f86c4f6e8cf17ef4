//! Tags: what `Start` events open and `End` events close.
ghost use Rattle.std.specs.Prelude.{◌≡◌, map, IfOk, IfErr};
ghost use Rattle.std.specs.Option.{option_map};
ghost use Rattle.markdown_base.specs.CopiedTexts.{KeepsSlices, texts_of_code_block, texts_of_heading, texts_of_tag};
ghost use Rattle.markdown_base.specs.CowText.{text_of};
ghost use Rattle.markdown_base.specs.Event.{attribute_view, code_block_view, heading, tag_view};
ghost use Rattle.markdown_base.specs.declared.fault.Fault.{Fault};

use crate::copies::{
    clone_attributes, clone_link_texts, clone_optional, clone_texts, static_attributes,
    static_link_texts, static_optional, static_texts,
};
use crate::cow_str::CowStr;
use crate::fault::Fault;
use std::alloc::Global;
use std::convert::TryFrom;
use std::error::Error;
use std::fmt;

/// How a link or an image was written (CommonMark 6.3 to 6.5).
#[derive(Clone, Copy, Debug, PartialEq, Eq, Drop)]
pub enum LinkType {
    /// `[text](destination)`
    Inline,
    /// `[text][label]`
    Reference,
    /// `[text][label]`, where a callback resolved the label
    ReferenceUnknown,
    /// `[text][]`
    Collapsed,
    /// `[text][]`, where a callback resolved the label
    CollapsedUnknown,
    /// `[text]`
    Shortcut,
    /// `[text]`, where a callback resolved the label
    ShortcutUnknown,
    /// `<scheme:rest>`
    Autolink,
    /// `<name@host>`
    Email,
    /// `[[name]]`, or `[[name|text]]` with a pothole
    WikiLink { has_pothole: bool },
}

/// A heading's level (CommonMark 4.2, 4.3). As a number it is 1 to 6, and levels are ordered by it.
#[derive(Clone, Copy, Debug, PartialEq, Eq, PartialOrd, Ord, Hash, Drop)]
pub enum HeadingLevel {
    H1 = 1,
    H2,
    H3,
    H4,
    H5,
    H6,
}

/// The error that holds a number that is no heading level.
#[derive(Clone, Copy, Debug, PartialEq, Eq, Drop)]
pub struct InvalidHeadingLevel(pub usize);

impl fmt::Display for InvalidHeadingLevel {
    fn fmt<W: fmt::Write>(&self, f: &mut fmt::Formatter<W>) -> fmt::Result {
        write!(f, "no heading level has number {}", self.0)
    }
}

impl Error for InvalidHeadingLevel {}

impl TryFrom<usize> for HeadingLevel {
    ghost use Rattle.markdown_base.specs.HeadingLevels.{GivesLevel};

    type Error = InvalidHeadingLevel;

    ghost try_from_gives = { GivesLevel };

    fn try_from(number: usize) -> Result<HeadingLevel, InvalidHeadingLevel> {
        match number {
            1 => Ok(HeadingLevel::H1),
            2 => Ok(HeadingLevel::H2),
            3 => Ok(HeadingLevel::H3),
            4 => Ok(HeadingLevel::H4),
            5 => Ok(HeadingLevel::H5),
            6 => Ok(HeadingLevel::H6),
            _ => Err(InvalidHeadingLevel(number)),
        }
    }
}

impl fmt::Display for HeadingLevel {
    ghost use Rattle.std.specs.Prelude.{Some};
    ghost use Rattle.markdown_base.specs.HeadingLevels.{level_text};

    ghost output = { λ level. Some (level_text level) };

    fn fmt<W: fmt::Write>(&self, f: &mut fmt::Formatter<W>) -> fmt::Result {
        match self {
            HeadingLevel::H1 => f.write_str("h1"),
            HeadingLevel::H2 => f.write_str("h2"),
            HeadingLevel::H3 => f.write_str("h3"),
            HeadingLevel::H4 => f.write_str("h4"),
            HeadingLevel::H5 => f.write_str("h5"),
            HeadingLevel::H6 => f.write_str("h6"),
        }
    }
}

/// The kind of a block quote, named as in GFM's alerts.
#[derive(Clone, Copy, Debug, PartialEq, Eq, Drop)]
pub enum BlockQuoteKind {
    Note,
    Tip,
    Important,
    Warning,
    Caution,
}

/// The style of a metadata block's fences.
#[derive(Clone, Copy, Debug, PartialEq, Eq, Drop)]
pub enum MetadataBlockKind {
    /// `---`
    YamlStyle,
    /// `+++`
    PlusesStyle,
}

/// The alignment of a table's column.
#[derive(Clone, Copy, Debug, PartialEq, Eq, Drop)]
pub enum Alignment {
    None,
    Left,
    Center,
    Right,
}

/// A code block: indented (CommonMark 4.4), or fenced with its info string (4.5).
#[derive(Debug, PartialEq, Drop)]
pub enum CodeBlockKind<'a> {
    Indented,
    Fenced(CowStr<'a>),
}

impl<'a> CodeBlockKind<'a> {
    ghost use Rattle.std.specs.Prelude.{IsTrue, ◌↔◌, ◌≢◌};
    ghost use Rattle.markdown_base.specs.Event.{indented_code};

    /// Returns whether the block is indented.
    pub fn is_indented(&self) -> bool
        ensures { IsTrue result ↔ (code_block_view self.now ≡ indented_code) }
    {
        matches!(self, CodeBlockKind::Indented)
    }

    /// Returns whether the block is fenced.
    pub fn is_fenced(&self) -> bool
        ensures { IsTrue result ↔ (code_block_view self.now ≢ indented_code) }
    {
        matches!(self, CodeBlockKind::Fenced(_))
    }

    /// Returns a copy of the kind. A slice of the source is copied as a slice. The only error is `Fault::Memory`.
    pub fn try_clone(&self, alloc: Global) -> Result<CodeBlockKind<'a>, Fault>
        ensures same { IfOk result (λ copy. code_block_view copy ≡ code_block_view self.now) }
        ensures slices { IfOk result
            (λ copy. KeepsSlices (texts_of_code_block self.now) (texts_of_code_block copy)) }
        ensures refused { IfErr result (λ fault. fault ≡ Fault.Memory) }
    {
        match self {
            CodeBlockKind::Indented => Ok(CodeBlockKind::Indented),
            CodeBlockKind::Fenced(info) => Ok(CodeBlockKind::Fenced(info.try_clone(alloc)?)),
        }
    }

    /// Returns the same kind without borrowing from the source. The only error is `Fault::Memory`, in which case the
    /// kind is dropped.
    pub fn into_static(self, alloc: Global) -> Result<CodeBlockKind<'static>, Fault>
        ensures same { IfOk result (λ made. code_block_view made ≡ code_block_view self.entry) }
        ensures refused { IfErr result (λ fault. fault ≡ Fault.Memory) }
    {
        match self {
            CodeBlockKind::Indented => Ok(CodeBlockKind::Indented),
            CodeBlockKind::Fenced(info) => Ok(CodeBlockKind::Fenced(info.into_static(alloc)?)),
        }
    }
}

/// What a `Start` event opens.
#[derive(Debug, PartialEq, Drop)]
pub enum Tag<'a> {
    Paragraph,
    Heading {
        level: HeadingLevel,
        id: Option<CowStr<'a>>,
        classes: Vec<CowStr<'a>>,
        /// Names, each with its value if it has one.
        attrs: Vec<(CowStr<'a>, Option<CowStr<'a>>)>,
    },
    BlockQuote(Option<BlockQuoteKind>),
    CodeBlock(CodeBlockKind<'a>),
    HtmlBlock,
    /// A list: the first number of an ordered list, `None` for a bullet list.
    List(Option<u64>),
    /// A list item.
    Item,
    /// A footnote definition: its name.
    FootnoteDefinition(CowStr<'a>),
    DefinitionList,
    DefinitionListTitle,
    DefinitionListDefinition,
    /// A table, with the alignment of each column.
    Table(Vec<Alignment>),
    TableHead,
    TableRow,
    TableCell,
    Emphasis,
    Strong,
    Strikethrough,
    Superscript,
    Subscript,
    Link {
        link_type: LinkType,
        dest_url: CowStr<'a>,
        title: CowStr<'a>,
        /// The link label.
        id: CowStr<'a>,
    },
    Image {
        link_type: LinkType,
        dest_url: CowStr<'a>,
        title: CowStr<'a>,
        /// The link label.
        id: CowStr<'a>,
    },
    MetadataBlock(MetadataBlockKind),
}

/// What an `End` event closes.
#[derive(Clone, Copy, Debug, PartialEq, Eq, Drop)]
pub enum TagEnd {
    Paragraph,
    Heading(HeadingLevel),
    BlockQuote(Option<BlockQuoteKind>),
    CodeBlock,
    HtmlBlock,
    /// A list: whether it is ordered.
    List(bool),
    /// A list item.
    Item,
    FootnoteDefinition,
    DefinitionList,
    DefinitionListTitle,
    DefinitionListDefinition,
    Table,
    TableHead,
    TableRow,
    TableCell,
    Emphasis,
    Strong,
    Strikethrough,
    Superscript,
    Subscript,
    Link,
    Image,
    MetadataBlock(MetadataBlockKind),
}

/// Returns a copy of a heading's tag.
fn clone_heading<'a>(
    level: HeadingLevel,
    id: &Option<CowStr<'a>>,
    classes: &[CowStr<'a>],
    attrs: &[(CowStr<'a>, Option<CowStr<'a>>)],
    alloc: Global,
) -> Result<Tag<'a>, Fault>
    ensures same { IfOk result (λ copy. tag_view copy ≡ heading (record {
      level = level;
      id = option_map text_of id.now;
      classes = map text_of classes.now;
      attributes = map attribute_view attrs.now;
    })) }
    ensures slices { IfOk result
        (λ copy. KeepsSlices (texts_of_heading id.now classes.now attrs.now) (texts_of_tag copy)) }
    ensures refused { IfErr result (λ fault. fault ≡ Fault.Memory) }
{
    let id = clone_optional(id, alloc)?;
    let classes = clone_texts(classes, alloc)?;
    let attrs = clone_attributes(attrs, alloc)?;
    Ok(Tag::Heading {
        level,
        id,
        classes,
        attrs,
    })
}

/// Returns a heading's tag without borrowing from the source, from the parts of one that may borrow. The only error is
/// `Fault::Memory`.
fn static_heading(
    level: HeadingLevel,
    id: Option<CowStr<'_>>,
    classes: Vec<CowStr<'_>>,
    attrs: Vec<(CowStr<'_>, Option<CowStr<'_>>)>,
    alloc: Global,
) -> Result<Tag<'static>, Fault>
    ensures same { IfOk result (λ made. tag_view made ≡ heading (record {
      level = level;
      id = option_map text_of id.entry;
      classes = map text_of classes.entry.items;
      attributes = map attribute_view attrs.entry.items;
    })) }
    ensures refused { IfErr result (λ fault. fault ≡ Fault.Memory) }
{
    let id = static_optional(id, alloc)?;
    let classes = static_texts(classes, alloc)?;
    let attrs = static_attributes(attrs, alloc)?;
    Ok(Tag::Heading {
        level,
        id,
        classes,
        attrs,
    })
}

impl<'a> From<Tag<'a>> for TagEnd {
    ghost use Rattle.markdown_base.specs.Event.{tag_end};

    ghost from_gives = { λ tag closed. closed ≡ tag_end (tag_view tag) };

    fn from(tag: Tag<'a>) -> TagEnd {
        let end = tag.to_end();
        drop(tag);
        end
    }
}

impl<'a> Tag<'a> {
    ghost use Rattle.markdown_base.specs.Event.{tag_end};

    /// Returns what the `End` event of this tag closes.
    pub fn to_end(&self) -> TagEnd
        ensures { result ≡ tag_end (tag_view self.now) }
    {
        match self {
            Tag::Paragraph => TagEnd::Paragraph,
            Tag::Heading { level, .. } => TagEnd::Heading(*level),
            Tag::BlockQuote(kind) => TagEnd::BlockQuote(*kind),
            Tag::CodeBlock(_) => TagEnd::CodeBlock,
            Tag::HtmlBlock => TagEnd::HtmlBlock,
            Tag::List(start) => TagEnd::List(start.is_some()),
            Tag::Item => TagEnd::Item,
            Tag::FootnoteDefinition(_) => TagEnd::FootnoteDefinition,
            Tag::DefinitionList => TagEnd::DefinitionList,
            Tag::DefinitionListTitle => TagEnd::DefinitionListTitle,
            Tag::DefinitionListDefinition => TagEnd::DefinitionListDefinition,
            Tag::Table(_) => TagEnd::Table,
            Tag::TableHead => TagEnd::TableHead,
            Tag::TableRow => TagEnd::TableRow,
            Tag::TableCell => TagEnd::TableCell,
            Tag::Emphasis => TagEnd::Emphasis,
            Tag::Strong => TagEnd::Strong,
            Tag::Strikethrough => TagEnd::Strikethrough,
            Tag::Superscript => TagEnd::Superscript,
            Tag::Subscript => TagEnd::Subscript,
            Tag::Link { .. } => TagEnd::Link,
            Tag::Image { .. } => TagEnd::Image,
            Tag::MetadataBlock(kind) => TagEnd::MetadataBlock(*kind),
        }
    }

    /// Returns a copy of the tag. Slices of the source are copied as slices. The only error is `Fault::Memory`.
    pub fn try_clone(&self, alloc: Global) -> Result<Tag<'a>, Fault>
        ensures same { IfOk result (λ copy. tag_view copy ≡ tag_view self.now) }
        ensures slices { IfOk result (λ copy.
            KeepsSlices (texts_of_tag self.now) (texts_of_tag copy)) }
        ensures refused { IfErr result (λ fault. fault ≡ Fault.Memory) }
    {
        Ok(match self {
            Tag::Heading {
                level,
                id,
                classes,
                attrs,
            } => clone_heading(*level, id, classes, attrs, alloc)?,
            Tag::BlockQuote(kind) => Tag::BlockQuote(*kind),
            Tag::CodeBlock(kind) => Tag::CodeBlock(kind.try_clone(alloc)?),
            Tag::List(start) => Tag::List(*start),
            Tag::FootnoteDefinition(name) => Tag::FootnoteDefinition(name.try_clone(alloc)?),
            Tag::Table(alignments) => Tag::Table(alignments.clone()?),
            Tag::Link {
                link_type,
                dest_url,
                title,
                id,
            } => {
                let (dest_url, title, id) = clone_link_texts(dest_url, title, id, alloc)?;
                Tag::Link {
                    link_type: *link_type,
                    dest_url,
                    title,
                    id,
                }
            }
            Tag::Image {
                link_type,
                dest_url,
                title,
                id,
            } => {
                let (dest_url, title, id) = clone_link_texts(dest_url, title, id, alloc)?;
                Tag::Image {
                    link_type: *link_type,
                    dest_url,
                    title,
                    id,
                }
            }
            Tag::MetadataBlock(kind) => Tag::MetadataBlock(*kind),
            Tag::Paragraph => Tag::Paragraph,
            Tag::HtmlBlock => Tag::HtmlBlock,
            Tag::Item => Tag::Item,
            Tag::DefinitionList => Tag::DefinitionList,
            Tag::DefinitionListTitle => Tag::DefinitionListTitle,
            Tag::DefinitionListDefinition => Tag::DefinitionListDefinition,
            Tag::TableHead => Tag::TableHead,
            Tag::TableRow => Tag::TableRow,
            Tag::TableCell => Tag::TableCell,
            Tag::Emphasis => Tag::Emphasis,
            Tag::Strong => Tag::Strong,
            Tag::Strikethrough => Tag::Strikethrough,
            Tag::Superscript => Tag::Superscript,
            Tag::Subscript => Tag::Subscript,
        })
    }

    /// Returns the same tag without borrowing from the source. The only error is `Fault::Memory`, in which case the tag
    /// is dropped.
    pub fn into_static(self, alloc: Global) -> Result<Tag<'static>, Fault>
        ensures same { IfOk result (λ made. tag_view made ≡ tag_view self.entry) }
        ensures refused { IfErr result (λ fault. fault ≡ Fault.Memory) }
    {
        Ok(match self {
            Tag::Heading {
                level,
                id,
                classes,
                attrs,
            } => static_heading(level, id, classes, attrs, alloc)?,
            Tag::BlockQuote(kind) => Tag::BlockQuote(kind),
            Tag::CodeBlock(kind) => Tag::CodeBlock(kind.into_static(alloc)?),
            Tag::List(start) => Tag::List(start),
            Tag::FootnoteDefinition(name) => Tag::FootnoteDefinition(name.into_static(alloc)?),
            Tag::Table(alignments) => Tag::Table(alignments),
            Tag::Link {
                link_type,
                dest_url,
                title,
                id,
            } => {
                let (dest_url, title, id) = static_link_texts(dest_url, title, id, alloc)?;
                Tag::Link {
                    link_type,
                    dest_url,
                    title,
                    id,
                }
            }
            Tag::Image {
                link_type,
                dest_url,
                title,
                id,
            } => {
                let (dest_url, title, id) = static_link_texts(dest_url, title, id, alloc)?;
                Tag::Image {
                    link_type,
                    dest_url,
                    title,
                    id,
                }
            }
            Tag::MetadataBlock(kind) => Tag::MetadataBlock(kind),
            Tag::Paragraph => Tag::Paragraph,
            Tag::HtmlBlock => Tag::HtmlBlock,
            Tag::Item => Tag::Item,
            Tag::DefinitionList => Tag::DefinitionList,
            Tag::DefinitionListTitle => Tag::DefinitionListTitle,
            Tag::DefinitionListDefinition => Tag::DefinitionListDefinition,
            Tag::TableHead => Tag::TableHead,
            Tag::TableRow => Tag::TableRow,
            Tag::TableCell => Tag::TableCell,
            Tag::Emphasis => Tag::Emphasis,
            Tag::Strong => Tag::Strong,
            Tag::Strikethrough => Tag::Strikethrough,
            Tag::Superscript => Tag::Superscript,
            Tag::Subscript => Tag::Subscript,
        })
    }
}
