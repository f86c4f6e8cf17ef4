//! Tags of groups.
ghost use Rattle.std.specs.Prelude.{ℕ, List, vec_items};
ghost use Rattle.std.specs.Option.{option_map};
ghost use Rattle.markdown_base.specs.Event.{tag_view};
ghost use Rattle.markdown_base.specs.Event as event;
ghost use Rattle.markdown_records.specs.Decoded.{bare_start_of, code_block_in, each_of, heading_in};
ghost use Rattle.markdown_records.specs.Decoded.{if_bare, link_in};
ghost use Rattle.markdown_records.specs.Decoded.{list_in, of_text, table_in, tag_in, then_option};
ghost use Rattle.markdown_records.specs.Decoded.{with_attributes, with_part};
ghost use Rattle.markdown_records.specs.Decoded.{with_parts, with_value};
ghost use Rattle.markdown_records.specs.GroupOf.{group_view};
ghost use Rattle.markdown_records.specs.NumbersRead.{alignment_of, end_numbered};
ghost use Rattle.markdown_records.specs.ReadOf.{heading_read, link_read};
ghost use Rattle.markdown_records.specs.ReadResult.{Finds, Makes, Reads};
ghost use Rattle.markdown_records.specs.RecordView.{records_in};

use crate::fault::RecordFault;
use crate::groups::Group;
use crate::numbers;
use crate::numbers_read::{alignment_of, end_numbered, level_numbered, link_type_of};
use crate::record::{A_NUMBER, take_record};
use crate::texts::Texts;
use markdown_base::cow_str::CowStr;
use markdown_base::tag::{Alignment, CodeBlockKind, HeadingLevel, LinkType, Tag, TagEnd};
use std::alloc::Global;

/// The fields of a link or an image.
#[derive(Clone, Copy, Drop)]
pub(crate) struct LinkRead<'a> {
    pub link_type: LinkType,
    pub destination: &'a str,
    pub title: &'a str,
    pub label: &'a str,
}

/// The fields of a heading, of whose parts some have been read.
#[derive(Drop)]
pub(crate) struct HeadingRead<'a> {
    pub level: HeadingLevel,
    pub id: Option<CowStr<'a>>,
    pub classes: Vec<CowStr<'a>>,
    pub attributes: Vec<(CowStr<'a>, Option<CowStr<'a>>)>,
}

impl<'a> HeadingRead<'a> {
    /// Gives the last attribute this value, if it has none yet.
    fn set_value(&mut self, value: &'a str) -> Result<(), RecordFault>
        ensures { (source pool : List ℕ) → Makes heading_read
            (option_map (λ attributes. with_attributes source pool (heading_read self.old)
            attributes)
            (with_value source pool value.entry.now (heading_read self.old).attributes)) result
            self.new }
    {
        match self.attributes.pop() {
            None => Err(RecordFault::NotRecords),
            Some((name, held)) => match held {
                Some(_) => Err(RecordFault::NotRecords),
                None => {
                    self.attributes.push((name, Some(CowStr::Borrowed(value))))?;
                    Ok(())
                }
            },
        }
    }

    /// Adds a part with this text: a class before all attributes, the name of an attribute, or the
    /// value of the last one.
    fn push_part(&mut self, kind: u8, text: &'a str) -> Result<(), RecordFault>
        ensures { (source pool : List ℕ) → Makes heading_read
            (with_part source pool (heading_read self.old) kind text.entry.now) result self.new }
    {
        match kind {
            numbers::CLASS if self.attributes.is_empty() => {
                self.classes.push(CowStr::Borrowed(text))?;
            }
            numbers::NAME => self.attributes.push((CowStr::Borrowed(text), None))?,
            numbers::VALUE => self.set_value(text)?,
            _ => return Err(RecordFault::NotRecords),
        }
        Ok(())
    }
}

/// Returns the alignments of columns by their letters.
fn alignments_of(alloc: Global, letters: &[u8]) -> Result<Vec<Alignment>, RecordFault>
    ensures { Reads vec_items (each_of alignment_of letters.now) result }
{
    let mut alignments = Vec::new(alloc);
    'letters: for letter in letters {
        let alignment = alignment_of(*letter).ok_or(RecordFault::NotRecords)?;
        alignments.push(alignment)?;
    }
    Ok(alignments)
}

/// Returns the Start that holds no more than its End tells.
fn bare_start_of<'a>(end: TagEnd) -> Option<Tag<'a>>
    ensures { (source pool : List ℕ) → Finds tag_view (bare_start_of source pool end) result }
{
    match end {
        TagEnd::Paragraph => Some(Tag::Paragraph),
        TagEnd::BlockQuote(kind) => Some(Tag::BlockQuote(kind)),
        TagEnd::HtmlBlock => Some(Tag::HtmlBlock),
        TagEnd::Item => Some(Tag::Item),
        TagEnd::DefinitionList => Some(Tag::DefinitionList),
        TagEnd::DefinitionListTitle => Some(Tag::DefinitionListTitle),
        TagEnd::DefinitionListDefinition => Some(Tag::DefinitionListDefinition),
        TagEnd::TableHead => Some(Tag::TableHead),
        TagEnd::TableRow => Some(Tag::TableRow),
        TagEnd::TableCell => Some(Tag::TableCell),
        TagEnd::Emphasis => Some(Tag::Emphasis),
        TagEnd::Strong => Some(Tag::Strong),
        TagEnd::Strikethrough => Some(Tag::Strikethrough),
        TagEnd::Superscript => Some(Tag::Superscript),
        TagEnd::Subscript => Some(Tag::Subscript),
        TagEnd::MetadataBlock(kind) => Some(Tag::MetadataBlock(kind)),
        TagEnd::Heading(_)
        | TagEnd::CodeBlock
        | TagEnd::List(_)
        | TagEnd::FootnoteDefinition
        | TagEnd::Table
        | TagEnd::Link
        | TagEnd::Image => None,
    }
}

impl<'a> Texts<'a> {
    /// Adds parts to a heading.
    fn push_parts(&self, heading: &mut HeadingRead<'a>, parts: &[u8]) -> Result<(), RecordFault>
        ensures { Makes heading_read (with_parts self.now.source.now self.now.pool.now
            (heading_read heading.old) (records_in parts.now)) result heading.new }
    {
        let mut left = parts;
        'parts: loop {
            let Some((part, rest)) = take_record(left) else {
                return Ok(());
            };
            let text = self.text_of(&part).ok_or(RecordFault::NotRecords)?;
            heading.push_part(part.kind, text)?;
            left = rest;
        }
    }

    /// Returns the Start of a heading.
    fn heading_of(&self, alloc: Global, group: &Group<'a>) -> Result<Tag<'a>, RecordFault>
        ensures { Reads tag_view (option_map (λ h. event.heading h)
            (heading_in self.now.source.now self.now.pool.now (group_view group.now))) result }
    {
        let level = level_numbered(group.head.detail).ok_or(RecordFault::NotRecords)?;
        let id = self
            .optional_text_of(&group.head)
            .ok_or(RecordFault::NotRecords)?;
        let mut heading = HeadingRead {
            level,
            id,
            classes: Vec::new(alloc),
            attributes: Vec::new(alloc),
        };
        self.push_parts(&mut heading, group.parts)?;
        Ok(Tag::Heading {
            level: heading.level,
            id: heading.id,
            classes: heading.classes,
            attrs: heading.attributes,
        })
    }

    /// Returns the fields of a link or an image.
    fn link_of(&self, group: &Group<'a>) -> Option<LinkRead<'a>>
        ensures { Finds link_read (link_in self.now.source.now self.now.pool.now
            (group_view group.now)) result }
    {
        let link_type = link_type_of(group.head.detail)?;
        let destination = self.text_of(&group.head)?;
        let (title, label) = self.title_and_label(group.parts)?;
        Some(LinkRead {
            link_type,
            destination,
            title,
            label,
        })
    }

    /// Returns the Start of a code block.
    fn code_block_of(&self, group: &Group<'a>) -> Option<Tag<'a>>
        ensures { Finds tag_view
            (code_block_in self.now.source.now self.now.pool.now (group_view group.now)) result }
    {
        match group.head.detail {
            0 if group.is_bare() => Some(Tag::CodeBlock(CodeBlockKind::Indented)),
            1 if group.head.parts == 0 => {
                let info = self.cow_of(&group.head)?;
                Some(Tag::CodeBlock(CodeBlockKind::Fenced(info)))
            }
            _ => None,
        }
    }

    /// Returns the Start of a list.
    fn list_of(group: &Group<'a>) -> Option<Tag<'a>>
        ensures { (source pool : List ℕ) → Finds tag_view
            (list_in source pool (group_view group.now)) result }
    {
        match group.head.detail {
            0 if group.is_bare() => Some(Tag::List(None)),
            1 if group.head.place == A_NUMBER && group.head.parts == 0 => {
                let first = u64::from(group.head.at) + u64::from(group.head.length) * (1 << 32);
                Some(Tag::List(Some(first)))
            }
            _ => None,
        }
    }

    /// Returns the Start of a table.
    fn table_of(&self, alloc: Global, group: &Group<'a>) -> Result<Tag<'a>, RecordFault>
        ensures { Reads tag_view
            (table_in self.now.source.now self.now.pool.now (group_view group.now)) result }
    {
        if !group.is_lone() {
            return Err(RecordFault::NotRecords);
        }
        let letters = self.text_of(&group.head).ok_or(RecordFault::NotRecords)?;
        let alignments = alignments_of(alloc, letters.as_bytes())?;
        Ok(Tag::Table(alignments))
    }

    /// Returns a Start that holds no more than its End tells.
    fn bare_tag_of(group: &Group<'a>) -> Option<Tag<'a>>
        ensures { (source pool : List ℕ) → Finds tag_view
            (if_bare source pool (group_view group.now)
            (then_option (end_numbered group.now.head.kind group.now.head.detail)
            (bare_start_of source pool))) result }
    {
        if !group.is_bare() {
            return None;
        }
        bare_start_of(end_numbered(group.head.kind, group.head.detail)?)
    }

    /// Returns the Start of a link.
    fn link_tag_of(&self, group: &Group<'a>) -> Option<Tag<'a>>
        ensures { Finds tag_view (option_map (λ l. event.link l)
            (link_in self.now.source.now self.now.pool.now (group_view group.now))) result }
    {
        let link = self.link_of(group)?;
        Some(Tag::Link {
            link_type: link.link_type,
            dest_url: CowStr::Borrowed(link.destination),
            title: CowStr::Borrowed(link.title),
            id: CowStr::Borrowed(link.label),
        })
    }

    /// Returns the Start of an image.
    fn image_tag_of(&self, group: &Group<'a>) -> Option<Tag<'a>>
        ensures { Finds tag_view (option_map (λ l. event.image l)
            (link_in self.now.source.now self.now.pool.now (group_view group.now))) result }
    {
        let link = self.link_of(group)?;
        Some(Tag::Image {
            link_type: link.link_type,
            dest_url: CowStr::Borrowed(link.destination),
            title: CowStr::Borrowed(link.title),
            id: CowStr::Borrowed(link.label),
        })
    }

    /// Returns the Start of a footnote definition.
    fn footnote_of(&self, group: &Group<'a>) -> Option<Tag<'a>>
        ensures { Finds tag_view (of_text self.now.source.now self.now.pool.now
            (group_view group.now)
            (λ name. event.footnote_definition name)) result }
    {
        Some(Tag::FootnoteDefinition(self.lone_text(group)?))
    }

    /// Returns what a Start opens.
    pub fn tag_of(&self, alloc: Global, group: &Group<'a>) -> Result<Tag<'a>, RecordFault>
        ensures { Reads tag_view
            (tag_in self.now.source.now self.now.pool.now (group_view group.now)) result }
    {
        match group.head.kind {
            numbers::HEADING => self.heading_of(alloc, group),
            numbers::TABLE => self.table_of(alloc, group),
            numbers::CODE_BLOCK => self.code_block_of(group).ok_or(RecordFault::NotRecords),
            numbers::LIST => Texts::list_of(group).ok_or(RecordFault::NotRecords),
            numbers::FOOTNOTE_DEFINITION => self.footnote_of(group).ok_or(RecordFault::NotRecords),
            numbers::LINK => self.link_tag_of(group).ok_or(RecordFault::NotRecords),
            numbers::IMAGE => self.image_tag_of(group).ok_or(RecordFault::NotRecords),
            _ => Texts::bare_tag_of(group).ok_or(RecordFault::NotRecords),
        }
    }
}
