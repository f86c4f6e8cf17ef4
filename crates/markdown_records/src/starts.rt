//! The Starts of blocks and of inline containers as records.
ghost use Rattle.std.specs.Prelude.{◌+◌, flat_map, map};
ghost use Rattle.markdown_base.specs.CowText.{text_of};
ghost use Rattle.markdown_base.specs.Event.{attribute_view, code_block_view, list, table, tag_view};
ghost use Rattle.markdown_records.specs.Drafts.{attribute_parts, bare_start, class_parts};
ghost use Rattle.markdown_records.specs.Drafts.{heading_drafts, link_drafts, part_unless_empty};
ghost use Rattle.markdown_records.specs.Drafts.{start_drafts};
ghost use Rattle.markdown_records.specs.RecordOf.{heading_of, link_of, span_range};
ghost use Rattle.markdown_records.specs.RecordsOf.{Writes};

use crate::draft::{Draft, Span, TextPlace};
use crate::encode::Records;
use crate::fault::RecordFault;
use crate::link::{Heading, Link, destination_of};
use crate::numbers::{
    self, alignment_letter, closed_kind, end_detail, level_number, link_type_number,
};
use markdown_base::cow_str::CowStr;
use markdown_base::tag::{Alignment, CodeBlockKind, Tag, TagEnd};

impl Records<'_> {
    /// Appends the records of the Start of a heading.
    fn push_heading(&mut self, heading: Heading<'_, '_>, span: Span) -> Result<(), RecordFault>
        ensures { Writes self.old (heading_drafts (span_range span) (heading_of heading.entry))
            result self.new }
    {
        let parts = heading.parts()?;
        self.push(Draft {
            kind: numbers::HEADING,
            detail: level_number(heading.level),
            span,
            text: heading.id_text(),
            parts,
        })?;
        self.push_classes(heading.classes)?;
        self.push_attributes(heading.attributes)
    }

    /// Appends a part for each class.
    fn push_classes(&mut self, classes: &[CowStr<'_>]) -> Result<(), RecordFault>
        ensures { Writes self.old (flat_map class_parts (map text_of classes.now)) result self.new }
    {
        for class in classes {
            self.push(Draft::part(numbers::CLASS, TextPlace::Pooled(class.as_str())))?;
        }
        Ok(())
    }

    /// Appends the parts of an attribute.
    fn push_attribute(
        &mut self,
        attribute: &(CowStr<'_>, Option<CowStr<'_>>),
    ) -> Result<(), RecordFault>
        ensures { Writes self.old (attribute_parts (attribute_view attribute.now)) result self.new }
    {
        self.push(Draft::part(numbers::NAME, TextPlace::Pooled(attribute.0.as_str())))?;
        match &attribute.1 {
            None => Ok(()),
            Some(value) => {
                self.push(Draft::part(numbers::VALUE, TextPlace::Pooled(value.as_str())))
            }
        }
    }

    /// Appends the parts of attributes.
    fn push_attributes(
        &mut self,
        attributes: &[(CowStr<'_>, Option<CowStr<'_>>)],
    ) -> Result<(), RecordFault>
        ensures { Writes self.old (flat_map attribute_parts (map attribute_view attributes.now))
            result self.new }
    {
        for attribute in attributes {
            self.push_attribute(attribute)?;
        }
        Ok(())
    }

    /// Appends the records of the Start of a link or an image, whose text begins so many bytes
    /// after its start.
    fn push_link(
        &mut self,
        kind: u8,
        opening: u8,
        link: Link<'_>,
        span: Span,
    ) -> Result<(), RecordFault>
        ensures { Writes self.old
            (link_drafts kind (span.start + opening) (span_range span) (link_of link.entry))
            result self.new }
    {
        let inside = span.start as usize + opening as usize;
        let last = (span.end as usize).saturating_sub(1);
        let title_at = last.saturating_sub(link.title.len() + 1);
        let label_at = last.saturating_sub(link.label.len());
        self.push(Draft {
            kind,
            detail: link_type_number(link.link_type),
            span,
            text: destination_of(&link, opening, span),
            parts: link.parts(),
        })?;
        self.push_unless_empty(numbers::TITLE, link.title, title_at, title_at)?;
        self.push_unless_empty(numbers::LABEL, link.label, label_at, inside)
    }

    /// Appends a part with this text, unless it is empty.
    fn push_unless_empty(
        &mut self,
        kind: u8,
        words: &str,
        first: usize,
        second: usize,
    ) -> Result<(), RecordFault>
        ensures { Writes self.old (part_unless_empty kind first second words.now) result self.new }
    {
        if words.is_empty() {
            return Ok(());
        }
        self.push(Draft::part(
            kind,
            TextPlace::Sought {
                words,
                first,
                second,
            },
        ))
    }

    /// Appends the records of a Start.
    pub(crate) fn push_start(&mut self, tag: &Tag<'_>, span: Span) -> Result<(), RecordFault>
        ensures { Writes self.old (start_drafts (span_range span) (tag_view tag.now))
            result self.new }
    {
        match tag {
            Tag::Heading {
                level,
                id,
                classes,
                attrs,
            } => self.push_heading(
                Heading {
                    level: *level,
                    id,
                    classes: classes.as_slice(),
                    attributes: attrs.as_slice(),
                },
                span,
            ),
            Tag::CodeBlock(kind) => self.push_code_block(kind, span),
            Tag::List(first) => self.push_list(*first, span),
            Tag::FootnoteDefinition(name) => {
                let at = span.start as usize + 2;
                self.push_text(numbers::FOOTNOTE_DEFINITION, name, at, span)
            }
            Tag::Table(alignments) => self.push_table(alignments.as_slice(), span),
            Tag::Link {
                link_type,
                dest_url,
                title,
                id,
            } => self.push_link(
                numbers::LINK,
                1,
                Link::new(*link_type, dest_url, title, id),
                span,
            ),
            Tag::Image {
                link_type,
                dest_url,
                title,
                id,
            } => self.push_link(
                numbers::IMAGE,
                2,
                Link::new(*link_type, dest_url, title, id),
                span,
            ),
            Tag::Paragraph
            | Tag::BlockQuote(_)
            | Tag::HtmlBlock
            | Tag::Item
            | Tag::DefinitionList
            | Tag::DefinitionListTitle
            | Tag::DefinitionListDefinition
            | Tag::TableHead
            | Tag::TableRow
            | Tag::TableCell
            | Tag::Emphasis
            | Tag::Strong
            | Tag::Strikethrough
            | Tag::Superscript
            | Tag::Subscript
            | Tag::MetadataBlock(_) => self.push_bare_start(tag.to_end(), span),
        }
    }

    /// Appends the record of a Start that holds no more than its End tells.
    fn push_bare_start(&mut self, end: TagEnd, span: Span) -> Result<(), RecordFault>
        ensures { Writes self.old (bare_start (span_range span) end) result self.new }
    {
        self.push_single(closed_kind(end), end_detail(end), span, TextPlace::Absent)
    }

    /// Appends the record of the Start of a code block.
    fn push_code_block(&mut self, kind: &CodeBlockKind<'_>, span: Span) -> Result<(), RecordFault>
        ensures { Writes self.old (start_drafts (span_range span) (code_block_view kind.now))
            result self.new }
    {
        match kind {
            CodeBlockKind::Indented => {
                self.push_single(numbers::CODE_BLOCK, 0, span, TextPlace::Absent)
            }
            CodeBlockKind::Fenced(info) => {
                let text = TextPlace::Sought {
                    words: info.as_str(),
                    first: span.start as usize + 3,
                    second: span.start as usize + 4,
                };
                self.push_single(numbers::CODE_BLOCK, 1, span, text)
            }
        }
    }

    /// Appends the record of the Start of a list.
    fn push_list(&mut self, first: Option<u64>, span: Span) -> Result<(), RecordFault>
        ensures { Writes self.old (start_drafts (span_range span) (list first)) result self.new }
    {
        match first {
            None => self.push_single(numbers::LIST, 0, span, TextPlace::Absent),
            Some(number) => self.push_single(numbers::LIST, 1, span, TextPlace::Number(number)),
        }
    }

    /// Appends the record of the Start of a table, whose text has a letter for each column.
    fn push_table(&mut self, alignments: &[Alignment], span: Span) -> Result<(), RecordFault>
        ensures { Writes self.old (start_drafts (span_range span) (table alignments.now))
            result self.new }
    {
        let mut letters = String::new(self.alloc());
        for alignment in alignments {
            letters.push_str(alignment_letter(*alignment))?;
        }
        let text = TextPlace::Pooled(letters.as_str());
        self.push_single(numbers::TABLE, 0, span, text)
    }
}
