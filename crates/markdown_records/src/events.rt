//! Events, questions and definitions as records.
ghost use Rattle.std.specs.Prelude.{◌≡◌, ◌+◌, ◌-◌, ℕ, List, length};
ghost use Rattle.markdown_base.specs.BlockParts.{definition_view};
ghost use Rattle.markdown_base.specs.CowText.{text_of};
ghost use Rattle.markdown_base.specs.Event.{code, event_view};
ghost use Rattle.markdown_records.specs.Drafts.{definition_drafts, parts_of_definition, event_drafts};
ghost use Rattle.markdown_records.specs.Drafts.{no_text, part, question_drafts, single_draft, sought};
ghost use Rattle.markdown_records.specs.Drafts.{text_draft};
ghost use Rattle.markdown_records.specs.Numbers.{title_part};
ghost use Rattle.markdown_records.specs.RecordOf.{span_range};
ghost use Rattle.markdown_records.specs.RecordsOf.{Writes, WritesEntry};

use crate::draft::{Draft, Span, TextPlace, small, span_of};
use crate::encode::Records;
use crate::fault::RecordFault;
use crate::numbers::{self, bool_number, closed_kind, end_detail, link_type_number};
use markdown_base::block_parts::LinkDef;
use markdown_base::cow_str::CowStr;
use markdown_base::event::Event;
use markdown_base::tag::LinkType;
use std::ops::Range;

/// Returns how many parts a definition has: its destination, and its title.
fn definition_part_count(definition: &LinkDef<'_>) -> usize
    ensures { (label : List ℕ) → length (parts_of_definition (record {
      label = label;
      definition = definition_view definition.now;
    })) ≡ result }
{
    match &definition.title {
        None => 1,
        Some(_) => 2,
    }
}

impl Records<'_> {
    /// Appends the record of an event with a text, which may stand at this offset.
    pub(crate) fn push_text(
        &mut self,
        kind: u8,
        text: &CowStr<'_>,
        at: usize,
        span: Span,
    ) -> Result<(), RecordFault>
        ensures { Writes self.old (text_draft kind (span_range span) at (text_of text.now))
            result self.new }
    {
        let words = text.as_str();
        let text = TextPlace::Sought {
            words,
            first: at,
            second: at,
        };
        self.push_single(kind, 0, span, text)
    }

    /// Appends the record of a code span, whose text has as many bytes before it as after it.
    fn push_code(&mut self, text: &CowStr<'_>, span: Span) -> Result<(), RecordFault>
        ensures { Writes self.old (event_drafts (span_range span) (code (text_of text.now)))
            result self.new }
    {
        let length = (span.end as usize).saturating_sub(span.start as usize);
        let margin = length.saturating_sub(text.as_str().len()) / 2;
        self.push_text(numbers::CODE, text, span.start as usize + margin, span)
    }

    /// Appends the record of an event without a text.
    fn push_bare(&mut self, kind: u8, detail: u8, span: Span) -> Result<(), RecordFault>
        ensures { Writes self.old (single_draft kind detail (span_range span) no_text)
            result self.new }
    {
        self.push_single(kind, detail, span, TextPlace::Absent)
    }

    /// Appends the records of an event.
    fn push_any_event(&mut self, event: &Event<'_>, span: Span) -> Result<(), RecordFault>
        ensures { Writes self.old (event_drafts (span_range span) (event_view event.now))
            result self.new }
    {
        let start = span.start as usize;
        match event {
            Event::Start(tag) => self.push_start(tag, span),
            Event::End(end) => self.push_bare(
                numbers::END + closed_kind(*end),
                end_detail(*end),
                span,
            ),
            Event::Text(text) => self.push_text(numbers::TEXT, text, start, span),
            Event::Code(text) => self.push_code(text, span),
            Event::InlineMath(text) => self.push_text(numbers::INLINE_MATH, text, start + 1, span),
            Event::DisplayMath(text) => self.push_text(
                numbers::DISPLAY_MATH,
                text,
                start + 2,
                span,
            ),
            Event::Html(text) => self.push_text(numbers::HTML, text, start, span),
            Event::InlineHtml(text) => self.push_text(numbers::INLINE_HTML, text, start, span),
            Event::FootnoteReference(name) => {
                self.push_text(numbers::FOOTNOTE_REFERENCE, name, start + 2, span)
            }
            Event::SoftBreak => self.push_bare(numbers::SOFT_BREAK, 0, span),
            Event::HardBreak => self.push_bare(numbers::HARD_BREAK, 0, span),
            Event::Rule => self.push_bare(numbers::RULE, 0, span),
            Event::TaskListMarker(done) => {
                self.push_bare(numbers::TASK_LIST_MARKER, bool_number(*done), span)
            }
        }
    }

    /// Appends the records of an event, whose range is in bytes of the source.
    ///
    /// # Errors
    ///
    /// `TooLong` if a number in these records is 2^32 or greater, and `Of(Fault::Memory)` if an
    /// allocation fails. The records are then cut short, and of no use.
    pub fn push_event(&mut self, event: &Event<'_>, range: &Range<usize>) -> Result<(), RecordFault>
        ensures { WritesEntry self.old (event_drafts range.now (event_view event.now))
            result self.new }
    {
        let span = span_of(range)?;
        self.push_any_event(event, span)?;
        self.mark_entries();
        Ok(())
    }

    /// Appends the record of a question to the callback: its range in bytes of the source, its form
    /// and its label.
    ///
    /// # Errors
    ///
    /// As those of `push_event`.
    pub fn push_question(
        &mut self,
        range: &Range<usize>,
        link_type: LinkType,
        label: &str,
    ) -> Result<(), RecordFault>
        ensures { WritesEntry self.old
            (question_drafts (record {
              span = range.now;
              link_type = link_type;
              reference = label.now;
            })) result self.new }
    {
        let span = span_of(range)?;
        let last = (span.end as usize).saturating_sub(1);
        let text = TextPlace::Sought {
            words: label,
            first: last.saturating_sub(label.len()),
            second: span.start as usize + 1,
        };
        self.push_single(numbers::QUESTION, link_type_number(link_type), span, text)?;
        self.mark_entries();
        Ok(())
    }

    /// Appends the records of a link reference definition.
    ///
    /// # Errors
    ///
    /// As those of `push_event`.
    pub fn push_definition(
        &mut self,
        label: &str,
        definition: &LinkDef<'_>,
    ) -> Result<(), RecordFault>
        ensures { Writes self.old (definition_drafts (record {
          label = label.now;
          definition = definition_view definition.now;
        })) result self.new }
    {
        let span = span_of(&definition.span)?;
        let inside = span.start as usize + 1;
        // the label fits, or there is no record of it
        let after = inside + small(label.len())? as usize;
        let text = TextPlace::Sought {
            words: label,
            first: inside,
            second: inside,
        };
        self.push(Draft {
            kind: numbers::DEFINITION,
            detail: 0,
            span,
            text,
            parts: definition_part_count(definition),
        })?;
        let words = definition.dest.as_str();
        let destination = TextPlace::Sought {
            words,
            first: after + 3,
            second: after + 4,
        };
        self.push(Draft::part(numbers::DESTINATION, destination))?;
        match &definition.title {
            None => Ok(()),
            Some(title) => self.push_title(title.as_str(), span),
        }
    }

    /// Appends the title of a definition, which stands before its last byte.
    fn push_title(&mut self, words: &str, span: Span) -> Result<(), RecordFault>
        ensures { Writes self.old (part title_part (sought (span.end - (length words.now + 1))
            (span.end - (length words.now + 1)) words.now)) result self.new }
    {
        let at = (span.end as usize)
            .saturating_sub(words.len())
            .saturating_sub(1);
        self.push(Draft::part(
            numbers::TITLE,
            TextPlace::Sought {
                words,
                first: at,
                second: at,
            },
        ))
    }
}
