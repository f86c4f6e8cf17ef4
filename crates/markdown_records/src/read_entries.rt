//! Entries and definitions of groups.
ghost use Rattle.std.specs.Prelude.{◌≡◌};
ghost use Rattle.std.specs.Option.{option_map};
ghost use Rattle.markdown_base.specs.CowText.{text_of};
ghost use Rattle.markdown_records.specs.Decoded.{answer_in, definition_in, definition_title};
ghost use Rattle.markdown_records.specs.Decoded.{entry_in, question_in};
ghost use Rattle.markdown_records.specs.Decoded.{range_of};
ghost use Rattle.markdown_records.specs.EntryOf.{answer_view, entry_said, given_answer};
ghost use Rattle.markdown_records.specs.EntryOf.{labelled_view};
ghost use Rattle.markdown_records.specs.RecordEntry as said;
ghost use Rattle.markdown_records.specs.GroupOf.{group_view};
ghost use Rattle.markdown_records.specs.ReadResult.{Finds, Reads};
ghost use Rattle.markdown_records.specs.RecordView.{records_in};

use crate::fault::RecordFault;
use crate::groups::Group;
use crate::numbers;
use crate::numbers_read::link_type_of;
use crate::record::{Record, take_record};
use crate::texts::Texts;
use markdown_base::block_parts::LinkDef;
use markdown_base::cow_str::CowStr;
use markdown_base::event::Event;
use markdown_base::tag::LinkType;
use std::alloc::Global;
use std::ops::Range;

/// What comes before the definitions: an event, a question or an answer.
#[derive(Drop)]
pub enum Entry<'a> {
    /// An event, with its range in the source in bytes.
    Event(Event<'a>, Range<usize>),
    /// A question to the callback, asked directly before the event that follows.
    Question {
        span: Range<usize>,
        link_type: LinkType,
        label: &'a str,
    },
    /// The answer to the question with this range: None, or a destination with a title.
    Answer {
        span: Range<usize>,
        answer: Option<(&'a str, &'a str)>,
    },
}

impl<'a> Entry<'a> {
    ghost use Rattle.markdown_base.specs.Event.{event_view};
    ghost use Rattle.markdown_records.specs.EntryOf.{entry_said};
    ghost use Rattle.markdown_records.specs.SaidBy.{event_of};

    /// Returns the event, or None for a question or an answer.
    pub fn into_event(self) -> Option<Event<'a>>
        ensures { Finds event_view (event_of (entry_said self.entry)) result }
    {
        match self {
            Entry::Event(event, _) => Some(event),
            Entry::Question { .. } | Entry::Answer { .. } => None,
        }
    }
}

/// A link reference definition, with its label.
#[derive(Drop)]
pub struct Labelled<'a> {
    pub label: &'a str,
    pub definition: LinkDef<'a>,
}

impl Record {
    /// Returns the range in the source.
    pub fn span(&self) -> Range<usize>
        ensures { result ≡ record { start = self.now.start; end = self.now.end } }
    {
        self.start as usize..self.end as usize
    }
}

impl<'a> Texts<'a> {
    /// Returns a question.
    fn question_of(&self, group: &Group<'a>) -> Option<Entry<'a>>
        ensures { Finds entry_said (option_map (λ q. said.question_entry q)
            (question_in self.now.source.now self.now.pool.now (group_view group.now))) result }
    {
        if group.head.parts != 0 {
            return None;
        }
        let link_type = link_type_of(group.head.detail)?;
        let label = self.text_of(&group.head)?;
        Some(Entry::Question {
            span: group.head.span(),
            link_type,
            label,
        })
    }

    /// Returns the answer with a destination and a title, where the detail says that there are.
    fn given_answer_of(&self, group: &Group<'a>) -> Option<(&'a str, &'a str)>
        requires { group.now.head.detail ≡ 1 }
        ensures { Finds given_answer
            (answer_in self.now.source.now self.now.pool.now (group_view group.now)) result }
    {
        let destination = self.text_of(&group.head)?;
        let (title, rest) = self.first_part(numbers::TITLE, group.parts)?;
        match take_record(rest) {
            None => Some((destination, title)),
            Some(_) => None,
        }
    }

    /// Returns an answer: None, or a destination with a title.
    pub fn answer_of(&self, group: &Group<'a>) -> Option<Option<(&'a str, &'a str)>>
        ensures { Finds (option_map answer_view)
            (answer_in self.now.source.now self.now.pool.now (group_view group.now)) result }
    {
        match group.head.detail {
            0 if group.is_bare() => Some(None),
            1 => Some(Some(self.given_answer_of(group)?)),
            _ => None,
        }
    }

    /// Returns an answer, as an entry.
    fn answer_entry_of(&self, group: &Group<'a>) -> Option<Entry<'a>>
        ensures { Finds entry_said
            (option_map (λ a. said.answer_entry (range_of self.now.source.now self.now.pool.now
            (group_view group.now).head) a)
            (answer_in self.now.source.now self.now.pool.now (group_view group.now))) result }
    {
        let answer = self.answer_of(group)?;
        Some(Entry::Answer {
            span: group.head.span(),
            answer,
        })
    }

    /// Returns an entry.
    pub fn entry_of(&self, alloc: Global, group: &Group<'a>) -> Result<Entry<'a>, RecordFault>
        ensures { Reads entry_said
            (entry_in self.now.source.now self.now.pool.now (group_view group.now)) result }
    {
        if !group.is_sound() {
            return Err(RecordFault::NotRecords);
        }
        match group.head.kind {
            numbers::QUESTION => self.question_of(group).ok_or(RecordFault::NotRecords),
            numbers::ANSWER => self.answer_entry_of(group).ok_or(RecordFault::NotRecords),
            _ => {
                let event = self.event_of(alloc, group)?;
                Ok(Entry::Event(event, group.head.span()))
            }
        }
    }

    /// Returns the title of a definition, which may be missing.
    fn definition_title(&self, parts: &'a [u8]) -> Option<Option<CowStr<'a>>>
        ensures { Finds (option_map text_of)
            (definition_title self.now.source.now self.now.pool.now (records_in parts.entry.now))
            result }
    {
        let Some((part, rest)) = take_record(parts) else {
            return Some(None);
        };
        match take_record(rest) {
            None if part.kind == numbers::TITLE => Some(Some(self.cow_of(&part)?)),
            _ => None,
        }
    }

    /// Returns a link reference definition.
    pub fn definition_of(&self, group: &Group<'a>) -> Option<Labelled<'a>>
        ensures { Finds labelled_view
            (definition_in self.now.source.now self.now.pool.now (group_view group.now)) result }
    {
        if !group.is_sound() || group.head.kind != numbers::DEFINITION || group.head.detail != 0 {
            return None;
        }
        let label = self.text_of(&group.head)?;
        let (part, rest) = take_record(group.parts)?;
        if part.kind != numbers::DESTINATION {
            return None;
        }
        let dest = self.cow_of(&part)?;
        let title = self.definition_title(rest)?;
        let span = group.head.span();
        Some(Labelled {
            label,
            definition: LinkDef { dest, title, span },
        })
    }
}
