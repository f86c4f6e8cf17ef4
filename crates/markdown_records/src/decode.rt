//! `RecordedText`, which is what records of a text say.
ghost use Rattle.std.specs.Prelude.{◌≡◌, is_some, true};
ghost use Rattle.markdown_records.specs.SaidBy.{said_contents};

use crate::fault::RecordFault;
use crate::form::form_of;
use crate::record_answers::RecordAnswers;
use crate::record_definitions::RecordDefinitions;
use crate::record_events::RecordEvents;
use crate::texts::Texts;
use std::alloc::Global;

/// What records of a text say, of which each has been read once.
///
/// ```
/// let recorded = RecordedText::of_bytes(alloc, text, bytes)?;
/// push_html(&mut html, alloc, recorded.events(alloc))?;
/// ```
#[derive(Clone, Copy, Drop)]
pub struct RecordedText<'a> {
    source: &'a str,
    pool: &'a str,
    entries: &'a [u8],
    definitions: &'a [u8],
    ghost reads: { is_some (said_contents source.now pool.now entries.now definitions.now) ≡ true },
}

impl<'a> RecordedText<'a> {
    ghost use Rattle.markdown_records.specs.Decoded.{decoded};
    ghost use Rattle.markdown_records.specs.ReadResult.{Reads};
    ghost use Rattle.markdown_records.specs.AnswersLeft.{answer_entries_left};
    ghost use Rattle.markdown_records.specs.RecordedDefinitionsLeft.{recorded_definitions_left};
    ghost use Rattle.markdown_records.specs.RecordedContents.{contents_said};
    ghost use Rattle.markdown_records.specs.RecordsLeft.{EntriesCanBeRead, events_left};
    ghost use Rattle.markdown_records.specs.SaidBy.{events_among};

    /// Returns what bytes say of a text. Each record is read once, and nothing is kept of it.
    ///
    /// # Errors
    ///
    /// `NotRecords` if the bytes are no records of this text, and `Of(Fault::Memory)` if an
    /// allocation fails.
    pub fn of_bytes(
        alloc: Global,
        text: &'a str,
        bytes: &'a [u8],
    ) -> Result<RecordedText<'a>, RecordFault>
        ensures { Reads contents_said (decoded text.entry.now bytes.entry.now) result }
    {
        let form = form_of(text, bytes).ok_or(RecordFault::NotRecords)?;
        let texts = Texts {
            source: text,
            pool: form.pool,
        };
        texts.check_entries(alloc, form.entries)?;
        texts.check_definitions(form.definitions)?;
        Ok(RecordedText {
            source: text,
            pool: form.pool,
            entries: form.entries,
            definitions: form.definitions,
        })
    }

    /// Returns the events, one after another.
    pub fn events(&self, alloc: Global) -> RecordEvents<'a>
        ensures can { EntriesCanBeRead result }
        ensures events { events_left result ≡ events_among (contents_said self.now).entries }
    {
        RecordEvents::new(alloc, self.texts(), self.entries)
    }

    /// Returns the answers that come before all else, one after another.
    pub fn answers(&self) -> RecordAnswers<'a>
        ensures { answer_entries_left result ≡ (contents_said self.now).entries }
    {
        RecordAnswers::new(self.texts(), self.entries)
    }

    /// Returns the link reference definitions, one after another.
    pub fn definitions(&self) -> RecordDefinitions<'a>
        ensures { recorded_definitions_left result ≡ (contents_said self.now).definitions }
    {
        RecordDefinitions::new(self.texts(), self.definitions)
    }

    /// Returns what the texts of the records are slices of.
    fn texts(&self) -> Texts<'a>
        ensures { result ≡ record { source = self.now.source; pool = self.now.pool } }
    {
        Texts {
            source: self.source,
            pool: self.pool,
        }
    }
}
