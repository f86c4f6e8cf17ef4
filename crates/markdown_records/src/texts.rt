//! The texts of records.
ghost use Rattle.std.specs.Option.{option_map};
ghost use Rattle.markdown_base.specs.CowText.{text_of};
ghost use Rattle.markdown_records.specs.Decoded.{optional_text_in, text_in};
ghost use Rattle.markdown_records.specs.ReadResult.{Finds, words};
ghost use Rattle.markdown_records.specs.RecordOf.{record_view};

use crate::record::{IN_POOL, IN_SOURCE, Record};
use crate::slices::slice_of;
use markdown_base::cow_str::CowStr;

/// What the texts of records are slices of.
#[derive(Clone, Copy, Drop)]
pub(crate) struct Texts<'a> {
    pub source: &'a str,
    pub pool: &'a str,
}

impl<'a> Texts<'a> {
    /// Returns the text of a record, or None where it has none.
    pub fn text_of(&self, head: &Record) -> Option<&'a str>
        ensures { Finds words (text_in self.now.source.now self.now.pool.now
            (record_view head.now)) result }
    {
        match head.place {
            IN_SOURCE => slice_of(self.source, head.at as usize, head.length as usize),
            IN_POOL => slice_of(self.pool, head.at as usize, head.length as usize),
            _ => None,
        }
    }

    /// Returns the text of a record, or None where it has none.
    pub fn cow_of(&self, head: &Record) -> Option<CowStr<'a>>
        ensures { Finds text_of (text_in self.now.source.now self.now.pool.now
            (record_view head.now)) result }
    {
        Some(CowStr::Borrowed(self.text_of(head)?))
    }

    /// Returns the text of a record, if there is to be one, or None where the record is wrong.
    pub fn optional_text_of(&self, head: &Record) -> Option<Option<CowStr<'a>>>
        ensures { Finds (option_map text_of)
            (optional_text_in self.now.source.now self.now.pool.now (record_view head.now))
            result }
    {
        if head.has_no_text() {
            return Some(None);
        }
        Some(Some(self.cow_of(head)?))
    }
}
