//! `RecordEvents`, the events of records one after another.
ghost use Rattle.markdown_records.specs.RecordsLeft.{EntriesCanBeRead, GivesEntry};

use crate::groups::take_group;
use crate::read_entries::Entry;
use crate::texts::Texts;
use markdown_base::event::Event;
use markdown_base::fault::Fault;
use std::alloc::Global;
use std::iter::FusedIterator;

/// The events among the entries of records, in order. The only error is `Fault::Memory`, and after
/// it comes None.
#[derive(Drop)]
pub struct RecordEvents<'a> {
    alloc: Global,
    source: &'a str,
    pool: &'a str,
    /// The records that are left.
    left: &'a [u8],
}

impl<'a> RecordEvents<'a> {
    ghost use Rattle.std.specs.Prelude.{◌≡◌};
    ghost use Rattle.markdown_records.specs.RecordsLeft.{entries_left};
    ghost use Rattle.markdown_records.specs.SaidBy.{said_entries};

    /// Returns the events among the records of these bytes.
    pub(crate) fn new(alloc: Global, texts: Texts<'a>, bytes: &'a [u8]) -> RecordEvents<'a>
        ensures { entries_left result ≡ said_entries texts.entry.source.now texts.entry.pool.now
            bytes.entry.now }
    {
        RecordEvents {
            alloc,
            source: texts.source,
            pool: texts.pool,
            left: bytes,
        }
    }

    /// Returns the next entry: an event, or a question or an answer, which `next` passes over.
    pub fn next_entry(&mut self) -> Option<Result<Entry<'a>, Fault>>
        requires { EntriesCanBeRead self.old }
        ensures gives { GivesEntry self.old result self.new }
        ensures can { EntriesCanBeRead self.new }
    {
        let texts = Texts {
            source: self.source,
            pool: self.pool,
        };
        let (group, rest) = take_group(self.left)?;
        match texts.entry_of(self.alloc, &group) {
            Ok(entry) => {
                self.left = rest;
                Some(Ok(entry))
            }
            Err(_) => {
                self.left = &[];
                Some(Err(Fault::Memory))
            }
        }
    }
}

impl<'a> Iterator for RecordEvents<'a> {
    ghost use Rattle.std.specs.Iterator.{at_most};
    ghost use Rattle.markdown_records.specs.RecordsLeft.{EntriesCanBeRead, bytes_left, event_steps};

    type Item = Result<Event<'a>, Fault>;

    ghost can_next = { EntriesCanBeRead };

    ghost next_gives = { event_steps };

    ghost remaining = { λ e. at_most (bytes_left e) };

    /// Returns the next event, or None at the end.
    ///
    /// # Errors
    ///
    /// The item is `Fault::Memory` if an allocation fails; then every later call returns None.
    fn next(&mut self) -> Option<Result<Event<'a>, Fault>> {
        'entries: loop {
            match self.next_entry()? {
                Ok(entry) => {
                    if let Some(event) = entry.into_event() {
                        return Some(Ok(event));
                    }
                }
                Err(fault) => return Some(Err(fault)),
            }
        }
    }
}

impl FusedIterator for RecordEvents<'_> {}
