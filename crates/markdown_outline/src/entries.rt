//! `Entries`, the entries of the events read so far.
ghost use Rattle.std.specs.Prelude.{◌≡◌, ◌∷◌, [], None, List, IfOk, IfErr, IsSome, OnErr, OnOk, map};
ghost use Rattle.std.specs.Option.{option_map};
ghost use Rattle.markdown_base.specs.Event.{event_view};
ghost use Rattle.markdown_base.specs.declared.fault.Fault.TheVariants.{Memory};
ghost use Rattle.markdown_outline.specs.Outline.{Ranged, entry_view, opened_heading};
ghost use Rattle.markdown_outline.specs.OutlineSoFar.{HasEntry, all_entries, begun, entries_view};

use crate::entry::Entry;
use crate::headings::{copied_id, ends_heading, level_number, text_added};
use markdown_base::event::Event;
use markdown_base::fault::Fault;
use markdown_base::tag::Tag;
use std::alloc::{AllocError, Global};
use std::ops::Range;

/// The entries of the events read so far.
#[derive(Drop)]
pub struct Entries {
    /// The entries whose headings have ended.
    pub ended: Vec<Entry>,
    /// The entry of the heading that the next event is in, if it is in one.
    pub open_entry: Option<Entry>,
}

/// Returns the entry that an event with this range opens, if it opens one. Its text is empty.
fn opened_entry(
    alloc: Global,
    event: &Event<'_>,
    range: Range<usize>,
) -> Result<Option<Entry>, AllocError>
    ensures entry { IfOk result (λ entry. option_map entry_view entry
        ≡ option_map (begun range) (opened_heading (event_view event.now))) }
    ensures refused { OnErr result (IsSome (opened_heading (event_view event.now))) }
{
    match event {
        Event::Start(Tag::Heading { level, id, .. }) => Ok(Some(Entry {
            level: level_number(*level),
            text: String::new(alloc),
            range,
            id: copied_id(alloc, id)?,
        })),
        _ => Ok(None),
    }
}

impl Entries {
    /// Returns the entries of no events.
    pub fn new(alloc: Global) -> Self
        ensures { entries_view result ≡ record { ended = []; open_entry = None } }
    {
        Entries {
            ended: Vec::new(alloc),
            open_entry: None,
        }
    }

    /// Reads the next event. Nothing is promised of the entries after an error.
    fn read(&mut self, alloc: Global, event: &Event<'_>, range: Range<usize>) -> Result<(), Fault>
        ensures ok { OnOk result ((later : List Ranged)
            → all_entries (entries_view self.old) ((event_view event.now, range) ∷ later)
            ≡ all_entries (entries_view self.new) later) }
        ensures refused { IfErr result (λ fault. (fault ≡ Memory)
            × HasEntry (entries_view self.old) ((event_view event.now, range) ∷ [])) }
    {
        match self.open_entry.take() {
            None => {
                self.open_entry = opened_entry(alloc, event, range)?;
                Ok(())
            }
            Some(mut entry) => {
                if ends_heading(event) {
                    self.ended.push(entry)?;
                    return Ok(());
                }
                entry.text.push_str(text_added(event))?;
                self.open_entry = Some(entry);
                Ok(())
            }
        }
    }

    /// Reads the next event, as `read` does, and drops it.
    pub fn take_in(
        &mut self,
        alloc: Global,
        event: Event<'_>,
        range: Range<usize>,
    ) -> Result<(), Fault>
        ensures ok { OnOk result ((later : List Ranged)
            → all_entries (entries_view self.old) ((event_view event.entry, range) ∷ later)
            ≡ all_entries (entries_view self.new) later) }
        ensures refused { IfErr result (λ fault. (fault ≡ Memory)
            × HasEntry (entries_view self.old) ((event_view event.entry, range) ∷ [])) }
    {
        let taken = self.read(alloc, &event, range);
        drop(event);
        taken
    }

    /// Returns all entries. The entry of a heading without an End has the text read so far.
    pub fn finish(self) -> Result<Vec<Entry>, Fault>
        ensures all { IfOk result (λ entries.
            map entry_view entries.items ≡ all_entries (entries_view self) []) }
        ensures refused { IfErr result (λ fault.
            (fault ≡ Memory) × HasEntry (entries_view self) []) }
    {
        let Entries { ended, open_entry } = self;
        let mut entries = ended;
        if let Some(entry) = open_entry {
            entries.push(entry)?;
        }
        Ok(entries)
    }
}
