//! `LinksSoFar`, the links and images of the events read so far.
ghost use Rattle.std.specs.Prelude.{◌≡◌, ◌∷◌, [], List, IfErr, OnOk, None, true, false};
ghost use Rattle.markdown_base.specs.Event.{event_view};
ghost use Rattle.markdown_base.specs.declared.fault.Fault.TheVariants.{Memory};
ghost use Rattle.markdown_links.specs.FoundLinks.{AreKept, BeginsAtEnd, HasLink, IsBegunBy, all_links};
ghost use Rattle.markdown_links.specs.LinkEntries.{ends_link, link_entries_of, opened_link};
ghost use Rattle.markdown_links.specs.LinkList.{list_entries};
ghost use Rattle.markdown_outline.specs.Outline.{Ranged, text_added};

use crate::events::{Place, ends_link, opened_link};
use crate::found::Found;
use crate::list::LinkList;
use markdown_base::event::Event;
use markdown_base::fault::Fault;
use markdown_outline::text_added;
use std::alloc::Global;
use std::ops::Range;

/// The links and images of the events read so far.
#[derive(Drop)]
pub struct LinksSoFar {
    pub found: Vec<Found>,
    /// The numbers of those whose End has not come, the innermost last.
    pub open: Vec<usize>,
    /// The text of all events that were inside any of them.
    pub texts: String,
}

impl LinksSoFar {
    /// Returns those of no events.
    pub fn new(alloc: Global) -> Self
        ensures kept { AreKept result }
        ensures none { (later : List Ranged) → all_links result later ≡ link_entries_of later }
    {
        LinksSoFar {
            found: Vec::new(alloc),
            open: Vec::new(alloc),
            texts: String::new(alloc),
        }
    }

    /// Takes in one that begins. Nothing is promised after an error.
    fn open(&mut self, begun: Found) -> Result<(), Fault>
        requires { AreKept self.old }
        ensures kept { BeginsAtEnd self.old begun → OnOk result (AreKept self.new) }
        ensures ok { OnOk result ((e : Ranged) → IsBegunBy self.old e begun
            → (later : List Ranged) → all_links self.old (e ∷ later) ≡ all_links self.new later) }
        ensures refused { IfErr result (λ fault. fault ≡ Memory) }
    {
        self.open.push(self.found.len())?;
        self.found.push(begun)?;
        Ok(())
    }

    /// Ends the innermost of those whose End has not come, if there is one.
    fn close(&mut self)
        requires { AreKept self.old }
        ensures kept { AreKept self.new }
        ensures ends { (e : Ranged) → ends_link e.0 ≡ true
            → (later : List Ranged) → all_links self.old (e ∷ later) ≡ all_links self.new later }
    {
        if let Some(innermost) = self.open.pop() {
            self.found[innermost].text_end = Some(self.texts.as_bytes().len());
        }
    }

    /// Adds to the text of those whose End has not come, if there are any. Nothing is promised after an error.
    fn add_text(&mut self, text: &str) -> Result<(), Fault>
        requires { AreKept self.old }
        ensures kept { OnOk result (AreKept self.new) }
        ensures ok { OnOk result ((e : Ranged) → (opened_link e.0 ≡ None) × (ends_link e.0 ≡ false)
            → text.now ≡ text_added e.0
            → (later : List Ranged) → all_links self.old (e ∷ later) ≡ all_links self.new later) }
        ensures refused { IfErr result (λ fault. (fault ≡ Memory)
            × ((later : List Ranged) → HasLink self.old later)) }
    {
        if !self.open.is_empty() {
            self.texts.push_str(text)?;
        }
        Ok(())
    }

    /// Reads the next event. Nothing is promised after an error.
    fn read(&mut self, alloc: Global, event: &Event<'_>, range: Range<usize>) -> Result<(), Fault>
        requires { AreKept self.old }
        ensures kept { OnOk result (AreKept self.new) }
        ensures ok { OnOk result ((later : List Ranged)
            → all_links self.old ((event_view event.now, range) ∷ later)
            ≡ all_links self.new later) }
        ensures refused { IfErr result (λ fault. (fault ≡ Memory)
            × HasLink self.old ((event_view event.now, range) ∷ [])) }
    {
        let text_start = self.texts.as_bytes().len();
        let begun = opened_link(alloc, event, Place { range, text_start })?;
        match begun {
            Some(begun) => self.open(begun),
            None => {
                if ends_link(event) {
                    self.close();
                    return Ok(());
                }
                self.add_text(text_added(event))
            }
        }
    }

    /// Reads the next event, as `read` does, and drops it.
    pub fn take_in(
        &mut self,
        alloc: Global,
        event: Event<'_>,
        range: Range<usize>,
    ) -> Result<(), Fault>
        requires { AreKept self.old }
        ensures kept { OnOk result (AreKept self.new) }
        ensures ok { OnOk result ((later : List Ranged)
            → all_links self.old ((event_view event.entry, range) ∷ later)
            ≡ all_links self.new later) }
        ensures refused { IfErr result (λ fault. (fault ≡ Memory)
            × HasLink self.old ((event_view event.entry, range) ∷ [])) }
    {
        let taken = self.read(alloc, &event, range);
        drop(event);
        taken
    }

    /// Returns all. One without an End has the text read so far.
    pub fn finish(self) -> LinkList
        requires { AreKept self }
        ensures { list_entries result ≡ all_links self [] }
    {
        let LinksSoFar { found, texts, .. } = self;
        LinkList::new(found, texts)
    }
}
