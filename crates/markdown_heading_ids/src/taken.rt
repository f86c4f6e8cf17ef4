//! `Taken`, the ids that are taken.
ghost use Rattle.std.specs.Prelude.{◌≡◌, ◌⊎◌, ◌∷◌, ◌++◌, ◌<◌, [], List, IfOk, IfErr, OnOk, string_bytes};
ghost use Rattle.std.specs.Iterator.{IsFinite};
ghost use Rattle.std.specs.Option.{option_map};
ghost use Rattle.markdown_base.specs.Event.{event_view, tag_view};
ghost use Rattle.markdown_base.specs.declared.fault.Fault.{Fault};
ghost use Rattle.markdown_heading_ids.specs.Anchors.{heading_anchor};
ghost use Rattle.markdown_heading_ids.specs.HeadingIds.{Id, anchor_id, event_ids, free_id, own_ids, tag_ids};
ghost use Rattle.markdown_heading_ids.specs.TakenIds.{IsNextNumber, SetsNumber, StandsFor};
ghost use Rattle.markdown_heading_ids.specs.TakenRead.{IsTakenByAll};
ghost use Rattle.markdown_outline.specs.OutlineRead.{MeetsError};

use crate::anchor::heading_anchor;
use markdown_base::event::Event;
use markdown_base::fault::Fault;
use markdown_base::tag::Tag;
use std::alloc::Global;
use std::collections::BTreeMap;
use std::ops::Range;

/// The ids that are taken, so that no heading is given one of them.
#[derive(Drop)]
pub struct Taken {
    alloc: Global,
    /// For each taken id the number that was given last to it as an anchor, 0 where none was. (Ordered, not hashed, so
    /// that no choice of headings makes look-ups slow.)
    numbers: BTreeMap<String, usize>,
}

/// Returns the id that the HTML of a tag has: that of a heading, or the name of a footnote definition.
fn id_of_tag<'t>(tag: &'t Tag<'_>) -> Option<&'t str>
    ensures { own_ids (option_map (λ id. id.now) result) ≡ tag_ids (tag_view tag.now) }
{
    match tag {
        Tag::Heading { id, .. } => match id {
            Some(own) => Some(own.as_str()),
            None => None,
        },
        Tag::FootnoteDefinition(name) => Some(name.as_str()),
        _ => None,
    }
}

/// Returns the id that the HTML of an event has.
fn id_of_event<'t>(event: &'t Event<'_>) -> Option<&'t str>
    ensures { own_ids (option_map (λ id. id.now) result) ≡ event_ids (event_view event.now) }
{
    match event {
        Event::Start(tag) => id_of_tag(tag),
        _ => None,
    }
}

/// Drops what an event held.
fn discard<T: Drop>(value: T) {
    drop(value);
}

/// Returns the id of an anchor with this number, which is not 0.
fn numbered_id(alloc: Global, anchor: &str, number: usize) -> Result<String, Fault>
    requires not_plain { 0 < number }
    ensures id { IfOk result (λ id. string_bytes id ≡ anchor_id anchor.now number) }
    ensures refused { IfErr result (λ fault. fault ≡ Fault.Memory) }
{
    Ok(format!(in alloc; "{anchor}-{number}")?)
}

impl Taken {
    /// Returns what is taken on an empty page: the empty id, which no element may have.
    ///
    /// # Errors
    ///
    /// `Memory` if an allocation fails.
    pub fn new(alloc: Global) -> Result<Taken, Fault>
        ensures taken { IfOk result (λ taken. StandsFor taken ([] ∷ [])) }
        ensures refused { IfErr result (λ fault. fault ≡ Fault.Memory) }
    {
        let mut taken = Taken {
            alloc,
            numbers: BTreeMap::new(alloc),
        };
        taken.insert("")?;
        Ok(taken)
    }

    /// Takes an id, as one that the page has elsewhere.
    ///
    /// # Errors
    ///
    /// `Memory` if an allocation fails; then nothing is promised of what is taken.
    pub fn insert(&mut self, id: &str) -> Result<(), Fault>
        ensures taken { OnOk result ((taken : List Id) → StandsFor self.old taken
            → StandsFor self.new (id.now ∷ taken)) }
        ensures refused { IfErr result (λ fault. fault ≡ Fault.Memory) }
    {
        if self.numbers.contains_key(id) {
            return Ok(());
        }
        self.set(id, 0)
    }

    /// Returns what is taken on a page of these events: the empty id, and the ids that the events have.
    ///
    /// # Errors
    ///
    /// The error of the first item that is one, and `Memory` if an allocation fails.
    pub fn of_events<'a, I>(alloc: Global, iter: I) -> Result<Taken, Fault>
    where
        I: Iterator<Item = Result<(Event<'a>, Range<usize>), Fault>>,
        requires can { I.can_next iter }
        requires ends { IsFinite (I.remaining iter) }
        ensures taken { IfOk result (IsTakenByAll I.next_gives iter) }
        ensures fault { IfErr result (λ fault.
            MeetsError I.next_gives iter fault ⊎ (fault ≡ Fault.Memory)) }
    {
        let mut taken = Taken::new(alloc)?;
        for item in iter {
            let (event, _range) = item?;
            taken.take_in(event)?;
        }
        Ok(taken)
    }

    /// Takes the id that the HTML of an event has.
    fn take_in(&mut self, event: Event<'_>) -> Result<(), Fault>
        ensures taken { OnOk result ((taken : List Id) → StandsFor self.old taken
            → StandsFor self.new (event_ids (event_view event.entry) ++ taken)) }
        ensures refused { IfErr result (λ fault. fault ≡ Fault.Memory) }
    {
        let taken = self.take_id(id_of_event(&event));
        discard(event);
        taken
    }

    /// Takes an id, if there is one.
    pub(crate) fn take_id(&mut self, id: Option<&str>) -> Result<(), Fault>
        ensures taken { OnOk result ((taken : List Id) → StandsFor self.old taken
            → StandsFor self.new (own_ids (option_map (λ id. id.now) id.entry) ++ taken)) }
        ensures refused { IfErr result (λ fault. fault ≡ Fault.Memory) }
    {
        match id {
            Some(id) => self.insert(id),
            None => Ok(()),
        }
    }

    /// Sets the number that was given last to an id as an anchor.
    fn set(&mut self, id: &str, number: usize) -> Result<(), Fault>
        ensures sets { OnOk result (SetsNumber self.old self.new id.now number) }
        ensures refused { IfErr result (λ fault. fault ≡ Fault.Memory) }
    {
        self.numbers
            .insert(String::from_str(self.alloc, id)?, number)?;
        Ok(())
    }

    /// Returns the first number after the last one by which the id of an anchor is not taken.
    fn next_number(&self, anchor: &str, last: usize) -> Result<usize, Fault>
        ensures number { IfOk result (IsNextNumber self.now anchor.now last) }
        ensures refused { IfErr result (λ fault. fault ≡ Fault.Memory) }
    {
        for number in last..self.numbers.len() {
            let id = numbered_id(self.alloc, anchor, number + 1)?;
            if !self.numbers.contains_key(id.as_str()) {
                return Ok(number + 1);
            }
        }
        // (of more ids than are taken one is not)
        Err(Fault::Memory)
    }

    /// Returns the id of a heading with this text, which is then taken: the first of its anchor's ids that is not.
    ///
    /// # Errors
    ///
    /// `Memory` if an allocation fails; then nothing is promised of what is taken.
    pub(crate) fn give(&mut self, words: &str) -> Result<String, Fault>
        ensures id { IfOk result (λ id. (taken : List Id) → StandsFor self.old taken
            → string_bytes id ≡ free_id taken (heading_anchor words.now)) }
        ensures taken { IfOk result (λ id. (taken : List Id) → StandsFor self.old taken
            → StandsFor self.new (string_bytes id ∷ taken)) }
        ensures refused { IfErr result (λ fault. fault ≡ Fault.Memory) }
    {
        let anchor = heading_anchor(self.alloc, words)?;
        match self.numbers.get(anchor.as_str()).copied() {
            None => {
                self.set(anchor.as_str(), 0)?;
                Ok(anchor)
            }
            Some(last) => {
                let number = self.next_number(anchor.as_str(), last)?;
                let id = numbered_id(self.alloc, anchor.as_str(), number)?;
                self.set(id.as_str(), 0)?;
                self.set(anchor.as_str(), number)?;
                Ok(id)
            }
        }
    }
}
