//! An iterator that gives headings their ids.
ghost use Rattle.std.specs.Prelude.{◌≡◌, ◌++◌, ◌+◌, ◌≤◌, [], false, not, is_some, length, map, IfOk, IfErr, string_bytes};
ghost use Rattle.std.specs.Prelude.{◌∷◌, ℕ, option_to_list, true};
ghost use Rattle.std.specs.Iterator.{IsFinite, size};
ghost use Rattle.std.specs.Option.{option_map};
ghost use Rattle.std.specs.declared.ops.Range.{Range};
ghost use Rattle.markdown_base.specs.Event.{event_view, tag_view};
ghost use Rattle.markdown_heading_ids.specs.HeadingIds.{event_with_id, lacks_id, tag_with_id, with_given};
ghost use Rattle.markdown_heading_ids.specs.HeadingIdsNext.{MayCallSource, count_to_come, item_seen};
ghost use Rattle.markdown_heading_ids.specs.HeadingIdsState.{ids_state};
ghost use Rattle.markdown_heading_ids.specs.HeadingRead.{HeadingIsRead, TakesEvent, ends_with, words_added};
ghost use Rattle.markdown_outline.specs.Outline.{opened_heading};

use crate::taken::Taken;
use markdown_base::cow_str::CowStr;
use markdown_base::event::Event;
use markdown_base::fault::Fault;
use markdown_base::tag::Tag;
use markdown_outline::{ends_heading, text_added};
use std::alloc::Global;
use std::collections::VecDeque;
use std::ops::Range;

/// An event with its range, or an error.
type Placed<'a> = Result<(Event<'a>, Range<usize>), Fault>;

/// Returns whether an event is the Start of a heading.
fn opens_heading(event: &Event<'_>) -> bool
    ensures { result ≡ is_some (opened_heading (event_view event.now)) }
{
    matches!(event, Event::Start(Tag::Heading { .. }))
}

/// Returns whether an event is the Start of a heading without an id.
fn lacks_id(event: &Event<'_>) -> bool
    ensures { result ≡ lacks_id (event_view event.now) }
{
    matches!(event, Event::Start(Tag::Heading { id: None, .. }))
}

/// Returns the tag of a heading with this id; another tag stays.
fn tag_with_id<'a>(tag: Tag<'a>, id: String) -> Tag<'a>
    ensures { tag_view result ≡ tag_with_id (string_bytes id) (tag_view tag.entry) }
{
    match tag {
        Tag::Heading {
            level,
            id: _,
            classes,
            attrs,
        } => Tag::Heading {
            level,
            id: Some(CowStr::from(id)),
            classes,
            attrs,
        },
        other => other,
    }
}

/// Returns the Start of a heading with this id, if there is one; another event stays.
fn event_with_id<'a>(event: Event<'a>, id: Option<String>) -> Event<'a>
    ensures { (range : Range ℕ) → with_given (option_to_list (option_map string_bytes id))
        (event_view event.entry, range) ≡ (event_view result, range) }
{
    match id {
        None => event,
        Some(id) => match event {
            Event::Start(tag) => Event::Start(tag_with_id(tag, id)),
            other => other,
        },
    }
}

/// Appends what an item adds to the text of the heading that it is in, and returns whether the heading ends with it.
fn push_words(words: &mut String, item: &Placed<'_>) -> Result<bool, Fault>
    ensures words { IfOk result (λ _. string_bytes words.new
        ≡ string_bytes words.old ++ words_added (item_seen item.now)) }
    ensures ends { IfOk result (λ ends. ends ≡ ends_with (item_seen item.now)) }
    ensures refused { IfErr result (λ fault. fault ≡ Fault.Memory) }
{
    match item {
        Ok((event, _)) => {
            words.push_str(text_added(event))?;
            Ok(ends_heading(event))
        }
        Err(_) => Ok(true),
    }
}

/// Reads the items after the Start of a heading, up to the one that it ends with, or to the end of the iterator, and
/// keeps them. Returns the text of the heading, and whether the iterator has ended.
fn read_heading<'a, I: Iterator<Item = Placed<'a>>>(
    alloc: Global,
    iter: &mut I,
    kept: &mut VecDeque<Placed<'a>>,
) -> Result<(String, bool), Fault>
    requires can { I.can_next iter.old }
    requires finite { IsFinite (I.remaining iter.old) }
    requires empty { kept.old.items ≡ [] }
    ensures read { IfOk result (λ p. HeadingIsRead I.next_gives iter.old kept.new.items
        (string_bytes p.0) p.1 iter.new) }
    ensures again { IfOk result (λ p. p.1 ≡ false → I.can_next iter.new) }
    ensures finite { IfOk result (λ p. p.1 ≡ false → IsFinite (I.remaining iter.new)) }
    ensures fewer { IfOk result (λ p. p.1 ≡ false
        → length kept.new.items + size (I.remaining iter.new) ≤ size (I.remaining iter.old)) }
    ensures few { IfOk result (λ p. length kept.new.items ≤ size (I.remaining iter.old)) }
    ensures refused { IfErr result (λ fault. fault ≡ Fault.Memory) }
{
    let mut words = String::new(alloc);
    'reading: loop {
        match iter.next() {
            None => return Ok((words, true)),
            Some(item) => {
                let ends = push_words(&mut words, &item)?;
                kept.push_back(item)?;
                if ends {
                    return Ok((words, false));
                }
            }
        }
    }
}

/// The events of an iterator with their ranges, where each heading without an id has one.
#[derive(Drop)]
pub struct HeadingIds<'a, I> {
    alloc: Global,
    iter: I,
    taken: Taken,
    /// The items that have been read and not returned yet: those after the Start of a heading that was given an id.
    kept: VecDeque<Placed<'a>>,
    /// Whether the next item of the iterator is inside a heading.
    inside: bool,
    /// Whether the iterator has ended, or an allocation has failed; then the iterator is not called.
    over: bool,
}

impl<'a, I> HeadingIds<'a, I> {
    ghost use Rattle.std.specs.Prelude.{◌≡◌, [], false};
    ghost use Rattle.markdown_heading_ids.specs.HeadingIdsState.{ids_state};

    /// Returns the events of an iterator with the ids of their headings, where these ids are taken. Allocates nothing.
    pub fn new(alloc: Global, taken: Taken, iter: I) -> Self
        ensures { ids_state result
            ≡ record { iter = iter; kept = []; inside = false; taken = taken; over = false } }
    {
        HeadingIds {
            alloc,
            iter,
            taken,
            kept: VecDeque::new(alloc),
            inside: false,
            over: false,
        }
    }
}

impl<'a, I: Iterator<Item = Placed<'a>>> HeadingIds<'a, I> {
    /// Takes in the event that was read last, and returns the id that it is given, if it is. Nothing is kept before.
    fn id_of(&mut self, event: &Event<'_>) -> Result<Option<String>, Fault>
        requires may { MayCallSource I.can_next I.remaining (ids_state self.old) }
        requires empty { self.old.kept.items ≡ [] }
        requires reads { self.old.over ≡ false }
        ensures takes { IfOk result (λ id. (range : Range ℕ) → TakesEvent I.next_gives
            (ids_state self.old) (event_view event.now, range)
            (option_to_list (option_map string_bytes id)) (ids_state self.new)) }
        ensures again { IfOk result
            (λ id. MayCallSource I.can_next I.remaining (ids_state self.new)) }
        ensures fewer { IfOk result (λ id. count_to_come I.remaining (ids_state self.new)
            ≤ count_to_come I.remaining (ids_state self.old)) }
        ensures refused { IfErr result (λ fault. (fault ≡ Fault.Memory) × (self.old.inside ≡ false)
            × (lacks_id (event_view event.now) ≡ true)) }
    {
        if self.inside {
            self.inside = !ends_heading(event);
            return Ok(None);
        }
        if !lacks_id(event) {
            self.inside = opens_heading(event);
            return Ok(None);
        }
        let (words, over) = read_heading(self.alloc, &mut self.iter, &mut self.kept)?;
        self.over = over;
        Ok(Some(self.taken.give(words.as_str())?))
    }
}

impl<'a, I: Iterator<Item = Placed<'a>>> Iterator for HeadingIds<'a, I> {
    type Item = Placed<'a>;

    ghost use Rattle.std.specs.Iterator.{at_most};
    ghost use Rattle.markdown_heading_ids.specs.HeadingIdsNext.{MayCallSource, count_to_come, ids_steps};
    ghost use Rattle.markdown_heading_ids.specs.HeadingIdsState.{ids_state};

    ghost can_next = { λ h. MayCallSource I.can_next I.remaining (ids_state h) };

    ghost next_gives = { λ h r t. ids_steps I.next_gives ids_state h r t };

    ghost remaining = { λ h. at_most (count_to_come I.remaining (ids_state h)) };

    /// Returns the next event, with its id if it is the Start of a heading, and with its range.
    ///
    /// # Errors
    ///
    /// The item is an error where the iterator returns one, and `Fault::Memory` if an allocation fails: then
    /// every later call returns `None`.
    fn next(&mut self) -> Option<Placed<'a>> {
        if let Some(item) = self.kept.pop_front() {
            return Some(item);
        }
        if self.over {
            return None;
        }
        match self.iter.next() {
            None => {
                self.over = true;
                None
            }
            Some(Err(fault)) => {
                self.inside = false;
                Some(Err(fault))
            }
            Some(Ok((event, range))) => match self.id_of(&event) {
                Ok(id) => Some(Ok((event_with_id(event, id), range))),
                Err(fault) => {
                    drop(event);
                    self.kept.clear();
                    self.over = true;
                    Some(Err(fault))
                }
            },
        }
    }
}
