//! An iterator that makes links of bare addresses.
ghost use Rattle.std.specs.Prelude.{◌≡◌, ◌≤◌, ◌<◌, ◌⊎◌, [], IfErr, IfOk, false, is_none, is_some};
ghost use Rattle.std.specs.Prelude.{map, true};
ghost use Rattle.std.specs.Iterator.{IsFinite, size};
ghost use Rattle.markdown_base.specs.Event.{event_view, tag_end, tag_view};
ghost use Rattle.markdown_autolinks.specs.AutolinksLaws.{event_read};
ghost use Rattle.markdown_autolinks.specs.AutolinksNext.{MayReadOn, most_to_come, item_read};
ghost use Rattle.markdown_autolinks.specs.AutolinksState.{linked_state};
ghost use Rattle.markdown_autolinks.specs.LinkedEvents.{left_alone_after};
ghost use Rattle.markdown_autolinks.specs.LinkedRuns.{is_left_alone};
ghost use Rattle.markdown_autolinks.specs.RunRead.{AreTexts, Fills, NextIsRead, RunIsRead};
ghost use Rattle.markdown_autolinks.specs.RunRead.{TextsAreRead, is_text};
ghost use Rattle.markdown_autolinks.specs.RunRead.{left_alone_after_item};

use crate::runs::{Placed, push_run};
use markdown_base::event::Event;
use markdown_base::fault::Fault;
use markdown_base::tag::{Tag, TagEnd};
use std::alloc::Global;
use std::collections::VecDeque;
use std::ops::Range;

/// Returns whether an event is a Text.
fn is_text(event: &Event<'_>) -> bool
    ensures { result ≡ is_text (event_view event.now) }
{
    matches!(event, Event::Text(_))
}

/// Returns whether no addresses are looked for between a Start with this tag and its End.
fn opens_left_alone(tag: &Tag<'_>) -> bool
    ensures { result ≡ is_left_alone (tag_end (tag_view tag.now)) }
{
    matches!(
        tag,
        Tag::Link { .. }
            | Tag::Image { .. }
            | Tag::CodeBlock(_)
            | Tag::HtmlBlock
            | Tag::MetadataBlock(_)
    )
}

/// Returns whether no addresses are looked for before this End.
fn closes_left_alone(tag: TagEnd) -> bool
    ensures { result ≡ is_left_alone tag }
{
    matches!(
        tag,
        TagEnd::Link
            | TagEnd::Image
            | TagEnd::CodeBlock
            | TagEnd::HtmlBlock
            | TagEnd::MetadataBlock(_)
    )
}

/// Returns the number of open places in which no addresses are looked for, after an event.
fn left_alone_after(inside: usize, event: &Event<'_>) -> Result<usize, Fault>
    ensures after { IfOk result (λ after. after ≡ left_alone_after inside (event_view event.now)) }
    ensures refused { IfErr result (λ fault. fault ≡ Fault.Memory) }
{
    match event {
        Event::Start(tag) if opens_left_alone(tag) => inside.checked_add(1).ok_or(Fault::Memory),
        Event::End(tag) if closes_left_alone(*tag) => Ok(inside.saturating_sub(1)),
        _ => Ok(inside),
    }
}

/// The same after an item; an error changes nothing.
fn left_alone_after_item(inside: usize, item: &Placed<'_>) -> Result<usize, Fault>
    ensures after { IfOk result (λ after. after ≡ left_alone_after_item inside item.now) }
    ensures refused { IfErr result (λ fault. fault ≡ Fault.Memory) }
{
    match item {
        Ok((event, _)) => left_alone_after(inside, event),
        Err(_) => Ok(inside),
    }
}

/// Returns whether a run in which addresses are looked for begins with an event, inside so many places in which they are not.
fn begins_run(inside: usize, event: &Event<'_>) -> bool
    ensures begins { result ≡ true → (inside ≡ 0) × (is_text (event_view event.now) ≡ true) }
    ensures stays { result ≡ false → inside ≡ 0 → is_text (event_view event.now) ≡ false }
{
    inside == 0 && is_text(event)
}

/// Reads the Texts after those of a run, up to an item that is no Text, which is returned, or to the end of the iterator.
fn read_run<'a, I: Iterator<Item = Placed<'a>>>(
    iter: &mut I,
    run: &mut Vec<(Event<'a>, Range<usize>)>,
) -> Result<Option<Placed<'a>>, Fault>
    requires can { I.can_next iter.old }
    requires finite { IsFinite (I.remaining iter.old) }
    requires texts { AreTexts run.old.items }
    ensures read { IfOk result (λ after.
        RunIsRead I.next_gives iter.old run.old.items run.new.items after iter.new) }
    ensures again { IfOk result (λ after. is_some after ≡ true → I.can_next iter.new) }
    ensures finite { IfOk result (λ after. is_some after ≡ true → IsFinite (I.remaining iter.new)) }
    ensures fewer { IfOk result (λ after.
        is_some after ≡ true → size (I.remaining iter.new) ≤ size (I.remaining iter.old)) }
    ensures refused { IfErr result (λ fault. fault ≡ Fault.Memory) }
{
    'reading: loop {
        match iter.next() {
            None => return Ok(None),
            Some(Err(fault)) => return Ok(Some(Err(fault))),
            Some(Ok((event, range))) => {
                if !is_text(&event) {
                    return Ok(Some(Ok((event, range))));
                }
                run.push((event, range))?;
            }
        }
    }
}

/// Reads the rest of a run of Texts of which this is the first, and the item after it, which is returned. Appends what becomes
/// of the run.
fn read_texts<'a, I: Iterator<Item = Placed<'a>>>(
    alloc: Global,
    source: &str,
    iter: &mut I,
    first: (Event<'a>, Range<usize>),
    made: &mut Vec<Placed<'a>>,
) -> Result<Option<Placed<'a>>, Fault>
    requires can { I.can_next iter.old }
    requires finite { IsFinite (I.remaining iter.old) }
    requires text { is_text (event_view first.0) ≡ true }
    requires nothing { made.old.items ≡ [] }
    ensures read { IfOk result (λ after. TextsAreRead I.next_gives source.now iter.old
        (event_read first.entry) (map item_read made.new.items) after iter.new) }
    ensures again { IfOk result (λ after. is_some after ≡ true → I.can_next iter.new) }
    ensures finite { IfOk result (λ after. is_some after ≡ true → IsFinite (I.remaining iter.new)) }
    ensures fewer { IfOk result (λ after.
        is_some after ≡ true → size (I.remaining iter.new) ≤ size (I.remaining iter.old)) }
    ensures refused { IfErr result (λ fault. fault ≡ Fault.Memory) }
{
    let mut run: Vec<(Event<'a>, Range<usize>)> = Vec::new(alloc);
    run.push(first)?;
    let after = read_run(iter, &mut run)?;
    push_run(alloc, source, run, made)?;
    Ok(after)
}

/// Reads the next item, or a run of Texts and the item after it, and returns the item. Appends what becomes of the run.
fn read_next<'a, I: Iterator<Item = Placed<'a>>>(
    alloc: Global,
    source: &str,
    inside: usize,
    iter: &mut I,
    made: &mut Vec<Placed<'a>>,
) -> Result<Option<Placed<'a>>, Fault>
    requires can { I.can_next iter.old }
    requires finite { IsFinite (I.remaining iter.old) }
    requires nothing { made.old.items ≡ [] }
    ensures read { IfOk result (λ after. NextIsRead I.next_gives source.now inside iter.old
        (map item_read made.new.items) after iter.new) }
    ensures again { IfOk result (λ after. is_some after ≡ true → I.can_next iter.new) }
    ensures finite { IfOk result (λ after. is_some after ≡ true → IsFinite (I.remaining iter.new)) }
    ensures fewer { IfOk result (λ after.
        is_some after ≡ true → size (I.remaining iter.new) < size (I.remaining iter.old)) }
    ensures some { IfOk result (λ after.
        is_none after ≡ true → (made.new.items ≡ []) ⊎ (0 < size (I.remaining iter.old))) }
    ensures refused { IfErr result (λ fault.
        (fault ≡ Fault.Memory) × (0 < size (I.remaining iter.old))) }
{
    match iter.next() {
        None => Ok(None),
        Some(Err(fault)) => Ok(Some(Err(fault))),
        Some(Ok((event, range))) => {
            if !begins_run(inside, &event) {
                return Ok(Some(Ok((event, range))));
            }
            let after = read_texts(alloc, source, iter, (event, range), made)?;
            Ok(after)
        }
    }
}

/// The events of an iterator with their ranges, where the bare addresses in Texts are links.
#[derive(Drop)]
pub struct Autolinks<'a, I> {
    alloc: Global,
    text: &'a str,
    iter: I,
    /// What became of the items that were read last and has not been returned yet.
    kept: VecDeque<Placed<'a>>,
    /// The number of open places in which no addresses are looked for.
    inside: usize,
    /// Whether the iterator has ended, or an allocation has failed; then the iterator is not called.
    over: bool,
}

impl<'a, I> Autolinks<'a, I> {
    ghost use Rattle.std.specs.Prelude.{◌≡◌, [], false};
    ghost use Rattle.markdown_autolinks.specs.AutolinksState.{linked_state};

    /// Returns the events of an iterator, with their ranges in `text`, where the bare addresses in Texts are links. Allocates
    /// nothing.
    pub fn new(alloc: Global, text: &'a str, iter: I) -> Self
        ensures { linked_state result
            ≡ record { source = text.now; iter = iter; kept = []; inside = 0; over = false } }
    {
        Autolinks {
            alloc,
            text,
            iter,
            kept: VecDeque::new(alloc),
            inside: 0,
            over: false,
        }
    }
}

impl<'a, I: Iterator<Item = Placed<'a>>> Autolinks<'a, I> {
    /// Reads the next item, or a run of Texts and the item after it, and keeps what becomes of them.
    fn fill(&mut self) -> Result<(), Fault>
        requires may { MayReadOn I.can_next I.remaining (linked_state self.old) }
        requires empty { self.old.kept.items ≡ [] }
        requires reads { self.old.over ≡ false }
        ensures fills { IfOk result (λ _.
            Fills I.next_gives (linked_state self.old) (linked_state self.new)) }
        ensures again { IfOk result (λ _.
            MayReadOn I.can_next I.remaining (linked_state self.new)) }
        ensures fewer { IfOk result (λ _. most_to_come I.remaining (linked_state self.new)
            ≤ most_to_come I.remaining (linked_state self.old)) }
        ensures some { IfErr result (λ fault.
            0 < most_to_come I.remaining (linked_state self.old)) }
        ensures refused { IfErr result (λ fault. fault ≡ Fault.Memory) }
    {
        let mut made: Vec<Placed<'a>> = Vec::new(self.alloc);
        let Some(item) = read_next(
            self.alloc,
            self.text,
            self.inside,
            &mut self.iter,
            &mut made,
        )?
        else {
            self.over = true;
            self.kept = VecDeque::from_vec(made);
            return Ok(());
        };
        self.inside = left_alone_after_item(self.inside, &item)?;
        made.push(item)?;
        self.kept = VecDeque::from_vec(made);
        Ok(())
    }
}

impl<'a, I: Iterator<Item = Placed<'a>>> Iterator for Autolinks<'a, I> {
    type Item = Placed<'a>;

    ghost use Rattle.std.specs.Iterator.{at_most};
    ghost use Rattle.markdown_autolinks.specs.AutolinksNext.{MayReadOn, most_to_come};
    ghost use Rattle.markdown_autolinks.specs.AutolinksNext.{linked_steps};
    ghost use Rattle.markdown_autolinks.specs.AutolinksState.{linked_state};

    ghost can_next = { λ a. MayReadOn I.can_next I.remaining (linked_state a) };

    ghost next_gives = { λ a r t. linked_steps I.next_gives linked_state a r t };

    ghost remaining = { λ a. at_most (most_to_come I.remaining (linked_state a)) };

    /// Returns the next event, with its range: an added link has the range of its address.
    ///
    /// # Errors
    ///
    /// The item is an error where the iterator returns one, and `Fault::Memory` if an allocation fails, or if more links,
    /// images and blocks are open than a `usize` counts: then every later call returns `None`.
    fn next(&mut self) -> Option<Placed<'a>> {
        if let Some(item) = self.kept.pop_front() {
            return Some(item);
        }
        if self.over {
            return None;
        }
        match self.fill() {
            Ok(()) => self.kept.pop_front(),
            Err(fault) => {
                self.kept.clear();
                self.over = true;
                Some(Err(fault))
            }
        }
    }
}
