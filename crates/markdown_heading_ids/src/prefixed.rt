//! `Prefixed`, an iterator that gives ids a prefix.
ghost use Rattle.std.specs.Prelude.{◌≡◌, ◌++◌, IfOk, IfErr, codes, string_bytes};
ghost use Rattle.std.specs.Option.{option_map};
ghost use Rattle.markdown_base.specs.CowText.{text_of};
ghost use Rattle.markdown_base.specs.Event.{event_view, tag_view};
ghost use Rattle.markdown_base.specs.declared.fault.Fault.{Fault};
ghost use Rattle.markdown_heading_ids.specs.PrefixedItems.{IsPrefixedItem, prefix_of, unprefixed_source};
ghost use Rattle.markdown_heading_ids.specs.Prefixes.{prefixed_destination, prefixed_event, prefixed_tag};
ghost use Rattle.markdown_heading_ids.specs.Prefixes.{prefixed_target};

use markdown_base::cow_str::CowStr;
use markdown_base::event::Event;
use markdown_base::fault::Fault;
use markdown_base::tag::{LinkType, Tag};
use std::alloc::{AllocError, Global};
use std::marker::PhantomData;
use std::ops::Range;

/// Returns an id after the prefix.
fn prefixed_id<'a>(alloc: Global, prefix: &str, id: &str) -> Result<CowStr<'a>, AllocError>
    ensures { IfOk result (λ made. text_of made ≡ prefix.now ++ id.now) }
{
    let mut made = String::from_str(alloc, prefix)?;
    made.push_str(id)?;
    Ok(CowStr::from(made))
}

/// Returns the id of a heading after the prefix, if it has one.
fn prefixed_own_id<'a>(
    alloc: Global,
    prefix: &str,
    id: Option<CowStr<'a>>,
) -> Result<Option<CowStr<'a>>, AllocError>
    ensures { IfOk result (λ made. option_map text_of made
        ≡ option_map (λ id. prefix.now ++ id) (option_map text_of id.entry)) }
{
    match id {
        Some(own) => Ok(Some(prefixed_id(alloc, prefix, own.as_str())?)),
        None => Ok(None),
    }
}

/// Returns the destination of a link to an id, after the prefix.
fn target_of<'a>(alloc: Global, prefix: &str, id: &str) -> Result<CowStr<'a>, AllocError>
    ensures { IfOk result (λ made. text_of made ≡ codes "#" ++ (prefix.now ++ id.now)) }
{
    let mut made = String::from_str(alloc, "#")?;
    made.push_str(prefix)?;
    made.push_str(id)?;
    Ok(CowStr::from(made))
}

/// Returns the destination of a link: one that leads to an id leads to that id with the prefix.
fn prefixed_target<'a>(
    alloc: Global,
    prefix: &str,
    destination: CowStr<'a>,
) -> Result<CowStr<'a>, AllocError>
    ensures { IfOk result (λ made.
        text_of made ≡ prefixed_target prefix.now (text_of destination.entry)) }
{
    match destination.as_str().strip_prefix('#') {
        Some(id) if !id.is_empty() => target_of(alloc, prefix, id),
        _ => Ok(destination),
    }
}

/// Returns the destination of a link of a type: an address for mail, which may begin with a `#`, stays.
fn prefixed_destination<'a>(
    alloc: Global,
    prefix: &str,
    link_type: LinkType,
    destination: CowStr<'a>,
) -> Result<CowStr<'a>, AllocError>
    ensures { IfOk result (λ made.
        text_of made ≡ prefixed_destination prefix.now link_type (text_of destination.entry)) }
{
    match link_type {
        LinkType::Email => Ok(destination),
        _ => prefixed_target(alloc, prefix, destination),
    }
}

/// Returns a tag as `prefixed_event` has it.
fn prefixed_tag<'a>(alloc: Global, prefix: &str, tag: Tag<'a>) -> Result<Tag<'a>, AllocError>
    ensures { IfOk result (λ made. tag_view made ≡ prefixed_tag prefix.now (tag_view tag.entry)) }
{
    match tag {
        Tag::Heading {
            level,
            id,
            classes,
            attrs,
        } => {
            let id = prefixed_own_id(alloc, prefix, id)?;
            Ok(Tag::Heading {
                level,
                id,
                classes,
                attrs,
            })
        }
        Tag::FootnoteDefinition(name) => Ok(Tag::FootnoteDefinition(prefixed_id(
            alloc,
            prefix,
            name.as_str(),
        )?)),
        Tag::Link {
            link_type,
            dest_url,
            title,
            id,
        } => {
            let dest_url = prefixed_destination(alloc, prefix, link_type, dest_url)?;
            Ok(Tag::Link {
                link_type,
                dest_url,
                title,
                id,
            })
        }
        other => Ok(other),
    }
}

/// Returns an event with its ids after the prefix: the id of a heading and the name of a footnote begin with it, and a
/// link to `#x` leads to the id `x` with it.
///
/// # Errors
///
/// `Memory` if an allocation fails; then the event is dropped.
fn prefixed_event<'a>(alloc: Global, prefix: &str, event: Event<'a>) -> Result<Event<'a>, Fault>
    ensures same { IfOk result (λ made.
        event_view made ≡ prefixed_event prefix.now (event_view event.entry)) }
    ensures refused { IfErr result (λ fault. fault ≡ Fault.Memory) }
{
    match event {
        Event::Start(tag) => Ok(Event::Start(prefixed_tag(alloc, prefix, tag)?)),
        Event::FootnoteReference(name) => Ok(Event::FootnoteReference(prefixed_id(
            alloc,
            prefix,
            name.as_str(),
        )?)),
        other => Ok(other),
    }
}

/// Returns an item with the ids of its event after the prefix and its range unchanged, or an error unchanged.
fn prefixed_item<'a>(
    alloc: Global,
    prefix: &str,
    item: Result<(Event<'a>, Range<usize>), Fault>,
) -> Result<(Event<'a>, Range<usize>), Fault>
    ensures { IsPrefixedItem prefix.now item.entry result }
{
    let (event, range) = item?;
    Ok((prefixed_event(alloc, prefix, event)?, range))
}

/// The events of an iterator with their ranges, where ids begin with a prefix, so that several texts can stand on one
/// page: where no prefix begins with another, no id of one text is one of another.
///
/// ```
/// let events = Prefixed::new(alloc, String::from_str(alloc, "f2-")?, HeadingIds::new(alloc, taken, events));
/// // Start(Heading { id: Some("f2-a"), .. }), .., Start(Link { dest_url: "#f2-a", .. }), ..
/// ```
#[derive(Drop)]
pub struct Prefixed<'a, I> {
    alloc: Global,
    prefix: String,
    iter: I,
    events: PhantomData<&'a str>,
}

impl<'a, I> Prefixed<'a, I> {
    /// Returns the events of an iterator, with their ids after the prefix. Allocates nothing.
    pub fn new(alloc: Global, prefix: String, iter: I) -> Self
        ensures source { unprefixed_source result ≡ iter }
        ensures prefix { prefix_of result ≡ string_bytes prefix }
    {
        Prefixed {
            alloc,
            prefix,
            iter,
            events: PhantomData,
        }
    }
}

impl<'a, I: Iterator<Item = Result<(Event<'a>, Range<usize>), Fault>>> Iterator
    for Prefixed<'a, I> {
    type Item = Result<(Event<'a>, Range<usize>), Fault>;

    ghost use Rattle.markdown_heading_ids.specs.PrefixedItems.{prefixed_steps, unprefixed_source};

    ghost can_next = { λ s. I.can_next (unprefixed_source s) };

    ghost next_gives = { prefixed_steps I.next_gives };

    ghost remaining = { λ s. I.remaining (unprefixed_source s) };

    /// Returns the bounds of the iterator.
    fn size_hint(&self) -> (usize, Option<usize>) {
        self.iter.size_hint()
    }

    /// Returns the next event, with its ids after the prefix, and its range.
    ///
    /// # Errors
    ///
    /// The item is an error where the iterator returns one, and `Fault::Memory` if an allocation fails: then the
    /// event is lost, and the next call goes on after it.
    fn next(&mut self) -> Option<Result<(Event<'a>, Range<usize>), Fault>> {
        match self.iter.next() {
            Some(item) => Some(prefixed_item(self.alloc, self.prefix.as_str(), item)),
            None => None,
        }
    }
}
