//! `html_list_of`: the table of contents of headings as HTML, a nested list of links to them.
ghost use Rattle.std.specs.Prelude.{◌≡◌, ◌++◌, ◌∷◌, [], IfOk, IfErr, OnOk, Ok, map, option_map, string_bytes};
ghost use Rattle.markdown_base.specs.Event.{event_view, list_item, start};
ghost use Rattle.markdown_outline.specs.Outline.{entry_view};
ghost use Rattle.markdown_contents.specs.HtmlList.{before_item, html_list_of, item_after, label_events};
ghost use Rattle.markdown_contents.specs.HtmlList.{list_ends, list_events};

use crate::contents::next_depth;
use markdown_base::cow_str::CowStr;
use markdown_base::event::Event;
use markdown_base::fault::Fault;
use markdown_base::tag::{LinkType, Tag, TagEnd};
use markdown_out::push_html;
use markdown_outline::Entry;
use std::alloc::Global;

/// Appends an event. Where that fails it is dropped here, and nowhere else: proofs of an event's drop are long.
fn push<'h>(events: &mut Vec<Event<'h>>, event: Event<'h>) -> Result<(), Fault>
    ensures ok { OnOk result (map event_view events.new.items
        ≡ map event_view events.old.items ++ event_view event.entry ∷ []) }
    ensures refused { IfErr result (λ fault. fault ≡ Fault.Memory) }
{
    Ok(events.push(event)?)
}

/// Appends the ends of this many items and of their lists.
fn push_ends<'h>(events: &mut Vec<Event<'h>>, lists: usize) -> Result<(), Fault>
    ensures ok { OnOk result (map event_view events.new.items
        ≡ map event_view events.old.items ++ list_ends lists) }
    ensures refused { IfErr result (λ fault. fault ≡ Fault.Memory) }
{
    for _ in 0..lists {
        push(events, Event::End(TagEnd::Item))?;
        push(events, Event::End(TagEnd::List(false)))?;
    }
    Ok(())
}

/// Appends what stands before an item at this depth, where this many lists are open.
fn push_before<'h>(events: &mut Vec<Event<'h>>, lists: usize, depth: usize) -> Result<(), Fault>
    ensures ok { OnOk result (map event_view events.new.items
        ≡ map event_view events.old.items ++ before_item lists depth) }
    ensures refused { IfErr result (λ fault. fault ≡ Fault.Memory) }
{
    if depth >= lists {
        return push(events, Event::Start(Tag::List(None)));
    }
    push_ends(events, lists - depth - 1)?;
    push(events, Event::End(TagEnd::Item))
}

/// Appends the text of a heading without an id, and otherwise a link to the id.
fn push_label<'h>(
    alloc: Global,
    events: &mut Vec<Event<'h>>,
    heading: &'h Entry,
) -> Result<(), Fault>
    ensures ok { OnOk result (map event_view events.new.items ≡ map event_view events.old.items
        ++ label_events (string_bytes heading.now.text) (option_map string_bytes heading.now.id)) }
    ensures refused { IfErr result (λ fault. fault ≡ Fault.Memory) }
{
    let text = CowStr::Borrowed(heading.text.as_str());
    let id = match &heading.id {
        Some(id) => id,
        None => return push(events, Event::Text(text)),
    };
    let mut destination = String::from_str(alloc, "#")?;
    destination.push_str(id.as_str())?;
    let link = Event::Start(Tag::Link {
        link_type: LinkType::Inline,
        dest_url: CowStr::from(destination),
        title: CowStr::Borrowed(""),
        id: CowStr::Borrowed(""),
    });
    push(events, link)?;
    push(events, Event::Text(text))?;
    push(events, Event::End(TagEnd::Link))
}

/// Appends the item of a heading at this depth, without its end, where this many lists are open.
fn push_item<'h>(
    alloc: Global,
    events: &mut Vec<Event<'h>>,
    lists: usize,
    depth: usize,
    heading: &'h Entry,
) -> Result<(), Fault>
    ensures ok { OnOk result (map event_view events.new.items
        ≡ map event_view events.old.items ++ item_after lists depth (entry_view heading.now)) }
    ensures refused { IfErr result (λ fault. fault ≡ Fault.Memory) }
{
    push_before(events, lists, depth)?;
    push(events, Event::Start(Tag::Item))?;
    push_label(alloc, events, heading)
}

/// Returns the events of the list of headings.
fn list_events<'h>(alloc: Global, headings: &'h [Entry]) -> Result<Vec<Event<'h>>, Fault>
    ensures events { IfOk result (λ events.
        map event_view events.items ≡ list_events (map entry_view headings.now)) }
    ensures refused { IfErr result (λ fault. fault ≡ Fault.Memory) }
{
    let mut events = Vec::new(alloc);
    let mut open_levels = Vec::new(alloc);
    'headings: for heading in headings {
        let lists = open_levels.len();
        let depth = next_depth(&mut open_levels, heading.level)?;
        push_item(alloc, &mut events, lists, depth, heading)?;
    }
    push_ends(&mut events, open_levels.len())?;
    Ok(events)
}

/// Returns an event as an item of an iterator.
fn item<'h>(event: Event<'h>) -> Result<Event<'h>, Fault>
    ensures { result ≡ Ok event.entry }
{
    Ok(event)
}

/// Returns the table of contents of these headings as HTML: a list item for each, in a list within the item of the
/// nearest heading before it of a lower level, with a link to its id in the same text. A heading without an id is its
/// text alone. Without headings there is no list. Takes linear time.
///
/// # Errors
///
/// `Memory` if an allocation fails; there is no other error.
pub fn html_list_of(alloc: Global, headings: &[Entry]) -> Result<String, Fault>
    ensures list { IfOk result (λ list.
        string_bytes list ≡ html_list_of (map entry_view headings.now)) }
    ensures refused { IfErr result (λ fault. fault ≡ Fault.Memory) }
{
    let events = list_events(alloc, headings)?;
    let mut list = String::new(alloc);
    push_html(alloc, &mut list, events.into_iter().map(item))?;
    Ok(list)
}
