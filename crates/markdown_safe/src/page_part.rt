//! Whether events are a part of a page by themselves.
ghost use Rattle.std.specs.Prelude.{◌≡◌, map, IfOk, false, true};
ghost use Rattle.std.specs.Option.{option_map_or};
ghost use Rattle.markdown_base.specs.Event.{event_view, tag_view};
ghost use Rattle.markdown_event_laws.specs.NestedEvents.{ends_cells, ends_list, ends_table};
ghost use Rattle.markdown_event_laws.specs.NestedEvents.{starts_table};
ghost use Rattle.markdown_safe.specs.PageParts.{is_page_part};
ghost use Rattle.markdown_safe.specs.PagePlaces.{is_nearest, is_plain, may_be_next, may_start};

use markdown_base::event::Event;
use markdown_base::tag::{Tag, TagEnd};
use std::alloc::{AllocError, Global};

/// What is open where an event comes.
#[derive(Clone, Copy, Drop)]
struct Around {
    /// The nearest of the Ends that are awaited.
    nearest: Option<TagEnd>,
    /// Whether the End of a table is awaited.
    in_table: bool,
    /// Whether the End of a heading is awaited.
    in_heading: bool,
}

/// The same, with what was open before each Start that has no End yet.
#[derive(Drop)]
struct Open {
    outer: Vec<Around>,
    around: Around,
}

/// Returns whether the nearest End is that of a list.
fn holds_items(nearest: Option<TagEnd>) -> bool
    ensures { result ≡ option_map_or ends_list nearest false }
{
    matches!(nearest, Some(TagEnd::List(_)))
}

/// Returns whether the nearest End is that of a table.
fn holds_rows(nearest: Option<TagEnd>) -> bool
    ensures { result ≡ option_map_or ends_table nearest false }
{
    matches!(nearest, Some(TagEnd::Table))
}

/// Returns whether the nearest End is that of a table's head or row.
fn holds_cells(nearest: Option<TagEnd>) -> bool
    ensures { result ≡ option_map_or ends_cells nearest false }
{
    matches!(nearest, Some(TagEnd::TableHead | TagEnd::TableRow))
}

/// Returns whether the nearest End is that of no list or table, nor of a head or a row.
fn is_plain(nearest: Option<TagEnd>) -> bool
    ensures { result ≡ is_plain nearest }
{
    !holds_items(nearest) && !holds_rows(nearest) && !holds_cells(nearest)
}

/// Returns whether two Ends are the same.
fn are_same(end: TagEnd, other: TagEnd) -> bool
    ensures same { result ≡ true → end ≡ other }
    ensures told { end ≡ other → result ≡ true }
{
    end == other
}

/// Returns whether an End is the nearest that is awaited.
fn is_nearest(end: TagEnd, nearest: Option<TagEnd>) -> bool
    ensures { result ≡ is_nearest end nearest }
{
    match nearest {
        Some(nearest) => are_same(end, nearest),
        None => false,
    }
}

/// Returns whether a Start may come next.
fn may_start(tag: &Tag<'_>, around: Around, first: bool) -> bool
    ensures { result ≡ may_start (tag_view tag.now) around first }
{
    match tag {
        Tag::TableHead => first && !holds_items(around.nearest),
        Tag::TableRow => !first && holds_rows(around.nearest),
        Tag::TableCell => !first && holds_cells(around.nearest),
        Tag::Item => !first && holds_items(around.nearest),
        Tag::Table(_) => !first && is_plain(around.nearest) && !around.in_table,
        Tag::Heading { .. } => !first && is_plain(around.nearest) && !around.in_heading,
        _ => !first && is_plain(around.nearest),
    }
}

/// Returns whether an event may come next.
fn may_be_next(event: &Event<'_>, around: Around, first: bool) -> bool
    ensures { result ≡ may_be_next (event_view event.now) around first }
{
    match event {
        Event::Start(tag) => may_start(tag, around, first),
        Event::End(end) => !first && is_nearest(*end, around.nearest),
        _ => !first && is_plain(around.nearest),
    }
}

/// Returns whether an event is the Start of a table.
fn starts_table(event: &Event<'_>) -> bool
    ensures { result ≡ starts_table (event_view event.now) }
{
    matches!(event, Event::Start(Tag::Table(_)))
}

impl Open {
    ghost use Rattle.std.specs.Prelude.{◌≡◌, IfOk, List, ◌∷◌, []};
    ghost use Rattle.markdown_base.specs.Event.{event_view};
    ghost use Rattle.markdown_base.specs.declared.tag.TagEnd.{TagEnd};
    ghost use Rattle.markdown_event_laws.specs.NestedEvents.{awaited_after, past_nearest};
    ghost use Rattle.markdown_safe.specs.PagePlaces.{IsOpen};

    /// Returns what is open before the first event: nothing.
    fn new(alloc: Global) -> Open
        ensures { IsOpen result [] }
    {
        Open {
            outer: Vec::new(alloc),
            around: Around {
                nearest: None,
                in_table: false,
                in_heading: false,
            },
        }
    }

    /// Goes on after a Start, whose End is given.
    fn start(&mut self, end: TagEnd) -> Result<(), AllocError>
        ensures { (awaited : List TagEnd) → IsOpen self.old awaited
            → IfOk result (λ done. IsOpen self.new (end ∷ awaited)) }
    {
        let outer = self.around;
        self.outer.push(outer)?;
        self.around = Around {
            nearest: Some(end),
            in_table: matches!(end, TagEnd::Table) || outer.in_table,
            in_heading: matches!(end, TagEnd::Heading(_)) || outer.in_heading,
        };
        Ok(())
    }

    /// Goes on after an End.
    fn end(&mut self)
        ensures { (awaited : List TagEnd) → IsOpen self.old awaited
            → IsOpen self.new (past_nearest awaited) }
    {
        if let Some(around) = self.outer.pop() {
            self.around = around;
        }
    }

    /// Goes on after an event.
    fn go_on(&mut self, event: &Event<'_>) -> Result<(), AllocError>
        ensures { (awaited : List TagEnd) → IsOpen self.old awaited
            → IfOk result (λ done. IsOpen self.new (awaited_after (event_view event.now) awaited)) }
    {
        match event {
            Event::Start(tag) => self.start(tag.to_end()),
            Event::End(_) => {
                self.end();
                Ok(())
            }
            _ => Ok(()),
        }
    }
}

/// Returns whether these events are a part of a page by themselves: each End is that of the nearest
/// Start that is still open, and none is left open; tables are whole and hold their parts alone; list
/// items stand in lists, which hold nothing else; and no heading is in another. The only error is that
/// memory is refused, of which a few bytes are taken for each Start that is open.
pub fn is_page_part(alloc: Global, events: &[Event<'_>]) -> Result<bool, AllocError>
    ensures { IfOk result (λ is. is ≡ is_page_part (map event_view events.now)) }
{
    let mut open = Open::new(alloc);
    let mut first = false;
    for event in events {
        if !may_be_next(event, open.around, first) {
            return Ok(false);
        }
        open.go_on(event)?;
        first = starts_table(event);
    }
    Ok(open.around.nearest.is_none())
}
