//! What an event becomes that depends on how deep it stands.
ghost use Rattle.std.specs.Prelude.{◌≡◌, IfSome};
ghost use Rattle.markdown_base.specs.Event.{event_view};
ghost use Rattle.markdown_safe.specs.Shallow.{depth_after, depth_around, depth_within, is_emptied, is_left_out};
ghost use Rattle.markdown_safe.specs.Shallow.{levels, no_depth, shallow};

use markdown_base::cow_str::CowStr;
use markdown_base::event::Event;
use markdown_base::tag::TagEnd;

/// How many Starts are open.
#[derive(Clone, Copy, Drop)]
pub(crate) struct Depth {
    /// How many of them stayed.
    kept: usize,
    /// How many are left out: the innermost.
    left_out: usize,
}

impl Depth {
    /// Returns that of no events.
    pub(crate) fn nothing() -> Depth
        ensures { result ≡ no_depth }
    {
        Depth {
            kept: 0,
            left_out: 0,
        }
    }
}

/// Returns the levels that a tag with this End needs: its own, and those of what alone may stand directly in it.
fn levels(end: TagEnd) -> usize
    ensures { result ≡ levels end }
{
    match end {
        TagEnd::Table => 3,
        TagEnd::TableHead | TagEnd::TableRow | TagEnd::List(_) => 2,
        _ => 1,
    }
}

/// Returns whether the Start with this End is left out: whether one around it is, or too few levels are left.
fn is_left_out(limit: usize, depth: Depth, end: TagEnd) -> bool
    ensures { result ≡ is_left_out limit depth end }
{
    depth.left_out > 0 || limit.saturating_sub(depth.kept) < levels(end)
}

/// Returns what is open within a Start that is left out, or stays: `None` where more is than can be counted.
fn depth_within(left_out: bool, depth: Depth) -> Option<Depth>
    ensures { IfSome result (λ within. within ≡ depth_within left_out depth) }
{
    let (kept, left_out) = if left_out {
        (depth.kept, depth.left_out.checked_add(1)?)
    } else {
        (depth.kept.checked_add(1)?, depth.left_out)
    };
    Some(Depth { kept, left_out })
}

/// Returns what is open after the End of the innermost.
fn depth_around(depth: Depth) -> Depth
    ensures { result ≡ depth_around depth }
{
    if depth.left_out > 0 {
        Depth {
            kept: depth.kept,
            left_out: depth.left_out - 1,
        }
    } else {
        Depth {
            kept: depth.kept.saturating_sub(1),
            left_out: depth.left_out,
        }
    }
}

/// Returns what is open after an event, where this is before it: `None` where more is than can be counted.
pub(crate) fn depth_after(limit: usize, depth: Depth, event: &Event<'_>) -> Option<Depth>
    ensures { IfSome result (λ after. after ≡ depth_after limit (event_view event.now) depth) }
{
    match event {
        Event::Start(tag) => depth_within(is_left_out(limit, depth, tag.to_end()), depth),
        Event::End(_) => Some(depth_around(depth)),
        _ => Some(depth),
    }
}

/// Returns whether an event is a Start that is left out, or the End of one.
pub(crate) fn is_emptied(limit: usize, depth: Depth, event: &Event<'_>) -> bool
    ensures { result ≡ is_emptied limit depth (event_view event.now) }
{
    match event {
        Event::Start(tag) => is_left_out(limit, depth, tag.to_end()),
        Event::End(_) => depth.left_out > 0,
        _ => false,
    }
}

/// Returns an event, or an empty Text for a Start that is left out, and for the End of one.
pub(crate) fn shallow<'a>(limit: usize, depth: Depth, event: Event<'a>) -> Event<'a>
    ensures { event_view result ≡ shallow limit depth (event_view event.entry) }
{
    if is_emptied(limit, depth, &event) {
        Event::Text(CowStr::from(""))
    } else {
        event
    }
}
