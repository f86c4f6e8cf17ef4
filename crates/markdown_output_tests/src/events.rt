//! Events made by hand, and functions of events for tests.
ghost use Rattle.std.specs.Iterator.{IsFinite};

use markdown_base::event::Event;
use markdown_base::fault::Fault;
use markdown_test_parsers::html::html_of;
use std::alloc::Global;
use std::ops::Range;
use std::test::Fail;

/// An item of an iterator over events.
pub type Item<'a> = Result<Event<'a>, Fault>;

/// An item of an iterator over events with their ranges.
pub type RangedItem<'a> = Result<(Event<'a>, Range<usize>), Fault>;

/// Returns whether an event is a soft break.
pub fn is_soft_break(event: &Event<'_>) -> bool {
    matches!(event, Event::SoftBreak)
}

/// Returns a hard break for a soft break, and any other item unchanged.
fn harden<'a>(item: Item<'a>) -> Item<'a> {
    let event = item?;
    if is_soft_break(&event) {
        drop(event);
        return Ok(Event::HardBreak);
    }
    Ok(event)
}

/// Returns the HTML of the events of an iterator, with a hard break for each soft break. The proof that a map
/// meets what `html_of` requires takes twelve seconds, so it is written once.
pub fn html_of_hardened<'a, I: Iterator<Item = Item<'a>> + Drop>(
    alloc: Global,
    iter: I,
) -> Result<String, Fail>
    requires can { I.can_next iter }
    requires ends { IsFinite (I.remaining iter) }
{
    html_of(alloc, iter.map(harden))
}
