//! Laws of a whole run of a `Prefixed`, and of ids after a prefix. Each is a function without code, whose clauses state
//! the law.
ghost use Rattle.std.specs.Prelude.{ℕ, List};
ghost use Rattle.std.specs.Iterator.{Drains, Yields};
ghost use Rattle.std.specs.declared.ops.Range.{Range};
ghost use Rattle.markdown_base.specs.declared.event.Event.{Event};
ghost use Rattle.markdown_heading_ids.specs.PrefixedItems.{AreAllPrefixed, AreFirstPrefixed, prefixed_steps};
ghost use Rattle.markdown_heading_ids.specs.PrefixLaws.{NoIdHasBothPrefixes, NumberedPrefixesAreApart, PrefixBeginsIds};
ghost use Rattle.markdown_heading_ids.specs.PrefixLaws.{PrefixedIdsDiffer};
ghost use Rattle.markdown_heading_ids.specs.declared.prefixed.Prefixed.{Prefixed};
ghost use Rattle.markdown_outline.specs.OutlineRead.{event_items};

use crate::prefixed::Prefixed;
use markdown_base::event::Event;
use markdown_base::fault::Fault;
use std::ops::Range;

/// States what a `Prefixed` returns: if these are all its events, they are those of its source with their ids after the
/// prefix, and if they are the first, they are the first of its source.
pub fn prefixed_events_are_those_of_the_source<
    'a,
    I: Iterator<Item = Result<(Event<'a>, Range<usize>), Fault>>,
>(iter: &Prefixed<'a, I>)
    ensures all { (events : List (Event × Range ℕ))
        → Drains (prefixed_steps I.next_gives) iter.now (event_items events)
        → AreAllPrefixed I.next_gives iter.now events }
    ensures first { (events : List (Event × Range ℕ)) (left : Prefixed I)
        → Yields (prefixed_steps I.next_gives) iter.now (event_items events) left
        → AreFirstPrefixed I.next_gives iter.now left events }
{}

/// States what a prefix does to the ids of any events: each begins with it, those that differ still differ, and where
/// nothing begins with both of two prefixes, as `f1-` and `f2-`, no id has both.
pub fn prefixes_keep_ids_apart()
    ensures begins { PrefixBeginsIds }
    ensures differ { PrefixedIdsDiffer }
    ensures apart { NoIdHasBothPrefixes }
    ensures numbered { NumberedPrefixesAreApart }
{}
