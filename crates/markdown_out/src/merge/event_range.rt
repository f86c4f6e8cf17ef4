//! The items of a merge: events, with their ranges in the source or without.
ghost use Rattle.std.specs.Prelude.{◌≡◌};
ghost use Rattle.markdown_base.specs.declared.event.Event as declared;
ghost use Rattle.markdown_out.specs.EventRanges.{bare, nowhere, with_range, through_ranges};

use markdown_base::event::Event;
use std::ops::Range;

/// The range of an event in the source, or nothing.
pub trait EventRange: Drop {
    /// From the beginning of one range to the end of another.
    ghost through: { Self → Self → Self };

    /// Returns the range from the beginning of this one to the end of the last.
    fn through(self, last: Self) -> Self
        ensures { result ≡ through self last };
}

/// An event without a range.
impl EventRange for () {
    ghost through = { nowhere };

    fn through(self, last: ()) -> () {
        let _ = last;
        self
    }
}

impl EventRange for Range<usize> {
    ghost through = { through_ranges };

    fn through(self, last: Range<usize>) -> Range<usize> {
        self.start..last.end
    }
}

/// An item that is an event, with its range or without.
pub trait MergeItem<'a>: Drop {
    type At: EventRange;

    /// The event and its range, if it has one.
    ghost parts: { Self → declared.Event × Self.At };

    /// Returns the event and its range, if it has one.
    fn into_parts(self) -> (Event<'a>, Self::At)
        ensures { result ≡ parts self };

    /// Returns the item of an event with this range.
    fn at(event: Event<'a>, range: Self::At) -> Self
        ensures { parts result ≡ (event.entry, range) };
}

impl<'a> MergeItem<'a> for Event<'a> {
    type At = ();

    ghost parts = { bare };

    fn into_parts(self) -> (Event<'a>, ()) {
        (self, ())
    }

    fn at(event: Event<'a>, range: ()) -> Self {
        let _ = range;
        event
    }
}

impl<'a> MergeItem<'a> for (Event<'a>, Range<usize>) {
    type At = Range<usize>;

    ghost parts = { with_range };

    fn into_parts(self) -> (Event<'a>, Range<usize>) {
        self
    }

    fn at(event: Event<'a>, range: Range<usize>) -> Self {
        (event, range)
    }
}
