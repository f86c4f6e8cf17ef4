//! `Unplaced`, the events of an iterator without their ranges.
ghost use Rattle.std.specs.Prelude.{◌≡◌};
ghost use Rattle.markdown_additions.specs.UnplacedItems.{placed_iter};

use markdown_base::event::Event;
use markdown_base::fault::Fault;
use std::marker::PhantomData;
use std::ops::Range;

/// The events of an iterator, without their ranges.
#[derive(Drop)]
pub struct Unplaced<'a, I> {
    iter: I,
    events: PhantomData<&'a str>,
}

impl<'a, I> Unplaced<'a, I> {
    /// Returns the events of an iterator without their ranges. Allocates nothing.
    pub fn new(iter: I) -> Self
        ensures { placed_iter result ≡ iter }
    {
        Unplaced {
            iter,
            events: PhantomData,
        }
    }
}

impl<'a, I: Iterator<Item = Result<(Event<'a>, Range<usize>), Fault>>> Iterator
    for Unplaced<'a, I> {
    type Item = Result<Event<'a>, Fault>;

    ghost use Rattle.markdown_additions.specs.UnplacedItems.{placed_iter, unplaced_steps};

    ghost can_next = { λ s. I.can_next (placed_iter s) };

    ghost next_gives = { λ s r t. unplaced_steps I.next_gives placed_iter s r t };

    ghost remaining = { λ s. I.remaining (placed_iter s) };

    /// Returns the bounds of the iterator.
    fn size_hint(&self) -> (usize, Option<usize>) {
        self.iter.size_hint()
    }

    /// Returns the next event without its range; errors are those of the iterator.
    fn next(&mut self) -> Option<Result<Event<'a>, Fault>> {
        match self.iter.next() {
            None => None,
            Some(Err(fault)) => Some(Err(fault)),
            Some(Ok((event, _))) => Some(Ok(event)),
        }
    }
}
