//! The merges of neighbouring texts: of events, and of events with their ranges.
//!
//! A maximal run of two or more texts becomes one owned text, whose range is from the start of the first to the end of
//! the last; where all of them are empty, it becomes nothing. Everything else is unchanged, also a single text that is
//! empty. An error item is passed on, and ends a run. If the iterator returns items after a `None`, each stretch
//! between two `None`s is merged by itself, and a `None` is passed on only where its stretch has no item.
ghost use Rattle.std.specs.Prelude.{◌≡◌, ◌+◌, [], false, None, IfSome, MatchOption};
ghost use Rattle.markdown_out.specs.MergeState.{stream_state, offset_state};

mod event_range;
mod held;
mod merging;

use markdown_base::event::Event;
use markdown_base::fault::Fault;
use merging::{Merging, next_item};
use std::alloc::Global;
use std::fmt;
use std::ops::Range;

/// Returns a bound that is one greater, or `None` where there is none or it overflows.
fn one_more(bound: Option<usize>) -> Option<usize>
    ensures { MatchOption bound (result ≡ None) (λ most. IfSome result (λ more. more ≡ most + 1)) }
{
    match bound {
        Some(most) => most.checked_add(1),
        None => None,
    }
}

/// The events of an iterator, with each run of neighbouring texts as one.
///
/// ```
/// let merged = TextMergeStream::new(alloc, Parser::new(alloc, "a [b")?);
/// // Start(Paragraph), Text("a [b"), End(Paragraph)
/// ```
#[derive(Drop)]
pub struct TextMergeStream<'a, I> {
    merging: Merging<'a, I, ()>,
}

impl<'a, I> TextMergeStream<'a, I> {
    /// Returns a merge of the items that the iterator returns from now on. Allocates nothing.
    pub fn new(alloc: Global, iter: I) -> Self
        ensures { stream_state result ≡ record { iter = iter; held = []; over = false } }
    {
        TextMergeStream {
            merging: Merging::new(alloc, iter),
        }
    }
}

impl<'a, I: Iterator<Item = Result<Event<'a>, Fault>>> Iterator for TextMergeStream<'a, I> {
    type Item = Result<Event<'a>, Fault>;

    ghost use Rattle.std.specs.Iterator.{at_most};
    ghost use Rattle.markdown_out.specs.MergeNext.{CallsMerge, CanMerge, formed_view, left_count};
    ghost use Rattle.markdown_out.specs.MergeState.{stream_state};
    ghost use Rattle.markdown_out.specs.EventRanges.{bare, nowhere};
    ghost use Rattle.markdown_out.specs.TextForms.{boxed_through};

    ghost can_next = { λ m. CanMerge I.next_gives I.can_next I.remaining (stream_state m).iter };

    ghost next_gives = { λ m r t.
        CallsMerge (boxed_through nowhere) (formed_view bare) I.next_gives I.can_next I.remaining
        (stream_state m) r (stream_state t) };

    ghost remaining = { λ m. at_most (left_count I.remaining (stream_state m)) };

    /// Returns bounds on the number of items left: 0, and one more than the iterator's upper bound.
    fn size_hint(&self) -> (usize, Option<usize>) {
        let (_, most) = self.merging.iter.size_hint();
        (0, one_more(most))
    }

    /// Returns the next event of the merge.
    ///
    /// # Errors
    ///
    /// The item is an error where the iterator returns one, and `Fault::Memory` if an allocation fails: then
    /// every later call returns `None`.
    fn next(&mut self) -> Option<Result<Event<'a>, Fault>> {
        next_item(&mut self.merging)
    }
}

/// The events of an iterator with their ranges, with each run of neighbouring texts as one.
#[derive(Drop)]
pub struct TextMergeWithOffset<'a, I> {
    merging: Merging<'a, I, Range<usize>>,
}

impl<'a, I> TextMergeWithOffset<'a, I> {
    /// Returns a merge of the items that the iterator returns from now on. Allocates nothing.
    pub fn new(alloc: Global, iter: I) -> Self
        ensures { offset_state result ≡ record { iter = iter; held = []; over = false } }
    {
        TextMergeWithOffset {
            merging: Merging::new(alloc, iter),
        }
    }
}

impl<'a, I: Iterator<Item = Result<(Event<'a>, Range<usize>), Fault>>> Iterator
    for TextMergeWithOffset<'a, I> {
    type Item = Result<(Event<'a>, Range<usize>), Fault>;

    ghost use Rattle.std.specs.Iterator.{at_most};
    ghost use Rattle.markdown_out.specs.MergeNext.{CallsMerge, CanMerge, formed_view, left_count};
    ghost use Rattle.markdown_out.specs.MergeState.{offset_state};
    ghost use Rattle.markdown_out.specs.EventRanges.{with_range, through_ranges};
    ghost use Rattle.markdown_out.specs.TextForms.{boxed_through};

    ghost can_next = { λ m. CanMerge I.next_gives I.can_next I.remaining (offset_state m).iter };

    ghost next_gives = { λ m r t.
        CallsMerge (boxed_through through_ranges) (formed_view with_range) I.next_gives I.can_next
        I.remaining (offset_state m) r (offset_state t) };

    ghost remaining = { λ m. at_most (left_count I.remaining (offset_state m)) };

    /// Returns bounds on the number of items left: 0, and one more than the iterator's upper bound.
    fn size_hint(&self) -> (usize, Option<usize>) {
        let (_, most) = self.merging.iter.size_hint();
        (0, one_more(most))
    }

    /// Returns the next event of the merge with its range, in byte offsets.
    ///
    /// # Errors
    ///
    /// The item is an error where the iterator returns one, and `Fault::Memory` if an allocation fails: then
    /// every later call returns `None`.
    fn next(&mut self) -> Option<Result<(Event<'a>, Range<usize>), Fault>> {
        next_item(&mut self.merging)
    }
}

impl<'a, I> fmt::Debug for TextMergeStream<'a, I> {
    fn fmt<W: fmt::Write>(&self, f: &mut fmt::Formatter<W>) -> fmt::Result {
        f.debug_struct("TextMergeStream").finish_non_exhaustive()
    }
}

impl<'a, I> fmt::Debug for TextMergeWithOffset<'a, I> {
    fn fmt<W: fmt::Write>(&self, f: &mut fmt::Formatter<W>) -> fmt::Result {
        f.debug_struct("TextMergeWithOffset")
            .finish_non_exhaustive()
    }
}
