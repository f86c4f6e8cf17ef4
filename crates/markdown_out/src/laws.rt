//! Laws of the definitions that this crate's contracts cite. Each is a function without code, whose clauses state the
//! law.
ghost use Rattle.std.specs.Prelude.{◌≡◌, ◌⊎◌, ℕ, List};
ghost use Rattle.std.specs.Iterator.{CallableOnAll, at_most};
ghost use Rattle.std.specs.Iterator.Adapters.{map_source, map_callee, map_steps};
ghost use Rattle.std.specs.declared.ops.Range.{Range};
ghost use Rattle.markdown_base.specs.declared.fault.Fault.{Fault};
ghost use Rattle.markdown_base.specs.declared.fault.Fault.TheVariants.{Memory};
ghost use Rattle.markdown_out.specs.HtmlCorrect.{GoesTooDeep, IsRendered, StopsAtError};
ghost use Rattle.markdown_out.specs.ImageHtml.{ImagesHaveParts};
ghost use Rattle.markdown_out.specs.Merge.{Item, merged};
ghost use Rattle.markdown_out.specs.MergeNext.{CanMerge, formed_view, left_count};
ghost use Rattle.markdown_out.specs.MergeState.{stream_state, offset_state};
ghost use Rattle.markdown_out.specs.OutLaws.{HasNoNeighbours, MergingKeepsHtml, StaysEnded};
ghost use Rattle.markdown_out.specs.OutLaws.{IsNewMerge, GivesTheMerge, merge_steps};
ghost use Rattle.markdown_out.specs.OutLaws.{GoesTooDeepMerged, IsRenderedMerged, StopsAtErrorMerged, IsRefusedMerged};
ghost use Rattle.markdown_out.specs.EventRanges.{bare, nowhere, with_range, through_ranges};
ghost use Rattle.markdown_out.specs.TextForms.{boxed_through};

use crate::merge::{TextMergeStream, TextMergeWithOffset};
use markdown_base::event::Event;
use markdown_base::fault::Fault;
use std::iter::Map;
use std::ops::Range;

/// States that the HTML of an image consists of what precedes the alt text, what each event up to the matching End adds
/// to the alt text, and what closes the image.
pub fn an_image_has_the_html_of_its_parts()
    ensures { ImagesHaveParts }
{}

/// States that no two merged texts are neighbours.
pub fn merged_texts_are_no_neighbours()
    ensures events { (items : List (Item (Unit {0}))) → HasNoNeighbours (merged nowhere items) }
    ensures ranged { (items : List (Item (Range ℕ)))
        → HasNoNeighbours (merged through_ranges items) }
{}

/// States that merging twice is merging once.
pub fn merging_twice_is_merging_once()
    ensures events { (items : List (Item (Unit {0})))
        → merged nowhere (merged nowhere items) ≡ merged nowhere items }
    ensures ranged { (items : List (Item (Range ℕ))) →
        merged through_ranges (merged through_ranges items) ≡ merged through_ranges items }
{}

/// States that merging changes no byte of the HTML where no text is empty.
pub fn merging_keeps_the_html()
    ensures { MergingKeepsHtml }
{}

/// States that a new merge over an iterator that stays ended returns the merge of the items, where no allocation
/// fails.
pub fn a_stream_gives_the_merge<'a, I: Iterator<Item = Result<Event<'a>, Fault>>>(
    merge: &TextMergeStream<'a, I>,
)
    ensures { StaysEnded I.next_gives (stream_state merge.now).iter
        → IsNewMerge (stream_state merge.now)
        → GivesTheMerge (boxed_through nowhere) (formed_view bare)
        I.next_gives I.can_next I.remaining
        stream_state merge.now }
{}

/// States for events with their ranges what `a_stream_gives_the_merge` states for events.
pub fn a_stream_with_offsets_gives_the_merge<
    'a,
    I: Iterator<Item = Result<(Event<'a>, Range<usize>), Fault>>,
>(merge: &TextMergeWithOffset<'a, I>)
    ensures { StaysEnded I.next_gives (offset_state merge.now).iter
        → IsNewMerge (offset_state merge.now)
        → GivesTheMerge (boxed_through through_ranges) (formed_view with_range)
        I.next_gives I.can_next
        I.remaining offset_state merge.now }
{}

/// States that a merge can be merged again: over an iterator that stays ended it does so too, and where its iterator can
/// be merged, so can it.
pub fn a_stream_can_be_merged<'a, I: Iterator<Item = Result<Event<'a>, Fault>>>(
    merge: &TextMergeStream<'a, I>,
)
    ensures stays_ended { StaysEnded I.next_gives (stream_state merge.now).iter
        → StaysEnded (merge_steps (boxed_through nowhere) (formed_view bare)
        I.next_gives I.can_next I.remaining
        stream_state) merge.now }
    ensures merges { CanMerge I.next_gives I.can_next I.remaining (stream_state merge.now).iter
        → CanMerge (merge_steps (boxed_through nowhere) (formed_view bare)
        I.next_gives I.can_next I.remaining
        stream_state) (λ m. CanMerge I.next_gives I.can_next I.remaining (stream_state m).iter)
        (λ m. at_most (left_count I.remaining (stream_state m))) merge.now }
{}

/// States for events with their ranges what `a_stream_can_be_merged` states for events.
pub fn a_stream_with_offsets_can_be_merged<
    'a,
    I: Iterator<Item = Result<(Event<'a>, Range<usize>), Fault>>,
>(merge: &TextMergeWithOffset<'a, I>)
    ensures stays_ended { StaysEnded I.next_gives (offset_state merge.now).iter
        → StaysEnded (merge_steps (boxed_through through_ranges) (formed_view with_range)
        I.next_gives I.can_next
        I.remaining offset_state) merge.now }
    ensures merges { CanMerge I.next_gives I.can_next I.remaining (offset_state merge.now).iter
        → CanMerge (merge_steps (boxed_through through_ranges) (formed_view with_range)
        I.next_gives I.can_next
        I.remaining offset_state) (λ m. CanMerge I.next_gives I.can_next I.remaining
        (offset_state m).iter) (λ m. at_most (left_count I.remaining (offset_state m))) merge.now }
{}

/// States that a mapped iterator can be merged where its source stays ended and can be merged, and the closure may be
/// called on each item that the source may return.
pub fn a_mapped_iterator_can_be_merged<I: Iterator, B, F: FnMut(I::Item) -> B>(mapped: &Map<I, F>)
    ensures { StaysEnded I.next_gives (map_source mapped.now)
        → CanMerge I.next_gives I.can_next I.remaining (map_source mapped.now)
        → CallableOnAll I.next_gives F.FnMut (map_source mapped.now) (map_callee mapped.now)
        → CanMerge (map_steps I.next_gives F.FnMut) (λ m. I.can_next (map_source m)
        × CallableOnAll I.next_gives F.FnMut (map_source m) (map_callee m))
        (λ m. I.remaining (map_source m)) mapped.now }
{}

/// States that a mapped iterator stays ended where its source does.
pub fn a_mapped_iterator_stays_ended<I: Iterator, B, F: FnMut(I::Item) -> B>(mapped: &Map<I, F>)
    ensures { StaysEnded I.next_gives (map_source mapped.now)
        → StaysEnded (map_steps I.next_gives F.FnMut) mapped.now }
{}

/// States what `push_html` writes for a new merge of events over an iterator that stays ended: the HTML of the merge of
/// the events; at an error, the open HTML of the merge of the events before it; and where an allocation of the merge
/// fails, or too many Starts are open in an image, the open HTML of a prefix of the merge of the events read.
pub fn html_of_a_merge_is_that_of_the_merged_events<
    'a,
    I: Iterator<Item = Result<Event<'a>, Fault>>,
>(merge: &TextMergeStream<'a, I>)
    ensures whole { StaysEnded I.next_gives (stream_state merge.now).iter
        → IsNewMerge (stream_state merge.now)
        → (old new : List ℕ)
        → IsRendered (merge_steps (boxed_through nowhere) (formed_view bare)
        I.next_gives I.can_next I.remaining
        stream_state) merge.now
        old new
        → IsRenderedMerged I.next_gives (stream_state merge.now).iter old new }
    ensures error { StaysEnded I.next_gives (stream_state merge.now).iter
        → IsNewMerge (stream_state merge.now)
        → (old new : List ℕ) (fault : Fault)
        → StopsAtError (merge_steps (boxed_through nowhere) (formed_view bare)
        I.next_gives I.can_next I.remaining
        stream_state) merge.now
        old new fault
        → StopsAtErrorMerged I.next_gives (stream_state merge.now).iter old new fault
        ⊎ ((fault ≡ Memory) × IsRefusedMerged I.next_gives (stream_state merge.now).iter old new) }
    ensures deep { StaysEnded I.next_gives (stream_state merge.now).iter
        → IsNewMerge (stream_state merge.now)
        → (old new : List ℕ)
        → GoesTooDeep (merge_steps (boxed_through nowhere) (formed_view bare)
        I.next_gives I.can_next I.remaining
        stream_state) merge.now
        old new
        → GoesTooDeepMerged I.next_gives (stream_state merge.now).iter old new }
{}
