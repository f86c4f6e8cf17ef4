//! Laws of outlines: functions without code, whose clauses state them.
ghost use Rattle.std.specs.Prelude.{List};
ghost use Rattle.markdown_out.specs.MergeNext.{formed_view};
ghost use Rattle.markdown_out.specs.MergeState.{offset_state};
ghost use Rattle.markdown_out.specs.OutLaws.{IsNewMerge, StaysEnded, merge_steps};
ghost use Rattle.markdown_out.specs.EventRanges.{with_range, through_ranges};
ghost use Rattle.markdown_out.specs.TextForms.{boxed_through};
ghost use Rattle.markdown_outline.specs.Outline.{EntryView};
ghost use Rattle.markdown_outline.specs.OutlineLaws.{MergingKeepsOutline};
ghost use Rattle.markdown_outline.specs.OutlineRead.{IsOutlineOfAll};
ghost use Rattle.markdown_outline.specs.TreeOutline.{HeadingsOfTextsApart};

use markdown_base::event::Event;
use markdown_base::fault::Fault;
use markdown_out::merge::TextMergeWithOffset;
use std::ops::Range;

/// States that the outline of merged events is that of the events.
pub fn merging_keeps_the_outline()
    ensures { MergingKeepsOutline }
{}

/// States that over an iterator that stays ended the outline of a new merge is that of the iterator.
pub fn outline_of_a_merge_is_that_of_the_events<
    'a,
    I: Iterator<Item = Result<(Event<'a>, Range<usize>), Fault>>,
>(merge: &TextMergeWithOffset<'a, I>)
    ensures { StaysEnded I.next_gives (offset_state merge.now).iter
        → IsNewMerge (offset_state merge.now)
        → (entries : List EntryView)
        → IsOutlineOfAll
        (merge_steps (boxed_through through_ranges) (formed_view with_range) I.next_gives
        I.can_next I.remaining offset_state)
        merge.now entries
        → IsOutlineOfAll I.next_gives (offset_state merge.now).iter entries }
{}

/// States that no heading of the block result of a text contains another, so that `outline_of` returns an entry for
/// each of them.
pub fn headings_of_texts_are_apart()
    ensures { HeadingsOfTextsApart }
{}
