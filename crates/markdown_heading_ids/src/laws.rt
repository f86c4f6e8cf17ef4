//! Laws of ids of headings. Each is a function without code, whose clauses state the law.
ghost use Rattle.std.specs.Prelude.{List};
ghost use Rattle.std.specs.Iterator.{at_most};
ghost use Rattle.markdown_heading_ids.specs.HeadingIds.{Id};
ghost use Rattle.markdown_heading_ids.specs.HeadingIdsLaws.{IsNewIds, ReturnsWithIds};
ghost use Rattle.markdown_heading_ids.specs.HeadingIdsNext.{MayCallSource, count_to_come, ids_steps};
ghost use Rattle.markdown_heading_ids.specs.HeadingIdsState.{ids_state};
ghost use Rattle.markdown_heading_ids.specs.IdsOfEvents.{ASecondTimeChangesNothing, EachHeadingHasAnId, GivenIdsAreFresh};
ghost use Rattle.markdown_heading_ids.specs.IdsOfEvents.{MergingKeepsIds, OnlyIdsAreAdded, OutlinesHaveIds};
ghost use Rattle.markdown_out.specs.MergeNext.{CanMerge};
ghost use Rattle.markdown_out.specs.OutLaws.{StaysEnded};

use crate::adapter::HeadingIds;
use markdown_base::event::Event;
use markdown_base::fault::Fault;
use std::ops::Range;

/// States what a new adapter returns where these ids are taken: up to its first None the events of its iterator with the
/// ids of their headings; at any time the first of them, whatever follows; and before an error the events before that,
/// unless memory is refused.
pub fn a_new_adapter_returns_the_events_with_ids<
    'a,
    I: Iterator<Item = Result<(Event<'a>, Range<usize>), Fault>>,
>(ids: &HeadingIds<'a, I>)
    ensures { (taken : List Id) → IsNewIds (ids_state ids.now) taken
        → ReturnsWithIds I.next_gives ids_state taken ids.now }
{}

/// States that the adapter stays ended, whatever its iterator does, and that it can be merged.
pub fn an_adapter_stays_ended<'a, I: Iterator<Item = Result<(Event<'a>, Range<usize>), Fault>>>(
    ids: &HeadingIds<'a, I>,
)
    ensures stays_ended { StaysEnded (ids_steps I.next_gives ids_state) ids.now }
    ensures merges { MayCallSource I.can_next I.remaining (ids_state ids.now)
        → CanMerge (ids_steps I.next_gives ids_state)
        (λ h. MayCallSource I.can_next I.remaining (ids_state h))
        (λ h. at_most (count_to_come I.remaining (ids_state h))) ids.now }
{}

/// States what the events with their ids are: without the ids that are given, the events before; each heading that is in
/// none has an id; those given differ from each other and from what is taken; a second time changes nothing; the outline
/// is that of the events before, with the ids of the Starts; and merging changes no id.
pub fn events_gain_ids_alone()
    ensures only { OnlyIdsAreAdded }
    ensures each { EachHeadingHasAnId }
    ensures fresh { GivenIdsAreFresh }
    ensures again { ASecondTimeChangesNothing }
    ensures outline { OutlinesHaveIds }
    ensures merged { MergingKeepsIds }
{}
