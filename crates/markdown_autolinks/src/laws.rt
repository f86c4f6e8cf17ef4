//! Laws of bare addresses. Each is a function without code, whose clauses state the law.
ghost use Rattle.std.specs.Prelude.{List, ℕ};
ghost use Rattle.std.specs.Iterator.{at_most};
ghost use Rattle.markdown_autolinks.specs.AutolinksLaws.{IsNewLinked, ReturnsLinked};
ghost use Rattle.markdown_autolinks.specs.AutolinksNext.{MayReadOn, most_to_come};
ghost use Rattle.markdown_autolinks.specs.AutolinksNext.{linked_steps};
ghost use Rattle.markdown_autolinks.specs.AutolinksState.{linked_state};
ghost use Rattle.markdown_autolinks.specs.LinkRangeLaws.{AddressesAreUnbroken};
ghost use Rattle.markdown_autolinks.specs.LinkRangeLaws.{FirstAddressIsUnbroken};
ghost use Rattle.markdown_autolinks.specs.LinkRangeLaws.{RangesStayInOrder, RangesStayInRun};
ghost use Rattle.markdown_autolinks.specs.LinkedLaws.{NestingStays, NoLinkGetsIntoALink};
ghost use Rattle.markdown_autolinks.specs.LinkedLaws.{OnlyLinksAreAdded};
ghost use Rattle.markdown_out.specs.MergeNext.{CanMerge};
ghost use Rattle.markdown_out.specs.OutLaws.{StaysEnded};

use crate::adapter::Autolinks;
use markdown_base::event::Event;
use markdown_base::fault::Fault;
use std::ops::Range;

/// States what a new adapter returns: up to its first None the events of its iterator with the bare addresses in their Texts
/// as links; at any time the first of them, whatever follows; and before an error the events before that, unless memory is
/// refused.
pub fn a_new_adapter_returns_the_events_with_links<
    'a,
    I: Iterator<Item = Result<(Event<'a>, Range<usize>), Fault>>,
>(links: &Autolinks<'a, I>)
    ensures { (source : List ℕ) → IsNewLinked (linked_state links.now) source
        → ReturnsLinked I.next_gives linked_state source links.now }
{}

/// States that the adapter stays ended, whatever its iterator does, and that it can be merged.
pub fn an_adapter_stays_ended<'a, I: Iterator<Item = Result<(Event<'a>, Range<usize>), Fault>>>(
    links: &Autolinks<'a, I>,
)
    ensures stays_ended { StaysEnded (linked_steps I.next_gives linked_state) links.now }
    ensures merges { MayReadOn I.can_next I.remaining (linked_state links.now)
        → CanMerge (linked_steps I.next_gives linked_state)
        (λ a. MayReadOn I.can_next I.remaining (linked_state a))
        (λ a. at_most (most_to_come I.remaining (linked_state a))) links.now }
{}

/// States what the links of addresses leave. Each is a Start, one Text, which is the address, and an End, and stands in no link,
/// image, code block, HTML block or metadata. Without their tags all other events are the ones before, and the Texts together
/// have their bytes, unless smart punctuation made any. Starts and Ends nest if they did; and then no link is in a link if
/// none was.
pub fn events_gain_links_alone()
    ensures only { OnlyLinksAreAdded }
    ensures nest { NestingStays }
    ensures apart { NoLinkGetsIntoALink }
{}

/// States that no address is empty, or has white space or a `<` in it: none of those of a text, and not the first after
/// what is used up.
pub fn addresses_are_unbroken()
    ensures all { AddressesAreUnbroken }
    ensures first { FirstAddressIsUnbroken }
{}

/// States where events with links are in a source, if those before follow each other there, between its characters: those
/// of Texts that stand together are where the Texts were, none falls back behind the one before it, and each begins and
/// ends between characters; and so it is with all events.
pub fn ranges_stay_in_order()
    ensures run { RangesStayInRun }
    ensures events { RangesStayInOrder }
{}
