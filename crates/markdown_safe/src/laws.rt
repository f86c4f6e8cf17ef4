//! Laws of the definitions that this crate's contracts cite. Each is a function without code, whose clauses state the
//! law.
ghost use Rattle.std.specs.Prelude.{◌≡◌, ◌++◌, ◌⊎◌, ◌↔◌, ℕ, List, true};
ghost use Rattle.markdown_base.specs.Event.{EventView};
ghost use Rattle.markdown_out.specs.declared.html.rules.HtmlRules.{HtmlRules};
ghost use Rattle.markdown_base.specs.declared.fault.Fault.{Fault};
ghost use Rattle.markdown_out.specs.EventHtml.{html_by, open_html_by};
ghost use Rattle.markdown_out.specs.HtmlCorrect.{IsOwnFaultBy, IsRenderedBy, StopsAtErrorBy};
ghost use Rattle.markdown_safe.specs.SafeTexts.{TextsAreSafe, TextsAreTrees};
ghost use Rattle.markdown_safe.specs.HtmlTree.{IsSafeTree};
ghost use Rattle.markdown_safe.specs.NestNoDeeper.{nest_no_deeper};
ghost use Rattle.markdown_safe.specs.PageParts.{is_page_part};
ghost use Rattle.markdown_safe.specs.PlacedTree.{IsPlacedTree};
ghost use Rattle.markdown_event_laws.specs.NestedEvents.{AreNested, headings_are_apart, items_are_in_lists};
ghost use Rattle.markdown_event_laws.specs.NestedEvents.{table_parts_are_alone, tables_are_whole};
ghost use Rattle.markdown_safe.specs.SafeEvents.{safe_events, safe_html_of};
ghost use Rattle.markdown_safe.specs.SafeHtml.{IsSafeHtml, IsStartOfSafeHtml};
ghost use Rattle.markdown_safe.specs.SafeRules.{SafeRulesView};
ghost use Rattle.markdown_safe.specs.SafeSource.{safe_steps};
ghost use Rattle.markdown_safe.specs.TagStarts.{EachLessThanBeginsATag};

use crate::adapter::Safe;
use markdown_base::event::Event;
use markdown_base::fault::Fault;

/// States that the HTML of safe events is safe, whatever the events are, and by whatever rules they are made safe and
/// written: they need not come from a parser, nor be balanced. Where writing stops, what is written so far is the start
/// of safe HTML.
pub fn html_of_safe_events_is_safe()
    ensures whole { (rules : SafeRulesView) (form : HtmlRules) (events : List EventView)
        → IsSafeHtml (html_by form (safe_events rules events)) }
    ensures open { (rules : SafeRulesView) (form : HtmlRules) (events : List EventView)
        → IsStartOfSafeHtml (open_html_by form (safe_events rules events)) }
{}

/// States what `push_html_by` appends for an iterator whose events are made safe, whatever the iterator returns: safe HTML;
/// and the start of safe HTML where it stops, at an error among the items or at one of its own. So does `push_html`,
/// whose rules are those of upstream.
pub fn html_of_a_safe_iterator_is_safe<'a, I: Iterator<Item = Result<Event<'a>, Fault>>>(
    iter: &Safe<'a, I>,
)
    ensures whole { (form : HtmlRules) (old new : List ℕ)
        → IsRenderedBy form (safe_steps I.next_gives) iter.now old new
        → (html : List ℕ) × (new ≡ old ++ html) × IsSafeHtml html }
    ensures stopped { (form : HtmlRules) (old new : List ℕ) (fault : Fault)
        → StopsAtErrorBy form (safe_steps I.next_gives) iter.now old new fault
        ⊎ IsOwnFaultBy form (safe_steps I.next_gives) iter.now old new fault
        → (html : List ℕ) × (new ≡ old ++ html) × IsStartOfSafeHtml html }
{}

/// States what the definition of safe HTML is for: each `<` in it begins a tag with a name and attributes out of the
/// lists, and what is before it and after that tag is safe HTML too.
pub fn each_less_than_begins_a_tag()
    ensures { EachLessThanBeginsATag }
{}

/// States that the HTML of safe events is a tree of elements, where each End is that of the nearest Start that is open,
/// and each table holds its head, first, and then rows: each end tag is that of the last element that is open, and none
/// is left open. So it closes no element of the page that it is put into.
pub fn html_of_nested_events_is_a_tree()
    ensures { (rules : SafeRulesView) (events : List EventView) → AreNested events
        → tables_are_whole events ≡ true → IsSafeTree (safe_html_of rules events) }
{}

/// States that the elements of that tree stand where a browser leaves them, where the events are a part of a page: besides,
/// tables hold their parts alone, list items stand in lists, which hold nothing else, and no heading is in a heading. Then
/// no link is in a link and no heading in a heading, the parts of lists and tables stand directly in those, and nothing
/// else does.
pub fn html_of_page_parts_is_placed()
    ensures { (rules : SafeRulesView) (events : List EventView) → is_page_part events ≡ true
        → IsPlacedTree (safe_html_of rules events) }
{}

/// States that safe events nest no deeper than the rules say, where each End is that of the nearest Start that is open:
/// after none of them are more Starts open.
pub fn safe_events_nest_no_deeper()
    ensures { (rules : SafeRulesView) (events : List EventView) → AreNested events
        → nest_no_deeper rules.nesting (safe_events rules events) ≡ true }
{}

/// States what the test of a part of a page tells: each End is that of the nearest Start that is open, tables are whole
/// and hold their parts alone, list items stand in lists, which hold nothing else, and no heading is in a heading.
pub fn page_parts_pass_each_test()
    ensures { (events : List EventView) → (is_page_part events ≡ true) ↔ (AreNested events
        × (tables_are_whole events ≡ true) × (table_parts_are_alone events ≡ true)
        × (items_are_in_lists events ≡ true) × (headings_are_apart events ≡ true)) }
{}

/// States that the safe HTML of every text is safe, and where the text has a block result, a tree of elements that stand
/// where a browser leaves them.
pub fn safe_html_of_texts_is_safe()
    ensures safe { TextsAreSafe }
    ensures trees { TextsAreTrees }
{}
