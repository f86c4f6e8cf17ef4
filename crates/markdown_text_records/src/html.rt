//! The HTML of what records say.
ghost use Rattle.std.specs.Prelude.{MatchResult, string_bytes};
ghost use Rattle.markdown_safe.specs.SafeEvents.{safe_events};
ghost use Rattle.markdown_safe.specs.SafeRules.{rules_view};
ghost use Rattle.markdown_text_records.specs.RecordsHtml.{IsFaultOf, IsHtmlOfRecords, IsSafeHtmlOfRecords};

use markdown_base::fault::Fault;
use markdown_out::{push_html, push_html_by};
use markdown_records::laws::the_events_left_are_returned;
use markdown_records::{RecordFault, RecordedText};
use markdown_safe::{Safe, SafeRules};
use std::alloc::Global;

/// Returns the HTML of the events that records say of a text.
///
/// # Errors
///
/// `NotRecords` unless each byte of the records is as it has to be for this text, `Of(Fault::Memory)` if an allocation fails,
/// and `Of(Fault::Depth)` where more than 2^64 - 1 Starts are open in one image.
pub fn html_of_records(alloc: Global, text: &str, records: &[u8]) -> Result<String, RecordFault>
    ensures { MatchResult result (λ html. IsHtmlOfRecords text.now records.now (string_bytes html))
        (IsFaultOf (λ events. events) text.now records.now) }
{
    let recorded = RecordedText::of_bytes(alloc, text, records)?;
    let events = recorded.events(alloc);
    the_events_left_are_returned(&events);
    let mut html = String::new(alloc);
    push_html(alloc, &mut html, events)?;
    Ok(html)
}

/// Returns the safe HTML of the events that records say of a text, by rules: whatever they say, no script runs.
///
/// # Errors
///
/// As those of `html_of_records`.
pub fn safe_html_of_records(
    alloc: Global,
    text: &str,
    records: &[u8],
    rules: SafeRules<'_>,
) -> Result<String, RecordFault>
    ensures { MatchResult result (λ html. IsSafeHtmlOfRecords (rules_view rules.entry) text.now
        records.now (string_bytes html))
        (IsFaultOf (safe_events (rules_view rules.entry)) text.now records.now) }
{
    let recorded = RecordedText::of_bytes(alloc, text, records)?;
    let events = recorded.events(alloc);
    the_events_left_are_returned(&events);
    let safe = Safe::with_rules(alloc, events, rules);
    let form = rules.html();
    let mut html = String::new(alloc);
    push_html_by(alloc, &mut html, safe, form)?;
    Ok(html)
}
