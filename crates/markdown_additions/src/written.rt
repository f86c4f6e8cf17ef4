//! What is written of events: HTML, safe HTML, or lines of JSON.
ghost use Rattle.std.specs.Prelude.{◌≡◌, IfErr, IfOk, string_bytes};
ghost use Rattle.markdown_additions.specs.Additions.{AdditionsView, additions_view};
ghost use Rattle.markdown_additions.specs.TextEvents.{IsNewAdded};
ghost use Rattle.markdown_additions.specs.Written.{IsFaultOfWritingText, IsTreeIn, as_html, as_lines, as_safe_html};
ghost use Rattle.markdown_additions.specs.Written.{view_of_form, written_of_text};
ghost use Rattle.markdown_base.specs.Source.{Source, source_as};
ghost use Rattle.markdown_safe.specs.PlacedTree.{IsPlacedTree};
ghost use Rattle.markdown_safe.specs.SafeRules.{rules_view};

use crate::additions::Additions;
use crate::events::{TextEvents, added_events};
use crate::unplaced::Unplaced;
use markdown_base::fault::Fault;
use markdown_base::syntax::Syntax;
use markdown_json::push_json;
use markdown_out::{push_html, push_html_by};
use markdown_safe::{Safe, SafeRules};
use std::alloc::Global;

/// What is written of events.
#[derive(Clone, Copy, Debug, Drop)]
pub enum Form<'r> {
    /// HTML, which is not sanitised.
    Html,
    /// Safe HTML, by these rules.
    SafeHtml(SafeRules<'r>),
    /// A line of JSON for each event, with its range.
    Lines,
}

/// Returns the HTML of the events of a text.
fn html(alloc: Global, events: TextEvents<'_>) -> Result<String, Fault>
    ensures written { IfOk result (λ written. (a : AdditionsView) (s : Source)
        → IsNewAdded a s events.entry → string_bytes written ≡ written_of_text as_html a s) }
    ensures faults { IfErr result (λ fault. (a : AdditionsView) (s : Source)
        → IsNewAdded a s events.entry → IsFaultOfWritingText as_html a s fault) }
{
    let mut written = String::new(alloc);
    let unplaced = Unplaced::new(events);
    push_html(alloc, &mut written, unplaced)?;
    Ok(written)
}

/// Returns the safe HTML of the events of a text, by these rules.
fn safe_html<'a>(
    alloc: Global,
    events: TextEvents<'a>,
    rules: SafeRules<'a>,
) -> Result<String, Fault>
    ensures written { IfOk result (λ written. (a : AdditionsView) (s : Source)
        → IsNewAdded a s events.entry
        → string_bytes written ≡ written_of_text (as_safe_html (rules_view rules.entry)) a s) }
    ensures tree { IfOk result (λ written. (a : AdditionsView) (s : Source)
        → IsNewAdded a s events.entry → IsPlacedTree (string_bytes written)) }
    ensures faults { IfErr result (λ fault. (a : AdditionsView) (s : Source)
        → IsNewAdded a s events.entry
        → IsFaultOfWritingText (as_safe_html (rules_view rules.entry)) a s fault) }
{
    let mut written = String::new(alloc);
    let unplaced = Unplaced::new(events);
    let safe = Safe::with_rules(alloc, unplaced, rules);
    let form = rules.html();
    push_html_by(alloc, &mut written, safe, form)?;
    Ok(written)
}

/// Returns the lines of the events of a text.
fn lines(alloc: Global, events: TextEvents<'_>) -> Result<String, Fault>
    ensures written { IfOk result (λ written. (a : AdditionsView) (s : Source)
        → IsNewAdded a s events.entry → string_bytes written ≡ written_of_text as_lines a s) }
    ensures faults { IfErr result (λ fault. (a : AdditionsView) (s : Source)
        → IsNewAdded a s events.entry → IsFaultOfWritingText as_lines a s fault) }
{
    let mut written = String::new(alloc);
    push_json(alloc, &mut written, events)?;
    Ok(written)
}

/// Returns what is written in a form of the events of a text of which `syntax` is read, with what is added to them. There is
/// no callback: a link label without a reference definition stays text.
///
/// # Errors
///
/// `Memory` if an allocation fails, and `Depth` where more than 2^64 - 1 Starts are open in one image.
pub fn written_source<'a>(
    alloc: Global,
    text: &'a str,
    syntax: Syntax,
    additions: Additions<'_>,
    form: Form<'a>,
) -> Result<String, Fault>
    ensures written { IfOk result (λ written. string_bytes written
        ≡ written_of_text (view_of_form form.entry) (additions_view additions.entry)
        (source_as syntax text.now)) }
    ensures tree { IfOk result (λ written.
        IsTreeIn (view_of_form form.entry) (string_bytes written)) }
    ensures faults { IfErr result (IsFaultOfWritingText (view_of_form form.entry)
        (additions_view additions.entry) (source_as syntax text.now)) }
{
    let events = added_events(alloc, text, syntax, additions)?;
    match form {
        Form::Html => html(alloc, events),
        Form::SafeHtml(rules) => safe_html(alloc, events, rules),
        Form::Lines => lines(alloc, events),
    }
}
