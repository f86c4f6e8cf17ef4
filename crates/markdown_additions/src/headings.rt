//! The headings of a text, with what is added to its events.
ghost use Rattle.std.specs.Prelude.{◌≡◌, IfErr, IfOk, None, Some, map};
ghost use Rattle.std.specs.Option.{option_map};
ghost use Rattle.markdown_additions.specs.Additions.{AdditionsView, additions_view};
ghost use Rattle.markdown_additions.specs.TextEvents.{IsNewAdded};
ghost use Rattle.markdown_additions.specs.Written.{headings_of_text};
ghost use Rattle.markdown_base.specs.Source.{Source, source_as};
ghost use Rattle.markdown_outline.specs.Outline.{entry_view};
ghost use Rattle.markdown_safe.specs.SafeRules.{rules_view};

use crate::additions::Additions;
use crate::events::{TextEvents, added_events};
use markdown_base::fault::Fault;
use markdown_base::syntax::Syntax;
use markdown_outline::{Entry, outline};
use markdown_safe::{SafeRules, SafeWithOffset};
use std::alloc::Global;

/// Returns the headings of a text.
fn plain_headings(alloc: Global, events: TextEvents<'_>) -> Result<Vec<Entry>, Fault>
    ensures headings { IfOk result (λ headings. (a : AdditionsView) (s : Source)
        → IsNewAdded a s events.entry
        → map entry_view headings.items ≡ headings_of_text None a s) }
    ensures refused { IfErr result (λ fault. (a : AdditionsView) (s : Source)
        → IsNewAdded a s events.entry → fault ≡ Fault.Memory) }
{
    outline(alloc, events)
}

/// Returns the headings of a text among events made safe, by these rules.
fn safe_headings<'a>(
    alloc: Global,
    events: TextEvents<'a>,
    rules: SafeRules<'a>,
) -> Result<Vec<Entry>, Fault>
    ensures headings { IfOk result (λ headings. (a : AdditionsView) (s : Source)
        → IsNewAdded a s events.entry
        → map entry_view headings.items
        ≡ headings_of_text (Some (rules_view rules.entry)) a s) }
    ensures refused { IfErr result (λ fault. (a : AdditionsView) (s : Source)
        → IsNewAdded a s events.entry → fault ≡ Fault.Memory) }
{
    let safe = SafeWithOffset::with_rules(alloc, events, rules);
    outline(alloc, safe)
}

/// Returns the headings of a text of which `syntax` is read, with what is added to its events, which are then made safe if
/// `safe` has rules. There is no callback: a link label without a reference definition stays text.
///
/// # Errors
///
/// `Memory` if an allocation fails; there is no other error.
pub fn headings_source<'a>(
    alloc: Global,
    text: &'a str,
    syntax: Syntax,
    additions: Additions<'_>,
    safe: Option<SafeRules<'a>>,
) -> Result<Vec<Entry>, Fault>
    ensures headings { IfOk result (λ headings. map entry_view headings.items
        ≡ headings_of_text (option_map rules_view safe.entry) (additions_view additions.entry)
        (source_as syntax text.now)) }
    ensures refused { IfErr result (λ fault. fault ≡ Fault.Memory) }
{
    let events = added_events(alloc, text, syntax, additions)?;
    match safe {
        Some(rules) => safe_headings(alloc, events, rules),
        None => plain_headings(alloc, events),
    }
}
