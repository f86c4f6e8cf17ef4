//! The lines of the events of a text with the places of their ranges, with what is added to the events.
ghost use Rattle.std.specs.Prelude.{◌≡◌, IfErr, IfOk, string_bytes};
ghost use Rattle.markdown_additions.specs.Additions.{AdditionsView, additions_view, added_events};
ghost use Rattle.markdown_additions.specs.TextEvents.{IsNewAdded};
ghost use Rattle.markdown_base.specs.Source.{Source, source_as};
ghost use Rattle.markdown_lint_json.specs.PlacedEvents.{placed_event_lines};
ghost use Rattle.markdown_positions.specs.PositionsOf.{positions_text};

use crate::additions::Additions;
use crate::events::{TextEvents, added_events};
use markdown_base::fault::Fault;
use markdown_base::syntax::Syntax;
use markdown_lint_json::push_json_with_places;
use markdown_positions::Positions;
use std::alloc::Global;

/// Returns the lines of the events of a text with the places of their ranges among these positions.
// (these are made before the events, which an error would drop: proofs of that are long)
fn placed_lines(
    alloc: Global,
    events: TextEvents<'_>,
    positions: &Positions<'_>,
) -> Result<String, Fault>
    ensures lines { IfOk result (λ lines. (a : AdditionsView) (s : Source)
        → IsNewAdded a s events.entry
        → string_bytes lines
        ≡ placed_event_lines (positions_text positions.now) (added_events a s)) }
    ensures refused { IfErr result (λ fault. (a : AdditionsView) (s : Source)
        → IsNewAdded a s events.entry → fault ≡ Fault.Memory) }
{
    let mut lines = String::new(alloc);
    push_json_with_places(&mut lines, events, positions)?;
    Ok(lines)
}

/// Returns a line of JSON for each event of a text of which `syntax` is read, with its range, and with the line and the
/// column of both of the range's ends, with what is added to the events. There is no callback: a link label without a
/// reference definition stays text.
///
/// # Errors
///
/// `Memory` if an allocation fails; there is no other error.
pub fn placed_lines_source(
    alloc: Global,
    text: &str,
    syntax: Syntax,
    additions: Additions<'_>,
) -> Result<String, Fault>
    ensures lines { IfOk result (λ lines. string_bytes lines ≡ placed_event_lines text.now
        (added_events (additions_view additions.entry) (source_as syntax text.now))) }
    ensures refused { IfErr result (λ fault. fault ≡ Fault.Memory) }
{
    let positions = Positions::new(alloc, text)?;
    let events = added_events(alloc, text, syntax, additions)?;
    placed_lines(alloc, events, &positions)
}
