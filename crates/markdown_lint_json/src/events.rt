//! Events as JSON with lines and columns, a line for each.
ghost use Rattle.std.specs.Prelude.{◌≡◌, ◌⊎◌, OnOk, OnErr, IfErr};
ghost use Rattle.std.specs.Iterator.{IsFinite};
ghost use Rattle.std.specs.String.{string_bytes};
ghost use Rattle.markdown_base.specs.Event.{event_view};
ghost use Rattle.markdown_base.specs.declared.fault.Fault.TheVariants.{Memory};
ghost use Rattle.markdown_lint_json.specs.PlacedEvents.{IsCutShortWithPlaces, IsWrittenWithPlaces, StopsWithPlaces};
ghost use Rattle.markdown_lint_json.specs.PlacedEvents.{placed_event_line};
ghost use Rattle.markdown_out.specs.StringAppends.{Appends, AppendsPart};
ghost use Rattle.markdown_outline.specs.OutlineRead.{ranged_view};
ghost use Rattle.markdown_positions.specs.PositionsOf.{positions_text};

use crate::place::{Place, push_place};
use markdown_base::event::Event;
use markdown_base::fault::Fault;
use markdown_json::push_line_start;
use markdown_positions::Positions;
use std::alloc::AllocError;
use std::ops::Range;

/// Appends the line of an event with the place of its range.
fn push_line(
    s: &mut String,
    event: &Event<'_>,
    range: &Range<usize>,
    positions: &Positions<'_>,
) -> Result<(), AllocError>
    ensures ok { OnOk result (Appends s.old s.new
        (placed_event_line (positions_text positions.now) (event_view event.now, range.now))) }
    ensures err { OnErr result (AppendsPart s.old s.new
        (placed_event_line (positions_text positions.now) (event_view event.now, range.now))) }
{
    push_line_start(s, event, range.start, range.end)?;
    push_place(s, ",{", Place::of_range(positions, range), "}]\n")
}

/// Appends the line of an event with the place of its range, and drops the event.
fn push_placed<'a>(
    s: &mut String,
    placed: (Event<'a>, Range<usize>),
    positions: &Positions<'_>,
) -> Result<(), AllocError>
    ensures ok { OnOk result (Appends s.old s.new
        (placed_event_line (positions_text positions.now) (ranged_view placed.entry))) }
    ensures err { OnErr result (AppendsPart s.old s.new
        (placed_event_line (positions_text positions.now) (ranged_view placed.entry))) }
{
    let (event, range) = placed;
    let done = push_line(s, &event, &range, positions);
    drop(event);
    done
}

/// Appends the lines that `push_json` of `markdown_json` appends, with a third element in each: the lines and the columns of
/// both ends of the range, in the text that the positions are of.
///
/// ```
/// let events = Parser::new(alloc, text)?.into_offset_iter();
/// push_json_with_places(&mut json, events, &Positions::new(alloc, text)?)?;
/// // [{"Text":"a"},{"start":9,"end":10},{"line":2,"column":3,"end_line":2,"end_column":4}]
/// ```
///
/// # Errors
///
/// - The error of the first item that is one: the lines of the events before it have been appended.
/// - `Memory`, if an allocation fails: the lines of the events before the one that was being written have been
///   appended, and a prefix of its line.
pub fn push_json_with_places<'a, I>(
    s: &mut String,
    iter: I,
    positions: &Positions<'_>,
) -> Result<(), Fault>
where
    I: Iterator<Item = Result<(Event<'a>, Range<usize>), Fault>>,
    requires can { I.can_next iter }
    requires ends { IsFinite (I.remaining iter) }
    // The old text is followed by the lines of all events.
    ensures ok { OnOk result (IsWrittenWithPlaces I.next_gives (positions_text positions.now) iter
        (string_bytes s.old) (string_bytes s.new)) }

    // The first item that is an error, or an error of this function's own.
    ensures err { IfErr result (λ fault.
        StopsWithPlaces I.next_gives (positions_text positions.now) iter (string_bytes s.old)
        (string_bytes s.new) fault
        ⊎ ((fault ≡ Memory)
        × IsCutShortWithPlaces I.next_gives (positions_text positions.now) iter
        (string_bytes s.old) (string_bytes s.new))) }
{
    for item in iter {
        let placed = item?;
        push_placed(s, placed, positions)?;
    }
    Ok(())
}
