//! `push_json`, which writes the events of an iterator up to its first `None`, a line for each.
ghost use Rattle.std.specs.Prelude.{◌≡◌, ◌⊎◌, OnOk, OnErr, IfErr};
ghost use Rattle.std.specs.Iterator.{IsFinite};
ghost use Rattle.std.specs.String.{string_bytes};
ghost use Rattle.markdown_base.specs.Event.{event_view};
ghost use Rattle.markdown_base.specs.declared.fault.Fault.TheVariants.{Memory};
ghost use Rattle.markdown_out.specs.StringAppends.{Appends, AppendsPart};
ghost use Rattle.markdown_json.specs.Json.{line_json, line_start};
ghost use Rattle.markdown_json.specs.JsonParts.{range_json};
ghost use Rattle.markdown_json.specs.JsonLines.{IsWritten, StopsAtError, IsCutShort, json_line};

use crate::pieces::{Piece, push_pieces, push_raw};
use crate::value::push_field;
use itoa::Buffer;
use markdown_base::event::Event;
use markdown_base::fault::Fault;
use std::alloc::{AllocError, Global};
use std::ops::Range;

/// Appends a range, from the digits of its ends.
fn push_range<'x>(s: &mut String, start: &'x str, end: &'x str) -> Result<(), AllocError>
    ensures ok { OnOk result (Appends s.old s.new (range_json start.now end.now)) }
    ensures err { OnErr result (AppendsPart s.old s.new (range_json start.now end.now)) }
{
    push_pieces(
        s,
        &[
            Piece::Raw(",{\"start\":"),
            Piece::Raw(start),
            Piece::Raw(",\"end\":"),
            Piece::Raw(end),
            Piece::Raw("}"),
        ],
    )
}

/// Appends the line of an event whose range is from `start` to `end`, but for its end, `]` and a line feed, before which more
/// elements may be appended. If an allocation fails, a prefix of this has been appended.
pub fn push_line_start(
    s: &mut String,
    event: &Event<'_>,
    start: usize,
    end: usize,
) -> Result<(), AllocError>
    ensures ok { OnOk result (Appends s.old s.new (line_start (event_view event.now) start end)) }
    ensures err { OnErr result
        (AppendsPart s.old s.new (line_start (event_view event.now) start end)) }
{
    push_field(s, "[", event)?;
    let mut first = Buffer::new();
    let mut last = Buffer::new();
    push_range(s, first.format(start), last.format(end))
}

/// Appends the line of an event whose range is from `start` to `end`.
fn push_line(s: &mut String, event: &Event<'_>, start: usize, end: usize) -> Result<(), AllocError>
    ensures ok { OnOk result (Appends s.old s.new (line_json (event_view event.now) start end)) }
    ensures err { OnErr result
        (AppendsPart s.old s.new (line_json (event_view event.now) start end)) }
{
    push_line_start(s, event, start, end)?;
    push_raw(s, "]\n")
}

/// Appends the line of an event with its range, and drops the event.
fn push_placed<'a>(s: &mut String, placed: (Event<'a>, Range<usize>)) -> Result<(), AllocError>
    ensures ok { OnOk result (Appends s.old s.new (json_line placed.entry)) }
    ensures err { OnErr result (AppendsPart s.old s.new (json_line placed.entry)) }
{
    let (event, range) = placed;
    let done = push_line(s, &event, range.start, range.end);
    drop(event);
    done
}

/// Appends a line of JSON for each event up to the first `None`, with its range, and nothing else.
///
/// ```
/// let mut json = String::new(alloc);
/// push_json(alloc, &mut json, Parser::new(alloc, "hello")?.into_offset_iter())?;
/// // [{"Start":"Paragraph"},{"start":0,"end":5}]
/// // [{"Text":"hello"},{"start":0,"end":5}]
/// // [{"End":"Paragraph"},{"start":0,"end":5}]
/// ```
///
/// # Errors
///
/// - The error of the first item that is one: the lines of the events before it have been appended.
/// - `Memory`, if an allocation fails: the lines of the events before the one that was being written have been
///   appended, and a prefix of its line.
pub fn push_json<'a, I>(alloc: Global, s: &mut String, iter: I) -> Result<(), Fault>
where
    I: Iterator<Item = Result<(Event<'a>, Range<usize>), Fault>>,
    requires can { I.can_next iter }
    requires ends { IsFinite (I.remaining iter) }
    // The old text is followed by the lines of all events.
    ensures ok { OnOk result
        (IsWritten I.next_gives iter (string_bytes s.old) (string_bytes s.new)) }

    // The first item that is an error, or an error of this function's own.
    ensures err { IfErr result (λ fault.
        StopsAtError I.next_gives iter (string_bytes s.old) (string_bytes s.new) fault
        ⊎ ((fault ≡ Memory)
        × IsCutShort I.next_gives iter (string_bytes s.old) (string_bytes s.new))) }
{
    let _ = alloc;
    for item in iter {
        let placed = item?;
        push_placed(s, placed)?;
    }
    Ok(())
}
