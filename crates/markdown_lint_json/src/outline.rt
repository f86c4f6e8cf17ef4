//! The entries of an outline as JSON, a line for each, with lines and columns.
ghost use Rattle.std.specs.Prelude.{◌≡◌, ◌++◌, OnOk, OnErr, if◌then◌else◌, map, None};
ghost use Rattle.std.specs.Option.{option_copied};
ghost use Rattle.markdown_json.specs.JsonPieces.{piece_json};
ghost use Rattle.markdown_lint_json.specs.PlacedOutline.{entry_members, placed_entry_line, placed_outline_lines};
ghost use Rattle.markdown_lint_json.specs.ShownMembers.{shown_entry_members};
ghost use Rattle.markdown_out.specs.StringAppends.{Appends, AppendsPart};
ghost use Rattle.markdown_outline.specs.Outline.{entry_view};
ghost use Rattle.markdown_positions.specs.PositionsOf.{positions_text};
ghost use Rattle.markdown_text_json.specs.OutlineJson.{id_member};

use crate::place::{Place, push_object_end};
use itoa::Buffer;
use markdown_json::{Piece, push_pieces};
use markdown_outline::Entry;
use markdown_positions::Positions;
use std::alloc::AllocError;

/// What the line of an entry shows beside the place: the digits of its numbers, its text and its id.
#[derive(Clone, Copy, Drop)]
pub(crate) struct ShownEntry<'x> {
    pub level: &'x str,
    pub text: &'x str,
    pub start: &'x str,
    pub end: &'x str,
    pub id: Option<&'x str>,
}

/// Returns the name and the value of the member of an id, or two empty pieces where there is none.
fn id_pieces<'x>(id: Option<&'x str>) -> (Piece<'x>, Piece<'x>)
    ensures { piece_json result.0 ++ piece_json result.1 ≡ id_member (option_copied id.entry) }
{
    match id {
        Some(id) => (Piece::Raw(",\"id\":"), Piece::Text(id)),
        None => (Piece::Raw(""), Piece::Raw("")),
    }
}

/// Appends the members of what is shown.
fn push_shown(s: &mut String, shown: ShownEntry<'_>) -> Result<(), AllocError>
    ensures ok { OnOk result (Appends s.old s.new (shown_entry_members shown.entry)) }
    ensures err { OnErr result (AppendsPart s.old s.new (shown_entry_members shown.entry)) }
{
    let (name, id) = id_pieces(shown.id);
    push_pieces(
        s,
        &[
            Piece::Raw("{\"level\":"),
            Piece::Raw(shown.level),
            Piece::Raw(",\"text\":"),
            Piece::Text(shown.text),
            Piece::Raw(",\"range\":{\"start\":"),
            Piece::Raw(shown.start),
            Piece::Raw(",\"end\":"),
            Piece::Raw(shown.end),
            Piece::Raw("}"),
            name,
            id,
        ],
    )
}

/// Returns the id of an entry, if it has one and its line shows it.
fn shown_id(entry: &Entry, with_ids: bool) -> Option<&str>
    ensures { option_copied result ≡ (if with_ids then (entry_view entry.now).id else None) }
{
    if with_ids { entry.id.as_deref() } else { None }
}

/// Appends the members of an entry, with its id or without it.
fn push_members(s: &mut String, entry: &Entry, with_ids: bool) -> Result<(), AllocError>
    ensures ok { OnOk result
        (Appends s.old s.new (entry_members with_ids (entry_view entry.now))) }
    ensures err { OnErr result
        (AppendsPart s.old s.new (entry_members with_ids (entry_view entry.now))) }
{
    let mut level = Buffer::new();
    let mut start = Buffer::new();
    let mut end = Buffer::new();
    let shown = ShownEntry {
        level: level.format(entry.level),
        text: entry.text.as_str(),
        start: start.format(entry.range.start),
        end: end.format(entry.range.end),
        id: shown_id(entry, with_ids),
    };
    push_shown(s, shown)
}

/// Appends the line of an entry with its place, with its id or without it.
fn push_line(
    s: &mut String,
    entry: &Entry,
    with_ids: bool,
    positions: &Positions<'_>,
) -> Result<(), AllocError>
    ensures ok { OnOk result (Appends s.old s.new
        (placed_entry_line (positions_text positions.now) with_ids (entry_view entry.now))) }
    ensures err { OnErr result (AppendsPart s.old s.new
        (placed_entry_line (positions_text positions.now) with_ids (entry_view entry.now))) }
{
    push_members(s, entry, with_ids)?;
    push_object_end(s, Some(Place::of_range(positions, &entry.range)))
}

/// Appends a line of JSON for each entry of an outline: its level, its text, its range, where `with_ids` its id if it has one,
/// and the lines and the columns of both ends of the range, in the text that the positions are of. If an allocation fails, a
/// prefix of the lines has been appended.
///
/// ```
/// // for the entry of `# A {#a}`, read with heading attributes
/// push_outline_with_places(&mut json, entries.as_slice(), true, &Positions::new(alloc, text)?)?;
/// // {"level":1,"text":"A","range":{"start":0,"end":8},"id":"a","line":1,"column":1,"end_line":1,"end_column":9}
/// ```
pub fn push_outline_with_places(
    s: &mut String,
    entries: &[Entry],
    with_ids: bool,
    positions: &Positions<'_>,
) -> Result<(), AllocError>
    ensures ok { OnOk result (Appends s.old s.new
        (placed_outline_lines (positions_text positions.now) with_ids
        (map entry_view entries.now))) }
    ensures err { OnErr result (AppendsPart s.old s.new
        (placed_outline_lines (positions_text positions.now) with_ids
        (map entry_view entries.now))) }
{
    for entry in entries {
        push_line(s, entry, with_ids, positions)?;
    }
    Ok(())
}
