//! `push_outline` and `push_outline_with_ids`: the entries of an outline as JSON, a line for each.
ghost use Rattle.std.specs.Prelude.{◌≡◌, ◌++◌, OnOk, OnErr, flat_map, if◌then◌else◌, map};
ghost use Rattle.std.specs.Option.{option_copied};
ghost use Rattle.markdown_out.specs.StringAppends.{Appends, AppendsPart};
ghost use Rattle.markdown_outline.specs.Outline.{entry_view};
ghost use Rattle.markdown_text_json.specs.OutlineJson.{entry_line, entry_parts, id_member, outline_lines};
ghost use Rattle.markdown_text_json.specs.OutlineJson.{outline_lines_with_ids};
ghost use Rattle.markdown_json.specs.JsonPieces.{piece_json};

use itoa::Buffer;
use markdown_json::{Piece, push_pieces};
use markdown_outline::Entry;
use std::alloc::AllocError;

/// What the line of an entry shows: the digits of its numbers, its text and its id.
#[derive(Clone, Copy, Drop)]
struct Shown<'x> {
    level: &'x str,
    text: &'x str,
    start: &'x str,
    end: &'x str,
    id: Option<&'x str>,
}

/// Returns the name and the value of the member of an id, or two empty pieces where there is none.
fn id_member<'x>(id: Option<&'x str>) -> (Piece<'x>, Piece<'x>)
    ensures { piece_json result.0 ++ piece_json result.1 ≡ id_member (option_copied id.entry) }
{
    match id {
        Some(id) => (Piece::Raw(",\"id\":"), Piece::Text(id)),
        None => (Piece::Raw(""), Piece::Raw("")),
    }
}

/// Appends a line.
fn push_shown(s: &mut String, shown: Shown<'_>) -> Result<(), AllocError>
    ensures ok { let e = shown.entry in OnOk result (Appends s.old s.new
        (entry_parts e.level.now e.text.now e.start.now e.end.now (option_copied e.id))) }
    ensures err { let e = shown.entry in OnErr result (AppendsPart s.old s.new
        (entry_parts e.level.now e.text.now e.start.now e.end.now (option_copied e.id))) }
{
    let (name, id) = id_member(shown.id);
    push_pieces(
        s,
        &[
            Piece::Raw("{\"level\":"),
            Piece::Raw(shown.level),
            Piece::Raw(",\"text\":"),
            Piece::Text(shown.text),
            Piece::Raw(",\"range\":{\"start\":"),
            Piece::Raw(shown.start),
            Piece::Raw(",\"end\":"),
            Piece::Raw(shown.end),
            Piece::Raw("}"),
            name,
            id,
            Piece::Raw("}\n"),
        ],
    )
}

/// Returns the id of an entry, if it has one and its line shows it.
fn shown_id(entry: &Entry, with_ids: bool) -> Option<&str>
    ensures { option_copied result ≡ (if with_ids then (entry_view entry.now).id else None) }
{
    if with_ids { entry.id.as_deref() } else { None }
}

/// Appends the line of an entry, with its id or without it.
fn push_entry(s: &mut String, entry: &Entry, with_ids: bool) -> Result<(), AllocError>
    ensures ok { OnOk result (Appends s.old s.new (entry_line with_ids (entry_view entry.now))) }
    ensures err { OnErr result
        (AppendsPart s.old s.new (entry_line with_ids (entry_view entry.now))) }
{
    let mut level = Buffer::new();
    let mut start = Buffer::new();
    let mut end = Buffer::new();
    let shown = Shown {
        level: level.format(entry.level),
        text: entry.text.as_str(),
        start: start.format(entry.range.start),
        end: end.format(entry.range.end),
        id: shown_id(entry, with_ids),
    };
    push_shown(s, shown)
}

/// Appends a line for each entry, with the ids or without them.
fn push_lines(s: &mut String, entries: &[Entry], with_ids: bool) -> Result<(), AllocError>
    ensures ok { OnOk result
        (Appends s.old s.new (flat_map (entry_line with_ids) (map entry_view entries.now))) }
    ensures err { OnErr result
        (AppendsPart s.old s.new (flat_map (entry_line with_ids) (map entry_view entries.now))) }
{
    for entry in entries {
        push_entry(s, entry, with_ids)?;
    }
    Ok(())
}

/// Appends a line of JSON for each entry of an outline: its level, its text and its range. If an allocation
/// fails, a prefix of the lines has been appended.
///
/// ```
/// let mut json = String::new(alloc);
/// let entries = outline(alloc, Parser::new(alloc, "# A *b*")?.into_offset_iter())?;
/// push_outline(&mut json, entries.as_slice())?;
/// // {"level":1,"text":"A b","range":{"start":0,"end":7}}
/// ```
pub fn push_outline(s: &mut String, entries: &[Entry]) -> Result<(), AllocError>
    ensures ok { OnOk result (Appends s.old s.new (outline_lines (map entry_view entries.now))) }
    ensures err { OnErr result
        (AppendsPart s.old s.new (outline_lines (map entry_view entries.now))) }
{
    push_lines(s, entries, false)
}

/// Appends the lines of `push_outline` with one more member, the id, at the end of the line of each entry that has one. If
/// an allocation fails, a prefix of the lines has been appended.
///
/// ```
/// // for the entry of `# A {#a}`, read with heading attributes
/// push_outline_with_ids(&mut json, entries.as_slice())?;
/// // {"level":1,"text":"A","range":{"start":0,"end":8},"id":"a"}
/// ```
pub fn push_outline_with_ids(s: &mut String, entries: &[Entry]) -> Result<(), AllocError>
    ensures ok { OnOk result
        (Appends s.old s.new (outline_lines_with_ids (map entry_view entries.now))) }
    ensures err { OnErr result
        (AppendsPart s.old s.new (outline_lines_with_ids (map entry_view entries.now))) }
{
    push_lines(s, entries, true)
}
