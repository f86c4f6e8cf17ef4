//! The references of a text whose link label no definition has, as JSON, a line for each.
ghost use Rattle.std.specs.Prelude.{◌≡◌, IfOk, IfErr, OnOk, OnErr, map};
ghost use Rattle.markdown_base.specs.Source.{source_as};
ghost use Rattle.markdown_defs.specs.CallbackViews.{question_of};
ghost use Rattle.markdown_json.specs.Json.{boolean};
ghost use Rattle.markdown_lint_json.specs.BrokenJson.{broken_link_line, broken_lines, broken_members, broken_of_text};
ghost use Rattle.markdown_lint_json.specs.BrokenJson.{is_image_in, placed_broken_lines};
ghost use Rattle.markdown_lint_json.specs.ShownMembers.{shown_broken_members};
ghost use Rattle.markdown_out.specs.StringAppends.{Appends, AppendsPart};
ghost use Rattle.markdown_positions.specs.PositionsOf.{positions_text};

use crate::asked::Asked;
use crate::place::{Place, push_object_end};
use itoa::Buffer;
use markdown_base::fault::Fault;
use markdown_base::syntax::Syntax;
use markdown_defs::BrokenLink;
use markdown_inline::walk::Parser;
use markdown_json::{Piece, link_type_text, push_pieces};
use markdown_positions::Positions;
use std::alloc::{AllocError, Global};

/// Returns whether a reference in a text is that of an image.
fn is_image(text: &str, link: &BrokenLink<'_>) -> bool
    ensures { result ≡ is_image_in text.now (question_of link.now) }
{
    match text.as_bytes().get(link.span.start) {
        Some(byte) => *byte == b'!',
        None => false,
    }
}

/// Returns a truth value as JSON.
fn boolean_text(value: bool) -> &'static str
    ensures { result.now ≡ boolean value }
{
    if value { "true" } else { "false" }
}

/// What the line of a reference shows: the JSON of its type and of whether it is an image, its label, and the digits of its
/// range.
#[derive(Clone, Copy, Drop)]
pub(crate) struct ShownBroken<'x> {
    pub link_type: &'x str,
    pub image: &'x str,
    pub reference: &'x str,
    pub start: &'x str,
    pub end: &'x str,
}

/// Appends the members of what is shown.
fn push_shown(s: &mut String, shown: ShownBroken<'_>) -> Result<(), AllocError>
    ensures ok { OnOk result (Appends s.old s.new (shown_broken_members shown.entry)) }
    ensures err { OnErr result (AppendsPart s.old s.new (shown_broken_members shown.entry)) }
{
    push_pieces(
        s,
        &[
            Piece::Raw("{\"link_type\":"),
            Piece::Raw(shown.link_type),
            Piece::Raw(",\"image\":"),
            Piece::Raw(shown.image),
            Piece::Raw(",\"reference\":"),
            Piece::Text(shown.reference),
            Piece::Raw(",\"range\":{\"start\":"),
            Piece::Raw(shown.start),
            Piece::Raw(",\"end\":"),
            Piece::Raw(shown.end),
            Piece::Raw("}"),
        ],
    )
}

/// Appends the members of a reference in a text.
fn push_members(s: &mut String, text: &str, link: &BrokenLink<'_>) -> Result<(), AllocError>
    ensures ok { OnOk result
        (Appends s.old s.new (broken_members text.now (question_of link.now))) }
    ensures err { OnErr result
        (AppendsPart s.old s.new (broken_members text.now (question_of link.now))) }
{
    let mut start = Buffer::new();
    let mut end = Buffer::new();
    let shown = ShownBroken {
        link_type: link_type_text(link.link_type),
        image: boolean_text(is_image(text, link)),
        reference: link.reference.as_str(),
        start: start.format(link.span.start),
        end: end.format(link.span.end),
    };
    push_shown(s, shown)
}

/// Appends the line of a reference in a text, with the place of its range or without it.
fn push_line(
    s: &mut String,
    text: &str,
    link: &BrokenLink<'_>,
    place: Option<Place>,
) -> Result<(), AllocError>
    ensures ok { OnOk result
        (Appends s.old s.new (broken_link_line text.now (question_of link.now) place)) }
    ensures err { OnErr result
        (AppendsPart s.old s.new (broken_link_line text.now (question_of link.now) place)) }
{
    push_members(s, text, link)?;
    push_object_end(s, place)
}

/// Appends a line of JSON for each of these references in a text. If an allocation fails, a prefix of the lines has been
/// appended.
///
/// ```
/// let mut json = String::new(alloc);
/// push_broken(&mut json, "[a][b]", broken_source(alloc, "[a][b]", syntax)?.as_slice())?;
/// // {"link_type":"Reference","image":false,"reference":"b","range":{"start":0,"end":6}}
/// ```
pub fn push_broken(s: &mut String, text: &str, links: &[BrokenLink<'_>]) -> Result<(), AllocError>
    ensures ok { OnOk result
        (Appends s.old s.new (broken_lines text.now (map question_of links.now))) }
    ensures err { OnErr result
        (AppendsPart s.old s.new (broken_lines text.now (map question_of links.now))) }
{
    for link in links {
        push_line(s, text, link, None)?;
    }
    Ok(())
}

/// Appends the lines of `push_broken` with four more members: the lines and the columns of both ends of the range. The
/// positions must be those of the text. If an allocation fails, a prefix of the lines has been appended.
///
/// ```
/// let links = broken_source(alloc, text, syntax)?;
/// push_broken_with_places(&mut json, text, links.as_slice(), &Positions::new(alloc, text)?)?;
/// // {"link_type":"Reference", .. ,"range":{"start":0,"end":6},"line":1,"column":1,"end_line":1,"end_column":7}
/// ```
pub fn push_broken_with_places(
    s: &mut String,
    text: &str,
    links: &[BrokenLink<'_>],
    positions: &Positions<'_>,
) -> Result<(), AllocError>
    requires of_text { positions_text positions.now ≡ text.now }
    ensures ok { OnOk result
        (Appends s.old s.new (placed_broken_lines text.now (map question_of links.now))) }
    ensures err { OnErr result
        (AppendsPart s.old s.new (placed_broken_lines text.now (map question_of links.now))) }
{
    for link in links {
        let place = Place::of_range(positions, &link.span);
        push_line(s, text, link, Some(place))?;
    }
    Ok(())
}

/// Returns the references of a text, of which `syntax` is read, whose link label no definition has, in the order in which
/// the parser looks the labels up. The range of one is that of the reference, in bytes, without the `[]` of a collapsed
/// one; `[ ]`, escaped brackets and footnotes are none.
///
/// # Errors
///
/// `Memory` if an allocation fails; there is no other error.
pub fn broken_source<'a>(
    alloc: Global,
    text: &'a str,
    syntax: Syntax,
) -> Result<Vec<BrokenLink<'a>>, Fault>
    ensures links { IfOk result (λ links.
        map question_of links.items ≡ broken_of_text (source_as syntax text.entry.now)) }
    ensures refused { IfErr result (λ fault. fault ≡ Fault.Memory) }
{
    let parser = Parser::of_source(alloc, text, syntax, Some(Asked::nothing(alloc)))?;
    let (events, asked) = parser.into_offset_iter().into_events()?;
    drop(events);
    match asked {
        Some(asked) => asked.links(),
        None => Ok(Vec::new(alloc)),
    }
}
