//! The links and images of a text as JSON, a line for each.
ghost use Rattle.std.specs.Prelude.{◌≡◌, IfOk, IfErr, OnOk, OnErr, string_bytes};
ghost use Rattle.markdown_base.specs.Source.{source_as};
ghost use Rattle.markdown_links.specs.LinkList.{list_entries, shown_link};
ghost use Rattle.markdown_lint_json.specs.LinkJson.{kind_json, link_line, link_lines, link_members};
ghost use Rattle.markdown_lint_json.specs.LinkJson.{links_json_of_text, placed_link_lines};
ghost use Rattle.markdown_lint_json.specs.ShownMembers.{shown_link_members};
ghost use Rattle.markdown_out.specs.StringAppends.{Appends, AppendsPart};
ghost use Rattle.markdown_positions.specs.PositionsOf.{positions_text};

use crate::place::{Place, push_object_end};
use itoa::Buffer;
use markdown_base::fault::Fault;
use markdown_base::syntax::Syntax;
use markdown_json::{Piece, link_type_text, push_pieces};
use markdown_links::{Link, LinkList, links_source};
use markdown_positions::Positions;
use std::alloc::{AllocError, Global};

/// Returns the value of `kind`.
fn kind_text(is_image: bool) -> &'static str
    ensures { result.now ≡ kind_json is_image }
{
    if is_image { "\"image\"" } else { "\"link\"" }
}

/// What the line of a link or an image shows: the JSON of its kind and its type, its texts, and the digits of its range.
#[derive(Clone, Copy, Drop)]
pub(crate) struct ShownLink<'x> {
    pub kind: &'x str,
    pub link_type: &'x str,
    pub dest_url: &'x str,
    pub title: &'x str,
    pub id: &'x str,
    pub text: &'x str,
    pub start: &'x str,
    pub end: &'x str,
}

/// Appends the members of what is shown.
fn push_shown(s: &mut String, shown: ShownLink<'_>) -> Result<(), AllocError>
    ensures ok { OnOk result (Appends s.old s.new (shown_link_members shown.entry)) }
    ensures err { OnErr result (AppendsPart s.old s.new (shown_link_members shown.entry)) }
{
    push_pieces(
        s,
        &[
            Piece::Raw("{\"kind\":"),
            Piece::Raw(shown.kind),
            Piece::Raw(",\"link_type\":"),
            Piece::Raw(shown.link_type),
            Piece::Raw(",\"dest_url\":"),
            Piece::Text(shown.dest_url),
            Piece::Raw(",\"title\":"),
            Piece::Text(shown.title),
            Piece::Raw(",\"id\":"),
            Piece::Text(shown.id),
            Piece::Raw(",\"text\":"),
            Piece::Text(shown.text),
            Piece::Raw(",\"range\":{\"start\":"),
            Piece::Raw(shown.start),
            Piece::Raw(",\"end\":"),
            Piece::Raw(shown.end),
            Piece::Raw("}"),
        ],
    )
}

/// Appends the members of a link or an image.
fn push_members(s: &mut String, link: &Link<'_>) -> Result<(), AllocError>
    ensures ok { OnOk result (Appends s.old s.new (link_members (shown_link link.now))) }
    ensures err { OnErr result (AppendsPart s.old s.new (link_members (shown_link link.now))) }
{
    let mut start = Buffer::new();
    let mut end = Buffer::new();
    let shown = ShownLink {
        kind: kind_text(link.is_image),
        link_type: link_type_text(link.link_type),
        dest_url: link.dest_url,
        title: link.title,
        id: link.id,
        text: link.text,
        start: start.format(link.range.start),
        end: end.format(link.range.end),
    };
    push_shown(s, shown)
}

/// Appends the line of a link or an image, with the place of its range or without it.
fn push_line(s: &mut String, link: &Link<'_>, place: Option<Place>) -> Result<(), AllocError>
    ensures ok { OnOk result (Appends s.old s.new (link_line (shown_link link.now) place)) }
    ensures err { OnErr result (AppendsPart s.old s.new (link_line (shown_link link.now) place)) }
{
    push_members(s, link)?;
    push_object_end(s, place)
}

/// Appends a line of JSON for each link and each image. If an allocation fails, a prefix of the lines has been appended.
///
/// ```
/// let mut json = String::new(alloc);
/// push_links(&mut json, &links_source(alloc, "[a](b)", syntax)?)?;
/// // {"kind":"link","link_type":"Inline","dest_url":"b","title":"","id":"","text":"a","range":{"start":0,"end":6}}
/// ```
pub fn push_links(s: &mut String, list: &LinkList) -> Result<(), AllocError>
    ensures ok { OnOk result (Appends s.old s.new (link_lines (list_entries list.now))) }
    ensures err { OnErr result (AppendsPart s.old s.new (link_lines (list_entries list.now))) }
{
    for i in 0..list.len() {
        if let Some(link) = list.get(i) {
            push_line(s, &link, None)?;
        }
    }
    Ok(())
}

/// Appends the lines of `push_links` with four more members: the lines and the columns of both ends of the range, in the
/// text that the positions are of. If an allocation fails, a prefix of the lines has been appended.
///
/// ```
/// let list = links_source(alloc, text, syntax)?;
/// push_links_with_places(&mut json, &list, &Positions::new(alloc, text)?)?;
/// // {"kind":"link", .. ,"range":{"start":0,"end":6},"line":1,"column":1,"end_line":1,"end_column":7}
/// ```
pub fn push_links_with_places(
    s: &mut String,
    list: &LinkList,
    positions: &Positions<'_>,
) -> Result<(), AllocError>
    ensures ok { OnOk result (Appends s.old s.new
        (placed_link_lines (positions_text positions.now) (list_entries list.now))) }
    ensures err { OnErr result (AppendsPart s.old s.new
        (placed_link_lines (positions_text positions.now) (list_entries list.now))) }
{
    for i in 0..list.len() {
        if let Some(link) = list.get(i) {
            let place = Place::of_range(positions, &link.range);
            push_line(s, &link, Some(place))?;
        }
    }
    Ok(())
}

/// Returns a line of JSON for each link and each image of a text of which `syntax` is read, in the order of their Starts:
/// its kind, how it is written, where it leads, its title, its label, its text without markup, and its range of byte
/// offsets in the text. There is no callback: a link label without a reference definition stays text.
///
/// # Errors
///
/// `Memory` if an allocation fails; there is no other error.
pub fn links_json_source(alloc: Global, text: &str, syntax: Syntax) -> Result<String, Fault>
    ensures json { IfOk result (λ json.
        string_bytes json ≡ links_json_of_text (source_as syntax text.now)) }
    ensures refused { IfErr result (λ fault. fault ≡ Fault.Memory) }
{
    let list = links_source(alloc, text, syntax)?;
    let mut json = String::new(alloc);
    push_links(&mut json, &list)?;
    Ok(json)
}
