//! `Place`, the positions of both ends of a range, and the end of a line that may show it.
ghost use Rattle.std.specs.Prelude.{◌≡◌, OnOk, OnErr};
ghost use Rattle.markdown_lint_json.specs.PlaceJson.{object_end, place_between, place_in};
ghost use Rattle.markdown_lint_json.specs.ShownMembers.{digits_between};
ghost use Rattle.markdown_out.specs.StringAppends.{Appends, AppendsPart};
ghost use Rattle.markdown_positions.specs.PositionsOf.{positions_text};

use itoa::Buffer;
use markdown_json::{Piece, push_pieces};
use markdown_positions::{Position, Positions};
use std::alloc::AllocError;
use std::ops::Range;

/// The positions of both ends of a range.
#[derive(Clone, Copy, Debug, Drop)]
pub struct Place {
    pub start: Position,
    pub end: Position,
}

impl Place {
    /// Returns the place of a range, in the text that the positions are of.
    pub fn of_range(positions: &Positions<'_>, range: &Range<usize>) -> Place
        ensures { result ≡ place_in (positions_text positions.now) range.now }
    {
        Place {
            start: positions.look_up(range.start),
            end: positions.look_up(range.end),
        }
    }
}

/// The digits of a place.
#[derive(Clone, Copy, Drop)]
pub(crate) struct Digits<'x> {
    pub line: &'x str,
    pub column: &'x str,
    pub end_line: &'x str,
    pub end_column: &'x str,
}

/// Appends the members of a place, from their digits, between two texts.
fn push_digits<'x>(
    s: &mut String,
    before: &'x str,
    digits: Digits<'x>,
    after: &'x str,
) -> Result<(), AllocError>
    ensures ok { OnOk result
        (Appends s.old s.new (digits_between before.now digits.entry after.now)) }
    ensures err { OnErr result
        (AppendsPart s.old s.new (digits_between before.now digits.entry after.now)) }
{
    push_pieces(
        s,
        &[
            Piece::Raw(before),
            Piece::Raw("\"line\":"),
            Piece::Raw(digits.line),
            Piece::Raw(",\"column\":"),
            Piece::Raw(digits.column),
            Piece::Raw(",\"end_line\":"),
            Piece::Raw(digits.end_line),
            Piece::Raw(",\"end_column\":"),
            Piece::Raw(digits.end_column),
            Piece::Raw(after),
        ],
    )
}

/// Appends the members of a place between two texts. If an allocation fails, a prefix of all this has been appended.
pub(crate) fn push_place(
    s: &mut String,
    before: &str,
    place: Place,
    after: &str,
) -> Result<(), AllocError>
    ensures ok { OnOk result (Appends s.old s.new (place_between before.now place after.now)) }
    ensures err { OnErr result
        (AppendsPart s.old s.new (place_between before.now place after.now)) }
{
    let mut line = Buffer::new();
    let mut column = Buffer::new();
    let mut end_line = Buffer::new();
    let mut end_column = Buffer::new();
    let digits = Digits {
        line: line.format(place.start.line),
        column: column.format(place.start.column),
        end_line: end_line.format(place.end.line),
        end_column: end_column.format(place.end.column),
    };
    push_digits(s, before, digits, after)
}

/// Appends the end of a line that is an object, with the members of a place or without them. If an allocation fails, a
/// prefix of it has been appended.
pub(crate) fn push_object_end(s: &mut String, place: Option<Place>) -> Result<(), AllocError>
    ensures ok { OnOk result (Appends s.old s.new (object_end place)) }
    ensures err { OnErr result (AppendsPart s.old s.new (object_end place)) }
{
    match place {
        Some(place) => push_place(s, ",", place, "}\n"),
        None => push_pieces(s, &[Piece::Raw("}\n")]),
    }
}
