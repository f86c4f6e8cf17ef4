//! Pieces of HTML, which are written one after another.
ghost use Rattle.std.specs.Prelude.{◌≡◌, ◌++◌, OnOk, OnErr, drop};
ghost use Rattle.std.specs.String.{string_bytes};
ghost use Rattle.markdown_out.specs.ByteLists.{fresh_after_bytes};
ghost use Rattle.markdown_out.specs.StringAppends.{Appends, AppendsPart};
ghost use Rattle.markdown_out.specs.Escapes.{text_escaped};
ghost use Rattle.markdown_out.specs.TagHtml.{new_line};
ghost use Rattle.markdown_out.specs.Writer.{spelled, piece_bytes};

use super::Piece;
use crate::escape::{Escape, push_any, push_destination, push_escaped};
use std::alloc::AllocError;

/// Returns a newline, or nothing where the line is fresh.
pub(super) fn line_break(fresh: bool) -> &'static str
    ensures { result.now ≡ new_line fresh }
{
    if fresh { "" } else { "\n" }
}

/// Returns a text as three pieces, two of them empty. It is written as it is.
pub(super) fn alone(text: &str) -> [Piece<'_>; 3]
    ensures { spelled result ≡ text.now }
{
    [Piece::Raw(""), Piece::Raw(""), Piece::Raw(text)]
}

/// Appends one piece.
// inlined with its callers: which pieces there are is then known, and none is stored to be read back
#[inline(always)]
fn push_piece(s: &mut String, piece: Piece<'_>) -> Result<(), AllocError>
    ensures ok { OnOk result (Appends s.old s.new (piece_bytes piece.entry)) }
    ensures err { OnErr result (AppendsPart s.old s.new (piece_bytes piece.entry)) }
{
    match piece {
        Piece::Raw(text) => push_any(s, text),
        Piece::Text(text) => push_escaped(s, Escape::Text, text),
        Piece::Attribute(text) => push_escaped(s, Escape::Attribute, text),
        Piece::Destination(text) => push_destination(s, text),
    }
}

/// Appends the pieces in their order.
#[inline(always)]
pub(super) fn push_pieces(s: &mut String, pieces: &[Piece<'_>]) -> Result<(), AllocError>
    ensures ok { OnOk result (Appends s.old s.new (spelled pieces.now)) }
    ensures err { OnErr result (AppendsPart s.old s.new (spelled pieces.now)) }
{
    for piece in pieces {
        push_piece(s, *piece)?;
    }
    Ok(())
}

/// Returns whether the line is fresh after the bytes from `start` on: whether they end with a newline, and `before`
/// where there are none.
fn is_fresh_after(bytes: &[u8], start: usize, before: bool) -> bool
    ensures { result ≡ fresh_after_bytes before (drop start bytes.now) }
{
    if start < bytes.len() {
        bytes[bytes.len() - 1] == b'\n'
    } else {
        before
    }
}

/// Appends the pieces, and updates `fresh`.
#[inline(always)]
pub(super) fn put(s: &mut String, fresh: &mut bool, pieces: &[Piece<'_>]) -> Result<(), AllocError>
    ensures ok { OnOk result (Appends s.old s.new (spelled pieces.now)) }
    ensures fresh { OnOk result (fresh.new ≡ fresh_after_bytes fresh.old (spelled pieces.now)) }
    ensures err { OnErr result (AppendsPart s.old s.new (spelled pieces.now)) }
{
    let start = s.as_bytes().len();
    push_pieces(s, pieces)?;
    *fresh = is_fresh_after(s.as_bytes(), start, *fresh);
    Ok(())
}

/// Appends a text as it is, and updates `fresh`.
pub(super) fn put_raw(s: &mut String, fresh: &mut bool, text: &str) -> Result<(), AllocError>
    ensures ok { OnOk result (Appends s.old s.new text.now) }
    ensures fresh { OnOk result (fresh.new ≡ fresh_after_bytes fresh.old text.now) }
    ensures err { OnErr result (AppendsPart s.old s.new text.now) }
{
    push_any(s, text)?;
    *fresh = is_fresh_after(text.as_bytes(), 0, *fresh);
    Ok(())
}

/// Appends running text, escaped, and updates `fresh`.
pub(super) fn put_text(s: &mut String, fresh: &mut bool, text: &str) -> Result<(), AllocError>
    ensures ok { OnOk result (Appends s.old s.new (text_escaped text.now)) }
    ensures fresh { OnOk result (fresh.new ≡ fresh_after_bytes fresh.old (text_escaped text.now)) }
    ensures err { OnErr result (AppendsPart s.old s.new (text_escaped text.now)) }
{
    let start = s.as_bytes().len();
    push_escaped(s, Escape::Text, text)?;
    *fresh = is_fresh_after(s.as_bytes(), start, *fresh);
    Ok(())
}
