//! Pieces of JSON, written one after another.
ghost use Rattle.std.specs.Prelude.{OnOk, OnErr};
ghost use Rattle.markdown_out.specs.StringAppends.{Appends, AppendsPart};
ghost use Rattle.markdown_json.specs.Json.{string};
ghost use Rattle.markdown_json.specs.JsonPieces.{piece_json, spelled};

use crate::escape::{push_any, push_escaped};
use std::alloc::AllocError;

/// A piece of JSON.
#[derive(Clone, Copy, Drop)]
pub enum Piece<'x> {
    /// A text, written unchanged.
    Raw(&'x str),
    /// A text, written as a string.
    Text(&'x str),
}

/// Appends a text unchanged.
pub(crate) fn push_raw(s: &mut String, text: &str) -> Result<(), AllocError>
    ensures ok { OnOk result (Appends s.old s.new text.now) }
    ensures err { OnErr result (AppendsPart s.old s.new text.now) }
{
    push_any(s, text)
}

/// Appends a text as a string.
fn push_string(s: &mut String, text: &str) -> Result<(), AllocError>
    ensures ok { OnOk result (Appends s.old s.new (string text.now)) }
    ensures err { OnErr result (AppendsPart s.old s.new (string text.now)) }
{
    push_raw(s, "\"")?;
    push_escaped(s, text)?;
    push_raw(s, "\"")
}

/// Appends one piece.
fn push_piece(s: &mut String, piece: Piece<'_>) -> Result<(), AllocError>
    ensures ok { OnOk result (Appends s.old s.new (piece_json piece.entry)) }
    ensures err { OnErr result (AppendsPart s.old s.new (piece_json piece.entry)) }
{
    match piece {
        Piece::Raw(text) => push_raw(s, text),
        Piece::Text(text) => push_string(s, text),
    }
}

/// Appends pieces, one after another. If an allocation fails, a prefix of their bytes has been appended.
pub fn push_pieces(s: &mut String, pieces: &[Piece<'_>]) -> Result<(), AllocError>
    ensures ok { OnOk result (Appends s.old s.new (spelled pieces.now)) }
    ensures err { OnErr result (AppendsPart s.old s.new (spelled pieces.now)) }
{
    for piece in pieces {
        push_piece(s, *piece)?;
    }
    Ok(())
}
