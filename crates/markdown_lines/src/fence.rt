//! Code fences (CommonMark 4.5).
ghost use Rattle.std.specs.Prelude.{◌≡◌};
ghost use Rattle.std.specs.List.{list_any};
ghost use Rattle.markdown_lines.specs.CodeFences.{is_backtick, opens_fence, opening_fence_at, closes_fence};

use crate::atx_heading::trimmed_length;
use crate::bytes::{bytes_of, is_white, run_length, white_length};

/// An opening code fence: its character, its length in bytes, and the columns of space before it.
#[derive(Clone, Copy, Drop)]
pub struct Fence {
    pub byte: u8,
    pub length: usize,
    pub indent: usize,
}

/// An opening code fence, and its info string, from byte offset `from` up to `to`.
#[derive(Clone, Copy, Drop)]
pub struct OpeningFence {
    pub fence: Fence,
    pub from: usize,
    pub to: usize,
}

/// Returns whether there is a backtick among the bytes.
fn holds_backtick(bytes: &[u8]) -> bool
    ensures { result ≡ list_any is_backtick bytes.now }
{
    for byte in bytes {
        if *byte == b'`' {
            return true;
        }
    }
    false
}

/// Returns whether `length` bytes of a character are an opening fence before this rest of their line.
fn opens_fence(byte: u8, length: usize, rest: &[u8]) -> bool
    ensures { result ≡ opens_fence byte length rest.now }
{
    length >= 3 && (byte != b'`' || !holds_backtick(rest))
}

/// Returns the opening fence of `byte`, a backtick or a tilde, at byte offset `at` in a line whose content ends before
/// `stop`: at least three of these bytes. The info string of a fence of backticks must not contain a backtick. `indent`
/// is the number of columns of space before the fence, and is only stored.
pub fn opening_fence(
    text: &str,
    at: usize,
    stop: usize,
    byte: u8,
    indent: usize,
) -> Option<OpeningFence>
    ensures { result ≡ opening_fence_at text.now at stop byte indent }
{
    let line = bytes_of(text, at, stop);
    let length = run_length(line, byte);
    let rest = &line[length..];
    if !opens_fence(byte, length, rest) {
        return None;
    }
    let white = white_length(rest);
    let from = at.saturating_add(length).saturating_add(white);
    Some(OpeningFence {
        fence: Fence {
            byte,
            length,
            indent,
        },
        from,
        to: from.saturating_add(trimmed_length(&rest[white..])),
    })
}

/// Returns whether there is a closing fence of the opening one's code block at byte offset `at` in a line whose content
/// ends before `stop`: a run of the same character, at least as long, with only spaces and tabs after it.
pub fn is_closing_fence(text: &str, at: usize, stop: usize, opening: Fence) -> bool
    ensures { result ≡ closes_fence text.now at stop opening }
{
    let line = bytes_of(text, at, stop);
    let length = run_length(line, opening.byte);
    length >= opening.length && is_white(&line[length..])
}
