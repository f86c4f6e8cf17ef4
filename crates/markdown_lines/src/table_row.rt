//! The rows of tables: how a line is cut into cells, and the delimiter row.
ghost use Rattle.std.specs.Prelude.{◌≡◌, ℕ, ◌≤◌, ◌<◌, ◌==◌, ◌∷◌, ◌+◌, ◌-◌, [], false, nat_lt, length, codes};
ghost use Rattle.std.specs.Prelude.{IfOk, IfSome, MatchOption, slice_index};
ghost use Rattle.std.specs.List.{list_any, prefix_len, suffix_len};
ghost use Rattle.std.specs.Option.{option_map};
ghost use Rattle.markdown_base.specs.Bytes.{pipe};
ghost use Rattle.markdown_scan.specs.Beginnings.{begins_with};
ghost use Rattle.markdown_lines.specs.TableRows as spec;

use crate::bytes::{byte_or_zero, bytes_from, bytes_of, run_length};
use crate::line::is_space_or_tab;
use markdown_base::byte_tests::holds;
use markdown_base::tag::Alignment;
use std::alloc::{AllocError, Global};

/// A cell of a row, by byte offsets in the text: it extends from `start` up to `end`, and its content, without the white
/// space around it, from `from` up to `to`.
#[derive(Clone, Copy, Drop)]
pub struct Cell {
    pub start: usize,
    pub end: usize,
    pub from: usize,
    pub to: usize,
}

/// Returns whether a byte is white space in rows: a space, a tab, a vertical tab or a form feed.
fn is_row_white(byte: u8) -> bool
    ensures { result ≡ spec.is_row_white byte }
{
    is_space_or_tab(byte) || byte == 11 || byte == 12
}

/// Returns the number of bytes of white space that the bytes begin with.
fn row_white_length(bytes: &[u8]) -> usize
    ensures value { result ≡ prefix_len spec.is_row_white bytes.now }
    ensures within { result ≤ length bytes.now }
{
    for at in 0..bytes.len() {
        if !is_row_white(bytes[at]) {
            return at;
        }
    }
    bytes.len()
}

/// Returns the length of the bytes without the white space at their end.
fn row_trimmed_length(bytes: &[u8]) -> usize
    ensures value { result ≡ length bytes.now - suffix_len spec.is_row_white bytes.now }
    ensures within { result ≤ length bytes.now }
{
    let mut end = bytes.len();
    'trim: while end > 0 && is_row_white(bytes[end - 1]) {
        end -= 1;
    }
    end
}

/// Returns whether the byte at an index cuts the row. A `|` is before the bytes.
#[inline(always)]
fn is_cut_at(bytes: &[u8], at: usize) -> bool
    requires { at < length bytes.now }
    ensures { result
        ≡ spec.is_cut (slice_index (pipe ∷ bytes.now) at) (slice_index bytes.now at) }
{
    bytes[at] == b'|' && (at == 0 || bytes[at - 1] != b'\\')
}

/// The number of bytes that are tested together, without a branch for each.
const TOGETHER: usize = 16;

/// Returns a number of bytes at the beginning of which none is a `|`.
#[inline(always)]
fn unpiped_length(bytes: &[u8]) -> usize
    ensures none { (at : ℕ) → at < result → (slice_index bytes.now at == pipe) ≡ false }
    ensures within { result ≤ length bytes.now }
{
    let mut at = 0;
    'together: while bytes.len() - at >= TOGETHER && !holds(&bytes[at..at + TOGETHER], b'|') {
        at += TOGETHER;
    }
    at
}

/// Returns the number of bytes before the first that cuts the row, or that of all bytes. A `|` is before them.
#[inline(always)]
fn part_length(bytes: &[u8]) -> usize
    ensures { spec.IsPart bytes.now result }
{
    for at in unpiped_length(bytes)..bytes.len() {
        if is_cut_at(bytes, at) {
            return at;
        }
    }
    bytes.len()
}

/// Returns whether a `|` cuts the row that the bytes are.
pub fn has_cut(bytes: &[u8]) -> bool
    ensures { result ≡ spec.has_cut bytes.now }
{
    part_length(bytes) < bytes.len()
}

/// Returns the byte offset at which the first cell of the row begins that is in a line from `at` on, whose content ends
/// before `stop`: after a `|` that the row begins with.
pub fn cells_start(text: &str, at: usize, stop: usize) -> usize
    ensures { spec.cells_left text.now result stop ≡ spec.row_cells_at text.now at stop }
{
    if byte_or_zero(bytes_of(text, at, stop), 0) == b'|' {
        at.saturating_add(1)
    } else {
        at
    }
}

/// Returns the cell that begins at the byte offset `at`, in a line whose content ends before `stop`; `None` where only
/// white space is left. The next cell begins after the byte at its end.
// inlined: it is called for each cell
#[inline(always)]
pub fn next_cell(text: &str, at: usize, stop: usize) -> Option<Cell>
    ensures value { MatchOption result
        (spec.cells_left text.now at stop ≡ [])
        (λ cell. spec.cells_left text.now at stop
        ≡ cell ∷ spec.cells_left text.now (cell.end + 1) stop) }
    ensures within { IfSome result (λ cell. (at ≤ cell.end) × (cell.end ≤ length text.now)) }
{
    let rest = bytes_of(text, at, stop);
    let blank = row_white_length(rest);
    if blank == rest.len() {
        return None;
    }
    let length = part_length(rest);
    let part = &rest[..length];
    let white = blank.min(length);
    let from = at.saturating_add(white);
    Some(Cell {
        start: at,
        end: at.saturating_add(length),
        from,
        to: from.saturating_add(row_trimmed_length(bytes_from(part, white))),
    })
}

/// Returns whether the row from byte offset `at` on has a cell, in a line whose content ends before `stop`.
pub fn has_cell(text: &str, at: usize, stop: usize) -> bool
    ensures { result ≡ nat_lt 0 (length (spec.row_cells_at text.now at stop)) }
{
    let rest = bytes_of(text, cells_start(text, at, stop), stop);
    row_white_length(rest) < rest.len()
}

/// Returns the number of cells of the row from byte offset `at` on, in a line whose content ends before `stop`.
pub fn count_cells(text: &str, at: usize, stop: usize) -> usize
    ensures { result ≡ length (spec.row_cells_at text.now at stop) }
{
    let mut count: usize = 0;
    let mut start = cells_start(text, at, stop);
    'cells: while let Some(cell) = next_cell(text, start, stop) {
        count += 1;
        start = cell.end + 1;
    }
    count
}

/// Returns whether a byte is one of which a delimiter row has one at least.
fn is_delimiter_mark(byte: u8) -> bool
    ensures { result ≡ spec.is_delimiter_mark byte }
{
    byte == b'|' || byte == b':'
}

/// Returns whether some byte is one of which a delimiter row has one at least.
fn has_delimiter_mark(bytes: &[u8]) -> bool
    ensures { result ≡ list_any spec.is_delimiter_mark bytes.now }
{
    for byte in bytes {
        if is_delimiter_mark(*byte) {
            return true;
        }
    }
    false
}

/// Returns whether the bytes begin with a colon.
fn begins_with_colon(bytes: &[u8]) -> bool
    ensures { result ≡ begins_with (codes ":") bytes.now }
{
    bytes.starts_with(b":")
}

/// Returns the bytes without a colon at their beginning.
fn past_colon(bytes: &[u8]) -> &[u8]
    ensures { result.now ≡ spec.past_colon bytes.now }
{
    if begins_with_colon(bytes) {
        bytes_from(bytes, 1)
    } else {
        bytes
    }
}

/// Returns the alignment by colons before and after the hyphens.
fn alignment_by(before: bool, after: bool) -> Alignment
    ensures { result ≡ spec.alignment_by before after }
{
    match (before, after) {
        (false, false) => Alignment::None,
        (true, false) => Alignment::Left,
        (false, true) => Alignment::Right,
        (true, true) => Alignment::Center,
    }
}

/// Returns the alignment that the content of a delimiter cell stands for: one or more hyphens, with at most one colon
/// on each side; `None` of other content.
fn cell_alignment(content: &[u8]) -> Option<Alignment>
    ensures { result ≡ spec.cell_alignment content.now }
{
    let hyphens = past_colon(content);
    let count = run_length(hyphens, b'-');
    let after = bytes_from(hyphens, count);
    if count == 0 || !past_colon(after).is_empty() {
        return None;
    }
    Some(alignment_by(begins_with_colon(content), begins_with_colon(after)))
}

/// Returns the alignments of the delimiter row from byte offset `at` on, in a line whose content ends before `stop`: a
/// row of one or more cells, each of hyphens and at most one colon on each side, with a `|` or a colon somewhere. `None`
/// where it is none. Fails if an allocation fails.
pub fn delimiter_row(
    alloc: Global,
    text: &str,
    at: usize,
    stop: usize,
) -> Result<Option<Vec<Alignment>>, AllocError>
    ensures { IfOk result (λ found. option_map (λ alignments. alignments.items) found
        ≡ spec.delimiter_row_at text.now at stop) }
{
    if !has_delimiter_mark(bytes_of(text, at, stop)) {
        return Ok(None);
    }
    let mut alignments = Vec::new(alloc);
    let mut start = cells_start(text, at, stop);
    'cells: while let Some(cell) = next_cell(text, start, stop) {
        match cell_alignment(bytes_of(text, cell.from, cell.to)) {
            Some(alignment) => alignments.push(alignment)?,
            None => return Ok(None),
        }
        start = cell.end + 1;
    }
    if alignments.is_empty() {
        Ok(None)
    } else {
        Ok(Some(alignments))
    }
}

/// Returns whether bytes begin with two backslashes and a `|`.
fn is_escaped_pair(bytes: &[u8]) -> bool
    ensures { result ≡ begins_with (codes "\\\\|") bytes.now }
{
    bytes.starts_with(b"\\\\|")
}

/// Returns the number of bytes of a cell's content before the first two backslashes that are both in no item, since the
/// first escapes the second, which is directly before a `|`; or that of all bytes, where there are no such two.
pub fn piece_length(bytes: &[u8]) -> usize
    ensures value { result ≡ spec.piece_length bytes.now }
    ensures within { result ≤ length bytes.now }
{
    let mut at = 0;
    'escapes: while at < bytes.len() {
        if bytes[at] != b'\\' || at + 1 == bytes.len() {
            at += 1;
        } else if is_escaped_pair(bytes_from(bytes, at)) {
            return at;
        } else {
            at += 2;
        }
    }
    bytes.len()
}
