//! The bytes of a text, by byte offset. There are none outside the text.
ghost use Rattle.std.specs.Prelude.{◌≡◌, ◌≤◌, ◌+◌, ◌==◌, length, drop, slice_get, slice_index, slice_range};
ghost use Rattle.std.specs.List.{list_all, prefix_len};
ghost use Rattle.markdown_lines.specs.LineBytes.{IsPartOf, is_parted};
ghost use Rattle.markdown_lines.specs.Lines.{is_space_or_tab};

use crate::line::is_space_or_tab;

/// Returns the byte at an offset, or `None` outside the text.
pub fn byte_at(text: &str, at: usize) -> Option<u8>
    ensures { result ≡ slice_get text.now at }
{
    match text.as_bytes().get(at) {
        Some(byte) => Some(*byte),
        None => None,
    }
}

/// Returns the byte at an index, or 0 where there is none.
pub fn byte_or_zero(bytes: &[u8], at: usize) -> u8
    ensures { result ≡ slice_index bytes.now at }
{
    if at < bytes.len() { bytes[at] } else { 0 }
}

/// Returns the bytes from one offset up to another; none where these are out of order.
pub fn bytes_of(text: &str, from: usize, to: usize) -> &[u8]
    ensures { result.now ≡ slice_range text.now from to }
{
    let bytes = text.as_bytes();
    let end = to.min(bytes.len());
    let start = from.min(end);
    &bytes[start..end]
}

/// Returns the bytes from an index on.
pub fn bytes_from(bytes: &[u8], from: usize) -> &[u8]
    ensures { result.now ≡ drop from bytes.now }
{
    if from < bytes.len() {
        bytes.split_at(from).1
    } else {
        &[]
    }
}

/// Returns the text from one byte offset up to another; an empty one where these are out of order, or not character
/// boundaries.
pub fn part_of(text: &str, from: usize, to: usize) -> &str
    ensures { IsPartOf text.now from to result.now }
{
    if from <= to && text.is_char_boundary(from) && text.is_char_boundary(to) {
        &text[from..to]
    } else {
        ""
    }
}

/// Returns the number of spaces and tabs that the bytes begin with.
pub fn white_length(bytes: &[u8]) -> usize
    ensures value { result ≡ prefix_len is_space_or_tab bytes.now }
    ensures within { result ≤ length bytes.now }
{
    for at in 0..bytes.len() {
        if !is_space_or_tab(bytes[at]) {
            return at;
        }
    }
    bytes.len()
}

/// Returns whether all bytes are spaces and tabs.
pub fn is_white(bytes: &[u8]) -> bool
    ensures { result ≡ list_all is_space_or_tab bytes.now }
{
    for byte in bytes {
        if !is_space_or_tab(*byte) {
            return false;
        }
    }
    true
}

/// Returns whether the bytes begin with a space or a tab, or are empty.
pub fn is_parted(bytes: &[u8]) -> bool
    ensures { result ≡ is_parted bytes.now }
{
    match bytes.first() {
        None => true,
        Some(byte) => is_space_or_tab(*byte),
    }
}

/// Returns the length of the run of a byte that the bytes begin with.
pub fn run_length(bytes: &[u8], byte: u8) -> usize
    ensures value { result ≡ prefix_len (λ b. b == byte) bytes.now }
    ensures within { result ≤ length bytes.now }
{
    for at in 0..bytes.len() {
        if bytes[at] != byte {
            return at;
        }
    }
    bytes.len()
}

/// Returns the offset of the first byte from `from` up to `to` that is neither a space nor a tab, or the end of these
/// bytes.
pub fn content_start(text: &str, from: usize, to: usize) -> usize
    ensures { result ≡ from + prefix_len is_space_or_tab (slice_range text.now from to) }
{
    from.saturating_add(white_length(bytes_of(text, from, to)))
}
