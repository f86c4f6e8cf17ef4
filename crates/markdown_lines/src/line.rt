//! The lines of a text: where they end, and where their content begins and ends (CommonMark 2.1, 2.2).
ghost use Rattle.std.specs.Prelude.{◌≡◌, ◌<◌, ◌≤◌, ◌==◌, true, false, length};
ghost use Rattle.std.specs.Str.{IsCharBoundary};
ghost use Rattle.std.specs.List.{list_any};
ghost use Rattle.markdown_lines.specs.Lines.{is_space_or_tab, is_line_ending, is_in_blank_line, ending_length};
ghost use Rattle.markdown_lines.specs.Lines.{IsRunBefore, IsNextContent, IsLineEnd, IsLineFrom};

use markdown_scan::line_end::scan_line_ending;

/// A line, by byte offsets: it begins at `start`, its content ends before `stop`, and its line ending ends before
/// `next`.
#[derive(Clone, Copy, Drop)]
pub struct Line {
    pub start: usize,
    pub stop: usize,
    pub next: usize,
}

/// Returns whether a byte is a space or a tab.
pub fn is_space_or_tab(byte: u8) -> bool
    ensures { result ≡ is_space_or_tab byte }
{
    byte == b' ' || byte == b'\t'
}

/// Returns whether a byte may be in a blank line: a space, a tab or part of a line ending.
fn is_in_blank_line(byte: u8) -> bool
    ensures { result ≡ is_in_blank_line byte }
{
    is_space_or_tab(byte) || begins_line_ending(byte)
}

/// The number of bytes that are tested together, without a branch for each.
const TOGETHER: usize = 16;

/// Returns whether a byte begins a line ending.
#[inline(always)]
fn begins_line_ending(byte: u8) -> bool
    ensures { result ≡ is_line_ending byte }
{
    byte == b'\n' || byte == b'\r'
}

/// Returns whether all bytes are greater than the carriage return, as they are in most lines: then none of them begins
/// a line ending. This is one comparison for each byte.
#[inline(always)]
fn are_after_endings(bytes: &[u8]) -> bool
    ensures { result ≡ true → list_any is_line_ending bytes.now ≡ false }
{
    let mut after = true;
    for byte in bytes {
        after &= *byte > b'\r';
    }
    after
}

/// Returns the number of bytes before the first one that begins a line ending, or of all bytes where none does.
#[inline(always)]
fn length_before_ending(bytes: &[u8]) -> usize
    ensures { IsLineEnd bytes.now 0 result }
{
    for at in 0..bytes.len() {
        // most bytes take one comparison
        if bytes[at] <= b'\r' && begins_line_ending(bytes[at]) {
            return at;
        }
    }
    bytes.len()
}

/// Returns the offset of the first byte from `from` on that begins a line ending, or the length.
// inlined, as `line_from`
#[inline(always)]
fn first_line_ending(bytes: &[u8], from: usize) -> usize
    requires { from ≤ length bytes.now }
    ensures { IsLineEnd bytes.now from result }
{
    let mut start = from;
    'content: while bytes.len() - start >= TOGETHER {
        let together = &bytes[start..start + TOGETHER];
        if !are_after_endings(together) {
            let before = length_before_ending(together);
            if before < TOGETHER {
                return start + before;
            }
        }
        start += TOGETHER;
    }
    start + length_before_ending(&bytes[start..bytes.len()])
}

/// Returns the length of the line ending that the bytes begin with; 0 where they begin with none.
fn ending_length(bytes: &[u8]) -> usize
    ensures value { result ≡ ending_length bytes.now }
    ensures within { result ≤ length bytes.now }
{
    match scan_line_ending(bytes) {
        Some(length) => length,
        None => 0,
    }
}

/// Returns the line that begins at byte offset `start`, up to its line ending or the end of the text; past the end of
/// the text, an empty line there.
// inlined: it is called for each line
#[inline(always)]
pub fn line_from(text: &str, start: usize) -> Line
    ensures value { start ≤ length text.now → IsLineFrom text.now start result }
    ensures longer { start < length text.now → start < result.next }
{
    let bytes = text.as_bytes();
    let begin = start.min(bytes.len());
    let stop = first_line_ending(bytes, begin);
    Line {
        start: begin,
        stop,
        next: stop + ending_length(&bytes[stop..]),
    }
}

/// Returns the byte offset of the first byte from `from` on that is not a space, a tab or part of a line ending.
pub fn next_content(text: &str, from: usize) -> Option<usize>
    requires { IsCharBoundary text.now from }
    ensures { IsNextContent text.now from result }
{
    let bytes = text.as_bytes();
    for i in from..bytes.len() {
        if !is_in_blank_line(bytes[i]) {
            return Some(i);
        }
    }
    None
}

/// Returns the byte offset at which the spaces and tabs before `stop` begin, not before `from`.
pub fn content_end(text: &str, from: usize, stop: usize) -> usize
    requires ordered { from ≤ stop }
    requires boundary { IsCharBoundary text.now stop }
    ensures { IsRunBefore is_space_or_tab text.now from stop result }
{
    let bytes = text.as_bytes();
    let mut end = stop;
    'trim: while end > from && is_space_or_tab(bytes[end - 1]) {
        end -= 1;
    }
    end
}

/// Returns the byte offset at which the run of an ASCII byte before `stop` begins, not before `from`.
pub fn run_start(text: &str, from: usize, stop: usize, byte: u8) -> usize
    requires ordered { from ≤ stop }
    requires boundary { IsCharBoundary text.now stop }
    requires ascii { byte < 128 }
    ensures { IsRunBefore (λ b. b == byte) text.now from stop result }
{
    let bytes = text.as_bytes();
    let mut start = stop;
    'run: while start > from && bytes[start - 1] == byte {
        start -= 1;
    }
    start
}
