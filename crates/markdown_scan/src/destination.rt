//! Link destinations (CommonMark 6.3).
ghost use Rattle.std.specs.Prelude.{◌≡◌, ◌==◌, ◌≤◌, ◌<◌, ◌+◌, ◌^◌, false, IfSome, IsTrue, drop, length, slice_index};
ghost use Rattle.std.specs.Option.{option_map};
ghost use Rattle.std.specs.Str.{IsCharBoundary};
ghost use Rattle.std.specs.List.{list_any};
ghost use Rattle.markdown_scan.specs.Destination as destination;
ghost use Rattle.markdown_scan.specs.Together.{may_matter, IsPast};

use crate::ascii_kinds::is_control_or_space;
use crate::backslash::is_bare;
use markdown_base::byte_tests::{holds, holds_at_most, holds_either};

// Returns whether the byte is not allowed between angle brackets: another `<`, or a line ending.
fn is_refused(escaped: bool, byte: u8) -> bool
    ensures { result ≡ destination.is_refused escaped byte }
{
    is_bare(escaped, byte, b'<') || byte == b'\n' || byte == b'\r'
}

// Returns the number of bytes before the closing angle bracket, if there is one.
fn angle_length(bytes: &[u8]) -> Option<usize>
    ensures value { result ≡ destination.angle_length false bytes.now }
    ensures here { IfSome result (λ n. (n < length bytes.now) × (slice_index bytes.now n ≡ 62)) }
{
    let mut rest = bytes;
    let mut at = 0;
    let mut escaped = false;
    while let Some((first, tail)) = rest.split_first() {
        let byte = *first;
        if is_bare(escaped, byte, b'>') {
            return Some(at);
        }
        if is_refused(escaped, byte) {
            return None;
        }
        escaped = is_bare(escaped, byte, b'\\');
        rest = tail;
        at += 1;
    }
    None
}

// Returns the number of parentheses that are open after this byte.
fn open_after(escaped: bool, byte: u8, opened: usize) -> usize
    requires { opened + 1 < 2 ^ 64 }
    ensures value { result ≡ destination.open_after escaped byte opened }
    ensures more { result ≤ opened + 1 }
{
    if is_bare(escaped, byte, b'(') {
        opened + 1
    } else if is_bare(escaped, byte, b')') {
        opened.saturating_sub(1)
    } else {
        opened
    }
}

// Returns whether a destination without angle brackets ends before the byte: a control character, a space, or a `)`
// that closes no `(`.
fn is_past_bare(escaped: bool, opened: usize, byte: u8) -> bool
    ensures { result ≡ destination.is_past_bare escaped opened byte }
{
    is_control_or_space(byte) || (is_bare(escaped, byte, b')') && opened == 0)
}

// Returns whether the byte is a `(` inside more than `max_nesting` open parentheses.
fn is_too_deep(max_nesting: usize, escaped: bool, opened: usize, byte: u8) -> bool
    ensures { result ≡ destination.is_too_deep max_nesting escaped opened byte }
{
    is_bare(escaped, byte, b'(') && max_nesting < opened
}

// Returns whether the byte may end a destination without angle brackets, or open, close or escape something in it. Most
// bytes may not, and need no other test.
#[inline(always)]
fn may_matter(byte: u8) -> bool
    ensures { result ≡ may_matter byte }
{
    is_control_or_space(byte) || byte == b'(' || byte == b')' || byte == b'\\'
}

// The number of bytes that are tested together, without a branch for each.
const TOGETHER: usize = 16;

// Returns whether one of the bytes may matter.
#[inline(always)]
fn holds_any(bytes: &[u8]) -> bool
    ensures { result ≡ list_any may_matter bytes.now }
{
    let controls_or_spaces = holds_at_most(bytes, b' ') | holds(bytes, b'\x7F');
    let marks = holds_either(bytes, b'(', b')') | holds(bytes, b'\\');
    controls_or_spaces | marks
}

// Returns an offset such that no byte before it may matter, close to the first that may.
fn past_ordinary(bytes: &[u8]) -> usize
    ensures { IsPast may_matter bytes.now result }
{
    let mut start = 0;
    'ordinary: while bytes.len() - start >= TOGETHER
        && !holds_any(&bytes[start..start + TOGETHER])
    {
        start += TOGETHER;
    }
    start
}

// Returns the length in bytes of a destination without angle brackets; `None` if its parentheses are nested too deeply
// or not balanced.
fn bare_length(bytes: &[u8], max_nesting: usize) -> Option<usize>
    ensures value { result ≡ destination.bare_length max_nesting false 0 bytes.now }
    ensures within { IfSome result (λ n. n ≤ length bytes.now) }
    ensures ascii { IfSome result (λ n. n < length bytes.now → slice_index bytes.now n < 128) }
{
    let start = past_ordinary(bytes);
    let mut rest = &bytes[start..];
    let mut at = start;
    let mut escaped = false;
    let mut opened = 0;
    while let Some((first, tail)) = rest.split_first() {
        let byte = *first;
        if !may_matter(byte) {
            escaped = false;
            rest = tail;
            at += 1;
            continue;
        }
        if is_past_bare(escaped, opened, byte) {
            break;
        }
        if is_too_deep(max_nesting, escaped, opened, byte) {
            return None;
        }
        opened = open_after(escaped, byte, opened);
        escaped = is_bare(escaped, byte, b'\\');
        rest = tail;
        at += 1;
    }
    if opened == 0 { Some(at) } else { None }
}

fn begins_angle(bytes: &[u8]) -> bool
    ensures value { result ≡ (slice_index bytes.now 0 == 60) }
    ensures here { IsTrue result → (0 < length bytes.now) × (slice_index bytes.now 0 ≡ 60) }
{
    bytes.first() == Some(&b'<')
}

/// Returns the length in bytes and the raw text of the link destination at the byte `at`. In angle brackets, the length
/// includes these and the text does not. Without brackets, a destination ends before a control character, a space, or a
/// `)` that closes no `(`; there is no destination if a `(` is inside more than `max_nesting` open parentheses, or is
/// not closed. A destination may be empty, with length 0, as in a link that leaves it out. Upstream: `scan_link_dest`.
pub fn scan_link_destination(text: &str, at: usize, max_nesting: usize) -> Option<(usize, &str)>
    requires { IsCharBoundary text.now at }
    ensures value { option_map (λ p. (p.0, p.1.now)) result
        ≡ destination.destination max_nesting (drop at text.now) }
    ensures within { IfSome result (λ p. at + p.0 ≤ length text.now) }
    ensures boundary { IfSome result (λ p. IsCharBoundary text.now (at + p.0)) }
{
    let rest = &text[at..];
    if begins_angle(rest.as_bytes()) {
        let length = angle_length(&rest.as_bytes()[1..])?;
        return Some((length + 2, &rest[1..length + 1]));
    }
    let length = bare_length(rest.as_bytes(), max_nesting)?;
    Some((length, &rest[..length]))
}
