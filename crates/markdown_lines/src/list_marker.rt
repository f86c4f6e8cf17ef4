//! List markers (CommonMark 5.2).
ghost use Rattle.std.specs.Prelude.{◌≡◌, ◌≤◌, true, length, slice_range, IfSome};
ghost use Rattle.std.specs.Char.{is_ascii_digit};
ghost use Rattle.std.specs.List.{list_all, prefix_len};
ghost use Rattle.markdown_lines.specs.ListMarkers.{decimal, ends_number, list_marker_at, marker_of, may_interrupt};
ghost use Rattle.markdown_lines.specs.ListMarkers.{ordered_marker};

use crate::bytes::{bytes_of, is_parted, is_white};

/// A list marker: its character, which in an ordered list is the `.` or `)`; its number, 0 in a bullet list; its length
/// in bytes.
#[derive(Clone, Copy, Drop)]
pub struct ListMarker {
    pub character: u8,
    pub first: u64,
    pub width: usize,
}

/// Returns whether a byte ends the marker of an ordered list.
fn ends_number(byte: u8) -> bool
    ensures { result ≡ ends_number byte }
{
    byte == b'.' || byte == b')'
}

impl ListMarker {
    /// Returns whether it is the marker of an ordered list.
    fn is_ordered(self) -> bool
        ensures { result ≡ ends_number self.character }
    {
        ends_number(self.character)
    }

    /// Returns whether its item may interrupt a paragraph: in an ordered list its number has to be 1.
    fn may_interrupt(self) -> bool
        ensures { result ≡ may_interrupt self }
    {
        !self.is_ordered() || self.first == 1
    }
}

/// Returns the number that a run of at most nine digits spells.
fn number_of(digits: &[u8]) -> u64
    ensures { length digits.now ≤ 9 → list_all is_ascii_digit digits.now ≡ true
        → result ≡ decimal digits.now }
{
    let mut number: u64 = 0;
    for digit in digits {
        number = number
            .saturating_mul(10)
            .saturating_add(digit.saturating_sub(b'0') as u64);
    }
    number
}

/// Returns the number of digits that the bytes begin with.
fn digit_count(bytes: &[u8]) -> usize
    ensures value { result ≡ prefix_len is_ascii_digit bytes.now }
    ensures within { result ≤ length bytes.now }
{
    for at in 0..bytes.len() {
        if !bytes[at].is_ascii_digit() {
            return at;
        }
    }
    bytes.len()
}

/// Returns the marker of an ordered list that the bytes begin with: one to nine digits, and a `.` or `)`.
fn ordered_marker(bytes: &[u8]) -> Option<ListMarker>
    ensures value { result ≡ ordered_marker bytes.now }
    ensures within { IfSome result (λ marker. marker.width ≤ length bytes.now) }
    ensures few { IfSome result (λ marker. marker.width ≤ 10) }
{
    let count = digit_count(bytes);
    let (digits, rest) = bytes.split_at(count);
    let Some(character) = rest.first() else {
        return None;
    };
    if count == 0 || count > 9 || !ends_number(*character) {
        return None;
    }
    Some(ListMarker {
        character: *character,
        first: number_of(digits),
        width: count + 1,
    })
}

/// Returns the marker that the bytes begin with, whatever follows it.
fn any_marker(bytes: &[u8]) -> Option<ListMarker>
    ensures value { result ≡ marker_of bytes.now }
    ensures within { IfSome result (λ marker. marker.width ≤ length bytes.now) }
    ensures few { IfSome result (λ marker. marker.width ≤ 10) }
{
    match bytes.first() {
        Some(byte) if *byte == b'-' || *byte == b'+' || *byte == b'*' => Some(ListMarker {
            character: *byte,
            first: 0,
            width: 1,
        }),
        _ => ordered_marker(bytes),
    }
}

/// Returns the list marker at byte offset `at` in a line whose content ends before `stop`. A space, a tab or the end of
/// the content has to follow it. An item that interrupts a paragraph must not be blank, and in an ordered list its
/// number has to be 1.
// inlined: it is called for each item
#[inline(always)]
pub fn list_marker(text: &str, at: usize, stop: usize, interrupts: bool) -> Option<ListMarker>
    ensures value { result ≡ list_marker_at text.now at stop interrupts }
    ensures within { IfSome result (λ marker. marker.width
        ≤ length (slice_range text.now at stop)) }
    ensures few { IfSome result (λ marker. marker.width ≤ 10) }
{
    let content = bytes_of(text, at, stop);
    let marker = any_marker(content)?;
    let after = &content[marker.width..];
    if !is_parted(after) {
        return None;
    }
    if interrupts && (!marker.may_interrupt() || is_white(after)) {
        return None;
    }
    Some(marker)
}
