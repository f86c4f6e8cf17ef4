//! Where addresses end.
ghost use Rattle.std.specs.Prelude.{◌≡◌, ◌+◌, ◌-◌, ◌<◌, ◌≤◌, length};
ghost use Rattle.std.specs.Char.{is_ascii_alphabetic};
ghost use Rattle.markdown_autolinks.specs.AddressBytes as bytes;
ghost use Rattle.markdown_autolinks.specs.Addresses as spec;

use crate::bytes::{byte_at, count_of, is_white_at};

fn is_end_mark(byte: u8) -> bool
    ensures { result ≡ spec.is_end_mark byte }
{
    b"?!.,:*_~'\"".contains(&byte)
}

/// Returns whether an address may go on over the byte at a place.
fn goes_on_at(text: &[u8], at: usize) -> bool
    ensures { result ≡ bytes.goes_on_at text.now at }
{
    !is_white_at(text, at) && byte_at(text, at) != b'<'
}

/// Returns the first place from `at` on where no address goes on.
#[tactic(auto, using(crate::proofs::PlaceLemmas::goes_further, crate::proofs::PlaceLemmas::stops_here, crate::proofs::PlaceLemmas::stops_at_end))]
fn word_end(text: &[u8], at: usize) -> usize
    ensures { result ≡ bytes.first_failing (bytes.goes_on_at text.now) at (length text.now - at) }
{
    let mut end = at;
    while end < text.len() {
        if !goes_on_at(text, end) {
            return end;
        }
        end += 1;
    }
    end
}

/// Returns the first place from `start` on from which there are letters up to `end`.
#[tactic(auto, using(crate::proofs::PlaceLemmas::goes_back, crate::proofs::PlaceLemmas::back_stops_here, crate::proofs::PlaceLemmas::back_stops_at_end))]
fn letters_before(text: &[u8], start: usize, end: usize) -> usize
    ensures value { result
        ≡ bytes.passing_from (λ at. is_ascii_alphabetic (bytes.byte_at text.now at))
        end (end - start) }
    ensures before { result ≤ end }
{
    let mut at = end;
    while start < at {
        if !byte_at(text, at - 1).is_ascii_alphabetic() {
            return at;
        }
        at -= 1;
    }
    at
}

/// Returns how many bytes are left out where an address ends with a `;`.
fn entity_left_out(text: &[u8], start: usize, end: usize) -> usize
    requires { start < end }
    ensures value { result ≡ spec.entity_left_out text.now start end }
    ensures some { 0 < result }
    ensures within { start + result ≤ end }
{
    let letters = letters_before(text, start, end - 1);
    if letters < end - 1 && start < letters && byte_at(text, letters - 1) == b'&' {
        end - (letters - 1)
    } else {
        1
    }
}

/// Returns how many bytes are left out together at the end of an address, which has more `)` than `(` or not.
fn left_out(text: &[u8], start: usize, end: usize, closes_more: bool) -> usize
    requires some { start < end }
    requires closes { closes_more ≡ spec.closes_more text.now start end }
    ensures value { result ≡ spec.left_out text.now start end }
    ensures within { start + result ≤ end }
{
    let last = byte_at(text, end - 1);
    if is_end_mark(last) || (last == b')' && closes_more) {
        1
    } else if last == b';' {
        entity_left_out(text, start, end)
    } else {
        0
    }
}

/// Returns where an address from `start` on ends that was read up to `end`.
fn trimmed(text: &[u8], start: usize, end: usize) -> usize
    ensures { result ≡ spec.trimmed text.now start (end - start) end }
{
    let opening = count_of(text, b'(', start, end);
    let mut closing = count_of(text, b')', start, end);
    let mut left = end;
    while start < left {
        let less = left_out(text, start, left, opening < closing);
        if less == 0 {
            return left;
        }
        if byte_at(text, left - 1) == b')' {
            closing -= 1;
        }
        left -= less;
    }
    left
}

/// Returns where an address ends that begins at a place.
pub fn address_end(text: &[u8], at: usize) -> usize
    ensures { result ≡ spec.address_end text.now at }
{
    trimmed(text, at, word_end(text, at))
}
