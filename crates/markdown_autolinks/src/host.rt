//! Hosts.
ghost use Rattle.std.specs.Prelude.{◌≡◌, ◌-◌};
ghost use Rattle.markdown_autolinks.specs.AddressBytes as bytes;

use crate::bytes::{byte_at, count_of, is_white_at};

/// Returns whether a byte is a letter, a digit, or a part of a character beyond ASCII.
fn is_word_byte(byte: u8) -> bool
    ensures { result ≡ bytes.is_word_byte byte }
{
    byte.is_ascii_alphanumeric() || 128 <= byte
}

/// Returns whether what a host may begin with stands at a place.
fn begins_host(text: &[u8], at: usize) -> bool
    ensures { result ≡ bytes.begins_host text.now at }
{
    is_word_byte(byte_at(text, at)) && !is_white_at(text, at)
}

/// Returns whether a host may have the byte at a place.
fn is_host_at(text: &[u8], at: usize) -> bool
    ensures { result ≡ bytes.is_host_at text.now at }
{
    let byte = byte_at(text, at);
    (is_word_byte(byte) || byte == b'-' || byte == b'_' || byte == b'.') && !is_white_at(text, at)
}

/// Returns where what may be a host ends.
#[tactic(auto, using(crate::proofs::PlaceLemmas::goes_further, crate::proofs::PlaceLemmas::stops_here, crate::proofs::PlaceLemmas::stops_at_end))]
fn host_end(text: &[u8], at: usize) -> usize
    ensures { result ≡ bytes.host_end text.now at }
{
    let mut end = at;
    while end < text.len() {
        if !is_host_at(text, end) {
            return end;
        }
        end += 1;
    }
    end
}

/// Returns whether one of the last two labels from `at` to `end` has a `_`.
#[tactic(auto, using(crate::proofs::PlaceLemmas::late_next, crate::proofs::PlaceLemmas::late_ends))]
fn has_late_underscore(text: &[u8], at: usize, end: usize) -> bool
    ensures { result ≡ bytes.has_late_underscore text.now at 1 (end - at) }
{
    let mut more: usize = 1;
    let mut left = end;
    while at < left {
        left -= 1;
        let byte = byte_at(text, left);
        if byte == b'_' {
            return true;
        }
        if byte == b'.' {
            if more == 0 {
                return false;
            }
            more -= 1;
        }
    }
    false
}

/// Returns whether a host begins at a place.
pub fn is_host(text: &[u8], at: usize) -> bool
    ensures { result ≡ bytes.is_host text.now at }
{
    if !begins_host(text, at) {
        return false;
    }
    let end = host_end(text, at);
    10 < count_of(text, b'.', at, end) || !has_late_underscore(text, at, end)
}
