//! Absolute-URI autolinks (CommonMark 6.5). Email autolinks are not among them.
ghost use Rattle.std.specs.Prelude.{◌≡◌, ◌≤◌, ◌<◌, IfSome, length, slice_index};
ghost use Rattle.std.specs.Option.{option_map};
ghost use Rattle.std.specs.Str.{IsCharBoundary};
ghost use Rattle.markdown_scan.specs.Autolink.{uri_autolink, closed_uri};
ghost use Rattle.markdown_scan.specs.Autolink as autolink;

use crate::ascii_kinds::{begins_with_letter, is_control_or_space};

// Returns whether the byte is a letter, a digit, `+`, `.` or `-`.
fn is_scheme_byte(byte: u8) -> bool
    ensures { result ≡ autolink.is_scheme_byte byte }
{
    byte.is_ascii_alphanumeric() || b"+.-".contains(&byte)
}

// Returns whether the byte is neither a control character nor a space nor an angle bracket.
fn is_uri_byte(byte: u8) -> bool
    ensures { result ≡ autolink.is_uri_byte byte }
{
    !is_control_or_space(byte) && byte != b'<' && byte != b'>'
}

fn scheme_length(bytes: &[u8]) -> usize
    ensures value { result ≡ autolink.scheme_length bytes.now }
    ensures within { result ≤ length bytes.now }
{
    bytes
        .iter()
        .take_while(|byte| is_scheme_byte(**byte))
        .count()
}

fn uri_length(bytes: &[u8]) -> usize
    ensures value { result ≡ autolink.uri_length bytes.now }
    ensures within { result ≤ length bytes.now }
{
    bytes.iter().take_while(|byte| is_uri_byte(**byte)).count()
}

// Returns whether the bytes begin with a scheme of 2 to 32 characters and a colon.
fn begins_scheme(bytes: &[u8]) -> bool
    ensures { result ≡ autolink.begins_scheme bytes.now }
{
    let length = scheme_length(bytes);
    begins_with_letter(bytes) && 2 <= length && length <= 32 && bytes.get(length) == Some(&b':')
}

// Returns the length in bytes of the URI that the bytes begin with, if a `>` follows it.
fn closed_uri(bytes: &[u8]) -> Option<usize>
    ensures value { result ≡ closed_uri bytes.now }
    ensures here { IfSome result (λ n. (n < length bytes.now) × (slice_index bytes.now n ≡ 62)) }
{
    if !begins_scheme(bytes) {
        return None;
    }
    let length = uri_length(bytes);
    if bytes.get(length) == Some(&b'>') {
        Some(length)
    } else {
        None
    }
}

/// Returns the byte offset after the `>`, and the text between the angle brackets, of the absolute-URI autolink whose
/// `<` is the byte before `at`, if there is one. Upstream: `scan_uri`.
pub fn scan_uri_autolink(text: &str, at: usize) -> Option<(usize, &str)>
    requires { IsCharBoundary text.now at }
    ensures value { option_map (λ p. (p.0, p.1.now)) result ≡ uri_autolink text.now at }
    ensures within { IfSome result (λ p. p.0 ≤ length text.now) }
    ensures boundary { IfSome result (λ p. IsCharBoundary text.now p.0) }
{
    let rest = &text[at..];
    let length = closed_uri(rest.as_bytes())?;
    Some((at + length + 1, &rest[..length]))
}
