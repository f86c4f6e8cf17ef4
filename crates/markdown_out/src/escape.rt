//! The escapes of HTML. Between two replaced bytes, the text is copied as one slice.
ghost use Rattle.std.specs.Prelude.{◌≡◌, ◌++◌, ◌<◌, ◌≤◌, ◌-◌, OnOk, OnErr, MatchOption, [], ◌∷◌};
ghost use Rattle.std.specs.Prelude.{take, drop, length};
ghost use Rattle.std.specs.List.{flat_map, list_all, list_any};
ghost use Rattle.std.specs.Str.{IsCharBoundary};
ghost use Rattle.std.specs.String.{string_bytes};
ghost use Rattle.markdown_out.specs.StringAppends.{Appends, AppendsPart};
ghost use Rattle.markdown_out.specs.Escaped.{escaped_byte, may_be_replaced, IsBeforeReplaced};
ghost use Rattle.markdown_out.specs.Escapes.{destination_byte, destination_escaped, is_kept_byte};

use markdown_base::byte_tests::holds_either;
use percent_encoding::percent_encode_byte;
use std::alloc::AllocError;

/// The context of a text, which decides which bytes are replaced.
#[derive(Clone, Copy, Drop)]
pub(crate) enum Escape {
    /// Between tags.
    Text,
    /// Between the quotes of an attribute.
    Attribute,
}

/// Appends a text, and allocates nothing where it is empty. If an allocation fails, nothing has been appended.
pub(crate) fn push_any(out: &mut String, text: &str) -> Result<(), AllocError>
    ensures ok { OnOk result (Appends out.old out.new text.now) }
    ensures err { OnErr result (string_bytes out.new ≡ string_bytes out.old) }
{
    if text.is_empty() {
        return Ok(());
    }
    out.push_str(text)
}

/// Returns what replaces a byte, or `None` where the byte is kept.
fn replacement(escape: Escape, byte: u8) -> Option<&'static str>
    ensures { MatchOption result (escaped_byte escape byte ≡ byte ∷ [])
        (λ by. (by.now ≡ escaped_byte escape byte) × (byte < 128)) }
{
    match (byte, escape) {
        (b'&', _) => Some("&amp;"),
        (b'<', _) => Some("&lt;"),
        (b'>', _) => Some("&gt;"),
        (b'"', Escape::Attribute) => Some("&quot;"),
        _ => None,
    }
}

/// The number of bytes that are tested together, without a branch for each.
const TOGETHER: usize = 32;

/// The same number where fewer bytes are left.
const FEWER: usize = 16;

/// The same number where only a few bytes are left.
const FEW: usize = 8;

/// Returns whether some escape replaces a byte.
#[inline(always)]
fn may_be_replaced(byte: u8) -> bool
    ensures { result ≡ may_be_replaced byte }
{
    byte == b'&' || byte == b'<' || byte == b'>' || byte == b'"'
}

/// Returns whether some escape replaces one of the bytes.
#[inline(always)]
fn holds_replaced(bytes: &[u8]) -> bool
    ensures { result ≡ list_any may_be_replaced bytes.now }
{
    holds_either(bytes, b'<', b'>') | holds_either(bytes, b'&', b'"')
}

/// Returns an offset such that no escape replaces a byte from `from` up to it. Tests `count` bytes at a time.
#[inline(always)]
fn past_kept(bytes: &[u8], from: usize, count: usize) -> usize
    requires some { 0 < count }
    requires within { from ≤ length bytes.now }
    ensures { IsBeforeReplaced bytes.now from result }
{
    let mut start = from;
    'kept: while bytes.len() - start >= count && !holds_replaced(&bytes[start..start + count]) {
        start += count;
    }
    start
}

/// Returns the offset of the first byte from `from` on that some escape replaces, or the length. The last few bytes are
/// tested together with some of those before them.
// inlined: it is called for each text
#[inline(always)]
fn first_replaced(bytes: &[u8], from: usize) -> usize
    requires { from ≤ length bytes.now }
    ensures { IsBeforeReplaced bytes.now from result }
{
    let start = past_kept(bytes, from, TOGETHER);
    let start = past_kept(bytes, start, FEWER);
    let start = past_kept(bytes, start, FEW);
    let end = bytes.len();
    if end - from >= FEW && end - start < FEW && !holds_replaced(&bytes[end - FEW..end]) {
        return end;
    }
    for at in start..end {
        if may_be_replaced(bytes[at]) {
            return at;
        }
    }
    end
}

/// Appends a text, escaped. If an allocation fails, a prefix of the escaped text has been appended.
pub(crate) fn push_escaped(out: &mut String, escape: Escape, text: &str) -> Result<(), AllocError>
    ensures ok { OnOk result (Appends out.old out.new (flat_map (escaped_byte escape) text.now)) }
    ensures err { OnErr result (AppendsPart out.old out.new (flat_map (escaped_byte escape)
        text.now)) }
{
    let bytes = text.as_bytes();
    let mut from = 0;
    let mut at = first_replaced(bytes, 0);
    'text: while at < bytes.len() {
        if let Some(replacement) = replacement(escape, bytes[at]) {
            push_any(out, &text[from..at])?;
            out.push_str(replacement)?;
            from = at + 1;
        }
        at = first_replaced(bytes, at + 1);
    }
    push_any(out, &text[from..])
}

/// Returns whether a destination keeps the byte, by a few comparisons, without a table or a branch: most of what is kept
/// is in ranges, in which no other byte is.
#[inline(always)]
fn is_kept(byte: u8) -> bool
    ensures { result ≡ is_kept_byte byte }
{
    ((byte >= b'(') & (byte <= b';'))
        | ((byte >= b'?') & (byte <= b'Z'))
        | ((byte >= b'a') & (byte <= b'z'))
        | ((byte >= b'#') & (byte <= b'%'))
        | (byte == b'!')
        | (byte == b'=')
        | (byte == b'_')
        | (byte == b'~')
}

/// Returns whether a destination keeps all of the bytes, without a branch for each.
#[inline(always)]
fn are_kept_together(bytes: &[u8]) -> bool
    ensures { result ≡ list_all is_kept_byte bytes.now }
{
    let mut kept = true;
    for byte in bytes {
        kept &= is_kept(*byte);
    }
    kept
}

/// Returns whether a destination keeps all of the bytes. The last few bytes are tested together with some of those before
/// them.
fn are_kept(bytes: &[u8]) -> bool
    ensures { result ≡ list_all is_kept_byte bytes.now }
{
    let end = bytes.len();
    if end < FEWER {
        return are_kept_together(bytes);
    }
    let mut start = 0;
    'kept: while end - start >= FEWER {
        if !are_kept_together(&bytes[start..start + FEWER]) {
            return false;
        }
        start += FEWER;
    }
    are_kept_together(&bytes[end - FEWER..end])
}

/// Returns what replaces a byte of a destination, or `None` where the byte is kept.
fn destination_replacement(byte: u8) -> Option<&'static str>
    ensures { MatchOption result ((destination_byte byte ≡ byte ∷ []) × (byte < 128))
        (λ by. by.now ≡ destination_byte byte) }
{
    match byte {
        b'&' => Some("&amp;"),
        b'\'' => Some("&#x27;"),
        _ if is_kept(byte) => None,
        _ => Some(percent_encode_byte(byte)),
    }
}

/// Returns the text between two byte offsets, which need not be character boundaries where they are equal.
fn between(text: &str, from: usize, to: usize) -> &str
    requires order { from ≤ to }
    requires within { to ≤ length text.now }
    requires start { from < to → IsCharBoundary text.now from }
    requires end { from < to → IsCharBoundary text.now to }
    ensures { result.now ≡ take (to - from) (drop from text.now) }
{
    if from < to { &text[from..to] } else { "" }
}

/// Appends a link's destination, escaped. If an allocation fails, a prefix of the escaped text has been appended.
pub(crate) fn push_destination(out: &mut String, destination: &str) -> Result<(), AllocError>
    ensures ok { OnOk result (Appends out.old out.new (destination_escaped destination.now)) }
    ensures err { OnErr result (AppendsPart out.old out.new (destination_escaped destination.now)) }
{
    let bytes = destination.as_bytes();
    if are_kept(bytes) {
        return push_any(out, destination);
    }
    let mut from = 0;
    for (i, byte) in bytes.iter().enumerate() {
        if let Some(replacement) = destination_replacement(*byte) {
            push_any(out, between(destination, from, i))?;
            out.push_str(replacement)?;
            from = i + 1;
        }
    }
    push_any(out, between(destination, from, bytes.len()))
}
