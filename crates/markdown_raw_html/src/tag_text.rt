//! The text of a tag, read byte by byte without the prefixes of its lines.
ghost use Rattle.std.specs.Prelude.{◌≡◌, ◌<◌, ◌≤◌, IfSome, Some, length};
ghost use Rattle.std.specs.Option.{option_copied, option_map};
ghost use Rattle.markdown_raw_html.specs.ByteKinds.{in_kind};
ghost use Rattle.markdown_raw_html.specs.HtmlTag.{all, one};
ghost use Rattle.markdown_raw_html.specs.TagSteps.{after_part, first_byte};

use crate::byte_kind::{ByteKind, is_in_kind};
use markdown_scan::line_prefix::prefix_after;
use markdown_scan::line_rule::LineRule;

/// Returns the next byte of the text, and the source from the following byte of the text on.
pub(crate) fn first_byte<'t, R: LineRule>(rule: &R, source: &'t [u8]) -> Option<(u8, &'t [u8])>
    ensures value { option_map (λ p. (p.0, p.1.now)) result
        ≡ first_byte (R.skipped rule.now) source.now }
    ensures shorter { IfSome result (λ p. length p.1.now < length source.now) }
{
    let (byte, rest) = source.split_first()?;
    match prefix_after(rule, *byte, rest) {
        Some(skipped) => Some((*byte, &rest[skipped..])),
        None => Some((*byte, &[])),
    }
}

/// Takes one byte of the kind: returns the source after it, or `None` if no such byte comes next.
pub(crate) fn take_one<'t, R: LineRule>(
    rule: &R,
    source: &'t [u8],
    kind: ByteKind,
) -> Option<&'t [u8]>
    ensures { option_copied result
        ≡ after_part (R.skipped rule.now) (one (in_kind kind)) source.now }
{
    let (byte, rest) = first_byte(rule, source)?;
    if is_in_kind(kind, byte) {
        Some(rest)
    } else {
        None
    }
}

/// Takes all bytes of the kind that come next: returns the source after them.
pub(crate) fn take_all<'t, R: LineRule>(rule: &R, source: &'t [u8], kind: ByteKind) -> &'t [u8]
    ensures { Some result.now ≡ after_part (R.skipped rule.now) (all (in_kind kind)) source.now }
{
    let mut rest = source;
    while let Some((byte, tail)) = first_byte(rule, rest) {
        if !is_in_kind(kind, byte) {
            return rest;
        }
        rest = tail;
    }
    rest
}
