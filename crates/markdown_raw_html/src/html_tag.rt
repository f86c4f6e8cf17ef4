//! Tags in a text whose lines may have prefixes.
ghost use Rattle.std.specs.Prelude.{◌≡◌, ◌≤◌, IfOk, IfSome, IsOk, None, Some, length, option_and_then, take};
ghost use Rattle.std.specs.Option.{option_map};
ghost use Rattle.std.specs.Str.{IsCharBoundary};
ghost use Rattle.markdown_raw_html.specs.HtmlTag.{html_tag};
ghost use Rattle.markdown_raw_html.specs.TagSource.{tag_at, tag_lengths};
ghost use Rattle.markdown_raw_html.specs.TagSteps.{after_part};
ghost use Rattle.markdown_raw_html.specs.TagText.{text_in};

use crate::tag_grammar::take_html_tag;
use crate::tag_text::first_byte;
use markdown_scan::line_rule::LineRule;
use std::alloc::{AllocError, Global};

/// A tag that was found.
#[derive(Debug, Drop)]
pub struct ScannedTag {
    /// The byte offset after the tag.
    pub end: usize,
    /// The tag's bytes without the prefixes of its lines, if it contains such prefixes.
    pub without_prefixes: Option<Vec<u8>>,
}

/// Returns the length in bytes, without prefixes, of the tag between the beginning of `source` and `rest`.
fn count_tag<R: LineRule>(rule: &R, source: &[u8], rest: &[u8]) -> usize
    requires { Some rest.now ≡ after_part (R.skipped rule.now) html_tag source.now }
    ensures { Some result ≡ html_tag (text_in (R.skipped rule.now) source.now) }
{
    let mut left = source;
    let mut count = 0;
    'bytes: while left.len() > rest.len() {
        let Some((_, tail)) = first_byte(rule, left) else {
            return count;
        };
        left = tail;
        count += 1;
    }
    count
}

/// Returns the length in bytes of the tag that the source begins with, with the prefixes of its lines and without them.
fn read_tag<R: LineRule>(rule: &R, source: &[u8]) -> Option<(usize, usize)>
    ensures value { result ≡ option_map (λ n. tag_lengths (R.skipped rule.now) source.now n)
        (html_tag (text_in (R.skipped rule.now) source.now)) }
    ensures within { IfSome result (λ lengths. lengths.0 ≤ length source.now) }
{
    let rest = take_html_tag(rule, source)?;
    Some((source.len() - rest.len(), count_tag(rule, source, rest)))
}

/// Returns the first `count` bytes of the text, without prefixes.
fn copy_text<R: LineRule>(
    alloc: Global,
    rule: &R,
    source: &[u8],
    count: usize,
) -> Result<Vec<u8>, AllocError>
    requires { count ≤ length (text_in (R.skipped rule.now) source.now) }
    ensures { IfOk result (λ made.
        made.items ≡ take count (text_in (R.skipped rule.now) source.now)) }
{
    let mut made = Vec::new(alloc);
    let mut left = source;
    'bytes: while made.len() < count {
        let Some((byte, tail)) = first_byte(rule, left) else {
            return Ok(made);
        };
        made.push(byte)?;
        left = tail;
    }
    Ok(made)
}

/// Returns the open or closing tag (CommonMark 6.6) whose `<` is at the byte offset `at`; `None` if no tag begins
/// there, or if it contains a line ending after which, by `rule`, the text may not continue. Only a copy of the tag's
/// bytes without prefixes allocates memory. Fails only if an allocation fails.
pub fn scan_html_tag<R: LineRule>(
    alloc: Global,
    text: &str,
    at: usize,
    rule: &R,
) -> Result<Option<ScannedTag>, AllocError>
    requires { at ≤ length text.now }
    ensures value { IfOk result (λ found.
        option_map (λ tag. (tag.end, option_map (λ bytes. bytes.items) tag.without_prefixes)) found
        ≡ tag_at (R.skipped rule.now) text.now at) }
    ensures plain { option_and_then (λ tag. tag.1) (tag_at (R.skipped rule.now) text.now at) ≡ None
        → IsOk result }
    ensures boundary { IfOk result (λ found. IfSome found (λ tag.
        IsCharBoundary text.now tag.end)) }
{
    let source = &text.as_bytes()[at..];
    let Some((read, count)) = read_tag(rule, source) else {
        return Ok(None);
    };
    if count == read {
        return Ok(Some(ScannedTag {
            end: at + read,
            without_prefixes: None,
        }));
    }
    let bytes = copy_text(alloc, rule, source, count)?;
    Ok(Some(ScannedTag {
        end: at + read,
        without_prefixes: Some(bytes),
    }))
}
