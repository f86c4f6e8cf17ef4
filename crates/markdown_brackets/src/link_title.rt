//! Titles of inline links (CommonMark 6.3).
ghost use Rattle.std.specs.Prelude.{◌≡◌, ◌+◌, ◌^◌, ◌≤◌, ◌<◌, ◌==◌, ◌&&◌, ℕ, Some, false, IfOk, IfSome, length};
ghost use Rattle.std.specs.Prelude.{slice_index};
ghost use Rattle.std.specs.Str.{IsCharBoundary};
ghost use Rattle.markdown_base.specs.Bytes.{close_parenthesis, open_parenthesis};
ghost use Rattle.markdown_scan.specs.Backslash as backslash;
ghost use Rattle.markdown_document.specs.LinkTitle as title;
ghost use Rattle.markdown_document.specs.LinkTitle.{joined_lines, title_at, title_in};
ghost use Rattle.markdown_brackets.specs.TitleView.{ReadsTitle};

use crate::block_rules::Replacing;
use crate::items_after::ItemsAfter;
use crate::title_text::TitleText;
use markdown_base::cow_str::CowStr;
use std::alloc::{AllocError, Global};

// Returns the mark that closes a title which this byte opens; `None` if it opens none.
fn closer_of(byte: u8) -> Option<u8>
    ensures value { result ≡ title.closer_of byte }
    ensures ascii { IfSome result (λ closer. (byte < 128) × (13 < closer) × (closer < 128)) }
{
    match byte {
        b'"' | b'\'' => Some(byte),
        b'(' => Some(b')'),
        _ => None,
    }
}

// Returns the mark that closes a title which the byte at the offset `at` opens; `None` if it opens none.
fn closer_at(text: &str, at: usize) -> Option<u8>
    ensures value { result ≡ title.closer_of (slice_index text.now at) }
    ensures ascii { IfSome result (λ closer. (at < length text.now)
        × (slice_index text.now at < 128) × (13 < closer) × (closer < 128)) }
{
    match text.as_bytes().get(at) {
        Some(byte) => closer_of(*byte),
        None => None,
    }
}

// Returns whether the byte is this mark and is not escaped.
fn is_bare(escaped: bool, byte: u8, what: u8) -> bool
    ensures { result ≡ backslash.is_bare escaped byte what }
{
    !escaped && byte == what
}

// Returns whether the byte is an open parenthesis that a title in parentheses may not contain.
fn refuses(closer: u8, escaped: bool, byte: u8) -> bool
    ensures { result
        ≡ ((closer == close_parenthesis) && backslash.is_bare escaped byte open_parenthesis) }
{
    closer == b')' && is_bare(escaped, byte, b'(')
}

// Returns the byte offset where a title continues, if the byte at the offset `at` ends a line and the next item starts
// later.
fn next_line<I: ItemsAfter>(items: &mut I, at: usize, byte: u8) -> Option<usize>
    requires { at + 1 < 2 ^ 64 }
    ensures value { result ≡ title.next_line (I.starts items.old) at byte }
    ensures later { (n : ℕ) → at + 1 ≤ n → I.starts items.new n ≡ I.starts items.old n }
    ensures past { IfSome result (λ start. (at < start) × (I.starts items.old (at + 1) ≡ Some start)
        × (byte < 128)) }
{
    if byte != b'\n' && byte != b'\r' {
        return None;
    }
    match items.start_of_first_past(at + 1) {
        Some(start) if at < start => Some(start),
        _ => None,
    }
}

// The text of a title: where it starts, and the mark that closes it.
#[derive(Clone, Copy, Drop)]
struct TitleStart {
    start: usize,
    closer: u8,
}

// Reads a title to the mark that closes it. Returns the byte offset after that mark, and the title's text; `None` if no
// mark closes it, a line of it continues after the text's end, or it contains a `(` that is not allowed.
fn scan_title_text<'t, I: ItemsAfter>(
    alloc: Global,
    text: &'t str,
    from: TitleStart,
    replacing: Replacing,
    items: &mut I,
) -> Result<Option<(usize, CowStr<'t>)>, AllocError>
    requires start { IsCharBoundary text.now from.start }
    requires mark { (13 < from.closer) × (from.closer < 128) }
    requires items { (n s : ℕ) → I.starts items.old n ≡ Some s → s ≤ length text.now
        → IsCharBoundary text.now s }
    ensures value { IfOk result (
        ReadsTitle replacing.names replacing.in_table
        (title_in from.closer false (joined_lines (I.starts items.old) from.start 0 text.now))) }
    ensures within { IfOk result (λ found. IfSome found (λ t. IsCharBoundary text.now t.0)) }
{
    let bytes = text.as_bytes();
    let mut title = TitleText::new(alloc, text, from.start);
    let mut at = from.start;
    let mut escaped = false;
    'title: while at < bytes.len() {
        let byte = bytes[at];
        if is_bare(escaped, byte, from.closer) {
            return Ok(Some((at + 1, title.finish(alloc, at, replacing)?)));
        }
        if refuses(from.closer, escaped, byte) {
            return Ok(None);
        }
        escaped = is_bare(escaped, byte, b'\\');
        match next_line(items, at, byte) {
            Some(line) => {
                if line > bytes.len() {
                    return Ok(None);
                }
                title.join_line(at, line)?;
                at = line;
            }
            None => at += 1,
        }
    }
    Ok(None)
}

/// Reads the link title at the byte offset `at` of the text. Returns the byte offset after it, and its text with
/// escapes and entities replaced; `None` if there is no title. A title is enclosed in `'`, in `"`, or in `(` and `)`,
/// in which case it contains no other unescaped `(`. If a line of it ends and the next item starts later, a line feed
/// replaces everything up to that item. A text that does not change is a slice of the source. Fails only if an
/// allocation fails. Upstream: `scan_link_title`.
pub fn scan_link_title<'t, I: ItemsAfter>(
    alloc: Global,
    text: &'t str,
    at: usize,
    replacing: Replacing,
    items: &mut I,
) -> Result<Option<(usize, CowStr<'t>)>, AllocError>
    requires at { IsCharBoundary text.now at }
    requires items { (n s : ℕ) → I.starts items.old n ≡ Some s → s ≤ length text.now
        → IsCharBoundary text.now s }
    ensures value { IfOk result (ReadsTitle replacing.names replacing.in_table
        (title_at (I.starts items.old) text.now at)) }
    ensures within { IfOk result (λ found. IfSome found (λ t. IsCharBoundary text.now t.0)) }
{
    match closer_at(text, at) {
        Some(closer) => {
            let from = TitleStart {
                start: at + 1,
                closer,
            };
            scan_title_text(alloc, text, from, replacing, items)
        }
        None => Ok(None),
    }
}
