//! Link labels (CommonMark 6.3).
ghost use Rattle.std.specs.Prelude.{◌≡◌, ◌≢◌, ◌≤◌, ◌<◌, ◌-◌, ◌+◌, ◌&&◌, ℕ, Bool, true, false, not};
ghost use Rattle.std.specs.Prelude.{Some, None, IfSome, IfNone, IfOk};
ghost use Rattle.std.specs.Prelude.{IsOk, OnErr, take, length};
ghost use Rattle.std.specs.Option.{option_map};
ghost use Rattle.std.specs.Str.{IsUtf8, IsCharBoundary};
ghost use Rattle.markdown_base.specs.CowText.{text_of};
ghost use Rattle.markdown_base.specs.StoredTexts.{IsBorrowed};
ghost use Rattle.markdown_scan.specs.Label as label;
ghost use Rattle.markdown_scan.specs.Label.{link_label};
ghost use Rattle.markdown_scan.specs.LinePrefix.{prefix_after};
ghost use Rattle.markdown_scan.specs.LabelScan as scan;
ghost use Rattle.markdown_scan.specs.LabelScan.{EndsHere, LabelGoesOn, found_in, is_collapsed};

use crate::label_end::label_end;
use crate::label_text::{LabelText, is_bare, split_first};
use crate::line_prefix::prefix_after;
use crate::line_rule::LineRule;
use markdown_base::cow_str::CowStr;
use std::alloc::{AllocError, Global};

// Returns the length in bytes of the line prefix that `rest` begins with: 0 if the character before it does not end a
// line, and `None` if the text may not continue on another line.
fn prefix_after_character<R: LineRule>(rule: &R, c: char, rest: &str) -> Option<usize>
    ensures value { result ≡ prefix_after (R.skipped rule.now) c rest.now }
    ensures within { IfSome result (λ n. n ≤ length rest.now) }
    ensures boundary { IfSome result (λ n. IsCharBoundary rest.now n) }
{
    if c.is_ascii() {
        prefix_after(rule, c as u8, rest.as_bytes())
    } else {
        Some(0)
    }
}

// Returns whether the character is a bracket that is not escaped.
fn is_bracket(escaped: bool, c: char) -> bool
    ensures { result ≡ label.is_bracket escaped c }
{
    is_bare(escaped, c, ']') || is_bare(escaped, c, '[')
}

// Returns the next character of a label, and what follows it and the line prefix after it; `None` where the label's
// text ends.
fn next_character<'a, R: LineRule>(
    rule: &R,
    escaped: bool,
    rest: &'a str,
) -> Option<(char, &'a str)>
    ensures end { IfNone result
        ((in_table : Bool) → EndsHere (R.skipped rule.now) in_table escaped rest.now) }
    ensures next { IfSome result (λ p. (in_table : Bool)
        → LabelGoesOn (R.skipped rule.now) in_table escaped rest.now p.0 p.1.now) }
    ensures shorter { IfSome result (λ p. length p.1.now < length rest.now) }
    ensures text { IfSome result (λ p. IsUtf8 p.1.now) }
{
    let (c, tail) = split_first(rest)?;
    if is_bracket(escaped, c) {
        return None;
    }
    let skipped = prefix_after_character(rule, c, tail)?;
    Some((c, &tail[skipped..]))
}

// Returns whether the byte certainly stays as it is where white space is collapsed: it is above a space, as most are,
// or it is a space that does not follow a space and is not the first byte.
#[inline(always)]
fn stays(spaced: bool, byte: u8) -> bool
    ensures { result ≡ scan.stays spaced byte }
{
    b' ' < byte || (byte == b' ' && !spaced)
}

// Returns whether the source of a label is certainly its text as it is, as that of most labels is: no byte changes
// where white space is collapsed, no line prefix is left out, since no line ends, and no backslash, since it is in no
// table.
#[inline(always)]
fn is_shown_whole(source: &str, in_table: bool) -> bool
    ensures { result ≡ (not in_table && is_collapsed true source.now) }
{
    if in_table {
        return false;
    }
    let mut spaced = true;
    for byte in source.as_bytes() {
        if !stays(spaced, *byte) {
            return false;
        }
        spaced = *byte == b' ';
    }
    !spaced
}

// Returns the text of a label: `source` is the part of `text` before the label's closing bracket.
fn label_text<'t, R: LineRule>(
    alloc: Global,
    text: &str,
    source: &'t str,
    rule: &R,
    in_table: bool,
) -> Result<CowStr<'t>, AllocError>
    requires { IfSome (found_in (R.skipped rule.now) in_table false text.now)
        (λ f. source.now ≡ take f.0 text.now) }
    ensures value { IfOk result (λ found.
        IfSome (found_in (R.skipped rule.now) in_table false text.now)
        (λ f. text_of found ≡ label.collapse_whitespace false false f.1)) }
    ensures borrowed { IfOk result (λ found. (n : ℕ) → text_of found ≡ take n source.now
        → IsBorrowed found) }
    ensures differs { OnErr result
        (IfSome (found_in (R.skipped rule.now) in_table false text.now) (λ f. (n : ℕ)
        → label.collapse_whitespace false false f.1 ≢ take n source.now)) }
{
    // a look at the bytes spares most labels the reading of their characters
    if is_shown_whole(source, in_table) {
        return Ok(CowStr::Borrowed(source));
    }
    let mut found = LabelText::new(source);
    let mut rest = text;
    let mut escaped = false;
    while let Some((c, tail)) = next_character(rule, escaped, rest) {
        found.put_shown(alloc, in_table, c, tail)?;
        escaped = is_bare(escaped, c, '\\');
        rest = tail;
    }
    Ok(found.finish())
}

/// Reads a link label, of which `text` begins after the opening bracket, and returns its length in bytes, including the
/// closing bracket, and its text. In the text, outer white space is removed, each inner run of white space is one
/// space, and the prefix of each line, by `rule`, is left out. Escapes remain as they are written, except that in a
/// table a backslash directly before a `|` is removed.
///
/// Returns `None` if there is no label of at most 999 characters, at least one of them not white space. The error is a
/// refused allocation, which cannot occur if the text is a prefix of the source. Upstream: `scan_link_label_rest`.
pub fn scan_link_label<'t, R: LineRule>(
    alloc: Global,
    text: &'t str,
    rule: &R,
    in_table: bool,
) -> Result<Option<(usize, CowStr<'t>)>, AllocError>
    ensures value { IfOk result (λ found. option_map (λ p. (p.0, text_of p.1)) found
        ≡ link_label (R.skipped rule.now) in_table text.now) }
    // A text that is unchanged is a slice of the source, and allocates no memory.
    ensures borrowed { IfOk result (λ found. IfSome found (λ p.
        text_of p.1 ≡ take (p.0 - 1) text.now → IsBorrowed p.1)) }
    ensures unchanged { (n : ℕ)
        → link_label (R.skipped rule.now) in_table text.now ≡ Some (n + 1, take n text.now)
        → IsOk result }
    ensures refused { link_label (R.skipped rule.now) in_table text.now ≡ None → IsOk result }

    ensures within { IfOk result (λ found. IfSome found (λ p. p.0 ≤ length text.now)) }
    ensures boundary { IfOk result (λ found. IfSome found (λ p. IsCharBoundary text.now p.0)) }
{
    let Some(end) = label_end(text.as_bytes(), rule, in_table) else {
        return Ok(None);
    };
    let label = label_text(alloc, text, &text[..end], rule, in_table)?;
    Ok(Some((end + 1, label)))
}
