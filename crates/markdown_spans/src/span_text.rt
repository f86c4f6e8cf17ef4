//! The text of code spans (CommonMark 6.1) and of math spans.
ghost use Rattle.std.specs.Prelude.{◌≡◌, ◌≤◌, ◌<◌, ◌-◌, ◌++◌, None, Some, drop, length, take, true, false, IfNone};
ghost use Rattle.std.specs.Prelude.{IfOk, IfSome, IsOk, IsTrue, IsOkAnd, string_bytes};
ghost use Rattle.std.specs.Option.{option_map};
ghost use Rattle.std.specs.List.{list_all};
ghost use Rattle.std.specs.Char.{is_ascii};
ghost use Rattle.markdown_base.specs.CowText.{text_of};
ghost use Rattle.markdown_base.specs.StoredTexts.{IsBorrowed};
ghost use Rattle.markdown_spans.specs.CodeText as code;
ghost use Rattle.markdown_document.specs.Origins.{IsSliceWithin, origin_of};
ghost use Rattle.markdown_document.specs.PlacedNodes.{IsSlicedOf};
ghost use Rattle.markdown_spans.specs.CodeText.{has_outer_spaces, without_outer_spaces, is_sliced, span_origin};
ghost use Rattle.markdown_spans.specs.PrefixView.{length_by};
ghost use Rattle.markdown_scan.specs.LineEnd.{line_ending};

use crate::prefixes::ContainerPrefix;
use markdown_base::cow_str::CowStr;
use markdown_scan::line_end::scan_line_ending;
use std::alloc::{AllocError, Global};

/// The kinds of spans.
#[derive(Clone, Copy, Debug, PartialEq, Eq, Drop)]
pub enum SpanKind {
    /// Code: each line ending becomes one space.
    Code,
    /// Math: line endings are kept.
    Math,
}

impl SpanKind {
    ghost use Rattle.markdown_spans.specs.CodeText as code;

    /// Returns what replaces the line ending of `ending` bytes that the bytes begin with.
    fn shown_ending(self, bytes: &[u8], ending: usize) -> &'static str
        requires { line_ending bytes.now ≡ Some ending }
        ensures { result.now ≡ code.shown_ending self (take ending bytes.now) }
    {
        match (self, bytes[0], ending) {
            (SpanKind::Code, _, _) => " ",
            (SpanKind::Math, b'\n', _) => "\n",
            (SpanKind::Math, _, 1) => "\r",
            (SpanKind::Math, _, _) => "\r\n",
        }
    }

    /// Reads a line ending with the prefix after it, or an escaped pipe in a table, at the beginning of the bytes.
    /// Returns its length in bytes and what replaces it; `None` if the bytes begin with neither.
    fn scan_piece(
        self,
        bytes: &[u8],
        in_table: bool,
        prefix: &ContainerPrefix<'_>,
    ) -> Option<(usize, &'static str)>
        ensures value { option_map (λ p. record { taken = p.0; shown = p.1.now }) result
            ≡ code.piece_at self in_table (length_by prefix.now) bytes.now }
        ensures within { IfSome result (λ p. p.0 ≤ length bytes.now) }
    {
        if let Some(ending) = scan_line_ending(bytes) {
            let skipped = prefix.length_of(&bytes[ending..]);
            return Some((ending + skipped, self.shown_ending(bytes, ending)));
        }
        if in_table && bytes.starts_with(b"\\|") {
            Some((2, "|"))
        } else {
            None
        }
    }

    /// Returns the text before the first piece that is replaced, what replaces the piece, and the text after it; `None`
    /// if there is no such piece.
    fn split_at_piece<'t>(
        self,
        text: &'t str,
        in_table: bool,
        prefix: &ContainerPrefix<'_>,
    ) -> Option<(&'t str, &'static str, &'t str)>
        ensures same { IfNone result (code.is_sliced in_table text.now ≡ true) }
        ensures none { IfNone result
            (code.lines_joined self in_table (length_by prefix.now) text.now ≡ text.now) }
        ensures some { IfSome result (λ parts.
            code.lines_joined self in_table (length_by prefix.now) text.now
            ≡ parts.0.now ++ (parts.1.now
            ++ code.lines_joined self in_table (length_by prefix.now) parts.2.now)) }
        ensures changes { IfSome result (λ parts. code.is_sliced in_table text.now ≡ false) }
        ensures shorter { IfSome result (λ parts. length parts.2.now < length text.now) }
    {
        let bytes = text.as_bytes();
        for (at, _) in bytes.iter().enumerate() {
            if let Some((taken, shown)) = self.scan_piece(&bytes[at..], in_table, prefix) {
                return Some((&text[..at], shown, &text[at + taken..]));
            }
        }
        None
    }

    /// Returns a copy of the text with its line endings, line prefixes and escaped pipes replaced.
    fn join_lines(
        self,
        alloc: Global,
        text: &str,
        in_table: bool,
        prefix: &ContainerPrefix<'_>,
    ) -> Result<String, AllocError>
        ensures { IfOk result (λ made. string_bytes made
            ≡ code.lines_joined self in_table (length_by prefix.now)
            text.now) }
    {
        let mut made = String::new(alloc);
        let mut rest = text;
        while let Some((before, shown, after)) = self.split_at_piece(rest, in_table, prefix) {
            made.push_str(before)?;
            made.push_str(shown)?;
            rest = after;
        }
        made.push_str(rest)?;
        Ok(made)
    }
}

/// Returns whether the bytes are all spaces.
fn is_all_spaces(bytes: &[u8]) -> bool
    ensures { result ≡ list_all code.is_space bytes.now }
{
    for byte in bytes {
        if *byte != b' ' {
            return false;
        }
    }
    true
}

/// Returns whether the bytes begin and end with a space, and are not all spaces.
fn has_outer_spaces(bytes: &[u8]) -> bool
    ensures { result ≡ has_outer_spaces bytes.now }
{
    bytes.first() == Some(&b' ') && bytes.last() == Some(&b' ') && !is_all_spaces(bytes)
}

/// Returns the slice without one space at each end, if it has spaces at both ends and is not all spaces.
fn slice_outer_spaces(text: &str) -> &str
    ensures value { result.now ≡ without_outer_spaces text.now }
    ensures part { IsSliceWithin text.now 0 (length text.now) result.now }
{
    if has_outer_spaces(text.as_bytes()) {
        &text[1..text.len() - 1]
    } else {
        text
    }
}

/// Returns the text without one space at each end, if it has spaces at both ends and is not all spaces.
fn drop_outer_spaces(text: String) -> String
    ensures { string_bytes result ≡ without_outer_spaces (string_bytes text) }
{
    let mut made = text;
    if has_outer_spaces(made.as_str().as_bytes()) {
        made.truncate(made.len() - 1);
        made.remove(0);
    }
    made
}

/// Returns the text of a code span (CommonMark 6.1) or of a math span, from the source text between its delimiters. If
/// that contains no line ending and, in a table, no `\|`, the result is a slice of the source, and no memory is
/// allocated. Otherwise the result is owned, and the error is a refused allocation. Upstream: `make_code_span`,
/// `make_math_span`.
pub fn span_text<'t>(
    alloc: Global,
    text: &'t str,
    kind: SpanKind,
    in_table: bool,
    prefix: &ContainerPrefix<'_>,
) -> Result<CowStr<'t>, AllocError>
    ensures value { IfOk result (λ made. text_of made
        ≡ code.span_text kind in_table (length_by prefix.now)
        text.entry.now) }
    ensures borrowed { is_sliced in_table text.entry.now ≡ true → IsOkAnd result IsBorrowed }
    ensures origin { IfOk result (λ span. origin_of span ≡ span_origin in_table text.entry.now) }
    ensures slice { IfOk result (λ span.
        IsSlicedOf text.entry.now 0 (length text.entry.now) (origin_of span)
        (text_of span)) }
{
    if kind.split_at_piece(text, in_table, prefix).is_none() {
        return Ok(CowStr::Borrowed(match kind {
            SpanKind::Code => slice_outer_spaces(text),
            SpanKind::Math => text,
        }));
    }
    let made = kind.join_lines(alloc, text, in_table, prefix)?;
    Ok(CowStr::from(match kind {
        SpanKind::Code => drop_outer_spaces(made),
        SpanKind::Math => made,
    }))
}
