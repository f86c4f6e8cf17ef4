//! What begins at a `<`: an autolink to a URI or to an address, raw HTML, or nothing.
ghost use Rattle.std.specs.Prelude.{◌≡◌, ◌≤◌, ◌+◌, ◌-◌, ℕ, List, slice_index, None, Some, length, IfOk, IfSome, IsOk};
ghost use Rattle.std.specs.Prelude.{true, string_bytes, option_and_then};
ghost use Rattle.std.specs.Option.{option_map};
ghost use Rattle.std.specs.Str.{IsCharBoundary, IsUtf8};
ghost use Rattle.markdown_spans.specs.AfterLess.{address_at, declared_end, html_at, markup_at, unbroken};
ghost use Rattle.markdown_spans.specs.MarkupView.{markup_end, markup_of, is_unbroken};
ghost use Rattle.markdown_spans.specs.PrefixView.{length_by};
ghost use Rattle.markdown_raw_html.specs.TagSource.{tag_at};

use crate::prefixes::ContainerPrefix;
use markdown_raw_html::html_tag::{ScannedTag, scan_html_tag};
use markdown_raw_html::raw_html::RawHtmlScanner;
use markdown_scan::autolink::scan_uri_autolink;
use markdown_scan::email::scan_email_autolink;
use std::alloc::{AllocError, Global};

/// A `<` in a text.
#[derive(Clone, Copy, Drop)]
pub struct LessThan<'t> {
    /// The text, up to the end of the block.
    pub text: &'t str,
    /// The byte offset of the `<`.
    pub start: usize,
    /// The byte offset after it.
    pub at: usize,
    /// Whether there are autolinks to email addresses.
    pub addresses: bool,
}

/// What an autolink leads to.
#[derive(Clone, Copy, Drop)]
pub enum AutolinkKind {
    /// An absolute URI.
    Uri,
    /// An email address.
    Email,
}

/// An autolink.
#[derive(Drop)]
pub struct Autolink<'t> {
    pub kind: AutolinkKind,
    /// The byte offset after its `>`.
    pub end: usize,
    /// The URI or the address.
    pub destination: &'t str,
}

/// What was found at a `<`.
#[derive(Drop)]
pub enum MarkupFound<'t> {
    Autolink(Autolink<'t>),
    /// Raw HTML that is a slice of the source: the byte offset after its `>`.
    Html(usize),
    /// A tag that contains line prefixes: the byte offset after its `>`, and the tag without them.
    OwnedHtml(usize, String),
}

/// Returns the byte offset after the comment, CDATA section or declaration whose `<!` ends at the byte offset `at`;
/// `None` if there is none.
fn scan_declared(scanner: &mut RawHtmlScanner<'_>, at: usize) -> Option<usize>
    requires { at ≤ length scanner.old.text.now }
    ensures value { result ≡ declared_end scanner.old.text.now at }
    ensures within { IfSome result (λ end. end ≤ length scanner.old.text.now) }
    ensures closed { IfSome result (λ end. slice_index scanner.old.text.now (end - 1) ≡ 62) }
    ensures text { scanner.new.text ≡ scanner.old.text }
{
    if let Some(end) = scanner.scan_comment(at) {
        return Some(end);
    }
    if let Some(end) = scanner.scan_cdata_section(at) {
        return Some(end);
    }
    scanner.scan_declaration(at)
}

/// Returns a text of these bytes.
fn into_text(bytes: Vec<u8>) -> String
    requires { IsUtf8 bytes.items }
    ensures { string_bytes result ≡ bytes.items }
{
    String::from_utf8(bytes).unwrap()
}

/// Reads the tag whose `<` is at the byte offset `start`. Returns the offset after its `>`, and the tag without its
/// line prefixes if it contains any; `None` if there is no tag.
fn scan_tag(
    alloc: Global,
    text: &str,
    start: usize,
    prefix: &ContainerPrefix<'_>,
) -> Result<Option<(usize, Option<String>)>, AllocError>
    requires { IsCharBoundary text.now start }
    ensures value { IfOk result (λ found. option_map (λ tag.
        (tag.0, option_map string_bytes tag.1)) found
        ≡ tag_at (λ rest. Some (length_by prefix.now rest)) text.now start) }
    ensures plain { option_and_then (λ tag.
        tag.1) (tag_at (λ rest. Some (length_by prefix.now rest)) text.now start)
        ≡ None → IsOk result }
    ensures boundary { IfOk result (λ found. IfSome found (λ tag. IsCharBoundary text.now tag.0)) }
{
    match scan_html_tag(alloc, text, start, prefix)? {
        None => Ok(None),
        Some(
            ScannedTag {
                end,
                without_prefixes: None,
            },
        ) => Ok(Some((end, None))),
        Some(
            ScannedTag {
                end,
                without_prefixes: Some(bytes),
            },
        ) => Ok(Some((end, Some(into_text(bytes))))),
    }
}

/// Returns raw HTML without a line prefix that ends at this byte offset.
#[tactic(auto, using(crate::proofs::AfterLessLemmas::closed_boundary))]
fn as_html(text: &str, end: Option<usize>) -> Option<(usize, Option<String>)>
    requires { IfSome end (λ end. (end ≤ length text.now) × (slice_index text.now (end - 1) ≡ 62)) }
    ensures value { option_map (λ tag. (tag.0, option_map string_bytes tag.1)) result
        ≡ unbroken end }
    ensures boundary { IfSome result (λ tag. IsCharBoundary text.now tag.0) }
{
    match end {
        Some(end) => Some((end, None)),
        None => None,
    }
}

/// Reads the raw HTML whose `<` is at the byte offset `start`, where `at` is the offset after the `<`. Returns the
/// offset after its `>`, and its text if it is a tag that contains line prefixes.
fn scan_html(
    alloc: Global,
    text: &str,
    start: usize,
    at: usize,
    scanner: &mut RawHtmlScanner<'_>,
    prefix: &ContainerPrefix<'_>,
) -> Result<Option<(usize, Option<String>)>, AllocError>
    requires text { scanner.old.text.now ≡ text.now }
    requires boundary { IsCharBoundary text.now start }
    ensures value { IfOk result (λ found. option_map (λ tag.
        (tag.0, option_map string_bytes tag.1)) found
        ≡ html_at (λ rest. Some (length_by prefix.now rest)) text.now start at) }
    ensures plain { option_and_then (λ tag.
        tag.1) (html_at (λ rest. Some (length_by prefix.now rest)) text.now start
        at) ≡ None → IsOk result }
    ensures boundary { IfOk result (λ found. IfSome found (λ tag. IsCharBoundary text.now tag.0)) }
    ensures same { scanner.new.text ≡ scanner.old.text }
{
    match text.as_bytes().get(at) {
        Some(b'!') => Ok(as_html(text, scan_declared(scanner, at + 1))),
        Some(b'?') => Ok(as_html(text, scanner.scan_processing_instruction(at + 1))),
        _ => scan_tag(alloc, text, start, prefix),
    }
}

/// Reads the autolink to an address whose `<` is the byte before `at`, where addresses are on. Returns the byte offset
/// after its `>`, and the address.
fn scan_address(text: &str, at: usize, addresses: bool) -> Option<(usize, &str)>
    requires { IsCharBoundary text.now at }
    ensures value { option_map (λ found. (found.0, found.1.now)) result
        ≡ address_at addresses text.now at }
    ensures boundary { IfSome result (λ found. IsCharBoundary text.now found.0) }
{
    if !addresses {
        return None;
    }
    scan_email_autolink(text, at)
}

/// Reads what begins at a `<`: the first that there is of an autolink to a URI, one to an address where addresses are
/// on, and raw HTML; returns `None` if there is none of these. `scanner` has to be a scanner of the same text. The error
/// is a refused allocation, which can only occur for a tag that contains line prefixes, since nothing else allocates
/// memory.
#[tactic(auto, unfolding(crate::specs::AfterLess::markup_at))]
pub fn scan_after_less<'t>(
    alloc: Global,
    less: &LessThan<'t>,
    scanner: &mut RawHtmlScanner<'_>,
    prefix: &ContainerPrefix<'_>,
) -> Result<Option<MarkupFound<'t>>, AllocError>
    requires text { scanner.old.text.now ≡ less.now.text.now }
    requires start { IsCharBoundary less.now.text.now less.now.start }
    requires after { IsCharBoundary less.now.text.now less.now.at }
    ensures value { IfOk result (λ found. option_map markup_of found
        ≡ markup_at (λ rest. Some (length_by prefix.now rest)) less.now.addresses
        less.now.text.now less.now.start less.now.at) }
    ensures plain { is_unbroken
        (markup_at (λ rest. Some (length_by prefix.now rest)) less.now.addresses
        less.now.text.now less.now.start less.now.at) ≡ true → IsOk result }
    ensures boundary { IfOk result (λ found. IfSome found (λ markup.
        IsCharBoundary less.now.text.now (markup_end markup))) }
    ensures same { scanner.new.text ≡ scanner.old.text }
{
    if let Some((end, uri)) = scan_uri_autolink(less.text, less.at) {
        return Ok(Some(MarkupFound::Autolink(Autolink {
            kind: AutolinkKind::Uri,
            end,
            destination: uri,
        })));
    }
    if let Some((end, address)) = scan_address(less.text, less.at, less.addresses) {
        return Ok(Some(MarkupFound::Autolink(Autolink {
            kind: AutolinkKind::Email,
            end,
            destination: address,
        })));
    }
    match scan_html(alloc, less.text, less.start, less.at, scanner, prefix)? {
        None => Ok(None),
        Some((end, None)) => Ok(Some(MarkupFound::Html(end))),
        Some((end, Some(tag))) => Ok(Some(MarkupFound::OwnedHtml(end, tag))),
    }
}
