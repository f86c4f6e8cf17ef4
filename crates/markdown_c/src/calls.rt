//! The functions that C calls. A slice is passed as a pointer and a length, and the allocator is not passed.
ghost use Rattle.std.specs.Prelude.{◌≡◌, ℕ, List, Result};
ghost use Rattle.markdown_c.specs.CallsFromC.{IsChosenOutcome, IsHtmlOutcome, IsJsonOutcome, IsOutlineOutcome};
ghost use Rattle.markdown_c.specs.CallsFromC.{IsSafeHtmlOutcome, SafeChoiceView, buffer_after, returned_number};
ghost use Rattle.markdown_c.specs.declared.readings.Refusal.{Refusal};
ghost use Rattle.markdown_safe.specs.SafeRules.{default_rules};

use crate::buffer::answer;
use crate::choice::SafeChoice;
use crate::readings::{chosen_html_of, html_of, json_of, outline_of, safe_html_of};
use std::alloc::Global;

/// Renders a trusted text as HTML, which is not sanitised. Returns the length of the HTML in bytes, and writes the HTML to
/// the front of `out`, if it fits; otherwise `out` is unchanged. The text is read in full. Bits 1 to 11 and 13 to 15 of
/// `options` enable extensions, as in `Options`, bit 27 makes links of bare addresses, and bit 28 gives each heading an id;
/// bit 29 asks for the port's profile instead, which has no such links and ids, and bit 30 changes nothing.
///
/// # Errors
///
/// Returns -1 if `text` is not UTF-8, -2 if an allocation fails, -3 if more than 2^64 - 1 Starts are open in one image,
/// and -4 if another bit of `options` is set. `out` is then unchanged.
#[unsafe(no_mangle)]
pub extern "C" fn markdown_to_html(alloc: Global, text: &[u8], options: u32, out: &mut [u8]) -> i64
    ensures { (outcome : Result (List ℕ) Refusal)
        × IsHtmlOutcome options text.now outcome
        × (result ≡ returned_number outcome) × (out.new ≡ buffer_after out.old outcome) }
{
    answer(html_of(alloc, text, options), out)
}

/// Renders a text that a stranger wrote as safe HTML: raw HTML is shown as text, but for its comments, which go, and the
/// tags `br`, `wbr` and `hr`; a destination whose scheme could run a script is left out; links to other sites have a
/// `rel`; and elements stand where a browser leaves them. Returns the length of the HTML in bytes, and writes the HTML to
/// the front of `out`, if it fits; otherwise `out` is unchanged. `options` are as for `markdown_to_html`.
///
/// # Errors
///
/// As those of `markdown_to_html`. `out` is then unchanged.
#[unsafe(no_mangle)]
pub extern "C" fn markdown_to_safe_html(
    alloc: Global,
    text: &[u8],
    options: u32,
    out: &mut [u8],
) -> i64
    ensures { (outcome : Result (List ℕ) Refusal)
        × IsSafeHtmlOutcome default_rules options text.now outcome
        × (result ≡ returned_number outcome) × (out.new ≡ buffer_after out.old outcome) }
{
    answer(safe_html_of(alloc, text, options), out)
}

/// Renders a text that a stranger wrote as safe HTML by rules that the caller chooses. `prefix` follows `user-content-` in
/// the ids of headings and footnotes, and in links to them. Of `rules` bit 0 makes links of images, bit 1 leaves only
/// their alt text, and bit 2 leaves out the `rel` of links to other sites. `nesting` is the number of tags that may stand in
/// one another, and `limit` the number of bytes that the HTML may have. The rest is as for `markdown_to_safe_html`.
///
/// # Errors
///
/// Returns -7 if the HTML has more bytes than `limit`, -1 also if `prefix` is not UTF-8, and -4 also if another bit of
/// `rules` is set; otherwise as `markdown_to_safe_html`. `out` is then unchanged.
#[unsafe(no_mangle)]
pub extern "C" fn markdown_to_safe_html_by(
    alloc: Global,
    text: &[u8],
    options: u32,
    prefix: &[u8],
    rules: u32,
    nesting: usize,
    limit: usize,
    out: &mut [u8],
) -> i64
    ensures { let choice : SafeChoiceView = record {
      prefix = prefix.now;
      bits = rules;
      nesting = nesting;
      limit = limit;
    } in
        (outcome : Result (List ℕ) Refusal)
        × IsChosenOutcome (λ rules. IsSafeHtmlOutcome rules options text.now) choice outcome
        × (result ≡ returned_number outcome) × (out.new ≡ buffer_after out.old outcome) }
{
    let choice = SafeChoice {
        prefix,
        bits: rules,
        nesting,
        limit,
    };
    answer(chosen_html_of(alloc, text, options, choice), out)
}

/// Writes the events of a text as JSON: a line for each event, with its range of byte offsets in `text`. Returns the
/// length of the lines in bytes, and writes them to the front of `out`, if they fit; otherwise `out` is unchanged.
/// `options` are as for `markdown_to_html`.
///
/// # Errors
///
/// Returns -1 if `text` is not UTF-8, -2 if an allocation fails, and -4 if a bit of `options` means nothing. `out` is then
/// unchanged.
#[unsafe(no_mangle)]
pub extern "C" fn markdown_to_json(alloc: Global, text: &[u8], options: u32, out: &mut [u8]) -> i64
    ensures { (outcome : Result (List ℕ) Refusal)
        × IsJsonOutcome options text.now outcome
        × (result ≡ returned_number outcome) × (out.new ≡ buffer_after out.old outcome) }
{
    answer(json_of(alloc, text, options), out)
}

/// Writes the headings of a text as JSON: a line for each, with its level, its text without markup, its range of byte
/// offsets in `text`, and with bit 28 of `options` its id. Returns the length of the lines in bytes, and writes them to
/// the front of `out`, if they fit; otherwise `out` is unchanged. `options` are as for `markdown_to_html`.
///
/// # Errors
///
/// Returns -1 if `text` is not UTF-8, -2 if an allocation fails, and -4 if a bit of `options` means nothing. `out` is then
/// unchanged.
#[unsafe(no_mangle)]
pub extern "C" fn markdown_to_outline(
    alloc: Global,
    text: &[u8],
    options: u32,
    out: &mut [u8],
) -> i64
    ensures { (outcome : Result (List ℕ) Refusal)
        × IsOutlineOutcome options text.now outcome
        × (result ≡ returned_number outcome) × (out.new ≡ buffer_after out.old outcome) }
{
    answer(outline_of(alloc, text, options), out)
}
