//! Backslash escapes (CommonMark 2.4) and entities (2.5) in a text, replaced by their characters.
ghost use Rattle.std.specs.Prelude.{◌≡◌, ◌≢◌, ◌<◌, ◌≤◌, ◌++◌, IfNone, IfOk, IfSome, IsOk, length, option_map};
ghost use Rattle.std.specs.Prelude.{slice_index, string_bytes};
ghost use Rattle.std.specs.List.{list_any};
ghost use Rattle.markdown_base.specs.Bytes.{backslash};
ghost use Rattle.markdown_base.specs.CowText.{text_of};
ghost use Rattle.markdown_base.specs.StoredTexts.{IsBorrowed};
ghost use Rattle.markdown_entities.specs.NamedEntity.{in_utf8};
ghost use Rattle.markdown_scan.specs.Entity.{text_in_utf8};
ghost use Rattle.markdown_scan.specs.Unescape.{escape, escape_or_entity, unescaped};
ghost use Rattle.markdown_scan.specs.Together.{may_begin_reference, IsPast};

use crate::entity::{EntityNames, EntityText, scan_entity};
use markdown_base::byte_tests::holds;
use markdown_base::cow_str::CowStr;
use std::alloc::{AllocError, Global};

/// Reads the escape that the bytes begin with, and returns its length in bytes and its character.
fn scan_escape(bytes: &[u8], in_table: bool) -> Option<(usize, char)>
    requires { slice_index bytes.now 0 ≡ backslash }
    ensures value { result ≡ escape in_table bytes.now }
    ensures within { IfSome result (λ found. found.0 ≤ length bytes.now) }
{
    if in_table && bytes.starts_with(b"\\\\|") {
        return Some((3, '|'));
    }
    match bytes {
        [_, mark, ..] if mark.is_ascii_punctuation() => Some((2, char::from(*mark))),
        _ => None,
    }
}

/// Reads the escape or entity that the bytes begin with, and returns its length in bytes and its characters. The first
/// byte tells that most bytes begin none.
#[inline]
fn scan_reference(bytes: &[u8], in_table: bool, names: EntityNames) -> Option<(usize, EntityText)>
    ensures value { option_map (λ found. (found.0, text_in_utf8 found.1)) result
        ≡ option_map in_utf8 (escape_or_entity names in_table bytes.now) }
    ensures within { IfSome result (λ found. found.0 ≤ length bytes.now) }
{
    if bytes.starts_with(b"\\") {
        let (length, character) = scan_escape(bytes, in_table)?;
        Some((length, EntityText::One(character)))
    } else if bytes.starts_with(b"&") {
        scan_entity(bytes, names)
    } else {
        None
    }
}

/// The number of bytes that are tested together, without a branch for each.
const TOGETHER: usize = 16;

/// Returns whether one of the bytes is a backslash or an ampersand, with which escapes and entities begin.
#[inline(always)]
fn may_hold_reference(bytes: &[u8]) -> bool
    ensures { result ≡ list_any may_begin_reference bytes.now }
{
    holds(bytes, b'\\') | holds(bytes, b'&')
}

/// Returns an offset such that no backslash or ampersand is before it: the length, or an offset close to the first one.
fn past_plain(bytes: &[u8]) -> usize
    ensures { IsPast may_begin_reference bytes.now result }
{
    let mut start = 0;
    'plain: while bytes.len() - start >= TOGETHER
        && !may_hold_reference(&bytes[start..start + TOGETHER])
    {
        start += TOGETHER;
    }
    let end = bytes.len();
    if end >= TOGETHER
        && end - start < TOGETHER
        && !may_hold_reference(&bytes[end - TOGETHER..end])
    {
        return end;
    }
    start
}

/// Returns the text before the first escape or entity, the characters of that, and the text after it; `None` if there
/// is none.
#[inline(always)]
fn split_at_reference<'t>(
    text: &'t str,
    in_table: bool,
    names: EntityNames,
) -> Option<(&'t str, EntityText, &'t str)>
    ensures none { IfNone result (unescaped names in_table text.now ≡ text.now) }
    ensures some { IfSome result (λ parts. unescaped names in_table text.now
        ≡ parts.0.now ++ (text_in_utf8 parts.1 ++ unescaped names in_table parts.2.now)) }
    ensures changes { IfSome result (λ parts. unescaped names in_table text.now ≢ text.now) }
    ensures shorter { IfSome result (λ parts. length parts.2.now < length text.now) }
{
    let bytes = text.as_bytes();
    for at in past_plain(bytes)..bytes.len() {
        if let Some((length, characters)) = scan_reference(&bytes[at..], in_table, names) {
            return Some((&text[..at], characters, &text[at + length..]));
        }
    }
    None
}

/// Returns a copy of the text with its escapes and entities replaced.
fn unescaped_copy(
    alloc: Global,
    text: &str,
    in_table: bool,
    names: EntityNames,
) -> Result<String, AllocError>
    ensures { IfOk result (λ made. string_bytes made ≡ unescaped names in_table text.now) }
{
    let mut made = String::new(alloc);
    let mut rest = text;
    while let Some((before, characters, after)) = split_at_reference(rest, in_table, names) {
        made.push_str(before)?;
        characters.append_to(&mut made)?;
        rest = after;
    }
    made.push_str(rest)?;
    Ok(made)
}

/// Returns the text with its backslash escapes and its entities replaced by their characters; in a table, two
/// backslashes and a pipe are replaced by the pipe. A text that does not change is returned as a slice of the source,
/// without an allocation. Fails only if an allocation fails.
// inlined: most texts are returned as they are, after one look
#[inline(always)]
pub fn unescape<'t>(
    alloc: Global,
    text: &'t str,
    in_table: bool,
    names: EntityNames,
) -> Result<CowStr<'t>, AllocError>
    ensures value { IfOk result (λ made. text_of made ≡ unescaped names in_table text.now) }
    ensures borrowed { IfOk result (λ made. text_of made ≡ text.now → IsBorrowed made) }
    ensures copied { IfOk result (λ made. IsBorrowed made → text_of made ≡ text.now) }
    ensures unchanged { unescaped names in_table text.now ≡ text.now → IsOk result }
{
    match split_at_reference(text, in_table, names) {
        None => Ok(CowStr::Borrowed(text)),
        Some(_) => Ok(CowStr::from(unescaped_copy(alloc, text, in_table, names)?)),
    }
}
