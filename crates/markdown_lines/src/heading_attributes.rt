//! Attributes in braces at the end of a heading's content: an id, classes, and names with or without values. Functions
//! that return a `Result` fail only if an allocation fails.
ghost use Rattle.std.specs.Prelude.{◌≡◌, ◌+◌, ◌-◌, ◌≤◌, ◌<◌, ◌++◌, ◌∷◌, [], true, false, not, length, map, drop};
ghost use Rattle.std.specs.Prelude.{slice_range, IfOk, IfSome, MatchOption};
ghost use Rattle.std.specs.List.{filter, position_or_len, slice_split, suffix_len};
ghost use Rattle.std.specs.Option.{option_map, option_or};
ghost use Rattle.std.specs.Str.{IsCharBoundary};
ghost use Rattle.markdown_base.specs.CowText.{text_of};
ghost use Rattle.markdown_base.specs.Event.{attribute_view};
ghost use Rattle.markdown_lines.specs.HeadingAttributes.{AddsWord, attributed, braces_from};
ghost use Rattle.markdown_lines.specs.HeadingAttributes.{braces_in, braces_to};
ghost use Rattle.markdown_lines.specs.HeadingAttributes.{is_enclosed, name_and_value};
ghost use Rattle.markdown_lines.specs.HeadingAttributes.{parts_words, words_in, AreAttributes};

use crate::atx_heading::{AtxHeading, content_length, trimmed_length};
use crate::braces::Braces;
use crate::bytes::{bytes_of, part_of};
use crate::line::is_space_or_tab;
use markdown_base::block_parts::HeadingAttributes;
use markdown_base::cow_str::CowStr;
use std::alloc::{AllocError, Global};

/// Returns whether a byte may stand between the braces.
fn is_enclosed(byte: u8) -> bool
    ensures { result ≡ is_enclosed byte }
{
    match byte {
        b'{' | b'}' | b'<' | b'>' | b'\\' => false,
        _ => true,
    }
}

/// Returns the length of the bytes without those at their end that may stand between the braces.
fn opened_length(bytes: &[u8]) -> usize
    ensures value { result ≡ length bytes.now - suffix_len is_enclosed bytes.now }
    ensures within { result ≤ length bytes.now }
{
    let mut end = bytes.len();
    'inside: while end > 0 && is_enclosed(bytes[end - 1]) {
        end -= 1;
    }
    end
}

/// Returns the indexes of the braces of which the `}` is at `close`.
fn braces_to(bytes: &[u8], close: usize) -> Option<Braces>
    requires { close < length bytes.now }
    ensures value { result ≡ braces_to close bytes.now }
    ensures within { IfSome result (λ braces. (braces.opening < braces.closing)
        × (braces.closing < length bytes.now)) }
{
    let opened = opened_length(&bytes[..close]);
    if opened > 0 && bytes[opened - 1] == b'{' {
        Some(Braces {
            opening: opened - 1,
            closing: close,
        })
    } else {
        None
    }
}

/// Returns the indexes of the braces at the end of a line's content.
fn braces_in(content: &[u8]) -> Option<Braces>
    ensures value { result ≡ braces_in content.now }
    ensures within { IfSome result (λ braces. (braces.opening < braces.closing)
        × (braces.closing < length content.now)) }
{
    let end = trimmed_length(content);
    if end > 0 && content[end - 1] == b'}' {
        braces_to(content, end - 1)
    } else {
        None
    }
}

/// Returns the braces at the end of the content from byte offset `from` up to `stop`, by byte offsets.
pub fn braces_at(text: &str, from: usize, stop: usize) -> Option<Braces>
    ensures { result
        ≡ option_map (braces_from from) (braces_in (slice_range text.now from stop)) }
{
    let braces = braces_in(bytes_of(text, from, stop))?;
    Some(Braces {
        opening: from.saturating_add(braces.opening),
        closing: from.saturating_add(braces.closing),
    })
}

/// Returns an ATX heading with the attributes at the end of its line, whose content ends before `stop`, and with the
/// content before them.
pub fn with_attributes(text: &str, heading: AtxHeading, stop: usize) -> AtxHeading
    ensures { result ≡ attributed (slice_range text.now heading.from stop) heading }
{
    let content = bytes_of(text, heading.from, stop);
    let Some(braces) = braces_in(content) else {
        return heading;
    };
    let from = heading.from;
    AtxHeading {
        level: heading.level,
        from,
        to: from.saturating_add(content_length(&content[..braces.opening])),
        braces: Some(Braces {
            opening: from.saturating_add(braces.opening),
            closing: from.saturating_add(braces.closing),
        }),
    }
}

/// Returns whether a byte parts words: a space, a tab or a form feed.
fn parts_words(byte: u8) -> bool
    ensures { result ≡ parts_words byte }
{
    is_space_or_tab(byte) || byte == b'\x0c'
}

/// Returns the number of bytes before the first that parts words, or of all bytes where none does.
fn word_length(bytes: &[u8]) -> usize
    ensures value { result ≡ position_or_len parts_words bytes.now }
    ensures within { result ≤ length bytes.now }
{
    for at in 0..bytes.len() {
        if parts_words(bytes[at]) {
            return at;
        }
    }
    bytes.len()
}

/// Returns the first word of a text, and what follows the byte after it, if there is one.
fn first_word(text: &str) -> (&str, Option<&str>)
    ensures shorter { IfSome result.1 (λ rest. length rest.now < length text.now) }
    ensures cut { MatchOption result.1
        (slice_split parts_words text.now ≡ result.0.now ∷ [])
        (λ rest. slice_split parts_words text.now
        ≡ result.0.now ∷ slice_split parts_words rest.now) }
{
    let length = word_length(text.as_bytes());
    if length == text.len() {
        return (text, None);
    }
    let rest = text.split_at(length + 1).1;
    (text.split_at(length).0, Some(rest))
}

/// Returns a name, and its value if it has one.
fn name_and_value(word: &str) -> (CowStr<'_>, Option<CowStr<'_>>)
    ensures { attribute_view result ≡ name_and_value word.now }
{
    match word.split_once('=') {
        Some((name, value)) => (CowStr::Borrowed(name), Some(CowStr::Borrowed(value))),
        None => (CowStr::Borrowed(word), None),
    }
}

/// Adds what a word says to the attributes.
fn add_word<'a>(attributes: &mut HeadingAttributes<'a>, word: &'a str) -> Result<(), AllocError>
    ensures { IfOk result (λ _. AddsWord word.now attributes.old attributes.new) }
{
    if word.len() < 2 {
        return Ok(());
    }
    match word.as_bytes()[0] {
        b'#' => attributes.id = Some(CowStr::Borrowed(word.split_at(1).1)),
        b'.' => attributes
            .classes
            .push(CowStr::Borrowed(word.split_at(1).1))?,
        _ => attributes.attrs.push(name_and_value(word))?,
    }
    Ok(())
}

/// Returns the attributes that words are, which white space parts.
fn attributes_of<'a>(alloc: Global, words: &'a str) -> Result<HeadingAttributes<'a>, AllocError>
    ensures { IfOk result (λ made. AreAttributes made (slice_split parts_words words.now)) }
{
    let mut attributes = HeadingAttributes {
        id: None,
        classes: Vec::new(alloc),
        attrs: Vec::new(alloc),
    };
    let mut left = Some(words);
    'words: while let Some(more) = left {
        let (word, rest) = first_word(more);
        add_word(&mut attributes, word)?;
        left = rest;
    }
    Ok(attributes)
}

/// Returns the attributes that the words between braces are, which are given by their byte offsets.
pub fn heading_attributes<'a>(
    alloc: Global,
    text: &'a str,
    braces: Braces,
) -> Result<HeadingAttributes<'a>, AllocError>
    ensures { IfOk result (λ made. IsCharBoundary text.now (braces.opening + 1)
        → IsCharBoundary text.now braces.closing → AreAttributes made (words_in text.now braces)) }
{
    attributes_of(
        alloc,
        part_of(text, braces.opening.saturating_add(1), braces.closing),
    )
}
