//! What safe HTML keeps of raw HTML: the text outside of comments, and which tag of an element without content it is.
ghost use Rattle.std.specs.Prelude.{◌≡◌, ◌<◌, [], false, true, length, IfOk, IfSome, MatchOption, string_bytes};
ghost use Rattle.markdown_base.specs.CowText.{text_of};
ghost use Rattle.markdown_safe.specs.Comments.{ends_in_comment, has_comment, is_all_white_space, shown_html};
ghost use Rattle.markdown_safe.specs.Comments.{without_comments};
ghost use Rattle.markdown_safe.specs.CommentSteps.{IsReadTo, IsReadToText};
ghost use Rattle.markdown_safe.specs.VoidTags.{ends_name, ends_tag, is_after_less_than, is_rest_of_tag, is_tag_of};

use markdown_base::cow_str::CowStr;
use std::alloc::{AllocError, Global};

/// What a comment begins with.
const OPENING: &str = "<!--";

/// What a comment ends with. Its hyphens may be those of the opening.
const CLOSING: &str = "-->";

/// Returns what follows the comment that a text begins in, if the comment ends.
fn after_comment(html: &str) -> Option<&str>
    ensures read { IsReadToText true html.now [] result }
    ensures shorter { IfSome result (λ rest. length rest.now < length html.now) }
{
    match html.split_once(CLOSING) {
        Some((_, rest)) => Some(rest),
        None => None,
    }
}

/// Returns the first text of a piece that is in no comment: what follows the comment that it begins in, or all of it.
fn first_text(within: bool, html: &str) -> Option<&str>
    ensures { IsReadToText within html.now [] result }
{
    if within {
        after_comment(html)
    } else {
        Some(html)
    }
}

/// Returns the text before the first comment, and from the second byte of that comment on, if there is one.
fn before_comment(html: &str) -> Option<(&str, &str)>
    ensures { MatchOption result (IsReadTo false html.now html.now false [])
        (λ parts. IsReadTo false html.now parts.0.now true parts.1.now
        × (length parts.1.now < length html.now)) }
{
    match html.find(OPENING) {
        Some(start) => Some((&html[..start], &html[start + 1..])),
        None => None,
    }
}

/// Returns a piece of raw HTML, which begins in a comment or not, without comments. Fails only if an allocation fails.
fn without_comments(alloc: Global, within: bool, html: &str) -> Result<String, AllocError>
    ensures { IfOk result (λ made. string_bytes made ≡ without_comments within html.now) }
{
    let mut made = String::new(alloc);
    let mut next = first_text(within, html);
    while let Some(text) = next {
        match before_comment(text) {
            Some((kept, comment)) => {
                made.push_str(kept)?;
                next = after_comment(comment);
            }
            None => {
                made.push_str(text)?;
                return Ok(made);
            }
        }
    }
    Ok(made)
}

/// Returns whether a piece of raw HTML, which begins in a comment or not, has a part of a comment.
fn has_comment(within: bool, html: &str) -> bool
    ensures { result ≡ has_comment within html.now }
{
    within || html.contains(OPENING)
}

/// Returns whether bytes are white space alone, or none.
fn is_all_white_space(bytes: &[u8]) -> bool
    ensures { result ≡ is_all_white_space bytes.now }
{
    for byte in bytes {
        if !byte.is_ascii_whitespace() {
            return false;
        }
    }
    true
}

/// Returns what is shown of a piece of raw HTML, which begins in a comment or not: the text without comments, or
/// nothing if only white space is left. A piece that has no part of a comment is returned as it is, without an
/// allocation. Fails only if an allocation fails.
pub(crate) fn shown_html<'a>(
    alloc: Global,
    within: bool,
    html: CowStr<'a>,
) -> Result<CowStr<'a>, AllocError>
    ensures text { IfOk result (λ made. text_of made ≡ shown_html within (text_of html.entry)) }
    ensures same { has_comment within (text_of html.entry) ≡ false → result ≡ Ok html.entry }
{
    if !has_comment(within, html.as_str()) {
        return Ok(html);
    }
    let made = without_comments(alloc, within, html.as_str())?;
    if is_all_white_space(made.as_bytes()) {
        return Ok(CowStr::from(""));
    }
    Ok(CowStr::from(made))
}

/// Returns whether a piece of raw HTML, which begins in a comment or not, ends in one, so that the next begins in it.
pub(crate) fn ends_in_comment(within: bool, html: &str) -> bool
    ensures { result ≡ ends_in_comment within html.now }
{
    let mut next = first_text(within, html);
    while let Some(text) = next {
        match before_comment(text) {
            Some((_, comment)) => next = after_comment(comment),
            None => return false,
        }
    }
    true
}

/// Returns whether the name of a tag is not longer: whether `>`, `/` or white space comes next.
fn ends_name(bytes: &[u8]) -> bool
    ensures { result ≡ ends_name bytes.now }
{
    match bytes.first() {
        Some(byte) => *byte == b'>' || *byte == b'/' || byte.is_ascii_whitespace(),
        None => false,
    }
}

/// Returns whether the first `>` is the last byte but for white space.
fn ends_tag(bytes: &[u8]) -> bool
    ensures { result ≡ ends_tag bytes.now }
{
    for (at, byte) in bytes.iter().enumerate() {
        if *byte == b'>' {
            return is_all_white_space(&bytes[at + 1..]);
        }
    }
    false
}

/// Returns whether bytes are what follows the name of a tag, with attributes or without.
fn is_rest_of_tag(bytes: &[u8]) -> bool
    ensures { result ≡ is_rest_of_tag bytes.now }
{
    ends_name(bytes) && ends_tag(bytes)
}

/// Returns whether bytes are what follows the `<` of a tag of a name, in upper or lower case.
fn is_after_less_than(name: &[u8], bytes: &[u8]) -> bool
    ensures { result ≡ is_after_less_than name.now bytes.now }
{
    if bytes.len() < name.len() {
        return false;
    }
    bytes[..name.len()].eq_ignore_ascii_case(name) && is_rest_of_tag(&bytes[name.len()..])
}

/// Returns whether a text is one tag of a name, in upper or lower case, with attributes or without, and white space
/// around it.
pub(crate) fn is_tag_of(name: &str, html: &str) -> bool
    ensures { result ≡ is_tag_of name.now html.now }
{
    let bytes = html.as_bytes().trim_ascii_start();
    match bytes.split_first() {
        Some((byte, rest)) => *byte == b'<' && is_after_less_than(name.as_bytes(), rest),
        None => false,
    }
}
