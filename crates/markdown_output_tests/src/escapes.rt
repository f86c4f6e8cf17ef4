//! What each byte of a text is written as in HTML.
use crate::signs::{Sign, items_of};
use markdown_base::tag::LinkType;
use markdown_test_helpers::rows::Rows;
use markdown_test_parsers::html::html_of;
use std::alloc::{AllocError, Global};
use std::test::Fail;

fn push_code(all: &mut String, code: u32) -> Result<(), AllocError> {
    if let Some(c) = char::from_u32(code) {
        all.push(c)?;
    }
    Ok(())
}

/// Returns each character of one byte, and one with each first byte and each later byte of UTF-8.
fn all_bytes(alloc: Global) -> Result<String, AllocError> {
    let mut all = String::new(alloc);
    for code in 0u32..192 {
        push_code(&mut all, code)?;
    }
    for first in 3u32..32 {
        push_code(&mut all, first * 64)?;
    }
    push_code(&mut all, 0x800)?;
    for first in 1u32..16 {
        push_code(&mut all, first * 4096)?;
    }
    push_code(&mut all, 0x10000)?;
    for first in 1u32..5 {
        push_code(&mut all, first * 262144)?;
    }
    Ok(all)
}

/// Returns what a text is written as, by the table, with `quote` for a quote.
fn escape(alloc: Global, text: &str, quote: &str) -> Result<String, AllocError> {
    let ampersands = text.replace(alloc, "&", "&amp;")?;
    let openers = ampersands.as_str().replace(alloc, "<", "&lt;")?;
    let closers = openers.as_str().replace(alloc, ">", "&gt;")?;
    closers.as_str().replace(alloc, "\"", quote)
}

/// The bytes that a destination keeps.
const KEPT: &str =
    "ABCDEFGHIJKLMNOPQRSTUVWXYZabcdefghijklmnopqrstuvwxyz0123456789!#$%()*+,-./:;=?@_~";

/// Appends what a byte of a destination is written as, by the table.
fn push_destination(alloc: Global, expected: &mut String, byte: u8) -> Result<(), AllocError> {
    if byte == b'&' {
        return expected.push_str("&amp;");
    }
    if byte == b'\'' {
        return expected.push_str("&#x27;");
    }
    if KEPT.as_bytes().contains(&byte) {
        return expected.push(char::from(byte));
    }
    let code = format!(in alloc; "%{byte:02X}")?;
    expected.push_str(code.as_str())
}

/// Returns the Start of a link with this destination.
fn link_to(alloc: Global, destination: &str) -> Result<String, AllocError> {
    let mut expected = String::from_str(alloc, "<a href=\"")?;
    for byte in destination.as_bytes() {
        push_destination(alloc, &mut expected, *byte)?;
    }
    expected.push_str("\">")?;
    Ok(expected)
}

/// Returns math with this text.
fn math_of(alloc: Global, text: &str) -> Result<String, AllocError> {
    let inside = escape(alloc, text, "&quot;")?;
    format!(in alloc; "<span class=\"math math-inline\">{inside}</span>")
}

/// A place of a text in HTML.
#[derive(Clone, Copy, Debug, Drop)]
enum Place {
    Text,
    Math,
    Destination,
}

/// Returns the sign of the event with a text at a place.
fn sign_at<'s>(place: Place, text: &'s str) -> Sign<'s> {
    match place {
        Place::Text => Sign::Words(text),
        Place::Math => Sign::InlineMath(text),
        Place::Destination => Sign::Link(LinkType::Inline, text, ""),
    }
}

/// Returns the HTML of that event, by the tables.
fn html_at(alloc: Global, place: Place, text: &str) -> Result<String, AllocError> {
    match place {
        Place::Text => escape(alloc, text, "\""),
        Place::Math => math_of(alloc, text),
        Place::Destination => link_to(alloc, text),
    }
}

/// Checks what the bytes of a text are written as at a place.
fn is_escaped(alloc: Global, rows: &mut Rows, place: Place, text: &str) -> Result<(), Fail> {
    let expected = html_at(alloc, place, text)?;
    let html = html_of(alloc, items_of(alloc, &[sign_at(place, text)]))?;
    rows.gives(place, html.as_str() == expected.as_str(), true);
    Ok(())
}

#[test]
fn each_byte_is_escaped(rt: HostRuntime) -> Result<(), Fail> {
    let all = all_bytes(rt.alloc())?;
    let mut rows = Rows::new();
    for place in [Place::Text, Place::Math, Place::Destination] {
        is_escaped(rt.alloc(), &mut rows, place, all.as_str())?;
    }
    rows.end()
}
