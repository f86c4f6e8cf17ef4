//! Entities and numeric character references (CommonMark 2.5).
ghost use Rattle.std.specs.Prelude.{◌≡◌, ◌≤◌, IfSome, length, option_map, take_while};
ghost use Rattle.std.specs.Char.{digit_value, is_digit};
ghost use Rattle.markdown_entities.specs.NamedEntity.{in_utf8};
ghost use Rattle.markdown_scan.specs.Entity.{basic_entity, character_of, digits_value, entity, entity_by_name};
ghost use Rattle.markdown_scan.specs.Entity.{entity_names, numbered_entity, numeric_reference, text_in_utf8};

use markdown_base::cow_str::CowStr;
use markdown_base::inline_str::InlineStr;
use markdown_base::syntax::Syntax;
use markdown_entities::named_entity::scan_named_entity;
use std::alloc::AllocError;

/// The names by which characters can be written.
#[derive(Clone, Copy)]
pub enum EntityNames {
    /// `amp`, `lt`, `gt` and `quot`.
    Basic,
    /// The 2,125 names of HTML that end in `;`.
    Html,
}

/// Returns the names that are read: all of HTML's, or the four of markup.
pub fn entity_names(syntax: Syntax) -> EntityNames
    ensures { result ≡ entity_names syntax }
{
    if syntax.entities {
        EntityNames::Html
    } else {
        EntityNames::Basic
    }
}

/// The characters that an entity or a numeric reference stands for.
#[derive(Clone, Copy)]
pub enum EntityText {
    One(char),
    /// Those of a named entity, one or two.
    Named(&'static str),
}

impl EntityText {
    ghost use Rattle.std.specs.Prelude.{◌≡◌, ◌≤◌, ◌++◌, IfOk, length, string_bytes};
    ghost use Rattle.markdown_base.specs.CowText.{text_of, IsInlined};
    ghost use Rattle.markdown_scan.specs.Entity.{text_in_utf8};

    /// Returns a copy of the characters that is stored inline.
    pub fn into_inline<'a>(self) -> CowStr<'a>
        requires { length (text_in_utf8 self) ≤ 22 }
        ensures text { text_of result ≡ text_in_utf8 self }
        ensures inlined { IsInlined result }
    {
        match self {
            EntityText::One(character) => CowStr::from(character),
            EntityText::Named(text) => CowStr::Inlined(InlineStr::new(text).unwrap()),
        }
    }

    /// Appends the characters to a text. Fails only if an allocation fails.
    pub(crate) fn append_to(self, text: &mut String) -> Result<(), AllocError>
        ensures { IfOk result (λ _. string_bytes text.new
            ≡ string_bytes text.old ++ text_in_utf8 self) }
    {
        match self {
            EntityText::One(character) => text.push(character),
            EntityText::Named(characters) => text.push_str(characters),
        }
    }
}

/// Returns the value of an ASCII digit or letter, and 36 for any other byte.
fn digit_value(byte: u8) -> u32
    ensures value { result ≡ digit_value byte }
    ensures bound { result ≤ 36 }
{
    match byte {
        b'0'..=b'9' => u32::from(byte - b'0'),
        b'A'..=b'Z' => u32::from(byte - b'A') + 10,
        b'a'..=b'z' => u32::from(byte - b'a') + 10,
        _ => 36,
    }
}

/// Returns the number that the digits represent.
fn number_of(digits: &[u8], radix: u32) -> u32
    requires few { length digits.now ≤ 7 }
    requires base { radix ≤ 16 }
    ensures { result ≡ digits_value radix digits.now }
{
    let mut number = 0;
    for digit in digits {
        number = radix * number + digit_value(*digit);
    }
    number
}

/// Returns the character of a number: U+FFFD for zero and for numbers that are not Unicode scalar values.
fn character_of(number: u32) -> char
    ensures { result ≡ character_of number }
{
    match char::from_u32(number) {
        Some(character) if number != 0 => character,
        _ => char::REPLACEMENT_CHARACTER,
    }
}

/// Returns the number of digits that the bytes begin with.
fn count_digits(bytes: &[u8], radix: u32) -> usize
    requires low { 2 ≤ radix }
    requires high { radix ≤ 36 }
    ensures { result ≡ length (take_while (λ b. is_digit b radix) bytes.now) }
{
    bytes
        .iter()
        .take_while(|byte| char::from(**byte).is_digit(radix))
        .count()
}

/// Reads 1 to `most` digits and a semicolon after the first `start` bytes. Returns the length in bytes of all these,
/// including the first `start`, and the character of the number.
fn scan_numeric_reference(
    bytes: &[u8],
    start: usize,
    radix: u32,
    most: usize,
) -> Option<(usize, char)>
    requires start { start ≤ length bytes.now }
    requires low { 2 ≤ radix }
    requires high { radix ≤ 16 }
    requires few { most ≤ 7 }
    ensures value { result ≡ numeric_reference start radix most bytes.now }
    ensures within { IfSome result (λ found. found.0 ≤ length bytes.now) }
{
    let digits = &bytes[start..];
    let count = count_digits(digits, radix);
    if count == 0 || count > most || !bytes[start + count..].starts_with(b";") {
        return None;
    }
    Some((
        start + count + 1,
        character_of(number_of(&digits[..count], radix)),
    ))
}

/// Reads the entity with one of the four basic names that the bytes begin with. Returns its length in bytes and its
/// character.
fn scan_basic_entity(bytes: &[u8]) -> Option<(usize, char)>
    ensures value { result ≡ basic_entity bytes.now }
    ensures within { IfSome result (λ found. found.0 ≤ length bytes.now) }
{
    if bytes.starts_with(b"&amp;") {
        Some((5, '&'))
    } else if bytes.starts_with(b"&lt;") {
        Some((4, '<'))
    } else if bytes.starts_with(b"&gt;") {
        Some((4, '>'))
    } else if bytes.starts_with(b"&quot;") {
        Some((6, '"'))
    } else {
        None
    }
}

/// Reads the numeric reference that the bytes begin with. Returns its length in bytes and its character.
fn scan_numbered_entity(bytes: &[u8]) -> Option<(usize, char)>
    ensures value { result ≡ numbered_entity bytes.now }
    ensures within { IfSome result (λ found. found.0 ≤ length bytes.now) }
{
    if bytes.starts_with(b"&#x") || bytes.starts_with(b"&#X") {
        scan_numeric_reference(bytes, 3, 16, 6)
    } else if bytes.starts_with(b"&#") {
        scan_numeric_reference(bytes, 2, 10, 7)
    } else {
        None
    }
}

/// Reads the entity with one of these names that the bytes begin with. Returns its length in bytes and its characters.
fn scan_entity_by_name(bytes: &[u8], names: EntityNames) -> Option<(usize, EntityText)>
    ensures value { option_map (λ found. (found.0, text_in_utf8 found.1)) result
        ≡ option_map in_utf8 (entity_by_name names bytes.now) }
    ensures within { IfSome result (λ found. found.0 ≤ length bytes.now) }
    ensures few { IfSome result (λ found. length (text_in_utf8 found.1) ≤ 6) }
{
    match names {
        EntityNames::Basic => {
            let (length, character) = scan_basic_entity(bytes)?;
            Some((length, EntityText::One(character)))
        }
        EntityNames::Html => {
            let (length, characters) = scan_named_entity(bytes)?;
            Some((length, EntityText::Named(characters)))
        }
    }
}

/// Reads the entity with one of these names, or the numeric character reference, that the bytes begin with, from its
/// `&` on. Returns its length in bytes and its characters.
pub fn scan_entity(bytes: &[u8], names: EntityNames) -> Option<(usize, EntityText)>
    ensures value { option_map (λ found. (found.0, text_in_utf8 found.1)) result
        ≡ option_map in_utf8 (entity names bytes.now) }
    ensures within { IfSome result (λ found. found.0 ≤ length bytes.now) }
    ensures few { IfSome result (λ found. length (text_in_utf8 found.1) ≤ 6) }
{
    match scan_entity_by_name(bytes, names) {
        Some((length, characters)) => Some((length, characters)),
        None => {
            let (length, character) = scan_numbered_entity(bytes)?;
            Some((length, EntityText::One(character)))
        }
    }
}
