//! Entities: the examples of CommonMark 2.5 that one reference decides, and the boundaries; with either set of names.
use markdown_scan::entity::{EntityNames, EntityText, scan_entity};
use markdown_test_helpers::rows::Rows;
use std::test::Fail;

/// Texts, and the length of the reference that each begins with, and the character that it stands for.
static TEXTS: [(&str, Option<(usize, char)>); 60] = [
    ("&amp;", Some((5, '&'))),
    ("&lt;b", Some((4, '<'))),
    ("&gt;&gt;", Some((4, '>'))),
    ("&quot; ", Some((6, '"'))),
    // numbers, decimal and hexadecimal
    ("&#35;", Some((5, '#'))),
    ("&#1234;", Some((7, 'Ӓ'))),
    ("&#992;", Some((6, 'Ϡ'))),
    ("&#0;", Some((4, '\u{FFFD}'))),
    ("&#X22;", Some((6, '"'))),
    ("&#XD06;", Some((7, 'ആ'))),
    ("&#xcab;", Some((7, 'ಫ'))),
    ("&#42;foo*", Some((5, '*'))),
    ("&#10;", Some((5, '\n'))),
    ("&#9;foo", Some((4, '\t'))),
    // seven decimal digits, six hexadecimal ones
    ("&#0000065;", Some((10, 'A'))),
    ("&#x000041;", Some((10, 'A'))),
    ("&#xabcDEF;", Some((10, '\u{FFFD}'))),
    ("&#9999999;", Some((10, '\u{FFFD}'))),
    // surrogates, and the scalar values around them
    ("&#xD7FF;", Some((8, '\u{D7FF}'))),
    ("&#xD800;", Some((8, '\u{FFFD}'))),
    ("&#xDFFF;", Some((8, '\u{FFFD}'))),
    ("&#xE000;", Some((8, '\u{E000}'))),
    // the last scalar value
    ("&#x10FFFF;", Some((10, '\u{10FFFF}'))),
    ("&#x110000;", Some((10, '\u{FFFD}'))),
    ("&#1114111;", Some((10, '\u{10FFFF}'))),
    ("&#1114112;", Some((10, '\u{FFFD}'))),
    ("&#x0;", Some((5, '\u{FFFD}'))),
    // other texts
    ("", None),
    ("&", None),
    ("&amp", None),
    ("&Amp;", None),
    ("&AMP;", None),
    ("amp;", None),
    (" &amp;", None),
    ("&nbsp;", None),
    ("&copy;", None),
    ("&apos;", None),
    ("&copy", None),
    ("&MadeUpEntity;", None),
    ("&x;", None),
    ("&#;", None),
    ("&#x;", None),
    ("&#X;", None),
    ("&#87654321;", None),
    ("&#x1234567;", None),
    ("&#00000065;", None),
    ("&#x0000041;", None),
    ("&#abcdef0;", None),
    ("&ThisIsNotDefined;", None),
    ("&hi?;", None),
    ("&#35", None),
    ("&#x22", None),
    ("&#35 ;", None),
    ("&# 35;", None),
    ("&#xg;", None),
    ("&#1a;", None),
    ("&#", None),
    ("&#x", None),
    ("\\&amp;", None),
    ("&;", None),
];

/// Texts, and the length of the entity with a name of HTML that each begins with, and its characters.
static NAMES: [(&str, Option<(usize, &str)>); 22] = [
    ("&amp;", Some((5, "&"))),
    ("&AMP;", Some((5, "&"))),
    ("&lt;b", Some((4, "<"))),
    ("&quot; ", Some((6, "\""))),
    ("&apos;", Some((6, "'"))),
    ("&nbsp;", Some((6, "\u{a0}"))),
    ("&copy;", Some((6, "©"))),
    ("&auml;", Some((6, "ä"))),
    ("&CounterClockwiseContourIntegral;", Some((33, "∳"))),
    // two characters
    ("&ngE;", Some((5, "≧\u{338}"))),
    ("&NotEqualTilde;", Some((15, "≂\u{338}"))),
    ("&fjlig;", Some((7, "fj"))),
    // no such name, or no semicolon
    ("&copy", None),
    ("&bad;", None),
    ("&Copy;", None),
    ("& ", None),
    ("&;", None),
    ("&nbsp ;", None),
    ("\\&copy;", None),
    // a number
    ("&#;", None),
    ("&#x;", None),
    ("&#87654321;", None),
];

/// Returns the character where what was read has one by its number or as one of the four names.
fn one(found: Option<(usize, EntityText)>) -> Option<(usize, char)> {
    match found {
        Some((length, EntityText::One(character))) => Some((length, character)),
        _ => None,
    }
}

/// Returns the characters where what was read is a name of HTML.
fn name_of(found: Option<(usize, EntityText)>) -> Option<(usize, &'static str)> {
    match found {
        Some((length, EntityText::Named(characters))) => Some((length, characters)),
        _ => None,
    }
}

#[test]
fn references() -> Result<(), Fail> {
    let mut rows = Rows::new();
    for &(text, wanted) in &TEXTS {
        let found = scan_entity(text.as_bytes(), EntityNames::Basic);
        rows.gives(text, one(found), wanted);
    }
    rows.end()
}

#[test]
fn names_of_html() -> Result<(), Fail> {
    let mut rows = Rows::new();
    for &(text, wanted) in &NAMES {
        let found = scan_entity(text.as_bytes(), EntityNames::Html);
        rows.gives(text, name_of(found), wanted);
    }
    rows.end()
}

#[test]
fn numbers_beside_names_of_html() -> Result<(), Fail> {
    let mut rows = Rows::new();
    for &(text, wanted) in &TEXTS {
        if text.starts_with("&#") {
            let found = scan_entity(text.as_bytes(), EntityNames::Html);
            rows.gives(text, one(found), wanted);
        }
    }
    rows.end()
}
