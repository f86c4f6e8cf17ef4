//! Link labels: the examples of CommonMark 6.3, and the bound on their characters.
use markdown_base::cow_str::CowStr;
use markdown_scan::label::scan_link_label;
use markdown_scan::line_rule::{NoPrefix, OneLine};
use markdown_test_helpers::rows::Rows;
use std::alloc::{AllocError, Global};
use std::test::Fail;

// Returns whether a text is this one, and a slice of the source where the source begins with it.
fn is_read(found: &CowStr<'_>, source: &str, text: &str) -> bool {
    let is_slice = matches!(found, CowStr::Borrowed(_));
    found.as_str() == text && is_slice == source.starts_with(text)
}

// Returns whether a label of this length and text is read, and is a slice of the source where the source begins with it;
// or none is, for None.
fn has_label(
    alloc: Global,
    text: &str,
    in_table: bool,
    wanted: Option<(usize, &str)>,
) -> Result<bool, AllocError> {
    match (scan_link_label(alloc, text, &NoPrefix, in_table)?, wanted) {
        (Some((end, found)), Some((length, label))) => {
            let is_same = is_read(&found, text, label);
            drop(found);
            Ok(is_same && end == length)
        }
        (None, None) => Ok(true),
        _ => Ok(false),
    }
}

/// Texts, whether they are in a table, and the length and the text of the label that each begins with.
static TEXTS: [(&str, bool, Option<(usize, &str)>); 30] = [
    ("foo] bar", false, Some((4, "foo"))),
    ("ref\\[]", false, Some((6, "ref\\["))),
    ("bar\\\\]", false, Some((6, "bar\\\\"))),
    ("foo\\!]", false, Some((6, "foo\\!"))),
    ("Foo*bar\\]]", false, Some((10, "Foo*bar\\]"))),
    ("Foo\n  bar]", false, Some((10, "Foo bar"))),
    (" Foo bar ]", false, Some((10, "Foo bar"))),
    ("Foo bar ]", false, Some((9, "Foo bar"))),
    ("Foo\r\nbar]", false, Some((9, "Foo bar"))),
    ("a\tb\u{b}\u{c} c]", false, Some((8, "a b c"))),
    ("é  é]", false, Some((7, "é é"))),
    ("\\é]", false, Some((4, "\\é"))),
    ("ẞ]", false, Some((4, "ẞ"))),
    ("a\\|b]", false, Some((5, "a\\|b"))),
    ("a\\|b]", true, Some((5, "a|b"))),
    ("a\\*b]", true, Some((5, "a\\*b"))),
    ("a\\\\|b]", true, Some((6, "a\\|b"))),
    ("a\\\\\\|b]", true, Some((7, "a\\\\|b"))),
    ("\\|\\|]", true, Some((5, "||"))),
    ("\\\\]", true, Some((3, "\\\\"))),
    // other texts
    ("", false, None),
    ("]", false, None),
    (" ]", false, None),
    ("\n ]", false, None),
    ("ref[]", false, None),
    ("ref[bar]]", false, None),
    ("[[foo]]]", false, None),
    ("foo", false, None),
    ("foo\\]", false, None),
    ("\t\u{b}\u{c}\r]", false, None),
];

#[test]
fn labels(rt: HostRuntime) -> Result<(), Fail> {
    let mut rows = Rows::new();
    for &(text, in_table, wanted) in &TEXTS {
        rows.gives(
            (text, in_table),
            has_label(rt.alloc(), text, in_table, wanted)?,
            true,
        );
    }
    let of_two_lines = scan_link_label(rt.alloc(), "a\nb]", &OneLine, false)?;
    rows.gives("a\nb]", of_two_lines.is_none(), true);
    rows.end()
}

/// Returns a label of `count` copies of a text, and then an end.
fn long_label(alloc: Global, text: &str, count: usize, end: &str) -> Result<String, AllocError> {
    let mut label = text.repeat(alloc, count)?;
    label.push_str(end)?;
    Ok(label)
}

/// Returns whether all of such a label is read, or None where none is.
fn is_long_label(
    alloc: Global,
    text: &str,
    count: usize,
    end: &str,
    in_table: bool,
) -> Result<Option<bool>, AllocError> {
    let label = long_label(alloc, text, count, end)?;
    match scan_link_label(alloc, label.as_str(), &NoPrefix, in_table)? {
        Some((length, found)) => {
            drop(found);
            Ok(Some(length == label.len()))
        }
        None => Ok(None),
    }
}

#[test]
fn labels_of_999_characters(rt: HostRuntime) -> Result<(), Fail> {
    let mut rows = Rows::new();
    for &(character, count, end, in_table, is_label) in &[
        ("a", 999, "]", false, true),
        ("a", 1000, "]", false, false),
        ("é", 999, "]", false, true),
        ("é", 1000, "]", false, false),
        // 997 letters, two backslashes and a pipe are 999 characters in a table, and otherwise 1000
        ("a", 997, "\\\\|]", true, true),
        ("a", 997, "\\\\|]", false, false),
    ] {
        let found = is_long_label(rt.alloc(), character, count, end, in_table)?;
        let wanted = if is_label { Some(true) } else { None };
        rows.gives((character, count, in_table), found, wanted);
    }
    rows.end()
}
