//! Autolinks: the examples of CommonMark 6.5, and the bounds of a scheme.
use markdown_scan::autolink::scan_uri_autolink;
use markdown_test_helpers::rows::Rows;
use std::test::Fail;

// Returns the result for an autolink whose `<` is the first byte.
fn autolink_of(text: &str) -> Option<(usize, &str)> {
    if text.is_char_boundary(1) {
        scan_uri_autolink(text, 1)
    } else {
        None
    }
}

/// Texts, and the end and the URI of the autolink that each begins with.
static TEXTS: [(&str, Option<(usize, &str)>); 30] = [
    ("<http://foo.bar.baz> <b>", Some((20, "http://foo.bar.baz"))),
    (
        "<https://foo.bar.baz/test?q=hello&id=22&boolean> <b>",
        Some((48, "https://foo.bar.baz/test?q=hello&id=22&boolean")),
    ),
    (
        "<irc://foo.bar:2233/baz> <b>",
        Some((24, "irc://foo.bar:2233/baz")),
    ),
    ("<MAILTO:FOO@BAR.BAZ> <b>", Some((20, "MAILTO:FOO@BAR.BAZ"))),
    ("<a+b+c:d> <b>", Some((9, "a+b+c:d"))),
    (
        "<made-up-scheme://foo,bar> <b>",
        Some((26, "made-up-scheme://foo,bar")),
    ),
    ("<https://../> <b>", Some((13, "https://../"))),
    ("<localhost:5001/foo> <b>", Some((20, "localhost:5001/foo"))),
    (
        "<https://example.com/\\[\\> <b>",
        Some((25, "https://example.com/\\[\\")),
    ),
    (
        "<https://example.com/?search=a&b=(c)#d> <b>",
        Some((39, "https://example.com/?search=a&b=(c)#d")),
    ),
    ("<ab:é> <b>", Some((7, "ab:é"))),
    // schemes of 2 and of 32 characters
    ("<ab:> <b>", Some((5, "ab:"))),
    (
        "<abcdefghijklmnopqrstuvwxyz012345:x> <b>",
        Some((36, "abcdefghijklmnopqrstuvwxyz012345:x")),
    ),
    // other texts
    ("<", None),
    ("<>", None),
    ("< https://foo.bar >", None),
    ("<https://foo.bar/baz bim>", None),
    ("<m:abc>", None),
    ("<foo.bar.baz>", None),
    ("<foo@bar.example.com>", None),
    ("<foo+special@Bar.baz-bar0.com>", None),
    ("<foo\\+@bar.example.com>", None),
    ("<1a:b>", None),
    ("<+a:b>", None),
    ("<ab:c<d>", None),
    ("<ab:c\td>", None),
    ("<ab:c\nd>", None),
    ("<ab:c\u{7f}d>", None),
    ("<é:b>", None),
    // a scheme of 33 characters
    ("<abcdefghijklmnopqrstuvwxyz0123456:x>", None),
];

#[test]
fn autolinks() -> Result<(), Fail> {
    let mut rows = Rows::new();
    for &(text, wanted) in &TEXTS {
        rows.gives(text, autolink_of(text), wanted);
    }
    rows.end()
}

#[test]
fn fronts_of_an_autolink() -> Result<(), Fail> {
    let text = "<https://example.com/?search=a&b=(c)#d>";
    let mut rows = Rows::new();
    for end in 1..38 {
        if text.is_char_boundary(end) {
            rows.gives(end, autolink_of(&text[..end]), None);
        }
    }
    rows.end()
}
