//! Link destinations: the examples of CommonMark 6.3, and the bound on parentheses.
use markdown_scan::destination::scan_link_destination;
use markdown_test_helpers::rows::Rows;
use std::test::Fail;

// Returns the destination that a text begins with.
fn destination_of(text: &str, max_nesting: usize) -> Option<(usize, &str)> {
    if text.is_char_boundary(0) {
        scan_link_destination(text, 0, max_nesting)
    } else {
        None
    }
}

/// Texts, and the length and the text of the destination that each begins with.
static TEXTS: [(&str, Option<(usize, &str)>); 34] = [
    // in angle brackets
    ("<>)", Some((2, ""))),
    ("</my uri>)", Some((9, "/my uri"))),
    ("<b)c>)", Some((5, "b)c"))),
    ("<b>c)", Some((3, "b"))),
    ("<foo(and(bar)>)", Some((14, "foo(and(bar)"))),
    ("<a\\>b\\<c>", Some((9, "a\\>b\\<c"))),
    // without brackets
    ("/uri \"title\")", Some((4, "/uri"))),
    ("./target.md)", Some((11, "./target.md"))),
    (")", Some((0, ""))),
    ("", Some((0, ""))),
    ("/my uri)", Some((3, "/my"))),
    ("foo\nbar)", Some((3, "foo"))),
    ("\\(foo\\))", Some((7, "\\(foo\\)"))),
    ("foo(and(bar)))", Some((13, "foo(and(bar))"))),
    ("foo(and(bar))", Some((13, "foo(and(bar))"))),
    ("foo\\(and\\(bar\\))", Some((15, "foo\\(and\\(bar\\)"))),
    ("foo\\)\\:)", Some((7, "foo\\)\\:"))),
    ("#fragment)", Some((9, "#fragment"))),
    ("foo\\bar)", Some((7, "foo\\bar"))),
    ("foo%20b&auml;)", Some((13, "foo%20b&auml;"))),
    ("\"title\")", Some((7, "\"title\""))),
    ("/url\u{a0}\"title\")", Some((13, "/url\u{a0}\"title\""))),
    ("foo\\ bar)", Some((4, "foo\\"))),
    ("foo\u{7f}bar)", Some((3, "foo"))),
    ("foo\\", Some((4, "foo\\"))),
    ("a<b>)", Some((4, "a<b>"))),
    // other texts
    ("<foo\nbar>)", None),
    ("<foo\rbar>)", None),
    ("<foo\\>)", None),
    ("<b)c", None),
    ("<a<b>)", None),
    ("foo(and(bar)", None),
    ("(", None),
    ("a( b)", None),
];

#[test]
fn destinations() -> Result<(), Fail> {
    let mut rows = Rows::new();
    for &(text, wanted) in &TEXTS {
        rows.gives(text, destination_of(text, 32), wanted);
    }
    let after_others = scan_link_destination("[é](é)", 5, 32);
    rows.gives("[é](é)", after_others, Some((2, "é")));
    rows.end()
}

#[test]
fn nested_parentheses() -> Result<(), Fail> {
    let mut rows = Rows::new();
    for &(text, max_nesting, is_one) in &[
        ("(a)", 0, true),
        ("((a))", 0, false),
        ("(a)(b)", 0, true),
        // 32, 33 and 34 of them
        (
            "((((((((((((((((((((((((((((((((a))))))))))))))))))))))))))))))))",
            32,
            true,
        ),
        (
            "(((((((((((((((((((((((((((((((((a)))))))))))))))))))))))))))))))))",
            32,
            true,
        ),
        (
            "((((((((((((((((((((((((((((((((((a))))))))))))))))))))))))))))))))))",
            32,
            false,
        ),
    ] {
        let wanted = if is_one {
            Some((text.len(), text))
        } else {
            None
        };
        rows.gives(text, destination_of(text, max_nesting), wanted);
    }
    rows.end()
}
