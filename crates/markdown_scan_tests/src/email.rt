//! Email autolinks: the examples of CommonMark 6.5, and the bounds of a label.
use markdown_scan::email::scan_email_autolink;
use markdown_test_helpers::rows::Rows;
use std::test::Fail;

// Returns the result for an autolink whose `<` is the first byte.
fn autolink_of(text: &str) -> Option<(usize, &str)> {
    if text.is_char_boundary(1) {
        scan_email_autolink(text, 1)
    } else {
        None
    }
}

/// Texts, and the end and the address of the autolink that each begins with.
static TEXTS: [(&str, Option<(usize, &str)>); 40] = [
    (
        "<foo@bar.example.com> <b>",
        Some((21, "foo@bar.example.com")),
    ),
    (
        "<foo+special@Bar.baz-bar0.com> <b>",
        Some((30, "foo+special@Bar.baz-bar0.com")),
    ),
    ("<a+b@x-y.z>", Some((11, "a+b@x-y.z"))),
    ("<a@b>", Some((5, "a@b"))),
    ("<a*@b.c>", Some((8, "a*@b.c"))),
    (
        "<a.!#$%&'*+/=?^_`{|}~-@b>",
        Some((25, "a.!#$%&'*+/=?^_`{|}~-@b")),
    ),
    ("<.@1>", Some((5, ".@1"))),
    // labels of 63 and of 64 bytes
    (
        "<a@xxxxxxxxxxxxxxxxxxxxxxxxxxxxxxxxxxxxxxxxxxxxxxxxxxxxxxxxxxxxxxx>",
        Some((
            67,
            "a@xxxxxxxxxxxxxxxxxxxxxxxxxxxxxxxxxxxxxxxxxxxxxxxxxxxxxxxxxxxxxxx",
        )),
    ),
    (
        "<a@b.xxxxxxxxxxxxxxxxxxxxxxxxxxxxxxxxxxxxxxxxxxxxxxxxxxxxxxxxxxxxxxx.c>",
        Some((
            71,
            "a@b.xxxxxxxxxxxxxxxxxxxxxxxxxxxxxxxxxxxxxxxxxxxxxxxxxxxxxxxxxxxxxxx.c",
        )),
    ),
    (
        "<a@xxxxxxxxxxxxxxxxxxxxxxxxxxxxxxxxxxxxxxxxxxxxxxxxxxxxxxxxxxxxxxxx>",
        None,
    ),
    (
        "<a@b.xxxxxxxxxxxxxxxxxxxxxxxxxxxxxxxxxxxxxxxxxxxxxxxxxxxxxxxxxxxxxxxx.c>",
        None,
    ),
    // a hyphen within a label, and at its ends
    ("<a@b--c.d>", Some((10, "a@b--c.d"))),
    ("<a@-b>", None),
    ("<a@b->", None),
    ("<a@b.-c>", None),
    ("<a@b-.c>", None),
    ("<a@->", None),
    // other texts
    ("<", None),
    ("<>", None),
    ("<@>", None),
    ("<@b.c>", None),
    ("<a@>", None),
    ("<a@.>", None),
    ("<a@b.>", None),
    ("<a@.b>", None),
    ("<a@b..c>", None),
    ("<a b@c>", None),
    ("<a@b c>", None),
    ("<a@b@c>", None),
    ("<a\\@b.c>", None),
    ("<foo\\+@bar.example.com>", None),
    ("<a@b.c", None),
    ("<a@b.c <d>", None),
    ("<a@b_c>", None),
    ("<é@b>", None),
    ("<a@é>", None),
    ("< a@b>", None),
    ("<a@b >", None),
    ("a@b", None),
    ("<a@b\n>", None),
];

#[test]
fn addresses() -> Result<(), Fail> {
    let mut rows = Rows::new();
    for &(text, wanted) in &TEXTS {
        rows.gives(text, autolink_of(text), wanted);
    }
    rows.end()
}
