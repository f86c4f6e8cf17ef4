//! The block quotes and lists that the block pass makes of small texts, by the sections of CommonMark (5.1 to 5.3), and
//! the footnote definitions in both styles.
use crate::rows::{compare, shown};
use markdown_base::options::Options;
use markdown_test_helpers::rows::Rows;
use std::test::Fail;

#[test]
fn quotes(rt: HostRuntime) -> Result<(), Fail> {
    compare(
        rt.alloc(),
        &[
            (
                "> a\nb\n",
                "0 BlockQuote(None) 0..6;1 Paragraph 2..6;2 T 2..3;2 SoftBreak 3..4;2 T 4..5;",
            ),
            (
                "> - a\nb",
                "0 BlockQuote(None) 0..7;1 List(true, 45, 0) 2..7;2 ListItem(2) 2..7;3 TightParagraph 4..7;\
                4 T 4..5;4 SoftBreak 5..6;4 T 6..7;",
            ),
            (
                "> a\n    - b",
                "0 BlockQuote(None) 0..11;1 Paragraph 2..11;2 T 2..3;2 SoftBreak 3..4;2 T 8..11;",
            ),
            (
                "> - a\n- b",
                "0 BlockQuote(None) 0..6;1 List(true, 45, 0) 2..6;2 ListItem(2) 2..6;3 TightParagraph 4..6;4 T 4..5;\
                0 List(true, 45, 0) 6..9;1 ListItem(2) 6..9;2 TightParagraph 8..9;3 T 8..9;",
            ),
            (
                "> ```\na",
                "0 BlockQuote(None) 0..6;1 FencedCodeBlock(CowIndex(0)) 2..6;0 Paragraph 6..7;1 T 6..7;",
            ),
            (
                "> a\n> ---",
                "0 BlockQuote(None) 0..9;1 Heading(H2, None) 2..9;2 T 2..3;",
            ),
            (
                "> a\n>\nb",
                "0 BlockQuote(None) 0..6;1 Paragraph 2..4;2 T 2..3;0 Paragraph 6..7;1 T 6..7;",
            ),
            (
                "> a\n---\n",
                "0 BlockQuote(None) 0..4;1 Paragraph 2..4;2 T 2..3;0 Rule 4..8;",
            ),
            (
                "> [a](b \"x\n> y\")",
                "0 BlockQuote(None) 0..16;1 Paragraph 2..16;2 MaybeLinkOpen 2..3;2 T 3..4;2 MaybeLinkClose(true) 4..5;\
                2 T 5..10;2 SoftBreak 10..11;2 T 13..16;",
            ),
            (">", "0 BlockQuote(None) 0..1;"),
        ],
    )
}

#[test]
fn lists(rt: HostRuntime) -> Result<(), Fail> {
    compare(
        rt.alloc(),
        &[
            (
                "* a\n* b\n",
                "0 List(true, 42, 0) 0..8;1 ListItem(2) 0..4;2 TightParagraph 2..4;3 T 2..3;\
                1 ListItem(2) 4..8;2 TightParagraph 6..8;3 T 6..7;",
            ),
            (
                "- a\n\n\n- b\n",
                "0 List(false, 45, 0) 0..10;1 ListItem(2) 0..4;2 Paragraph 2..4;3 T 2..3;\
                1 ListItem(2) 6..10;2 Paragraph 8..10;3 T 8..9;",
            ),
            (
                "10) a\n    b\n",
                "0 List(true, 41, 10) 0..12;1 ListItem(4) 0..12;2 TightParagraph 4..12;3 T 4..5;\
                3 SoftBreak 5..6;3 T 10..11;",
            ),
            (
                "a\n2. b",
                "0 Paragraph 0..6;1 T 0..1;1 SoftBreak 1..2;1 T 2..6;",
            ),
            ("-", "0 List(true, 45, 0) 0..1;1 ListItem(2) 0..1;"),
            (
                ">-",
                "0 BlockQuote(None) 0..2;1 List(true, 45, 0) 1..2;2 ListItem(2) 1..2;",
            ),
            (
                "a\n1. b",
                "0 Paragraph 0..2;1 T 0..1;0 List(true, 46, 1) 2..6;1 ListItem(3) 2..6;2 TightParagraph 5..6;3 T 5..6;",
            ),
            (
                "a\n*\n",
                "0 Paragraph 0..4;1 T 0..1;1 SoftBreak 1..2;1 T 2..3;",
            ),
            (
                "123456789. a",
                "0 List(true, 46, 123456789) 0..12;1 ListItem(11) 0..12;2 TightParagraph 11..12;3 T 11..12;",
            ),
            ("1234567890. a", "0 Paragraph 0..13;1 T 0..13;"),
            ("-1. a", "0 Paragraph 0..5;1 T 0..5;"),
            (
                "- a\n\n\n  b\n",
                "0 List(false, 45, 0) 0..10;1 ListItem(2) 0..10;2 Paragraph 2..4;3 T 2..3;2 Paragraph 8..10;3 T 8..9;",
            ),
            (
                "-\n  a\n",
                "0 List(true, 45, 0) 0..6;1 ListItem(2) 0..6;2 TightParagraph 4..6;3 T 4..5;",
            ),
            (
                "- a\n-\n- b",
                "0 List(true, 45, 0) 0..9;1 ListItem(2) 0..4;2 TightParagraph 2..4;3 T 2..3;1 ListItem(2) 4..6;\
                1 ListItem(2) 6..9;2 TightParagraph 8..9;3 T 8..9;",
            ),
            (
                "- a\n  - b\n\n    c\n- d",
                "0 List(true, 45, 0) 0..20;1 ListItem(2) 0..17;2 TightParagraph 2..4;3 T 2..3;\
                2 List(false, 45, 0) 6..17;3 ListItem(2) 6..17;4 Paragraph 8..10;5 T 8..9;4 Paragraph 15..17;\
                5 T 15..16;1 ListItem(2) 17..20;2 TightParagraph 19..20;3 T 19..20;",
            ),
            (
                "-\n\n  a",
                "0 List(true, 45, 0) 0..2;1 ListItem(2) 0..2;0 Paragraph 5..6;1 T 5..6;",
            ),
            (
                "> - a\n>\n> b\n",
                "0 BlockQuote(None) 0..12;1 List(true, 45, 0) 2..6;2 ListItem(2) 2..6;\
                3 TightParagraph 4..6;4 T 4..5;1 Paragraph 10..12;2 T 10..11;",
            ),
        ],
    )
}

#[test]
fn footnotes(rt: HostRuntime) -> Result<(), Fail> {
    let mut rows = Rows::new();
    for &(options, text, want) in &[
        (
            Options::ENABLE_FOOTNOTES,
            "[^a]: b\n\n    c\n",
            "0 FootnoteDefinition(CowIndex(0)) 0..15;1 Paragraph 6..8;2 T 6..7;1 Paragraph 13..15;2 T 13..14;",
        ),
        (
            Options::ENABLE_FOOTNOTES,
            "[^x]: [a]: b\n",
            "0 FootnoteDefinition(CowIndex(0)) 0..13;[a]: <b> 6..12;",
        ),
        (
            Options::ENABLE_OLD_FOOTNOTES,
            "[^a]: b\n\nc\n",
            "0 FootnoteDefinition(CowIndex(0)) 0..8;1 Paragraph 6..8;2 T 6..7;0 Paragraph 9..11;1 T 9..10;",
        ),
    ] {
        rows.gives_text(text, shown(rt.alloc(), text, options)?, want);
    }
    rows.end()
}
