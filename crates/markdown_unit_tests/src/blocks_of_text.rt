//! The leaf blocks that the block pass makes of small texts, and their columns, by the sections of CommonMark.
use crate::rows::compare;
use std::test::Fail;

#[test]
fn headings_and_breaks(rt: HostRuntime) -> Result<(), Fail> {
    compare(
        rt.alloc(),
        &[
            ("***\n", "0 Rule 0..4;"),
            (" - - -", "0 Rule 1..6;"),
            ("*\t*\t*\t", "0 Rule 0..6;"),
            ("--\n", "0 Paragraph 0..3;1 T 0..2;"),
            (
                "* a\n* * *\n* b",
                "0 List(true, 42, 0) 0..4;1 ListItem(2) 0..4;2 TightParagraph 2..4;3 T 2..3;0 Rule 4..10;\
                0 List(true, 42, 0) 10..13;1 ListItem(2) 10..13;2 TightParagraph 12..13;3 T 12..13;",
            ),
            ("#\ta", "0 Heading(H1, None) 0..3;1 T 2..3;"),
            ("# a #b", "0 Heading(H1, None) 0..6;1 T 2..6;"),
            ("####### a", "0 Paragraph 0..9;1 T 0..9;"),
            (
                "a\r\n# b\r\n",
                "0 Paragraph 0..3;1 T 0..1;0 Heading(H1, None) 3..8;1 T 5..6;",
            ),
            ("#", "0 Heading(H1, None) 0..1;"),
            ("###\n", "0 Heading(H3, None) 0..4;"),
            ("## a ##  \n", "0 Heading(H2, None) 0..10;1 T 3..4;"),
            ("#a", "0 Paragraph 0..2;1 T 0..2;"),
            ("hello\n=====\n", "0 Heading(H1, None) 0..12;1 T 0..5;"),
            (
                "a\nb\n---\r\n",
                "0 Heading(H2, None) 0..9;1 T 0..1;1 SoftBreak 1..2;1 T 2..3;",
            ),
        ],
    )
}

#[test]
fn code_blocks(rt: HostRuntime) -> Result<(), Fail> {
    compare(
        rt.alloc(),
        &[
            (
                "\n    first line\n    second line\n",
                "0 IndentCodeBlock 5..32;1 T 5..16;1 T 20..32;",
            ),
            (
                "    a\n\n    b\n\n",
                "0 IndentCodeBlock 4..13;1 T 4..6;1 T 6..7;1 T 11..13;",
            ),
            (
                "a\n    b",
                "0 Paragraph 0..7;1 T 0..1;1 SoftBreak 1..2;1 T 6..7;",
            ),
            (
                "```x\na\n\n```\n",
                "0 FencedCodeBlock(CowIndex(0)) 0..12;1 T 5..7;1 T 7..8;",
            ),
            (
                "  ~~~\n   a\n",
                "0 FencedCodeBlock(CowIndex(0)) 2..11;1 T 8..11;",
            ),
            (
                "```\na\n    ```",
                "0 FencedCodeBlock(CowIndex(0)) 0..13;1 T 4..6;1 T 6..13;",
            ),
            (
                "````\n```\n````",
                "0 FencedCodeBlock(CowIndex(0)) 0..13;1 T 5..9;",
            ),
            (
                "- ```\n  a\n  ```\nb",
                "0 List(true, 45, 0) 0..16;1 ListItem(2) 0..16;2 FencedCodeBlock(CowIndex(0)) 2..16;3 T 8..10;\
                0 Paragraph 16..17;1 T 16..17;",
            ),
            (
                "-\t\tfoo\n",
                "0 List(true, 45, 0) 0..7;1 ListItem(2) 0..7;2 IndentCodeBlock 3..7;\
                3 SynthesizeText(CowIndex(0)) 3..3;3 T 3..7;",
            ),
        ],
    )
}

#[test]
fn tabs(rt: HostRuntime) -> Result<(), Fail> {
    compare(
        rt.alloc(),
        &[
            (
                "- foo\n\n\tbar\n",
                "0 List(false, 45, 0) 0..12;1 ListItem(2) 0..12;2 Paragraph 2..6;3 T 2..5;2 Paragraph 8..12;3 T 8..11;",
            ),
            (
                "- foo\n\n\t\tbar\n",
                "0 List(false, 45, 0) 0..13;1 ListItem(2) 0..13;2 Paragraph 2..6;3 T 2..5;2 IndentCodeBlock 9..13;\
                3 SynthesizeText(CowIndex(0)) 9..9;3 T 9..13;",
            ),
            (
                ">\t\tfoo",
                "0 BlockQuote(None) 0..6;1 IndentCodeBlock 3..6;2 SynthesizeText(CowIndex(0)) 3..3;2 T 3..6;",
            ),
            (
                " - foo\n   - bar\n\t - baz",
                "0 List(true, 45, 0) 1..23;1 ListItem(3) 1..23;2 TightParagraph 3..7;3 T 3..6;\
                2 List(true, 45, 0) 10..23;3 ListItem(2) 10..23;4 TightParagraph 12..16;5 T 12..15;\
                4 List(true, 45, 0) 18..23;5 ListItem(2) 18..23;6 TightParagraph 20..23;7 T 20..23;",
            ),
        ],
    )
}

#[test]
fn html_blocks(rt: HostRuntime) -> Result<(), Fail> {
    compare(
        rt.alloc(),
        &[
            (
                "<script>\na\n\n</script> b\nc",
                "0 HtmlBlock 0..24;1 Html 0..9;1 Html 9..11;1 Html 11..12;1 Html 12..24;0 Paragraph 24..25;1 T 24..25;",
            ),
            (
                "<pre>a</pre>\nb",
                "0 HtmlBlock 0..13;1 Html 0..13;0 Paragraph 13..14;1 T 13..14;",
            ),
            (
                "<?a\n\n?>\nb",
                "0 HtmlBlock 0..8;1 Html 0..4;1 Html 4..5;1 Html 5..8;0 Paragraph 8..9;1 T 8..9;",
            ),
            (
                "<!A\nb>\nc",
                "0 HtmlBlock 0..7;1 Html 0..4;1 Html 4..7;0 Paragraph 7..8;1 T 7..8;",
            ),
            (
                "<![CDATA[\n\n]]>\na",
                "0 HtmlBlock 0..15;1 Html 0..10;1 Html 10..11;1 Html 11..15;0 Paragraph 15..16;1 T 15..16;",
            ),
            (
                "a\n<div>\n",
                "0 Paragraph 0..2;1 T 0..1;0 HtmlBlock 2..8;1 Html 2..8;",
            ),
            ("</b>\na\n", "0 HtmlBlock 0..7;1 Html 0..5;1 Html 5..7;"),
            (
                "  <div>\n  a\n",
                "0 HtmlBlock 2..12;1 Html 0..8;1 Html 8..12;",
            ),
            (
                ">  <!-- a -->\n",
                "0 BlockQuote(None) 0..14;1 HtmlBlock 3..14;2 Html 2..14;",
            ),
            (
                "-\t <b>\n",
                "0 List(true, 45, 0) 0..7;1 ListItem(5) 0..7;2 HtmlBlock 3..7;3 Html 3..7;",
            ),
            (
                "<div>\na\n\nb",
                "0 HtmlBlock 0..8;1 Html 0..6;1 Html 6..8;0 Paragraph 9..10;1 T 9..10;",
            ),
            (
                "<!-- a\n\nb -->\nc",
                "0 HtmlBlock 0..14;1 Html 0..7;1 Html 7..8;1 Html 8..14;0 Paragraph 14..15;1 T 14..15;",
            ),
            (
                "a\n<b>\n",
                "0 Paragraph 0..6;1 T 0..1;1 SoftBreak 1..2;1 MaybeHtml 2..3;1 T 3..5;",
            ),
            ("<b>\n", "0 HtmlBlock 0..4;1 Html 0..4;"),
            ("</pre>", "0 Paragraph 0..6;1 MaybeHtml 0..1;1 T 1..6;"),
        ],
    )
}
