//! The link reference definitions that the block pass makes of small texts (CommonMark 4.7), and where the blocks
//! around them end.
use crate::rows::compare;
use std::test::Fail;

#[test]
fn definitions(rt: HostRuntime) -> Result<(), Fail> {
    compare(
        rt.alloc(),
        &[
            ("[test]:\\", "[test]: <\\> 0..8;"),
            (
                "[a]:",
                "0 Paragraph 0..4;1 MaybeLinkOpen 0..1;1 T 1..2;1 MaybeLinkClose(true) 2..3;1 T 3..4;",
            ),
            (
                "[foo]: /url 'a\nb\nc'\n",
                "[foo]: </url> \"a\nb\nc\" 0..19;",
            ),
            (
                "[foo]: /url\n===\n",
                "0 Paragraph 12..16;1 T 12..15;[foo]: </url> 0..11;",
            ),
            (
                "[a]: /u\n[a]: /v\nb\n---\n",
                "0 Heading(H2, None) 16..22;1 T 16..17;[a]: </u> 0..7;[a]: </v> 8..15;",
            ),
            (
                "> [foo\n> bar]: /url\n",
                "0 BlockQuote(None) 0..20;[foo bar]: </url> 2..19;",
            ),
            (
                "> [a]: /u\n\"t\"\n",
                "0 BlockQuote(None) 0..14;[a]: </u> \"t\" 2..13;",
            ),
        ],
    )
}

/// An item that ends with a definition ends with the last line of the definition, as a block quote does.
#[test]
fn definitions_at_the_end_of_items(rt: HostRuntime) -> Result<(), Fail> {
    compare(
        rt.alloc(),
        &[
            ("[a]: b\n", "[a]: <b> 0..6;"),
            (
                "+ [a]:a\n",
                "0 List(true, 43, 0) 0..8;1 ListItem(2) 0..8;[a]: <a> 2..7;",
            ),
            (
                "+ [a]:a",
                "0 List(true, 43, 0) 0..7;1 ListItem(2) 0..7;[a]: <a> 2..7;",
            ),
            (
                "+ [a]: b  ",
                "0 List(true, 43, 0) 0..10;1 ListItem(2) 0..10;[a]: <b> 2..8;",
            ),
            (
                "+ [a]:\n  /u\n  't'  \n",
                "0 List(true, 43, 0) 0..20;1 ListItem(2) 0..20;[a]: </u> \"t\" 2..17;",
            ),
            (
                "+ [a]:\n  /u\n  't'",
                "0 List(true, 43, 0) 0..17;1 ListItem(2) 0..17;[a]: </u> \"t\" 2..17;",
            ),
            (
                "- [a]: b\n  [c]: d\r\n- e\n",
                "0 List(true, 45, 0) 0..23;1 ListItem(2) 0..19;1 ListItem(2) 19..23;2 TightParagraph 21..23;3 T 21..22;\
                [a]: <b> 2..8;[c]: <d> 11..17;",
            ),
            (
                "- - [a]: b\n",
                "0 List(true, 45, 0) 0..11;1 ListItem(2) 0..11;2 List(true, 45, 0) 2..11;3 ListItem(2) 2..11;\
                [a]: <b> 4..10;",
            ),
            (
                "> - [a]: b\n",
                "0 BlockQuote(None) 0..11;1 List(true, 45, 0) 2..11;2 ListItem(2) 2..11;[a]: <b> 4..10;",
            ),
            (
                "> - [a]: b",
                "0 BlockQuote(None) 0..10;1 List(true, 45, 0) 2..10;2 ListItem(2) 2..10;[a]: <b> 4..10;",
            ),
            (
                "> - [a]:\n>   b\n",
                "0 BlockQuote(None) 0..15;1 List(true, 45, 0) 2..15;2 ListItem(2) 2..15;[a]: <b> 4..14;",
            ),
            (
                "- > [a]: b\n",
                "0 List(true, 45, 0) 0..11;1 ListItem(2) 0..11;2 BlockQuote(None) 2..11;[a]: <b> 4..10;",
            ),
            (
                "- > [a]: b",
                "0 List(true, 45, 0) 0..10;1 ListItem(2) 0..10;2 BlockQuote(None) 2..10;[a]: <b> 4..10;",
            ),
            (
                "> - [a]: b\n> c\n",
                "0 BlockQuote(None) 0..15;1 List(true, 45, 0) 2..15;2 ListItem(2) 2..15;3 TightParagraph 13..15;4 T 13..14;\
                [a]: <b> 4..10;",
            ),
            (
                "- [a]: b\n\n  c\n",
                "0 List(false, 45, 0) 0..14;1 ListItem(2) 0..14;2 Paragraph 12..14;3 T 12..13;[a]: <b> 2..8;",
            ),
            (
                "- [a]: b\n\n- c\n",
                "0 List(false, 45, 0) 0..14;1 ListItem(2) 0..9;1 ListItem(2) 10..14;2 Paragraph 12..14;3 T 12..13;\
                [a]: <b> 2..8;",
            ),
        ],
    )
}
