//! Safe HTML of events that no text is read as, by rules of the caller.
use crate::safe::{Row, check_by, rules_of};
use crate::signs::Sign;
use markdown_base::tag::{Alignment, LinkType, TagEnd};
use markdown_safe::{Images, SafeRules};
use std::test::Fail;

#[test]
fn no_rel_by_rule(rt: HostRuntime) -> Result<(), Fail> {
    let rules = rules_of("", Images::Shown, false);
    check_by(
        rt.alloc(),
        rules,
        &[
            (
                &[Sign::Link(LinkType::Inline, "https://a", "b")],
                "<a href=\"https://a\" title=\"b\">",
            ),
            (
                &[Sign::Link(LinkType::Email, "a@b", "")],
                "<a href=\"mailto:a@b\">",
            ),
            (
                &[
                    Sign::Table(&[Alignment::Left, Alignment::None, Alignment::Right]),
                    Sign::Open(TagEnd::TableHead),
                    Sign::Open(TagEnd::TableCell),
                    Sign::Close(TagEnd::TableCell),
                    Sign::Open(TagEnd::TableCell),
                    Sign::Close(TagEnd::TableCell),
                    Sign::Open(TagEnd::TableCell),
                    Sign::Close(TagEnd::TableCell),
                    Sign::Close(TagEnd::TableHead),
                ],
                "<table><thead><tr><th align=\"left\"></th><th></th><th align=\"right\"></th></tr></thead><tbody>\n",
            ),
        ],
    )
}

#[test]
fn a_prefix_by_rule(rt: HostRuntime) -> Result<(), Fail> {
    let rules = rules_of("17-", Images::Shown, true);
    check_by(
        rt.alloc(),
        rules,
        &[
            (&[Sign::FullHeading], "<h2 id=\"user-content-17-i\">"),
            (
                &[Sign::Definition("a")],
                "<div class=\"footnote-definition\" id=\"user-content-17-a\"><sup class=\"footnote-definition-label\">1</sup>",
            ),
            (
                &[Sign::Reference("a")],
                "<sup class=\"footnote-reference\"><a href=\"#user-content-17-a\">1</a></sup>",
            ),
            (
                &[Sign::Link(LinkType::Inline, "#a", "")],
                "<a href=\"#user-content-17-a\">",
            ),
            (
                &[Sign::Link(LinkType::Inline, "#user-content-a", "")],
                "<a href=\"#user-content-a\">",
            ),
            (&[Sign::Link(LinkType::Inline, "#", "")], "<a href=\"#\">"),
            (
                &[Sign::Link(LinkType::Inline, "a", ""), Sign::Reference("b")],
                "<a href=\"a\">[^b]",
            ),
        ],
    )
}

/// An image in a link, and in it another image and a link.
const IMAGES: &[Sign<'static>] = &[
    Sign::Link(LinkType::Inline, "a", ""),
    Sign::Image("b", "c"),
    Sign::Words("d"),
    Sign::Close(TagEnd::Image),
    Sign::Close(TagEnd::Link),
    Sign::Image("https://e", "f"),
    Sign::Open(TagEnd::Emphasis),
    Sign::Image("g", ""),
    Sign::Words("h"),
    Sign::Close(TagEnd::Image),
    Sign::Close(TagEnd::Emphasis),
    Sign::Link(LinkType::Inline, "i", ""),
    Sign::Words("j"),
    Sign::Close(TagEnd::Link),
    Sign::Close(TagEnd::Image),
];

#[test]
fn images_as_links_by_rule(rt: HostRuntime) -> Result<(), Fail> {
    let rules = rules_of("", Images::Links, true);
    check_by(
        rt.alloc(),
        rules,
        &[
            (
                IMAGES,
                "<a href=\"a\">d</a><a href=\"https://e\" title=\"f\" rel=\"nofollow ugc noopener\"><em>h</em>j</a>",
            ),
            (&[Sign::Image("javascript:a", "")], "<a href=\"\">"),
            (
                &[Sign::Image("tel:1", "")],
                "<a href=\"tel:1\" rel=\"nofollow ugc noopener\">",
            ),
            (&[Sign::Image("#a", "")], "<a href=\"#user-content-a\">"),
        ],
    )
}

#[test]
fn images_as_text_by_rule(rt: HostRuntime) -> Result<(), Fail> {
    let rules = rules_of("", Images::Text, true);
    check_by(
        rt.alloc(),
        rules,
        &[
            (IMAGES, "<a href=\"a\">d</a><em>h</em><a href=\"i\">j</a>"),
            (&[Sign::Image("a", ""), Sign::Words("<b>")], "&lt;b&gt;"),
        ],
    )
}

/// Tags that nest too deep, with their Ends, are left out, and what is in them stays; a list has room for its items.
const NESTED: &[Row] = &[
    (
        &[
            Sign::Open(TagEnd::Emphasis),
            Sign::Open(TagEnd::Strong),
            Sign::Open(TagEnd::Strikethrough),
            Sign::Words("a"),
            Sign::Close(TagEnd::Strikethrough),
            Sign::Words("b"),
            Sign::Close(TagEnd::Strong),
            Sign::Close(TagEnd::Emphasis),
        ],
        "<em><strong>ab</strong></em>",
    ),
    (
        &[
            Sign::Open(TagEnd::List(false)),
            Sign::Open(TagEnd::Item),
            Sign::Open(TagEnd::Emphasis),
            Sign::Words("a"),
            Sign::Close(TagEnd::Emphasis),
            Sign::Close(TagEnd::Item),
            Sign::Close(TagEnd::List(false)),
        ],
        "<ul>\n<li>a</li>\n</ul>\n",
    ),
    (
        &[
            Sign::Open(TagEnd::BlockQuote(None)),
            Sign::Open(TagEnd::List(false)),
            Sign::Open(TagEnd::Item),
            Sign::Words("a"),
            Sign::Close(TagEnd::Item),
            Sign::Close(TagEnd::List(false)),
            Sign::Close(TagEnd::BlockQuote(None)),
        ],
        "<blockquote>\na</blockquote>\n",
    ),
];

#[test]
fn a_limit_of_nesting_by_rule(rt: HostRuntime) -> Result<(), Fail> {
    let mut rules = SafeRules::new();
    rules.nesting = 2;
    check_by(rt.alloc(), rules, NESTED)
}
