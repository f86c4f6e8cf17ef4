//! Safe HTML of events that no text is read as, by the rules of a caller who chooses nothing.
use crate::signs::{Sign, items_of};
use markdown_base::fault::Fault;
use markdown_base::tag::{Alignment, BlockQuoteKind, LinkType, MetadataBlockKind, TagEnd};
use markdown_out::html::{push_html, push_html_by};
use markdown_safe::{Images, Safe, SafeRules};
use markdown_test_helpers::rows::Rows;
use std::alloc::Global;
use std::test::Fail;

/// Events, and what is written of them made safe.
pub type Row = (&'static [Sign<'static>], &'static str);

/// Returns rules with this prefix, these images and this `rel`, and otherwise those of a caller who chooses nothing.
pub fn rules_of(prefix: &'static str, images: Images, rel: bool) -> SafeRules<'static> {
    let mut rules = SafeRules::new();
    rules.prefix = prefix;
    rules.images = images;
    rules.rel = rel;
    rules
}

/// Returns the HTML of the events of signs, each made safe by these rules.
fn safe_html_of(
    alloc: Global,
    rules: SafeRules<'static>,
    signs: &'static [Sign<'static>],
) -> Result<String, Fault> {
    let mut html = String::new(alloc);
    let safe = Safe::with_rules(alloc, items_of(alloc, signs), rules);
    push_html_by(alloc, &mut html, safe, rules.html())?;
    Ok(html)
}

/// Checks the HTML of the events of each row, by these rules.
pub fn check_by(alloc: Global, rules: SafeRules<'static>, table: &[Row]) -> Result<(), Fail> {
    let mut rows = Rows::new();
    for row in table {
        let html = safe_html_of(alloc, rules, row.0).ok();
        rows.gives(row.1, html.as_deref(), Some(row.1));
    }
    rows.end()
}

/// Checks the HTML of the events of each row, by the rules of a caller who chooses nothing.
fn check(alloc: Global, table: &[Row]) -> Result<(), Fail> {
    check_by(alloc, SafeRules::new(), table)
}

const QUOTED_TABLE: &[Sign<'static>] = &[
    Sign::Open(TagEnd::BlockQuote(Some(BlockQuoteKind::Note))),
    Sign::Table(&[Alignment::Center]),
    Sign::Open(TagEnd::TableHead),
    Sign::Open(TagEnd::TableCell),
    Sign::Html("<script>"),
    Sign::Close(TagEnd::TableCell),
    Sign::Close(TagEnd::TableHead),
    Sign::Close(TagEnd::Table),
    Sign::Close(TagEnd::BlockQuote(Some(BlockQuoteKind::Note))),
    Sign::Open(TagEnd::MetadataBlock(MetadataBlockKind::YamlStyle)),
    Sign::Html("<script>"),
    Sign::Close(TagEnd::MetadataBlock(MetadataBlockKind::YamlStyle)),
    Sign::Link(LinkType::Email, "a@b.example", ""),
    Sign::Close(TagEnd::Link),
    Sign::Task(true),
];

const UNBALANCED: &[Sign<'static>] = &[
    Sign::Close(TagEnd::TableCell),
    Sign::Fenced("a\tb \"c"),
    Sign::Image("java\nscript:x", "\" onload=\""),
    Sign::Html("\"><script>"),
    Sign::Open(TagEnd::MetadataBlock(MetadataBlockKind::YamlStyle)),
    Sign::InlineHtml("<b>"),
];

#[test]
fn events_made_by_hand(rt: HostRuntime) -> Result<(), Fail> {
    check(
        rt.alloc(),
        &[
            (
                &[Sign::FullHeading, Sign::InlineHtml("<svg onload=x>")],
                "<h2 id=\"user-content-i\">&lt;svg onload=x&gt;",
            ),
            (
                QUOTED_TABLE,
                "<blockquote class=\"markdown-alert-note\">\n<table><thead><tr><th align=\"center\">&lt;script&gt;</th></tr></thead><tbody>\n</tbody></table>\n</blockquote>\n<a href=\"mailto:a@b.example\" rel=\"nofollow ugc noopener\"></a><input disabled=\"\" type=\"checkbox\" checked=\"\"/>\n",
            ),
            (
                UNBALANCED,
                "</th>\n<pre><code class=\"language-a\"><img src=\"\" alt=\"&quot;&gt;&lt;script&gt;&lt;b&gt;\" title=\"&quot; onload=&quot;\" />",
            ),
        ],
    )
}

/// Returns the HTML of the events of signs, each made safe, as `push_html` writes it.
fn html_as_upstream(alloc: Global, signs: &'static [Sign<'static>]) -> Result<String, Fault> {
    let mut html = String::new(alloc);
    push_html(alloc, &mut html, Safe::new(alloc, items_of(alloc, signs)))?;
    Ok(html)
}

#[test]
fn written_as_upstream(rt: HostRuntime) -> Result<(), Fail> {
    let html = html_as_upstream(rt.alloc(), QUOTED_TABLE).ok();
    let wanted =
        "<blockquote class=\"markdown-alert-note\">\n<table><thead><tr><th style=\"text-align: center\">&lt;script&gt;</th></tr></thead><tbody>\n</tbody></table>\n</blockquote>\n<a href=\"mailto:a@b.example\"></a><input disabled=\"\" type=\"checkbox\" checked=\"\"/>\n";
    let mut rows = Rows::new();
    rows.gives("a table and a link", html.as_deref(), Some(wanted));
    rows.end()
}

/// A comment over the lines of an HTML block ends at its end, and else nowhere but at a `-->`.
const COMMENTED_BLOCKS: &[Row] = &[
    (
        &[
            Sign::Open(TagEnd::HtmlBlock),
            Sign::Html("a<!-- b\n"),
            Sign::Html("c\n"),
            Sign::Html("d -->e\n"),
            Sign::Close(TagEnd::HtmlBlock),
        ],
        "ae\n",
    ),
    (
        &[
            Sign::Open(TagEnd::HtmlBlock),
            Sign::Html("<!-- a\n"),
            Sign::Close(TagEnd::HtmlBlock),
            Sign::Open(TagEnd::HtmlBlock),
            Sign::Html("b\n"),
            Sign::Close(TagEnd::HtmlBlock),
        ],
        "b\n",
    ),
    (
        &[
            Sign::Html("<!-- a"),
            Sign::Open(TagEnd::HtmlBlock),
            Sign::Html("b-->\n"),
        ],
        "b--&gt;\n",
    ),
    (
        &[
            Sign::Html("<!-- a"),
            Sign::Words("b"),
            Sign::InlineHtml("<c>"),
            Sign::Html("d-->e"),
        ],
        "b&lt;c&gt;e",
    ),
];

/// Comments in one piece of HTML, and what is none.
const COMMENTS: &[Row] = &[
    (&[Sign::Html("a<!--b-->c<!-- d --><!---->e\n")], "ace\n"),
    (&[Sign::Html("<!-->a<!--->b\n")], "ab\n"),
    (&[Sign::Html("<!--a--!>b-->c\n")], "c\n"),
    (&[Sign::Html("  <!-- a -->\t\n")], ""),
    (&[Sign::Html("  \n")], "  \n"),
    (
        &[Sign::Html("<!-"), Sign::Html("- a -->\n")],
        "&lt;!-- a --&gt;\n",
    ),
    (
        &[Sign::Html("a --><!- b -->\n")],
        "a --&gt;&lt;!- b --&gt;\n",
    ),
    (&[Sign::Html("<!-- a --><HR>\n")], "<hr />\n"),
    (
        &[Sign::InlineHtml("<!-- a -->"), Sign::InlineHtml("b")],
        "b",
    ),
    (&[Sign::InlineHtml("<!-- a"), Sign::InlineHtml("b")], "b"),
    (
        &[
            Sign::Image("a", ""),
            Sign::InlineHtml("<!-- b -->"),
            Sign::Words("c"),
            Sign::Close(TagEnd::Image),
        ],
        "<img src=\"a\" alt=\"c\" />",
    ),
    (&[Sign::Words("<!-- a -->")], "&lt;!-- a --&gt;"),
    (&[Sign::Code("<!-- a -->")], "<code>&lt;!-- a --&gt;</code>"),
];

#[test]
fn comments(rt: HostRuntime) -> Result<(), Fail> {
    check(rt.alloc(), COMMENTED_BLOCKS)?;
    check(rt.alloc(), COMMENTS)
}

/// In HTML blocks the tags of a line break and of a rule.
const TAGS_OF_BLOCKS: &[Row] = &[
    (&[Sign::Html("<hr>\n")], "<hr />\n"),
    (&[Sign::Html("\t<hR\nclass='a' />  \n")], "<hr />\n"),
    (&[Sign::Words("a"), Sign::Html("<hr>\n")], "a\n<hr />\n"),
    (&[Sign::Html("<Br/>\n")], "<br />\n"),
    (&[Sign::Html("<wbr>\n")], "&lt;wbr&gt;\n"),
    (&[Sign::Html("<hr><hr>\n")], "&lt;hr&gt;&lt;hr&gt;\n"),
    (&[Sign::Html("a<hr>\n")], "a&lt;hr&gt;\n"),
    (&[Sign::Html("<hr>a\n")], "&lt;hr&gt;a\n"),
    (&[Sign::Html("<hr a=\">\">\n")], "&lt;hr a=\"&gt;\"&gt;\n"),
    (&[Sign::Html("<hrx>\n")], "&lt;hrx&gt;\n"),
    (&[Sign::Html("</hr>\n")], "&lt;/hr&gt;\n"),
    (&[Sign::Html("< hr>\n")], "&lt; hr&gt;\n"),
    (&[Sign::Html("<hr\n")], "&lt;hr\n"),
    (&[Sign::Html("")], ""),
];

/// In other places those of a line break, and of a place where a line may be broken.
const INLINE_TAGS: &[Row] = &[
    (&[Sign::InlineHtml("<br>")], "<br />\n"),
    (&[Sign::InlineHtml("<BR/>")], "<br />\n"),
    (&[Sign::InlineHtml("<br onclick=a()>")], "<br />\n"),
    (&[Sign::InlineHtml("<wbr>")], "<wbr />"),
    (&[Sign::InlineHtml("<WBR\tid='a'/>")], "<wbr />"),
    (&[Sign::InlineHtml("<hr>")], "&lt;hr&gt;"),
    (&[Sign::InlineHtml("</br>")], "&lt;/br&gt;"),
    (&[Sign::InlineHtml("<b")], "&lt;b"),
    (
        &[
            Sign::Image("a", ""),
            Sign::Words("b"),
            Sign::InlineHtml("<br>"),
            Sign::Words("c"),
            Sign::Close(TagEnd::Image),
        ],
        "<img src=\"a\" alt=\"b c\" />",
    ),
];

#[test]
fn tags_that_stay(rt: HostRuntime) -> Result<(), Fail> {
    check(rt.alloc(), TAGS_OF_BLOCKS)?;
    check(rt.alloc(), INLINE_TAGS)
}

/// A link in a link is its text, and a reference to a footnote is what was written; neither counts.
const LINKS_IN_LINKS: &[Row] = &[
    (
        &[
            Sign::Link(LinkType::Inline, "a", ""),
            Sign::Words("b"),
            Sign::Link(LinkType::Autolink, "https://c", "d"),
            Sign::Words("e"),
            Sign::Link(LinkType::Inline, "f", ""),
            Sign::Words("g"),
            Sign::Close(TagEnd::Link),
            Sign::Close(TagEnd::Link),
            Sign::Words("h"),
            Sign::Close(TagEnd::Link),
            Sign::Link(LinkType::Inline, "i", ""),
            Sign::Close(TagEnd::Link),
        ],
        "<a href=\"a\">begh</a><a href=\"i\"></a>",
    ),
    (
        &[
            Sign::Link(LinkType::Inline, "a", ""),
            Sign::Reference("b"),
            Sign::Close(TagEnd::Link),
            Sign::Reference("c"),
        ],
        "<a href=\"a\">[^b]</a><sup class=\"footnote-reference\"><a href=\"#user-content-c\">1</a></sup>",
    ),
    (
        &[
            Sign::Link(LinkType::Inline, "a", ""),
            Sign::Image("b", ""),
            Sign::Link(LinkType::Inline, "c", ""),
            Sign::Words("d"),
            Sign::Reference("e"),
            Sign::Close(TagEnd::Link),
            Sign::Close(TagEnd::Image),
            Sign::Words("f"),
            Sign::Close(TagEnd::Link),
        ],
        "<a href=\"a\"><img src=\"b\" alt=\"d[^e]\" />f</a>",
    ),
    (
        &[
            Sign::Close(TagEnd::Link),
            Sign::Link(LinkType::Inline, "a", ""),
            Sign::Link(LinkType::Inline, "b", ""),
            Sign::Words("c"),
        ],
        "</a><a href=\"a\">c",
    ),
];

#[test]
fn links_in_links(rt: HostRuntime) -> Result<(), Fail> {
    check(rt.alloc(), LINKS_IN_LINKS)
}

/// A destination with a scheme or a host leads to another site, and so does an address of mail.
const OTHER_SITES: &[Row] = &[
    (
        &[Sign::Link(LinkType::Inline, "https://a", "b")],
        "<a href=\"https://a\" title=\"b\" rel=\"nofollow ugc noopener\">",
    ),
    (
        &[Sign::Link(LinkType::Inline, "//a", "")],
        "<a href=\"//a\" rel=\"nofollow ugc noopener\">",
    ),
    (
        &[Sign::Link(LinkType::Reference, "HTTP:a", "")],
        "<a href=\"HTTP:a\" rel=\"nofollow ugc noopener\">",
    ),
    (
        &[Sign::Link(LinkType::Email, "a", "")],
        "<a href=\"mailto:a\" rel=\"nofollow ugc noopener\">",
    ),
    (
        &[Sign::Link(LinkType::WikiLink { has_pothole: false }, "tel:1", "")],
        "<a href=\"tel:1\" rel=\"nofollow ugc noopener\">",
    ),
];

/// Any other leads to a page of the same site, also one that a browser would read otherwise if it were written as it is.
const THIS_SITE: &[Row] = &[
    (&[Sign::Link(LinkType::Inline, "", "")], "<a href=\"\">"),
    (&[Sign::Link(LinkType::Inline, "/a", "")], "<a href=\"/a\">"),
    (
        &[Sign::Link(LinkType::Inline, "a/b:c", "")],
        "<a href=\"a/b:c\">",
    ),
    (
        &[Sign::Link(LinkType::Inline, "1a:b", "")],
        "<a href=\"1a:b\">",
    ),
    (
        &[Sign::Link(LinkType::Inline, "javascript:a", "")],
        "<a href=\"\">",
    ),
    (
        &[Sign::Link(LinkType::WikiLink { has_pothole: true }, "ftp:a", "")],
        "<a href=\"./ftp:a\">",
    ),
    (
        &[Sign::Link(LinkType::Inline, " //a", "")],
        "<a href=\"%20//a\">",
    ),
    (
        &[Sign::Link(LinkType::Inline, "\\\\a", "")],
        "<a href=\"%5C%5Ca\">",
    ),
    (
        &[Sign::Link(LinkType::Inline, "/\t/a", "")],
        "<a href=\"/%09/a\">",
    ),
    (
        &[Sign::Link(LinkType::Inline, "ht\ntps://a", "")],
        "<a href=\"ht%0Atps://a\">",
    ),
];

#[test]
fn links_to_other_sites(rt: HostRuntime) -> Result<(), Fail> {
    check(rt.alloc(), OTHER_SITES)?;
    check(rt.alloc(), THIS_SITE)
}
