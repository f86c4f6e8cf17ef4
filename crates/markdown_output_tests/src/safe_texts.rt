//! Safe HTML of texts by the rules that a caller chooses. That of a caller who chooses none is in `markdown_rows`.
use crate::safe::rules_of;
use markdown_base::options::Options;
use markdown_base::syntax::Syntax;
use markdown_defs::DefaultBrokenLinkCallback;
use markdown_safe::{Images, safe_html_source, safe_html_with};
use markdown_test_helpers::rows::Rows;
use std::alloc::Global;
use std::test::Fail;

/// What a caller chooses, as prefix, images and `rel`; and the safe HTML of the text by it.
type Row = (&'static str, (&'static str, Images, bool), &'static str);

/// A heading with an id, links to it, an image, a link to another site, and a footnote.
const TEXT: &str = "# a {#b}\n\n[c](#b) ![d *e*](f \"g\") [h](//i)[^j]\n\n[^j]: k\n";

/// Returns what is read of the text.
fn syntax() -> Syntax {
    Syntax::full(Options::ENABLE_HEADING_ATTRIBUTES | Options::ENABLE_FOOTNOTES)
}

const ROWS: &[Row] = &[
    (
        "a prefix",
        ("17-", Images::Shown, true),
        "<h1 id=\"user-content-17-b\">a</h1>\n<p><a href=\"#user-content-17-b\">c</a> <img src=\"f\" alt=\"d e\" title=\"g\" /> <a href=\"//i\" rel=\"nofollow ugc noopener\">h</a><sup class=\"footnote-reference\"><a href=\"#user-content-17-j\">1</a></sup></p>\n<div class=\"footnote-definition\" id=\"user-content-17-j\"><sup class=\"footnote-definition-label\">1</sup>\n<p>k</p>\n</div>\n",
    ),
    (
        "images as links",
        ("", Images::Links, true),
        "<h1 id=\"user-content-b\">a</h1>\n<p><a href=\"#user-content-b\">c</a> <a href=\"f\" title=\"g\">d <em>e</em></a> <a href=\"//i\" rel=\"nofollow ugc noopener\">h</a><sup class=\"footnote-reference\"><a href=\"#user-content-j\">1</a></sup></p>\n<div class=\"footnote-definition\" id=\"user-content-j\"><sup class=\"footnote-definition-label\">1</sup>\n<p>k</p>\n</div>\n",
    ),
    (
        "images as text, and no rel",
        ("", Images::Text, false),
        "<h1 id=\"user-content-b\">a</h1>\n<p><a href=\"#user-content-b\">c</a> d <em>e</em> <a href=\"//i\">h</a><sup class=\"footnote-reference\"><a href=\"#user-content-j\">1</a></sup></p>\n<div class=\"footnote-definition\" id=\"user-content-j\"><sup class=\"footnote-definition-label\">1</sup>\n<p>k</p>\n</div>\n",
    ),
];

#[test]
fn rules(rt: HostRuntime) -> Result<(), Fail> {
    let mut rows = Rows::new();
    for (name, (prefix, images, rel), wanted) in ROWS {
        let rules = rules_of(prefix, *images, *rel);
        let nobody = None::<DefaultBrokenLinkCallback>;
        let html = safe_html_with(rt.alloc(), TEXT, syntax(), rules, nobody).ok();
        rows.gives(*name, html.as_deref(), Some(*wanted));
    }
    rows.end()
}

/// Returns the safe HTML of the text by the rules of a caller who chooses nothing, if it is made.
fn by_default(alloc: Global) -> Option<String> {
    let nobody = None::<DefaultBrokenLinkCallback>;
    safe_html_source(alloc, TEXT, syntax(), nobody).ok()
}

#[test]
fn no_rules(rt: HostRuntime) -> Result<(), Fail> {
    let wanted =
        "<h1 id=\"user-content-b\">a</h1>\n<p><a href=\"#user-content-b\">c</a> <img src=\"f\" alt=\"d e\" title=\"g\" /> <a href=\"//i\" rel=\"nofollow ugc noopener\">h</a><sup class=\"footnote-reference\"><a href=\"#user-content-j\">1</a></sup></p>\n<div class=\"footnote-definition\" id=\"user-content-j\"><sup class=\"footnote-definition-label\">1</sup>\n<p>k</p>\n</div>\n";
    let html = by_default(rt.alloc());
    let mut rows = Rows::new();
    rows.gives("no rules", html.as_deref(), Some(wanted));
    rows.end()
}
