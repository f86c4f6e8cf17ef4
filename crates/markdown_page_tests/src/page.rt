//! Whole pages.
use markdown_page::style::default_style;
use markdown_page::{Page, Style, page_html};
use markdown_test_helpers::rows::gives;
use std::test::Fail;

/// A page with the default style: what stands before the style, and after it.
const BEFORE_STYLE: &str =
    "<!DOCTYPE html>\n<html lang=\"en\">\n<head>\n<meta charset=\"utf-8\">\n<meta name=\"viewport\" \
    content=\"width=device-width, initial-scale=1\">\n<title>A &amp; B</title>\n<style>\n";

const AFTER_STYLE: &str =
    "\n</style>\n</head>\n<body>\n<nav>\n<ul>\n<li><a href=\"#c\">C</a></li>\n</ul>\n</nav>\n<main>\n<h1 \
    id=\"c\">C</h1>\n</main>\n</body>\n</html>\n";

/// A page with a style sheet.
const LINKED: &str =
    "<!DOCTYPE html>\n<html>\n<head>\n<meta charset=\"utf-8\">\n<meta name=\"viewport\" \
    content=\"width=device-width, initial-scale=1\">\n<title>&lt;T&gt;</title>\n<link rel=\"stylesheet\" \
    href=\"x&quot;y\">\n</head>\n<body>\n<nav>\n<ul>\n<li><a href=\"#user-content-c\">C</a></li>\n</ul>\n</nav>\n<main>\n<h1 \
    id=\"user-content-c\">C</h1>\n<p><a href=\"#user-content-c\">d</a> &lt;b&gt;</p>\n</main>\n</body>\n</html>\n";

/// A page without style and contents.
const BARE: &str =
    "<!DOCTYPE html>\n<html>\n<head>\n<meta charset=\"utf-8\">\n<meta name=\"viewport\" \
    content=\"width=device-width, initial-scale=1\">\n<title>d</title>\n</head>\n<body>\n<main>\n<p>a</p>\n</main>\n</body>\n\
    </html>\n";

/// Returns the style as it stands before the line feed at its end.
fn style_text() -> &'static str {
    default_style().trim_end()
}

#[test]
fn a_page_with_the_default_style(rt: HostRuntime) -> Result<(), Fail> {
    let page = Page {
        language: Some("en"),
        title: "A & B",
        style: Style::of(None),
        contents: "<ul>\n<li><a href=\"#c\">C</a></li>\n</ul>\n",
        html: "<h1 id=\"c\">C</h1>\n",
    };
    let html = page_html(rt.alloc(), &page)?;
    let mut wanted = String::from_str(rt.alloc(), BEFORE_STYLE)?;
    wanted.push_str(style_text())?;
    wanted.push_str(AFTER_STYLE)?;
    gives("page", html.as_str() == wanted.as_str(), true)
}

#[test]
fn a_page_with_a_style_sheet(rt: HostRuntime) -> Result<(), Fail> {
    let page = Page {
        language: None,
        title: "<T>",
        style: Style::of(Some("x\"y")),
        contents: "<ul>\n<li><a href=\"#user-content-c\">C</a></li>\n</ul>\n",
        html: "<h1 id=\"user-content-c\">C</h1>\n<p><a href=\"#user-content-c\">d</a> &lt;b&gt;</p>\n",
    };
    let html = page_html(rt.alloc(), &page)?;
    gives("page", html.as_str(), LINKED)
}

#[test]
fn a_page_without_style(rt: HostRuntime) -> Result<(), Fail> {
    let page = Page {
        language: None,
        title: "d",
        style: Style::of(Some("")),
        contents: "",
        html: "<p>a</p>\n",
    };
    let html = page_html(rt.alloc(), &page)?;
    gives("page", html.as_str(), BARE)
}

#[test]
fn a_style_of_many_lines() -> Result<(), Fail> {
    gives("style", default_style().len(), 3280)
}
