//! What is written for files, by format.
use crate::shelf::after_run;
use markdown_test_helpers::rows::Rows;
use std::alloc::Global;
use std::test::Fail;

/// Words, and what is written, after its name.
type Row = (&'static [&'static str], &'static str);

const FORMATS: &[Row] = &[
    (&[], "-: <p><em>in</em></p>\n"),
    (&["-"], "-: <p><em>in</em></p>\n"),
    (&["a.md"], "-: <p>a</p>\n"),
    (
        &["a.md", "b.md"],
        "-: <p>a</p>\n<h1>B <em>c</em></h1>\n<h2>D</h2>\n",
    ),
    (&["-o", "a.md", "a.md"], "a.md: <p>a</p>\n"),
    (&["--", "a.md"], "-: <p>a</p>\n"),
    (&["mark.md", "a.md"], "-: <h1>A</h1>\n<p>a</p>\n"),
    (&["-t", "toc", "b.md"], "-: - [B c](#b-c)\n  - [D](#d)\n"),
    (
        &["-t", "outline", "mark.md"],
        "-: {\"level\":1,\"text\":\"A\",\"range\":{\"start\":0,\"end\":3}}\n",
    ),
    (
        &["-t", "events", "a.md"],
        "-: [{\"Start\":\"Paragraph\"},{\"start\":0,\"end\":1}]\n\
        [{\"Text\":\"a\"},{\"start\":0,\"end\":1}]\n\
        [{\"End\":\"Paragraph\"},{\"start\":0,\"end\":1}]\n",
    ),
    (&["html.md"], "-: <p>a<b>c</b>©</p>\n"),
    (&["--safe", "html.md"], "-: <p>a&lt;b&gt;c&lt;/b&gt;©</p>\n"),
];

/// A paragraph of `strike.md`, by extension.
const EXTENSIONS: &[Row] = &[
    (
        &["-e", "strikethrough", "strike.md"],
        "-: <p><del>a</del> b^c^<a href=\"e\">^d</a></p>\n",
    ),
    (
        &["-e", "superscript", "-e", "strikethrough", "strike.md"],
        "-: <p><del>a</del> b<sup>c</sup><a href=\"e\">^d</a></p>\n",
    ),
    (
        &["--gfm", "strike.md"],
        "-: <p><del>a</del> b^c^<sup class=\"footnote-reference\"><a href=\"#d\">1</a></sup></p>\n\
        <div class=\"footnote-definition\" id=\"d\"><sup class=\"footnote-definition-label\">1</sup>\n\
        <p>e</p>\n</div>\n",
    ),
    (
        &["-a", "strike.md"],
        "-: <p><del>a</del> b<sup>c</sup><sup class=\"footnote-reference\"><a href=\"#d\">1</a></sup></p>\n\
        <div class=\"footnote-definition\" id=\"d\"><sup class=\"footnote-definition-label\">1</sup>\n\
        <p>e</p>\n</div>\n",
    ),
];

/// What lists enable and disable, whatever the order.
const LISTS: &[Row] = &[
    (
        &["-e", "superscript,strikethrough", "strike.md"],
        "-: <p><del>a</del> b<sup>c</sup><a href=\"e\">^d</a></p>\n",
    ),
    (
        &["--gfm", "-e", "no-footnotes", "strike.md"],
        "-: <p><del>a</del> b^c^<a href=\"e\">^d</a></p>\n",
    ),
    (
        &["-e", "no-footnotes,superscript", "--gfm", "strike.md"],
        "-: <p><del>a</del> b<sup>c</sup><a href=\"e\">^d</a></p>\n",
    ),
    (
        &[
            "-e",
            "no-strikethrough",
            "-e",
            "superscript,strikethrough",
            "strike.md",
        ],
        "-: <p>~~a~~ b<sup>c</sup><a href=\"e\">^d</a></p>\n",
    ),
    (
        &["-a", "-e", "no-superscript,no-footnotes", "strike.md"],
        "-: <p><del>a</del> b^c^<a href=\"e\">^d</a></p>\n",
    ),
    (
        &["-e", "alerts", "alert.md"],
        "-: <blockquote class=\"markdown-alert-note\">\n<p>a</p>\n</blockquote>\n",
    ),
    (
        &["-e", "gfm", "alert.md"],
        "-: <blockquote class=\"markdown-alert-note\">\n<p>a</p>\n</blockquote>\n",
    ),
    (
        &["--gfm", "-e", "no-gfm", "alert.md"],
        "-: <blockquote>\n<p>[!NOTE]\na</p>\n</blockquote>\n",
    ),
    (
        &["-e", "alerts", "-a", "-e", "no-alerts", "alert.md"],
        "-: <blockquote>\n<p>[!NOTE]\na</p>\n</blockquote>\n",
    ),
];

/// Safe HTML by rules, and what is written within a limit.
const RULES: &[Row] = &[
    (
        &["--safe", "-e", "heading-ids", "rules.md"],
        "-: <h1 id=\"user-content-a\">A</h1>\n\
        <p><img src=\"c\" alt=\"b\" /> <a href=\"//e\" rel=\"nofollow ugc noopener\">d</a></p>\n\
        <blockquote>\n<p><em>f</em></p>\n</blockquote>\n",
    ),
    (
        &[
            "--safe",
            "--images",
            "links",
            "--id-prefix",
            "17-",
            "-e",
            "heading-ids",
            "rules.md",
        ],
        "-: <h1 id=\"user-content-17-a\">A</h1>\n\
        <p><a href=\"c\">b</a> <a href=\"//e\" rel=\"nofollow ugc noopener\">d</a></p>\n\
        <blockquote>\n<p><em>f</em></p>\n</blockquote>\n",
    ),
    (
        &[
            "--safe",
            "--images",
            "text",
            "--no-rel",
            "--nesting",
            "2",
            "rules.md",
        ],
        "-: <h1>A</h1>\n<p>b <a href=\"//e\">d</a></p>\n<blockquote>\n<p>f</p>\n</blockquote>\n",
    ),
    (&["--safe", "--images", "shown", "a.md"], "-: <p>a</p>\n"),
    (
        &[
            "--safe",
            "--id-prefix",
            "17-",
            "-e",
            "heading-ids",
            "a.md",
            "mark.md",
        ],
        "-: <p>a</p>\n<h1 id=\"user-content-17-f2-a\">A</h1>\n",
    ),
    (&["--limit", "9", "a.md"], "-: <p>a</p>\n"),
];

/// Files that are not UTF-8: one U+FFFD stands for each maximal piece that is none, and ranges are those of the text so read.
const LOSSY: &[Row] = &[
    (&["--lossy", "bad.md"], "-: <p>a\nb\u{fffd}</p>\n"),
    (&["--lossy", "cut.md"], "-: <p>a</p>\n<p>\u{fffd}</p>\n"),
    (
        &["--lossy", "pieces.md"],
        "-: <p>\u{fffd}\u{fffd} \u{fffd} \u{fffd}\u{fffd} \u{fffd}\u{fffd}\u{fffd} \u{fffd}€</p>\n",
    ),
    (
        &["--lossy", "-t", "outline", "head.md"],
        "-: {\"level\":1,\"text\":\"\u{fffd}\",\"range\":{\"start\":0,\"end\":5}}\n",
    ),
    (
        &["--lossy", "a.md", "bad.md"],
        "-: <p>a</p>\n<p>a\nb\u{fffd}</p>\n",
    ),
];

/// Ids of headings, with a prefix where several files become HTML, and where they are shown.
const IDS: &[Row] = &[
    (
        &["-e", "heading-ids", "b.md"],
        "-: <h1 id=\"b-c\">B <em>c</em></h1>\n<h2 id=\"d\">D</h2>\n",
    ),
    (
        &["--gfm", "--safe", "b.md"],
        "-: <h1 id=\"user-content-b-c\">B <em>c</em></h1>\n<h2 id=\"user-content-d\">D</h2>\n",
    ),
    (
        &["-a", "-e", "no-heading-ids", "b.md"],
        "-: <h1>B <em>c</em></h1>\n<h2>D</h2>\n",
    ),
    (
        &["-e", "heading-ids", "a.md", "mark.md"],
        "-: <p>a</p>\n<h1 id=\"f2-a\">A</h1>\n",
    ),
    (
        &["-e", "heading-ids", "-t", "outline", "mark.md"],
        "-: {\"level\":1,\"text\":\"A\",\"range\":{\"start\":0,\"end\":3},\"id\":\"a\"}\n",
    ),
    (
        &["-t", "toc", "b.md", "mark.md"],
        "-: - [B c](b.md#b-c)\n  - [D](b.md#d)\n- [A](mark.md#a)\n",
    ),
    (
        &["-t", "outline", "a.md", "mark.md"],
        "-: {\"file\":\"a.md\"}\n{\"file\":\"mark.md\"}\n\
        {\"level\":1,\"text\":\"A\",\"range\":{\"start\":0,\"end\":3}}\n",
    ),
];

/// The lines of linters, with lines and columns and without.
const LINES: &[Row] = &[
    (
        &["-t", "broken", "-e", "footnotes", "broken.md"],
        "-: {\"link_type\":\"Reference\",\"image\":false,\"reference\":\"b\",\"range\":{\"start\":0,\"end\":6}}\n\
        {\"link_type\":\"Shortcut\",\"image\":false,\"reference\":\"c\",\"range\":{\"start\":7,\"end\":10}}\n\
        {\"link_type\":\"Collapsed\",\"image\":false,\"reference\":\"d\",\"range\":{\"start\":11,\"end\":14}}\n\
        {\"link_type\":\"Reference\",\"image\":true,\"reference\":\"f\",\"range\":{\"start\":17,\"end\":24}}\n\
        {\"link_type\":\"Shortcut\",\"image\":true,\"reference\":\"g\",\"range\":{\"start\":25,\"end\":29}}\n\
        {\"link_type\":\"Reference\",\"image\":false,\"reference\":\"l\",\"range\":{\"start\":49,\"end\":55}}\n\
        {\"link_type\":\"Shortcut\",\"image\":false,\"reference\":\"n\",\"range\":{\"start\":59,\"end\":62}}\n",
    ),
    (
        &["-t", "broken", "a.md", "b.md"],
        "-: {\"file\":\"a.md\"}\n{\"file\":\"b.md\"}\n",
    ),
    (
        &[
            "-t",
            "outline",
            "--positions",
            "-e",
            "heading-ids",
            "mark.md",
        ],
        "-: {\"level\":1,\"text\":\"A\",\"range\":{\"start\":0,\"end\":3},\"id\":\"a\",\
        \"line\":1,\"column\":1,\"end_line\":1,\"end_column\":4}\n",
    ),
    (
        &["-t", "events", "--positions", "a.md"],
        "-: [{\"Start\":\"Paragraph\"},{\"start\":0,\"end\":1},\
        {\"line\":1,\"column\":1,\"end_line\":1,\"end_column\":2}]\n\
        [{\"Text\":\"a\"},{\"start\":0,\"end\":1},{\"line\":1,\"column\":1,\"end_line\":1,\"end_column\":2}]\n\
        [{\"End\":\"Paragraph\"},{\"start\":0,\"end\":1},{\"line\":1,\"column\":1,\"end_line\":1,\"end_column\":2}]\n",
    ),
    (
        &["-t", "links", "--positions", "link.md"],
        "-: {\"kind\":\"link\",\"link_type\":\"Inline\",\"dest_url\":\"c\",\"title\":\"\",\"id\":\"\",\"text\":\"b\",\
        \"range\":{\"start\":2,\"end\":8},\"line\":2,\"column\":1,\"end_line\":2,\"end_column\":7}\n",
    ),
    (
        &["-t", "broken", "--positions", "lines.md"],
        "-: {\"link_type\":\"Shortcut\",\"image\":false,\"reference\":\"c\",\"range\":{\"start\":5,\"end\":8},\
        \"line\":1,\"column\":5,\"end_line\":1,\"end_column\":8}\n\
        {\"link_type\":\"Shortcut\",\"image\":false,\"reference\":\"d\",\"range\":{\"start\":10,\"end\":13},\
        \"line\":2,\"column\":1,\"end_line\":2,\"end_column\":4}\n\
        {\"link_type\":\"Shortcut\",\"image\":false,\"reference\":\"e\",\"range\":{\"start\":14,\"end\":17},\
        \"line\":3,\"column\":1,\"end_line\":3,\"end_column\":4}\n\
        {\"link_type\":\"Shortcut\",\"image\":false,\"reference\":\"f\",\"range\":{\"start\":24,\"end\":27},\
        \"line\":5,\"column\":3,\"end_line\":5,\"end_column\":6}\n",
    ),
];

const PAGES: &[Row] = &[
    (
        &["-f", "--css", "", "-e", "yaml", "--toc", "meta.md"],
        "-: <!DOCTYPE html>\n<html>\n<head>\n<meta charset=\"utf-8\">\n\
        <meta name=\"viewport\" content=\"width=device-width, initial-scale=1\">\n<title>A &amp; B</title>\n</head>\n<body>\n\
        <nav>\n<ul>\n<li><a href=\"#c\">C</a></li>\n</ul>\n</nav>\n\
        <main>\n<h1 id=\"c\">C</h1>\n</main>\n</body>\n</html>\n",
    ),
    (
        &["-f", "--css", "", "-e", "yaml", "--title", "", "meta.md"],
        "-: <!DOCTYPE html>\n<html>\n<head>\n<meta charset=\"utf-8\">\n\
        <meta name=\"viewport\" content=\"width=device-width, initial-scale=1\">\n<title></title>\n</head>\n<body>\n\
        <main>\n<h1 id=\"c\">C</h1>\n</main>\n</body>\n</html>\n",
    ),
    (
        &["-f", "--css", "", "a.md", "mark.md"],
        "-: <!DOCTYPE html>\n<html>\n<head>\n<meta charset=\"utf-8\">\n\
        <meta name=\"viewport\" content=\"width=device-width, initial-scale=1\">\n<title>a</title>\n</head>\n<body>\n\
        <main>\n<p>a</p>\n<h1 id=\"f2-a\">A</h1>\n</main>\n</body>\n</html>\n",
    ),
    (
        &["-f", "--css", "", "--toc", "--lang", "en", "b.md"],
        "-: <!DOCTYPE html>\n<html lang=\"en\">\n<head>\n<meta charset=\"utf-8\">\n\
        <meta name=\"viewport\" content=\"width=device-width, initial-scale=1\">\n<title>B c</title>\n</head>\n<body>\n\
        <nav>\n<ul>\n<li><a href=\"#b-c\">B c</a>\n<ul>\n<li><a href=\"#d\">D</a></li>\n</ul>\n</li>\n</ul>\n</nav>\n\
        <main>\n<h1 id=\"b-c\">B <em>c</em></h1>\n<h2 id=\"d\">D</h2>\n</main>\n</body>\n</html>\n",
    ),
    (
        &[
            "-f",
            "--title",
            "<a> & \"b\"",
            "--css",
            "c?d&e\"",
            "--safe",
            "html.md",
        ],
        "-: <!DOCTYPE html>\n<html>\n<head>\n<meta charset=\"utf-8\">\n\
        <meta name=\"viewport\" content=\"width=device-width, initial-scale=1\">\n\
        <title>&lt;a&gt; &amp; &quot;b&quot;</title>\n\
        <link rel=\"stylesheet\" href=\"c?d&amp;e&quot;\">\n</head>\n<body>\n\
        <main>\n<p>a&lt;b&gt;c&lt;/b&gt;©</p>\n</main>\n</body>\n</html>\n",
    ),
    (
        &[
            "-f",
            "--css",
            "",
            "--toc",
            "--safe",
            "--id-prefix",
            "17-",
            "mark.md",
        ],
        "-: <!DOCTYPE html>\n<html>\n<head>\n<meta charset=\"utf-8\">\n\
        <meta name=\"viewport\" content=\"width=device-width, initial-scale=1\">\n<title>A</title>\n</head>\n<body>\n\
        <nav>\n<ul>\n<li><a href=\"#user-content-17-a\">A</a></li>\n</ul>\n</nav>\n\
        <main>\n<h1 id=\"user-content-17-a\">A</h1>\n</main>\n</body>\n</html>\n",
    ),
];

/// Checks what is written for each row, with status 0 and no message.
fn writes(alloc: Global, rows: &mut Rows, table: &[Row]) -> Result<(), Fail> {
    for (words, wanted) in table {
        let left = after_run(alloc, words, None)?;
        rows.gives(
            *words,
            (left.status, left.message.as_str(), left.written.as_str()),
            (0, "", *wanted),
        );
    }
    Ok(())
}

#[test]
fn files(rt: HostRuntime) -> Result<(), Fail> {
    let mut rows = Rows::new();
    writes(rt.alloc(), &mut rows, FORMATS)?;
    writes(rt.alloc(), &mut rows, EXTENSIONS)?;
    writes(rt.alloc(), &mut rows, LISTS)?;
    writes(rt.alloc(), &mut rows, RULES)?;
    writes(rt.alloc(), &mut rows, LOSSY)?;
    writes(rt.alloc(), &mut rows, IDS)?;
    writes(rt.alloc(), &mut rows, LINES)?;
    writes(rt.alloc(), &mut rows, PAGES)?;
    rows.end()
}
