//! Texts of code and math spans, and what begins at a `<`, in a paragraph directly under the document.
use markdown_base::cow_str::CowStr;
use markdown_raw_html::raw_html::RawHtmlScanner;
use markdown_spans::after_less::{Autolink, AutolinkKind, LessThan, MarkupFound, scan_after_less};
use markdown_spans::prefixes::ContainerPrefix;
use markdown_spans::span_text::{SpanKind, span_text};
use markdown_test_helpers::rows::Rows;
use std::alloc::{AllocError, Global};
use std::test::Fail;

/// The prefixes of lines that are in no container.
static IN_NOTHING: ContainerPrefix<'static> = ContainerPrefix {
    containers: &[],
    gfm_footnotes: false,
};

fn is_slice(text: &CowStr<'_>) -> bool {
    matches!(text, CowStr::Borrowed(_))
}

/// Returns the text of a span, and whether it is a slice of the source.
fn shown(
    alloc: Global,
    text: &str,
    kind: SpanKind,
    in_table: bool,
    prefix: &ContainerPrefix<'_>,
) -> Result<(String, bool), AllocError> {
    let made = span_text(alloc, text, kind, in_table, prefix)?;
    let is_slice = is_slice(&made);
    Ok((made.into_string(alloc)?, is_slice))
}

/// A kind of span with its source, whether it is in a table, its text, and whether that is a slice of the source.
type Span = (SpanKind, &'static str, bool, &'static str, bool);

static SPANS: [Span; 19] = [
    (SpanKind::Code, "a`b", false, "a`b", true),
    // a line feed, and a space
    (SpanKind::Code, "\n ", false, "  ", false),
    (SpanKind::Code, "\nx \ny\n", false, "x  y", false),
    (SpanKind::Code, "a\r\nb", false, "a b", false),
    (SpanKind::Code, "a\rb", false, "a b", false),
    (SpanKind::Code, "a\n\nb", false, "a  b", false),
    (SpanKind::Code, " `` ", false, "``", true),
    (SpanKind::Code, "  a ", false, " a", true),
    (SpanKind::Code, " a", false, " a", true),
    (SpanKind::Code, "   ", false, "   ", true),
    (SpanKind::Code, "", false, "", true),
    (SpanKind::Code, "a\\|b", true, "a|b", false),
    (SpanKind::Code, "a\\|b", false, "a\\|b", true),
    (SpanKind::Code, "a|b", true, "a|b", true),
    (SpanKind::Code, "é\né", false, "é é", false),
    (SpanKind::Math, " a ", false, " a ", true),
    (SpanKind::Math, "a\r\nb", false, "a\r\nb", false),
    (SpanKind::Math, "a\\|b\\|", true, "a|b|", false),
    (SpanKind::Math, "é", true, "é", true),
];

/// Checks the text of a span, and whether it is a slice of the source.
fn shows(
    alloc: Global,
    rows: &mut Rows,
    span: Span,
    prefix: &ContainerPrefix<'_>,
) -> Result<(), Fail> {
    let (kind, text, in_table, wanted, as_slice) = span;
    let (made, is_slice) = shown(alloc, text, kind, in_table, prefix)?;
    rows.gives(
        (text, in_table),
        (made.as_str(), is_slice),
        (wanted, as_slice),
    );
    Ok(())
}

/// Checks each span.
fn all_show(alloc: Global, prefix: &ContainerPrefix<'_>) -> Result<(), Fail> {
    let mut rows = Rows::new();
    for span in &SPANS {
        shows(alloc, &mut rows, *span, prefix)?;
    }
    rows.end()
}

#[test]
fn texts_of_code_and_math(rt: HostRuntime) -> Result<(), Fail> {
    all_show(rt.alloc(), &IN_NOTHING)
}

fn describe(alloc: Global, found: Option<MarkupFound<'_>>) -> Result<String, AllocError> {
    match found {
        None => String::from_str(alloc, "none"),
        Some(
            MarkupFound::Autolink(
                Autolink {
                    kind,
                    end,
                    destination,
                },
            ),
        ) => {
            let name = match kind {
                AutolinkKind::Uri => "autolink",
                AutolinkKind::Email => "address",
            };
            format!(in alloc; "{name} {end} {destination}")
        }
        Some(MarkupFound::Html(end)) => format!(in alloc; "html {end}"),
        Some(MarkupFound::OwnedHtml(end, text)) => {
            let made = format!(in alloc; "owned {end} {text}");
            drop(text);
            made
        }
    }
}

/// Returns what begins at the `<` at `start`, with or without addresses.
fn markup(
    alloc: Global,
    text: &str,
    start: usize,
    addresses: bool,
    prefix: &ContainerPrefix<'_>,
) -> Result<String, AllocError> {
    if start >= text.len() || !text.is_char_boundary(start) || !text.is_char_boundary(start + 1) {
        return String::from_str(alloc, "no character");
    }
    let mut scanner = RawHtmlScanner::new(text.as_bytes());
    let less = LessThan {
        text,
        start,
        at: start + 1,
        addresses,
    };
    let found = scan_after_less(alloc, &less, &mut scanner, prefix)?;
    describe(alloc, found)
}

/// Texts, where the `<` is in each, and what begins there.
static MARKUP: [(&str, usize, &str); 12] = [
    ("<http://a.b>", 0, "autolink 12 http://a.b"),
    ("a <b> c", 2, "html 5"),
    ("a <!-- x --> c", 2, "html 12"),
    ("<!A>", 0, "html 4"),
    ("<![CDATA[a]]>", 0, "html 13"),
    ("x <? a", 2, "none"),
    ("x <? b ?>", 2, "html 9"),
    ("<foo\nbar>", 0, "html 9"),
    ("< a", 0, "none"),
    ("<", 0, "none"),
    ("<a@b.c>", 0, "none"),
    // a backslash is between
    ("<\\!-- x -->", 0, "none"),
];

/// The same where addresses are on.
static WITH_ADDRESSES: [(&str, usize, &str); 6] = [
    ("<a+b@x-y.z>", 0, "address 11 a+b@x-y.z"),
    ("x <a@b.c> y", 2, "address 9 a@b.c"),
    // a URI comes first
    ("<mailto:a@b>", 0, "autolink 12 mailto:a@b"),
    // and raw HTML last
    ("<!a@b.c>", 0, "address 8 !a@b.c"),
    ("<b>", 0, "html 3"),
    ("<a\\@b.c>", 0, "none"),
];

/// Checks what begins at the `<` of each text, with or without addresses.
fn all_have_markup(
    alloc: Global,
    rows: &mut Rows,
    texts: &[(&str, usize, &str)],
    addresses: bool,
    prefix: &ContainerPrefix<'_>,
) -> Result<(), Fail> {
    for &(text, start, expected) in texts {
        let found = markup(alloc, text, start, addresses, prefix)?;
        rows.gives_text(text, found, expected);
    }
    Ok(())
}

#[test]
fn markup_after_a_less_than_sign(rt: HostRuntime) -> Result<(), Fail> {
    let mut rows = Rows::new();
    all_have_markup(rt.alloc(), &mut rows, &MARKUP, false, &IN_NOTHING)?;
    all_have_markup(rt.alloc(), &mut rows, &WITH_ADDRESSES, true, &IN_NOTHING)?;
    rows.end()
}
