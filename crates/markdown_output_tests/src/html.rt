//! What `push_html` writes, where no allocation fails.
ghost use Rattle.std.specs.Iterator.{IsFinite};

use crate::events::{Item, html_of_hardened};
use crate::signs::{Sign, items_of};
use markdown_base::fault::Fault;
use markdown_base::tag::{
    Alignment, BlockQuoteKind, HeadingLevel, LinkType, MetadataBlockKind, TagEnd,
};
use markdown_out::html::push_html;
use markdown_out::merge::TextMergeStream;
use markdown_test_helpers::rows::{Rows, gives};
use std::alloc::{AllocError, Global};
use std::test::Fail;

/// Returns what `push_html` returns, and what it appends to the string `old `.
fn write_items<'a, I: Iterator<Item = Item<'a>>>(
    alloc: Global,
    events: I,
) -> Result<(Option<Fault>, String), AllocError>
    requires can { I.can_next events }
    requires ends { IsFinite (I.remaining events) }
{
    let mut html = String::new(alloc);
    let begun = html.push_str("old ");
    let fault = push_html(alloc, &mut html, events).err();
    begun?;
    Ok((fault, html))
}

/// Signs of events, the HTML that their events append, and the error of the call.
type Row = (&'static [Sign<'static>], &'static str, Option<Fault>);

/// Checks the result of a call that appends the HTML of a row.
fn has_written(rows: &mut Rows, found: (Option<Fault>, String), row: Row) {
    let (fault, all) = found;
    let (_, html, wanted) = row;
    rows.gives(
        html,
        (fault, all.as_str().strip_prefix("old ")),
        (wanted, Some(html)),
    );
}

/// Checks the HTML that the events of each row append, and the result of the call.
fn check(alloc: Global, table: &[Row]) -> Result<(), Fail> {
    let mut rows = Rows::new();
    for row in table {
        has_written(&mut rows, write_items(alloc, items_of(alloc, row.0))?, *row);
    }
    rows.end()
}

const BLOCKS: &[Sign<'static>] = &[
    Sign::Open(TagEnd::Paragraph),
    Sign::Open(TagEnd::Heading(HeadingLevel::H1)),
    Sign::Open(TagEnd::Heading(HeadingLevel::H6)),
    Sign::Open(TagEnd::BlockQuote(None)),
    Sign::Open(TagEnd::BlockQuote(Some(BlockQuoteKind::Note))),
    Sign::Open(TagEnd::BlockQuote(Some(BlockQuoteKind::Tip))),
    Sign::Open(TagEnd::BlockQuote(Some(BlockQuoteKind::Important))),
    Sign::Open(TagEnd::BlockQuote(Some(BlockQuoteKind::Warning))),
    Sign::Open(TagEnd::BlockQuote(Some(BlockQuoteKind::Caution))),
    Sign::Open(TagEnd::CodeBlock),
    Sign::Fenced("rs x"),
    Sign::Open(TagEnd::HtmlBlock),
    Sign::Open(TagEnd::Item),
    Sign::Open(TagEnd::DefinitionList),
    Sign::Open(TagEnd::DefinitionListTitle),
    Sign::Open(TagEnd::DefinitionListDefinition),
    Sign::Definition("n"),
];

const CODE: &[Sign<'static>] = &[
    Sign::Fenced("rust ignore"),
    Sign::Close(TagEnd::CodeBlock),
    Sign::Fenced(" rust"),
];

const LISTS: &[Sign<'static>] = &[
    Sign::Open(TagEnd::List(false)),
    Sign::Open(TagEnd::List(true)),
    Sign::Ordered(0),
    Sign::Ordered(7),
    Sign::Ordered(18446744073709551615),
];

const MARKUP: &[Sign<'static>] = &[
    Sign::Open(TagEnd::Emphasis),
    Sign::Open(TagEnd::Strong),
    Sign::Open(TagEnd::Strikethrough),
    Sign::Open(TagEnd::Subscript),
    Sign::Open(TagEnd::Superscript),
    Sign::Link(LinkType::Inline, "/a b", "t\""),
    Sign::Link(LinkType::Email, "a@b.c", ""),
    Sign::Image("u", "t"),
];

const ENDS: &[Sign<'static>] = &[
    Sign::Close(TagEnd::Paragraph),
    Sign::Close(TagEnd::Heading(HeadingLevel::H4)),
    Sign::Close(TagEnd::BlockQuote(Some(BlockQuoteKind::Tip))),
    Sign::Close(TagEnd::CodeBlock),
    Sign::Close(TagEnd::List(true)),
    Sign::Close(TagEnd::List(false)),
    Sign::Close(TagEnd::Item),
    Sign::Close(TagEnd::DefinitionList),
    Sign::Close(TagEnd::DefinitionListTitle),
    Sign::Close(TagEnd::DefinitionListDefinition),
    Sign::Close(TagEnd::TableCell),
    Sign::Close(TagEnd::TableHead),
    Sign::Close(TagEnd::TableCell),
    Sign::Close(TagEnd::TableRow),
    Sign::Close(TagEnd::Table),
    Sign::Close(TagEnd::Emphasis),
    Sign::Close(TagEnd::Strong),
    Sign::Close(TagEnd::Strikethrough),
    Sign::Close(TagEnd::Subscript),
    Sign::Close(TagEnd::Superscript),
    Sign::Close(TagEnd::Link),
    Sign::Close(TagEnd::FootnoteDefinition),
    Sign::Close(TagEnd::Image),
    Sign::Close(TagEnd::HtmlBlock),
    Sign::Close(TagEnd::MetadataBlock(MetadataBlockKind::PlusesStyle)),
];

#[test]
fn starts_and_ends(rt: HostRuntime) -> Result<(), Fail> {
    check(
        rt.alloc(),
        &[
            (
                BLOCKS,
                "<p>\n<h1>\n<h6>\n<blockquote>\n\
                <blockquote class=\"markdown-alert-note\">\n\
                <blockquote class=\"markdown-alert-tip\">\n\
                <blockquote class=\"markdown-alert-important\">\n\
                <blockquote class=\"markdown-alert-warning\">\n\
                <blockquote class=\"markdown-alert-caution\">\n\
                <pre><code>\n<pre><code class=\"language-rs\">\n\
                <li>\n<dl>\n<dt>\n<dd>\n\
                <div class=\"footnote-definition\" id=\"n\">\
                <sup class=\"footnote-definition-label\">1</sup>",
                None,
            ),
            (
                CODE,
                "<pre><code class=\"language-rust\"></code></pre>\n<pre><code>",
                None,
            ),
            (
                LISTS,
                "<ul>\n<ol>\n<ol start=\"0\">\n<ol start=\"7\">\n<ol start=\"18446744073709551615\">\n",
                None,
            ),
            (
                MARKUP,
                "<em><strong><del><sub><sup><a href=\"/a%20b\" title=\"t&quot;\">\
                <a href=\"mailto:a@b.c\"><img src=\"u\" alt=\"\" title=\"t\" />",
                None,
            ),
            (
                ENDS,
                "</p>\n</h4>\n</blockquote>\n</code></pre>\n</ol>\n</ul>\n</li>\n\
                </dl>\n</dt>\n</dd>\n</th></tr></thead><tbody>\n</td></tr>\n</tbody></table>\n\
                </em></strong></del></sub></sup></a></div>\n",
                None,
            ),
        ],
    )
}

const OTHERS: &[Sign<'static>] = &[
    Sign::Code("a<\""),
    Sign::InlineMath("b<\""),
    Sign::DisplayMath("c"),
    Sign::Html("<d>"),
    Sign::InlineHtml("<e>"),
    Sign::SoftBreak,
    Sign::HardBreak,
    Sign::Rule,
    Sign::Reference("f\""),
    Sign::Task(true),
    Sign::Task(false),
];

const METADATA: &[Sign<'static>] = &[
    Sign::Open(TagEnd::MetadataBlock(MetadataBlockKind::YamlStyle)),
    Sign::Words("a"),
    Sign::Words(""),
    Sign::Html("<i>"),
    Sign::Close(TagEnd::MetadataBlock(MetadataBlockKind::YamlStyle)),
    Sign::Words("b"),
];

const FOOTNOTES: &[Sign<'static>] = &[
    Sign::Reference("A"),
    Sign::Image("u", ""),
    Sign::Reference("i"),
    Sign::Close(TagEnd::Image),
    Sign::Definition("a"),
    Sign::Close(TagEnd::FootnoteDefinition),
    Sign::Reference("A"),
    Sign::Reference("a"),
];

const HEADING: &[Sign<'static>] = &[
    Sign::FullHeading,
    Sign::Words("t"),
    Sign::Close(TagEnd::Heading(HeadingLevel::H2)),
];

#[test]
fn other_events(rt: HostRuntime) -> Result<(), Fail> {
    check(
        rt.alloc(),
        &[
            (&[], "", None),
            (
                OTHERS,
                "<code>a&lt;\"</code><span class=\"math math-inline\">b&lt;&quot;</span>\
                <span class=\"math math-display\">c</span><d><e>\n<br />\n<hr />\n\
                <sup class=\"footnote-reference\"><a href=\"#f&quot;\">1</a></sup>\
                <input disabled=\"\" type=\"checkbox\" checked=\"\"/>\n\
                <input disabled=\"\" type=\"checkbox\"/>\n",
                None,
            ),
            // what an event before decides
            (&[Sign::Words(""), Sign::Rule], "\n<hr />\n", None),
            (
                &[Sign::Words("a"), Sign::Close(TagEnd::Image), Sign::Rule],
                "a\n<hr />\n",
                None,
            ),
            (METADATA, "<i>b", None),
            (
                FOOTNOTES,
                "<sup class=\"footnote-reference\"><a href=\"#A\">1</a></sup>\
                <img src=\"u\" alt=\"[2]\" />\n\
                <div class=\"footnote-definition\" id=\"a\">\
                <sup class=\"footnote-definition-label\">3</sup></div>\n\
                <sup class=\"footnote-reference\"><a href=\"#A\">1</a></sup>\
                <sup class=\"footnote-reference\"><a href=\"#a\">3</a></sup>",
                None,
            ),
            (
                HEADING,
                "<h2 id=\"i\" class=\"a b&quot;\" k=\"v\" x=\"\">t</h2>\n",
                None,
            ),
        ],
    )
}

const IMAGE: &[Sign<'static>] = &[
    Sign::Image("c", "t"),
    Sign::Words("a "),
    Sign::Open(TagEnd::Emphasis),
    Sign::Words("b"),
    Sign::Close(TagEnd::Emphasis),
    Sign::SoftBreak,
    Sign::InlineMath("x"),
    Sign::Task(true),
    Sign::Close(TagEnd::Image),
    Sign::SoftBreak,
];

/// Events in an image without their counterparts: a Start that has no End, and Ends that have no Start.
const ANYTHING: &[Sign<'static>] = &[
    Sign::Image("u", ""),
    Sign::Table(&[]),
    Sign::Close(TagEnd::Paragraph),
    Sign::Code("c"),
    Sign::Html("<i>"),
    Sign::InlineHtml("<b>"),
    Sign::SoftBreak,
    Sign::Reference("n"),
    Sign::Task(true),
    Sign::Close(TagEnd::List(true)),
    Sign::Words("z"),
];

const TABLE: &[Sign<'static>] = &[
    Sign::Table(&[
        Alignment::Left,
        Alignment::None,
        Alignment::Center,
        Alignment::Right,
    ]),
    Sign::Open(TagEnd::TableHead),
    Sign::Open(TagEnd::TableCell),
    Sign::Words("a"),
    Sign::Close(TagEnd::TableCell),
    Sign::Open(TagEnd::TableCell),
    Sign::Close(TagEnd::TableCell),
    Sign::Close(TagEnd::TableHead),
    Sign::Open(TagEnd::TableRow),
    Sign::Open(TagEnd::TableCell),
    Sign::Words("b"),
    Sign::Close(TagEnd::TableCell),
    Sign::Open(TagEnd::TableCell),
    Sign::Close(TagEnd::TableCell),
    Sign::Open(TagEnd::TableCell),
    Sign::Close(TagEnd::TableCell),
    Sign::Open(TagEnd::TableCell),
    Sign::Close(TagEnd::TableCell),
    Sign::Open(TagEnd::TableCell),
    Sign::Close(TagEnd::TableCell),
    Sign::Close(TagEnd::TableRow),
    Sign::Close(TagEnd::Table),
];

const NO_ROW: &[Sign<'static>] = &[
    Sign::Close(TagEnd::Paragraph),
    Sign::Table(&[Alignment::Left]),
    Sign::Open(TagEnd::TableCell),
    Sign::Close(TagEnd::TableCell),
    Sign::Open(TagEnd::TableCell),
];

#[test]
fn images_and_tables(rt: HostRuntime) -> Result<(), Fail> {
    check(
        rt.alloc(),
        &[
            (
                &[Sign::Image("u", ""), Sign::Words("a\"b")],
                "<img src=\"u\" alt=\"a&quot;b\" />",
                None,
            ),
            (
                IMAGE,
                "<img src=\"c\" alt=\"a b $x$[x]\" title=\"t\" />\n",
                None,
            ),
            (
                ANYTHING,
                "<img src=\"u\" alt=\"c&lt;b&gt; [1][x]\" />z",
                None,
            ),
            (
                TABLE,
                "<table><thead><tr><th style=\"text-align: left\">a</th><th></th>\
                </tr></thead><tbody>\n<tr><td style=\"text-align: left\">b</td><td></td>\
                <td style=\"text-align: center\"></td><td style=\"text-align: right\"></td><td></td></tr>\n\
                </tbody></table>\n",
                None,
            ),
            (
                NO_ROW,
                "</p>\n<table><th style=\"text-align: left\"></th><th>",
                None,
            ),
        ],
    )
}

const MEMORY: Sign<'static> = Sign::Refused(Fault::Memory);

const BLOCKS_FAULT: Sign<'static> = Sign::Refused(Fault::Blocks);

const DEPTH_FAULT: Sign<'static> = Sign::Refused(Fault::Depth);

const IN_IMAGE: &str = "<img src=\"u\" alt=\"a";

#[test]
fn errors(rt: HostRuntime) -> Result<(), Fail> {
    check(
        rt.alloc(),
        &[
            (
                &[Sign::Words("a"), MEMORY, Sign::Words("b")],
                "a",
                Some(Fault::Memory),
            ),
            (
                &[Sign::Image("u", ""), Sign::Words("a"), BLOCKS_FAULT],
                IN_IMAGE,
                Some(Fault::Blocks),
            ),
            (
                &[Sign::Image("u", "t"), Sign::Words("a"), DEPTH_FAULT],
                IN_IMAGE,
                Some(Fault::Depth),
            ),
            (
                &[Sign::Image("u", "t"), Sign::Words("a"), MEMORY],
                IN_IMAGE,
                Some(Fault::Memory),
            ),
        ],
    )
}

const RUNS: &[Sign<'static>] = &[
    Sign::Words("a"),
    Sign::Words("<b"),
    Sign::Image("u", ""),
    Sign::Words("c"),
    Sign::Words("\""),
];

/// Checks the HTML that the merge of the events of each row appends, and the result of the call.
fn check_merges(alloc: Global, table: &[Row]) -> Result<(), Fail> {
    let mut rows = Rows::new();
    for row in table {
        let merge = TextMergeStream::new(alloc, items_of(alloc, row.0));
        has_written(&mut rows, write_items(alloc, merge)?, *row);
    }
    rows.end()
}

#[test]
fn html_of_merges(rt: HostRuntime) -> Result<(), Fail> {
    check_merges(
        rt.alloc(),
        &[
            (RUNS, "a&lt;b<img src=\"u\" alt=\"c&quot;\" />", None),
            (&[Sign::Words("a"), MEMORY], "a", Some(Fault::Memory)),
            (
                &[Sign::Image("u", "t"), Sign::Words("c"), MEMORY],
                "<img src=\"u\" alt=\"c",
                Some(Fault::Memory),
            ),
        ],
    )
}

const SOFT: &[Sign<'static>] = &[
    Sign::Open(TagEnd::Paragraph),
    Sign::Words("a"),
    Sign::SoftBreak,
    Sign::Words("b"),
];

#[test]
fn html_of_mapped_events(rt: HostRuntime) -> Result<(), Fail> {
    let html = html_of_hardened(rt.alloc(), items_of(rt.alloc(), SOFT))?;
    gives("a soft break", html.as_str(), "<p>a<br />\nb")
}
