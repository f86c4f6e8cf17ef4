//! The events of each body of a block result, with their ranges, over trees made by hand.
use markdown_base::block_parts::{BlockParts, HeadingAttributes};
use markdown_base::cow_str::CowStr;
use markdown_base::index::{AlignmentIndex, CowIndex, HeadingIndex};
use markdown_base::item::ItemBody;
use markdown_base::options::Options;
use markdown_base::tag::{Alignment, BlockQuoteKind, HeadingLevel, MetadataBlockKind};
use markdown_test_helpers::parts::{no_parts, one_text};
use markdown_test_helpers::rows::{Rows, gives};
use markdown_test_parsers::faults::or_fail;
use markdown_test_parsers::html::parser_shows;
use markdown_test_parsers::made::{Placed, TEXT, tree_of_placed};
use markdown_test_parsers::parsers::{all_noted, parser_of};
use std::alloc::{AllocError, Global};
use std::test::Fail;

/// Returns the events of a tree over `abc`, as a text.
fn events_of(alloc: Global, placed: &[Placed], parts: BlockParts<'static>) -> Result<String, Fail> {
    let tree = tree_of_placed(alloc, placed)?;
    let parser = parser_of(alloc, "abc", Options::empty(), tree, parts)?;
    let (events, callback) = or_fail(all_noted(alloc, parser))?;
    drop(callback);
    Ok(events)
}

/// Checks the events of a tree over `abc`, which may refer to one text.
fn tree_gives(
    alloc: Global,
    rows: &mut Rows,
    placed: &[Placed],
    row: ItemBody,
    wanted: &str,
) -> Result<(), Fail> {
    rows.gives_text(row, events_of(alloc, placed, one_text(alloc)?)?, wanted);
    Ok(())
}

/// Checks the Start and the End of a body that contains a text.
fn block_gives(
    alloc: Global,
    rows: &mut Rows,
    body: ItemBody,
    start: &str,
    end: &str,
) -> Result<(), Fail> {
    let wanted = format!(in alloc; "<{start}>0..3 [b]1..2 </{end}>0..3 ")?;
    let placed = [(0, 0, 3, body), (1, 1, 2, TEXT)];
    tree_gives(alloc, rows, &placed, body, wanted.as_str())
}

/// Checks the event of a body in an item.
fn leaf_gives(alloc: Global, rows: &mut Rows, body: ItemBody, name: &str) -> Result<(), Fail> {
    let wanted = format!(in alloc; "<li>0..3 {name}1..2 </li>0..3 ")?;
    let placed = [(0, 0, 3, ItemBody::ListItem(2)), (1, 1, 2, body)];
    tree_gives(alloc, rows, &placed, body, wanted.as_str())
}

#[test]
fn trees(rt: HostRuntime) -> Result<(), Fail> {
    let table = &[
        (ItemBody::Paragraph, "p", "p"),
        (ItemBody::Heading(HeadingLevel::H3, None), "h3", "h3"),
        (ItemBody::BlockQuote(None), "blockquote", "blockquote"),
        (
            ItemBody::BlockQuote(Some(BlockQuoteKind::Tip)),
            "blockquote Tip",
            "blockquote Tip",
        ),
        (ItemBody::IndentCodeBlock, "code", "code"),
        (ItemBody::HtmlBlock, "html", "html"),
        (ItemBody::List(true, b'-', 0), "ul", "ul"),
        (ItemBody::List(true, b'.', 0), "ol 0", "ol"),
        (ItemBody::List(false, b')', 3), "ol 3", "ol"),
        (ItemBody::ListItem(2), "li", "li"),
        (
            ItemBody::MetadataBlock(MetadataBlockKind::YamlStyle),
            "yaml",
            "yaml",
        ),
        (
            ItemBody::MetadataBlock(MetadataBlockKind::PlusesStyle),
            "pluses",
            "pluses",
        ),
        (ItemBody::DefinitionList(true), "dl", "dl"),
        (ItemBody::DefinitionListTitle, "dt", "dt"),
        (ItemBody::DefinitionListDefinition(4), "dd", "dd"),
        (ItemBody::TableHead, "thead", "thead"),
        (ItemBody::TableRow, "tr", "tr"),
        (ItemBody::TableCell, "td", "td"),
        (ItemBody::FencedCodeBlock(CowIndex(0)), "code (x)", "code"),
        (
            ItemBody::FootnoteDefinition(CowIndex(0)),
            "footnote (x)",
            "footnote",
        ),
    ];
    let mut rows = Rows::new();
    for &(body, start, end) in table {
        block_gives(rt.alloc(), &mut rows, body, start, end)?;
    }
    rows.end()
}

#[test]
fn single_events(rt: HostRuntime) -> Result<(), Fail> {
    let table = &[
        (
            ItemBody::Text {
                backslash_escaped: true,
            },
            "[b]",
        ),
        (ItemBody::SynthesizeText(CowIndex(0)), "[x]"),
        (ItemBody::SynthesizeChar('c'), "=[c]"),
        (ItemBody::Html, "{b}"),
        (ItemBody::InlineHtml, "(b)"),
        (ItemBody::OwnedInlineHtml(CowIndex(0)), "(x)"),
        (ItemBody::TaskListMarker(true), "<done>"),
        (ItemBody::TaskListMarker(false), "<task>"),
        (ItemBody::SoftBreak, "/"),
        (ItemBody::HardBreak(false), "//"),
        (ItemBody::Rule, "<hr>"),
    ];
    let mut rows = Rows::new();
    for &(body, name) in table {
        leaf_gives(rt.alloc(), &mut rows, body, name)?;
    }
    rows.end()
}

/// Returns parts with the alignments of two columns.
fn two_columns(alloc: Global) -> Result<BlockParts<'static>, AllocError> {
    let alignments = vec![in alloc; Alignment::None, Alignment::Right]?;
    let mut parts = no_parts(alloc);
    parts.alignments.push(alignments)?;
    Ok(parts)
}

const TABLE: &[Placed] = &[
    (0, 0, 3, ItemBody::Table(AlignmentIndex(0))),
    (1, 0, 2, ItemBody::TableHead),
    (2, 0, 1, ItemBody::TableCell),
    (3, 0, 1, TEXT),
    (2, 1, 2, ItemBody::TableCell),
    (1, 2, 3, ItemBody::TableRow),
];

#[test]
fn a_table(rt: HostRuntime) -> Result<(), Fail> {
    let alloc = rt.alloc();
    let found = events_of(alloc, TABLE, two_columns(alloc)?)?;
    let events =
        "<table [None, Right]>0..3 <thead>0..2 <td>0..1 [a]0..1 </td>0..1 <td>1..2 </td>1..2 \
        </thead>0..2 <tr>2..3 </tr>2..3 </table>0..3 ";
    gives("a table", found.as_str(), events)
}

/// Returns attributes with an id, a class, a name with a value and one without.
fn attributes(alloc: Global) -> Result<HeadingAttributes<'static>, AllocError> {
    let classes = vec![in alloc; CowStr::Borrowed("c")]?;
    let attrs = vec![in alloc;
        (CowStr::Borrowed("k"), Some(CowStr::Borrowed("v"))),
        (CowStr::Borrowed("n"), None),
    ]?;
    Ok(HeadingAttributes {
        id: Some(CowStr::Borrowed("i")),
        classes,
        attrs,
    })
}

/// Returns parts with these attributes.
fn parts_with_attributes(alloc: Global) -> Result<BlockParts<'static>, AllocError> {
    let held = attributes(alloc)?;
    let mut parts = no_parts(alloc);
    parts.headings.push(held)?;
    Ok(parts)
}

const SHARED: ItemBody = ItemBody::Heading(HeadingLevel::H2, Some(HeadingIndex(1)));

const HEADINGS: &[Placed] = &[
    (0, 0, 1, ItemBody::Heading(HeadingLevel::H6, None)),
    (0, 1, 2, SHARED),
    (0, 2, 3, SHARED),
];

#[test]
fn headings_that_share_attributes(rt: HostRuntime) -> Result<(), Fail> {
    let alloc = rt.alloc();
    let events = "<h6>0..1 </h6>0..1 <h2 #(i) .(c) (k):(v) (n)>1..2 </h2>1..2 \
        <h2 #(i) .(c) (k):(v) (n)>2..3 </h2>2..3 ";
    let found = events_of(alloc, HEADINGS, parts_with_attributes(alloc)?)?;
    gives("headings", found.as_str(), events)
}

const LIST: &[Placed] = &[
    (0, 0, 2, ItemBody::List(true, b'-', 0)),
    (1, 0, 2, ItemBody::ListItem(2)),
    (2, 2, 2, ItemBody::TightParagraph),
];

#[test]
fn a_list_with_an_empty_tight_paragraph(rt: HostRuntime) -> Result<(), Fail> {
    let alloc = rt.alloc();
    let tree = tree_of_placed(alloc, LIST)?;
    let parser = parser_of(alloc, "- ", Options::empty(), tree, no_parts(alloc))?;
    parser_shows(alloc, "- ", parser, "<ul>\n<li></li>\n</ul>\n")
}
