//! Which events are a part of a page by themselves.
use crate::signs::{Sign, item_of};
use markdown_base::event::Event;
use markdown_base::fault::Fault;
use markdown_base::tag::{BlockQuoteKind, HeadingLevel, LinkType, TagEnd};
use markdown_safe::is_page_part;
use markdown_test_helpers::rows::Rows;
use std::alloc::Global;
use std::test::Fail;

/// What events are, and the events.
type Row = (&'static str, &'static [Sign<'static>]);

/// Returns the events of signs.
fn events_of(alloc: Global, signs: &'static [Sign<'static>]) -> Result<Vec<Event<'static>>, Fault> {
    let mut events = Vec::new(alloc);
    for sign in signs {
        events.push(item_of(alloc, *sign)?)?;
    }
    Ok(events)
}

/// Returns whether the events of signs are a part of a page.
fn are_a_part(alloc: Global, signs: &'static [Sign<'static>]) -> Result<bool, Fault> {
    let events = events_of(alloc, signs)?;
    Ok(is_page_part(alloc, &events)?)
}

/// Checks whether the events of each row are a part of a page.
fn check(alloc: Global, table: &[Row], wanted: bool) -> Result<(), Fail> {
    let mut rows = Rows::new();
    for row in table {
        rows.gives(row.0, are_a_part(alloc, row.1).ok(), Some(wanted));
    }
    rows.end()
}

const HEADING: TagEnd = TagEnd::Heading(HeadingLevel::H1);

const PARTS: &[Row] = &[
    ("nothing", &[]),
    ("a text and a rule", &[Sign::Words("a"), Sign::Rule]),
    (
        "a paragraph and a heading",
        &[
            Sign::Open(TagEnd::Paragraph),
            Sign::Words("a"),
            Sign::Close(TagEnd::Paragraph),
            Sign::Open(HEADING),
            Sign::Close(HEADING),
        ],
    ),
    (
        "an item with a list and text in a list",
        &[
            Sign::Ordered(2),
            Sign::Open(TagEnd::Item),
            Sign::Words("a"),
            Sign::Open(TagEnd::List(false)),
            Sign::Close(TagEnd::List(false)),
            Sign::Close(TagEnd::Item),
            Sign::Close(TagEnd::List(true)),
        ],
    ),
    (
        "a table with a head and a row",
        &[
            Sign::Open(TagEnd::Table),
            Sign::Open(TagEnd::TableHead),
            Sign::Open(TagEnd::TableCell),
            Sign::Words("a"),
            Sign::Close(TagEnd::TableCell),
            Sign::Close(TagEnd::TableHead),
            Sign::Open(TagEnd::TableRow),
            Sign::Close(TagEnd::TableRow),
            Sign::Close(TagEnd::Table),
        ],
    ),
    (
        "a link in a link",
        &[
            Sign::Link(LinkType::Inline, "a", ""),
            Sign::Link(LinkType::Inline, "b", ""),
            Sign::Close(TagEnd::Link),
            Sign::Close(TagEnd::Link),
        ],
    ),
];

const UNEVEN: &[Row] = &[
    ("a Start", &[Sign::Open(TagEnd::Paragraph)]),
    ("an End", &[Sign::Close(TagEnd::Paragraph)]),
    (
        "the End of another kind",
        &[
            Sign::Open(TagEnd::BlockQuote(Some(BlockQuoteKind::Note))),
            Sign::Close(TagEnd::BlockQuote(Some(BlockQuoteKind::Tip))),
        ],
    ),
    (
        "the End of another level",
        &[
            Sign::Open(HEADING),
            Sign::Close(TagEnd::Heading(HeadingLevel::H2)),
        ],
    ),
    (
        "a numbered list with the End of a bullet list",
        &[Sign::Ordered(2), Sign::Close(TagEnd::List(false))],
    ),
    (
        "Ends out of order",
        &[
            Sign::Open(TagEnd::Emphasis),
            Sign::Open(TagEnd::Strong),
            Sign::Close(TagEnd::Emphasis),
            Sign::Close(TagEnd::Strong),
        ],
    ),
];

const MISPLACED: &[Row] = &[
    (
        "an item alone",
        &[Sign::Open(TagEnd::Item), Sign::Close(TagEnd::Item)],
    ),
    (
        "a text in a list",
        &[
            Sign::Open(TagEnd::List(false)),
            Sign::Words("a"),
            Sign::Close(TagEnd::List(false)),
        ],
    ),
    (
        "an item in a paragraph in a list's item",
        &[
            Sign::Open(TagEnd::List(false)),
            Sign::Open(TagEnd::Item),
            Sign::Open(TagEnd::Paragraph),
            Sign::Open(TagEnd::Item),
            Sign::Close(TagEnd::Item),
            Sign::Close(TagEnd::Paragraph),
            Sign::Close(TagEnd::Item),
            Sign::Close(TagEnd::List(false)),
        ],
    ),
    (
        "a heading in a quote in a heading",
        &[
            Sign::Open(HEADING),
            Sign::Open(TagEnd::BlockQuote(None)),
            Sign::Open(HEADING),
            Sign::Close(HEADING),
            Sign::Close(TagEnd::BlockQuote(None)),
            Sign::Close(HEADING),
        ],
    ),
];

const BROKEN_TABLES: &[Row] = &[
    (
        "an empty table",
        &[Sign::Open(TagEnd::Table), Sign::Close(TagEnd::Table)],
    ),
    (
        "a table without a head",
        &[
            Sign::Open(TagEnd::Table),
            Sign::Open(TagEnd::TableRow),
            Sign::Close(TagEnd::TableRow),
            Sign::Close(TagEnd::Table),
        ],
    ),
    (
        "a table with two heads",
        &[
            Sign::Open(TagEnd::Table),
            Sign::Open(TagEnd::TableHead),
            Sign::Close(TagEnd::TableHead),
            Sign::Open(TagEnd::TableHead),
            Sign::Close(TagEnd::TableHead),
            Sign::Close(TagEnd::Table),
        ],
    ),
    (
        "a text between the parts of a table",
        &[
            Sign::Open(TagEnd::Table),
            Sign::Open(TagEnd::TableHead),
            Sign::Close(TagEnd::TableHead),
            Sign::Words("a"),
            Sign::Close(TagEnd::Table),
        ],
    ),
    (
        "a text in a head",
        &[
            Sign::Open(TagEnd::Table),
            Sign::Open(TagEnd::TableHead),
            Sign::Words("a"),
            Sign::Close(TagEnd::TableHead),
            Sign::Close(TagEnd::Table),
        ],
    ),
    (
        "a cell alone",
        &[
            Sign::Open(TagEnd::TableCell),
            Sign::Close(TagEnd::TableCell),
        ],
    ),
    (
        "a table in a cell",
        &[
            Sign::Open(TagEnd::Table),
            Sign::Open(TagEnd::TableHead),
            Sign::Open(TagEnd::TableCell),
            Sign::Open(TagEnd::Table),
            Sign::Open(TagEnd::TableHead),
            Sign::Close(TagEnd::TableHead),
            Sign::Close(TagEnd::Table),
            Sign::Close(TagEnd::TableCell),
            Sign::Close(TagEnd::TableHead),
            Sign::Close(TagEnd::Table),
        ],
    ),
];

#[test]
fn parts(rt: HostRuntime) -> Result<(), Fail> {
    check(rt.alloc(), PARTS, true)
}

#[test]
fn no_parts(rt: HostRuntime) -> Result<(), Fail> {
    check(rt.alloc(), UNEVEN, false)?;
    check(rt.alloc(), MISPLACED, false)?;
    check(rt.alloc(), BROKEN_TABLES, false)
}
