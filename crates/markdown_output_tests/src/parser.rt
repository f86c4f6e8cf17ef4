//! The events of parsers, where no allocation fails.
use crate::events::RangedItem;
use markdown_base::item::ItemBody;
use markdown_base::options::Options;
use markdown_defs::{BoxedCallback, BrokenLinkCallback, DefaultBrokenLinkCallback};
use markdown_inline::runs::{gather, gather_offsets};
use markdown_test_helpers::lists::is_nothing;
use markdown_test_helpers::parts::no_parts;
use markdown_test_helpers::rows::{Rows, gives};
use markdown_test_helpers::trees::{item, nested};
use markdown_test_parsers::callbacks::{Reply, Replying, questions_in};
use markdown_test_parsers::faults::or_fail;
use markdown_test_parsers::html::parser_shows;
use markdown_test_parsers::made::{Placed, TEXT, tree_of_placed};
use markdown_test_parsers::parsers::{
    all_noted, ask_for, events_of, parser_asking, parser_gives, parser_of, plain_parser,
};
use std::alloc::{AllocError, Global};
use std::ops::Range;
use std::test::Fail;

/// Returns the events of a tree over a text, each with its range.
fn events_of_tree(alloc: Global, source: &str, placed: &[Placed]) -> Result<String, Fail> {
    let tree = tree_of_placed(alloc, placed)?;
    let parser = parser_of(alloc, source, Options::empty(), tree, no_parts(alloc))?;
    events_of(alloc, parser)
}

const A_BREAK: &[Placed] = &[
    (0, 0, 2, ItemBody::Paragraph),
    (1, 0, 1, TEXT),
    (1, 1, 2, ItemBody::HardBreak(true)),
];

const A_TIGHT_PARAGRAPH: &[Placed] = &[
    (0, 0, 1, ItemBody::Paragraph),
    (1, 0, 1, TEXT),
    (0, 1, 1, ItemBody::TightParagraph),
    (0, 1, 2, ItemBody::Paragraph),
    (1, 1, 2, TEXT),
];

#[test]
fn trees_made_by_hand(rt: HostRuntime) -> Result<(), Fail> {
    let mut rows = Rows::new();
    for &(source, placed, events) in &[
        ("a\\", A_BREAK, "<p>0..2 [a]0..1 //1..2 </p>0..2 "),
        (
            "ab",
            A_TIGHT_PARAGRAPH,
            "<p>0..1 [a]0..1 </p>0..1 <p>1..2 [b]1..2 </p>1..2 ",
        ),
    ] {
        rows.gives_text(source, events_of_tree(rt.alloc(), source, placed)?, events);
    }
    rows.end()
}

/// Returns the events of `count` paragraphs of one byte, each in the one before it, with their ranges.
fn events_of_nested(alloc: Global, count: usize) -> Result<String, AllocError> {
    let starts = "<p>0..1 ".repeat(alloc, count)?;
    let ends = "</p>0..1 ".repeat(alloc, count)?;
    format!(in alloc; "{starts}{ends}")
}

#[test]
fn a_deep_tree(rt: HostRuntime) -> Result<(), Fail> {
    let alloc = rt.alloc();
    let wanted = events_of_nested(alloc, 10_000)?;
    let tree = nested(alloc, item(0, 1, ItemBody::Paragraph), 10_000)?;
    let parser = parser_of(alloc, "a", Options::empty(), tree, no_parts(alloc))?;
    parser_gives(alloc, "nested paragraphs", parser, wanted.as_str())
}

/// Checks how many events the first calls of `next` return, and the events that are left.
fn is_handed_on(
    alloc: Global,
    source: &str,
    calls: u64,
    given: u64,
    left: &str,
) -> Result<(), Fail> {
    let mut parser = plain_parser(alloc, source)?;
    let found = ask_for(&mut parser, calls);
    parser_gives(alloc, source, parser, left)?;
    gives((source, "events before"), found, given)
}

#[test]
fn walks_that_change_hands(rt: HostRuntime) -> Result<(), Fail> {
    let left = "</em>0..7 [ world]7..13 </p>0..13 ";
    is_handed_on(rt.alloc(), "*hello* world", 3, 3, left)?;
    is_handed_on(rt.alloc(), "", 2, 0, "")
}

/// Returns the range of an event, and an empty one for an error.
fn range_of(item: RangedItem<'_>) -> Range<usize> {
    match item {
        Ok((event, range)) => {
            drop(event);
            range
        }
        Err(_) => 0..0,
    }
}

#[test]
fn adapters(rt: HostRuntime) -> Result<(), Fail> {
    let iter = plain_parser(rt.alloc(), "a  \nb")?.into_offset_iter();
    let ranges: Vec<Range<usize>> = iter.map(range_of).collect(rt.alloc())?;
    let wanted = [0..5, 0..1, 1..4, 4..5, 0..5];
    gives("a  \nb", ranges.as_slice(), wanted.as_slice())
}

#[test]
fn all_at_once(rt: HostRuntime) -> Result<(), Fail> {
    let alloc = rt.alloc();
    let events = gather(plain_parser(alloc, "a\nb")?, alloc)?;
    let printed = format!(in alloc; "{events:?}");
    drop(events);
    gives(
        "a\nb",
        printed?.as_str(),
        "[Ok(Start(Paragraph)), Ok(Text(\"a\")), Ok(SoftBreak), Ok(Text(\"b\")), Ok(End(Paragraph))]",
    )
}

#[test]
fn all_at_once_with_ranges(rt: HostRuntime) -> Result<(), Fail> {
    let alloc = rt.alloc();
    let events = gather_offsets(plain_parser(alloc, "a")?.into_offset_iter(), alloc)?;
    let printed = format!(in alloc; "{events:?}");
    drop(events);
    gives(
        "a",
        printed?.as_str(),
        "[Ok((Start(Paragraph), 0..1)), Ok((Text(\"a\"), 0..1)), Ok((End(Paragraph), 0..1))]",
    )
}

/// A link label without a definition, and its events where no callback answers.
const UNKNOWN: (&str, &str) = ("[a]", "<p>0..3 [[]0..1 [a]1..2 []]2..3 </p>0..3 ");

/// Checks that it stays text with a callback.
fn stays_with<'a, F: BrokenLinkCallback<'a>>(
    alloc: Global,
    row: &str,
    callback: F,
) -> Result<(), Fail>
    requires { F.can_ask callback }
{
    let (source, wanted) = UNKNOWN;
    let (events, callback) = or_fail(all_noted(alloc, parser_asking(alloc, source, callback)?))?;
    gives(
        row,
        (events.as_str(), is_nothing(callback)),
        (wanted, false),
    )
}

#[test]
fn callbacks_that_do_not_answer(rt: HostRuntime) -> Result<(), Fail> {
    let alloc = rt.alloc();
    let boxed: Box<dyn BoxedCallback> = Box::new(alloc, Replying::new(alloc, Reply::Nothing))?;
    stays_with(alloc, "a box", boxed)?;
    stays_with(alloc, "the default", DefaultBrokenLinkCallback)?;
    let (source, _) = UNKNOWN;
    gives(
        "a closure",
        questions_in(alloc, source, usize::MAX)?,
        (5, 1),
    )
}

/// Checks the HTML of a tree over a text.
fn tree_shows(alloc: Global, source: &str, placed: &[Placed], html: &str) -> Result<(), Fail> {
    let tree = tree_of_placed(alloc, placed)?;
    let parser = parser_of(alloc, source, Options::empty(), tree, no_parts(alloc))?;
    parser_shows(alloc, source, parser, html)
}

const TWO_TEXTS: &[Placed] = &[
    (0, 0, 2, ItemBody::Paragraph),
    (1, 0, 0, TEXT),
    (1, 0, 2, TEXT),
];

const ONE_TEXT: &[Placed] = &[(0, 0, 6, ItemBody::Paragraph), (1, 0, 6, TEXT)];

#[test]
fn html_of_trees_made_by_hand(rt: HostRuntime) -> Result<(), Fail> {
    let alloc = rt.alloc();
    // an empty text at the place of another is kept
    tree_shows(alloc, "ab", TWO_TEXTS, "<p>ab</p>\n")?;
    // a text is escaped
    let html = "<p>a&lt;b&gt;&amp;\"</p>\n";
    tree_shows(alloc, "a<b>&\"", ONE_TEXT, html)
}
