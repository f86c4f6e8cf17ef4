//! The outlines of events made by hand, where no allocation fails.

use crate::signs::{Sign, item_of};
use markdown_base::event::Event;
use markdown_base::fault::Fault;
use markdown_base::tag::{HeadingLevel, TagEnd};
use markdown_outline::outline;
use markdown_test_helpers::lists::{Items, Listed};
use markdown_test_helpers::rows::Rows;
use markdown_test_parsers::outlines::said_of;
use std::alloc::{AllocError, Global};
use std::ops::Range;
use std::test::Fail;

/// An item by its sign, or None, with the range of its event.
type Row = (Option<Sign<'static>>, usize, usize);

type Placed<'s> = Result<(Event<'s>, Range<usize>), Fault>;

fn at_place<'s>(item: Result<Event<'s>, Fault>, range: Range<usize>) -> Placed<'s> {
    let event = item?;
    Ok((event, range))
}

/// The items of signs, each event with its range.
#[derive(Drop)]
struct Signed<'s> {
    alloc: Global,
    rows: &'s [Row],
}

impl<'s> Listed for Signed<'s> {
    type Item = Placed<'s>;

    fn item(&self, at: usize) -> Option<Placed<'s>> {
        let (sign, start, end) = *self.rows.get(at)?;
        Some(at_place(item_of(self.alloc, sign?), start..end))
    }
}

/// Returns the outline of events as a text, or the error.
fn outline_of<'s>(alloc: Global, rows: &'s [Row]) -> Result<String, AllocError> {
    let events = Items::of(Signed { alloc, rows }, rows.len());
    said_of(alloc, outline(alloc, events))
}

const OPEN: Row = (Some(Sign::Open(TagEnd::Heading(HeadingLevel::H1))), 0, 9);

const CLOSE: Row = (Some(Sign::Close(TagEnd::Heading(HeadingLevel::H1))), 0, 9);

const WORDS: Row = (Some(Sign::Words("a")), 1, 2);

const SECOND: Row = (Some(Sign::Open(TagEnd::Heading(HeadingLevel::H2))), 5, 9);

const SECOND_WORDS: Row = (Some(Sign::Words("a")), 8, 9);

const NOTHING: Row = (None, 0, 0);

const REFUSED: Row = (Some(Sign::Refused(Fault::Memory)), 0, 0);

const TOO_DEEP: Row = (Some(Sign::Refused(Fault::Depth)), 0, 0);

/// Events, and their outline or the error.
static OUTLINES: [(&str, &[Row], &str); 13] = [
    // where the events end
    ("no events", &[], ""),
    ("None before the End", &[SECOND, SECOND_WORDS], "2 [a]5..9 "),
    (
        "None, and then more",
        &[SECOND, SECOND_WORDS, NOTHING, WORDS, CLOSE, OPEN],
        "2 [a]5..9 ",
    ),
    ("a Start alone", &[SECOND], "2 []5..9 "),
    // errors
    ("at first", &[TOO_DEEP], "Depth"),
    ("in a heading", &[OPEN, WORDS, REFUSED], "Memory"),
    (
        "after a heading",
        &[OPEN, WORDS, CLOSE, TOO_DEEP, REFUSED],
        "Depth",
    ),
    ("after None", &[OPEN, WORDS, NOTHING, REFUSED], "1 [a]0..9 "),
    // Starts and Ends
    (
        "an End of another level",
        &[
            OPEN,
            WORDS,
            (Some(Sign::Close(TagEnd::Heading(HeadingLevel::H3))), 0, 9),
            WORDS,
        ],
        "1 [a]0..9 ",
    ),
    (
        "a Start inside",
        &[
            OPEN,
            (Some(Sign::Open(TagEnd::Heading(HeadingLevel::H2))), 1, 3),
            WORDS,
            (Some(Sign::Close(TagEnd::Heading(HeadingLevel::H2))), 1, 3),
            (Some(Sign::Words("b")), 3, 4),
            CLOSE,
            (Some(Sign::Open(TagEnd::Heading(HeadingLevel::H3))), 10, 12),
        ],
        "1 [a]0..9 3 []10..12 ",
    ),
    (
        "an End alone",
        &[WORDS, CLOSE, WORDS, (Some(Sign::SoftBreak), 2, 3)],
        "",
    ),
    // what adds text
    (
        "texts",
        &[
            OPEN,
            (Some(Sign::Words("a")), 1, 2),
            (Some(Sign::Words("b")), 1, 2),
            (Some(Sign::SoftBreak), 2, 3),
            (Some(Sign::Code("c")), 3, 4),
            (Some(Sign::HardBreak), 4, 5),
            (Some(Sign::InlineMath("d")), 5, 6),
            (Some(Sign::DisplayMath("e")), 6, 7),
            CLOSE,
        ],
        "1 [ab c de]0..9 ",
    ),
    (
        "others",
        &[
            OPEN,
            (Some(Sign::Open(TagEnd::Paragraph)), 1, 2),
            (Some(Sign::InlineHtml("<b>")), 1, 2),
            WORDS,
            (Some(Sign::Reference("x")), 2, 3),
            (Some(Sign::Task(true)), 3, 4),
            (Some(Sign::Close(TagEnd::Paragraph)), 4, 5),
            (Some(Sign::Words("")), 5, 5),
            (Some(Sign::Words("b")), 5, 6),
            CLOSE,
        ],
        "1 [ab]0..9 ",
    ),
];

#[test]
fn outlines_of_events(rt: HostRuntime) -> Result<(), Fail> {
    let mut rows = Rows::new();
    for &(row, events, wanted) in &OUTLINES {
        rows.gives_text(row, outline_of(rt.alloc(), events)?, wanted);
    }
    rows.end()
}
