//! Wikilinks: where their pipe ends, through parsers of trees made by hand, and texts with many brackets.
use crate::rows::{Given, assert_inside, check_made};
use crate::walks::count_left;
use markdown_base::item::ItemBody;
use markdown_base::options::Options;
use markdown_test_helpers::rows::gives;
use markdown_test_parsers::made::{Placed, TEXT};
use markdown_test_parsers::parsers::text_parser;
use std::alloc::Global;
use std::test::Fail;

/// The items of `[[a|b]]` in a paragraph over all of it.
const WHOLE: &[Placed] = &[
    (0, 0, 7, ItemBody::Paragraph),
    (1, 0, 1, ItemBody::MaybeLinkOpen),
    (1, 1, 2, ItemBody::MaybeLinkOpen),
    (1, 2, 5, TEXT),
    (1, 5, 6, ItemBody::MaybeLinkClose(true)),
    (1, 6, 7, ItemBody::MaybeLinkClose(true)),
];

/// The same items in a paragraph over its first three bytes.
const CUT: &[Placed] = &[
    (0, 0, 3, ItemBody::Paragraph),
    (1, 0, 1, ItemBody::MaybeLinkOpen),
    (1, 1, 2, ItemBody::MaybeLinkOpen),
    (1, 2, 5, TEXT),
    (1, 5, 6, ItemBody::MaybeLinkClose(true)),
    (1, 6, 7, ItemBody::MaybeLinkClose(true)),
];

#[test]
fn pipes_end_in_their_block(rt: HostRuntime) -> Result<(), Fail> {
    check_made(
        rt.alloc(),
        &[
            (
                "[[a|b]]",
                &[Options::ENABLE_WIKILINKS],
                WHOLE,
                Given::Events(
                    "<p>0..7 <a WikiLink { has_pothole: true } (a) () ()>0..7 [b]4..5 </a>0..7 </p>0..7 ",
                ),
            ),
            (
                "[[a|b]]",
                &[Options::ENABLE_WIKILINKS],
                CUT,
                Given::Events(
                    "<p>0..3 <a WikiLink { has_pothole: false } (a|b) () ()>0..7 [a|b]2..5 </a>0..7 </p>0..3 ",
                ),
            ),
        ],
    )
}

/// Returns the number of events of a text.
fn events_of(alloc: Global, source: &str) -> Result<usize, Fail> {
    let mut parser = text_parser(alloc, source, Options::ENABLE_WIKILINKS)?;
    Ok(count_left(&mut parser))
}

#[test]
fn hostile_texts_give_few_events(rt: HostRuntime) -> Result<(), Fail> {
    let alloc = rt.alloc();
    let once = "[[[[^(\n|]]]]=]]]]]]]]\n";
    let few = events_of(alloc, once)?.saturating_mul(20);
    let often = once.repeat(alloc, 8)?;
    let given = events_of(alloc, often.as_str())?;
    gives(once, given <= few, true)
}

#[test]
fn many_empty_wikilinks_stay(rt: HostRuntime) -> Result<(), Fail> {
    let alloc = rt.alloc();
    let empty = "[[|]]".repeat(alloc, 2000)?;
    assert_inside(
        alloc,
        Options::ENABLE_WIKILINKS,
        empty.as_str(),
        empty.as_str(),
    )
}
