//! Pairing of delimiter runs, quotes and the last break, through parsers of trees made by hand.
use crate::rows::{Given, check_made, work_of};
use markdown_base::item::ItemBody;
use markdown_base::options::Options;
use markdown_test_helpers::rows::gives;
use markdown_test_parsers::made::{Placed, TEXT};
use std::test::Fail;

const TILDES: &[Options] = &[Options::ENABLE_SUBSCRIPT];

#[test]
fn comparisons(rt: HostRuntime) -> Result<(), Fail> {
    let work = work_of(rt.alloc(), "*foo**bar*")?;
    gives(
        "delimiters and examined",
        (work.delimiters, work.examined),
        (4, 3),
    )
}

const CARET_IN_SUBSCRIPT: &[Placed] = &[
    (0, 0, 8, ItemBody::Paragraph),
    (1, 0, 1, ItemBody::MaybeEmphasis(1, true, false)),
    (1, 1, 4, TEXT),
    (1, 4, 5, ItemBody::MaybeEmphasis(1, false, true)),
    (1, 5, 7, TEXT),
    (1, 7, 8, ItemBody::MaybeEmphasis(1, false, true)),
];

const TILDE_IN_SUPERSCRIPT: &[Placed] = &[
    (0, 0, 6, ItemBody::Paragraph),
    (1, 0, 1, ItemBody::MaybeEmphasis(1, true, false)),
    (1, 1, 2, TEXT),
    (1, 2, 3, ItemBody::MaybeEmphasis(1, false, true)),
    (1, 3, 5, TEXT),
    (1, 5, 6, ItemBody::MaybeEmphasis(1, false, true)),
];

const TILDES_OF_TWO_LENGTHS: &[Placed] = &[
    (0, 0, 6, ItemBody::Paragraph),
    (1, 0, 1, ItemBody::MaybeEmphasis(1, true, false)),
    (1, 1, 2, TEXT),
    (1, 2, 3, ItemBody::MaybeEmphasis(2, false, true)),
    (1, 3, 4, ItemBody::MaybeEmphasis(1, false, true)),
    (1, 4, 5, TEXT),
    (1, 5, 6, ItemBody::MaybeEmphasis(1, false, true)),
];

const BREAK_AFTER_EMPHASIS: &[Placed] = &[
    (0, 0, 4, ItemBody::Paragraph),
    (1, 0, 1, ItemBody::MaybeEmphasis(1, true, false)),
    (1, 1, 2, TEXT),
    (1, 2, 3, ItemBody::MaybeEmphasis(1, false, true)),
    (1, 3, 4, ItemBody::HardBreak(true)),
];

const BREAK_AFTER_A_TEXT: &[Placed] = &[
    (0, 0, 2, ItemBody::Paragraph),
    (1, 0, 1, TEXT),
    (1, 1, 2, ItemBody::HardBreak(true)),
];

const QUOTES_IN_A_LINK: &[Placed] = &[
    (0, 0, 8, ItemBody::Paragraph),
    (1, 0, 1, ItemBody::MaybeSmartQuote(b'"', true, false)),
    (1, 1, 2, ItemBody::MaybeLinkOpen),
    (1, 2, 3, TEXT),
    (1, 3, 4, ItemBody::MaybeSmartQuote(b'"', false, true)),
    (1, 4, 5, ItemBody::MaybeLinkClose(true)),
    (1, 5, 8, TEXT),
];

/// Subscript and superscript.
const BOTH_SCRIPTS: &[Options] = &[Options::ENABLE_SUBSCRIPT, Options::ENABLE_SUPERSCRIPT];

#[test]
fn trees_made_by_hand(rt: HostRuntime) -> Result<(), Fail> {
    check_made(
        rt.alloc(),
        &[
            // a caret that closes nothing leaves a tilde
            (
                "~a b^ c~",
                BOTH_SCRIPTS,
                CARET_IN_SUBSCRIPT,
                Given::Events("<p>0..8 <sub>0..8 [a b]1..4 [^]4..5 [ c]5..7 </sub>0..8 </p>0..8 "),
            ),
            (
                "~a b^ c~",
                BOTH_SCRIPTS,
                CARET_IN_SUBSCRIPT,
                Given::Html("<p><sub>a b^ c</sub></p>\n"),
            ),
            // a tilde that closes nothing leaves a caret
            (
                "^a~ b^",
                BOTH_SCRIPTS,
                TILDE_IN_SUPERSCRIPT,
                Given::Events("<p>0..6 <sup>0..6 [a]1..2 [~]2..3 [ b]3..5 </sup>0..6 </p>0..6 "),
            ),
            (
                "^a~ b^",
                BOTH_SCRIPTS,
                TILDE_IN_SUPERSCRIPT,
                Given::Html("<p><sup>a~ b</sup></p>\n"),
            ),
            // a tilde that closes nothing drops every length
            (
                "~a~~b~",
                TILDES,
                TILDES_OF_TWO_LENGTHS,
                Given::Events("<p>0..6 [~]0..1 [a]1..2 [~]2..3 [~]3..4 [b]4..5 [~]5..6 </p>0..6 "),
            ),
            (
                "~a~~b~",
                TILDES,
                TILDES_OF_TWO_LENGTHS,
                Given::Html("<p>~a~~b~</p>\n"),
            ),
            // a break at the end
            (
                "*a*\\",
                &[],
                BREAK_AFTER_EMPHASIS,
                Given::Html("<p><em>a</em>\\</p>\n"),
            ),
            (
                "a\\",
                &[],
                BREAK_AFTER_A_TEXT,
                Given::Html("<p>a<br />\n</p>\n"),
            ),
            // quotes in a link begin anew
            (
                "\"[a\"](b)",
                &[],
                QUOTES_IN_A_LINK,
                Given::Html("<p>“<a href=\"b\">a“</a></p>\n"),
            ),
        ],
    )
}
