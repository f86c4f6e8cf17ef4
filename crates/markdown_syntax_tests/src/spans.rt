//! Code spans and math, through parsers of trees made by hand.
use crate::grown::Grown;
use crate::rows::{Given, check_made};
use markdown_base::index::{AlignmentIndex, in_32_bits};
use markdown_base::item::ItemBody;
use markdown_test_helpers::rows::gives;
use markdown_test_parsers::made::{Placed, TEXT};
use std::alloc::{AllocError, Global};
use std::test::Fail;

const DOLLARS: &[Placed] = &[
    (0, 0, 6, ItemBody::Paragraph),
    (1, 0, 1, ItemBody::MaybeMath(true, false, 0)),
    (1, 1, 3, TEXT),
    (1, 3, 4, ItemBody::MaybeMath(true, false, 0)),
    (1, 4, 5, TEXT),
    (1, 5, 6, ItemBody::MaybeMath(false, true, 0)),
];

const CODE_IN_A_CELL: &[Placed] = &[
    (0, 0, 6, ItemBody::Table(AlignmentIndex(0))),
    (1, 0, 6, ItemBody::TableHead),
    (2, 0, 6, ItemBody::TableCell),
    (3, 0, 1, ItemBody::MaybeCode(1, false)),
    (3, 1, 5, TEXT),
    (3, 5, 6, ItemBody::MaybeCode(1, false)),
];

#[test]
fn trees_made_by_hand(rt: HostRuntime) -> Result<(), Fail> {
    check_made(
        rt.alloc(),
        &[
            (
                "$a $b$",
                &[],
                DOLLARS,
                Given::Events("<p>0..6 [$]0..1 [a ]1..3 $b$3..6 </p>0..6 "),
            ),
            (
                "$a $b$",
                &[],
                DOLLARS,
                Given::Html("<p>$a <span class=\"math math-inline\">b</span></p>\n"),
            ),
            (
                "`a\\|b`",
                &[],
                CODE_IN_A_CELL,
                Given::Html(
                    "<table><thead><tr><th><code>a|b</code></th></tr></thead><tbody>\n</tbody></table>\n",
                ),
            ),
            (
                "`a\\|b`",
                &[],
                CODE_IN_A_CELL,
                Given::Events(
                    "<table []>0..6 <thead>0..6 <td>0..6 +`a|b`0..6 </td>0..6 </thead>0..6 </table>0..6 ",
                ),
            ),
        ],
    )
}

/// Appends a run of backticks, followed by a text.
fn append_backticks(alloc: Global, over: &mut Grown, count: usize) -> Result<(), AllocError> {
    let mark = "`".repeat(alloc, count)?;
    over.append(
        mark.as_str(),
        ItemBody::MaybeCode(in_32_bits(count)?, false),
    )?;
    over.append_a()
}

/// Returns runs of 1 up to 100 backticks.
fn backticks(alloc: Global) -> Result<Grown, AllocError> {
    // 5050 backticks and 100 characters `a`
    let mut over = Grown::new(alloc, 5150)?;
    for count in 1..101 {
        append_backticks(alloc, &mut over, count)?;
    }
    Ok(over)
}

/// Appends a dollar, followed by a text.
fn append_dollar(over: &mut Grown, context: u8) -> Result<(), AllocError> {
    over.append("$", ItemBody::MaybeMath(true, true, context))?;
    over.append_a()
}

/// Returns a hundred dollars, each in braces of its own.
fn dollars(alloc: Global) -> Result<Grown, AllocError> {
    let mut over = Grown::new(alloc, 200)?;
    for context in 0..100 {
        append_dollar(&mut over, context)?;
    }
    Ok(over)
}

/// Checks that each item stays a text.
fn stays(alloc: Global, row: &str, over: Grown) -> Result<(), Fail> {
    let wanted = over.texts(alloc)?;
    over.gives(alloc, row, wanted.as_str())
}

#[test]
fn openers_that_never_close(rt: HostRuntime) -> Result<(), Fail> {
    stays(rt.alloc(), "backticks", backticks(rt.alloc())?)?;
    let code = backticks(rt.alloc())?.counted(rt.alloc())?;
    stays(rt.alloc(), "dollars", dollars(rt.alloc())?)?;
    let math = dollars(rt.alloc())?.counted(rt.alloc())?;
    // each item after the first opener is visited once
    let once_each = 199..201;
    gives(
        "items, and whether each is visited once",
        (
            code.items,
            once_each.contains(&code.code_visits),
            math.items,
            once_each.contains(&math.math_visits),
        ),
        (200, true, 200, true),
    )
}
