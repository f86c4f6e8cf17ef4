//! Inline links: their titles in cells, through parsers of trees made by hand, and texts with many brackets or parentheses.
use crate::rows::{Given, assert_inside, check_made};
use markdown_base::index::AlignmentIndex;
use markdown_base::item::ItemBody;
use markdown_base::options::Options;
use markdown_test_parsers::made::{Placed, TEXT};
use std::alloc::{AllocError, Global};
use std::test::Fail;

/// A text of 14 bytes in the one cell of a table, with a link over its first three bytes and a tail after it.
const CELL_OF_14: &[Placed] = &[
    (0, 0, 14, ItemBody::Table(AlignmentIndex(0))),
    (1, 0, 14, ItemBody::TableHead),
    (2, 0, 14, ItemBody::TableCell),
    (3, 0, 1, ItemBody::MaybeLinkOpen),
    (3, 1, 2, TEXT),
    (3, 2, 3, ItemBody::MaybeLinkClose(true)),
    (3, 3, 14, TEXT),
];

/// The same of 15 bytes.
const CELL_OF_15: &[Placed] = &[
    (0, 0, 15, ItemBody::Table(AlignmentIndex(0))),
    (1, 0, 15, ItemBody::TableHead),
    (2, 0, 15, ItemBody::TableCell),
    (3, 0, 1, ItemBody::MaybeLinkOpen),
    (3, 1, 2, TEXT),
    (3, 2, 3, ItemBody::MaybeLinkClose(true)),
    (3, 3, 15, TEXT),
];

#[test]
fn titles_in_a_cell(rt: HostRuntime) -> Result<(), Fail> {
    check_made(
        rt.alloc(),
        &[
            (
                "[a](b \"x\\\\|y\")",
                &[],
                CELL_OF_14,
                Given::Html(
                    "<table><thead><tr><th><a href=\"b\" title=\"x|y\">a</a></th></tr></thead><tbody>\n</tbody></table>\n",
                ),
            ),
            (
                "[a](b \"x\\\\|.y\")",
                &[],
                CELL_OF_15,
                Given::Html(
                    "<table><thead><tr><th><a href=\"b\" title=\"x|.y\">a</a></th></tr></thead><tbody>\n</tbody></table>\n",
                ),
            ),
        ],
    )
}

/// Returns a text between `times` opening and as many closing characters.
fn between(
    alloc: Global,
    open: &str,
    text: &str,
    close: &str,
    times: usize,
) -> Result<String, AllocError> {
    let before = open.repeat(alloc, times)?;
    let after = close.repeat(alloc, times)?;
    format!(in alloc; "{before}{text}{after}")
}

/// Returns a link to `b` in `times` parentheses.
fn nested_link(alloc: Global, times: usize) -> Result<String, AllocError> {
    let inside = between(alloc, "(", "b", ")", times)?;
    format!(in alloc; "[a]({inside})")
}

#[test]
fn parentheses_nest_to_32(rt: HostRuntime) -> Result<(), Fail> {
    let alloc = rt.alloc();
    let destination = between(alloc, "(", "b", ")", 32)?;
    let wanted = format!(in alloc; "<a href=\"{destination}\">a</a>")?;
    let source = nested_link(alloc, 32)?;
    assert_inside(alloc, Options::empty(), source.as_str(), wanted.as_str())
}

/// Checks that a text is one paragraph that shows the text unchanged.
fn is_unchanged(alloc: Global, source: &str) -> Result<(), Fail> {
    assert_inside(alloc, Options::empty(), source, source)
}

#[test]
fn parentheses_nest_no_deeper(rt: HostRuntime) -> Result<(), Fail> {
    let source = nested_link(rt.alloc(), 40)?;
    is_unchanged(rt.alloc(), source.as_str())
}

#[test]
fn brackets_that_never_close(rt: HostRuntime) -> Result<(), Fail> {
    let source = between(rt.alloc(), "[", "", "]", 5000)?;
    is_unchanged(rt.alloc(), source.as_str())
}
