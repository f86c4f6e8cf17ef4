//! Checks for tests of texts and of trees made by hand: their HTML or their events, and counts of work.
use crate::walks::count_left;
use markdown_base::item::{Item, ItemBody};
use markdown_base::options::Options;
use markdown_base::tree::Tree;
use markdown_document::work::Work;
use markdown_inline::walk::Parser;
use markdown_render::merged::merged_html;
use markdown_test_helpers::parts::{no_parts, one_of_each};
use markdown_test_helpers::rows::{Rows, gives};
use markdown_test_parsers::faults::or_fail;
use markdown_test_parsers::html::{parser_html, parser_shows};
use markdown_test_parsers::made::{Placed, tree_of_placed};
use markdown_test_parsers::parsers::{events_of, parser_of, plain_parser, text_parser};
use std::alloc::Global;
use std::test::Fail;

/// Returns the HTML of the merge of a parser.
fn merge_html(alloc: Global, parser: Parser<'_>) -> Result<String, Fail> {
    or_fail(merged_html(alloc, parser))
}

/// Checks the HTML of the merge of a parser.
fn merge_shows(alloc: Global, row: &str, parser: Parser<'_>, wanted: &str) -> Result<(), Fail> {
    let html = merge_html(alloc, parser)?;
    gives((row, "merged"), html.as_str(), wanted)
}

/// Returns the options that any of these has.
fn union_of(list: &[Options]) -> Options {
    let mut all = Options::empty();
    for options in list {
        all = all.union(*options);
    }
    all
}

/// Checks that a text is one paragraph with this HTML inside, merged and not.
pub fn assert_inside(
    alloc: Global,
    options: Options,
    source: &str,
    inside: &str,
) -> Result<(), Fail> {
    let wanted = format!(in alloc; "<p>{inside}</p>\n")?;
    let wanted = wanted.as_str();
    parser_shows(alloc, source, text_parser(alloc, source, options)?, wanted)?;
    merge_shows(alloc, source, text_parser(alloc, source, options)?, wanted)
}

/// Returns the counts of the work for all events of a text.
pub fn work_of(alloc: Global, source: &str) -> Result<Work, Fail> {
    let mut parser = plain_parser(alloc, source)?;
    count_left(&mut parser);
    Ok(parser.work())
}

/// What a tree made by hand gives.
#[derive(Clone, Copy, Drop)]
pub enum Given<'g> {
    /// This HTML, merged and not.
    Html(&'g str),
    /// These events, each with its range.
    Events(&'g str),
}

/// A tree made by hand over a text, which may refer to one text, one list of alignments and the
/// attributes of one heading: the text, the options, the items in preorder, and what it gives.
pub type Made = (
    &'static str,
    &'static [Options],
    &'static [Placed],
    Given<'static>,
);

/// Returns the parser of a tree made by hand.
fn made_parser(alloc: Global, row: Made) -> Result<Parser<'static>, Fail> {
    let (source, options, placed, _) = row;
    let tree = tree_of_placed(alloc, placed)?;
    let parts = one_of_each(alloc)?;
    parser_of(alloc, source, union_of(options), tree, parts)
}

/// Checks what a tree made by hand gives.
fn check_made_row(alloc: Global, rows: &mut Rows, row: Made) -> Result<(), Fail> {
    let (source, _, _, given) = row;
    let parser = made_parser(alloc, row)?;
    match given {
        Given::Html(html) => {
            rows.gives_text(source, parser_html(alloc, parser)?, html);
            let merged = merge_html(alloc, made_parser(alloc, row)?)?;
            rows.gives_text((source, "merged"), merged, html);
        }
        Given::Events(events) => rows.gives_text(source, events_of(alloc, parser)?, events),
    }
    Ok(())
}

/// Checks what each tree made by hand gives.
pub fn check_made(alloc: Global, table: &[Made]) -> Result<(), Fail> {
    let mut rows = Rows::new();
    for row in table {
        check_made_row(alloc, &mut rows, *row)?;
    }
    rows.end()
}

/// Checks the HTML of a tree over a text.
pub fn tree_shows(
    alloc: Global,
    row: &str,
    source: &str,
    tree: Tree<Item>,
    wanted: &str,
) -> Result<(), Fail> {
    let parser = parser_of(alloc, source, Options::empty(), tree, no_parts(alloc))?;
    parser_shows(alloc, row, parser, wanted)
}

/// Returns the events of a tree over a text, each with its range.
pub fn events_of_tree(alloc: Global, source: &str, tree: Tree<Item>) -> Result<String, Fail> {
    let parser = parser_of(alloc, source, Options::empty(), tree, no_parts(alloc))?;
    events_of(alloc, parser)
}

/// Checks these events.
pub fn tree_gives(
    alloc: Global,
    row: &str,
    source: &str,
    tree: Tree<Item>,
    wanted: &str,
) -> Result<(), Fail> {
    let events = events_of_tree(alloc, source, tree)?;
    gives(row, events.as_str(), wanted)
}

/// Returns the counts of the work of a walk of a tree over a text.
pub fn counted(alloc: Global, source: &str, tree: Tree<Item>) -> Result<Work, Fail> {
    let mut parser = parser_of(alloc, source, Options::empty(), tree, no_parts(alloc))?;
    count_left(&mut parser);
    Ok(parser.work())
}
