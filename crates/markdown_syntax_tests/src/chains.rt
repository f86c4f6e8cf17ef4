//! Chains of open items, which a walk resolves when it reaches them.
use crate::rows::{Given, check_made, tree_gives};
use markdown_base::index::CowIndex;
use markdown_base::item::{Item, ItemBody};
use markdown_base::options::Options;
use markdown_base::tree::Tree;
use markdown_defs::RefDefs;
use markdown_inline::walk::Parser;
use markdown_test_helpers::lists::is_nothing;
use markdown_test_helpers::notes::notes_of;
use markdown_test_helpers::parts::{defining, one_text};
use markdown_test_helpers::rows::{Rows, gives};
use markdown_test_helpers::trees::item;
use markdown_test_parsers::faults::or_fail;
use markdown_test_parsers::made::{Placed, TEXT, tree_of_placed};
use markdown_test_parsers::parsers::{all_noted, ask_for, parser_of};
use std::alloc::{AllocError, Global};
use std::test::Fail;

/// A text followed by the eight open bodies, in a paragraph.
const OPEN: &str = "x*'$`<[![]y";

const OPEN_ITEMS: &[Placed] = &[
    (0, 0, 11, ItemBody::Paragraph),
    (1, 0, 1, TEXT),
    (1, 1, 2, ItemBody::MaybeEmphasis(1, true, true)),
    (1, 2, 3, ItemBody::MaybeSmartQuote(39, true, true)),
    (1, 3, 4, ItemBody::MaybeMath(true, true, 0)),
    (1, 4, 5, ItemBody::MaybeCode(1, false)),
    (1, 5, 6, ItemBody::MaybeHtml),
    (1, 6, 7, ItemBody::MaybeLinkOpen),
    (1, 7, 9, ItemBody::MaybeImage),
    (1, 9, 10, ItemBody::MaybeLinkClose(true)),
    (1, 10, 11, TEXT),
];

#[test]
fn open_items_at_which_nothing_is_found(rt: HostRuntime) -> Result<(), Fail> {
    check_made(
        rt.alloc(),
        &[(
            OPEN,
            &[],
            OPEN_ITEMS,
            Given::Events(
                "<p>0..11 [x]0..1 [*]1..2 =[’]2..3 [$]3..4 [`]4..5 [<]5..6 [[]6..7 [![]7..9 []]9..10 [y]10..11 </p>0..11 ",
            ),
        )],
    )
}

/// Returns a parser of the open items, with the definition of `foo`.
fn open_parser(alloc: Global) -> Result<Parser<'static>, Fail> {
    let tree = tree_of_placed(alloc, OPEN_ITEMS)?;
    let parts = defining(alloc, &[("foo", "/u")])?;
    parser_of(alloc, OPEN, Options::empty(), tree, parts)
}

/// Returns the number of items of resolved chains that a parser has counted after `calls` calls of `next`.
fn items_after(alloc: Global, calls: u64) -> Result<u128, Fail> {
    let mut parser = open_parser(alloc)?;
    ask_for(&mut parser, calls);
    Ok(parser.work().items)
}

#[test]
fn items_are_counted_once(rt: HostRuntime) -> Result<(), Fail> {
    let mut rows = Rows::new();
    // the Start and the first Text come before the first open item of the chain
    for &(calls, items) in &[(0, 0), (2, 0), (3, 9), (4, 9), (12, 9), (14, 9)] {
        rows.gives(calls, items_after(rt.alloc(), calls)?, items);
    }
    rows.end()
}

/// A text, and one that is referred to by its number.
const NAMED_TEXT: &[Placed] = &[
    (0, 0, 2, ItemBody::Paragraph),
    (1, 0, 1, TEXT),
    (1, 1, 2, ItemBody::SynthesizeText(CowIndex(0))),
];

#[test]
fn named_texts(rt: HostRuntime) -> Result<(), Fail> {
    let alloc = rt.alloc();
    let tree = tree_of_placed(alloc, NAMED_TEXT)?;
    let parser = parser_of(alloc, "ab", Options::empty(), tree, one_text(alloc)?)?;
    let (events, callback) = or_fail(all_noted(alloc, parser))?;
    gives(
        "ab",
        (events.as_str(), is_nothing(callback)),
        ("<p>0..2 [a]0..1 [x]1..2 </p>0..2 ", true),
    )
}

/// Returns a tree with a paragraph of twenty thousand open brackets.
fn brackets(alloc: Global) -> Result<Tree<Item>, AllocError> {
    let mut tree = Tree::new(alloc)?;
    tree.append(item(0, 20_000, ItemBody::Paragraph))?;
    tree.push()?;
    for start in 0..20_000 {
        tree.append(item(start, start + 1, ItemBody::MaybeLinkOpen))?;
    }
    Ok(tree)
}

/// Returns the events of the brackets, each with its range: each bracket is a text.
fn events_of_brackets(alloc: Global) -> Result<String, AllocError> {
    let mut events = String::from_str(alloc, "<p>0..20000 ")?;
    for start in 0..20_000usize {
        let event = format!(in alloc; "[[]{}..{} ", start, start + 1)?;
        events.push_str(event.as_str())?;
    }
    events.push_str("</p>0..20000 ")?;
    Ok(events)
}

#[test]
fn a_long_chain(rt: HostRuntime) -> Result<(), Fail> {
    let alloc = rt.alloc();
    let source = "[".repeat(alloc, 20_000)?;
    let wanted = events_of_brackets(alloc)?;
    tree_gives(
        alloc,
        "open brackets",
        source.as_str(),
        brackets(alloc)?,
        wanted.as_str(),
    )
}

/// Returns whether a label is defined.
fn is_defined(definitions: &RefDefs<'_>, label: &str) -> bool {
    matches!(definitions.get(label), Ok(Some(_)))
}

#[test]
fn definitions_stay(rt: HostRuntime) -> Result<(), Fail> {
    let alloc = rt.alloc();
    let mut parser = open_parser(alloc)?;
    let at_first = is_defined(parser.reference_definitions(), "FOO");
    ask_for(&mut parser, 5);
    let in_between = is_defined(parser.reference_definitions(), "foo");
    let iter = parser.into_offset_iter();
    let at_last = is_defined(iter.reference_definitions(), "foo");
    let items = iter.work().items;
    drop(iter);
    gives(
        "at first, in between, at last, items",
        (at_first, in_between, at_last, items),
        (true, true, true, 9),
    )
}
