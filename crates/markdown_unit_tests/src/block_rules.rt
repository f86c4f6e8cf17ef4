//! The nine rules of a block result: trees that break one rule each, and trees that keep them all.
use markdown_base::index::{AlignmentIndex, CowIndex, HeadingIndex, LinkIndex};
use markdown_base::item::{Item, ItemBody};
use markdown_base::options::Options;
use markdown_base::tag::HeadingLevel;
use markdown_base::tree::Tree;
use markdown_blocks::{Blocks, Fault};
use markdown_test_helpers::parts::one_of_each;
use markdown_test_helpers::rows::Rows;
use markdown_test_helpers::trees::{Node, TEXT, tree_of_nodes};
use std::alloc::{AllocError, Global};
use std::test::Fail;

/// Returns whether a tree is a well-formed block result over a text.
pub fn is_well_formed(alloc: Global, over: &'static str, tree: Tree<Item>) -> Result<bool, Fault> {
    match Blocks::checked(alloc, over, Options::empty(), tree, one_of_each(alloc)?) {
        Ok(blocks) => {
            drop(blocks);
            Ok(true)
        }
        Err(Fault::Blocks) => Ok(false),
        Err(other) => Err(other),
    }
}

/// A character of a run that can open and close: the last one, the one before it, and the one before that.
const RUN_OF_1: ItemBody = ItemBody::MaybeEmphasis(1, true, true);

const RUN_OF_2: ItemBody = ItemBody::MaybeEmphasis(2, true, true);

const RUN_OF_3: ItemBody = ItemBody::MaybeEmphasis(3, true, true);

const FENCED: ItemBody = ItemBody::FencedCodeBlock(CowIndex(0));

/// A row: the rule that is broken, or what is kept, the text, and the tree.
type Row = (&'static str, &'static str, &'static [Node]);

/// Trees that break a rule.
static BROKEN: [Row; 26] = [
    (
        "ranges lie in: characters",
        "é",
        &[(0, 0, 2, ItemBody::Paragraph), (1, 0, 1, TEXT)],
    ),
    (
        "ranges lie in: start and end",
        "ab",
        &[(0, 0, 2, ItemBody::Paragraph), (1, 2, 1, TEXT)],
    ),
    (
        "ranges lie in: the text",
        "a",
        &[(0, 0, 2, ItemBody::Paragraph)],
    ),
    (
        "inline in order",
        "ab",
        &[
            (0, 0, 2, ItemBody::Paragraph),
            (1, 0, 2, TEXT),
            (1, 1, 2, TEXT),
        ],
    ),
    (
        "chains are kept: childless, in a chain",
        "<a",
        &[
            (0, 0, 2, ItemBody::Paragraph),
            (1, 0, 1, ItemBody::MaybeHtml),
            (2, 1, 2, TEXT),
        ],
    ),
    (
        "chains are kept: childless, in a chain",
        "<",
        &[
            (0, 0, 1, ItemBody::Paragraph),
            (1, 0, 1, ItemBody::MaybeHtml),
            (2, 0, 1, TEXT),
        ],
    ),
    (
        "chains are kept: childless",
        "aa",
        &[(0, 0, 1, ItemBody::Rule), (1, 0, 1, TEXT)],
    ),
    (
        "chains are kept: inline only",
        "<a",
        &[
            (0, 0, 2, ItemBody::BlockQuote(None)),
            (1, 0, 1, ItemBody::MaybeHtml),
            (1, 1, 2, ItemBody::Paragraph),
        ],
    ),
    (
        "chains are kept: top",
        "<a",
        &[(0, 0, 1, ItemBody::MaybeHtml)],
    ),
    (
        "runs are whole: two runs",
        "**",
        &[
            (0, 0, 2, ItemBody::Paragraph),
            (1, 0, 1, RUN_OF_1),
            (1, 1, 2, RUN_OF_1),
        ],
    ),
    (
        "runs are whole: the text ends",
        "*",
        &[(0, 0, 1, ItemBody::Paragraph), (1, 0, 1, RUN_OF_2)],
    ),
    (
        "runs are whole: one character of two",
        "*a",
        &[(0, 0, 2, ItemBody::Paragraph), (1, 0, 1, RUN_OF_2)],
    ),
    (
        "runs are whole: no character",
        "*a",
        &[
            (0, 0, 2, ItemBody::Paragraph),
            (1, 0, 1, ItemBody::MaybeEmphasis(0, true, true)),
        ],
    ),
    (
        "runs are whole: a letter",
        "aa",
        &[(0, 0, 2, ItemBody::Paragraph), (1, 0, 1, RUN_OF_1)],
    ),
    (
        "runs are whole: of two kinds",
        "*_",
        &[
            (0, 0, 2, ItemBody::Paragraph),
            (1, 0, 1, RUN_OF_2),
            (1, 1, 2, RUN_OF_1),
        ],
    ),
    (
        "runs are whole: one item of two",
        "**-------",
        &[
            (0, 0, 9, ItemBody::Paragraph),
            (1, 0, 1, RUN_OF_2),
            (1, 1, 2, ItemBody::MaybeEmphasis(1, true, false)),
        ],
    ),
    (
        "runs are whole: a gap in a run",
        "*-*------",
        &[
            (0, 0, 9, ItemBody::Paragraph),
            (1, 0, 1, RUN_OF_2),
            (1, 2, 3, RUN_OF_1),
        ],
    ),
    (
        "runs are whole: a gap between runs",
        "*-*------",
        &[
            (0, 0, 9, ItemBody::Paragraph),
            (1, 0, 1, RUN_OF_1),
            (1, 2, 3, RUN_OF_1),
        ],
    ),
    (
        "nothing is resolved",
        "a",
        &[
            (0, 0, 1, ItemBody::Paragraph),
            (1, 0, 1, ItemBody::Code(CowIndex(0))),
        ],
    ),
    (
        "markup is there",
        "a",
        &[
            (0, 0, 1, ItemBody::Paragraph),
            (1, 0, 1, ItemBody::MaybeLinkOpen),
        ],
    ),
    (
        "parts are named",
        "a",
        &[(0, 0, 1, ItemBody::FencedCodeBlock(CowIndex(1)))],
    ),
    (
        "parts are named: no text twice",
        "a",
        &[(0, 0, 1, FENCED), (0, 0, 1, FENCED)],
    ),
    (
        "parts are named: no alignments twice",
        "a",
        &[
            (0, 0, 1, ItemBody::Table(AlignmentIndex(0))),
            (0, 0, 1, ItemBody::Table(AlignmentIndex(0))),
        ],
    ),
    (
        "blocks are settled: tight",
        "a",
        &[
            (0, 0, 1, ItemBody::TightParagraph),
            (1, 0, 1, ItemBody::TightParagraph),
        ],
    ),
    (
        "blocks are settled: the root",
        "a",
        &[(0, 0, 1, ItemBody::Root)],
    ),
    (
        "blocks are settled: a title",
        "a",
        &[(0, 0, 1, ItemBody::MaybeDefinitionListTitle)],
    ),
];

/// Trees that keep all rules.
static KEPT: [Row; 5] = [
    (
        "a hard break",
        "a\\",
        &[
            (0, 0, 2, ItemBody::Paragraph),
            (1, 0, 1, TEXT),
            (1, 1, 2, ItemBody::HardBreak(true)),
        ],
    ),
    (
        "a tight paragraph",
        "a",
        &[(0, 0, 1, ItemBody::TightParagraph), (1, 0, 1, TEXT)],
    ),
    (
        "each open body",
        "*$\"`<[![]",
        &[
            (0, 0, 9, ItemBody::Paragraph),
            (1, 0, 1, RUN_OF_1),
            (1, 1, 2, ItemBody::MaybeMath(true, true, 0)),
            (1, 2, 3, ItemBody::MaybeSmartQuote(b'"', true, true)),
            (1, 3, 4, ItemBody::MaybeCode(1, false)),
            (1, 4, 5, ItemBody::MaybeHtml),
            (1, 5, 6, ItemBody::MaybeLinkOpen),
            (1, 6, 8, ItemBody::MaybeImage),
            (1, 8, 9, ItemBody::MaybeLinkClose(false)),
        ],
    ),
    (
        "runs side by side",
        "***_**a**",
        &[
            (0, 0, 9, ItemBody::Paragraph),
            (1, 0, 1, RUN_OF_3),
            (1, 1, 2, RUN_OF_2),
            (1, 2, 3, RUN_OF_1),
            (1, 3, 4, RUN_OF_1),
            (1, 4, 5, RUN_OF_2),
            (1, 5, 6, RUN_OF_1),
            (1, 6, 7, TEXT),
            (1, 7, 8, RUN_OF_2),
            (1, 8, 9, RUN_OF_1),
        ],
    ),
    (
        "a text between runs",
        "*-*------",
        &[
            (0, 0, 9, ItemBody::Paragraph),
            (1, 0, 1, RUN_OF_1),
            (1, 1, 2, TEXT),
            (1, 2, 3, RUN_OF_1),
        ],
    ),
];

/// Checks whether each tree keeps the rules.
fn compare(alloc: Global, table: &[Row], are_kept: bool) -> Result<(), Fail> {
    let mut rows = Rows::new();
    for &(rule, over, nodes) in table {
        let tree = tree_of_nodes(alloc, nodes)?;
        rows.gives((rule, over), is_well_formed(alloc, over, tree)?, are_kept);
    }
    rows.end()
}

#[test]
fn each_rule_is_tested(rt: HostRuntime) -> Result<(), Fail> {
    compare(rt.alloc(), &BROKEN, false)
}

#[test]
fn whole_chains_keep_the_rules(rt: HostRuntime) -> Result<(), Fail> {
    compare(rt.alloc(), &KEPT, true)
}

/// A text, the body of the one item over it, and whether the rules are kept.
static BODIES: [(&str, ItemBody, bool); 44] = [
    // no item is resolved already
    ("a", ItemBody::Emphasis, false),
    ("a", ItemBody::Strong, false),
    ("a", ItemBody::Strikethrough, false),
    ("a", ItemBody::Superscript, false),
    ("a", ItemBody::Subscript, false),
    ("a", ItemBody::Math(CowIndex(0), false), false),
    ("a", ItemBody::Code(CowIndex(0)), false),
    ("a", ItemBody::Link(LinkIndex(0)), false),
    ("a", ItemBody::Image(LinkIndex(0)), false),
    ("a", ItemBody::FootnoteReference(CowIndex(0)), false),
    // the text has the markup
    ("$", ItemBody::MaybeMath(true, true, 0), true),
    ("a", ItemBody::MaybeMath(true, true, 0), false),
    ("$$", ItemBody::MaybeMath(true, true, 0), false),
    ("'", ItemBody::MaybeSmartQuote(b'\'', true, true), true),
    ("\"", ItemBody::MaybeSmartQuote(b'"', true, true), true),
    ("'", ItemBody::MaybeSmartQuote(b'"', true, true), false),
    ("a", ItemBody::MaybeSmartQuote(b'a', true, true), false),
    ("``", ItemBody::MaybeCode(2, false), true),
    ("``", ItemBody::MaybeCode(1, false), false),
    ("`a", ItemBody::MaybeCode(2, false), false),
    ("", ItemBody::MaybeCode(0, false), false),
    ("<", ItemBody::MaybeHtml, true),
    ("a", ItemBody::MaybeHtml, false),
    ("[", ItemBody::MaybeLinkOpen, true),
    ("a", ItemBody::MaybeLinkOpen, false),
    ("]", ItemBody::MaybeLinkClose(true), true),
    ("[", ItemBody::MaybeLinkClose(true), false),
    ("![", ItemBody::MaybeImage, true),
    ("[", ItemBody::MaybeImage, false),
    // runs are whole
    ("*", ItemBody::MaybeEmphasis(1, true, false), true),
    ("_", ItemBody::MaybeEmphasis(1, false, true), true),
    ("~", ItemBody::MaybeEmphasis(1, false, false), true),
    ("^", ItemBody::MaybeEmphasis(1, true, true), true),
    ("**", ItemBody::MaybeEmphasis(1, true, true), false),
    ("", ItemBody::MaybeEmphasis(1, true, true), false),
    // the parts referred to exist
    ("a", ItemBody::SynthesizeText(CowIndex(0)), true),
    ("a", ItemBody::SynthesizeText(CowIndex(1)), false),
    ("a", ItemBody::OwnedInlineHtml(CowIndex(0)), true),
    ("a", ItemBody::Table(AlignmentIndex(0)), true),
    ("a", ItemBody::Table(AlignmentIndex(1)), false),
    (
        "a",
        ItemBody::Heading(HeadingLevel::H1, Some(HeadingIndex(0))),
        false,
    ),
    (
        "a",
        ItemBody::Heading(HeadingLevel::H1, Some(HeadingIndex(1))),
        true,
    ),
    (
        "a",
        ItemBody::Heading(HeadingLevel::H1, Some(HeadingIndex(2))),
        false,
    ),
    ("a", ItemBody::Heading(HeadingLevel::H1, None), true),
];

#[test]
fn each_body_keeps_its_rules(rt: HostRuntime) -> Result<(), Fail> {
    let mut rows = Rows::new();
    for &(over, body, is_kept) in &BODIES {
        let end = over.len();
        let nodes = [(0, 0, end, ItemBody::Paragraph), (1, 0, end, body)];
        let tree = tree_of_nodes(rt.alloc(), &nodes)?;
        rows.gives(
            (over, body),
            is_well_formed(rt.alloc(), over, tree)?,
            is_kept,
        );
    }
    rows.end()
}

/// The link of a node that is set.
#[derive(Clone, Copy, Drop)]
pub enum Link {
    Child,
    Next,
}

/// Sets a link between two nodes, if both exist.
pub fn set_link(tree: &mut Tree<Item>, from: usize, link: Link, to: Option<usize>) {
    if from >= tree.len() || to.is_some_and(|to| to >= tree.len()) {
        return;
    }
    match link {
        Link::Child => tree.set_child(from, to),
        Link::Next => tree.set_next(from, to),
    }
}

/// A row: the rule, the text, the tree, and the links that are then set in it.
type LinkedRow = (
    &'static str,
    &'static str,
    &'static [Node],
    &'static [(usize, Link, Option<usize>)],
);

static LINKED: [LinkedRow; 5] = [
    (
        "reached once: two parents",
        "ab",
        &[
            (0, 0, 2, ItemBody::Paragraph),
            (1, 0, 2, TEXT),
            (0, 0, 2, ItemBody::Paragraph),
        ],
        &[(3, Link::Child, Some(2))],
    ),
    (
        "reached once: no end",
        "ab",
        &[(0, 0, 2, ItemBody::Paragraph), (1, 0, 2, TEXT)],
        &[(2, Link::Next, Some(1))],
    ),
    (
        "reached once: the root again",
        "ab",
        &[(0, 0, 2, ItemBody::Paragraph), (1, 0, 2, TEXT)],
        &[(1, Link::Next, Some(0))],
    ),
    (
        "inline in order: numbers fall",
        "ab",
        &[
            (0, 0, 2, ItemBody::Paragraph),
            (1, 1, 2, TEXT),
            (1, 0, 1, TEXT),
        ],
        &[
            (1, Link::Child, Some(3)),
            (3, Link::Next, Some(2)),
            (2, Link::Next, None),
        ],
    ),
    (
        "runs are whole: a number is left out",
        "**",
        &[
            (0, 0, 2, ItemBody::Paragraph),
            (1, 0, 1, RUN_OF_2),
            (1, 1, 1, TEXT),
            (1, 1, 2, RUN_OF_1),
        ],
        &[(2, Link::Next, Some(4))],
    ),
];

/// Returns a tree of these items, with these links.
fn linked(
    alloc: Global,
    nodes: &[Node],
    links: &[(usize, Link, Option<usize>)],
) -> Result<Tree<Item>, AllocError> {
    let mut tree = tree_of_nodes(alloc, nodes)?;
    for &(from, link, to) in links {
        set_link(&mut tree, from, link, to);
    }
    Ok(tree)
}

#[test]
fn numbers_and_links_keep_the_rules(rt: HostRuntime) -> Result<(), Fail> {
    let mut rows = Rows::new();
    for &(rule, over, nodes, links) in &LINKED {
        let tree = linked(rt.alloc(), nodes, links)?;
        rows.gives(rule, is_well_formed(rt.alloc(), over, tree)?, false);
    }
    rows.end()
}
