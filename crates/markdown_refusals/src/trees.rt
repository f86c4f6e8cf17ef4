//! The promises of trees and of block results.
use crate::tries::put;
use markdown_base::block_parts::BlockParts;
use markdown_base::cow_str::CowStr;
use markdown_base::index::{AlignmentIndex, CowIndex, HeadingIndex};
use markdown_base::item::{Item, ItemBody};
use markdown_base::options::Options;
use markdown_base::tag::HeadingLevel;
use markdown_base::tree::Tree;
use markdown_blocks::{Blocks, Fault};
use markdown_test_helpers::parts::{link_to, one_of_each};
use markdown_test_helpers::trees::{Node, TEXT, item, tree_of_nodes};
use std::alloc::{AllocError, Global};

/// Returns a tree with its cursor at a paragraph.
fn paragraph(alloc: Global) -> Result<Tree<Item>, AllocError> {
    let mut tree = Tree::new(alloc)?;
    tree.append(item(0, 8, ItemBody::Paragraph))?;
    Ok(tree)
}

/// Returns whether `append` adds a node and moves the cursor to it, or changes nothing.
pub fn appends(alloc: Global) -> Option<bool> {
    let mut tree = paragraph(alloc).ok()?;
    let before = tree.len();
    let is_so = match tree.append(item(0, 1, ItemBody::Rule)) {
        Ok(ix) => ix == before && tree.cur() == Some(ix),
        Err(_) => tree.len() == before && tree.cur() == Some(1),
    };
    Some(is_so)
}

/// Returns whether `push` enters the paragraph, or changes nothing.
pub fn pushes(alloc: Global) -> Option<bool> {
    let mut tree = paragraph(alloc).ok()?;
    if tree.cur().is_none() {
        return Some(false);
    }
    let is_so = match tree.push() {
        Ok(ix) => ix == 1 && tree.cur().is_none() && tree.walk_spine().len() == 1,
        Err(_) => tree.cur() == Some(1) && tree.walk_spine().len() == 0,
    };
    Some(is_so)
}

/// A text, followed by the eight open bodies.
const OPEN: &str = "x*'$`<[![]y";

/// The items of a tree over `OPEN`: a chain of the open items, a heading with attributes, and blocks that refer to a text
/// and to alignments.
static ALL_KINDS: [Node; 15] = [
    (0, 0, 11, ItemBody::BlockQuote(None)),
    (1, 0, 11, ItemBody::Paragraph),
    (2, 0, 1, TEXT),
    (2, 1, 2, ItemBody::MaybeEmphasis(1, true, true)),
    (2, 2, 3, ItemBody::MaybeSmartQuote(39, true, true)),
    (2, 3, 4, ItemBody::MaybeMath(true, true, 0)),
    (2, 4, 5, ItemBody::MaybeCode(1, false)),
    (2, 5, 6, ItemBody::MaybeHtml),
    (2, 6, 7, ItemBody::MaybeLinkOpen),
    (2, 7, 9, ItemBody::MaybeImage),
    (2, 9, 10, ItemBody::MaybeLinkClose(true)),
    (2, 10, 11, TEXT),
    (
        0,
        11,
        11,
        ItemBody::Heading(HeadingLevel::H1, Some(HeadingIndex(1))),
    ),
    (1, 11, 11, ItemBody::SynthesizeText(CowIndex(0))),
    (0, 11, 11, ItemBody::Table(AlignmentIndex(0))),
];

/// Returns the block result that is checked, with a definition and a footnote among its parts.
fn make_blocks(alloc: Global) -> Result<Blocks<'static>, Fault> {
    let tree = tree_of_nodes(alloc, &ALL_KINDS)?;
    let mut parts = one_of_each(alloc)?;
    put(
        &mut parts.definitions,
        (CowStr::Borrowed("a"), link_to("/u")),
    )?;
    put(&mut parts.footnotes, CowStr::Borrowed("n"))?;
    Blocks::checked(alloc, OPEN, Options::ENABLE_MATH, tree, parts)
}

/// The first child and the next sibling of each node of the tree, from the root on.
static LINKS: [(Option<usize>, Option<usize>); 16] = [
    (Some(1), None),
    (Some(2), Some(13)),
    (Some(3), None),
    (None, Some(4)),
    (None, Some(5)),
    (None, Some(6)),
    (None, Some(7)),
    (None, Some(8)),
    (None, Some(9)),
    (None, Some(10)),
    (None, Some(11)),
    (None, Some(12)),
    (None, None),
    (Some(14), Some(15)),
    (None, None),
    (None, None),
];

/// Returns whether a tree has these items in preorder, from the root's first child on, and these links.
fn is_tree(tree: &Tree<Item>, nodes: &[Node], links: &[(Option<usize>, Option<usize>)]) -> bool {
    for ix in 0..tree.len() {
        if links.get(ix) != Some(&(tree.child(ix), tree.next(ix))) {
            return false;
        }
    }
    'items: for ix in 1..tree.len() {
        let is_node = match nodes.get(ix - 1) {
            Some(&(_, start, end, body)) => *tree.item(ix) == Item { start, end, body },
            None => false,
        };
        if !is_node {
            return false;
        }
    }
    tree.len() == links.len()
}

/// Returns whether these are one definition, one footnote, one text, one empty list of alignments and a heading without
/// attributes.
fn is_one_of_each(parts: &BlockParts<'_>) -> bool {
    let is_defined = match parts.definitions.as_slice() {
        [(label, link)] => {
            label.as_str() == "a"
                && link.dest.as_str() == "/u"
                && link.title.is_none()
                && link.span == (0..0)
        }
        _ => false,
    };
    let are_named = match (parts.footnotes.as_slice(), parts.cows.as_slice()) {
        ([footnote], [text]) => footnote.as_str() == "n" && text.as_str() == "x",
        _ => false,
    };
    let are_bare = match (parts.alignments.as_slice(), parts.headings.as_slice()) {
        ([alignments], [heading]) => {
            alignments.is_empty()
                && heading.id.is_none()
                && heading.classes.is_empty()
                && heading.attrs.is_empty()
        }
        _ => false,
    };
    is_defined && are_named && are_bare
}

/// Returns whether a tree that keeps the rules passes the check unchanged, or an allocation failed.
pub fn checks(alloc: Global) -> bool {
    match make_blocks(alloc) {
        Ok(blocks) => {
            let (text, options, tree, parts) = blocks.into_parts();
            let is_held = is_tree(&tree, &ALL_KINDS, &LINKS) && is_one_of_each(&parts);
            drop(tree);
            drop(parts);
            is_held && text == OPEN && options == Options::ENABLE_MATH
        }
        Err(fault) => fault == Fault::Memory,
    }
}
