//! The rules of a block result, each with a function that tests it at the node with a given number.
ghost use Rattle.std.specs.Prelude.{◌≡◌, ◌↔◌, ◌<◌, ◌≤◌, false, length, IfOk, IfSome, IsTrue};
ghost use Rattle.std.specs.List.{AllByRecursion};
ghost use Rattle.markdown_base.specs.Arena.{child_of};
ghost use Rattle.markdown_base.specs.ArenaForest.{numbers_below};
ghost use Rattle.markdown_base.specs.ArenaRules.{next_at, NodeKeepsRules};
ghost use Rattle.markdown_base.specs.BlockTree.{numbered, trees_at, tree_of};
ghost use Rattle.markdown_base.specs.Forest.{nil, preorder};
ghost use Rattle.markdown_base.specs.Item.{LiesIn, is_childless, is_resolved, attributes_named};
ghost use Rattle.markdown_base.specs.WellFormed.{IsReachedOnce, Precedes, InlineInOrder, ChainsAreKept};
ghost use Rattle.markdown_base.specs.WellFormed.{PartsAreNamed, BlocksAreSettled, IsWellFormed};
ghost use Rattle.markdown_base.specs.WellFormed.{counts_of, has_open};
ghost use Rattle.markdown_blocks.specs.NodeRules.{IsReachable, Tells};

use super::chain::ChainKinds;
use super::markup::markup_is_there;
use super::named::NamedPart;
use super::runs::runs_are_whole;
use markdown_base::block_parts::BlockParts;
use markdown_base::index::HeadingIndex;
use markdown_base::item::{Item, ItemBody};
use markdown_base::tree::Tree;
use std::alloc::{AllocError, Global};

/// Returns whether an item keeps rule 2, ranges lie in: its range lies in the text, and its ends are character
/// boundaries.
fn ranges_lie_in(text: &str, item: &Item) -> bool
    ensures { IsTrue result ↔ LiesIn text.now item.now }
{
    item.start <= item.end && text.is_char_boundary(item.start) && text.is_char_boundary(item.end)
}

/// Returns whether a node precedes another: in the text, and by its number.
fn precedes(tree: &Tree<Item>, ix: usize, after: usize) -> bool
    requires first { ix < length tree.now.nodes }
    requires second { after < length tree.now.nodes }
    ensures { IsTrue result ↔
        Precedes (numbered tree.now.nodes ix) (numbered tree.now.nodes after) }
{
    tree.item(ix).end <= tree.item(after).start && ix < after
}

/// Returns whether a node keeps rule 3, inline in order: an inline node precedes its next sibling, where that is inline
/// too.
fn inline_in_order(tree: &Tree<Item>, ix: usize) -> bool
    requires { ix < length tree.now.nodes }
    ensures { IsTrue result ↔
        InlineInOrder (numbered tree.now.nodes ix) (next_at tree.now.nodes ix) }
{
    match tree.next(ix) {
        None => true,
        Some(after) => {
            !tree.item(ix).body.is_inline()
                || !tree.item(after).body.is_inline()
                || precedes(tree, ix, after)
        }
    }
}

/// Returns whether the second is true if the first is.
fn implies(first: bool, second: bool) -> bool
    ensures { IsTrue result ↔ (IsTrue first → IsTrue second) }
{
    !first || second
}

/// Returns whether a node has no children where its body may not have any.
fn is_kept_childless(tree: &Tree<Item>, ix: usize) -> bool
    requires { IsReachable tree.now.nodes ix }
    ensures { IsTrue result ↔
        (IsTrue (is_childless (numbered tree.now.nodes ix).item.body)
        → trees_at tree.now.nodes (child_of tree.now.nodes ix) ≡ nil) }
{
    implies(tree.item(ix).body.is_childless(), tree.child(ix).is_none())
}

/// Returns whether a node keeps rule 4, chains are kept: it has no children if it is inline or a thematic break, and
/// the chain below it, which has the kinds of items `below`, has only inline items if one is open.
fn chains_are_kept(tree: &Tree<Item>, ix: usize, below: ChainKinds) -> bool
    requires there { IsReachable tree.now.nodes ix }
    requires below { Tells below (trees_at tree.now.nodes (child_of tree.now.nodes ix)) }
    ensures { IsTrue result ↔
        ChainsAreKept (numbered tree.now.nodes ix).item.body
        (trees_at tree.now.nodes (child_of tree.now.nodes ix)) }
{
    is_kept_childless(tree, ix) && implies(below.any_open, below.only_inline)
}

/// Returns whether the tree keeps rule 4 at its top: no item directly below the root is open.
fn top_is_closed(tree: &Tree<Item>) -> bool
    requires rooted { 0 < length tree.now.nodes }
    requires once { IsReachedOnce tree.now.nodes }
    ensures { IsTrue result ↔ (has_open (tree_of tree.now.nodes) ≡ false) }
{
    !ChainKinds::of_chain(tree, tree.child(0)).any_open
}

/// Returns whether a body keeps rule 5, nothing resolved: it is not what an open item becomes.
fn nothing_resolved(body: ItemBody) -> bool
    ensures { IsTrue result ↔ (is_resolved body ≡ false) }
{
    !body.is_resolved()
}

/// Returns whether a number, if there is one, is that of one of `count` parts, from 0.
fn is_of_part(name: Option<usize>, count: usize) -> bool
    ensures { IsTrue result ↔ IfSome name (λ ix. ix < count) }
{
    match name {
        None => true,
        Some(ix) => ix < count,
    }
}

/// Returns whether a number, if there is one, is that of one of `count` heading attributes, from 1.
fn is_of_attributes(name: Option<HeadingIndex>, count: usize) -> bool
    ensures { IsTrue result ↔ IfSome name (λ ix. (1 ≤ ix.0) × (ix.0 ≤ count)) }
{
    match name {
        None => true,
        Some(HeadingIndex(ix)) => 1 <= ix && ix as usize <= count,
    }
}

/// Returns whether a body keeps rule 8, parts are named: the parts that it refers to exist.
fn parts_are_named(body: ItemBody, parts: &BlockParts) -> bool
    ensures { IsTrue result ↔ PartsAreNamed (counts_of parts.now) body }
{
    is_of_part(NamedPart::Text.number(body), parts.cows.len())
        && is_of_part(NamedPart::Alignments.number(body), parts.alignments.len())
        && is_of_attributes(body.attributes_named(), parts.headings.len())
}

/// Returns whether a node keeps rule 9, blocks are settled: it is not a root or an undecided block, and if it is a
/// tight paragraph, the chain below it, which has the kinds of items `below`, has none.
fn blocks_are_settled(tree: &Tree<Item>, ix: usize, below: ChainKinds) -> bool
    requires there { ix < length tree.now.nodes }
    requires below { Tells below (trees_at tree.now.nodes (child_of tree.now.nodes ix)) }
    ensures { IsTrue result ↔
        BlocksAreSettled (numbered tree.now.nodes ix).item.body
        (trees_at tree.now.nodes (child_of tree.now.nodes ix)) }
{
    let body = tree.item(ix).body;
    !body.is_unplaced() && implies(body.is_tight_paragraph(), !below.any_tight)
}

/// Returns whether a node keeps rules 2 to 9.
fn node_keeps_rules(text: &str, tree: &Tree<Item>, parts: &BlockParts, ix: usize) -> bool
    requires { IsReachable tree.now.nodes ix }
    ensures { IsTrue result ↔ NodeKeepsRules text.now (counts_of parts.now) tree.now.nodes ix }
{
    let item = tree.item(ix);
    let below = ChainKinds::of_chain(tree, tree.child(ix));
    ranges_lie_in(text, item)
        && inline_in_order(tree, ix)
        && chains_are_kept(tree, ix, below)
        && nothing_resolved(item.body)
        && markup_is_there(text, item)
        && runs_are_whole(text, tree, ix)
        && parts_are_named(item.body, parts)
        && blocks_are_settled(tree, ix, below)
}

/// Returns whether each node of an order keeps rules 2 to 9.
fn all_keep_rules(text: &str, tree: &Tree<Item>, parts: &BlockParts, order: &[usize]) -> bool
    requires { AllByRecursion (IsReachable tree.now.nodes) order.now }
    ensures { IsTrue result ↔
        AllByRecursion (NodeKeepsRules text.now (counts_of parts.now) tree.now.nodes) order.now }
{
    'nodes: for ix in order {
        if !node_keeps_rules(text, tree, parts, *ix) {
            return false;
        }
    }
    true
}

/// Returns whether a tree that keeps rule 1, with its nodes below the root in preorder in `order`, is well formed.
/// Fails if an allocation fails.
pub fn is_well_formed(
    alloc: Global,
    text: &str,
    tree: &Tree<Item>,
    parts: &BlockParts,
    order: &[usize],
) -> Result<bool, AllocError>
    requires rooted { 0 < length tree.now.nodes }
    requires once { IsReachedOnce tree.now.nodes }
    requires order { order.now ≡ preorder (numbers_below tree.now.nodes) }
    ensures { IfOk result (λ kept. IsTrue kept ↔ IsWellFormed text.now tree.now.nodes parts.now) }
{
    if !top_is_closed(tree) || !all_keep_rules(text, tree, parts, order) {
        return Ok(false);
    }
    if !NamedPart::Text.named_once(alloc, tree, order, parts.cows.len())? {
        return Ok(false);
    }
    NamedPart::Alignments.named_once(alloc, tree, order, parts.alignments.len())
}
