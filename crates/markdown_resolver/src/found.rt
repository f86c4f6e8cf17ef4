//! What was found in a chain is put in place: into the node of its opener, or into two nodes. Items that end at or
//! before its end leave the chain, and the first that is left loses its bytes before it.
ghost use Rattle.std.specs.Prelude.{◌≡◌, ◌<◌, ℕ, List, length, Some, None, IfOk, IfSome, OnErr};
ghost use Rattle.markdown_base.specs.Arena.{sibling_of};
ghost use Rattle.markdown_base.specs.ArenaForest.{Spells, forest_at, links_of};
ghost use Rattle.markdown_base.specs.BlockTree.{item_at};
ghost use Rattle.markdown_document.specs.Tables.{Tables};
ghost use Rattle.markdown_document.specs.NamedEntries.{HasGrown};
ghost use Rattle.markdown_resolver.specs.Chains.{CanResolve};
ghost use Rattle.markdown_resolver.specs.Rewritten.{CanPut, CanPutPair, CanPutParent, IsFoundAt, IsRestPast, Puts};
ghost use Rattle.markdown_resolver.specs.Rewritten.{literal, one_item, pair, parent};
ghost use Rattle.markdown_resolver.specs.LiteralText.{IsWritten, begun_from};

use crate::continuation::Continuation;
use crate::literal_text::make_node_literal;
use markdown_base::item::Item;
use markdown_base::tree::Tree;
use std::alloc::AllocError;

/// Returns the first node of a chain, from a link on, whose item ends after byte offset `end`, and the number of nodes
/// before it.
pub(crate) fn first_past(tree: &Tree<Item>, first: Option<usize>, end: usize) -> Continuation
    requires { Spells (links_of tree.now.nodes) first (forest_at (links_of tree.now.nodes) first) }
    ensures past { IsRestPast tree.now.nodes end first result }
    ensures within { IfSome result.next (λ ix. ix < length tree.now.nodes) }
{
    let mut next = first;
    let mut passed = 0;
    'chain: while let Some(ix) = next {
        if tree.item(ix).end > end {
            return Continuation { next, passed };
        }
        next = tree.next(ix);
        passed += 1;
    }
    Continuation { next, passed }
}

/// Lets the item that a link leads to start at byte offset `start` or later.
pub(crate) fn begin_from(tree: &mut Tree<Item>, first: Option<usize>, start: usize)
    requires { IfSome first (λ ix. ix < length tree.old.nodes) }
    ensures { tree.new ≡ record tree.old { nodes = begun_from first start tree.old.nodes } }
{
    if let Some(ix) = first {
        let item = *tree.item(ix);
        tree.set_item(
            ix,
            Item {
                start: item.start.max(start),
                end: item.end,
                body: item.body,
            },
        );
    }
}

/// Replaces the item of a node, and its next sibling.
pub(crate) fn write_node(tree: &mut Tree<Item>, ix: usize, item: Item, next: Option<usize>)
    requires node { ix < length tree.old.nodes }
    requires next { IfSome next (λ after. after < length tree.old.nodes) }
    ensures written { IsWritten tree.old.nodes tree.new.nodes ix item next }
    ensures place { tree.new ≡ record tree.old { nodes = tree.new.nodes } }
{
    tree.set_item(ix, item);
    tree.set_next(ix, next);
}

/// Makes an item literal at which nothing is found: it becomes a Text, unless it is not open or waits for pairing. Returns
/// the rest of the chain.
pub(crate) fn make_literal(tree: &mut Tree<Item>, ix: usize) -> Continuation
    requires { (source : List ℕ) × (tables : Tables)
        × CanResolve source tables tree.old.nodes (Some ix) }
    ensures puts { (source : List ℕ) (tables : Tables)
        → CanResolve source tables tree.old.nodes (Some ix)
        → Puts source ix (literal source) None result tree.old.nodes tree.new.nodes tables tables }
    ensures next { result.next ≡ sibling_of tree.old.nodes ix }
    ensures place { tree.new ≡ record tree.old { nodes = tree.new.nodes } }
{
    let next = tree.next(ix);
    make_node_literal(tree, ix);
    Continuation { next, passed: 0 }
}

/// Puts an item into the node of its opener. Returns the rest of the chain.
pub(crate) fn put_found(tree: &mut Tree<Item>, ix: usize, item: Item) -> Continuation
    requires { (source : List ℕ) × (tables : Tables) × (tables' : Tables) × HasGrown tables tables'
        × IsFoundAt source tables tree.old.nodes ix item.end × CanPut source tables tables' item
        × (item.start ≡ (item_at tree.old.nodes ix).start) }
    ensures puts { (source : List ℕ) (tables tables' : Tables) → HasGrown tables tables'
        → IsFoundAt source tables tree.old.nodes ix item.end → CanPut source tables tables' item
        → item.start ≡ (item_at tree.old.nodes ix).start
        → Puts source ix (one_item source tables' item) (Some item.end) result tree.old.nodes
        tree.new.nodes tables tables' }
    ensures place { tree.new ≡ record tree.old { nodes = tree.new.nodes } }
{
    let rest = first_past(tree, tree.next(ix), item.end);
    write_node(tree, ix, item, rest.next);
    begin_from(tree, rest.next, item.end);
    rest
}

/// Puts two items into the nodes of an opener and of its closer, which follows it in the chain. Returns the rest of the
/// chain.
pub(crate) fn put_pair(
    tree: &mut Tree<Item>,
    ix: usize,
    first: Item,
    closer: usize,
    second: Item,
) -> Continuation
    requires { (source : List ℕ) × (tables : Tables) × (tables' : Tables) × HasGrown tables tables'
        × IsFoundAt source tables tree.old.nodes ix second.end
        × CanPutPair source tables tables' tree.old.nodes ix closer first second }
    ensures puts { (source : List ℕ) (tables tables' : Tables) → HasGrown tables tables'
        → IsFoundAt source tables tree.old.nodes ix second.end
        → CanPutPair source tables tables' tree.old.nodes ix closer first second
        → Puts source ix (pair source tables' first second) (Some second.end) result tree.old.nodes
        tree.new.nodes
        tables tables' }
    ensures place { tree.new ≡ record tree.old { nodes = tree.new.nodes } }
{
    let rest = first_past(tree, tree.next(ix), second.end);
    write_node(tree, ix, first, Some(closer));
    write_node(tree, closer, second, rest.next);
    begin_from(tree, rest.next, second.end);
    rest
}

/// Puts an item with one child into the node of its opener. Returns the rest of the chain, or an error where memory is
/// refused; the tree is then unchanged.
pub(crate) fn put_parent(
    tree: &mut Tree<Item>,
    ix: usize,
    item: Item,
    inside: Item,
) -> Result<Continuation, AllocError>
    requires { (source : List ℕ) × (tables : Tables) × (tables' : Tables) × HasGrown tables tables'
        × IsFoundAt source tables tree.old.nodes ix item.end
        × CanPutParent source tables tables' tree.old.nodes ix item inside }
    ensures puts { IfOk result (λ rest. (source : List ℕ) (tables tables' : Tables)
        → HasGrown tables tables'
        → IsFoundAt source tables tree.old.nodes ix item.end
        → CanPutParent source tables tables' tree.old.nodes ix item inside
        → Puts source ix (parent source tables' item inside) (Some item.end) rest tree.old.nodes
        tree.new.nodes tables
        tables') }
    ensures place { IfOk result (λ _. tree.new ≡ record tree.old { nodes = tree.new.nodes }) }
    ensures refused { OnErr result (tree.new ≡ tree.old) }
{
    let rest = first_past(tree, tree.next(ix), item.end);
    let child = tree.create_node(inside)?;
    tree.set_child(ix, Some(child));
    write_node(tree, ix, item, rest.next);
    begin_from(tree, rest.next, item.end);
    Ok(rest)
}
