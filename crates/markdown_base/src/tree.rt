//! A tree of items: an arena of numbered nodes, with a cursor that enters and leaves nodes.
ghost use Rattle.std.specs.Prelude.{◌≡◌, ℕ, ◌<◌, ◌≤◌, ◌^◌, ◌++◌, ◌∷◌, [], length, slice_index_or, MatchOption, MatchResult};
ghost use Rattle.std.specs.Prelude.{IfOk, IfSome, OnErr};
ghost use Rattle.markdown_base.specs.Arena.{items_of, child_of, sibling_of};
ghost use Rattle.markdown_base.specs.ArenaChanges.{innermost, single, changed_at, follower, led_to};
ghost use Rattle.markdown_base.specs.ArenaChanges.{appended};
ghost use Rattle.markdown_base.specs.ArenaBounds.{node_limit, IsWithin};
ghost use Rattle.markdown_base.specs.StoredNodes.{target_of, nodes_of};
ghost use Rattle.markdown_base.specs.declared.item.ItemBody.TheVariants as body;

use crate::item::{Item, ItemBody};
use crate::stored_node::{NodeLink, StoredNode};
use std::alloc::{AllocError, Global};
use std::marker::Model;
use std::mem;

/// The maximum number of nodes of a tree.
const NODE_LIMIT: usize = u32::MAX as usize;

/// An arena of nodes, numbered from the root, which is node 0. Nodes are appended at the cursor. There are at most
/// 2^32 - 1 of them: one more fails, as an allocation does.
#[derive(Drop)]
pub struct Tree<T> {
    nodes: Vec<StoredNode<T>>,
    spine: Vec<usize>,
    cur: Option<usize>,
}

impl<T> Model for Tree<T> {
    ghost use Rattle.markdown_base.specs.Arena.{Arena};
    ghost use Rattle.markdown_base.specs.ArenaBounds.{IsWithin};
    ghost use Rattle.markdown_base.specs.StoredNodes.{nodes_of};

    ghost Value = { Arena T };

    ghost view = { λ t.
        record { nodes = nodes_of t.nodes.items; spine = t.spine.items; cursor = t.cur } };

    ghost invariant = { λ t. IsWithin (record {
      nodes = nodes_of t.nodes.items;
      spine = t.spine.items;
      cursor = t.cur;
    }) };
}

impl Tree<Item> {
    /// Returns a tree with the root only; the first node appended becomes its first child. The error is a refused
    /// allocation.
    pub fn new(alloc: Global) -> Result<Tree<Item>, AllocError>
        ensures { IfOk result (λ made. made
            ≡ record {
              nodes = single (record { start = 0; end = 0; body = body.Root }) ∷ [];
              spine = [];
              cursor =
                  None;
            }) }
    {
        let item = Item {
            start: 0,
            end: 0,
            body: ItemBody::Root,
        };
        let mut nodes = Vec::new(alloc);
        nodes.push(StoredNode {
            item,
            child: NodeLink::to(None),
            next: NodeLink::to(None),
        })?;
        Ok(Tree {
            nodes,
            spine: Vec::new(alloc),
            cur: None,
        })
    }
}

impl<T: Drop> Tree<T> {
    /// Returns the number of nodes, including the root: less than 2^32.
    pub fn len(&self) -> usize
        ensures count { result ≡ length self.now.nodes }
        ensures rooted { 0 < result }
        ensures small { result < 2 ^ 32 }
    {
        self.nodes.len()
    }

    /// Returns the node at the cursor, if any.
    pub fn cur(&self) -> Option<usize>
        ensures value { result ≡ self.now.cursor }
        ensures within { IfSome result (λ ix. ix < length self.now.nodes) }
    {
        self.cur
    }

    /// Returns the item of a node.
    pub fn item(&self, ix: usize) -> &T
        requires { ix < length self.now.nodes }
        ensures { (d : T) → result.now ≡ slice_index_or (items_of self.now.nodes) ix d }
    {
        &self.nodes[ix].item
    }

    /// Returns the first child of a node, if any.
    pub fn child(&self, ix: usize) -> Option<usize>
        requires { ix < length self.now.nodes }
        ensures value { result ≡ child_of self.now.nodes ix }
        ensures within { IfSome result (λ below. below < length self.now.nodes) }
    {
        self.nodes[ix].child.target()
    }

    /// Returns the next sibling of a node, if any.
    pub fn next(&self, ix: usize) -> Option<usize>
        requires { ix < length self.now.nodes }
        ensures value { result ≡ sibling_of self.now.nodes ix }
        ensures within { IfSome result (λ after. after < length self.now.nodes) }
        ensures few { length self.now.nodes ≤ 2 ^ 63 }
    {
        self.nodes[ix].next.target()
    }

    /// Returns the node entered last, if any.
    pub fn peek_up(&self) -> Option<usize>
        ensures value { MatchOption result (self.now.spine ≡ []) (λ ix. (outer : _)
            × (self.now.spine ≡ outer ++ ix ∷ [])) }
        ensures within { IfSome result (λ ix. ix < length self.now.nodes) }
    {
        self.spine.last().copied()
    }

    /// Returns the nodes that were entered, the outermost first.
    pub fn walk_spine(&self) -> &[usize]
        ensures { result.now ≡ self.now.spine }
    {
        &self.spine
    }

    /// Replaces the item of a node.
    pub fn set_item(&mut self, ix: usize, item: T)
        requires { ix < length self.old.nodes }
        ensures { self.new
            ≡ record self.old {
              nodes = changed_at ix (λ n.
                  record n { item = item }) self.old.nodes;
            } }
    {
        self.nodes[ix].item = item;
    }

    /// Sets the first child of a node.
    pub fn set_child(&mut self, ix: usize, child: Option<usize>)
        requires node { ix < length self.old.nodes }
        requires child { IfSome child (λ below. below < length self.old.nodes) }
        ensures { self.new
            ≡ record self.old {
              nodes = changed_at ix (λ n.
                  record n { child = child }) self.old.nodes;
            } }
    {
        let node = &mut self.nodes[ix];
        node.child = NodeLink::to(child);
    }

    /// Sets the next sibling of a node.
    pub fn set_next(&mut self, ix: usize, next: Option<usize>)
        requires node { ix < length self.old.nodes }
        requires next { IfSome next (λ after. after < length self.old.nodes) }
        ensures { self.new
            ≡ record self.old {
              nodes = changed_at ix (λ n.
                  record n { next = next }) self.old.nodes;
            } }
    {
        let node = &mut self.nodes[ix];
        node.next = NodeLink::to(next);
    }

    /// Adds a node that no link leads to, and returns its number. A node beyond the limit is refused, as an allocation is.
    /// After a refused allocation the tree is unchanged.
    pub fn create_node(&mut self, item: T) -> Result<usize, AllocError>
        ensures number { IfOk result (λ ix. ix ≡ length self.old.nodes) }
        ensures made { IfOk result (λ _. self.new
            ≡ record self.old { nodes = self.old.nodes ++ single item ∷ [] }) }
        ensures refused { OnErr result (self.new ≡ self.old) }
    {
        let ix = self.nodes.len();
        if ix == NODE_LIMIT {
            return Err(AllocError);
        }
        self.nodes.push(StoredNode {
            item,
            child: NodeLink::to(None),
            next: NodeLink::to(None),
        })?;
        Ok(ix)
    }

    /// Inserts a node after the one at the cursor or, where there is none, as the first child of the node entered last,
    /// and returns its number. What was there follows the new node, and the cursor is at the new node. After a refused
    /// allocation the tree is unchanged.
    // inlined: the item is then made in its place in the arena, instead of being moved there
    #[inline(always)]
    pub fn append(&mut self, item: T) -> Result<usize, AllocError>
        ensures number { IfOk result (λ ix. ix ≡ length self.old.nodes) }
        ensures made { IfOk result (λ _. self.new ≡ appended self.old item) }
        ensures refused { OnErr result (self.new ≡ self.old) }
    {
        let ix = self.nodes.len();
        if ix == NODE_LIMIT {
            return Err(AllocError);
        }
        self.nodes.reserve(1)?;
        let next = redirect(&mut self.nodes, &self.spine, self.cur, ix);
        self.nodes.push_reserved(StoredNode {
            item,
            child: NodeLink::to(None),
            next,
        });
        self.cur = Some(ix);
        Ok(ix)
    }

    /// Enters the node at the cursor and returns its number; the cursor moves to its first child. After a refused
    /// allocation the tree is unchanged.
    pub fn push(&mut self) -> Result<usize, AllocError>
        requires { (ix : ℕ) × (self.old.cursor ≡ Some ix) }
        ensures goes { IfOk result (λ ix. (self.old.cursor ≡ Some ix)
            × (self.new ≡ record self.old {
              spine = self.old.spine
                  ++ ix ∷ [];
              cursor = child_of self.old.nodes ix;
            })) }
        ensures refused { OnErr result (self.new ≡ self.old) }
    {
        let ix = self.cur.unwrap();
        self.spine.push(ix)?;
        self.cur = self.child(ix);
        Ok(ix)
    }

    /// Leaves the node entered last and returns its number; the cursor moves to it. Where no node was entered, nothing
    /// changes.
    pub fn pop(&mut self) -> Option<usize>
        ensures goes { MatchOption result
            ((self.old.spine ≡ []) × (self.new ≡ self.old))
            (λ ix. (outer : _) × (self.old.spine ≡ outer ++ ix ∷ [])
            × (self.new ≡ record self.old { spine = outer; cursor = Some ix })) }
        ensures within { IfSome result (λ ix. ix < length self.old.nodes) }
    {
        let outer = self.spine.pop()?;
        self.cur = Some(outer);
        Some(outer)
    }

    /// Moves the cursor to the next sibling of `ix`, if any, and returns that sibling.
    pub fn next_sibling(&mut self, ix: usize) -> Option<usize>
        requires { ix < length self.old.nodes }
        ensures value { result ≡ sibling_of self.old.nodes ix }
        ensures goes { self.new ≡ record self.old { cursor = sibling_of self.old.nodes ix } }
    {
        self.cur = self.next(ix);
        self.cur()
    }

    /// Moves the cursor back to the first child of the root; every entered node is left.
    pub fn reset(&mut self)
        ensures { self.new ≡ record self.old { spine = []; cursor = child_of self.old.nodes 0 } }
    {
        self.spine.clear();
        self.cur = self.child(0);
    }

    /// Ends the traversal: there is no node at the cursor, and every entered node is left.
    pub fn stop(&mut self)
        ensures { self.new ≡ record self.old { spine = []; cursor = None } }
    {
        self.spine.clear();
        self.cur = None;
    }
}

/// Makes the link at the cursor's position lead to a node that is about to be added, and returns the link that was there.
// inlined: it is a step of `append`
#[inline(always)]
fn redirect<T>(
    nodes: &mut [StoredNode<T>],
    spine: &[usize],
    cur: Option<usize>,
    ix: usize,
) -> NodeLink
    requires within { IsWithin (record {
      nodes = nodes_of nodes.old;
      spine = spine.now;
      cursor = cur;
    }) }
    requires few { ix < node_limit }
    ensures before { target_of result ≡ follower (nodes_of nodes.old) spine.now cur }
    ensures led { nodes_of nodes.new ≡ led_to ix spine.now cur (nodes_of nodes.old) }
{
    let link = NodeLink::to(Some(ix));
    match cur {
        Some(before) => mem::replace(&mut nodes[before].next, link),
        None => mem::replace(&mut nodes[parent(spine)].child, link),
    }
}

/// Returns the node entered last, or the root.
fn parent(spine: &[usize]) -> usize
    ensures { result ≡ innermost spine.now }
{
    match spine.last() {
        Some(&ix) => ix,
        None => 0,
    }
}
