//! Trees that are made, walked and changed by the calls of `Tree`.
use crate::block_rules::{Link, set_link};
use markdown_base::item::{Item, ItemBody};
use markdown_base::tree::Tree;
use markdown_test_helpers::rows::gives;
use markdown_test_helpers::trees::{append_block, item};
use std::alloc::{AllocError, Global};
use std::test::Fail;

/// Returns a tree with a paragraph, node 1, that contains two breaks, nodes 2 and 3, and with its cursor at the
/// paragraph.
fn two_breaks(alloc: Global) -> Result<Tree<Item>, AllocError> {
    let mut tree = Tree::new(alloc)?;
    let breaks = [
        item(0, 1, ItemBody::SoftBreak),
        item(1, 3, ItemBody::HardBreak(true)),
    ];
    append_block(&mut tree, item(0, 3, ItemBody::Paragraph), &breaks)?;
    Ok(tree)
}

/// Returns the first child of a node, or None without such a node.
fn child_of(tree: &Tree<Item>, ix: usize) -> Option<usize> {
    if ix < tree.len() {
        tree.child(ix)
    } else {
        None
    }
}

/// Returns the next sibling of a node, or None without such a node.
fn next_of(tree: &Tree<Item>, ix: usize) -> Option<usize> {
    if ix < tree.len() { tree.next(ix) } else { None }
}

fn item_of(tree: &Tree<Item>, ix: usize) -> Option<Item> {
    if ix < tree.len() {
        Some(*tree.item(ix))
    } else {
        None
    }
}

/// Enters the node at the cursor. Returns its number, or None without a node.
fn enter(tree: &mut Tree<Item>) -> Result<Option<usize>, AllocError> {
    match tree.cur() {
        Some(_) => Ok(Some(tree.push()?)),
        None => Ok(None),
    }
}

/// Moves the cursor from a node to its next sibling. Returns its number, or None without one.
fn move_on(tree: &mut Tree<Item>, ix: usize) -> Option<usize> {
    if ix < tree.len() {
        tree.next_sibling(ix)
    } else {
        None
    }
}

#[test]
fn a_tree_is_built(rt: HostRuntime) -> Result<(), Fail> {
    let tree = two_breaks(rt.alloc())?;
    let links = [child_of(&tree, 0), child_of(&tree, 1), next_of(&tree, 2)];
    let last = item_of(&tree, 3);
    drop(tree);
    gives("links", links, [Some(1), Some(2), Some(3)])?;
    gives(
        "the last item",
        last,
        Some(item(1, 3, ItemBody::HardBreak(true))),
    )
}

/// Enters the paragraph, goes to the second break, leaves the paragraph and then the root, goes back to the first node, and
/// stops. Returns what each call returned, or where the cursor then was.
fn walk(tree: &mut Tree<Item>) -> Result<[Option<usize>; 10], AllocError> {
    let start = tree.cur();
    let entered = enter(tree)?;
    let first = tree.cur();
    let above = tree.peek_up();
    let depth = Some(tree.walk_spine().len());
    let second = move_on(tree, 2);
    let left = tree.pop();
    let outside = tree.pop();
    tree.reset();
    let again = tree.cur();
    tree.stop();
    Ok([
        start,
        entered,
        first,
        above,
        depth,
        second,
        left,
        outside,
        again,
        tree.cur(),
    ])
}

#[test]
fn a_tree_is_walked(rt: HostRuntime) -> Result<(), Fail> {
    let mut tree = two_breaks(rt.alloc())?;
    let walked = walk(&mut tree);
    drop(tree);
    let [one, two, three] = [Some(1), Some(2), Some(3)];
    let wanted = [one, one, two, one, one, three, one, None, one, None];
    gives("a walk", walked?, wanted)
}

/// Creates a node, and links it after the second break. Makes the paragraph begin with the second break, which becomes a line
/// of HTML. Returns the new node's number.
fn write(tree: &mut Tree<Item>) -> Result<usize, AllocError> {
    let made = tree.create_node(item(0, 0, ItemBody::Rule))?;
    set_link(tree, 3, Link::Next, Some(4));
    set_link(tree, 1, Link::Child, Some(3));
    if 3 < tree.len() {
        tree.set_item(3, item(3, 3, ItemBody::Html));
    }
    Ok(made)
}

#[test]
fn a_tree_is_written(rt: HostRuntime) -> Result<(), Fail> {
    let mut tree = two_breaks(rt.alloc())?;
    let made = write(&mut tree);
    let links = (next_of(&tree, 3), child_of(&tree, 1));
    let html = item_of(&tree, 3);
    drop(tree);
    gives("the new node", made?, 4)?;
    gives("links", links, (Some(4), Some(3)))?;
    gives("the new item", html, Some(item(3, 3, ItemBody::Html)))
}

/// Returns a tree of two paragraphs with a rule that is appended between them, and the rule's number.
fn between(alloc: Global) -> Result<(Tree<Item>, usize), AllocError> {
    let mut tree = Tree::new(alloc)?;
    tree.append(item(0, 1, ItemBody::Paragraph))?;
    tree.append(item(2, 3, ItemBody::Paragraph))?;
    tree.reset();
    let appended = tree.append(item(1, 2, ItemBody::Rule))?;
    Ok((tree, appended))
}

#[test]
fn an_append_keeps_what_stood_there(rt: HostRuntime) -> Result<(), Fail> {
    let (tree, appended) = between(rt.alloc())?;
    let links = (next_of(&tree, 1), next_of(&tree, 3));
    drop(tree);
    gives("the appended node", appended, 3)?;
    gives("links", links, (Some(3), Some(2)))
}
