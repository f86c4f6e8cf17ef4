//! Items and trees made by hand, and trees as texts.
use markdown_base::item::{Item, ItemBody};
use markdown_base::tree::Tree;
use std::alloc::{AllocError, Global};

/// Returns an item with this range and body.
pub fn item(start: usize, end: usize, body: ItemBody) -> Item {
    Item { start, end, body }
}

/// Returns a text with this range, which no backslash precedes.
pub fn text(start: usize, end: usize) -> Item {
    item(
        start,
        end,
        ItemBody::Text {
            backslash_escaped: false,
        },
    )
}

/// Returns a character of a delimiter run, which has `count` characters from this one on.
pub fn delimiter(start: usize, count: u32, opens: bool, closes: bool) -> Item {
    item(
        start,
        start.saturating_add(1),
        ItemBody::MaybeEmphasis(count, opens, closes),
    )
}

/// Items in preorder, each with its depth below the root.
pub type Outline<'x> = &'x [(usize, Item)];

/// Returns a tree of these items.
pub fn tree_of(alloc: Global, outline: Outline<'_>) -> Result<Tree<Item>, AllocError> {
    let mut tree = Tree::new(alloc)?;
    let mut depth = 0;
    for (wanted, item) in outline {
        append_at(&mut tree, depth, *wanted, *item)?;
        depth = *wanted;
    }
    Ok(tree)
}

/// An item as a row of a table: its depth below the root, its range and its body.
pub type Node = (usize, usize, usize, ItemBody);

/// The body of a text that no backslash precedes.
pub const TEXT: ItemBody = ItemBody::Text {
    backslash_escaped: false,
};

/// Returns a tree of these items in preorder.
pub fn tree_of_nodes(alloc: Global, nodes: &[Node]) -> Result<Tree<Item>, AllocError> {
    let mut tree = Tree::new(alloc)?;
    let mut depth = 0;
    for &(wanted, start, end, body) in nodes {
        append_at(&mut tree, depth, wanted, Item { start, end, body })?;
        depth = wanted;
    }
    Ok(tree)
}

/// Appends an item at a depth, where the cursor is at the given one.
fn append_at(
    tree: &mut Tree<Item>,
    depth: usize,
    wanted: usize,
    item: Item,
) -> Result<usize, AllocError> {
    if wanted > depth {
        if let Some(_above) = tree.cur() {
            tree.push()?;
        }
    }
    for _ in wanted..depth {
        tree.pop();
    }
    tree.append(item)
}

/// Returns a tree of `count` copies of an item, each in the one before it.
pub fn nested(alloc: Global, item: Item, count: usize) -> Result<Tree<Item>, AllocError> {
    let mut tree = Tree::new(alloc)?;
    for _ in 0..count {
        tree.append(item)?;
        tree.push()?;
    }
    Ok(tree)
}

/// Appends a block with items in it.
pub fn append_block(tree: &mut Tree<Item>, block: Item, inside: &[Item]) -> Result<(), AllocError> {
    tree.append(block)?;
    tree.push()?;
    for item in inside {
        tree.append(*item)?;
    }
    tree.pop();
    Ok(())
}

/// Appends an item with its depth, a text and its range.
fn push_item(
    alloc: Global,
    list: &mut String,
    depth: usize,
    said: &str,
    item: Item,
) -> Result<(), AllocError> {
    let row = format!(in alloc; "{depth} {said} {}..{};", item.start, item.end)?;
    list.push_str(row.as_str())
}

/// Appends the items of a tree in preorder, each with its depth, the text that `say` returns for its
/// body, and its range. The walk ends after 10,000 steps.
pub fn push_items<F: Fn(Global, ItemBody) -> Result<String, AllocError> + Drop>(
    alloc: Global,
    list: &mut String,
    tree: &mut Tree<Item>,
    say: F,
) -> Result<(), AllocError>
    requires callable { F.IsAlwaysCallable say }
{
    tree.reset();
    for _ in 0..10000 {
        if let Some(ix) = tree.cur() {
            let item = *tree.item(ix);
            let depth = tree.walk_spine().len();
            let said = say(alloc, item.body)?;
            let done = push_item(alloc, list, depth, said.as_str(), item);
            drop(said);
            done?;
            tree.push()?;
        } else if let Some(ix) = tree.pop() {
            tree.next_sibling(ix);
        } else {
            break;
        }
    }
    Ok(())
}
