//! Trees made by hand, from items that are constants: a test that calls a function for each item takes longer to prove.
use markdown_base::item::{Item, ItemBody};
use markdown_base::tree::Tree;
use markdown_test_helpers::trees::{item, tree_of};
use std::alloc::{AllocError, Global};

/// An item: its depth below the root, its range and its body.
pub type Placed = (usize, usize, usize, ItemBody);

/// The body of a text.
pub const TEXT: ItemBody = ItemBody::Text {
    backslash_escaped: false,
};

/// Returns a tree of these items, which are in preorder.
pub fn tree_of_placed(alloc: Global, placed: &[Placed]) -> Result<Tree<Item>, AllocError> {
    let mut outline = Vec::new(alloc);
    for &(depth, start, end, body) in placed {
        outline.push((depth, item(start, end, body)))?;
    }
    tree_of(alloc, &outline)
}
