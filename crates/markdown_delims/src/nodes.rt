//! Writes of nodes of a tree: of a whole node, of its item's body only, or of its next sibling only.
ghost use Rattle.std.specs.Prelude.{◌≡◌, ◌<◌, IfSome, length};
ghost use Rattle.markdown_base.specs.Arena.{child_of};
ghost use Rattle.markdown_base.specs.BlockTree.{item_at};
ghost use Rattle.markdown_delims.specs.Views.{Wrote, WroteBody};

use markdown_base::item::{Item, ItemBody};
use markdown_base::tree::Tree;

/// Replaces the item and the links of a node.
pub fn put_node(
    tree: &mut Tree<Item>,
    ix: usize,
    item: Item,
    child: Option<usize>,
    next: Option<usize>,
)
    requires node { ix < length tree.old.nodes }
    requires child { IfSome child (λ below. below < length tree.old.nodes) }
    requires next { IfSome next (λ after. after < length tree.old.nodes) }
    ensures { Wrote tree.old tree.new ix item child next }
{
    tree.set_item(ix, item);
    tree.set_child(ix, child);
    tree.set_next(ix, next);
}

/// Replaces the body of a node's item.
pub fn put_body(tree: &mut Tree<Item>, ix: usize, body: ItemBody)
    requires { ix < length tree.old.nodes }
    ensures { WroteBody tree.old tree.new ix body }
{
    let item = *tree.item(ix);
    tree.set_item(
        ix,
        Item {
            start: item.start,
            end: item.end,
            body,
        },
    );
}

/// Replaces the next sibling of a node.
pub fn lead_on(tree: &mut Tree<Item>, ix: usize, next: Option<usize>)
    requires node { ix < length tree.old.nodes }
    requires next { IfSome next (λ after. after < length tree.old.nodes) }
    ensures { Wrote tree.old tree.new ix (item_at tree.old.nodes ix) (child_of tree.old.nodes ix)
        next }
{
    tree.set_next(ix, next);
}
