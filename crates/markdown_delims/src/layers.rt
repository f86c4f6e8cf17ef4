//! Characters of an opener become nodes around what follows them.
ghost use Rattle.std.specs.Prelude.{◌≡◌, ◌+◌, ◌<◌, length};
ghost use Rattle.markdown_base.specs.BlockTree.{item_at};
ghost use Rattle.markdown_delims.specs.Enclosing.{CanEnclose, EnclosesAll};

use crate::extensions::Extensions;
use crate::nodes::put_node;
use crate::run::Characters;
use markdown_base::item::{Item, ItemBody};
use markdown_base::tree::Tree;

/// Returns an item with the range from one node's item to another's.
fn item_over(tree: &Tree<Item>, opener: usize, closer: usize, body: ItemBody) -> Item
    requires opener { opener < length tree.now.nodes }
    requires closer { closer < length tree.now.nodes }
    ensures { result
        ≡ record {
          start = (item_at tree.now.nodes opener).start;
          end = (item_at tree.now.nodes closer).end;
          body = body;
        } }
{
    let start = tree.item(opener).start;
    let end = tree.item(closer).end;
    Item { start, end, body }
}

/// Makes the last characters of an opener, as nodes, enclose what follows them, with as many of the first characters of
/// a closer: from the inside out, two at a time, and a last one alone. What follows those of the closer follows the
/// outermost node. Returns that node's number, and the link to what follows it.
pub fn enclose(
    tree: &mut Tree<Item>,
    extensions: Extensions,
    opener: Characters,
    closer: Characters,
) -> (usize, Option<usize>)
    requires some_open { 0 < opener.count }
    requires some_close { 0 < closer.count }
    requires stands { CanEnclose extensions opener closer tree.old }
    ensures { EnclosesAll extensions opener closer tree.old tree.new result.0 result.1 }
{
    let delimiter = opener.run.delimiter;
    let mut opener = opener;
    let mut closer = closer;
    let mut left = opener.count.min(closer.count);
    let mut inner = tree.next(opener.number + (opener.count - 1));
    'layers: while left > 2 {
        let root = opener.number + (opener.count - 2);
        let item = item_over(
            tree,
            root,
            closer.number + 1,
            extensions.layer_of_two(delimiter),
        );
        put_node(tree, root, item, inner, None);
        inner = Some(root);
        opener.count -= 2;
        closer.number += 2;
        closer.count -= 2;
        left -= 2;
    }
    if left == 2 {
        let root = opener.number + (opener.count - 2);
        let end = closer.number + 1;
        let item = item_over(tree, root, end, extensions.layer_of_two(delimiter));
        let rest = tree.next(end);
        put_node(tree, root, item, inner, rest);
        (root, rest)
    } else {
        let root = opener.number + (opener.count - 1);
        let item = item_over(
            tree,
            root,
            closer.number,
            extensions.layer_of_one(delimiter),
        );
        let rest = tree.next(closer.number);
        put_node(tree, root, item, inner, rest);
        (root, rest)
    }
}
