//! Rule 1 of a block result, reached once: the nodes that the links below the root lead to.
ghost use Rattle.std.specs.Prelude.{◌≡◌, ◌<◌, length, IfOk, MatchOption};
ghost use Rattle.markdown_base.specs.ArenaForest.{numbers_below};
ghost use Rattle.markdown_base.specs.Forest.{preorder};
ghost use Rattle.markdown_base.specs.WellFormed.{IsReachedOnce};

use super::seen::insert;
use markdown_base::item::Item;
use markdown_base::tree::Tree;
use std::alloc::{AllocError, Global};

/// Returns the numbers of the nodes below the root in preorder, where the tree keeps rule 1, reached once; `None` where
/// it is not finite, or a node is reached twice. Fails if an allocation fails.
pub fn reached_once(alloc: Global, tree: &Tree<Item>) -> Result<Option<Vec<usize>>, AllocError>
    ensures rooted { IfOk result (λ _. 0 < length tree.now.nodes) }
    ensures found { IfOk result (λ found. MatchOption found
        (IsReachedOnce tree.now.nodes → ⊥)
        (λ order. IsReachedOnce tree.now.nodes
        × (order.items ≡ preorder (numbers_below tree.now.nodes)))) }
{
    let mut seen = vec![in alloc; false; tree.len()]?;
    let _root = insert(&mut seen, 0);
    let mut order = Vec::new(alloc);
    let mut pending = Vec::new(alloc);
    pending.push(tree.child(0))?;
    'reach: while let Some(link) = pending.pop() {
        if let Some(ix) = link {
            if !insert(&mut seen, ix) {
                return Ok(None);
            }
            order.push(ix)?;
            pending.push(tree.next(ix))?;
            pending.push(tree.child(ix))?;
        }
    }
    Ok(Some(order))
}
