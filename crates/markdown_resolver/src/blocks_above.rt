//! The blocks above a chain, which determine its place.
ghost use Rattle.std.specs.Prelude.{◌≡◌, ◌≤◌, ◌<◌, ℕ, Bool, List, Option, false, length, map, take};
ghost use Rattle.markdown_base.specs.Arena.{Arena};
ghost use Rattle.markdown_base.specs.BlockTree.{item_at};
ghost use Rattle.markdown_base.specs.Syntax.{gfm_footnotes};
ghost use Rattle.markdown_base.specs.declared.item.Item.{Item};
ghost use Rattle.markdown_resolver.specs.BlocksAbove.{IsKnownAt, blocks_in, place_inside, up_to_block};
ghost use Rattle.markdown_resolver.specs.ChainPlace.{IsPlaceOf};
ghost use Rattle.markdown_resolver.specs.Chains.{AreAbove};

use markdown_base::item::Item;
use markdown_base::syntax::Syntax;
use markdown_base::tree::Tree;
use markdown_document::chain_place::ChainPlace;
use markdown_spans::prefixes::has_prefix;
use std::alloc::{AllocError, Global};
use std::marker::Model;

/// What a walk over a tree knows of the nodes that it has entered and not left, so that the place of a chain is found
/// without a walk over all that is above it.
#[derive(Drop)]
pub struct BlocksAbove {
    /// Whether footnotes are enabled, in GitHub's style.
    gfm_footnotes: bool,
    /// Those that have a part in the beginning of each line inside them, the outermost first.
    containers: Vec<Item>,
    /// Among how many of the nodes, from the outermost on, the innermost block was searched: not more than there are.
    /// Kept only where the last of these is no block: a chain directly in a block finds it at once.
    searched: usize,
    /// How many of these there are up to that block, it included: 0 where none is a block.
    block: usize,
}

/// Returns how many of the entered nodes of a tree there are up to the innermost block, that included: `searched` where
/// none but the first `searched` is a block.
fn up_to_block(tree: &Tree<Item>, searched: usize) -> usize
    requires above { (source : List ℕ) × (first : Option ℕ)
        × AreAbove source tree.now.nodes first tree.now.spine }
    requires searched { searched ≤ length tree.now.spine }
    ensures within { (searched ≤ result) × (result ≤ length tree.now.spine) }
    ensures none { result ≡ searched → up_to_block (map (item_at tree.now.nodes) tree.now.spine)
        ≡ up_to_block (take searched (map (item_at tree.now.nodes) tree.now.spine)) }
    ensures found { searched < result
        → up_to_block (map (item_at tree.now.nodes) tree.now.spine) ≡ result }
{
    let spine = tree.walk_spine();
    let mut count = spine.len();
    'outwards: while count > searched {
        if tree.item(spine[count - 1]).body.is_block() {
            break;
        }
        count -= 1;
    }
    count
}

/// Returns where the last of the first `count` entered nodes of a tree ends, and whether it is a cell of a table: the
/// text's end where `count` is 0.
fn end_at(tree: &Tree<Item>, count: usize, text_end: usize) -> (usize, bool)
    requires above { (source : List ℕ) × (first : Option ℕ)
        × AreAbove source tree.now.nodes first tree.now.spine }
    requires count { count ≤ length tree.now.spine }
    ensures { up_to_block (map (item_at tree.now.nodes) tree.now.spine) ≡ count
        → result ≡ place_inside (blocks_in (map (item_at tree.now.nodes) tree.now.spine))
        (text_end, false) }
{
    if count == 0 {
        return (text_end, false);
    }
    let block = *tree.item(tree.walk_spine()[count - 1]);
    (block.end, block.body.is_table_cell())
}

impl Model for BlocksAbove {
    ghost use Rattle.markdown_resolver.specs.BlocksAbove.{Above};

    ghost Value = { Above };

    ghost view = { λ b. record {
      gfm_footnotes = b.gfm_footnotes;
      containers = b.containers.items;
      searched = b.searched;
      block = b.block;
    } };
}

impl BlocksAbove {
    ghost use Rattle.std.specs.Prelude.{◌≡◌, ◌++◌, ◌∷◌, [], OnOk};
    ghost use Rattle.markdown_resolver.specs.BlocksAbove.{Above, IsKnownOf};

    /// Returns what is known before a walk: no node was entered.
    pub fn new(alloc: Global, syntax: Syntax) -> BlocksAbove
        ensures { IsKnownOf (gfm_footnotes syntax) [] result }
    {
        BlocksAbove {
            gfm_footnotes: syntax.gfm_footnotes(),
            containers: Vec::new(alloc),
            searched: 0,
            block: 0,
        }
    }

    /// Notes that an item was entered. After an error only `clear` may be called.
    #[inline(always)]
    pub fn enter(&mut self, item: Item) -> Result<(), AllocError>
        ensures entered { OnOk result ((gfm : Bool) (items : List Item)
            → IsKnownOf gfm items self.old → IsKnownOf gfm (items ++ item ∷ []) self.new) }
        ensures style { self.new.gfm_footnotes ≡ self.old.gfm_footnotes }
    {
        if has_prefix(item.body, self.gfm_footnotes) {
            self.containers.push(item)?;
        }
        Ok(())
    }

    /// Notes that the item that was entered last was left: `outer` nodes are left that were entered.
    #[inline(always)]
    pub fn leave(&mut self, item: Item, outer: usize)
        ensures left { (gfm : Bool) (items : List Item) → length items ≡ outer
            → IsKnownOf gfm (items ++ item ∷ []) self.old → IsKnownOf gfm items self.new }
        ensures style { self.new.gfm_footnotes ≡ self.old.gfm_footnotes }
    {
        if has_prefix(item.body, self.gfm_footnotes) {
            self.containers.pop();
        } else if outer < self.searched {
            if outer > self.block {
                self.searched = outer;
            } else {
                self.searched = 0;
                self.block = 0;
            }
        }
    }

    /// Notes that the walk is over.
    pub fn clear(&mut self)
        ensures { self.new ≡ record self.old { containers = []; searched = 0; block = 0 } }
    {
        self.containers.clear();
        self.searched = 0;
        self.block = 0;
    }

    /// Returns how many of the entered nodes of a tree there are up to the innermost block, that included: 0 where none is
    /// a block.
    pub fn up_to_innermost(&mut self, tree: &Tree<Item>) -> usize
        requires above { (source : List ℕ) × (first : Option ℕ)
            × AreAbove source tree.now.nodes first tree.now.spine }
        requires known { (gfm : Bool) × IsKnownAt gfm tree.now.nodes tree.now.spine self.old }
        ensures value { result ≡ up_to_block (map (item_at tree.now.nodes) tree.now.spine) }
        ensures known { (gfm : Bool) → IsKnownAt gfm tree.now.nodes tree.now.spine self.old
            → IsKnownAt gfm tree.now.nodes tree.now.spine self.new }
    {
        let entered = tree.walk_spine().len();
        let count = up_to_block(tree, self.searched);
        let block = if count > self.searched {
            count
        } else {
            self.block
        };
        if block < entered {
            self.searched = entered;
            self.block = block;
        }
        block
    }

    /// Returns the place of a chain below the entered nodes of a tree, of which `block` are up to the innermost block: where
    /// that ends, whether it is a cell of a table, and the containers that its lines begin with.
    pub fn place<'a>(
        &self,
        tree: &Tree<Item>,
        text: &'a str,
        syntax: Syntax,
        block: usize,
    ) -> ChainPlace<'a, '_>
        requires above { (first : Option ℕ)
            × AreAbove text.now tree.now.nodes first tree.now.spine }
        requires known { IsKnownAt (gfm_footnotes syntax) tree.now.nodes tree.now.spine
            self.now }
        requires block { block ≡ up_to_block (map (item_at tree.now.nodes) tree.now.spine) }
        ensures place { IsPlaceOf result tree.now }
        ensures text { result.text.now ≡ text.now }
        ensures syntax { result.syntax ≡ syntax }
    {
        let (block_end, in_table) = end_at(tree, block, text.as_bytes().len());
        ChainPlace {
            text,
            block_end,
            in_table,
            containers: &self.containers,
            syntax,
        }
    }
}
