//! The kinds of items of a chain.
ghost use Rattle.std.specs.Prelude.{◌≡◌, ◌||◌, ◌&&◌};
ghost use Rattle.markdown_base.specs.Item.{is_open, is_inline, is_tight_paragraph};

use markdown_base::item::{Item, ItemBody};
use markdown_base::tree::Tree;

/// Which kinds of items a chain has.
#[derive(Clone, Copy, Debug, PartialEq, Eq, Drop)]
pub struct ChainKinds {
    /// Whether some item is open.
    pub any_open: bool,
    /// Whether all items are inline.
    pub only_inline: bool,
    /// Whether some item is a tight paragraph.
    pub any_tight: bool,
}

impl ChainKinds {
    ghost use Rattle.markdown_base.specs.BlockTree.{trees_at};
    ghost use Rattle.markdown_blocks.specs.NodeRules.{LeadsOn, Tells};

    /// Returns the kinds with one more item.
    fn with(self, body: ItemBody) -> ChainKinds
        ensures any_open { result.any_open ≡ (self.any_open || is_open body) }
        ensures only_inline { result.only_inline ≡ (self.only_inline && is_inline body) }
        ensures any_tight { result.any_tight ≡ (self.any_tight || is_tight_paragraph body) }
    {
        ChainKinds {
            any_open: self.any_open || body.is_open(),
            only_inline: self.only_inline && body.is_inline(),
            any_tight: self.any_tight || body.is_tight_paragraph(),
        }
    }

    /// Returns the kinds of items of the chain that begins at a link.
    pub fn of_chain(tree: &Tree<Item>, first: Option<usize>) -> ChainKinds
        requires { LeadsOn tree.now.nodes first }
        ensures { Tells result (trees_at tree.now.nodes first) }
    {
        let mut kinds = ChainKinds {
            any_open: false,
            only_inline: true,
            any_tight: false,
        };
        let mut link = first;
        'chain: while let Some(ix) = link {
            kinds = kinds.with(tree.item(ix).body);
            link = tree.next(ix);
        }
        kinds
    }
}
