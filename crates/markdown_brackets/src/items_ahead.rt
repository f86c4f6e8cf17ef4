//! The items of a chain of a tree, from a link on.
ghost use Rattle.std.specs.Prelude.{◌≡◌, ◌<◌, IfSome, length};
ghost use Rattle.std.specs.Option.{option_and_then, option_map};
ghost use Rattle.markdown_base.specs.Arena.{sibling_of};
ghost use Rattle.markdown_base.specs.ArenaForest.{links_of, forest_at};
ghost use Rattle.markdown_base.specs.BlockTree.{item_at};
ghost use Rattle.markdown_base.specs.Forest.{first_root};
ghost use Rattle.markdown_brackets.specs.ChainAhead.{IsChain, IsChain-prop, numbers_past, reaches_closer};

use crate::items_after::ItemsAfter;
use crate::reference::is_closing_bracket;
use markdown_base::item::Item;
use markdown_base::tree::Tree;

/// Returns the first node, from the link `first` on, whose item ends after a byte offset.
pub(crate) fn first_past(tree: &Tree<Item>, first: Option<usize>, byte: usize) -> Option<usize>
    requires { IsChain tree.now.nodes first }
    ensures chain { IsChain tree.now.nodes result }
    ensures value { forest_at (links_of tree.now.nodes) result
        ≡ numbers_past tree.now.nodes byte (forest_at (links_of tree.now.nodes) first) }
    ensures first { result
        ≡ first_root (numbers_past tree.now.nodes byte
        (forest_at (links_of tree.now.nodes) first)) }
    ensures within { IfSome result (λ ix. ix < length tree.now.nodes) }
{
    let mut at = first;
    'chain: while let Some(ix) = at {
        if tree.item(ix).end > byte {
            return Some(ix);
        }
        at = tree.next(ix);
    }
    None
}

/// Returns the item that a link leads to.
pub(crate) fn linked_item(tree: &Tree<Item>, link: Option<usize>) -> Option<Item>
    requires { IfSome link (λ ix. ix < length tree.now.nodes) }
    ensures { result ≡ option_map (item_at tree.now.nodes) link }
{
    match link {
        Some(ix) => Some(*tree.item(ix)),
        None => None,
    }
}

/// Returns the link to the next sibling of the node that a link leads to.
pub(crate) fn link_after(tree: &Tree<Item>, link: Option<usize>) -> Option<usize>
    requires { IfSome link (λ ix. ix < length tree.now.nodes) }
    ensures value { result ≡ option_and_then (sibling_of tree.now.nodes) link }
    ensures within { IfSome result (λ ix. ix < length tree.now.nodes) }
{
    match link {
        Some(ix) => tree.next(ix),
        None => None,
    }
}

/// Returns whether the first item, from the link `first` on, that ends at the byte offset `end` or later is a `]` that
/// ends there.
pub(crate) fn reaches_closer(tree: &Tree<Item>, first: Option<usize>, end: usize) -> bool
    requires chain { IsChain tree.now.nodes first }
    requires some { 0 < end }
    ensures { result ≡ reaches_closer tree.now.nodes end first }
{
    match first_past(tree, first, end - 1) {
        Some(ix) => is_closing_bracket(tree.item(ix).body) && tree.item(ix).end == end,
        None => false,
    }
}

/// The items of a chain from a link on, without those that a call has passed already.
#[derive(Drop)]
pub(crate) struct ItemsAhead<'r> {
    pub(crate) tree: &'r Tree<Item>,
    pub(crate) next: Option<usize>,
    ghost chain: { IsChain tree.now.nodes next } by { IsChain-prop tree.now.nodes next },
}

impl<'r> ItemsAfter for ItemsAhead<'r> {
    ghost use Rattle.markdown_brackets.specs.ChainAhead.{starts_from};

    ghost starts = { λ items at. starts_from items.tree.now.nodes items.next at };

    fn start_of_first_past(&mut self, at: usize) -> Option<usize> {
        self.next = first_past(self.tree, self.next, at);
        match self.next {
            Some(ix) => Some(self.tree.item(ix).start),
            None => None,
        }
    }
}
