//! Wikilinks in a tree: the nodes of a wikilink's body, and those that it shows.
ghost use Rattle.std.specs.Prelude.{◌≡◌, ◌<◌, Some, IfSome, length};
ghost use Rattle.markdown_base.specs.Arena.{sibling_of};
ghost use Rattle.markdown_base.specs.BlockTree.{item_at};
ghost use Rattle.markdown_brackets.specs.ChainAhead.{IsChain};
ghost use Rattle.markdown_brackets.specs.WikilinkNodes.{body_start, unless_is};
ghost use Rattle.markdown_brackets.specs.WikilinkView.{shown_view};
ghost use Rattle.markdown_brackets.specs.StandsAt.{shown_in, shown_from_node};

use crate::items_ahead::first_past;
use crate::wikilink::Shown;
use markdown_base::item::Item;
use markdown_base::tree::Tree;

/// What a wikilink shows, in nodes.
#[derive(Clone, Copy, Debug, PartialEq, Eq, Drop)]
pub enum ShownNodes {
    /// A Text over this byte range, in the first node of the body.
    Over {
        node: usize,
        start: usize,
        end: usize,
    },
    /// The part of the body from the byte offset `at` on, which begins in this node.
    From {
        node: usize,
        at: usize,
    },
}

// Returns the next sibling of a node, unless that is the `]`.
fn next_before(tree: &Tree<Item>, ix: usize, closer: usize) -> Option<usize>
    requires { ix < length tree.now.nodes }
    ensures value { result ≡ unless_is closer (sibling_of tree.now.nodes ix) }
    ensures within { IfSome result (λ next. next < length tree.now.nodes) }
{
    match tree.next(ix) {
        Some(next) if next != closer => Some(next),
        _ => None,
    }
}

/// Returns the first node of a wikilink's body: the second one after its opener, if both precede the `]`.
pub(crate) fn body_of(tree: &Tree<Item>, opener: usize, closer: usize) -> Option<usize>
    requires { opener < length tree.now.nodes }
    ensures value { result ≡ body_start tree.now.nodes opener closer }
    ensures within { IfSome result (λ first. first < length tree.now.nodes) }
{
    let second = next_before(tree, opener, closer)?;
    next_before(tree, second, closer)
}

// Returns the part of the body from the byte offset `at` on, which begins in this node; `None` if that is the `]`.
fn from_node(node: Option<usize>, closer: usize, at: usize) -> Option<ShownNodes>
    ensures { result ≡ shown_from_node closer at node }
{
    match node {
        Some(node) if node != closer => Some(ShownNodes::From { node, at }),
        _ => None,
    }
}

/// Returns what a wikilink shows of its body, which begins with the node `first` and ends where the `]` starts; `None` if
/// nothing of it precedes the `]`.
pub(crate) fn find_shown(
    tree: &Tree<Item>,
    first: usize,
    closer: usize,
    shown: Shown,
) -> Option<ShownNodes>
    requires chain { IsChain tree.now.nodes (Some first) }
    requires within { first < length tree.now.nodes }
    requires closes { closer < length tree.now.nodes }
    ensures { result ≡ shown_in tree.now.nodes first closer (shown_view shown)
        (item_at tree.now.nodes first).start (item_at tree.now.nodes closer).start }
{
    match shown {
        Shown::Name => Some(ShownNodes::Over {
            node: first,
            start: tree.item(first).start,
            end: tree.item(closer).start,
        }),
        Shown::Nothing(at) => Some(ShownNodes::Over {
            node: first,
            start: at,
            end: at,
        }),
        Shown::From(at) => from_node(first_past(tree, Some(first), at), closer, at),
    }
}
