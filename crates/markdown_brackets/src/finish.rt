//! The openers that still wait after a finished link, image, wikilink or footnote reference.
ghost use Rattle.std.specs.Prelude.{◌≡◌, ◌<◌, ℕ, List, length};
ghost use Rattle.markdown_brackets.specs.BracketDecision.{BracketContext, Becomes, Closing, Progress};
ghost use Rattle.markdown_brackets.specs.ClosingBracket.{put};
ghost use Rattle.markdown_brackets.specs.Decides.{EachOpener, StandsBefore};
ghost use Rattle.markdown_brackets.specs.DecisionView.{IsBecome};
ghost use Rattle.markdown_brackets.specs.Finish.{LeftRises, SplitsAs};
ghost use Rattle.markdown_brackets.specs.LeftList.{Entry};
ghost use Rattle.markdown_brackets.specs.HeldOpeners.{brackets_of, wikilinks_of};
ghost use Rattle.markdown_brackets.specs.Openers.{before};
ghost use Rattle.markdown_brackets.specs.SecondBracket.{leads_to, without_second};
ghost use Rattle.markdown_base.specs.Arena.{sibling_of};

use crate::chain_openers::ChainOpeners;
use crate::closing_bracket::ClosedBracket;
use markdown_base::item::Item;
use markdown_base::tree::Tree;

// Returns whether the next sibling of the node `ix` is `node`.
fn leads_to(tree: &Tree<Item>, ix: usize, node: usize) -> bool
    requires { ix < length tree.now.nodes }
    ensures { result ≡ leads_to (sibling_of tree.now.nodes ix) node }
{
    match tree.next(ix) {
        Some(next) => next == node,
        None => false,
    }
}

// Removes the wikilink openers from a node on, and the one whose second bracket is the node.
fn close_second(openers: &mut ChainOpeners, tree: &Tree<Item>, node: usize)
    requires { EachOpener (λ n. n < length tree.now.nodes) openers.old.wikilinks }
    ensures brackets { openers.new.brackets ≡ openers.old.brackets }
    ensures wikilinks { openers.new.wikilinks
        ≡ without_second tree.now.nodes node (before node openers.old.wikilinks) }
{
    openers.wikilinks.drop_from(node);
    let Some(nearest) = openers.wikilinks.nearest() else {
        return;
    };
    if leads_to(tree, nearest.node, node) {
        openers.close_wikilink(nearest.node);
    }
}

/// Removes the openers that no longer wait after a `]` became `found`; none if it became a Text. The tree is the one
/// that the decision read, before any change.
pub fn finish_bracket(openers: &mut ChainOpeners, tree: &Tree<Item>, found: &ClosedBracket<'_>)
    requires { EachOpener (λ n. n < length tree.now.nodes) openers.old.wikilinks }
    ensures { (w : BracketContext) (c : Closing ℕ) (closer : ℕ) (left : List (Entry ℕ))
        (becomes : Becomes ℕ) (p : Progress ℕ)
        → StandsBefore tree.now.nodes closer left c → LeftRises left → SplitsAs left becomes
        → IsBecome w becomes found.now
        → openers.old.brackets ≡ brackets_of left → openers.old.wikilinks ≡ wikilinks_of left
        → p.left ≡ left
        → (openers.new.brackets ≡ brackets_of (put w c becomes p).left)
        × (openers.new.wikilinks ≡ wikilinks_of (put w c becomes p).left) }
{
    match found {
        ClosedBracket::Text => {}
        ClosedBracket::Link { opener, .. } => {
            close_second(openers, tree, opener.node);
            openers.finish_link(*opener);
        }
        ClosedBracket::Footnote { opener, .. } => {
            close_second(openers, tree, opener.node);
            openers.finish_footnote(opener.node);
        }
        ClosedBracket::Wikilinked { opener, .. } => openers.finish_wikilink(opener.node),
    }
}
