//! Openers of math spans, and what closes a math span at a `$`.
ghost use Rattle.std.specs.Prelude.{◌≡◌, ◌<◌, None, Some, if◌then◌else◌, length, IfSome};
ghost use Rattle.markdown_spans.specs.Closers.{can_close, can_open, context_of, is_dollar};
ghost use Rattle.markdown_spans.specs.MathOpening.{display_closed, dollar_at, inline_closed};

use crate::span_closers::FoundMath;
use markdown_base::item::{Item, ItemBody};
use markdown_base::tree::Tree;

/// A `$` that can open a math span.
#[derive(Clone, Copy, Debug, PartialEq, Eq, Drop)]
pub struct MathOpener {
    /// The number of its node.
    pub number: usize,
    /// The byte offset after it.
    pub end: usize,
    /// Its brace context.
    pub context: usize,
    /// The number of the next node, if that is a `$`: then the opener is one of display math.
    pub second: Option<usize>,
}

/// Returns whether the body is a `$`.
fn is_dollar(body: ItemBody) -> bool
    ensures { result ≡ is_dollar body }
{
    matches!(body, ItemBody::MaybeMath(_, _, _))
}

/// Returns whether the body is a `$` that can close.
fn can_close(body: ItemBody) -> bool
    ensures { result ≡ can_close body }
{
    matches!(body, ItemBody::MaybeMath(_, true, _))
}

/// Returns the brace context of a `$` that can open; `None` for any other body.
fn opening_context(body: ItemBody) -> Option<usize>
    ensures { result ≡ (if can_open body then Some (context_of body) else None) }
{
    match body {
        ItemBody::MaybeMath(true, _, context) => Some(usize::from(context)),
        _ => None,
    }
}

/// Returns the number of the `$` that a link leads to; `None` if it leads to no `$`.
fn dollar_at(tree: &Tree<Item>, link: Option<usize>) -> Option<usize>
    requires { IfSome link (λ ix. ix < length tree.now.nodes) }
    ensures { result ≡ dollar_at tree.now.nodes link }
{
    match link {
        Some(ix) if is_dollar(tree.item(ix).body) => Some(ix),
        _ => None,
    }
}

impl MathOpener {
    ghost use Rattle.markdown_spans.specs.MathOpening.{closed_at, closed_by_first, opener_at, searched_from};

    /// Returns the opener at a node; `None` if the node is not a `$` that can open.
    pub fn of_node(tree: &Tree<Item>, ix: usize) -> Option<MathOpener>
        requires { ix < length tree.now.nodes }
        ensures { result ≡ opener_at tree.now.nodes ix }
    {
        let item = *tree.item(ix);
        let context = opening_context(item.body)?;
        Some(MathOpener {
            number: ix,
            end: item.end,
            context,
            second: dollar_at(tree, tree.next(ix)),
        })
    }

    /// Returns the link to the first node that is searched for a closer.
    pub fn searched_from(self, tree: &Tree<Item>) -> Option<usize>
        requires number { self.number < length tree.now.nodes }
        requires second { IfSome self.second (λ ix. ix < length tree.now.nodes) }
        ensures { result ≡ searched_from tree.now.nodes self }
    {
        match self.second {
            Some(second) => tree.next(second),
            None => tree.next(self.number),
        }
    }

    /// Returns what closes the span, given the first `$` of the opener's brace context, if there is one.
    pub fn close_by(self, tree: &Tree<Item>, first: Option<usize>) -> Option<FoundMath>
        requires { IfSome first (λ ix. ix < length tree.now.nodes) }
        ensures { result ≡ closed_by_first tree.now.nodes self first }
    {
        let ix = first?;
        self.close_at(tree, ix)
    }

    /// Returns what closes the span at a `$` of the opener's brace context; `None` if that `$` does not close it.
    pub fn close_at(self, tree: &Tree<Item>, ix: usize) -> Option<FoundMath>
        requires { ix < length tree.now.nodes }
        ensures { result ≡ closed_at tree.now.nodes self ix }
    {
        if self.second.is_none() {
            return close_inline(tree, self.end, ix);
        }
        close_display(tree, ix)
    }
}

/// Returns what closes inline math at a `$`: that `$`, if it can close and the span is not empty.
fn close_inline(tree: &Tree<Item>, opener_end: usize, ix: usize) -> Option<FoundMath>
    requires { ix < length tree.now.nodes }
    ensures { result ≡ inline_closed tree.now.nodes opener_end ix }
{
    let item = tree.item(ix);
    if can_close(item.body) && opener_end != item.start {
        Some(FoundMath {
            display: false,
            closer: ix,
            last: ix,
        })
    } else {
        None
    }
}

/// Returns what closes display math at a `$`: that `$` and the next item, if that is a `$` too.
fn close_display(tree: &Tree<Item>, ix: usize) -> Option<FoundMath>
    requires { ix < length tree.now.nodes }
    ensures { result ≡ display_closed tree.now.nodes ix }
{
    let last = dollar_at(tree, tree.next(ix))?;
    Some(FoundMath {
        display: true,
        closer: ix,
        last,
    })
}
