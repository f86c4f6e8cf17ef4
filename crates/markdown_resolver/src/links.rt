//! What a closing bracket becomes is put in place: into the node of its opener, over what is inside the brackets. Items
//! that end at or before its end leave the chain, and the first that is left loses its bytes before it.
ghost use Rattle.std.specs.Prelude.{◌≡◌, ◌<◌, ◌∷◌, ◌++◌, [], ℕ, List, length, Some, None};
ghost use Rattle.markdown_base.specs.BlockTree.{item_at};
ghost use Rattle.markdown_document.specs.Tables.{Tables};
ghost use Rattle.markdown_document.specs.NamedEntries.{HasGrown, Named, times_named};
ghost use Rattle.markdown_resolver.specs.ClosedOver.{CanClose, CanPutMark, CanPutOver, CanShow, IsEnclosed, PutsOver};
ghost use Rattle.markdown_resolver.specs.ClosedOver.{after_mark, in_place_of, last_inside, over_inside, over_shown};
ghost use Rattle.markdown_resolver.specs.ClosedOver.{over_text};
ghost use Rattle.markdown_resolver.specs.Rewritten.{CanPut};

use crate::continuation::Continuation;
use crate::found::{begin_from, first_past, write_node};
use markdown_base::item::Item;
use markdown_base::tree::Tree;

/// The nodes of an opener and of the `]` that closes it.
#[derive(Clone, Copy, Drop)]
pub struct Brackets {
    pub opener: usize,
    pub closer: usize,
}

/// Moves the nodes between an opener and its closer, of which `last` is the last, below the opener, which the closer
/// then follows.
fn enclose(tree: &mut Tree<Item>, opener: usize, last: usize, closer: usize)
    requires opener { opener < length tree.old.nodes }
    requires last { last < length tree.old.nodes }
    requires closer { closer < length tree.old.nodes }
    ensures enclosed { IsEnclosed tree.old.nodes tree.new.nodes opener last closer }
    ensures place { tree.new ≡ record tree.old { nodes = tree.new.nodes } }
{
    tree.set_next(last, None);
    let inside = tree.next(opener);
    tree.set_child(opener, inside);
    tree.set_next(opener, Some(closer));
}

/// Puts a link or an image into the node of its opener, over what is inside. Returns the rest of the chain, which is at
/// byte offset `next_byte` or later.
pub fn put_link(
    tree: &mut Tree<Item>,
    brackets: Brackets,
    item: Item,
    next_byte: usize,
) -> Continuation
    requires { (source : List ℕ) × (tables : Tables) × (tables' : Tables) × (inside : List ℕ)
        × HasGrown tables tables'
        × CanClose source tables tree.old.nodes brackets.opener brackets.closer inside next_byte
        × CanPutOver source tables tables' tree.old.nodes brackets.opener item next_byte }
    ensures puts { (source : List ℕ) (tables tables' : Tables) (inside : List ℕ)
        → HasGrown tables tables'
        → CanClose source tables tree.old.nodes brackets.opener brackets.closer inside next_byte
        → CanPutOver source tables tables' tree.old.nodes brackets.opener item next_byte
        → PutsOver source brackets.opener brackets.closer inside
        (over_inside source tables' item) next_byte
        (brackets.opener ∷ []) result
        tree.old.nodes tree.new.nodes tables tables' }
    ensures place { tree.new ≡ record tree.old { nodes = tree.new.nodes } }
{
    let rest = first_past(tree, tree.next(brackets.closer), next_byte);
    let last = last_before(tree, brackets.opener, brackets.closer);
    enclose(tree, brackets.opener, last, brackets.closer);
    write_node(tree, brackets.opener, item, rest.next);
    begin_from(tree, rest.next, next_byte);
    rest
}

/// Puts a footnote reference, which ends where its closer does, into the node of its opener. What was inside leaves the
/// chain. Returns the rest of the chain.
pub fn put_footnote(tree: &mut Tree<Item>, brackets: Brackets, item: Item) -> Continuation
    requires { (source : List ℕ) × (tables : Tables) × (tables' : Tables) × (inside : List ℕ)
        × HasGrown tables tables'
        × CanClose source tables tree.old.nodes brackets.opener brackets.closer inside item.end
        × CanPutOver source tables tables' tree.old.nodes brackets.opener item item.end
        × (item.end ≡ (item_at tree.old.nodes brackets.closer).end) }
    ensures puts { (source : List ℕ) (tables tables' : Tables) (inside : List ℕ)
        → HasGrown tables tables'
        → CanClose source tables tree.old.nodes brackets.opener brackets.closer inside item.end
        → CanPutOver source tables tables' tree.old.nodes brackets.opener item item.end
        → item.end ≡ (item_at tree.old.nodes brackets.closer).end
        → PutsOver source brackets.opener brackets.closer inside
        (in_place_of source tables' item) item.end
        (brackets.opener ∷ []) result
        tree.old.nodes tree.new.nodes tables tables' }
    ensures place { tree.new ≡ record tree.old { nodes = tree.new.nodes } }
{
    let rest = first_past(tree, tree.next(brackets.closer), item.end);
    write_node(tree, brackets.opener, item, rest.next);
    begin_from(tree, rest.next, item.end);
    rest
}

/// Puts a Text for the `!` of an opener into its node, and a footnote reference, which ends where its closer does, into
/// the closer's node. What was inside leaves the chain. Returns the rest of the chain.
pub fn put_image_footnote(
    tree: &mut Tree<Item>,
    brackets: Brackets,
    mark: Item,
    item: Item,
) -> Continuation
    requires { (source : List ℕ) × (tables : Tables) × (tables' : Tables) × (inside : List ℕ)
        × HasGrown tables tables'
        × CanClose source tables tree.old.nodes brackets.opener brackets.closer inside item.end
        × CanPutMark source tables tables' tree.old.nodes brackets.opener brackets.closer
        mark item }
    ensures puts { (source : List ℕ) (tables tables' : Tables) (inside : List ℕ)
        → HasGrown tables tables'
        → CanClose source tables tree.old.nodes brackets.opener brackets.closer inside item.end
        → CanPutMark source tables tables' tree.old.nodes brackets.opener brackets.closer mark item
        → PutsOver source brackets.opener brackets.closer inside
        (after_mark source tables' mark item) item.end
        (brackets.opener ∷ brackets.closer ∷ [])
        result tree.old.nodes tree.new.nodes tables tables' }
    ensures place { tree.new ≡ record tree.old { nodes = tree.new.nodes } }
{
    let rest = first_past(tree, tree.next(brackets.closer), item.end);
    write_node(tree, brackets.opener, mark, Some(brackets.closer));
    write_node(tree, brackets.closer, item, rest.next);
    begin_from(tree, rest.next, item.end);
    rest
}

/// Returns the node before `closer` in the chain from its opener on, which is before it; the opener itself where
/// nothing is inside.
pub(crate) fn last_before(tree: &Tree<Item>, opener: usize, closer: usize) -> usize
    requires { (source : List ℕ) × (tables : Tables) × (inside : List ℕ) × (byte : ℕ)
        × CanClose source tables tree.now.nodes opener closer inside byte }
    ensures { (source : List ℕ) (tables : Tables) (inside : List ℕ) (byte : ℕ)
        → CanClose source tables tree.now.nodes opener closer inside byte
        → last_inside opener inside ≡ result }
{
    let mut last = opener;
    'inside: while let Some(next) = tree.next(last) {
        if next == closer {
            return last;
        }
        last = next;
    }
    last
}

/// Puts a wikilink that shows its name into the node of its opener, with a Text for the name below it, in the node
/// `first`. All else that was inside leaves the chain. Returns the rest of the chain.
pub(crate) fn put_wikilink_name(
    tree: &mut Tree<Item>,
    brackets: Brackets,
    first: usize,
    item: Item,
    inside: Item,
) -> Continuation
    requires { (source : List ℕ) × (tables : Tables) × (tables' : Tables) × (nodes : List ℕ)
        × (skipped : List ℕ)
        × (shown : List ℕ) × HasGrown tables tables'
        × CanClose source tables tree.old.nodes brackets.opener brackets.closer nodes item.end
        × CanPutOver source tables tables' tree.old.nodes brackets.opener item item.end
        × CanPut source tables tables' inside
        × (nodes ≡ skipped ++ first ∷ shown) × ((n : Named) → times_named n inside.body ≡ 0) }
    ensures puts { (source : List ℕ) (tables tables' : Tables) (nodes skipped shown : List ℕ)
        → HasGrown tables tables'
        → CanClose source tables tree.old.nodes brackets.opener brackets.closer nodes item.end
        → CanPutOver source tables tables' tree.old.nodes brackets.opener item item.end
        → CanPut source tables tables' inside
        → nodes ≡ skipped ++ first ∷ shown → ((n : Named) → times_named n inside.body ≡ 0)
        → PutsOver source brackets.opener brackets.closer nodes
        (over_text source tables' item inside) item.end
        (brackets.opener ∷ []) result
        tree.old.nodes tree.new.nodes tables tables' }
    ensures place { tree.new ≡ record tree.old { nodes = tree.new.nodes } }
{
    let Brackets { opener, closer } = brackets;
    let rest = first_past(tree, tree.next(closer), item.end);
    tree.set_child(opener, Some(first));
    tree.set_child(first, None);
    write_node(tree, first, inside, None);
    write_node(tree, opener, item, rest.next);
    begin_from(tree, rest.next, item.end);
    rest
}

/// Puts a wikilink that shows what is inside it from byte offset `from` on, which begins in the node `first`, into the
/// node of its opener, with that below it. Returns the rest of the chain.
pub(crate) fn put_wikilink_shown(
    tree: &mut Tree<Item>,
    brackets: Brackets,
    first: usize,
    item: Item,
    from: usize,
) -> Continuation
    requires { (source : List ℕ) × (tables : Tables) × (tables' : Tables) × (nodes : List ℕ)
        × (skipped : List ℕ)
        × HasGrown tables tables'
        × CanClose source tables tree.old.nodes brackets.opener brackets.closer nodes item.end
        × CanPutOver source tables tables' tree.old.nodes brackets.opener item item.end
        × CanShow source tree.old.nodes nodes skipped first from }
    ensures puts { (source : List ℕ) (tables tables' : Tables) (nodes skipped : List ℕ)
        → HasGrown tables tables'
        → CanClose source tables tree.old.nodes brackets.opener brackets.closer nodes item.end
        → CanPutOver source tables tables' tree.old.nodes brackets.opener item item.end
        → CanShow source tree.old.nodes nodes skipped first from
        → PutsOver source brackets.opener brackets.closer nodes
        (over_shown source tables' item (length skipped) from) item.end
        (brackets.opener ∷ []) result tree.old.nodes tree.new.nodes tables tables' }
    ensures place { tree.new ≡ record tree.old { nodes = tree.new.nodes } }
{
    let Brackets { opener, closer } = brackets;
    let rest = first_past(tree, tree.next(closer), item.end);
    enclose(tree, opener, last_before(tree, opener, closer), closer);
    tree.set_child(opener, Some(first));
    begin_from(tree, Some(first), from);
    write_node(tree, opener, item, rest.next);
    begin_from(tree, rest.next, item.end);
    rest
}
