//! The paragraphs of tight lists (CommonMark 5.3).
ghost use Rattle.std.specs.Prelude.{◌≡◌, ℕ, ◌<◌, ◌≤◌, length, Some, IfSome};
ghost use Rattle.markdown_base.specs.Arena.{child_of};
ghost use Rattle.markdown_base.specs.ArenaForest.{links_of};
ghost use Rattle.markdown_base.specs.BlockTree.{item_at};
ghost use Rattle.markdown_builder.specs.Rising.{AreRising};
ghost use Rattle.markdown_builder.specs.Standing.{with_item};
ghost use Rattle.markdown_builder.specs.Tightness.{is_tight_list, IsInChain, IsInItemOf};
ghost use Rattle.markdown_builder.specs.TreeSteps.{Tightens, TightensList};
ghost use Rattle.markdown_builder.specs.TreeLevels.{tight_if_paragraph};
ghost use Rattle.markdown_builder.specs.TreeSteps.{is_paragraph};
ghost use Rattle.markdown_builder.specs.TreeSteps.{MakesTight, ChangesLaid};
ghost use Rattle.markdown_builder.specs.TreeLevels.{roots_tightened, items_tightened};

use markdown_base::item::{Item, ItemBody};
use markdown_base::tree::Tree;

/// Returns whether a body is that of a paragraph which is not tight.
fn is_paragraph(body: ItemBody) -> bool
    ensures { result ≡ is_paragraph body }
{
    match body {
        ItemBody::Paragraph => true,
        _ => false,
    }
}

/// Makes a node tight, if it is a paragraph.
fn tighten(tree: &mut Tree<Item>, number: usize)
    requires { number < length tree.old.nodes }
    ensures steps { (from : ℕ) → from ≤ number → Tightens from tree.old tree.new }
    ensures makes { MakesTight (λ p. p ≡ number) tree.old.nodes tree.new.nodes }
    ensures written { tree.new
        ≡ with_item tree.old number (tight_if_paragraph (item_at tree.old.nodes number)) }
{
    let item = *tree.item(number);
    if is_paragraph(item.body) {
        let tight = Item {
            start: item.start,
            end: item.end,
            body: ItemBody::TightParagraph,
        };
        tree.set_item(number, tight);
    }
}

/// Makes the paragraphs tight in a chain of siblings, from its first node on.
fn tighten_siblings(tree: &mut Tree<Item>, first: Option<usize>)
    requires rising { AreRising (links_of tree.old.nodes) }
    requires within { IfSome first (λ number. number < length tree.old.nodes) }
    ensures steps { (from : ℕ) → IfSome first (λ number. from ≤ number)
        → Tightens from tree.old tree.new }
    ensures makes { MakesTight (λ p.
        IsInChain tree.old.nodes first p) tree.old.nodes tree.new.nodes }
    ensures laid { ChangesLaid roots_tightened first tree.old.nodes tree.new.nodes }
{
    let mut link = first;
    'siblings: while let Some(number) = link {
        tighten(tree, number);
        link = tree.next(number);
    }
}

/// Makes the paragraphs tight that are directly in the items of a list.
fn tighten_items(tree: &mut Tree<Item>, list: usize)
    requires rising { AreRising (links_of tree.old.nodes) }
    requires within { list < length tree.old.nodes }
    ensures steps { Tightens list tree.old tree.new }
    ensures makes { MakesTight (λ p.
        IsInItemOf tree.old.nodes list p) tree.old.nodes tree.new.nodes }
    ensures laid { ChangesLaid items_tightened (child_of tree.old.nodes list)
        tree.old.nodes tree.new.nodes }
{
    let mut link = tree.child(list);
    'items: while let Some(item) = link {
        let first = tree.child(item);
        tighten_siblings(tree, first);
        link = tree.next(item);
    }
}

/// Returns whether a body is that of a tight list.
fn is_tight_list(body: ItemBody) -> bool
    ensures { result ≡ is_tight_list body }
{
    match body {
        ItemBody::List(tight, _, _) => tight,
        _ => false,
    }
}

/// Makes the paragraphs tight that are directly in the items of the list at the cursor, if it is a tight list.
pub fn tighten_list(tree: &mut Tree<Item>)
    requires { AreRising (links_of tree.old.nodes) }
    ensures { (list : ℕ) → tree.old.cursor ≡ Some list → TightensList list tree.old tree.new }
{
    if let Some(list) = tree.cur() {
        if is_tight_list(tree.item(list).body) {
            tighten_items(tree, list);
        }
    }
}
