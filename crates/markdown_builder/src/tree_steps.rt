//! The steps in which a builder changes its tree.
ghost use Rattle.std.specs.Prelude.{◌≡◌, ℕ, ◌+◌, ◌-◌, ◌<◌, ◌≤◌, ◌⊎◌, List, ◌++◌, ◌∷◌, [], Some, length, IfOk, OnErr};
ghost use Rattle.markdown_base.specs.declared.item.ItemBody.TheVariants as block;
ghost use Rattle.markdown_base.specs.ArenaChanges.{appended, changed_at};
ghost use Rattle.markdown_builder.specs.Standing.{entered, open_item, with_item};
ghost use Rattle.markdown_builder.specs.TreeSteps.{texts_appended, run_marked};
ghost use Rattle.markdown_builder.specs.declared.open_block.OpenBlock.{OpenBlock};

use crate::open_block::OpenBlock;
use markdown_base::cow_str::CowStr;
use markdown_base::index::CowIndex;
use markdown_base::item::{Item, ItemBody};
use markdown_base::tree::Tree;
use std::alloc::AllocError;

/// Returns a paragraph without content at a byte offset.
fn empty_paragraph(at: usize) -> Item
    ensures { result ≡ record { start = at; end = at; body = block.Paragraph } }
{
    Item {
        start: at,
        end: at,
        body: ItemBody::Paragraph,
    }
}

/// Appends an item at its start and enters it. Fails if an allocation fails; an empty paragraph may then have been
/// appended in its place.
fn go_into(tree: &mut Tree<Item>, item: Item) -> Result<(), AllocError>
    ensures entered { IfOk result (λ _. tree.new ≡ entered tree.old item) }
    ensures refused { OnErr result ((tree.new ≡ tree.old)
        ⊎ (tree.new ≡ appended tree.old (record {
          start = item.start;
          end = item.start;
          body = block.Paragraph;
        }))) }
{
    let number = tree.append(item)?;
    match tree.push() {
        Ok(_) => Ok(()),
        Err(refused) => {
            tree.set_item(number, empty_paragraph(item.start));
            Err(refused.into())
        }
    }
}

/// Appends a block and enters it. Fails if an allocation fails; an empty paragraph may then have been appended in its
/// place.
pub fn enter(
    tree: &mut Tree<Item>,
    blocks: &mut Vec<OpenBlock>,
    start: usize,
    body: ItemBody,
) -> Result<(), AllocError>
    ensures entered { IfOk result (λ _. tree.new
        ≡ entered tree.old (record { start = start; end = start; body = body })) }
    ensures opened { IfOk result (λ _. blocks.new.items
        ≡ blocks.old.items ++ record { start = start; body = body }
        ∷ []) }
    ensures refused { OnErr result ((tree.new ≡ tree.old) ⊎ (tree.new
        ≡ appended tree.old (record { start = start; end = start; body = block.Paragraph }))) }
    ensures stays { OnErr result (blocks.new.items ≡ blocks.old.items) }
{
    blocks.push(OpenBlock { start, body })?;
    let item = Item {
        start,
        end: start,
        body,
    };
    match go_into(tree, item) {
        Ok(()) => Ok(()),
        Err(refused) => {
            let _block = blocks.pop();
            Err(refused)
        }
    }
}

/// Leaves the node that was entered last, and replaces its item.
pub fn leave(tree: &mut Tree<Item>, item: Item)
    ensures { (outer : List ℕ) (ix : ℕ) → tree.old.spine ≡ outer ++ ix ∷ []
        → tree.new ≡ record {
          nodes = changed_at ix (λ n. record n { item = item }) tree.old.nodes;
          spine =
              outer;
          cursor = Some ix;
        } }
{
    match tree.pop() {
        Some(number) => tree.set_item(number, item),
        None => {}
    }
}

/// Replaces the item of the node that was entered last by that of an open block.
pub fn rewrite(tree: &mut Tree<Item>, block: OpenBlock)
    ensures { (outer : List ℕ) (ix : ℕ) → tree.old.spine ≡ outer ++ ix ∷ []
        → tree.new ≡ with_item tree.old ix (open_item block) }
{
    let item = Item {
        start: block.start,
        end: block.start,
        body: block.body,
    };
    match tree.peek_up() {
        Some(number) => tree.set_item(number, item),
        None => {}
    }
}

/// Replaces the last block.
pub fn replace_last(blocks: &mut Vec<OpenBlock>, block: OpenBlock)
    requires { 0 < length blocks.old.items }
    ensures { (outer : List OpenBlock) (last : OpenBlock) → blocks.old.items ≡ outer ++ last ∷ []
        → blocks.new.items ≡ outer ++ block ∷ [] }
{
    let last = blocks.len() - 1;
    blocks[last] = block;
}

/// Appends a text, and returns its number. Fails if an allocation fails; the texts are then unchanged.
pub fn push_text<'a>(texts: &mut Vec<CowStr<'a>>, text: CowStr<'a>) -> Result<CowIndex, AllocError>
    ensures number { IfOk result (λ ix. ix.0 ≡ length texts.old.items) }
    ensures more { IfOk result (λ _. length texts.new.items ≡ length texts.old.items + 1) }
    ensures pushed { IfOk result (λ _. texts.new.items ≡ texts.old.items ++ text.entry ∷ []) }
    ensures refused { OnErr result (texts.new.items ≡ texts.old.items) }
{
    let ix = CowIndex::of(texts.len())?;
    texts.push(text)?;
    Ok(ix)
}

/// Appends a Text for each byte of a range. Fails if an allocation fails; some of them may then have been appended.
pub fn append_texts(tree: &mut Tree<Item>, start: usize, end: usize) -> Result<(), AllocError>
    requires { start ≤ end }
    ensures appended { IfOk result (λ _. tree.new ≡ texts_appended tree.old start (end - start)) }
    ensures refused { OnErr result ((count : ℕ) × (start + count ≤ end)
        × (tree.new ≡ texts_appended tree.old start count)) }
{
    'bytes: for at in start..end {
        let text = Item {
            start: at,
            end: at + 1,
            body: ItemBody::Text {
                backslash_escaped: false,
            },
        };
        tree.append(text)?;
    }
    Ok(())
}

/// Makes the last `count` items, of one byte each, the characters of a delimiter run that ends at byte offset `stop`.
pub fn mark_run(tree: &mut Tree<Item>, stop: usize, count: usize, opens: bool, closes: bool)
    requires nodes { count ≤ length tree.old.nodes }
    requires bytes { count ≤ stop }
    ensures { tree.new ≡ run_marked tree.old stop opens closes count }
{
    let end = tree.len();
    'characters: for marked in 0..count {
        let start = stop - marked - 1;
        let item = Item {
            start,
            end: start + 1,
            body: ItemBody::MaybeEmphasis(marked as u32 + 1, opens, closes),
        };
        tree.set_item(end - marked - 1, item);
    }
}
