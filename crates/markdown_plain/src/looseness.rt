//! What makes lists loose (CommonMark 5.3): blank lines between the items of a list, or between two blocks directly in
//! an item.
ghost use Rattle.std.specs.Prelude.{◌≡◌, ℕ, ◌++◌, ◌∷◌, [], true, false, List, Bool, Some, None, IfOk};
ghost use Rattle.markdown_base.specs.Forest.{Forest, nil};
ghost use Rattle.markdown_block_rules.specs.BlockGrowth.{Block, is_nil};
ghost use Rattle.markdown_block_rules.specs.BlockRules as defined;
ghost use Rattle.markdown_plain.specs.Frames as frame;
ghost use Rattle.markdown_plain.specs.Frames.{AreNested, Frame, forgotten};
ghost use Rattle.markdown_plain.specs.ListLooseness.{blank_from, is_after_blank, is_item};
ghost use Rattle.markdown_plain.specs.OpenBlocks.{innermost_is};
ghost use Rattle.markdown_plain.specs.Settled.{AreOpen, BlanksKnown, IsLooseAs, IsLooseBefore};

use markdown_base::item::ItemBody;
use markdown_builder::open_block::OpenBlock;
use std::alloc::{AllocError, Global};

/// Which open lists are loose, and what the last lines mean for them.
#[derive(Drop)]
pub struct Looseness {
    /// for each open list, the outermost first, whether it is loose
    lists: Vec<bool>,
    /// after blank lines, the number of open blocks outside those that had one; `None` after a line that is not blank
    blank_from: Option<usize>,
    /// whether the last item of the innermost open list is empty so far
    item_is_empty: bool,
}

impl Looseness {
    /// Returns the state where no list is open.
    pub fn new(alloc: Global) -> Looseness
        ensures lists { result.lists.items ≡ [] }
        ensures blank { result.blank_from ≡ None }
        ensures empty { result.item_is_empty ≡ false }
    {
        Looseness {
            lists: Vec::new(alloc),
            blank_from: None,
            item_is_empty: false,
        }
    }

    /// Returns whether the last item of the innermost open list is empty so far.
    pub fn is_item_empty(&self) -> bool
        ensures { result ≡ self.now.item_is_empty }
    {
        self.item_is_empty
    }

    /// Records that a list was opened with its first item: it is tight, whether or not a blank line precedes it. Fails
    /// if an allocation fails.
    pub fn open_list(&mut self) -> Result<(), AllocError>
        ensures begins { IfOk result (λ _. (frames : List Frame) (inside : Forest Block)
            (list item : Block) → IsLooseBefore self.old frames inside
            → frame.is_list list.kind ≡ true → frame.is_item item.kind ≡ true
            → IsLooseAs self.new (record { before = nil; block = item }
            ∷ record { before = inside; block = list } ∷ frames) nil) }
        ensures same { IfOk result (λ _. self.new
            ≡ record self.old { lists = self.new.lists; item_is_empty = true }) }
    {
        self.lists.push(false)?;
        self.item_is_empty = true;
        Ok(())
    }

    /// Records that an item is added to the innermost list, which is the innermost of the open blocks.
    pub fn add_item(&mut self, blocks: &[OpenBlock])
        ensures begins { (texts : List (List ℕ)) (frames : List Frame) (inside : Forest Block)
            (item : Block) → AreOpen texts blocks.now frames → AreNested frames
            → frame.innermost_is frame.is_list frames ≡ true → IsLooseAs self.old frames inside
            → BlanksKnown self.old.blank_from frames inside → frame.is_item item.kind ≡ true
            → IsLooseAs self.new (record { before = inside; block = item } ∷ frames) nil }
        ensures same { self.new ≡ record self.old { lists = self.new.lists; item_is_empty = true } }
    {
        if self.is_after_blank(blocks) {
            self.loosen();
        }
        self.item_is_empty = true;
    }

    /// Records that a block is added to the innermost of the open blocks; it can make a list loose only where that is
    /// an item.
    pub fn add_block(&mut self, blocks: &[OpenBlock])
        ensures elsewhere { innermost_is is_item blocks.now ≡ false
            → self.new.lists ≡ self.old.lists }
        ensures begins { (texts : List (List ℕ)) (frames : List Frame) (inside : Forest Block)
            → AreOpen texts blocks.now frames → AreNested frames
            → frame.innermost_is frame.is_list frames ≡ false → IsLooseAs self.old frames inside
            → (is_nil inside ≡ false → BlanksKnown self.old.blank_from frames inside)
            → IsLooseBefore self.new frames inside }
        ensures same { self.new
            ≡ record self.old { lists = self.new.lists; item_is_empty = false } }
    {
        if is_in_item(blocks) && !self.item_is_empty && self.is_after_blank(blocks) {
            self.loosen();
        }
        self.item_is_empty = false;
    }

    /// Records that the innermost list is closed, and returns whether it is loose. The list outside it continues, with
    /// this one in its last item.
    pub fn close_list(&mut self) -> bool
        ensures ends { (frames : List Frame) (f : Frame) (inside : Forest Block)
            → frame.is_list f.block.kind ≡ true → IsLooseAs self.old (f ∷ frames) inside
            → (result ≡ defined.is_loose inside) × IsLooseAs self.new frames (forgotten f inside) }
        ensures same { self.new
            ≡ record self.old { lists = self.new.lists; item_is_empty = false } }
    {
        self.item_is_empty = false;
        match self.lists.pop() {
            Some(loose) => loose,
            None => false,
        }
    }

    /// Records a line that was blank for the open blocks from the number `from` on.
    pub fn see_blank(&mut self, from: usize)
        ensures { self.new
            ≡ record self.old { blank_from = Some (blank_from self.old.blank_from from) } }
    {
        self.blank_from = match self.blank_from {
            Some(before) => Some(before.min(from)),
            None => Some(from),
        };
    }

    /// Records a line that was not blank.
    pub fn see_content(&mut self)
        ensures { self.new ≡ record self.old { blank_from = None } }
    {
        self.blank_from = None;
    }

    /// Makes the innermost list loose.
    fn loosen(&mut self)
        ensures loose { (outer : List Bool) (before : Bool)
            → self.old.lists.items ≡ outer ++ before ∷ []
            → self.new.lists.items ≡ outer ++ true ∷ [] }
        ensures none { self.old.lists.items ≡ [] → self.new.lists.items ≡ [] }
        ensures same { self.new ≡ record self.old { lists = self.new.lists } }
    {
        if self.lists.is_empty() {
            return;
        }
        let last = self.lists.len() - 1;
        self.lists[last] = true;
    }

    /// Returns whether the innermost of the open blocks had a blank line after the last line that was not blank.
    fn is_after_blank(&self, blocks: &[OpenBlock]) -> bool
        ensures { result ≡ is_after_blank self.now.blank_from blocks.now }
    {
        match self.blank_from {
            Some(from) => from < blocks.len(),
            None => false,
        }
    }
}

/// Returns whether the innermost of the open blocks is an item.
fn is_in_item(blocks: &[OpenBlock]) -> bool
    ensures { result ≡ innermost_is is_item blocks.now }
{
    let Some(block) = blocks.last() else {
        return false;
    };
    match block.body {
        ItemBody::ListItem(_) => true,
        _ => false,
    }
}
