//! A closing bracket of a chain in a tree, and what is read there: the tail of an inline link, the form of a reference,
//! and the label from an opener on.
ghost use Rattle.std.specs.Prelude.{◌≡◌, ◌<◌, ◌≤◌, ◌+◌, ◌^◌, ◌&&◌, not, ℕ, IfOk, IfSome, length, take};
ghost use Rattle.std.specs.Option.{option_map};
ghost use Rattle.markdown_base.specs.BlockTree.{item_at};
ghost use Rattle.markdown_brackets.specs.FootnoteUse.{footnote_style};
ghost use Rattle.markdown_brackets.specs.LinkTailView.{ReadsTail};
ghost use Rattle.markdown_brackets.specs.Reference.{could_be_reference, own_label};
ghost use Rattle.markdown_brackets.specs.ReferenceView.{form_view, label_view};
ghost use Rattle.markdown_brackets.specs.SpentEnds.{is_spent};
ghost use Rattle.markdown_brackets.specs.WrittenView.{IsTailFrom, form_ahead, tail_ahead};
ghost use Rattle.markdown_brackets.specs.Decides.{CanRead};
ghost use Rattle.markdown_scan.specs.Entity.{entity_names};

use crate::block_rules::BlockRules;
use crate::footnote::footnote_style;
use crate::items_ahead::{ItemsAhead, link_after, linked_item};
use crate::link_tail::{LinkTail, scan_link_tail};
use crate::reference::{Form, FoundLabel, could_be_reference, scan_form, scan_own_label};
use crate::spent_ends::SpentEnds;
use markdown_base::item::Item;
use markdown_base::tree::Tree;
use markdown_document::chain_place::ChainPlace;
use markdown_scan::entity::entity_names;
use markdown_scan::line_rule::LineRule;
use std::alloc::{AllocError, Global};

/// A `]` of a chain in a tree: what is read there depends on the items after it and on the place of the chain.
#[derive(Drop)]
pub struct BracketReader<'r, 'a, R> {
    pub alloc: Global,
    pub tree: &'r Tree<Item>,
    /// The node of the `]`.
    pub node: usize,
    pub place: &'r ChainPlace<'a, 'r>,
    /// The rule for the beginnings of lines.
    pub rule: &'r R,
}

impl<'r, 'a, R: LineRule> BracketReader<'r, 'a, R> {
    // Returns how the parts of links are read in the block.
    fn rules(&self) -> BlockRules<'r, R>
        ensures rule { result.rule.now ≡ self.now.rule.now }
        ensures in_table { result.in_table ≡ self.now.place.now.in_table }
        ensures names { result.names ≡ entity_names self.now.place.now.syntax }
        ensures style { result.style ≡ footnote_style self.now.place.now.syntax }
    {
        BlockRules {
            alloc: self.alloc,
            rule: self.rule,
            in_table: self.place.in_table,
            names: entity_names(self.place.syntax),
            style: footnote_style(self.place.syntax),
        }
    }

    /// Returns whether the `]` could be a reference, and does not end the label of an earlier one.
    pub(crate) fn could_be_reference(&self, spent: &SpentEnds) -> bool
        requires { self.now.node < length self.now.tree.now.nodes }
        ensures { result ≡ (could_be_reference (item_at self.now.tree.now.nodes self.now.node).body
            && not (is_spent spent.now (item_at self.now.tree.now.nodes self.now.node).end)) }
    {
        let item = *self.tree.item(self.node);
        could_be_reference(item.body) && !spent.contains(item.end)
    }

    /// Returns the tail of an inline link after the `]`, which is in the block, and `None` if there is none.
    pub(crate) fn read_tail(&self) -> Result<Option<LinkTail<'a>>, AllocError>
        requires ready { (start : ℕ)
            × CanRead self.now.tree.now.nodes self.now.place.now self.now.node start }
        requires inside { (item_at self.now.tree.now.nodes self.now.node).end
            ≤ self.now.place.now.block_end }
        ensures value { IfOk result (ReadsTail (entity_names self.now.place.now.syntax)
            self.now.place.now.in_table
            (tail_ahead self.now.tree.now.nodes self.now.place.now (R.skipped self.now.rule.now)
            self.now.node)) }
        ensures from { IfOk result (λ found. IfSome found (IsTailFrom self.now.place.now.text.now
            (item_at self.now.tree.now.nodes self.now.node).end)) }
    {
        let end = self.tree.item(self.node).end;
        let mut items = ItemsAhead {
            tree: self.tree,
            next: self.tree.next(self.node),
        };
        let text = &self.place.text[..self.place.block_end];
        scan_link_tail(&self.rules(), text, end, &mut items)
    }

    /// Returns the form of a reference, from what follows the `]`, which is in the block.
    pub(crate) fn read_form(&self) -> Result<Form<'a>, AllocError>
        requires ready { (start : ℕ)
            × CanRead self.now.tree.now.nodes self.now.place.now self.now.node start }
        requires inside { (item_at self.now.tree.now.nodes self.now.node).end
            ≤ self.now.place.now.block_end }
        ensures form { IfOk result (λ form. form_view form
            ≡ form_ahead self.now.tree.now.nodes self.now.place.now (R.skipped self.now.rule.now)
            self.now.node) }
        ensures small { (item_at self.now.tree.now.nodes self.now.node).end + 2 < 2 ^ 64 }
    {
        let end = self.tree.item(self.node).end;
        let next = self.tree.next(self.node);
        let first = linked_item(self.tree, next);
        let second = linked_item(self.tree, link_after(self.tree, next));
        let text = &self.place.text[..self.place.block_end];
        scan_form(&self.rules(), text, end, first, second)
    }

    /// Returns the label from a `[` at the byte offset `start` through the `]`, which is in the block; `None` if the
    /// bytes between are not exactly one label.
    pub(crate) fn read_label(&self, start: usize) -> Result<Option<FoundLabel<'a>>, AllocError>
        requires ready { CanRead self.now.tree.now.nodes self.now.place.now self.now.node start }
        requires inside { (item_at self.now.tree.now.nodes self.now.node).end
            ≤ self.now.place.now.block_end }
        ensures { IfOk result (λ found. option_map label_view found
            ≡ own_label (footnote_style self.now.place.now.syntax) (R.skipped self.now.rule.now)
            self.now.place.now.in_table
            (take self.now.place.now.block_end self.now.place.now.text.now) start
            (item_at self.now.tree.now.nodes self.now.node).end) }
    {
        let end = self.tree.item(self.node).end;
        let text = &self.place.text[..self.place.block_end];
        scan_own_label(&self.rules(), text, start, end)
    }
}
