//! The block pass's calls of its builder, with the stretches of the open blocks kept beside it. Functions that return a
//! `Result` fail only if an allocation fails.
ghost use Rattle.std.specs.Prelude.{◌≡◌, true, false};
ghost use Rattle.markdown_builder.specs.Bodies.{is_leaf, is_plain_block};
ghost use Rattle.markdown_builder.specs.EvenRows.{InnermostRowIsEven};
ghost use Rattle.markdown_plain.specs.OpenBlocks.{outer_of};
ghost use Rattle.markdown_plain.specs.Stretches.{IsOf};

use crate::stretches::{Ahead, Stretches};
use markdown_base::block_parts::HeadingAttributes;
use markdown_base::cow_str::CowStr;
use markdown_base::item::ItemBody;
use markdown_base::syntax::Syntax;
use markdown_base::tag::{Alignment, HeadingLevel};
use markdown_builder::builder::Builder;
use markdown_builder::open_block::OpenBlock;
use markdown_items::items;
use markdown_lines::definition::Definition;
use markdown_lines::line::next_content;
use std::alloc::{AllocError, Global};

/// A builder, the stretches of the open blocks, and the allocator for the texts of inline items.
#[derive(Drop)]
pub struct Placing<'a> {
    pub builder: Builder<'a>,
    pub stretches: Stretches,
    pub alloc: Global,
    ghost stretched: { IsOf stretches (outer_of builder.blocks) },
}

impl<'a> Placing<'a> {
    ghost use Rattle.std.specs.Prelude.{◌≡◌, ◌<◌, ◌++◌, ◌∷◌, [], true, false, Some, None};
    ghost use Rattle.std.specs.Prelude.{slice_get, IfOk, IfSome};
    ghost use Rattle.std.specs.Option.{option_map};
    ghost use Rattle.markdown_base.specs.declared.item.ItemBody.TheVariants as body;
    ghost use Rattle.markdown_base.specs.CowText.{text_of};
    ghost use Rattle.markdown_plain.specs.CodeLines.{owed_spaces};
    ghost use Rattle.markdown_plain.specs.OpenBlocks.{outer_of};
    ghost use Rattle.markdown_plain.specs.Stretches.{deep_starts};
    ghost use Rattle.markdown_builder.specs.Bodies.{is_leaf, is_plain_block, is_settled};
    ghost use Rattle.markdown_builder.specs.BuilderView.{innermost_block, nothing_made, Opens, OpensNaming};
    ghost use Rattle.markdown_builder.specs.BuilderView.{OpensAttributed, OpensTable, AppendsItem, AppendsText};
    ghost use Rattle.markdown_builder.specs.BuilderView.{with_items};
    ghost use Rattle.markdown_base.specs.HeadingWords.{words_of};
    ghost use Rattle.markdown_items.specs.ContentItems.{content_items};
    ghost use Rattle.markdown_items.specs.LineItems.{item_syntax};
    ghost use Rattle.markdown_items.specs.RestOfLine.{HasSpecialRun, RunIsOver};
    ghost use Rattle.markdown_lines.specs.Lines.{IsNextContent};
    ghost use Rattle.markdown_plain.specs.Fitting.{IsAhead};
    ghost use Rattle.markdown_plain.specs.Fitting.{BeginsAtContent, GoesOn, HasBody, PutsBlock, closed, defining, stepped};
    ghost use Rattle.markdown_plain.specs.Fits.{HasContent, MayStep};
    ghost use Rattle.markdown_plain.specs.LeafTrees.{Appends};
    ghost use Rattle.markdown_builder.specs.EvenRows.{is_in_row};

    /// Returns a builder that has made nothing yet.
    pub fn new(alloc: Global, text: &'a str, old: bool) -> Result<Placing<'a>, AllocError>
        ensures made { IfOk result (λ made. made.builder ≡ nothing_made text.now) }
    {
        Ok(Placing {
            builder: Builder::new(alloc, text)?,
            stretches: Stretches::new(alloc, old),
            alloc,
        })
    }

    /// Returns the text.
    pub fn text(&self) -> &'a str
        ensures { result.now ≡ self.now.builder.text }
    {
        self.builder.text()
    }

    /// Returns the open blocks, the outermost first.
    pub fn open_blocks(&self) -> &[OpenBlock]
        ensures { result.now ≡ self.now.builder.blocks }
    {
        self.builder.open_blocks()
    }

    /// Returns the stretches of open blocks that are ahead of a line. `old` is whether footnote definitions are those of
    /// the old style.
    pub fn ahead(&self, old: bool) -> Ahead<'_>
        ensures notes { result.old_notes ≡ old }
        ensures ahead { result.known ≡ true
            → result.starts.now ≡ deep_starts old (outer_of self.now.builder.blocks) }
    {
        self.stretches.ahead(old)
    }

    /// Returns whether the innermost open block is a leaf.
    pub fn is_in_leaf(&self) -> bool
        ensures { result ≡ self.now.builder.leaf }
    {
        self.builder.is_in_leaf()
    }

    /// Moves to byte offset `to`; where no block is open, only white space may be before it.
    pub fn step_to(&mut self, to: usize)
        requires { MayStep self.old.builder to }
        ensures steps { self.new.builder ≡ stepped self.old.builder to }
    {
        self.builder.skip(to);
    }

    /// Opens a block at the current byte offset.
    pub fn open_block(&mut self, body: ItemBody) -> Result<(), AllocError>
        requires block { is_plain_block body ≡ true }
        requires outside { self.old.builder.leaf ≡ false }
        ensures opens { IfOk result (λ _.
            Opens self.old.builder self.new.builder body) }
    {
        self.stretches.enter(self.builder.open_blocks())?;
        match self.builder.open(body) {
            Ok(()) => Ok(()),
            Err(error) => {
                self.stretches.forget();
                Err(error)
            }
        }
    }

    /// Opens a fenced code block at the current byte offset.
    pub fn open_code(&mut self, info: CowStr<'a>) -> Result<(), AllocError>
        requires { self.old.builder.leaf ≡ false }
        ensures opens { IfOk result (λ _. OpensNaming self.old.builder self.new.builder
            body.FencedCodeBlock (text_of info.entry)) }
        ensures listed { IfOk result (λ _. self.new.builder.footnotes
            ≡ self.old.builder.footnotes) }
    {
        self.stretches.enter(self.builder.open_blocks())?;
        match self.builder.open_fenced(info) {
            Ok(()) => Ok(()),
            Err(error) => {
                self.stretches.forget();
                Err(error)
            }
        }
    }

    /// Opens a heading with attributes at the current byte offset.
    pub fn open_attributed(
        &mut self,
        level: HeadingLevel,
        attributes: HeadingAttributes<'a>,
    ) -> Result<(), AllocError>
        requires { self.old.builder.leaf ≡ false }
        ensures opens { IfOk result (λ _. OpensAttributed self.old.builder self.new.builder level
            (words_of attributes.entry)) }
    {
        self.stretches.enter(self.builder.open_blocks())?;
        match self.builder.open_heading(level, attributes) {
            Ok(()) => Ok(()),
            Err(error) => {
                self.stretches.forget();
                Err(error)
            }
        }
    }

    /// Opens a footnote definition at the current byte offset.
    pub fn open_note(&mut self, name: CowStr<'a>, listed: CowStr<'a>) -> Result<(), AllocError>
        requires { self.old.builder.leaf ≡ false }
        ensures opens { IfOk result (λ _. OpensNaming self.old.builder self.new.builder
            body.FootnoteDefinition (text_of name.entry)) }
        ensures listed { IfOk result (λ _. self.new.builder.footnotes
            ≡ self.old.builder.footnotes ++ text_of listed.entry ∷ []) }
    {
        self.stretches.enter(self.builder.open_blocks())?;
        match self.builder.open_footnote(name, listed) {
            Ok(()) => Ok(()),
            Err(error) => {
                self.stretches.forget();
                Err(error)
            }
        }
    }

    /// Opens a table at the current byte offset, with the alignments of its columns.
    pub fn open_table(&mut self, alignments: Vec<Alignment>) -> Result<(), AllocError>
        requires { self.old.builder.leaf ≡ false }
        ensures opens { IfOk result (λ _. OpensTable self.old.builder self.new.builder
            alignments.items) }
    {
        self.stretches.enter(self.builder.open_blocks())?;
        match self.builder.open_table(alignments) {
            Ok(()) => Ok(()),
            Err(error) => {
                self.stretches.forget();
                Err(error)
            }
        }
    }

    /// Returns the byte offset at which the content of the innermost open block begins.
    fn content_of_block(&self) -> Option<usize>
        requires { HasContent self.now.builder }
        ensures next { IfSome result (λ content.
            IfSome (innermost_block self.now.builder.blocks) (λ block.
            IsNextContent self.now.builder.text block.start (Some content))) }
        ensures open { IfSome result (λ _. self.now.builder.blocks ≡ [] → ⊥) }
        ensures some { result ≡ None → ⊥ }
    {
        let start = self.builder.open_blocks().last()?.start;
        next_content(self.builder.text(), start)
    }

    /// Moves the start of the innermost open block to its first content byte, though its first item starts before that.
    pub fn begin_at_content(&mut self)
        requires { HasContent self.old.builder }
        ensures same { self.new.builder
            ≡ record self.old.builder { blocks = self.new.builder.blocks } }
        ensures begins { BeginsAtContent self.old.builder self.new.builder }
    {
        let Some(content) = self.content_of_block() else {
            return;
        };
        self.builder.begin_later(content);
    }

    /// Replaces the body of the innermost open block, which is not a leaf.
    pub fn change(&mut self, body: ItemBody)
        requires block { is_plain_block body ≡ true }
        requires other { is_leaf body ≡ false }
        requires outside { self.old.builder.leaf ≡ false }
        requires some { self.old.builder.blocks ≡ [] → ⊥ }
        ensures same { self.new.builder
            ≡ record self.old.builder { blocks = self.new.builder.blocks } }
        ensures changes { HasBody self.old.builder self.new.builder body }
    {
        self.builder.change(body);
    }

    /// Appends a settled inline item up to byte offset `end`.
    // inlined: it is called for each line break
    #[inline(always)]
    pub fn add_inline(&mut self, body: ItemBody, end: usize) -> Result<(), AllocError>
        requires settled { is_settled body ≡ true }
        requires inside { self.old.builder.leaf ≡ true }
        requires ahead { IsAhead self.old.builder end }
        ensures appends { IfOk result (λ _. AppendsItem self.old.builder self.new.builder body
            end) }
    {
        match self.builder.inline(body, end) {
            Ok(()) => Ok(()),
            Err(error) => {
                self.stretches.forget();
                Err(error)
            }
        }
    }

    /// Appends the columns that a partly read tab owes, as spaces.
    pub fn add_owed(&mut self, owed: usize) -> Result<(), AllocError>
        requires { self.old.builder.leaf ≡ true }
        ensures text { IfOk result (λ _. self.new.builder.text ≡ self.old.builder.text) }
        ensures owed { IfOk result (λ _. 0 < owed
            → AppendsText self.old.builder self.new.builder self.old.builder.at
            (owed_spaces owed)) }
        ensures nothing { IfOk result (λ _. owed ≡ 0 → self.new ≡ self.old) }
    {
        let spaces = match owed {
            0 => return Ok(()),
            1 => " ",
            2 => "  ",
            _ => "   ",
        };
        let here = self.builder.at();
        match self.builder.synthesize(CowStr::Borrowed(spaces), here) {
            Ok(()) => Ok(()),
            Err(error) => {
                self.stretches.forget();
                Err(error)
            }
        }
    }

    /// Appends the inline items of a line's content up to byte offset `end`.
    pub fn add_items(&mut self, end: usize, syntax: Syntax) -> Result<(), AllocError>
        requires inside { self.old.builder.leaf ≡ true }
        requires ahead { IsAhead self.old.builder end }
        ensures appends { IfOk result (λ _. Appends self.old.builder self.new.builder end) }
        ensures items { IfOk result (λ _. self.old.builder.run ≡ None → self.new.builder.levels
            ≡ with_items self.old.builder.levels (content_items self.old.builder.text
            (item_syntax syntax) self.old.builder.at end)) }
        ensures further { IfOk result (λ _. RunIsOver end self.old.builder self.old.builder.at
            → self.new.builder.levels ≡ with_items self.old.builder.levels
            (content_items self.old.builder.text (item_syntax syntax) self.old.builder.at
            end)) }
        ensures over { IfOk result (λ _. HasSpecialRun (item_syntax syntax) self.old.builder
            → HasSpecialRun (item_syntax syntax) self.new.builder) }
    {
        match items(&mut self.builder, self.alloc, end, syntax) {
            Ok(()) => Ok(()),
            Err(error) => {
                self.stretches.forget();
                Err(error)
            }
        }
    }

    /// Appends a thematic break up to byte offset `end`.
    pub fn add_rule(&mut self, end: usize) -> Result<(), AllocError>
        requires outside { self.old.builder.leaf ≡ false }
        requires ahead { IsAhead self.old.builder end }
        ensures appends { IfOk result (λ _. AppendsItem self.old.builder self.new.builder body.Rule
            end) }
    {
        match self.builder.rule(end) {
            Ok(()) => Ok(()),
            Err(error) => {
                self.stretches.forget();
                Err(error)
            }
        }
    }

    /// Adds a link reference definition whose `[` is at the current byte offset.
    pub fn add_definition(&mut self, found: Definition<'a>) -> Result<(), AllocError>
        requires ahead { IsAhead self.old.builder found.end }
        requires bracket { slice_get self.old.builder.text self.old.builder.at ≡ Some 91 }
        ensures adds { IfOk result (λ _. self.new.builder
            ≡ defining self.old.builder (self.old.builder.definitions ++ record {
              label = text_of found.entry.label;
              destination = text_of found.entry.destination;
              title = option_map text_of found.entry.title;
              start = self.old.builder.at;
              end = found.entry.end;
            } ∷ []) found.entry.end) }
    {
        let Definition {
            label,
            destination,
            title,
            end,
            lines: _,
        } = found;
        match self.builder.define(label, destination, title, end) {
            Ok(()) => Ok(()),
            Err(error) => {
                self.stretches.forget();
                Err(error)
            }
        }
    }

    /// Closes the innermost open block, which ends at the current byte offset and is no row.
    pub fn close(&mut self)
        requires some { self.old.builder.blocks ≡ [] → ⊥ }
        requires other { is_in_row self.old.builder.blocks ≡ false }
        ensures closes { self.new.builder ≡ closed self.old.builder self.new.builder.levels }
        ensures tree { PutsBlock self.old.builder self.new.builder }
    {
        self.close_innermost();
    }

    /// Closes a row of a table, which ends at the current byte offset and has as many cells as the table has columns.
    pub fn close_row(&mut self)
        requires some { self.old.builder.blocks ≡ [] → ⊥ }
        requires even { InnermostRowIsEven self.old.builder }
        ensures closes { self.new.builder ≡ closed self.old.builder self.new.builder.levels }
        ensures tree { PutsBlock self.old.builder self.new.builder }
    {
        self.close_innermost();
    }

    /// Closes the innermost open block, which ends at the current byte offset.
    #[tactic(auto, using(crate::proofs::LeafTreesLemmas::outer_of_these))]
    #[inline(always)]
    fn close_innermost(&mut self)
        requires some { self.old.builder.blocks ≡ [] → ⊥ }
        requires even { InnermostRowIsEven self.old.builder }
        ensures closes { self.new.builder ≡ closed self.old.builder self.new.builder.levels }
        ensures tree { PutsBlock self.old.builder self.new.builder }
    {
        self.builder.close();
        self.stretches.leave(self.builder.open_blocks());
    }
}
