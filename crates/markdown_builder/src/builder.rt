//! The builder: the state of a block result in progress, and the calls that continue it. Calls that return a `Result`
//! fail only if an allocation fails; how much of the call was done by then is unspecified.
ghost use Rattle.std.specs.Prelude.{◌≡◌, length, map};
ghost use Rattle.markdown_builder.specs.Bodies.{is_leaf};
ghost use Rattle.markdown_builder.specs.EvenRows.{is_table_row};
ghost use Rattle.markdown_builder.specs.Shown.{alignments_shown};

use crate::open_block::OpenBlock;
use crate::tight::tighten_list;
use crate::tree_steps::{append_texts, enter, leave, mark_run, push_text, replace_last, rewrite};
use markdown_base::block_parts::{BlockParts, HeadingAttributes, LinkDef};
use markdown_base::cow_str::CowStr;
use markdown_base::index::{AlignmentIndex, HeadingIndex, in_32_bits};
use markdown_base::item::{Item, ItemBody};
use markdown_base::tag::{Alignment, HeadingLevel};
use markdown_base::tree::Tree;
use std::alloc::{AllocError, Global};
use std::marker::Model;

/// A block result in progress: the tree, the parts that its items refer to, and the open blocks.
#[derive(Drop)]
pub struct Builder<'a> {
    text: &'a str,
    tree: Tree<Item>,
    cows: Vec<CowStr<'a>>,
    alignments: Vec<Vec<Alignment>>,
    headings: Vec<HeadingAttributes<'a>>,
    definitions: Vec<(CowStr<'a>, LinkDef<'a>)>,
    footnotes: Vec<CowStr<'a>>,
    blocks: Vec<OpenBlock>,
    leaf: bool,
    run: Option<u8>,
    at: usize,
}

impl<'a> Model for Builder<'a> {
    ghost use Rattle.std.specs.Prelude.{length, map};
    ghost use Rattle.markdown_base.specs.CowText.{text_of};
    ghost use Rattle.markdown_builder.specs.BuilderView.{BuilderView, stored_definition};
    ghost use Rattle.markdown_base.specs.HeadingWords.{words_of};
    ghost use Rattle.markdown_builder.specs.Shown.{shown_levels, stored_parts};
    ghost use Rattle.markdown_builder.specs.TreeLevels.{levels_of};
    ghost use Rattle.markdown_builder.specs.Standing.{IsSound};
    ghost use Rattle.markdown_base.specs.declared.item.ItemBody.TheVariants as body;
    ghost use Rattle.markdown_builder.specs.OpenRows.{KeepOpenRows};

    ghost Value = { BuilderView };

    ghost use Rattle.std.specs.Coded.{codes};
    ghost use Rattle.markdown_base.specs.contracts.item.Item as item;
    ghost use Rattle.markdown_builder.specs.ForestCode.{forest_code};
    ghost use Rattle.markdown_builder.specs.contracts.open_block.OpenBlock as block;

    ghost coded = { Prim.hlevel (codes, forest_code, item.the_row.coded, block.the_row.coded) };

    ghost view = { λ b. record {
      text = b.text.now;
      at = b.at;
      blocks = b.blocks.items;
      leaf = b.leaf;
      run = b.run;
      levels = shown_levels (stored_parts b.cows.items b.headings.items b.alignments.items)
          (levels_of b.tree);
      texts = map text_of b.cows.items;
      headings = map words_of b.headings.items;
      alignments = map (λ a. a.items) b.alignments.items;
      definitions = map stored_definition b.definitions.items;
      footnotes = map text_of b.footnotes.items;
    } };

    ghost invariant = { λ b. IsSound (record {
      text = b.text.now;
      counts = record {
        texts = length b.cows.items;
        alignments = length b.alignments.items;
        attributes =
            length b.headings.items;
      };
      tree = b.tree;
      definitions = b.definitions.items;
      blocks = b.blocks.items;
      leaf = b.leaf;
      run = b.run;
      at = b.at;
    }) × KeepOpenRows (map (λ a. a.items) b.alignments.items) body.Root b.blocks.items
        (shown_levels (stored_parts b.cows.items b.headings.items b.alignments.items)
        (levels_of b.tree)) };
}

impl<'a> Builder<'a> {
    ghost use Rattle.std.specs.Prelude.{◌≡◌, ℕ, ◌+◌, ◌-◌, ◌≤◌, ◌<◌, ◌++◌, ◌∷◌, [], true, false, Some, None, length};
    ghost use Rattle.std.specs.Prelude.{slice_index, slice_get, IfOk, IfSome, MatchOption};
    ghost use Rattle.std.specs.Option.{option_map};
    ghost use Rattle.std.specs.Str.{IsCharBoundary};
    ghost use Rattle.markdown_base.specs.declared.item.ItemBody.TheVariants as variant;
    ghost use Rattle.markdown_base.specs.BlockTree.{tree_of};
    ghost use Rattle.markdown_base.specs.CowText.{text_of};
    ghost use Rattle.markdown_base.specs.Coverage.{Covers};
    ghost use Rattle.markdown_base.specs.Forest.{relabelled};
    ghost use Rattle.markdown_base.specs.HeadingWords.{words_of};
    ghost use Rattle.markdown_base.specs.WellFormed.{IsWellFormed, is_delimiter};
    ghost use Rattle.markdown_builder.specs.declared.open_block.OpenBlock.{OpenBlock};
    ghost use Rattle.markdown_builder.specs.Bodies.{is_leaf, is_plain_block, is_settled, mark_byte};
    ghost use Rattle.markdown_builder.specs.BuilderView.{IsWhite, IsRunOf, follows_run, innermost_block, nothing_made};
    ghost use Rattle.markdown_builder.specs.BuilderView.{AppendsItem, AppendsText, Opens, OpensNaming, Closes};
    ghost use Rattle.markdown_builder.specs.BuilderView.{HasParts, OpensAttributed, OpensTable, parts_of, with_items};
    ghost use Rattle.markdown_builder.specs.BuilderView.{LastHasBody, LastBegins};
    ghost use Rattle.markdown_builder.specs.EvenRows.{HasEvenRows, InnermostRowIsEven, is_in_row, open_columns};
    ghost use Rattle.markdown_builder.specs.HeadingsHoldInline.{HeadingsHoldInline};
    ghost use Rattle.markdown_builder.specs.Shown.{run_items, shown_result, shown_trees};
    ghost use Rattle.markdown_builder.specs.Tightness.{TightInTightLists};

    /// Returns a builder that has made nothing yet.
    pub fn new(alloc: Global, text: &'a str) -> Result<Builder<'a>, AllocError>
        ensures { IfOk result (λ made. made ≡ nothing_made text.now) }
    {
        Ok(Builder {
            text,
            tree: Tree::new(alloc)?,
            cows: Vec::new(alloc),
            alignments: Vec::new(alloc),
            headings: Vec::new(alloc),
            definitions: Vec::new(alloc),
            footnotes: Vec::new(alloc),
            blocks: Vec::new(alloc),
            leaf: false,
            run: None,
            at: 0,
        })
    }

    /// Returns the text.
    pub fn text(&self) -> &'a str
        ensures { result.now ≡ self.now.text }
    {
        self.text
    }

    /// Returns the byte offset up to which all of the text is placed, or is white space, or is in a definition.
    pub fn at(&self) -> usize
        ensures value { result ≡ self.now.at }
        ensures boundary { IsCharBoundary self.now.text result }
    {
        self.at
    }

    /// Returns the open blocks, the outermost first.
    pub fn open_blocks(&self) -> &[OpenBlock]
        ensures { result.now ≡ self.now.blocks }
    {
        &self.blocks
    }

    /// Returns whether the innermost open block is a leaf, so that only inline items can follow.
    pub fn is_in_leaf(&self) -> bool
        ensures { result ≡ self.now.leaf }
    {
        self.leaf
    }

    /// Returns whether the innermost open block is a row of a table, or its head. Where it is not, it may be closed.
    #[tactic(auto, using(crate::proofs::RowInsideLemmas::no_row_inside))]
    pub fn is_in_row(&self) -> bool
        ensures row { result ≡ is_in_row self.now.blocks }
        ensures even { result ≡ false → InnermostRowIsEven self.now }
    {
        match self.blocks.last() {
            Some(block) => is_table_row(block.body),
            None => false,
        }
    }

    /// Returns the number of columns of the innermost open block, if it is a table, and otherwise 0.
    pub fn columns(&self) -> usize
        ensures { result ≡ open_columns self.now }
    {
        match self.blocks.last() {
            Some(block) => alignments_listed(&self.alignments, block.body),
            None => 0,
        }
    }

    /// Returns whether a delimiter run of this character would directly follow one of the same character.
    pub fn follows_run(&self, byte: u8) -> bool
        ensures { result ≡ follows_run self.now.run byte }
    {
        match self.run {
            Some(before) => byte == before,
            None => false,
        }
    }

    /// Skips bytes up to byte offset `to`; where no block is open, they have to be white space.
    pub fn skip(&mut self, to: usize)
        requires low { self.old.at ≤ to }
        requires boundary { IsCharBoundary self.old.text to }
        requires white { self.old.leaf ≡ false → self.old.blocks ≡ []
            → IsWhite self.old.text self.old.at to }
        ensures { self.new ≡ record self.old { at = to } }
    {
        self.at = to;
    }

    /// Opens a block at the current byte offset.
    pub fn open(&mut self, body: ItemBody) -> Result<(), AllocError>
        requires block { is_plain_block body ≡ true }
        requires outside { self.old.leaf ≡ false }
        ensures { IfOk result (λ _. Opens self.old self.new body) }
    {
        enter(&mut self.tree, &mut self.blocks, self.at, body)?;
        self.leaf = is_leaf(body);
        self.run = None;
        Ok(())
    }

    /// Closes the innermost open block, which ends at the current byte offset, and returns it; `None` where no block is
    /// open. The paragraphs of a tight list are made tight as the list is closed. A row of a table has to contain as many
    /// items as the table has alignments.
    // inlined: every paragraph is closed
    #[inline(always)]
    pub fn close(&mut self) -> Option<OpenBlock>
        requires { InnermostRowIsEven self.old }
        ensures { MatchOption result
            ((self.old.blocks ≡ []) × (self.new ≡ self.old))
            (λ block. (outer : _) × (self.old.blocks ≡ outer ++ block ∷ [])
            × Closes self.old self.new block outer) }
    {
        let block = self.blocks.pop()?;
        let item = Item {
            start: block.start,
            end: self.at,
            body: block.body,
        };
        leave(&mut self.tree, item);
        tighten_list(&mut self.tree);
        self.leaf = false;
        self.run = None;
        Some(block)
    }

    /// Appends a settled inline item up to byte offset `end`.
    // inlined: it is called for each Text and each line ending
    #[inline(always)]
    pub fn inline(&mut self, body: ItemBody, end: usize) -> Result<(), AllocError>
        requires settled { is_settled body ≡ true }
        requires inside { self.old.leaf ≡ true }
        requires low { self.old.at ≤ end }
        requires boundary { IsCharBoundary self.old.text end }
        ensures { IfOk result (λ _. AppendsItem self.old self.new body end) }
    {
        self.tree.append(Item {
            start: self.at,
            end,
            body,
        })?;
        self.at = end;
        self.run = None;
        Ok(())
    }

    /// Opens a fenced code block with an info string.
    pub fn open_fenced(&mut self, info: CowStr<'a>) -> Result<(), AllocError>
        requires { self.old.leaf ≡ false }
        ensures opens { IfOk result (λ _.
            OpensNaming self.old self.new variant.FencedCodeBlock (text_of info.entry)) }
        ensures listed { self.new.footnotes ≡ self.old.footnotes }
    {
        let ix = push_text(&mut self.cows, info)?;
        let body = ItemBody::FencedCodeBlock(ix);
        enter(&mut self.tree, &mut self.blocks, self.at, body)?;
        self.leaf = true;
        self.run = None;
        Ok(())
    }

    /// Opens a footnote definition with a name, and lists the footnote as defined.
    pub fn open_footnote(&mut self, name: CowStr<'a>, listed: CowStr<'a>) -> Result<(), AllocError>
        requires { self.old.leaf ≡ false }
        ensures opens { IfOk result (λ _.
            OpensNaming self.old self.new variant.FootnoteDefinition (text_of name.entry)) }
        ensures listed { IfOk result (λ _. self.new.footnotes
            ≡ self.old.footnotes ++ text_of listed.entry ∷ []) }
    {
        self.footnotes.push(listed)?;
        let ix = push_text(&mut self.cows, name)?;
        let body = ItemBody::FootnoteDefinition(ix);
        enter(&mut self.tree, &mut self.blocks, self.at, body)?;
        self.leaf = false;
        self.run = None;
        Ok(())
    }

    /// Opens a heading with attributes.
    pub fn open_heading(
        &mut self,
        level: HeadingLevel,
        attributes: HeadingAttributes<'a>,
    ) -> Result<(), AllocError>
        requires { self.old.leaf ≡ false }
        ensures { IfOk result (λ _.
            OpensAttributed self.old self.new level (words_of attributes.entry)) }
    {
        let ix = HeadingIndex::of(self.headings.len() + 1)?;
        self.headings.push(attributes)?;
        let body = ItemBody::Heading(level, Some(ix));
        enter(&mut self.tree, &mut self.blocks, self.at, body)?;
        self.leaf = true;
        self.run = None;
        Ok(())
    }

    /// Opens a table with the alignments of its columns.
    pub fn open_table(&mut self, alignments: Vec<Alignment>) -> Result<(), AllocError>
        requires { self.old.leaf ≡ false }
        ensures { IfOk result (λ _. OpensTable self.old self.new alignments.items) }
    {
        let ix = AlignmentIndex(self.alignments.len());
        self.alignments.push(alignments)?;
        let body = ItemBody::Table(ix);
        enter(&mut self.tree, &mut self.blocks, self.at, body)?;
        self.leaf = false;
        self.run = None;
        Ok(())
    }

    /// Replaces the body of the innermost open block by one of the same kind, such as a paragraph's by a heading's.
    pub fn change(&mut self, body: ItemBody)
        requires block { is_plain_block body ≡ true }
        requires same { is_leaf body ≡ self.old.leaf }
        ensures same { self.new ≡ record self.old { blocks = self.new.blocks } }
        ensures changed { LastHasBody self.old.blocks self.new.blocks body }
    {
        if let Some(open) = self.blocks.last() {
            let block = OpenBlock {
                start: open.start,
                body,
            };
            replace_last(&mut self.blocks, block);
            rewrite(&mut self.tree, block);
        }
    }

    /// Moves the start of the innermost open block to a later byte offset, after white space. What the block contains
    /// stays.
    pub fn begin_later(&mut self, start: usize)
        requires low { start ≤ self.old.at }
        requires boundary { IsCharBoundary self.old.text start }
        requires white { IfSome (innermost_block self.old.blocks) (λ block.
            IsWhite self.old.text block.start start) }
        ensures same { self.new ≡ record self.old { blocks = self.new.blocks } }
        ensures begins { LastBegins self.old.blocks self.new.blocks start }
    {
        if let Some(open) = self.blocks.last() {
            let block = OpenBlock {
                start,
                body: open.body,
            };
            replace_last(&mut self.blocks, block);
            rewrite(&mut self.tree, block);
        }
    }

    /// Appends a thematic break up to byte offset `end`.
    pub fn rule(&mut self, end: usize) -> Result<(), AllocError>
        requires outside { self.old.leaf ≡ false }
        requires low { self.old.at ≤ end }
        requires boundary { IsCharBoundary self.old.text end }
        ensures { IfOk result (λ _. AppendsItem self.old self.new variant.Rule end) }
    {
        self.tree.append(Item {
            start: self.at,
            end,
            body: ItemBody::Rule,
        })?;
        self.at = end;
        self.run = None;
        Ok(())
    }

    /// Appends a text that replaces the bytes up to byte offset `end`.
    pub fn synthesize(&mut self, text: CowStr<'a>, end: usize) -> Result<(), AllocError>
        requires inside { self.old.leaf ≡ true }
        requires low { self.old.at ≤ end }
        requires boundary { IsCharBoundary self.old.text end }
        ensures { IfOk result (λ _.
            AppendsText self.old self.new end (text_of text.entry)) }
    {
        let ix = push_text(&mut self.cows, text)?;
        self.tree.append(Item {
            start: self.at,
            end,
            body: ItemBody::SynthesizeText(ix),
        })?;
        self.at = end;
        self.run = None;
        Ok(())
    }

    /// Appends an open item for one byte: a `$`, a quotation mark, a `<`, a `[` or a `]`.
    pub fn mark(&mut self, body: ItemBody) -> Result<(), AllocError>
        requires inside { self.old.leaf ≡ true }
        requires more { self.old.at < length self.old.text }
        requires byte { mark_byte body ≡ Some (slice_index self.old.text self.old.at) }
        ensures { IfOk result (λ _. AppendsItem self.old self.new body (self.old.at + 1)) }
    {
        let end = self.at + 1;
        self.tree.append(Item {
            start: self.at,
            end,
            body,
        })?;
        self.at = end;
        self.run = None;
        Ok(())
    }

    /// Appends the open item for a `![`.
    pub fn image(&mut self) -> Result<(), AllocError>
        requires inside { self.old.leaf ≡ true }
        requires more { self.old.at + 1 < length self.old.text }
        requires first { slice_index self.old.text self.old.at ≡ 33 }
        requires second { slice_index self.old.text (self.old.at + 1) ≡ 91 }
        ensures { IfOk result (λ _.
            AppendsItem self.old self.new variant.MaybeImage (self.old.at + 2)) }
    {
        let end = self.at + 2;
        self.tree.append(Item {
            start: self.at,
            end,
            body: ItemBody::MaybeImage,
        })?;
        self.at = end;
        self.run = None;
        Ok(())
    }

    /// Appends the open item for a run of backticks up to byte offset `end`; `escaped` is whether a backslash precedes
    /// it.
    #[inline(always)]
    pub fn backticks(&mut self, end: usize, escaped: bool) -> Result<(), AllocError>
        requires inside { self.old.leaf ≡ true }
        requires run { IsRunOf 96 self.old.text self.old.at end }
        ensures { IfOk result (λ _.
            AppendsItem self.old self.new (variant.MaybeCode (end - self.old.at) escaped) end) }
    {
        let count = in_32_bits(end - self.at)?;
        self.tree.append(Item {
            start: self.at,
            end,
            body: ItemBody::MaybeCode(count, escaped),
        })?;
        self.at = end;
        self.run = None;
        Ok(())
    }

    /// Appends a whole delimiter run of a character up to byte offset `end`; `opens` and `closes` are whether it can
    /// open and close.
    pub fn run(&mut self, byte: u8, end: usize, opens: bool, closes: bool) -> Result<(), AllocError>
        requires inside { self.old.leaf ≡ true }
        requires delimiter { is_delimiter byte ≡ true }
        requires whole { IsRunOf byte self.old.text self.old.at end }
        requires other { follows_run self.old.run byte ≡ false }
        ensures { IfOk result (λ _. self.new ≡ record self.old {
          at = end;
          run = Some byte;
          levels = with_items self.old.levels (run_items end opens closes (end - self.old.at));
        }) }
    {
        let start = self.at;
        self.at = end;
        append_texts(&mut self.tree, start, end)?;
        mark_run(&mut self.tree, end, end - start, opens, closes);
        self.run = Some(byte);
        Ok(())
    }

    /// Adds a link reference definition from the current byte offset, at a `[`, up to byte offset `end`.
    pub fn define(
        &mut self,
        label: CowStr<'a>,
        dest: CowStr<'a>,
        title: Option<CowStr<'a>>,
        end: usize,
    ) -> Result<(), AllocError>
        requires low { self.old.at ≤ end }
        requires boundary { IsCharBoundary self.old.text end }
        requires bracket { slice_index self.old.text self.old.at ≡ 91 }
        ensures { IfOk result (λ _. self.new ≡ record self.old {
          at = end;
          definitions = self.old.definitions ++ record {
            label = text_of label.entry;
            destination = text_of dest.entry;
            title = option_map text_of title.entry;
            start = self.old.at;
            end = end;
          } ∷ [];
        }) }
    {
        let span = self.at..end;
        self.definitions
            .push((label, LinkDef { dest, title, span }))?;
        self.at = end;
        Ok(())
    }

    /// Returns what was made, when the whole text is read and all blocks are closed. The paragraphs directly in the
    /// items of tight lists are tight, and rows have as many cells as their table has alignments.
    pub fn finish(self) -> (Tree<Item>, BlockParts<'a>)
        requires closed { self.blocks ≡ [] }
        requires read { self.at ≡ length self.text }
        ensures formed { IsWellFormed self.entry.text result.0.nodes result.1 }
        ensures covered { Covers self.entry.text result.0.nodes result.1 }
        ensures tight { TightInTightLists result.0.nodes }
        ensures headings { HeadingsHoldInline (tree_of result.0.nodes) }
        ensures rows { HasEvenRows (shown_result result.0.nodes result.1) }
        ensures tree { self.entry.levels
            ≡ shown_trees (parts_of self.entry) (relabelled (λ n. n.item) (tree_of result.0.nodes))
            ∷ [] }
        ensures parts { HasParts self.entry result.1 }
    {
        let parts = BlockParts {
            definitions: self.definitions,
            footnotes: self.footnotes,
            cows: self.cows,
            alignments: self.alignments,
            headings: self.headings,
        };
        (self.tree, parts)
    }
}

/// Returns whether a body is that of a leaf.
fn is_leaf(body: ItemBody) -> bool
    ensures { result ≡ is_leaf body }
{
    match body {
        ItemBody::Paragraph
        | ItemBody::TightParagraph
        | ItemBody::Heading(_, _)
        | ItemBody::FencedCodeBlock(_)
        | ItemBody::IndentCodeBlock
        | ItemBody::HtmlBlock
        | ItemBody::MetadataBlock(_)
        | ItemBody::DefinitionListTitle
        | ItemBody::TableCell => true,
        _ => false,
    }
}

/// Returns whether a body is that of a row of a table, or of its head.
fn is_table_row(body: ItemBody) -> bool
    ensures { result ≡ is_table_row body }
{
    match body {
        ItemBody::TableHead | ItemBody::TableRow => true,
        _ => false,
    }
}

/// Returns how many of the listed alignments a body refers to.
fn alignments_listed(listed: &[Vec<Alignment>], body: ItemBody) -> usize
    ensures { result ≡ length (alignments_shown (map (λ a. a.items) listed.now) body) }
{
    match body {
        ItemBody::Table(ix) => match listed.get(ix.0) {
            Some(alignments) => alignments.len(),
            None => 0,
        },
        _ => 0,
    }
}
