//! The state of the block pass between two lines, and the closing of blocks. Functions that return a `Result` fail only
//! if an allocation fails.
ghost use Rattle.std.specs.Prelude.{◌≡◌, ◌≤◌, [], length, IfOk, ℕ};
ghost use Rattle.std.specs.Option.{option_map};
ghost use Rattle.markdown_base.specs.Source.{source_as};
ghost use Rattle.markdown_builder.specs.BuilderView.{innermost_block};
ghost use Rattle.markdown_plain.specs.Closable.{AreClosable, MayCloseDown, MayEndLeaf, MayMakeRoom};
ghost use Rattle.markdown_plain.specs.OpenBlocks.{has_leaf, innermost_is, is_list, without_leaf};
ghost use Rattle.markdown_plain.specs.Paragraphs.{has_paragraph};
ghost use Rattle.markdown_plain.specs.PassSteps.{ClosesBlock, ClosesDown, MakesRoom};
ghost use Rattle.markdown_plain.specs.Readable.{HasNothing};

use crate::looseness::Looseness;
use crate::placing::Placing;
use crate::table_state::Tables;
use markdown_base::item::ItemBody;
use markdown_base::syntax::Syntax;
use markdown_base::tag::MetadataBlockKind;
use markdown_lines::fence::Fence;
use markdown_lines::held_line::HeldLine;
use markdown_lines::html_kind::HtmlKind;
use std::alloc::{AllocError, Global};

/// How the open code or HTML block continues.
#[derive(Clone, Copy, Drop)]
pub enum LeafKind {
    /// in indented lines, and in blank lines between them
    Indented,
    /// in all lines up to a closing fence
    Fenced(Fence),
    /// in all lines up to one that ends a block of its kind
    Html(HtmlKind),
    /// in all lines up to one that closes metadata of its kind
    Metadata(MetadataBlockKind),
}

/// The block pass between two lines. The builder has the open blocks, except that a paragraph is not opened before it
/// ends, since it may turn out to be definitions or a heading.
#[derive(Drop)]
pub struct Pass<'a> {
    pub alloc: Global,
    pub syntax: Syntax,
    pub placing: Placing<'a>,
    /// the lines of the open paragraph
    pub lines: Vec<HeldLine>,
    /// the blank lines after which the open indented code block may continue
    pub blanks: Vec<HeldLine>,
    /// the task marker that the open paragraph begins with, if any, by whether the task is done
    pub task: Option<bool>,
    /// whether it was tried in the open paragraph if only definitions precede a table's head
    pub tried: bool,
    /// the kind of the code or HTML block that was opened last
    pub leaf: LeafKind,
    pub looseness: Looseness,
    /// the byte offset from which on all lines that were read are blank for all open blocks
    pub placed: usize,
    pub tables: Tables,
}

impl<'a> Pass<'a> {
    /// Returns the state in which nothing is read yet.
    pub fn new(alloc: Global, text: &'a str, syntax: Syntax) -> Result<Pass<'a>, AllocError>
        ensures { IfOk result (λ made. HasNothing (source_as syntax text.now) made) }
    {
        let old = syntax.old_footnotes;
        Ok(Pass {
            alloc,
            syntax,
            placing: Placing::new(alloc, text, old)?,
            lines: Vec::new(alloc),
            blanks: Vec::new(alloc),
            task: None,
            tried: false,
            leaf: LeafKind::Indented,
            looseness: Looseness::new(alloc),
            placed: 0,
            tables: Tables::new(text.as_bytes().len()),
        })
    }

    /// Returns what was built.
    pub fn into_placing(self) -> Placing<'a>
        ensures { result ≡ self.entry.placing }
    {
        self.placing
    }

    /// Returns whether a paragraph is open.
    pub fn has_paragraph(&self) -> bool
        ensures { result ≡ has_paragraph self.now }
    {
        !self.placing.is_in_leaf() && !self.lines.is_empty()
    }

    /// Returns whether a leaf block is open: a leaf of the builder, or a table.
    fn has_leaf(&self) -> bool
        ensures { result ≡ has_leaf self.now.placing.builder }
    {
        self.placing.is_in_leaf() || self.is_in_table()
    }

    /// Returns the number of open blocks.
    pub fn depth(&self) -> usize
        ensures { result ≡ length self.now.placing.builder.blocks }
    {
        self.placing.open_blocks().len()
    }

    /// Returns whether the innermost open block is a list.
    fn is_in_list(&self) -> bool
        ensures { result ≡ innermost_is is_list self.now.placing.builder.blocks }
    {
        match innermost(&self.placing) {
            Some(ItemBody::List(_, _, _)) => true,
            _ => false,
        }
    }

    /// Closes the innermost open block, whose last line was read.
    pub fn close_block(&mut self)
        requires closable { AreClosable self.old.placing.builder self.old.placed }
        requires some { self.old.placing.builder.blocks ≡ [] → ⊥ }
        ensures { ClosesBlock self.old self.new }
    {
        match innermost(&self.placing) {
            Some(ItemBody::List(_, character, first)) => {
                let loose = self.looseness.close_list();
                self.placing
                    .change(ItemBody::List(!loose, character, first));
            }
            Some(ItemBody::BlockQuote(_)) => self.placing.step_to(self.placed),
            _ => {}
        }
        self.placing.close();
    }

    /// Ends the open leaf, and closes the open blocks except the outermost `depth`.
    #[inline(always)]
    pub fn close_down(&mut self, depth: usize) -> Result<(), AllocError>
        requires { MayCloseDown self.old depth }
        ensures { IfOk result (λ _. ClosesDown self.old self.new depth) }
    {
        self.end_leaf()?;
        'blocks: for _closed in depth..self.depth() {
            self.close_block();
        }
        Ok(())
    }

    /// Makes room for a block that is not an item: ends the open leaf, closes the open blocks except the outermost
    /// `depth`, and also closes the innermost of these if it is a list.
    pub fn make_room(&mut self, depth: usize) -> Result<(), AllocError>
        requires { MayMakeRoom self.old depth }
        ensures { IfOk result (λ _. MakesRoom self.old self.new depth) }
    {
        self.close_down(depth)?;
        if self.is_in_list() {
            self.close_block();
        }
        self.looseness.add_block(self.placing.open_blocks());
        Ok(())
    }

    /// Ends the open leaf block: places a paragraph, or closes another one without the blank lines held back at its end,
    /// which are not part of it.
    // inlined: it is called for each block
    #[inline(always)]
    pub fn end_leaf(&mut self) -> Result<(), AllocError>
        requires { MayEndLeaf self.old }
        ensures { IfOk result (λ _. (depth : ℕ)
            → length (without_leaf self.old.placing.builder) ≤ depth
            → ClosesDown self.old self.new depth) }
    {
        if self.has_leaf() {
            self.lines.clear();
            self.blanks.clear();
            self.placing.close();
        } else if !self.lines.is_empty() {
            self.end_paragraph(None)?;
        }
        Ok(())
    }
}

/// Returns the body of the innermost open block.
pub fn innermost(placing: &Placing<'_>) -> Option<ItemBody>
    ensures { result
        ≡ option_map (λ block. block.body) (innermost_block placing.now.builder.blocks) }
{
    match placing.open_blocks().last() {
        Some(block) => Some(block.body),
        None => None,
    }
}
