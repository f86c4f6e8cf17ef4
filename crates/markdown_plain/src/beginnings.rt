//! What begins in a line: the rest of a line, which block its first bytes begin, and how each of these is opened, until
//! the line is placed or the rest of it is inside a new container. `block_pass` goes on with that, turn by turn.
//! Functions that return a `Result` fail only if an allocation fails.
ghost use Rattle.std.specs.Prelude.{◌≡◌, ℕ, true, Some, IfOk, length};
ghost use Rattle.markdown_lines.specs.BlockBeginnings.{Beginning};
ghost use Rattle.markdown_lines.specs.BlockStarts.{beginning_found};
ghost use Rattle.markdown_lines.specs.declared.block_start.Before.TheVariants as before;
ghost use Rattle.markdown_lines.specs.declared.block_start.BlockStart.{BlockStart};
ghost use Rattle.markdown_lines.specs.declared.block_start.BlockStart.TheVariants as start;
ghost use Rattle.markdown_plain.specs.Beginning.{Begins, HasRoom, IsReadAsText, MayBeginBlock, MayRead};
ghost use Rattle.markdown_plain.specs.Beginning.{NeedsRoom, Reads};
ghost use Rattle.markdown_plain.specs.Closable.{MayMakeRoom};
ghost use Rattle.markdown_plain.specs.Fits.{MayStep};
ghost use Rattle.markdown_plain.specs.TextLines.{paragraph_before};
ghost use Rattle.markdown_plain.specs.declared.beginnings.LineRest.{LineRest};

use crate::pass::Pass;
use markdown_base::cow_str::CowStr;
use markdown_base::tag::{BlockQuoteKind, HeadingLevel, MetadataBlockKind};
use markdown_lines::atx_heading::AtxHeading;
use markdown_lines::block_start::{Before, BlockStart, ItemStart};
use markdown_lines::fence::OpeningFence;
use markdown_lines::html_kind::HtmlKind;
use markdown_lines::line::Line;
use markdown_lines::line_reader::LineReader;
use markdown_lines::position::Position;
use std::alloc::AllocError;

/// The rest of a line.
#[derive(Clone, Copy, Drop)]
pub struct LineRest<'a> {
    pub line: Line,
    pub reader: LineReader<'a>,
    /// where it begins
    pub position: Position,
    /// the number of open blocks that continue, or were opened in this line
    pub depth: usize,
    /// the paragraph that it may go on with
    pub before: Before,
}

impl<'a> Pass<'a> {
    /// Returns the paragraph that a line may go on with, where all open containers continue in it, or not.
    pub fn paragraph_before(&self, all: bool) -> Before
        ensures { result ≡ paragraph_before self.now all }
    {
        if !self.has_paragraph() {
            Before::NoParagraph
        } else if all {
            Before::Reached
        } else {
            Before::Lazy
        }
    }

    /// Reads the block that begins here. Returns whether the rest of the line is still to be read: inside a container,
    /// or once more.
    pub fn read_block(&mut self, rest: &mut LineRest<'a>) -> Result<bool, AllocError>
        requires { MayRead self.old rest.old }
        ensures { IfOk result (λ more. Reads self.old rest.old self.new rest.new more) }
    {
        let begun = rest.reader.beginning(rest.position, rest.before)?;
        let at = begun.at;
        match begun.start {
            BlockStart::Nothing => self.skip_blank(rest.line),
            BlockStart::Text => self.read_text(rest, at),
            BlockStart::IndentedCode(code) => self.read_indented(rest, code),
            BlockStart::Quote(inside) => self.read_quote(rest, at, inside),
            BlockStart::Alert(kind) => self.read_alert(rest, at, kind),
            BlockStart::Heading(heading) => self.read_heading(rest, at, heading),
            BlockStart::Fence(opening) => self.read_fence(rest, at, opening),
            BlockStart::Html(kind) => self.read_html(rest, kind),
            BlockStart::Footnote(label, inside) => self.read_footnote(rest, at, label, inside),
            BlockStart::Underline(level) => self.read_underline(rest, at, level),
            BlockStart::ThematicBreak => self.read_break(rest, at),
            BlockStart::Item(item) => self.read_item(rest, at, item),
            BlockStart::Metadata(kind) => self.read_metadata(rest, kind),
        }
    }

    /// Makes room for the block that the rest of a line begins, which is no item: ends the open leaf, and closes the
    /// containers that it is not in.
    #[inline(always)]
    fn make_room_for(&mut self, rest: &LineRest<'a>) -> Result<(), AllocError>
        requires { (at : ℕ) × (start : BlockStart) × MayBeginBlock self.old rest.now at start }
        ensures room { IfOk result (λ _. (at : ℕ) (start : BlockStart) (b : Beginning)
            (may : MayBeginBlock self.old rest.now at start)
            → beginning_found rest.now.reader start ≡ Some b → NeedsRoom b
            → HasRoom may.s self.new rest.now may.source b may.blocks) }
        ensures same { IfOk result (λ _. self.new ≡ record self.old {
          placing = self.new.placing;
          lines = self.new.lines;
          blanks = self.new.blanks;
          looseness = self.new.looseness;
        }) }
    {
        self.make_room(rest.depth)
    }

    /// Moves to a place inside the container that was opened last, and returns true.
    fn go_inside(&self, rest: &mut LineRest<'a>, inside: Position) -> bool
        ensures more { result ≡ true }
        ensures goes { rest.new ≡ record rest.old {
          position = inside;
          depth = length self.now.placing.builder.blocks;
          before = before.NoParagraph;
        } }
    {
        rest.position = inside;
        rest.depth = self.depth();
        rest.before = Before::NoParagraph;
        true
    }

    /// Passes over the rest of a line that is blank. Returns false, as for all blocks that are not containers.
    fn skip_blank(&mut self, line: Line) -> Result<bool, AllocError>
        requires { MayStep self.old.placing.builder line.next }
        ensures { IfOk result (λ more. (rest : LineRest) (at : ℕ) → rest.line ≡ line
            → Begins self.old rest at start.Nothing self.new rest more) }
    {
        self.placing.step_to(line.next);
        Ok(false)
    }

    /// Reads text, from its first byte on, as what would underline definitions alone may be. Returns false.
    // called at two places, one of them rare: inlined, so that the rest of a line is not copied for the call
    #[inline(always)]
    fn read_text(&mut self, rest: &LineRest<'a>, at: usize) -> Result<bool, AllocError>
        requires { MayMakeRoom self.old rest.now.depth }
        ensures { IfOk result (λ more. (start : BlockStart)
            → IsReadAsText self.old rest.now.line at start
            → Begins self.old rest.now at start self.new rest.now more) }
    {
        self.add_text(rest.line, at, rest.depth)?;
        Ok(false)
    }

    /// Reads the first line of indented code, from a place on. Returns false.
    fn read_indented(&mut self, rest: &LineRest<'a>, code: Position) -> Result<bool, AllocError>
        requires { (at : ℕ) × MayBeginBlock self.old rest.now at (start.IndentedCode code) }
        ensures { IfOk result (λ more. (at : ℕ)
            → Begins self.old rest.now at (start.IndentedCode code) self.new rest.now more) }
    {
        self.make_room_for(rest)?;
        self.open_indented(rest.line, code)?;
        Ok(false)
    }

    /// Reads the marker of a block quote. Returns true.
    fn read_quote(
        &mut self,
        rest: &mut LineRest<'a>,
        at: usize,
        inside: Position,
    ) -> Result<bool, AllocError>
        requires { MayBeginBlock self.old rest.old at (start.Quote inside) }
        ensures { IfOk result (λ more. Begins self.old rest.old at (start.Quote inside)
            self.new rest.new more) }
    {
        self.make_room_for(rest)?;
        self.open_quote(at, None)?;
        Ok(self.go_inside(rest, inside))
    }

    /// Reads the marker of an alert, which takes the whole line, and begins the paragraph that may follow it. Returns
    /// false.
    fn read_alert(
        &mut self,
        rest: &LineRest<'a>,
        at: usize,
        kind: BlockQuoteKind,
    ) -> Result<bool, AllocError>
        requires { MayBeginBlock self.old rest.now at (start.Alert kind) }
        ensures { IfOk result (λ more. Begins self.old rest.now at (start.Alert kind)
            self.new rest.now more) }
    {
        self.make_room_for(rest)?;
        self.open_quote(at, Some(kind))?;
        self.add_text(rest.line, rest.line.stop, self.depth())?;
        Ok(false)
    }

    /// Reads an ATX heading. Returns false.
    fn read_heading(
        &mut self,
        rest: &LineRest<'a>,
        at: usize,
        heading: AtxHeading,
    ) -> Result<bool, AllocError>
        requires { MayBeginBlock self.old rest.now at (start.Heading heading) }
        ensures { IfOk result (λ more. Begins self.old rest.now at (start.Heading heading)
            self.new rest.now more) }
    {
        self.make_room_for(rest)?;
        self.placing.step_to(at);
        self.add_heading(rest.line, heading)?;
        Ok(false)
    }

    /// Reads an opening code fence. Returns false.
    fn read_fence(
        &mut self,
        rest: &LineRest<'a>,
        at: usize,
        opening: OpeningFence,
    ) -> Result<bool, AllocError>
        requires { MayBeginBlock self.old rest.now at (start.Fence opening) }
        ensures { IfOk result (λ more. Begins self.old rest.now at (start.Fence opening)
            self.new rest.now more) }
    {
        self.make_room_for(rest)?;
        self.open_fenced(rest.line, at, opening)?;
        Ok(false)
    }

    /// Reads the first line of an HTML block. Returns false.
    fn read_html(&mut self, rest: &LineRest<'a>, kind: HtmlKind) -> Result<bool, AllocError>
        requires { (at : ℕ) × MayBeginBlock self.old rest.now at (start.Html kind) }
        ensures { IfOk result (λ more. (at : ℕ) → Begins self.old rest.now at (start.Html kind)
            self.new rest.now more) }
    {
        self.make_room_for(rest)?;
        self.open_html(rest.line, rest.position, kind)?;
        Ok(false)
    }

    /// Reads the marker of a footnote definition. Returns true.
    fn read_footnote(
        &mut self,
        rest: &mut LineRest<'a>,
        at: usize,
        label: CowStr<'a>,
        inside: Position,
    ) -> Result<bool, AllocError>
        requires { MayBeginBlock self.old rest.old at (start.Footnote label inside) }
        ensures { IfOk result (λ more.
            Begins self.old rest.old at (start.Footnote label.entry inside) self.new rest.new
            more) }
    {
        self.make_room_for(rest)?;
        self.open_footnote(at, label)?;
        Ok(self.go_inside(rest, inside))
    }

    /// Reads the underline of the open paragraph, and returns false. Where the paragraph holds definitions alone, the
    /// line underlines nothing: it is text of the paragraph, unless it is a thematic break. Then the paragraph ends, the
    /// line is still to be read, and it returns true.
    fn read_underline(
        &mut self,
        rest: &mut LineRest<'a>,
        at: usize,
        level: HeadingLevel,
    ) -> Result<bool, AllocError>
        requires { MayBeginBlock self.old rest.old at (start.Underline level) }
        ensures { IfOk result (λ more. Begins self.old rest.old at (start.Underline level)
            self.new rest.new more) }
    {
        if self.underlines_nothing(rest.line, at)? {
            return self.read_text(rest, at);
        }
        rest.before = Before::NoParagraph;
        let is_heading = self.end_paragraph(Some((level, rest.line)))?;
        Ok(!is_heading)
    }

    /// Reads a thematic break. Returns false.
    fn read_break(&mut self, rest: &LineRest<'a>, at: usize) -> Result<bool, AllocError>
        requires { MayBeginBlock self.old rest.now at start.ThematicBreak }
        ensures { IfOk result (λ more. Begins self.old rest.now at start.ThematicBreak
            self.new rest.now more) }
    {
        self.make_room_for(rest)?;
        self.placing.step_to(at);
        self.add_thematic_break(rest.line)?;
        Ok(false)
    }

    /// Reads the marker of a list item. Returns true.
    fn read_item(
        &mut self,
        rest: &mut LineRest<'a>,
        at: usize,
        item: ItemStart,
    ) -> Result<bool, AllocError>
        requires { MayBeginBlock self.old rest.old at (start.Item item) }
        ensures { IfOk result (λ more. Begins self.old rest.old at (start.Item item)
            self.new rest.new more) }
    {
        self.open_item(item, at, rest.depth)?;
        Ok(self.go_inside(rest, item.inside))
    }

    /// Reads the line that opens metadata. Returns false.
    fn read_metadata(
        &mut self,
        rest: &LineRest<'a>,
        kind: MetadataBlockKind,
    ) -> Result<bool, AllocError>
        requires { (at : ℕ) × MayBeginBlock self.old rest.now at (start.Metadata kind) }
        ensures { IfOk result (λ more. (at : ℕ) → Begins self.old rest.now at (start.Metadata kind)
            self.new rest.now more) }
    {
        self.make_room_for(rest)?;
        self.open_metadata(kind, rest.line)?;
        Ok(false)
    }
}
