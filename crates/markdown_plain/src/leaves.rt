//! Leaf blocks other than paragraphs (CommonMark 4.1 to 4.6): how they are opened, and how they continue. Functions
//! that return a `Result` fail only if an allocation fails.
ghost use Rattle.std.specs.Prelude.{◌≡◌, ◌≤◌, ◌++◌, ◌∷◌, [], true, false, ℕ, List, Some, IfOk};
ghost use Rattle.markdown_base.specs.declared.item.ItemBody.TheVariants as body;
ghost use Rattle.markdown_lines.specs.Lines.{IsNextContent};
ghost use Rattle.markdown_lines.specs.SourceLines.{SourceLine, cut, is_blank_rest};
ghost use Rattle.markdown_block_rules.specs.BlockGrowth.{break_leaf, fenced_leaf, heading_leaf};
ghost use Rattle.markdown_block_rules.specs.BlockGrowth.{ends_html, html_leaf, indented_leaf};
ghost use Rattle.markdown_block_rules.specs.BlockGrowth.{metadata_leaf};
ghost use Rattle.markdown_plain.specs.declared.pass.LeafKind.TheVariants as leaf_kind;
ghost use Rattle.markdown_plain.specs.CodeLines.{ends_html_at, rest_from, whole_of};
ghost use Rattle.markdown_plain.specs.Fitting.{BracesStand, IsAhead, OpensHeading, OpensHeadingOf};
ghost use Rattle.markdown_plain.specs.Fits.{IsInLeaf, MayAddAfter, MayAddBefore, MayAddHeading};
ghost use Rattle.markdown_plain.specs.Fits.{MayAddLine, MayAddLines, MayEndWith, MayOpenHtml, MayOpenLeaf};
ghost use Rattle.markdown_plain.specs.HeldSources.{AreHeld, IsRest};
ghost use Rattle.markdown_plain.specs.LeafGrowth.{BeginsLeaf, GrowsLeaf, IsCode};
ghost use Rattle.markdown_plain.specs.LeafTrees.{AddsLines, ClosesIf};
ghost use Rattle.markdown_plain.specs.OpenLeaves.{InfoStands, IsLineRest};
ghost use Rattle.markdown_plain.specs.Standing.{IsSource};

use crate::pass::{LeafKind, Pass};
use crate::placing::Placing;
use markdown_base::item::ItemBody;
use markdown_base::tag::{HeadingLevel, MetadataBlockKind};
use markdown_lines::atx_heading::AtxHeading;
use markdown_lines::braces::Braces;
use markdown_lines::bytes::{bytes_of, part_of};
use markdown_lines::fence::{Fence, OpeningFence, is_closing_fence};
use markdown_lines::heading_attributes::heading_attributes;
use markdown_lines::held_line::HeldLine;
use markdown_lines::html_kind::HtmlKind;
use markdown_lines::line::Line;
use markdown_lines::metadata_block::closes_metadata;
use markdown_lines::position::Position;
use markdown_lines::space::read_space;
use markdown_scan::entity::entity_names;
use markdown_scan::unescape::unescape;
use std::alloc::{AllocError, Global};

/// Appends a line of a code block, with its line ending: a Text, after the columns that a partly read tab owes.
fn add_code(placing: &mut Placing<'_>, line: HeldLine) -> Result<(), AllocError>
    requires { MayAddLine placing.old.builder line.start line.next }
    ensures { IfOk result (λ _. AddsLines placing.old.builder placing.new.builder
        (body.Text false) (line ∷ [])) }
{
    placing.step_to(line.start);
    placing.add_owed(line.owed)?;
    if line.start >= line.next {
        return Ok(());
    }
    let text = ItemBody::Text {
        backslash_escaped: false,
    };
    placing.add_inline(text, line.next)
}

/// Appends lines of a code block.
fn add_codes(placing: &mut Placing<'_>, lines: &[HeldLine]) -> Result<(), AllocError>
    requires { MayAddLines placing.old.builder lines.now }
    ensures { IfOk result (λ _. AddsLines placing.old.builder placing.new.builder
        (body.Text false) lines.now) }
{
    'lines: for line in lines {
        add_code(placing, *line)?;
    }
    Ok(())
}

/// Opens a heading at the current byte offset, with the attributes that stand between braces.
#[tactic(auto, using(crate::proofs::LeafTreesLemmas::outer_of_opened))]
pub fn open_heading(
    alloc: Global,
    placing: &mut Placing<'_>,
    level: HeadingLevel,
    braces: Option<Braces>,
) -> Result<(), AllocError>
    requires { placing.old.builder.leaf ≡ false }
    ensures opens { IfOk result (λ _. OpensHeading placing.old.builder placing.new.builder level) }
    ensures heading { IfOk result (λ _. BracesStand placing.old.builder.text braces
        → OpensHeadingOf placing.old.builder placing.new.builder level braces) }
{
    let Some(braces) = braces else {
        return placing.open_block(ItemBody::Heading(level, None));
    };
    let attributes = heading_attributes(alloc, placing.text(), braces)?;
    placing.open_attributed(level, attributes)
}

/// Returns the rest of a line from a place on.
fn rest_of(line: Line, position: Position) -> HeldLine
    ensures { result ≡ rest_from line position }
{
    HeldLine {
        start: position.at,
        stop: line.stop,
        next: line.next,
        owed: position.owed,
    }
}

/// Returns a whole line.
fn whole_of(line: Line) -> HeldLine
    ensures { result ≡ whole_of line }
{
    HeldLine {
        start: line.start,
        stop: line.stop,
        next: line.next,
        owed: 0,
    }
}

impl<'a> Pass<'a> {
    /// Adds a thematic break that begins here.
    pub fn add_thematic_break(&mut self, line: Line) -> Result<(), AllocError>
        requires outside { self.old.placing.builder.leaf ≡ false }
        requires ahead { IsAhead self.old.placing.builder line.next }
        ensures text { IfOk result (λ _. self.new.placing.builder.text
            ≡ self.old.placing.builder.text) }
        ensures leaf { IfOk result (λ _. BeginsLeaf self.old self.new break_leaf
            self.old.placing.builder.at line.next true) }
        ensures same { self.new ≡ record self.old { placing = self.new.placing } }
    {
        self.placing.add_rule(line.next)
    }

    /// Adds an ATX heading that begins here.
    pub fn add_heading(&mut self, line: Line, heading: AtxHeading) -> Result<(), AllocError>
        requires { MayAddHeading self.old.placing.builder line heading }
        ensures text { IfOk result (λ _. self.new.placing.builder.text
            ≡ self.old.placing.builder.text) }
        ensures leaf { IfOk result (λ _. BracesStand self.old.placing.builder.text heading.braces
            → BeginsLeaf self.old self.new (heading_leaf heading) self.old.placing.builder.at
            line.next true) }
        ensures same { self.new ≡ record self.old { placing = self.new.placing } }
    {
        open_heading(self.alloc, &mut self.placing, heading.level, heading.braces)?;
        self.placing.step_to(heading.from);
        self.placing.add_items(heading.to, self.syntax)?;
        self.placing.step_to(line.next);
        self.placing.close();
        Ok(())
    }

    /// Opens a fenced code block that begins at byte offset `at`.
    pub fn open_fenced(
        &mut self,
        line: Line,
        at: usize,
        opening: OpeningFence,
    ) -> Result<(), AllocError>
        requires { MayOpenLeaf self.old.placing.builder at line.next }
        ensures text { IfOk result (λ _. self.new.placing.builder.text
            ≡ self.old.placing.builder.text) }
        ensures leaf { IfOk result (λ _. InfoStands self.old.placing.builder.text opening
            → BeginsLeaf self.old self.new (fenced_leaf opening false []) at line.next false) }
        ensures kind { IfOk result (λ _. self.new.leaf ≡ leaf_kind.Fenced opening.fence) }
        ensures same { self.new
            ≡ record self.old { placing = self.new.placing; leaf = self.new.leaf } }
    {
        self.placing.step_to(at);
        let source = part_of(self.placing.text(), opening.from, opening.to);
        let info = unescape(self.alloc, source, false, entity_names(self.syntax))?;
        self.placing.open_code(info)?;
        self.placing.step_to(line.next);
        self.leaf = LeafKind::Fenced(opening.fence);
        Ok(())
    }

    /// Adds a line to the open fenced code block, or closes the block where the line is a closing fence.
    pub fn add_fenced(
        &mut self,
        fence: Fence,
        line: Line,
        position: Position,
    ) -> Result<(), AllocError>
        requires { MayEndWith self.old.placing.builder position.at line.next }
        ensures text { IfOk result (λ _. self.new.placing.builder.text
            ≡ self.old.placing.builder.text) }
        ensures leaf { IfOk result (λ _. GrowsLeaf self.old self.new (leaf_kind.Fenced fence)
            (IsLineRest self.old.placing.builder.text position line)) }
        ensures same { self.new ≡ record self.old { placing = self.new.placing } }
    {
        let text = self.placing.text();
        let before = read_space(text, position, line.stop, 4);
        if before.columns < 4 && is_closing_fence(text, before.after.at, line.stop, fence) {
            self.placing.step_to(line.next);
            self.placing.close();
            return Ok(());
        }
        let code = read_space(text, position, line.stop, fence.indent).after;
        add_code(&mut self.placing, rest_of(line, code))
    }

    /// Opens metadata of a kind with a line.
    #[tactic(auto, using(crate::proofs::LeafTreesLemmas::outer_of_opened))]
    pub fn open_metadata(&mut self, kind: MetadataBlockKind, line: Line) -> Result<(), AllocError>
        requires { MayOpenLeaf self.old.placing.builder line.start line.next }
        ensures text { IfOk result (λ _. self.new.placing.builder.text
            ≡ self.old.placing.builder.text) }
        ensures leaf { IfOk result (λ _. BeginsLeaf self.old self.new (metadata_leaf kind false [])
            line.start line.next false) }
        ensures kind { IfOk result (λ _. self.new.leaf ≡ leaf_kind.Metadata kind) }
        ensures same { self.new
            ≡ record self.old { placing = self.new.placing; leaf = self.new.leaf } }
    {
        self.placing.step_to(line.start);
        self.placing.open_block(ItemBody::MetadataBlock(kind))?;
        self.placing.step_to(line.next);
        self.leaf = LeafKind::Metadata(kind);
        Ok(())
    }

    /// Adds a line to the open metadata, or closes it with the line.
    pub fn add_metadata(&mut self, kind: MetadataBlockKind, line: Line) -> Result<(), AllocError>
        requires { MayEndWith self.old.placing.builder line.start line.next }
        ensures text { IfOk result (λ _. self.new.placing.builder.text
            ≡ self.old.placing.builder.text) }
        ensures leaf { IfOk result (λ _. GrowsLeaf self.old self.new (leaf_kind.Metadata kind)
            (IsSource self.old line)) }
        ensures same { self.new ≡ record self.old { placing = self.new.placing } }
    {
        let content = bytes_of(self.placing.text(), line.start, line.stop);
        if closes_metadata(kind, content) {
            self.placing.step_to(line.next);
            self.placing.close();
            return Ok(());
        }
        add_code(&mut self.placing, whole_of(line))
    }

    /// Opens an HTML block with a line whose rest begins at a place. The block starts at the line's first content byte;
    /// its first Html includes the spaces before that.
    pub fn open_html(
        &mut self,
        line: Line,
        position: Position,
        kind: HtmlKind,
    ) -> Result<(), AllocError>
        requires { MayOpenHtml self.old.placing.builder line position }
        ensures text { IfOk result (λ _. self.new.placing.builder.text
            ≡ self.old.placing.builder.text) }
        ensures leaf { IfOk result (λ _. (source : SourceLine) (start : ℕ)
            → IsLineRest self.old.placing.builder.text position line source
            → IsNextContent self.old.placing.builder.text position.at (Some start)
            → BeginsLeaf self.old self.new (html_leaf kind (ends_html kind source) (source ∷ []))
            start line.next (ends_html kind source)) }
        ensures kind { IfOk result (λ _. self.new.leaf ≡ leaf_kind.Html kind) }
        ensures same { self.new
            ≡ record self.old { placing = self.new.placing; leaf = self.new.leaf } }
    {
        self.placing.step_to(position.at);
        self.placing.open_block(ItemBody::HtmlBlock)?;
        self.leaf = LeafKind::Html(kind);
        self.add_html_line(line, position)?;
        self.placing.begin_at_content();
        self.end_html(kind, line, position);
        Ok(())
    }

    /// Adds a line to the open HTML block, and closes the block if the line ends it.
    pub fn add_html(
        &mut self,
        kind: HtmlKind,
        line: Line,
        position: Position,
    ) -> Result<(), AllocError>
        requires { MayAddLine self.old.placing.builder position.at line.next }
        ensures text { IfOk result (λ _. self.new.placing.builder.text
            ≡ self.old.placing.builder.text) }
        ensures leaf { IfOk result (λ _. GrowsLeaf self.old self.new (leaf_kind.Html kind)
            (IsLineRest self.old.placing.builder.text position line)) }
        ensures same { self.new ≡ record self.old { placing = self.new.placing } }
    {
        self.add_html_line(line, position)?;
        self.end_html(kind, line, position);
        Ok(())
    }

    /// Appends the rest of a line from a place on: an Html, after the columns that a partly read tab owes.
    fn add_html_line(&mut self, line: Line, position: Position) -> Result<(), AllocError>
        requires { MayAddLine self.old.placing.builder position.at line.next }
        ensures adds { IfOk result (λ _. AddsLines self.old.placing.builder
            self.new.placing.builder body.Html (rest_from line position ∷ [])) }
        ensures same { self.new ≡ record self.old { placing = self.new.placing } }
    {
        self.placing.step_to(position.at);
        self.placing.add_owed(position.owed)?;
        if position.at < line.next {
            self.placing.add_inline(ItemBody::Html, line.next)?;
        }
        Ok(())
    }

    /// Closes the open HTML block, if a block of its kind ends with the rest of a line from a place on.
    fn end_html(&mut self, kind: HtmlKind, line: Line, position: Position)
        requires { IsInLeaf self.old.placing.builder }
        ensures ends { ClosesIf (ends_html_at self.old.placing.builder.text position line kind)
            self.old.placing.builder self.new.placing.builder }
        ensures same { self.new ≡ record self.old { placing = self.new.placing } }
    {
        if kind.ends_in(bytes_of(self.placing.text(), position.at, line.stop)) {
            self.placing.close();
        }
    }

    /// Opens an indented code block with a line whose code begins at a place.
    pub fn open_indented(&mut self, line: Line, position: Position) -> Result<(), AllocError>
        requires { MayOpenLeaf self.old.placing.builder position.at line.next }
        ensures text { IfOk result (λ _. self.new.placing.builder.text
            ≡ self.old.placing.builder.text) }
        ensures leaf { IfOk result (λ _. (source : SourceLine)
            → IsLineRest self.old.placing.builder.text position line source
            → is_blank_rest source ≡ false → BeginsLeaf self.old self.new
            (indented_leaf (source ∷ [])) position.at line.next false) }
        ensures kind { IfOk result (λ _. self.new.leaf ≡ leaf_kind.Indented) }
        ensures same { self.new
            ≡ record self.old { placing = self.new.placing; leaf = self.new.leaf } }
    {
        self.placing.step_to(position.at);
        self.placing.open_block(ItemBody::IndentCodeBlock)?;
        self.leaf = LeafKind::Indented;
        add_code(&mut self.placing, rest_of(line, position))
    }

    /// Adds a line to the open indented code block, after the blank lines that were held back.
    pub fn add_indented(&mut self, line: Line, position: Position) -> Result<(), AllocError>
        requires { MayAddAfter self.old.placing.builder self.old.blanks.items position.at
            line.next }
        ensures text { IfOk result (λ _. self.new.placing.builder.text
            ≡ self.old.placing.builder.text) }
        ensures leaf { IfOk result (λ _. GrowsLeaf self.old self.new leaf_kind.Indented
            (IsCode self.old.placing.builder.text position line)) }
        ensures emptied { IfOk result (λ _. self.new.blanks.items ≡ []) }
        ensures same { self.new
            ≡ record self.old { placing = self.new.placing; blanks = self.new.blanks } }
    {
        add_codes(&mut self.placing, &self.blanks)?;
        self.blanks.clear();
        add_code(&mut self.placing, rest_of(line, position))
    }

    /// Holds back a blank line of the open indented code block.
    pub fn hold_blank(&mut self, line: Line, position: Position) -> Result<(), AllocError>
        ensures source { IfOk result (λ _. (blank : List SourceLine) (source : SourceLine)
            → AreHeld self.old.blanks.items blank
            → IsRest self.old.placing.builder.text position line source
            → AreHeld self.new.blanks.items (blank ++ cut 4 source ∷ [])) }
        ensures fits { IfOk result (λ _.
            MayAddAfter self.old.placing.builder self.old.blanks.items position.at line.next
            → position.at ≤ line.stop → line.stop ≤ line.next
            → MayAddBefore self.old.placing.builder self.new.blanks.items line.next) }
        ensures same { self.new ≡ record self.old { blanks = self.new.blanks } }
    {
        let code = read_space(self.placing.text(), position, line.stop, 4).after;
        self.blanks.push(rest_of(line, code))?;
        Ok(())
    }
}
