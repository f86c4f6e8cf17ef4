//! Tables: how one begins at its delimiter row, and its rows. Functions that return a `Result` fail only where memory is
//! refused.
ghost use Rattle.std.specs.Prelude.{◌≡◌, ◌≤◌, ◌<◌, ◌+◌, ◌-◌, ◌==◌, ◌&&◌, ◌||◌, ◌∷◌, [], ℕ, None, Some, List};
ghost use Rattle.std.specs.Prelude.{false, true, not, length, min, slice_get, take, IfOk};
ghost use Rattle.std.specs.Option.{is_some, option_map};
ghost use Rattle.std.specs.Str.{IsCharBoundary};
ghost use Rattle.markdown_builder.specs.Bodies.{is_leaf, is_plain_block};
ghost use Rattle.markdown_builder.specs.EvenRows.{is_table_row, open_columns};
ghost use Rattle.markdown_plain.specs.Fitting.{GoesOn};
ghost use Rattle.markdown_items.specs.LineItems.{item_syntax};
ghost use Rattle.markdown_base.specs.Source.{Source};
ghost use Rattle.markdown_lines.specs.SourceLines.{SourceLine};
ghost use Rattle.markdown_lines.specs.TableRows.{delimiter_row_at, row_cells_at};
ghost use Rattle.markdown_block_rules.specs.BlockRules.{empty_cells, shown_cells};
ghost use Rattle.markdown_block_rules.specs.LineContents.{cell_items};
ghost use Rattle.markdown_block_rules.specs.TableLines.{fitting, may_be_head};
ghost use Rattle.markdown_plain.specs.Closable.{AreAhead, HaveTask, IsLeafOpen};
ghost use Rattle.markdown_plain.specs.HeldSources.{IsParagraph, IsTextLine};
ghost use Rattle.markdown_plain.specs.LeafTrees.{HasItems, HasMoreTexts};
ghost use Rattle.markdown_plain.specs.Paragraphs.{divided_of};
ghost use Rattle.markdown_plain.specs.TableHeads.{BeginsNoTable, BeginsTable, IsLastLine, IsNearRow};
ghost use Rattle.markdown_plain.specs.TableHeads.{MayBeginTable, TurnsToTable, last_of};
ghost use Rattle.markdown_plain.specs.TextLines.{held_line};
ghost use Rattle.markdown_plain.specs.OpenBlocks.{innermost_is, is_table};
ghost use Rattle.markdown_plain.specs.TableRows.{AddsRow, IsCellIn, IsOnePiece, MayAddCell, MayAddRow};
ghost use Rattle.markdown_plain.specs.TableRows.{PutsTrees, is_text_start, line_row, may_be_row};
ghost use Rattle.markdown_block_rules.specs.BlockGrowth.{with_next_line};
ghost use Rattle.markdown_plain.specs.ReachedLines as lines;
ghost use Rattle.markdown_plain.specs.ReachedTables.{ReachesTable, is_next_row};

use crate::containers::{Reached, reach};
use crate::paragraph::are_definitions;
use crate::pass::{Pass, innermost};
use crate::placing::Placing;
use markdown_base::byte_tests::holds;
use markdown_base::item::ItemBody;
use markdown_base::syntax::Syntax;
use markdown_base::tag::Alignment;
use markdown_lines::block_start::{Before, BlockStart};
use markdown_lines::bytes::{byte_at, bytes_of};
use markdown_lines::held_line::HeldLine;
use markdown_lines::line::{Line, is_space_or_tab};
use markdown_lines::line_reader::LineReader;
use markdown_lines::lines_ahead::LinesAhead;
use markdown_lines::position::Position;
use markdown_lines::space::read_space;
use markdown_lines::table_row::{
    Cell, cells_start, count_cells, delimiter_row, has_cell, has_cut, next_cell, piece_length,
};
use markdown_scan::entity::entity_names;
use std::alloc::{AllocError, Global};

/// Appends the items of a cell's content. Two backslashes that a `|` directly follows are in no item; they are looked for
/// where `escapes`, that a backslash may be in the content.
#[inline(always)]
fn add_cell_items(
    placing: &mut Placing<'_>,
    cell: Cell,
    escapes: bool,
    syntax: Syntax,
) -> Result<(), AllocError>
    requires inside { IsLeafOpen placing.old.builder }
    requires ahead { placing.old.builder.at ≤ cell.from }
    requires cell { IsCellIn placing.old.builder.text cell }
    ensures goes_on { IfOk result (λ _. GoesOn placing.old.builder placing.new.builder
        placing.new.builder.at) }
    ensures texts { IfOk result (λ _. HasMoreTexts placing.old.builder placing.new.builder) }
    ensures items { IfOk result (λ _. (escapes ≡ false → IsOnePiece placing.old.builder.text cell)
        → placing.old.builder.run ≡ None → HasItems placing.old.builder placing.new.builder
        (cell_items placing.old.builder.text (item_syntax syntax) cell.from cell.to)) }
    ensures within { IfOk result (λ _. placing.new.builder.at ≤ cell.to) }
{
    let mut from = cell.from;
    'pieces: while from < cell.to {
        let length = if escapes {
            piece_length(bytes_of(placing.text(), from, cell.to))
        } else {
            cell.to - from
        };
        let end = from.saturating_add(length);
        placing.step_to(from);
        placing.add_items(end, syntax)?;
        from = end.saturating_add(2);
    }
    Ok(())
}

/// Places a cell of a row, in which a backslash may be where `escapes`.
#[inline(always)]
fn place_cell(
    placing: &mut Placing<'_>,
    cell: Cell,
    escapes: bool,
    syntax: Syntax,
) -> Result<(), AllocError>
    requires may { MayAddCell placing.old.builder cell.start }
    requires cell { IsCellIn placing.old.builder.text cell }
    ensures { IfOk result (λ _. (escapes ≡ false → IsOnePiece placing.old.builder.text cell)
        → PutsTrees placing.old.builder placing.new.builder cell.end
        (shown_cells (record { text = placing.old.builder.text; syntax = syntax }) (cell ∷ []))) }
{
    placing.step_to(cell.start);
    placing.open_block(ItemBody::TableCell)?;
    add_cell_items(placing, cell, escapes, syntax)?;
    placing.step_to(cell.end);
    placing.close();
    Ok(())
}

/// Places an empty cell at a byte offset.
#[tactic(auto, using(crate::proofs::LeafTreesLemmas::outer_of_opened))]
fn place_empty_cell(placing: &mut Placing<'_>, at: usize) -> Result<(), AllocError>
    requires { MayAddCell placing.old.builder at }
    ensures { IfOk result (λ _. PutsTrees placing.old.builder placing.new.builder at
        (empty_cells 1 at)) }
{
    placing.step_to(at);
    placing.open_block(ItemBody::TableCell)?;
    placing.close();
    Ok(())
}

/// Places a line as a row of as many cells as the open table has columns: those beyond them are in no item, and those that
/// it lacks are empty ones at its end. Returns how many it does not lack.
#[tactic(auto, using(crate::proofs::LeafTreesLemmas::outer_of_opened))]
fn place_row(
    placing: &mut Placing<'_>,
    row: ItemBody,
    line: HeldLine,
    syntax: Syntax,
) -> Result<usize, AllocError>
    requires block { is_plain_block row ≡ true }
    requires outside { is_leaf row ≡ false }
    requires may { MayAddRow placing.old.builder line }
    ensures found { IfOk result (λ found. found ≡ min (open_columns placing.old.builder)
        (length (row_cells_at placing.old.builder.text line.start line.stop))) }
    ensures puts { IfOk result (λ _. is_table_row row ≡ true
        → PutsTrees placing.old.builder placing.new.builder line.next
        (line_row (record { text = placing.old.builder.text; syntax = syntax })
        (open_columns placing.old.builder) row line)) }
{
    let text = placing.text();
    let columns = placing.builder.columns();
    placing.step_to(line.start);
    placing.open_block(row)?;
    let escapes = holds(bytes_of(text, line.start, line.stop), b'\\');
    let mut found = 0;
    let mut start = cells_start(text, line.start, line.stop);
    'cells: for count in 0..columns {
        match next_cell(text, start, line.stop) {
            Some(cell) => {
                place_cell(placing, cell, escapes, syntax)?;
                start = cell.end + 1;
                found = count + 1;
            }
            None => {
                place_empty_cell(placing, line.next)?;
                start = line.stop;
            }
        }
    }
    placing.step_to(line.next);
    placing.close_row();
    Ok(found)
}

/// Returns the alignments of the delimiter row from byte offset `at` on, in a line whose content ends before `stop`, for
/// the line before it: it has a cut, and as many cells.
fn alignments_for(
    alloc: Global,
    text: &str,
    head: HeldLine,
    at: usize,
    stop: usize,
) -> Result<Option<Vec<Alignment>>, AllocError>
    ensures { IfOk result (λ found. (s : Source) (from row : SourceLine) → text.now ≡ s.text
        → IsTextLine text.now head from → IsNearRow at stop row
        → option_map (λ alignments. alignments.items) found ≡ fitting s from row) }
{
    if !has_cut(bytes_of(text, head.start, head.stop)) {
        return Ok(None);
    }
    let Some(alignments) = delimiter_row(alloc, text, at, stop)? else {
        return Ok(None);
    };
    if count_cells(text, head.start, head.stop) == alignments.len() {
        Ok(Some(alignments))
    } else {
        drop(alignments);
        Ok(None)
    }
}

/// Returns whether what a line begins is text.
fn is_text(start: &BlockStart<'_>) -> bool
    ensures { result ≡ is_text_start start.now }
{
    match start {
        BlockStart::Text => true,
        _ => false,
    }
}

/// Returns whether a delimiter row may begin with this byte. White space may precede its first cut.
fn begins_delimiter_row(byte: Option<u8>) -> bool
    ensures { result ≡ false → (text : List ℕ) (at stop : ℕ) → byte ≡ slice_get text at
        → delimiter_row_at text at stop ≡ None }
{
    let Some(byte) = byte else {
        return false;
    };
    if byte == b'|' || byte == b':' || byte == b'-' {
        return true;
    }
    is_space_or_tab(byte) || byte == b'\x0b' || byte == b'\x0c'
}

impl<'a> Pass<'a> {
    /// Returns whether a table is open.
    pub fn is_in_table(&self) -> bool
        ensures { result ≡ innermost_is is_table self.now.placing.builder.blocks }
    {
        match innermost(&self.placing) {
            Some(ItemBody::Table(_)) => true,
            _ => false,
        }
    }

    /// Makes the last line of the open paragraph the head of a table, if the rest of a line from a place on is the
    /// delimiter row for it, and returns whether it is. The lines before the head end as a paragraph.
    pub fn begin_table(&mut self, line: Line, position: Position) -> Result<bool, AllocError>
        requires { MayBeginTable self.old line }
        ensures begins { IfOk result (λ is. is ≡ true
            → BeginsTable self.old self.new line position) }
        ensures none { IfOk result (λ is. is ≡ false
            → BeginsNoTable self.old self.new line position) }
    {
        let text = self.placing.text();
        let space = read_space(text, position, line.stop, 4);
        if space.columns >= 4 || !begins_delimiter_row(byte_at(text, space.after.at)) {
            return Ok(false);
        }
        let Some(head) = self.last_line() else {
            return Ok(false);
        };
        let Some(alignments) = alignments_for(self.alloc, text, head, space.after.at, line.stop)?
        else {
            return Ok(false);
        };
        if !self.may_be_head(head)? {
            drop(alignments);
            return Ok(false);
        }
        self.open_table(head, alignments)?;
        self.placing.step_to(line.next);
        Ok(true)
    }

    /// Returns the last line of the open paragraph.
    fn last_line(&self) -> Option<HeldLine>
        ensures { result ≡ last_of self.now.lines.items }
    {
        match self.lines.last() {
            Some(line) => Some(*line),
            None => None,
        }
    }

    /// Returns whether the last line of the open paragraph may be the head of a table, as far as the lines before it
    /// matter: it is the first, or not lazy and after an alert's marker, or not lazy and begins with a `|`, or not lazy
    /// and after definitions alone. The last is tried once in a paragraph.
    fn may_be_head(&mut self, head: HeldLine) -> Result<bool, AllocError>
        ensures same { self.new ≡ record self.old { tried = self.new.tried } }
        ensures value { IfOk result (λ is. (s : Source) (before : List SourceLine)
            (from : SourceLine) → IsLastLine s self.old head before from
            → is ≡ may_be_head s before from) }
        ensures tried { IfOk result (λ is. (s : Source) (before : List SourceLine)
            (from : SourceLine) → IsLastLine s self.old head before from → is ≡ false
            → self.new.tried ≡ (self.old.tried || is_some from.indent)) }
    {
        let before = self.lines.len().saturating_sub(1);
        if before == 0 {
            return Ok(true);
        }
        let line = Line {
            start: self.lines[before - 1].next,
            stop: head.stop,
            next: head.next,
        };
        let reached = reach(self, line);
        if !reached.all {
            return Ok(false);
        }
        if before == 1 && self.lines[0].start >= self.lines[0].stop {
            return Ok(true);
        }
        let text = self.placing.text();
        let columns = read_space(text, reached.position, head.stop, 4).columns;
        if columns < 4 && byte_at(text, head.start) == Some(b'|') {
            return Ok(true);
        }
        self.is_after_definitions(before)
    }

    /// Returns whether the first lines of the open paragraph, of this number, are definitions alone, and false where that
    /// was tried before.
    fn is_after_definitions(&mut self, before: usize) -> Result<bool, AllocError>
        requires { before ≤ length self.old.lines.items }
        ensures same { self.new ≡ record self.old { tried = true } }
        ensures value { IfOk result (λ is. (sources : List SourceLine)
            → IsParagraph self.old.placing.builder.text (take before self.old.lines.items) sources
            → is ≡ (not self.old.tried
            && (length (divided_of self.old sources).lines == 0))) }
    {
        if self.tried {
            return Ok(false);
        }
        self.tried = true;
        let names = entity_names(self.syntax);
        are_definitions(
            self.alloc,
            self.placing.text(),
            &self.lines[..before],
            names,
        )
    }

    /// Opens a table with the last line of the open paragraph as its head; the lines before it end as a paragraph.
    fn open_table(&mut self, head: HeldLine, alignments: Vec<Alignment>) -> Result<(), AllocError>
        requires outside { self.old.placing.builder.leaf ≡ false }
        requires head { last_of self.old.lines.items ≡ Some head }
        requires ahead { AreAhead self.old.placing.builder self.old.lines.items }
        requires task { HaveTask self.old.placing.builder.text self.old.task self.old.lines.items }
        ensures { IfOk result (λ _.
            TurnsToTable self.old self.new head.next alignments.items) }
    {
        let _head = self.lines.pop();
        if !self.lines.is_empty() {
            self.end_paragraph(None)?;
        }
        self.placing.step_to(head.start);
        self.placing.open_table(alignments)?;
        let _found = place_row(&mut self.placing, ItemBody::TableHead, head, self.syntax)?;
        Ok(())
    }

    /// Returns whether a line with content, which reaches the open table, is a row that may be added to it: what ends a
    /// table is what would end a paragraph that the line continued lazily.
    pub fn is_row(
        &self,
        line: Line,
        reached: Reached,
        ahead: &mut LinesAhead<'a>,
    ) -> Result<bool, AllocError>
        requires { IsCharBoundary ahead.old.text.now line.stop }
        ensures ahead { ahead.new.text.now ≡ ahead.old.text.now }
        ensures value { IfOk result (λ is. (s : Source) (before : lines.Before)
            (source : SourceLine) → ahead.old.text.now ≡ s.text
            → ReachesTable s self.now line reached before source
            → is ≡ is_next_row s self.now line reached before source) }
    {
        let mut reader = LineReader::new(self.alloc, ahead, self.syntax, line, false);
        let begun = reader.beginning(Position::new(reached.content), Before::Lazy)?;
        Ok(is_text(&begun.start) && self.may_be_row(reached.content, line.stop))
    }

    /// Adds a line to the open table as a row, which may have the cells that it lacks. Its first byte that is neither a
    /// space nor a tab is at the byte offset `start`.
    // apart, so that lines outside tables take fewer instructions
    #[inline(never)]
    pub fn add_row(&mut self, line: Line, start: usize) -> Result<(), AllocError>
        requires { MayAddRow self.old.placing.builder (held_line line start) }
        ensures { IfOk result (λ _. may_be_row self.old start line.stop ≡ true
            → AddsRow self.old self.new line start) }
    {
        let row = HeldLine {
            start,
            stop: line.stop,
            next: line.next,
            owed: 0,
        };
        let columns = self.placing.builder.columns();
        let found = place_row(&mut self.placing, ItemBody::TableRow, row, self.syntax)?;
        let _fits = self.tables.add(columns.saturating_sub(found));
        Ok(())
    }

    /// Returns whether a line has a cell, from the byte offset `start` on, and may have those that it lacks. Its cells are
    /// counted only where there is no room for a whole row of them.
    fn may_be_row(&self, start: usize, stop: usize) -> bool
        ensures { result ≡ may_be_row self.now start stop }
    {
        let text = self.placing.text();
        let columns = self.placing.builder.columns();
        if self.tables.may_add(columns) {
            return has_cell(text, start, stop);
        }
        let count = count_cells(text, start, stop);
        0 < count && self.tables.may_add(columns.saturating_sub(count))
    }
}
