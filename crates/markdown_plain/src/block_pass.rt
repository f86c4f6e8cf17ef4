//! The block pass, line by line: which open blocks continue, which blocks begin (`beginnings`), and what a lazy
//! continuation line continues (CommonMark, appendix on parsing). Functions that return a `Result` fail only where memory
//! is refused; what was built by then is not used.
ghost use Rattle.std.specs.Prelude.{◌≡◌, [], true, false, Some, IfOk, length, slice_range, take};
ghost use Rattle.std.specs.List.{list_all};
ghost use Rattle.std.specs.Str.{IsCharBoundary};
ghost use Rattle.markdown_base.specs.Forest.{Forest};
ghost use Rattle.markdown_block_rules.specs.BlockGrowth.{Block, blocks_of};
ghost use Rattle.markdown_block_rules.specs.BlockResults.{IsBlockResult};
ghost use Rattle.markdown_base.specs.Source.{Source, source_as};
ghost use Rattle.markdown_lines.specs.Lines.{AllPass, is_in_blank_line, is_space_or_tab};
ghost use Rattle.markdown_lines.specs.declared.position.Position.{Position};
ghost use Rattle.markdown_plain.specs.Beginning.{IsMadeOf, MayRead, Reads};
ghost use Rattle.markdown_plain.specs.Readable.{GoesOnAs, IsDelimiterRow, IsNoDelimiterRow, MayReadAsText, MayReadLine};
ghost use Rattle.markdown_plain.specs.Readable.{MayReadOn, MayReadRest, MayReadText, ReadsAsText, ReadsLine, ReadsRest};
ghost use Rattle.markdown_plain.specs.ListLooseness.{blank_from};
ghost use Rattle.markdown_plain.specs.OpenBlocks.{is_list};
ghost use Rattle.markdown_plain.specs.Settled.{IsBuilt};
ghost use Rattle.markdown_plain.specs.Standing.{PlacesFor, StandsFor};
ghost use Rattle.markdown_plain.specs.TextLines.{BeginsNoBlock, IsTextFrom};

use crate::beginnings::LineRest;
use crate::containers::{Reached, reach};
use crate::pass::{LeafKind, Pass};
use crate::placing::Placing;
use markdown_base::block_parts::BlockParts;
use markdown_base::item::{Item, ItemBody};
use markdown_base::syntax::Syntax;
use markdown_base::tag::MetadataBlockKind;
use markdown_base::tree::Tree;
use markdown_builder::open_block::OpenBlock;
use markdown_lines::bytes::{byte_at, bytes_of, is_white};
use markdown_lines::fence::Fence;
use markdown_lines::html_kind::HtmlKind;
use markdown_lines::line::{Line, is_space_or_tab, line_from};
use markdown_lines::line_reader::LineReader;
use markdown_lines::lines_ahead::LinesAhead;
use markdown_lines::position::Position;
use markdown_lines::space::read_space;
use std::alloc::{AllocError, Global};

/// The open leaf block that goes on in a line.
#[derive(Clone, Copy, Drop)]
enum Continued {
    /// none, or a paragraph may
    Nothing,
    FencedCode(Fence),
    Html(HtmlKind),
    /// indented code, whose line begins at a place
    IndentedCode(Position),
    Metadata(MetadataBlockKind),
    /// a table, of which the line is a row
    Table,
}

/// Returns whether a line with this first byte after white space may begin a block other than a paragraph, or be the
/// delimiter row of a table.
#[inline(always)]
fn may_begin_block(byte: u8) -> bool
    ensures { result ≡ false → BeginsNoBlock byte }
{
    match byte {
        b'>' | b'#' | b'`' | b'~' | b'<' | b'[' => true,
        b'=' | b'-' | b'_' | b'*' | b'+' | b'0'..=b'9' => true,
        b'|' | b':' | b'\x0b' | b'\x0c' => true,
        _ => false,
    }
}

/// Returns whether the byte at an offset in a line is not white space and begins no block other than a paragraph, nor a
/// delimiter row. In most lines the first byte is a letter.
// inlined: it is called for each line
#[inline(always)]
fn begins_text(text: &str, at: usize, stop: usize) -> bool
    ensures { result ≡ true → (position : Position) → position.at ≡ at → position.owed ≡ 0
        → IsTextFrom text.now position stop }
{
    at < stop
        && match byte_at(text, at) {
            Some(byte) if byte.is_ascii_alphabetic() => true,
            Some(byte) => !is_space_or_tab(byte) && !may_begin_block(byte),
            None => false,
        }
}

/// Returns whether the rest of a line from a place on begins with a byte that shows that it is text.
// inlined, as `begins_text`
#[inline(always)]
fn is_text_from(text: &str, position: Position, stop: usize) -> bool
    ensures { result ≡ true → IsTextFrom text.now position stop }
{
    position.owed == 0 && begins_text(text, position.at, stop)
}

/// Returns whether the outermost `depth` of the open blocks are lists, so that what a line begins in them is directly
/// under the root.
fn are_lists(blocks: &[OpenBlock], depth: usize) -> bool
    ensures { result ≡ list_all (λ block. is_list block.body) (take depth blocks.now) }
{
    for block in blocks.iter().take(depth) {
        match block.body {
            ItemBody::List(_, _, _) => {}
            _ => return false,
        }
    }
    true
}

impl<'a> Pass<'a> {
    /// Reads a line, where `ahead` are the lines of the text. Where no block is open, the first byte of most lines shows
    /// that they are text.
    fn read_line(&mut self, line: Line, ahead: &mut LinesAhead<'a>) -> Result<(), AllocError>
        requires { MayReadLine ahead.old.text.now self.old line }
        ensures ahead { ahead.new.text.now ≡ ahead.old.text.now }
        ensures reads { IfOk result (λ _. ReadsLine ahead.old.text.now self.old line self.new) }
    {
        if !self.placing.open_blocks().is_empty()
            || !begins_text(self.placing.text(), line.start, line.stop)
        {
            return self.read_any_line(line, ahead);
        }
        self.read_text_line(line, line.start, 0)
    }

    /// Reads a line that is text, from its first byte of content at byte offset `start` on, inside the outermost `depth`
    /// of the open blocks.
    // inlined, as `add_text`
    #[inline(always)]
    fn read_text_line(&mut self, line: Line, start: usize, depth: usize) -> Result<(), AllocError>
        requires { MayReadAsText self.old line start depth }
        ensures { IfOk result (λ _. ReadsAsText self.old line start depth self.new) }
    {
        self.add_text(line, start, depth)?;
        self.see_content(line);
        Ok(())
    }

    /// Records that a line was read that is not blank for the innermost blocks that continue in it.
    fn see_content(&mut self, line: Line)
        ensures placing { self.new.placing ≡ self.old.placing }
        ensures tables { self.new.tables ≡ self.old.tables }
        ensures stands { (s : Source) (blocks : Forest Block)
            → PlacesFor s self.old line.next blocks
            → StandsFor s self.new line.next blocks }
    {
        self.placed = line.next;
        self.looseness.see_content();
    }

    /// Reads a line, whatever blocks continue or begin in it.
    #[inline(never)]
    fn read_any_line(&mut self, line: Line, ahead: &mut LinesAhead<'a>) -> Result<(), AllocError>
        requires { MayReadLine ahead.old.text.now self.old line }
        ensures ahead { ahead.new.text.now ≡ ahead.old.text.now }
        ensures reads { IfOk result (λ _. ReadsLine ahead.old.text.now self.old line self.new) }
    {
        let reached = reach(self, line);
        let position = reached.position;
        match self.what_goes_on(line, reached, ahead)? {
            Continued::FencedCode(fence) => self.add_fenced(fence, line, position)?,
            Continued::Html(kind) => self.add_html(kind, line, position)?,
            Continued::IndentedCode(code) => self.add_indented(line, code)?,
            Continued::Metadata(kind) => self.add_metadata(kind, line)?,
            Continued::Table => self.add_row(line, reached.content)?,
            Continued::Nothing => {
                if reached.content >= line.stop {
                    return self.read_blank(line, reached);
                }
                return self.read_filled(line, reached, ahead);
            }
        }
        self.see_content(line);
        Ok(())
    }

    /// Returns which open leaf block goes on in a line.
    #[inline(always)]
    fn what_goes_on(
        &self,
        line: Line,
        reached: Reached,
        ahead: &mut LinesAhead<'a>,
    ) -> Result<Continued, AllocError>
        requires may { MayReadOn self.now line reached }
        requires text { ahead.old.text.now ≡ self.now.placing.builder.text }
        ensures ahead { ahead.new.text.now ≡ ahead.old.text.now }
        ensures goes_on { IfOk result (λ found. GoesOnAs self.now line reached found) }
    {
        if !reached.all {
            return Ok(Continued::Nothing);
        }
        let blank = reached.content >= line.stop;
        if !self.placing.is_in_leaf() {
            if !blank && self.is_in_table() && self.is_row(line, reached, ahead)? {
                return Ok(Continued::Table);
            }
            return Ok(Continued::Nothing);
        }
        match self.leaf {
            LeafKind::Fenced(fence) => Ok(Continued::FencedCode(fence)),
            LeafKind::Html(kind) => {
                if blank && kind.ends_at_blank() {
                    return Ok(Continued::Nothing);
                }
                Ok(Continued::Html(kind))
            }
            LeafKind::Indented => {
                if blank {
                    return Ok(Continued::Nothing);
                }
                let before = read_space(self.placing.text(), reached.position, line.stop, 4);
                if before.columns < 4 {
                    return Ok(Continued::Nothing);
                }
                Ok(Continued::IndentedCode(before.after))
            }
            LeafKind::Metadata(kind) => Ok(Continued::Metadata(kind)),
        }
    }

    /// Reads a line that is not blank for the innermost blocks that continue in it, and in which no open leaf block goes
    /// on.
    // inlined: it is called for most lines
    #[inline(always)]
    fn read_filled(
        &mut self,
        line: Line,
        reached: Reached,
        ahead: &mut LinesAhead<'a>,
    ) -> Result<(), AllocError>
        requires may { MayReadRest self.old line reached false }
        requires text { ahead.old.text.now ≡ self.old.placing.builder.text }
        ensures ahead { ahead.new.text.now ≡ ahead.old.text.now }
        ensures reads { IfOk result (λ _. ReadsRest self.old line reached false self.new) }
    {
        if is_text_from(self.placing.text(), reached.position, line.stop) {
            return self.read_text_line(line, reached.position.at, reached.depth);
        }
        if !self.read_delimiter_row(line, reached)? {
            let mut rest = self.rest_of(line, reached, ahead);
            self.read_rest(&mut rest)?;
        }
        self.see_content(line);
        Ok(())
    }

    /// Reads a line as the delimiter row of a table, where it is one for the last line of the open paragraph, and returns
    /// whether it is.
    fn read_delimiter_row(&mut self, line: Line, reached: Reached) -> Result<bool, AllocError>
        requires { MayReadRest self.old line reached false }
        ensures row { IfOk result (λ is. is ≡ true
            → IsDelimiterRow self.old line reached self.new) }
        ensures none { IfOk result (λ is. is ≡ false
            → IsNoDelimiterRow self.old line reached self.new) }
    {
        if !reached.all || !self.has_paragraph() || !self.syntax.tables {
            return Ok(false);
        }
        self.begin_table(line, reached.position)
    }

    /// Returns what the open containers left of a line.
    #[inline(always)]
    fn rest_of(&self, line: Line, reached: Reached, ahead: &mut LinesAhead<'a>) -> LineRest<'a>
        requires { IsCharBoundary ahead.old.text.now line.stop }
        ensures ahead { ahead.new.text.now ≡ ahead.old.text.now }
        ensures line { result.line ≡ line }
        ensures made { (s : Source) → ahead.old.text.now ≡ s.text
            → IsMadeOf s self.now reached result }
    {
        // only metadata asks whether the line is directly under the root
        let outermost = self.syntax.any_metadata()
            && are_lists(self.placing.open_blocks(), reached.depth);
        LineRest {
            line,
            reader: LineReader::new(self.alloc, ahead, self.syntax, line, outermost),
            position: reached.position,
            depth: reached.depth,
            before: self.paragraph_before(reached.all),
        }
    }

    /// Reads a line that is blank for the innermost blocks that continue in it.
    fn read_blank(&mut self, line: Line, reached: Reached) -> Result<(), AllocError>
        requires { MayReadRest self.old line reached true }
        ensures { IfOk result (λ _. ReadsRest self.old line reached true self.new) }
    {
        let in_code = match self.leaf {
            LeafKind::Indented => self.placing.is_in_leaf(),
            _ => false,
        };
        if in_code && reached.all {
            self.hold_blank(line, reached.position)?;
        } else {
            self.close_down(reached.depth)?;
        }
        self.see_blank(line, reached.quoted);
        Ok(())
    }

    /// Records that a line was read that is blank for the innermost blocks that continue in it: for the open blocks from
    /// the number `quoted` on.
    fn see_blank(&mut self, line: Line, quoted: usize)
        ensures same { self.new ≡ record self.old {
          looseness = record self.old.looseness {
            blank_from = Some (blank_from self.old.looseness.blank_from quoted);
          };
          placed = self.new.placed;
        } }
        ensures placed { list_all is_space_or_tab
            (slice_range self.old.placing.builder.text line.start line.stop) ≡ false
            → self.new.placed ≡ line.next }
        ensures stays { list_all is_space_or_tab
            (slice_range self.old.placing.builder.text line.start line.stop) ≡ true
            → self.new.placed ≡ self.old.placed }
    {
        self.looseness.see_blank(quoted);
        if !is_white(bytes_of(self.placing.text(), line.start, line.stop)) {
            self.placed = line.next;
        }
    }

    /// Reads what the open containers left of a line: opens blocks as long as some begin.
    #[inline(always)]
    fn read_rest(&mut self, rest: &mut LineRest<'a>) -> Result<(), AllocError>
        requires { MayRead self.old rest.old }
        ensures { IfOk result (λ _. Reads self.old rest.old self.new rest.new false) }
    {
        // each container takes at least one byte of the line; what is left after the last one is read too, and a line
        // that underlines definitions is read twice; 3 more than the last byte offset need more bits
        'blocks: for _turn in rest.line.start as u128..rest.line.next as u128 + 3 {
            if !self.read_block(rest)? {
                break;
            }
            if is_text_from(self.placing.text(), rest.position, rest.line.stop) {
                self.add_text(rest.line, rest.position.at, rest.depth)?;
                break;
            }
        }
        Ok(())
    }

    /// Reads all lines of the text, and closes all blocks.
    fn read_lines(&mut self) -> Result<(), AllocError>
        requires { MayReadText self.old }
        ensures built { IfOk result (λ _. (may : MayReadText self.old)
            → IsBuilt may.s self.new.placing.builder [] (blocks_of may.s)) }
        ensures left { IfOk result (λ _. AllPass is_in_blank_line self.new.placing.builder.text
            self.new.placing.builder.at (length self.new.placing.builder.text)) }
    {
        let text = self.placing.text();
        let mut ahead = LinesAhead::new(text);
        let mut from = 0;
        'lines: while from < text.as_bytes().len() {
            let line = line_from(text, from);
            self.read_line(line, &mut ahead)?;
            from = line.next;
        }
        self.close_down(0)
    }
}

/// Returns a text's blocks, all of them placed and closed.
fn place_all<'a>(alloc: Global, text: &'a str, syntax: Syntax) -> Result<Placing<'a>, AllocError>
    ensures read { IfOk result (λ made. made.builder.at ≡ length text.now) }
    ensures built { IfOk result (λ made. IsBuilt (source_as syntax text.now) made.builder []
        (blocks_of (source_as syntax text.now))) }
{
    let mut pass = Pass::new(alloc, text, syntax)?;
    pass.read_lines()?;
    let mut placing = pass.into_placing();
    placing.step_to(text.as_bytes().len());
    Ok(placing)
}

/// Returns the tree of a text's blocks, and the parts that its items refer to: exactly those that the rules of blocks
/// give (`markdown_block_rules`). Fails if an allocation fails.
///
/// The blocks are those of CommonMark 0.31.2, chapters 4 and 5, and, with footnotes enabled, footnote definitions. In a
/// tight list paragraphs are tight. A block's range extends from its marker or first content byte to the end of its
/// last line, with the line ending: a line feed, a carriage return, or both. Code and HTML blocks contain one Text or
/// Html for each line, with its line ending and without the prefixes of containers; the columns that a partly read tab
/// owes are a SynthesizeText. Between two lines of a paragraph there is a hard break (6.7), which starts with a
/// backslash or with two or more spaces, or otherwise a soft break (6.8) for the line ending; other spaces and tabs at
/// the beginning or end of a line are in no item. A definition's span begins at its `[`; all definitions of a repeated
/// label are kept. All ranges are byte offsets into `text`.
///
/// With footnotes enabled, at most 3 spaces and `[^label]:` open a footnote definition, which may interrupt a
/// paragraph. In GitHub's style it continues in lines that begin with 4 columns of space, in blank lines and in lazy
/// continuation lines; in the old style up to the first blank line.
///
/// Of what else may be read the following changes blocks. With tables enabled, a delimiter row makes the
/// line before it, the last of a paragraph, the head of a table, whose rows have as many cells. With task lists enabled,
/// a paragraph that begins an item on the line of its list marker may begin with a TaskListMarker over `[ ]` or `[x]`,
/// before white space, which is in no item. With GFM's alerts enabled, a block quote whose first line is `[!note]`, or
/// another kind, in any case, is of this kind; that line counts as the first of a paragraph and is in no item. With
/// heading attributes enabled, `{..}` at the end of a heading's last line is in no item, and its words are the heading's
/// attributes. With metadata blocks of a kind enabled, a line `---` or `+++` directly under the root, and the lines up to
/// one that closes it, are a MetadataBlock.
pub fn blocks<'a>(
    alloc: Global,
    text: &'a str,
    syntax: Syntax,
) -> Result<(Tree<Item>, BlockParts<'a>), AllocError>
    ensures { IfOk result (λ made. IsBlockResult (source_as syntax text.now) made.0.nodes made.1) }
{
    let placing = place_all(alloc, text, syntax)?;
    let Placing {
        builder,
        stretches,
        alloc: _,
    } = placing;
    drop(stretches);
    Ok(builder.finish())
}
