//! Block quotes (CommonMark 5.1), list items (5.2), and footnote definitions: how they continue in a line, and how they
//! are opened. Functions that return a `Result` fail only if an allocation fails.
ghost use Rattle.std.specs.Prelude.{◌≡◌, ℕ, ◌+◌, ◌<◌, ◌^◌, ◌++◌, ◌∷◌, [], true, None, List, nat_le, take, IfOk};
ghost use Rattle.markdown_base.specs.Forest.{Forest};
ghost use Rattle.markdown_block_rules.specs.BlockGrowth.{Block};
ghost use Rattle.markdown_base.specs.Source.{Source};
ghost use Rattle.markdown_lines.specs.Positions.{left_from};
ghost use Rattle.markdown_lines.specs.SourceLines.{SourceLine};
ghost use Rattle.markdown_plain.specs.Containers as spec;
ghost use Rattle.markdown_plain.specs.Closable.{IsInList, MayOpenItem, MayOpenList};
ghost use Rattle.markdown_plain.specs.Fitting.{opened};
ghost use Rattle.markdown_plain.specs.Fits.{MayStep};
ghost use Rattle.markdown_plain.specs.Frames.{Frame, reached};
ghost use Rattle.markdown_plain.specs.ReachedFrames.{IsBefore, IsReached};
ghost use Rattle.markdown_plain.specs.OpenBlocks.{outer_of};
ghost use Rattle.markdown_plain.specs.Stretches.{TakesNothing, deep_starts, taken_by};
ghost use Rattle.markdown_base.specs.declared.item.ItemBody.TheVariants as body;

use crate::pass::{Pass, innermost};
use crate::stretches::{Ahead, FEW, Taking, next_start, starts_after, taken_by};
use markdown_base::cow_str::CowStr;
use markdown_base::item::ItemBody;
use markdown_base::syntax::Syntax;
use markdown_base::tag::BlockQuoteKind;
use markdown_builder::open_block::OpenBlock;
use markdown_lines::block_start::ItemStart;
use markdown_lines::bytes::content_start;
use markdown_lines::line::Line;
use markdown_lines::list_marker::ListMarker;
use markdown_lines::position::Position;
use markdown_scan::container_parts::take_part;
use std::alloc::AllocError;

/// How far the open containers continue in a line.
#[derive(Clone, Copy, Drop)]
pub struct Reached {
    /// the number of open blocks that continue
    pub depth: usize,
    /// whether all open containers are among them
    pub all: bool,
    /// where the rest of the line begins
    pub position: Position,
    /// the byte offset of the first byte of the rest that is not a space or tab
    pub content: usize,
    /// the number of open blocks down to the innermost block quote that continues, with that included; 0 where there is
    /// none
    pub quoted: usize,
}

/// Returns whether a body is that of a container; lists count as such.
fn is_container(body: ItemBody) -> bool
    ensures { result ≡ spec.is_container body }
{
    match body {
        ItemBody::BlockQuote(_) | ItemBody::List(_, _, _) | ItemBody::ListItem(_) => true,
        ItemBody::FootnoteDefinition(_) => true,
        _ => false,
    }
}

/// Returns whether an open container ends before a line, blank or not: before a blank one, an item that is empty so far, or
/// a footnote definition in the old style.
fn ends_before(body: ItemBody, old: bool, empty: bool, blank: bool) -> bool
    ensures { result ≡ spec.ends_before old empty blank body }
{
    match body {
        ItemBody::ListItem(_) => blank && empty,
        ItemBody::FootnoteDefinition(_) => blank && old,
        _ => false,
    }
}

/// Returns the place after what an open container takes of a line, or `None` where it does not continue. `reached` is
/// what was reached outside it; `old`, whether footnote definitions are those of the old style; `empty`, whether the
/// container is an item that is empty so far.
#[inline(always)]
fn past_container(
    text: &str,
    body: ItemBody,
    old: bool,
    empty: bool,
    line: Line,
    reached: Reached,
) -> Option<Position>
    ensures { spec.LeftAt text.now line.stop
        (spec.past_container old empty (nat_le line.stop reached.content) body
        (left_from text.now reached.position line.stop)) result }
{
    if ends_before(body, old, empty, reached.content >= line.stop) {
        return None;
    }
    let mut rest = reached.position.reader(text, line.stop);
    if take_part(&mut rest, body, !old) {
        Some(Position::of(&rest))
    } else {
        None
    }
}

/// Returns what is reached with one more container, which continues up to a place.
#[inline(always)]
fn after_container(
    text: &str,
    body: ItemBody,
    position: Position,
    line: Line,
    reached: Reached,
) -> Reached
    requires { reached.depth + 1 < 2 ^ 64 }
    ensures { spec.reach_of text.now line.stop result
        ≡ spec.reach_after body (left_from text.now position line.stop)
        (spec.reach_of text.now line.stop reached) }
{
    let depth = reached.depth + 1;
    match body {
        ItemBody::BlockQuote(_) => Reached {
            depth,
            all: true,
            position,
            content: content_start(text, position.at, line.stop),
            quoted: depth,
        },
        _ => Reached {
            depth,
            all: true,
            position,
            content: reached.content,
            quoted: reached.quoted,
        },
    }
}

/// Returns whether an open block with this body, which is not the innermost, takes nothing of the rest of a line and
/// continues in it.
#[inline(always)]
fn is_skipped(body: ItemBody, old: bool, line: Line, reached: Reached) -> bool
    ensures { result ≡ true → (text : List ℕ) → TakesNothing (nat_le line.stop reached.content)
        (left_from text reached.position line.stop) (taken_by old body) }
{
    let blank = reached.content >= line.stop;
    if !blank && !old {
        return false;
    }
    match taken_by(body, old) {
        Taking::NothingOfBlank => {
            blank && reached.position.owed == 0 && reached.position.at >= line.stop
        }
        Taking::NothingOfFilled => !blank,
        Taking::Something => false,
    }
}

/// Returns how far open blocks continue in a line. `stretches` are those of the blocks, and `item_is_empty` is whether
/// the item that was opened last is empty so far.
#[inline(always)]
fn reach_blocks(
    text: &str,
    blocks: &[OpenBlock],
    stretches: Ahead<'_>,
    item_is_empty: bool,
    line: Line,
) -> Reached
    requires { stretches.known ≡ true
        → stretches.starts.now ≡ deep_starts stretches.old_notes (outer_of blocks.now) }
    ensures { spec.reach_of text.now line.stop result
        ≡ spec.reach_from stretches.entry.old_notes item_is_empty line.stop blocks.now
        (spec.reach_start (spec.whole_line text.now line)) }
{
    let mut starts = stretches.starts;
    let mut reached = Reached {
        depth: 0,
        all: true,
        position: Position::new(line.start),
        content: content_start(text, line.start, line.stop),
        quoted: 0,
    };
    'blocks: while reached.depth < blocks.len() {
        let body = blocks[reached.depth].body;
        if !is_container(body) {
            return reached;
        }
        let last = blocks.len() - 1;
        if FEW <= reached.depth
            && reached.depth < last
            && stretches.known
            && is_skipped(body, stretches.old_notes, line, reached)
        {
            reached.depth = next_start(starts, last);
            starts = starts_after(starts, reached.depth);
            continue;
        }
        let empty = (reached.depth + 1 == blocks.len()) & item_is_empty;
        match past_container(text, body, stretches.old_notes, empty, line, reached) {
            Some(position) => {
                reached = after_container(text, body, position, line, reached);
                starts = starts_after(starts, reached.depth);
            }
            None => {
                reached.all = false;
                return reached;
            }
        }
    }
    reached
}

/// Returns how far the open containers continue in a line.
// inlined, with what it calls: it is called for most lines
#[inline(always)]
pub fn reach(pass: &Pass<'_>, line: Line) -> Reached
    ensures reaches { spec.reach_of pass.now.placing.builder.text line.stop result
        ≡ spec.reach_from pass.now.syntax.old_footnotes pass.now.looseness.item_is_empty
        line.stop
        pass.now.placing.builder.blocks
        (spec.reach_start (spec.whole_line pass.now.placing.builder.text line)) }
    ensures frames { (s : Source) (frames : List Frame) (inside : Forest Block)
        (source : SourceLine) → IsBefore pass.now line s frames inside source
        → IsReached pass.now.placing.builder.text line source result
        (reached s frames inside source) }
{
    reach_blocks(
        pass.placing.text(),
        pass.placing.open_blocks(),
        pass.placing.ahead(pass.syntax.old_footnotes),
        pass.looseness.is_item_empty(),
        line,
    )
}

impl<'a> Pass<'a> {
    ghost use Rattle.std.specs.Prelude.{false};
    ghost use Rattle.markdown_base.specs.CowText.{text_of};
    ghost use Rattle.markdown_base.specs.Forest.{nil};
    ghost use Rattle.markdown_block_rules.specs.BlockGrowth.{footnote_container, list_container};
    ghost use Rattle.markdown_plain.specs.Frames.{innermost_is, is_item, is_list};
    ghost use Rattle.markdown_plain.specs.OpenedFrames.{quote_kind, with_frame};
    ghost use Rattle.markdown_plain.specs.PassSteps.{HasList, HasOnly, OpensItem};
    ghost use Rattle.markdown_plain.specs.Settled.{IsBuilt};

    /// Opens a block quote, an alert of a kind or none, whose marker is at the byte offset `at`.
    pub fn open_quote(&mut self, at: usize, kind: Option<BlockQuoteKind>) -> Result<(), AllocError>
        requires step { MayStep self.old.placing.builder at }
        requires outside { self.old.placing.builder.leaf ≡ false }
        ensures text { IfOk result (λ _. self.new.placing.builder.text
            ≡ self.old.placing.builder.text) }
        ensures opens { IfOk result (λ _.
            self.new.placing.builder ≡ opened self.old.placing.builder at (body.BlockQuote kind)) }
        ensures frame { IfOk result (λ _. (s : Source) (frames : List Frame)
            (inside : Forest Block) (b : Block) → IsBuilt s self.old.placing.builder frames inside
            → innermost_is is_list frames ≡ false → b.start ≡ at → b.kind ≡ quote_kind kind
            → IsBuilt s self.new.placing.builder (with_frame frames inside b) nil) }
        ensures same { self.new ≡ record self.old { placing = self.new.placing } }
    {
        self.placing.step_to(at);
        self.placing.open_block(ItemBody::BlockQuote(kind))
    }

    /// Opens an item whose marker is at the byte offset `at`, and a list unless one continues, inside the outermost
    /// `depth` of the open blocks.
    pub fn open_item(&mut self, item: ItemStart, at: usize, depth: usize) -> Result<(), AllocError>
        requires { MayOpenItem self.old depth at }
        ensures { IfOk result (λ _. OpensItem self.old self.new item at depth) }
    {
        self.close_down(depth)?;
        self.open_list(item.marker, at)?;
        self.placing.step_to(at);
        self.placing.open_block(ItemBody::ListItem(item.indent))
    }

    /// Adds an item to the innermost open block, if that is a list with this character, and otherwise opens a list. The
    /// item itself is not opened yet.
    fn open_list(&mut self, marker: ListMarker, at: usize) -> Result<(), AllocError>
        requires { MayOpenList self.old at }
        ensures text { IfOk result (λ _. self.new.placing.builder.text
            ≡ self.old.placing.builder.text) }
        ensures opens { IfOk result (λ _. (s : Source) (frames : List Frame)
            (inside : Forest Block) (list item : Block) → HasOnly s self.old frames inside
            → list.start ≡ at → list.kind ≡ list_container marker → is_item item.kind ≡ true
            → HasList s self.new marker list item frames inside) }
        ensures here { IfOk result (λ _. IsInList self.new.placing.builder at) }
        ensures same { IfOk result (λ _. self.new ≡ record self.old {
          placing = self.new.placing;
          looseness = self.new.looseness;
        }) }
    {
        if let Some(ItemBody::List(_, character, _)) = innermost(&self.placing) {
            if character == marker.character {
                self.looseness.add_item(self.placing.open_blocks());
                return Ok(());
            }
            self.close_block();
        }
        self.looseness.add_block(self.placing.open_blocks());
        self.placing.step_to(at);
        let list = ItemBody::List(true, marker.character, marker.first);
        self.placing.open_block(list)?;
        self.looseness.open_list()
    }

    /// Opens a footnote definition whose marker is at the byte offset `at`.
    pub fn open_footnote(&mut self, at: usize, label: CowStr<'a>) -> Result<(), AllocError>
        requires step { MayStep self.old.placing.builder at }
        requires outside { self.old.placing.builder.leaf ≡ false }
        ensures text { IfOk result (λ _. self.new.placing.builder.text
            ≡ self.old.placing.builder.text) }
        ensures opens { IfOk result (λ _.
            (ix : _) × (self.new.placing.builder.blocks ≡ self.old.placing.builder.blocks
            ++ record { start = at; body = body.FootnoteDefinition ix } ∷ [])) }
        ensures here { IfOk result (λ _. self.new.placing.builder.at ≡ at) }
        ensures frame { IfOk result (λ _. (s : Source) (frames : List Frame)
            (inside : Forest Block) (b : Block) → IsBuilt s self.old.placing.builder frames inside
            → innermost_is is_list frames ≡ false → b.start ≡ at
            → b.kind ≡ footnote_container (text_of label.entry)
            → IsBuilt s self.new.placing.builder (with_frame frames inside b) nil) }
        ensures same { self.new ≡ record self.old { placing = self.new.placing } }
    {
        self.placing.step_to(at);
        let listed = label.try_clone(self.alloc)?;
        self.placing.open_note(label, listed)
    }
}
