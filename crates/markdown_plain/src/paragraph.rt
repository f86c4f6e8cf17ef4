//! A paragraph: its lines, the breaks between them, and what else it may turn out to be (CommonMark 4.3, 4.7, 4.8).
//! Functions that return a `Result` fail only if an allocation fails.
ghost use Rattle.std.specs.Prelude.{◌≡◌, ℕ, ◌<◌, ◌≤◌, ◌++◌, ◌∷◌, [], true, false, None, List, length, IfOk};
ghost use Rattle.std.specs.Prelude.{MatchOption, ◌+◌, ◌==◌, drop, not, slice_get, take, if◌then◌else◌};
ghost use Rattle.markdown_base.specs.declared.item.ItemBody.TheVariants as body;
ghost use Rattle.markdown_builder.specs.BuilderView.{Opens};
ghost use Rattle.markdown_plain.specs.Fitting.{BracesStand, OpensHeading, OpensHeadingOf};
ghost use Rattle.markdown_plain.specs.Closable.{AreAhead, AreClosable, HasRoomFor, HasTask};
ghost use Rattle.markdown_plain.specs.Closable.{MayMakeRoom};
ghost use Rattle.markdown_plain.specs.Closable.{HaveBraces, IsClosable, IsInText, IsLastInText};
ghost use Rattle.markdown_plain.specs.Closable.{IsLeafOpen, IsPlaceable};
ghost use Rattle.markdown_plain.specs.OpenBlocks.{room_in, without_leaf};
ghost use Rattle.markdown_plain.specs.Paragraphs.{has_paragraph, is_item_in, lines_end};
ghost use Rattle.markdown_plain.specs.Paragraphs.{paragraph_end, task_left, divided_of};
ghost use Rattle.markdown_plain.specs.Paragraphs.{task_at, IsDivided, IsPlacedTo};
ghost use Rattle.markdown_plain.specs.Paragraphs.{UnderlinesNothing};
ghost use Rattle.markdown_plain.specs.HeldSources.{IsParagraph, AreTextLines, IsTextLine};
ghost use Rattle.markdown_plain.specs.LeafTrees.{Appends, HasItems, HasMoreTexts};
ghost use Rattle.markdown_plain.specs.ParagraphItems.{heading_braces, line_or_nothing};
ghost use Rattle.markdown_plain.specs.ParagraphItems.{text_items, BeginsWithTask, HaveEnds, IsLeft};
ghost use Rattle.markdown_plain.specs.ParagraphSteps.{AppendsWhole, BeginsLine, EndsTo};
ghost use Rattle.markdown_plain.specs.ParagraphSteps.{HasRoomForLine, MayEndParagraph, PlacesLines};
ghost use Rattle.markdown_plain.specs.ParagraphSteps.{TakesLines, ended_at};
ghost use Rattle.markdown_base.specs.Forest.{Forest, nil};
ghost use Rattle.markdown_builder.specs.Shown.{Shown};
ghost use Rattle.std.specs.Option.{option_map_or};
ghost use Rattle.markdown_items.specs.LineItems.{item_syntax};
ghost use Rattle.markdown_block_rules.specs.BlockRules.{before_braces};
ghost use Rattle.markdown_block_rules.specs.LineContents.{lines_items};
ghost use Rattle.markdown_plain.specs.TakenDefinitions.{TakesDefinitions};
ghost use Rattle.markdown_lines.specs.DefinitionRules.{divided};
ghost use Rattle.markdown_lines.specs.SourceLines.{SourceLine};
ghost use Rattle.markdown_base.specs.Source.{Source};
ghost use Rattle.markdown_block_rules.specs.BlockGrowth.{Block, paragraph_leaf, is_nil};
ghost use Rattle.markdown_plain.specs.Closing.{MayClose, MayEnd, StandsFor};
ghost use Rattle.markdown_builder.specs.TreeLevels.{followed_by};
ghost use Rattle.markdown_plain.specs.Frames.{Frame, rebuilt, room_depth, AreNested};
ghost use Rattle.markdown_plain.specs.OpenLeaves.{HoldsParagraph, IsPlaced, ended_block, leaf_block};
ghost use Rattle.markdown_plain.specs.OpenLeaves.{AreItemsOpenedIn, BeginsText, ComesAfter};
ghost use Rattle.markdown_plain.specs.Settled.{AreOpen, BlanksKnown, IsBuilt, IsLooseAs, IsLooseBefore};
ghost use Rattle.markdown_plain.specs.PassSteps.{AddsText};

use crate::leaves::open_heading;
use crate::pass::Pass;
use crate::placing::Placing;
use markdown_base::item::ItemBody;
use markdown_base::syntax::Syntax;
use markdown_base::tag::HeadingLevel;
use markdown_builder::open_block::OpenBlock;
use markdown_lines::atx_heading::trimmed_length;
use markdown_lines::braces::Braces;
use markdown_lines::bytes::{byte_at, bytes_of};
use markdown_lines::definition::read_definition;
use markdown_lines::heading_attributes::braces_at;
use markdown_lines::held_line::HeldLine;
use markdown_lines::line::Line;
use markdown_lines::line_break::line_break;
use markdown_lines::task_marker::{task_length, task_read};
use markdown_lines::thematic_break::thematic_break;
use markdown_scan::entity::{EntityNames, entity_names};
use std::alloc::{AllocError, Global};

/// Takes the definition at the beginning of a paragraph's lines, up to the end of its last line, and returns its number
/// of lines: 0 where there is none. A line of an alert's marker, of which nothing is left, is taken too.
#[tactic(auto, using(crate::proofs::ClosableLemmas::none_taken, crate::proofs::DefinitionsLemmas::takes_nothing))]
fn take_definition<'a>(
    alloc: Global,
    placing: &mut Placing<'a>,
    lines: &[HeldLine],
    names: EntityNames,
) -> Result<usize, AllocError>
    requires { AreAhead placing.old.builder lines.now }
    ensures lines { IfOk result (λ taken.
        TakesLines placing.old.builder placing.new.builder lines.now taken) }
    ensures takes { IfOk result (λ taken. (sources : List SourceLine)
        → IsParagraph placing.old.builder.text lines.now sources
        → TakesDefinitions names placing.old.builder placing.new.builder lines.now sources taken) }
    ensures over { IfOk result (λ taken. taken ≡ 0 → (sources : List SourceLine)
        → IsParagraph placing.old.builder.text lines.now sources
        → divided names placing.old.builder.text sources
        ≡ record { definitions = []; lines = sources }) }
{
    let text = placing.text();
    let Some(first) = lines.first() else {
        return Ok(0);
    };
    if first.start == first.stop {
        placing.step_to(first.next);
        return Ok(1);
    }
    if byte_at(text, first.start) != Some(b'[') {
        return Ok(0);
    }
    let Some(found) = read_definition(alloc, text, lines, first.start, names)? else {
        return Ok(0);
    };
    let taken = found.lines.max(1).min(lines.len());
    placing.step_to(first.start);
    placing.add_definition(found)?;
    placing.step_to(lines[taken - 1].next);
    Ok(taken)
}

/// Takes all definitions at the beginning of a paragraph's lines, and returns their number of lines.
fn take_definitions<'a>(
    alloc: Global,
    placing: &mut Placing<'a>,
    lines: &[HeldLine],
    names: EntityNames,
) -> Result<usize, AllocError>
    requires { AreAhead placing.old.builder lines.now }
    ensures lines { IfOk result (λ taken.
        TakesLines placing.old.builder placing.new.builder lines.now taken) }
    ensures divides { IfOk result (λ taken. (sources : List SourceLine)
        → IsParagraph placing.old.builder.text lines.now sources
        → IsDivided names placing.old.builder placing.new.builder sources taken) }
{
    let mut taken = 0;
    'definitions: while taken < lines.len() {
        let more = take_definition(alloc, placing, &lines[taken..], names)?;
        if more == 0 {
            break;
        }
        taken = more.saturating_add(taken);
    }
    Ok(taken)
}

/// Returns whether lines are definitions alone.
pub fn are_definitions(
    alloc: Global,
    text: &str,
    lines: &[HeldLine],
    names: EntityNames,
) -> Result<bool, AllocError>
    ensures { IfOk result (λ are. (sources : List SourceLine)
        → IsParagraph text.now lines.now sources
        → are ≡ (length (divided names text.now sources).lines == 0)) }
{
    let mut taken: usize = 0;
    'definitions: for _ in 0..lines.len() {
        let Some(first) = lines.get(taken) else {
            break;
        };
        if first.start >= first.stop {
            taken += 1;
            continue;
        }
        if byte_at(text, first.start) != Some(b'[') {
            return Ok(false);
        }
        match read_definition(alloc, text, &lines[taken..], first.start, names)? {
            Some(found) => taken = found.lines.max(1).saturating_add(taken),
            None => return Ok(false),
        }
    }
    Ok(true)
}

/// Appends a line that is not the paragraph's last, and the break after it. There is none where the line holds nothing
/// more after a task marker.
#[tactic(auto, using(crate::proofs::ParagraphTreesLemmas::step_appends))]
fn add_broken_line(
    placing: &mut Placing<'_>,
    line: HeldLine,
    syntax: Syntax,
) -> Result<(), AllocError>
    requires { HasRoomForLine placing.old.builder line }
    ensures appends { IfOk result (λ _. Appends placing.old.builder placing.new.builder line.next) }
    ensures items { IfOk result (λ _. (source : SourceLine)
        → IsTextLine placing.old.builder.text line source → placing.old.builder.run ≡ None
        → placing.old.builder.at ≡ line.start
        → AppendsWhole placing.old.builder placing.new.builder
        (line_or_nothing (record { text = placing.old.builder.text; syntax = syntax }) source)) }
{
    if line.start == line.stop {
        placing.step_to(line.next);
        return Ok(());
    }
    let text = placing.text();
    let between = line_break(text, line.start, line.stop);
    placing.add_items(between.text_end, syntax)?;
    placing.step_to(between.start);
    placing.add_inline(between.body, line.next)
}

/// Appends the last line.
#[tactic(auto, using(crate::proofs::ParagraphTreesLemmas::appends_twice, crate::proofs::ParagraphTreesLemmas::step_appends))]
fn add_last_line(
    placing: &mut Placing<'_>,
    line: HeldLine,
    syntax: Syntax,
) -> Result<(), AllocError>
    requires inside { IsLeafOpen placing.old.builder }
    requires ahead { placing.old.builder.at ≤ line.start }
    requires line { IsLastInText placing.old.builder.text line }
    ensures appends { IfOk result (λ _. Appends placing.old.builder placing.new.builder line.next) }
    ensures items { IfOk result (λ _. (source : SourceLine)
        → IsTextLine placing.old.builder.text line source → placing.old.builder.run ≡ None
        → placing.old.builder.at ≡ line.start → HasItems placing.old.builder placing.new.builder
        (lines_items placing.old.builder.text (item_syntax syntax) (source ∷ []))) }
{
    let content = bytes_of(placing.text(), line.start, line.stop);
    let end = line.start.saturating_add(trimmed_length(content));
    placing.add_items(end, syntax)?;
    placing.step_to(line.next);
    Ok(())
}

/// What is no content of a paragraph's or a heading's lines: the task marker at the beginning of the first, by whether
/// the task is done, and the braces at the end of the last.
#[derive(Clone, Copy, Drop)]
struct Ends {
    task: Option<bool>,
    braces: Option<Braces>,
}

/// Goes to the beginning of a line, appends the task marker there, if any, and returns what follows that and the white
/// space after it.
#[tactic(auto, using(crate::proofs::ParagraphTreesLemmas::step_appends, crate::proofs::ParagraphTreesLemmas::appends_twice, crate::proofs::ParagraphTreesLemmas::item_appends))]
fn begin_line(
    placing: &mut Placing<'_>,
    line: HeldLine,
    task: Option<bool>,
) -> Result<HeldLine, AllocError>
    requires room { HasRoomForLine placing.old.builder line }
    requires task { HasTask placing.old.builder.text task line }
    ensures appends { IfOk result (λ rest. Appends placing.old.builder placing.new.builder
        rest.start) }
    ensures rest { IfOk result (λ rest. rest ≡ record line { start = rest.start }) }
    ensures within { IfOk result (λ rest. IsInText placing.old.builder.text rest) }
    ensures begins { IfOk result (λ rest. (source : SourceLine)
        → IsTextLine placing.old.builder.text line source → BeginsWithTask task source
        → placing.old.builder.run ≡ None
        → BeginsLine placing.old.builder placing.new.builder task source rest) }
{
    placing.step_to(line.start);
    let Some(done) = task else {
        return Ok(line);
    };
    let length = task_length(bytes_of(placing.text(), line.start, line.stop));
    placing.add_inline(ItemBody::TaskListMarker(done), line.start.saturating_add(3))?;
    let start = line.start.saturating_add(length);
    placing.step_to(start);
    Ok(HeldLine { start, ..line })
}

/// Returns a line that is cut off where braces open.
fn cut_off(line: HeldLine, braces: Option<Braces>) -> HeldLine
    ensures { result
        ≡ record line { stop = option_map_or (λ braces. braces.opening) braces line.stop } }
{
    match braces {
        Some(braces) => HeldLine {
            stop: braces.opening,
            ..line
        },
        None => line,
    }
}

/// Appends a line of the open paragraph or heading, which begins with this task marker, if any, and has these braces at
/// its end where it is the last.
fn add_line(
    placing: &mut Placing<'_>,
    lines: &[HeldLine],
    number: usize,
    ends: Ends,
    syntax: Syntax,
) -> Result<(), AllocError>
    requires within { number < length lines.now }
    requires room { HasRoomFor placing.old.builder lines.now number ends }
    ensures appends { IfOk result (λ _. Appends placing.old.builder placing.new.builder
        (option_map_or (λ line. line.next) (slice_get lines.now number) 0)) }
    ensures left { IfOk result (λ _. (s : Source) (sources : List SourceLine)
        (all : List (Forest Shown))
        → s ≡ record { text = placing.old.builder.text; syntax = syntax }
        → AreTextLines s.text lines.now sources
        → IsLeft s ends (drop number sources) placing.old.builder all
        → IsLeft s (record ends { task = None }) (drop (number + 1) sources)
        placing.new.builder all) }
{
    let line = begin_line(placing, lines[number], ends.task)?;
    if number == lines.len() - 1 {
        add_last_line(placing, cut_off(line, ends.braces), syntax)
    } else {
        add_broken_line(placing, line, syntax)
    }
}

/// Appends the lines of the open paragraph or heading from the number `from` on, without what is at their ends.
fn add_lines(
    placing: &mut Placing<'_>,
    lines: &[HeldLine],
    from: usize,
    ends: Ends,
    syntax: Syntax,
) -> Result<(), AllocError>
    requires { HasRoomFor placing.old.builder lines.now from ends }
    ensures appends { IfOk result (λ _. from < length lines.now
        → Appends placing.old.builder placing.new.builder (lines_end lines.now)) }
    ensures items { IfOk result (λ _. (sources : List SourceLine)
        → AreTextLines placing.old.builder.text lines.now sources
        → HaveEnds (drop from sources) ends → placing.old.builder.run ≡ None
        → HasItems placing.old.builder placing.new.builder
        (text_items (record { text = placing.old.builder.text; syntax = syntax }) ends.task
        (before_braces ends.braces (drop from sources)))) }
{
    'lines: for number in from..lines.len() {
        let task = if number == from { ends.task } else { None };
        add_line(placing, lines, number, Ends { task, ..ends }, syntax)?;
    }
    Ok(())
}

/// Returns whether an open block is an item that was opened in a line.
fn is_item_in(block: OpenBlock, line: Line) -> bool
    ensures { result ≡ is_item_in block line }
{
    match block.body {
        ItemBody::ListItem(_) => line.start <= block.start,
        _ => false,
    }
}

/// Returns the byte offset after a paragraph, or after the underline of the heading that it is.
fn paragraph_end(lines: &[HeldLine], heading: Option<(HeadingLevel, Line)>) -> usize
    ensures { result ≡ paragraph_end lines.now heading }
{
    match heading {
        Some((_, underline)) => underline.next,
        None => match lines.last() {
            Some(last) => last.next,
            None => 0,
        },
    }
}

/// Opens a paragraph, or the heading that it turned out to be.
fn open_text(
    alloc: Global,
    placing: &mut Placing<'_>,
    heading: Option<(HeadingLevel, Line)>,
    braces: Option<Braces>,
) -> Result<(), AllocError>
    requires { placing.old.builder.leaf ≡ false }
    ensures opens { IfOk result (λ _.
        MatchOption heading (Opens placing.old.builder placing.new.builder body.Paragraph)
        (λ h. OpensHeading placing.old.builder placing.new.builder h.0)) }
    ensures leaf { IfOk result (λ _. BracesStand placing.old.builder.text braces
        → MatchOption heading (Opens placing.old.builder placing.new.builder body.Paragraph)
        (λ h. OpensHeadingOf placing.old.builder placing.new.builder h.0 braces)) }
{
    match heading {
        Some((level, _)) => open_heading(alloc, placing, level, braces),
        None => placing.open_block(ItemBody::Paragraph),
    }
}

impl<'a> Pass<'a> {
    /// Returns the task marker at byte offset `start` in a line, if text begins there an item that was opened in this
    /// line: whether the task is done.
    #[inline(always)]
    fn task_at(&self, line: Line, start: usize) -> Option<bool>
        ensures { result ≡ task_at self.now line start }
    {
        let block = self.placing.open_blocks().last()?;
        if is_item_in(*block, line) {
            task_read(self.placing.text(), start, line.stop, self.syntax)
        } else {
            None
        }
    }

    /// Adds a line, from its first content byte at byte offset `start` on, to the open paragraph; where none is open,
    /// begins one inside the outermost `depth` of the open blocks.
    // inlined: it is called for each line of a paragraph
    #[inline(always)]
    pub fn add_text(&mut self, line: Line, start: usize, depth: usize) -> Result<(), AllocError>
        requires { MayMakeRoom self.old depth }
        ensures { IfOk result (λ _. AddsText self.old self.new line start depth) }
    {
        if !self.has_paragraph() {
            self.make_room(depth)?;
            self.task = self.task_at(line, start);
            self.tried = false;
        }
        let held = HeldLine {
            start,
            stop: line.stop,
            next: line.next,
            owed: 0,
        };
        self.lines.push(held)?;
        Ok(())
    }

    /// Returns the task marker before the lines from the number `from` on: only the first of all may begin with one.
    fn task_left(&self, from: usize) -> Option<bool>
        ensures { result ≡ task_left self.now from }
    {
        if from == 0 { self.task } else { None }
    }

    /// Returns the braces at the end of the last line, where it is that of a heading and attributes are read.
    #[tactic(auto, using(crate::proofs::ParagraphTreesLemmas::braces_stand))]
    fn last_braces(&self, heading: Option<(HeadingLevel, Line)>) -> Option<Braces>
        ensures stand { BracesStand self.now.placing.builder.text result }
        ensures value { (sources : List SourceLine) (from : ℕ)
            → AreTextLines self.now.placing.builder.text self.now.lines.items sources
            → from < length self.now.lines.items
            → result ≡ heading_braces self.now.syntax heading (drop from sources) }
        ensures fits { HaveBraces self.now.placing.builder.text result self.now.lines.items }
    {
        if heading.is_none() || !self.syntax.attributes {
            return None;
        }
        let last = self.lines.last()?;
        braces_at(self.placing.text(), last.start, last.stop)
    }

    /// Returns whether a line that would underline the open paragraph, from its first content byte at byte offset `start`
    /// on, is text of that: the paragraph holds definitions alone, and the line is no thematic break.
    pub fn underlines_nothing(&self, line: Line, start: usize) -> Result<bool, AllocError>
        ensures { IfOk result (λ nothing. UnderlinesNothing self.now line start nothing) }
    {
        let text = self.placing.text();
        if thematic_break(bytes_of(text, start, line.stop)).is_ok() {
            return Ok(false);
        }
        let names = entity_names(self.syntax);
        are_definitions(self.alloc, text, &self.lines, names)
    }

    /// Places the lines from the number `from` on as a paragraph, or as a heading that ends with the line of its
    /// underline. Only the first of all lines may begin with a task marker.
    fn place_paragraph(
        &mut self,
        from: usize,
        heading: Option<(HeadingLevel, Line)>,
    ) -> Result<(), AllocError>
        requires { IsPlaceable self.old from heading }
        ensures placed { IfOk result (λ _. IsPlacedTo self.old.placing.builder
            self.new.placing.builder (paragraph_end self.old.lines.items heading)) }
        ensures texts { IfOk result (λ _. HasMoreTexts self.old.placing.builder
            self.new.placing.builder) }
        ensures tree { IfOk result (λ _. PlacesLines self.old from heading
            self.new.placing.builder) }
        ensures same { self.new ≡ record self.old { placing = self.new.placing } }
    {
        self.placing.step_to(self.lines[from].start);
        let ends = Ends {
            task: self.task_left(from),
            braces: self.last_braces(heading),
        };
        open_text(self.alloc, &mut self.placing, heading, ends.braces)?;
        add_lines(&mut self.placing, &self.lines, from, ends, self.syntax)?;
        self.placing.step_to(paragraph_end(&self.lines, heading));
        self.placing.close();
        Ok(())
    }

    /// Ends the open paragraph, or makes it a heading that ends with the line of its underline. Returns whether it
    /// contained more than definitions; otherwise it ends with the last line of these.
    pub fn end_paragraph(
        &mut self,
        heading: Option<(HeadingLevel, Line)>,
    ) -> Result<bool, AllocError>
        requires { MayEndParagraph self.old heading }
        ensures ends { IfOk result (λ left. EndsTo self.old.placing.builder
            self.new.placing.builder (ended_at self.old left heading)) }
        ensures left { IfOk result (λ left. (sources : List SourceLine)
            → IsParagraph self.old.placing.builder.text self.old.lines.items sources
            → left ≡ not (length (divided_of self.old sources).lines == 0)) }
        ensures frame { IfOk result (λ left. (s : Source) (frames : List Frame)
            (inside : Forest Block) (b : Block) (sources : List SourceLine)
            → HoldsParagraph s self.old frames inside b sources → s.syntax ≡ self.old.syntax
            → IsPlaced s self.new.placing.builder frames (followed_by inside
            (leaf_block (ended_block b sources left heading)))) }
        ensures emptied { IfOk result (λ _. self.new.lines.items ≡ []) }
        ensures same { self.new
            ≡ record self.old { placing = self.new.placing; lines = self.new.lines } }
    {
        let names = entity_names(self.syntax);
        let taken = take_definitions(self.alloc, &mut self.placing, &self.lines, names)?;
        let left = taken < self.lines.len();
        if left {
            self.place_paragraph(taken, heading)?;
        }
        self.lines.clear();
        Ok(left)
    }
}
