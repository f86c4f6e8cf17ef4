//! The walk over a block result that gives its events, and resolves each chain when it reaches it.
ghost use Rattle.std.specs.Prelude.{◌≡◌, ◌<◌, ◌++◌, ◌∷◌, [], IfOk, IfErr, IfSome, IsTrue, None};
ghost use Rattle.markdown_base.specs.Syntax.{gfm_footnotes};
ghost use Rattle.markdown_resolver.specs.BlocksAbove.{IsKnownAt};
ghost use Rattle.markdown_inline.specs.Standing.{Stands, Stands-prop};
ghost use Rattle.markdown_document.specs.Tables.{tables_of};

use crate::bodies::{leaf_event, start_tag};
use crate::step::{Step, take_step};
use markdown_base::event::Event;
use markdown_base::item::Item;
use markdown_base::options::Options;
use markdown_base::syntax::Syntax;
use markdown_base::tag::TagEnd;
use markdown_base::tree::Tree;
use markdown_blocks::{Blocks, Fault};
use markdown_brackets::look_up::LabelLookup;
use markdown_brackets::waiting::WaitingBrackets;
use markdown_defs::{Allocations, BrokenLinkCallback, DefaultBrokenLinkCallback, RefDefs};
use markdown_delims::open_runs::OpenRuns;
use markdown_document::work::Work;
use markdown_resolver::blocks_above::BlocksAbove;
use markdown_resolver::resolver::Resolver;
use markdown_spans::span_closers::SpanClosers;
use std::alloc::Global;
use std::fmt;
use std::iter::FusedIterator;
use std::ops::Range;

/// Where the walk of a parser stopped.
#[derive(Clone, Copy, Drop)]
pub enum Stop {
    /// At its end: the walk is over.
    Over,
    /// After an item that is one event, which is not made yet.
    Leaf(Item),
    /// In an item that begins with a Start, which is not made yet.
    Start(Item),
    /// After an item, which ends with this End.
    End(TagEnd, Item),
    /// An allocation failed, and the walk is over.
    Refused,
}

/// The events of a text, as an iterator. An item is an error if an allocation fails; no item follows it.
///
/// ```
/// let mut parser = Parser::new(alloc, "*a*")?;
/// while let Some(event) = parser.next() {
///     let event = event?;
/// }
/// // Start(Paragraph), Start(Emphasis), Text("a"), End(Emphasis), End(Paragraph)
/// ```
#[derive(Drop)]
pub struct Parser<'input, F = DefaultBrokenLinkCallback> {
    /// The allocator for copies of heading attributes, and for the list of all events that are left.
    alloc: Global,
    tree: Tree<Item>,
    /// What is known of the entered nodes of the tree: the containers, and the innermost block.
    above: BlocksAbove,
    resolver: Resolver<'input, F>,
    ghost entered: { IsKnownAt (gfm_footnotes resolver.syntax) tree.nodes tree.spine above },
    ghost stands: { Stands resolver.text.now (tables_of resolver.lookup.tables)
        tree.nodes tree.cursor tree.spine } by { Stands-prop resolver.text.now (tables_of resolver.lookup.tables)
            tree.nodes tree.cursor tree.spine },
}

/// The same events, each with its range of byte offsets in the source.
///
/// ```
/// let mut events = Parser::new(alloc, "*a*")?.into_offset_iter();
/// while let Some(item) = events.next() {
///     let (event, range) = item?;
/// }
/// // (Start(Paragraph), 0..3), (Start(Emphasis), 0..3), (Text("a"), 1..2),
/// // (End(Emphasis), 0..3), (End(Paragraph), 0..3)
/// ```
#[derive(Drop)]
pub struct OffsetIter<'input, F = DefaultBrokenLinkCallback> {
    inner: Parser<'input, F>,
}

impl<'input, F: BrokenLinkCallback<'input>> Parser<'input, F> {
    ghost use Rattle.std.specs.Prelude.{◌≡◌, ◌<◌, IfOk, IfErr, IfSome, MatchResult};
    ghost use Rattle.markdown_inline.specs.Moves.{Moved, Stops, Keeps, IsToBegin, Began, RefusedAt};
    ghost use Rattle.markdown_inline.specs.NextGives.{NextGives, IsPlacedOf};
    ghost use Rattle.markdown_inline.specs.ParserLeft.{parser_callback, parser_steps};
    ghost use Rattle.markdown_inline.specs.Runs.{GaveRest};
    ghost use Rattle.markdown_inline.specs.declared.bodies.Visit.TheVariants as visit;

    /// Takes one step of the walk. Returns None where the walk goes on without an event.
    #[inline(always)]
    fn advance_once(&mut self) -> Option<Stop>
        requires { IfSome (parser_callback self.old) F.can_ask }
        ensures askable { IfSome (parser_callback self.new) F.can_ask }
        ensures moves { Moved F.answers self.old self.new result }
        ensures keeps { Keeps self.old self.new }
    {
        match take_step(&mut self.tree, &mut self.above) {
            Ok(Step::Done) => Some(Stop::Over),
            Ok(Step::Skip) => None,
            Ok(Step::Leaf(item)) => Some(Stop::Leaf(item)),
            Ok(Step::Start(item)) => Some(Stop::Start(item)),
            Ok(Step::End(end, item)) => Some(Stop::End(end, item)),
            Ok(Step::Chain(first)) => {
                match self
                    .resolver
                    .resolve_chain(&mut self.tree, &mut self.above, first)
                {
                    Ok(()) => None,
                    Err(_) => {
                        self.tree.stop();
                        self.above.clear();
                        Some(Stop::Refused)
                    }
                }
            }
            Err(_) => {
                self.tree.stop();
                self.above.clear();
                Some(Stop::Refused)
            }
        }
    }

    /// Walks up to the next event or to the end, and returns where the walk stopped.
    #[inline(always)]
    fn advance(&mut self) -> Stop
        requires { IfSome (parser_callback self.old) F.can_ask }
        ensures stops { Stops F.answers self.old self.new result }
        ensures askable { IfSome (parser_callback self.new) F.can_ask }
    {
        'walk: loop {
            if let Some(stop) = self.advance_once() {
                return stop;
            }
        }
    }

    /// Returns the Start of an item that the walk has entered. Returns an error if an allocation fails; the walk is
    /// then over.
    #[inline(always)]
    fn start(&mut self, item: Item) -> Result<Event<'input>, Fault>
        requires begins { IsToBegin self.old item visit.Start }
        ensures callback { parser_callback self.new ≡ parser_callback self.old }
        ensures begun { MatchResult result (Began self.old self.new item)
            (RefusedAt self.old self.new) }
    {
        match start_tag(self.alloc, &mut self.resolver.lookup.tables, item.body) {
            Ok(tag) => Ok(Event::Start(tag)),
            Err(_) => {
                self.tree.stop();
                self.above.clear();
                Err(Fault::Memory)
            }
        }
    }

    /// Returns the next event with its range in the source, or None at the end. Returns an error if an
    /// allocation fails; the walk is then over.
    fn next_placed(&mut self) -> Option<Result<(Event<'input>, Range<usize>), Fault>>
        requires { IfSome (parser_callback self.old) F.can_ask }
        ensures gives { NextGives F.answers IsPlacedOf self.old result self.new }
        ensures askable { IfSome (parser_callback self.new) F.can_ask }
        ensures falls { IfSome result (λ _. parser_steps self.new < parser_steps self.old) }
    {
        match self.advance() {
            Stop::Over => None,
            Stop::Leaf(item) => {
                let event = leaf_event(self.resolver.text, &mut self.resolver.lookup.tables, item);
                Some(Ok((event, item.start..item.end)))
            }
            Stop::Start(item) => match self.start(item) {
                Ok(event) => Some(Ok((event, item.start..item.end))),
                Err(fault) => Some(Err(fault)),
            },
            Stop::End(end, item) => Some(Ok((Event::End(end), item.start..item.end))),
            Stop::Refused => Some(Err(Fault::Memory)),
        }
    }

    /// Returns all events that are left, with their ranges.
    fn take_rest(&mut self) -> Result<Vec<(Event<'input>, Range<usize>)>, Fault>
        requires { IfSome (parser_callback self.old) F.can_ask }
        ensures all { IfOk result (λ given.
            GaveRest IsPlacedOf F.answers self.old given.items (parser_callback self.new)) }
        ensures refused { IfErr result (λ fault. fault ≡ Fault.Memory) }
    {
        let mut events = Vec::new(self.alloc);
        'walk: while let Some(item) = self.next_placed() {
            match item {
                Err(fault) => return Err(fault),
                Ok(event) => {
                    if !add(&mut events, event) {
                        return Err(Fault::Memory);
                    }
                }
            }
        }
        Ok(events)
    }
}

impl<'input, F> Parser<'input, F> {
    ghost use Rattle.std.specs.Prelude.{◌≡◌, ◌≤◌, IfSome};
    ghost use Rattle.markdown_inline.specs.OneForest.{ReadsOneForest};
    ghost use Rattle.markdown_inline.specs.ParserLeft.{parser_callback, parser_steps};

    /// States a property of every parser, without code: what is left of it is one forest, in which no item occurs
    /// twice.
    pub fn reads_one_forest(&self)
        ensures { ReadsOneForest self.now }
    {}

    /// Returns the callback, where there is one.
    fn into_callback(self) -> Option<F>
        ensures { result ≡ parser_callback self.entry }
    {
        let Parser { resolver, .. } = self;
        let Resolver { lookup, .. } = resolver;
        let LabelLookup { callback, .. } = lookup;
        callback
    }

    /// Returns a bound on the steps to come, or None where it overflows `usize`. An exact sum would take a walk over
    /// what is left; but no node occurs twice in that. Each becomes at most two nodes, a node takes a move into it and
    /// one out of it, and a chain may be resolved after each of these four moves, and before the first.
    fn most_left(&self) -> Option<usize>
        ensures { IfSome result (λ most. parser_steps self.now ≤ most) }
    {
        self.tree.len().checked_mul(8)?.checked_add(1)
    }
}

impl<'input, F: BrokenLinkCallback<'input>> Iterator for Parser<'input, F> {
    ghost use Rattle.std.specs.Prelude.{IfSome};
    ghost use Rattle.std.specs.Iterator.{at_most};
    ghost use Rattle.markdown_inline.specs.NextGives.{NextGives, IsEventOf};
    ghost use Rattle.markdown_inline.specs.ParserLeft.{parser_callback, parser_steps};

    type Item = Result<Event<'input>, Fault>;

    ghost can_next = { λ p. IfSome (parser_callback p) F.can_ask };

    ghost next_gives = { NextGives F.answers IsEventOf };

    ghost remaining = { λ p. at_most (parser_steps p) };

    /// Returns a lower bound of 0, and an upper bound of eight items for each node of the tree and one more, unless
    /// that overflows `usize`.
    fn size_hint(&self) -> (usize, Option<usize>) {
        (0, self.most_left())
    }

    /// Returns the next event, or None at the end. Returns an error if an allocation fails, and from then on None.
    // inlined, with what it calls, into each place that takes an event: else events are stored to be taken apart again
    #[inline(always)]
    fn next(&mut self) -> Option<Result<Event<'input>, Fault>> {
        match self.advance() {
            Stop::Over => None,
            Stop::Leaf(item) => {
                let event = leaf_event(self.resolver.text, &mut self.resolver.lookup.tables, item);
                Some(Ok(event))
            }
            Stop::Start(item) => Some(self.start(item)),
            Stop::End(end, _) => Some(Ok(Event::End(end))),
            Stop::Refused => Some(Err(Fault::Memory)),
        }
    }
}

impl<'input, F: BrokenLinkCallback<'input>> FusedIterator for Parser<'input, F> {}

impl<'input, F: BrokenLinkCallback<'input>> Iterator for OffsetIter<'input, F> {
    ghost use Rattle.std.specs.Prelude.{IfSome};
    ghost use Rattle.std.specs.Iterator.{at_most};
    ghost use Rattle.markdown_inline.specs.NextGives.{NextGives, IsPlacedOf};
    ghost use Rattle.markdown_inline.specs.ParserLeft.{parser_callback, parser_steps, offset_parser};

    type Item = Result<(Event<'input>, Range<usize>), Fault>;

    ghost can_next = { λ o. IfSome (parser_callback (offset_parser o)) F.can_ask };

    ghost next_gives = { λ o r t.
        NextGives F.answers IsPlacedOf (offset_parser o) r (offset_parser t) };

    ghost remaining = { λ o. at_most (parser_steps (offset_parser o)) };

    /// Returns a lower bound of 0, and an upper bound of eight items for each node of the tree and one more, unless
    /// that overflows `usize`.
    fn size_hint(&self) -> (usize, Option<usize>) {
        (0, self.inner.most_left())
    }

    /// Returns the next event with its range in the source, or None at the end. Returns an error if an
    /// allocation fails, and from then on None.
    fn next(&mut self) -> Option<Result<(Event<'input>, Range<usize>), Fault>> {
        self.inner.next_placed()
    }
}

impl<'input, F: BrokenLinkCallback<'input>> FusedIterator for OffsetIter<'input, F> {}

impl<'input, F> OffsetIter<'input, F> {
    ghost use Rattle.markdown_inline.specs.OneForest.{ReadsOneForest};
    ghost use Rattle.markdown_inline.specs.ParserLeft.{offset_parser};

    /// States a property of every iterator, without code: what is left of it is one forest, in which no item occurs
    /// twice.
    pub fn reads_one_forest(&self)
        ensures { ReadsOneForest (offset_parser self.now) }
    {
        self.inner.reads_one_forest()
    }
}

/// Formats the text and what is read of it, without the tree and what its items refer to, which may be as long as the
/// text, and without the callback.
impl<'input, F> fmt::Debug for Parser<'input, F> {
    fn fmt<W: fmt::Write>(&self, f: &mut fmt::Formatter<W>) -> fmt::Result {
        f.debug_struct("Parser")
            .field("text", &self.resolver.text)
            .field("syntax", &self.resolver.syntax)
            .finish_non_exhaustive()
    }
}

/// Formats the parser inside.
impl<'input, F> fmt::Debug for OffsetIter<'input, F> {
    fn fmt<W: fmt::Write>(&self, f: &mut fmt::Formatter<W>) -> fmt::Result {
        f.debug_struct("OffsetIter")
            .field("inner", &self.inner)
            .finish()
    }
}

impl<'input> Parser<'input, DefaultBrokenLinkCallback> {
    ghost use Rattle.std.specs.Prelude.{◌≡◌, IfOk, IfErr};
    ghost use Rattle.markdown_base.specs.Source.{source_as};
    ghost use Rattle.markdown_base.specs.Syntax.{commonmark, profile_syntax};
    ghost use Rattle.markdown_inline.specs.ParserLeft.{ReadsText, no_work, parser_text, parser_callback, parser_work};

    /// Returns a parser of a text, with no extension enabled. The only error is `Fault::Memory`.
    pub fn new(alloc: Global, text: &'input str) -> Result<Self, Fault>
        ensures left { IfOk result (ReadsText (source_as commonmark text.entry.now)) }
        ensures text { IfOk result (λ p. parser_text p ≡ text.entry.now) }
        ensures callback { IfOk result (λ p. parser_callback p ≡ None) }
        ensures work { IfOk result (λ p. parser_work p ≡ no_work) }
        ensures refused { IfErr result (λ fault. fault ≡ Fault.Memory) }
    {
        Parser::new_ext(alloc, text, Options::empty())
    }

    /// Returns a parser of a text, with the extensions that `options` enables. The only error is `Fault::Memory`.
    pub fn new_ext(alloc: Global, text: &'input str, options: Options) -> Result<Self, Fault>
        ensures left { IfOk result (ReadsText (source_as (profile_syntax options) text.entry.now)) }
        ensures text { IfOk result (λ p. parser_text p ≡ text.entry.now) }
        ensures callback { IfOk result (λ p. parser_callback p ≡ None) }
        ensures work { IfOk result (λ p. parser_work p ≡ no_work) }
        ensures refused { IfErr result (λ fault. fault ≡ Fault.Memory) }
    {
        Parser::new_with_broken_link_callback(alloc, text, options, None)
    }
}

impl<'input, F: BrokenLinkCallback<'input>> Parser<'input, F> {
    ghost use Rattle.std.specs.Prelude.{◌≡◌, IfOk, IfErr, IfSome, MatchOption, Some, None};
    ghost use Rattle.markdown_blocks.specs.Blocks.{text_of_blocks};
    ghost use Rattle.markdown_inline.specs.CountsLaw.{CountsLaw, RisesPlainly};
    ghost use Rattle.markdown_base.specs.Source.{source_as};
    ghost use Rattle.markdown_base.specs.Syntax.{full_syntax, profile_syntax};
    ghost use Rattle.markdown_inline.specs.ParserLeft.{ReadsText, ReadsBlocks, no_work, parser_text};
    ghost use Rattle.markdown_inline.specs.ParserLeft.{parser_callback, findable_definitions, parser_definitions};
    ghost use Rattle.markdown_inline.specs.ParserLeft.{parser_work, offset_parser};

    /// Returns a parser of a text, which calls `callback`, where there is one, for each link label without a reference
    /// definition. The only error is `Fault::Memory`.
    pub fn new_with_broken_link_callback(
        alloc: Global,
        text: &'input str,
        options: Options,
        callback: Option<F>,
    ) -> Result<Self, Fault>
        ensures left { IfOk result (ReadsText (source_as (profile_syntax options) text.entry.now)) }
        ensures text { IfOk result (λ p. parser_text p ≡ text.entry.now) }
        ensures callback { IfOk result (λ p. parser_callback p ≡ callback) }
        ensures work { IfOk result (λ p. parser_work p ≡ no_work) }
        ensures refused { IfErr result (λ fault. fault ≡ Fault.Memory) }
    {
        Parser::of_source(alloc, text, Syntax::profile(options), callback)
    }

    /// Returns a parser of a text, by the full reading. It calls `callback`, where there is one, for each
    /// link label without a reference definition. The only error is `Fault::Memory`.
    pub fn new_extended(
        alloc: Global,
        text: &'input str,
        options: Options,
        callback: Option<F>,
    ) -> Result<Self, Fault>
        ensures left { IfOk result (ReadsText (source_as (full_syntax options) text.entry.now)) }
        ensures text { IfOk result (λ p. parser_text p ≡ text.entry.now) }
        ensures callback { IfOk result (λ p. parser_callback p ≡ callback) }
        ensures work { IfOk result (λ p. parser_work p ≡ no_work) }
        ensures refused { IfErr result (λ fault. fault ≡ Fault.Memory) }
    {
        Parser::of_source(alloc, text, Syntax::full(options), callback)
    }

    /// Returns a parser of a text of which `syntax` is read. It calls `callback`, where there is one, for each link label
    /// without a reference definition. The only error is `Fault::Memory`.
    pub fn of_source(
        alloc: Global,
        text: &'input str,
        syntax: Syntax,
        callback: Option<F>,
    ) -> Result<Self, Fault>
        ensures left { IfOk result (ReadsText (source_as syntax text.entry.now)) }
        ensures text { IfOk result (λ p. parser_text p ≡ text.entry.now) }
        ensures callback { IfOk result (λ p. parser_callback p ≡ callback) }
        ensures work { IfOk result (λ p. parser_work p ≡ no_work) }
        ensures refused { IfErr result (λ fault. fault ≡ Fault.Memory) }
    {
        // no caller gets these options back
        let blocks = Blocks::of_source(alloc, text, Options::empty(), syntax)?;
        Parser::from_blocks(alloc, blocks, callback)
    }

    /// Returns a parser of a block result. What is read of its text also decides how chains are resolved. The only error
    /// is `Fault::Memory`.
    pub fn from_blocks(
        alloc: Global,
        blocks: Blocks<'input>,
        callback: Option<F>,
    ) -> Result<Self, Fault>
        ensures left { IfOk result (ReadsBlocks blocks.entry) }
        ensures text { IfOk result (λ p. parser_text p ≡ text_of_blocks blocks.entry) }
        ensures definitions { IfOk result (λ p. parser_definitions p
            ≡ findable_definitions blocks.entry) }
        ensures callback { IfOk result (λ p. parser_callback p ≡ callback) }
        ensures work { IfOk result (λ p. parser_work p ≡ no_work) }
        ensures refused { IfErr result (λ fault. fault ≡ Fault.Memory) }
    {
        let syntax = blocks.syntax();
        let (text, _, tree, parts) = blocks.into_parts();
        let tables = Allocations::new(alloc, parts)?;
        let mut tree = tree;
        tree.reset();
        let above = BlocksAbove::new(alloc, syntax);
        Ok(Parser {
            alloc,
            tree,
            above,
            resolver: Resolver {
                alloc,
                text,
                syntax,
                lookup: LabelLookup {
                    tables,
                    limit: text.len().max(100000),
                    callback,
                },
                work: Work::none(),
                waiting: WaitingBrackets::new(alloc),
                code_closers: SpanClosers::new(alloc),
                math_closers: SpanClosers::new(alloc),
                open_runs: OpenRuns::new(alloc),
            },
        })
    }

    /// Returns an iterator that continues the walk from where it is and gives each event with its range. Allocates no
    /// memory.
    pub fn into_offset_iter(self) -> OffsetIter<'input, F>
        ensures { offset_parser result ≡ self.entry }
    {
        OffsetIter { inner: self }
    }

    /// Returns the reference definitions, which stay the same throughout the walk.
    pub fn reference_definitions(&self) -> &RefDefs<'input>
        ensures { result.now ≡ parser_definitions self.now }
    {
        &self.resolver.lookup.tables.refdefs
    }

    /// Returns the callback, where there is one. Questions that it notes were asked on the way to the last event returned.
    pub fn callback(&self) -> Option<&F>
        ensures { MatchOption result (parser_callback self.now ≡ None)
            (λ callback. parser_callback self.now ≡ Some callback.now) }
    {
        match &self.resolver.lookup.callback {
            Some(callback) => Some(callback),
            None => None,
        }
    }

    /// Returns the counts of the work done so far.
    pub fn work(&self) -> Work
        ensures { result ≡ parser_work self.now }
    {
        self.resolver.work
    }

    /// States that no count of a walk reaches the maximum, so that each rises by plain addition.
    pub fn counts_stay_below_the_greatest(&self)
        ensures walk { CountsLaw F.answers self.now }
        ensures plainly { RisesPlainly }
    {
        // a tree has fewer than 2^32 nodes, so few steps are to come
        let _nodes = self.tree.len();
    }
}

impl<'input, F: BrokenLinkCallback<'input>> OffsetIter<'input, F> {
    ghost use Rattle.std.specs.Prelude.{◌≡◌, ◌++◌, ◌∷◌, [], IfOk, IfErr, IfSome, IsTrue};
    ghost use Rattle.std.specs.Prelude.{MatchOption, Some, None};
    ghost use Rattle.markdown_inline.specs.NextGives.{IsPlacedOf};
    ghost use Rattle.markdown_inline.specs.ParserLeft.{parser_callback, parser_definitions, parser_work, offset_parser};
    ghost use Rattle.markdown_inline.specs.Runs.{GaveRest};
    ghost use Rattle.markdown_inline.specs.WholeRun.{IsWholeFromStart};

    /// Returns the reference definitions, which stay the same throughout the walk.
    pub fn reference_definitions(&self) -> &RefDefs<'input>
        ensures { result.now ≡ parser_definitions (offset_parser self.now) }
    {
        self.inner.reference_definitions()
    }

    /// Returns the callback, where there is one. Questions that it notes were asked on the way to the last event returned.
    pub fn callback(&self) -> Option<&F>
        ensures { MatchOption result (parser_callback (offset_parser self.now) ≡ None)
            (λ callback. parser_callback (offset_parser self.now) ≡ Some callback.now) }
    {
        self.inner.callback()
    }

    /// Returns the counts of the work done so far.
    pub fn work(&self) -> Work
        ensures { result ≡ parser_work (offset_parser self.now) }
    {
        self.inner.work()
    }

    /// Returns all events that are left, with their ranges, and the callback, which was asked all questions that were
    /// left. Returns an error if an allocation fails; the events and the callback are then lost.
    pub fn into_events(self) -> Result<(Vec<(Event<'input>, Range<usize>)>, Option<F>), Fault>
        requires { IfSome (parser_callback (offset_parser self)) F.can_ask }
        ensures all { IfOk result (λ given.
            GaveRest IsPlacedOf F.answers (offset_parser self.entry) given.0.items
            given.1) }
        ensures whole { IfOk result (λ given.
            IsWholeFromStart F.answers (offset_parser self.entry) given.0.items
            given.1) }
        ensures refused { IfErr result (λ fault. fault ≡ Fault.Memory) }
    {
        let OffsetIter { inner } = self;
        let mut parser = inner;
        let rest = parser.take_rest();
        let callback = parser.into_callback();
        Ok((rest?, callback))
    }
}

/// Appends an item, and returns whether there was memory for it.
fn add<T: Drop>(items: &mut Vec<T>, item: T) -> bool
    ensures { IsTrue result → items.new.items ≡ items.old.items ++ item ∷ [] }
{
    items.push(item).is_ok()
}
