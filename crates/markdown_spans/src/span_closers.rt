//! Closers of spans: searches along a chain for what closes code and math.
ghost use Rattle.std.specs.Prelude.{◌≡◌, ◌++◌, ◌<◌, ℕ, List, None, Some, length, reverse, IfErr, IfOk};
ghost use Rattle.std.specs.Prelude.{IfSome, OnErr, OnOk, is_some};
ghost use Rattle.markdown_base.specs.Arena.{sibling_of};
ghost use Rattle.markdown_base.specs.BlockTree.{Numbered, item_at};
ghost use Rattle.markdown_document.specs.Counts.{RisesAtMost};
ghost use Rattle.markdown_spans.specs.ChainInArena.{HasChain, LeadsThrough};
ghost use Rattle.markdown_spans.specs.ChainSearch.{NotesMath, NotesRest, SearchesCode, SearchesMath, known_dollar};
ghost use Rattle.markdown_spans.specs.ChainSearch.{next_closer};
ghost use Rattle.markdown_spans.specs.CloserSearches.{looked_for_code, looked_for_math};
ghost use Rattle.markdown_spans.specs.MathOpening.{marks_at, opener_at};
ghost use Rattle.markdown_spans.specs.SpanClosers.{item_in};
ghost use Rattle.markdown_spans.specs.SpanMarks.{known_closers, known_after, known_closer};

use crate::math_opener::MathOpener;
use crate::span_marks::{KnownCloser, SpanMark, mark_of, note, walk_to};
use crate::span_text::SpanKind;
use markdown_base::item::Item;
use markdown_base::tree::Tree;
use std::alloc::{AllocError, Global};
use std::collections::BTreeMap;
use std::marker::Model;

/// What closes a math span.
#[derive(Clone, Copy, Debug, PartialEq, Eq, Drop)]
pub struct FoundMath {
    /// Whether it is display math.
    pub display: bool,
    /// The number of the `$` at which the span's text ends.
    pub closer: usize,
    /// The number of the last `$` of the span.
    pub last: usize,
}

/// Searches for what closes spans of one kind in a chain.
///
/// A search examines the items after its opener. In a text of backtick runs of different lengths nothing is closed, and
/// if each search went on to the end, the number of items examined would be quadratic. Therefore the first search that
/// fails records the closer of each mark after it, and later searches in the chain read those and examine no more
/// items. Upstream: `CodeDelims`, `MathDelims`.
#[derive(Drop)]
pub struct SpanClosers {
    /// Whether a search in this chain has failed.
    failed: bool,
    /// If so, the closers of the later marks, with the next mark last.
    ahead: Vec<KnownCloser>,
    /// The marks that a search has passed.
    noted: Vec<SpanMark>,
    /// The number of the nearest mark of each key, while closers are determined. The map is ordered, so that emptying
    /// it before each search that fails costs no more than what is in it.
    nearest: BTreeMap<usize, usize>,
}

impl Model for SpanClosers {
    ghost use Rattle.std.specs.Prelude.{None, Some, reverse, if◌then◌else◌};
    ghost use Rattle.markdown_spans.specs.SpanClosers.{Learned};

    ghost Value = { Learned };

    ghost view = { λ s. if s.failed then Some (reverse s.ahead.items) else None };
}

/// Determines the closer of each recorded mark, with the first mark last.
fn fill_ahead(
    noted: &mut Vec<SpanMark>,
    nearest: &mut BTreeMap<usize, usize>,
    ahead: &mut Vec<KnownCloser>,
) -> Result<(), AllocError>
    ensures { OnOk result (reverse ahead.new.items ≡ known_closers noted.old.items) }
{
    ahead.clear();
    nearest.clear();
    'noted: while let Some(mark) = noted.pop() {
        let closer = nearest.get(&mark.wanted).copied();
        ahead.push(KnownCloser {
            number: mark.number,
            closer,
        })?;
        nearest.insert(mark.key, mark.number)?;
    }
    Ok(())
}

/// Removes what is known about the marks up to the one with this number, and returns the closer of that one.
fn take_closer(ahead: &mut Vec<KnownCloser>, number: usize) -> Option<usize>
    ensures value { result ≡ known_closer number (reverse ahead.old.items) }
    ensures left { reverse ahead.new.items ≡ known_after number (reverse ahead.old.items) }
{
    'ahead: while let Some(known) = ahead.pop() {
        if known.number == number {
            return known.closer;
        }
    }
    None
}

/// Returns the known closer of the next mark.
fn next_closer(ahead: &[KnownCloser]) -> Option<usize>
    ensures { result ≡ next_closer (reverse ahead.now) }
{
    match ahead.last() {
        Some(known) => known.closer,
        None => None,
    }
}

/// Removes what is known about the marks up to an opener of math. Returns the number of the first `$` after the opener,
/// and after its second `$` if it has one, that is in the same brace context.
fn take_dollar(ahead: &mut Vec<KnownCloser>, opener: MathOpener) -> Option<usize>
    ensures value { result ≡ known_dollar opener (reverse ahead.old.items) }
    ensures left { reverse ahead.new.items ≡ known_after opener.number (reverse ahead.old.items) }
{
    let first = take_closer(ahead, opener.number);
    match (first, opener.second) {
        (Some(dollar), Some(second)) if dollar == second => next_closer(ahead),
        _ => first,
    }
}

/// Records the second `$` of an opener of display math.
fn note_second(
    tree: &Tree<Item>,
    opener: MathOpener,
    noted: &mut Vec<SpanMark>,
) -> Result<(), AllocError>
    requires { IfSome opener.second (λ ix. ix < length tree.now.nodes) }
    ensures { OnOk result
        (noted.new.items ≡ noted.old.items ++ marks_at tree.now.nodes opener.second) }
{
    if let Some(second) = opener.second {
        note(
            noted,
            mark_of(SpanKind::Math, second, tree.item(second).body),
        )?;
    }
    Ok(())
}

/// Continues a search to the end of the chain, from a `$` that does not close.
fn walk_on(
    tree: &Tree<Item>,
    ix: usize,
    noted: &mut Vec<SpanMark>,
    visits: &mut u128,
) -> Result<(), AllocError>
    requires { HasChain tree.now.nodes (Some ix) }
    ensures notes { IfOk result (λ _. (low : ℕ) (after : List Numbered)
        → LeadsThrough tree.now.nodes low (sibling_of tree.now.nodes ix) after
        → NotesRest tree.now.nodes ix after noted.old.items noted.new.items visits.old visits.new) }
    ensures refused { IfErr result (λ _. (low : ℕ) (after : List Numbered)
        → LeadsThrough tree.now.nodes low (sibling_of tree.now.nodes ix) after
        → RisesAtMost (length after) visits.old visits.new) }
{
    note(noted, mark_of(SpanKind::Math, ix, tree.item(ix).body))?;
    walk_to(tree, tree.next(ix), SpanKind::Math, None, noted, visits)?;
    Ok(())
}

/// Returns what closes an opener of math, by a search of the items after it. If nothing does, all `$` after it are
/// recorded.
fn walk_for_math(
    tree: &Tree<Item>,
    opener: MathOpener,
    noted: &mut Vec<SpanMark>,
    visits: &mut u128,
) -> Result<Option<FoundMath>, AllocError>
    requires chain { HasChain tree.now.nodes (Some opener.number) }
    requires opener { opener_at tree.now.nodes opener.number ≡ Some opener }
    ensures notes { IfOk result (λ found. (low : ℕ) (after : List Numbered)
        → LeadsThrough tree.now.nodes low (sibling_of tree.now.nodes opener.number) after
        → NotesMath opener after found noted.old.items noted.new.items visits.old visits.new) }
    ensures refused { IfErr result (λ _. (low : ℕ) (after : List Numbered)
        → LeadsThrough tree.now.nodes low (sibling_of tree.now.nodes opener.number) after
        → RisesAtMost (looked_for_math item_in opener.end opener.context after) visits.old
        visits.new) }
{
    note_second(tree, opener, noted)?;
    let first = opener.searched_from(tree);
    let wanted = Some(opener.context);
    let Some(ix) = walk_to(tree, first, SpanKind::Math, wanted, noted, visits)? else {
        return Ok(None);
    };
    let close = opener.close_at(tree, ix);
    if close.is_none() {
        walk_on(tree, ix, noted, visits)?;
    }
    Ok(close)
}

impl SpanClosers {
    ghost use Rattle.std.specs.Prelude.{Bool, ◌||◌, ◌&&◌, not};
    ghost use Rattle.markdown_spans.specs.Closers.{can_open};
    ghost use Rattle.markdown_spans.specs.CloserSearches.{opens_code};
    ghost use Rattle.markdown_spans.specs.SpanClosers.{CanSearch, ClosesCode, ClosesMath, HoldsFrom, LooksForCode};
    ghost use Rattle.markdown_spans.specs.SpanClosers.{LooksForCodeAtMost, LooksForMath, LooksForMathAtMost, StandsIn};
    ghost use Rattle.markdown_spans.specs.SpanClosers.{failed_by_now, has_failed};

    /// Returns searches that have learned nothing.
    pub fn new(alloc: Global) -> SpanClosers
        ensures { result ≡ None }
    {
        SpanClosers {
            failed: false,
            ahead: Vec::new(alloc),
            noted: Vec::new(alloc),
            nearest: BTreeMap::new(alloc),
        }
    }

    /// Forgets what was learned, before the next chain. The allocations are kept.
    pub fn clear(&mut self)
        ensures { self.new ≡ None }
    {
        self.failed = false;
    }

    /// Searches a chain for a mark of `wanted` backticks, and returns its number; if there is none, learns the closers
    /// of the marks of the chain.
    fn search_code(
        &mut self,
        tree: &Tree<Item>,
        first: Option<usize>,
        wanted: usize,
        visits: &mut u128,
    ) -> Result<Option<usize>, AllocError>
        requires chain { HasChain tree.now.nodes first }
        requires fresh { self.old ≡ None }
        ensures searches { IfOk result (λ found. (low : ℕ) (chain : List Numbered)
            → LeadsThrough tree.now.nodes low first chain
            → SearchesCode wanted chain found self.new visits.old visits.new) }
        ensures within { IfOk result (λ found. IfSome found (λ ix. ix < length tree.now.nodes)) }
        ensures refused { OnErr result (self.new ≡ None) }
        ensures at_most { IfErr result (λ _. (low : ℕ) (chain : List Numbered)
            → LeadsThrough tree.now.nodes low first chain
            → RisesAtMost (looked_for_code item_in wanted chain) visits.old visits.new) }
    {
        self.noted.clear();
        let found = walk_to(
            tree,
            first,
            SpanKind::Code,
            Some(wanted),
            &mut self.noted,
            visits,
        )?;
        if found.is_none() {
            fill_ahead(&mut self.noted, &mut self.nearest, &mut self.ahead)?;
            self.failed = true;
        }
        Ok(found)
    }

    /// Searches a chain for what closes an opener of math; if nothing does, learns the closers of the marks after it.
    fn search_math(
        &mut self,
        tree: &Tree<Item>,
        opener: MathOpener,
        visits: &mut u128,
    ) -> Result<Option<FoundMath>, AllocError>
        requires chain { HasChain tree.now.nodes (Some opener.number) }
        requires opener { opener_at tree.now.nodes opener.number ≡ Some opener }
        requires fresh { self.old ≡ None }
        ensures searches { IfOk result (λ found. (low : ℕ) (after : List Numbered)
            → LeadsThrough tree.now.nodes low (sibling_of tree.now.nodes opener.number) after
            → SearchesMath opener after found self.new visits.old visits.new) }
        ensures refused { OnErr result (self.new ≡ None) }
        ensures at_most { IfErr result (λ _. (low : ℕ) (after : List Numbered)
            → LeadsThrough tree.now.nodes low (sibling_of tree.now.nodes opener.number) after
            → RisesAtMost (looked_for_math item_in opener.end opener.context after) visits.old
            visits.new) }
    {
        self.noted.clear();
        let found = walk_for_math(tree, opener, &mut self.noted, visits)?;
        if found.is_none() {
            fill_ahead(&mut self.noted, &mut self.nearest, &mut self.ahead)?;
            self.failed = true;
        }
        Ok(found)
    }

    /// Returns the number of the item that closes the code span that a node opens (CommonMark 6.1); `None` if nothing
    /// closes it, or the node opens none. What was learned earlier must hold for the chain of the node. `visits` counts
    /// each item that is examined. The error is a refused allocation, which can only occur before a search has failed,
    /// and leaves what was learned unchanged.
    pub fn find_code_closer(
        &mut self,
        tree: &Tree<Item>,
        opener: usize,
        visits: &mut u128,
    ) -> Result<Option<usize>, AllocError>
        requires ready { CanSearch SpanKind.Code self.old tree.now.nodes opener }
        ensures found { IfOk result (λ found. ClosesCode tree.now.nodes opener found) }
        ensures within { IfOk result (λ found. IfSome found (λ ix. ix < length tree.now.nodes)) }
        ensures counted { IfOk result (λ _.
            LooksForCode self.old tree.now.nodes opener visits.old visits.new) }
        ensures failed { IfOk result (λ found. has_failed self.new
            ≡ failed_by_now self.old (opens_code (item_at tree.now.nodes opener).body)
            (is_some found)) }
        ensures learned { IfOk result (λ _. HoldsFrom SpanKind.Code self.new tree.now.nodes
            (sibling_of tree.now.nodes opener)) }

        // on errors
        ensures unchanged { OnErr result (self.new ≡ self.old) }
        ensures counted_at_most { IfErr result (λ _.
            LooksForCodeAtMost self.old tree.now.nodes opener visits.old
            visits.new) }
    {
        let Some(mark) = mark_of(SpanKind::Code, opener, tree.item(opener).body) else {
            return Ok(None);
        };
        if mark.wanted == 0 {
            return Ok(None);
        }
        if self.failed {
            return Ok(take_closer(&mut self.ahead, opener));
        }
        self.search_code(tree, tree.next(opener), mark.wanted, visits)
    }

    /// Returns what closes the math span that a node opens; `None` if nothing does, or the node opens none. What was
    /// learned earlier must hold for the chain of the node. `visits` counts each item that is examined. The error is a
    /// refused allocation, which can only occur before a search has failed, and leaves what was learned unchanged.
    pub fn find_math_closer(
        &mut self,
        tree: &Tree<Item>,
        opener: usize,
        visits: &mut u128,
    ) -> Result<Option<FoundMath>, AllocError>
        requires ready { CanSearch SpanKind.Math self.old tree.now.nodes opener }
        ensures found { IfOk result (λ found. ClosesMath tree.now.nodes opener found) }
        ensures within { IfOk result (λ found. IfSome found (λ math.
            StandsIn tree.now.nodes math)) }
        ensures counted { IfOk result (λ _.
            LooksForMath self.old tree.now.nodes opener visits.old visits.new) }
        ensures failed { IfOk result (λ found. has_failed self.new
            ≡ failed_by_now self.old (can_open (item_at tree.now.nodes opener).body)
            (is_some found)) }
        ensures learned { IfOk result (λ _. HoldsFrom SpanKind.Math self.new tree.now.nodes
            (sibling_of tree.now.nodes opener)) }

        // on errors
        ensures unchanged { OnErr result (self.new ≡ self.old) }
        ensures counted_at_most { IfErr result (λ _.
            LooksForMathAtMost self.old tree.now.nodes opener visits.old
            visits.new) }
    {
        let Some(opening) = MathOpener::of_node(tree, opener) else {
            return Ok(None);
        };
        if !self.failed {
            return self.search_math(tree, opening, visits);
        }
        let first = take_dollar(&mut self.ahead, opening);
        Ok(opening.close_by(tree, first))
    }
}
