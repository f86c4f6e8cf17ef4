//! Marks of spans in a chain, which are backticks and `$`, and searches along the chain for the next one with a given
//! key.
ghost use Rattle.std.specs.Prelude.{◌≡◌, ℕ, ◌++◌, List, IfErr, IfOk, OnOk, option_to_list};
ghost use Rattle.markdown_base.specs.BlockTree.{Numbered};
ghost use Rattle.markdown_spans.specs.ChainInArena.{HasChain, LeadsThrough};
ghost use Rattle.markdown_spans.specs.ChainWalk.{LooksAlong, WalksTo};
ghost use Rattle.markdown_spans.specs.Closers.{closing_count};
ghost use Rattle.markdown_spans.specs.SpanClosers.{RisesBy};
ghost use Rattle.markdown_spans.specs.SpanMarks.{code_mark, is_wanted, mark_at, math_mark};

use crate::span_text::SpanKind;
use markdown_base::item::{Item, ItemBody};
use markdown_base::tree::Tree;
use std::alloc::AllocError;

/// A mark that can open or close a span.
#[derive(Clone, Copy, Debug, PartialEq, Eq, Drop)]
pub struct SpanMark {
    /// The number of its node.
    pub number: usize,
    /// The number of backticks, or the brace context of a `$`.
    pub key: usize,
    /// The key of the marks that close a span opened by this one.
    pub wanted: usize,
}

/// A later mark of a chain, with the closer of a span that it opens.
#[derive(Clone, Copy, Debug, PartialEq, Eq, Drop)]
pub struct KnownCloser {
    /// The number of its node.
    pub number: usize,
    /// The number of the first mark after it with the wanted key.
    pub closer: Option<usize>,
}

/// Counts one more item that was examined, up to the maximum of the count.
fn count_visit(visits: &mut u128)
    ensures { RisesBy 1 visits.old visits.new }
{
    *visits = visits.saturating_add(1);
}

/// Returns the number of backticks that close a code span opened by `count` backticks, of which the first may be
/// escaped.
fn closing_count(count: usize, escaped: bool) -> usize
    ensures { result ≡ closing_count count escaped }
{
    if escaped {
        count.saturating_sub(1)
    } else {
        count
    }
}

/// Returns the mark of an item of backticks; `None` for any other item.
fn code_mark(number: usize, body: ItemBody) -> Option<SpanMark>
    ensures { result ≡ code_mark number body }
{
    match body {
        ItemBody::MaybeCode(count, escaped) => Some(SpanMark {
            number,
            key: count as usize,
            wanted: closing_count(count as usize, escaped),
        }),
        _ => None,
    }
}

/// Returns the mark of a `$`; `None` for any other item.
fn math_mark(number: usize, body: ItemBody) -> Option<SpanMark>
    ensures { result ≡ math_mark number body }
{
    match body {
        ItemBody::MaybeMath(_, _, context) => Some(SpanMark {
            number,
            key: usize::from(context),
            wanted: usize::from(context),
        }),
        _ => None,
    }
}

/// Returns the mark of an item, for this kind of span.
pub fn mark_of(kind: SpanKind, number: usize, body: ItemBody) -> Option<SpanMark>
    ensures { result ≡ mark_at kind number body }
{
    match kind {
        SpanKind::Code => code_mark(number, body),
        SpanKind::Math => math_mark(number, body),
    }
}

/// Returns whether a mark has the wanted key.
fn is_wanted(mark: Option<SpanMark>, wanted: Option<usize>) -> bool
    ensures { result ≡ is_wanted wanted mark }
{
    match (wanted, mark) {
        (Some(key), Some(mark)) => mark.key == key,
        _ => false,
    }
}

/// Records a mark, if there is one. Fails only if an allocation fails.
pub fn note(noted: &mut Vec<SpanMark>, mark: Option<SpanMark>) -> Result<(), AllocError>
    ensures { OnOk result (noted.new.items ≡ noted.old.items ++ option_to_list mark) }
{
    if let Some(mark) = mark {
        noted.push(mark)?;
    }
    Ok(())
}

/// Searches a chain for the first mark of a kind with the wanted key, and returns its number; `None` if there is none,
/// or no key is wanted. `visits` counts each item that is examined, and the marks before the one that is found are
/// recorded. Fails only if an allocation fails.
// inlined: each caller names the kind
#[inline(always)]
pub fn walk_to(
    tree: &Tree<Item>,
    first: Option<usize>,
    kind: SpanKind,
    wanted: Option<usize>,
    noted: &mut Vec<SpanMark>,
    visits: &mut u128,
) -> Result<Option<usize>, AllocError>
    requires { HasChain tree.now.nodes first }
    ensures found { IfOk result (λ found. HasChain tree.now.nodes found) }
    ensures walks { IfOk result (λ found. (low : ℕ) (chain : List Numbered)
        → LeadsThrough tree.now.nodes low first chain
        → WalksTo kind wanted tree.now.nodes chain found noted.old.items noted.new.items visits.old
        visits.new) }
    ensures refused { IfErr result (λ _. (low : ℕ) (chain : List Numbered)
        → LeadsThrough tree.now.nodes low first chain
        → LooksAlong kind wanted chain visits.old visits.new) }
{
    let mut link = first;
    'walk: while let Some(ix) = link {
        count_visit(visits);
        let mark = mark_of(kind, ix, tree.item(ix).body);
        if is_wanted(mark, wanted) {
            return Ok(Some(ix));
        }
        note(noted, mark)?;
        link = tree.next(ix);
    }
    Ok(None)
}
