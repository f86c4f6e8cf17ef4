//! Each way to read a text, compared with a run without refusals.
use crate::asked::{Asked, SOURCES, Source, callback_for, is_asked, parser};
use crate::tries::{Outcome, all_of, check_try, is_made, repeats, walk, writes};
use markdown_base::event::Event;
use markdown_base::fault::Fault;
use markdown_blocks::Blocks;
use markdown_inline::walk::{OffsetIter, Parser};
use markdown_out::merge::{TextMergeStream, TextMergeWithOffset};
use markdown_outline::{Entry, outline, outline_of};
use markdown_render::render;
use markdown_test_parsers::parsers::all_events;
use std::alloc::Global;
use std::ops::Range;

type Placed = (Event<'static>, Range<usize>);

/// Returns a parser of the block result of a text, whose tree and parts are checked once more.
fn of_blocks(alloc: Global, source: Source) -> Result<Parser<'static, Asked>, Fault> {
    let blocks = Blocks::of_text(alloc, source.text, source.options())?;
    let (text, options, tree, parts) = blocks.into_parts();
    let checked = Blocks::checked(alloc, text, options, tree, parts)?;
    Parser::from_blocks(alloc, checked, Some(callback_for(source)))
}

/// Returns whether each constructor returns a parser, or an allocation failed.
fn makes(alloc: Global, source: Source) -> bool {
    let options = source.options();
    is_made(Blocks::of_text(alloc, source.text, options))
        && is_made(Parser::new(alloc, source.text))
        && is_made(Parser::new_ext(alloc, source.text, options))
        && is_made(parser(alloc, source))
        && is_made(of_blocks(alloc, source))
        && is_made(Parser::new_extended(alloc, source.text, options, Some(callback_for(source))))
}

/// Returns a parser of a text with ranges.
fn offset_iter(alloc: Global, source: Source) -> Result<OffsetIter<'static, Asked>, Fault> {
    Ok(parser(alloc, source)?.into_offset_iter())
}

/// Returns the merge of a parser of a text.
fn merge(
    alloc: Global,
    source: Source,
) -> Result<TextMergeStream<'static, Parser<'static, Asked>>, Fault> {
    Ok(TextMergeStream::new(alloc, parser(alloc, source)?))
}

/// Returns the merge of a parser of a text with ranges.
fn placed_merge(
    alloc: Global,
    source: Source,
) -> Result<TextMergeWithOffset<'static, OffsetIter<'static, Asked>>, Fault> {
    Ok(TextMergeWithOffset::new(alloc, offset_iter(alloc, source)?))
}

/// Returns whether a list is the other.
fn are_same<T: PartialEq + Drop>(given: Vec<T>, full: &[T]) -> bool {
    given.as_slice() == full
}

/// Returns whether what was returned at once are these events and a callback that had the questions that it should; or an
/// allocation was refused.
fn are_all(
    found: Result<(Vec<Placed>, Option<Asked>), Fault>,
    outcome: Outcome,
    full: &[Placed],
) -> bool {
    match found {
        Ok((events, callback)) => {
            let is_asked = is_asked(callback, outcome);
            are_same(events, full) && is_asked
        }
        Err(fault) => fault == Fault::Memory && outcome != Outcome::Wrong,
    }
}

/// Returns whether the events of a text are those of another walk, or a prefix of them, and nothing is left after them.
fn walks(alloc: Global, source: Source) -> Option<bool> {
    let full = all_of(alloc, parser(alloc, source))?;
    let is_so = match parser(alloc, source) {
        Ok(parser) => {
            let mut parser = parser;
            let outcome = walk(&mut parser, full.as_slice(), false);
            are_all(all_events(parser), outcome, &[])
        }
        Err(fault) => fault == Fault::Memory,
    };
    drop(full);
    Some(is_so)
}

/// Returns whether all events are returned at once, with the callback, or neither.
fn collects(alloc: Global, source: Source) -> Option<bool> {
    let full = all_of(alloc, offset_iter(alloc, source))?;
    let is_so = match parser(alloc, source) {
        Ok(parser) => are_all(all_events(parser), Outcome::Whole, full.as_slice()),
        Err(fault) => fault == Fault::Memory,
    };
    drop(full);
    Some(is_so)
}

/// Returns the HTML of a text.
fn html_of(alloc: Global, source: Source) -> Result<String, Fault> {
    render(
        alloc,
        source.text,
        source.options(),
        Some(callback_for(source)),
    )
}

/// Returns the outline of the events of a text.
fn outline_read(alloc: Global, source: Source) -> Result<Vec<Entry>, Fault> {
    outline(alloc, offset_iter(alloc, source)?)
}

/// Returns the outline of the block result of a text.
fn outline_of_blocks(alloc: Global, source: Source) -> Result<Vec<Entry>, Fault> {
    let blocks = Blocks::of_text(alloc, source.text, source.options())?;
    outline_of(alloc, blocks)
}

/// Returns whether two outlines have the same entries.
fn are_same_entries(given: &[Entry], full: &[Entry]) -> bool {
    for at in 0..given.len() {
        let is_same = match full.get(at) {
            Some(full) => {
                given[at].level == full.level
                    && given[at].text.as_str() == full.text.as_str()
                    && given[at].range == full.range
            }
            None => false,
        };
        if !is_same {
            return false;
        }
    }
    given.len() == full.len()
}

/// Returns whether all entries of an outline are returned once more, or an allocation failed.
fn outlines(first: Result<Vec<Entry>, Fault>, second: Result<Vec<Entry>, Fault>) -> Option<bool> {
    let full = first.ok()?;
    let is_so = match second {
        Ok(entries) => are_same_entries(entries.as_slice(), full.as_slice()),
        Err(fault) => fault == Fault::Memory,
    };
    Some(is_so)
}

/// A way to read a text.
#[derive(Clone, Copy, Drop)]
enum Reading {
    Making,
    Walking,
    WalkingWithRanges,
    Merging,
    MergingWithRanges,
    Collecting,
    Rendering,
    Pushing,
    Outlining,
    OutliningBlocks,
}

static READINGS: [(&str, Reading); 10] = [
    ("making a parser", Reading::Making),
    ("next", Reading::Walking),
    ("next with ranges", Reading::WalkingWithRanges),
    ("next of a merge", Reading::Merging),
    ("next of a merge with ranges", Reading::MergingWithRanges),
    ("into_events", Reading::Collecting),
    ("render", Reading::Rendering),
    ("push_html", Reading::Pushing),
    ("outline", Reading::Outlining),
    ("outline_of", Reading::OutliningBlocks),
];

/// Returns whether what is promised for a way to read a text holds, or None if an allocation failed for what it
/// is compared with.
fn stands(alloc: Global, reading: Reading, source: Source) -> Option<bool> {
    match reading {
        Reading::Making => Some(makes(alloc, source)),
        Reading::Walking => walks(alloc, source),
        Reading::WalkingWithRanges => {
            repeats(
                alloc,
                offset_iter(alloc, source),
                offset_iter(alloc, source),
                false,
            )
        }
        Reading::Merging => repeats(alloc, merge(alloc, source), merge(alloc, source), true),
        Reading::MergingWithRanges => {
            let first = placed_merge(alloc, source);
            repeats(alloc, first, placed_merge(alloc, source), true)
        }
        Reading::Collecting => collects(alloc, source),
        Reading::Rendering => check_try(html_of(alloc, source), html_of(alloc, source)),
        Reading::Pushing => writes(alloc, html_of(alloc, source).ok(), parser(alloc, source)),
        Reading::Outlining => outlines(outline_read(alloc, source), outline_read(alloc, source)),
        Reading::OutliningBlocks => {
            let first = outline_of_blocks(alloc, source);
            outlines(first, outline_of_blocks(alloc, source))
        }
    }
}

/// Returns the first way and text for which what is promised does not hold, and counts what was not compared.
pub fn broken(alloc: Global, uncompared: &mut usize) -> Option<(&'static str, &'static str)> {
    'texts: for source in &SOURCES {
        'ways: for (name, reading) in &READINGS {
            match stands(alloc, *reading, *source) {
                Some(true) => {}
                Some(false) => return Some((*name, source.text)),
                None => *uncompared = uncompared.saturating_add(1),
            }
        }
    }
    None
}
