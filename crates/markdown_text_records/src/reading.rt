//! The records of a text.
ghost use Rattle.std.specs.Prelude.{◌≡◌, ◌<◌, IfOk, IsTrue, MatchResult};
ghost use Rattle.markdown_base.specs.Source.{source_as};
ghost use Rattle.markdown_inline.specs.ParserLeft.{offset_parser, parser_steps};
ghost use Rattle.markdown_text_records.specs.AnsweringView.{table_in};
ghost use Rattle.markdown_text_records.specs.Recording.{PushesAsked, PushesNext, PushesPlaced, PushesReading};
ghost use Rattle.markdown_text_records.specs.Recording.{WritesText, asked_number};
ghost use Rattle.markdown_text_records.specs.TextRecords.{AreRecordsOf, IsFaultOfText};

use crate::answering::Answering;
use crate::definitions::push_definitions;
use crate::questions::push_questions;
use markdown_base::event::Event;
use markdown_base::fault::Fault;
use markdown_base::options::Options;
use markdown_base::syntax::Syntax;
use markdown_blocks::Blocks;
use markdown_inline::walk::{OffsetIter, Parser};
use markdown_records::{RecordAnswers, RecordFault, Records};
use std::alloc::Global;
use std::ops::Range;

/// Returns how many questions a callback was asked.
fn asked_count(callback: Option<&Answering<'_>>) -> usize
    ensures { result ≡ asked_number callback.entry }
{
    match callback {
        None => 0,
        Some(callback) => callback.asked.len(),
    }
}

/// Appends the records of the questions that a callback was asked after the first so many.
fn push_asked(
    records: &mut Records<'_>,
    callback: Option<&Answering<'_>>,
    first: usize,
) -> Result<(), RecordFault>
    ensures { PushesAsked records.old callback.entry first result records.new }
{
    match callback {
        None => Ok(()),
        Some(callback) => {
            if callback.is_refused {
                return Err(RecordFault::Of(Fault::Memory));
            }
            push_questions(records, callback.asked.as_slice(), first)
        }
    }
}

/// Appends the records of the questions that a callback was asked after the first so many, and then those of an event.
fn push_placed(
    records: &mut Records<'_>,
    callback: Option<&Answering<'_>>,
    first: usize,
    event: &Event<'_>,
    range: &Range<usize>,
) -> Result<(), RecordFault>
    ensures { PushesPlaced records.old callback.entry first event.now range.now result records.new }
{
    push_asked(records, callback, first)?;
    records.push_event(event, range)
}

/// Appends the records of the questions on the way to the next event, and those of the event. Returns false at the end.
fn push_next<'a>(
    records: &mut Records<'_>,
    walk: &mut OffsetIter<'a, Answering<'a>>,
) -> Result<bool, RecordFault>
    ensures pushes { PushesNext records.old (offset_parser walk.old) result records.new
        (offset_parser walk.new) }
    ensures falls { IfOk result (λ more. IsTrue more
        → parser_steps (offset_parser walk.new) < parser_steps (offset_parser walk.old)) }
{
    let first = asked_count(walk.callback());
    let Some(item) = walk.next() else {
        return Ok(false);
    };
    let (event, range) = item?;
    let pushed = push_placed(records, walk.callback(), first, &event, &range);
    drop(event);
    pushed?;
    Ok(true)
}

/// Appends the records of all events that are left, and of the questions on the way to each.
fn push_reading<'a>(
    records: &mut Records<'_>,
    walk: &mut OffsetIter<'a, Answering<'a>>,
) -> Result<(), RecordFault>
    ensures { PushesReading records.old (offset_parser walk.old) result records.new
        (offset_parser walk.new) }
{
    'walk: while push_next(records, walk)? {}
    Ok(())
}

/// Returns the records of all events that are left, of the questions on the way to each, and of the definitions.
fn written<'a>(
    records: Records<'_>,
    walk: &mut OffsetIter<'a, Answering<'a>>,
) -> Result<Vec<u8>, RecordFault>
    ensures { WritesText records.entry (offset_parser walk.old) result }
{
    let mut records = records;
    push_reading(&mut records, walk)?;
    push_definitions(&mut records, walk.reference_definitions())?;
    records.finish()
}

/// Returns the records of a text of which `syntax` is read: its events with their ranges, the questions of a callback for
/// broken links, and its link reference definitions. The k-th question gets the k-th answer, if that is to its range, and
/// None otherwise.
///
/// # Errors
///
/// `TooLong` if a length or a number in the records is 2^32 or greater, and `Of(Fault::Memory)` if an allocation fails.
pub fn records_source<'a>(
    alloc: Global,
    text: &'a str,
    syntax: Syntax,
    answers: Option<RecordAnswers<'a>>,
) -> Result<Vec<u8>, RecordFault>
    ensures { MatchResult result
        (λ bytes. AreRecordsOf (source_as syntax text.entry.now)
        (table_in answers.entry) bytes.items)
        (IsFaultOfText (source_as syntax text.entry.now)) }
{
    let blocks = Blocks::of_source(alloc, text, Options::empty(), syntax)?;
    let callback = Answering::by(alloc, answers);
    let parser = Parser::from_blocks(alloc, blocks, Some(callback))?;
    let mut walk = parser.into_offset_iter();
    written(Records::new(alloc, text), &mut walk)
}
