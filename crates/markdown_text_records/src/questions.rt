//! Questions as records.
ghost use Rattle.std.specs.Prelude.{drop, map};
ghost use Rattle.std.specs.List.{flat_map};
ghost use Rattle.markdown_defs.specs.CallbackViews.{question_of};
ghost use Rattle.markdown_records.specs.Drafts.{question_drafts};
ghost use Rattle.markdown_text_records.specs.RecordedEntries.{WritesEntries};

use markdown_defs::BrokenLink;
use markdown_records::{RecordFault, Records};

/// Appends the records of questions, in order.
fn push_all(records: &mut Records<'_>, questions: &[BrokenLink<'_>]) -> Result<(), RecordFault>
    ensures { WritesEntries records.old
        (flat_map question_drafts (map question_of questions.now)) result records.new }
{
    for link in questions {
        records.push_question(&link.span, link.link_type, link.reference.as_str())?;
    }
    Ok(())
}

/// Appends the records of the questions after the first so many.
pub(crate) fn push_questions(
    records: &mut Records<'_>,
    questions: &[BrokenLink<'_>],
    first: usize,
) -> Result<(), RecordFault>
    ensures { WritesEntries records.old
        (flat_map question_drafts (map question_of (drop first questions.now))) result records.new }
{
    match questions.get(first..) {
        None => Ok(()),
        Some(rest) => push_all(records, rest),
    }
}
