//! Link reference definitions as records.
ghost use Rattle.std.specs.Prelude.{map};
ghost use Rattle.std.specs.List.{flat_map};
ghost use Rattle.markdown_records.specs.Drafts.{definition_drafts};
ghost use Rattle.markdown_records.specs.RecordsOf.{Writes};
ghost use Rattle.markdown_text_records.specs.DefinitionsView.{labelled_view};

use markdown_defs::RefDefs;
use markdown_records::{RecordFault, Records};

/// Appends the records of definitions, in the order of the source.
pub(crate) fn push_definitions(
    records: &mut Records<'_>,
    definitions: &RefDefs<'_>,
) -> Result<(), RecordFault>
    ensures { Writes records.old (flat_map definition_drafts
        (map labelled_view definitions.now)) result records.new }
{
    for (label, definition) in definitions.iter() {
        records.push_definition(label, definition)?;
    }
    Ok(())
}
