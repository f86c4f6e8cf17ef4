//! Outlines as texts: the level of each entry, its text in brackets, its range, and its id after a `#`; or the error.
use markdown_base::fault::Fault;
use markdown_outline::Entry;
use std::alloc::{AllocError, Global};

/// Returns entries as a text, one after another.
fn notes_of(alloc: Global, entries: &[Entry]) -> Result<String, AllocError> {
    let mut notes = String::new(alloc);
    for entry in entries {
        let note = format!(in alloc;
            "{} [{}]{}..{} ",
            entry.level,
            entry.text.as_str(),
            entry.range.start,
            entry.range.end
        )?;
        notes.push_str(note.as_str())?;
        if let Some(id) = &entry.id {
            let mark = format!(in alloc; "#({}) ", id.as_str())?;
            notes.push_str(mark.as_str())?;
        }
    }
    Ok(notes)
}

/// Returns an outline as a text, or the error.
pub fn said_of(alloc: Global, outline: Result<Vec<Entry>, Fault>) -> Result<String, AllocError> {
    match outline {
        Ok(entries) => notes_of(alloc, entries.as_slice()),
        Err(fault) => format!(in alloc; "{fault:?}"),
    }
}
