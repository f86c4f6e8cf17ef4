//! Whether all records can be read.
ghost use Rattle.markdown_records.specs.Decoded.{definition_in, entry_in};
ghost use Rattle.markdown_records.specs.GroupOf.{BeginsWhole, group_view};
ghost use Rattle.markdown_records.specs.ReadResult.{CanBeRead};
ghost use Rattle.markdown_records.specs.SaidBy.{said_definitions, said_entries};

use crate::fault::RecordFault;
use crate::groups::{Group, split_parts, take_group};
use crate::record::take_record;
use crate::texts::Texts;
use std::alloc::Global;

/// Returns an error unless the bytes of records begin with none that is a part.
fn check_first(bytes: &[u8]) -> Result<(), RecordFault>
    ensures { BeginsWhole bytes.now result }
{
    let (parts, _) = split_parts(bytes);
    match take_record(parts) {
        None => Ok(()),
        Some(_) => Err(RecordFault::NotRecords),
    }
}

impl<'a> Texts<'a> {
    /// Reads an entry, and returns an error where there is none.
    fn check_entry(&self, alloc: Global, group: &Group<'a>) -> Result<(), RecordFault>
        ensures { CanBeRead (entry_in self.now.source.now self.now.pool.now (group_view group.now))
            result }
    {
        let entry = self.entry_of(alloc, group)?;
        drop(entry);
        Ok(())
    }

    /// Reads a definition, and returns an error where there is none.
    fn check_definition(&self, group: &Group<'a>) -> Result<(), RecordFault>
        ensures { CanBeRead (definition_in self.now.source.now self.now.pool.now
            (group_view group.now)) result }
    {
        let definition = self.definition_of(group).ok_or(RecordFault::NotRecords)?;
        drop(definition);
        Ok(())
    }

    /// Reads the entries of bytes, and returns an error where one is wrong.
    pub fn check_entries(&self, alloc: Global, bytes: &'a [u8]) -> Result<(), RecordFault>
        ensures { CanBeRead (said_entries self.now.source.now self.now.pool.now bytes.entry.now)
            result }
    {
        check_first(bytes)?;
        let mut left = bytes;
        'entries: loop {
            let Some((group, rest)) = take_group(left) else {
                return Ok(());
            };
            self.check_entry(alloc, &group)?;
            left = rest;
        }
    }

    /// Reads the definitions of bytes, and returns an error where one is wrong.
    pub fn check_definitions(&self, bytes: &'a [u8]) -> Result<(), RecordFault>
        ensures { CanBeRead (said_definitions self.now.source.now self.now.pool.now bytes.entry.now)
            result }
    {
        check_first(bytes)?;
        let mut left = bytes;
        'definitions: loop {
            let Some((group, rest)) = take_group(left) else {
                return Ok(());
            };
            self.check_definition(&group)?;
            left = rest;
        }
    }
}
