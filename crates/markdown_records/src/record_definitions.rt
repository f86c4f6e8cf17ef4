//! `RecordDefinitions`, the link reference definitions of records one after another.
ghost use Rattle.std.specs.Prelude.{◌≡◌, is_some, true};
ghost use Rattle.markdown_records.specs.SaidBy.{said_definitions};

use crate::groups::take_group;
use crate::read_entries::Labelled;
use crate::texts::Texts;
use std::iter::FusedIterator;

/// The link reference definitions of records, in order, with their labels.
#[derive(Clone, Copy, Drop)]
pub struct RecordDefinitions<'a> {
    source: &'a str,
    pool: &'a str,
    /// The records that are left.
    left: &'a [u8],
    ghost reads: { is_some (said_definitions source.now pool.now left.now) ≡ true },
}

impl<'a> RecordDefinitions<'a> {
    ghost use Rattle.markdown_records.specs.RecordedDefinitionsLeft.{recorded_definitions_left};
    ghost use Rattle.markdown_records.specs.SaidBy.{list_or_none};

    /// Returns the definitions among the records of these bytes, of which each can be read.
    pub(crate) fn new(texts: Texts<'a>, bytes: &'a [u8]) -> RecordDefinitions<'a>
        requires { is_some (said_definitions texts.source.now texts.pool.now bytes.now) ≡ true }
        ensures { recorded_definitions_left result
            ≡ list_or_none (said_definitions texts.entry.source.now texts.entry.pool.now
            bytes.entry.now) }
    {
        RecordDefinitions {
            source: texts.source,
            pool: texts.pool,
            left: bytes,
        }
    }
}

impl<'a> Iterator for RecordDefinitions<'a> {
    ghost use Rattle.std.specs.Iterator.{at_most};
    ghost use Rattle.markdown_records.specs.RecordedDefinitionsLeft.{definition_bytes_left};
    ghost use Rattle.markdown_records.specs.RecordedDefinitionsLeft.{definition_steps};

    type Item = Labelled<'a>;

    ghost next_gives = { definition_steps };

    ghost remaining = { λ d. at_most (definition_bytes_left d) };

    /// Returns the next definition, or None at the end. Allocates no memory.
    fn next(&mut self) -> Option<Labelled<'a>> {
        let (group, rest) = take_group(self.left)?;
        let texts = Texts {
            source: self.source,
            pool: self.pool,
        };
        let definition = texts.definition_of(&group)?;
        self.left = rest;
        Some(definition)
    }
}

impl FusedIterator for RecordDefinitions<'_> {}
