//! `RecordAnswers`, the answers of records one after another.
ghost use Rattle.std.specs.Prelude.{◌≡◌, is_some, true};
ghost use Rattle.markdown_records.specs.SaidBy.{said_entries};

use crate::groups::take_group;
use crate::numbers;
use crate::texts::Texts;
use std::ops::Range;

/// The answer to the question with this range: None, or a destination with a title.
#[derive(Drop)]
pub struct Answered<'a> {
    pub span: Range<usize>,
    pub answer: Option<(&'a str, &'a str)>,
}

/// The answers that come before all other entries of records, in order.
#[derive(Clone, Copy, Drop)]
pub struct RecordAnswers<'a> {
    source: &'a str,
    pool: &'a str,
    /// The records that are left.
    left: &'a [u8],
    ghost reads: { is_some (said_entries source.now pool.now left.now) ≡ true },
}

impl<'a> RecordAnswers<'a> {
    ghost use Rattle.markdown_records.specs.AnswersLeft.{answer_entries_left};
    ghost use Rattle.markdown_records.specs.SaidBy.{list_or_none};

    /// Returns the answers among the records of these bytes, of which each can be read.
    pub(crate) fn new(texts: Texts<'a>, bytes: &'a [u8]) -> RecordAnswers<'a>
        requires { is_some (said_entries texts.source.now texts.pool.now bytes.now) ≡ true }
        ensures { answer_entries_left result
            ≡ list_or_none (said_entries texts.entry.source.now texts.entry.pool.now
            bytes.entry.now) }
    {
        RecordAnswers {
            source: texts.source,
            pool: texts.pool,
            left: bytes,
        }
    }
}

impl<'a> Iterator for RecordAnswers<'a> {
    ghost use Rattle.std.specs.Iterator.{at_most};
    ghost use Rattle.markdown_records.specs.AnswersLeft.{answer_bytes_left, answer_steps};

    type Item = Answered<'a>;

    ghost next_gives = { answer_steps };

    ghost remaining = { λ a. at_most (answer_bytes_left a) };

    /// Returns the next answer, or None at the end and where another entry comes. Allocates no
    /// memory.
    fn next(&mut self) -> Option<Answered<'a>> {
        let (group, rest) = take_group(self.left)?;
        if group.head.kind != numbers::ANSWER {
            return None;
        }
        let texts = Texts {
            source: self.source,
            pool: self.pool,
        };
        let answer = texts.answer_of(&group)?;
        self.left = rest;
        Some(Answered {
            span: group.head.span(),
            answer,
        })
    }
}
