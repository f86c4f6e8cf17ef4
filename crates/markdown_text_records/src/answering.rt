//! A callback that answers from a table, and keeps what it is asked.
ghost use Rattle.std.specs.Prelude.{◌≡◌, [], false};
ghost use Rattle.markdown_text_records.specs.AnswerTable.{is_range};
ghost use Rattle.markdown_text_records.specs.AnsweringView.{AnswersNext, table_in, table_left};

use markdown_base::cow_str::CowStr;
use markdown_defs::{BrokenLink, BrokenLinkCallback};
use markdown_records::{Answered, RecordAnswers};
use std::alloc::Global;
use std::ops::Range;

/// A callback that gives the k-th question the k-th answer of a table, if that is to its range, and None otherwise. It keeps
/// the questions.
#[derive(Drop)]
pub(crate) struct Answering<'a> {
    /// The answers that no question has got yet.
    answers: Option<RecordAnswers<'a>>,
    pub asked: Vec<BrokenLink<'a>>,
    /// Whether an allocation was refused, so that a question was not kept.
    pub is_refused: bool,
}

/// Returns whether an answer is to a question with this range.
fn is_to(given: &Answered<'_>, span: &Range<usize>) -> bool
    ensures { result ≡ is_range given.now.span span.now }
{
    given.span.start == span.start && given.span.end == span.end
}

impl<'a> Answering<'a> {
    /// Returns a callback that was asked nothing.
    pub fn by(alloc: Global, answers: Option<RecordAnswers<'a>>) -> Answering<'a>
        ensures table { table_left result ≡ table_in answers.entry }
        ensures asked { result.asked.items ≡ [] }
        ensures kept { result.is_refused ≡ false }
    {
        Answering {
            answers,
            asked: Vec::new(alloc),
            is_refused: false,
        }
    }

    /// Returns the next answer of the table, if it is to this range.
    fn next_answer(&mut self, span: &Range<usize>) -> Option<(&'a str, &'a str)>
        ensures { AnswersNext self.old span.now result self.new }
    {
        let mut left = self.answers?;
        let given = left.next();
        self.answers = Some(left);
        let given = given?;
        if is_to(&given, span) {
            given.answer
        } else {
            None
        }
    }
}

impl<'a> BrokenLinkCallback<'a> for Answering<'a> {
    ghost use Rattle.markdown_text_records.specs.AnsweringView.{AnswersByTable};

    ghost can_ask = { λ _. Unit {0} };

    ghost answers = { AnswersByTable };

    fn handle_broken_link(&mut self, link: BrokenLink<'a>) -> Option<(CowStr<'a>, CowStr<'a>)> {
        let answer = self.next_answer(&link.span);
        if self.asked.push(link).is_err() {
            self.is_refused = true;
        }
        let (destination, title) = answer?;
        Some((CowStr::Borrowed(destination), CowStr::Borrowed(title)))
    }
}
