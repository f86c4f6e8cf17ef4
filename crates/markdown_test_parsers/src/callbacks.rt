//! Callbacks that record their questions.
ghost use Rattle.std.specs.Prelude.{◌≡◌, ◌+◌, ◌%◌, ◌^◌, None};

use crate::faults::or_fail;
use crate::parsers::parser_asking;
use markdown_base::cow_str::CowStr;
use markdown_base::tag::LinkType;
use markdown_defs::{BoxedCallback, BrokenLink, BrokenLinkCallback, Closure};
use markdown_test_helpers::lists::take_some;
use std::alloc::{AllocError, Global};
use std::ops::Range;
use std::test::Fail;

/// The answers of a callback.
#[derive(Clone, Copy, Drop)]
pub enum Reply {
    Nothing,
    /// This destination and this title for each question.
    Target(&'static str, &'static str),
    /// `/n` for the n-th question, without a title.
    Number,
    /// This number of bytes `x` for each question, without a title.
    Bytes(usize),
}

/// Returns the answer `/n`, without a title.
fn by_number<'a>(alloc: Global, number: u64) -> Option<(CowStr<'a>, CowStr<'a>)> {
    let destination = format!(in alloc; "/{number}").ok()?;
    Some((CowStr::from(destination), CowStr::Borrowed("")))
}

fn by_bytes<'a>(alloc: Global, bytes: usize) -> Option<(CowStr<'a>, CowStr<'a>)> {
    let destination = "x".repeat(alloc, bytes).ok()?;
    Some((CowStr::from(destination), CowStr::Borrowed("")))
}

/// A callback with these answers, which counts the questions.
#[derive(Drop)]
pub struct Replying {
    alloc: Global,
    reply: Reply,
    pub asked: u64,
}

impl Replying {
    /// Returns a callback that has not been called yet.
    pub fn new(alloc: Global, reply: Reply) -> Replying {
        Replying {
            alloc,
            reply,
            asked: 0,
        }
    }

    /// Counts a question, and returns the answer.
    fn count<'a>(&mut self) -> Option<(CowStr<'a>, CowStr<'a>)> {
        self.asked = self.asked.wrapping_add(1);
        match self.reply {
            Reply::Nothing => None,
            Reply::Target(destination, title) => {
                Some((CowStr::Borrowed(destination), CowStr::Borrowed(title)))
            }
            Reply::Number => by_number(self.alloc, self.asked),
            Reply::Bytes(bytes) => by_bytes(self.alloc, bytes),
        }
    }
}

impl BoxedCallback for Replying {
    fn answer(
        &mut self,
        _span: Range<usize>,
        _link_type: LinkType,
        _reference: &str,
    ) -> Option<(CowStr<'static>, CowStr<'static>)> {
        self.count()
    }
}

/// The same, which also records each question: its span, its link type and its label.
#[derive(Drop)]
pub struct Recording {
    pub replying: Replying,
    questions: String,
}

impl Recording {
    /// Returns a callback that has not been called yet.
    pub fn replying(alloc: Global, reply: Reply) -> Recording {
        Recording {
            replying: Replying::new(alloc, reply),
            questions: String::new(alloc),
        }
    }

    /// Returns the questions as a text.
    pub fn into_questions(self) -> String {
        let Recording { questions, .. } = self;
        questions
    }

    /// Records a question.
    fn note(
        &mut self,
        span: Range<usize>,
        link_type: LinkType,
        label: &str,
    ) -> Result<(), AllocError> {
        let alloc = self.replying.alloc;
        let question = format!(in alloc;
            "{}..{} {:?} ({}) ",
            span.start, span.end, link_type, label
        )?;
        self.questions.push_str(question.as_str())
    }
}

impl<'input> BrokenLinkCallback<'input> for Recording {
    ghost can_ask = { λ _. Unit {0} };

    ghost answers = { λ old question answer new. Unit {0} };

    fn handle_broken_link(
        &mut self,
        link: BrokenLink<'input>,
    ) -> Option<(CowStr<'input>, CowStr<'input>)> {
        let BrokenLink {
            span,
            link_type,
            reference,
        } = link;
        let noted = self.note(span, link_type, reference.as_str());
        drop(reference);
        noted.ok()?;
        self.replying.count()
    }
}

/// Takes at most `most` events of a text with a callback. Returns the number of events taken.
pub fn take_events<'a, F: BrokenLinkCallback<'a>>(
    alloc: Global,
    source: &'a str,
    callback: F,
    most: usize,
) -> Result<usize, Fail>
    requires { F.can_ask callback }
{
    or_fail(take_some(parser_asking(alloc, source, callback)?, most))
}

/// Takes at most `most` events of a text with a closure that answers no question. Returns the number
/// of events taken, and the number of questions.
pub fn questions_in(alloc: Global, source: &str, most: usize) -> Result<(usize, u64), Fail> {
    let mut asked = 0u64;
    let counting = |link: BrokenLink| -> Option<(CowStr, CowStr)>
        ensures answer { result ≡ None }
        ensures counted { asked.exit ≡ (asked.entry + 1) % 2 ^ 64 }
    {
        asked = asked.wrapping_add(1);
        drop(link);
        None
    };
    let events = take_events(alloc, source, Closure::new(counting), most)?;
    Ok((events, asked))
}
