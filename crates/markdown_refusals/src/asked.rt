//! The texts that are read, each with its options and its questions to a callback.
use crate::tries::Outcome;
use markdown_base::cow_str::CowStr;
use markdown_base::fault::Fault;
use markdown_base::options::Options;
use markdown_base::tag::LinkType;
use markdown_defs::{BrokenLink, BrokenLinkCallback};
use markdown_inline::walk::Parser;
use std::alloc::Global;

/// A question: its span, its link type and its label.
#[derive(Clone, Copy, Drop)]
pub struct Question {
    start: usize,
    end: usize,
    form: LinkType,
    label: &'static str,
}

/// A text, its options, if any, and its questions to a callback, in order.
#[derive(Clone, Copy, Drop)]
pub struct Source {
    pub text: &'static str,
    enabled: Option<Options>,
    questions: &'static [Question],
}

impl Source {
    /// Returns the options; the empty set if it has none.
    pub fn options(self) -> Options {
        match self.enabled {
            Some(options) => options,
            None => Options::empty(),
        }
    }
}

/// The texts.
pub static SOURCES: [Source; 12] = [
    Source {
        text: "a  \nb\n\nc",
        enabled: None,
        questions: &[],
    },
    Source {
        text: "`\n `x",
        enabled: None,
        questions: &[],
    },
    Source {
        text: "`\nx \ny\n`x",
        enabled: None,
        questions: &[],
    },
    Source {
        text: "`a\r\nb`",
        enabled: None,
        questions: &[],
    },
    Source {
        text: "[[foo]] [[bar|baz]]",
        enabled: Some(Options::ENABLE_WIKILINKS),
        questions: &[],
    },
    Source {
        text: "Testing this![^1] out.\n\n[^1]: Footnote.",
        enabled: Some(Options::ENABLE_FOOTNOTES),
        questions: &[],
    },
    Source {
        text: "'a' \"b\"",
        enabled: Some(Options::ENABLE_SMART_PUNCTUATION),
        questions: &[],
    },
    Source {
        text: "$a$ $$b$$",
        enabled: Some(Options::ENABLE_MATH),
        questions: &[],
    },
    Source {
        text: "hello\n=====\n\n* alpha\n* beta\n",
        enabled: None,
        questions: &[],
    },
    Source {
        text: "# A *b* `c`\n\nx\n\n## D",
        enabled: None,
        questions: &[],
    },
    Source {
        text: "Hello world, check out [my website][].",
        enabled: None,
        questions: &[Question {
            start: 23,
            end: 35,
            form: LinkType::Collapsed,
            label: "my website",
        }],
    },
    Source {
        text: "[a] [b][] [c][d]",
        enabled: None,
        questions: &[
            Question {
                start: 0,
                end: 3,
                form: LinkType::Shortcut,
                label: "a",
            },
            Question {
                start: 4,
                end: 7,
                form: LinkType::Collapsed,
                label: "b",
            },
            Question {
                start: 10,
                end: 16,
                form: LinkType::Reference,
                label: "d",
            },
        ],
    },
];

/// A callback that answers each question without allocating, and records whether each was the expected one.
#[derive(Drop)]
pub struct Asked {
    questions: &'static [Question],
    asked: usize,
    in_order: bool,
}

/// Returns whether a callback had all questions of a text, or a prefix of them where the walk was cut short.
pub fn is_asked(callback: Option<Asked>, outcome: Outcome) -> bool {
    let Some(callback) = callback else {
        return false;
    };
    let wanted = callback.questions.len();
    let fits = match outcome {
        Outcome::Whole => callback.asked == wanted,
        Outcome::Cut => callback.asked <= wanted,
        Outcome::Wrong => false,
    };
    callback.in_order && fits
}

impl<'input> BrokenLinkCallback<'input> for Asked {
    ghost can_ask = { λ _. Unit {0} };

    ghost answers = { λ old question answer new. Unit {0} };

    fn handle_broken_link(
        &mut self,
        link: BrokenLink<'input>,
    ) -> Option<(CowStr<'input>, CowStr<'input>)> {
        let is_next = match self.questions.get(self.asked) {
            Some(question) => {
                link.span.start == question.start
                    && link.span.end == question.end
                    && link.link_type == question.form
                    && link.reference.as_str() == question.label
            }
            None => false,
        };
        drop(link);
        self.in_order = self.in_order && is_next;
        self.asked = self.asked.saturating_add(1);
        Some((
            CowStr::Borrowed("http://example.com"),
            CowStr::Borrowed("my example website"),
        ))
    }
}

/// Returns a callback that has not been called yet.
pub fn callback_for(source: Source) -> Asked {
    Asked {
        questions: source.questions,
        asked: 0,
        in_order: true,
    }
}

/// Returns a parser of a text with such a callback.
pub fn parser(alloc: Global, source: Source) -> Result<Parser<'static, Asked>, Fault> {
    let callback = Some(callback_for(source));
    Parser::new_with_broken_link_callback(alloc, source.text, source.options(), callback)
}
