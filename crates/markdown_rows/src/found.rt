//! What a text gives, and what a row says that it gives.
use crate::section::{Given, Reading, Section};
use markdown_blocks::Blocks;
use markdown_defs::DefaultBrokenLinkCallback;
use markdown_inline::walk::Parser;
use markdown_out::merge::TextMergeWithOffset;
use markdown_outline::{outline, outline_of};
use markdown_render::{merged_html, render, render_extended};
use markdown_safe::{safe_html, safe_html_extended};
use markdown_test_helpers::notes::notes_of;
use markdown_test_parsers::faults::or_fail;
use markdown_test_parsers::outlines::said_of;
use markdown_test_parsers::parsers::{extended_parser, text_parser};
use std::alloc::{AllocError, Global};
use std::test::Fail;

/// A row: a text, and what it gives.
#[derive(Clone, Copy, Drop)]
pub struct Row<'v> {
    pub text: &'v str,
    pub given: &'v str,
}

impl Section {
    fn parser_of<'a>(self, alloc: Global, text: &'a str) -> Result<Parser<'a>, Fail> {
        match self.reading {
            Reading::Profile => text_parser(alloc, text, self.options),
            Reading::Full => extended_parser(alloc, text, self.options),
        }
    }

    fn html_of(self, alloc: Global, text: &str) -> Result<String, Fail> {
        let nobody = None::<DefaultBrokenLinkCallback>;
        or_fail(match self.reading {
            Reading::Profile => render(alloc, text, self.options, nobody),
            Reading::Full => render_extended(alloc, text, self.options, nobody),
        })
    }

    fn safe_html_of(self, alloc: Global, text: &str) -> Result<String, Fail> {
        let nobody = None::<DefaultBrokenLinkCallback>;
        or_fail(match self.reading {
            Reading::Profile => safe_html(alloc, text, self.options, nobody),
            Reading::Full => safe_html_extended(alloc, text, self.options, nobody),
        })
    }

    fn merged_html_of(self, alloc: Global, text: &str) -> Result<String, Fail> {
        or_fail(merged_html(alloc, self.parser_of(alloc, text)?))
    }

    fn events_of(self, alloc: Global, text: &str) -> Result<String, Fail> {
        notes_of(alloc, self.parser_of(alloc, text)?.into_offset_iter())
    }

    fn merged_events_of(self, alloc: Global, text: &str) -> Result<String, Fail> {
        let events = self.parser_of(alloc, text)?.into_offset_iter();
        notes_of(alloc, TextMergeWithOffset::new(alloc, events))
    }

    fn blocks_of<'a>(self, alloc: Global, text: &'a str) -> Result<Blocks<'a>, Fail> {
        or_fail(match self.reading {
            Reading::Profile => Blocks::of_text(alloc, text, self.options),
            Reading::Full => Blocks::of_extended(alloc, text, self.options),
        })
    }

    fn headings_of_blocks(self, alloc: Global, text: &str) -> Result<String, Fail> {
        let blocks = self.blocks_of(alloc, text)?;
        Ok(said_of(alloc, outline_of(alloc, blocks))?)
    }

    fn headings_of_events(self, alloc: Global, text: &str) -> Result<String, Fail> {
        let events = self.parser_of(alloc, text)?.into_offset_iter();
        Ok(said_of(alloc, outline(alloc, events))?)
    }

    /// Returns what a text gives.
    fn first_found(self, alloc: Global, text: &str) -> Result<String, Fail> {
        match self.given {
            Given::Html | Given::Paragraph | Given::Text => self.html_of(alloc, text),
            Given::SafeHtml => self.safe_html_of(alloc, text),
            Given::Events => self.events_of(alloc, text),
            Given::MergedEvents => self.merged_events_of(alloc, text),
            Given::Headings => self.headings_of_blocks(alloc, text),
        }
    }

    /// Returns the same by another way, where there is one: HTML by a merge of the events, headings by the events.
    fn found_again(self, alloc: Global, text: &str) -> Result<Option<String>, Fail> {
        Ok(match self.given {
            Given::Html | Given::Paragraph | Given::Text => Some(self.merged_html_of(alloc, text)?),
            Given::Headings => Some(self.headings_of_events(alloc, text)?),
            Given::SafeHtml | Given::Events | Given::MergedEvents => None,
        })
    }

    /// Returns what a row's text should give.
    pub fn expectation(self, alloc: Global, row: Row<'_>) -> Result<String, AllocError> {
        match self.given {
            Given::Paragraph => format!(in alloc; "<p>{}</p>\n", row.given),
            Given::Text => format!(in alloc; "<p>{}</p>\n", row.text),
            _ => String::from_str(alloc, row.given),
        }
    }

    /// Returns what a text gives otherwise than wanted, or None.
    pub fn difference(
        self,
        alloc: Global,
        text: &str,
        wanted: &str,
    ) -> Result<Option<String>, Fail> {
        let found = self.first_found(alloc, text)?;
        if found.as_str() != wanted {
            return Ok(Some(found));
        }
        let again = self.found_again(alloc, text)?;
        Ok(again.filter(|found| found.as_str() != wanted))
    }
}
