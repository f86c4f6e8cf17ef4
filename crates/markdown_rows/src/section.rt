//! Sections of tables: how their texts are read, and what their rows have beside each text.
use markdown_base::options::Options;
use markdown_render::words::options_of;
use serde_json::Value;
use std::alloc::{AllocError, Global};

/// How texts are read.
#[derive(Clone, Copy, Drop)]
pub enum Reading {
    /// As the port's profile has it.
    Profile,
    /// With all of CommonMark and each extension.
    Full,
}

/// What a row has beside its text.
#[derive(Clone, Copy, Drop)]
pub enum Given {
    /// Its HTML.
    Html,
    /// The HTML inside the one paragraph that it is.
    Paragraph,
    /// Nothing: it is one paragraph that shows the text unchanged.
    Text,
    /// Its safe HTML.
    SafeHtml,
    /// Its events, each with its range.
    Events,
    /// Its events with texts merged, each with its range.
    MergedEvents,
    /// Its headings, each with its range.
    Headings,
}

/// How the texts of a section are read, and what its rows have beside each text.
#[derive(Clone, Copy, Drop)]
pub struct Section {
    pub reading: Reading,
    pub options: Options,
    pub given: Given,
}

fn reading_of(word: &str) -> Option<Reading> {
    Some(match word {
        "profile" => Reading::Profile,
        "full" => Reading::Full,
        _ => return None,
    })
}

fn given_of(words: &str) -> Option<Given> {
    Some(match words {
        "html" => Given::Html,
        "paragraph" => Given::Paragraph,
        "text" => Given::Text,
        "safe html" => Given::SafeHtml,
        "events" => Given::Events,
        "merged events" => Given::MergedEvents,
        "headings" => Given::Headings,
        _ => return None,
    })
}

/// Returns the options that words enable, which have a space between them, or None where one is unknown.
fn options_in(alloc: Global, words: &str) -> Result<Option<Options>, AllocError> {
    let mut list = Vec::new(alloc);
    for word in words.split(' ') {
        if !word.is_empty() {
            list.push(String::from_str(alloc, word)?)?;
        }
    }
    Ok(options_of(list.as_slice()).ok())
}

/// Returns a text that the head of a section has under a name.
fn text_at<'h>(head: &'h Value, name: &str) -> Option<&'h str> {
    head.get(name)?.as_str()
}

/// Returns the title of a section, from its head.
pub fn title_of(head: &Value) -> Option<&str> {
    text_at(head, "section")
}

impl Section {
    /// Returns the section of a head, or None where something of it is missing or unknown.
    pub fn of_head(alloc: Global, head: &Value) -> Result<Option<Section>, AllocError> {
        let options = match text_at(head, "options") {
            Some(words) => options_in(alloc, words)?,
            None => None,
        };
        let reading = text_at(head, "reading").and_then(reading_of);
        let given = text_at(head, "gives").and_then(given_of);
        Ok(match (reading, options, given) {
            (Some(reading), Some(options), Some(given)) => Some(Section {
                reading,
                options,
                given,
            }),
            _ => None,
        })
    }
}
