//! `Entry`, an entry of an outline.
use std::ops::Range;

/// A heading of a document.
#[derive(Debug, Drop)]
pub struct Entry {
    /// The level, from 1 to 6.
    pub level: u8,
    /// The text without markup: texts, code and math, and a space for each break.
    pub text: String,
    /// The source range.
    pub range: Range<usize>,
    /// The id of the heading's Start, if it has one.
    pub id: Option<String>,
}
