//! The writer of HTML, which keeps what the HTML of later events depends on, and its parts.
//!
//! A function that appends returns an error if an allocation fails; it has then appended a prefix of its bytes.
use markdown_base::cow_str::CowStr;
use markdown_base::tag::Alignment;

mod blocks;
mod ends;
mod footnotes;
mod heading;
mod inside;
mod links;
mod names;
mod outside;
mod pieces;
mod push;
pub mod rules;
mod starts;
mod tables;

use names::FootnoteNames;
pub use push::{push_html, push_html_by};
pub use rules::HtmlRules;

/// A piece of HTML: a text that is written as it is, or escaped for its context.
#[derive(Clone, Copy, Drop)]
enum Piece<'x> {
    Raw(&'x str),
    Text(&'x str),
    Attribute(&'x str),
    Destination(&'x str),
}

/// An image whose alt text is being written.
#[derive(Drop)]
struct OpenImage<'a> {
    /// The number of Starts inside it that have no End yet.
    starts: usize,
    title: CowStr<'a>,
}

/// Writes events one after another, and keeps what the HTML of later events depends on.
#[derive(Drop)]
struct Writer<'a> {
    /// Whether the line is fresh: what is written next counts as its beginning.
    fresh: bool,
    in_metadata: bool,
    /// Whether table cells belong to a head.
    in_head: bool,
    /// The number of cells of the row that have ended, at most `usize::MAX`.
    column: usize,
    /// The alignments of the last table's columns.
    alignments: Vec<Alignment>,
    /// The names of footnotes, in the order of their first occurrence.
    names: FootnoteNames<'a>,
    image: Option<OpenImage<'a>>,
    rules: HtmlRules,
}
