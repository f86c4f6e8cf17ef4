//! `Link`, a link or an image of a document.
use markdown_base::tag::LinkType;
use std::ops::Range;

/// A link or an image of a document, which borrows its texts.
#[derive(Clone, Debug, Drop)]
pub struct Link<'x> {
    /// Whether it is an image.
    pub is_image: bool,
    /// How it is written.
    pub link_type: LinkType,
    pub dest_url: &'x str,
    pub title: &'x str,
    /// The link label.
    pub id: &'x str,
    /// The text without markup: texts, code and math, and a space for each break. That of an image in a link is a part of
    /// the link's.
    pub text: &'x str,
    /// The source range.
    pub range: Range<usize>,
}
