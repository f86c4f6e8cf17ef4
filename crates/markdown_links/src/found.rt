//! `Found`, a link or an image as it is kept.
use markdown_base::tag::LinkType;
use std::ops::Range;

/// A link or an image. Its text is a part of a text that it shares with the others.
#[derive(Debug, Drop)]
pub struct Found {
    pub is_image: bool,
    pub link_type: LinkType,
    pub dest_url: String,
    pub title: String,
    pub id: String,
    pub range: Range<usize>,
    /// Where its text begins in the shared text.
    pub text_start: usize,
    /// Where its text ends there, once its End has come. Without an End it goes on to the end of the shared text.
    pub text_end: Option<usize>,
}
