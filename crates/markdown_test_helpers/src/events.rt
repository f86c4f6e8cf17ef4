//! Events made by hand.
use markdown_base::cow_str::CowStr;
use markdown_base::event::Event;
use markdown_base::tag::{LinkType, Tag};

/// Returns the Text of these words.
pub fn text<'a>(words: &'a str) -> Event<'a> {
    Event::Text(CowStr::Borrowed(words))
}

/// Returns the Start of a link.
pub fn link<'a>(link_type: LinkType, destination: &'a str, title: &'a str) -> Event<'a> {
    Event::Start(Tag::Link {
        link_type,
        dest_url: CowStr::Borrowed(destination),
        title: CowStr::Borrowed(title),
        id: CowStr::Borrowed(""),
    })
}

/// Returns the Start of an image.
pub fn image<'a>(destination: &'a str, title: &'a str) -> Event<'a> {
    Event::Start(Tag::Image {
        link_type: LinkType::Inline,
        dest_url: CowStr::Borrowed(destination),
        title: CowStr::Borrowed(title),
        id: CowStr::Borrowed(""),
    })
}
