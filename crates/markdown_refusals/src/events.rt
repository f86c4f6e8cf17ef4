//! Copies and `'static` forms of events and their tags: the same event, or an allocation failed.
use crate::texts::{LONG, Place, text};
use crate::tries::{check_try, put};
use markdown_base::cow_str::CowStr;
use markdown_base::event::Event;
use markdown_base::fault::Fault;
use markdown_base::tag::{Alignment, CodeBlockKind, HeadingLevel, LinkType, Tag};
use std::alloc::{AllocError, Global};

/// Returns two items.
fn two<T: Drop>(alloc: Global, first: T, second: T) -> Result<Vec<T>, AllocError> {
    let mut list = Vec::new(alloc);
    put(&mut list, first)?;
    put(&mut list, second)?;
    Ok(list)
}

/// Returns an attribute with a value and one without.
fn attributes(
    alloc: Global,
) -> Result<Vec<(CowStr<'static>, Option<CowStr<'static>>)>, AllocError> {
    let value = text(alloc, Place::Heap)?;
    let name = text(alloc, Place::Heap)?;
    two(alloc, (CowStr::Borrowed(LONG), Some(value)), (name, None))
}

/// Returns a heading with an id, two classes, an attribute with a value and one without.
fn heading(alloc: Global) -> Result<Event<'static>, AllocError> {
    let id = text(alloc, Place::Heap)?;
    let class = text(alloc, Place::Heap)?;
    let classes = two(alloc, CowStr::Borrowed(LONG), class)?;
    let attrs = attributes(alloc)?;
    Ok(Event::Start(Tag::Heading {
        level: HeadingLevel::H2,
        id: Some(id),
        classes,
        attrs,
    }))
}

fn link(alloc: Global) -> Result<Event<'static>, AllocError> {
    let dest_url = text(alloc, Place::Heap)?;
    let id = text(alloc, Place::Heap)?;
    Ok(Event::Start(Tag::Link {
        link_type: LinkType::Reference,
        dest_url,
        title: CowStr::Borrowed(LONG),
        id,
    }))
}

fn image(alloc: Global) -> Result<Event<'static>, AllocError> {
    let title = text(alloc, Place::Heap)?;
    Ok(Event::Start(Tag::Image {
        link_type: LinkType::Inline,
        dest_url: CowStr::Borrowed(LONG),
        title,
        id: CowStr::Borrowed(LONG),
    }))
}

/// The kinds of events that have texts.
#[derive(Clone, Copy, Drop)]
enum Kind {
    Slice,
    Owned,
    Heading,
    Link,
    Image,
    Fenced,
    Footnote,
    Table,
}

static KINDS: [Kind; 8] = [
    Kind::Slice,
    Kind::Owned,
    Kind::Heading,
    Kind::Link,
    Kind::Image,
    Kind::Fenced,
    Kind::Footnote,
    Kind::Table,
];

/// Returns an event of a kind.
fn event(alloc: Global, kind: Kind) -> Result<Event<'static>, AllocError> {
    match kind {
        Kind::Slice => Ok(Event::Text(CowStr::Borrowed(LONG))),
        Kind::Owned => Ok(Event::Code(text(alloc, Place::Heap)?)),
        Kind::Heading => heading(alloc),
        Kind::Link => link(alloc),
        Kind::Image => image(alloc),
        Kind::Fenced => {
            let info = text(alloc, Place::Heap)?;
            Ok(Event::Start(Tag::CodeBlock(CodeBlockKind::Fenced(info))))
        }
        Kind::Footnote => Ok(Event::Start(Tag::FootnoteDefinition(CowStr::Borrowed(LONG)))),
        Kind::Table => {
            let alignments = two(alloc, Alignment::Left, Alignment::None)?;
            Ok(Event::Start(Tag::Table(alignments)))
        }
    }
}

/// Returns whether a value and its copy are what is wanted; the copy may have been refused.
fn are_wanted<T: PartialEq + Drop>(
    held: T,
    copy: Result<T, Fault>,
    wanted: Result<T, AllocError>,
) -> Option<bool> {
    let wanted = wanted.ok()?;
    let is_kept = held == wanted;
    Some(check_try(Ok::<T, Fault>(wanted), copy)? && is_kept)
}

/// Returns whether an event is copied, and unchanged if an allocation failed.
fn is_copied(alloc: Global, kind: Kind) -> Option<bool> {
    match event(alloc, kind) {
        Ok(held) => {
            let copy = held.try_clone(alloc);
            are_wanted(held, copy, event(alloc, kind))
        }
        Err(_) => None,
    }
}

fn is_freed(alloc: Global, kind: Kind) -> Option<bool> {
    match event(alloc, kind) {
        Ok(held) => {
            let freed = held.into_static(alloc);
            check_try(event(alloc, kind), freed)
        }
        Err(_) => None,
    }
}

/// Returns whether the event of each kind is copied, or, if `frees`, becomes `'static`.
pub fn stand(alloc: Global, frees: bool) -> Option<bool> {
    for kind in &KINDS {
        let is_so = if frees {
            is_freed(alloc, *kind)?
        } else {
            is_copied(alloc, *kind)?
        };
        if !is_so {
            return Some(false);
        }
    }
    Some(true)
}
