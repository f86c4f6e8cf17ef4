//! Copies and `'static` forms of texts and definitions: the same value, or an allocation failed; where none is made, the
//! same value.
use crate::tries::check_try;
use markdown_base::block_parts::LinkDef;
use markdown_base::cow_str::CowStr;
use markdown_base::fault::Fault;
use markdown_base::tag::LinkType;
use markdown_defs::BrokenLink;
use std::alloc::{AllocError, Global};

/// A text of more bytes than are stored inline.
pub const LONG: &str = "a text of more than 22 bytes";

/// Where a text is.
#[derive(Clone, Copy, PartialEq, Drop)]
pub enum Place {
    Slice,
    Heap,
}

/// Returns the long text at a place. Only one on the heap allocates memory.
pub fn text(alloc: Global, place: Place) -> Result<CowStr<'static>, AllocError> {
    match place {
        Place::Slice => Ok(CowStr::Borrowed(LONG)),
        Place::Heap => Ok(CowStr::from(String::from_str(alloc, LONG)?)),
    }
}

/// Returns whether the text is made, or, if one allocation is needed, it failed.
fn is_text(made: Result<CowStr<'_>, AllocError>, allocates: bool) -> bool {
    match made {
        Ok(text) => text.as_str() == LONG,
        Err(_) => allocates,
    }
}

/// Returns whether a text is copied, and unchanged if an allocation failed. The copy of a slice is made without
/// allocating.
pub fn copies_a_text(alloc: Global, place: Place) -> Option<bool> {
    let held = text(alloc, place).ok()?;
    let is_copied = is_text(held.try_clone(alloc), place == Place::Heap);
    Some(is_copied && held.as_str() == LONG)
}

/// Returns whether a text becomes `'static`. One that is owned already does so without allocating.
pub fn frees_a_text(alloc: Global, place: Place) -> Option<bool> {
    let held = text(alloc, place).ok()?;
    Some(is_text(held.into_static(alloc), place == Place::Slice))
}

fn definition(alloc: Global, place: Place) -> Result<LinkDef<'static>, AllocError> {
    let dest = text(alloc, place)?;
    let title = text(alloc, place)?;
    Ok(LinkDef {
        dest,
        title: Some(title),
        span: 3..7,
    })
}

fn is_definition(held: &LinkDef<'_>) -> bool {
    let Some(title) = &held.title else {
        return false;
    };
    held.dest.as_str() == LONG && title.as_str() == LONG && held.span == (3..7)
}

/// Returns whether what was made is the definition.
fn is_made(made: Result<LinkDef<'_>, Fault>) -> Result<bool, Fault> {
    Ok(is_definition(&made?))
}

/// Returns whether a definition is copied, at once or after a refusal, and unchanged.
pub fn copies_a_definition(alloc: Global) -> Option<bool> {
    let held = definition(alloc, Place::Heap).ok()?;
    let is_copied = match is_made(held.try_clone(alloc)) {
        Ok(is_same) => is_same,
        Err(fault) => {
            fault == Fault::Memory
                && is_definition(&held)
                && is_made(held.try_clone(alloc)) == Ok(true)
        }
    };
    Some(is_copied && is_definition(&held))
}

/// Returns whether a definition of slices becomes `'static` and stays the same, or an allocation failed.
pub fn frees_a_definition(alloc: Global) -> Option<bool> {
    let held = definition(alloc, Place::Slice).ok()?;
    check_try(Ok::<bool, Fault>(true), is_made(held.into_static(alloc)))
}

/// Returns whether a broken link whose label is a slice becomes `'static` and stays the same, or an allocation failed.
pub fn frees_a_broken_link(alloc: Global) -> bool {
    let link = BrokenLink {
        span: 3..7,
        link_type: LinkType::Shortcut,
        reference: CowStr::Borrowed(LONG),
    };
    match link.into_static(alloc) {
        Ok(made) => {
            made.reference.as_str() == LONG
                && made.span == (3..7)
                && made.link_type == LinkType::Shortcut
        }
        Err(fault) => fault == Fault::Memory,
    }
}
