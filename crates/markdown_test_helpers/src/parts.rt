//! Parts of block results made by hand.
use markdown_base::block_parts::{BlockParts, HeadingAttributes, LinkDef};
use markdown_base::cow_str::CowStr;
use std::alloc::{AllocError, Global};

/// Returns empty parts.
pub fn no_parts<'a>(alloc: Global) -> BlockParts<'a> {
    BlockParts {
        definitions: Vec::new(alloc),
        footnotes: Vec::new(alloc),
        cows: Vec::new(alloc),
        alignments: Vec::new(alloc),
        headings: Vec::new(alloc),
    }
}

/// Appends an item to a list. The type is a parameter: where it is a text, the proof takes longer.
fn put<T: Drop>(list: &mut Vec<T>, item: T) -> Result<(), AllocError> {
    Ok(list.push(item)?)
}

/// Returns a list of one item.
fn one<T: Drop>(alloc: Global, item: T) -> Result<Vec<T>, AllocError> {
    let mut list = Vec::new(alloc);
    put(&mut list, item)?;
    Ok(list)
}

/// Returns parts with one text.
pub fn one_text(alloc: Global) -> Result<BlockParts<'static>, AllocError> {
    let cows = one(alloc, CowStr::Borrowed("x"))?;
    let mut parts = no_parts(alloc);
    parts.cows = cows;
    Ok(parts)
}

/// Returns parts with one text, one list of alignments and the attributes of one heading.
pub fn one_of_each<'a>(alloc: Global) -> Result<BlockParts<'a>, AllocError> {
    let alignments = one(alloc, Vec::new(alloc))?;
    let cows = one(alloc, CowStr::Borrowed("x"))?;
    let headings = one(alloc, no_attributes(alloc))?;
    Ok(BlockParts {
        definitions: Vec::new(alloc),
        footnotes: Vec::new(alloc),
        cows,
        alignments,
        headings,
    })
}

/// Returns the attributes of a heading that has none.
pub fn no_attributes<'a>(alloc: Global) -> HeadingAttributes<'a> {
    HeadingAttributes {
        id: None,
        classes: Vec::new(alloc),
        attrs: Vec::new(alloc),
    }
}

/// Returns a link definition without a title.
pub fn link_to<'a>(destination: &'a str) -> LinkDef<'a> {
    LinkDef {
        dest: CowStr::Borrowed(destination),
        title: None,
        span: 0..0,
    }
}

/// Returns parts with link definitions, each from a label and a destination.
pub fn defining<'a>(
    alloc: Global,
    definitions: &[(&'a str, &'a str)],
) -> Result<BlockParts<'a>, AllocError> {
    let mut held = Vec::new(alloc);
    for (label, destination) in definitions {
        put(&mut held, (CowStr::Borrowed(label), link_to(destination)))?;
    }
    let mut parts = no_parts(alloc);
    parts.definitions = held;
    Ok(parts)
}
