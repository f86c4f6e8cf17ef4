//! The Start of a heading, with the attributes that follow it in braces. Two headings may refer to the same attributes,
//! so these are copied, unlike texts, which are taken.
ghost use Rattle.std.specs.Prelude.{◌≡◌, [], IfOk, IfSome, List, map, ℕ};
ghost use Rattle.std.specs.Option.{option_map};
ghost use Rattle.markdown_base.specs.CowText.{text_of};
ghost use Rattle.markdown_base.specs.Event.{attribute_view, heading, tag_view};
ghost use Rattle.markdown_defs.specs.AllocationCalls.{HasHeading};
ghost use Rattle.markdown_document.specs.Tables.{heading_for, heading_with};
ghost use Rattle.markdown_inline.specs.Slices.{TagIsFrom, titles_in};

use markdown_base::block_parts::HeadingAttributes;
use markdown_base::cow_str::CowStr;
use markdown_base::index::HeadingIndex;
use markdown_base::tag::{HeadingLevel, Tag};
use markdown_defs::Allocations;
use std::alloc::{AllocError, Global};

/// Returns the tag of a heading, with copies of the attributes that it refers to, or with none. Fails if an
/// allocation for the copies fails.
pub fn heading_start<'a>(
    alloc: Global,
    tables: &Allocations<'a>,
    level: HeadingLevel,
    named: Option<HeadingIndex>,
) -> Result<Tag<'a>, AllocError>
    requires { IfSome named (HasHeading tables.now) }
    ensures tag { IfOk result (λ tag. tag_view tag
        ≡ heading (heading_for level tables.now.headings named)) }
    ensures from { (source : List ℕ) (start end : ℕ) → IfOk result (TagIsFrom source start end) }
    ensures titles { IfOk result (λ tag. titles_in tag ≡ []) }
{
    match named {
        None => Ok(Tag::Heading {
            level,
            id: None,
            classes: Vec::new(alloc),
            attrs: Vec::new(alloc),
        }),
        Some(ix) => heading_copy(alloc, level, &tables[ix]),
    }
}

/// Returns the tag of a heading with a copy of the attributes. Returns an error if an allocation fails.
fn heading_copy<'a>(
    alloc: Global,
    level: HeadingLevel,
    attributes: &HeadingAttributes<'a>,
) -> Result<Tag<'a>, AllocError>
    ensures tag { IfOk result (λ tag. tag_view tag
        ≡ heading (heading_with level attributes.now)) }
    ensures from { (source : List ℕ) (start end : ℕ) → IfOk result (TagIsFrom source start end) }
    ensures titles { IfOk result (λ tag. titles_in tag ≡ []) }
{
    let id = copy_of(alloc, &attributes.id)?;
    let classes = class_copies(alloc, &attributes.classes)?;
    let attrs = attribute_copies(alloc, &attributes.attrs)?;
    Ok(Tag::Heading {
        level,
        id,
        classes,
        attrs,
    })
}

/// Returns a copy of a text, where there is one. Returns an error if an allocation fails.
fn copy_of<'a>(alloc: Global, text: &Option<CowStr<'a>>) -> Result<Option<CowStr<'a>>, AllocError>
    ensures { IfOk result (λ copy. option_map text_of copy ≡ option_map text_of text.now) }
{
    match text {
        None => Ok(None),
        Some(text) => Ok(Some(text.try_clone(alloc)?)),
    }
}

/// Returns copies of classes. Returns an error if an allocation fails.
fn class_copies<'a>(alloc: Global, classes: &[CowStr<'a>]) -> Result<Vec<CowStr<'a>>, AllocError>
    ensures { IfOk result (λ copies. map text_of copies.items ≡ map text_of classes.now) }
{
    let mut copies = Vec::new(alloc);
    for class in classes {
        copies.push(class.try_clone(alloc)?)?;
    }
    Ok(copies)
}

/// Returns a copy of an attribute's name and value. Returns an error if an allocation fails.
fn attribute_copy<'a>(
    alloc: Global,
    attribute: &(CowStr<'a>, Option<CowStr<'a>>),
) -> Result<(CowStr<'a>, Option<CowStr<'a>>), AllocError>
    ensures { IfOk result (λ copy. attribute_view copy ≡ attribute_view attribute.now) }
{
    let name = attribute.0.try_clone(alloc)?;
    let value = copy_of(alloc, &attribute.1)?;
    Ok((name, value))
}

/// Returns copies of attributes, each a name with its value. Returns an error if an allocation fails.
fn attribute_copies<'a>(
    alloc: Global,
    attributes: &[(CowStr<'a>, Option<CowStr<'a>>)],
) -> Result<Vec<(CowStr<'a>, Option<CowStr<'a>>)>, AllocError>
    ensures { IfOk result (λ copies. map attribute_view copies.items
        ≡ map attribute_view attributes.now) }
{
    let mut copies = Vec::new(alloc);
    for attribute in attributes {
        copies.push(attribute_copy(alloc, attribute)?)?;
    }
    Ok(copies)
}
