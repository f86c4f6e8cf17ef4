//! Copies of the parts of events and definitions, and forms of them that do not borrow from the source. Slices of the
//! source are copied as slices. The only error is `Fault::Memory`.
ghost use Rattle.std.specs.Prelude.{◌≡◌, ◌≤◌, [], ◌∷◌, length, map, flat_map, IfOk, IfErr, IfSome, IsOk};
ghost use Rattle.std.specs.Option.{option_map, option_to_list};
ghost use Rattle.markdown_base.specs.CopiedTexts.{KeepsSlices, texts_of_attribute};
ghost use Rattle.markdown_base.specs.CowText.{text_of};
ghost use Rattle.markdown_base.specs.StoredTexts.{IsBorrowed, IsBoxed};
ghost use Rattle.markdown_base.specs.Event.{attribute_view};
ghost use Rattle.markdown_base.specs.declared.fault.Fault.{Fault};

use crate::cow_str::CowStr;
use crate::fault::Fault;
use std::alloc::Global;

/// Returns a copy of a text, if there is one.
pub fn clone_optional<'a>(
    text: &Option<CowStr<'a>>,
    alloc: Global,
) -> Result<Option<CowStr<'a>>, Fault>
    ensures same { IfOk result (λ copy. option_map text_of copy ≡ option_map text_of text.now) }
    ensures slices { IfOk result
        (λ copy. KeepsSlices (option_to_list text.now) (option_to_list copy)) }
    ensures short { IfSome text.now (λ text. IsBoxed text → length (text_of text) ≤ 22)
        → IsOk result }
    ensures refused { IfErr result (λ fault. fault ≡ Fault.Memory) }
{
    match text {
        None => Ok(None),
        Some(text) => Ok(Some(text.try_clone(alloc)?)),
    }
}

/// Returns the same text without borrowing from the source, if there is one.
pub fn static_optional(
    text: Option<CowStr<'_>>,
    alloc: Global,
) -> Result<Option<CowStr<'static>>, Fault>
    ensures same { IfOk result (λ made. option_map text_of made ≡ option_map text_of text.entry) }
    ensures short { IfSome text.entry (λ text. IsBorrowed text → length (text_of text) ≤ 22)
        → IsOk result }
    ensures refused { IfErr result (λ fault. fault ≡ Fault.Memory) }
{
    match text {
        None => Ok(None),
        Some(text) => Ok(Some(text.into_static(alloc)?)),
    }
}

/// Returns copies of texts.
pub fn clone_texts<'a>(texts: &[CowStr<'a>], alloc: Global) -> Result<Vec<CowStr<'a>>, Fault>
    ensures same { IfOk result (λ copies. map text_of copies.items ≡ map text_of texts.now) }
    ensures slices { IfOk result (λ copies. KeepsSlices texts.now copies.items) }
    ensures refused { IfErr result (λ fault. fault ≡ Fault.Memory) }
{
    let mut copies = Vec::new(alloc);
    for text in texts {
        copies.push(text.try_clone(alloc)?)?;
    }
    Ok(copies)
}

/// Returns the same texts without borrowing from the source.
pub fn static_texts(texts: Vec<CowStr<'_>>, alloc: Global) -> Result<Vec<CowStr<'static>>, Fault>
    ensures same { IfOk result (λ made. map text_of made.items ≡ map text_of texts.entry.items) }
    ensures refused { IfErr result (λ fault. fault ≡ Fault.Memory) }
{
    let mut made = Vec::new(alloc);
    for text in texts {
        made.push(text.into_static(alloc)?)?;
    }
    Ok(made)
}

/// Returns a copy of an attribute's name and value.
fn clone_attribute<'a>(
    attribute: &(CowStr<'a>, Option<CowStr<'a>>),
    alloc: Global,
) -> Result<(CowStr<'a>, Option<CowStr<'a>>), Fault>
    ensures same { IfOk result (λ copy. attribute_view copy ≡ attribute_view attribute.now) }
    ensures slices { IfOk result
        (λ copy. KeepsSlices (texts_of_attribute attribute.now) (texts_of_attribute copy)) }
    ensures refused { IfErr result (λ fault. fault ≡ Fault.Memory) }
{
    let name = attribute.0.try_clone(alloc)?;
    let value = clone_optional(&attribute.1, alloc)?;
    Ok((name, value))
}

/// Returns the same attribute without borrowing from the source.
fn static_attribute(
    attribute: (CowStr<'_>, Option<CowStr<'_>>),
    alloc: Global,
) -> Result<(CowStr<'static>, Option<CowStr<'static>>), Fault>
    ensures same { IfOk result (λ made. attribute_view made ≡ attribute_view attribute.entry) }
    ensures refused { IfErr result (λ fault. fault ≡ Fault.Memory) }
{
    let name = attribute.0.into_static(alloc)?;
    let value = static_optional(attribute.1, alloc)?;
    Ok((name, value))
}

/// Returns copies of attributes.
pub fn clone_attributes<'a>(
    attributes: &[(CowStr<'a>, Option<CowStr<'a>>)],
    alloc: Global,
) -> Result<Vec<(CowStr<'a>, Option<CowStr<'a>>)>, Fault>
    ensures same { IfOk result (λ copies. map attribute_view copies.items
        ≡ map attribute_view attributes.now) }
    ensures slices { IfOk result
        (λ copies. KeepsSlices (flat_map texts_of_attribute attributes.now)
        (flat_map texts_of_attribute copies.items)) }
    ensures refused { IfErr result (λ fault. fault ≡ Fault.Memory) }
{
    let mut copies = Vec::new(alloc);
    for attribute in attributes {
        copies.push(clone_attribute(attribute, alloc)?)?;
    }
    Ok(copies)
}

/// Returns the same attributes without borrowing from the source.
pub fn static_attributes(
    attributes: Vec<(CowStr<'_>, Option<CowStr<'_>>)>,
    alloc: Global,
) -> Result<Vec<(CowStr<'static>, Option<CowStr<'static>>)>, Fault>
    ensures same { IfOk result (λ made. map attribute_view made.items
        ≡ map attribute_view attributes.entry.items) }
    ensures refused { IfErr result (λ fault. fault ≡ Fault.Memory) }
{
    let mut made = Vec::new(alloc);
    for attribute in attributes {
        made.push(static_attribute(attribute, alloc)?)?;
    }
    Ok(made)
}

/// Returns copies of the destination, the title and the label of a link or an image.
pub fn clone_link_texts<'a>(
    dest_url: &CowStr<'a>,
    title: &CowStr<'a>,
    id: &CowStr<'a>,
    alloc: Global,
) -> Result<(CowStr<'a>, CowStr<'a>, CowStr<'a>), Fault>
    ensures same { IfOk result (λ copies. (text_of copies.0 ≡ text_of dest_url.now)
        × (text_of copies.1 ≡ text_of title.now) × (text_of copies.2 ≡ text_of id.now)) }
    ensures slices { IfOk result
        (λ copies. KeepsSlices (dest_url.now ∷ title.now ∷ id.now ∷ [])
        (copies.0 ∷ copies.1 ∷ copies.2 ∷ [])) }
    ensures refused { IfErr result (λ fault. fault ≡ Fault.Memory) }
{
    let dest_url = dest_url.try_clone(alloc)?;
    let title = title.try_clone(alloc)?;
    let id = id.try_clone(alloc)?;
    Ok((dest_url, title, id))
}

/// Returns the same texts of a link or an image without borrowing from the source. The only error is `Fault::Memory`.
pub fn static_link_texts(
    dest_url: CowStr<'_>,
    title: CowStr<'_>,
    id: CowStr<'_>,
    alloc: Global,
) -> Result<(CowStr<'static>, CowStr<'static>, CowStr<'static>), Fault>
    ensures same { IfOk result (λ made. (text_of made.0 ≡ text_of dest_url.entry)
        × (text_of made.1 ≡ text_of title.entry) × (text_of made.2 ≡ text_of id.entry)) }
    ensures refused { IfErr result (λ fault. fault ≡ Fault.Memory) }
{
    let dest_url = dest_url.into_static(alloc)?;
    let title = title.into_static(alloc)?;
    let id = id.into_static(alloc)?;
    Ok((dest_url, title, id))
}
