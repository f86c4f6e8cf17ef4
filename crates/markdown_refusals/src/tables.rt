//! The promises of definitions, footnotes and allocations: after a refusal the same call returns what it always does.
use crate::tries::put;
use markdown_base::block_parts::HeadingAttributes;
use markdown_base::cow_str::CowStr;
use markdown_base::fault::Fault;
use markdown_base::tag::{Alignment, LinkType};
use markdown_defs::{Allocations, RefDefs};
use markdown_test_helpers::parts::defining;
use std::alloc::Global;

/// The calls.
#[derive(Clone, Copy, Drop)]
pub enum Call {
    LookUp,
    Contains,
    LookUpUses,
    PutText,
    PutLink,
    PutAlignments,
    PutAttributes,
}

/// Returns allocations over one definition and one footnote.
pub fn made(alloc: Global) -> Result<Allocations<'static>, Fault> {
    let mut parts = defining(alloc, &[("ß", "/u")])?;
    put(&mut parts.footnotes, CowStr::Borrowed("n"))?;
    Allocations::new(alloc, parts)
}

/// Returns whether a text is put in under the first number, and, if `calls`, whether it is found and taken there.
pub fn puts_text(held: &mut Allocations<'static>, calls: bool) -> Result<bool, Fault> {
    let ix = held.allocate_cow(CowStr::Borrowed("a"))?;
    if !calls {
        return Ok(true);
    }
    let is_there = held[ix].as_str() == "a";
    let taken = held.take_cow(ix);
    let is_taken = taken.as_str() == "a";
    drop(taken);
    let is_gone = held[ix].as_str() == "";
    Ok(ix.0 == 0 && is_there && is_taken && is_gone)
}

/// A link as it is held.
type Held = (LinkType, CowStr<'static>, CowStr<'static>, CowStr<'static>);

/// Returns whether this is the link that is put in.
fn is_link(link: &Held) -> bool {
    link.0 == LinkType::Inline
        && link.1.as_str() == "u"
        && link.2.as_str() == "t"
        && link.3.as_str() == "i"
}

/// Returns whether a link is put in under the first number, and, if `calls`, whether it is found and taken there.
pub fn puts_link(held: &mut Allocations<'static>, calls: bool) -> Result<bool, Fault> {
    let ix = held.allocate_link(
        LinkType::Inline,
        CowStr::Borrowed("u"),
        CowStr::Borrowed("t"),
        CowStr::Borrowed("i"),
    )?;
    if !calls {
        return Ok(true);
    }
    let is_there = is_link(&held[ix]);
    let taken = held.take_link(ix);
    let is_taken = is_link(&taken);
    drop(taken);
    let is_gone = held[ix].0 == LinkType::ShortcutUnknown;
    Ok(ix.0 == 0 && is_there && is_taken && is_gone)
}

/// Returns whether alignments are put in under the first number, and, if `calls`, whether they are found and taken there.
pub fn puts_alignments(
    alloc: Global,
    held: &mut Allocations<'static>,
    calls: bool,
) -> Result<bool, Fault> {
    let ix = held.allocate_alignment(vec![in alloc; Alignment::Center]?)?;
    if !calls {
        return Ok(true);
    }
    let is_there = held[ix].as_slice() == [Alignment::Center].as_slice();
    let taken = held.take_alignment(ix);
    let is_taken = taken.as_slice() == [Alignment::Center].as_slice();
    drop(taken);
    let is_gone = held[ix].is_empty();
    Ok(ix.0 == 0 && is_there && is_taken && is_gone)
}

/// Returns whether a heading's attributes are put in under the first number, and, if `calls`, whether they are found
/// there.
pub fn puts_attributes(
    alloc: Global,
    held: &mut Allocations<'static>,
    calls: bool,
) -> Result<bool, Fault> {
    let ix = held.allocate_heading(HeadingAttributes {
        id: Some(CowStr::Borrowed("i")),
        classes: Vec::new(alloc),
        attrs: Vec::new(alloc),
    })?;
    if !calls {
        return Ok(true);
    }
    let has_id = match &held[ix].id {
        Some(id) => id.as_str() == "i",
        None => false,
    };
    Ok(ix.0 == 1 && has_id)
}

/// Returns whether a key finds the definition.
fn looks_up(held: &Allocations<'static>) -> Result<bool, Fault> {
    match held.refdefs.get("SS")? {
        Some(found) => Ok(found.dest.as_str() == "/u"),
        None => Ok(false),
    }
}

/// Returns whether a name finds the footnote, which has been used so often.
fn is_used(held: &mut Allocations<'static>, count: usize) -> Result<bool, Fault> {
    match held.footdefs.get_mut(CowStr::Borrowed("N"))? {
        Some(footnote) => Ok(footnote.use_count == count),
        None => Ok(false),
    }
}

/// Returns whether one definition is listed, with this label.
pub fn lists_one(definitions: &RefDefs<'_>, wanted: &str) -> bool {
    let mut listed = 0usize;
    for (label, definition) in definitions.iter() {
        if label != wanted || definition.dest.as_str() != "/u" {
            return false;
        }
        listed = listed.saturating_add(1);
    }
    listed == 1
}

/// Returns whether a call finds what is there, or allocates its argument under the first number.
fn answers(alloc: Global, held: &mut Allocations<'static>, call: Call) -> Result<bool, Fault> {
    match call {
        Call::LookUp => looks_up(held),
        Call::Contains => held.footdefs.contains("N"),
        Call::LookUpUses => is_used(held, 0),
        Call::PutText => puts_text(held, true),
        Call::PutLink => puts_link(held, true),
        Call::PutAlignments => puts_alignments(alloc, held, true),
        Call::PutAttributes => puts_attributes(alloc, held, true),
    }
}

/// Returns whether a call does so, at once or after a refusal: a refused call allocates nothing, and changes nothing
/// else, so that the one definition is listed, and the footnote is unused.
pub fn answers_again(alloc: Global, call: Call) -> Option<bool> {
    let mut held = made(alloc).ok()?;
    let is_so = match answers(alloc, &mut held, call) {
        Ok(answered) => answered,
        Err(fault) => {
            fault == Fault::Memory
                && lists_one(&held.refdefs, "ß")
                && is_used(&mut held, 0) == Ok(true)
                && answers(alloc, &mut held, call) == Ok(true)
        }
    };
    Some(is_so)
}

/// Returns whether a use is counted once, and not at all if an allocation failed.
pub fn counts(alloc: Global) -> Option<bool> {
    let mut held = made(alloc).ok()?;
    let counted = held.footdefs.count_use("N");
    let expected = if counted == Ok(true) { 1 } else { 0 };
    let is_seen = match is_used(&mut held, expected) {
        Ok(is_seen) => is_seen,
        Err(_) => is_used(&mut held, expected) == Ok(true),
    };
    Some(counted != Ok(false) && is_seen)
}
