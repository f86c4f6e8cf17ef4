//! Each kind of number that items hold: allocated, looked up and taken.
use markdown_base::block_parts::HeadingAttributes;
use markdown_base::cow_str::CowStr;
use markdown_base::fault::Fault;
use markdown_base::index::{AlignmentIndex, CowIndex, HeadingIndex, LinkIndex};
use markdown_base::tag::{Alignment, LinkType};
use markdown_defs::Allocations;
use markdown_test_helpers::parts::no_parts;
use markdown_test_helpers::rows::gives;
use std::alloc::Global;
use std::test::Fail;

fn heading<'a>(alloc: Global, id: &'a str) -> HeadingAttributes<'a> {
    HeadingAttributes {
        id: Some(CowStr::from(id)),
        classes: Vec::new(alloc),
        attrs: Vec::new(alloc),
    }
}

/// Returns allocations with one text and one heading's attributes.
fn one_of_each<'a>(alloc: Global) -> Result<Allocations<'a>, Fault> {
    let cows = vec![in alloc; CowStr::from("first")]?;
    let headings = vec![in alloc; heading(alloc, "h1")]?;
    let mut parts = no_parts(alloc);
    parts.cows = cows;
    parts.headings = headings;
    Allocations::new(alloc, parts)
}

/// Returns whether a text is this one.
fn reads(text: CowStr<'_>, words: &str) -> bool {
    let is_same = text.as_str() == words;
    drop(text);
    is_same
}

/// Allocates a text. Returns its number, and whether it is there, is what is taken, and is then empty.
fn put_text(held: &mut Allocations<'_>) -> Result<(CowIndex, [bool; 3]), Fault> {
    let ix = held.allocate_cow(CowStr::from("second"))?;
    let is_there = held[ix].as_str() == "second";
    let is_taken = reads(held.take_cow(ix), "second");
    Ok((ix, [is_there, is_taken, held[ix].as_str() == ""]))
}

#[test]
fn texts_are_numbered(rt: HostRuntime) -> Result<(), Fail> {
    let mut held = one_of_each(rt.alloc())?;
    let found = put_text(&mut held);
    drop(held);
    gives("a text", found?, (CowIndex(1), [true; 3]))
}

type Link<'a> = (LinkType, CowStr<'a>, CowStr<'a>, CowStr<'a>);

/// Returns whether a link has this type, and this destination, title and id.
fn is_link(link: &Link<'_>, kind: LinkType, texts: [&str; 3]) -> bool {
    link.0 == kind
        && link.1.as_str() == texts[0]
        && link.2.as_str() == texts[1]
        && link.3.as_str() == texts[2]
}

/// Returns the same, and drops the link.
fn was_link(link: Link<'_>, kind: LinkType, texts: [&str; 3]) -> bool {
    let is_so = is_link(&link, kind, texts);
    drop(link);
    is_so
}

/// Allocates a link. Returns its number, and whether it is there, is what is taken, and is then empty.
fn put_link(held: &mut Allocations<'_>) -> Result<(LinkIndex, [bool; 3]), Fault> {
    let ix = held.allocate_link(
        LinkType::Collapsed,
        CowStr::from("url"),
        CowStr::from("title"),
        CowStr::from("id"),
    )?;
    let texts = ["url", "title", "id"];
    let is_there = is_link(&held[ix], LinkType::Collapsed, texts);
    let is_taken = was_link(held.take_link(ix), LinkType::Collapsed, texts);
    let is_empty = is_link(&held[ix], LinkType::ShortcutUnknown, ["", "", ""]);
    Ok((ix, [is_there, is_taken, is_empty]))
}

#[test]
fn links_are_numbered(rt: HostRuntime) -> Result<(), Fail> {
    let mut held = one_of_each(rt.alloc())?;
    let found = put_link(&mut held);
    drop(held);
    gives("a link", found?, (LinkIndex(0), [true; 3]))
}

/// Returns whether these are the alignments of one centered column, and drops them.
fn is_centered(alignments: Vec<Alignment>) -> bool {
    alignments.as_slice() == [Alignment::Center].as_slice()
}

/// Allocates alignments. Returns their number, and whether they are there, are what is taken, and are then empty.
fn put_alignments(
    alloc: Global,
    held: &mut Allocations<'_>,
) -> Result<(AlignmentIndex, [bool; 3]), Fault> {
    let ix = held.allocate_alignment(vec![in alloc; Alignment::Center]?)?;
    let is_there = held[ix].as_slice() == [Alignment::Center].as_slice();
    let is_taken = is_centered(held.take_alignment(ix));
    Ok((ix, [is_there, is_taken, held[ix].is_empty()]))
}

#[test]
fn alignments_are_numbered(rt: HostRuntime) -> Result<(), Fail> {
    let mut held = one_of_each(rt.alloc())?;
    let found = put_alignments(rt.alloc(), &mut held);
    drop(held);
    gives("alignments", found?, (AlignmentIndex(0), [true; 3]))
}

/// Returns whether a heading's attributes have this id.
fn has_id(attributes: &HeadingAttributes<'_>, id: &str) -> bool {
    match &attributes.id {
        Some(held) => held.as_str() == id,
        None => false,
    }
}

/// Allocates a heading's attributes. Returns their number, and whether they and those before them are there.
fn put_heading(
    alloc: Global,
    held: &mut Allocations<'_>,
) -> Result<(HeadingIndex, [bool; 2]), Fault> {
    let ix = held.allocate_heading(heading(alloc, "h2"))?;
    let is_there = has_id(&held[ix], "h2");
    let is_first = has_id(&held[HeadingIndex(1)], "h1");
    Ok((ix, [is_there, is_first]))
}

#[test]
fn headings_are_numbered_from_one(rt: HostRuntime) -> Result<(), Fail> {
    let mut held = one_of_each(rt.alloc())?;
    let found = put_heading(rt.alloc(), &mut held);
    drop(held);
    gives("a heading", found?, (HeadingIndex(2), [true; 2]))
}
