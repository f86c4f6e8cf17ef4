//! Events for tests, each by a sign that can be copied, so that lists of them are constants. An event is made on
//! demand: no
//! list of events is dropped at the end of a scope, for which a proof takes many seconds.
use crate::events::{Item, RangedItem};
use markdown_base::cow_str::CowStr;
use markdown_base::event::Event;
use markdown_base::fault::Fault;
use markdown_base::tag::{Alignment, CodeBlockKind, HeadingLevel, LinkType, Tag, TagEnd};
use markdown_test_helpers::events::{image, link};
use markdown_test_helpers::lists::{Items, Listed};
use std::alloc::{AllocError, Global};

/// An event, or an error.
#[derive(Clone, Copy, Drop)]
pub enum Sign<'s> {
    /// The simplest Start with this end: of a heading without attributes, an indented code block, a bullet list or a
    /// list
    /// that begins with 1.
    Open(TagEnd),
    Close(TagEnd),
    Ordered(u64),
    Fenced(&'s str),
    Definition(&'s str),
    Link(LinkType, &'s str, &'s str),
    Image(&'s str, &'s str),
    Words(&'s str),
    Code(&'s str),
    InlineMath(&'s str),
    DisplayMath(&'s str),
    Html(&'s str),
    InlineHtml(&'s str),
    Reference(&'s str),
    SoftBreak,
    HardBreak,
    Rule,
    Task(bool),
    Refused(Fault),
    /// No item, where others may follow.
    Nothing,
    Table(&'s [Alignment]),
    /// The Start of a heading with an id, two classes, an attribute with a value and one without.
    FullHeading,
}

/// Returns the tag of the simplest Start with this end.
fn tag_of<'a>(alloc: Global, tag: TagEnd) -> Tag<'a> {
    match tag {
        TagEnd::Paragraph => Tag::Paragraph,
        TagEnd::Heading(level) => Tag::Heading {
            level,
            id: None,
            classes: Vec::new(alloc),
            attrs: Vec::new(alloc),
        },
        TagEnd::BlockQuote(kind) => Tag::BlockQuote(kind),
        TagEnd::CodeBlock => Tag::CodeBlock(CodeBlockKind::Indented),
        TagEnd::HtmlBlock => Tag::HtmlBlock,
        TagEnd::List(true) => Tag::List(Some(1)),
        TagEnd::List(false) => Tag::List(None),
        TagEnd::Item => Tag::Item,
        TagEnd::FootnoteDefinition => Tag::FootnoteDefinition(CowStr::Borrowed("")),
        TagEnd::DefinitionList => Tag::DefinitionList,
        TagEnd::DefinitionListTitle => Tag::DefinitionListTitle,
        TagEnd::DefinitionListDefinition => Tag::DefinitionListDefinition,
        TagEnd::Table => Tag::Table(Vec::new(alloc)),
        TagEnd::TableHead => Tag::TableHead,
        TagEnd::TableRow => Tag::TableRow,
        TagEnd::TableCell => Tag::TableCell,
        TagEnd::Emphasis => Tag::Emphasis,
        TagEnd::Strong => Tag::Strong,
        TagEnd::Strikethrough => Tag::Strikethrough,
        TagEnd::Superscript => Tag::Superscript,
        TagEnd::Subscript => Tag::Subscript,
        TagEnd::MetadataBlock(kind) => Tag::MetadataBlock(kind),
        TagEnd::Link | TagEnd::Image => Tag::Paragraph,
    }
}

/// Returns the Start of a table.
fn table<'a>(alloc: Global, alignments: &[Alignment]) -> Item<'a> {
    Ok(Event::Start(Tag::Table(alignments.to_vec(alloc)?)))
}

/// Returns two classes.
fn classes<'a>(alloc: Global) -> Result<Vec<CowStr<'a>>, AllocError> {
    Ok(vec![in alloc; CowStr::Borrowed("a"), CowStr::Borrowed("b\"")]?)
}

/// Returns an attribute with a value and one without.
fn attributes<'a>(alloc: Global) -> Result<Vec<(CowStr<'a>, Option<CowStr<'a>>)>, AllocError> {
    Ok(vec![in alloc;
        (CowStr::Borrowed("k"), Some(CowStr::Borrowed("v"))),
        (CowStr::Borrowed("x"), None),
    ]?)
}

/// Returns the Start of a heading with all of these.
fn full_heading<'a>(alloc: Global) -> Item<'a> {
    let classes = classes(alloc)?;
    let attrs = attributes(alloc)?;
    Ok(Event::Start(Tag::Heading {
        level: HeadingLevel::H2,
        id: Some(CowStr::Borrowed("i")),
        classes,
        attrs,
    }))
}

/// Returns the event of a sign that has no tag to be made and is no error, and a rule for any other sign. It calls
/// nothing: a call in an arm makes each arm slower to prove.
fn event_of<'s>(sign: Sign<'s>) -> Event<'s> {
    match sign {
        Sign::Close(tag) => Event::End(tag),
        Sign::Ordered(first) => Event::Start(Tag::List(Some(first))),
        Sign::Fenced(info) => Event::Start(Tag::CodeBlock(CodeBlockKind::Fenced(CowStr::Borrowed(
            info,
        )))),
        Sign::Definition(name) => Event::Start(Tag::FootnoteDefinition(CowStr::Borrowed(name))),
        Sign::Words(words) => Event::Text(CowStr::Borrowed(words)),
        Sign::Code(words) => Event::Code(CowStr::Borrowed(words)),
        Sign::InlineMath(words) => Event::InlineMath(CowStr::Borrowed(words)),
        Sign::DisplayMath(words) => Event::DisplayMath(CowStr::Borrowed(words)),
        Sign::Html(html) => Event::Html(CowStr::Borrowed(html)),
        Sign::InlineHtml(html) => Event::InlineHtml(CowStr::Borrowed(html)),
        Sign::Reference(name) => Event::FootnoteReference(CowStr::Borrowed(name)),
        Sign::SoftBreak => Event::SoftBreak,
        Sign::HardBreak => Event::HardBreak,
        Sign::Task(done) => Event::TaskListMarker(done),
        _ => Event::Rule,
    }
}

/// Returns the item of a sign.
pub fn item_of<'s>(alloc: Global, sign: Sign<'s>) -> Item<'s> {
    match sign {
        Sign::Open(tag) => Ok(Event::Start(tag_of(alloc, tag))),
        Sign::Link(link_type, destination, title) => Ok(link(link_type, destination, title)),
        Sign::Image(destination, title) => Ok(image(destination, title)),
        Sign::Table(alignments) => table(alloc, alignments),
        Sign::FullHeading => full_heading(alloc),
        Sign::Refused(fault) => Err(fault),
        _ => Ok(event_of(sign)),
    }
}

/// The items of signs, as a list.
#[derive(Drop)]
pub struct Signed<'s> {
    alloc: Global,
    signs: &'s [Sign<'s>],
}

impl<'s> Listed for Signed<'s> {
    type Item = Item<'s>;

    fn item(&self, at: usize) -> Option<Item<'s>> {
        match self.signs.get(at)? {
            Sign::Nothing => None,
            sign => Some(item_of(self.alloc, *sign)),
        }
    }
}

/// Returns an iterator over the items of signs, in order.
pub fn items_of<'s>(alloc: Global, signs: &'s [Sign<'s>]) -> Items<Signed<'s>> {
    Items::of(Signed { alloc, signs }, signs.len())
}

/// The same, each with a range of one byte at its position in the list.
#[derive(Drop)]
pub struct Ranged<'s> {
    signed: Signed<'s>,
}

/// Returns an item with a range of one byte.
fn at_place<'s>(item: Item<'s>, at: usize) -> RangedItem<'s> {
    let event = item?;
    Ok((event, at..at.saturating_add(1)))
}

impl<'s> Listed for Ranged<'s> {
    type Item = RangedItem<'s>;

    fn item(&self, at: usize) -> Option<RangedItem<'s>> {
        let item = self.signed.item(at)?;
        Some(at_place(item, at))
    }
}

/// Returns an iterator over the items of signs, in order, each with a range of one byte.
pub fn ranged_items_of<'s>(alloc: Global, signs: &'s [Sign<'s>]) -> Items<Ranged<'s>> {
    let signed = Signed { alloc, signs };
    Items::of(Ranged { signed }, signs.len())
}
