//! The events that an item that is not open begins and ends with, by its body.
ghost use Rattle.std.specs.Prelude.{◌≡◌, ◌<◌, ◌∷◌, [], IfOk, IfSome, List, OnErr, slice_range, length, ℕ};
ghost use Rattle.markdown_base.specs.Event.{event_view, tag_view, link, image};
ghost use Rattle.markdown_base.specs.CowText.{text_of};
ghost use Rattle.markdown_base.specs.Item.{LiesIn, range_of};
ghost use Rattle.markdown_defs.specs.AllocationCalls.{HasLink, LeavesEmptyLink};
ghost use Rattle.markdown_document.specs.Document.{enclosed, math, shape_of};
ghost use Rattle.markdown_document.specs.Places.{origin_start};
ghost use Rattle.markdown_document.specs.PlacedNodes.{HasSliceLink, HasSlices};
ghost use Rattle.markdown_document.specs.Tables.{link_at, tables_of, titles_at};
ghost use Rattle.markdown_document.specs.NamedEntries.{NamesEntries};
ghost use Rattle.markdown_inline.specs.Slices.{TagIsFrom, slice_start, texts_of, titles_in};
ghost use Rattle.markdown_inline.specs.WalkSteps.{CanBegin, ClosesTo, OpensWith, TakesOnly, container_of, visit_at};

use crate::heading::heading_start;
use markdown_base::cow_str::CowStr;
use markdown_base::event::Event;
use markdown_base::index::LinkIndex;
use markdown_base::item::{Item, ItemBody};
use markdown_base::tag::{CodeBlockKind, Tag, TagEnd};
use markdown_defs::Allocations;
use std::alloc::{AllocError, Global};

/// How a walk moves at an item, by its body.
#[derive(Clone, Copy, Drop)]
pub enum Visit {
    /// The item is open: its chain has to be resolved first.
    Open,
    /// Over the item, which is one event.
    Leaf,
    /// Into the item, with a Start.
    Start,
    /// Into the item, without an event of its own: only what is below it is read.
    Plain,
}

/// Returns how a walk moves at an item with this body.
#[inline(always)]
pub fn visit_of(body: ItemBody) -> Visit
    ensures { visit_at body ≡ result }
{
    match body {
        ItemBody::MaybeEmphasis(_, _, _)
        | ItemBody::MaybeMath(_, _, _)
        | ItemBody::MaybeSmartQuote(_, _, _)
        | ItemBody::MaybeCode(_, _)
        | ItemBody::MaybeHtml
        | ItemBody::MaybeLinkOpen
        | ItemBody::MaybeLinkClose(_)
        | ItemBody::MaybeImage => Visit::Open,
        ItemBody::Text { .. }
        | ItemBody::SynthesizeText(_)
        | ItemBody::SynthesizeChar(_)
        | ItemBody::Code(_)
        | ItemBody::Math(_, _)
        | ItemBody::Html
        | ItemBody::InlineHtml
        | ItemBody::OwnedInlineHtml(_)
        | ItemBody::FootnoteReference(_)
        | ItemBody::SoftBreak
        | ItemBody::HardBreak(_)
        | ItemBody::Rule
        | ItemBody::TaskListMarker(_) => Visit::Leaf,
        ItemBody::Root | ItemBody::TightParagraph | ItemBody::MaybeDefinitionListTitle =>
            Visit::Plain,
        ItemBody::Emphasis
        | ItemBody::Strong
        | ItemBody::Strikethrough
        | ItemBody::Superscript
        | ItemBody::Subscript
        | ItemBody::Link(_)
        | ItemBody::Image(_)
        | ItemBody::Paragraph
        | ItemBody::Heading(_, _)
        | ItemBody::FencedCodeBlock(_)
        | ItemBody::IndentCodeBlock
        | ItemBody::HtmlBlock
        | ItemBody::BlockQuote(_)
        | ItemBody::List(_, _, _)
        | ItemBody::ListItem(_)
        | ItemBody::FootnoteDefinition(_)
        | ItemBody::MetadataBlock(_)
        | ItemBody::DefinitionList(_)
        | ItemBody::DefinitionListTitle
        | ItemBody::DefinitionListDefinition(_)
        | ItemBody::Table(_)
        | ItemBody::TableHead
        | ItemBody::TableRow
        | ItemBody::TableCell => Visit::Start,
    }
}

/// Returns the event of an item that is one event. The text that the item refers to, if any, is taken out of its table.
#[inline(always)]
pub fn leaf_event<'a>(text: &'a str, tables: &mut Allocations<'a>, item: Item) -> Event<'a>
    requires can { CanBegin text.now (tables_of tables.old) item }
    requires leaf { visit_at item.body ≡ Visit.Leaf }
    ensures opens { OpensWith text.entry.now (range_of item)
        (shape_of (tables_of tables.old) (slice_range text.entry.now item.start item.end) item.body)
        result }
    ensures taken { TakesOnly item.body tables.old tables.new }
{
    match item.body {
        ItemBody::Text { .. } => Event::Text(slice_of(text, item)),
        ItemBody::SynthesizeText(ix) => Event::Text(tables.take_cow(ix)),
        ItemBody::SynthesizeChar(c) => Event::Text(CowStr::from(c)),
        ItemBody::Code(ix) => Event::Code(tables.take_cow(ix)),
        ItemBody::Math(ix, display) => math_event(display, tables.take_cow(ix)),
        ItemBody::Html => Event::Html(slice_of(text, item)),
        ItemBody::InlineHtml => Event::InlineHtml(slice_of(text, item)),
        ItemBody::OwnedInlineHtml(ix) => Event::InlineHtml(tables.take_cow(ix)),
        ItemBody::FootnoteReference(ix) => Event::FootnoteReference(tables.take_cow(ix)),
        ItemBody::SoftBreak => Event::SoftBreak,
        ItemBody::HardBreak(_) => Event::HardBreak,
        ItemBody::TaskListMarker(done) => Event::TaskListMarker(done),
        // a thematic break: `leaf` excludes the rest, and for a new leaf `opens` fails here
        _ => Event::Rule,
    }
}

/// Returns the tag of an item's Start. A text, a link or alignments that the item refers to are taken out of their
/// tables, and heading attributes are copied. If an allocation for the copies fails, the tables are
/// unchanged.
pub fn start_tag<'a>(
    alloc: Global,
    tables: &mut Allocations<'a>,
    body: ItemBody,
) -> Result<Tag<'a>, AllocError>
    requires start { visit_at body ≡ Visit.Start }
    requires named { NamesEntries (tables_of tables.old) body }
    ensures tag { (over : List ℕ) → IfOk result (λ tag. shape_of (tables_of tables.old) over body
        ≡ enclosed (tag_view tag) (titles_in tag)) }
    ensures from { (source : List ℕ) (start end : ℕ)
        → HasSlices source (tables_of tables.old) start end body
        → IfOk result (TagIsFrom source start end) }
    ensures taken { IfOk result (λ _. TakesOnly body tables.old tables.new) }
    ensures refused { OnErr result (tables.new ≡ tables.old) }
{
    match body {
        ItemBody::Heading(level, named) => heading_start(alloc, tables, level, named),
        ItemBody::FencedCodeBlock(ix) => Ok(Tag::CodeBlock(CodeBlockKind::Fenced(tables.take_cow(
            ix,
        )))),
        ItemBody::FootnoteDefinition(ix) => Ok(Tag::FootnoteDefinition(tables.take_cow(ix))),
        ItemBody::Table(ix) => Ok(Tag::Table(tables.take_alignment(ix))),
        ItemBody::Link(ix) => Ok(link_tag(tables, ix)),
        ItemBody::Image(ix) => Ok(image_tag(tables, ix)),
        // the containers that refer to nothing: `start` and the arms above exclude the rest, and a new body that refers
        // to something is no container, so that `tag` fails here
        _ => Ok(container_tag(body)),
    }
}

/// Returns the tag of a container that refers to nothing; for any other body, `Tag::Paragraph`.
fn container_tag<'a>(body: ItemBody) -> Tag<'a>
    ensures tag { IfSome (container_of body) (λ tag. tag_view result ≡ tag) }
    ensures titles { titles_in result ≡ [] }
    ensures from { (source : List ℕ) (start end : ℕ) → TagIsFrom source start end result }
{
    match body {
        ItemBody::BlockQuote(kind) => Tag::BlockQuote(kind),
        ItemBody::IndentCodeBlock => Tag::CodeBlock(CodeBlockKind::Indented),
        ItemBody::HtmlBlock => Tag::HtmlBlock,
        ItemBody::List(_, b'.' | b')', first) => Tag::List(Some(first)),
        ItemBody::List(_, _, _) => Tag::List(None),
        ItemBody::ListItem(_) => Tag::Item,
        ItemBody::MetadataBlock(kind) => Tag::MetadataBlock(kind),
        ItemBody::DefinitionList(_) => Tag::DefinitionList,
        ItemBody::DefinitionListTitle => Tag::DefinitionListTitle,
        ItemBody::DefinitionListDefinition(_) => Tag::DefinitionListDefinition,
        ItemBody::TableHead => Tag::TableHead,
        ItemBody::TableRow => Tag::TableRow,
        ItemBody::TableCell => Tag::TableCell,
        ItemBody::Emphasis => Tag::Emphasis,
        ItemBody::Strong => Tag::Strong,
        ItemBody::Strikethrough => Tag::Strikethrough,
        ItemBody::Superscript => Tag::Superscript,
        ItemBody::Subscript => Tag::Subscript,
        // a paragraph: of any other container `tag` fails here
        _ => Tag::Paragraph,
    }
}

/// Returns the source text of an item's range, borrowed.
fn slice_of<'a>(text: &'a str, item: Item) -> CowStr<'a>
    requires { LiesIn text.now item }
    ensures { (slice : _) × (result ≡ CowStr.Borrowed slice)
        × (slice.now ≡ slice_range text.entry.now item.start item.end) }
{
    CowStr::Borrowed(&text[item.start..item.end])
}

/// Returns the event of display math or of inline math.
fn math_event<'a>(display: bool, text: CowStr<'a>) -> Event<'a>
    ensures event { event_view result ≡ math display (text_of text.entry) }
    ensures text { texts_of result ≡ text.entry ∷ [] }
    ensures from { (source : List ℕ) (start : ℕ)
        → slice_start source result start ≡ origin_start source start }
{
    if display {
        Event::DisplayMath(text)
    } else {
        Event::InlineMath(text)
    }
}

/// Returns the tag of a link, whose parts are taken out of the table.
fn link_tag<'a>(tables: &mut Allocations<'a>, ix: LinkIndex) -> Tag<'a>
    requires { HasLink tables.old ix }
    ensures tag { tag_view result ≡ link (link_at tables.old.links ix.0) }
    ensures titles { titles_in result ≡ titles_at tables.old.links ix.0 }
    ensures from { (source : List ℕ) (start end : ℕ)
        → HasSliceLink source (tables_of tables.old) start end ix.0
        → TagIsFrom source start end result }
    ensures left { LeavesEmptyLink tables.old tables.new ix }
{
    let (link_type, dest_url, title, id) = tables.take_link(ix);
    Tag::Link {
        link_type,
        dest_url,
        title,
        id,
    }
}

/// Returns the tag of an image, whose parts are taken out of the table of links.
fn image_tag<'a>(tables: &mut Allocations<'a>, ix: LinkIndex) -> Tag<'a>
    requires { HasLink tables.old ix }
    ensures tag { tag_view result ≡ image (link_at tables.old.links ix.0) }
    ensures titles { titles_in result ≡ titles_at tables.old.links ix.0 }
    ensures from { (source : List ℕ) (start end : ℕ)
        → HasSliceLink source (tables_of tables.old) start end ix.0
        → TagIsFrom source start end result }
    ensures left { LeavesEmptyLink tables.old tables.new ix }
{
    let (link_type, dest_url, title, id) = tables.take_link(ix);
    Tag::Image {
        link_type,
        dest_url,
        title,
        id,
    }
}

/// Returns the End of an item, by its body; None where the item gives none.
#[inline(always)]
pub fn close_item(body: ItemBody) -> Option<TagEnd>
    ensures { ClosesTo body result }
{
    match body {
        ItemBody::Paragraph => Some(TagEnd::Paragraph),
        ItemBody::Heading(level, _) => Some(TagEnd::Heading(level)),
        ItemBody::BlockQuote(kind) => Some(TagEnd::BlockQuote(kind)),
        ItemBody::IndentCodeBlock | ItemBody::FencedCodeBlock(_) => Some(TagEnd::CodeBlock),
        ItemBody::HtmlBlock => Some(TagEnd::HtmlBlock),
        ItemBody::List(_, b'.' | b')', _) => Some(TagEnd::List(true)),
        ItemBody::List(_, _, _) => Some(TagEnd::List(false)),
        ItemBody::ListItem(_) => Some(TagEnd::Item),
        ItemBody::FootnoteDefinition(_) => Some(TagEnd::FootnoteDefinition),
        ItemBody::DefinitionList(_) => Some(TagEnd::DefinitionList),
        ItemBody::DefinitionListTitle => Some(TagEnd::DefinitionListTitle),
        ItemBody::DefinitionListDefinition(_) => Some(TagEnd::DefinitionListDefinition),
        ItemBody::Table(_) => Some(TagEnd::Table),
        ItemBody::TableHead => Some(TagEnd::TableHead),
        ItemBody::TableRow => Some(TagEnd::TableRow),
        ItemBody::TableCell => Some(TagEnd::TableCell),
        ItemBody::Emphasis => Some(TagEnd::Emphasis),
        ItemBody::Strong => Some(TagEnd::Strong),
        ItemBody::Strikethrough => Some(TagEnd::Strikethrough),
        ItemBody::Superscript => Some(TagEnd::Superscript),
        ItemBody::Subscript => Some(TagEnd::Subscript),
        ItemBody::Link(_) => Some(TagEnd::Link),
        ItemBody::Image(_) => Some(TagEnd::Image),
        ItemBody::MetadataBlock(kind) => Some(TagEnd::MetadataBlock(kind)),
        // what is open, is one event or has none of its own: of a body that reads as a Start the clause fails here
        _ => None,
    }
}
