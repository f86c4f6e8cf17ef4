//! Events as texts, one after another, with all of their fields.
//!
//! | Written | Is |
//! |---|---|
//! | `[a]`, `` `a` ``, `$a$`, `$$a$$` | Text, Code, inline and display math |
//! | `{a}`, `(a)`, `[^a]` | Html, InlineHtml, a footnote reference |
//! | `/`, `//`, `<hr>`, `<done>`, `<task>` | SoftBreak, HardBreak, Rule, a task that is done, and one that is not |
//! | `<p>`, `<blockquote Tip>`, `<ul>`, `<ol 7>`, `<li>` | Starts: a list without a number, and one from 7 on |
//! | `<h2 #(i) .(c) (k):(v) (n)>` | a heading with an id, a class, an attribute with a value and one without |
//! | `<code>`, `<code (rust)>`, `<footnote (a)>`, `<yaml>` | an indented code block, one with this info string |
//! | `<table [Left, None]>`, `<thead>`, `<tr>`, `<td>` | a table with its alignments |
//! | `<a Inline (c) (t) (i)>`, `<img ..>` | the type, destination, title and id |
//! | `</p>`, `</h2>`, `</blockquote Tip>`, `</ol>` | Ends |
//!
//! A text is preceded by `+` where it is boxed, by `=` where it is stored inline, and by nothing where it is a slice of
//! the
//! source.
ghost use Rattle.std.specs.Iterator.{IsFinite};

use markdown_base::cow_str::CowStr;
use markdown_base::event::Event;
use markdown_base::fault::Fault;
use markdown_base::tag::{
    BlockQuoteKind, CodeBlockKind, HeadingLevel, LinkType, MetadataBlockKind, Tag, TagEnd,
};
use std::alloc::{AllocError, Global};
use std::ops::Range;
use std::test::Fail;

/// Returns the sign of a text's form.
fn form_of(text: &CowStr<'_>) -> &'static str {
    match text {
        CowStr::Boxed(_) => "+",
        CowStr::Borrowed(_) => "",
        CowStr::Inlined(_) => "=",
    }
}

/// Appends a text between two marks, after the sign of its form.
fn push_text(
    notes: &mut String,
    before: &str,
    text: &CowStr<'_>,
    after: &str,
) -> Result<(), AllocError> {
    notes.push_str(form_of(text))?;
    notes.push_str(before)?;
    notes.push_str(text.as_str())?;
    notes.push_str(after)
}

/// Appends a field of a tag, after a mark.
fn push_field(notes: &mut String, mark: &str, text: &CowStr<'_>) -> Result<(), AllocError> {
    notes.push_str(mark)?;
    push_text(notes, "(", text, ")")
}

fn heading_name(level: HeadingLevel) -> &'static str {
    match level {
        HeadingLevel::H1 => "h1",
        HeadingLevel::H2 => "h2",
        HeadingLevel::H3 => "h3",
        HeadingLevel::H4 => "h4",
        HeadingLevel::H5 => "h5",
        HeadingLevel::H6 => "h6",
    }
}

fn quote_name(kind: Option<BlockQuoteKind>) -> &'static str {
    match kind {
        None => "blockquote",
        Some(BlockQuoteKind::Note) => "blockquote Note",
        Some(BlockQuoteKind::Tip) => "blockquote Tip",
        Some(BlockQuoteKind::Important) => "blockquote Important",
        Some(BlockQuoteKind::Warning) => "blockquote Warning",
        Some(BlockQuoteKind::Caution) => "blockquote Caution",
    }
}

fn metadata_name(kind: MetadataBlockKind) -> &'static str {
    match kind {
        MetadataBlockKind::YamlStyle => "yaml",
        MetadataBlockKind::PlusesStyle => "pluses",
    }
}

/// Returns the name of a tag, with the fields of its End.
fn name_of(tag: TagEnd) -> &'static str {
    match tag {
        TagEnd::Paragraph => "p",
        TagEnd::Heading(level) => heading_name(level),
        TagEnd::BlockQuote(kind) => quote_name(kind),
        TagEnd::CodeBlock => "code",
        TagEnd::HtmlBlock => "html",
        TagEnd::List(true) => "ol",
        TagEnd::List(false) => "ul",
        TagEnd::Item => "li",
        TagEnd::FootnoteDefinition => "footnote",
        TagEnd::DefinitionList => "dl",
        TagEnd::DefinitionListTitle => "dt",
        TagEnd::DefinitionListDefinition => "dd",
        TagEnd::Table => "table",
        TagEnd::TableHead => "thead",
        TagEnd::TableRow => "tr",
        TagEnd::TableCell => "td",
        TagEnd::Emphasis => "em",
        TagEnd::Strong => "strong",
        TagEnd::Strikethrough => "del",
        TagEnd::Superscript => "sup",
        TagEnd::Subscript => "sub",
        TagEnd::Link => "a",
        TagEnd::Image => "img",
        TagEnd::MetadataBlock(kind) => metadata_name(kind),
    }
}

fn link_name(link_type: LinkType) -> &'static str {
    match link_type {
        LinkType::Inline => " Inline",
        LinkType::Reference => " Reference",
        LinkType::ReferenceUnknown => " ReferenceUnknown",
        LinkType::Collapsed => " Collapsed",
        LinkType::CollapsedUnknown => " CollapsedUnknown",
        LinkType::Shortcut => " Shortcut",
        LinkType::ShortcutUnknown => " ShortcutUnknown",
        LinkType::Autolink => " Autolink",
        LinkType::Email => " Email",
        LinkType::WikiLink { has_pothole: true } => " WikiLink { has_pothole: true }",
        LinkType::WikiLink { has_pothole: false } => " WikiLink { has_pothole: false }",
    }
}

/// Appends the type and the texts of a link or an image.
fn push_link(
    notes: &mut String,
    link_type: LinkType,
    destination: &CowStr<'_>,
    title: &CowStr<'_>,
    id: &CowStr<'_>,
) -> Result<(), AllocError> {
    notes.push_str(link_name(link_type))?;
    push_field(notes, " ", destination)?;
    push_field(notes, " ", title)?;
    push_field(notes, " ", id)
}

/// Appends an attribute of a heading.
fn push_attribute(
    notes: &mut String,
    name: &CowStr<'_>,
    value: &Option<CowStr<'_>>,
) -> Result<(), AllocError> {
    push_field(notes, " ", name)?;
    match value {
        Some(value) => push_field(notes, ":", value),
        None => Ok(()),
    }
}

/// Appends the id, the classes and the attributes of a heading.
fn push_attributes(
    notes: &mut String,
    id: &Option<CowStr<'_>>,
    classes: &[CowStr<'_>],
    attrs: &[(CowStr<'_>, Option<CowStr<'_>>)],
) -> Result<(), AllocError> {
    if let Some(id) = id {
        push_field(notes, " #", id)?;
    }
    for class in classes {
        push_field(notes, " .", class)?;
    }
    for (name, value) in attrs {
        push_attribute(notes, name, value)?;
    }
    Ok(())
}

/// Appends the fields of a Start that its End does not have.
fn push_held(alloc: Global, notes: &mut String, tag: &Tag<'_>) -> Result<(), AllocError> {
    match tag {
        Tag::Heading {
            id,
            classes,
            attrs,
            ..
        } => push_attributes(notes, id, classes, attrs),
        Tag::CodeBlock(CodeBlockKind::Fenced(info)) => push_field(notes, " ", info),
        Tag::FootnoteDefinition(name) => push_field(notes, " ", name),
        Tag::List(Some(first)) => notes.push_str(format!(in alloc; " {first}")?.as_str()),
        Tag::Table(alignments) => notes.push_str(format!(in alloc; " {alignments:?}")?.as_str()),
        Tag::Link {
            link_type,
            dest_url,
            title,
            id,
        } => push_link(notes, *link_type, dest_url, title, id),
        Tag::Image {
            link_type,
            dest_url,
            title,
            id,
        } => push_link(notes, *link_type, dest_url, title, id),
        _ => Ok(()),
    }
}

fn push_start(alloc: Global, notes: &mut String, tag: &Tag<'_>) -> Result<(), AllocError> {
    notes.push_str("<")?;
    notes.push_str(name_of(tag.to_end()))?;
    push_held(alloc, notes, tag)?;
    notes.push_str(">")
}

fn push_end(notes: &mut String, tag: TagEnd) -> Result<(), AllocError> {
    notes.push_str("</")?;
    notes.push_str(name_of(tag))?;
    notes.push_str(">")
}

/// Returns the text of an event that has no other field, and its marks.
fn marked<'b, 'a>(event: &'b Event<'a>) -> Option<(&'static str, &'b CowStr<'a>, &'static str)> {
    match event {
        Event::Text(text) => Some(("[", text, "]")),
        Event::Code(text) => Some(("`", text, "`")),
        Event::InlineMath(text) => Some(("$", text, "$")),
        Event::DisplayMath(text) => Some(("$$", text, "$$")),
        Event::Html(text) => Some(("{", text, "}")),
        Event::InlineHtml(text) => Some(("(", text, ")")),
        Event::FootnoteReference(name) => Some(("[^", name, "]")),
        _ => None,
    }
}

/// Returns the sign of an event that has no text and is neither a Start nor an End.
fn sign_of(event: &Event<'_>) -> &'static str {
    match event {
        Event::SoftBreak => "/",
        Event::HardBreak => "//",
        Event::Rule => "<hr>",
        Event::TaskListMarker(true) => "<done>",
        Event::TaskListMarker(false) => "<task>",
        _ => "",
    }
}

fn push_leaf(notes: &mut String, event: &Event<'_>) -> Result<(), AllocError> {
    match marked(event) {
        Some((before, text, after)) => push_text(notes, before, text, after),
        None => notes.push_str(sign_of(event)),
    }
}

/// Appends an event.
pub fn push_event(alloc: Global, notes: &mut String, event: &Event<'_>) -> Result<(), AllocError> {
    match event {
        Event::Start(tag) => push_start(alloc, notes, tag),
        Event::End(tag) => push_end(notes, *tag),
        _ => push_leaf(notes, event),
    }
}

/// Appends an event, and then its range.
pub fn push_placed(
    alloc: Global,
    notes: &mut String,
    event: &Event<'_>,
    range: &Range<usize>,
) -> Result<(), AllocError> {
    push_event(alloc, notes, event)?;
    let place = format!(in alloc; "{}..{} ", range.start, range.end)?;
    notes.push_str(place.as_str())
}

/// Returns the events of an iterator as a text, each with its range.
pub fn notes_of<'a, I: Iterator<Item = Result<(Event<'a>, Range<usize>), Fault>>>(
    alloc: Global,
    iter: I,
) -> Result<String, Fail>
    requires can { I.can_next iter }
    requires ends { IsFinite (I.remaining iter) }
{
    let mut notes = String::new(alloc);
    for placed in iter {
        let (event, range) = placed?;
        let done = push_placed(alloc, &mut notes, &event, &range);
        drop(event);
        done?;
    }
    Ok(notes)
}

/// Returns the events of a list as a text, each with its range.
pub fn notes_of_list(
    alloc: Global,
    events: &[(Event<'_>, Range<usize>)],
) -> Result<String, AllocError> {
    let mut notes = String::new(alloc);
    for (event, range) in events {
        push_placed(alloc, &mut notes, event, range)?;
    }
    Ok(notes)
}
