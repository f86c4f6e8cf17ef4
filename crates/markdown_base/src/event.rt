//! The events that a document is read as.
ghost use Rattle.std.specs.Prelude.{◌≡◌, IfOk, IfErr};
ghost use Rattle.markdown_base.specs.CopiedTexts.{KeepsSlices, texts_of_event};
ghost use Rattle.markdown_base.specs.Event.{event_view};
ghost use Rattle.markdown_base.specs.declared.fault.Fault.{Fault};

use crate::cow_str::CowStr;
use crate::fault::Fault;
use crate::tag::{Tag, TagEnd};
use std::alloc::Global;

/// A step of a document's traversal in preorder.
#[derive(Debug, PartialEq, Drop)]
pub enum Event<'a> {
    Start(Tag<'a>),
    End(TagEnd),
    Text(CowStr<'a>),
    /// A code span (CommonMark 6.1).
    Code(CowStr<'a>),
    InlineMath(CowStr<'a>),
    DisplayMath(CowStr<'a>),
    /// A line of an HTML block (CommonMark 4.6).
    Html(CowStr<'a>),
    /// Raw HTML in a paragraph (CommonMark 6.6).
    InlineHtml(CowStr<'a>),
    /// A footnote reference: the footnote's name.
    FootnoteReference(CowStr<'a>),
    /// A soft line break (CommonMark 6.8).
    SoftBreak,
    /// A hard line break (CommonMark 6.7).
    HardBreak,
    /// A thematic break (CommonMark 4.1).
    Rule,
    /// The marker of a task list item: whether the task is done.
    TaskListMarker(bool),
}

impl<'a> Event<'a> {
    /// Returns a copy of the event. Slices of the source are copied as slices. The only error is `Fault::Memory`.
    pub fn try_clone(&self, alloc: Global) -> Result<Event<'a>, Fault>
        ensures same { IfOk result (λ copy. event_view copy ≡ event_view self.now) }
        ensures slices { IfOk result
            (λ copy. KeepsSlices (texts_of_event self.now) (texts_of_event copy)) }
        ensures refused { IfErr result (λ fault. fault ≡ Fault.Memory) }
    {
        Ok(match self {
            Event::Start(tag) => Event::Start(tag.try_clone(alloc)?),
            Event::End(tag) => Event::End(*tag),
            Event::Text(text) => Event::Text(text.try_clone(alloc)?),
            Event::Code(text) => Event::Code(text.try_clone(alloc)?),
            Event::InlineMath(text) => Event::InlineMath(text.try_clone(alloc)?),
            Event::DisplayMath(text) => Event::DisplayMath(text.try_clone(alloc)?),
            Event::Html(text) => Event::Html(text.try_clone(alloc)?),
            Event::InlineHtml(text) => Event::InlineHtml(text.try_clone(alloc)?),
            Event::FootnoteReference(text) => Event::FootnoteReference(text.try_clone(alloc)?),
            Event::SoftBreak => Event::SoftBreak,
            Event::HardBreak => Event::HardBreak,
            Event::Rule => Event::Rule,
            Event::TaskListMarker(done) => Event::TaskListMarker(*done),
        })
    }

    /// Returns the same event without borrowing from the source, so that it can outlive the source. The only error is
    /// `Fault::Memory`, in which case the event is dropped.
    pub fn into_static(self, alloc: Global) -> Result<Event<'static>, Fault>
        ensures same { IfOk result (λ made. event_view made ≡ event_view self.entry) }
        ensures refused { IfErr result (λ fault. fault ≡ Fault.Memory) }
    {
        Ok(match self {
            Event::Start(tag) => Event::Start(tag.into_static(alloc)?),
            Event::End(tag) => Event::End(tag),
            Event::Text(text) => Event::Text(text.into_static(alloc)?),
            Event::Code(text) => Event::Code(text.into_static(alloc)?),
            Event::InlineMath(text) => Event::InlineMath(text.into_static(alloc)?),
            Event::DisplayMath(text) => Event::DisplayMath(text.into_static(alloc)?),
            Event::Html(text) => Event::Html(text.into_static(alloc)?),
            Event::InlineHtml(text) => Event::InlineHtml(text.into_static(alloc)?),
            Event::FootnoteReference(text) => Event::FootnoteReference(text.into_static(alloc)?),
            Event::SoftBreak => Event::SoftBreak,
            Event::HardBreak => Event::HardBreak,
            Event::Rule => Event::Rule,
            Event::TaskListMarker(done) => Event::TaskListMarker(done),
        })
    }
}
