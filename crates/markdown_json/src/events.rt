//! Events as JSON.
ghost use Rattle.markdown_base.specs.Event.{event_view};
ghost use Rattle.markdown_json.specs.Json.{event_json};

use crate::pieces::push_raw;
use crate::value::{Value, push_variant};
use markdown_base::event::Event;
use std::alloc::AllocError;

impl Value for Event<'_> {
    ghost json = { λ event. event_json (event_view event) };

    fn push(&self, s: &mut String) -> Result<(), AllocError> {
        match self {
            Event::Start(tag) => push_variant(s, "Start", tag),
            Event::End(tag) => push_variant(s, "End", tag),
            Event::Text(text) => push_variant(s, "Text", text),
            Event::Code(text) => push_variant(s, "Code", text),
            Event::InlineMath(text) => push_variant(s, "InlineMath", text),
            Event::DisplayMath(text) => push_variant(s, "DisplayMath", text),
            Event::Html(html) => push_variant(s, "Html", html),
            Event::InlineHtml(html) => push_variant(s, "InlineHtml", html),
            Event::FootnoteReference(name) => push_variant(s, "FootnoteReference", name),
            Event::SoftBreak => push_raw(s, "\"SoftBreak\""),
            Event::HardBreak => push_raw(s, "\"HardBreak\""),
            Event::Rule => push_raw(s, "\"Rule\""),
            Event::TaskListMarker(done) => push_variant(s, "TaskListMarker", done),
        }
    }
}
