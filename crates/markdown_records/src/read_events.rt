//! Events of groups.
ghost use Rattle.std.specs.Prelude.{ℕ, List};
ghost use Rattle.markdown_base.specs.Event.{event_view};
ghost use Rattle.markdown_records.specs.Decoded.{event_in, leaf_in};
ghost use Rattle.markdown_records.specs.GroupOf.{group_view};
ghost use Rattle.markdown_records.specs.ReadOf.{bare_leaf_in};
ghost use Rattle.markdown_records.specs.ReadResult.{Finds, Reads};

use crate::fault::RecordFault;
use crate::groups::Group;
use crate::numbers;
use crate::numbers_read::{bool_of, end_numbered};
use crate::texts::Texts;
use markdown_base::event::Event;
use std::alloc::Global;

impl<'a> Texts<'a> {
    /// Returns an event without a text that is neither a Start nor an End.
    fn bare_leaf_of(group: &Group<'a>) -> Option<Event<'a>>
        ensures { (source pool : List ℕ) → Finds event_view
            (bare_leaf_in source pool (group_view group.now)) result }
    {
        if !group.is_bare() {
            return None;
        }
        if group.head.kind == numbers::TASK_LIST_MARKER {
            return Some(Event::TaskListMarker(bool_of(group.head.detail)?));
        }
        if group.head.detail != 0 {
            return None;
        }
        match group.head.kind {
            numbers::SOFT_BREAK => Some(Event::SoftBreak),
            numbers::HARD_BREAK => Some(Event::HardBreak),
            numbers::RULE => Some(Event::Rule),
            _ => None,
        }
    }

    /// Returns an event that is neither a Start nor an End.
    fn leaf_of(&self, group: &Group<'a>) -> Option<Event<'a>>
        ensures { Finds event_view
            (leaf_in self.now.source.now self.now.pool.now (group_view group.now)) result }
    {
        match group.head.kind {
            numbers::TEXT => Some(Event::Text(self.lone_text(group)?)),
            numbers::CODE => Some(Event::Code(self.lone_text(group)?)),
            numbers::INLINE_MATH => Some(Event::InlineMath(self.lone_text(group)?)),
            numbers::DISPLAY_MATH => Some(Event::DisplayMath(self.lone_text(group)?)),
            numbers::HTML => Some(Event::Html(self.lone_text(group)?)),
            numbers::INLINE_HTML => Some(Event::InlineHtml(self.lone_text(group)?)),
            numbers::FOOTNOTE_REFERENCE => Some(Event::FootnoteReference(self.lone_text(group)?)),
            _ => Texts::bare_leaf_of(group),
        }
    }

    /// Returns an event by its kind: a Start, an event that is neither, or an End.
    pub fn event_of(&self, alloc: Global, group: &Group<'a>) -> Result<Event<'a>, RecordFault>
        ensures { Reads event_view
            (event_in self.now.source.now self.now.pool.now (group_view group.now)) result }
    {
        if group.head.kind < numbers::TEXT {
            return Ok(Event::Start(self.tag_of(alloc, group)?));
        }
        if group.head.kind < numbers::END {
            return self.leaf_of(group).ok_or(RecordFault::NotRecords);
        }
        if !group.is_bare() {
            return Err(RecordFault::NotRecords);
        }
        match end_numbered(group.head.kind - numbers::END, group.head.detail) {
            Some(end) => Ok(Event::End(end)),
            None => Err(RecordFault::NotRecords),
        }
    }
}
