//! The HTML of an event outside images.
ghost use Rattle.std.specs.Prelude.{◌≡◌, None, OnOk, OnErr};
ghost use Rattle.markdown_base.specs.CowText.{text_of};
ghost use Rattle.markdown_base.specs.Event.{event_view, text};
ghost use Rattle.markdown_out.specs.ByteLists.{joined};
ghost use Rattle.markdown_out.specs.StringAppends.{Appends, AppendsPart};
ghost use Rattle.markdown_out.specs.EventHtml.{outside_parts};

use super::pieces::{put, put_text};
use super::{Piece, Writer};
use markdown_base::cow_str::CowStr;
use markdown_base::event::Event;
use std::alloc::AllocError;

impl<'a> Writer<'a> {
    ghost use Rattle.markdown_out.specs.Writer.{view, view_after, IsSingle, IsVerbatim};

    /// Appends a Text outside images; in metadata it writes nothing.
    #[inline(always)]
    fn text(&mut self, s: &mut String, words: &str) -> Result<(), AllocError>
        requires { self.old.image ≡ None }
        ensures ok { OnOk result (Appends s.old s.new (joined (outside_parts (view self.old)
            (text words.now)))) }
        ensures told { OnOk result (view self.new ≡ view_after (view self.old) (text words.now)) }
        ensures err { OnErr result (AppendsPart s.old s.new (joined (outside_parts (view self.old)
            (text words.now)))) }
    {
        if self.in_metadata {
            return Ok(());
        }
        if words.is_empty() {
            self.fresh = false;
        }
        put_text(s, &mut self.fresh, words)
    }

    /// Returns what an event writes that needs no escape: HTML, a break, a rule or a task list marker.
    fn verbatim<'x>(&self, event: &'x Event<'a>) -> &'x str
        requires { IsVerbatim (event_view event.now) }
        ensures { result.now ≡ joined (outside_parts (view self.now) (event_view event.now)) }
    {
        match event {
            Event::Html(html) => html.as_str(),
            Event::InlineHtml(html) => html.as_str(),
            Event::SoftBreak => "\n",
            Event::HardBreak => "<br />\n",
            Event::Rule if self.fresh => "<hr />\n",
            Event::Rule => "\n<hr />\n",
            Event::TaskListMarker(true) => {
                "<input disabled=\"\" type=\"checkbox\" checked=\"\"/>\n"
            }
            Event::TaskListMarker(false) => "<input disabled=\"\" type=\"checkbox\"/>\n",
            _ => unreachable!(),
        }
    }

    /// Appends an event outside images that needs no escape.
    fn put_verbatim(&mut self, s: &mut String, event: &Event<'a>) -> Result<(), AllocError>
        requires outside { self.old.image ≡ None }
        requires verbatim { IsVerbatim (event_view event.now) }
        ensures ok { OnOk result (Appends s.old s.new (joined (outside_parts (view self.old)
            (event_view event.now)))) }
        ensures told { OnOk result (view self.new ≡ view_after (view self.old)
            (event_view event.now)) }
        ensures err { OnErr result (AppendsPart s.old s.new (joined (outside_parts (view self.old)
            (event_view event.now)))) }
    {
        let text = self.verbatim(event);
        self.raw(s, text)
    }

    /// Appends an event outside images that is neither a Start, an End, a Text nor a footnote reference.
    fn single(&mut self, s: &mut String, event: &Event<'a>) -> Result<(), AllocError>
        requires outside { self.old.image ≡ None }
        requires single { IsSingle (event_view event.now) }
        ensures ok { OnOk result (Appends s.old s.new (joined (outside_parts (view self.old)
            (event_view event.now)))) }
        ensures told { OnOk result (view self.new ≡ view_after (view self.old)
            (event_view event.now)) }
        ensures err { OnErr result (AppendsPart s.old s.new (joined (outside_parts (view self.old)
            (event_view event.now)))) }
    {
        let pieces = match event {
            Event::Code(text) => [
                Piece::Raw("<code>"),
                Piece::Text(text.as_str()),
                Piece::Raw("</code>"),
            ],
            Event::InlineMath(text) => [
                Piece::Raw("<span class=\"math math-inline\">"),
                Piece::Attribute(text.as_str()),
                Piece::Raw("</span>"),
            ],
            Event::DisplayMath(text) => [
                Piece::Raw("<span class=\"math math-display\">"),
                Piece::Attribute(text.as_str()),
                Piece::Raw("</span>"),
            ],
            _ => return self.put_verbatim(s, event),
        };
        put(s, &mut self.fresh, &pieces)
    }

    /// Appends a Text outside images, however it is held. Most are slices of the source, which need not be dropped.
    #[inline(always)]
    fn any_text(&mut self, s: &mut String, words: CowStr<'a>) -> Result<(), AllocError>
        requires { self.old.image ≡ None }
        ensures ok { OnOk result (Appends s.old s.new (joined (outside_parts (view self.old)
            (text (text_of words.entry))))) }
        ensures told { OnOk result (view self.new ≡ view_after (view self.old)
            (text (text_of words.entry))) }
        ensures err { OnErr result (AppendsPart s.old s.new (joined (outside_parts (view self.old)
            (text (text_of words.entry))))) }
    {
        match words {
            CowStr::Borrowed(slice) => self.text(s, slice),
            held => {
                let done = self.text(s, held.as_str());
                drop(held);
                done
            }
        }
    }

    /// Appends an event outside images that is neither a Start, an End, a Text nor a footnote reference, and drops it.
    #[inline(always)]
    fn owned_single(&mut self, s: &mut String, event: Event<'a>) -> Result<(), AllocError>
        requires outside { self.old.image ≡ None }
        requires single { IsSingle (event_view event) }
        ensures ok { OnOk result (Appends s.old s.new (joined (outside_parts (view self.old)
            (event_view event.entry)))) }
        ensures told { OnOk result (view self.new ≡ view_after (view self.old)
            (event_view event.entry)) }
        ensures err { OnErr result (AppendsPart s.old s.new (joined (outside_parts (view self.old)
            (event_view event.entry)))) }
    {
        let done = self.single(s, &event);
        drop(event);
        done
    }

    /// Appends the HTML of an event outside images. The most frequent events are taken apart here, so that only the
    /// others are moved as a whole.
    #[inline(always)]
    pub(super) fn outside(&mut self, s: &mut String, event: Event<'a>) -> Result<(), AllocError>
        requires { self.old.image ≡ None }
        ensures ok { OnOk result (Appends s.old s.new (joined (outside_parts (view self.old)
            (event_view event.entry)))) }
        ensures told { OnOk result (view self.new ≡ view_after (view self.old)
            (event_view event.entry)) }
        ensures err { OnErr result (AppendsPart s.old s.new (joined (outside_parts (view self.old)
            (event_view event.entry)))) }
    {
        match event {
            Event::Text(words) => self.any_text(s, words),
            Event::End(tag) => self.end(s, tag),
            Event::SoftBreak => self.raw(s, "\n"),
            Event::Start(tag) => self.start(s, tag),
            Event::FootnoteReference(name) => self.footnote_reference(s, name),
            single => self.owned_single(s, single),
        }
    }
}
