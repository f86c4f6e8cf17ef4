//! What an event inside an image adds to its alt text, and what closes the image.
ghost use Rattle.std.specs.Prelude.{◌≡◌, ◌≤◌, ◌+◌, ◌^◌, ◌∷◌, [], None, Some, OnOk, IfErr};
ghost use Rattle.markdown_base.specs.Event.{event_view, end as end_event};
ghost use Rattle.markdown_base.specs.declared.fault.Fault.TheVariants.{Memory, Depth};
ghost use Rattle.markdown_out.specs.AltText.{alt_parts};
ghost use Rattle.markdown_out.specs.ByteLists.{joined};
ghost use Rattle.markdown_out.specs.StringAppends.{Appends, AppendsPart};
ghost use Rattle.markdown_out.specs.Escapes.{attribute_escaped};
ghost use Rattle.markdown_out.specs.EventHtml.{event_bytes};
ghost use Rattle.markdown_out.specs.TagHtml.{image_end};
ghost use Rattle.markdown_out.specs.Writer.{spelled};

use super::links::put_image_end;
use super::pieces::{alone, put};
use super::{OpenImage, Piece, Writer};
use markdown_base::event::Event;
use markdown_base::fault::Fault;
use markdown_base::tag::TagEnd;

/// Returns a text as three pieces, two of them empty. It is escaped for an attribute's value.
fn attribute_value(text: &str) -> [Piece<'_>; 3]
    ensures { spelled result ≡ attribute_escaped text.now }
{
    [Piece::Raw(""), Piece::Raw(""), Piece::Attribute(text)]
}

/// Returns the pieces of math in an attribute's value, between two marks.
fn between_marks<'x>(mark: &'x str, text: &'x str) -> [Piece<'x>; 3]
    ensures { spelled result ≡ joined (mark.now ∷ attribute_escaped text.now ∷ mark.now ∷ []) }
{
    [Piece::Raw(mark), Piece::Attribute(text), Piece::Raw(mark)]
}

/// Drops what an event held.
fn discard<T: Drop>(value: T) {
    drop(value);
}

impl<'a> Writer<'a> {
    ghost use Rattle.markdown_out.specs.Writer.{view, view_in, view_after, after_bytes, with_image};
    ghost use Rattle.markdown_out.specs.Writer.{AddsAlt, MayRefuse};

    /// Appends pieces to the alt text of an image, and keeps the image open.
    fn add(
        &mut self,
        s: &mut String,
        image: OpenImage<'a>,
        pieces: &[Piece<'_>],
    ) -> Result<(), Fault>
        ensures ok { OnOk result (Appends s.old s.new (spelled pieces.now)) }
        ensures state { OnOk result (self.new ≡ with_image (after_bytes self.old
            (spelled pieces.now)) image.entry) }
        ensures err { IfErr result (λ fault. (fault ≡ Memory) × AppendsPart s.old s.new
            (spelled pieces.now)) }
    {
        self.image = Some(image);
        match put(s, &mut self.fresh, pieces) {
            Ok(()) => Ok(()),
            Err(_) => Err(Fault::Memory),
        }
    }

    /// Returns the pieces that an event adds to an alt text, which is not a Start, an End or a footnote reference.
    fn alt_pieces<'x>(&self, event: &'x Event<'a>) -> [Piece<'x>; 3]
        requires { AddsAlt (event_view event.now) }
        ensures { spelled result ≡ joined (alt_parts (view self.now) (event_view event.now)) }
    {
        match event {
            Event::Text(text) => attribute_value(text.as_str()),
            Event::Code(text) => attribute_value(text.as_str()),
            Event::InlineHtml(text) => attribute_value(text.as_str()),
            Event::InlineMath(text) => between_marks("$", text.as_str()),
            Event::DisplayMath(text) => between_marks("$$", text.as_str()),
            Event::Html(_) => alone(""),
            Event::SoftBreak | Event::HardBreak | Event::Rule => alone(" "),
            Event::TaskListMarker(true) => alone("[x]"),
            Event::TaskListMarker(false) => alone("[ ]"),
            _ => unreachable!(),
        }
    }

    /// Appends what an event other than a Start, an End or a footnote reference adds to the alt text, and keeps the
    /// image open.
    fn single_inside(
        &mut self,
        s: &mut String,
        image: OpenImage<'a>,
        event: &Event<'a>,
    ) -> Result<(), Fault>
        requires { AddsAlt (event_view event.now) }
        ensures ok { OnOk result (Appends s.old s.new
            (event_bytes (view_in self.old image.entry) (event_view event.now))) }
        ensures told { OnOk result
            (view self.new ≡ view_after (view_in self.old image.entry) (event_view event.now)) }
        ensures err { IfErr result (λ fault. (fault ≡ Memory) × AppendsPart s.old s.new
            (event_bytes (view_in self.old image.entry) (event_view event.now))) }
    {
        let pieces = self.alt_pieces(event);
        self.add(s, image, &pieces)
    }

    /// Counts a Start inside an image, which writes nothing. Returns `Depth` where the count overflows.
    fn start_inside(&mut self, image: OpenImage<'a>) -> Result<(), Fault>
        ensures ok { OnOk result (self.new ≡ with_image self.old
            (record { starts = image.entry.starts + 1; title = image.entry.title })) }
        ensures err { IfErr result (λ fault. (fault ≡ Depth) × (2 ^ 64 ≤ image.entry.starts + 1)) }
    {
        let Some(starts) = image.starts.checked_add(1) else {
            return Err(Fault::Depth);
        };
        self.image = Some(OpenImage {
            starts,
            title: image.title,
        });
        Ok(())
    }

    /// Handles an End inside an image: it ends a Start inside, or, where none is open, closes the image.
    fn end_inside(&mut self, s: &mut String, image: OpenImage<'a>, tag: TagEnd) -> Result<(), Fault>
        requires { self.old.image ≡ None }
        ensures ok { OnOk result (Appends s.old s.new
            (event_bytes (view_in self.old image.entry) (end_event tag))) }
        ensures told { OnOk result
            (view self.new ≡ view_after (view_in self.old image.entry) (end_event tag)) }
        ensures err { IfErr result (λ fault. (fault ≡ Memory) × AppendsPart s.old s.new
            (event_bytes (view_in self.old image.entry) (end_event tag))) }
    {
        let _ = tag;
        if image.starts > 0 {
            self.image = Some(OpenImage {
                starts: image.starts - 1,
                title: image.title,
            });
            return Ok(());
        }
        self.finish_image(s, image.title.as_str())
    }

    /// Appends what an event writes inside an image.
    pub(super) fn inside(
        &mut self,
        s: &mut String,
        image: OpenImage<'a>,
        event: Event<'a>,
    ) -> Result<(), Fault>
        requires { self.old.image ≡ None }
        ensures ok { OnOk result (Appends s.old s.new
            (event_bytes (view_in self.old image.entry) (event_view event.entry))) }
        ensures told { OnOk result
            (view self.new ≡ view_after (view_in self.old image.entry) (event_view event.entry)) }
        ensures err { IfErr result (λ fault.
            MayRefuse (view_in self.old image.entry) (event_view event.entry) fault
            × AppendsPart s.old s.new
            (event_bytes (view_in self.old image.entry) (event_view event.entry))) }
    {
        match event {
            Event::Start(tag) => {
                discard(tag);
                self.start_inside(image)
            }
            Event::End(tag) => self.end_inside(s, image, tag),
            Event::FootnoteReference(name) => self.add_reference(s, image, name),
            single => {
                let done = self.single_inside(s, image, &single);
                discard(single);
                done
            }
        }
    }

    /// Appends what closes an image.
    pub(super) fn finish_image(&mut self, s: &mut String, title: &str) -> Result<(), Fault>
        ensures ok { OnOk result (Appends s.old s.new (image_end title.now)) }
        ensures state { OnOk result (self.new ≡ after_bytes self.old (image_end title.now)) }
        ensures err { IfErr result (λ fault. (fault ≡ Memory) × AppendsPart s.old s.new
            (image_end title.now)) }
    {
        match put_image_end(s, &mut self.fresh, title) {
            Ok(()) => Ok(()),
            Err(_) => Err(Fault::Memory),
        }
    }
}
