//! `push_html` and `push_html_by`, which write the events of an iterator up to its first `None`.
ghost use Rattle.std.specs.Prelude.{◌≡◌, ◌⊎◌, ◌++◌, [], OnOk, IfErr};
ghost use Rattle.std.specs.Iterator.{IsFinite};
ghost use Rattle.std.specs.String.{string_bytes};
ghost use Rattle.markdown_base.specs.Event.{event_view};
ghost use Rattle.markdown_base.specs.declared.fault.Fault.TheVariants.{Memory};
ghost use Rattle.markdown_out.specs.StringAppends.{Appends, AppendsPart};
ghost use Rattle.markdown_out.specs.EventHtml.{closing, event_bytes, past_by};
ghost use Rattle.markdown_out.specs.HtmlCorrect.{IsRendered, StopsAtError, IsOwnFault};
ghost use Rattle.markdown_out.specs.HtmlCorrect.{IsRenderedBy, StopsAtErrorBy, IsOwnFaultBy};

use super::names::FootnoteNames;
use super::{HtmlRules, Writer};
use markdown_base::event::Event;
use markdown_base::fault::Fault;
use std::alloc::Global;

impl<'a> Writer<'a> {
    ghost use Rattle.markdown_out.specs.Writer.{view, view_after, MayRefuse};

    /// Returns a writer by these rules that has read no event. Allocates nothing.
    fn new(alloc: Global, rules: HtmlRules) -> Self
        ensures { view result ≡ past_by rules [] }
    {
        Writer {
            fresh: true,
            in_metadata: false,
            in_head: true,
            column: 0,
            alignments: Vec::new(alloc),
            names: FootnoteNames::new(alloc),
            image: None,
            rules,
        }
    }

    /// Appends the HTML of an event.
    // inlined, with what the most frequent events take, into `push_html` for each type of iterator
    #[inline(always)]
    fn event(&mut self, s: &mut String, event: Event<'a>) -> Result<(), Fault>
        ensures ok { OnOk result
            (Appends s.old s.new (event_bytes (view self.old) (event_view event.entry))) }
        ensures told { OnOk result
            (view self.new ≡ view_after (view self.old) (event_view event.entry)) }
        ensures err { IfErr result (λ fault.
            MayRefuse (view self.old) (event_view event.entry) fault
            × AppendsPart s.old s.new (event_bytes (view self.old) (event_view event.entry))) }
    {
        if self.image.is_none() {
            return match self.outside(s, event) {
                Ok(()) => Ok(()),
                Err(_) => Err(Fault::Memory),
            };
        }
        match self.image.take() {
            Some(image) => self.inside(s, image, event),
            None => unreachable!(),
        }
    }

    /// Closes the image that is open at the end of the events, if there is one.
    fn finish(self, s: &mut String) -> Result<(), Fault>
        ensures ok { OnOk result (Appends s.old s.new (closing (view self.entry).open_image)) }
        ensures err { IfErr result (λ fault. (fault ≡ Memory) × AppendsPart s.old s.new
            (closing (view self.entry).open_image)) }
    {
        let mut writer = self;
        match writer.image.take() {
            None => Ok(()),
            Some(image) => writer.finish_image(s, image.title.as_str()),
        }
    }
}

/// Appends the HTML of the events up to the first `None`, and nothing else. It starts as at the beginning of a line,
/// whatever the string holds.
///
/// ```
/// let mut html = String::new(alloc);
/// push_html(alloc, &mut html, Parser::new(alloc, "*a*")?)?;
/// // <p><em>a</em></p>
/// ```
///
/// # Errors
///
/// After each of them the *open* HTML of some events has been appended: without what closes an image that has no End.
///
/// - The error of the first item that is one: the open HTML of the events before it.
/// - `Memory`, if an allocation fails: the open HTML of the events before the one that was being written, and a
///   prefix of its bytes; or, where an image was to be closed after the last event, the open HTML of all events, and a
///   prefix of what closes the image.
/// - `Depth`, where more than 2^64 - 1 Starts in one image have no End yet: the open HTML of the events read.
pub fn push_html<'a, I>(alloc: Global, s: &mut String, iter: I) -> Result<(), Fault>
where
    I: Iterator<Item = Result<Event<'a>, Fault>>,
    requires can { I.can_next iter }
    requires ends { IsFinite (I.remaining iter) }
    // The old text is followed by the HTML of all events.
    ensures ok { OnOk result
        (IsRendered I.next_gives iter (string_bytes s.old) (string_bytes s.new)) }

    // The first item that is an error, or an error of this function's own.
    ensures err { IfErr result (λ fault.
        StopsAtError I.next_gives iter (string_bytes s.old) (string_bytes s.new) fault
        ⊎ IsOwnFault I.next_gives iter (string_bytes s.old) (string_bytes s.new) fault) }
{
    push_html_by(alloc, s, iter, HtmlRules::upstream())
}

/// Appends the HTML of the events up to the first `None`, by rules, as `push_html` does by those of upstream.
///
/// # Errors
///
/// Those of `push_html`.
pub fn push_html_by<'a, I>(
    alloc: Global,
    s: &mut String,
    iter: I,
    rules: HtmlRules,
) -> Result<(), Fault>
where
    I: Iterator<Item = Result<Event<'a>, Fault>>,
    requires can { I.can_next iter }
    requires ends { IsFinite (I.remaining iter) }
    // The old text is followed by the HTML of all events.
    ensures ok { OnOk result
        (IsRenderedBy rules I.next_gives iter (string_bytes s.old) (string_bytes s.new)) }

    // The first item that is an error, or an error of this function's own.
    ensures err { IfErr result (λ fault.
        StopsAtErrorBy rules I.next_gives iter (string_bytes s.old) (string_bytes s.new) fault
        ⊎ IsOwnFaultBy rules I.next_gives iter (string_bytes s.old) (string_bytes s.new) fault) }
{
    let mut writer = Writer::new(alloc, rules);
    for item in iter {
        let event = item?;
        writer.event(s, event)?;
    }
    writer.finish(s)
}
