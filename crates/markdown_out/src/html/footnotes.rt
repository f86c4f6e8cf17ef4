//! The HTML of footnotes: references and definitions, with their numbers.
ghost use Rattle.std.specs.Prelude.{◌≡◌, ◌++◌, ◌∷◌, [], OnOk, OnErr, IfErr};
ghost use Rattle.std.specs.Prelude.{None};
ghost use Rattle.std.specs.String.{string_bytes};
ghost use Rattle.markdown_base.specs.CowText.{text_of};
ghost use Rattle.markdown_base.specs.Event.{start as start_event, footnote_reference};
ghost use Rattle.markdown_base.specs.Event.{footnote_definition};
ghost use Rattle.markdown_base.specs.declared.fault.Fault.TheVariants.{Memory};
ghost use Rattle.markdown_out.specs.AltText.{alt_parts};
ghost use Rattle.markdown_out.specs.ByteLists.{joined};
ghost use Rattle.markdown_out.specs.StringAppends.{Appends, AppendsPart};
ghost use Rattle.markdown_out.specs.EventHtml.{outside_parts};
ghost use Rattle.markdown_out.specs.TagHtml.{start_parts};
ghost use Rattle.markdown_out.specs.LookBacks.{footnote_number};
ghost use Rattle.markdown_out.specs.FootnoteParts.{to_reference_number, to_definition_number};

use super::names::Name;
use super::pieces::{line_break, push_pieces, put};
use super::{OpenImage, Piece, Writer};
use itoa::Buffer;
use markdown_base::cow_str::CowStr;
use markdown_base::fault::Fault;
use std::alloc::AllocError;

/// Appends what precedes the number in a footnote reference.
fn push_reference(s: &mut String, name: &str) -> Result<(), AllocError>
    ensures ok { OnOk result (Appends s.old s.new (joined (to_reference_number name.now))) }
    ensures err { OnErr result (AppendsPart s.old s.new (joined (to_reference_number name.now))) }
{
    push_pieces(
        s,
        &[
            Piece::Raw("<sup class=\"footnote-reference\"><a href=\"#"),
            Piece::Attribute(name),
            Piece::Raw("\">"),
        ],
    )
}

/// Appends what precedes the number in the Start of a footnote definition.
fn push_definition(s: &mut String, fresh: bool, name: &str) -> Result<(), AllocError>
    ensures ok { OnOk result (Appends s.old s.new (joined (to_definition_number fresh name.now))) }
    ensures err { OnErr result
        (AppendsPart s.old s.new (joined (to_definition_number fresh name.now))) }
{
    let first = line_break(fresh);
    push_pieces(
        s,
        &[
            Piece::Raw(first),
            Piece::Raw("<div class=\"footnote-definition\" id=\""),
            Piece::Attribute(name),
            Piece::Raw("\"><sup class=\"footnote-definition-label\">"),
        ],
    )
}

impl<'a> Writer<'a> {
    ghost use Rattle.markdown_out.specs.FootnoteParts.{after_number};
    ghost use Rattle.markdown_out.specs.Writer.{view, view_in, view_after, after_alt_reference};

    /// Appends the number of a footnote's name, and the text `after` it. A new name gets the next number.
    fn put_number(
        &mut self,
        s: &mut String,
        name: Name<'a>,
        after: &'static str,
    ) -> Result<(), AllocError>
        ensures ok { OnOk result (Appends s.old s.new (joined (footnote_number (view self.old)
            (text_of name.entry.text) ∷ after.now ∷ []))) }
        ensures told { OnOk result (view self.new ≡ after_number (view self.old)
            (text_of name.entry.text) after.now) }
        ensures err { OnErr result (AppendsPart s.old s.new (joined (footnote_number (view self.old)
            (text_of name.entry.text) ∷ after.now ∷ []))) }
    {
        let number = self.names.number_of(name)?;
        let mut digits = Buffer::new();
        put(
            s,
            &mut self.fresh,
            &[Piece::Raw(digits.format(number)), Piece::Raw(after)],
        )
    }

    /// Appends the Start of a footnote definition outside images.
    pub(super) fn footnote_definition(
        &mut self,
        s: &mut String,
        name: CowStr<'a>,
    ) -> Result<(), AllocError>
        requires { self.old.image ≡ None }
        ensures ok { OnOk result (Appends s.old s.new (joined (start_parts (view self.old)
            (footnote_definition (text_of name.entry))))) }
        ensures told { OnOk result (view self.new ≡ view_after (view self.old)
            (start_event (footnote_definition (text_of name.entry)))) }
        ensures err { OnErr result (AppendsPart s.old s.new (joined (start_parts (view self.old)
            (footnote_definition (text_of name.entry))))) }
    {
        let name = Name { text: name };
        push_definition(s, self.fresh, name.text.as_str())?;
        self.put_number(s, name, "</sup>")
    }

    /// Appends a footnote reference outside images.
    pub(super) fn footnote_reference(
        &mut self,
        s: &mut String,
        name: CowStr<'a>,
    ) -> Result<(), AllocError>
        requires { self.old.image ≡ None }
        ensures ok { OnOk result (Appends s.old s.new (joined (outside_parts (view self.old)
            (footnote_reference (text_of name.entry))))) }
        ensures told { OnOk result (view self.new ≡ view_after (view self.old) (footnote_reference
            (text_of name.entry))) }
        ensures err { OnErr result (AppendsPart s.old s.new (joined (outside_parts (view self.old)
            (footnote_reference (text_of name.entry))))) }
    {
        let name = Name { text: name };
        push_reference(s, name.text.as_str())?;
        self.put_number(s, name, "</a></sup>")
    }

    /// Appends a footnote reference to an alt text: its number in brackets.
    pub(super) fn alt_reference(
        &mut self,
        s: &mut String,
        name: CowStr<'a>,
    ) -> Result<(), AllocError>
        ensures ok { OnOk result (Appends s.old s.new (joined (alt_parts (view self.old)
            (footnote_reference (text_of name.entry))))) }
        ensures told { OnOk result
            (view self.new ≡ after_alt_reference (view self.old) (text_of name.entry)) }
        ensures err { OnErr result (AppendsPart s.old s.new (joined (alt_parts (view self.old)
            (footnote_reference (text_of name.entry))))) }
    {
        push_pieces(s, &[Piece::Raw("[")])?;
        self.put_number(s, Name { text: name }, "]")
    }

    /// Appends a footnote reference to the alt text of an image, and keeps the image open.
    pub(super) fn add_reference(
        &mut self,
        s: &mut String,
        image: OpenImage<'a>,
        name: CowStr<'a>,
    ) -> Result<(), Fault>
        ensures ok { OnOk result (Appends s.old s.new (joined (alt_parts (view self.old)
            (footnote_reference (text_of name.entry))))) }
        ensures told { OnOk result (view self.new
            ≡ after_alt_reference (view_in self.old image.entry) (text_of name.entry)) }
        ensures err { IfErr result (λ fault. (fault ≡ Memory) × AppendsPart s.old s.new
            (joined (alt_parts (view self.old) (footnote_reference (text_of name.entry))))) }
    {
        self.image = Some(image);
        match self.alt_reference(s, name) {
            Ok(()) => Ok(()),
            Err(_) => Err(Fault::Memory),
        }
    }
}
