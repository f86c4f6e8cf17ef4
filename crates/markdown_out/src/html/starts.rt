//! The HTML of a Start outside images.
ghost use Rattle.std.specs.Prelude.{◌≡◌, ◌++◌, [], ◌∷◌, None, OnOk, OnErr};
ghost use Rattle.markdown_base.specs.Event.{tag_view, start as start_event};
ghost use Rattle.markdown_out.specs.ByteLists.{joined};
ghost use Rattle.markdown_out.specs.StringAppends.{Appends, AppendsPart};
ghost use Rattle.markdown_out.specs.TagHtml.{image_parts, new_line, start_parts};

use super::heading::put_heading;
use super::links::put_image;
use super::pieces::{line_break, put, put_raw};
use super::{OpenImage, Piece, Writer};
use markdown_base::cow_str::CowStr;
use markdown_base::tag::Tag;
use std::alloc::AllocError;

impl<'a> Writer<'a> {
    ghost use Rattle.markdown_out.specs.Writer.{view, view_after, after_bytes, with_image};
    ghost use Rattle.markdown_out.specs.Writer.{IsFixed, IsRarerTag, IsReleased};

    /// Appends a text as it is.
    pub(super) fn raw(&mut self, s: &mut String, text: &str) -> Result<(), AllocError>
        ensures ok { OnOk result (Appends s.old s.new text.now) }
        ensures state { OnOk result (self.new ≡ after_bytes self.old text.now) }
        ensures err { OnErr result (AppendsPart s.old s.new text.now) }
    {
        put_raw(s, &mut self.fresh, text)
    }

    /// Appends a text at the beginning of a line, after a newline where the line is not fresh.
    pub(super) fn line(&mut self, s: &mut String, text: &'static str) -> Result<(), AllocError>
        ensures ok { OnOk result (Appends s.old s.new (joined (new_line self.old.fresh ∷ text.now ∷
            []))) }
        ensures state { OnOk result (self.new ≡ after_bytes self.old
            (joined (new_line self.old.fresh ∷ text.now ∷ []))) }
        ensures err { OnErr result (AppendsPart s.old s.new
            (joined (new_line self.old.fresh ∷ text.now ∷ []))) }
    {
        let first = line_break(self.fresh);
        put(s, &mut self.fresh, &[Piece::Raw(first), Piece::Raw(text)])
    }

    /// Returns what a Start outside images writes whose HTML depends at most on `fresh` (`IsFixed`).
    fn fixed_start(&self, tag: &Tag<'a>) -> &'static str
        requires { IsFixed (tag_view tag.now) }
        ensures { result.now ≡ joined (start_parts (view self.now) (tag_view tag.now)) }
    {
        match tag {
            Tag::HtmlBlock | Tag::MetadataBlock(_) => "",
            Tag::DefinitionList if self.fresh => "<dl>\n",
            Tag::DefinitionList => "\n<dl>\n",
            Tag::DefinitionListTitle if self.fresh => "<dt>",
            Tag::DefinitionListTitle => "\n<dt>",
            Tag::DefinitionListDefinition if self.fresh => "<dd>",
            Tag::DefinitionListDefinition => "\n<dd>",
            Tag::TableHead => "<thead><tr>",
            Tag::TableRow => "<tr>",
            Tag::Strikethrough => "<del>",
            Tag::Superscript => "<sup>",
            Tag::Subscript => "<sub>",
            _ => unreachable!(),
        }
    }

    /// Updates the state for a Start outside images that is fixed (`IsFixed`), except `fresh`, which depends on the
    /// bytes that it writes.
    fn note_start(&mut self, tag: &Tag<'a>)
        requires outside { self.old.image ≡ None }
        requires fixed { IsFixed (tag_view tag.now) }
        ensures view { view self.new
            ≡ record (view_after (view self.old) (start_event (tag_view tag.now))) {
              fresh = self.old.fresh;
            } }
        ensures image { self.new.image ≡ None }
    {
        match tag {
            Tag::TableHead => {
                self.in_head = true;
                self.column = 0;
            }
            Tag::TableRow => self.column = 0,
            Tag::MetadataBlock(_) => self.in_metadata = true,
            _ => {}
        }
    }

    /// Appends the HTML of a Start outside images that is fixed (`IsFixed`).
    fn start_fixed(&mut self, s: &mut String, tag: &Tag<'a>) -> Result<(), AllocError>
        requires outside { self.old.image ≡ None }
        requires fixed { IsFixed (tag_view tag.now) }
        ensures ok { OnOk result (Appends s.old s.new (joined (start_parts (view self.old)
            (tag_view tag.now)))) }
        ensures told { OnOk result (view self.new ≡ view_after (view self.old)
            (start_event (tag_view tag.now))) }
        ensures err { OnErr result (AppendsPart s.old s.new (joined (start_parts (view self.old)
            (tag_view tag.now)))) }
    {
        let text = self.fixed_start(tag);
        self.note_start(tag);
        self.raw(s, text)
    }

    /// Appends the HTML of a Start outside images whose tag need not be kept: not an image, a table or a footnote
    /// definition.
    fn start_released(&mut self, s: &mut String, tag: &Tag<'a>) -> Result<(), AllocError>
        requires outside { self.old.image ≡ None }
        requires released { IsReleased (tag_view tag.now) }
        ensures ok { OnOk result (Appends s.old s.new (joined (start_parts (view self.old)
            (tag_view tag.now)))) }
        ensures told { OnOk result (view self.new ≡ view_after (view self.old)
            (start_event (tag_view tag.now))) }
        ensures err { OnErr result (AppendsPart s.old s.new (joined (start_parts (view self.old)
            (tag_view tag.now)))) }
    {
        match tag {
            Tag::Heading {
                level,
                id,
                classes,
                attrs,
            } => put_heading(s, &mut self.fresh, *level, id, classes, attrs),
            Tag::BlockQuote(kind) => self.block_quote(s, *kind),
            Tag::CodeBlock(kind) => self.code_block(s, kind),
            Tag::List(first) => self.list(s, *first),
            Tag::TableCell => self.cell(s),
            _ => self.start_fixed(s, tag),
        }
    }

    /// Appends the Start of an image outside images, and keeps its title for its end.
    fn open_image(
        &mut self,
        s: &mut String,
        destination: &str,
        title: CowStr<'a>,
    ) -> Result<(), AllocError>
        ensures ok { OnOk result (Appends s.old s.new (joined (image_parts destination.now))) }
        ensures state { OnOk result (self.new
            ≡ with_image (after_bytes self.old (joined (image_parts destination.now)))
            (record { starts = 0; title = title.entry })) }
        ensures err { OnErr result
            (AppendsPart s.old s.new (joined (image_parts destination.now))) }
    {
        self.image = Some(OpenImage { starts: 0, title });
        put_image(s, &mut self.fresh, destination)
    }

    /// Appends the HTML of a Start outside images whose tag is none of the most frequent ones.
    // apart, so that the frequent tags take fewer instructions
    #[inline(never)]
    fn rarer_start(&mut self, s: &mut String, tag: Tag<'a>) -> Result<(), AllocError>
        requires outside { self.old.image ≡ None }
        requires rarer { IsRarerTag (tag_view tag) }
        ensures ok { OnOk result (Appends s.old s.new (joined (start_parts (view self.old)
            (tag_view tag.entry)))) }
        ensures told { OnOk result (view self.new ≡ view_after (view self.old)
            (start_event (tag_view tag.entry))) }
        ensures err { OnErr result (AppendsPart s.old s.new (joined (start_parts (view self.old)
            (tag_view tag.entry)))) }
    {
        match tag {
            Tag::Image {
                dest_url,
                title,
                ..
            } => self.open_image(s, dest_url.as_str(), title),
            Tag::Table(alignments) => self.table(s, alignments),
            Tag::FootnoteDefinition(name) => self.footnote_definition(s, name),
            released => {
                let done = self.start_released(s, &released);
                drop(released);
                done
            }
        }
    }

    /// Appends the HTML of a Start outside images. The most frequent tags are handled here, so that only the others are
    /// moved as a whole, and dropped.
    #[inline(always)]
    pub(super) fn start(&mut self, s: &mut String, tag: Tag<'a>) -> Result<(), AllocError>
        requires { self.old.image ≡ None }
        ensures ok { OnOk result (Appends s.old s.new (joined (start_parts (view self.old)
            (tag_view tag.entry)))) }
        ensures told { OnOk result (view self.new ≡ view_after (view self.old)
            (start_event (tag_view tag.entry))) }
        ensures err { OnErr result (AppendsPart s.old s.new (joined (start_parts (view self.old)
            (tag_view tag.entry)))) }
    {
        let text = match tag {
            Tag::Paragraph if self.fresh => "<p>",
            Tag::Paragraph => "\n<p>",
            Tag::Item if self.fresh => "<li>",
            Tag::Item => "\n<li>",
            Tag::Emphasis => "<em>",
            Tag::Strong => "<strong>",
            Tag::TableCell => return self.cell(s),
            Tag::Link {
                link_type,
                dest_url,
                title,
                ..
            } => return self.link(s, link_type, dest_url.as_str(), title.as_str()),
            rarer => return self.rarer_start(s, rarer),
        };
        self.raw(s, text)
    }
}
