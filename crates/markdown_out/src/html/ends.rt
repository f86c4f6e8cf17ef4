//! The HTML of an End outside images.
ghost use Rattle.std.specs.Prelude.{◌≡◌, [], ◌∷◌, None, OnOk, OnErr, codes};
ghost use Rattle.markdown_base.specs.Event.{end as end_event};
ghost use Rattle.markdown_out.specs.ByteLists.{joined};
ghost use Rattle.markdown_out.specs.StringAppends.{Appends, AppendsPart};
ghost use Rattle.markdown_out.specs.TagHtml.{end_parts, level_digit};

use super::Writer;
use markdown_base::tag::{HeadingLevel, TagEnd};
use std::alloc::AllocError;

/// Returns the end tag of a heading, with the newline after it.
fn heading_end(level: HeadingLevel) -> &'static str
    ensures { result.now ≡ joined (codes "</h" ∷ level_digit level ∷ codes ">\n" ∷ []) }
{
    match level {
        HeadingLevel::H1 => "</h1>\n",
        HeadingLevel::H2 => "</h2>\n",
        HeadingLevel::H3 => "</h3>\n",
        HeadingLevel::H4 => "</h4>\n",
        HeadingLevel::H5 => "</h5>\n",
        HeadingLevel::H6 => "</h6>\n",
    }
}

impl<'a> Writer<'a> {
    ghost use Rattle.markdown_out.specs.Writer.{view, view_after};

    /// Returns what an End outside images writes.
    fn end_text(&self, tag: TagEnd) -> &'static str
        ensures { result.now ≡ joined (end_parts (view self.now) tag) }
    {
        match tag {
            TagEnd::Paragraph => "</p>\n",
            TagEnd::Heading(level) => heading_end(level),
            TagEnd::BlockQuote(_) => "</blockquote>\n",
            TagEnd::CodeBlock => "</code></pre>\n",
            TagEnd::HtmlBlock | TagEnd::Image | TagEnd::MetadataBlock(_) => "",
            TagEnd::List(true) => "</ol>\n",
            TagEnd::List(false) => "</ul>\n",
            TagEnd::Item => "</li>\n",
            TagEnd::FootnoteDefinition => "</div>\n",
            TagEnd::DefinitionList => "</dl>\n",
            TagEnd::DefinitionListTitle => "</dt>\n",
            TagEnd::DefinitionListDefinition => "</dd>\n",
            TagEnd::Table => "</tbody></table>\n",
            TagEnd::TableHead => "</tr></thead><tbody>\n",
            TagEnd::TableRow => "</tr>\n",
            TagEnd::TableCell if self.in_head => "</th>",
            TagEnd::TableCell => "</td>",
            TagEnd::Emphasis => "</em>",
            TagEnd::Strong => "</strong>",
            TagEnd::Strikethrough => "</del>",
            TagEnd::Superscript => "</sup>",
            TagEnd::Subscript => "</sub>",
            TagEnd::Link => "</a>",
        }
    }

    /// Updates the state for an End outside images, except `fresh`, which depends on the bytes that it writes.
    fn note_end(&mut self, tag: TagEnd)
        requires { self.old.image ≡ None }
        ensures view { view self.new
            ≡ record (view_after (view self.old) (end_event tag)) { fresh = self.old.fresh } }
        ensures image { self.new.image ≡ None }
    {
        match tag {
            TagEnd::TableHead => self.in_head = false,
            TagEnd::TableCell => self.column = self.column.saturating_add(1),
            TagEnd::MetadataBlock(_) => self.in_metadata = false,
            _ => {}
        }
    }

    /// Appends the HTML of an End outside images.
    #[inline(always)]
    pub(super) fn end(&mut self, s: &mut String, tag: TagEnd) -> Result<(), AllocError>
        requires { self.old.image ≡ None }
        ensures ok { OnOk result (Appends s.old s.new (joined (end_parts (view self.old) tag))) }
        ensures told { OnOk result (view self.new ≡ view_after (view self.old) (end_event tag)) }
        ensures err { OnErr result (AppendsPart s.old s.new
            (joined (end_parts (view self.old) tag))) }
    {
        let text = self.end_text(tag);
        self.note_end(tag);
        self.raw(s, text)
    }
}
