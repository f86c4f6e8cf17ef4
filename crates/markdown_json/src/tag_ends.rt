//! The ends of tags as JSON.
ghost use Rattle.std.specs.Prelude.{◌≡◌};
ghost use Rattle.markdown_json.specs.Json.{tag_end_json};
ghost use Rattle.markdown_json.specs.JsonParts.{IsFixedEnd};

use crate::pieces::push_raw;
use crate::value::{Value, push_variant};
use markdown_base::tag::TagEnd;
use std::alloc::AllocError;

/// Returns the JSON of an end without a value.
fn fixed_end_text(tag: TagEnd) -> &'static str
    requires { IsFixedEnd tag }
    ensures { result.now ≡ tag_end_json tag }
{
    match tag {
        TagEnd::Paragraph => "\"Paragraph\"",
        TagEnd::CodeBlock => "\"CodeBlock\"",
        TagEnd::HtmlBlock => "\"HtmlBlock\"",
        TagEnd::Item => "\"Item\"",
        TagEnd::FootnoteDefinition => "\"FootnoteDefinition\"",
        TagEnd::DefinitionList => "\"DefinitionList\"",
        TagEnd::DefinitionListTitle => "\"DefinitionListTitle\"",
        TagEnd::DefinitionListDefinition => "\"DefinitionListDefinition\"",
        TagEnd::Table => "\"Table\"",
        TagEnd::TableHead => "\"TableHead\"",
        TagEnd::TableRow => "\"TableRow\"",
        TagEnd::TableCell => "\"TableCell\"",
        TagEnd::Emphasis => "\"Emphasis\"",
        TagEnd::Strong => "\"Strong\"",
        TagEnd::Strikethrough => "\"Strikethrough\"",
        TagEnd::Superscript => "\"Superscript\"",
        TagEnd::Subscript => "\"Subscript\"",
        TagEnd::Link => "\"Link\"",
        TagEnd::Image => "\"Image\"",
        _ => unreachable!(),
    }
}

impl Value for TagEnd {
    ghost json = { tag_end_json };

    fn push(&self, s: &mut String) -> Result<(), AllocError> {
        match self {
            TagEnd::Heading(level) => push_variant(s, "Heading", level),
            TagEnd::BlockQuote(kind) => push_variant(s, "BlockQuote", kind),
            TagEnd::List(ordered) => push_variant(s, "List", ordered),
            TagEnd::MetadataBlock(kind) => push_variant(s, "MetadataBlock", kind),
            fixed => push_raw(s, fixed_end_text(*fixed)),
        }
    }
}
