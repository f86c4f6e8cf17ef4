//! Tags as JSON.
ghost use Rattle.markdown_base.specs.Event.{tag_view};
ghost use Rattle.markdown_json.specs.Json.{tag_json};

use crate::heading::HeadingFields;
use crate::link::LinkFields;
use crate::pieces::push_raw;
use crate::value::{Value, push_variant};
use markdown_base::tag::{CodeBlockKind, Tag};
use std::alloc::AllocError;

/// A fenced code block has a value, its info string.
impl Value for CodeBlockKind<'_> {
    ghost use Rattle.markdown_json.specs.JsonParts.{code_block_json};

    ghost json = { code_block_json };

    fn push(&self, s: &mut String) -> Result<(), AllocError> {
        match self {
            CodeBlockKind::Indented => push_raw(s, "\"Indented\""),
            CodeBlockKind::Fenced(info) => push_variant(s, "Fenced", info),
        }
    }
}

impl Value for Tag<'_> {
    ghost json = { λ tag. tag_json (tag_view tag) };

    fn push(&self, s: &mut String) -> Result<(), AllocError> {
        match self {
            Tag::Heading {
                level,
                id,
                classes,
                attrs,
            } => {
                let heading = HeadingFields {
                    level: *level,
                    id,
                    classes,
                    attributes: attrs,
                };
                push_variant(s, "Heading", &heading)
            }
            Tag::CodeBlock(kind) => push_variant(s, "CodeBlock", kind),
            Tag::List(first) => push_variant(s, "List", first),
            Tag::FootnoteDefinition(name) => push_variant(s, "FootnoteDefinition", name),
            Tag::Table(alignments) => push_variant(s, "Table", alignments),
            Tag::Link {
                link_type,
                dest_url,
                title,
                id,
            } => push_variant(s, "Link", &LinkFields::new(*link_type, dest_url, title, id)),
            Tag::Image {
                link_type,
                dest_url,
                title,
                id,
            } => push_variant(
                s,
                "Image",
                &LinkFields::new(*link_type, dest_url, title, id),
            ),
            told_by_its_end => told_by_its_end.to_end().push(s),
        }
    }
}
