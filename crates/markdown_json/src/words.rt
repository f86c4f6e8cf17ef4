//! Values that are one word or one number.
ghost use Rattle.std.specs.Prelude.{◌≡◌};
ghost use Rattle.markdown_json.specs.Json.{link_type_json};

use crate::pieces::push_raw;
use crate::value::Value;
use itoa::Buffer;
use markdown_base::tag::{Alignment, BlockQuoteKind, HeadingLevel, LinkType, MetadataBlockKind};
use std::alloc::AllocError;

impl Value for bool {
    ghost use Rattle.markdown_json.specs.Json.{boolean};

    ghost json = { boolean };

    fn push(&self, s: &mut String) -> Result<(), AllocError> {
        push_raw(s, if *self { "true" } else { "false" })
    }
}

impl Value for u64 {
    ghost use Rattle.std.specs.Fmt.{decimal};

    ghost json = { decimal };

    fn push(&self, s: &mut String) -> Result<(), AllocError> {
        let mut digits = Buffer::new();
        push_raw(s, digits.format(*self))
    }
}

impl Value for HeadingLevel {
    ghost use Rattle.markdown_json.specs.Json.{level_json};

    ghost json = { level_json };

    fn push(&self, s: &mut String) -> Result<(), AllocError> {
        let word = match self {
            HeadingLevel::H1 => "\"H1\"",
            HeadingLevel::H2 => "\"H2\"",
            HeadingLevel::H3 => "\"H3\"",
            HeadingLevel::H4 => "\"H4\"",
            HeadingLevel::H5 => "\"H5\"",
            HeadingLevel::H6 => "\"H6\"",
        };
        push_raw(s, word)
    }
}

impl Value for BlockQuoteKind {
    ghost use Rattle.markdown_json.specs.Json.{quote_json};

    ghost json = { quote_json };

    fn push(&self, s: &mut String) -> Result<(), AllocError> {
        let word = match self {
            BlockQuoteKind::Note => "\"Note\"",
            BlockQuoteKind::Tip => "\"Tip\"",
            BlockQuoteKind::Important => "\"Important\"",
            BlockQuoteKind::Warning => "\"Warning\"",
            BlockQuoteKind::Caution => "\"Caution\"",
        };
        push_raw(s, word)
    }
}

impl Value for Alignment {
    ghost use Rattle.markdown_json.specs.Json.{alignment_json};

    ghost json = { alignment_json };

    fn push(&self, s: &mut String) -> Result<(), AllocError> {
        let word = match self {
            Alignment::None => "\"None\"",
            Alignment::Left => "\"Left\"",
            Alignment::Center => "\"Center\"",
            Alignment::Right => "\"Right\"",
        };
        push_raw(s, word)
    }
}

impl Value for MetadataBlockKind {
    ghost use Rattle.markdown_json.specs.Json.{metadata_json};

    ghost json = { metadata_json };

    fn push(&self, s: &mut String) -> Result<(), AllocError> {
        let word = match self {
            MetadataBlockKind::YamlStyle => "\"YamlStyle\"",
            MetadataBlockKind::PlusesStyle => "\"PlusesStyle\"",
        };
        push_raw(s, word)
    }
}

/// Returns the JSON of a link type.
pub fn link_type_text(kind: LinkType) -> &'static str
    ensures { result.now ≡ link_type_json kind }
{
    match kind {
        LinkType::Inline => "\"Inline\"",
        LinkType::Reference => "\"Reference\"",
        LinkType::ReferenceUnknown => "\"ReferenceUnknown\"",
        LinkType::Collapsed => "\"Collapsed\"",
        LinkType::CollapsedUnknown => "\"CollapsedUnknown\"",
        LinkType::Shortcut => "\"Shortcut\"",
        LinkType::ShortcutUnknown => "\"ShortcutUnknown\"",
        LinkType::Autolink => "\"Autolink\"",
        LinkType::Email => "\"Email\"",
        LinkType::WikiLink { has_pothole: true } => "{\"WikiLink\":{\"has_pothole\":true}}",
        LinkType::WikiLink { has_pothole: false } => "{\"WikiLink\":{\"has_pothole\":false}}",
    }
}
