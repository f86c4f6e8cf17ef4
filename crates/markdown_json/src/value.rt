//! `Value`, the trait of what is written as JSON, and the values that are texts or may be missing.
ghost use Rattle.std.specs.Prelude.{◌++◌, OnOk, OnErr};
ghost use Rattle.markdown_out.specs.StringAppends.{Appends, AppendsPart};
ghost use Rattle.markdown_json.specs.Json.{variant};

use crate::pieces::{Piece, push_pieces, push_raw};
use markdown_base::cow_str::CowStr;
use std::alloc::AllocError;

/// A value that is written as JSON.
pub(crate) trait Value {
    ghost use Rattle.std.specs.Prelude.{ℕ, List};

    /// The bytes of its JSON.
    ghost json: { Self → List ℕ };

    /// Appends its JSON. If an allocation fails, a prefix of it has been appended.
    fn push(&self, s: &mut String) -> Result<(), AllocError>
        ensures ok { OnOk result (Appends s.old s.new (json self.now)) }
        ensures err { OnErr result (AppendsPart s.old s.new (json self.now)) };
}

/// Appends `lead`, and then a value.
pub(crate) fn push_field<T: Value>(s: &mut String, lead: &str, value: &T) -> Result<(), AllocError>
    ensures ok { OnOk result (Appends s.old s.new (lead.now ++ T.json value.now)) }
    ensures err { OnErr result (AppendsPart s.old s.new (lead.now ++ T.json value.now)) }
{
    push_raw(s, lead)?;
    value.push(s)
}

/// Appends a variant with a value, as an object of one member.
pub(crate) fn push_variant<T: Value>(
    s: &mut String,
    name: &str,
    value: &T,
) -> Result<(), AllocError>
    ensures ok { OnOk result (Appends s.old s.new (variant name.now (T.json value.now))) }
    ensures err { OnErr result (AppendsPart s.old s.new (variant name.now (T.json value.now))) }
{
    push_pieces(s, &[Piece::Raw("{\""), Piece::Raw(name)])?;
    push_field(s, "\":", value)?;
    push_raw(s, "}")
}

impl Value for CowStr<'_> {
    ghost use Rattle.markdown_json.specs.JsonParts.{text_json};

    ghost json = { text_json };

    fn push(&self, s: &mut String) -> Result<(), AllocError> {
        push_pieces(s, &[Piece::Text(self.as_str())])
    }
}

impl<T: Value> Value for Option<T> {
    ghost use Rattle.markdown_json.specs.Json.{optional_value};

    ghost json = { optional_value T.json };

    fn push(&self, s: &mut String) -> Result<(), AllocError> {
        match self {
            None => push_raw(s, "null"),
            Some(value) => value.push(s),
        }
    }
}
