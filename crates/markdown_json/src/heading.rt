//! The Starts of headings as JSON, with their ids, classes and attributes.
ghost use Rattle.std.specs.Prelude.{OnOk, OnErr};
ghost use Rattle.markdown_out.specs.StringAppends.{Appends, AppendsPart};
ghost use Rattle.markdown_json.specs.Json.{heading_json};
ghost use Rattle.markdown_json.specs.JsonParts.{heading_of, pair_json};

use crate::pieces::push_raw;
use crate::value::{Value, push_field};
use markdown_base::cow_str::CowStr;
use markdown_base::tag::HeadingLevel;
use std::alloc::AllocError;

/// Appends an attribute, as an array of its name and its value.
fn push_attribute(
    s: &mut String,
    attribute: &(CowStr<'_>, Option<CowStr<'_>>),
) -> Result<(), AllocError>
    ensures ok { OnOk result (Appends s.old s.new (pair_json attribute.now)) }
    ensures err { OnErr result (AppendsPart s.old s.new (pair_json attribute.now)) }
{
    push_field(s, "[", &attribute.0)?;
    push_field(s, ",", &attribute.1)?;
    push_raw(s, "]")
}

impl Value for (CowStr<'_>, Option<CowStr<'_>>) {
    ghost json = { pair_json };

    fn push(&self, s: &mut String) -> Result<(), AllocError> {
        push_attribute(s, self)
    }
}

/// The fields of a heading's Start.
#[derive(Clone, Copy, Drop)]
pub(crate) struct HeadingFields<'x, 'a> {
    pub level: HeadingLevel,
    pub id: &'x Option<CowStr<'a>>,
    pub classes: &'x Vec<CowStr<'a>>,
    pub attributes: &'x Vec<(CowStr<'a>, Option<CowStr<'a>>)>,
}

/// Appends the fields of a heading's Start, as an object.
fn push_heading(s: &mut String, heading: &HeadingFields<'_, '_>) -> Result<(), AllocError>
    ensures ok { OnOk result (Appends s.old s.new (heading_json (heading_of heading.now))) }
    ensures err { OnErr result (AppendsPart s.old s.new (heading_json (heading_of heading.now))) }
{
    push_field(s, "{\"level\":", &heading.level)?;
    push_field(s, ",\"id\":", heading.id)?;
    push_field(s, ",\"classes\":", heading.classes)?;
    push_field(s, ",\"attrs\":", heading.attributes)?;
    push_raw(s, "}")
}

impl Value for HeadingFields<'_, '_> {
    ghost json = { λ heading. heading_json (heading_of heading) };

    fn push(&self, s: &mut String) -> Result<(), AllocError> {
        push_heading(s, self)
    }
}
