//! The Start of a heading, with its id, classes and other attributes.
ghost use Rattle.std.specs.Prelude.{◌≡◌, ◌++◌, OnOk, OnErr, map};
ghost use Rattle.std.specs.List.{flat_map};
ghost use Rattle.std.specs.Option.{option_map};
ghost use Rattle.std.specs.String.{string_bytes};
ghost use Rattle.markdown_base.specs.CowText.{text_of};
ghost use Rattle.markdown_base.specs.Event.{attribute_view};
ghost use Rattle.markdown_out.specs.ByteLists.{fresh_after_bytes, joined};
ghost use Rattle.markdown_out.specs.StringAppends.{Appends, AppendsPart};
ghost use Rattle.markdown_out.specs.TagHtml.{level_digit, id_attribute, class_attribute};
ghost use Rattle.markdown_out.specs.TagHtml.{further_class, other_attribute, heading_parts};
ghost use Rattle.markdown_out.specs.Writer.{heading_view};

use super::Piece;
use super::pieces::{line_break, push_pieces, put};
use markdown_base::cow_str::CowStr;
use markdown_base::tag::HeadingLevel;
use std::alloc::AllocError;

/// Returns the digit of a heading's level.
pub(super) fn digit(level: HeadingLevel) -> &'static str
    ensures { result.now ≡ level_digit level }
{
    match level {
        HeadingLevel::H1 => "1",
        HeadingLevel::H2 => "2",
        HeadingLevel::H3 => "3",
        HeadingLevel::H4 => "4",
        HeadingLevel::H5 => "5",
        HeadingLevel::H6 => "6",
    }
}

/// Appends the `id` attribute, where there is an id.
fn push_id(s: &mut String, id: &Option<CowStr<'_>>) -> Result<(), AllocError>
    ensures ok { OnOk result (Appends s.old s.new (id_attribute (option_map text_of id.now))) }
    ensures err { OnErr result
        (AppendsPart s.old s.new (id_attribute (option_map text_of id.now))) }
{
    match id {
        None => Ok(()),
        Some(id) => push_pieces(
            s,
            &[
                Piece::Raw(" id=\""),
                Piece::Attribute(id.as_str()),
                Piece::Raw("\""),
            ],
        ),
    }
}

/// Appends classes, each after a space.
fn push_further_classes(s: &mut String, classes: &[CowStr<'_>]) -> Result<(), AllocError>
    ensures ok { OnOk result (Appends s.old s.new (flat_map further_class
        (map text_of classes.now))) }
    ensures err { OnErr result (AppendsPart s.old s.new (flat_map further_class
        (map text_of classes.now))) }
{
    for class in classes {
        push_pieces(s, &[Piece::Raw(" "), Piece::Attribute(class.as_str())])?;
    }
    Ok(())
}

/// Appends the `class` attribute, where there are classes.
fn push_classes(s: &mut String, classes: &[CowStr<'_>]) -> Result<(), AllocError>
    ensures ok { OnOk result (Appends s.old s.new (class_attribute (map text_of classes.now))) }
    ensures err { OnErr result
        (AppendsPart s.old s.new (class_attribute (map text_of classes.now))) }
{
    let Some((first, others)) = classes.split_first() else {
        return Ok(());
    };
    push_pieces(
        s,
        &[Piece::Raw(" class=\""), Piece::Attribute(first.as_str())],
    )?;
    push_further_classes(s, others)?;
    push_pieces(s, &[Piece::Raw("\"")])
}

/// Appends an attribute that is neither id nor class. Without a value, its value is empty.
fn push_attribute(
    s: &mut String,
    attribute: &(CowStr<'_>, Option<CowStr<'_>>),
) -> Result<(), AllocError>
    ensures ok { OnOk result
        (Appends s.old s.new (other_attribute (attribute_view attribute.now))) }
    ensures err { OnErr result (AppendsPart s.old s.new (other_attribute
        (attribute_view attribute.now))) }
{
    let name = attribute.0.as_str();
    let value = match &attribute.1 {
        Some(value) => value.as_str(),
        None => "",
    };
    push_pieces(
        s,
        &[
            Piece::Raw(" "),
            Piece::Attribute(name),
            Piece::Raw("=\""),
            Piece::Attribute(value),
            Piece::Raw("\""),
        ],
    )
}

/// Appends the attributes that are neither id nor class.
fn push_attributes(
    s: &mut String,
    attributes: &[(CowStr<'_>, Option<CowStr<'_>>)],
) -> Result<(), AllocError>
    ensures ok { OnOk result (Appends s.old s.new (flat_map other_attribute
        (map attribute_view attributes.now))) }
    ensures err { OnErr result (AppendsPart s.old s.new (flat_map other_attribute
        (map attribute_view attributes.now))) }
{
    for attribute in attributes {
        push_attribute(s, attribute)?;
    }
    Ok(())
}

/// Appends the Start of a heading.
pub(super) fn put_heading(
    s: &mut String,
    fresh: &mut bool,
    level: HeadingLevel,
    id: &Option<CowStr<'_>>,
    classes: &[CowStr<'_>],
    attributes: &[(CowStr<'_>, Option<CowStr<'_>>)],
) -> Result<(), AllocError>
    ensures ok { OnOk result (Appends s.old s.new (joined (heading_parts fresh.old
        (heading_view level id.now classes.now attributes.now)))) }
    ensures fresh { OnOk result
        (fresh.new ≡ fresh_after_bytes fresh.old (joined (heading_parts fresh.old
        (heading_view level id.now classes.now attributes.now)))) }
    ensures err { OnErr result (AppendsPart s.old s.new (joined (heading_parts fresh.old
        (heading_view level id.now classes.now attributes.now)))) }
{
    let first = line_break(*fresh);
    push_pieces(
        s,
        &[
            Piece::Raw(first),
            Piece::Raw("<h"),
            Piece::Raw(digit(level)),
        ],
    )?;
    push_id(s, id)?;
    push_classes(s, classes)?;
    push_attributes(s, attributes)?;
    put(s, fresh, &[Piece::Raw(">")])
}
