//! The Starts of links and images as JSON.
use crate::pieces::{Piece, push_pieces};
use crate::value::Value;
use crate::words::link_type_text;
use markdown_base::cow_str::CowStr;
use markdown_base::tag::LinkType;
use std::alloc::AllocError;

/// The fields of the Start of a link or an image.
#[derive(Clone, Copy, Drop)]
pub(crate) struct LinkFields<'x> {
    pub link_type: LinkType,
    pub dest_url: &'x str,
    pub title: &'x str,
    pub id: &'x str,
}

impl<'x> LinkFields<'x> {
    ghost use Rattle.std.specs.Prelude.{◌≡◌};
    ghost use Rattle.markdown_base.specs.CowText.{text_of};
    ghost use Rattle.markdown_json.specs.JsonParts.{link_of};

    /// Borrows the texts of the Start of a link or an image.
    pub fn new(
        link_type: LinkType,
        dest_url: &'x CowStr<'_>,
        title: &'x CowStr<'_>,
        id: &'x CowStr<'_>,
    ) -> LinkFields<'x>
        ensures { link_of result ≡ record {
          kind = link_type;
          destination = text_of dest_url.now;
          title = text_of title.now;
          label = text_of id.now;
        } }
    {
        LinkFields {
            link_type,
            dest_url: dest_url.as_str(),
            title: title.as_str(),
            id: id.as_str(),
        }
    }
}

impl Value for LinkFields<'_> {
    ghost use Rattle.markdown_json.specs.Json.{link_json};
    ghost use Rattle.markdown_json.specs.JsonParts.{link_of};

    ghost json = { λ link. link_json (link_of link) };

    fn push(&self, s: &mut String) -> Result<(), AllocError> {
        push_pieces(
            s,
            &[
                Piece::Raw("{\"link_type\":"),
                Piece::Raw(link_type_text(self.link_type)),
                Piece::Raw(",\"dest_url\":"),
                Piece::Text(self.dest_url),
                Piece::Raw(",\"title\":"),
                Piece::Text(self.title),
                Piece::Raw(",\"id\":"),
                Piece::Text(self.id),
                Piece::Raw("}"),
            ],
        )
    }
}
