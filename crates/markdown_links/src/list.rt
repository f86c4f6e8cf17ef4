//! `LinkList`, the links and images of a document.
ghost use Rattle.std.specs.Prelude.{◌≡◌, ◌==◌, length, map, slice_get};
ghost use Rattle.std.specs.Option.{option_map};
ghost use Rattle.std.specs.String.{string_bytes};
ghost use Rattle.std.proofs.Props.{props};
ghost use Rattle.markdown_links.specs.CutOut.{AreCutOut, IsCutOut, found_entry, part_of_text};

use crate::found::Found;
use crate::link::Link;

/// The links and images of a document, in the order of their Starts. Their texts are parts of one text, since those of
/// images in links overlap.
#[derive(Debug, Drop)]
pub struct LinkList {
    found: Vec<Found>,
    texts: String,
    ghost cut: { AreCutOut (string_bytes texts) found.items } by { Prim.hlevel props },
}

/// Returns the part of a shared text that a link has.
fn part<'x>(texts: &'x str, found: &Found) -> &'x str
    requires { IsCutOut texts.now found.now }
    ensures { result.now ≡ part_of_text texts.now found.now.text_start found.now.text_end }
{
    match found.text_end {
        Some(end) => &texts[found.text_start..end],
        None => &texts[found.text_start..],
    }
}

impl LinkList {
    ghost use Rattle.markdown_links.specs.LinkList.{list_entries, shown_link};

    /// Returns the list of these links.
    pub(crate) fn new(found: Vec<Found>, texts: String) -> LinkList
        requires { AreCutOut (string_bytes texts) found.items }
        ensures { list_entries result ≡ map (found_entry (string_bytes texts)) found.items }
    {
        LinkList { found, texts }
    }

    /// Returns how many there are.
    pub fn len(&self) -> usize
        ensures { result ≡ length (list_entries self.now) }
    {
        self.found.len()
    }

    /// Returns whether there is none.
    pub fn is_empty(&self) -> bool
        ensures { result ≡ (length (list_entries self.now) == 0) }
    {
        self.found.is_empty()
    }

    /// Returns the link with this number, the first of which is 0, or None where there are not so many.
    pub fn get(&self, index: usize) -> Option<Link<'_>>
        ensures { option_map shown_link result ≡ slice_get (list_entries self.now) index }
    {
        let found = self.found.get(index)?;
        Some(LinkList::shown(self.texts.as_str(), found))
    }

    /// Returns a link as it is shown.
    fn shown<'x>(texts: &'x str, found: &'x Found) -> Link<'x>
        requires { IsCutOut texts.now found.now }
        ensures { shown_link result ≡ found_entry texts.now found.now }
    {
        Link {
            is_image: found.is_image,
            link_type: found.link_type,
            dest_url: found.dest_url.as_str(),
            title: found.title.as_str(),
            id: found.id.as_str(),
            text: part(texts, found),
            range: found.range.start..found.range.end,
        }
    }
}
