//! The Start of a link, and the Start and the end of an image.
ghost use Rattle.std.specs.Prelude.{◌≡◌, ◌++◌, ◌&&◌, ◌∷◌, [], true, OnOk, OnErr, codes};
ghost use Rattle.std.specs.String.{string_bytes};
ghost use Rattle.markdown_out.specs.ByteLists.{fresh_after_bytes, joined};
ghost use Rattle.markdown_out.specs.StringAppends.{Appends, AppendsPart};
ghost use Rattle.markdown_out.specs.TagHtml.{begins_with_scheme, leaves_site, may_be_in_scheme};
ghost use Rattle.markdown_out.specs.TagHtml.{scheme_goes_on, link_scheme, rel_attribute};
ghost use Rattle.markdown_out.specs.TagHtml.{link_parts, link_tag};
ghost use Rattle.markdown_out.specs.TagHtml.{image_parts, image_end};
ghost use Rattle.markdown_out.specs.Writer.{held_link_tag};

use super::pieces::{put, put_raw};
use super::{Piece, Writer};
use markdown_base::tag::LinkType;
use std::alloc::AllocError;

/// Returns what precedes a link's destination, which includes `mailto:` for an email autolink.
fn link_lead(kind: LinkType) -> &'static str
    ensures { result.now ≡ codes "<a href=\"" ++ link_scheme kind }
{
    match kind {
        LinkType::Email => "<a href=\"mailto:",
        _ => "<a href=\"",
    }
}

/// Returns whether a scheme may have a byte.
fn may_be_in_scheme(byte: u8) -> bool
    ensures { result ≡ may_be_in_scheme byte }
{
    matches!(byte, b'a'..=b'z' | b'A'..=b'Z' | b'0'..=b'9' | b'+' | b'-' | b'.')
}

/// Returns whether bytes of a scheme up to a colon follow.
fn scheme_goes_on(bytes: &[u8]) -> bool
    ensures { result ≡ scheme_goes_on bytes.now }
{
    for byte in bytes {
        if *byte == b':' {
            return true;
        }
        if !may_be_in_scheme(*byte) {
            return false;
        }
    }
    false
}

/// Returns whether a destination begins with a scheme.
fn begins_with_scheme(destination: &[u8]) -> bool
    ensures { result ≡ begins_with_scheme destination.now }
{
    match destination.split_first() {
        Some((first, rest)) => first.is_ascii_alphabetic() && scheme_goes_on(rest),
        None => false,
    }
}

/// Returns whether a link leads to another site.
fn leaves_site(kind: LinkType, destination: &str) -> bool
    ensures { result ≡ leaves_site kind destination.now }
{
    match kind {
        LinkType::Email => true,
        _ => begins_with_scheme(destination.as_bytes()) || destination.starts_with("//"),
    }
}

/// Returns whether a link has a `rel`: whether `rel` asks for it, and the link leads to another site.
// inlined: it is called for each link
#[inline(always)]
fn has_rel(rel: bool, kind: LinkType, destination: &str) -> bool
    ensures { result ≡ (rel && leaves_site kind destination.now) }
{
    rel && leaves_site(kind, destination)
}

/// Returns the end of a link's Start, from the quote after its last value on.
// inlined with its callers, each of which knows whether there is a `rel`
#[inline(always)]
fn link_end(has_rel: bool) -> &'static str
    ensures { result.now ≡ joined (codes "\"" ∷ rel_attribute has_rel ∷ codes ">" ∷ []) }
{
    if has_rel {
        "\" rel=\"nofollow ugc noopener\">"
    } else {
        "\">"
    }
}

/// What the Start of a link holds.
#[derive(Clone, Copy, Drop)]
struct LinkStart<'x> {
    kind: LinkType,
    destination: &'x str,
    title: &'x str,
}

/// Appends the Start of a link.
// inlined: it is called for each link
#[inline(always)]
fn put_link<'x>(
    s: &mut String,
    fresh: &mut bool,
    has_rel: bool,
    link: LinkStart<'x>,
) -> Result<(), AllocError>
    ensures ok { OnOk result (Appends s.old s.new (joined (held_link_tag has_rel link.entry))) }
    ensures fresh { OnOk result (fresh.new ≡ fresh_after_bytes fresh.old
        (joined (held_link_tag has_rel link.entry))) }
    ensures err { OnErr result
        (AppendsPart s.old s.new (joined (held_link_tag has_rel link.entry))) }
{
    let lead = link_lead(link.kind);
    let end = link_end(has_rel);
    if link.title.is_empty() {
        return put(
            s,
            fresh,
            &[
                Piece::Raw(lead),
                Piece::Destination(link.destination),
                Piece::Raw(end),
            ],
        );
    }
    put(
        s,
        fresh,
        &[
            Piece::Raw(lead),
            Piece::Destination(link.destination),
            Piece::Raw("\" title=\""),
            Piece::Attribute(link.title),
            Piece::Raw(end),
        ],
    )
}

/// Appends the Start of a link with a `rel`.
// cold, so that links without one are compiled as if there were no others
#[cold]
fn put_link_with_rel<'x>(
    s: &mut String,
    fresh: &mut bool,
    kind: LinkType,
    destination: &'x str,
    title: &'x str,
) -> Result<(), AllocError>
    ensures ok { OnOk result (Appends s.old s.new
        (joined (link_tag true kind destination.now title.now))) }
    ensures fresh { OnOk result (fresh.new ≡ fresh_after_bytes fresh.old
        (joined (link_tag true kind destination.now title.now))) }
    ensures err { OnErr result (AppendsPart s.old s.new
        (joined (link_tag true kind destination.now title.now))) }
{
    let link = LinkStart {
        kind,
        destination,
        title,
    };
    put_link(s, fresh, true, link)
}

impl<'a> Writer<'a> {
    ghost use Rattle.markdown_out.specs.Writer.{after_bytes};

    /// Appends the Start of a link.
    #[inline(always)]
    pub(super) fn link<'x>(
        &mut self,
        s: &mut String,
        kind: LinkType,
        destination: &'x str,
        title: &'x str,
    ) -> Result<(), AllocError>
        ensures ok { OnOk result (Appends s.old s.new
            (joined (link_parts self.old.rules.rel kind destination.now title.now))) }
        ensures state { OnOk result (self.new ≡ after_bytes self.old
            (joined (link_parts self.old.rules.rel kind destination.now title.now))) }
        ensures err { OnErr result (AppendsPart s.old s.new
            (joined (link_parts self.old.rules.rel kind destination.now title.now))) }
    {
        if has_rel(self.rules.rel, kind, destination) {
            return put_link_with_rel(s, &mut self.fresh, kind, destination, title);
        }
        let link = LinkStart {
            kind,
            destination,
            title,
        };
        put_link(s, &mut self.fresh, false, link)
    }
}

/// Appends the Start of an image, up to its alt text.
pub(super) fn put_image(
    s: &mut String,
    fresh: &mut bool,
    destination: &str,
) -> Result<(), AllocError>
    ensures ok { OnOk result (Appends s.old s.new (joined (image_parts destination.now))) }
    ensures fresh { OnOk result (fresh.new ≡ fresh_after_bytes fresh.old
        (joined (image_parts destination.now))) }
    ensures err { OnErr result (AppendsPart s.old s.new (joined (image_parts destination.now))) }
{
    put(
        s,
        fresh,
        &[
            Piece::Raw("<img src=\""),
            Piece::Destination(destination),
            Piece::Raw("\" alt=\""),
        ],
    )
}

/// Appends what closes an image, from the quote after its alt text on.
pub(super) fn put_image_end(s: &mut String, fresh: &mut bool, title: &str) -> Result<(), AllocError>
    ensures ok { OnOk result (Appends s.old s.new (image_end title.now)) }
    ensures fresh { OnOk result (fresh.new ≡ fresh_after_bytes fresh.old (image_end title.now)) }
    ensures err { OnErr result (AppendsPart s.old s.new (image_end title.now)) }
{
    if title.is_empty() {
        return put_raw(s, fresh, "\" />");
    }
    put(
        s,
        fresh,
        &[
            Piece::Raw("\" title=\""),
            Piece::Attribute(title),
            Piece::Raw("\" />"),
        ],
    )
}
