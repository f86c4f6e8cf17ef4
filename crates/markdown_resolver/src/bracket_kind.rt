//! The brackets of a chain: `[` and `![` open, and `]` closes.
ghost use Rattle.std.specs.Prelude.{◌≡◌};
ghost use Rattle.markdown_resolver.specs.BracketKinds.{kind_of};

use markdown_base::item::ItemBody;

/// A bracket of a chain that is not resolved yet.
#[derive(Clone, Copy, Drop)]
pub(crate) enum BracketKind {
    /// `[` or `![`, the opener of a link or of an image.
    Opener { is_image: bool },
    /// `]`, the closer of one.
    Closer,
}

/// Returns which bracket an item with this body is, or None.
pub(crate) fn kind_of(body: ItemBody) -> Option<BracketKind>
    ensures { result ≡ kind_of body }
{
    match body {
        ItemBody::MaybeLinkOpen => Some(BracketKind::Opener { is_image: false }),
        ItemBody::MaybeImage => Some(BracketKind::Opener { is_image: true }),
        ItemBody::MaybeLinkClose(_) => Some(BracketKind::Closer),
        _ => None,
    }
}
