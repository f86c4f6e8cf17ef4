//! Footnote references: their styles, and the counts of their uses.
ghost use Rattle.std.specs.Prelude.{◌≡◌, ℕ, List, IfErr, IfOk, OnErr, OnOk, if◌then◌else◌, is_some};
ghost use Rattle.std.specs.Option.{option_map};
ghost use Rattle.markdown_base.specs.declared.fault.Fault.{Fault};
ghost use Rattle.markdown_defs.specs.Folding.{is_match};
ghost use Rattle.markdown_defs.specs.Footnotes.{footnote_at};
ghost use Rattle.markdown_defs.specs.FootnoteCounts.{used_once_more};
ghost use Rattle.markdown_brackets.specs.FootnoteUse.{footnote_style, is_reference};

use markdown_base::fault::Fault;
use markdown_base::syntax::Syntax;
use markdown_defs::FootnoteDefs;

/// The style of footnotes.
#[derive(Clone, Copy, Debug, PartialEq, Eq, Drop)]
pub enum FootnoteStyle {
    /// Footnotes are not enabled.
    Off,
    /// GitHub's style: a label is on one line, and one that is not defined is text.
    Gfm,
    /// The old style: a label may continue on further lines, and is a reference even if it is not defined.
    Old,
}

/// Returns the style of the footnotes that are read.
pub(crate) fn footnote_style(syntax: Syntax) -> FootnoteStyle
    ensures { result ≡ footnote_style syntax }
{
    if syntax.old_footnotes {
        FootnoteStyle::Old
    } else if syntax.footnotes {
        FootnoteStyle::Gfm
    } else {
        FootnoteStyle::Off
    }
}

/// Returns whether a footnote label with this name is a reference. If the footnote is defined, one more use of it is
/// counted. The only error is `Fault::Memory`, after which nothing has changed.
pub fn use_footnote(
    footnotes: &mut FootnoteDefs,
    style: FootnoteStyle,
    name: &str,
) -> Result<bool, Fault>
    ensures found { IfOk result (λ found. found
        ≡ is_reference style (is_some (footnote_at footnotes.old name.now))) }
    ensures counted { OnOk result ((other : List ℕ) → footnote_at footnotes.new other
        ≡ (if is_match name.now other
        then option_map used_once_more (footnote_at footnotes.old name.now)
        else footnote_at footnotes.old other)) }
    ensures refused { IfErr result (λ fault. fault ≡ Fault.Memory) }
    ensures unchanged { OnErr result (footnotes.new ≡ footnotes.old) }
{
    let is_defined = footnotes.count_use(name)?;
    Ok(is_defined || style == FootnoteStyle::Old)
}
