//! What a call chooses of safe HTML.
ghost use Rattle.std.specs.Prelude.{◌≡◌, ◌≤◌, ◌<◌, true, IfOk, IfErr, MatchResult, length, string_bytes};
ghost use Rattle.std.specs.Str.{IsUtf8};
ghost use Rattle.markdown_c.specs.CallsFromC.{are_choices, images_by_bits, rules_chosen};
ghost use Rattle.markdown_c.specs.SafeChoice.{choice_view, IsNoChoice};
ghost use Rattle.markdown_c.specs.declared.readings.Refusal.{Refusal};
ghost use Rattle.markdown_safe.specs.SafeRules.{rules_view};

use crate::readings::{Refusal, text_of};
use markdown_safe::{Images, SafeRules};

/// The bit by which images become links to what they would show.
const IMAGE_LINKS: u32 = 1;

/// The bit by which only the alt text of images stays.
const IMAGE_TEXTS: u32 = 2;

/// The bit by which links to other sites have no `rel`.
const NO_REL: u32 = 4;

/// What a call chooses of safe HTML.
#[derive(Clone, Copy, Drop)]
pub(crate) struct SafeChoice<'p> {
    /// What follows `user-content-` in ids.
    pub prefix: &'p [u8],
    /// What becomes of images, and whether links to other sites have a `rel`.
    pub bits: u32,
    /// The number of tags that may stand in one another.
    pub nesting: usize,
    /// The number of bytes that the HTML may have.
    pub limit: usize,
}

/// Returns what becomes of images by these bits.
fn images_of(bits: u32) -> Images
    ensures { result ≡ images_by_bits bits }
{
    if bits & IMAGE_TEXTS != 0 {
        Images::Text
    } else if bits & IMAGE_LINKS != 0 {
        Images::Links
    } else {
        Images::Shown
    }
}

/// Returns the rules that a call chooses.
///
/// # Errors
///
/// `UnknownOption` if a bit means nothing, and `NotUtf8` if the prefix is not UTF-8.
pub(crate) fn rules_of<'p>(choice: SafeChoice<'p>) -> Result<SafeRules<'p>, Refusal>
    ensures rules { let c = choice_view choice.entry in IfOk result (λ rules.
        (rules_view rules ≡ rules_chosen c) × (are_choices c.bits ≡ true) × IsUtf8 c.prefix) }
    ensures refused { IfErr result (IsNoChoice (choice_view choice.entry)) }
{
    if choice.bits & (IMAGE_LINKS + IMAGE_TEXTS + NO_REL) != choice.bits {
        return Err(Refusal::UnknownOption);
    }
    Ok(SafeRules {
        prefix: text_of(choice.prefix)?,
        images: images_of(choice.bits),
        rel: choice.bits & NO_REL == 0,
        nesting: choice.nesting,
    })
}

/// Returns the HTML, if it has at most so many bytes, and otherwise `OverLimit`.
pub(crate) fn within(html: String, limit: usize) -> Result<String, Refusal>
    ensures { MatchResult result
        (λ kept. (string_bytes kept ≡ string_bytes html) × (length (string_bytes html) ≤ limit))
        (λ refusal. (refusal ≡ Refusal.OverLimit) × (limit < length (string_bytes html))) }
{
    if html.len() > limit {
        Err(Refusal::OverLimit)
    } else {
        Ok(html)
    }
}
