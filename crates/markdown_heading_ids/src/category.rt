//! The characters that an anchor keeps.
ghost use Rattle.std.specs.Prelude.{◌≡◌};
ghost use Rattle.markdown_heading_ids.specs.Anchors.{is_of_words, is_kept_in_anchor};
ghost use Rattle.markdown_heading_ids.specs.HeadingIds.{with_all_ids};
ghost use Rattle.markdown_heading_ids.specs.IdsOfText.{events_with_ids, taken_in_blocks};

use ucd_category::GeneralCategory;

/// Returns whether the characters of a general category are those of words.
fn is_of_words(category: GeneralCategory) -> bool
    ensures { result ≡ is_of_words category }
{
    matches!(
        category,
        GeneralCategory::UppercaseLetter
            | GeneralCategory::LowercaseLetter
            | GeneralCategory::TitlecaseLetter
            | GeneralCategory::ModifierLetter
            | GeneralCategory::OtherLetter
            | GeneralCategory::NonspacingMark
            | GeneralCategory::SpacingMark
            | GeneralCategory::EnclosingMark
            | GeneralCategory::DecimalNumber
            | GeneralCategory::LetterNumber
            | GeneralCategory::ConnectorPunctuation
    )
}

/// Returns whether an anchor keeps a character.
pub fn is_kept_in_anchor(c: char) -> bool
    ensures { result ≡ is_kept_in_anchor c }
{
    c == '-' || is_of_words(GeneralCategory::for_char(c))
}
