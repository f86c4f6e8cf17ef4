//! Laws of the look-ups: functions without code, whose contracts are statements in `specs/`.
ghost use Rattle.markdown_defs.specs.LookUpLaws.{FindsFirstMatch, FindsNamed, MatchingKeysAgree, MatchingNamesAgree};
ghost use Rattle.markdown_defs.specs.LookUpLaws.{TestsMatching};

/// States that a key finds the first definition whose label matches it by default caseless matching, and nothing if
/// none does.
pub fn a_key_finds_the_first_match()
    ensures { FindsFirstMatch }
{}

/// States that keys that match by default caseless matching find the same definition.
pub fn matching_keys_agree()
    ensures { MatchingKeysAgree }
{}

/// States that the test by which footnotes are counted and written is default caseless matching.
pub fn names_are_tested_by_matching()
    ensures { TestsMatching }
{}

/// States that initially a name finds a footnote if it matches one of the names passed in, and nothing otherwise.
pub fn a_name_finds_what_matches()
    ensures { FindsNamed }
{}

/// States that names that match by default caseless matching find the same footnote.
pub fn matching_names_agree()
    ensures { MatchingNamesAgree }
{}
