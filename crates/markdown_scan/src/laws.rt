//! Laws of the scanners, in a reader's words: functions without code.
ghost use Rattle.markdown_scan.specs.ScanLaws.{AutolinkIsPlain, BareDestinationHoldsNoSpace};
ghost use Rattle.markdown_scan.specs.ScanLaws.{EntityBeginsAndEnds, EscapedPunctuationStandsForItself};
ghost use Rattle.markdown_scan.specs.ScanLaws.{LabelHoldsNoBareBracket};
ghost use Rattle.markdown_scan.specs.ScanLaws.{LineSpaceIsCountedByColumns, TabGoesToTheNextStop};
ghost use Rattle.markdown_scan.specs.ScanLaws.{UnescapingLeavesPlainText, WikilinkNameHoldsNoPipe};

use crate::entity::EntityNames;

/// States that an autolink's text contains no space, no control character and no angle bracket.
pub fn autolink_is_plain(text: &[u8], at: usize)
    ensures { AutolinkIsPlain text.now at }
{}

/// States that `unescape` leaves a text without backslashes and `&` unchanged.
pub fn unescaping_leaves_plain_text(names: EntityNames, in_table: bool, text: &[u8])
    ensures { UnescapingLeavesPlainText names in_table text.now }
{}

/// States that outside of tables a backslash before ASCII punctuation is replaced by that punctuation.
pub fn escaped_punctuation_stands_for_itself(names: EntityNames, mark: u8, text: &[u8])
    ensures { EscapedPunctuationStandsForItself names mark text.now }
{}

/// States that the name before a wikilink's pipe contains no pipe.
pub fn wikilink_name_holds_no_pipe(text: &[u8], start: usize, size: usize)
    ensures { WikilinkNameHoldsNoPipe text.now start size }
{}

/// States that the first byte of an entity is `&` and the last is `;`.
pub fn entity_begins_and_ends(names: EntityNames, bytes: &[u8])
    ensures { EntityBeginsAndEnds names bytes.now }
{}

/// States that a link destination without angle brackets contains no space and no control character.
pub fn bare_destination_holds_no_space(bytes: &[u8], max_nesting: usize)
    ensures { BareDestinationHoldsNoSpace max_nesting bytes.now }
{}

/// States that each bracket in a link label is escaped by a backslash, whatever the rule for its lines.
pub fn label_holds_no_bare_bracket(bytes: &[u8], in_table: bool)
    ensures { LabelHoldsNoBareBracket in_table bytes.now }
{}

/// States that at most three spaces followed by a tab are four columns of space, and that reading these leaves nothing
/// of the tab.
pub fn tab_goes_to_the_next_stop(spaces: usize, bytes: &[u8])
    ensures { TabGoesToTheNextStop spaces bytes.now }
{}

/// States that taking n and then m columns of a line's space is the same as taking n + m columns.
pub fn line_space_is_counted_by_columns(n: usize, m: usize)
    ensures { LineSpaceIsCountedByColumns n m }
{}
