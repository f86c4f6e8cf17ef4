//! Laws of look-ups and of closing brackets, in a reader's words: functions without code.
ghost use Rattle.std.specs.Prelude.{ℕ, ⊤, Bool};
ghost use Rattle.markdown_base.specs.Questions.{Question, Answers};
ghost use Rattle.markdown_brackets.specs.NoLinkInLink.{NoLinkLaw};
ghost use Rattle.markdown_document.specs.Setting.{DefinitionsByLabel};
ghost use Rattle.markdown_brackets.specs.BracketLaws.{ClosedLaw, ChainLaw};
ghost use Rattle.markdown_brackets.specs.BracketNotes.{BracketNoteLaw};
ghost use Rattle.markdown_brackets.specs.BracketWeight.{BracketWeightLaw};
ghost use Rattle.markdown_brackets.specs.ChainBegins.{BeginsLaw};
ghost use Rattle.markdown_brackets.specs.KeptShapes.{KeptShapesLaw};
ghost use Rattle.markdown_brackets.specs.QuestionEnds.{QuestionCountLaw, QuestionEndsLaw};
ghost use Rattle.markdown_brackets.specs.QuietItems.{QuietItemsLaw};
ghost use Rattle.markdown_brackets.specs.LookupLaws.{AsksOnceAtMost, FindsNothingAtZero, HandsOnLaterAnswers};
ghost use Rattle.markdown_brackets.specs.LookupLaws.{TakesItsBytes};

/// States that a look-up asks at most one question, and that at a limit of 0 it asks none and finds nothing.
pub fn look_up_asks_once_at_most(limit: usize)
    ensures once { (defined : DefinitionsByLabel) (asks : Bool) (answers : Answers) (q : Question)
        → AsksOnceAtMost defined asks limit answers q }
    ensures zero { (defined : DefinitionsByLabel) (asks : Bool) (answers : Answers) (q : Question)
        → FindsNothingAtZero defined asks answers q }
{}

/// States that a look-up with one answer for each question has the same result whatever answers follow, and leaves
/// those.
pub fn look_up_hands_on_later_answers(limit: usize)
    ensures { (defined : DefinitionsByLabel) (asks : Bool) (q : Question) (answers later : Answers)
        → HandsOnLaterAnswers defined asks limit q answers later }
{}

/// States that a look-up lowers the limit by at most the number of bytes of what it finds.
pub fn look_up_takes_its_bytes(limit: usize)
    ensures { (defined : DefinitionsByLabel) (asks : Bool) (answers : Answers) (q : Question)
        → TakesItsBytes defined asks limit answers q }
{}

/// States that a `]` asks at most one question, and none at a limit of 0, and that with one answer for each question it
/// has the same effect on a chain whatever answers follow, and leaves those.
pub fn closing_bracket_asks_once_at_most()
    ensures { ClosedLaw ℕ × ClosedLaw ⊤ }
{}

/// States that a chain with one answer for each question is read in the same way whatever answers follow, and leaves
/// those, if this holds for the rule for items other than brackets.
pub fn chain_hands_on_later_answers()
    ensures { ChainLaw ℕ × ChainLaw ⊤ }
{}

/// States that a chain asks at most one question for each of its `]`, and none at a limit of 0, if the rule for items
/// other than brackets asks none.
pub fn chain_asks_once_for_each_bracket()
    ensures { QuestionCountLaw ℕ × QuestionCountLaw ⊤ }
{}

/// States that no two questions of a chain end at the same byte offset, if its items are in order and their source is
/// their markup, the rule for items other than brackets asks no questions, and no line prefix contains a `[`.
pub fn no_two_questions_end_together()
    ensures { QuestionEndsLaw ℕ × QuestionEndsLaw ⊤ }
{}

/// States that no link contains a link other than an autolink once a chain is read, if the chain contains no links
/// other than autolinks and the rule for items other than brackets adds none. Those to addresses count as autolinks
/// where addresses are on.
pub fn no_link_stands_in_a_link()
    ensures { NoLinkLaw ℕ × NoLinkLaw ⊤ }
{}

/// States that reading does not increase the weight of a chain, if the rule for items other than brackets adds at most
/// the weight of its item.
pub fn brackets_make_no_chain_heavier()
    ensures { BracketWeightLaw ℕ × BracketWeightLaw ⊤ }
{}

/// States that brackets leave nothing open: all that is read passes a test that each event and each enclosing tag
/// passes, if what the rule for other items adds passes it, and what is below the chain's items.
pub fn brackets_leave_nothing_open()
    ensures { KeptShapesLaw ℕ × KeptShapesLaw ⊤ }
{}

/// States that brackets do not depend on notes: a chain without its notes is read as the chain is, except for the notes,
/// if this holds for the rule for items other than brackets.
pub fn notes_say_nothing_to_brackets()
    ensures { BracketNoteLaw ℕ ⊤ }
{}

/// States that a chain whose first item is open, once it is read, begins with a tree that passes any test that each
/// event and each enclosing tag passes, if the first tree that the rule for other items adds passes it. So the first
/// tree is never plain.
pub fn first_tree_of_an_open_chain_passes()
    ensures { BeginsLaw ℕ × BeginsLaw ⊤ }
{}

/// States that a chain in which only delimiter runs and quotes are open is left unchanged, and asks no questions, if
/// the rule for items other than brackets leaves such items unchanged.
pub fn runs_and_quotes_are_left_alone()
    ensures { QuietItemsLaw ℕ × QuietItemsLaw ⊤ }
{}
