//! Laws of readings with answers: functions without code, whose clauses state them.
ghost use Rattle.markdown_text_records.specs.AnswersInOrder.{AnswersInOrder, NoneAtTheEnd};

/// States that the elements of a reading up to and including a question depend on the answers to the questions before
/// it alone.
pub fn answers_are_used_in_order()
    ensures { AnswersInOrder }
{}

/// States that a text is read with answers of `None` after all others as it is without them.
pub fn no_answer_is_none()
    ensures { NoneAtTheEnd }
{}
