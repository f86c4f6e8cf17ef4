//! Laws of the events of texts: functions without code, whose clauses state them.
ghost use Rattle.markdown_event_laws.specs.EventsOfTexts.{ReadingsAreNested, ReadingsPass, TextsAreNested, TextsPass};
ghost use Rattle.markdown_event_laws.specs.NestedEvents.{headings_are_apart, items_are_in_lists, table_parts_are_alone};
ghost use Rattle.markdown_event_laws.specs.NestedEvents.{tables_are_whole};

/// States that the events of each block result are nested, for all answers of a callback, and so are those of its text:
/// each End is that of the nearest Start that is still open.
pub fn events_of_texts_are_nested()
    ensures readings { ReadingsAreNested }
    ensures texts { TextsAreNested }
{}

/// States that the tables among the events of a text's block result are whole, for all answers of a callback, and so
/// are those among the events of the text: each begins with its one head, rows stand directly in tables alone and cells
/// in heads and rows alone, and no table is in a table.
pub fn tables_of_texts_are_whole()
    ensures readings { ReadingsPass tables_are_whole }
    ensures texts { TextsPass tables_are_whole }
{}

/// States that nothing but their parts stands directly in the tables among the events of a text's block result, nor in
/// the heads and rows of these, for all answers of a callback; and so it is among the events of the text.
pub fn only_parts_stand_in_tables()
    ensures readings { ReadingsPass table_parts_are_alone }
    ensures texts { TextsPass table_parts_are_alone }
{}

/// States that the list items among the events of a text's block result stand directly in lists, and that these lists
/// hold items alone, for all answers of a callback; and so it is among the events of the text.
pub fn items_of_texts_are_in_lists()
    ensures readings { ReadingsPass items_are_in_lists }
    ensures texts { TextsPass items_are_in_lists }
{}

/// States that no heading among the events of a text's block result stands in a heading, for all answers of a callback;
/// nor does one among the events of the text.
pub fn no_heading_is_in_a_heading()
    ensures readings { ReadingsPass headings_are_apart }
    ensures texts { TextsPass headings_are_apart }
{}
