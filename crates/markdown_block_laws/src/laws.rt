//! Sentences of CommonMark about blocks, as laws of their definition: functions without code.
ghost use Rattle.markdown_block_laws.specs.BlockLaws.{BlankLineEndsQuote, IndentationBeforeTextMayBeLeftOut};
ghost use Rattle.markdown_block_laws.specs.BlockLaws.{IndentedLineGoesIntoItem, IndentedLinesMakeItem};
ghost use Rattle.markdown_block_laws.specs.BlockLaws.{ItemMayBeginWithBlankLine, LineChangesTheLastBlock};
ghost use Rattle.markdown_block_laws.specs.BlockLaws.{MarkedLineGoesIntoQuote};
ghost use Rattle.markdown_block_laws.specs.BlockLaws.{MarkerBeforeTextMayBeLeftOut, OnlyParagraphsGoOnLazily};
ghost use Rattle.markdown_block_laws.specs.BlockLaws.{QuotedLinesMakeQuote};
ghost use Rattle.markdown_block_laws.specs.ExampleTrees.{HaveTrees, ResultsAreWritten};
ghost use Rattle.markdown_block_laws.specs.ExamplesOfUnderlines.{examples_of_underlines};
ghost use Rattle.markdown_block_laws.specs.ItemsInPlace.{ItemsOfTextsInPlace};
ghost use Rattle.markdown_block_laws.specs.LeafLaws.{HeadingsAndBreaksEnd, IndentedCodeEndsBeforeText, FencedCodeGoesOn};
ghost use Rattle.markdown_block_laws.specs.LeafLaws.{ClosedCodeEnds, ClosingFenceClosesCode, HtmlGoesOn, EndConditionEndsHtml};
ghost use Rattle.markdown_block_laws.specs.LeafLaws.{BlankLineEndsHtml, BlankLineEndsParagraph};
ghost use Rattle.markdown_block_laws.specs.LeafLaws.{MetadataGoesOn, ClosingLineClosesMetadata, ClosedMetadataEnds};
ghost use Rattle.markdown_block_laws.specs.LineLaws.{LineIsItsContent};
ghost use Rattle.markdown_block_laws.specs.ListLaws.{ListIsLooseAsSaid};
ghost use Rattle.markdown_block_rules.specs.MadeLater.{NothingIsMadeLater};
ghost use Rattle.markdown_block_laws.specs.MetadataLaws.{MetadataIsOutermost};
ghost use Rattle.markdown_block_laws.specs.TableLaws.{FewCellsAreAdded, RowsAreEven};
ghost use Rattle.markdown_block_laws.specs.TablesInPlace.{TablesOfTextsInPlace};
ghost use Rattle.markdown_block_laws.specs.TaskLaws.{TaskMarkersComeFirst};

/// States that bytes without line endings, and a line ending of any kind, are a line with these bytes (2.1).
pub fn a_line_is_its_content()
    ensures { LineIsItsContent }
{}

/// States that lines that all begin with a block quote marker make one block quote, and in it the blocks that they make
/// without the marker (5.1, basic case).
pub fn quoted_lines_make_a_quote()
    ensures { QuotedLinesMakeQuote }
{}

/// States that a line with the marker goes into a block quote: what is in it has one line more (5.1).
pub fn a_marked_line_goes_into_the_quote()
    ensures { MarkedLineGoesIntoQuote }
{}

/// States that the marker may be left out before paragraph continuation text (5.1, laziness).
pub fn the_marker_before_text_may_be_left_out()
    ensures { MarkerBeforeTextMayBeLeftOut }
{}

/// States that only a paragraph continues on a line that lacks the marker: a block quote that ends with no paragraph
/// ends before it (5.1).
pub fn only_paragraphs_go_on_lazily()
    ensures { OnlyParagraphsGoOnLazily }
{}

/// States that a blank line ends a block quote (5.1, consecutiveness).
pub fn a_blank_line_ends_a_quote()
    ensures { BlankLineEndsQuote }
{}

/// States that a line that begins a list item, and lines with the indentation of its content, make a list of one item,
/// and in it the blocks that they make without marker and indentation (5.2, rules 1 and 2).
pub fn indented_lines_make_an_item()
    ensures { IndentedLinesMakeItem }
{}

/// States the same for an item that begins with a blank line, followed by one that is not blank (5.2, rule 3).
pub fn an_item_may_begin_with_a_blank_line()
    ensures { ItemMayBeginWithBlankLine }
{}

/// States that a line with the indentation of the last item's content goes into that item (5.2).
pub fn an_indented_line_goes_into_the_item()
    ensures { IndentedLineGoesIntoItem }
{}

/// States that the indentation may be left out before paragraph continuation text (5.2, laziness).
pub fn the_indentation_before_text_may_be_left_out()
    ensures { IndentationBeforeTextMayBeLeftOut }
{}

/// States that one more line changes the last block alone: the blocks before it stay.
pub fn a_line_changes_the_last_block_alone()
    ensures { LineChangesTheLastBlock }
{}

/// States that a list is loose exactly where two of its items are separated by a blank line, or one of them directly
/// contains two blocks with a blank line between them (5.3).
pub fn a_list_is_loose_as_said()
    ensures { ListIsLooseAsSaid }
{}

/// States that thematic breaks and headings end with their line (4.1, 4.2, 4.3).
pub fn headings_and_breaks_end_with_their_line()
    ensures { HeadingsAndBreaksEnd }
{}

/// States that indented code ends before a line that is neither blank nor indented (4.4).
pub fn indented_code_ends_before_text()
    ensures { IndentedCodeEndsBeforeText }
{}

/// States that fenced code goes on in each line that is no closing fence (4.5).
pub fn fenced_code_goes_on_to_its_closing_fence()
    ensures { FencedCodeGoesOn }
{}

/// States that a closing fence closes fenced code (4.5).
pub fn a_closing_fence_closes_code()
    ensures { ClosingFenceClosesCode }
{}

/// States that closed code ends before the next line (4.5).
pub fn closed_code_ends_before_a_line()
    ensures { ClosedCodeEnds }
{}

/// States that an HTML block goes on in each line, but one of some kinds not in a blank line (4.6).
pub fn html_goes_on_to_its_end_condition()
    ensures { HtmlGoesOn }
{}

/// States that an HTML block ends with a line that meets its end condition (4.6).
pub fn an_end_condition_ends_html()
    ensures { EndConditionEndsHtml }
{}

/// States that a blank line ends an HTML block of a kind that ends there (4.6).
pub fn a_blank_line_ends_html()
    ensures { BlankLineEndsHtml }
{}

/// States that metadata goes on in each line that does not close it.
pub fn metadata_goes_on_to_its_closing_line()
    ensures { MetadataGoesOn }
{}

/// States that a closing line closes metadata.
pub fn a_closing_line_closes_metadata()
    ensures { ClosingLineClosesMetadata }
{}

/// States that closed metadata ends before the next line.
pub fn closed_metadata_ends_before_a_line()
    ensures { ClosedMetadataEnds }
{}

/// States that a blank line ends a paragraph (4.8).
pub fn a_blank_line_ends_a_paragraph()
    ensures { BlankLineEndsParagraph }
{}

/// States that list items stand directly in lists and nowhere else, and that a list holds items alone (5.2, 5.3).
pub fn list_items_are_in_lists()
    ensures { ItemsOfTextsInPlace }
{}

/// States that a table directly contains its head and then its rows, that each of these contains cells, as many as the
/// table has alignments, and that cells contain inline items alone.
pub fn rows_are_even()
    ensures { RowsAreEven }
{}

/// States that heads, rows and cells are nowhere but in a table, in this order, and that no table is in a table.
pub fn table_parts_are_in_tables()
    ensures { TablesOfTextsInPlace }
{}

/// States that the cells that are added to the rows of a text's tables are no more than its bytes, or than 1,000 where
/// it has fewer bytes.
pub fn few_cells_are_added()
    ensures { FewCellsAreAdded }
{}

/// States that a task marker comes first in a paragraph or a heading that is directly in a list item, and that nothing is
/// below it.
pub fn task_markers_come_first()
    ensures { TaskMarkersComeFirst }
{}

/// States that metadata is directly under the root, and that what it contains are texts with nothing below them.
pub fn metadata_is_outermost()
    ensures { MetadataIsOutermost }
{}

/// States which blocks these examples have, by computation: definitions, and then a line that would underline a paragraph.
/// There is nothing that it could underline, so that it is read as other lines that reach a paragraph are.
pub fn lines_that_underline_nothing_have_their_blocks()
    ensures { HaveTrees examples_of_underlines }
{}

/// States that a block result of an example's text, whatever it is, is the blocks that are written with the example.
pub fn examples_have_their_results()
    ensures { ResultsAreWritten }
{}

/// States that no item of a text's blocks refers to what only resolving a chain makes.
pub fn nothing_is_made_later()
    ensures { NothingIsMadeLater }
{}
