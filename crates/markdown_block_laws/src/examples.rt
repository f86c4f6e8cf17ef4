//! The blocks of CommonMark's examples, by computation: functions without code. Written by `.ci/examples`.
ghost use Rattle.markdown_block_laws.specs.ExampleTrees.{HaveTrees};
ghost use Rattle.markdown_block_laws.specs.ExamplesOfLines.{examples_of_lines};
ghost use Rattle.markdown_block_laws.specs.ExamplesOfHeadings.{examples_of_headings};
ghost use Rattle.markdown_block_laws.specs.ExamplesOfCode.{examples_of_code};
ghost use Rattle.markdown_block_laws.specs.ExamplesOfHtml.{examples_of_html};
ghost use Rattle.markdown_block_laws.specs.ExamplesOfDefinitions.{examples_of_definitions};
ghost use Rattle.markdown_block_laws.specs.ExamplesOfContainers.{examples_of_containers};
ghost use Rattle.markdown_block_laws.specs.ExamplesOfSpans.{examples_of_spans};
ghost use Rattle.markdown_block_laws.specs.ExamplesOfEmphasis.{examples_of_emphasis};
ghost use Rattle.markdown_block_laws.specs.ExamplesOfLinks.{examples_of_links};

/// States that these examples have the blocks that are written with them: Tabs, Backslash escapes,
/// Entities, Precedence, Paragraphs and Blank lines.
pub fn examples_of_lines_have_their_blocks()
    ensures { HaveTrees examples_of_lines }
{}

/// States that these examples have the blocks that are written with them: Thematic breaks, ATX
/// headings and Setext headings.
pub fn examples_of_headings_have_their_blocks()
    ensures { HaveTrees examples_of_headings }
{}

/// States that these examples have the blocks that are written with them: Indented code and Fenced
/// code.
pub fn examples_of_code_have_their_blocks()
    ensures { HaveTrees examples_of_code }
{}

/// States that these examples have the blocks that are written with them: HTML blocks.
pub fn examples_of_html_have_their_blocks()
    ensures { HaveTrees examples_of_html }
{}

/// States that these examples have the blocks that are written with them: Link reference
/// definitions.
pub fn examples_of_definitions_have_their_blocks()
    ensures { HaveTrees examples_of_definitions }
{}

/// States that these examples have the blocks that are written with them: Block quotes, List items
/// and Lists.
pub fn examples_of_containers_have_their_blocks()
    ensures { HaveTrees examples_of_containers }
{}

/// States that these examples have the blocks that are written with them: Inlines, Code spans,
/// Autolinks, Raw HTML, Hard line breaks, Soft line breaks and Textual content.
pub fn examples_of_spans_have_their_blocks()
    ensures { HaveTrees examples_of_spans }
{}

/// States that these examples have the blocks that are written with them: Emphasis.
pub fn examples_of_emphasis_have_their_blocks()
    ensures { HaveTrees examples_of_emphasis }
{}

/// States that these examples have the blocks that are written with them: Links and Images.
pub fn examples_of_links_have_their_blocks()
    ensures { HaveTrees examples_of_links }
{}
