//! The HTML of CommonMark's examples, by computation: functions without code. Written by `.ci/examples`.
ghost use Rattle.markdown_html_examples.specs.ExampleHtml.{HaveHtml};
ghost use Rattle.markdown_html_examples.specs.HtmlOfLines.{html_of_lines};
ghost use Rattle.markdown_html_examples.specs.HtmlOfHeadings.{html_of_headings};
ghost use Rattle.markdown_html_examples.specs.HtmlOfCode.{html_of_code};
ghost use Rattle.markdown_html_examples.specs.HtmlOfHtml.{html_of_html};
ghost use Rattle.markdown_html_examples.specs.HtmlOfDefinitions.{html_of_definitions};
ghost use Rattle.markdown_html_examples.specs.HtmlOfContainers.{html_of_containers};
ghost use Rattle.markdown_html_examples.specs.HtmlOfItems.{html_of_items};
ghost use Rattle.markdown_html_examples.specs.HtmlOfLists.{html_of_lists};
ghost use Rattle.markdown_html_examples.specs.HtmlOfSpans.{html_of_spans};
ghost use Rattle.markdown_html_examples.specs.HtmlOfEmphasis.{html_of_emphasis};
ghost use Rattle.markdown_html_examples.specs.HtmlOfLinks.{html_of_links};

/// States that these examples have the HTML that is written with them: Tabs, Backslash escapes,
/// Entities, Precedence, Paragraphs and Blank lines.
pub fn html_of_lines_is_as_written()
    ensures { HaveHtml html_of_lines }
{}

/// States that these examples have the HTML that is written with them: Thematic breaks, ATX
/// headings and Setext headings.
pub fn html_of_headings_is_as_written()
    ensures { HaveHtml html_of_headings }
{}

/// States that these examples have the HTML that is written with them: Indented code and Fenced
/// code.
pub fn html_of_code_is_as_written()
    ensures { HaveHtml html_of_code }
{}

/// States that these examples have the HTML that is written with them: HTML blocks.
pub fn html_of_html_is_as_written()
    ensures { HaveHtml html_of_html }
{}

/// States that these examples have the HTML that is written with them: Link reference definitions.
pub fn html_of_definitions_is_as_written()
    ensures { HaveHtml html_of_definitions }
{}

/// States that these examples have the HTML that is written with them: Block quotes.
pub fn html_of_containers_is_as_written()
    ensures { HaveHtml html_of_containers }
{}

/// States that these examples have the HTML that is written with them: List items.
pub fn html_of_items_is_as_written()
    ensures { HaveHtml html_of_items }
{}

/// States that these examples have the HTML that is written with them: Lists.
pub fn html_of_lists_is_as_written()
    ensures { HaveHtml html_of_lists }
{}

/// States that these examples have the HTML that is written with them: Inlines, Code spans,
/// Autolinks, Raw HTML, Hard line breaks, Soft line breaks and Textual content.
pub fn html_of_spans_is_as_written()
    ensures { HaveHtml html_of_spans }
{}

/// States that these examples have the HTML that is written with them: Emphasis.
pub fn html_of_emphasis_is_as_written()
    ensures { HaveHtml html_of_emphasis }
{}

/// States that these examples have the HTML that is written with them: Links and Images.
pub fn html_of_links_is_as_written()
    ensures { HaveHtml html_of_links }
{}
