//! The page that HTML stands in.
ghost use Rattle.std.specs.Prelude.{◌≡◌, ◌++◌, OnOk, IfOk, IfErr, string_bytes};
ghost use Rattle.markdown_page.specs.PageHtml.{before_title, contents_part, html_char, html_escaped};
ghost use Rattle.markdown_page.specs.PageHtml.{language_attribute, page_body, page_head, page_html};
ghost use Rattle.markdown_page.specs.PageHtml.{style_link, style_of, style_part, title_element};

use crate::style::default_style;
use markdown_base::fault::Fault;
use std::alloc::Global;

/// Where a page has its style from.
#[derive(Debug, Clone, Copy)]
pub enum Style<'a> {
    /// The default style stands in the page.
    Default,
    /// The page links to the style sheet at this address.
    Link(&'a str),
    /// The page has no style.
    Nothing,
}

impl<'a> Style<'a> {
    /// Returns the style that an address asks for: an empty address stands for none, and the default is taken where no address
    /// is given.
    pub fn of(address: Option<&'a str>) -> Style<'a>
        ensures { result ≡ style_of address.entry }
    {
        match address {
            None => Style::Default,
            Some(address) if address.is_empty() => Style::Nothing,
            Some(address) => Style::Link(address),
        }
    }
}

/// What a page is made of.
#[derive(Debug, Clone, Copy)]
pub struct Page<'a> {
    /// The tag of its language, as `en`.
    pub language: Option<&'a str>,
    /// Its title, as text.
    pub title: &'a str,
    /// Where it has its style from.
    pub style: Style<'a>,
    /// The HTML of its contents, which is left out if empty.
    pub contents: &'a str,
    /// The HTML in it.
    pub html: &'a str,
}

/// Appends a character, escaped.
fn push_escaped_char(html: &mut String, c: char) -> Result<(), Fault>
    ensures ok { OnOk result (string_bytes html.new ≡ string_bytes html.old ++ html_char c) }
    ensures refused { IfErr result (λ fault. fault ≡ Fault.Memory) }
{
    match c {
        '<' => html.push_str("&lt;")?,
        '>' => html.push_str("&gt;")?,
        '&' => html.push_str("&amp;")?,
        '"' => html.push_str("&quot;")?,
        _ => html.push(c)?,
    }
    Ok(())
}

/// Appends a text with `<`, `>`, `&` and `"` escaped, for an element or for an attribute in quotes.
fn push_escaped(html: &mut String, text: &str) -> Result<(), Fault>
    ensures ok { OnOk result
        (string_bytes html.new ≡ string_bytes html.old ++ html_escaped text.now) }
    ensures refused { IfErr result (λ fault. fault ≡ Fault.Memory) }
{
    for c in text.chars() {
        push_escaped_char(html, c)?;
    }
    Ok(())
}

/// Appends a text, escaped, between two pieces of HTML.
fn push_between(html: &mut String, before: &str, text: &str, after: &str) -> Result<(), Fault>
    ensures ok { OnOk result (string_bytes html.new
        ≡ string_bytes html.old ++ (before.now ++ html_escaped text.now ++ after.now)) }
    ensures refused { IfErr result (λ fault. fault ≡ Fault.Memory) }
{
    html.push_str(before)?;
    push_escaped(html, text)?;
    html.push_str(after)?;
    Ok(())
}

/// Appends HTML between two lines.
fn push_within(html: &mut String, before: &str, inside: &str, after: &str) -> Result<(), Fault>
    ensures ok { OnOk result (string_bytes html.new
        ≡ string_bytes html.old ++ (before.now ++ inside.now ++ after.now)) }
    ensures refused { IfErr result (λ fault. fault ≡ Fault.Memory) }
{
    html.push_str(before)?;
    html.push_str(inside)?;
    html.push_str(after)?;
    Ok(())
}

/// Appends the attribute that names a language, where one is given.
fn push_language(html: &mut String, language: Option<&str>) -> Result<(), Fault>
    ensures ok { OnOk result
        (string_bytes html.new ≡ string_bytes html.old ++ language_attribute language.entry) }
    ensures refused { IfErr result (λ fault. fault ≡ Fault.Memory) }
{
    match language {
        Some(language) => push_between(html, " lang=\"", language, "\""),
        None => Ok(()),
    }
}

/// Appends what stands before the title of a page.
fn push_before_title(html: &mut String, language: Option<&str>) -> Result<(), Fault>
    ensures ok { OnOk result
        (string_bytes html.new ≡ string_bytes html.old ++ before_title language.entry) }
    ensures refused { IfErr result (λ fault. fault ≡ Fault.Memory) }
{
    html.push_str("<!DOCTYPE html>\n<html")?;
    push_language(html, language)?;
    html.push_str(
        ">\n<head>\n<meta charset=\"utf-8\">\n<meta name=\"viewport\" content=\"width=device-width, initial-scale=1\">\n",
    )?;
    Ok(())
}

/// Appends the style of a page.
fn push_style(html: &mut String, style: Style<'_>) -> Result<(), Fault>
    ensures ok { OnOk result
        (string_bytes html.new ≡ string_bytes html.old ++ style_part style.entry) }
    ensures refused { IfErr result (λ fault. fault ≡ Fault.Memory) }
{
    match style {
        Style::Default => push_within(html, "<style>\n", default_style(), "</style>\n"),
        Style::Link(address) => {
            push_between(html, "<link rel=\"stylesheet\" href=\"", address, "\">\n")
        }
        Style::Nothing => Ok(()),
    }
}

/// Appends what a page says of itself, up to its body.
fn push_head(html: &mut String, page: &Page<'_>) -> Result<(), Fault>
    ensures ok { OnOk result
        (string_bytes html.new ≡ string_bytes html.old ++ page_head page.now) }
    ensures refused { IfErr result (λ fault. fault ≡ Fault.Memory) }
{
    push_before_title(html, page.language)?;
    push_between(html, "<title>", page.title, "</title>\n")?;
    push_style(html, page.style)?;
    html.push_str("</head>\n<body>\n")?;
    Ok(())
}

/// Appends the contents of a page, where there are any.
fn push_contents(html: &mut String, contents: &str) -> Result<(), Fault>
    ensures ok { OnOk result
        (string_bytes html.new ≡ string_bytes html.old ++ contents_part contents.now) }
    ensures refused { IfErr result (λ fault. fault ≡ Fault.Memory) }
{
    if contents.is_empty() {
        return Ok(());
    }
    push_within(html, "<nav>\n", contents, "</nav>\n")
}

/// Appends the body of a page.
fn push_body(html: &mut String, page: &Page<'_>) -> Result<(), Fault>
    ensures ok { OnOk result
        (string_bytes html.new ≡ string_bytes html.old ++ page_body page.now) }
    ensures refused { IfErr result (λ fault. fault ≡ Fault.Memory) }
{
    push_contents(html, page.contents)?;
    push_within(html, "<main>\n", page.html, "</main>\n")
}

/// Returns a page.
pub fn page_html(alloc: Global, page: &Page<'_>) -> Result<String, Fault>
    ensures html { IfOk result (λ html. string_bytes html ≡ page_html page.now) }
    ensures refused { IfErr result (λ fault. fault ≡ Fault.Memory) }
{
    let mut html = String::new(alloc);
    push_head(&mut html, page)?;
    push_body(&mut html, page)?;
    html.push_str("</body>\n</html>\n")?;
    Ok(html)
}
