//! What a command line chooses among, and which choices do not go together.
ghost use Rattle.std.specs.Prelude.{◌≡◌};
ghost use Rattle.markdown_tool_command.specs.Choices.{checked_format, format_named, has_places, made_format};
ghost use Rattle.markdown_tool_command.specs.Choices.{other_format};

/// What is made of a text.
#[derive(Clone, Copy, Debug, PartialEq, Eq, Drop)]
pub enum Format {
    /// HTML, which is not sanitised.
    Html,
    /// Safe HTML.
    SafeHtml,
    /// A line of JSON for each event, with its range.
    Events,
    /// A line of JSON for each heading, with its range.
    Outline,
    /// A table of contents: a nested Markdown list of links to the headings.
    Contents,
    /// A line of JSON for each link and each image, with its range.
    Links,
    /// A line of JSON for each link label that no reference definition has, with its range.
    Broken,
}

/// What is wrong with a command line whose words are known.
#[derive(Clone, Copy, Debug, PartialEq, Eq, Drop)]
pub enum Misuse {
    /// The format is not offered.
    UnknownFormat,
    /// `--safe` with a format other than HTML.
    SafeWithoutHtml,
    /// `--full-page` with a format other than HTML.
    PageWithoutHtml,
    /// `--title`, `--css`, `--lang` or `--toc` without `--full-page`.
    PartWithoutPage,
    /// `--images`, `--id-prefix`, `--no-rel` or `--nesting` without `--safe`.
    RuleWithoutSafe,
    /// `--positions` with a format that is not lines of JSON.
    PositionsWithoutLines,
}

/// What is chosen beside a format.
#[derive(Clone, Copy, Debug, PartialEq, Eq, Drop)]
pub struct Choices {
    /// `--safe` is given.
    pub safe: bool,
    /// `--full-page` is given.
    pub page: bool,
    /// A part of the page is asked for: its title, its style sheet, its language or its contents.
    pub part: bool,
    /// A rule of safe HTML is asked for: what becomes of images, a prefix of ids, no `rel`, or a limit of nesting.
    pub rule: bool,
    /// `--positions` is given.
    pub positions: bool,
}

impl Misuse {
    /// Returns the message for the user.
    pub fn text(self) -> &'static str {
        match self {
            Misuse::UnknownFormat => "the format is not offered",
            Misuse::SafeWithoutHtml => "--safe is for --to html alone",
            Misuse::PageWithoutHtml => "--full-page is for --to html alone",
            Misuse::PartWithoutPage => "--title, --css, --lang and --toc need --full-page",
            Misuse::RuleWithoutSafe => "--images, --id-prefix, --no-rel and --nesting need --safe",
            Misuse::PositionsWithoutLines => {
                "--positions is for --to events, outline, links and broken"
            }
        }
    }
}

/// The names of the formats. HTML is safe or not by a flag of its own.
pub static FORMATS: [&str; 6] = ["html", "events", "outline", "toc", "links", "broken"];

/// Returns the format of this name, or `None` where none is offered.
pub fn format_named(name: &str) -> Option<Format>
    ensures { result ≡ format_named name.now }
{
    Some(match name {
        "html" => Format::Html,
        "events" => Format::Events,
        "outline" => Format::Outline,
        "toc" => Format::Contents,
        "links" => Format::Links,
        "broken" => Format::Broken,
        _ => return None,
    })
}

/// Returns the format that is made where one other than HTML is named.
fn other_format(named: Format, choices: Choices) -> Result<Format, Misuse>
    ensures { result ≡ other_format named choices }
{
    if choices.safe {
        return Err(Misuse::SafeWithoutHtml);
    }
    if choices.page {
        return Err(Misuse::PageWithoutHtml);
    }
    Ok(named)
}

/// Returns the format that is made where one is named and no part of a page is asked for without the page: safe HTML for
/// HTML if `safe` is set.
fn made_format(named: Format, choices: Choices) -> Result<Format, Misuse>
    ensures { result ≡ made_format named choices }
{
    match named {
        Format::Html => Ok(if choices.safe {
            Format::SafeHtml
        } else {
            named
        }),
        _ => other_format(named, choices),
    }
}

/// Returns whether a format is lines of JSON with ranges, which may have the lines and columns of their ranges.
fn has_places(format: Format) -> bool
    ensures { result ≡ has_places format }
{
    match format {
        Format::Events | Format::Outline | Format::Links | Format::Broken => true,
        Format::Html | Format::SafeHtml | Format::Contents => false,
    }
}

/// Returns the format that is made where one is named, with these choices: safe HTML for HTML if `safe` is set. Of several
/// mistakes it is the first in the order of `PartWithoutPage`, `RuleWithoutSafe`, `SafeWithoutHtml`, `PageWithoutHtml`, `PositionsWithoutLines`.
pub fn checked_format(named: Format, choices: Choices) -> Result<Format, Misuse>
    ensures { result ≡ checked_format named choices }
{
    if choices.part && !choices.page {
        return Err(Misuse::PartWithoutPage);
    }
    if choices.rule && !choices.safe {
        return Err(Misuse::RuleWithoutSafe);
    }
    let made = made_format(named, choices)?;
    if choices.positions && !has_places(made) {
        return Err(Misuse::PositionsWithoutLines);
    }
    Ok(made)
}
