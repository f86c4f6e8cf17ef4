//! Command lines that are wrong, and those that ask for help or the version.
use crate::shelf::after_run;
use markdown_test_helpers::rows::Rows;
use std::alloc::Global;
use std::io::ErrorKind;
use std::test::Fail;

/// Words, and how what is said begins.
const WRONG: &[(&[&str], &str)] = &[
    (&["--none"], "error: unexpected argument '--none' found\n"),
    (
        &["-t", "pdf"],
        "error: invalid value 'pdf' for '--to <FORMAT>'\n  [possible values: html, events, outline, toc, links, broken]\n",
    ),
    (&["-o"], "error: a value is required for '--output <FILE>'"),
    (
        &["-e"],
        "error: a value is required for '--extension <LIST>'",
    ),
];

/// Words that clap takes, and what is said between `error: ` and the usage. Of several mistakes the first in this order is
/// said.
const MISUSES: &[(&[&str], &str)] = &[
    (
        &["--title", "a", "a.md"],
        "--title, --css, --lang and --toc need --full-page",
    ),
    (
        &["--css", "a", "--safe", "-t", "toc", "-e", "b", "a.md"],
        "--title, --css, --lang and --toc need --full-page",
    ),
    (
        &["--lang", "en", "--safe", "-t", "links", "a.md"],
        "--title, --css, --lang and --toc need --full-page",
    ),
    (
        &["--toc", "-t", "toc", "a.md"],
        "--title, --css, --lang and --toc need --full-page",
    ),
    (
        &["--images", "links", "a.md"],
        "--images, --id-prefix, --no-rel and --nesting need --safe",
    ),
    (
        &["--id-prefix", "a", "-t", "toc", "-e", "b", "a.md"],
        "--images, --id-prefix, --no-rel and --nesting need --safe",
    ),
    (
        &["--no-rel", "-f", "-t", "events", "a.md"],
        "--images, --id-prefix, --no-rel and --nesting need --safe",
    ),
    (
        &["--nesting", "a", "--positions", "a.md"],
        "--images, --id-prefix, --no-rel and --nesting need --safe",
    ),
    (
        &["--title", "a", "--no-rel", "a.md"],
        "--title, --css, --lang and --toc need --full-page",
    ),
    (
        &["--safe", "-t", "events", "a.md"],
        "--safe is for --to html alone",
    ),
    (
        &["--safe", "-f", "-t", "toc", "-e", "b", "a.md"],
        "--safe is for --to html alone",
    ),
    (
        &["-f", "-t", "outline", "-e", "b", "a.md"],
        "--full-page is for --to html alone",
    ),
    (
        &["-f", "-t", "links", "a.md"],
        "--full-page is for --to html alone",
    ),
    (
        &["--positions", "a.md"],
        "--positions is for --to events, outline, links and broken",
    ),
    (
        &["--positions", "-t", "toc", "-e", "b", "a.md"],
        "--positions is for --to events, outline, links and broken",
    ),
    (
        &["--positions", "-f", "-t", "toc", "a.md"],
        "--full-page is for --to html alone",
    ),
    (
        &["-e", "tabels", "a.md"],
        "'tabels' is no extension; see --help for their names",
    ),
    (
        &["-e", "math,b,c", "-e", "d", "a.md"],
        "'b' is no extension; see --help for their names",
    ),
    (
        &["-e", "", "a.md"],
        "'' is no extension; see --help for their names",
    ),
    (
        &["-e", "math,", "a.md"],
        "'' is no extension; see --help for their names",
    ),
    (
        &["-e", "math, smart", "a.md"],
        "' smart' is no extension; see --help for their names",
    ),
    (
        &["-e", "Math", "a.md"],
        "'Math' is no extension; see --help for their names",
    ),
    (
        &["-e", "no-tabels", "a.md"],
        "'no-tabels' is no extension; see --help for their names",
    ),
    (
        &["-e", "no-no-math", "a.md"],
        "'no-no-math' is no extension; see --help for their names",
    ),
    (
        &["-e", "no-", "a.md"],
        "'no-' is no extension; see --help for their names",
    ),
    (
        &["--safe", "--images", "none", "-e", "b", "a.md"],
        "'b' is no extension; see --help for their names",
    ),
    (
        &["--safe", "--nesting", "a", "--images", "Links", "a.md"],
        "'Links' is none of what images become: shown, links or text",
    ),
    (
        &["--safe", "--nesting", "", "--limit", "a", "a.md"],
        "'' is no number below 2^64",
    ),
    (
        &["--limit", "18446744073709551616", "a.md"],
        "'18446744073709551616' is no number below 2^64",
    ),
    (&["--limit", "1k", "a.md"], "'1k' is no number below 2^64"),
];

/// What follows a mistake.
const USAGE: &str =
    "\n\nUsage: markdown [OPTIONS] [FILE]...\n\nFor more information, try '--help'.\n";

#[test]
fn wrong_words(rt: HostRuntime) -> Result<(), Fail> {
    let mut rows = Rows::new();
    for (words, said) in WRONG {
        let left = after_run(rt.alloc(), words, None)?;
        let is_said = left.message.as_str().starts_with(said);
        rows.gives(
            (*words, left.message.as_str()),
            (left.status, left.reads, is_said, left.written.as_str()),
            (2, 0, true, ""),
        );
    }
    rows.end()
}

/// Returns what is said between `error: ` and the usage, if it stands so.
fn mistake(message: &str) -> Option<&str> {
    message.strip_prefix("error: ")?.strip_suffix(USAGE)
}

#[test]
fn misuses(rt: HostRuntime) -> Result<(), Fail> {
    let mut rows = Rows::new();
    for (words, said) in MISUSES {
        let left = after_run(rt.alloc(), words, None)?;
        rows.gives(
            *words,
            (
                left.status,
                left.reads,
                mistake(left.message.as_str()),
                left.written.as_str(),
            ),
            (2, 0, Some(*said), ""),
        );
    }
    rows.end()
}

/// What help shows, after the name of standard output.
const HELP: &str = "-: \
Turn Markdown into HTML, events, an outline, a table of contents or lists of links.

Usage: markdown [OPTIONS] [FILE]...

Arguments:
  [FILE]...  The files to read; - or none is standard input

Options:
  -t, --to <FORMAT>       What to write [default: html] [possible values: html, events, outline, toc, links, broken]
      --safe              Write safe HTML, for texts of strangers
      --images <KIND>     What images become in safe HTML: shown, links or text [default: shown]
      --id-prefix <TEXT>  What follows user-content- in the ids of safe HTML
      --no-rel            Leave the rel of links to other sites out of safe HTML
      --nesting <NUMBER>  How many tags may stand in one another in safe HTML [default: 128]
  -e, --extension <LIST>  Enable extensions, with commas between; no-NAME disables one; may be repeated
  -a, --all-extensions    Enable all extensions but old-footnotes
      --gfm               Enable the extensions of GitHub, which are marked with a *
  -f, --full-page         Write a whole page of HTML, with heading-ids
      --title <TITLE>     The title of the page [default: that of the text, or the name of the first file]
      --css <URL>         The style sheet of the page, in place of the default style; '' for none
      --lang <TAG>        The language of the page
      --toc               Begin the page with a table of contents
      --positions         Add lines and columns to lines of JSON
      --lossy             Read bytes that are not UTF-8 as U+FFFD
      --limit <BYTES>     Write nothing, and fail, if it would be more bytes
  -o, --output <FILE>     The file to write; - is standard output [default: -]
  -h, --help              Print help
  -V, --version           Print version

Extensions: alerts*, autolinks*, footnotes*, heading-attributes, heading-ids*, math, old-footnotes, pluses, smart,
strikethrough*, subscript, superscript, tables*, tasklists*, wikilinks, yaml.

Exit status: 0 if all was written, 1 if something failed, 2 if the command line is wrong.
";

#[test]
fn help(rt: HostRuntime) -> Result<(), Fail> {
    let mut rows = Rows::new();
    for words in [["-h"], ["--help"]] {
        let left = after_run(rt.alloc(), words.as_slice(), None)?;
        rows.gives(
            words.as_slice(),
            (left.status, left.message.as_str(), left.written.as_str()),
            (0, "", HELP),
        );
    }
    rows.end()
}

#[test]
fn the_version(rt: HostRuntime) -> Result<(), Fail> {
    let mut rows = Rows::new();
    for words in [["-V"], ["--version"]] {
        let left = after_run(rt.alloc(), words.as_slice(), None)?;
        rows.gives(
            words.as_slice(),
            (left.status, left.message.as_str(), left.written.as_str()),
            (0, "", "-: markdown 0.10.0\n"),
        );
    }
    let cut = after_run(rt.alloc(), &["--help"], Some(ErrorKind::BrokenPipe))?;
    rows.gives("a closed pipe", (cut.status, cut.message.as_str()), (1, ""));
    rows.end()
}
