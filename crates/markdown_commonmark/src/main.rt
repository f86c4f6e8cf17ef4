//! Renders texts by the full reading: standard input has texts with U+001E between them, and standard output then has
//! the HTML of each, followed by U+001E.
#![tactic(auto)]

use markdown_base::fault::Fault;
use markdown_base::options::Options;
use markdown_defs::DefaultBrokenLinkCallback;
use markdown_render::render_extended;
use markdown_render::run::{Failure, print, read_text, report};
use std::alloc::Global;
use std::io::{Read, Write};
use std::process::ExitCode;

/// What is between two texts; no example has it.
const SEPARATOR: &str = "\u{1e}";

/// Returns the HTML of each text, each followed by the separator.
fn html_of_each(alloc: Global, texts: &str) -> Result<String, Fault> {
    let mut all = String::new(alloc);
    for text in texts.split(SEPARATOR) {
        let nobody = None::<DefaultBrokenLinkCallback>;
        let html = render_extended(alloc, text, Options::empty(), nobody)?;
        all.push_str(html.as_str())?;
        all.push_str(SEPARATOR)?;
    }
    Ok(all)
}

/// Reads all of the input, and writes the HTML of its texts.
fn convert<R: Read, W: Write>(alloc: Global, input: &mut R, out: &mut W) -> Result<(), Failure> {
    let texts = read_text(alloc, input)?;
    let html = html_of_each(alloc, texts.as_str())?;
    print(out, html.as_str())
}

fn main(rt: HostRuntime) -> ExitCode {
    let outcome = convert(rt.alloc(), &mut rt.stdin(), &mut rt.stdout());
    ExitCode::from(report(outcome, &mut rt.stderr()))
}
