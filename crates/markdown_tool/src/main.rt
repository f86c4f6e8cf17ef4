//! The program `markdown`: reads Markdown from files or standard input, and writes HTML, events, an outline or a table of
//! contents.
#![tactic(auto)]

mod system;

use markdown_tool_output::run_tool;
use std::process::ExitCode;
use system::{System, words_of};

fn main(rt: HostRuntime) -> ExitCode {
    let mut err = rt.stderr();
    let words = match words_of(&rt, &mut err) {
        Ok(words) => words,
        Err(status) => return ExitCode::from(status),
    };
    let mut files = System::new(&rt);
    ExitCode::from(run_tool(rt.alloc(), words.as_slice(), &mut files, &mut err))
}
