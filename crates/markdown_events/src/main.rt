//! The program: reads Markdown from standard input, and writes its events to standard output, as lines of JSON.
#![tactic(auto)]

use markdown_render::command::command_words;
use markdown_text_json::run::run;
use std::process::ExitCode;

fn main(rt: HostRuntime) -> ExitCode {
    let mut err = rt.stderr();
    ExitCode::from(match command_words(&rt, &mut err) {
        Ok(words) => run(
            rt.alloc(),
            &words,
            &mut rt.stdin(),
            &mut rt.stdout(),
            &mut err,
        ),
        Err(status) => status,
    })
}
