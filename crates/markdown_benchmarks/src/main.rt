//! Work to be measured: each line of standard input names a task and its size, as `render 1000`. For each the program
//! prints the number of bytes, events or finds of the task.
#![tactic(auto)]

mod events;
mod labels;
mod look_ups;
mod scans;
mod tasks;

use std::alloc::Global;
use std::io::{Read, Write};
use std::process::ExitCode;

/// Returns all of the input as a text.
fn text_of<R: Read>(alloc: Global, input: &mut R) -> Option<String> {
    let mut bytes = Vec::new(alloc);
    input.read_to_end(&mut bytes).ok()?;
    String::from_utf8(bytes).ok()
}

/// Returns the line that is printed for a line that names a task and its size, or says what is wrong with it.
fn answer_of(alloc: Global, line: &str) -> Result<String, &'static str> {
    let (task, size) = tasks::task_and_size(line).ok_or("no task and size\n")?;
    let number = tasks::run(alloc, task, size).ok_or("no such task, or out of memory\n")?;
    format!(in alloc; "{line}: {number}\n").or(Err("out of memory\n"))
}

/// Prints the answer for each line, up to the first that has none. Returns whether each has one.
fn prints_answers<W: Write>(alloc: Global, text: &str, out: &mut W) -> bool {
    for line in text.lines() {
        let answer = answer_of(alloc, line);
        let printed = match &answer {
            Ok(answer) => answer.as_str(),
            Err(said) => said,
        };
        if out.write_all(printed.as_bytes()).is_err() || answer.is_err() {
            return false;
        }
    }
    true
}

fn main(rt: HostRuntime) -> ExitCode {
    let alloc = rt.alloc();
    let Some(text) = text_of(alloc, &mut rt.stdin()) else {
        return ExitCode::FAILURE;
    };
    let succeeds = prints_answers(alloc, text.as_str(), &mut rt.stdout());
    ExitCode::from(u8::from(!succeeds))
}
