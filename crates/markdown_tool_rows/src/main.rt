//! Checks tables of texts against what the program `markdown` writes for each. Each argument names a file; a line of it
//! is the head of a section, an object, or a row of the section above it, an array: a text, what is written, and perhaps
//! why. Standard output then has each row for which something else is written, with its file, line and section, and the
//! number of rows of each file.
#![tactic(auto)]

mod file;
mod memory;
mod section;

use file::Rows;
use std::alloc::Global;
use std::process::ExitCode;
use std::test::Fail;
use std::{env, fs};

/// Checks the rows of a file, prints what was found, and returns whether each row has what is written.
fn check_file(rt: &HostRuntime, name: &str) -> Result<bool, Fail> {
    let bytes = fs::read(rt, name)?;
    let text = String::from_utf8(bytes)?;
    let mut rows = Rows::of_file(rt.alloc(), name);
    for line in text.as_str().lines() {
        rows.check(line)?;
    }
    rows.end()?;
    rt.print(rows.report())?;
    Ok(rows.are_right())
}

fn main(rt: HostRuntime) -> Result<ExitCode, Fail> {
    let mut right = true;
    let mut names = env::args(&rt)?;
    drop(names.next());
    for name in names {
        right = check_file(&rt, name.as_str())? && right;
    }
    Ok(if right {
        ExitCode::SUCCESS
    } else {
        ExitCode::FAILURE
    })
}
