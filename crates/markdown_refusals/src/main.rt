//! Checks the state after a refused allocation. The program is run with each allocation refused in turn, and checks for
//! each call that what is promised holds; otherwise it exits with status 1. Where the refused allocation was one for what
//! a call is compared with, as the events of a run without refusals, it says so; without a refusal it never does.
//!
//! With the argument `readings` it only reads texts, for which the same is promised where each later allocation is
//! refused too. With `quiet` it makes the calls that do not allocate instead, and with `still` only what these calls need:
//! both runs make the same number of allocations.
#![tactic(auto)]

mod asked;
mod events;
mod lists;
mod quiet;
mod readings;
mod rows;
mod tables;
mod texts;
mod trees;
mod tries;

use std::alloc::Global;
use std::env::{self, Env};
use std::io;
use std::process::ExitCode;

/// Returns the first argument, or the error of an allocation.
fn first_word(rt: &(impl Env + AllocGlobal)) -> io::Result<Option<String>> {
    let mut args = env::args(rt)?;
    drop(args.next());
    Ok(args.next())
}

/// Returns the first promise that does not hold, and where, and counts those that were not compared.
fn broken(alloc: Global, uncompared: &mut usize) -> Option<(&'static str, &'static str)> {
    let all = rows::all(alloc);
    for (name, holds) in &all {
        match *holds {
            Some(true) => {}
            Some(false) => return Some((*name, "")),
            None => *uncompared = uncompared.saturating_add(1),
        }
    }
    readings::broken(alloc, uncompared)
}

/// Returns the same, with an argument that of the readings alone, or of the calls that do not allocate.
fn check_try(
    alloc: Global,
    word: Option<String>,
    uncompared: &mut usize,
) -> Option<(&'static str, &'static str)> {
    let Some(word) = word else {
        let first = broken(alloc, uncompared);
        if first.is_none() && *uncompared > 1 {
            return Some(("one refusal is one of what is compared with", ""));
        }
        return first;
    };
    if word.as_str() == "readings" {
        return readings::broken(alloc, uncompared);
    }
    if quiet::gives(alloc, word.as_str() == "quiet") == Ok(true) {
        return None;
    }
    Some(("calls without memory", ""))
}

fn main(rt: HostRuntime) -> ExitCode {
    let mut uncompared = 0usize;
    let found = match first_word(&rt) {
        Ok(word) => check_try(rt.alloc(), word, &mut uncompared),
        Err(_) => {
            uncompared = 1;
            None
        }
    };
    match found {
        None => {
            let _ = rt.println(if uncompared == 0 {
                "all that is promised stands"
            } else {
                "all that is promised stands, where it was compared"
            });
            ExitCode::SUCCESS
        }
        Some((name, text)) => {
            let _ = rt.println(name);
            let _ = rt.println(text);
            ExitCode::FAILURE
        }
    }
}
