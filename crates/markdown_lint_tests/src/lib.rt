//! Tests of the lines of JSON that linters and link checkers read.
#![tactic(auto)]

#[cfg(test)]
mod lint_lines;
