//! Tests of what no clause says of the program `markdown`: its messages, and what it does where a file cannot be read or
//! written.
#![tactic(auto)]

#[cfg(test)]
mod commands;
#[cfg(test)]
mod failures;
#[cfg(test)]
mod outputs;
#[cfg(test)]
mod shelf;
