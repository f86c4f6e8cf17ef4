//! The library for C and for everything that calls C: the HTML, the events, the headings and the
//! records of a text.
//! include/markdown.h declares its functions.
#![tactic(auto)]

mod buffer;
pub mod calls;
mod choice;
mod readings;
pub mod record_calls;
mod records;
