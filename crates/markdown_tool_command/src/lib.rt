//! The command line of the program `markdown`: its words, read as a request.
#![tactic(auto)]

pub mod choices;
pub mod extensions;
mod lists;
pub mod parse;
pub mod request;
pub mod rules;
mod values;

pub use choices::{Format, Misuse};
pub use parse::{VERSION, request_of};
pub use request::{Page, Request, STANDARD};
pub use rules::Rules;
