//! The rules for a chain that do not call the callback: container prefixes, code spans, math spans, and what begins at
//! a `<`.
#![tactic(auto)]

pub mod after_less;
pub mod laws;
mod math_opener;
pub mod prefixes;
pub mod span_closers;
mod span_marks;
pub mod span_text;
