//! What the program `markdown` writes for a request, and the program over any files.
#![tactic(auto)]

mod additions;
pub mod failure;
mod file;
pub mod files;
mod headings;
mod lint;
mod metadata;
pub mod output;
mod page;
pub mod run;
pub mod text;

pub use files::Files;
pub use output::output_of;
pub use run::run_tool;
