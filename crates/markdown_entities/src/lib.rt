//! The named entities of HTML: what each name stands for.
#![tactic(auto)]

pub mod named_entity;
mod table;
