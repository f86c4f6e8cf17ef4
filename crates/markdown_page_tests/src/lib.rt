//! Tests of pages and of where their titles come from. A module for each topic.
#![tactic(auto)]

#[cfg(test)]
mod page;
#[cfg(test)]
mod title;
