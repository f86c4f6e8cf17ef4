//! Tests of what no clause says of block results and the crates below: a module for each topic. They are in a crate of
//! their own, so that no library is proved a second time with its tests.
#![tactic(auto)]

#[cfg(test)]
mod allocations;
#[cfg(test)]
mod block_builder;
#[cfg(test)]
mod block_pass;
#[cfg(test)]
mod block_rules;
#[cfg(test)]
mod blocks;
#[cfg(test)]
mod blocks_of_text;
#[cfg(test)]
mod bodies;
#[cfg(test)]
mod brackets;
#[cfg(test)]
mod callbacks;
#[cfg(test)]
mod code;
#[cfg(test)]
mod containers_of_text;
#[cfg(test)]
mod definitions_of_text;
#[cfg(test)]
mod line_items;
#[cfg(test)]
mod look_ups;
#[cfg(test)]
mod rows;
#[cfg(test)]
mod texts;
#[cfg(test)]
mod trees;
